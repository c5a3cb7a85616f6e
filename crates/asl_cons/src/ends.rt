//! The ends of parts, and the arithmetic on them.

ghost use Rattle.std.specs.Prelude.{◌≡◌, ℤ, IfOk, MatchOption};
ghost use Rattle.asl_poly.specs.Poly.{Gives};
ghost use Rattle.asl_cons.specs.Constraint.{HasEnd, IsEnd, poly_of};
ghost use Rattle.asl_cons.specs.Arithmetic.{number_of, exact, shown};
ghost use Rattle.asl_cons.specs.Operation.{Fits, PolyFits, poly_by, number_by, end_by, widths_by};

use crate::End;
use asl_poly::{Poly, PolyRefused};
use std::alloc::{AllocError, Global};

// An operation on two ends.
#[derive(Clone, Copy)]
pub(crate) enum Operation {
    Sum,
    Difference,
    Product,
}

// The integer that an end is, where it has no atom and is whole.
pub(crate) fn number_of(e: &End) -> Option<i128>
    ensures number { result ≡ number_of e.now }
    ensures value { MatchOption result ((c : ℤ) → HasEnd e.now c → ⊥) (λ c. HasEnd e.now c) }
{
    match e {
        End::Int(n) => Some(*n),
        End::Width(p) => p.as_constant(),
    }
}

// An end that is no integer is a polynomial within the limits. This says so of an end, and does nothing.
pub(crate) fn within_limits(e: &End)
    ensures { IsEnd e.now }
{
    if let End::Width(p) = e {
        let _ = p.terms();
    }
}

// A copy of an end.
pub(crate) fn copy_end(alloc: Global, e: &End) -> Result<End, AllocError>
    ensures { IfOk result (λ r. r ≡ e.now) }
{
    match e {
        End::Int(n) => Ok(End::Int(*n)),
        End::Width(p) => Ok(End::Width(p.copy(alloc)?)),
    }
}

// The result on 128-bit integers, `None` where it does not fit.
fn on_integers(op: Operation, x: i128, y: i128) -> Option<i128>
    ensures { result ≡ exact (number_by op x y) }
{
    match op {
        Operation::Sum => asl_num::add(x, y).ok(),
        Operation::Difference => asl_num::sub(x, y).ok(),
        Operation::Product => asl_num::mul(x, y).ok(),
    }
}

// The result on polynomials.
fn on_polys(alloc: Global, op: Operation, p: &Poly, q: &Poly) -> Result<Poly, PolyRefused>
    ensures { Gives (PolyFits op p.now q.now) (poly_by op p.now q.now) result }
{
    match op {
        Operation::Sum => p.add(alloc, q),
        Operation::Difference => p.sub(alloc, q),
        Operation::Product => p.mul(alloc, q),
    }
}

// The result on the two ends as polynomials; `TooLarge` also where an integer is beyond the limit of polynomials.
fn on_widths(alloc: Global, op: Operation, e: &End, f: &End) -> Result<Poly, PolyRefused>
    ensures { Gives (Fits op e.now f.now) (poly_by op (poly_of e.now) (poly_of f.now)) result }
{
    match e {
        End::Int(x) => {
            let p = Poly::constant(alloc, *x)?;
            match f {
                End::Int(y) => {
                    let q = Poly::constant(alloc, *y)?;
                    on_polys(alloc, op, &p, &q)
                }
                End::Width(q) => on_polys(alloc, op, &p, q),
            }
        }
        End::Width(p) => match f {
            End::Int(y) => {
                let q = Poly::constant(alloc, *y)?;
                on_polys(alloc, op, p, &q)
            }
            End::Width(q) => on_polys(alloc, op, p, q),
        },
    }
}

// The polynomial as an end, which is an integer where it is one for all integers at its atoms.
fn shown(p: Poly) -> End
    ensures { result ≡ shown p }
{
    match p.as_constant() {
        Some(c) => End::Int(c),
        None => End::Width(p),
    }
}

// The result on two ends of which one is no integer, `None` beyond the limits of polynomials.
fn widths(alloc: Global, op: Operation, e: &End, f: &End) -> Result<Option<End>, AllocError>
    ensures { IfOk result (λ r. r ≡ widths_by op e.now f.now) }
{
    match on_widths(alloc, op, e, f) {
        Ok(p) => Ok(Some(shown(p))),
        Err(PolyRefused::TooLarge) => Ok(None),
        Err(PolyRefused::NoMemory) => Err(AllocError),
    }
}

// What the operation gives: on two integers a 128-bit integer, and otherwise a polynomial, or the integer that it is; `None`
// where the result does not fit.
pub(crate) fn combined(
    alloc: Global,
    op: Operation,
    e: &End,
    f: &End,
) -> Result<Option<End>, AllocError>
    ensures { IfOk result (λ r. r ≡ end_by op e.now f.now) }
{
    match number_of(e) {
        Some(x) => match number_of(f) {
            Some(y) => Ok(on_integers(op, x, y).map(End::Int)),
            None => widths(alloc, op, e, f),
        },
        None => widths(alloc, op, e, f),
    }
}
