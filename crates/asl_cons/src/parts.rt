//! What an operator makes of two parts, `None` where that is not one part.

ghost use Rattle.std.specs.Prelude.{◌≡◌, ◌<◌, ℤ, pos, ◌*ℤ◌, IfOk, MatchOption};
ghost use Rattle.asl_num.specs.Exact.{floor_div};
ghost use Rattle.asl_cons.specs.declared.End.TheVariants.{Int};
ghost use Rattle.asl_cons.specs.Constraint.{IsEnd, IsFixed};
ghost use Rattle.asl_cons.specs.Arithmetic.{part, range_of, point_in, sum_part, difference_part, product_range, scaled_part, product_part, modulo_part, quotient_part, shifted_up_part, shifted_down_part};

use crate::ends::{Operation, combined, copy_end, number_of, within_limits};
use crate::integers::{least, most, product, quotient, shifted_up};
use crate::{End, Part};
use std::alloc::{AllocError, Global};

// The ends of a constant part.
pub(crate) fn range_of(p: &Part) -> Option<(i128, i128)>
    ensures number { result ≡ range_of p.now }
    ensures value { MatchOption result ((l h : ℤ) → IsFixed p.now l h → ⊥) (λ r. IsFixed p.now r.0 r.1) }
{
    let low = number_of(&p.low)?;
    let high = number_of(&p.high)?;
    Some((low, high))
}

// The ends of a part that are no integers are polynomials within the limits. This says so of them, and does nothing.
pub(crate) fn part_within_limits(p: &Part)
    ensures low { IsEnd p.now.low }
    ensures high { IsEnd p.now.high }
{
    within_limits(&p.low);
    within_limits(&p.high);
}

// A copy of a part.
pub(crate) fn copy_part(alloc: Global, p: &Part) -> Result<Part, AllocError>
    ensures { IfOk result (λ r. r ≡ p.now) }
{
    let low = copy_end(alloc, &p.low)?;
    let high = copy_end(alloc, &p.high)?;
    Ok(Part { low, high })
}

// The integer of a range of one integer, where it is `least` or more.
fn point_in(least: u32, r: (i128, i128)) -> Option<i128>
    ensures { result ≡ point_in least r.0 r.1 }
{
    if r.0 == r.1 && least as i128 <= r.0 {
        Some(r.0)
    } else {
        None
    }
}

// The constant part from `low` to `high`.
fn integers(low: i128, high: i128) -> Part
    ensures { result ≡ part (Int low) (Int high) }
{
    Part {
        low: End::Int(low),
        high: End::Int(high),
    }
}

// The part from the sum of the low ends to that of the high ends.
pub(crate) fn sum_part(alloc: Global, p: &Part, q: &Part) -> Result<Option<Part>, AllocError>
    ensures { IfOk result (λ r. r ≡ sum_part p.now q.now) }
{
    let Some(low) = combined(alloc, Operation::Sum, &p.low, &q.low)? else {
        return Ok(None);
    };
    let Some(high) = combined(alloc, Operation::Sum, &p.high, &q.high)? else {
        return Ok(None);
    };
    Ok(Some(Part { low, high }))
}

// The part from the low end of `p` less the high end of `q` to the high end of `p` less the low end of `q`.
pub(crate) fn difference_part(alloc: Global, p: &Part, q: &Part) -> Result<Option<Part>, AllocError>
    ensures { IfOk result (λ r. r ≡ difference_part p.now q.now) }
{
    let Some(low) = combined(alloc, Operation::Difference, &p.low, &q.high)? else {
        return Ok(None);
    };
    let Some(high) = combined(alloc, Operation::Difference, &p.high, &q.low)? else {
        return Ok(None);
    };
    Ok(Some(Part { low, high }))
}

// The part from the least to the greatest of the four products of the ends.
fn product_range(r: (i128, i128), s: (i128, i128)) -> Option<Part>
    ensures { result ≡ product_range r s }
{
    let a = product(r.0, s.0)?;
    let b = product(r.0, s.1)?;
    let c = product(r.1, s.0)?;
    let d = product(r.1, s.1)?;
    Some(integers(least(a, b, c, d), most(a, b, c, d)))
}

// The part whose ends are those of `q` times the integer of the range `c..c`, which is at least 0.
fn scaled_part(alloc: Global, r: (i128, i128), q: &Part) -> Result<Option<Part>, AllocError>
    ensures { IfOk result (λ p. p ≡ scaled_part r q.now) }
{
    let Some(c) = point_in(0, r) else {
        return Ok(None);
    };
    let factor = End::Int(c);
    let Some(low) = combined(alloc, Operation::Product, &factor, &q.low)? else {
        return Ok(None);
    };
    let Some(high) = combined(alloc, Operation::Product, &factor, &q.high)? else {
        return Ok(None);
    };
    Ok(Some(Part { low, high }))
}

// The product of two constant parts as `product_range` has it; where one alone is constant, the other times its one
// integer as `scaled_part` has it.
pub(crate) fn product_part(alloc: Global, p: &Part, q: &Part) -> Result<Option<Part>, AllocError>
    ensures { IfOk result (λ r. r ≡ product_part p.now q.now) }
{
    match range_of(p) {
        Some(r) => match range_of(q) {
            Some(s) => Ok(product_range(r, s)),
            None => scaled_part(alloc, r, q),
        },
        None => match range_of(q) {
            Some(s) => scaled_part(alloc, s, p),
            None => Ok(None),
        },
    }
}

// The part from 0 to below the one integer of `q`, which is at least 1.
pub(crate) fn modulo_part(q: &Part) -> Option<Part>
    ensures { result ≡ modulo_part q.now }
{
    let m = point_in(1, range_of(q)?)?;
    Some(integers(0, m - 1))
}

// The constant part whose ends are those of `p`, divided by the one integer of `q`, which is at least 1, and rounded
// down.
pub(crate) fn quotient_part(p: &Part, q: &Part) -> Option<Part>
    ensures { result ≡ quotient_part p.now q.now }
{
    let (l, h) = range_of(p)?;
    let m = point_in(1, range_of(q)?)?;
    let low = quotient(l, m)?;
    let high = quotient(h, m)?;
    Some(integers(low, high))
}

// The constant part whose ends are those of `p`, shifted up by the one integer of `q`, which is at least 0.
pub(crate) fn shifted_up_part(p: &Part, q: &Part) -> Option<Part>
    ensures { result ≡ shifted_up_part p.now q.now }
{
    let (l, h) = range_of(p)?;
    let k = point_in(0, range_of(q)?)?;
    let low = shifted_up(l, k)?;
    let high = shifted_up(h, k)?;
    Some(integers(low, high))
}

// The constant part whose ends are those of `p`, shifted down by the one integer of `q`, which is at least 0.
pub(crate) fn shifted_down_part(p: &Part, q: &Part) -> Option<Part>
    ensures { result ≡ shifted_down_part p.now q.now }
{
    let (l, h) = range_of(p)?;
    let k = point_in(0, range_of(q)?)?;
    let low = asl_num::shr(l, k).ok()?;
    let high = asl_num::shr(h, k).ok()?;
    Some(integers(low, high))
}
