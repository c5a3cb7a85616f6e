//! Whether one constraint is below another.

ghost use Rattle.std.specs.Prelude.{◌≡◌, ◌≢◌, ◌↔◌, ◌⊎◌, ℤ, pos, ◌≤ℤ◌, List, [], IsTrue, MatchOption};
ghost use Rattle.asl_cons.specs.declared.End.TheVariants.{Int, Width};
ghost use Rattle.asl_cons.specs.Constraint.{IsFixed, Holds, InFixed, IsAbove, Held, IsCovered, AllCovered};

use crate::integers::at_most;
use crate::parts::{part_within_limits, range_of};
use crate::{End, Part};
use asl_poly::Poly;

// Whether `e` is `f` and one number of at least 0, for all integers at the atoms.
fn above(e: &End, f: &End) -> bool
    ensures { IsTrue result ↔ IsAbove e.now f.now }
{
    match e {
        End::Int(x) => match f {
            End::Int(y) => x >= y,
            End::Width(q) => above_width(*x, q),
        },
        End::Width(p) => match f {
            End::Int(y) => above_integer(p, *y),
            End::Width(q) => match p.offset(q) {
                Some(c) => c >= 0,
                None => false,
            },
        },
    }
}

// The same for an integer above a width, which may be a fraction without atoms.
fn above_width(x: i128, q: &Poly) -> bool
    ensures { IsTrue result ↔ IsAbove (Int x) (Width q.now) }
{
    match q.number() {
        Some(c) => !at_most(x, c - 1, q.denominator()),
        None => false,
    }
}

// The same for a width above an integer.
fn above_integer(p: &Poly, y: i128) -> bool
    ensures { IsTrue result ↔ IsAbove (Width p.now) (Int y) }
{
    match p.number() {
        Some(c) => at_most(y, c, p.denominator()),
        None => false,
    }
}

// Whether the part lies inside one of `qs`, at constant distances from its ends.
fn held(p: &Part, qs: &[Part]) -> bool
    ensures { IsTrue result ↔ Held p.now qs.now }
{
    for q in qs {
        if above(&p.low, &q.low) && above(&q.high, &p.high) {
            return true;
        }
    }
    false
}

// The upper end of the part, where it is constant and `i` lies in it.
fn end_from(q: &Part, i: i128) -> Option<i128>
    ensures { MatchOption result (Holds q.now i → ⊥) (λ h. (i ≤ℤ h) × ((j : ℤ) → i ≤ℤ j → j ≤ℤ h → Holds q.now j)) }
{
    part_within_limits(q);
    match range_of(q) {
        None => None,
        Some((l, h)) => { if l <= i && i <= h { Some(h) } else { None } }
    }
}

// An integer up to which all integers from `i` on lie in constant parts, where `i` does.
fn reach(i: i128, qs: &[Part]) -> Option<i128>
    ensures { MatchOption result (InFixed i qs.now → ⊥) (λ r. (i ≤ℤ r) × ((j : ℤ) → i ≤ℤ j → j ≤ℤ r → InFixed j qs.now)) }
{
    for q in qs {
        if let Some(h) = end_from(q, i) {
            return Some(h);
        }
    }
    None
}

// Whether all integers from `l` to `h` lie in constant parts. The loop goes from part to part, not from integer to integer.
fn covers(l: i128, h: i128, qs: &[Part]) -> bool
    ensures { IsTrue result ↔ ((i : ℤ) → l ≤ℤ i → i ≤ℤ h → InFixed i qs.now) }
{
    let mut i = l;
    while i <= h {
        match reach(i, qs) {
            None => return false,
            Some(r) => {
                if h <= r {
                    return true;
                }
                i = r + 1;
            }
        }
    }
    true
}

// Whether the part is covered by `qs`.
fn covered(p: &Part, qs: &[Part]) -> bool
    ensures { IsTrue result ↔ IsCovered qs.now p.now }
{
    part_within_limits(p);
    match range_of(p) {
        Some((l, h)) => covers(l, h, qs),
        None => held(p, qs),
    }
}

// Whether each part of `ps` is covered by `qs`.
pub(crate) fn all_covered(ps: &[Part], qs: &[Part]) -> bool
    ensures { IsTrue result ↔ AllCovered ps.now qs.now }
{
    for p in ps {
        if !covered(p, qs) {
            return false;
        }
    }
    true
}
