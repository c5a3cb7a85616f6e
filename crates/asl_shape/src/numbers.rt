//! Types in which no name of a body stands: their widths and constraints as numbers.
ghost use Rattle.std.specs.Prelude.{◌≡◌, ◌≤◌, ◌^◌, pos, ◌≤ℤ◌, unsigned_abs};
ghost use Rattle.asl_poly.specs.Terms.{value};
ghost use Rattle.asl_poly.specs.Fractions.{fraction_at};
ghost use Rattle.asl_rules.specs.types.Closed as rules;
ghost use Rattle.asl_shape.specs.private.Numbers.{last_number, over, range};

use crate::matching::is_at_most;
use asl_cons::{End, Part};
use asl_poly::{Atom, Poly};

/// The number that the terms of a width are, over its denominator.
#[tactic(auto, using(crate::proofs::AtZero::last_is, crate::proofs::AtZero::none_is, crate::proofs::AtZero::light_is))]
fn terms_number(width: &Poly) -> i128
    ensures is { result ≡ value (λ n. pos 0) width.now.terms }
    ensures light { unsigned_abs result ≤ 2 ^ 62 }
{
    let count = width.terms();
    if count == 0 {
        return 0;
    }
    match width.term(count - 1) {
        Some((coefficient, factors)) => number_in(coefficient, factors),
        None => 0,
    }
}

/// The number in the last term, which has no factors where there is one.
fn number_in(coefficient: i128, factors: &[Atom]) -> i128
    ensures { result ≡ last_number coefficient factors.now }
{
    match factors.split_first() {
        None => coefficient,
        Some((_, _)) => 0,
    }
}

/// A number over a denominator, rounded down.
fn rounded_down(number: i128, denominator: i128) -> i128
    requires positive { pos 1 ≤ℤ denominator }
    requires light { unsigned_abs number ≤ 2 ^ 62 }
    ensures is { result ≡ rules.floor (over number (unsigned_abs denominator)) }
    ensures light { unsigned_abs result ≤ 2 ^ 62 }
{
    number.div_euclid(denominator)
}

/// How many bits a width is where that is a whole number. Else it is -1, a width that no bits have.
pub(crate) fn number_of(width: &Poly) -> i128
    ensures { result ≡ rules.width_at width.now (λ n. pos 0) }
{
    let number = terms_number(width);
    let denominator = width.denominator();
    if number.rem_euclid(denominator) == 0 {
        rounded_down(number, denominator)
    } else {
        -1
    }
}

/// The least integer that is not below a width.
fn ceiling_of(width: &Poly) -> i128
    ensures { result ≡ rules.ceiling (fraction_at (λ n. pos 0) width.now) }
{
    -rounded_down(-terms_number(width), width.denominator())
}

/// The greatest integer that is not above a width.
fn floor_of(width: &Poly) -> i128
    ensures { result ≡ rules.floor (fraction_at (λ n. pos 0) width.now) }
{
    rounded_down(terms_number(width), width.denominator())
}

/// The least integer from a low end on.
#[tactic(auto, using(crate::proofs::WholeEnds::whole_ceiling))]
fn low_of(end: &End) -> i128
    ensures { result ≡ rules.ceiling (rules.end_at end.now (λ n. pos 0)) }
{
    match end {
        End::Int(z) => *z,
        End::Width(width) => ceiling_of(width),
    }
}

/// The greatest integer up to a high end.
#[tactic(auto, using(crate::proofs::WholeEnds::whole_floor))]
fn high_of(end: &End) -> i128
    ensures { result ≡ rules.floor (rules.end_at end.now (λ n. pos 0)) }
{
    match end {
        End::Int(z) => *z,
        End::Width(width) => floor_of(width),
    }
}

/// Whether an integer lies between two.
fn is_in_one(z: i128, low: i128, high: i128) -> bool
    ensures { result ≡ rules.in_one z (range low high) }
{
    is_at_most(low, z) && is_at_most(z, high)
}

/// Whether an integer lies in one of some parts.
#[tactic(auto, using(crate::proofs::Ranges::in_here, crate::proofs::Ranges::in_later, crate::proofs::Ranges::in_none))]
fn is_in_some(z: i128, parts: &[Part]) -> bool
    ensures { result ≡ rules.in_some z (rules.ranges_at parts.now (λ n. pos 0)) }
{
    for part in parts {
        if is_in_one(z, low_of(&part.low), high_of(&part.high)) {
            return true;
        }
    }
    false
}

/// Whether an integer lies in a constraint, which is whole where it has no parts.
#[tactic(auto, using(crate::proofs::Ranges::whole_has, crate::proofs::Ranges::parts_have))]
pub(crate) fn is_in(z: i128, parts: &[Part]) -> bool
    ensures { result ≡ rules.is_in z (rules.constraint_at parts.now (λ n. pos 0)) }
{
    if parts.is_empty() {
        true
    } else {
        is_in_some(z, parts)
    }
}

/// The first integer of the first part that isn't empty.
#[tactic(auto, using(crate::proofs::Ranges::lowest_here, crate::proofs::Ranges::lowest_later, crate::proofs::Ranges::lowest_none))]
fn lowest(parts: &[Part]) -> Option<i128>
    ensures { result ≡ rules.lowest (rules.ranges_at parts.now (λ n. pos 0)) }
{
    for part in parts {
        let low = low_of(&part.low);
        if is_at_most(low, high_of(&part.high)) {
            return Some(low);
        }
    }
    None
}

/// The integer that a variable in a constraint begins with, where there is one: 0 where it may be, else the lowest of the first
/// part that isn't empty.
#[tactic(auto, using(crate::proofs::Ranges::first_whole, crate::proofs::Ranges::first_zero, crate::proofs::Ranges::first_lowest))]
pub(crate) fn first_in(parts: &[Part]) -> Option<i128>
    ensures { result ≡ rules.first_in (rules.constraint_at parts.now (λ n. pos 0)) }
{
    if parts.is_empty() {
        return Some(0);
    }
    if is_in_some(0, parts) {
        return Some(0);
    }
    lowest(parts)
}
