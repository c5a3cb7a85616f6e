//! Integers in constraints: one number, the value of a width, from one number to another, and what operators make of two.

ghost use Rattle.std.specs.Prelude.{◌≡◌, ◌≤◌, ◌^◌, [], ◌∷◌, pos, IfOk};
ghost use Rattle.asl_cons.specs.Arithmetic as cons;
ghost use Rattle.asl_poly.specs.Poly.{constant_map};
ghost use Rattle.asl_rules.specs.types.Types as rules;

use crate::structure::constraint_in;
use crate::ty::Ty;
use asl_cons::{Cons, End, Part};
use asl_poly::{Poly, PolyRefused};
use asl_shared::Shared;
use asl_value::View;
use sqlite_items::Items;
use std::alloc::{AllocError, Global};

/// A width as an end, which is an integer where it has no atom.
pub fn shown(width: Poly) -> End
    ensures { result ≡ cons.shown width }
{
    match width.as_constant() {
        Some(c) => End::Int(c),
        None => End::Width(width),
    }
}

/// The constraint that one part gives.
fn one_part(alloc: Global, low: End, high: End) -> Result<Cons, AllocError>
    ensures { IfOk result (λ c. c ≡ cons.part low high ∷ []) }
{
    let mut parts = Vec::new(alloc);
    parts.push(Part { low, high })?;
    Cons::from_parts(alloc, parts)
}

/// The constraint that one number gives.
pub fn only_number(alloc: Global, number: i128) -> Result<Cons, AllocError>
    ensures { IfOk result (λ c. c ≡ rules.only_number number) }
{
    one_part(alloc, End::Int(number), End::Int(number))
}

/// The constraint that the value of a width gives.
pub fn only_width(alloc: Global, width: &Poly) -> Result<Cons, AllocError>
    ensures { IfOk result (λ c. c ≡ rules.only_width width.now) }
{
    let low = shown(width.copy(alloc)?);
    let high = shown(width.copy(alloc)?);
    one_part(alloc, low, high)
}

/// The constraint from one number to another.
pub fn from_to(alloc: Global, low: i128, high: i128) -> Result<Cons, AllocError>
    ensures { IfOk result (λ c. c ≡ rules.from_to low high) }
{
    one_part(alloc, End::Int(low), End::Int(high))
}

/// Integers in this constraint.
pub fn integers(alloc: Global, constraint: Cons) -> Result<Ty, AllocError>
    ensures { IfOk result (λ it. it ≡ rules.integer_of constraint) }
{
    Ok(Ty::integer(Shared::new(alloc, constraint)?))
}

/// Integers in no constraint.
pub fn any_integer(alloc: Global) -> Result<Ty, AllocError>
    ensures { IfOk result (λ it. it ≡ rules.integer_of []) }
{
    integers(alloc, Cons::whole(alloc))
}

/// Bits of this width without bitfields.
pub fn bits_of(alloc: Global, width: Poly) -> Result<Ty, AllocError>
    ensures { IfOk result (λ it. it ≡ rules.bits_of width []) }
{
    let view: View = Shared::new(alloc, Items::new(alloc))?;
    Ok(Ty::bits(Shared::new(alloc, width)?, view))
}

/// A width that is this number.
pub(crate) fn constant_width(alloc: Global, width: u64) -> Result<Poly, AllocError>
    requires { width ≤ 2 ^ 62 }
    ensures { IfOk result (λ p. p ≡ constant_map (pos width)) }
{
    match Poly::constant(alloc, i128::from(width)) {
        Ok(p) => Ok(p),
        Err(PolyRefused::TooLarge) => unreachable!(),
        Err(PolyRefused::NoMemory) => Err(AllocError),
    }
}

/// Bits of a width that is a number, at most 2^62, without bitfields.
pub fn bits_wide(alloc: Global, width: u64) -> Result<Ty, AllocError>
    requires { width ≤ 2 ^ 62 }
    ensures { IfOk result (λ it. it ≡ rules.bits_wide width) }
{
    bits_of(alloc, constant_width(alloc, width)?)
}

/// The constraint of a type, which is the whole one where it has none.
fn constraint_or<'t>(ty: &'t Ty, whole: &'t Cons) -> &'t Cons
    requires { whole.now ≡ [] }
    ensures { result.now ≡ rules.constraint_of ty.now }
{
    match constraint_in(ty) {
        Some(constraint) => constraint,
        None => whole,
    }
}

/// The integers that `-e` gives, which is as `0 - e`.
pub fn negated(alloc: Global, ty: &Ty) -> Result<Ty, AllocError>
    ensures { IfOk result (λ it. it ≡ rules.integer_of (cons.difference_parts (rules.only_number (pos 0)) (rules.constraint_of ty.now))) }
{
    let whole = Cons::whole(alloc);
    let zero = only_number(alloc, 0)?;
    integers(alloc, zero.sub(alloc, constraint_or(ty, &whole))?)
}

/// The integers that a sum of these gives.
pub fn sum(alloc: Global, ty: &Ty, other: &Ty) -> Result<Ty, AllocError>
    ensures { IfOk result (λ it. it ≡ rules.integer_of (cons.sum_parts (rules.constraint_of ty.now) (rules.constraint_of other.now))) }
{
    let whole = Cons::whole(alloc);
    integers(
        alloc,
        constraint_or(ty, &whole).add(alloc, constraint_or(other, &whole))?,
    )
}

/// The integers that a difference of these gives.
pub fn difference(alloc: Global, ty: &Ty, other: &Ty) -> Result<Ty, AllocError>
    ensures { IfOk result (λ it. it ≡ rules.integer_of (cons.difference_parts (rules.constraint_of ty.now) (rules.constraint_of other.now))) }
{
    let whole = Cons::whole(alloc);
    integers(
        alloc,
        constraint_or(ty, &whole).sub(alloc, constraint_or(other, &whole))?,
    )
}

/// The integers that a product of these gives.
pub fn product(alloc: Global, ty: &Ty, other: &Ty) -> Result<Ty, AllocError>
    ensures { IfOk result (λ it. it ≡ rules.integer_of (cons.product_parts (rules.constraint_of ty.now) (rules.constraint_of other.now))) }
{
    let whole = Cons::whole(alloc);
    integers(
        alloc,
        constraint_or(ty, &whole).mul(alloc, constraint_or(other, &whole))?,
    )
}

/// The integers that a quotient of these gives, rounded down.
pub fn quotient(alloc: Global, ty: &Ty, other: &Ty) -> Result<Ty, AllocError>
    ensures { IfOk result (λ it. it ≡ rules.integer_of (cons.quotient_parts (rules.constraint_of ty.now) (rules.constraint_of other.now))) }
{
    let whole = Cons::whole(alloc);
    integers(
        alloc,
        constraint_or(ty, &whole).div_floor(alloc, constraint_or(other, &whole))?,
    )
}

/// The integers that a remainder of these gives.
pub fn modulo(alloc: Global, ty: &Ty, other: &Ty) -> Result<Ty, AllocError>
    ensures { IfOk result (λ it. it ≡ rules.integer_of (cons.modulo_parts (rules.constraint_of ty.now) (rules.constraint_of other.now))) }
{
    let whole = Cons::whole(alloc);
    integers(
        alloc,
        constraint_or(ty, &whole).modulo(alloc, constraint_or(other, &whole))?,
    )
}

/// The integers that a shift of these to the left gives.
pub fn shifted_up(alloc: Global, ty: &Ty, other: &Ty) -> Result<Ty, AllocError>
    ensures { IfOk result (λ it. it ≡ rules.integer_of (cons.shifted_up_parts (rules.constraint_of ty.now) (rules.constraint_of other.now))) }
{
    let whole = Cons::whole(alloc);
    integers(
        alloc,
        constraint_or(ty, &whole).shl(alloc, constraint_or(other, &whole))?,
    )
}

/// The integers that a shift of these to the right gives.
pub fn shifted_down(alloc: Global, ty: &Ty, other: &Ty) -> Result<Ty, AllocError>
    ensures { IfOk result (λ it. it ≡ rules.integer_of (cons.shifted_down_parts (rules.constraint_of ty.now) (rules.constraint_of other.now))) }
{
    let whole = Cons::whole(alloc);
    integers(
        alloc,
        constraint_or(ty, &whole).shr(alloc, constraint_or(other, &whole))?,
    )
}
