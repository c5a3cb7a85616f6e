//! Types with widths in the place of atoms, where the limits of widths hold.

ghost use Rattle.std.specs.Prelude.{◌≡◌, ◌≤◌, length, option_map, IfOk};
ghost use Rattle.asl_cons.specs.Arithmetic as cons;
ghost use Rattle.asl_rules.specs.types.Types as rules;
ghost use Rattle.asl_types.specs.View.{parts_of};

use crate::integers::shown;
use crate::ty::{Form, Ty};
use asl_cons::{Cons, End, Part};
use asl_poly::{Atom, Poly, PolyRefused};
use asl_shared::Shared;
use sqlite_items::Items;
use std::alloc::{AllocError, Global};

/// A width with widths in the place of its atoms, and `None` where that is past the limits.
#[tactic(auto, using(crate::proofs::SubstituteLemmas::refused))]
pub fn substituted(
    alloc: Global,
    by: &[(Atom, Poly)],
    width: &Poly,
) -> Result<Option<Poly>, AllocError>
    ensures { IfOk result (λ o. o ≡ rules.substituted by.now width.now) }
{
    match width.substitute(alloc, by) {
        Ok(p) => Ok(Some(p)),
        Err(PolyRefused::TooLarge) => Ok(None),
        Err(PolyRefused::NoMemory) => Err(AllocError),
    }
}

/// An end with widths in the place of its atoms.
fn substituted_end(alloc: Global, by: &[(Atom, Poly)], end: &End) -> Result<Option<End>, AllocError>
    ensures { IfOk result (λ o. o ≡ rules.substituted_end by.now end.now) }
{
    match end {
        End::Int(z) => Ok(Some(End::Int(*z))),
        End::Width(width) => match substituted(alloc, by, width)? {
            Some(p) => Ok(Some(shown(p))),
            None => Ok(None),
        },
    }
}

/// A part of a constraint with widths in the place of its atoms.
fn substituted_part(
    alloc: Global,
    by: &[(Atom, Poly)],
    part: &Part,
) -> Result<Option<Part>, AllocError>
    ensures { IfOk result (λ o. o ≡ cons.part_of (rules.substituted_end by.now part.now.low) (rules.substituted_end by.now part.now.high)) }
{
    let Some(low) = substituted_end(alloc, by, &part.low)? else {
        return Ok(None);
    };
    let Some(high) = substituted_end(alloc, by, &part.high)? else {
        return Ok(None);
    };
    Ok(Some(Part { low, high }))
}

/// Parts of a constraint with widths in the place of their atoms.
fn substituted_ranges(
    alloc: Global,
    by: &[(Atom, Poly)],
    parts: &[Part],
) -> Result<Option<Vec<Part>>, AllocError>
    ensures { IfOk result (λ o. option_map (λ v. v.items) o ≡ rules.substituted_ranges by.now parts.now) }
{
    let mut made = Vec::new(alloc);
    for part in parts {
        let Some(next) = substituted_part(alloc, by, part)? else {
            return Ok(None);
        };
        made.push(next)?;
    }
    Ok(Some(made))
}

/// The constraint that these parts make with widths in the place of their atoms.
fn substituted_parts(
    alloc: Global,
    by: &[(Atom, Poly)],
    parts: &[Part],
) -> Result<Option<Cons>, AllocError>
    requires { length parts.now ≤ 64 }
    ensures { IfOk result (λ o. o ≡ rules.substituted_ranges by.now parts.now) }
{
    match substituted_ranges(alloc, by, parts)? {
        Some(made) => Ok(Some(Cons::from_parts(alloc, made)?)),
        None => Ok(None),
    }
}

/// Integers in a constraint with widths in the place of its atoms.
fn substituted_integer(
    alloc: Global,
    by: &[(Atom, Poly)],
    constraint: &Cons,
) -> Result<Option<Ty>, AllocError>
    ensures { IfOk result (λ o. o ≡ option_map (λ qs. rules.integer_of qs) (rules.substituted_ranges by.now constraint.now)) }
{
    match substituted_parts(alloc, by, constraint.parts())? {
        Some(made) => Ok(Some(Ty::integer(Shared::new(alloc, made)?))),
        None => Ok(None),
    }
}

/// The type with widths in the place of its atoms, where each is within the limits, and `None` where one isn't.
#[cycle(substitute)]
pub fn substitute(alloc: Global, by: &[(Atom, Poly)], ty: &Ty) -> Result<Option<Ty>, AllocError>
    ensures { IfOk result (λ o. o ≡ rules.substitute by.now ty.now) }
{
    match ty.form() {
        Form::Integer(constraint) => substituted_integer(alloc, by, constraint.get()),
        Form::Boolean => Ok(Some(ty.copy()?)),
        Form::Bits(width, view) => match substituted(alloc, by, width.get())? {
            Some(width) => Ok(Some(Ty::bits(Shared::new(alloc, width)?, view.share()?))),
            None => Ok(None),
        },
        Form::Enumeration(_, _) => Ok(Some(ty.copy()?)),
        Form::Record(_, _) => Ok(Some(ty.copy()?)),
        Form::Exception(_, _) => Ok(Some(ty.copy()?)),
        Form::Tuple(parts) => match substitute_parts(alloc, by, parts.get().as_slice())? {
            Some(parts) => Ok(Some(Ty::tuple(Shared::new(alloc, parts)?))),
            None => Ok(None),
        },
        Form::Array(length, element) => match substitute(alloc, by, element.get())? {
            Some(element) => Ok(Some(Ty::array(*length, Shared::new(alloc, element)?))),
            None => Ok(None),
        },
        Form::Named(_, _, _) => Ok(Some(ty.copy()?)),
    }
}

/// The parts of a tuple with widths in the place of their atoms, in order.
#[cycle(substitute)]
#[tactic(auto, using(crate::proofs::SubstituteLemmas::part_next, crate::proofs::SubstituteLemmas::part_none, crate::proofs::SubstituteLemmas::part_last))]
fn substitute_parts(
    alloc: Global,
    by: &[(Atom, Poly)],
    parts: &[Ty],
) -> Result<Option<Items<Ty>>, AllocError>
    ensures { IfOk result (λ o. option_map (λ us. parts_of us) o ≡ rules.substitute_parts by.now (parts_of parts.now)) }
{
    let mut made = Items::new(alloc);
    for part in parts {
        let Some(next) = substitute(alloc, by, part)? else {
            return Ok(None);
        };
        made.push(next)?;
    }
    Ok(Some(made))
}
