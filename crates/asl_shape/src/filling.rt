//! Written types with the values of their expressions, which each takes from those that are given in order.
ghost use Rattle.std.specs.Prelude.{◌≡◌, ◌<◌, length, option_map, IfOk, OnSome};
ghost use Rattle.asl_rules.specs.types.Shapes as shapes;
ghost use Rattle.asl_shape.specs.private.Filled.{bits_of, array_of};
ghost use Rattle.asl_shape.specs.private.Filling as rules;
ghost use Rattle.asl_shape.specs.private.FillingView.{part_taken, name_in, field_taken, parts_taken, fields_taken, type_taken, types_taken};
ghost use Rattle.asl_shape.specs.private.Matched.{values_from, natural, natural_in_front};
ghost use Rattle.asl_shape.specs.View.{part_of, all_parts, bitfield_of, all_bitfields, type_of, all_types};

use crate::filled::Filled;
use crate::matching::integer_at;
use crate::shapes::{BitfieldShape, PartShape, TypeShape};
use asl_cons::{End, Part};
use asl_shared::Shared;
use asl_syn::token::Span;
use asl_value::{BitField, Name, Value};
use sqlite_items::{Boxed, Items};
use std::alloc::{AllocError, Global};

/// The ends of a part, and the place of the first value that is left.
#[derive(Clone, Copy, Drop)]
struct Ends {
    low: i128,
    high: i128,
    next: usize,
}

/// The places of a bitfield, and the place of the first value that is left.
#[derive(Clone, Copy, Drop)]
struct Places {
    high: u128,
    low: u128,
    next: usize,
}

/// Parts, and the place of the first value that is left.
#[derive(Drop)]
struct FilledParts {
    parts: Items<Part>,
    next: usize,
}

/// Bitfields, and the place of the first value that is left.
#[derive(Drop)]
struct FilledFields {
    fields: Items<BitField>,
    next: usize,
}

/// A type, and the place of the first value that is left.
#[derive(Drop)]
pub struct FilledType {
    pub ty: Filled,
    pub next: usize,
}

/// Types, and the place of the first value that is left.
#[derive(Drop)]
struct FilledTypes {
    types: Items<Filled>,
    next: usize,
}

// ---- constraints

/// The ends of a part.
#[tactic(auto, using(crate::proofs::Takes::one_end, crate::proofs::Takes::no_end, crate::proofs::Takes::both_ends, crate::proofs::Takes::no_high))]
fn next_part(shape: PartShape, values: &[Value], at: usize) -> Option<Ends>
    ensures { option_map (part_taken values.now) result ≡ rules.next_part (part_of shape) (values_from values.now at) }
{
    let low = match integer_at(values, at) {
        Some(z) => z,
        None => return None,
    };
    match shape {
        PartShape::Only => Some(Ends {
            low,
            high: low,
            next: at + 1,
        }),
        PartShape::FromTo => match integer_at(values, at + 1) {
            Some(high) => Some(Ends {
                low,
                high,
                next: at + 2,
            }),
            None => None,
        },
    }
}

/// The parts of a constraint.
#[tactic(auto, using(crate::proofs::Takes::parts_begin, crate::proofs::Takes::part_more, crate::proofs::Takes::part_none, crate::proofs::Takes::parts_end))]
fn next_parts(
    alloc: Global,
    shapes: &[PartShape],
    values: &[Value],
    at: usize,
) -> Result<Option<FilledParts>, AllocError>
    ensures { IfOk result (λ o. option_map (parts_taken values.now) o ≡ rules.all_parts (all_parts shapes.now) (values_from values.now at)) }
{
    let mut parts = Items::new(alloc);
    let mut next = at;
    for shape in shapes {
        match next_part(*shape, values, next) {
            None => return Ok(None),
            Some(ends) => {
                parts.push(Part {
                    low: End::Int(ends.low),
                    high: End::Int(ends.high),
                })?;
                next = ends.next;
            }
        }
    }
    Ok(Some(FilledParts { parts, next }))
}

// ---- bitfields

/// The number that an integer is.
#[tactic(auto, using(crate::proofs::Takes::natural_is, crate::proofs::Takes::natural_not))]
fn natural_of(z: i128) -> Option<u128>
    ensures { result ≡ natural z }
{
    if z < 0 { None } else { Some(z.unsigned_abs()) }
}

/// The number in a place.
fn natural_at(values: &[Value], at: usize) -> Option<u128>
    ensures value { result ≡ natural_in_front (values_from values.now at) }
    ensures within { OnSome result (at < length values.now) }
{
    match integer_at(values, at) {
        Some(z) => natural_of(z),
        None => None,
    }
}

/// The places of a bitfield.
#[tactic(auto, using(crate::proofs::Takes::one_place, crate::proofs::Takes::no_place, crate::proofs::Takes::both_places, crate::proofs::Takes::no_low))]
fn next_places(shape: &BitfieldShape, values: &[Value], at: usize) -> Option<Places>
    ensures { option_map (field_taken values.now shape.now) result ≡ rules.next_bitfield (bitfield_of shape.now) (values_from values.now at) }
{
    let high = match natural_at(values, at) {
        Some(n) => n,
        None => return None,
    };
    match shape {
        BitfieldShape::OnePlace(_) => Some(Places {
            high,
            low: high,
            next: at + 1,
        }),
        BitfieldShape::ManyPlaces(_) => match natural_at(values, at + 1) {
            Some(low) => Some(Places {
                high,
                low,
                next: at + 2,
            }),
            None => None,
        },
    }
}

/// The name of a bitfield, another owner of it.
fn name_of(shape: &BitfieldShape) -> Result<Name, AllocError>
    ensures { IfOk result (λ name. name ≡ name_in shape.now) }
{
    match shape {
        BitfieldShape::OnePlace(name) => name.share(),
        BitfieldShape::ManyPlaces(name) => name.share(),
    }
}

/// The bitfields of bits.
#[tactic(auto, using(crate::proofs::Takes::fields_begin, crate::proofs::Takes::field_more, crate::proofs::Takes::field_none, crate::proofs::Takes::fields_end))]
fn next_fields(
    alloc: Global,
    shapes: &[BitfieldShape],
    values: &[Value],
    at: usize,
) -> Result<Option<FilledFields>, AllocError>
    ensures { IfOk result (λ o. option_map (fields_taken values.now) o ≡ rules.all_fields (all_bitfields shapes.now) (values_from values.now at)) }
{
    let mut fields = Items::new(alloc);
    let mut next = at;
    for shape in shapes {
        match next_places(shape, values, next) {
            None => return Ok(None),
            Some(places) => {
                fields.push(BitField::new(name_of(shape)?, places.high, places.low))?;
                next = places.next;
            }
        }
    }
    Ok(Some(FilledFields { fields, next }))
}

// ---- types

/// A written type with the values of its expressions, from a place on.
#[cycle(filling)]
pub fn filling(
    alloc: Global,
    shape: &TypeShape,
    values: &[Value],
    at: usize,
) -> Result<Option<FilledType>, AllocError>
    ensures { IfOk result (λ o. option_map (type_taken values.now) o ≡ rules.filling (type_of shape.now) (values_from values.now at)) }
{
    match shape {
        TypeShape::IntegerOf(parts) => integers(alloc, parts.as_slice(), values, at),
        TypeShape::Boolean => Ok(Some(FilledType {
            ty: Filled::Boolean,
            next: at,
        })),
        TypeShape::OneBit(span) => Ok(Some(FilledType {
            ty: Filled::Bits(*span, 1, Shared::new(alloc, Items::new(alloc))?),
            next: at,
        })),
        TypeShape::BitsOf(span, fields) => bits(alloc, *span, fields.as_slice(), values, at),
        TypeShape::Known(ty) => Ok(Some(FilledType {
            ty: Filled::Known(ty.copy()?),
            next: at,
        })),
        TypeShape::TupleOf(parts) => tuple(alloc, parts.as_slice(), values, at),
        TypeShape::ArrayOf(element) => array(alloc, element.get(), values, at),
    }
}

/// Integers, in a constraint where it has parts.
fn integers(
    alloc: Global,
    parts: &[PartShape],
    values: &[Value],
    at: usize,
) -> Result<Option<FilledType>, AllocError>
    ensures { IfOk result (λ o. option_map (type_taken values.now) o ≡ rules.filling (shapes.integer_of (all_parts parts.now)) (values_from values.now at)) }
{
    match next_parts(alloc, parts, values, at)? {
        None => Ok(None),
        Some(FilledParts { parts, next }) => Ok(Some(FilledType {
            ty: Filled::Integer(parts),
            next,
        })),
    }
}

/// Bits with bitfields.
#[tactic(auto, using(crate::proofs::Takes::width_there, crate::proofs::Takes::width_none))]
fn bits(
    alloc: Global,
    span: Span,
    fields: &[BitfieldShape],
    values: &[Value],
    at: usize,
) -> Result<Option<FilledType>, AllocError>
    ensures { IfOk result (λ o. option_map (type_taken values.now) o ≡ rules.filling (shapes.bits_of span (all_bitfields fields.now)) (values_from values.now at)) }
{
    match integer_at(values, at) {
        Some(width) => {
            let filled = bits_wide(alloc, span, width, fields, values, at + 1)?;
            Ok(filled)
        }
        None => Ok(None),
    }
}

/// Bits of a width, with bitfields.
fn bits_wide(
    alloc: Global,
    span: Span,
    width: i128,
    fields: &[BitfieldShape],
    values: &[Value],
    at: usize,
) -> Result<Option<FilledType>, AllocError>
    ensures { IfOk result (λ o. option_map (type_taken values.now) o ≡ rules.made_as (bits_of span width) (rules.all_fields (all_bitfields fields.now) (values_from values.now at))) }
{
    match next_fields(alloc, fields, values, at)? {
        None => Ok(None),
        Some(FilledFields { fields, next }) => Ok(Some(FilledType {
            ty: Filled::Bits(span, width, Shared::new(alloc, fields)?),
            next,
        })),
    }
}

/// A tuple.
#[cycle(filling)]
fn tuple(
    alloc: Global,
    parts: &[TypeShape],
    values: &[Value],
    at: usize,
) -> Result<Option<FilledType>, AllocError>
    ensures { IfOk result (λ o. option_map (type_taken values.now) o ≡ rules.filling (shapes.tuple_of (all_types parts.now)) (values_from values.now at)) }
{
    match fillings(alloc, parts, values, at)? {
        None => Ok(None),
        Some(FilledTypes { types, next }) => Ok(Some(FilledType {
            ty: Filled::Tuple(types),
            next,
        })),
    }
}

/// The parts of a tuple, in order.
#[cycle(filling)]
#[tactic(auto, using(crate::proofs::Takes::types_begin, crate::proofs::Takes::type_more, crate::proofs::Takes::type_none, crate::proofs::Takes::types_end))]
fn fillings(
    alloc: Global,
    parts: &[TypeShape],
    values: &[Value],
    at: usize,
) -> Result<Option<FilledTypes>, AllocError>
    ensures { IfOk result (λ o. option_map (types_taken values.now) o ≡ rules.all_fillings (all_types parts.now) (values_from values.now at)) }
{
    let mut types = Items::new(alloc);
    let mut next = at;
    for part in parts {
        match filling(alloc, part, values, next)? {
            None => return Ok(None),
            Some(FilledType { ty, next: more }) => {
                types.push(ty)?;
                next = more;
            }
        }
    }
    Ok(Some(FilledTypes { types, next }))
}

/// An array.
#[cycle(filling)]
#[tactic(auto, using(crate::proofs::Takes::length_there, crate::proofs::Takes::length_none))]
fn array(
    alloc: Global,
    element: &TypeShape,
    values: &[Value],
    at: usize,
) -> Result<Option<FilledType>, AllocError>
    ensures { IfOk result (λ o. option_map (type_taken values.now) o ≡ rules.filling (shapes.array_of (type_of element.now)) (values_from values.now at)) }
{
    match natural_at(values, at) {
        Some(length) => {
            let filled = array_long(alloc, length, element, values, at + 1)?;
            Ok(filled)
        }
        None => Ok(None),
    }
}

/// An array of a length.
#[cycle(filling)]
fn array_long(
    alloc: Global,
    length: u128,
    element: &TypeShape,
    values: &[Value],
    at: usize,
) -> Result<Option<FilledType>, AllocError>
    ensures { IfOk result (λ o. option_map (type_taken values.now) o ≡ rules.made_as (array_of length) (rules.filling (type_of element.now) (values_from values.now at))) }
{
    match filling(alloc, element, values, at)? {
        None => Ok(None),
        Some(FilledType { ty, next }) => Ok(Some(FilledType {
            ty: Filled::Array(length, Boxed::new(alloc, ty)?),
            next,
        })),
    }
}
