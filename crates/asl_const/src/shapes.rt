//! Slices, patterns and written types without the expressions in them.
ghost use Rattle.std.specs.Prelude.{◌≡◌, [], map, option_map, IfOk};
ghost use Rattle.asl_rules.specs.runs.ByNames.{types_among};
ghost use Rattle.asl_rules.specs.types.Shaped.{itself, shapes_in};
ghost use Rattle.asl_rules.specs.types.Shapes as rules;
ghost use Rattle.asl_rules.specs.types.Shapes.{known};
ghost use Rattle.asl_value.specs.View.{slice_of, all_slices};
ghost use Rattle.asl_shape.specs.View.{all_bitfields, all_parts, bitfield_of, part_of, pattern_of, type_of, all_types};
ghost use Rattle.asl_const.specs.private.Finds.{known_bitfield, known_part, known_pattern, known_slice, known_type, types_after};

use asl_shape::{BitfieldShape, PartShape, PatternShape, SliceShape, TypeShape};
use asl_shared::Shared;
use asl_syn::tree::{Bitfield, ConstraintPart, Ident, Pattern, Slice, TypeExpr};
use asl_types::Scope;
use asl_value::{MaskDigits, Name};
use sqlite_items::{Boxed, Items};
use std::alloc::{AllocError, Global};

/// A slice.
fn slice_shape(slice: &Slice) -> SliceShape
    ensures { slice_of result ≡ (known_slice slice.now).shape }
{
    match slice {
        Slice::BitAt(_) => SliceShape::AtBit,
        Slice::HighLow(_, _) => SliceShape::HighLow,
        Slice::LowWidth(_, _) => SliceShape::LowWidth,
        Slice::FactorWidth(_, _) => SliceShape::FactorWidth,
    }
}

/// Slices in order.
pub(crate) fn slice_shapes(alloc: Global, slices: &[Slice]) -> Result<Items<SliceShape>, AllocError>
    ensures { IfOk result (λ ss. all_slices ss ≡ shapes_in itself (map known_slice slices.now)) }
{
    let mut shapes = Items::new(alloc);
    for slice in slices {
        shapes.push(slice_shape(slice))?;
    }
    Ok(shapes)
}

/// A pattern.
#[cycle(patterns)]
#[tactic(auto, using(crate::proofs::ShapesInOrder::same_patterns))]
pub(crate) fn pattern_shape(alloc: Global, pattern: &Pattern) -> Result<PatternShape, AllocError>
    ensures { IfOk result (λ s. pattern_of s ≡ (known_pattern pattern.now).shape) }
{
    match pattern {
        Pattern::AnyPattern(_) => Ok(PatternShape::Anything),
        Pattern::SetPattern(_, negated, patterns) => Ok(PatternShape::OneOf(
            *negated,
            pattern_shapes(alloc, patterns.as_slice())?,
        )),
        Pattern::MaskPattern(span, text) => Ok(PatternShape::Masked(
            *span,
            MaskDigits::of_literal(alloc, text.as_slice())?,
        )),
        Pattern::AtMost(span, _) => Ok(PatternShape::AtMost(*span)),
        Pattern::AtLeast(span, _) => Ok(PatternShape::AtLeast(*span)),
        Pattern::TuplePattern(span, patterns) => Ok(PatternShape::InParts(
            *span,
            pattern_shapes(alloc, patterns.as_slice())?,
        )),
        Pattern::ValuePattern(span, _) => Ok(PatternShape::EqualTo(*span)),
        Pattern::RangePattern(span, _, _) => Ok(PatternShape::Between(*span)),
    }
}

/// Patterns in order.
#[cycle(patterns)]
fn pattern_shapes(alloc: Global, patterns: &[Pattern]) -> Result<Items<PatternShape>, AllocError>
    ensures { IfOk result (λ ss. map pattern_of ss ≡ shapes_in itself (map known_pattern patterns.now)) }
{
    let mut shapes = Items::new(alloc);
    for pattern in patterns {
        shapes.push(pattern_shape(alloc, pattern)?)?;
    }
    Ok(shapes)
}

/// A part of a constraint.
fn part_shape(part: &ConstraintPart) -> PartShape
    ensures { part_of result ≡ (known_part part.now).shape }
{
    match part {
        ConstraintPart::Only(_) => PartShape::Only,
        ConstraintPart::FromTo(_, _) => PartShape::FromTo,
    }
}

/// The parts of a constraint in order.
fn part_shapes(alloc: Global, parts: &[ConstraintPart]) -> Result<Items<PartShape>, AllocError>
    ensures { IfOk result (λ ss. all_parts ss ≡ shapes_in itself (map known_part parts.now)) }
{
    let mut shapes = Items::new(alloc);
    for part in parts {
        shapes.push(part_shape(part))?;
    }
    Ok(shapes)
}

/// A name.
fn name_of(alloc: Global, name: &Ident) -> Result<Name, AllocError>
    ensures { IfOk result (λ it. it ≡ name.now.text) }
{
    let text = Items::from_slice(alloc, name.text.as_slice())?;
    Shared::new(alloc, text)
}

/// A bitfield.
fn bitfield_shape(alloc: Global, field: &Bitfield) -> Result<BitfieldShape, AllocError>
    ensures { IfOk result (λ s. bitfield_of s ≡ (known_bitfield field.now).shape) }
{
    match field {
        Bitfield::OneBit(_, name) => Ok(BitfieldShape::OnePlace(name_of(alloc, name)?)),
        Bitfield::BitRange(_, _, name) => Ok(BitfieldShape::ManyPlaces(name_of(alloc, name)?)),
    }
}

/// Bitfields in order.
fn bitfield_shapes(alloc: Global, fields: &[Bitfield]) -> Result<Items<BitfieldShape>, AllocError>
    ensures { IfOk result (λ ss. all_bitfields ss ≡ shapes_in itself (map known_bitfield fields.now)) }
{
    let mut shapes = Items::new(alloc);
    for field in fields {
        shapes.push(bitfield_shape(alloc, field)?)?;
    }
    Ok(shapes)
}

/// A written type, `None` where a name in it is no type's.
#[cycle(types)]
pub(crate) fn type_shape(
    alloc: Global,
    names: &Scope,
    ty: &TypeExpr,
) -> Result<Option<TypeShape>, AllocError>
    ensures { IfOk result (λ o. option_map type_of o ≡ (known_type ty.now).shape (types_among names.now)) }
{
    match ty {
        TypeExpr::IntegerType(_, parts) => Ok(Some(TypeShape::IntegerOf(part_shapes(
            alloc,
            parts.as_slice(),
        )?))),
        TypeExpr::BooleanType(_) => Ok(Some(TypeShape::Boolean)),
        TypeExpr::BitType(span) => Ok(Some(TypeShape::OneBit(*span))),
        TypeExpr::NamedType(_, name) => named_shape(names, name.as_slice()),
        TypeExpr::BitsType(span, _, fields) => Ok(Some(TypeShape::BitsOf(
            *span,
            bitfield_shapes(alloc, fields.as_slice())?,
        ))),
        TypeExpr::TupleType(_, parts) => Ok(tuple_shape(type_shapes(
            alloc,
            names,
            parts.as_slice(),
        )?)),
        TypeExpr::ArrayType(_, _, element) => match type_shape(alloc, names, element.get())? {
            None => Ok(None),
            Some(element) => Ok(Some(TypeShape::ArrayOf(Boxed::new(alloc, element)?))),
        },
    }
}

/// A tuple of these types, where all are known.
fn tuple_shape(parts: Option<Items<TypeShape>>) -> Option<TypeShape>
    ensures { option_map type_of result ≡ option_map (λ ts. rules.tuple_of (all_types ts)) parts }
{
    match parts {
        None => None,
        Some(parts) => Some(TypeShape::TupleOf(parts)),
    }
}

/// Written types in order, `None` where a name in one is no type's.
#[cycle(types)]
fn type_shapes(
    alloc: Global,
    names: &Scope,
    types: &[TypeExpr],
) -> Result<Option<Items<TypeShape>>, AllocError>
    ensures { IfOk result (λ o. option_map (λ ts. map type_of ts) o ≡ types_after [] (types_among names.now) (shapes_in itself (map known_type types.now))) }
{
    let mut shapes = Items::new(alloc);
    for ty in types {
        match type_shape(alloc, names, ty)? {
            None => return Ok(None),
            Some(shape) => shapes.push(shape)?,
        }
    }
    Ok(Some(shapes))
}

/// What a declared name stands for, where it is a type's.
fn named_shape(names: &Scope, name: &[u8]) -> Result<Option<TypeShape>, AllocError>
    ensures { IfOk result (λ o. option_map type_of o ≡ option_map (λ T. known T) (types_among names.now name.now)) }
{
    match names.type_of_name(name) {
        None => Ok(None),
        Some(ty) => Ok(Some(TypeShape::Known(ty.copy()?))),
    }
}
