//! Slices of bits and of integers.
ghost use Rattle.std.specs.Prelude.{◌≤◌, length, map, IfOk, Some, None};
ghost use Rattle.asl_bits.specs.declared.TheConstants.{WIDTH_LIMIT};
ghost use Rattle.asl_rules.specs.values.Vectors as rules;
ghost use Rattle.asl_value.specs.private.Answers.{Is};
ghost use Rattle.asl_value.specs.private.Cutting.{near_places, bits_sliced, integer_sliced};
ghost use Rattle.asl_value.specs.View.{value_of, all_slices};

use crate::cuts::places_in;
use crate::failure::Failure;
use crate::operators::plain_bits;
use crate::places::{Places, are_within, read_bits, read_integer};
use crate::value::Value;
use asl_syn::code::DynCode;
use asl_syn::token::Span;
use asl_vector::Vector;
use sqlite_items::Items;
use std::alloc::Global;

/// A slice: `[i]` has one expression, the others have two.
#[derive(Clone, Copy, PartialEq, Eq)]
pub enum SliceShape {
    /// `[i]`
    AtBit,
    /// `[high:low]`
    HighLow,
    /// `[low +: width]`
    LowWidth,
    /// `[factor *: width]`
    FactorWidth,
}

/// The bits of slices of bits or of an integer, the first on top, without bitfields; the values of their expressions are given
/// in order. D01 for a width past the range of integers, D14 where one is below 0 or past `WIDTH_LIMIT`, or all together are,
/// and D05 for places past the end of the bits or below 0.
pub fn slices_of(
    alloc: Global,
    span: Span,
    shapes: &[SliceShape],
    given: &[Value],
    value: &Value,
) -> Result<Value, Failure>
    ensures { Is value_of result
        (rules.slices_of WIDTH_LIMIT span (all_slices shapes.now) (map value_of given.now) (value_of value.now)) }
{
    match value {
        Value::Bits(bits, _) => slices_of_bits(alloc, span, shapes, given, bits),
        Value::Int(integer) => slices_of_integer(alloc, span, shapes, given, *integer),
        _ => Err(Failure::WrongKind(span)),
    }
}

/// The bits of slices of bits.
#[tactic(auto, using(crate::proofs::NearPlaces::bits_off))]
fn slices_of_bits(
    alloc: Global,
    span: Span,
    shapes: &[SliceShape],
    given: &[Value],
    bits: &Vector,
) -> Result<Value, Failure>
    ensures { Is value_of result
        (bits_sliced (rules.tested WIDTH_LIMIT span (Some (length bits.now)) (rules.slicings (all_slices shapes.now) (map value_of given.now))) bits.now) }
{
    let places = places_among(alloc, span, shapes, given, bits.width())?;
    Ok(plain_bits(read_bits(alloc, bits, places.as_slice())?))
}

/// The bits of slices of an integer.
#[tactic(auto, using(crate::proofs::NearPlaces::integer_read, crate::proofs::NearPlaces::integer_off))]
fn slices_of_integer(
    alloc: Global,
    span: Span,
    shapes: &[SliceShape],
    given: &[Value],
    integer: i128,
) -> Result<Value, Failure>
    ensures { Is value_of result
        (integer_sliced (rules.tested WIDTH_LIMIT span None (rules.slicings (all_slices shapes.now) (map value_of given.now))) integer) }
{
    let places = tested_places(alloc, span, shapes, given, None)?;
    Ok(plain_bits(read_integer(alloc, integer, places.as_slice())?))
}

/// Slices with the values of their expressions in order, and the place of their faults.
#[derive(Clone, Copy)]
pub(crate) struct Cuts<'s> {
    pub span: Span,
    pub shapes: &'s [SliceShape],
    pub given: &'s [Value],
}

/// The places of slices of bits.
pub(crate) fn slice_places(
    alloc: Global,
    cuts: Cuts,
    value: &Value,
) -> Result<Items<Places>, Failure>
    ensures is { Is (λ ps. ps) result
        (rules.slice_places WIDTH_LIMIT cuts.entry.span (all_slices cuts.entry.shapes.now) (map value_of cuts.entry.given.now) (value_of value.now)) }
    ensures within { IfOk result (λ ps. rules.total_width ps ≤ WIDTH_LIMIT) }
{
    match value {
        Value::Bits(bits, _) => {
            places_among(alloc, cuts.span, cuts.shapes, cuts.given, bits.width())
        }
        _ => Err(Failure::WrongKind(cuts.span)),
    }
}

/// The places of slices of so many bits.
#[tactic(auto, using(crate::proofs::NearPlaces::of_bits))]
fn places_among(
    alloc: Global,
    span: Span,
    shapes: &[SliceShape],
    given: &[Value],
    most: u32,
) -> Result<Items<Places>, Failure>
    ensures is { Is (λ ps. ps) result
        (rules.tested WIDTH_LIMIT span (Some most) (rules.slicings (all_slices shapes.now) (map value_of given.now))) }
    ensures within { IfOk result (λ ps. rules.total_width ps ≤ WIDTH_LIMIT) }
{
    tested_places(alloc, span, shapes, given, Some(most))
}

/// The places of slices of so many bits, or of an integer, a place past 2^127 counted as 2^127: D14 where they are more
/// than `WIDTH_LIMIT`.
#[tactic(auto, using(crate::proofs::NearPlaces::tested_good, crate::proofs::NearPlaces::tested_past, crate::proofs::NearPlaces::tested_off))]
fn tested_places(
    alloc: Global,
    span: Span,
    shapes: &[SliceShape],
    given: &[Value],
    top: Option<u32>,
) -> Result<Items<Places>, Failure>
    ensures is { Is (λ ps. ps) result
        (near_places (rules.tested WIDTH_LIMIT span top (rules.slicings (all_slices shapes.now) (map value_of given.now)))) }
    ensures within { IfOk result (λ ps. rules.total_width ps ≤ WIDTH_LIMIT) }
{
    let places = places_in(alloc, span, shapes, given, top)?;
    if !are_within(places.as_slice()) {
        return Err(Failure::Fault(DynCode::D14, span));
    }
    Ok(places)
}
