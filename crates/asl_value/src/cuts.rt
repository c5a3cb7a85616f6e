//! Slices with the values of their expressions: where they begin, and how wide they are, read and tested.
ghost use Rattle.std.specs.Prelude.{◌≡◌, ◌+◌, ℕ, map, nat_le, option_map, pos, ◌+ℤ◌, ◌-ℤ◌};
ghost use Rattle.asl_bits.specs.declared.TheConstants.{WIDTH_LIMIT};
ghost use Rattle.asl_num.specs.Exact.{IsExact};
ghost use Rattle.asl_rules.specs.runs.Pures.{there};
ghost use Rattle.asl_rules.specs.types.Shapes as shapes;
ghost use Rattle.asl_rules.specs.values.Vectors as rules;
ghost use Rattle.asl_value.specs.private.Answers.{Is};
ghost use Rattle.asl_value.specs.private.Cutting.{low_of, breadth_of, slicing_of, wide_of, cut_of, integer_first, two_first, near, near_start, near_low, near_places, wides_read, places_read};
ghost use Rattle.asl_value.specs.View.{value_of, slice_of, all_slices};

use crate::failure::Failure;
use crate::places::Places;
use crate::slices::SliceShape;
use crate::value::Value;
use asl_bits::WIDTH_LIMIT;
use asl_num as num;
use asl_num::NumFault;
use asl_syn::code::DynCode;
use asl_syn::token::Span;
use sqlite_items::Items;
use std::alloc::Global;

/// Where a slice begins.
#[derive(Clone, Copy)]
pub(crate) enum Low {
    At(i128),
    /// At the product.
    Times(i128, i128),
}

/// How wide a slice is.
#[derive(Clone, Copy)]
pub(crate) enum Breadth {
    Of(i128),
    /// From the first down to the second, both with it.
    Between(i128, i128),
}

/// A slice with the values of its expressions.
#[derive(Clone, Copy)]
pub(crate) struct Slicing {
    pub low: Low,
    pub width: Breadth,
}

/// A slice whose width was tested.
#[derive(Clone, Copy)]
pub(crate) struct Wide {
    pub low: Low,
    pub width: u32,
}

// ---- reading

/// The slices with the values of their expressions in order.
#[tactic(auto, using(crate::proofs::SlicesRead::none_cut, crate::proofs::SlicesRead::cut_on, crate::proofs::SlicesRead::cut_off, crate::proofs::SlicesRead::all_cut))]
fn slicings_of(
    alloc: Global,
    span: Span,
    shapes: &[SliceShape],
    given: &[Value],
) -> Result<Items<Slicing>, Failure>
    ensures { Is (map slicing_of) result
        (there span (rules.slicings (all_slices shapes.now) (map value_of given.now))) }
{
    let mut made = Items::new(alloc);
    let mut left = given;
    for shape in shapes {
        match first_cut(*shape, left) {
            Some((slicing, others)) => {
                made.push(slicing)?;
                left = others;
            }
            None => return Err(Failure::WrongKind(span)),
        }
    }
    Ok(made)
}

/// The next slice, and the values that are left: none where the next values aren't integers.
fn first_cut(shape: SliceShape, given: &[Value]) -> Option<(Slicing, &[Value])>
    ensures { option_map (λ c. cut_of (c.0, map value_of c.1.now)) result ≡ rules.sliced (slice_of shape) (map value_of given.now) }
{
    match shape {
        SliceShape::AtBit => at_bit(given),
        SliceShape::HighLow => high_low(given),
        SliceShape::LowWidth => low_width(given),
        SliceShape::FactorWidth => factor_width(given),
    }
}

/// `[i]`
#[tactic(auto, using(crate::proofs::SlicesRead::bit_some, crate::proofs::SlicesRead::bit_none))]
fn at_bit(given: &[Value]) -> Option<(Slicing, &[Value])>
    ensures { option_map (λ c. cut_of (c.0, map value_of c.1.now)) result ≡ rules.sliced shapes.at_bit (map value_of given.now) }
{
    match first_integer(given) {
        None => None,
        Some((place, left)) => Some((
            Slicing {
                low: Low::At(place),
                width: Breadth::Of(1),
            },
            left,
        )),
    }
}

/// `[high:low]`
#[tactic(auto, using(crate::proofs::SlicesRead::ends_some, crate::proofs::SlicesRead::ends_none))]
fn high_low(given: &[Value]) -> Option<(Slicing, &[Value])>
    ensures { option_map (λ c. cut_of (c.0, map value_of c.1.now)) result ≡ rules.sliced shapes.high_low (map value_of given.now) }
{
    match first_two(given) {
        None => None,
        Some((ends, left)) => Some((
            Slicing {
                low: Low::At(ends.1),
                width: Breadth::Between(ends.0, ends.1),
            },
            left,
        )),
    }
}

/// `[low +: width]`
#[tactic(auto, using(crate::proofs::SlicesRead::low_some, crate::proofs::SlicesRead::low_none))]
fn low_width(given: &[Value]) -> Option<(Slicing, &[Value])>
    ensures { option_map (λ c. cut_of (c.0, map value_of c.1.now)) result ≡ rules.sliced shapes.low_width (map value_of given.now) }
{
    match first_two(given) {
        None => None,
        Some((both, left)) => Some((
            Slicing {
                low: Low::At(both.0),
                width: Breadth::Of(both.1),
            },
            left,
        )),
    }
}

/// `[factor *: width]`
#[tactic(auto, using(crate::proofs::SlicesRead::factor_some, crate::proofs::SlicesRead::factor_none))]
fn factor_width(given: &[Value]) -> Option<(Slicing, &[Value])>
    ensures { option_map (λ c. cut_of (c.0, map value_of c.1.now)) result ≡ rules.sliced shapes.factor_width (map value_of given.now) }
{
    match first_two(given) {
        None => None,
        Some((both, left)) => Some((
            Slicing {
                low: Low::Times(both.0, both.1),
                width: Breadth::Of(both.1),
            },
            left,
        )),
    }
}

/// The next two values, where they are integers, and the values that are left.
fn first_two(given: &[Value]) -> Option<((i128, i128), &[Value])>
    ensures { option_map (λ p. (p.0, map value_of p.1.now)) result ≡ two_first (map value_of given.now) }
{
    match first_integer(given) {
        None => None,
        Some((first, others)) => match first_integer(others) {
            None => None,
            Some((second, left)) => Some(((first, second), left)),
        },
    }
}

/// The next value, where it is an integer, and the values that are left.
fn first_integer(given: &[Value]) -> Option<(i128, &[Value])>
    ensures { option_map (λ p. (p.0, map value_of p.1.now)) result ≡ integer_first (map value_of given.now) }
{
    match given.split_first() {
        None => None,
        Some((first, left)) => match first {
            Value::Int(i) => Some((*i, left)),
            _ => None,
        },
    }
}

// ---- tests

/// The places of slices of so many bits, or of an integer, which has no end, the first on top, a place past 2^127
/// counted as 2^127: D01 for a width past the range of integers, D14 where one is below 0 or past `WIDTH_LIMIT`, D05
/// for places past the end or below 0.
#[tactic(auto, using(crate::proofs::SlicesRead::chain_on, crate::proofs::SlicesRead::chain_off))]
pub(crate) fn places_in(
    alloc: Global,
    span: Span,
    shapes: &[SliceShape],
    given: &[Value],
    top: Option<u32>,
) -> Result<Items<Places>, Failure>
    ensures { Is (λ ps. ps) result
        (places_read WIDTH_LIMIT span top (all_slices shapes.now) (map value_of given.now)) }
{
    let wides = wides_in(alloc, span, shapes, given)?;
    places_of(alloc, span, top, wides.as_slice())
}

/// The slices with the values of their expressions in order, with their widths tested.
#[tactic(auto, using(crate::proofs::SlicesRead::chain_on, crate::proofs::SlicesRead::chain_off))]
fn wides_in(
    alloc: Global,
    span: Span,
    shapes: &[SliceShape],
    given: &[Value],
) -> Result<Items<Wide>, Failure>
    ensures { Is (map wide_of) result
        (wides_read WIDTH_LIMIT span (all_slices shapes.now) (map value_of given.now)) }
{
    let slicings = slicings_of(alloc, span, shapes, given)?;
    widths_of(alloc, span, slicings.as_slice())
}

/// The slices with their widths tested.
#[tactic(auto, using(crate::proofs::SlicesRead::none_wide, crate::proofs::SlicesRead::wide_on, crate::proofs::SlicesRead::wide_off, crate::proofs::SlicesRead::all_wide))]
fn widths_of(alloc: Global, span: Span, slicings: &[Slicing]) -> Result<Items<Wide>, Failure>
    ensures { Is (map wide_of) result (rules.widths_of WIDTH_LIMIT span (map slicing_of slicings.now)) }
{
    let mut made = Items::new(alloc);
    for slicing in slicings {
        let width = width_of(span, slicing.width)?;
        made.push(Wide {
            low: slicing.low,
            width,
        })?;
    }
    Ok(made)
}

/// The places of slices whose widths were tested.
#[tactic(auto, using(crate::proofs::SlicesRead::none_placed, crate::proofs::SlicesRead::placed_on, crate::proofs::SlicesRead::placed_off, crate::proofs::SlicesRead::all_placed))]
fn places_of(
    alloc: Global,
    span: Span,
    top: Option<u32>,
    wides: &[Wide],
) -> Result<Items<Places>, Failure>
    ensures { Is (λ ps. ps) result (near_places (rules.places_of span top (map wide_of wides.now))) }
{
    let mut made = Items::new(alloc);
    for wide in wides {
        let low = low_in(span, top, *wide)?;
        made.push(Places::new(low, wide.width))?;
    }
    Ok(made)
}

/// The place where a slice begins: D05 where it is below 0, or where its places go past the end, where there is one.
#[tactic(auto, using(crate::proofs::SlicesRead::low_there, crate::proofs::SlicesRead::low_past, crate::proofs::SlicesRead::low_below))]
fn low_in(span: Span, top: Option<u32>, wide: Wide) -> Result<u128, Failure>
    ensures { Is (λ n. n) result (near_low (rules.low_of span top (low_of wide.low) wide.width)) }
{
    match start_of(wide.low) {
        None => Err(Failure::Fault(DynCode::D05, span)),
        Some(low) => {
            if fits(top, low, wide.width) {
                Ok(low)
            } else {
                Err(Failure::Fault(DynCode::D05, span))
            }
        }
    }
}

/// Whether so many places from one on have no end, or lie before it.
fn fits(top: Option<u32>, low: u128, width: u32) -> bool
    ensures { (n : ℕ) → low ≡ near n → result ≡ rules.ends_within top (n + width) }
{
    match top {
        None => true,
        Some(most) => lies_below(most, low, width),
    }
}

/// Whether so many places from one on lie before another.
#[tactic(auto, using(crate::proofs::SlicesRead::near_below))]
fn lies_below(most: u32, low: u128, width: u32) -> bool
    ensures { (n : ℕ) → low ≡ near n → result ≡ nat_le (n + width) most }
{
    low <= most as u128 && width as u128 <= most as u128 - low
}

// ---- places and widths

/// The place where a slice begins, 2^127 past the range of integers, and none below 0.
#[tactic(auto, using(crate::proofs::Cutting::product))]
fn start_of(low: Low) -> Option<u128>
    ensures { result ≡ near_start (low_of low) }
{
    match low {
        Low::At(place) => start_at(place),
        Low::Times(factor, width) => match num::mul(factor, width) {
            Ok(place) => start_at(place),
            Err(_) => {
                if (factor < 0) == (width < 0) {
                    Some(1 << 127)
                } else {
                    None
                }
            }
        },
    }
}

/// The place where a slice begins, and none below 0.
fn start_at(place: i128) -> Option<u128>
    ensures { result ≡ near_start place }
{
    if place < 0 { None } else { Some(place as u128) }
}

/// The width of a slice: D01 past the range of integers, D14 below 0 and past `WIDTH_LIMIT`.
fn width_of(span: Span, breadth: Breadth) -> Result<u32, Failure>
    ensures { Is (λ n. n) result (rules.ranged_width WIDTH_LIMIT span (breadth_of breadth)) }
{
    match number_of(breadth) {
        Err(_) => Err(Failure::Fault(DynCode::D01, span)),
        Ok(width) => {
            if 0 <= width && width <= WIDTH_LIMIT as i128 {
                Ok(width as u32)
            } else {
                Err(Failure::Fault(DynCode::D14, span))
            }
        }
    }
}

/// The width of a slice as an integer.
fn number_of(breadth: Breadth) -> Result<i128, NumFault>
    ensures { IsExact result (breadth_of breadth) }
{
    match breadth {
        Breadth::Of(width) => Ok(width),
        Breadth::Between(high, low) => distance(high, low),
    }
}

/// How many integers there are from one down to another.
#[tactic(auto, using(crate::proofs::Cutting::raised_first, crate::proofs::Cutting::lowered_second))]
fn distance(high: i128, low: i128) -> Result<i128, NumFault>
    ensures { IsExact result (high -ℤ low +ℤ pos 1) }
{
    if high < i128::MAX {
        num::sub(high + 1, low)
    } else if low > i128::MIN {
        num::sub(high, low - 1)
    } else {
        Err(NumFault::Overflow)
    }
}
