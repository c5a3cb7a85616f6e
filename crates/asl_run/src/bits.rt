//! Bits without bitfields at once: what stands in a value, operators, slices, and what the library makes of bits and of widths.
//! Where an operation has no value, or memory is wanting, nothing is found.
ghost use Rattle.std.specs.Prelude.{◌≡◌, ◌==◌, [], ◌∷◌, ℤ, Bool, true, false, if◌then◌else◌, List, length, map, not, pos, ◌+ℤ◌, ◌-ℤ◌, IfOk, IfSome};
ghost use Rattle.asl_bits.specs.Answers.{IsInt};
ghost use Rattle.asl_bits.specs.declared.TheConstants.{WIDTH_LIMIT};
ghost use Rattle.asl_bits.specs.Lists.{bits_value, int_bits};
ghost use Rattle.asl_syn.specs.declared.token.Span.{Span as At};
ghost use Rattle.asl_rules.specs.runs.Plans.{Bad, Good, Stuck, WrongKind};
ghost use Rattle.asl_rules.specs.types.Shapes as shapes;
ghost use Rattle.asl_rules.specs.types.Shapes.{SliceShape as Shape};
ghost use Rattle.asl_rules.specs.values.Library as library;
ghost use Rattle.asl_rules.specs.values.Operators as operators;
ghost use Rattle.asl_rules.specs.values.Values.{Value as Seen, bits_with, int};
ghost use Rattle.asl_rules.specs.values.Vectors as vectors;
ghost use Rattle.asl_shape.specs.View.{routine_of};
ghost use Rattle.asl_value.specs.View.{slice_of, view_of};
ghost use Rattle.asl_run.specs.private.AtOnce.{Cuts, Gives, found};

use crate::at_once::AtOnce;
use asl_bits::{BitsRefused, WIDTH_LIMIT};
use asl_shape::Routine;
use asl_syn::tree::BinaryOperator;
use asl_value::{SliceShape, View};
use asl_vector::Vector;
use std::alloc::{AllocError, Global};

// ---- what stands in a value

/// Bits, where they are seen with no bitfields.
pub fn bare(bits: &Vector, view: &Option<View>) -> AtOnce
    ensures { Gives (found result) (Good (bits_with bits.now (view_of view.now))) }
{
    if has_fields(view) {
        return AtOnce::Neither;
    }
    match bits.share() {
        Ok(same) => AtOnce::Bits(same),
        Err(_) => AtOnce::Neither,
    }
}

/// Whether there may be bitfields.
pub fn has_fields(view: &Option<View>) -> bool
    ensures { result ≡ false → view_of view.now ≡ [] }
{
    match view {
        None => false,
        Some(fields) => !fields.get().is_empty(),
    }
}

/// Bits that were made, where memory was there.
fn made(r: Result<Vector, AllocError>) -> AtOnce
    ensures { (bits : List Bool) → IfOk r (λ v. v ≡ bits) → Gives (found result) (Good (operators.plain_bits bits)) }
{
    match r {
        Ok(bits) => AtOnce::Bits(bits),
        Err(_) => AtOnce::Neither,
    }
}

// ---- operators

/// The complement.
pub fn complement(alloc: Global, a: &Vector) -> AtOnce
    ensures { Gives (found result) (Good (operators.plain_bits (map not a.now))) }
{
    made(a.not(alloc))
}

/// An operator on bits.
#[tactic(auto, using(crate::proofs::BitsAtOnce::of_widths_is))]
pub fn of_bits(alloc: Global, operator: BinaryOperator, a: &Vector, b: &Vector) -> AtOnce
    ensures { (span : At) → Gives (found result) (operators.of_bits WIDTH_LIMIT span operator a.now b.now) }
{
    match operator {
        BinaryOperator::Concatenate => concatenated(alloc, a, b),
        _ => of_widths(alloc, operator, a, b),
    }
}

/// The second behind the first, which is on top.
#[tactic(auto, using(asl_value::proofs::Bits::joined))]
fn concatenated(alloc: Global, a: &Vector, b: &Vector) -> AtOnce
    ensures { (span : At) → Gives (found result) (operators.concatenated WIDTH_LIMIT span a.now b.now) }
{
    match a.concat(alloc, b) {
        Ok(Ok(bits)) => AtOnce::Bits(bits),
        Ok(Err(_)) => AtOnce::Neither,
        Err(_) => AtOnce::Neither,
    }
}

/// An operator that wants bits of one width.
fn of_widths(alloc: Global, operator: BinaryOperator, a: &Vector, b: &Vector) -> AtOnce
    ensures { (span : At) → Gives (found result)
        (if length a.now == length b.now then operators.of_one_width span operator a.now b.now else Bad (Stuck WrongKind span)) }
{
    if a.width() == b.width() {
        of_one_width(alloc, operator, a, b)
    } else {
        AtOnce::Neither
    }
}

/// An operator on bits of one width.
fn of_one_width(alloc: Global, operator: BinaryOperator, a: &Vector, b: &Vector) -> AtOnce
    requires { length a.now ≡ length b.now }
    ensures { (span : At) → Gives (found result) (operators.of_one_width span operator a.now b.now) }
{
    match operator {
        BinaryOperator::Equal => AtOnce::Truth(are_same(a, b)),
        BinaryOperator::NotEqual => AtOnce::Truth(!are_same(a, b)),
        BinaryOperator::Add => made(sum(alloc, a, b)),
        BinaryOperator::Subtract => made(a.sub(alloc, b)),
        BinaryOperator::BitAnd => made(a.and(alloc, b)),
        BinaryOperator::BitOr => made(a.or(alloc, b)),
        BinaryOperator::BitXor => made(a.xor(alloc, b)),
        BinaryOperator::Concatenate => AtOnce::Neither,
        BinaryOperator::LogicalAnd => AtOnce::Neither,
        BinaryOperator::LogicalOr => AtOnce::Neither,
        BinaryOperator::Implies => AtOnce::Neither,
        BinaryOperator::Equivalent => AtOnce::Neither,
        BinaryOperator::Less => AtOnce::Neither,
        BinaryOperator::LessEqual => AtOnce::Neither,
        BinaryOperator::Greater => AtOnce::Neither,
        BinaryOperator::GreaterEqual => AtOnce::Neither,
        BinaryOperator::Multiply => AtOnce::Neither,
        BinaryOperator::DivideExact => AtOnce::Neither,
        BinaryOperator::DivideFloor => AtOnce::Neither,
        BinaryOperator::Modulo => AtOnce::Neither,
        BinaryOperator::ShiftLeft => AtOnce::Neither,
        BinaryOperator::ShiftRight => AtOnce::Neither,
        BinaryOperator::Power => AtOnce::Neither,
    }
}

/// An operator on bits and an integer, which counts modulo 2 to the power of the width.
pub fn of_bits_and_integer(alloc: Global, operator: BinaryOperator, a: &Vector, z: i128) -> AtOnce
    ensures { (span : At) → Gives (found result) (operators.of_bits_and_integer span operator a.now z) }
{
    match operator {
        BinaryOperator::Add => made(raised(alloc, a, z)),
        BinaryOperator::Subtract => made(lowered(alloc, a, z)),
        // any other operator may be left to its node
        _ => AtOnce::Neither,
    }
}

fn are_same(a: &Vector, b: &Vector) -> bool
    requires { length a.now ≡ length b.now }
    ensures { result ≡ operators.same_bits a.now b.now }
{
    a.same(b)
}

/// The sum of bits of one width.
#[tactic(auto, using(asl_value::proofs::Bits::sum_is))]
fn sum(alloc: Global, a: &Vector, b: &Vector) -> Result<Vector, AllocError>
    requires { length a.now ≡ length b.now }
    ensures { IfOk result (λ it. it ≡ int_bits (length a.now) (pos (bits_value a.now) +ℤ pos (bits_value b.now))) }
{
    Ok(a.add(alloc, b)?)
}

/// The sum of bits and an integer.
#[tactic(auto, using(asl_value::proofs::Bits::raised_is, asl_value::proofs::Bits::width_of_integer))]
fn raised(alloc: Global, a: &Vector, z: i128) -> Result<Vector, AllocError>
    ensures { IfOk result (λ it. it ≡ int_bits (length a.now) (pos (bits_value a.now) +ℤ z)) }
{
    let b = Vector::wrapped(alloc, z, a.width())?;
    Ok(a.add(alloc, &b)?)
}

/// The difference of bits and an integer.
#[tactic(auto, using(asl_value::proofs::Bits::lowered_is, asl_value::proofs::Bits::width_of_integer))]
fn lowered(alloc: Global, a: &Vector, z: i128) -> Result<Vector, AllocError>
    ensures { IfOk result (λ it. it ≡ int_bits (length a.now) (pos (bits_value a.now) -ℤ z)) }
{
    let b = Vector::wrapped(alloc, z, a.width())?;
    Ok(a.sub(alloc, &b)?)
}

// ---- slices

/// So many places from one on.
#[derive(Clone, Copy)]
pub struct Cut {
    pub low: u32,
    pub width: u32,
}

/// The place of a slice with one expression.
pub fn place_of(shape: SliceShape, i: i128) -> Option<Cut>
    ensures { IfSome result (Cuts (slice_of shape) (int i ∷ [])) }
{
    match shape {
        SliceShape::AtBit => bit_at(i),
        SliceShape::HighLow => None,
        SliceShape::LowWidth => None,
        SliceShape::FactorWidth => None,
    }
}

/// The place of `[i]`.
#[tactic(auto, using(crate::proofs::BitsAtOnce::bit_cut))]
fn bit_at(i: i128) -> Option<Cut>
    ensures { IfSome result (Cuts shapes.at_bit (int i ∷ [])) }
{
    if 0 <= i && i < WIDTH_LIMIT as i128 {
        Some(Cut {
            low: i as u32,
            width: 1,
        })
    } else {
        None
    }
}

/// The places of a slice with two expressions.
pub fn places_of(shape: SliceShape, first: i128, second: i128) -> Option<Cut>
    ensures { IfSome result (Cuts (slice_of shape) (int first ∷ int second ∷ [])) }
{
    match shape {
        SliceShape::AtBit => None,
        SliceShape::HighLow => between(first, second),
        SliceShape::LowWidth => from_low(first, second),
        SliceShape::FactorWidth => from_factor(first, second),
    }
}

/// The places of `[high:low]`.
#[tactic(auto, using(crate::proofs::BitsAtOnce::ends_cut))]
fn between(high: i128, low: i128) -> Option<Cut>
    ensures { IfSome result (Cuts shapes.high_low (int high ∷ int low ∷ [])) }
{
    if 0 <= low && low <= high && high < WIDTH_LIMIT as i128 {
        Some(Cut {
            low: low as u32,
            width: (high - low + 1) as u32,
        })
    } else {
        None
    }
}

/// The places of `[low +: width]`.
#[tactic(auto, using(crate::proofs::BitsAtOnce::low_cut))]
fn from_low(low: i128, width: i128) -> Option<Cut>
    ensures { IfSome result (Cuts shapes.low_width (int low ∷ int width ∷ [])) }
{
    if 0 <= low && low <= WIDTH_LIMIT as i128 && 0 <= width && width <= WIDTH_LIMIT as i128 {
        Some(Cut {
            low: low as u32,
            width: width as u32,
        })
    } else {
        None
    }
}

/// The places of `[factor *: width]`.
#[tactic(auto, using(crate::proofs::BitsAtOnce::factor_cut))]
fn from_factor(factor: i128, width: i128) -> Option<Cut>
    ensures { IfSome result (Cuts shapes.factor_width (int factor ∷ int width ∷ [])) }
{
    if factor < 0 || factor > WIDTH_LIMIT as i128 || width < 0 || width > WIDTH_LIMIT as i128 {
        return None;
    }
    match (factor as u32).checked_mul(width as u32) {
        Some(low) => Some(Cut {
            low,
            width: width as u32,
        }),
        None => None,
    }
}

/// The bits of one slice of bits.
#[tactic(auto, using(crate::proofs::BitsAtOnce::bits_cut))]
pub fn part(alloc: Global, bits: &Vector, cut: Cut) -> AtOnce
    ensures { (span : At) (shape : Shape) (given : List Seen) → Cuts shape given cut →
        Gives (found result) (vectors.slices_of WIDTH_LIMIT span (shape ∷ []) given (operators.plain_bits bits.now)) }
{
    if cut.low as u64 + cut.width as u64 <= bits.width() as u64 {
        made(bits.part(alloc, cut.low, cut.width))
    } else {
        AtOnce::Neither
    }
}

/// The bits of one slice of an integer.
#[tactic(auto, using(crate::proofs::BitsAtOnce::integer_cut))]
pub fn part_of_integer(alloc: Global, z: i128, cut: Cut) -> AtOnce
    ensures { (span : At) (shape : Shape) (given : List Seen) → Cuts shape given cut →
        Gives (found result) (vectors.slices_of WIDTH_LIMIT span (shape ∷ []) given (int z)) }
{
    if cut.width <= WIDTH_LIMIT {
        made(Vector::part_of_int(alloc, z, cut.low, cut.width))
    } else {
        AtOnce::Neither
    }
}

// ---- the library

/// An integer that was asked of bits.
#[tactic(auto, using(crate::proofs::BitsAtOnce::number_found))]
fn number(r: Result<i128, BitsRefused>) -> AtOnce
    ensures { (span : At) (z : ℤ) → IsInt r z → Gives (found result) (operators.integer_of span z) }
{
    match r {
        Ok(z) => AtOnce::Integer(z),
        Err(_) => AtOnce::Neither,
    }
}

/// What the library makes of bits.
pub fn of_bits_alone(which: Routine, bits: &Vector) -> AtOnce
    ensures { (span : At) → Gives (found result)
        (library.routine_value WIDTH_LIMIT span (routine_of which) [] (operators.plain_bits bits.now ∷ [])) }
{
    match which {
        Routine::UInt => number(bits.uint()),
        Routine::SInt => number(bits.sint()),
        Routine::Len => AtOnce::Integer(bits.width() as i128),
        // what any other gives may be left to its node
        _ => AtOnce::Neither,
    }
}

/// What the library makes of a width.
pub fn of_width(alloc: Global, which: Routine, width: i128) -> AtOnce
    ensures { (span : At) → Gives (found result)
        (library.routine_value WIDTH_LIMIT span (routine_of which) (int width ∷ []) []) }
{
    match which {
        Routine::Zeros => zeros(alloc, width),
        Routine::Ones => ones(alloc, width),
        // what any other gives may be left to its node
        _ => AtOnce::Neither,
    }
}

/// So many bits 0.
#[tactic(auto, using(crate::proofs::BitsAtOnce::copies_found))]
fn zeros(alloc: Global, width: i128) -> AtOnce
    ensures { (span : At) → Gives (found result) (library.copies WIDTH_LIMIT span false width) }
{
    match Vector::zeros(alloc, width) {
        Ok(Ok(bits)) => AtOnce::Bits(bits),
        Ok(Err(_)) => AtOnce::Neither,
        Err(_) => AtOnce::Neither,
    }
}

/// So many bits 1.
#[tactic(auto, using(crate::proofs::BitsAtOnce::copies_found))]
fn ones(alloc: Global, width: i128) -> AtOnce
    ensures { (span : At) → Gives (found result) (library.copies WIDTH_LIMIT span true width) }
{
    match Vector::ones(alloc, width) {
        Ok(Ok(bits)) => AtOnce::Bits(bits),
        Ok(Err(_)) => AtOnce::Neither,
        Err(_) => AtOnce::Neither,
    }
}

/// What the library makes of a width and of bits.
pub fn of_width_and_bits(alloc: Global, which: Routine, width: i128, bits: &Vector) -> AtOnce
    ensures { (span : At) → Gives (found result)
        (library.routine_value WIDTH_LIMIT span (routine_of which) (int width ∷ []) (operators.plain_bits bits.now ∷ [])) }
{
    match which {
        Routine::ZeroExtend => extended(alloc, bits, width, false),
        Routine::SignExtend => extended(alloc, bits, width, true),
        // what any other gives may be left to its node
        _ => AtOnce::Neither,
    }
}

/// Bits with more on top.
#[tactic(auto, using(asl_shape::proofs::LibraryBits::extension_is))]
fn extended(alloc: Global, bits: &Vector, width: i128, signed: bool) -> AtOnce
    ensures { (span : At) → Gives (found result) (library.extended WIDTH_LIMIT span signed width bits.now) }
{
    match bits.extend(alloc, width, signed) {
        Ok(Ok(more)) => AtOnce::Bits(more),
        Ok(Err(_)) => AtOnce::Neither,
        Err(_) => AtOnce::Neither,
    }
}
