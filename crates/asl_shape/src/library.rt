//! What the subprograms of the library give.
ghost use Rattle.std.specs.Prelude.{◌≡◌, map, IfOk};
ghost use Rattle.asl_bits.specs.declared.TheConstants.{WIDTH_LIMIT};
ghost use Rattle.asl_rules.specs.values.Library as rules;
ghost use Rattle.asl_rules.specs.values.Operators.{integer_of, same_bool};
ghost use Rattle.asl_rules.specs.declarations.Routines as routines;
ghost use Rattle.asl_value.specs.private.Answers.{Is};
ghost use Rattle.asl_value.specs.View.{value_of};
ghost use Rattle.asl_shape.specs.private.Bits as bits;
ghost use Rattle.asl_shape.specs.View.{routine_of};

use crate::arguments::{bits_alone, integer_alone, one_bits, one_integer, two_alone};
use crate::matching::is_at_most;
use crate::routines::Routine;
use asl_bits::BitsRefused;
use asl_syn::code::DynCode;
use asl_syn::token::Span;
use asl_value::{Failure, Value, literal, plain_bits};
use asl_vector::Vector;
use std::alloc::{AllocError, Global};

/// What a subprogram of the library gives, with its parameters and its arguments: D01 past the integers, D14 past
/// `WIDTH_LIMIT`, and D08 where bits would be extended to fewer.
pub fn routine(
    alloc: Global,
    span: Span,
    which: Routine,
    params: &[Value],
    args: &[Value],
) -> Result<Value, Failure>
    ensures { Is value_of result
        (rules.routine_value WIDTH_LIMIT span (routine_of which) (map value_of params.now) (map value_of args.now)) }
{
    match which {
        Routine::UInt => unsigned(span, params, args),
        Routine::SInt => signed(span, params, args),
        Routine::Zeros => zeros(alloc, span, params, args),
        Routine::Ones => ones(alloc, span, params, args),
        Routine::ZeroExtend => zero_extended(alloc, span, params, args),
        Routine::SignExtend => sign_extended(alloc, span, params, args),
        Routine::IsZero => is_zero(span, params, args),
        Routine::IsOnes => is_ones(span, params, args),
        Routine::Len => width(span, params, args),
        Routine::Abs => absolute_of(span, params, args),
        Routine::Min => least(span, params, args),
        Routine::Max => greatest(span, params, args),
    }
}

// ---- integers

/// An integer that was asked of bits: D01 where there is none.
fn number(span: Span, r: Result<i128, BitsRefused>) -> Result<Value, Failure>
    ensures { Is value_of result (bits.number_of span r) }
{
    match r {
        Ok(z) => Ok(Value::Int(z)),
        Err(_) => Err(Failure::Fault(DynCode::D01, span)),
    }
}

/// `UInt`
#[tactic(auto, using(crate::proofs::Given::unsigned_is, crate::proofs::LibraryBits::number_is))]
fn unsigned(span: Span, params: &[Value], args: &[Value]) -> Result<Value, Failure>
    ensures { Is value_of result
        (rules.routine_value WIDTH_LIMIT span routines.UInt (map value_of params.now) (map value_of args.now)) }
{
    match bits_alone(params, args) {
        Some(bits) => number(span, bits.uint()),
        None => Err(Failure::WrongKind(span)),
    }
}

/// `SInt`
#[tactic(auto, using(crate::proofs::Given::signed_is, crate::proofs::LibraryBits::number_is))]
fn signed(span: Span, params: &[Value], args: &[Value]) -> Result<Value, Failure>
    ensures { Is value_of result
        (rules.routine_value WIDTH_LIMIT span routines.SInt (map value_of params.now) (map value_of args.now)) }
{
    match bits_alone(params, args) {
        Some(bits) => number(span, bits.sint()),
        None => Err(Failure::WrongKind(span)),
    }
}

/// `Len`
#[tactic(auto, using(crate::proofs::Given::width_is))]
fn width(span: Span, params: &[Value], args: &[Value]) -> Result<Value, Failure>
    ensures { Is value_of result
        (rules.routine_value WIDTH_LIMIT span routines.Len (map value_of params.now) (map value_of args.now)) }
{
    match bits_alone(params, args) {
        Some(bits) => Ok(Value::Int(bits.width() as i128)),
        None => Err(Failure::WrongKind(span)),
    }
}

/// `Abs`
#[tactic(auto, using(crate::proofs::Given::absolute_is))]
fn absolute_of(span: Span, params: &[Value], args: &[Value]) -> Result<Value, Failure>
    ensures { Is value_of result
        (rules.routine_value WIDTH_LIMIT span routines.Abs (map value_of params.now) (map value_of args.now)) }
{
    match integer_alone(params, args) {
        Some(z) => absolute(span, z),
        None => Err(Failure::WrongKind(span)),
    }
}

/// The absolute value of an integer: D01 where it is none.
#[tactic(auto, using(crate::proofs::LibraryBits::absolute_is))]
fn absolute(span: Span, z: i128) -> Result<Value, Failure>
    ensures { Is value_of result (integer_of span (rules.absolute z)) }
{
    literal(span, z.unsigned_abs())
}

/// `Min`
#[tactic(auto, using(crate::proofs::Given::lesser_is))]
fn least(span: Span, params: &[Value], args: &[Value]) -> Result<Value, Failure>
    ensures { Is value_of result
        (rules.routine_value WIDTH_LIMIT span routines.Min (map value_of params.now) (map value_of args.now)) }
{
    match two_alone(params, args) {
        Some(pair) => Ok(Value::Int(lesser(pair.0, pair.1))),
        None => Err(Failure::WrongKind(span)),
    }
}

/// `Max`
#[tactic(auto, using(crate::proofs::Given::greater_is))]
fn greatest(span: Span, params: &[Value], args: &[Value]) -> Result<Value, Failure>
    ensures { Is value_of result
        (rules.routine_value WIDTH_LIMIT span routines.Max (map value_of params.now) (map value_of args.now)) }
{
    match two_alone(params, args) {
        Some(pair) => Ok(Value::Int(greater(pair.0, pair.1))),
        None => Err(Failure::WrongKind(span)),
    }
}

/// The lesser of two integers.
fn lesser(a: i128, b: i128) -> i128
    ensures { result ≡ rules.lesser a b }
{
    if is_at_most(a, b) { a } else { b }
}

/// The greater of two integers.
fn greater(a: i128, b: i128) -> i128
    ensures { result ≡ rules.greater a b }
{
    if is_at_most(a, b) { b } else { a }
}

// ---- bits

/// `Zeros`
#[tactic(auto, using(crate::proofs::Given::zeros_is))]
fn zeros(alloc: Global, span: Span, params: &[Value], args: &[Value]) -> Result<Value, Failure>
    ensures { Is value_of result
        (rules.routine_value WIDTH_LIMIT span routines.Zeros (map value_of params.now) (map value_of args.now)) }
{
    match integer_alone(args, params) {
        Some(w) => copies(alloc, span, false, w),
        None => Err(Failure::WrongKind(span)),
    }
}

/// `Ones`
#[tactic(auto, using(crate::proofs::Given::copied_ones_is))]
fn ones(alloc: Global, span: Span, params: &[Value], args: &[Value]) -> Result<Value, Failure>
    ensures { Is value_of result
        (rules.routine_value WIDTH_LIMIT span routines.Ones (map value_of params.now) (map value_of args.now)) }
{
    match integer_alone(args, params) {
        Some(w) => copies(alloc, span, true, w),
        None => Err(Failure::WrongKind(span)),
    }
}

/// So many copies of a bit: D14 past `WIDTH_LIMIT`.
#[tactic(auto, using(crate::proofs::LibraryBits::copies_are, crate::proofs::LibraryBits::no_copies))]
fn copies(alloc: Global, span: Span, bit: bool, width: i128) -> Result<Value, Failure>
    ensures { Is value_of result (rules.copies WIDTH_LIMIT span bit width) }
{
    match copied(alloc, bit, width)? {
        Some(bits) => Ok(plain_bits(bits)),
        None => Err(Failure::Fault(DynCode::D14, span)),
    }
}

/// So many copies of a bit, up to `WIDTH_LIMIT`.
#[tactic(auto, using(crate::proofs::LibraryBits::copied_is))]
pub(crate) fn copied(alloc: Global, bit: bool, width: i128) -> Result<Option<Vector>, AllocError>
    ensures { IfOk result (λ it. it ≡ bits.copied WIDTH_LIMIT bit width) }
{
    if bit {
        Ok(kept(Vector::ones(alloc, width)?))
    } else {
        Ok(kept(Vector::zeros(alloc, width)?))
    }
}

/// The bits, where there are some.
fn kept(r: Result<Vector, BitsRefused>) -> Option<Vector>
    ensures { result ≡ bits.kept r }
{
    match r {
        Ok(bits) => Some(bits),
        Err(_) => None,
    }
}

/// `ZeroExtend`
#[tactic(auto, using(crate::proofs::Given::zero_extended_is))]
fn zero_extended(
    alloc: Global,
    span: Span,
    params: &[Value],
    args: &[Value],
) -> Result<Value, Failure>
    ensures { Is value_of result
        (rules.routine_value WIDTH_LIMIT span routines.ZeroExtend (map value_of params.now) (map value_of args.now)) }
{
    match one_integer(params) {
        Some(w) => match one_bits(args) {
            Some(bits) => extended(alloc, span, false, w, bits),
            None => Err(Failure::WrongKind(span)),
        },
        None => Err(Failure::WrongKind(span)),
    }
}

/// `SignExtend`
#[tactic(auto, using(crate::proofs::Given::sign_extended_is))]
fn sign_extended(
    alloc: Global,
    span: Span,
    params: &[Value],
    args: &[Value],
) -> Result<Value, Failure>
    ensures { Is value_of result
        (rules.routine_value WIDTH_LIMIT span routines.SignExtend (map value_of params.now) (map value_of args.now)) }
{
    match one_integer(params) {
        Some(w) => match one_bits(args) {
            Some(bits) => extended(alloc, span, true, w, bits),
            None => Err(Failure::WrongKind(span)),
        },
        None => Err(Failure::WrongKind(span)),
    }
}

/// Bits with more on top: D14 past `WIDTH_LIMIT`, then D08 where there would be fewer.
#[tactic(auto, using(crate::proofs::LibraryBits::extension_is))]
fn extended(
    alloc: Global,
    span: Span,
    signed: bool,
    width: i128,
    bits: &Vector,
) -> Result<Value, Failure>
    ensures { Is value_of result (rules.extended WIDTH_LIMIT span signed width bits.now) }
{
    made(span, bits.extend(alloc, width, signed)?)
}

/// Bits that were extended, or the fault.
fn made(span: Span, r: Result<Vector, BitsRefused>) -> Result<Value, Failure>
    ensures { Is value_of result (bits.extension span r) }
{
    match r {
        Ok(more) => Ok(plain_bits(more)),
        Err(BitsRefused::OutOfRange) => Err(Failure::Fault(DynCode::D08, span)),
        Err(BitsRefused::TooWide) => Err(Failure::Fault(DynCode::D14, span)),
        Err(BitsRefused::Overflow) => Err(Failure::Fault(DynCode::D14, span)),
    }
}

/// `IsZero`
#[tactic(auto, using(crate::proofs::Given::zero_is))]
fn is_zero(span: Span, params: &[Value], args: &[Value]) -> Result<Value, Failure>
    ensures { Is value_of result
        (rules.routine_value WIDTH_LIMIT span routines.IsZero (map value_of params.now) (map value_of args.now)) }
{
    match bits_alone(params, args) {
        Some(bits) => Ok(Value::Bool(all_equal(false, bits))),
        None => Err(Failure::WrongKind(span)),
    }
}

/// `IsOnes`
#[tactic(auto, using(crate::proofs::Given::ones_is))]
fn is_ones(span: Span, params: &[Value], args: &[Value]) -> Result<Value, Failure>
    ensures { Is value_of result
        (rules.routine_value WIDTH_LIMIT span routines.IsOnes (map value_of params.now) (map value_of args.now)) }
{
    match bits_alone(params, args) {
        Some(bits) => Ok(Value::Bool(all_equal(true, bits))),
        None => Err(Failure::WrongKind(span)),
    }
}

/// Whether each of some bits is this bit.
#[tactic(auto, using(crate::proofs::LibraryBits::equal_on, crate::proofs::LibraryBits::equal_off, crate::proofs::LibraryBits::equal_end))]
fn all_equal(bit: bool, bits: &Vector) -> bool
    ensures { result ≡ rules.all_equal bit bits.now }
{
    for place in 0..bits.width() {
        if !is_same(bits.bit(place), bit) {
            return false;
        }
    }
    true
}

/// Whether two bits are the same.
fn is_same(a: bool, b: bool) -> bool
    ensures { result ≡ same_bool a b }
{
    if a { b } else { !b }
}
