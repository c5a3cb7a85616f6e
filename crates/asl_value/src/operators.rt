//! Operators on values, and the values that literals stand for.
ghost use Rattle.std.specs.Prelude.{◌≡◌, ◌≤◌, ◌==◌, ℤ, pos, ◌+ℤ◌, ◌-ℤ◌, if◌then◌else◌, length, IfOk};
ghost use Rattle.asl_bits.specs.declared.TheConstants.{WIDTH_LIMIT};
ghost use Rattle.asl_rules.specs.runs.Forms.{literal as value_of_literal};
ghost use Rattle.asl_bits.specs.Lists.{bits_value, int_bits};
ghost use Rattle.asl_rules.specs.values.Operators as rules;
ghost use Rattle.asl_rules.specs.runs.Plans.{Stuck, WrongKind, Bad};
ghost use Rattle.asl_value.specs.private.Answers.{Is};
ghost use Rattle.asl_value.specs.private.Numbers.{answer_of, fault_code};
ghost use Rattle.asl_value.specs.View.{value_of};

use crate::failure::Failure;
use crate::keeping::one_width;
use crate::names::same_name;
use crate::value::Value;
use asl_num as num;
use asl_num::NumFault;
use asl_syn::code::DynCode;
use asl_syn::token::Span;
use asl_syn::tree::{BinaryOperator, UnaryOperator};
use asl_vector::Vector;
use std::alloc::{AllocError, Global};

/// The value of an integer literal: D01 beyond the range.
pub fn literal(span: Span, n: u128) -> Result<Value, Failure>
    ensures { Is value_of result (value_of_literal span n) }
{
    match i128::try_from(n) {
        Ok(z) => Ok(Value::Int(z)),
        Err(_) => Err(Failure::Fault(DynCode::D01, span)),
    }
}

/// The boolean that a value is; any other value is of the wrong kind, which no run of a checked program meets.
pub fn truth(span: Span, value: &Value) -> Result<bool, Failure>
    ensures { Is (λ b. b) result (rules.truth span (value_of value.now)) }
{
    match value {
        Value::Bool(b) => Ok(*b),
        _ => Err(Failure::WrongKind(span)),
    }
}

/// The value of an operator with one operand: D01 where an integer has no opposite.
#[tactic(auto, using(crate::proofs::Integers::negated))]
pub fn unary(
    alloc: Global,
    span: Span,
    operator: UnaryOperator,
    x: &Value,
) -> Result<Value, Failure>
    ensures { Is value_of result (rules.unary_value span operator (value_of x.now)) }
{
    match (operator, x) {
        (UnaryOperator::Negate, Value::Int(a)) => number(span, num::neg(*a)),
        (UnaryOperator::Not, Value::Bool(a)) => Ok(Value::Bool(!*a)),
        (UnaryOperator::Complement, Value::Bits(a, _)) => Ok(plain_bits(a.not(alloc)?)),
        _ => Err(Failure::WrongKind(span)),
    }
}

/// The value of an operator with two operands, both of which were evaluated. Labels of one enumeration are the same
/// where their names are; of two enumerations they are of the wrong kind. D01 to D04 as the operator's rule says, and
/// D14 where bits would be wider than `WIDTH_LIMIT`.
pub fn binary(
    alloc: Global,
    span: Span,
    operator: BinaryOperator,
    x: &Value,
    y: &Value,
) -> Result<Value, Failure>
    ensures { Is value_of result (rules.binary_value WIDTH_LIMIT span operator (value_of x.now) (value_of y.now)) }
{
    match (x, y) {
        (Value::Int(a), Value::Int(b)) => of_integers(span, operator, *a, *b),
        (Value::Bool(a), Value::Bool(b)) => of_booleans(span, operator, *a, *b),
        (Value::Bits(a, _), Value::Bits(b, _)) => of_bits(alloc, span, operator, a, b),
        (Value::Bits(a, _), Value::Int(z)) => { of_bits_and_integer(alloc, span, operator, a, *z) }
        (Value::Label(m, a), Value::Label(n, b)) => of_one_enumeration(
            span,
            operator,
            same_name(m.get().as_slice(), n.get().as_slice()),
            same_name(a.get().as_slice(), b.get().as_slice()),
        ),
        _ => Err(Failure::WrongKind(span)),
    }
}

fn of_integers(span: Span, operator: BinaryOperator, a: i128, b: i128) -> Result<Value, Failure>
    ensures { Is value_of result (rules.of_integers span operator a b) }
{
    match operator {
        BinaryOperator::Equal => Ok(Value::Bool(is_same(a, b))),
        BinaryOperator::NotEqual => Ok(Value::Bool(!is_same(a, b))),
        BinaryOperator::Less => Ok(Value::Bool(is_less(a, b))),
        BinaryOperator::LessEqual => Ok(Value::Bool(!is_less(b, a))),
        BinaryOperator::Greater => Ok(Value::Bool(is_less(b, a))),
        BinaryOperator::GreaterEqual => Ok(Value::Bool(!is_less(a, b))),
        BinaryOperator::Add => number(span, num::add(a, b)),
        BinaryOperator::Subtract => number(span, num::sub(a, b)),
        BinaryOperator::Multiply => number(span, num::mul(a, b)),
        BinaryOperator::DivideExact => number(span, num::div_exact(a, b)),
        BinaryOperator::DivideFloor => number(span, num::div_floor(a, b)),
        BinaryOperator::Modulo => number(span, num::modulo(a, b)),
        BinaryOperator::ShiftLeft => number(span, num::shl(a, b)),
        BinaryOperator::ShiftRight => number(span, num::shr(a, b)),
        BinaryOperator::Power => number(span, num::pow(a, b)),
        _ => Err(Failure::WrongKind(span)),
    }
}

fn of_booleans(span: Span, operator: BinaryOperator, a: bool, b: bool) -> Result<Value, Failure>
    ensures { Is value_of result (rules.of_booleans span operator a b) }
{
    match operator {
        BinaryOperator::LogicalAnd => Ok(Value::Bool(a && b)),
        BinaryOperator::LogicalOr => Ok(Value::Bool(a || b)),
        BinaryOperator::Implies => Ok(Value::Bool(!a || b)),
        BinaryOperator::Equivalent | BinaryOperator::Equal => Ok(Value::Bool(is_same_bool(a, b))),
        BinaryOperator::NotEqual => Ok(Value::Bool(!is_same_bool(a, b))),
        _ => Err(Failure::WrongKind(span)),
    }
}

fn of_one_enumeration(
    span: Span,
    operator: BinaryOperator,
    one: bool,
    same: bool,
) -> Result<Value, Failure>
    ensures { Is value_of result (rules.of_one_enumeration span operator one same) }
{
    if one {
        of_labels(span, operator, same)
    } else {
        Err(Failure::WrongKind(span))
    }
}

fn of_labels(span: Span, operator: BinaryOperator, same: bool) -> Result<Value, Failure>
    ensures { Is value_of result (rules.of_labels span operator same) }
{
    match operator {
        BinaryOperator::Equal => Ok(Value::Bool(same)),
        BinaryOperator::NotEqual => Ok(Value::Bool(!same)),
        _ => Err(Failure::WrongKind(span)),
    }
}

#[tactic(auto, using(crate::proofs::Integers::same_is))]
fn is_same(a: i128, b: i128) -> bool
    ensures { result ≡ rules.same a b }
{
    a == b
}

#[tactic(auto, using(crate::proofs::Integers::less_is))]
fn is_less(a: i128, b: i128) -> bool
    ensures { result ≡ rules.less a b }
{
    a < b
}

fn is_same_bool(a: bool, b: bool) -> bool
    ensures { result ≡ rules.same_bool a b }
{
    if a { b } else { !b }
}

/// The value of an operation on integers, or its fault.
fn number(span: Span, r: Result<i128, NumFault>) -> Result<Value, Failure>
    ensures { Is value_of result (answer_of span r) }
{
    match r {
        Ok(z) => Ok(Value::Int(z)),
        Err(fault) => Err(Failure::Fault(code_of(fault), span)),
    }
}

fn code_of(fault: NumFault) -> DynCode
    ensures { result ≡ fault_code fault }
{
    match fault {
        NumFault::Overflow => DynCode::D01,
        NumFault::Divisor => DynCode::D02,
        NumFault::Inexact => DynCode::D03,
        NumFault::Negative => DynCode::D04,
    }
}

// ---- bits

/// Bits without bitfields.
pub fn plain_bits(bits: Vector) -> Value
    ensures { value_of result ≡ rules.plain_bits bits }
{
    Value::Bits(bits, None)
}

fn of_bits(
    alloc: Global,
    span: Span,
    operator: BinaryOperator,
    a: &Vector,
    b: &Vector,
) -> Result<Value, Failure>
    ensures { Is value_of result (rules.of_bits WIDTH_LIMIT span operator a.now b.now) }
{
    match operator {
        BinaryOperator::Concatenate => concatenated(alloc, span, a, b),
        _ => of_widths(alloc, span, operator, a, b),
    }
}

/// The second behind the first, which is on top.
#[tactic(auto, using(crate::proofs::Bits::joined, crate::proofs::Bits::too_wide))]
fn concatenated(alloc: Global, span: Span, a: &Vector, b: &Vector) -> Result<Value, Failure>
    ensures { Is value_of result (rules.concatenated WIDTH_LIMIT span a.now b.now) }
{
    match a.concat(alloc, b)? {
        Ok(bits) => Ok(plain_bits(bits)),
        Err(_) => Err(Failure::Fault(DynCode::D14, span)),
    }
}

/// An operator that wants bits of one width.
fn of_widths(
    alloc: Global,
    span: Span,
    operator: BinaryOperator,
    a: &Vector,
    b: &Vector,
) -> Result<Value, Failure>
    ensures { Is value_of result
        (if length a.now == length b.now then rules.of_one_width span operator a.now b.now else Bad (Stuck WrongKind span)) }
{
    if one_width(a, b) {
        of_one_width(alloc, span, operator, a, b)
    } else {
        Err(Failure::WrongKind(span))
    }
}

fn of_one_width(
    alloc: Global,
    span: Span,
    operator: BinaryOperator,
    a: &Vector,
    b: &Vector,
) -> Result<Value, Failure>
    requires { length a.now ≡ length b.now }
    ensures { Is value_of result (rules.of_one_width span operator a.now b.now) }
{
    match operator {
        BinaryOperator::Equal => Ok(Value::Bool(are_same(a, b))),
        BinaryOperator::NotEqual => Ok(Value::Bool(!are_same(a, b))),
        BinaryOperator::Add => Ok(plain_bits(sum(alloc, a, b)?)),
        BinaryOperator::Subtract => Ok(plain_bits(a.sub(alloc, b)?)),
        BinaryOperator::BitAnd => Ok(plain_bits(a.and(alloc, b)?)),
        BinaryOperator::BitOr => Ok(plain_bits(a.or(alloc, b)?)),
        BinaryOperator::BitXor => Ok(plain_bits(a.xor(alloc, b)?)),
        _ => Err(Failure::WrongKind(span)),
    }
}

/// An operator on bits and an integer, which counts modulo 2 to the power of the width.
fn of_bits_and_integer(
    alloc: Global,
    span: Span,
    operator: BinaryOperator,
    a: &Vector,
    z: i128,
) -> Result<Value, Failure>
    ensures { Is value_of result (rules.of_bits_and_integer span operator a.now z) }
{
    match operator {
        BinaryOperator::Add => Ok(plain_bits(raised(alloc, a, z)?)),
        BinaryOperator::Subtract => Ok(plain_bits(lowered(alloc, a, z)?)),
        _ => Err(Failure::WrongKind(span)),
    }
}

#[tactic(auto, using(crate::proofs::Bits::same_is))]
fn are_same(a: &Vector, b: &Vector) -> bool
    requires { length a.now ≡ length b.now }
    ensures { result ≡ rules.same_bits a.now b.now }
{
    a.same(b)
}

/// The sum of bits of one width.
#[tactic(auto, using(crate::proofs::Bits::sum_is))]
fn sum(alloc: Global, a: &Vector, b: &Vector) -> Result<Vector, AllocError>
    requires { length a.now ≡ length b.now }
    ensures { IfOk result (λ it. it ≡ int_bits (length a.now) (pos (bits_value a.now) +ℤ pos (bits_value b.now))) }
{
    Ok(a.add(alloc, b)?)
}

/// The sum of bits and an integer.
#[tactic(auto, using(crate::proofs::Bits::raised_is, crate::proofs::Bits::width_of_integer))]
fn raised(alloc: Global, a: &Vector, z: i128) -> Result<Vector, AllocError>
    ensures { IfOk result (λ it. it ≡ int_bits (length a.now) (pos (bits_value a.now) +ℤ z)) }
{
    let b = Vector::wrapped(alloc, z, a.width())?;
    Ok(a.add(alloc, &b)?)
}

/// The difference of bits and an integer.
#[tactic(auto, using(crate::proofs::Bits::lowered_is, crate::proofs::Bits::width_of_integer))]
fn lowered(alloc: Global, a: &Vector, z: i128) -> Result<Vector, AllocError>
    ensures { IfOk result (λ it. it ≡ int_bits (length a.now) (pos (bits_value a.now) -ℤ z)) }
{
    let b = Vector::wrapped(alloc, z, a.width())?;
    Ok(a.sub(alloc, &b)?)
}
