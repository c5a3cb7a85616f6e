//! The types that operators give.

ghost use Rattle.std.specs.Prelude.{◌≡◌, ◌&&◌, [], IfOk};
ghost use Rattle.asl_cons.specs.Arithmetic as cons;
ghost use Rattle.asl_rules.specs.Faults.{need};
ghost use Rattle.asl_rules.specs.expressions.Operations as rules;
ghost use Rattle.asl_rules.specs.Tests.{Tests, IsRight};
ghost use Rattle.asl_rules.specs.types.Types as types;
ghost use Rattle.asl_types.specs.private.Answers.{Met, Agrees};
ghost use Rattle.asl_typing.specs.private.BitsWidths.{joined_bits, bits_sum};

use crate::comparable::{bits_width, comparable, same_widths};
use asl_poly::Poly;
use asl_shared::Shared;
use asl_syn::code::{Refused, StaticCode};
use asl_syn::token::Span;
use asl_syn::tree::{BinaryOperator, UnaryOperator};
use asl_types::answer::fault;
use asl_types::integers::{
    any_integer, bits_of, bits_wide, difference, modulo, negated, product, quotient, shifted_down,
    shifted_up, sum,
};
use asl_types::kinds::{is_bits, is_boolean, is_integer};
use asl_types::widths::width_sum;
use asl_types::{Form, Ty, View};
use sqlite_items::Items;
use std::alloc::{AllocError, Global};

/// Bits of the width of these, without bitfields.
fn bits_like(alloc: Global, ty: &Ty) -> Result<Ty, AllocError>
    ensures { IfOk result (λ it. it ≡ types.bits_of (types.width_of ty.now) []) }
{
    match ty.form() {
        Form::Integer(_) => bits_wide(alloc, 0),
        Form::Boolean => bits_wide(alloc, 0),
        Form::Bits(width, _) => {
            let view: View = Shared::new(alloc, Items::new(alloc))?;
            Ok(Ty::bits(width.share()?, view))
        }
        Form::Enumeration(_, _) => bits_wide(alloc, 0),
        Form::Record(_, _) => bits_wide(alloc, 0),
        Form::Exception(_, _) => bits_wide(alloc, 0),
        Form::Tuple(_) => bits_wide(alloc, 0),
        Form::Array(_, _) => bits_wide(alloc, 0),
        Form::Named(_, _, inner) => bits_like(alloc, inner.get()),
    }
}

/// T08 where the operands aren't both integers.
fn need_integers(span: Span, left: &Ty, right: &Ty) -> Result<(), Refused>
    ensures { Met (λ u. u) result (need (types.is_integer left.now && types.is_integer right.now) StaticCode.T08 span) }
{
    if !(is_integer(left) && is_integer(right)) {
        return fault(StaticCode::T08, span);
    }
    Ok(())
}

/// An operator that compares integers.
fn ordered(span: Span, left: &Ty, right: &Ty) -> Result<Ty, Refused>
    ensures { Agrees result (rules.of_integers span left.now right.now types.boolean) }
{
    need_integers(span, left, right)?;
    Ok(Ty::boolean())
}

/// An operator whose operands are booleans.
fn of_booleans(span: Span, left: &Ty, right: &Ty) -> Result<Ty, Refused>
    ensures { Agrees result (rules.of_booleans span left.now right.now) }
{
    if !(is_boolean(left) && is_boolean(right)) {
        return fault(StaticCode::T08, span);
    }
    Ok(Ty::boolean())
}

/// A product of integers.
fn multiplied(alloc: Global, span: Span, left: &Ty, right: &Ty) -> Result<Ty, Refused>
    ensures { Agrees result (rules.arithmetic span cons.product_parts left.now right.now) }
{
    need_integers(span, left, right)?;
    Ok(product(alloc, left, right)?)
}

/// A quotient of integers, rounded down.
fn divided(alloc: Global, span: Span, left: &Ty, right: &Ty) -> Result<Ty, Refused>
    ensures { Agrees result (rules.arithmetic span cons.quotient_parts left.now right.now) }
{
    need_integers(span, left, right)?;
    Ok(quotient(alloc, left, right)?)
}

/// A remainder of integers.
fn remaining(alloc: Global, span: Span, left: &Ty, right: &Ty) -> Result<Ty, Refused>
    ensures { Agrees result (rules.arithmetic span cons.modulo_parts left.now right.now) }
{
    need_integers(span, left, right)?;
    Ok(modulo(alloc, left, right)?)
}

/// An integer times a power of two.
fn shifted_left(alloc: Global, span: Span, left: &Ty, right: &Ty) -> Result<Ty, Refused>
    ensures { Agrees result (rules.arithmetic span cons.shifted_up_parts left.now right.now) }
{
    need_integers(span, left, right)?;
    Ok(shifted_up(alloc, left, right)?)
}

/// An integer divided by a power of two, rounded down.
fn shifted_right(alloc: Global, span: Span, left: &Ty, right: &Ty) -> Result<Ty, Refused>
    ensures { Agrees result (rules.arithmetic span cons.shifted_down_parts left.now right.now) }
{
    need_integers(span, left, right)?;
    Ok(shifted_down(alloc, left, right)?)
}

/// An operator on integers that gives any integer.
fn unconstrained(alloc: Global, span: Span, left: &Ty, right: &Ty) -> Result<Ty, Refused>
    ensures { Agrees result (rules.arithmetic span rules.any_parts left.now right.now) }
{
    need_integers(span, left, right)?;
    Ok(any_integer(alloc)?)
}

/// A sum or a difference of bits with bits or an integer: T08 of others, and T06 of two widths.
fn additive_bits(alloc: Global, span: Span, left: &Ty, right: &Ty) -> Result<Ty, Refused>
    ensures { (t : Tests) → IsRight t → Agrees result (bits_sum t span left.now right.now) }
{
    if !(is_bits(left) && (is_bits(right) || is_integer(right))) {
        return fault(StaticCode::T08, span);
    }
    if !same_widths(left, right) {
        return fault(StaticCode::T06, span);
    }
    Ok(bits_like(alloc, left)?)
}

/// A sum.
fn added(alloc: Global, span: Span, left: &Ty, right: &Ty) -> Result<Ty, Refused>
    ensures { (t : Tests) → IsRight t → Agrees result (rules.additive t span cons.sum_parts left.now right.now) }
{
    if is_integer(left) && is_integer(right) {
        return Ok(sum(alloc, left, right)?);
    }
    additive_bits(alloc, span, left, right)
}

/// A difference.
fn subtracted(alloc: Global, span: Span, left: &Ty, right: &Ty) -> Result<Ty, Refused>
    ensures { (t : Tests) → IsRight t → Agrees result (rules.additive t span cons.difference_parts left.now right.now) }
{
    if is_integer(left) && is_integer(right) {
        return Ok(difference(alloc, left, right)?);
    }
    additive_bits(alloc, span, left, right)
}

/// An operator on bits of one width, which gives bits of that width.
fn bitwise(alloc: Global, span: Span, left: &Ty, right: &Ty) -> Result<Ty, Refused>
    ensures { (t : Tests) → IsRight t → Agrees result (rules.bitwise t span left.now right.now) }
{
    if !(is_bits(left) && is_bits(right)) {
        return fault(StaticCode::T08, span);
    }
    if !same_widths(left, right) {
        return fault(StaticCode::T06, span);
    }
    Ok(bits_like(alloc, left)?)
}

/// Bits behind bits: T20 where the sum of the widths passes the limits.
fn concatenated(alloc: Global, span: Span, left: &Ty, right: &Ty) -> Result<Ty, Refused>
    ensures { Agrees result (rules.concatenated span left.now right.now) }
{
    match bits_width(left) {
        None => fault(StaticCode::T08, span),
        Some(p) => match bits_width(right) {
            None => fault(StaticCode::T08, span),
            Some(q) => joined_widths(alloc, span, p, q),
        },
    }
}

/// Bits whose width is the sum of these.
fn joined_widths(alloc: Global, span: Span, p: &Poly, q: &Poly) -> Result<Ty, Refused>
    ensures { Agrees result (joined_bits span p.now q.now) }
{
    let width = width_sum(alloc, span, p, q)?;
    Ok(bits_of(alloc, width)?)
}

/// An operator that compares two values of one kind and one width.
fn compared(span: Span, left: &Ty, right: &Ty) -> Result<Ty, Refused>
    ensures { (t : Tests) → IsRight t → Agrees result (rules.compared t span left.now right.now) }
{
    comparable(StaticCode::T08, span, left, right)?;
    Ok(Ty::boolean())
}

/// The type that an operator with two operands gives: T08 where it has no rule for their kinds, T06 where they are bits of two
/// widths, and T20 where a width passes the limits.
pub fn type_binary(
    alloc: Global,
    span: Span,
    op: BinaryOperator,
    left: &Ty,
    right: &Ty,
) -> Result<Ty, Refused>
    ensures { (t : Tests) → IsRight t → Agrees result (rules.binary_rule t span op left.now right.now) }
{
    match op {
        BinaryOperator::LogicalAnd => of_booleans(span, left, right),
        BinaryOperator::LogicalOr => of_booleans(span, left, right),
        BinaryOperator::Implies => of_booleans(span, left, right),
        BinaryOperator::Equivalent => of_booleans(span, left, right),
        BinaryOperator::Equal => compared(span, left, right),
        BinaryOperator::NotEqual => compared(span, left, right),
        BinaryOperator::Less => ordered(span, left, right),
        BinaryOperator::LessEqual => ordered(span, left, right),
        BinaryOperator::Greater => ordered(span, left, right),
        BinaryOperator::GreaterEqual => ordered(span, left, right),
        BinaryOperator::Add => added(alloc, span, left, right),
        BinaryOperator::Subtract => subtracted(alloc, span, left, right),
        BinaryOperator::BitAnd => bitwise(alloc, span, left, right),
        BinaryOperator::BitOr => bitwise(alloc, span, left, right),
        BinaryOperator::BitXor => bitwise(alloc, span, left, right),
        BinaryOperator::Concatenate => concatenated(alloc, span, left, right),
        BinaryOperator::Multiply => multiplied(alloc, span, left, right),
        BinaryOperator::DivideExact => unconstrained(alloc, span, left, right),
        BinaryOperator::DivideFloor => divided(alloc, span, left, right),
        BinaryOperator::Modulo => remaining(alloc, span, left, right),
        BinaryOperator::ShiftLeft => shifted_left(alloc, span, left, right),
        BinaryOperator::ShiftRight => shifted_right(alloc, span, left, right),
        BinaryOperator::Power => unconstrained(alloc, span, left, right),
    }
}

/// The type that an operator with one operand gives: T08 where it has no rule for its kind.
pub fn type_unary(alloc: Global, span: Span, op: UnaryOperator, operand: &Ty) -> Result<Ty, Refused>
    ensures { Agrees result (rules.unary_rule span op operand.now) }
{
    match op {
        UnaryOperator::Negate => {
            if !is_integer(operand) {
                return fault(StaticCode::T08, span);
            }
            Ok(negated(alloc, operand)?)
        }
        UnaryOperator::Not => {
            if !is_boolean(operand) {
                return fault(StaticCode::T08, span);
            }
            Ok(Ty::boolean())
        }
        UnaryOperator::Complement => {
            if !is_bits(operand) {
                return fault(StaticCode::T08, span);
            }
            Ok(bits_like(alloc, operand)?)
        }
    }
}
