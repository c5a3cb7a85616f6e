//! Operations, conditional expressions and tuples, whose operands were typed.

ghost use Rattle.std.specs.Prelude.{◌≡◌, IfOk};
ghost use Rattle.asl_rules.specs.expressions.Exprs as rules;
ghost use Rattle.asl_rules.specs.Faults.{found_or, need};
ghost use Rattle.asl_rules.specs.expressions.Operations as operations;
ghost use Rattle.asl_rules.specs.Tests.{Tests, IsRight};
ghost use Rattle.asl_rules.specs.runs.Trees.{tree_at};
ghost use Rattle.asl_rules.specs.types.Types as types;
ghost use Rattle.asl_rules.specs.expressions.Typing.{types_of};
ghost use Rattle.asl_rules.specs.types.Widths.{bounded as bounded_by};
ghost use Rattle.asl_types.specs.private.Answers.{Met, Agrees};
ghost use Rattle.asl_types.specs.View.{parts_of};
ghost use Rattle.asl_tree.specs.View.{note_view, tree_of, typed_of, all_operands};
ghost use Rattle.asl_typing.specs.private.Conditionals.{conditional_note};

use crate::ends::{all_together, greatest, keep_class, stand_together};
use crate::operators::{type_binary, type_unary};
use asl_allowed::effects;
use asl_allowed::effects::{greater, together};
use asl_rules::effect::Effect;
use asl_shared::Shared;
use asl_syn::code::{Refused, StaticCode};
use asl_syn::token::Span;
use asl_syn::tree::{BinaryOperator, UnaryOperator};
use asl_tree::nodes;
use asl_tree::tree::{Note, Tree};
use asl_types::Ty;
use asl_types::answer::fault;
use asl_types::baring::bare;
use asl_types::fits::join;
use asl_types::kinds::{is_bits, is_boolean};
use asl_types::sizes::bounded;
use sqlite_items::{Boxed, Items};
use std::alloc::{AllocError, Global};

/// An operation with one operand: the fault of `type_unary`, then T12 where its effect passes the class of the body.
pub fn type_operation_of_one(
    alloc: Global,
    class: Effect,
    span: Span,
    op: UnaryOperator,
    operand: Boxed<Tree>,
) -> Result<Boxed<Tree>, Refused>
    ensures { Met typed_of result (operations.operation class span op (typed_of operand)) }
{
    let ty = type_unary(alloc, span, op, operand.get().ty())?;
    let effect = operand.get().effect();
    keep_class(class, span, effect)?;
    Ok(nodes::unary(alloc, Note { span, ty, effect }, op, operand)?)
}

/// An operation with two operands: the fault of `type_binary`, then T13 where these may not stand together, then T12.
pub fn type_operation(
    alloc: Global,
    class: Effect,
    span: Span,
    op: BinaryOperator,
    left: Boxed<Tree>,
    right: Boxed<Tree>,
) -> Result<Boxed<Tree>, Refused>
    ensures { (t : Tests) → IsRight t → Met typed_of result (operations.operation_of_two t class span op (typed_of left) (typed_of right)) }
{
    let ty = type_binary(alloc, span, op, left.get().ty(), right.get().ty())?;
    let (k, l) = (left.get().effect(), right.get().effect());
    stand_together(span, together(k, l))?;
    let effect = greater(k, l);
    keep_class(class, span, effect)?;
    Ok(nodes::binary(alloc, Note { span, ty, effect }, op, left, right)?)
}

/// The code where two types have no join: T06 of bits, and else T05.
fn apart(left: &Ty, right: &Ty) -> StaticCode
    ensures { result ≡ rules.apart left.now right.now }
{
    if is_bits(left) && is_bits(right) {
        StaticCode::T06
    } else {
        StaticCode::T05
    }
}

/// The type of what may be of either type.
fn joined(alloc: Global, span: Span, left: &Ty, right: &Ty) -> Result<Ty, Refused>
    ensures { (t : Tests) → IsRight t → Agrees result (found_or (types.join t left.now right.now) (rules.apart left.now right.now) span) }
{
    match join(alloc, left, right)? {
        None => fault(apart(left, right), span),
        Some(ty) => Ok(ty),
    }
}

/// T05 at this place where a condition is no boolean.
fn need_boolean(at: Span, condition: &Ty) -> Result<(), Refused>
    ensures { Met (λ u. u) result (need (types.is_boolean condition.now) StaticCode.T05 at) }
{
    if !is_boolean(condition) {
        return fault(StaticCode::T05, at);
    }
    Ok(())
}

/// The note of a conditional expression.
fn conditional_note(
    alloc: Global,
    class: Effect,
    span: Span,
    condition: &Tree,
    left: &Tree,
    right: &Tree,
) -> Result<Note, Refused>
    ensures { (t : Tests) → IsRight t → Met note_view result (conditional_note t class span (tree_at (tree_of condition.now)) (typed_of condition.now) (typed_of left.now) (typed_of right.now)) }
{
    need_boolean(condition.span(), condition.ty())?;
    let ty = joined(alloc, span, left.ty(), right.ty())?;
    let ty = bare(alloc, &ty)?;
    let parts = [condition.effect(), left.effect(), right.effect()];
    stand_together(span, effects::may_stand_together(&parts))?;
    let effect = effects::greatest(Effect::Pure, &parts);
    keep_class(class, span, effect)?;
    Ok(Note { span, ty, effect })
}

/// A conditional expression: T05 where the condition is no boolean, T06 or T05 where the types have no join, then T13,
/// then T12.
pub fn type_conditional(
    alloc: Global,
    class: Effect,
    span: Span,
    condition: Boxed<Tree>,
    left: Boxed<Tree>,
    right: Boxed<Tree>,
) -> Result<Boxed<Tree>, Refused>
    ensures { (t : Tests) → IsRight t → Met typed_of result (rules.conditional_of t class span (tree_at (tree_of condition)) (typed_of condition) (typed_of left) (typed_of right)) }
{
    let note = conditional_note(alloc, class, span, condition.get(), left.get(), right.get())?;
    Ok(nodes::conditional(alloc, note, condition, left, right)?)
}

/// The types of operands in order.
#[tactic(auto, using(asl_tree::proofs::Operands::types_next, asl_tree::proofs::Operands::types_last))]
pub fn operand_types(alloc: Global, operands: &[Tree]) -> Result<Items<Ty>, AllocError>
    ensures { IfOk result (λ tys. parts_of tys ≡ types_of (all_operands operands.now)) }
{
    let mut found = Items::new(alloc);
    for operand in operands {
        found.push(operand.ty().copy()?)?;
    }
    Ok(found)
}

/// The type of a tuple: T20 past the limits.
fn tuple_type(alloc: Global, span: Span, parts: &[Tree]) -> Result<Ty, Refused>
    ensures { Agrees result (bounded_by span (types.tuple_of (types_of (all_operands parts.now)))) }
{
    let found = operand_types(alloc, parts)?;
    bounded(span, Ty::tuple(Shared::new(alloc, found)?))
}

/// A tuple: T20 past the limits, then T13, then T12.
pub fn type_tuple(
    alloc: Global,
    class: Effect,
    span: Span,
    parts: Items<Tree>,
) -> Result<Boxed<Tree>, Refused>
    ensures { Met typed_of result (rules.tuple_with class span (all_operands parts)) }
{
    let ty = tuple_type(alloc, span, parts.as_slice())?;
    stand_together(span, all_together(Effect::Pure, parts.as_slice()))?;
    let effect = greater(greatest(Effect::Pure, parts.as_slice()), Effect::Pure);
    keep_class(class, span, effect)?;
    Ok(nodes::tuple(alloc, Note { span, ty, effect }, parts)?)
}
