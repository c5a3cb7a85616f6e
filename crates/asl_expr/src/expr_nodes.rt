//! The forms of expressions: each types its operands in order, and then has its own conditions.

ghost use Rattle.std.specs.Prelude.{◌≡◌, map, suc};
ghost use denote.Param.Weighed.{most};
ghost use Rattle.asl_rules.specs.expressions.Calls.{function_rule};
ghost use Rattle.asl_rules.specs.expressions.Exprs as rules;
ghost use Rattle.asl_rules.specs.expressions.Exprs.{found};
ghost use Rattle.asl_rules.specs.expressions.Patterns.{in_rule};
ghost use Rattle.asl_rules.specs.expressions.Slicing.{slices_rule};
ghost use Rattle.asl_rules.specs.statements.Targets.{found_slices};
ghost use Rattle.asl_rules.specs.Tests.{Tests};
ghost use Rattle.asl_rules.specs.types.Writing.{as_rule};
ghost use Rattle.asl_types.specs.private.Answers.{Met};
ghost use Rattle.asl_subprograms.specs.private.ContextView.{scope_of};
ghost use Rattle.asl_types.specs.Suits.{Suits};
ghost use Rattle.asl_tree.specs.View.{typed_of};
ghost use Rattle.asl_expr.specs.private.Below.{Types, Matching};
ghost use Rattle.asl_typing.specs.private.Constructs.{found_fields};
ghost use Rattle.asl_syn.specs.declared.tree.Expr.{size-Expr};
ghost use Rattle.asl_syn.specs.declared.tree.FieldValue.{size-FieldValue};
ghost use Rattle.asl_syn.specs.declared.tree.Pattern.{size-Pattern};
ghost use Rattle.asl_syn.specs.declared.tree.Slice.{size-Slice};

use crate::below::{Below, match_pure, type_below};
use crate::calls::type_call;
use crate::conversions::{type_as, type_in};
use crate::operand_lists::{operands_below, slices_below, values_below};
use crate::patterns::Matched;
use crate::slices::type_slices;
use asl_subprograms::Context;
use asl_syn::code::Refused;
use asl_syn::token::Span;
use asl_syn::tree::{
    BinaryOperator, Expr, FieldValue, Ident, Pattern, Slice, TypeExpr, UnaryOperator,
};
use asl_tree::tree::Tree;
use asl_types::Ty;
use asl_typing::constructs::{Site, type_construction};
use asl_typing::literals::{type_bits, type_bool, type_int, type_name};
use asl_typing::members::{type_bitfields, type_element, type_field};
use asl_typing::operations::{type_conditional, type_operation, type_operation_of_one, type_tuple};
use sqlite_items::Boxed;
use std::alloc::Global;

/// An operation with one operand.
fn unary_expr<E: Fn(Global, Context, &Expr) -> Result<Boxed<Tree>, Refused>, M>(
    here: &Below<E, M>,
    span: Span,
    op: UnaryOperator,
    operand: &Expr,
) -> Result<Boxed<Tree>, Refused>
    requires types { Types (suc (size-Expr operand.now)) (E.pre here.now.typing) (E.post here.now.typing) }
    ensures { (t : Tests) → Suits t → Met typed_of result (rules.operation_rule span op (found t operand.now) (scope_of here.now.context)) }
{
    let a = type_below(here, operand)?;
    type_operation_of_one(here.alloc, here.context.class, span, op, a)
}

/// An operation with two operands.
fn binary_expr<E: Fn(Global, Context, &Expr) -> Result<Boxed<Tree>, Refused>, M>(
    here: &Below<E, M>,
    span: Span,
    op: BinaryOperator,
    left: &Expr,
    right: &Expr,
) -> Result<Boxed<Tree>, Refused>
    requires left { Types (suc (size-Expr left.now)) (E.pre here.now.typing) (E.post here.now.typing) }
    requires right { Types (suc (size-Expr right.now)) (E.pre here.now.typing) (E.post here.now.typing) }
    ensures { (t : Tests) → Suits t → Met typed_of result (rules.operation_rule_of_two t span op (found t left.now) (found t right.now) (scope_of here.now.context)) }
{
    let a = type_below(here, left)?;
    let b = type_below(here, right)?;
    type_operation(here.alloc, here.context.class, span, op, a, b)
}

/// A conditional expression.
fn conditional_expr<E: Fn(Global, Context, &Expr) -> Result<Boxed<Tree>, Refused>, M>(
    here: &Below<E, M>,
    span: Span,
    condition: &Expr,
    left: &Expr,
    right: &Expr,
) -> Result<Boxed<Tree>, Refused>
    requires condition { Types (suc (size-Expr condition.now)) (E.pre here.now.typing) (E.post here.now.typing) }
    requires left { Types (suc (size-Expr left.now)) (E.pre here.now.typing) (E.post here.now.typing) }
    requires right { Types (suc (size-Expr right.now)) (E.pre here.now.typing) (E.post here.now.typing) }
    ensures { (t : Tests) → Suits t → Met typed_of result (rules.conditional_rule t span (found t condition.now) (found t left.now) (found t right.now) (scope_of here.now.context)) }
{
    let c = type_below(here, condition)?;
    let a = type_below(here, left)?;
    let b = type_below(here, right)?;
    type_conditional(here.alloc, here.context.class, span, c, a, b)
}

/// A tuple.
fn tuple_expr<E: Fn(Global, Context, &Expr) -> Result<Boxed<Tree>, Refused>, M>(
    here: &Below<E, M>,
    span: Span,
    parts: &[Expr],
) -> Result<Boxed<Tree>, Refused>
    requires types { Types (suc (most size-Expr parts.now)) (E.pre here.now.typing) (E.post here.now.typing) }
    ensures { (t : Tests) → Suits t → Met typed_of result (rules.tuple_rule span (map (found t) parts.now) (scope_of here.now.context)) }
{
    let parts = operands_below(here, parts)?;
    type_tuple(here.alloc, here.context.class, span, parts)
}

/// A construction: the values in order, and then its own conditions.
fn construct_expr<E: Fn(Global, Context, &Expr) -> Result<Boxed<Tree>, Refused>, M>(
    here: &Below<E, M>,
    span: Span,
    name: &Ident,
    given: &[FieldValue],
) -> Result<Boxed<Tree>, Refused>
    requires types { Types (suc (most size-FieldValue given.now)) (E.pre here.now.typing) (E.post here.now.typing) }
    ensures { (t : Tests) → Suits t → Met typed_of result (rules.construct_rule t span name.now (found_fields t given.now) (scope_of here.now.context)) }
{
    let values = values_below(here, given)?;
    type_construction(here.alloc, here.context, Site { span, name, given }, values)
}

/// A call of a function: the arguments in order, and then its own conditions.
#[tactic(auto, using(crate::proofs::Values::call_by))]
fn call_expr<E: Fn(Global, Context, &Expr) -> Result<Boxed<Tree>, Refused>, M>(
    here: &Below<E, M>,
    span: Span,
    name: &Ident,
    params: &[Expr],
    arguments: &[Expr],
) -> Result<Boxed<Tree>, Refused>
    requires types { Types (suc (most size-Expr arguments.now)) (E.pre here.now.typing) (E.post here.now.typing) }
    ensures { (t : Tests) → Suits t → Met typed_of result (function_rule t span name.now (map (found t) params.now) (map (found t) arguments.now) (scope_of here.now.context)) }
{
    let arguments = operands_below(here, arguments)?;
    type_call(here.alloc, here.context, span, name, params, arguments)
}

/// A field or a bitfield.
fn field_expr<E: Fn(Global, Context, &Expr) -> Result<Boxed<Tree>, Refused>, M>(
    here: &Below<E, M>,
    span: Span,
    operand: &Expr,
    name: &Ident,
) -> Result<Boxed<Tree>, Refused>
    requires types { Types (suc (size-Expr operand.now)) (E.pre here.now.typing) (E.post here.now.typing) }
    ensures { (t : Tests) → Suits t → Met typed_of result (rules.field_rule span (found t operand.now) name.now (scope_of here.now.context)) }
{
    let a = type_below(here, operand)?;
    type_field(here.alloc, here.context.class, span, name, a)
}

/// Several bitfields.
fn bitfields_expr<E: Fn(Global, Context, &Expr) -> Result<Boxed<Tree>, Refused>, M>(
    here: &Below<E, M>,
    span: Span,
    operand: &Expr,
    names: &[Ident],
) -> Result<Boxed<Tree>, Refused>
    requires types { Types (suc (size-Expr operand.now)) (E.pre here.now.typing) (E.post here.now.typing) }
    ensures { (t : Tests) → Suits t → Met typed_of result (rules.bitfields_rule span (found t operand.now) names.now (scope_of here.now.context)) }
{
    let a = type_below(here, operand)?;
    type_bitfields(here.alloc, here.context.class, span, names, a)
}

/// Slices: what is sliced, the expressions of the slices in order, and then their own conditions.
fn slices_expr<E: Fn(Global, Context, &Expr) -> Result<Boxed<Tree>, Refused>, M>(
    here: &Below<E, M>,
    span: Span,
    operand: &Expr,
    slices: &[Slice],
) -> Result<Boxed<Tree>, Refused>
    requires operand { Types (suc (size-Expr operand.now)) (E.pre here.now.typing) (E.post here.now.typing) }
    requires slices { Types (suc (most size-Slice slices.now)) (E.pre here.now.typing) (E.post here.now.typing) }
    ensures { (t : Tests) → Suits t → Met typed_of result (slices_rule span (found t operand.now) (found_slices t slices.now) (scope_of here.now.context)) }
{
    let a = type_below(here, operand)?;
    let operands = slices_below(here, slices)?;
    type_slices(here.alloc, here.context, span, a, slices, operands)
}

/// An element of an array.
fn element_expr<E: Fn(Global, Context, &Expr) -> Result<Boxed<Tree>, Refused>, M>(
    here: &Below<E, M>,
    span: Span,
    array: &Expr,
    index: &Expr,
) -> Result<Boxed<Tree>, Refused>
    requires array { Types (suc (size-Expr array.now)) (E.pre here.now.typing) (E.post here.now.typing) }
    requires index { Types (suc (size-Expr index.now)) (E.pre here.now.typing) (E.post here.now.typing) }
    ensures { (t : Tests) → Suits t → Met typed_of result (rules.element_rule span (found t array.now) (found t index.now) (scope_of here.now.context)) }
{
    let a = type_below(here, array)?;
    let i = type_below(here, index)?;
    type_element(here.alloc, here.context.class, span, a, i)
}

/// A conversion.
fn as_expr<E: Fn(Global, Context, &Expr) -> Result<Boxed<Tree>, Refused>, M>(
    here: &Below<E, M>,
    span: Span,
    operand: &Expr,
    ty: &TypeExpr,
) -> Result<Boxed<Tree>, Refused>
    requires types { Types (suc (size-Expr operand.now)) (E.pre here.now.typing) (E.post here.now.typing) }
    ensures { (t : Tests) → Suits t → Met typed_of result (as_rule span (found t operand.now) (rules.found_type t ty.now) (scope_of here.now.context)) }
{
    let a = type_below(here, operand)?;
    type_as(here.alloc, here.context, span, a, ty)
}

/// Whether a value matches a pattern, whose expressions are pure.
fn in_expr<
    E: Fn(Global, Context, &Expr) -> Result<Boxed<Tree>, Refused>,
    M: Fn(Global, Context, &Pattern, &Ty) -> Result<Matched, Refused>,
>(here: &Below<E, M>, span: Span, operand: &Expr, pattern: &Pattern) -> Result<Boxed<Tree>, Refused>
    requires types { Types (suc (size-Expr operand.now)) (E.pre here.now.typing) (E.post here.now.typing) }
    requires matching { Matching (suc (size-Pattern pattern.now)) (M.pre here.now.matching) (M.post here.now.matching) }
    ensures { (t : Tests) → Suits t → Met typed_of result (in_rule span (found t operand.now) (rules.found_pattern t pattern.now) (scope_of here.now.context)) }
{
    let a = type_below(here, operand)?;
    let matched = match_pure(here, pattern, a.get().ty())?;
    type_in(here.alloc, here.context, span, a, matched)
}

/// The typed tree of an expression, whose operands are typed in order, and then its own conditions.
#[tactic(auto, using(crate::proofs::Arms::tuple_met, crate::proofs::Arms::construct_met, crate::proofs::Arms::call_met, crate::proofs::Arms::slices_met, crate::proofs::Falling::weaker, crate::proofs::Falling::weaker_matching))]
pub(crate) fn type_node<
    E: Fn(Global, Context, &Expr) -> Result<Boxed<Tree>, Refused>,
    M: Fn(Global, Context, &Pattern, &Ty) -> Result<Matched, Refused>,
>(here: &Below<E, M>, e: &Expr) -> Result<Boxed<Tree>, Refused>
    requires types { Types (size-Expr e.now) (E.pre here.now.typing) (E.post here.now.typing) }
    requires matching { Matching (size-Expr e.now) (M.pre here.now.matching) (M.post here.now.matching) }
    ensures { (t : Tests) → Suits t → Met typed_of result (rules.typed t e.now (scope_of here.now.context)) }
{
    match e {
        Expr::Int(span, n) => type_int(here.alloc, here.context.class, *span, *n),
        Expr::Bits(span, text) => type_bits(here.alloc, here.context.class, *span, text.as_slice()),
        Expr::Bool(span, b) => type_bool(here.alloc, here.context.class, *span, *b),
        Expr::Name(span, name) => type_name(here.alloc, here.context, *span, name.as_slice()),
        Expr::Unary(span, op, operand) => unary_expr(here, *span, *op, operand.get()),
        Expr::Binary(span, op, left, right) => {
            binary_expr(here, *span, *op, left.get(), right.get())
        }
        Expr::Conditional(span, condition, left, right) => {
            conditional_expr(here, *span, condition.get(), left.get(), right.get())
        }
        Expr::Tuple(span, parts) => tuple_expr(here, *span, parts.as_slice()),
        Expr::Construct(span, name, given) => {
            construct_expr(here, *span, name, given.as_slice())
        }
        Expr::Call(span, name, params, arguments) => {
            call_expr(here, *span, name, params.as_slice(), arguments.as_slice())
        }
        Expr::Field(span, operand, name) => { field_expr(here, *span, operand.get(), name) }
        Expr::Fields(span, operand, names) => {
            bitfields_expr(here, *span, operand.get(), names.as_slice())
        }
        Expr::Slices(span, operand, slices) => {
            slices_expr(here, *span, operand.get(), slices.as_slice())
        }
        Expr::Element(span, array, index) => { element_expr(here, *span, array.get(), index.get()) }
        Expr::As(span, operand, ty) => as_expr(here, *span, operand.get(), ty.get()),
        Expr::In(span, operand, pattern) => { in_expr(here, *span, operand.get(), pattern.get()) }
    }
}
