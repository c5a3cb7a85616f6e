//! `as` and `IN`, where the operand was typed.

ghost use Rattle.std.specs.Prelude.{◌≡◌, false};
ghost use Rattle.asl_rules.specs.expressions.Exprs as rules;
ghost use Rattle.asl_widths.specs.private.Steps.{and_then};
ghost use Rattle.asl_rules.specs.expressions.Patterns.{matching};
ghost use Rattle.asl_rules.specs.Tests.{Tests};
ghost use Rattle.asl_rules.specs.types.Writing.{converted_to};
ghost use Rattle.asl_types.specs.private.Answers.{Met};
ghost use Rattle.asl_subprograms.specs.private.ContextView.{scope_of};
ghost use Rattle.asl_types.specs.Suits.{Suits};
ghost use Rattle.asl_tree.specs.View.{typed_of};
ghost use Rattle.asl_expr.specs.PatternViews.{matched_of};
ghost use Rattle.asl_written.specs.WrittenViews.{written_of};

use crate::patterns::Matched;
use asl_rules::effect::Effect;
use asl_subprograms::Context;
use asl_syn::code::{Refused, StaticCode};
use asl_syn::token::Span;
use asl_syn::tree::TypeExpr;
use asl_tree::nodes;
use asl_tree::tree::{Note, Tree};
use asl_types::Ty;
use asl_types::answer::fault;
use asl_types::kinds::same_kind;
use asl_typing::ends::keep_class;
use asl_written::written::{Written, type_written};
use sqlite_items::Boxed;
use std::alloc::Global;

/// A conversion of what was typed to a type: T05 where the value is of another kind, then T12.
fn convert(
    alloc: Global,
    class: Effect,
    span: Span,
    operand: Boxed<Tree>,
    written: Written,
) -> Result<Boxed<Tree>, Refused>
    ensures { Met typed_of result (converted_to class span (typed_of operand) (written_of written)) }
{
    if !same_kind(operand.get().ty(), &written.ty) {
        return fault(StaticCode::T05, span);
    }
    let effect = operand.get().effect();
    keep_class(class, span, effect)?;
    let (ty, shape, sizes) = written.into_parts();
    let note = Note { span, ty, effect };
    Ok(nodes::conversion(alloc, note, operand, shape, sizes)?)
}

/// A conversion of what was typed: the fault of the type, then T05 where the value is of another kind, then T12.
pub fn type_as(
    alloc: Global,
    context: Context,
    span: Span,
    operand: Boxed<Tree>,
    ty: &TypeExpr,
) -> Result<Boxed<Tree>, Refused>
    ensures { (t : Tests) → Suits t → Met typed_of result (and_then (rules.written t ty.now false (scope_of context.entry)) (λ W. converted_to (scope_of context.entry).class span (typed_of operand) W)) }
{
    let written = type_written(alloc, context, ty, false)?;
    convert(alloc, context.class, span, operand, written)
}

/// `IN` of what was typed, and the pattern against its type: T12 where it passes the class of its body.
pub fn type_in(
    alloc: Global,
    context: Context,
    span: Span,
    operand: Boxed<Tree>,
    matched: Matched,
) -> Result<Boxed<Tree>, Refused>
    ensures { Met typed_of result (matching (scope_of context.entry).class span (typed_of operand) (matched_of matched)) }
{
    let effect = operand.get().effect();
    keep_class(context.class, span, effect)?;
    let (shape, trees) = matched.into_parts();
    let note = Note {
        span,
        ty: Ty::boolean(),
        effect,
    };
    Ok(nodes::membership(alloc, note, operand, shape, trees)?)
}
