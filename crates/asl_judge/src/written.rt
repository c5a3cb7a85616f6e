//! The types that are written, and those of expressions.

ghost use Rattle.asl_rules.specs.Tests.{Tests};
ghost use Rattle.asl_types.specs.private.Answers.{Agrees};
ghost use Rattle.asl_subprograms.specs.private.ContextView.{scope_of};
ghost use Rattle.asl_types.specs.Suits.{Suits};
ghost use Rattle.asl_judge.specs.private.Definitions as rules;

use asl_expr::exprs::type_expr;
use asl_subprograms::Context;
use asl_syn::code::Refused;
use asl_syn::tree::{Expr, TypeExpr};
use asl_types::Ty;
use asl_written::written::type_written;
use std::alloc::Global;

/// The type that is written, outside bodies or in one.
pub fn written(
    alloc: Global,
    context: Context,
    ty: &TypeExpr,
    is_outside: bool,
) -> Result<Ty, Refused>
    ensures { (t : Tests) → Suits t → Agrees result (rules.type_written t ty.now is_outside (scope_of context.entry)) }
{
    let written = type_written(alloc, context, ty, is_outside)?;
    Ok(written.ty.copy()?)
}

/// The type of an expression.
pub fn typed(alloc: Global, context: Context, e: &Expr) -> Result<Ty, Refused>
    ensures { (t : Tests) → Suits t → Agrees result (rules.type_found t e.now (scope_of context.entry)) }
{
    let tree = type_expr(alloc, context, e)?;
    Ok(tree.get().note().ty.copy()?)
}
