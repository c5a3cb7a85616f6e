//! The types and the effects of expressions, and their typed trees.

ghost use Rattle.std.specs.Prelude.{map};
ghost use Rattle.asl_rules.specs.statements.Acting as acting;
ghost use Rattle.asl_rules.specs.expressions.Exprs as rules;
ghost use Rattle.asl_rules.specs.expressions.Exprs.{found};
ghost use Rattle.asl_rules.specs.Tests.{Tests};
ghost use Rattle.asl_rules.specs.expressions.Typing.{operands};
ghost use Rattle.asl_types.specs.private.Answers.{Met};
ghost use Rattle.asl_subprograms.specs.private.ContextView.{scope_of};
ghost use Rattle.asl_types.specs.Suits.{Suits};
ghost use Rattle.asl_tree.specs.View.{typed_of, operand_of, all_operands};

use crate::below::Below;
use crate::expr_nodes::type_node;
use crate::operand_lists::operands_below;
use crate::patterns::type_pattern;
use asl_subprograms::Context;
use asl_syn::code::Refused;
use asl_syn::tree::Expr;
use asl_tree::tree::Tree;
use sqlite_items::{Boxed, Items};
use std::alloc::Global;

/// The typed tree of an expression, or its one fault: its operands in order, and then its own conditions.
#[cycle(exprs)]
pub fn type_expr(alloc: Global, context: Context, e: &Expr) -> Result<Boxed<Tree>, Refused>
    ensures { (t : Tests) → Suits t → Met typed_of result (rules.typed t e.now (scope_of context.entry)) }
{
    type_node(
        &Below {
            alloc,
            context,
            typing: type_expr,
            matching: type_pattern,
        },
        e,
    )
}

/// The typed tree of an expression, which stands where the expression does, or its one fault. It is `type_expr`, with
/// the clause of an operand.
pub fn type_operand(alloc: Global, context: Context, e: &Expr) -> Result<Boxed<Tree>, Refused>
    ensures { (t : Tests) → Suits t → Met operand_of result (acting.operand_of t e.now (scope_of context.entry)) }
{
    let tree = type_expr(alloc, context, e)?;
    Ok(tree)
}

/// The typed trees of expressions in order, or the first fault.
pub fn type_all(alloc: Global, context: Context, es: &[Expr]) -> Result<Items<Tree>, Refused>
    ensures { (t : Tests) → Suits t → Met all_operands result (operands (map (found t) es.now) (scope_of context.entry)) }
{
    operands_below(
        &Below {
            alloc,
            context,
            typing: type_expr,
            matching: type_pattern,
        },
        es,
    )
}
