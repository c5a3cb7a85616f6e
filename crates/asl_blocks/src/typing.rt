//! Expressions in statements.

ghost use Rattle.std.specs.Prelude.{◌≡◌};
ghost use Rattle.asl_rules.specs.statements.Acting as rules;
ghost use Rattle.asl_rules.specs.statements.Acting.{reading_scope};
ghost use Rattle.asl_rules.specs.statements.Branches as branches;
ghost use Rattle.asl_rules.specs.Tests.{Tests};
ghost use Rattle.asl_types.specs.private.Answers.{Met};
ghost use Rattle.asl_types.specs.Suits.{Suits};
ghost use Rattle.asl_subprograms.specs.private.ContextView.{scope_of};
ghost use Rattle.asl_tree.specs.View.{operand_of};
ghost use Rattle.asl_blocks.specs.private.Views.{body_of, maybe_operand};

use crate::body::{Body, context};
use asl_allowed::effects::lesser;
use asl_expr::exprs::type_operand;
use asl_rules::effect::Effect;
use asl_subprograms::Context;
use asl_syn::code::Refused;
use asl_syn::tree::Expr;
use asl_tree::tree::Tree;
use asl_types::Scope;
use sqlite_items::Boxed;

/// An expression in a body: its typed tree.
pub fn type_in(names: &Scope, body: &Body, e: &Expr) -> Result<Boxed<Tree>, Refused>
    ensures { (t : Tests) → Suits t → Met operand_of result (rules.operand_of t e.now (body_of names.now body.now).scope) }
{
    type_operand(body.alloc, context(names, body), e)
}

/// An expression that at most reads.
pub fn type_reading(names: &Scope, body: &Body, e: &Expr) -> Result<Boxed<Tree>, Refused>
    ensures { (t : Tests) → Suits t → Met operand_of result (rules.operand_of t e.now (reading_scope (body_of names.now body.now).scope)) }
{
    let reading = Context {
        names,
        subs: body.subs,
        class: lesser(body.class, Effect::Readonly),
    };
    type_operand(body.alloc, reading, e)
}

/// A `where`, which at most reads.
pub fn type_where(
    names: &Scope,
    body: &Body,
    condition: &Option<Expr>,
) -> Result<Option<Boxed<Tree>>, Refused>
    ensures { (t : Tests) → Suits t → Met maybe_operand result (branches.where_rule t condition.now (body_of names.now body.now).scope) }
{
    match condition {
        None => Ok(None),
        Some(e) => Ok(Some(type_reading(names, body, e)?)),
    }
}

/// The limit of a loop, which is pure.
pub fn type_limit(
    names: &Scope,
    body: &Body,
    limit: &Option<Expr>,
) -> Result<Option<Boxed<Tree>>, Refused>
    ensures { (t : Tests) → Suits t → Met maybe_operand result (branches.limit_typed t limit.now (body_of names.now body.now).scope) }
{
    match limit {
        None => Ok(None),
        Some(e) => {
            let pure = Context {
                names,
                subs: body.subs,
                class: Effect::Pure,
            };
            Ok(Some(type_operand(body.alloc, pure, e)?))
        }
    }
}
