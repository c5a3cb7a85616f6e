//! The nodes below a node. A node is typed by functions that take those which type the nodes below it as parameters, so that
//! each is proved by itself, and only the two that begin nodes (`type_expr` and `type_pattern`) call one another.

ghost use Rattle.std.specs.Prelude.{◌≡◌, suc};
ghost use Rattle.asl_rules.specs.statements.Acting as acting;
ghost use Rattle.asl_rules.specs.expressions.Exprs as rules;
ghost use Rattle.asl_rules.specs.expressions.Exprs.{found};
ghost use Rattle.asl_rules.specs.expressions.Patterns.{pure_typed};
ghost use Rattle.asl_rules.specs.declarations.Scopes.{with_class};
ghost use Rattle.asl_rules.specs.Tests.{Tests};
ghost use Rattle.asl_types.specs.private.Answers.{Met};
ghost use Rattle.asl_subprograms.specs.private.ContextView.{scope_of};
ghost use Rattle.asl_types.specs.Suits.{Suits};
ghost use Rattle.asl_tree.specs.View.{typed_of, operand_of};
ghost use Rattle.asl_expr.specs.private.Below.{Types, Matching};
ghost use Rattle.asl_expr.specs.PatternViews.{matched_of};
ghost use Rattle.asl_syn.specs.declared.tree.Expr.{size-Expr};
ghost use Rattle.asl_syn.specs.declared.tree.Pattern.{size-Pattern};

use crate::patterns::Matched;
use asl_rules::effect::Effect;
use asl_subprograms::Context;
use asl_syn::code::Refused;
use asl_syn::tree::{Expr, Pattern};
use asl_tree::tree::Tree;
use asl_types::Ty;
use sqlite_items::Boxed;
use std::alloc::Global;

/// What the nodes below a node are typed in, and the functions that type their expressions and match their patterns.
#[derive(Clone, Copy)]
pub(crate) struct Below<'c, 'a, E, M> {
    pub alloc: Global,
    pub context: Context<'c, 'a>,
    pub typing: E,
    pub matching: M,
}

/// What pure expressions are judged in.
pub(crate) fn pure<'c, 'a>(context: Context<'c, 'a>) -> Context<'c, 'a>
    ensures { scope_of result ≡ with_class (scope_of context.entry) Effect.Pure }
{
    Context {
        names: context.names,
        subs: context.subs,
        class: Effect::Pure,
    }
}

/// The typed tree of an expression below.
pub(crate) fn type_below<E: Fn(Global, Context, &Expr) -> Result<Boxed<Tree>, Refused>, M>(
    here: &Below<E, M>,
    e: &Expr,
) -> Result<Boxed<Tree>, Refused>
    requires types { Types (suc (size-Expr e.now)) (E.pre here.now.typing) (E.post here.now.typing) }
    ensures { (t : Tests) → Suits t → Met typed_of result (rules.typed t e.now (scope_of here.now.context)) }
{
    (here.typing)(here.alloc, here.context, e)
}

/// The typed tree of a pure expression below.
pub(crate) fn type_pure<E: Fn(Global, Context, &Expr) -> Result<Boxed<Tree>, Refused>, M>(
    here: &Below<E, M>,
    e: &Expr,
) -> Result<Boxed<Tree>, Refused>
    requires types { Types (suc (size-Expr e.now)) (E.pre here.now.typing) (E.post here.now.typing) }
    ensures { (t : Tests) → Suits t → Met typed_of result (pure_typed (found t e.now) (scope_of here.now.context)) }
{
    (here.typing)(here.alloc, pure(here.context), e)
}

/// The typed tree of an expression below, which stands where the expression does. It is `type_below`, with the clause
/// of an operand.
pub(crate) fn operand_below<E: Fn(Global, Context, &Expr) -> Result<Boxed<Tree>, Refused>, M>(
    here: &Below<E, M>,
    e: &Expr,
) -> Result<Boxed<Tree>, Refused>
    requires types { Types (suc (size-Expr e.now)) (E.pre here.now.typing) (E.post here.now.typing) }
    ensures { (t : Tests) → Suits t → Met operand_of result (acting.operand_of t e.now (scope_of here.now.context)) }
{
    let tree = type_below(here, e)?;
    Ok(tree)
}

/// A pattern below against a type.
pub(crate) fn match_below<E, M: Fn(Global, Context, &Pattern, &Ty) -> Result<Matched, Refused>>(
    here: &Below<E, M>,
    pattern: &Pattern,
    ty: &Ty,
) -> Result<Matched, Refused>
    requires matching { Matching (suc (size-Pattern pattern.now)) (M.pre here.now.matching) (M.post here.now.matching) }
    ensures { (t : Tests) → Suits t → Met matched_of result (rules.found_pattern t pattern.now ty.now (scope_of here.now.context)) }
{
    (here.matching)(here.alloc, here.context, pattern, ty)
}

/// A pattern below against a type, in what pure expressions are judged in.
pub(crate) fn match_pure<E, M: Fn(Global, Context, &Pattern, &Ty) -> Result<Matched, Refused>>(
    here: &Below<E, M>,
    pattern: &Pattern,
    ty: &Ty,
) -> Result<Matched, Refused>
    requires matching { Matching (suc (size-Pattern pattern.now)) (M.pre here.now.matching) (M.post here.now.matching) }
    ensures { (t : Tests) → Suits t → Met matched_of result (rules.found_pattern t pattern.now ty.now (with_class (scope_of here.now.context) Effect.Pure)) }
{
    (here.matching)(here.alloc, pure(here.context), pattern, ty)
}
