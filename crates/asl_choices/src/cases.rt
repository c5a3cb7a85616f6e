//! The alternatives of a `case`.

ghost use Rattle.std.specs.Prelude.{◌≡◌, ◌+◌, ◌<◌, List, map, OnOk};
ghost use Rattle.asl_rules.specs.declarations.Scopes.{Entry};
ghost use Rattle.asl_rules.specs.Tests.{Tests};
ghost use Rattle.asl_types.specs.private.Answers.{Met};
ghost use Rattle.asl_types.specs.Suits.{Suits};
ghost use Rattle.asl_tree.specs.View.{operand_of, typed_of};
ghost use Rattle.asl_expr.specs.PatternViews.{matched_of};
ghost use Rattle.asl_blocks.specs.private.Blocks.{Blocks};
ghost use Rattle.asl_blocks.specs.private.Sizes.{stmt_size, alternative_size, alternatives_size, otherwise_size};
ghost use Rattle.asl_choices.specs.private.PatternViews.{patterns_of};
ghost use Rattle.asl_blocks.specs.private.Views.{body_of, done_of, last_listed_of, listed_of, maybe_operand};
ghost use Rattle.asl_choices.specs.private.PartViews.{alternatives_of};
ghost use Rattle.asl_blocks.specs.private.Walks as walks;
ghost use Rattle.asl_blocks.specs.private.Walks.{nothing_gathered, after, alternative_step, walk_alternative, walk_otherwise};

use asl_allowed::effects::greater;
use asl_blocks::body::{Body, Done, LastListed, Listed};
use asl_blocks::otherwise::check_otherwise;
use asl_blocks::steps::{check_placed, effect_of, ended, unboxed, where_misplaced};
use asl_blocks::typing::{type_in, type_where};
use asl_blocks::within::{Within, check_inside};
use asl_expr::patterns::{Matched, type_pattern};
use asl_rules::effect::Effect;
use asl_shape::PatternShape;
use asl_subprograms::Context;
use asl_syn::code::Refused;
use asl_syn::token::Span;
use asl_syn::tree::{Alternative as Written, Expr, Otherwise, Pattern, Stmt};
use asl_tree::act::{Act, Alternative, Choice};
use asl_tree::tree::Tree;
use asl_types::{Scope, Ty};
use sqlite_items::{Boxed, Items};
use std::alloc::{AllocError, Global};

/// Patterns that fit a type: without their expressions, and the typed trees of these in order.
#[derive(Drop)]
pub(crate) struct Patterns {
    shapes: Items<PatternShape>,
    trees: Items<Tree>,
}

impl Patterns {
    /// One more pattern.
    fn push(&mut self, matched: Matched) -> Result<(), AllocError>
        ensures { OnOk result (patterns_of self.new ≡ walks.with_pattern (patterns_of self.old) (matched_of matched)) }
    {
        let (shape, trees) = matched.into_parts();
        self.shapes.push(shape)?;
        self.trees.append(trees)
    }
}

/// Patterns in order against a type. Their expressions are pure.
pub(crate) fn check_patterns(
    names: &Scope,
    body: &Body,
    patterns: &[Pattern],
    ty: &Ty,
) -> Result<Patterns, Refused>
    ensures { (t : Tests) → Suits t → Met patterns_of result (walks.all_patterned t patterns.now ty.now (body_of names.now body.now).scope) }
{
    let mut so_far = Patterns {
        shapes: Items::new(body.alloc),
        trees: Items::new(body.alloc),
    };
    let pure = Context {
        names,
        subs: body.subs,
        class: Effect::Pure,
    };
    for pattern in patterns {
        let matched = type_pattern(body.alloc, pure, pattern, ty)?;
        so_far.push(matched)?;
    }
    Ok(so_far)
}

/// What is known of alternatives so far: the place of the first `where` that is no boolean, the greatest effect, and the typed
/// trees.
#[derive(Drop)]
pub(crate) struct Alternatives {
    pub(crate) misplaced: Option<Span>,
    pub(crate) effect: Effect,
    pub(crate) trees: Items<Alternative>,
}

impl Alternatives {
    /// No alternatives.
    pub(crate) fn new(alloc: Global) -> Alternatives
        ensures { alternatives_of result ≡ nothing_gathered }
    {
        Alternatives {
            misplaced: None,
            effect: Effect::Pure,
            trees: Items::new(alloc),
        }
    }

    /// One more alternative.
    pub(crate) fn push(
        &mut self,
        patterns: Patterns,
        condition: Option<Boxed<Tree>>,
        list: Listed,
    ) -> Result<(), AllocError>
        ensures { (names : List Entry) → OnOk result (alternatives_of self.new ≡ walks.with_alternative (alternatives_of self.old) (patterns_of patterns) (maybe_operand condition) (listed_of names list)) }
    {
        let Listed { acts, effect } = list;
        let Patterns { shapes, trees } = patterns;
        let own = greater(effect_of(&condition), effect);
        self.misplaced = where_misplaced(self.misplaced, &condition);
        self.effect = greater(self.effect, own);
        let choice = Choice {
            patterns: shapes,
            trees,
            condition: unboxed(condition),
        };
        self.trees
            .push(Alternative::When(choice, acts.into_inner()))
    }
}

/// The end of a `case`: T05 at the first `where` that is no boolean comes after all its parts.
pub(crate) fn end_case(
    body: &Body,
    span: Span,
    value: Boxed<Tree>,
    first: Alternatives,
    last: LastListed,
) -> Result<Done, Refused>
    ensures { (names : List Entry) → Met (done_of names) result (walks.case_ended span (typed_of value) (alternatives_of first) (last_listed_of last) (body_of names body.now)) }
{
    check_placed(first.misplaced)?;
    let effect = greater(greater(value.get().effect(), first.effect), last.effect);
    let LastListed { last, effect: _ } = last;
    let act = Act::Case(span, value.into_inner(), first.trees, last.into_inner());
    ended(body.class, span, true, effect, act)
}

/// The patterns of an alternative, its `where` and its list.
fn alternative_parts(a: &Written) -> (&[Pattern], &Option<Expr>, &[Stmt])
    ensures { a.now ≡ Written.When result.0.now result.1.now result.2.now }
{
    match a {
        Written::When(patterns, condition, stmts) => {
            (patterns.as_slice(), condition, stmts.as_slice())
        }
    }
}

/// One alternative: its patterns, its `where` and its list.
fn check_alternative<'a, L: Fn(&mut Scope<'a>, &Body, &'a [Stmt]) -> Result<Listed, Refused>>(
    here: &Within<'a, L>,
    names: &mut Scope<'a>,
    body: &Body,
    a: &'a Written,
    ty: &Ty,
    so_far: &mut Alternatives,
) -> Result<(), Refused>
    requires blocks { Blocks (stmt_size here.now.stmt.now) (L.pre here.now.list) (L.post here.now.list) }
    requires inside { alternative_size a.now < stmt_size here.now.stmt.now }
    ensures rule { (t : Tests) → Suits t → Met (λ _. alternatives_of so_far.new) result (alternative_step t ty.now (body_of names.old body.now) (walk_alternative t a.now) (alternatives_of so_far.old)) }
    ensures kept { OnOk result (names.new ≡ names.old) }
{
    let (patterns, condition, stmts) = alternative_parts(a);
    let patterns = check_patterns(names, body, patterns, ty)?;
    let condition = type_where(names, body, condition)?;
    let list = check_inside(here, names, body, stmts)?;
    so_far.push(patterns, condition, list)?;
    Ok(())
}

/// The alternatives of a `case` of this type, in order.
fn check_alternatives<'a, L: Fn(&mut Scope<'a>, &Body, &'a [Stmt]) -> Result<Listed, Refused>>(
    here: &Within<'a, L>,
    names: &mut Scope<'a>,
    body: &Body,
    alternatives: &'a [Written],
    ty: &Ty,
) -> Result<Alternatives, Refused>
    requires blocks { Blocks (stmt_size here.now.stmt.now) (L.pre here.now.list) (L.post here.now.list) }
    requires inside { alternatives_size alternatives.now < stmt_size here.now.stmt.now }
    ensures rule { (t : Tests) → Suits t → Met alternatives_of result (after (alternative_step t ty.now (body_of names.old body.now)) (map (walk_alternative t) alternatives.now) nothing_gathered) }
    ensures kept { OnOk result (names.new ≡ names.old) }
{
    let mut so_far = Alternatives::new(body.alloc);
    for a in alternatives {
        check_alternative(here, names, body, a, ty, &mut so_far)?;
    }
    Ok(so_far)
}

/// A `case`, as it is written.
#[derive(Clone, Copy)]
pub struct Choosing<'a> {
    pub span: Span,
    pub value: &'a Expr,
    pub alternatives: &'a [Written],
    pub last: &'a Otherwise,
}

/// A `case`: its value, its alternatives in order, and its `otherwise`.
pub fn check_case<'a, L: Fn(&mut Scope<'a>, &Body, &'a [Stmt]) -> Result<Listed, Refused>>(
    here: &Within<'a, L>,
    names: &mut Scope<'a>,
    body: &Body,
    choosing: &Choosing<'a>,
) -> Result<Done, Refused>
    requires blocks { Blocks (stmt_size here.now.stmt.now) (L.pre here.now.list) (L.post here.now.list) }
    requires inside { alternatives_size choosing.now.alternatives.now + otherwise_size choosing.now.last.now < stmt_size here.now.stmt.now }
    ensures { (t : Tests) → Suits t → Met (done_of names.new) result (walks.case_walk t choosing.now.span choosing.now.value.now (map (walk_alternative t) choosing.now.alternatives.now) (walk_otherwise t choosing.now.last.now) (body_of names.old body.now)) }
{
    let value = type_in(names, body, choosing.value)?;
    let first = check_alternatives(here, names, body, choosing.alternatives, value.get().ty())?;
    let last = check_otherwise(here, names, body, choosing.last)?;
    end_case(body, choosing.span, value, first, last)
}
