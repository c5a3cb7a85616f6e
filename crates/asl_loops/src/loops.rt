//! Loops.

ghost use Rattle.std.specs.Prelude.{◌≡◌, ◌<◌, List, map, Ok, IfOk, OnOk};
ghost use Rattle.asl_rules.specs.statements.Branches as rules;
ghost use Rattle.asl_rules.specs.declarations.Scopes.{Entry};
ghost use Rattle.asl_rules.specs.Tests.{Tests};
ghost use Rattle.asl_types.specs.private.Answers.{Met};
ghost use Rattle.asl_types.specs.Suits.{Suits};
ghost use Rattle.asl_subprograms.specs.private.ContextView.{scope_of};
ghost use Rattle.asl_tree.specs.View.{operand_of, tree_of, typed_of};
ghost use Rattle.asl_tree.specs.Acts.{maybe_tree};
ghost use Rattle.asl_blocks.specs.private.Blocks.{Blocks};
ghost use Rattle.asl_blocks.specs.private.Sizes.{stmt_size, stmts_size};
ghost use Rattle.asl_loops.specs.private.LoopViews.{bounds_of};
ghost use Rattle.asl_blocks.specs.private.Walks.{bounds_typed, index_declared, counted_shut, for_walk, while_walk, repeat_walk, walk_stmt};
ghost use Rattle.asl_blocks.specs.private.Views.{body_of, done_of, listed_of, maybe_operand};

use asl_allowed::effects::{greater, may_stand_together};
use asl_blocks::body::{Body, Done, Listed, context};
use asl_blocks::steps::{check_condition, check_integer, check_limit, ended, unboxed};
use asl_blocks::typing::{type_in, type_limit};
use asl_blocks::within::{Within, check_inside};
use asl_rules::effect::Effect;
use asl_syn::code::{Refused, StaticCode};
use asl_syn::token::Span;
use asl_syn::tree::{Direction, Expr, Ident, Stmt};
use asl_tree::act::{Act, Bounds as TreeBounds, Guard};
use asl_tree::tree::Tree;
use asl_types::answer::fault;
use asl_types::counting::next_itself;
use asl_types::{Scope, Ty};
use asl_written::constraints::range_type;
use sqlite_items::Boxed;
use std::alloc::AllocError;

/// A `for` without its limit and its list, as it is written.
#[derive(Clone, Copy)]
pub struct Counting<'a> {
    pub span: Span,
    pub index: &'a Ident,
    pub from: &'a Expr,
    pub direction: Direction,
    pub to: &'a Expr,
}

/// A `while` or a `repeat` without its list, as it is written.
#[derive(Clone, Copy)]
pub struct Turning<'a> {
    pub span: Span,
    pub condition: &'a Expr,
    pub limit: &'a Option<Expr>,
}

/// The bounds of a `for` and its limit, where it has one.
#[derive(Drop)]
pub(crate) struct Bounds {
    pub(crate) from: Boxed<Tree>,
    pub(crate) to: Boxed<Tree>,
    pub(crate) limit: Option<Boxed<Tree>>,
}

/// The bounds of a `for` and its limit, in order.
pub(crate) fn type_bounds(
    names: &Scope,
    body: &Body,
    counting: &Counting,
    limit: &Option<Expr>,
) -> Result<Bounds, Refused>
    ensures { (t : Tests) → Suits t → Met bounds_of result (bounds_typed t counting.now.from.now counting.now.to.now limit.now (body_of names.now body.now).scope) }
{
    let from = type_in(names, body, counting.from)?;
    let to = type_in(names, body, counting.to)?;
    let limit = type_limit(names, body, limit)?;
    Ok(Bounds { from, to, limit })
}

/// The type of the index, where it could be written, else `integer`.
fn index_type(names: &Scope, body: &Body, counting: &Counting) -> Result<Ty, AllocError>
    ensures { (t : Tests) → Suits t → IfOk result (λ ty. ty ≡ rules.index_type t counting.now.direction counting.now.from.now counting.now.to.now (body_of names.now body.now).scope) }
{
    match counting.direction {
        Direction::Up => range_type(body.alloc, context(names, body), counting.from, counting.to),
        Direction::Down => range_type(body.alloc, context(names, body), counting.to, counting.from),
    }
}

/// The index of a loop becomes visible: T05 at a bound that is no integer, then T01 where the index is visible already.
pub(crate) fn declare_index<'a>(
    names: &mut Scope<'a>,
    body: &Body,
    counting: &Counting<'a>,
    bounds: &Bounds,
) -> Result<(), Refused>
    ensures { (t : Tests) → Suits t → Met (λ _. body_of names.new body.now) result (index_declared t counting.now.index.now counting.now.direction counting.now.from.now counting.now.to.now (bounds_of bounds.now) (body_of names.old body.now)) }
{
    check_integer(bounds.from.get())?;
    check_integer(bounds.to.get())?;
    let text = counting.index.text.as_slice();
    if !names.is_free(text) {
        return fault(StaticCode::T01, counting.index.span);
    }
    let ty = index_type(names, body, counting)?;
    let counted = next_itself(body.alloc, names)?;
    names.declare_fixed(text, ty, Some(counted))
}

/// The end of a `for`: T05 at a limit that is no integer, then its own conditions.
pub(crate) fn end_for(
    body: &Body,
    span: Span,
    direction: Direction,
    bounds: Bounds,
    list: Listed,
) -> Result<Done, Refused>
    ensures { (names : List Entry) → Met (done_of names) result (rules.for_ended span (typed_of bounds.from) direction (typed_of bounds.to) (maybe_operand bounds.limit) (listed_of names list) (body_of names body.now)) }
{
    check_limit(&bounds.limit)?;
    let Bounds { from, to, limit } = bounds;
    let Listed { acts, effect } = list;
    let first = from.get().effect();
    let second = to.get().effect();
    let is_together = may_stand_together(&[first, second]);
    let effect = greater(greater(first, second), effect);
    let counted = TreeBounds {
        from: from.into_inner(),
        direction,
        to: to.into_inner(),
        limit: unboxed(limit),
    };
    let acts = acts.into_inner();
    let act = Act::For(span, counted, acts);
    ended(body.class, span, is_together, effect, act)
}

/// A condition and a limit.
fn guard(condition: Boxed<Tree>, limit: Option<Boxed<Tree>>) -> Guard
    ensures condition { tree_of result.condition ≡ tree_of condition }
    ensures limit { maybe_tree result.limit ≡ rules.tree_in (maybe_operand limit) }
{
    Guard {
        condition: condition.into_inner(),
        limit: unboxed(limit),
    }
}

/// The end of a `while`: T05 at a condition that is no boolean, then at a limit that is no integer.
pub(crate) fn end_while(
    body: &Body,
    span: Span,
    condition: Boxed<Tree>,
    limit: Option<Boxed<Tree>>,
    list: Listed,
) -> Result<Done, Refused>
    ensures { (names : List Entry) → Met (done_of names) result (rules.while_ended span (operand_of condition) (maybe_operand limit) (listed_of names list) (body_of names body.now)) }
{
    check_condition(condition.get())?;
    check_limit(&limit)?;
    let Listed { acts, effect } = list;
    let effect = greater(condition.get().effect(), effect);
    let acts = acts.into_inner();
    let act = Act::While(span, guard(condition, limit), acts);
    ended(body.class, span, true, effect, act)
}

/// The end of a `repeat`: T05 at a condition that is no boolean, then at a limit that is no integer.
pub(crate) fn end_repeat(
    body: &Body,
    span: Span,
    list: Listed,
    condition: Boxed<Tree>,
    limit: Option<Boxed<Tree>>,
) -> Result<Done, Refused>
    ensures { (names : List Entry) → Met (done_of names) result (rules.repeat_ended span (listed_of names list) (operand_of condition) (maybe_operand limit) (body_of names body.now)) }
{
    check_condition(condition.get())?;
    check_limit(&limit)?;
    let Listed { acts, effect } = list;
    let effect = greater(condition.get().effect(), effect);
    let acts = acts.into_inner();
    let act = Act::Repeat(span, acts, guard(condition, limit));
    ended(body.class, span, true, effect, act)
}

/// The list of a `for`, which sees its index. The index is visible no more behind it.
fn check_counted<'a, L: Fn(&mut Scope<'a>, &Body, &'a [Stmt]) -> Result<Listed, Refused>>(
    here: &Within<'a, L>,
    names: &mut Scope<'a>,
    body: &Body,
    stmts: &'a [Stmt],
    counting: &Counting<'a>,
    bounds: &Bounds,
) -> Result<Listed, Refused>
    requires blocks { Blocks (stmt_size here.now.stmt.now) (L.pre here.now.list) (L.post here.now.list) }
    requires inside { stmts_size stmts.now < stmt_size here.now.stmt.now }
    ensures rule { (t : Tests) → Suits t → Met (listed_of names.old) result (counted_shut t counting.now.index.now counting.now.direction counting.now.from.now counting.now.to.now (bounds_of bounds.now) (map (walk_stmt t) stmts.now) (body_of names.old body.now)) }
    ensures kept { OnOk result (names.new ≡ names.old) }
{
    let height = names.len();
    declare_index(names, body, counting, bounds)?;
    let list = check_inside(here, names, body, stmts)?;
    names.truncate(height);
    Ok(list)
}

/// A `for`: its bounds and its limit, its index, and then its list, which sees the index.
pub fn check_for<'a, L: Fn(&mut Scope<'a>, &Body, &'a [Stmt]) -> Result<Listed, Refused>>(
    here: &Within<'a, L>,
    names: &mut Scope<'a>,
    body: &Body,
    stmts: &'a [Stmt],
    counting: &Counting<'a>,
    limit: &Option<Expr>,
) -> Result<Done, Refused>
    requires blocks { Blocks (stmt_size here.now.stmt.now) (L.pre here.now.list) (L.post here.now.list) }
    requires inside { stmts_size stmts.now < stmt_size here.now.stmt.now }
    ensures { (t : Tests) → Suits t → Met (done_of names.new) result (for_walk t counting.now.span counting.now.index.now counting.now.from.now counting.now.direction counting.now.to.now limit.now (map (walk_stmt t) stmts.now) (body_of names.old body.now)) }
{
    let bounds = type_bounds(names, body, counting, limit)?;
    let list = check_counted(here, names, body, stmts, counting, &bounds)?;
    end_for(body, counting.span, counting.direction, bounds, list)
}

/// A `while`: its condition, its limit and its list.
pub fn check_while<'a, L: Fn(&mut Scope<'a>, &Body, &'a [Stmt]) -> Result<Listed, Refused>>(
    here: &Within<'a, L>,
    names: &mut Scope<'a>,
    body: &Body,
    stmts: &'a [Stmt],
    turning: &Turning,
) -> Result<Done, Refused>
    requires blocks { Blocks (stmt_size here.now.stmt.now) (L.pre here.now.list) (L.post here.now.list) }
    requires inside { stmts_size stmts.now < stmt_size here.now.stmt.now }
    ensures { (t : Tests) → Suits t → Met (done_of names.new) result (while_walk t turning.now.span turning.now.condition.now turning.now.limit.now (map (walk_stmt t) stmts.now) (body_of names.old body.now)) }
{
    let condition = type_in(names, body, turning.condition)?;
    let limit = type_limit(names, body, turning.limit)?;
    let list = check_inside(here, names, body, stmts)?;
    end_while(body, turning.span, condition, limit, list)
}

/// A `repeat`: its list, its condition and its limit.
pub fn check_repeat<'a, L: Fn(&mut Scope<'a>, &Body, &'a [Stmt]) -> Result<Listed, Refused>>(
    here: &Within<'a, L>,
    names: &mut Scope<'a>,
    body: &Body,
    stmts: &'a [Stmt],
    turning: &Turning,
) -> Result<Done, Refused>
    requires blocks { Blocks (stmt_size here.now.stmt.now) (L.pre here.now.list) (L.post here.now.list) }
    requires inside { stmts_size stmts.now < stmt_size here.now.stmt.now }
    ensures { (t : Tests) → Suits t → Met (done_of names.new) result (repeat_walk t turning.now.span (map (walk_stmt t) stmts.now) turning.now.condition.now turning.now.limit.now (body_of names.old body.now)) }
{
    let list = check_inside(here, names, body, stmts)?;
    let condition = type_in(names, body, turning.condition)?;
    let limit = type_limit(names, body, turning.limit)?;
    end_repeat(body, turning.span, list, condition, limit)
}
