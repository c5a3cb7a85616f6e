//! The branches of an `if`.

ghost use Rattle.std.specs.Prelude.{◌≡◌, ◌+◌, ◌<◌, List, map, OnOk};
ghost use Rattle.asl_rules.specs.declarations.Scopes.{Entry};
ghost use Rattle.asl_rules.specs.Tests.{Tests};
ghost use Rattle.asl_types.specs.private.Answers.{Met};
ghost use Rattle.asl_types.specs.Suits.{Suits};
ghost use Rattle.asl_tree.specs.View.{operand_of};
ghost use Rattle.asl_blocks.specs.private.Blocks.{Blocks};
ghost use Rattle.asl_blocks.specs.private.Sizes.{stmt_size, stmts_size, branch_size, branches_size};
ghost use Rattle.asl_blocks.specs.private.Views.{body_of, done_of, listed_of};
ghost use Rattle.asl_choices.specs.private.PartViews.{branches_of};
ghost use Rattle.asl_blocks.specs.private.Walks as walks;
ghost use Rattle.asl_blocks.specs.private.Walks.{after, branch_step, walk_branch, walk_stmt};

use asl_allowed::effects::greater;
use asl_blocks::body::{Body, Done, Listed};
use asl_blocks::steps::{check_placed, ended, misplaced};
use asl_blocks::typing::type_in;
use asl_blocks::within::{Within, check_inside};
use asl_rules::effect::Effect;
use asl_syn::code::Refused;
use asl_syn::token::Span;
use asl_syn::tree::{ElseIf, Expr, Stmt};
use asl_tree::act::{Act, Branch};
use asl_tree::tree::Tree;
use asl_types::Scope;
use sqlite_items::{Boxed, Items};
use std::alloc::{AllocError, Global};

/// An `if`, as it is written.
#[derive(Clone, Copy)]
pub struct Branching<'a> {
    pub span: Span,
    pub condition: &'a Expr,
    pub first: &'a [Stmt],
    pub others: &'a [ElseIf],
    pub last: &'a [Stmt],
}

/// What is known of branches so far: the place of the first condition that is no boolean, the greatest effect, and the typed
/// trees of those behind the first.
#[derive(Drop)]
pub(crate) struct Branches {
    pub(crate) misplaced: Option<Span>,
    pub(crate) effect: Effect,
    pub(crate) trees: Items<Branch>,
}

impl Branches {
    /// The first branch, whose condition was typed and whose list has this effect.
    pub(crate) fn new(alloc: Global, condition: &Tree, list: &Listed) -> Branches
        ensures { (names : List Entry) → branches_of result ≡ walks.first_branch (operand_of condition.now) (listed_of names list.now) }
    {
        Branches {
            misplaced: misplaced(None, condition),
            effect: greater(condition.effect(), list.effect),
            trees: Items::new(alloc),
        }
    }

    /// One more branch.
    pub(crate) fn push(&mut self, condition: Boxed<Tree>, list: Listed) -> Result<(), AllocError>
        ensures { (names : List Entry) → OnOk result (branches_of self.new ≡ walks.with_branch (branches_of self.old) (operand_of condition) (listed_of names list)) }
    {
        let Listed { acts, effect } = list;
        let own = greater(condition.get().effect(), effect);
        self.misplaced = misplaced(self.misplaced, condition.get());
        self.effect = greater(self.effect, own);
        self.trees
            .push(Branch::Elsif(condition.into_inner(), acts.into_inner()))
    }
}

/// The end of an `if`: T05 at the first condition that is no boolean comes after all its parts.
pub(crate) fn end_if(
    body: &Body,
    span: Span,
    condition: Boxed<Tree>,
    first: Listed,
    others: Branches,
    last: Listed,
) -> Result<Done, Refused>
    ensures { (names : List Entry) → Met (done_of names) result (walks.if_ended span (operand_of condition) (listed_of names first) (branches_of others) (listed_of names last) (body_of names body.now)) }
{
    check_placed(others.misplaced)?;
    let effect = greater(others.effect, last.effect);
    let first = first.acts.into_inner();
    let last = last.acts.into_inner();
    let act = Act::If(span, condition.into_inner(), first, others.trees, last);
    ended(body.class, span, true, effect, act)
}

/// The condition of a branch and its list.
fn branch_parts(b: &ElseIf) -> (&Expr, &[Stmt])
    ensures { b.now ≡ ElseIf.ElseIf result.0.now result.1.now }
{
    match b {
        ElseIf::ElseIf(condition, stmts) => (condition, stmts.as_slice()),
    }
}

/// One branch: its condition and its list.
fn check_branch<'a, L: Fn(&mut Scope<'a>, &Body, &'a [Stmt]) -> Result<Listed, Refused>>(
    here: &Within<'a, L>,
    names: &mut Scope<'a>,
    body: &Body,
    b: &'a ElseIf,
    so_far: &mut Branches,
) -> Result<(), Refused>
    requires blocks { Blocks (stmt_size here.now.stmt.now) (L.pre here.now.list) (L.post here.now.list) }
    requires inside { branch_size b.now < stmt_size here.now.stmt.now }
    ensures rule { (t : Tests) → Suits t → Met (λ _. branches_of so_far.new) result (branch_step t (body_of names.old body.now) (walk_branch t b.now) (branches_of so_far.old)) }
    ensures kept { OnOk result (names.new ≡ names.old) }
{
    let (condition, stmts) = branch_parts(b);
    let condition = type_in(names, body, condition)?;
    let list = check_inside(here, names, body, stmts)?;
    so_far.push(condition, list)?;
    Ok(())
}

/// The branches of an `if` behind the first, in order.
fn check_branches<'a, L: Fn(&mut Scope<'a>, &Body, &'a [Stmt]) -> Result<Listed, Refused>>(
    here: &Within<'a, L>,
    names: &mut Scope<'a>,
    body: &Body,
    others: &'a [ElseIf],
    so_far: &mut Branches,
) -> Result<(), Refused>
    requires blocks { Blocks (stmt_size here.now.stmt.now) (L.pre here.now.list) (L.post here.now.list) }
    requires inside { branches_size others.now < stmt_size here.now.stmt.now }
    ensures rule { (t : Tests) → Suits t → Met (λ _. branches_of so_far.new) result (after (branch_step t (body_of names.old body.now)) (map (walk_branch t) others.now) (branches_of so_far.old)) }
    ensures kept { OnOk result (names.new ≡ names.old) }
{
    for b in others {
        check_branch(here, names, body, b, so_far)?;
    }
    Ok(())
}

/// An `if`: its branches in order, and the last list.
pub fn check_if<'a, L: Fn(&mut Scope<'a>, &Body, &'a [Stmt]) -> Result<Listed, Refused>>(
    here: &Within<'a, L>,
    names: &mut Scope<'a>,
    body: &Body,
    branching: &Branching<'a>,
) -> Result<Done, Refused>
    requires blocks { Blocks (stmt_size here.now.stmt.now) (L.pre here.now.list) (L.post here.now.list) }
    requires inside { stmts_size branching.now.first.now + (branches_size branching.now.others.now + stmts_size branching.now.last.now) < stmt_size here.now.stmt.now }
    ensures { (t : Tests) → Suits t → Met (done_of names.new) result (walks.if_walk t branching.now.span branching.now.condition.now (map (walk_stmt t) branching.now.first.now) (map (walk_branch t) branching.now.others.now) (map (walk_stmt t) branching.now.last.now) (body_of names.old body.now)) }
{
    let condition = type_in(names, body, branching.condition)?;
    let first = check_inside(here, names, body, branching.first)?;
    let mut branches = Branches::new(body.alloc, condition.get(), &first);
    check_branches(here, names, body, branching.others, &mut branches)?;
    let last = check_inside(here, names, body, branching.last)?;
    end_if(body, branching.span, condition, first, branches, last)
}
