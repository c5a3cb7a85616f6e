//! The catchers of a `try`.

ghost use Rattle.std.specs.Prelude.{◌≡◌, ◌+◌, ◌<◌, List, [], ◌∷◌, ◌++◌, map, OnOk};
ghost use Rattle.asl_rules.specs.statements.Branches as rules;
ghost use Rattle.asl_rules.specs.declarations.Scopes as scopes;
ghost use Rattle.asl_rules.specs.declarations.Scopes.{Entry};
ghost use Rattle.asl_rules.specs.types.Effects.{greater};
ghost use Rattle.asl_rules.specs.Tests.{Tests};
ghost use Rattle.asl_rules.specs.runs.Trees as trees;
ghost use Rattle.asl_tree.specs.Acts.{all_acts};
ghost use Rattle.asl_types.specs.private.Answers.{Met, Agrees};
ghost use Rattle.asl_types.specs.Suits.{Suits};
ghost use Rattle.asl_blocks.specs.private.Blocks.{Blocks};
ghost use Rattle.asl_blocks.specs.private.Sizes.{stmt_size, stmts_size, catcher_size, catchers_size, otherwise_size};
ghost use Rattle.asl_blocks.specs.private.Views.{body_of, done_of, last_listed_of, listed_of};
ghost use Rattle.asl_loops.specs.private.CatcherViews.{catchers_of};
ghost use Rattle.asl_blocks.specs.private.Walks as walks;
ghost use Rattle.asl_blocks.specs.private.Walks.{nothing_gathered, gathered, after, catcher_step, shut, walk_catcher, walk_otherwise, walk_stmt};

use asl_allowed::effects::greater;
use asl_blocks::body::{Body, Done, LastListed, Listed, while_handling};
use asl_blocks::otherwise::check_otherwise;
use asl_blocks::steps::{ended, is_exception};
use asl_blocks::within::{Within, check_inside};
use asl_rules::effect::Effect;
use asl_shared::Shared;
use asl_syn::code::{Refused, StaticCode};
use asl_syn::token::Span;
use asl_syn::tree::{Catcher as Written, Ident, Otherwise, Stmt};
use asl_tree::act::{Act, Catcher};
use asl_types::answer::fault;
use asl_types::{Scope, Ty};
use sqlite_items::Items;
use std::alloc::{AllocError, Global};

/// What is known of catchers so far: the greatest effect, and the typed trees.
#[derive(Drop)]
pub(crate) struct Catchers {
    pub(crate) effect: Effect,
    pub(crate) trees: Items<Catcher>,
}

impl Catchers {
    /// No catchers.
    pub(crate) fn new(alloc: Global) -> Catchers
        ensures { catchers_of result ≡ nothing_gathered }
    {
        Catchers {
            effect: Effect::Pure,
            trees: Items::new(alloc),
        }
    }

    /// One more catcher.
    pub(crate) fn push(
        &mut self,
        alloc: Global,
        has_name: bool,
        ty: &Ident,
        list: Listed,
    ) -> Result<(), AllocError>
        ensures { OnOk result (catchers_of self.new ≡ gathered (catchers_of self.old).misplaced (greater (catchers_of self.old).effect list.effect) ((catchers_of self.old).parts ++ trees.catcher_and has_name ty.now.text (all_acts list.acts) ∷ [])) }
    {
        let Listed { acts, effect } = list;
        let text = Items::from_slice(alloc, ty.text.as_slice())?;
        let name = Shared::new(alloc, text)?;
        self.effect = greater(self.effect, effect);
        self.trees
            .push(Catcher::Catch(has_name, name, acts.into_inner()))
    }
}

/// The type of a catcher: T02 where its name is no type's, T21 where that is no exception.
pub(crate) fn type_caught(names: &Scope, ty: &Ident) -> Result<Ty, Refused>
    ensures { Agrees result (walks.type_caught ty.now names.now) }
{
    let Some(caught) = names.type_of_name(ty.text.as_slice()) else {
        return fault(StaticCode::T02, ty.span);
    };
    if !is_exception(caught) {
        return fault(StaticCode::T21, ty.span);
    }
    Ok(caught.copy()?)
}

/// The name of a catcher becomes visible, where it has one: T01 where it is visible already.
pub(crate) fn declare_caught<'a>(
    names: &mut Scope<'a>,
    name: &'a Option<Ident>,
    ty: Ty,
) -> Result<(), Refused>
    ensures { (inside : scopes.Body) → Met (λ _. scopes.body_names inside names.new) result (rules.with_caught name.now ty (scopes.body_names inside names.old)) }
{
    match name {
        None => Ok(()),
        Some(name) => {
            let text = name.text.as_slice();
            if !names.is_free(text) {
                return fault(StaticCode::T01, name.span);
            }
            names.declare_fixed(text, ty, None)
        }
    }
}

/// The end of a `try`.
pub(crate) fn end_try(
    body: &Body,
    span: Span,
    list: Listed,
    catchers: Catchers,
    last: LastListed,
) -> Result<Done, Refused>
    ensures { (names : List Entry) → Met (done_of names) result (walks.caught span (listed_of names list) (catchers_of catchers) (last_listed_of last) (body_of names body.now)) }
{
    let Listed { acts, effect } = list;
    let effect = greater(greater(effect, catchers.effect), last.effect);
    let Catchers { effect: _, trees } = catchers;
    let LastListed { last, effect: _ } = last;
    let acts = acts.into_inner();
    let act = Act::Try(span, acts, trees, last.into_inner());
    ended(body.class, span, true, effect, act)
}

/// The name of a catcher, where it has one, its type and its list.
fn catcher_parts(c: &Written) -> (&Option<Ident>, &Ident, &[Stmt])
    ensures { c.now ≡ Written.Catch result.0.now result.1.now result.2.now }
{
    match c {
        Written::Catch(name, ty, stmts) => (name, ty, stmts.as_slice()),
    }
}

/// The list of a catcher of this type, which sees its name, and in which the exception is being handled. The name is visible no
/// more behind it.
fn check_caught<'a, L: Fn(&mut Scope<'a>, &Body, &'a [Stmt]) -> Result<Listed, Refused>>(
    here: &Within<'a, L>,
    names: &mut Scope<'a>,
    body: &Body,
    name: &'a Option<Ident>,
    ty: Ty,
    stmts: &'a [Stmt],
) -> Result<Listed, Refused>
    requires blocks { Blocks (stmt_size here.now.stmt.now) (L.pre here.now.list) (L.post here.now.list) }
    requires inside { stmts_size stmts.now < stmt_size here.now.stmt.now }
    ensures rule { (t : Tests) → Suits t → Met (listed_of names.old) result (walks.caught_shut name.now ty (map (walk_stmt t) stmts.now) (body_of names.old body.now)) }
    ensures kept { OnOk result (names.new ≡ names.old) }
{
    let height = names.len();
    declare_caught(names, name, ty)?;
    let inner = while_handling(body)?;
    let list = check_inside(here, names, &inner, stmts)?;
    names.truncate(height);
    Ok(list)
}

/// One catcher: its type, its name and its list, in which the exception is being handled.
fn check_catcher<'a, L: Fn(&mut Scope<'a>, &Body, &'a [Stmt]) -> Result<Listed, Refused>>(
    here: &Within<'a, L>,
    names: &mut Scope<'a>,
    body: &Body,
    c: &'a Written,
    so_far: &mut Catchers,
) -> Result<(), Refused>
    requires blocks { Blocks (stmt_size here.now.stmt.now) (L.pre here.now.list) (L.post here.now.list) }
    requires inside { catcher_size c.now < stmt_size here.now.stmt.now }
    ensures rule { (t : Tests) → Suits t → Met (λ _. catchers_of so_far.new) result (catcher_step (body_of names.old body.now) (walk_catcher t c.now) (catchers_of so_far.old)) }
    ensures kept { OnOk result (names.new ≡ names.old) }
{
    let (name, ty, stmts) = catcher_parts(c);
    let caught = type_caught(names, ty)?;
    let list = check_caught(here, names, body, name, caught, stmts)?;
    so_far.push(body.alloc, name.is_some(), ty, list)?;
    Ok(())
}

/// The catchers of a `try`, in order.
fn check_catchers<'a, L: Fn(&mut Scope<'a>, &Body, &'a [Stmt]) -> Result<Listed, Refused>>(
    here: &Within<'a, L>,
    names: &mut Scope<'a>,
    body: &Body,
    catchers: &'a [Written],
) -> Result<Catchers, Refused>
    requires blocks { Blocks (stmt_size here.now.stmt.now) (L.pre here.now.list) (L.post here.now.list) }
    requires inside { catchers_size catchers.now < stmt_size here.now.stmt.now }
    ensures rule { (t : Tests) → Suits t → Met catchers_of result (after (catcher_step (body_of names.old body.now)) (map (walk_catcher t) catchers.now) nothing_gathered) }
    ensures kept { OnOk result (names.new ≡ names.old) }
{
    let mut so_far = Catchers::new(body.alloc);
    for c in catchers {
        check_catcher(here, names, body, c, &mut so_far)?;
    }
    Ok(so_far)
}

/// A `try`, as it is written.
#[derive(Clone, Copy)]
pub struct Trying<'a> {
    pub span: Span,
    pub stmts: &'a [Stmt],
    pub catchers: &'a [Written],
    pub last: &'a Otherwise,
}

/// A `try`: its list, its catchers in order, and its `otherwise`, in which the exception is being handled.
pub fn check_try<'a, L: Fn(&mut Scope<'a>, &Body, &'a [Stmt]) -> Result<Listed, Refused>>(
    here: &Within<'a, L>,
    names: &mut Scope<'a>,
    body: &Body,
    trying: &Trying<'a>,
) -> Result<Done, Refused>
    requires blocks { Blocks (stmt_size here.now.stmt.now) (L.pre here.now.list) (L.post here.now.list) }
    requires inside { stmts_size trying.now.stmts.now + (catchers_size trying.now.catchers.now + otherwise_size trying.now.last.now) < stmt_size here.now.stmt.now }
    ensures { (t : Tests) → Suits t → Met (done_of names.new) result (walks.try_walk trying.now.span (map (walk_stmt t) trying.now.stmts.now) (map (walk_catcher t) trying.now.catchers.now) (walk_otherwise t trying.now.last.now) (body_of names.old body.now)) }
{
    let list = check_inside(here, names, body, trying.stmts)?;
    let catchers = check_catchers(here, names, body, trying.catchers)?;
    let inner = while_handling(body)?;
    let last = check_otherwise(here, names, &inner, trying.last)?;
    end_try(body, trying.span, list, catchers, last)
}
