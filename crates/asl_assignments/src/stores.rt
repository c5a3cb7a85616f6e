//! Assignments.

ghost use Rattle.std.specs.Prelude.{◌≡◌, map, IfOk, List, Some};
ghost use Rattle.asl_rules.specs.declarations.Layouts.{slot_of, layout_of};
ghost use Rattle.asl_rules.specs.declarations.Scopes.{Entry};
ghost use Rattle.asl_rules.specs.statements.Targets as rules;
ghost use Rattle.asl_rules.specs.Tests.{Tests};
ghost use Rattle.asl_types.specs.private.Answers.{Met, Agrees};
ghost use Rattle.asl_types.specs.private.Standings.{storage_view};
ghost use Rattle.asl_types.specs.Suits.{Suits};
ghost use Rattle.asl_tree.specs.Acts.{all_places};
ghost use Rattle.asl_tree.specs.View.{operand_of, typed_of};
ghost use Rattle.asl_assignments.specs.private.TargetViews.{place_of, stores_of};
ghost use Rattle.asl_blocks.specs.private.Views.{body_of, done_of};
ghost use Rattle.asl_blocks.specs.private.Walks as walks;

use crate::suffixes::{Reached, reach};
use crate::targets::{TypedPlace, counts, effects_in, part_of, type_target};
use asl_allowed::effects::{greater, greatest, may_stand_together};
use asl_blocks::body::{Body, Done};
use asl_blocks::steps::end_simple;
use asl_blocks::typing::type_in;
use asl_rules::effect::Effect;
use asl_syn::code::{Refused, StaticCode};
use asl_syn::token::Span;
use asl_syn::tree::{Expr, Ident, Target};
use asl_tree::act::{Simple, TreePlace};
use asl_tree::tree::Tree;
use asl_types::answer::fault;
use asl_types::fits::fits;
use asl_types::{Scope, Storage, Ty, writing};
use sqlite_items::{Boxed, Items};

/// What is known of places so far: each, the type of what each holds, and the greatest effect of a store there.
#[derive(Drop)]
pub(crate) struct Stores {
    pub(crate) places: Items<TreePlace>,
    pub(crate) types: Items<Ty>,
    pub(crate) effect: Effect,
}

/// Storage that can be assigned: T02 where a name is no storage, T14 where that can't be assigned.
fn find_assignable<'s>(names: &'s Scope, body: &Body, name: &Ident) -> Result<Storage<'s>, Refused>
    ensures rule { Met storage_view result (rules.assignable name.now (body_of names.now body.now).scope) }
    ensures slot { IfOk result (λ s. s.slot ≡ slot_of name.now.text (layout_of names.now)) }
{
    let Some(storage) = names.storage_of(name.text.as_slice()) else {
        return fault(StaticCode::T02, name.span);
    };
    if !storage.is_mutable {
        return fault(StaticCode::T14, name.span);
    }
    Ok(storage)
}

/// One more place.
fn store_in(
    names: &Scope,
    body: &Body,
    place: TypedPlace,
    so_far: &mut Stores,
) -> Result<(), Refused>
    ensures { (t : Tests) → Suits t → Met (λ _. stores_of so_far.new) result (walks.store_step (body_of names.now body.now).scope (place_of t place.entry) (stores_of so_far.old)) }
{
    let TypedPlace {
        way,
        name,
        suffixes,
    } = place;
    let storage = find_assignable(names, body, name)?;
    let slot = storage.slot;
    let effect = writing(storage);
    let Reached { ty, steps } = reach(names, body, suffixes, storage.ty.copy()?)?;
    so_far.places.push(TreePlace {
        span: name.span,
        way,
        slot,
        steps,
    })?;
    so_far.types.push(ty.into_inner())?;
    so_far.effect = greater(so_far.effect, effect);
    Ok(())
}

/// Places in order.
fn store_all(names: &Scope, body: &Body, places: Vec<TypedPlace>) -> Result<Stores, Refused>
    ensures { (t : Tests) → Suits t → Met stores_of result (walks.stores_walk (map (place_of t) places.entry.items) (body_of names.now body.now).scope) }
{
    let mut rest = places;
    rest.reverse();
    let mut so_far = Stores {
        places: Items::new(body.alloc),
        types: Items::new(body.alloc),
        effect: Effect::Pure,
    };
    while let Some(place) = rest.pop() {
        store_in(names, body, place, &mut so_far)?;
    }
    Ok(so_far)
}

/// The part of what is assigned that a place takes fits what it holds, where there is that part.
fn check_part(way: &[usize], to: &Ty, value: &Tree) -> Result<(), Refused>
    ensures { (t : Tests) → Suits t → Agrees result (rules.part_fits t (rules.part_of way.now (Some (typed_of value.now).ty)) to.now (operand_of value.now).span) }
{
    match part_of(value.ty(), way) {
        None => Ok(()),
        Some(part) => match fits(part, to) {
            None => Ok(()),
            Some(code) => fault(code, value.span()),
        },
    }
}

/// The parts of what is assigned fit the places, whatever the count.
fn check_parts(places: &[TreePlace], types: &[Ty], value: &Tree) -> Result<(), Refused>
    ensures { (t : Tests) → Suits t → Agrees result (walks.stores_fit t (all_places places.now) types.now (operand_of value.now)) }
{
    let mut rest = types;
    for place in places {
        match rest.split_first() {
            None => return Ok(()),
            Some((to, more)) => {
                check_part(place.way.as_slice(), to, value)?;
                rest = more;
            }
        }
    }
    Ok(())
}

/// The end of an assignment, whose expressions do this.
fn end_assign(
    body: &Body,
    span: Span,
    effects: &[Effect],
    stores: Stores,
    value: Boxed<Tree>,
) -> Result<Done, Refused>
    ensures { (names : List Entry) → Met (done_of names) result (walks.assigned body.now.class span effects.now (stores_of stores) (typed_of value) names) }
{
    let is_together = may_stand_together(effects);
    let effect = greater(greatest(Effect::Pure, effects), stores.effect);
    let act = Simple::Assign(span, stores.places, value.into_inner());
    end_simple(body.class, span, is_together, effect, act)
}

/// The places of a target from left to right.
fn places_of<'a>(
    names: &Scope,
    body: &Body,
    target: &'a Target,
) -> Result<Vec<TypedPlace<'a>>, Refused>
    ensures { (t : Tests) → Suits t → Met (λ ps. map (place_of t) ps.items) result ((rules.found_target t target.now).places (body_of names.now body.now).scope) }
{
    let mut places = Vec::new(body.alloc);
    type_target(names, body, target, &[], &mut places)?;
    Ok(places)
}

/// An assignment: the operands of its targets and the right side, then each target in turn, then the fits, then the counts.
pub fn check_assign(
    names: &Scope,
    body: &Body,
    span: Span,
    target: &Target,
    e: &Expr,
) -> Result<Done, Refused>
    ensures { (t : Tests) → Suits t → Met (done_of names.now) result (walks.assign_walk t span target.now e.now (body_of names.now body.now).scope) }
{
    let places = places_of(names, body, target)?;
    let value = type_in(names, body, e)?;
    let mut effects = effects_in(body.alloc, places.as_slice())?;
    let stores = store_all(names, body, places)?;
    check_parts(
        stores.places.as_slice(),
        stores.types.as_slice(),
        value.get(),
    )?;
    if !counts(target, value.get().ty()) {
        return fault(StaticCode::T05, span);
    }
    effects.push(value.get().effect())?;
    end_assign(body, span, effects.as_slice(), stores, value)
}
