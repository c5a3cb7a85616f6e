//! Targets of assignments: the places in them, and their parts.

ghost use Rattle.std.specs.Prelude.{◌≡◌, [], ◌∷◌, ◌++◌, map, IfOk, OnOk, option_map, Some};
ghost use Rattle.asl_rules.specs.statements.Targets as rules;
ghost use Rattle.asl_rules.specs.statements.Targets.{found_target};
ghost use Rattle.asl_rules.specs.Tests.{Tests};
ghost use Rattle.asl_rules.specs.types.Types as types;
ghost use Rattle.asl_types.specs.private.Answers.{Met};
ghost use Rattle.asl_types.specs.Suits.{Suits};
ghost use Rattle.asl_types.specs.View.{parts_of};
ghost use Rattle.asl_assignments.specs.private.TargetViews.{place_of, suffix_of};
ghost use Rattle.asl_blocks.specs.private.Views.{body_of};
ghost use Rattle.asl_blocks.specs.private.Walks as walks;
ghost use Rattle.asl_blocks.specs.private.Walks.{with_places};

use crate::suffixes::{TypedSuffix, push_effects, type_suffixes};
use asl_blocks::body::Body;
use asl_rules::effect::Effect;
use asl_syn::code::Refused;
use asl_syn::tree::{Ident, Target};
use asl_types::structure::tuple_parts;
use asl_types::{Scope, Ty};
use sqlite_items::Items;
use std::alloc::{AllocError, Global};

/// A place whose expressions were typed, with the way to the part of the value that it takes.
#[derive(Drop)]
pub(crate) struct TypedPlace<'a> {
    pub(crate) way: Items<usize>,
    pub(crate) name: &'a Ident,
    pub(crate) suffixes: Vec<TypedSuffix<'a>>,
}

/// The way on to a part, by its number from 0.
fn way_into(alloc: Global, way: &[usize], part: usize) -> Result<Items<usize>, AllocError>
    ensures { IfOk result (λ inner. inner ≡ way.now ++ part ∷ []) }
{
    let mut inner = Items::from_slice(alloc, way)?;
    inner.push(part)?;
    Ok(inner)
}

/// The places of a target from left to right, behind those before, for a value at the end of this way.
#[cycle(places)]
pub(crate) fn type_target<'a>(
    names: &Scope,
    body: &Body,
    target: &'a Target,
    way: &[usize],
    places: &mut Vec<TypedPlace<'a>>,
) -> Result<(), Refused>
    ensures { (t : Tests) → Suits t → Met (λ _. map (place_of t) places.new.items) result (with_places (map (place_of t) places.old.items) way.now ((found_target t target.now).places (body_of names.now body.now).scope)) }
{
    match target {
        Target::Discarded(_) => Ok(()),
        Target::Place(_, name, suffixes) => {
            let suffixes = type_suffixes(names, body, name, suffixes.as_slice())?;
            let way = Items::from_slice(body.alloc, way)?;
            places.push(TypedPlace {
                way,
                name,
                suffixes,
            })?;
            Ok(())
        }
        Target::Targets(_, targets) => {
            type_targets(names, body, targets.as_slice(), way, places)
        }
    }
}

/// The places of targets in order, behind those before, for the parts of a value at the end of this way.
#[cycle(places)]
fn type_targets<'a>(
    names: &Scope,
    body: &Body,
    targets: &'a [Target],
    way: &[usize],
    places: &mut Vec<TypedPlace<'a>>,
) -> Result<(), Refused>
    ensures { (t : Tests) → Suits t → Met (λ _. map (place_of t) places.new.items) result (with_places (map (place_of t) places.old.items) way.now (rules.all_places 0 (map (found_target t) targets.now) (body_of names.now body.now).scope)) }
{
    for part in 0..targets.len() {
        let inner = way_into(body.alloc, way, part)?;
        type_target(names, body, &targets[part], inner.as_slice(), places)?;
    }
    Ok(())
}

/// The effects of the expressions of suffixes in order, behind those before.
fn push_all_effects(suffixes: &[TypedSuffix], effects: &mut Items<Effect>) -> Result<(), AllocError>
    ensures { (t : Tests) → OnOk result (effects.new ≡ effects.old ++ rules.all_suffix_effects (map (suffix_of t) suffixes.now)) }
{
    for x in suffixes {
        push_effects(x, effects)?;
    }
    Ok(())
}

/// The effects of the expressions in places in order.
pub(crate) fn effects_in(alloc: Global, places: &[TypedPlace]) -> Result<Items<Effect>, AllocError>
    ensures { (t : Tests) → IfOk result (λ ks. ks ≡ rules.place_effects (map (place_of t) places.now)) }
{
    let mut effects = Items::new(alloc);
    for place in places {
        push_all_effects(place.suffixes.as_slice(), &mut effects)?;
    }
    Ok(effects)
}

/// The part of this number, from 0, where there is that part.
#[tactic(auto, using(crate::proofs::Placing::number_in, crate::proofs::Placing::number_past))]
fn part_at(parts: &[Ty], number: usize) -> Option<&Ty>
    ensures { option_map (λ part. part.now) result ≡ rules.part_number number (parts_of parts.now) }
{
    if number < parts.len() {
        Some(&parts[number])
    } else {
        None
    }
}

/// The type of the part of this number, from 0, of a tuple, where there is that part.
fn part_behind(ty: &Ty, number: usize) -> Option<&Ty>
    ensures { option_map (λ part. part.now) result ≡ rules.part_behind (types.tuple_parts ty.now) number }
{
    match tuple_parts(ty) {
        None => None,
        Some(parts) => part_at(parts, number),
    }
}

/// The type of the part at the end of a way, where there is that part.
pub(crate) fn part_of<'t>(ty: &'t Ty, way: &[usize]) -> Option<&'t Ty>
    ensures { option_map (λ part. part.now) result ≡ rules.part_of way.now (Some ty.now) }
{
    let mut reached = ty;
    for number in way {
        match part_behind(reached, *number) {
            None => return None,
            Some(part) => reached = part,
        }
    }
    Some(reached)
}

/// Whether no part is left for no target.
fn is_end(parts: &[Ty]) -> bool
    ensures { result ≡ walks.counts_parts [] (parts_of parts.now) }
{
    match parts.split_first() {
        None => true,
        Some(_) => false,
    }
}

/// Whether a value of this type has as many parts as a target asks for.
#[cycle(counts)]
pub(crate) fn counts(target: &Target, ty: &Ty) -> bool
    ensures { result ≡ walks.counts_in target.now ty.now }
{
    match target {
        Target::Discarded(_) => true,
        Target::Place(_, _, _) => true,
        Target::Targets(_, targets) => match tuple_parts(ty) {
            None => false,
            Some(parts) => parts_count(targets.as_slice(), parts),
        },
    }
}

/// Whether there are as many parts as targets, and as many parts of each as its target asks for.
#[cycle(counts)]
fn parts_count(targets: &[Target], parts: &[Ty]) -> bool
    ensures { result ≡ walks.counts_parts (map walks.counts_in targets.now) (parts_of parts.now) }
{
    let mut rest = parts;
    for target in targets {
        match rest.split_first() {
            None => return false,
            Some((part, more)) => {
                if !counts(target, part) {
                    return false;
                }
                rest = more;
            }
        }
    }
    is_end(rest)
}
