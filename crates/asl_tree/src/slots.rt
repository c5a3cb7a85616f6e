//! How many places of a frame the names that statements declare need.
//!
//! A statement gives its names the next places, which are free again where its scope ends. Each function answers the least
//! number of places that is enough, or nothing where it is 2^32 or more.

ghost use Rattle.std.specs.Prelude.{◌<◌, ◌^◌, SomeIff};
ghost use Rattle.asl_tree.specs.Acts.{taken_of, simple_of, act_of, last_of, all_acts, all_branches, all_alternatives, all_catchers};
ghost use Rattle.asl_tree.specs.private.Room.{parts_taken, names_taken, declared, act_room, list_room, branches_room, alternatives_room, catchers_room, last_room};

use crate::act::{Act, Alternative, Branch, Catcher, Last, Simple, Taken};

/// How many parts are taken.
fn parts(taken: &[bool]) -> Option<u32>
    ensures { SomeIff result (parts_taken taken.now < 2 ^ 32) (parts_taken taken.now) }
{
    let mut count: u32 = 0;
    for part in taken {
        if *part {
            count = count.checked_add(1)?;
        }
    }
    Some(count)
}

/// How many names a declaration gives its value to.
fn names(taken: &Taken) -> Option<u32>
    ensures { SomeIff result (names_taken (taken_of taken.now) < 2 ^ 32) (names_taken (taken_of taken.now)) }
{
    match taken {
        Taken::Nothing => Some(0),
        Taken::Whole => Some(1),
        Taken::InParts(taken) => parts(taken.as_slice()),
    }
}

/// How many names a statement declares in the scope that it stands in.
fn simple_names(simple: &Simple) -> Option<u32>
    ensures { SomeIff result (declared (simple_of simple.now) < 2 ^ 32) (declared (simple_of simple.now)) }
{
    match simple {
        Simple::Pass(_) => Some(0),
        Simple::Unreachable(_) => Some(0),
        Simple::Assert(_, _) => Some(0),
        Simple::Declare(_, _, taken, _) => names(taken),
        Simple::DeclareFirst(_, count, _, _, _) => u32::try_from(*count).ok(),
        Simple::Assign(_, _, _) => Some(0),
        Simple::Invoke(_, _, _, _, _) => Some(0),
        Simple::Return(_, _) => Some(0),
        Simple::Throw(_, _) => Some(0),
        Simple::Print(_, _, _) => Some(0),
    }
}

/// How many names a statement declares in the scope that it stands in.
fn act_names(act: &Act) -> Option<u32>
    ensures { SomeIff result (declared (act_of act.now) < 2 ^ 32) (declared (act_of act.now)) }
{
    match act {
        Act::Simple(simple) => simple_names(simple),
        Act::If(_, _, _, _, _) => Some(0),
        Act::Case(_, _, _, _) => Some(0),
        Act::For(_, _, _) => Some(0),
        Act::While(_, _, _) => Some(0),
        Act::Repeat(_, _, _) => Some(0),
        Act::Try(_, _, _, _) => Some(0),
    }
}

/// Of a statement: the most that are bound at one time, its own names or those of the lists in it.
#[cycle(rooms)]
fn act_slots(act: &Act) -> Option<u32>
    ensures { SomeIff result (act_room (act_of act.now) < 2 ^ 32) (act_room (act_of act.now)) }
{
    match act {
        Act::Simple(simple) => simple_names(simple),
        Act::If(_, _, first, others, last) => {
            let first = list_slots(first.as_slice())?;
            let others = branch_slots(others.as_slice())?;
            let last = list_slots(last.as_slice())?;
            Some(first.max(others.max(last)))
        }
        Act::Case(_, _, alternatives, last) => {
            let alternatives = alternative_slots(alternatives.as_slice())?;
            let last = last_slots(last)?;
            Some(alternatives.max(last))
        }
        Act::For(_, _, body) => list_slots(body.as_slice())?.checked_add(1),
        Act::While(_, _, body) => list_slots(body.as_slice()),
        Act::Repeat(_, body, _) => list_slots(body.as_slice()),
        Act::Try(_, body, catchers, last) => {
            let body = list_slots(body.as_slice())?;
            let catchers = catcher_slots(catchers.as_slice())?;
            let last = last_slots(last)?;
            Some(body.max(catchers.max(last)))
        }
    }
}

/// Of a list, in which a statement comes after the names that those before it declare.
#[cycle(rooms)]
#[tactic(auto, using(crate::proofs::Room::declared_within))]
pub(crate) fn list_slots(acts: &[Act]) -> Option<u32>
    ensures { SomeIff result (list_room (all_acts acts.now) < 2 ^ 32) (list_room (all_acts acts.now)) }
{
    let mut most: u32 = 0;
    let mut height: u32 = 0;
    for act in acts {
        most = most.max(height.checked_add(act_slots(act)?)?);
        height = height.checked_add(act_names(act)?)?;
    }
    Some(most)
}

/// Of lists that come after an `elsif` each.
#[cycle(rooms)]
fn branch_slots(branches: &[Branch]) -> Option<u32>
    ensures { SomeIff result (branches_room (all_branches branches.now) < 2 ^ 32) (branches_room (all_branches branches.now)) }
{
    let mut most: u32 = 0;
    for branch in branches {
        match branch {
            Branch::Elsif(_, acts) => most = most.max(list_slots(acts.as_slice())?),
        }
    }
    Some(most)
}

/// Of lists that come after a `when` each.
#[cycle(rooms)]
fn alternative_slots(alternatives: &[Alternative]) -> Option<u32>
    ensures { SomeIff result (alternatives_room (all_alternatives alternatives.now) < 2 ^ 32) (alternatives_room (all_alternatives alternatives.now)) }
{
    let mut most: u32 = 0;
    for alternative in alternatives {
        match alternative {
            Alternative::When(_, acts) => most = most.max(list_slots(acts.as_slice())?),
        }
    }
    Some(most)
}

/// Of the lists of a `catch`: the exception takes a place in front of its list where it has a name.
#[cycle(rooms)]
fn catcher_slots(catchers: &[Catcher]) -> Option<u32>
    ensures { SomeIff result (catchers_room (all_catchers catchers.now) < 2 ^ 32) (catchers_room (all_catchers catchers.now)) }
{
    let mut most: u32 = 0;
    for catcher in catchers {
        match catcher {
            Catcher::Catch(is_named, _, acts) => {
                let slots = list_slots(acts.as_slice())?;
                most = most.max(slots.checked_add(u32::from(*is_named))?);
            }
        }
    }
    Some(most)
}

/// Of the list of an `otherwise`.
#[cycle(rooms)]
fn last_slots(last: &Last) -> Option<u32>
    ensures { SomeIff result (last_room (last_of last.now) < 2 ^ 32) (last_room (last_of last.now)) }
{
    match last {
        Last::None => Some(0),
        Last::Otherwise(acts) => list_slots(acts.as_slice()),
    }
}
