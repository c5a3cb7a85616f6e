//! Loops.
ghost use Rattle.std.specs.Prelude.{◌≡◌, true, false, IfNone, IfSome, OnSome};
ghost use Rattle.asl_rules.specs.runs.Limits.{most_turns};
ghost use Rattle.asl_rules.specs.values.Operators.{less};
ghost use Rattle.asl_rules.specs.runs.StatementForms as forms;
ghost use Rattle.asl_rules.specs.private.TypedMeaning.{acts_of, in_bare, indexed};
ghost use Rattle.asl_rules.specs.values.Values.{int};
ghost use Rattle.asl_tree.specs.Acts.{all_acts, maybe_tree};
ghost use Rattle.asl_tree.specs.private.Room.{FitsList};
ghost use Rattle.asl_tree.specs.View.{tree_of};
ghost use Rattle.asl_value.specs.View.{value_of};
ghost use Rattle.asl_branches.specs.Meets.{at, Is, Ran};
ghost use Rattle.asl_branches.specs.View.{exit_of, room_of, FitsNamed};
ghost use Rattle.asl_run.specs.private.Looping.{between, limit_asked, turn_until};

use crate::asking::ask;
use asl_branches::below::Nodes;
use asl_branches::lists::{exec_scope, exec_scope_with};
use asl_branches::run::Run;
use asl_branches::stop::{Exit, Mistake, Stop};
use asl_io::Sink;
use asl_shared::Held;
use asl_syn::code::DynCode;
use asl_syn::token::Span;
use asl_syn::tree::Direction;
use asl_tree::act::{Act, Bounds, Guard};
use asl_tree::tree::Tree;
use asl_value::Value;
use sqlite_items::Items;

// ---- what a loop has

/// The values of the bounds of an index, and how many turns the limit lets through.
#[derive(Clone, Copy)]
pub struct Between<'r> {
    pub span: Span,
    pub first: &'r Value,
    pub direction: Direction,
    pub last: &'r Value,
    pub count: u128,
}

/// The turns from an index to the last one, and how many the limit lets through.
#[derive(Clone, Copy)]
pub struct Turns {
    pub span: Span,
    pub first: i128,
    pub direction: Direction,
    pub last: i128,
    pub count: u128,
}

/// Where a loop stands, how many turns its limit lets through, and what its condition is where it ends.
#[derive(Clone, Copy)]
pub struct Limited {
    pub span: Span,
    pub count: u128,
    pub until: bool,
}

// ---- limits

/// The turns that a loop has where no other number is written.
#[tactic(auto, unfolding(asl_rules::specs::runs::Limits::most_turns))]
fn usual_turns() -> u128
    ensures { result ≡ most_turns }
{
    1048576
}

/// How many turns a limit lets through.
fn turns_in(z: i128) -> u128
    ensures { result ≡ forms.turns_in z }
{
    if z < 0 { 0 } else { z as u128 }
}

/// An integer.
fn whole_number(span: Span, x: &Value) -> Result<i128, Stop>
    ensures { Is (λ z. z) result (forms.whole_number span (value_of x.now)) }
{
    match x {
        Value::Int(z) => Ok(*z),
        _ => Err(Stop::Stuck(Mistake::WrongKind, span)),
    }
}

/// How many turns a loop has at most: what its limit lets through, which is evaluated once.
fn turns_of<K: Sink, N: Nodes<K>>(
    here: &N,
    run: &mut Run,
    sink: &mut K,
    span: Span,
    limit: &Option<Tree>,
) -> Result<u128, Stop>
    requires ready { N.ready here.now }
    ensures { Ran (λ n. n) result (N.setting here.now) (limit_asked span (maybe_tree limit.now))
        (at K.Sink run.old sink.old) (at K.Sink run.new sink.new) }
{
    match limit {
        None => Ok(usual_turns()),
        Some(e) => {
            let z = Held::new(here.eval(run, sink, e)?);
            Ok(turns_in(whole_number(span, z.get())?))
        }
    }
}

// ---- `for`

/// A `for`: its bounds and then its limit, each evaluated once, and then its turns.
pub fn exec_for<K: Sink, N: Nodes<K>>(
    here: &N,
    run: &mut Run,
    sink: &mut K,
    span: Span,
    it: &Bounds,
    body: &Items<Act>,
) -> Result<Exit, Stop>
    requires ready { N.ready here.now }
    requires room { FitsNamed true (room_of run.old) (all_acts body.now) }
    ensures { Ran exit_of result (N.setting here.now)
        (forms.for_loop in_bare indexed span (tree_of it.now.from) it.now.direction (tree_of it.now.to) (maybe_tree it.now.limit) (acts_of (all_acts body.now)))
        (at K.Sink run.old sink.old) (at K.Sink run.new sink.new) }
{
    let x = Held::new(here.eval(run, sink, &it.from)?);
    let y = Held::new(here.eval(run, sink, &it.to)?);
    let count = turns_of(here, run, sink, span, &it.limit)?;
    let between = Between {
        span,
        first: x.get(),
        direction: it.direction,
        last: y.get(),
        count,
    };
    for_bounds(here, run, sink, between, body)
}

/// The bounds as integers.
fn for_bounds<K: Sink, N: Nodes<K>>(
    here: &N,
    run: &mut Run,
    sink: &mut K,
    it: Between,
    body: &Items<Act>,
) -> Result<Exit, Stop>
    requires ready { N.ready here.now }
    requires room { FitsNamed true (room_of run.old) (all_acts body.now) }
    ensures { Ran exit_of result (N.setting here.now)
        (between it.entry.span it.entry.direction (value_of it.entry.first.now) (value_of it.entry.last.now) (acts_of (all_acts body.now)) it.entry.count)
        (at K.Sink run.old sink.old) (at K.Sink run.new sink.new) }
{
    let first = whole_number(it.span, it.first)?;
    let last = whole_number(it.span, it.last)?;
    if is_past(it.direction, last, first) {
        return Ok(Exit::Normal);
    }
    let turns = Turns {
        span: it.span,
        first,
        direction: it.direction,
        last,
        count: it.count,
    };
    for_indices(here, run, sink, turns, body)
}

/// Whether the index is past its last value.
fn is_past(direction: Direction, last: i128, i: i128) -> bool
    ensures { result ≡ forms.is_past direction last i }
{
    match direction {
        Direction::Up => is_less(last, i),
        Direction::Down => is_less(i, last),
    }
}

/// The next index, none where it would be past the last.
#[tactic(auto, using(crate::proofs::Indices::next_up, crate::proofs::Indices::next_down, crate::proofs::Indices::no_next, crate::proofs::Indices::no_former))]
fn next_index(direction: Direction, last: i128, i: i128) -> Option<i128>
    requires { forms.is_past direction last i ≡ false }
    ensures some { OnSome result (forms.is_past direction last (forms.next_index direction i) ≡ false) }
    ensures next { IfSome result (λ j. j ≡ forms.next_index direction i) }
    ensures none { IfNone result (forms.is_past direction last (forms.next_index direction i) ≡ true) }
{
    if i == last {
        return None;
    }
    match direction {
        Direction::Up => Some(i + 1),
        Direction::Down => Some(i - 1),
    }
}

/// Turns with an index, or for an empty body, which takes no step, their number alone: the last index may be 2^128 - 1 turns
/// later. The first index isn't past the last.
fn for_indices<K: Sink, N: Nodes<K>>(
    here: &N,
    run: &mut Run,
    sink: &mut K,
    it: Turns,
    body: &Items<Act>,
) -> Result<Exit, Stop>
    requires ready { N.ready here.now }
    requires room { FitsNamed true (room_of run.old) (all_acts body.now) }
    requires within { forms.is_past it.direction it.last it.first ≡ false }
    ensures { Ran exit_of result (N.setting here.now)
        (forms.index_turn in_bare indexed it.span it.direction it.last (acts_of (all_acts body.now)) it.count it.first)
        (at K.Sink run.old sink.old) (at K.Sink run.new sink.new) }
{
    if !body.is_empty() {
        return for_turns(here, run, sink, it, body);
    }
    if it.last.abs_diff(it.first) < it.count {
        Ok(Exit::Normal)
    } else {
        Err(Stop::Fault(DynCode::D10, it.span))
    }
}

/// Turns with an index, as many as the limit lets through (D10). The first index isn't past the last.
#[tactic(auto, using(crate::proofs::Rounds::index_more, crate::proofs::Rounds::index_none))]
fn for_turns<K: Sink, N: Nodes<K>>(
    here: &N,
    run: &mut Run,
    sink: &mut K,
    it: Turns,
    body: &Items<Act>,
) -> Result<Exit, Stop>
    requires ready { N.ready here.now }
    requires room { FitsNamed true (room_of run.old) (all_acts body.now) }
    requires within { forms.is_past it.direction it.last it.first ≡ false }
    ensures { Ran exit_of result (N.setting here.now)
        (forms.index_turn in_bare indexed it.span it.direction it.last (acts_of (all_acts body.now)) it.count it.first)
        (at K.Sink run.old sink.old) (at K.Sink run.new sink.new) }
{
    let mut i = it.first;
    let mut left = it.count;
    while left > 0 {
        match exec_turn(here, run, sink, i, body)? {
            Exit::Normal => {}
            Exit::Returned(x) => return Ok(Exit::Returned(x)),
        }
        match next_index(it.direction, it.last, i) {
            None => return Ok(Exit::Normal),
            Some(j) => i = j,
        }
        left -= 1;
    }
    Err(Stop::Fault(DynCode::D10, it.span))
}

/// A turn with its index.
fn exec_turn<K: Sink, N: Nodes<K>>(
    here: &N,
    run: &mut Run,
    sink: &mut K,
    i: i128,
    body: &Items<Act>,
) -> Result<Exit, Stop>
    requires ready { N.ready here.now }
    requires room { FitsNamed true (room_of run.old) (all_acts body.now) }
    ensures { Ran exit_of result (N.setting here.now)
        (forms.scope_with in_bare (indexed (int i)) (acts_of (all_acts body.now)))
        (at K.Sink run.old sink.old) (at K.Sink run.new sink.new) }
{
    exec_scope_with(here, run, sink, Value::Int(i), body)
}

// ---- `while`

/// A `while`: its limit, evaluated once, then its condition, and turns while that holds.
pub fn exec_while<K: Sink, N: Nodes<K>>(
    here: &N,
    run: &mut Run,
    sink: &mut K,
    span: Span,
    it: &Guard,
    body: &Items<Act>,
) -> Result<Exit, Stop>
    requires ready { N.ready here.now }
    requires room { FitsList (room_of run.old) (all_acts body.now) }
    ensures { Ran exit_of result (N.setting here.now)
        (forms.while_loop in_bare span (tree_of it.now.condition) (maybe_tree it.now.limit) (acts_of (all_acts body.now)))
        (at K.Sink run.old sink.old) (at K.Sink run.new sink.new) }
{
    let count = turns_of(here, run, sink, span, &it.limit)?;
    let limited = Limited {
        span,
        count,
        until: false,
    };
    while_turns(here, run, sink, limited, &it.condition, body)
}

/// The condition, and turns where it holds.
fn while_turns<K: Sink, N: Nodes<K>>(
    here: &N,
    run: &mut Run,
    sink: &mut K,
    it: Limited,
    condition: &Tree,
    body: &Items<Act>,
) -> Result<Exit, Stop>
    requires ready { N.ready here.now }
    requires room { FitsList (room_of run.old) (all_acts body.now) }
    ensures { Ran exit_of result (N.setting here.now)
        (λ c. forms.asked it.span (tree_of condition.now) c
        (turn_until it.until it.span (tree_of condition.now) (acts_of (all_acts body.now)) it.count) forms.done_normal)
        (at K.Sink run.old sink.old) (at K.Sink run.new sink.new) }
{
    if ask(here, run, sink, it.span, condition)? {
        exec_turns(here, run, sink, it, condition, body)
    } else {
        Ok(Exit::Normal)
    }
}

// ---- `repeat`

/// A `repeat`: its limit, evaluated once, and turns up to one behind which its condition holds.
pub fn exec_repeat<K: Sink, N: Nodes<K>>(
    here: &N,
    run: &mut Run,
    sink: &mut K,
    span: Span,
    it: &Guard,
    body: &Items<Act>,
) -> Result<Exit, Stop>
    requires ready { N.ready here.now }
    requires room { FitsList (room_of run.old) (all_acts body.now) }
    ensures { Ran exit_of result (N.setting here.now)
        (forms.repeat_loop in_bare span (acts_of (all_acts body.now)) (tree_of it.now.condition) (maybe_tree it.now.limit))
        (at K.Sink run.old sink.old) (at K.Sink run.new sink.new) }
{
    let count = turns_of(here, run, sink, span, &it.limit)?;
    let limited = Limited {
        span,
        count,
        until: true,
    };
    exec_turns(here, run, sink, limited, &it.condition, body)
}

// ---- turns of `while` and `repeat`

/// Turns, each the statements and then the condition, up to one where it is `until`, as many as the limit lets through (D10).
#[tactic(auto, using(crate::proofs::Rounds::until_more, crate::proofs::Rounds::until_none))]
fn exec_turns<K: Sink, N: Nodes<K>>(
    here: &N,
    run: &mut Run,
    sink: &mut K,
    it: Limited,
    condition: &Tree,
    body: &Items<Act>,
) -> Result<Exit, Stop>
    requires ready { N.ready here.now }
    requires room { FitsList (room_of run.old) (all_acts body.now) }
    ensures { Ran exit_of result (N.setting here.now)
        (turn_until it.until it.span (tree_of condition.now) (acts_of (all_acts body.now)) it.count)
        (at K.Sink run.old sink.old) (at K.Sink run.new sink.new) }
{
    let mut left = it.count;
    while left > 0 {
        match exec_scope(here, run, sink, body)? {
            Exit::Normal => {}
            Exit::Returned(x) => return Ok(Exit::Returned(x)),
        }
        let holds = ask(here, run, sink, it.span, condition)?;
        if holds == it.until {
            return Ok(Exit::Normal);
        }
        left -= 1;
    }
    Err(Stop::Fault(DynCode::D10, it.span))
}

// ---- integers

#[tactic(auto, using(asl_value::proofs::Integers::less_is))]
fn is_less(a: i128, b: i128) -> bool
    ensures { result ≡ less a b }
{
    a < b
}
