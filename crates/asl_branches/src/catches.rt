//! `throw` and `try`.
ghost use Rattle.std.specs.Prelude.{◌≡◌, None};
ghost use Rattle.asl_rules.specs.runs.StatementForms as forms;
ghost use Rattle.asl_rules.specs.private.TypedMeaning as rules;
ghost use Rattle.asl_rules.specs.private.TypedMeaning.{acts_of, caught_as, in_bare, itself};
ghost use Rattle.asl_tree.specs.Acts.{all_acts, all_catchers, last_of};
ghost use Rattle.asl_tree.specs.private.Room.{FitsCatchers, FitsLast, FitsList};
ghost use Rattle.asl_tree.specs.declared.act.Catcher.TheVariants.{Catch};
ghost use Rattle.asl_value.specs.View.{value_of};
ghost use Rattle.asl_branches.specs.Meets.{Acts, at, NoneRefused, Ran};
ghost use Rattle.asl_branches.specs.View.{exit_of, room_of, FitsNamed};

use crate::below::Nodes;
use crate::lists::{exec_scope, exec_scope_with};
use crate::run::Run;
use crate::stop::{Exit, Mistake, Stop};
use asl_io::Sink;
use asl_shared::Held;
use asl_syn::token::Span;
use asl_tree::act::{Act, Catcher, Last};
use asl_value::{Name, Value, copy, reaches_somewhere};
use sqlite_items::Items;

/// The catchers of a `try`.
#[derive(Clone, Copy)]
pub struct Try<'r> {
    pub catchers: &'r [Catcher],
    pub last: &'r Last,
}

/// What the innermost catcher caught is thrown again.
pub fn throw_again(run: &Run, span: Span) -> Result<Exit, Stop>
    ensures acts { Acts result (forms.throw in_bare span None) run.now run.now }
    ensures none_refused { NoneRefused result }
{
    match run.handled.last() {
        None => Err(Stop::Stuck(Mistake::NothingCaught, span)),
        Some(x) => Err(Stop::Thrown(copy(x)?)),
    }
}

/// A list, and the catchers of what it throws.
#[tactic(auto, using(crate::proofs::Stacks::cut_values, crate::proofs::Stacks::cut_height))]
pub fn exec_try<K: Sink, N: Nodes<K>>(
    here: &N,
    run: &mut Run,
    sink: &mut K,
    list: &Items<Act>,
    it: Try,
) -> Result<Exit, Stop>
    requires ready { N.ready here.now }
    requires room { FitsList (room_of run.old) (all_acts list.now) }
    requires catchers { FitsCatchers (room_of run.old) (all_catchers it.catchers.now) }
    requires last { FitsLast (room_of run.old) (last_of it.last.now) }
    ensures { Ran exit_of result (N.setting here.now)
        (forms.try_list in_bare itself (acts_of (all_acts list.now)) (rules.catches_of (all_catchers it.entry.catchers.now)) (rules.last_of (last_of it.entry.last.now)))
        (at K.Sink run.old sink.old) (at K.Sink run.new sink.new) }
{
    let height = run.frames.height();
    match exec_scope(here, run, sink, list) {
        Ok(exit) => Ok(exit),
        Err(Stop::Thrown(x)) => {
            run.frames.truncate(height);
            exec_catchers(here, run, sink, x, it)
        }
        Err(stop) => Err(stop),
    }
}

/// The first catcher of the exception's type, or else `otherwise`; where there is none, it is thrown on.
fn exec_catchers<K: Sink, N: Nodes<K>>(
    here: &N,
    run: &mut Run,
    sink: &mut K,
    x: Value,
    it: Try,
) -> Result<Exit, Stop>
    requires ready { N.ready here.now }
    requires catchers { FitsCatchers (room_of run.old) (all_catchers it.catchers.now) }
    requires last { FitsLast (room_of run.old) (last_of it.last.now) }
    ensures { Ran exit_of result (N.setting here.now)
        (forms.catchers in_bare itself (value_of x) (rules.catches_of (all_catchers it.entry.catchers.now)) (rules.last_of (last_of it.entry.last.now)))
        (at K.Sink run.old sink.old) (at K.Sink run.new sink.new) }
{
    let x = Held::new(x);
    for catcher in it.catchers {
        let (is_named, name, list) = catcher_parts(catcher);
        if is_caught(name, x.get()) {
            return handle(here, run, sink, x.into_inner(), is_named, list);
        }
    }
    exec_uncaught(here, run, sink, x.into_inner(), it.last)
}

/// Whether the exception has a name, the name of its type, and the list.
fn catcher_parts(catcher: &Catcher) -> (bool, &Name, &Items<Act>)
    ensures { catcher.now ≡ Catch result.0 result.1.now result.2.now }
{
    let Catcher::Catch(is_named, name, list) = catcher;
    (*is_named, name, list)
}

/// Where no catcher takes it: `otherwise`, or else it is thrown on.
fn exec_uncaught<K: Sink, N: Nodes<K>>(
    here: &N,
    run: &mut Run,
    sink: &mut K,
    x: Value,
    last: &Last,
) -> Result<Exit, Stop>
    requires ready { N.ready here.now }
    requires room { FitsLast (room_of run.old) (last_of last.now) }
    ensures { Ran exit_of result (N.setting here.now)
        (forms.uncaught in_bare (value_of x) (rules.last_of (last_of last.now)))
        (at K.Sink run.old sink.old) (at K.Sink run.new sink.new) }
{
    match last {
        Last::None => Err(Stop::Thrown(x)),
        Last::Otherwise(list) => handle(here, run, sink, x, false, list),
    }
}

/// Whether an exception is of this type.
fn is_caught(name: &Name, x: &Value) -> bool
    ensures { result ≡ forms.is_caught name.now (value_of x.now) }
{
    match x {
        Value::Exception(own, supers, _, _) => {
            reaches_somewhere(own.get().as_slice(), supers, name.get().as_slice())
        }
        _ => false,
    }
}

/// Runs a list while an exception is being handled.
#[tactic(auto, using(crate::proofs::Stacks::handled_more, crate::proofs::Stacks::handled_back))]
fn handle<K: Sink, N: Nodes<K>>(
    here: &N,
    run: &mut Run,
    sink: &mut K,
    x: Value,
    is_named: bool,
    list: &Items<Act>,
) -> Result<Exit, Stop>
    requires ready { N.ready here.now }
    requires room { FitsNamed is_named (room_of run.old) (all_acts list.now) }
    ensures { Ran exit_of result (N.setting here.now)
        (forms.handling in_bare (value_of x) (forms.catch_list in_bare (caught_as is_named) (value_of x) (acts_of (all_acts list.now))))
        (at K.Sink run.old sink.old) (at K.Sink run.new sink.new) }
{
    let height = run.handled.len();
    run.handled.push(copy(&x)?)?;
    match exec_caught(here, run, sink, x, is_named, list) {
        Ok(exit) => {
            run.handled.truncate(height);
            Ok(exit)
        }
        Err(Stop::Thrown(y)) => {
            run.handled.truncate(height);
            Err(Stop::Thrown(y))
        }
        Err(stop) => Err(stop),
    }
}

/// Runs the list of a catcher, where the exception may have a name.
fn exec_caught<K: Sink, N: Nodes<K>>(
    here: &N,
    run: &mut Run,
    sink: &mut K,
    x: Value,
    is_named: bool,
    list: &Items<Act>,
) -> Result<Exit, Stop>
    requires ready { N.ready here.now }
    requires room { FitsNamed is_named (room_of run.old) (all_acts list.now) }
    ensures { Ran exit_of result (N.setting here.now)
        (forms.catch_list in_bare (caught_as is_named) (value_of x) (acts_of (all_acts list.now)))
        (at K.Sink run.old sink.old) (at K.Sink run.new sink.new) }
{
    if is_named {
        exec_scope_with(here, run, sink, x, list)
    } else {
        drop(x);
        exec_scope(here, run, sink, list)
    }
}
