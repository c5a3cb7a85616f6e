//! Values and lists in order: what is declared, what expressions give, and statements with a scope of their own.
ghost use Rattle.std.specs.Prelude.{◌≡◌, ◌∷◌, ◌+◌, ◌<◌, [], map, true};
ghost use Rattle.asl_rules.specs.runs.StatementForms as forms;
ghost use Rattle.asl_rules.specs.private.TypedMeaning as rules;
ghost use Rattle.asl_rules.specs.private.TypedMeaning.{acts_of, in_bare};
ghost use Rattle.asl_tree.specs.Acts.{all_acts};
ghost use Rattle.asl_tree.specs.private.Room.{FitsList};
ghost use Rattle.asl_value.specs.View.{value_of};
ghost use Rattle.asl_branches.specs.private.InOrder.{evaluated};
ghost use Rattle.asl_branches.specs.Meets.{at, Ran, SameBut};
ghost use Rattle.asl_branches.specs.View.{core_of, exit_of, height_of, room_of, FitsNamed};

use crate::below::Nodes;
use crate::run::Run;
use crate::stop::{Exit, Stop};
use asl_io::Sink;
use asl_tree::act::Act;
use asl_tree::tree::Tree;
use asl_value::Value;
use sqlite_items::Items;

/// The next place of the frame takes a value. There is a free one.
pub fn push(run: &mut Run, value: Value)
    requires room { 0 < room_of run.old }
    ensures core { core_of run.new ≡ rules.with_next (value_of value ∷ []) (core_of run.old) }
    ensures height { height_of run.new ≡ 1 + height_of run.old }
    ensures round { SameBut run.old run.new }
{
    run.frames.push(value);
}

/// The values of expressions in order.
pub fn eval_all<K: Sink, N: Nodes<K>>(
    here: &N,
    run: &mut Run,
    sink: &mut K,
    es: &[Tree],
) -> Result<Items<Value>, Stop>
    requires ready { N.ready here.now }
    ensures { Ran (map value_of) result (N.setting here.now) (evaluated es.now)
        (at K.Sink run.old sink.old) (at K.Sink run.new sink.new) }
{
    let mut xs = Items::new(here.setting().alloc);
    for e in es {
        let x = here.eval(run, sink, e)?;
        xs.push(x)?;
    }
    Ok(xs)
}

/// Statements with a scope of their own.
#[tactic(auto, using(crate::proofs::Stacks::cut_values, crate::proofs::Stacks::cut_height))]
pub fn exec_scope<K: Sink, N: Nodes<K>>(
    here: &N,
    run: &mut Run,
    sink: &mut K,
    list: &Items<Act>,
) -> Result<Exit, Stop>
    requires ready { N.ready here.now }
    requires room { FitsList (room_of run.old) (all_acts list.now) }
    ensures { Ran exit_of result (N.setting here.now)
        (forms.scope in_bare (acts_of (all_acts list.now)))
        (at K.Sink run.old sink.old) (at K.Sink run.new sink.new) }
{
    let height = run.frames.height();
    let exit = here.exec_all(run, sink, list)?;
    run.frames.truncate(height);
    Ok(exit)
}

/// Statements in whose scope a value stands before them.
#[tactic(auto, using(crate::proofs::Stacks::cut_values, crate::proofs::Stacks::cut_height))]
pub fn exec_scope_with<K: Sink, N: Nodes<K>>(
    here: &N,
    run: &mut Run,
    sink: &mut K,
    x: Value,
    list: &Items<Act>,
) -> Result<Exit, Stop>
    requires ready { N.ready here.now }
    requires room { FitsNamed true (room_of run.old) (all_acts list.now) }
    ensures { Ran exit_of result (N.setting here.now)
        (forms.scope_with in_bare (rules.indexed (value_of x)) (acts_of (all_acts list.now)))
        (at K.Sink run.old sink.old) (at K.Sink run.new sink.new) }
{
    let height = run.frames.height();
    push(run, x);
    let exit = here.exec_all(run, sink, list)?;
    run.frames.truncate(height);
    Ok(exit)
}
