//! One call of a checked program.
ghost use Rattle.std.specs.Prelude.{◌≡◌, ◌-◌, [], Some, map, OnOk};
ghost use Rattle.asl_rules.specs.runs.Machines.{GivenUp};
ghost use Rattle.asl_rules.specs.runs.Plans.{final};
ghost use Rattle.asl_rules.specs.Tests.{Tests};
ghost use Rattle.asl_types.specs.Suits.{Suits};
ghost use Rattle.asl_value.specs.View.{value_of};
ghost use Rattle.asl_branches.specs.Meets.{Counts};
ghost use Rattle.asl_machine.specs.private.Memory.{arranged, held, named, storage_of};
ghost use Rattle.asl_machine.specs.Stages.{Ends, CallMeets, IfRan, OnReady, OnRun, OnRefused, Counted};
ghost use Rattle.asl_machine.specs.Took.{Took, Stepped};
ghost use Rattle.asl_machine.specs.Work.{IsCallable, globals_with, run_over, text_over};

use crate::memory::{Memory, enter, leave};
use crate::noted::call_noted;
use crate::stage::{RunRefused, Stage};
use asl_io::Sink;
use asl_run::Stop;
use asl_tree::{Checked, SubId};
use asl_value::Value;
use std::alloc::Global;
use std::marker::Brand;

/// One call, over the memory between two calls.
pub(crate) fn run_checked<K: Sink>(
    alloc: Global,
    checked: &Checked,
    memory: &mut Memory,
    sink: &mut K,
    sub: SubId,
    args: &[Value],
) -> Stage
    requires callable { (t : Tests) → Suits t → IsCallable t checked.now sub (map value_of args.now) }
    requires arranged { arranged checked.now memory.old }
    requires held { held checked.now memory.old }
    ensures outcome { (t : Tests) → Suits t → Ends result
        (globals_with t checked.now (storage_of memory.new))
        (record { steps = memory.new.steps; told = K.written sink.new; text_open = memory.new.text_open })
        (run_over t checked.now sub (map value_of args.now) (storage_of memory.old) memory.old.steps (K.written sink.old)) }
    ensures given_up { (t : Tests) → Suits t → OnRefused result
        (GivenUp (text_over t checked.now sub (map value_of args.now) (storage_of memory.old) (K.written sink.old))
        (K.written sink.old) (K.written sink.new)
        memory.old.steps (memory.old.steps - memory.new.steps)) }
    ensures took { (t : Tests) → Suits t →
        Took (text_over t checked.now sub (map value_of args.now) (storage_of memory.old) (Some []) memory.old.steps)
        (K.written sink.old) (K.written sink.new) memory.new.text_open }
    ensures stepped { (t : Tests) → Suits t → Stepped memory.old.steps memory.new.steps
        (final (run_over t checked.now sub (map value_of args.now) (storage_of memory.old) memory.old.steps (K.written sink.old))) }
    ensures named { named checked.now memory.new }
    ensures arranged { OnRun result (arranged checked.now memory.new) }
    ensures held { OnReady result (held checked.now memory.new) }
    ensures counts { Counted result (K.faults sink.old) (K.faults sink.new) }
    ensures same_full { K.full sink.new ≡ K.full sink.old }
{
    match run_trees(alloc, checked, memory, sink, sub, args) {
        Ok(x) => Stage::Ready(x),
        Err(Stop::Thrown(x)) => Stage::Uncaught(x),
        Err(Stop::Fault(code, span)) => Stage::Fault(code, span),
        Err(Stop::NoMemory) => Stage::Refused(RunRefused::NoMemory),
        Err(Stop::SinkFault) => Stage::Refused(RunRefused::SinkFault),
        Err(Stop::Stuck(_, _)) => unreachable!(),
    }
}

/// The same, with the answer of the run.
fn run_trees<K: Sink>(
    alloc: Global,
    checked: &Checked,
    memory: &mut Memory,
    sink: &mut K,
    sub: SubId,
    args: &[Value],
) -> Result<Option<Value>, Stop>
    requires callable { (t : Tests) → Suits t → IsCallable t checked.now sub (map value_of args.now) }
    requires arranged { arranged checked.now memory.old }
    requires held { held checked.now memory.old }
    ensures meets { (t : Tests) → Suits t → CallMeets result
        (globals_with t checked.now (storage_of memory.new))
        (record { steps = memory.new.steps; told = K.written sink.new; text_open = memory.new.text_open })
        (run_over t checked.now sub (map value_of args.now) (storage_of memory.old) memory.old.steps (K.written sink.old))
        (GivenUp (text_over t checked.now sub (map value_of args.now) (storage_of memory.old) (K.written sink.old))
        (K.written sink.old) (K.written sink.new)
        memory.old.steps (memory.old.steps - memory.new.steps)) }
    ensures took { (t : Tests) → Suits t →
        Took (text_over t checked.now sub (map value_of args.now) (storage_of memory.old) (Some []) memory.old.steps)
        (K.written sink.old) (K.written sink.new) memory.new.text_open }
    ensures stepped { (t : Tests) → Suits t → Stepped memory.old.steps memory.new.steps
        (final (run_over t checked.now sub (map value_of args.now) (storage_of memory.old) memory.old.steps (K.written sink.old))) }
    ensures named { named checked.now memory.new }
    ensures arranged { IfRan result (arranged checked.now memory.new) }
    ensures held { OnOk result (held checked.now memory.new) }
    ensures counts { Counts result (K.faults sink.old) (K.faults sink.new) }
    ensures same_full { K.full sink.new ≡ K.full sink.old }
{
    let parts = checked.parts();
    let mut run = enter(alloc, memory);
    let (answer, text_open, _sink) = call_noted::<&mut K, Brand>(
        alloc,
        &parts.subs,
        &mut run,
        sink,
        sub.number(),
        args,
    );
    leave(memory, &mut run, text_open);
    answer
}
