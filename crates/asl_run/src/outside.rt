//! Calls from outside a run.
ghost use Rattle.std.specs.Prelude.{◌≡◌, [], map, option_map};
ghost use Rattle.asl_rules.specs.runs.Machines.{most_open};
ghost use Rattle.asl_rules.specs.private.TypedMeaning.{run_with, tree_call};
ghost use Rattle.asl_tree.specs.Funcs.{func_of};
ghost use Rattle.asl_value.specs.View.{value_of};
ghost use Rattle.asl_branches.specs.Meets.{Counts, Runs};
ghost use Rattle.asl_branches.specs.View.{program_of};

use crate::calls::{Called, run_func};
use crate::knot::{eval, exec_all};
use crate::level::Level;
use asl_branches::run::Run;
use asl_branches::setting::Setting;
use asl_branches::stop::{Mistake, Stop};
use asl_io::Sink;
use asl_syn::token::Span;
use asl_tree::act::TreeFunc;
use asl_value::Value;
use sqlite_items::Items;
use std::alloc::Global;

/// The place of a call from outside that finds no subprogram.
const ORIGIN: Span = Span {
    file: 0,
    start: 0,
    len: 0,
};

/// How many nodes may be entered and not left.
#[tactic(auto, unfolding(asl_rules::specs::runs::Machines::most_open))]
fn open_limit() -> u32
    ensures { result ≡ most_open }
{
    2000
}

/// Calls a subprogram that has no parameters, by its number in source order: no limit refuses it, and it enters no node of
/// its own. Gives what the subprogram returns, `None` of a procedure; `Stuck` where there is no such subprogram.
pub fn call<K: Sink>(
    alloc: Global,
    funcs: &Items<TreeFunc>,
    run: &mut Run,
    sink: &mut K,
    id: usize,
    args: &[Value],
) -> Result<Option<Value>, Stop>
    ensures meets { Runs (option_map value_of) result funcs.now most_open
        (tree_call (program_of funcs.now) id (map value_of args.now))
        run.old (K.written sink.old) run.new (K.written sink.new) }
    ensures counts { Counts result (K.faults sink.old) (K.faults sink.new) }
    ensures same_full { K.full sink.new ≡ K.full sink.old }
{
    match funcs.as_slice().get(id) {
        None => Err(Stop::Stuck(Mistake::UnknownName, ORIGIN)),
        Some(func) => {
            let here = Setting {
                alloc,
                funcs,
                depth: open_limit(),
            };
            call_func(here, run, sink, id, func, args)
        }
    }
}

fn call_func<K: Sink>(
    here: Setting,
    run: &mut Run,
    sink: &mut K,
    id: usize,
    func: &TreeFunc,
    args: &[Value],
) -> Result<Option<Value>, Stop>
    ensures meets { Runs (option_map value_of) result here.entry.funcs.now here.entry.depth
        (run_with func.now.span id (func_of func.now) [] (map value_of args.now))
        run.old (K.written sink.old) run.new (K.written sink.new) }
    ensures counts { Counts result (K.faults sink.old) (K.faults sink.new) }
    ensures same_full { K.full sink.new ≡ K.full sink.old }
{
    let below = Level {
        setting: here,
        eval: eval::<K>,
        exec: exec_all::<K>,
    };
    let called = Called {
        span: func.span,
        id,
        func,
    };
    run_func(&below, run, sink, called, Vec::new(here.alloc), args)
}
