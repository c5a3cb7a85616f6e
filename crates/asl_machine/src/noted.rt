//! A call whose sink is noted.
ghost use Rattle.std.specs.Prelude.{◌≡◌, [], Some, map, option_map};
ghost use Rattle.asl_rules.specs.private.TypedMeaning.{tree_call};
ghost use Rattle.asl_rules.specs.runs.Machines.{most_open};
ghost use Rattle.asl_value.specs.View.{value_of};
ghost use Rattle.asl_branches.specs.Meets.{Counts, Runs};
ghost use Rattle.asl_branches.specs.View.{program_of};
ghost use Rattle.asl_machine.specs.private.Calls.{RanNoted};

use asl_noting::{Lent, Noting, Start};
use asl_run::{Run, Stop, call};
use asl_tree::act::TreeFunc;
use asl_value::Value;
use sqlite_items::Items;
use std::alloc::Global;

/// Calls a subprogram as `asl_run` does. Behind the answer stands whether the text that the sink took is open, and the sink.
pub(crate) fn call_noted<W: Lent, S: Start>(
    alloc: Global,
    funcs: &Items<TreeFunc>,
    run: &mut Run,
    sink: W,
    id: usize,
    args: &[Value],
) -> (Result<Option<Value>, Stop>, bool, W)
    requires name { S.name ≡ W.name sink }
    requires told { S.told ≡ W.written sink }
    requires full { S.full ≡ W.full sink }
    ensures meets { RanNoted
        (λ own. Runs (option_map value_of) result.0 funcs.now most_open (tree_call (program_of funcs.now) id (map value_of args.now)) run.old (Some []) run.new own)
        (W.written sink) (W.written result.2) result.1 }
    ensures counts { Counts result.0 (W.faults sink) (W.faults result.2) }
    ensures same { W.name result.2 ≡ W.name sink }
    ensures same_full { W.full result.2 ≡ W.full sink }
{
    let mut noting = Noting::<W, S>::begin(sink);
    let answer = call(alloc, funcs, run, &mut noting, id, args);
    let (text_open, sink) = noting.end();
    (answer, text_open, sink)
}
