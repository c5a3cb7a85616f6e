//! A machine that is called again.
use crate::machines::{call_main, machine_of};
use asl_io::MemSink;
use asl_machine::{Machine, Outcome, RunRefused};
use std::alloc::Global;

/// It prints -4 and 1, each with a line feed, and then divides by what doesn't divide.
const PRINTS: &[u8] =
    b"func main() => integer begin println((-7) DIVRM 2); println((-7) MOD 2); return 7 DIV 2; end;\n";

/// How many bytes the sink takes in all, and in a call.
const ROOM: usize = 64;

const PIECE: usize = 1;

/// The call on the sink that fails.
const FAILS: u64 = 2;

fn is_sink_fault(answer: Option<Result<Outcome, RunRefused>>) -> bool {
    answer == Some(Err(RunRefused::SinkFault))
}

/// Whether the sink took the first byte of an item alone, and the machine says that this is open text.
fn holds_open_text(machine: &Machine, sink: &MemSink) -> bool {
    sink.bytes() == b"-".as_slice() && machine.text_open()
}

/// Whether the first of two calls of `main` ends where the sink fails, and the second, in which the sink would not fail, gives the
/// same answer and writes nothing. After both, the text that the sink took is open.
fn repeats_its_answer(alloc: Global) -> Option<bool> {
    let mut machine = machine_of(alloc, PRINTS)?;
    let mut fails = Vec::new(alloc);
    fails.push(FAILS).ok()?;
    let mut sink = MemSink::new(alloc, ROOM, PIECE, fails).ok()?;
    let is_cut = is_sink_fault(call_main(alloc, &mut machine, &mut sink))
        && holds_open_text(&machine, &sink);
    let again = is_sink_fault(call_main(alloc, &mut machine, &mut sink));
    Some(is_cut && again && holds_open_text(&machine, &sink))
}

#[test]
fn a_machine_whose_sink_failed_is_called_again(rt: HostRuntime) {
    assert!(rt; repeats_its_answer(rt.alloc()) == Some(true));
}
