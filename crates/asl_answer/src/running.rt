//! The runs of checked programs, and the lines of their ends.
ghost use Rattle.std.specs.Prelude.{◌≡◌, ◌≤◌, ◌++◌, [], Ok, Some, length, map, if◌then◌else◌};
ghost use Rattle.asl_syn.specs.Command.{default_steps};
ghost use Rattle.std.specs.List.{All};
ghost use Rattle.asl_words.specs.Shapes.{IsNamed};
ghost use Rattle.asl_words.specs.declared.TheConstants.{MOST_WORDS};
ghost use Rattle.asl_words.specs.private.Runs.{end_of};
ghost use Rattle.asl_rules.specs.declarations.Programs.{environment};
ghost use Rattle.asl_rules.specs.report.Report.{answer, begun, made_answer, started, worked};
ghost use Rattle.asl_rules.specs.Tests.{Tests};
ghost use Rattle.asl_rules.specs.report.Texts.{global_line, line_feed, value_text};
ghost use Rattle.asl_types.specs.Suits.{Suits};
ghost use Rattle.asl_value.specs.View.{value_of};
ghost use Rattle.asl_machine.specs.Stages.{answer_of};
ghost use Rattle.asl_machine.specs.Storage.{var_of};
ghost use Rattle.asl_answer.specs.private.Ends.{end_line, end_status, globals_ending, made_line, vars_text, where_returned, words_ending, words_line, Starts};
ghost use Rattle.asl_answer.specs.private.Model.{file_of, AreShort};
ghost use Rattle.asl_answer.specs.private.Writes.{Writes, Answers, HasCause};
ghost use Rattle.asl_answer.specs.Statuses.{code_of};

use crate::status::{Status, Stop};
use crate::texts::{done_text, dynamic_text};
use crate::writing::{close, put, say};
use asl_io::Sink;
use asl_machine::{GlobalVar, Machine, Outcome, RunRefused};
use asl_syn::place::Source;
use asl_tree::Checked;
use asl_value::{Value, show};
use asl_words::{ExecEnd, Word, exec};
use std::alloc::Global;

/// The steps of a run where no number is given.
const DEFAULT_STEPS: u32 = 1_000_000;

/// Writes a value.
fn put_value<K: Sink>(out: &mut K, value: &Value) -> Result<(), Stop>
    ensures text { Writes result (K.written out.old) (K.written out.new) (value_text (value_of value.now)) }
    ensures cause { HasCause result (K.faults out.old) (K.faults out.new) }
    ensures same_full { K.full out.new ≡ K.full out.old }
{
    match show(value, out) {
        Ok(()) => Ok(()),
        Err(_) => Err(Stop::Fault),
    }
}

/// Writes a line of a word and a value, and answers a status.
fn say_value<K: Sink>(
    out: &mut K,
    word: &[u8],
    value: &Value,
    status: Status,
) -> Result<Status, Stop>
    ensures answer { Answers result (K.written out.old) (K.written out.new) (answer (word.now ++ (value_text (value_of value.now) ++ line_feed)) (code_of status)) }
    ensures cause { HasCause result (K.faults out.old) (K.faults out.new) }
    ensures same_full { K.full out.new ≡ K.full out.old }
{
    put(out, word)?;
    put_value(out, value)?;
    say(out, b"\n", status)
}

/// Writes the line of a run's end, and answers its status.
fn say_end<K: Sink>(
    alloc: Global,
    sources: &[Source],
    machine: &Machine,
    outcome: Outcome,
    out: &mut K,
) -> Result<Status, Stop>
    requires short { AreShort sources.now }
    requires ended { answer_of machine.now.stage ≡ Ok outcome }
    ensures answer { Answers result (K.written out.old) (K.written out.new) (answer (end_line (map file_of sources.now) machine.now.stage) (end_status machine.now.stage)) }
    ensures cause { HasCause result (K.faults out.old) (K.faults out.new) }
    ensures same_full { K.full out.new ≡ K.full out.old }
{
    match outcome {
        Outcome::Returned => match machine.returned() {
            Some(value) => say_value(out, b"returned ", value, Status::Done),
            None => Ok(Status::Done),
        },
        Outcome::Uncaught => match machine.uncaught() {
            Some(value) => say_value(out, b"uncaught ", value, Status::Uncaught),
            None => unreachable!(),
        },
        Outcome::Fault(code, span) => {
            let text = dynamic_text(alloc, sources, code, span)?;
            say(out, text.as_bytes(), Status::Dynamic)
        }
    }
}

/// The name of a global.
fn name_of(global: &GlobalVar) -> &[u8]
    ensures { result.now ≡ global.now.name }
{
    global.name.get().as_slice()
}

/// Writes the line of a global: its name and its value.
fn put_global<K: Sink>(out: &mut K, global: &GlobalVar) -> Result<(), Stop>
    ensures text { Writes result (K.written out.old) (K.written out.new) (global_line global.now.name (value_of global.now.value)) }
    ensures cause { HasCause result (K.faults out.old) (K.faults out.new) }
    ensures same_full { K.full out.new ≡ K.full out.old }
{
    put(out, name_of(global))?;
    put(out, b" = ")?;
    put_value(out, &global.value)?;
    put(out, b"\n")
}

/// Writes a line for each global, in order.
fn put_globals<K: Sink>(out: &mut K, globals: &[GlobalVar]) -> Result<(), Stop>
    ensures text { Writes result (K.written out.old) (K.written out.new) (vars_text (map var_of globals.now)) }
    ensures cause { HasCause result (K.faults out.old) (K.faults out.new) }
    ensures same_full { K.full out.new ≡ K.full out.old }
{
    for global in globals {
        put_global(out, global)?;
    }
    Ok(())
}

/// Writes the line of a run's end and those of the globals, and answers its status.
fn say_ending<K: Sink>(
    alloc: Global,
    sources: &[Source],
    machine: &Machine,
    outcome: Outcome,
    out: &mut K,
) -> Result<Status, Stop>
    requires short { AreShort sources.now }
    requires ended { answer_of machine.now.stage ≡ Ok outcome }
    ensures answer { (t : Tests) → Suits t → Answers result (K.written out.old) (K.written out.new) (answer (globals_ending t (map file_of sources.now) machine.now) (end_status machine.now.stage)) }
    ensures cause { HasCause result (K.faults out.old) (K.faults out.new) }
    ensures same_full { K.full out.new ≡ K.full out.old }
{
    let status = say_end(alloc, sources, machine, outcome, out)?;
    put_globals(out, machine.globals())?;
    Ok(status)
}

/// Closes the printed text of a run where it is open, and writes the lines of its end.
fn finish<K: Sink>(
    alloc: Global,
    sources: &[Source],
    machine: &Machine,
    outcome: Outcome,
    out: &mut K,
) -> Result<Status, Stop>
    requires short { AreShort sources.now }
    requires ended { answer_of machine.now.stage ≡ Ok outcome }
    ensures answer { (t : Tests) → Suits t → Answers result (K.written out.old) (K.written out.new) (answer ((if machine.now.text_open then line_feed else []) ++ globals_ending t (map file_of sources.now) machine.now) (end_status machine.now.stage)) }
    ensures cause { HasCause result (K.faults out.old) (K.faults out.new) }
    ensures same_full { K.full out.new ≡ K.full out.old }
{
    close(out, machine.text_open())?;
    say_ending(alloc, sources, machine, outcome, out)
}

/// Runs a program from its entry with so many steps: its printed text goes to the sink as it comes, and then the lines
/// of its end.
pub fn run_program<K: Sink>(
    alloc: Global,
    sources: &[Source],
    checked: Checked,
    steps: u32,
    out: &mut K,
) -> Result<Status, Stop>
    requires short { AreShort sources.now }
    requires accepted { (t : Tests) → Suits t → Starts t checked }
    ensures answer { (t : Tests) → Suits t → Answers result (K.written out.old) (K.written out.new) (started (map file_of sources.now) (environment t checked.decls) steps checked.entries) }
    ensures cause { HasCause result (K.faults out.old) (K.faults out.new) }
    ensures same_full { K.full out.new ≡ K.full out.old }
{
    let Some(main) = checked.entry() else {
        return Ok(Status::Done);
    };
    let mut machine = Machine::new(alloc, checked, u64::from(steps))?;
    match machine.call(alloc, main, Vec::new(alloc), out) {
        Ok(outcome) => finish(alloc, sources, &machine, outcome, out),
        Err(RunRefused::SinkFault) => Err(Stop::Fault),
        Err(RunRefused::NoMemory) => Err(Stop::NoMemory),
    }
}

/// Writes the line of the end of a run over words, and answers its status.
fn say_words_end<K: Sink>(
    alloc: Global,
    sources: &[Source],
    machine: &Machine,
    end: ExecEnd,
    count: usize,
    out: &mut K,
) -> Result<Status, Stop>
    requires short { AreShort sources.now }
    requires ended { end_of count machine.now.stage ≡ Some end }
    ensures answer { Answers result (K.written out.old) (K.written out.new) (answer (words_line (map file_of sources.now) count machine.now.stage) (end_status machine.now.stage)) }
    ensures cause { HasCause result (K.faults out.old) (K.faults out.new) }
    ensures same_full { K.full out.new ≡ K.full out.old }
{
    match end {
        ExecEnd::Done(words) => {
            let text = done_text(alloc, words)?;
            say(out, text.as_bytes(), Status::Done)
        }
        ExecEnd::Uncaught => match machine.uncaught() {
            Some(value) => say_value(out, b"uncaught ", value, Status::Uncaught),
            None => unreachable!(),
        },
        ExecEnd::Fault(code, span) => {
            let text = dynamic_text(alloc, sources, code, span)?;
            say(out, text.as_bytes(), Status::Dynamic)
        }
    }
}

/// Closes the printed text of a run over words where it is open, and writes the line of its end and those of the globals.
fn finish_words<K: Sink>(
    alloc: Global,
    sources: &[Source],
    machine: &Machine,
    end: ExecEnd,
    count: usize,
    out: &mut K,
) -> Result<Status, Stop>
    requires short { AreShort sources.now }
    requires ended { end_of count machine.now.stage ≡ Some end }
    ensures answer { (t : Tests) → Suits t → Answers result (K.written out.old) (K.written out.new) (answer ((if machine.now.text_open then line_feed else []) ++ words_ending t (map file_of sources.now) count machine.now) (end_status machine.now.stage)) }
    ensures cause { HasCause result (K.faults out.old) (K.faults out.new) }
    ensures same_full { K.full out.new ≡ K.full out.old }
{
    close(out, machine.text_open())?;
    let status = say_words_end(alloc, sources, machine, end, count, out)?;
    put_globals(out, machine.globals())?;
    Ok(status)
}

/// Runs a program from the entry of each of the words with so many steps: the lines of the words and the printed text go to the sink as
/// they come, and then the lines of its end.
pub fn exec_program<K: Sink>(
    alloc: Global,
    sources: &[Source],
    checked: Checked,
    steps: u32,
    words: &[Word],
    out: &mut K,
) -> Result<Status, Stop>
    requires short { AreShort sources.now }
    requires named { All (IsNamed checked.asked) words.now }
    requires few { length words.now ≤ MOST_WORDS }
    ensures answer { (t : Tests) → Suits t → Answers result (K.written out.old) (K.written out.new) (worked (map file_of sources.now) (environment t checked.decls) steps words.now checked.entries) }
    ensures cause { HasCause result (K.faults out.old) (K.faults out.new) }
    ensures same_full { K.full out.new ≡ K.full out.old }
{
    let mut machine = Machine::new(alloc, checked, u64::from(steps))?;
    match exec(alloc, &mut machine, words, out) {
        Ok(end) => finish_words(alloc, sources, &machine, end, words.len(), out),
        Err(RunRefused::SinkFault) => Err(Stop::Fault),
        Err(RunRefused::NoMemory) => Err(Stop::NoMemory),
    }
}

/// Writes these words where a run returned.
fn put_where_returned<K: Sink>(out: &mut K, words: &[u8], outcome: Outcome) -> Result<(), Stop>
    ensures text { Writes result (K.written out.old) (K.written out.new) (where_returned words.now outcome) }
    ensures cause { HasCause result (K.faults out.old) (K.faults out.new) }
    ensures same_full { K.full out.new ≡ K.full out.old }
{
    match outcome {
        Outcome::Returned => put(out, words),
        Outcome::Uncaught => Ok(()),
        Outcome::Fault(_, _) => Ok(()),
    }
}

/// Closes the printed text of the run of a made text where it is open, and writes the line of its end: where the run returned, these words
/// stand before the value.
fn finish_made<K: Sink>(
    alloc: Global,
    sources: &[Source],
    machine: &Machine,
    outcome: Outcome,
    words: &[u8],
    out: &mut K,
) -> Result<Status, Stop>
    requires short { AreShort sources.now }
    requires ended { answer_of machine.now.stage ≡ Ok outcome }
    ensures answer { Answers result (K.written out.old) (K.written out.new) (answer ((if machine.now.text_open then line_feed else []) ++ made_line words.now (map file_of sources.now) machine.now.stage) (end_status machine.now.stage)) }
    ensures cause { HasCause result (K.faults out.old) (K.faults out.new) }
    ensures same_full { K.full out.new ≡ K.full out.old }
{
    close(out, machine.text_open())?;
    put_where_returned(out, words, outcome)?;
    say_end(alloc, sources, machine, outcome, out)
}

/// Runs a program that was made from its entry, and writes its printed text and the line of its end: where it returned, these words stand
/// before the value.
pub fn run_made<K: Sink>(
    alloc: Global,
    sources: &[Source],
    checked: Checked,
    words: &[u8],
    out: &mut K,
) -> Result<Status, Stop>
    requires short { AreShort sources.now }
    requires accepted { (t : Tests) → Suits t → Starts t checked }
    ensures answer { (t : Tests) → Suits t → Answers result (K.written out.old) (K.written out.new) (begun (made_answer words.now (map file_of sources.now)) (environment t checked.decls) default_steps checked.entries.main) }
    ensures cause { HasCause result (K.faults out.old) (K.faults out.new) }
    ensures same_full { K.full out.new ≡ K.full out.old }
{
    let Some(main) = checked.entry() else {
        return Ok(Status::Done);
    };
    let mut machine = Machine::new(alloc, checked, u64::from(DEFAULT_STEPS))?;
    match machine.call(alloc, main, Vec::new(alloc), out) {
        Ok(outcome) => finish_made(alloc, sources, &machine, outcome, words, out),
        Err(RunRefused::SinkFault) => Err(Stop::Fault),
        Err(RunRefused::NoMemory) => Err(Stop::NoMemory),
    }
}
