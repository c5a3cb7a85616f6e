//! The writing of answers.
ghost use Rattle.std.specs.Prelude.{◌≡◌, ◌≤◌, [], ◌∷◌, length, map};
ghost use Rattle.asl_line.specs.private.Model.{meaning_of, HasSize};
ghost use Rattle.std.specs.List.{All};
ghost use Rattle.asl_words.specs.Shapes.{HasShape};
ghost use Rattle.asl_words.specs.declared.TheConstants.{MOST_WORDS};
ghost use Rattle.asl_rules.specs.private.Grown.{AreReadGrown};
ghost use Rattle.asl_rules.specs.Tests.{Tests};
ghost use Rattle.asl_types.specs.Suits.{Suits};
ghost use Rattle.asl_rules.specs.report.Made.{made_text};
ghost use Rattle.asl_rules.specs.report.Texts.{fault_line};
ghost use Rattle.asl_grammar.specs.Reading.{Reader, IsReading};
ghost use Rattle.asl_rules.specs.report.Report.{answer, on_check, on_made, on_masks, on_run, on_words};
ghost use Rattle.asl_answer.specs.private.Model.{came_in, file_of, AreShort, IsShort};
ghost use Rattle.asl_answer.specs.private.Report.{answer_of, answer_on_files, check_answer, exec_answer, list_answer, made_answer, masks_answer, run_answer, self_answer};
ghost use Rattle.asl_answer.specs.private.Writes.{Answers, HasCause};

use crate::masks::say_tables;
use crate::reading::Reading;
use crate::running::{exec_program, run_made, run_program};
use crate::status::{Status, Stop};
use crate::texts::{accepted_text, fault_text, list_fault_text, long_text, made_words};
use crate::writing::say;
use asl_check::check;
use asl_gen::program;
use asl_io::Sink;
use asl_line::Line;
use asl_parse::parse;
use asl_rules::entry::Entry;
use asl_syn::code::{Fault, Refused};
use asl_syn::place::Source;
use asl_syn::read::ReadProgram;
use asl_table::tables;
use asl_words::{Word, WordFault, read_words, wanted};
use std::alloc::Global;

/// Writes the one fault of the files.
fn refuse<K: Sink>(
    alloc: Global,
    sources: &[Source],
    fault: &Fault,
    out: &mut K,
) -> Result<Status, Stop>
    requires { AreShort sources.now }
    ensures answer { Answers result (K.written out.old) (K.written out.new) (answer (fault_line (map file_of sources.now) fault.now) 1) }
    ensures cause { HasCause result (K.faults out.old) (K.faults out.new) }
    ensures same_full { K.full out.new ≡ K.full out.old }
{
    let text = fault_text(alloc, sources, fault)?;
    say(out, text.as_bytes(), Status::Refused)
}

/// Checks a program without an entry, and writes the answer.
fn check_program<K: Sink>(
    alloc: Global,
    sources: &[Source],
    program: ReadProgram,
    out: &mut K,
) -> Result<Status, Stop>
    requires short { AreShort sources.now }
    requires grown { AreReadGrown program.decls }
    ensures answer { (t : Tests) → Suits t → Answers result (K.written out.old) (K.written out.new) (on_check t (map file_of sources.now) program.decls) }
    ensures cause { HasCause result (K.faults out.old) (K.faults out.new) }
    ensures same_full { K.full out.new ≡ K.full out.old }
{
    let declarations = program.decls.len();
    match check(alloc, program, Entry::None) {
        Ok(_) => {
            let text = accepted_text(alloc, declarations)?;
            say(out, text.as_bytes(), Status::Done)
        }
        Err(Refused::At(fault)) => refuse(alloc, sources, &fault, out),
        Err(Refused::NoMemory) => Err(Stop::NoMemory),
    }
}

/// Checks a program with the entry `main`, runs it with so many steps, and writes the answer.
fn check_and_run<K: Sink>(
    alloc: Global,
    sources: &[Source],
    program: ReadProgram,
    steps: u32,
    out: &mut K,
) -> Result<Status, Stop>
    requires short { AreShort sources.now }
    requires grown { AreReadGrown program.decls }
    ensures answer { (t : Tests) → Suits t → Answers result (K.written out.old) (K.written out.new) (on_run t steps (map file_of sources.now) program.decls) }
    ensures cause { HasCause result (K.faults out.old) (K.faults out.new) }
    ensures same_full { K.full out.new ≡ K.full out.old }
{
    match check(alloc, program, Entry::Main) {
        Ok(checked) => run_program(alloc, sources, checked, steps, out),
        Err(Refused::At(fault)) => refuse(alloc, sources, &fault, out),
        Err(Refused::NoMemory) => Err(Stop::NoMemory),
    }
}

/// Checks a program with the entries that the words need, runs it on the words with so many steps, and writes the answer.
fn check_and_exec<K: Sink>(
    alloc: Global,
    sources: &[Source],
    program: ReadProgram,
    steps: u32,
    words: &[Word],
    out: &mut K,
) -> Result<Status, Stop>
    requires short { AreShort sources.now }
    requires grown { AreReadGrown program.decls }
    requires shapes { All HasShape words.now }
    requires few { length words.now ≤ MOST_WORDS }
    ensures answer { (t : Tests) → Suits t → Answers result (K.written out.old) (K.written out.new) (on_words t steps words.now (map file_of sources.now) program.decls) }
    ensures cause { HasCause result (K.faults out.old) (K.faults out.new) }
    ensures same_full { K.full out.new ≡ K.full out.old }
{
    match check(alloc, program, wanted(words)) {
        Ok(checked) => exec_program(alloc, sources, checked, steps, words, out),
        Err(Refused::At(fault)) => refuse(alloc, sources, &fault, out),
        Err(Refused::NoMemory) => Err(Stop::NoMemory),
    }
}

/// Checks a program that was made of this number and this size with the entry `main`, runs it, and writes the answer.
fn check_made<K: Sink>(
    alloc: Global,
    number: u32,
    size: u32,
    source: &Source,
    program: ReadProgram,
    out: &mut K,
) -> Result<Status, Stop>
    requires short { AreShort (source.now ∷ []) }
    requires grown { AreReadGrown program.decls }
    ensures answer { (t : Tests) → Suits t → Answers result (K.written out.old) (K.written out.new) (on_made t number size source.now.bytes.items (file_of source.now ∷ []) program.decls) }
    ensures cause { HasCause result (K.faults out.old) (K.faults out.new) }
    ensures same_full { K.full out.new ≡ K.full out.old }
{
    let sources = std::slice::from_ref(source);
    let declarations = program.decls.len();
    match check(alloc, program, Entry::Main) {
        Ok(checked) => {
            let words = made_words(alloc, number, size, source.bytes.len(), declarations)?;
            run_made(alloc, sources, checked, words.as_bytes(), out)
        }
        Err(Refused::At(fault)) => refuse(alloc, sources, &fault, out),
        Err(Refused::NoMemory) => Err(Stop::NoMemory),
    }
}

/// Makes the tables of the masks of a program, checks it without an entry, and writes the lines of the tables, where the search for a
/// word that no mask of a table matches splits at most `budget` times.
fn check_and_show<K: Sink>(
    alloc: Global,
    sources: &[Source],
    program: ReadProgram,
    budget: u32,
    out: &mut K,
) -> Result<Status, Stop>
    requires short { AreShort sources.now }
    requires grown { AreReadGrown program.decls }
    ensures answer { (t : Tests) → Suits t → Answers result (K.written out.old) (K.written out.new) (on_masks t budget (map file_of sources.now) program.decls) }
    ensures cause { HasCause result (K.faults out.old) (K.faults out.new) }
    ensures same_full { K.full out.new ≡ K.full out.old }
{
    let tables = tables(alloc, &program)?;
    match check(alloc, program, Entry::None) {
        Ok(_) => say_tables(alloc, sources, tables.as_slice(), budget, out),
        Err(Refused::At(fault)) => refuse(alloc, sources, &fault, out),
        Err(Refused::NoMemory) => Err(Stop::NoMemory),
    }
}

/// Checks the files without an entry, and writes the answer.
#[tactic(auto, using(crate::proofs::Grown::grown))]
fn check_files<K: Sink>(alloc: Global, sources: &[Source], out: &mut K) -> Result<Status, Stop>
    requires few { length sources.now ≤ 64 }
    requires short { AreShort sources.now }
    ensures answer { (t : Tests) → Suits t → (read : Reader) → IsReading read → Answers result (K.written out.old) (K.written out.new) (check_answer t read (map file_of sources.now)) }
    ensures cause { HasCause result (K.faults out.old) (K.faults out.new) }
    ensures same_full { K.full out.new ≡ K.full out.old }
{
    match parse(alloc, sources) {
        Ok(program) => check_program(alloc, sources, program, out),
        Err(Refused::At(fault)) => refuse(alloc, sources, &fault, out),
        Err(Refused::NoMemory) => Err(Stop::NoMemory),
    }
}

/// Checks the files with the entry `main`, runs them with so many steps, and writes the answer.
#[tactic(auto, using(crate::proofs::Grown::grown))]
fn run_files<K: Sink>(
    alloc: Global,
    sources: &[Source],
    steps: u32,
    out: &mut K,
) -> Result<Status, Stop>
    requires few { length sources.now ≤ 64 }
    requires short { AreShort sources.now }
    ensures answer { (t : Tests) → Suits t → (read : Reader) → IsReading read → Answers result (K.written out.old) (K.written out.new) (run_answer t read steps (map file_of sources.now)) }
    ensures cause { HasCause result (K.faults out.old) (K.faults out.new) }
    ensures same_full { K.full out.new ≡ K.full out.old }
{
    match parse(alloc, sources) {
        Ok(program) => check_and_run(alloc, sources, program, steps, out),
        Err(Refused::At(fault)) => refuse(alloc, sources, &fault, out),
        Err(Refused::NoMemory) => Err(Stop::NoMemory),
    }
}

/// Checks the files with the entries that the words need, runs them on the words with so many steps, and writes the answer.
#[tactic(auto, using(crate::proofs::Grown::grown))]
fn exec_files<K: Sink>(
    alloc: Global,
    sources: &[Source],
    steps: u32,
    words: &[Word],
    out: &mut K,
) -> Result<Status, Stop>
    requires few { length sources.now ≤ 64 }
    requires short { AreShort sources.now }
    requires shapes { All HasShape words.now }
    requires few_words { length words.now ≤ MOST_WORDS }
    ensures answer { (t : Tests) → Suits t → (read : Reader) → IsReading read → Answers result (K.written out.old) (K.written out.new) (exec_answer t read steps words.now (map file_of sources.now)) }
    ensures cause { HasCause result (K.faults out.old) (K.faults out.new) }
    ensures same_full { K.full out.new ≡ K.full out.old }
{
    match parse(alloc, sources) {
        Ok(program) => check_and_exec(alloc, sources, program, steps, words, out),
        Err(Refused::At(fault)) => refuse(alloc, sources, &fault, out),
        Err(Refused::NoMemory) => Err(Stop::NoMemory),
    }
}

/// Checks the files without an entry, and writes the lines of the tables of their masks, where the search for a word that no mask of a
/// table matches splits at most `budget` times.
#[tactic(auto, using(crate::proofs::Grown::grown))]
fn masks_files<K: Sink>(
    alloc: Global,
    sources: &[Source],
    budget: u32,
    out: &mut K,
) -> Result<Status, Stop>
    requires few { length sources.now ≤ 64 }
    requires short { AreShort sources.now }
    ensures answer { (t : Tests) → Suits t → (read : Reader) → IsReading read → Answers result (K.written out.old) (K.written out.new) (masks_answer t read budget (map file_of sources.now)) }
    ensures cause { HasCause result (K.faults out.old) (K.faults out.new) }
    ensures same_full { K.full out.new ≡ K.full out.old }
{
    match parse(alloc, sources) {
        Ok(program) => check_and_show(alloc, sources, program, budget, out),
        Err(Refused::At(fault)) => refuse(alloc, sources, &fault, out),
        Err(Refused::NoMemory) => Err(Stop::NoMemory),
    }
}

/// Reads the words of the list, runs the files on them, and writes the answer.
fn exec_list<K: Sink>(
    alloc: Global,
    sources: &[Source],
    steps: u32,
    list: &str,
    bytes: &[u8],
    out: &mut K,
) -> Result<Status, Stop>
    requires few { length sources.now ≤ 64 }
    requires short { AreShort sources.now }
    ensures answer { (t : Tests) → Suits t → (read : Reader) → IsReading read → Answers result (K.written out.old) (K.written out.new) (list_answer t read steps list.now (map file_of sources.now) bytes.now) }
    ensures cause { HasCause result (K.faults out.old) (K.faults out.new) }
    ensures same_full { K.full out.new ≡ K.full out.old }
{
    match read_words(alloc, bytes) {
        Ok(words) => exec_files(alloc, sources, steps, words.as_slice(), out),
        Err(WordFault::NoMemory) => Err(Stop::NoMemory),
        Err(fault) => {
            let text = list_fault_text(alloc, list, fault)?;
            say(out, text.as_bytes(), Status::Refused)
        }
    }
}

/// Makes the text of this number and this size, checks it, runs it, and writes the answer.
#[tactic(auto, using(crate::proofs::Grown::grown))]
fn make_and_run<K: Sink>(alloc: Global, number: u32, size: u32, out: &mut K) -> Result<Status, Stop>
    requires some { 1 ≤ size }
    requires few { size ≤ 2000 }
    ensures answer { (t : Tests) → Suits t → (read : Reader) → IsReading read → Answers result (K.written out.old) (K.written out.new) (self_answer t read number size (made_text number size)) }
    ensures cause { HasCause result (K.faults out.old) (K.faults out.new) }
    ensures same_full { K.full out.new ≡ K.full out.old }
{
    let bytes = program(alloc, number, size)?;
    let name = String::from_str(alloc, "self")?;
    let source = Source { name, bytes };
    match parse(alloc, std::slice::from_ref(&source)) {
        Ok(program) => check_made(alloc, number, size, &source, program, out),
        Err(Refused::At(fault)) => refuse(alloc, std::slice::from_ref(&source), &fault, out),
        Err(Refused::NoMemory) => Err(Stop::NoMemory),
    }
}

/// Writes the answer for source files and the bytes of a word list that were read.
#[tactic(auto, unfolding(crate::specs::private::Report::answer_on_files))]
fn answer_files<K: Sink>(
    alloc: Global,
    line: &Line,
    sources: &[Source],
    list: &[u8],
    out: &mut K,
) -> Result<Status, Stop>
    requires few { length sources.now ≤ 64 }
    requires short { AreShort sources.now }
    requires size { HasSize line.now }
    ensures answer { (t : Tests) → Suits t → (read : Reader) → IsReading read → Answers result (K.written out.old) (K.written out.new) (answer_on_files t read (meaning_of line.now) (map file_of sources.now) list.now) }
    ensures cause { HasCause result (K.faults out.old) (K.faults out.new) }
    ensures same_full { K.full out.new ≡ K.full out.old }
{
    match line {
        Line::Usage => say(
            out,
            b"usage: asl check FILE.. | asl run [--steps N] FILE.. | asl exec [--steps N] --words W FILE.. | asl self NUMBER SIZE | asl masks [--budget N] FILE..\n",
            Status::Usage,
        ),
        Line::Check { .. } => check_files(alloc, sources, out),
        Line::Run { steps, .. } => run_files(alloc, sources, *steps, out),
        Line::Exec {
            steps,
            list: name,
            ..
        } => exec_list(alloc, sources, *steps, name.as_str(), list, out),
        Line::Generate { number, size } => make_and_run(alloc, *number, *size, out),
        Line::Masks { budget, .. } => masks_files(alloc, sources, *budget, out),
    }
}

/// Writes the answer for what came of the reading.
pub fn write_answer<K: Sink>(
    alloc: Global,
    line: &Line,
    reading: &Reading,
    out: &mut K,
) -> Result<Status, Stop>
    requires short { IsShort reading.now }
    requires size { HasSize line.now }
    ensures answer { (t : Tests) → Suits t → (read : Reader) → IsReading read → Answers result (K.written out.old) (K.written out.new) (answer_of t read (meaning_of line.now) (came_in reading.now)) }
    ensures cause { HasCause result (K.faults out.old) (K.faults out.new) }
    ensures same_full { K.full out.new ≡ K.full out.old }
{
    match reading {
        Reading::All(sources, list) => {
            answer_files(alloc, line, sources.as_slice(), list.as_slice(), out)
        }
        Reading::Long(name) => {
            let text = long_text(alloc, name.as_str())?;
            say(out, text.as_bytes(), Status::Refused)
        }
        Reading::Many => say(out, b"M02\n", Status::Refused),
    }
}
