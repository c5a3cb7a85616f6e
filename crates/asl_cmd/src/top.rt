//! The whole program, over any files and any sink.
ghost use Rattle.std.specs.Prelude.{◌≡◌, ◌<◌, ℕ, ◌⊎◌, List, Some, All, IsTrue, map, string_bytes};
ghost use Rattle.asl_io.specs.Faults.{Rises};
ghost use Rattle.asl_io.specs.Told.{Takes, TakesPrefix};
ghost use Rattle.asl_syn.specs.Command.{usage, names_of};
ghost use Rattle.asl_line.specs.Line.{line_of};
ghost use Rattle.asl_grammar.specs.Reading.{Reader, IsReading};
ghost use Rattle.asl_rules.specs.Tests.{Tests};
ghost use Rattle.asl_types.specs.Suits.{Suits};
ghost use Rattle.asl_rules.specs.report.Report.{report_of};
ghost use Rattle.asl_answer.specs.Statuses.{code_of};

use crate::reading::read_line;
use asl_answer::{Status, Stop, write_answer};
use asl_io::{Files, Sink};
use asl_line::parse;
use std::alloc::Global;

/// Does what the words of the command line ask for, the name of the program first: reads the files that they
/// name, writes the report to the sink and gives its status. Want of memory may be answered at any point. Where the count of
/// the files is greater afterwards, the status is a read fault; where the sink's is, a write fault; at most one of the two grows.
pub fn asl<F: Files, K: Sink>(alloc: Global, words: &[String], files: &mut F, out: &mut K) -> Status
    // Where the files tell their bytes and neither count rose, the status is the report's, and where the sink tells
    // its bytes, the report's text was written; or memory was wanting.
    ensures report { (t : Tests) → Suits t → (read : Reader) → IsReading read → (held : List ℕ → List ℕ) → F.held files.old ≡ Some held
        → (Rises (F.faults files.old) (F.faults files.new) → ⊥) → (Rises (K.faults out.old) (K.faults out.new) → ⊥)
        → (result ≡ Status.NoMemory) ⊎ (let report = report_of t read (line_of (map string_bytes words.now)) held in
        Takes (K.written out.old) (K.written out.new) report.text × (code_of result ≡ report.status)) }

    // So it is after every status but these three, whatever the counts.
    ensures whole { (t : Tests) → Suits t → (read : Reader) → IsReading read → (held : List ℕ → List ℕ) → F.held files.old ≡ Some held
        → (result ≡ Status.ReadFault → ⊥) → (result ≡ Status.WriteFault → ⊥) → (result ≡ Status.NoMemory → ⊥)
        → let report = report_of t read (line_of (map string_bytes words.now)) held in
        Takes (K.written out.old) (K.written out.new) report.text × (code_of result ≡ report.status) }

    // After every status but a read fault, a prefix of the report's text was written; after a read fault, nothing.
    ensures prefix { (t : Tests) → Suits t → (read : Reader) → IsReading read → (held : List ℕ → List ℕ) → F.held files.old ≡ Some held → (result ≡ Status.ReadFault → ⊥)
        → TakesPrefix (K.written out.old) (K.written out.new) (report_of t read (line_of (map string_bytes words.now)) held).text }
    ensures nothing { result ≡ Status.ReadFault → K.written out.new ≡ K.written out.old }

    // The causes that the report doesn't show.
    ensures usage { result ≡ Status.Usage → line_of (map string_bytes words.now) ≡ usage }
    ensures read_fault { result ≡ Status.ReadFault → Rises (F.faults files.old) (F.faults files.new) }
    ensures write_fault { result ≡ Status.WriteFault → Rises (K.faults out.old) (K.faults out.new) }
    ensures sure { All (λ name. IsTrue (F.sure files.old name)) (names_of (line_of (map string_bytes words.now)))
        → result ≡ Status.ReadFault → ⊥ }

    // The first call that fails ends the work, so a count stays unless it is the cause.
    ensures files_stay { (result ≡ Status.ReadFault → ⊥) → F.faults files.new ≡ F.faults files.old }
    ensures sink_stays { (result ≡ Status.WriteFault → ⊥) → K.faults out.new ≡ K.faults out.old }

    // So a count that is greater afterwards tells the status; and one of the two is as it was, whatever the status.
    ensures files_grow { F.faults files.old < F.faults files.new → result ≡ Status.ReadFault }
    ensures sink_grows { K.faults out.old < K.faults out.new → result ≡ Status.WriteFault }
    ensures one_stays { F.faults files.new ≡ F.faults files.old ⊎ K.faults out.new ≡ K.faults out.old }

    ensures same_held { F.held files.new ≡ F.held files.old }
    ensures same_full { K.full out.new ≡ K.full out.old }
{
    let Ok(line) = parse(alloc, words) else {
        return Status::NoMemory;
    };
    let reading = match read_line(alloc, &line, files) {
        Ok(reading) => reading,
        Err(Stop::Fault) => return Status::ReadFault,
        Err(Stop::NoMemory) => return Status::NoMemory,
    };
    match write_answer(alloc, &line, &reading, out) {
        Ok(status) => status,
        Err(Stop::Fault) => Status::WriteFault,
        Err(Stop::NoMemory) => Status::NoMemory,
    }
}
