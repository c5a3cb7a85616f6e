//! The whole program over files and a sink in memory.
ghost use Rattle.std.specs.Prelude.{◌≡◌, ◌<◌, ◌⊎◌, Some, IfOk, length, map, string_bytes};
ghost use Rattle.asl_io.specs.Shelf.{held_of};
ghost use Rattle.asl_line.specs.Line.{line_of};
ghost use Rattle.asl_grammar.specs.Reading.{Reader, IsReading};
ghost use Rattle.asl_rules.specs.Tests.{Tests};
ghost use Rattle.asl_types.specs.Suits.{Suits};
ghost use Rattle.asl_rules.specs.report.Report.{report_of};
ghost use Rattle.asl_answer.specs.Statuses.{code_of};

use crate::top::asl;
use asl_answer::Status;
use asl_io::{MemSink, Sink, SureFiles};
use std::alloc::{AllocError, Global};

/// The greatest piece that the sink takes, in bytes.
const PIECE: usize = 4096;

/// Does what the words ask for over files in memory, into a sink with so much room. Where that is more than the report's
/// text needs, the text is written and its status answered, or memory was wanting.
pub fn asl_in_memory(
    alloc: Global,
    words: &[String],
    held: Vec<(String, Vec<u8>)>,
    room: usize,
) -> Result<(MemSink, Status), AllocError>
    ensures { IfOk result (λ r. (t : Tests) → Suits t → (read : Reader) → IsReading read → length (report_of t read (line_of (map string_bytes words.now)) (held_of held.items)).text < room
        → (r.1 ≡ Status.NoMemory) ⊎ (let report = report_of t read (line_of (map string_bytes words.now)) (held_of held.items) in
        (⟦<MemSink as Sink>⟧.written r.0 ≡ Some report.text) × (code_of r.1 ≡ report.status))) }
{
    let mut files = SureFiles::new(held);
    let mut sink = MemSink::new(alloc, room, PIECE, Vec::new(alloc))?;
    let status = asl(alloc, words, &mut files, &mut sink);
    Ok((sink, status))
}
