//! The writing of texts to the sink.
ghost use Rattle.std.specs.Prelude.{◌≡◌, [], if◌then◌else◌};
ghost use Rattle.asl_rules.specs.report.Texts.{line_feed};
ghost use Rattle.asl_rules.specs.report.Report.{answer};
ghost use Rattle.asl_answer.specs.private.Writes.{Writes, Answers, HasCause};
ghost use Rattle.asl_answer.specs.Statuses.{code_of};

use crate::status::{Status, Stop};
use asl_io::{Sink, put_all};

/// Writes a text.
pub fn put<K: Sink>(out: &mut K, text: &[u8]) -> Result<(), Stop>
    ensures text { Writes result (K.written out.old) (K.written out.new) text.now }
    ensures cause { HasCause result (K.faults out.old) (K.faults out.new) }
    ensures same_full { K.full out.new ≡ K.full out.old }
{
    match put_all(out, text) {
        Ok(()) => Ok(()),
        Err(_) => Err(Stop::Fault),
    }
}

/// Writes a text, and answers a status.
pub fn say<K: Sink>(out: &mut K, text: &[u8], status: Status) -> Result<Status, Stop>
    ensures answer { Answers result (K.written out.old) (K.written out.new) (answer text.now (code_of status)) }
    ensures cause { HasCause result (K.faults out.old) (K.faults out.new) }
    ensures same_full { K.full out.new ≡ K.full out.old }
{
    put(out, text)?;
    Ok(status)
}

/// Closes printed text that is open.
pub fn close<K: Sink>(out: &mut K, is_open: bool) -> Result<(), Stop>
    ensures text { Writes result (K.written out.old) (K.written out.new) (if is_open then line_feed else []) }
    ensures cause { HasCause result (K.faults out.old) (K.faults out.new) }
    ensures same_full { K.full out.new ≡ K.full out.old }
{
    if is_open { put(out, b"\n") } else { Ok(()) }
}
