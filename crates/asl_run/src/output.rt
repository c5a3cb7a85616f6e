//! What a run writes.
ghost use Rattle.std.specs.Prelude.{◌≡◌, ◌≢◌, ◌≤◌, ◌<◌, ◌++◌, ℕ, drop, length, slice_index, take};
ghost use Rattle.asl_rules.specs.values.Strings.{escaped as written_behind, string_text, unescaped};
ghost use Rattle.asl_rules.specs.report.Texts.{value_text};
ghost use Rattle.asl_rules.specs.runs.Told.{open_after};
ghost use Rattle.asl_value.specs.View.{value_of};
ghost use Rattle.asl_branches.specs.Meets.{Counts, Writes};
ghost use Rattle.asl_run.specs.private.Pieces.{piece_text};

use asl_branches::stop::Stop;
use asl_io::{Sink, put_all};
use asl_value::{Value, leaves_open, show};

/// Whether text is open once these bytes are written: it isn't empty and doesn't end in a line feed.
#[tactic(auto, using(asl_value::proofs::Endings::open_end))]
fn is_open(before: bool, bytes: &[u8]) -> bool
    ensures { result ≡ open_after before bytes.now }
{
    if bytes.is_empty() {
        before
    } else {
        bytes[bytes.len() - 1] != b'\n'
    }
}

/// Writes bytes.
pub fn put<K: Sink>(text_open: &mut bool, sink: &mut K, bytes: &[u8]) -> Result<(), Stop>
    ensures writes { Writes result bytes.now
        text_open.old (K.written sink.old) text_open.new (K.written sink.new) }
    ensures counts { Counts result (K.faults sink.old) (K.faults sink.new) }
    ensures same_full { K.full sink.new ≡ K.full sink.old }
{
    put_all(sink, bytes)?;
    *text_open = is_open(*text_open, bytes);
    Ok(())
}

/// Writes a value.
pub fn put_value<K: Sink>(text_open: &mut bool, sink: &mut K, value: &Value) -> Result<(), Stop>
    ensures writes { Writes result (value_text (value_of value.now))
        text_open.old (K.written sink.old) text_open.new (K.written sink.new) }
    ensures counts { Counts result (K.faults sink.old) (K.faults sink.new) }
    ensures same_full { K.full sink.new ≡ K.full sink.old }
{
    show(value, sink)?;
    *text_open = leaves_open(*text_open, value);
    Ok(())
}

/// The byte that is written behind a backslash.
fn escaped(b: u8) -> u8
    ensures { result ≡ written_behind b }
{
    match b {
        b'n' => b'\n',
        b't' => b'\t',
        _ => b,
    }
}

/// How many bytes stand in front of a backslash or of the closing quote.
fn plain_length(text: &[u8]) -> usize
    requires { 1 < length text.now }
    ensures within { result < length text.now }
    ensures plain { (k : ℕ) → k < result → slice_index text.now k ≢ 92 }
    ensures some { slice_index text.now 0 ≢ 92 → 0 < result }
{
    for (i, b) in text.iter().enumerate() {
        if *b == b'\\' {
            return i;
        }
    }
    text.len() - 1
}

/// How many bytes the first piece of a text has: an escape has two, and what has no escape ends in front of the next
/// one or of the closing quote.
#[tactic(auto, using(crate::proofs::Pieces::splits_escape, crate::proofs::Pieces::splits_plain))]
fn piece_length(text: &[u8]) -> usize
    requires { 1 < length text.now }
    ensures within { result ≤ length text.now }
    ensures some { 0 < result }
    ensures splits { unescaped text.now ≡ piece_text (take result text.now) ++ unescaped (drop result text.now) }
{
    if text[0] == b'\\' {
        2
    } else {
        plain_length(text)
    }
}

/// Writes what a piece stands for.
fn put_piece<K: Sink>(text_open: &mut bool, sink: &mut K, piece: &[u8]) -> Result<(), Stop>
    ensures writes { Writes result (piece_text piece.now)
        text_open.old (K.written sink.old) text_open.new (K.written sink.new) }
    ensures counts { Counts result (K.faults sink.old) (K.faults sink.new) }
    ensures same_full { K.full sink.new ≡ K.full sink.old }
{
    if piece.len() > 1 && piece[0] == b'\\' {
        put(text_open, sink, &[escaped(piece[1])])
    } else {
        put(text_open, sink, piece)
    }
}

/// Writes the bytes that a string stands for, whose text has its quotes.
#[tactic(auto, using(crate::proofs::Pieces::front_more))]
pub fn put_string<K: Sink>(text_open: &mut bool, sink: &mut K, text: &[u8]) -> Result<(), Stop>
    ensures writes { Writes result (string_text text.now)
        text_open.old (K.written sink.old) text_open.new (K.written sink.new) }
    ensures counts { Counts result (K.faults sink.old) (K.faults sink.new) }
    ensures same_full { K.full sink.new ≡ K.full sink.old }
{
    if text.is_empty() {
        return Ok(());
    }
    let (_, mut rest) = text.split_at(1);
    while rest.len() > 1 {
        let (piece, more) = rest.split_at(piece_length(rest));
        put_piece(text_open, sink, piece)?;
        rest = more;
    }
    Ok(())
}
