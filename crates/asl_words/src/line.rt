//! The line that stands before the call with a word.
ghost use Rattle.std.specs.Prelude.{◌≡◌, ◌≤◌, ◌<◌, ◌++◌, [], MatchResult, OnErr, OnOk, codes, if◌then◌else◌};
ghost use Rattle.asl_io.specs.Faults.{Rises};
ghost use Rattle.asl_io.specs.Told.{Takes, TakesPrefix};
ghost use Rattle.asl_rules.specs.report.Texts.{line_feed};
ghost use Rattle.asl_rules.specs.runs.Words.{digit_text, digits_text, word_digits, word_line};

use crate::Word;
use asl_io::{Sink, SinkFault, put_all};

/// Writes a text.
fn put<K: Sink>(sink: &mut K, text: &[u8]) -> Result<(), SinkFault>
    ensures text { MatchResult result
        (λ it. Takes (K.written sink.old) (K.written sink.new) text.now)
        (λ e. TakesPrefix (K.written sink.old) (K.written sink.new) text.now) }
    ensures count_stays { OnOk result (K.faults sink.new ≡ K.faults sink.old) }
    ensures count_rises { OnErr result ((K.faults sink.old ≤ K.faults sink.new) × Rises (K.faults sink.old) (K.faults sink.new)) }
    ensures same_full { K.full sink.new ≡ K.full sink.old }
{
    put_all(sink, text)
}

/// Closes printed text that is open.
fn close<K: Sink>(sink: &mut K, is_open: bool) -> Result<(), SinkFault>
    ensures text { MatchResult result
        (λ it. Takes (K.written sink.old) (K.written sink.new) (if is_open then line_feed else []))
        (λ e. TakesPrefix (K.written sink.old) (K.written sink.new) (if is_open then line_feed else [])) }
    ensures count_stays { OnOk result (K.faults sink.new ≡ K.faults sink.old) }
    ensures count_rises { OnErr result ((K.faults sink.old ≤ K.faults sink.new) × Rises (K.faults sink.old) (K.faults sink.new)) }
    ensures same_full { K.full sink.new ≡ K.full sink.old }
{
    if is_open { put(sink, b"\n") } else { Ok(()) }
}

/// Writes the line of a word, on a line of its own.
pub(crate) fn put_line<K: Sink>(sink: &mut K, is_open: bool, word: Word) -> Result<(), SinkFault>
    ensures text { MatchResult result
        (λ it. Takes (K.written sink.old) (K.written sink.new) (word_line is_open word))
        (λ e. TakesPrefix (K.written sink.old) (K.written sink.new) (word_line is_open word)) }
    ensures count_stays { OnOk result (K.faults sink.new ≡ K.faults sink.old) }
    ensures count_rises { OnErr result ((K.faults sink.old ≤ K.faults sink.new) × Rises (K.faults sink.old) (K.faults sink.new)) }
    ensures same_full { K.full sink.new ≡ K.full sink.old }
{
    close(sink, is_open)?;
    put_word(sink, word)
}

/// Writes the line of a word: its hexadecimal digits in lower case, the highest first.
fn put_word<K: Sink>(sink: &mut K, word: Word) -> Result<(), SinkFault>
    ensures text { MatchResult result
        (λ it. Takes (K.written sink.old) (K.written sink.new) (codes "word " ++ (word_digits word ++ line_feed)))
        (λ e. TakesPrefix (K.written sink.old) (K.written sink.new) (codes "word " ++ (word_digits word ++ line_feed))) }
    ensures count_stays { OnOk result (K.faults sink.new ≡ K.faults sink.old) }
    ensures count_rises { OnErr result ((K.faults sink.old ≤ K.faults sink.new) × Rises (K.faults sink.old) (K.faults sink.new)) }
    ensures same_full { K.full sink.new ≡ K.full sink.old }
{
    if word.is_short() {
        put(sink, &short_text(word.bits))
    } else {
        put(sink, &long_text(word.bits))
    }
}

/// The line of the lowest 16 bits of a word.
fn short_text(word: u32) -> [u8; 10]
    ensures { result ≡ codes "word " ++ (digits_text 4 word ++ line_feed) }
{
    let second = word / 16;
    let third = second / 16;
    let fourth = third / 16;
    [
        b'w',
        b'o',
        b'r',
        b'd',
        b' ',
        digit(fourth % 16),
        digit(third % 16),
        digit(second % 16),
        digit(word % 16),
        b'\n',
    ]
}

/// The line of the 32 bits of a word.
fn long_text(word: u32) -> [u8; 14]
    ensures { result ≡ codes "word " ++ (digits_text 8 word ++ line_feed) }
{
    let second = word / 16;
    let third = second / 16;
    let fourth = third / 16;
    let fifth = fourth / 16;
    let sixth = fifth / 16;
    let seventh = sixth / 16;
    let eighth = seventh / 16;
    [
        b'w',
        b'o',
        b'r',
        b'd',
        b' ',
        digit(eighth % 16),
        digit(seventh % 16),
        digit(sixth % 16),
        digit(fifth % 16),
        digit(fourth % 16),
        digit(third % 16),
        digit(second % 16),
        digit(word % 16),
        b'\n',
    ]
}

/// A hexadecimal digit in lower case.
fn digit(value: u32) -> u8
    requires { value < 16 }
    ensures { result ≡ digit_text value }
{
    if value < 10 {
        b'0' + value as u8
    } else {
        b'a' + (value as u8 - 10)
    }
}
