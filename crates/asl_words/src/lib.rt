//! Lists of instruction words, as text: on each line a word in 8 or 4 hexadecimal digits, which has 32 or 16 bits.
//!
//! A line ends in LF, the last one also without. Tabs, CRs and spaces at the end of a line are dropped. A line that is blank then,
//! or begins with `//`, is passed over. And runs over such words.
#![tactic(auto)]

mod entries;
mod line;
mod running;

ghost use Rattle.std.specs.Prelude.{◌≡◌, ◌<◌, ◌≤◌, IfErr, IfOk, Ok, Err, length, OnOk, vec_len};
ghost use Rattle.std.specs.List.{All};
ghost use Rattle.std.specs.List.{after_first, before_first};
ghost use Rattle.asl_rules.specs.report.WordList.{is_dropped, is_line_end, is_passed_over, without_end, words_read};
ghost use Rattle.asl_rules.specs.runs.Words.{is_short};
ghost use Rattle.asl_words.specs.Shapes.{HasShape};
ghost use Rattle.asl_words.specs.private.Faults.{Says};
ghost use Rattle.asl_words.specs.private.Steps.{with_line, word_of};

pub use entries::wanted;
use hex::FromHex;
pub use running::{ExecEnd, exec};
use std::alloc::Global;
use std::marker::Model;
use thiserror::Error;

/// How many words a list may have.
pub const MOST_WORDS: usize = 65_536;

/// A word: its number, and in how many hexadecimal digits it is written, 8 or 4.
#[derive(Clone, Copy, Debug, PartialEq, Eq)]
pub struct Word {
    pub bits: u32,
    pub digits: u8,
}

impl Model for Word {
    ghost use Rattle.asl_rules.specs.report.WordList.{Word as Given};

    ghost Value = { Given };

    ghost view = { λ w. record { bits = w.bits; digits = w.digits } };

    ghost inverse = { λ w. record { bits = w.bits; digits = w.digits } };
}

impl Word {
    /// Whether the word has 16 bits.
    pub(crate) fn is_short(self) -> bool
        ensures { result ≡ is_short self }
    {
        self.digits == 4
    }
}

/// Why a text is no list of words. A number is that of the line, counted from 1. It is a `usize`, which loses none: the line is not
/// blank, so its number is at most the number of bytes of the text.
#[derive(Clone, Copy, Debug, PartialEq, Eq, Error)]
pub enum WordFault {
    /// The line has neither 8 nor 4 bytes.
    #[error("line {0} has neither 8 nor 4 digits")]
    Length(usize),
    /// The line has 8 or 4 bytes, and not all are hexadecimal digits.
    #[error("line {0} has a byte that is no digit")]
    Digit(usize),
    /// The line writes a word, and 65,536 words stand before it.
    #[error("line {0} has a word too many")]
    TooMany(usize),
    /// There was no memory. This says nothing of the text.
    #[error("no memory")]
    NoMemory,
}

/// Reads the words of a text, or its first fault. Each word has 8 digits, or 4 and is below 65,536; there are at most 65,536 words.
pub fn read_words(alloc: Global, bytes: &[u8]) -> Result<Vec<Word>, WordFault>
    ensures words { IfOk result (λ words. words_read bytes.now ≡ Ok words.items) }
    ensures shapes { IfOk result (λ words. All HasShape words.items) }
    ensures fault { IfErr result (λ fault. Says fault (words_read bytes.now)) }
    ensures few { IfOk result (λ words. vec_len words ≤ MOST_WORDS) }
{
    let mut words = Vec::new(alloc);
    let mut rest = bytes;
    let mut number = 0;
    while !rest.is_empty() {
        number += 1;
        let (line, more) = first_line(rest);
        read_line(&mut words, without_end(line), number)?;
        rest = more;
    }
    Ok(words)
}

/// The first line of a text, without its LF, and what stands behind it.
fn first_line(text: &[u8]) -> (&[u8], &[u8])
    ensures line { result.0.now ≡ before_first is_line_end text.now }
    ensures rest { result.1.now ≡ after_first is_line_end text.now }
{
    for (i, byte) in text.iter().enumerate() {
        if *byte == b'\n' {
            return (&text[..i], &text[i + 1..]);
        }
    }
    text.split_at(text.len())
}

/// The line without what is dropped at its end.
fn without_end(line: &[u8]) -> &[u8]
    ensures { result.now ≡ without_end line.now }
{
    let mut end = line.len();
    while end > 0 && is_dropped(line[end - 1]) {
        end -= 1;
    }
    &line[..end]
}

/// Whether a byte is dropped at the end of a line.
fn is_dropped(byte: u8) -> bool
    ensures { result ≡ is_dropped byte }
{
    matches!(byte, b'\t' | b'\r' | b' ')
}

/// Adds the word of a line, where it writes one.
fn read_line(words: &mut Vec<Word>, line: &[u8], number: usize) -> Result<(), WordFault>
    ensures read { OnOk result (with_line words.old.items line.now number ≡ Ok words.new.items) }
    ensures fault { IfErr result (λ fault. Says fault (with_line words.old.items line.now number)) }
    ensures shapes { OnOk result (All HasShape words.old.items → All HasShape words.new.items) }
    ensures few { OnOk result (vec_len words.old ≤ MOST_WORDS → vec_len words.new ≤ MOST_WORDS) }
{
    if is_passed_over(line) {
        return Ok(());
    }
    let word = word_of(line, number, words.len())?;
    words.push(word).map_err(|_| WordFault::NoMemory)
}

/// Whether a line writes no word.
fn is_passed_over(line: &[u8]) -> bool
    ensures { result ≡ is_passed_over line.now }
{
    line.is_empty() || line.starts_with(b"//")
}

/// The word of a line, where so many words stand before it.
fn word_of(line: &[u8], number: usize, before: usize) -> Result<Word, WordFault>
    ensures word { IfOk result (λ word. word_of line.now number before ≡ Ok word) }
    ensures shape { IfOk result HasShape }
    ensures fault { IfErr result (λ fault. Says fault (word_of line.now number before)) }
    ensures few { OnOk result (before < MOST_WORDS) }
{
    match line.len() {
        8 => long_word(line, number, before),
        4 => short_word(line, number, before),
        _ => Err(WordFault::Length(number)),
    }
}

/// The word of a line of 8 bytes.
fn long_word(line: &[u8], number: usize, before: usize) -> Result<Word, WordFault>
    requires { length line.now ≡ 8 }
    ensures word { IfOk result (λ word. word_of line.now number before ≡ Ok word) }
    ensures shape { IfOk result HasShape }
    ensures fault { IfErr result (λ fault. Says fault (word_of line.now number before)) }
    ensures few { OnOk result (before < MOST_WORDS) }
{
    let Ok(bytes) = <[u8; 4] as FromHex>::from_hex(line) else {
        return Err(WordFault::Digit(number));
    };
    if before >= MOST_WORDS {
        return Err(WordFault::TooMany(number));
    }
    Ok(Word {
        bits: u32::from_be_bytes(bytes),
        digits: 8,
    })
}

/// The word of a line of 4 bytes.
fn short_word(line: &[u8], number: usize, before: usize) -> Result<Word, WordFault>
    requires { length line.now ≡ 4 }
    ensures word { IfOk result (λ word. word_of line.now number before ≡ Ok word) }
    ensures shape { IfOk result HasShape }
    ensures fault { IfErr result (λ fault. Says fault (word_of line.now number before)) }
    ensures few { OnOk result (before < MOST_WORDS) }
{
    let Ok(bytes) = <[u8; 2] as FromHex>::from_hex(line) else {
        return Err(WordFault::Digit(number));
    };
    if before >= MOST_WORDS {
        return Err(WordFault::TooMany(number));
    }
    Ok(Word {
        bits: u32::from(u16::from_be_bytes(bytes)),
        digits: 4,
    })
}
