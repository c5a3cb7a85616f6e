//! The entries that words need.
ghost use Rattle.std.specs.Prelude.{◌≡◌};
ghost use Rattle.asl_rules.specs.runs.Words as rules;

use crate::Word;
use asl_rules::entry::Entry;

/// Whether one of the words has 16 bits.
fn some_short(words: &[Word]) -> bool
    ensures { result ≡ rules.some_short words.now }
{
    for number in 0..words.len() {
        if words[number].is_short() {
            return true;
        }
    }
    false
}

/// Whether one of the words has 32 bits.
fn some_long(words: &[Word]) -> bool
    ensures { result ≡ rules.some_long words.now }
{
    for number in 0..words.len() {
        if !words[number].is_short() {
            return true;
        }
    }
    false
}

/// The entries that a program needs for words: `decode16` where one of them has 4 digits, and `decode` where one has 8, or where there
/// is none.
pub fn wanted(words: &[Word]) -> Entry
    ensures { result ≡ rules.wanted words.now }
{
    if !some_short(words) {
        return Entry::Decode;
    }
    if some_long(words) {
        Entry::Both
    } else {
        Entry::Decode16
    }
}
