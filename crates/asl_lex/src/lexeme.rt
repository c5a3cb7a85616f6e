//! The lexeme that a text begins with, found by its first byte.

ghost use Rattle.std.specs.Prelude.{◌≡◌, ◌+◌, ◌<◌, length, false, drop, take};
ghost use Rattle.asl_grammar.specs.lexemes.Gaps.{opens_block};
ghost use Rattle.asl_grammar.specs.private.Scanning.{kind_of_name, opens_hex, number_of, longest_mark, lexeme_of, mark_at, quoted_of, kind_of_quote};
ghost use Rattle.asl_lex.specs.private.Found.{Finds, FindsAt, IsSmall};

use crate::bytes::{decimal_len, hex_len, is_hex_digit, is_name_start, name_len};
use crate::number::{decimal_value, hex_value};
use crate::table::{mark_of, word_of};
use asl_quote::{QuoteState, is_mask, opens_quote, quote_reach};
use asl_syn::token::TokenKind;

/// What a text begins with.
#[derive(Clone, Copy)]
pub enum Found {
    /// The longest lexeme, with its length in bytes.
    Lexeme(usize, TokenKind),
    /// An integer literal of this length in bytes whose value is 2^127 or more.
    TooLarge(usize),
    /// No lexeme.
    Nothing,
}

/// At most the first n bytes.
fn front(n: usize, bytes: &[u8]) -> &[u8]
    ensures { result.now ≡ take n bytes.now }
{
    if bytes.len() < n { bytes } else { &bytes[..n] }
}

/// The bytes after the first one.
pub fn after_first(bytes: &[u8]) -> &[u8]
    requires { 0 < length bytes.now }
    ensures after { result.now ≡ drop 1 bytes.now }
    ensures len { length result.now + 1 ≡ length bytes.now }
{
    &bytes[1..]
}

/// The word that a name spells, or a name.
fn kind_of_name(text: &[u8]) -> TokenKind
    ensures kind { result ≡ kind_of_name text.now }
    ensures small { IsSmall result }
{
    match word_of(text) {
        Some(word) => TokenKind::Word(word),
        None => TokenKind::Name,
    }
}

/// Whether the bytes begin with `0x` and a hexadecimal digit.
fn opens_hex(bytes: &[u8]) -> bool
    ensures { result ≡ opens_hex bytes.now }
{
    match bytes {
        [a, b, c, ..] => *a == b'0' && *b == b'x' && is_hex_digit(*c),
        _ => false,
    }
}

/// The integer literal that the bytes begin with.
fn number_at(bytes: &[u8]) -> Found
    ensures { Finds result (number_of bytes.now) }
{
    if opens_hex(bytes) {
        let len = 2 + hex_len(&bytes[2..]);
        match hex_value(&bytes[2..len]) {
            Some(value) => Found::Lexeme(len, TokenKind::Int(value)),
            None => Found::TooLarge(len),
        }
    } else {
        let len = decimal_len(bytes);
        match decimal_value(&bytes[..len]) {
            Some(value) => Found::Lexeme(len, TokenKind::Int(value)),
            None => Found::TooLarge(len),
        }
    }
}

/// The mark that the first `n` bytes spell, with its length; all the bytes where there are fewer.
fn mark_at(n: usize, bytes: &[u8]) -> Option<(usize, TokenKind)>
    ensures { result ≡ mark_at n bytes.now }
{
    let text = front(n, bytes);
    match mark_of(text) {
        Some(mark) => Some((text.len(), TokenKind::Mark(mark))),
        None => None,
    }
}

/// The longest mark that the bytes begin with.
fn longest_mark(bytes: &[u8]) -> Found
    ensures { Finds result (longest_mark bytes.now) }
{
    if let Some((len, kind)) = mark_at(3, bytes) {
        return Found::Lexeme(len, kind);
    }
    if let Some((len, kind)) = mark_at(2, bytes) {
        return Found::Lexeme(len, kind);
    }
    match mark_at(1, bytes) {
        Some((len, kind)) => Found::Lexeme(len, kind),
        None => Found::Nothing,
    }
}

/// The kind of a literal in quotes.
fn kind_of_quote(state: QuoteState, text: &[u8]) -> TokenKind
    ensures { result ≡ kind_of_quote state text.now }
{
    if matches!(state, QuoteState::Text) {
        TokenKind::Text
    } else if is_mask(text) {
        TokenKind::Mask
    } else {
        TokenKind::Bits
    }
}

/// The literal in quotes that the bytes begin with.
fn quoted_at(state: QuoteState, bytes: &[u8]) -> Found
    requires { 0 < length bytes.now }
    ensures { Finds result (quoted_of state bytes.now) }
{
    let (reach, end) = quote_reach(state, after_first(bytes));
    match end {
        QuoteState::Closed => {
            let len = 1 + reach;
            Found::Lexeme(len, kind_of_quote(state, &bytes[..len]))
        }
        _ => Found::Nothing,
    }
}

/// The longest lexeme that the bytes begin with.
#[tactic(auto, unfolding(asl_grammar::specs::private::Scanning::lexeme_of), using(crate::proofs::Finding::finds_at))]
pub fn found_at(bytes: &[u8]) -> Found
    requires { opens_block bytes.now ≡ false }
    ensures { FindsAt bytes.now result }
{
    match bytes {
        [] => Found::Nothing,
        [first, ..] => {
            if is_name_start(*first) {
                let len = name_len(bytes);
                Found::Lexeme(len, kind_of_name(&bytes[..len]))
            } else if first.is_ascii_digit() {
                number_at(bytes)
            } else if let Some(state) = opens_quote(bytes) {
                quoted_at(state, bytes)
            } else {
                longest_mark(bytes)
            }
        }
    }
}
