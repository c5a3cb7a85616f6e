//! The lexer with its state.

ghost use Rattle.std.specs.Prelude.{◌≡◌, ◌≤◌, ◌+◌, ◌<◌, ◌^◌, length, None, false};
ghost use Rattle.asl_grammar.specs.lexemes.Gaps.{opens_block, Gap};
ghost use Rattle.asl_grammar.specs.lexemes.Refusals.{refusal, is_reserved, too_many, max_width};
ghost use Rattle.asl_grammar.specs.lexemes.Tokens.{NoLexeme, Scan, scan_of, behind_gap, behind_lexeme, ReadGives, IsFaultAt, NextGives};
ghost use Rattle.asl_syn.specs.declared.place.TheConstants as of_files;
ghost use Rattle.asl_lex.specs.declared.lexer.TheConstants as of_lexemes;
ghost use Rattle.asl_lex.specs.private.Found.{IsSmall};

use crate::gap::{after_gap, opens_block};
use crate::lexeme::{Found, after_first, found_at};
use asl_quote::{digit_count, opens_quote, quote_reach};
use asl_syn::code::{Fault, StaticCode};
use asl_syn::place::MAX_BYTES;
use asl_syn::token::{Span, Token, TokenKind};
use std::marker::Model;

/// The most lexemes that a file may have.
pub const MAX_LEXEMES: u32 = 200_000;

/// The width limit: the most digits that a bitvector literal or a mask may have.
pub const MAX_WIDTH: usize = 2_048;

/// Whether a name begins with two underscores.
fn is_reserved(text: &[u8]) -> bool
    ensures { result ≡ is_reserved text.now }
{
    match text {
        [a, b, ..] => *a == b'_' && *b == b'_',
        _ => false,
    }
}

/// `M03` where a file has had all its lexemes.
fn too_many(given: u32) -> Option<StaticCode>
    ensures { result ≡ too_many given }
{
    if given >= MAX_LEXEMES {
        Some(StaticCode::M03)
    } else {
        None
    }
}

/// Why a lexeme is refused, where `given` lexemes of its file stand before it, or `None`.
fn refusal(kind: TokenKind, text: &[u8], given: u32) -> Option<StaticCode>
    requires { IsSmall kind }
    ensures { result ≡ refusal max_width kind text.now given }
{
    match kind {
        TokenKind::Name => {
            if is_reserved(text) {
                Some(StaticCode::L05)
            } else {
                too_many(given)
            }
        }
        TokenKind::Bits | TokenKind::Mask => {
            if digit_count(text) <= MAX_WIDTH {
                too_many(given)
            } else {
                Some(StaticCode::L04)
            }
        }
        TokenKind::Int(_) | TokenKind::Text | TokenKind::Word(_) | TokenKind::Mark(_) => {
            too_many(given)
        }
    }
}

/// Reads the tokens of a file one by one. Contracts see a lexer as the `Scan` of the text that is left.
#[derive(Drop)]
pub struct Lexer<'a> {
    file: u32,
    place: u32,
    rest: &'a [u8],
    given: u32,
}

impl<'a> Model for Lexer<'a> {
    ghost Value = { Scan };

    ghost view = { λ l. record { width_limit = max_width; file = l.file; place = l.place; rest = l.rest.now; given = l.given } };

    ghost invariant = { λ l. (l.place + length l.rest.now ≤ of_files.MAX_BYTES) × (l.given ≤ of_lexemes.MAX_LEXEMES) };
}

impl<'a> Lexer<'a> {
    /// The lexer of a file, before its first byte. `file` is the number that the spans will carry.
    pub fn new(file: u32, bytes: &'a [u8]) -> Self
        requires { length bytes.now ≤ MAX_BYTES }
        ensures { result ≡ scan_of max_width file bytes.now }
    {
        Lexer {
            file,
            place: 0,
            rest: bytes,
            given: 0,
        }
    }

    /// The next token, `None` at the end of the file, or the file's fault: L01 to L05 or M03. After the end or a fault it
    /// gives the same answer again. It takes no memory.
    pub fn next(&mut self) -> Result<Option<Token>, Fault>
        ensures { NextGives self.old result self.new }
    {
        let here = self.behind_gap();
        let answer = here.read()?;
        if let Some(token) = answer {
            *self = here.behind_lexeme(token.span.len);
        }
        Ok(answer)
    }

    /// The lexer after the gap that stands first.
    fn behind_gap(&self) -> Lexer<'a>
        ensures gap { Gap self.now.rest result.rest }
        ensures rest { result ≡ behind_gap self.now result.rest }
    {
        let rest = after_gap(self.rest);
        let place = self.place + (self.rest.len() - rest.len()) as u32;
        Lexer {
            file: self.file,
            place,
            rest,
            given: self.given,
        }
    }

    /// The lexer after a lexeme of this length, which stands first.
    fn behind_lexeme(&self, len: u32) -> Lexer<'a>
        requires fits { len ≤ length self.now.rest }
        requires few { self.now.given < MAX_LEXEMES }
        ensures { result ≡ behind_lexeme self.now len }
    {
        Lexer {
            file: self.file,
            place: self.place + len,
            rest: &self.rest[len as usize..],
            given: self.given + 1,
        }
    }

    /// The span of this length that stands first.
    fn span(&self, len: usize) -> Span
        requires { len < 2 ^ 32 }
        ensures { result ≡ record { file = self.now.file; start = self.now.place; len = len } }
    {
        Span {
            file: self.file,
            start: self.place,
            len: len as u32,
        }
    }

    /// The fault with this code and length that stands first.
    fn fault(&self, code: StaticCode, len: usize) -> Fault
        requires { len < 2 ^ 32 }
        ensures { result ≡ record { code = code; inner = None; span = record { file = self.now.file; start = self.now.place; len = len } } }
    {
        Fault {
            code,
            inner: None,
            span: self.span(len),
        }
    }

    /// The token, the end or the fault that stands first, where that is no gap.
    fn read(&self) -> Result<Option<Token>, Fault>
        ensures { ReadGives self.now result }
    {
        if self.rest.is_empty() {
            return Ok(None);
        }
        if opens_block(self.rest) {
            return Err(self.fault(StaticCode::L02, self.rest.len()));
        }
        match found_at(self.rest) {
            Found::Nothing => Err(self.no_lexeme()),
            Found::TooLarge(len) => Err(self.fault(StaticCode::L04, len)),
            Found::Lexeme(len, kind) => match refusal(kind, &self.rest[..len], self.given) {
                Some(code) => Err(self.fault(code, len)),
                None => Ok(Some(Token {
                    kind,
                    span: self.span(len),
                })),
            },
        }
    }

    /// The fault that stands first, where that is no lexeme.
    fn no_lexeme(&self) -> Fault
        requires some { 0 < length self.now.rest }
        requires apart { opens_block self.now.rest ≡ false }
        requires none { NoLexeme self.now.rest }
        ensures { IsFaultAt self.now result }
    {
        match opens_quote(self.rest) {
            Some(state) => {
                let (reach, _) = quote_reach(state, after_first(self.rest));
                self.fault(StaticCode::L03, 1 + reach)
            }
            None => self.fault(StaticCode::L01, 1),
        }
    }
}
