//! A cursor over the tokens of a file.

ghost use Rattle.std.specs.Prelude.{◌≡◌, [], ◌∷◌, length, true, IfOk};
ghost use Rattle.asl_grammar.specs.grammar.Build as build;
ghost use Rattle.asl_grammar.specs.grammar.Cursor as cursor;
ghost use Rattle.asl_grammar.specs.grammar.Operators.{binary_kinds, unary_kinds};
ghost use Rattle.asl_grammar.specs.grammar.Reader.{covers, run_tok, run_opens};
ghost use Rattle.asl_parse_expr.specs.private.Code.{cursor_of, Met, MetToken, charge, operator_at, prefix_at};

use asl_grammar::error::ParseError;
use asl_grammar::kinds::{Kind, kind_of};
use asl_grammar::operators::{binary_of, unary_of};
use asl_syn::token::{Span, Token};
use asl_syn::tree::{BinaryOperator, Ident, Text, UnaryOperator};
use std::alloc::{AllocError, Global};

/// The tokens of a file that are still ahead, with how many levels may be opened and where the last one read ended.
#[derive(Drop)]
pub struct Tokens<'a> {
    /// The bytes of the file.
    pub bytes: &'a [u8],
    /// The tokens ahead.
    pub toks: &'a [Token],
    /// How many levels may still be opened.
    pub left: usize,
    /// The place behind the last token that was read.
    pub last: u32,
}

/// The place behind a span.
#[tactic(auto, unfolding(asl_grammar::specs::grammar::Cursor::end_of))]
pub fn end_of(span: Span) -> u32
    ensures { result ≡ cursor.end_of span }
{
    span.start.saturating_add(span.len)
}

/// The span from a token's first byte to a place.
pub fn span_to(from: Span, to: u32) -> Span
    ensures { result ≡ cursor.span_to from to }
{
    Span {
        file: from.file,
        start: from.start,
        len: to.saturating_sub(from.start),
    }
}

/// The bytes at a span.
pub fn text_at(alloc: Global, bytes: &[u8], span: Span) -> Result<Text, AllocError>
    ensures { IfOk result (λ t. t ≡ cursor.text_at bytes.now span) }
{
    let behind = &bytes[bytes.len().min(span.start as usize)..];
    Text::from_slice(alloc, &behind[..behind.len().min(span.len as usize)])
}

/// The name that a token is.
pub fn ident(alloc: Global, bytes: &[u8], token: Token) -> Result<Ident, AllocError>
    ensures { IfOk result (λ i. i ≡ build.ident (cursor.with_text bytes.now token)) }
{
    Ok(Ident {
        span: token.span,
        text: text_at(alloc, bytes, token.span)?,
    })
}

/// Whether a kind is one of these.
fn is_among(kinds: &[Kind], kind: Kind) -> bool
    ensures { result ≡ cursor.among kinds.now kind }
{
    for one in kinds {
        if *one == kind {
            return true;
        }
    }
    false
}

impl<'a> Tokens<'a> {
    /// Whether the next token has one of these kinds.
    pub fn starts(&self, kinds: &[Kind]) -> bool
        ensures { result ≡ cursor.starts kinds.now (cursor_of self.now).toks }
    {
        match self.toks.first() {
            None => false,
            Some(token) => is_among(kinds, kind_of(token.kind)),
        }
    }

    /// The span of the next token.
    pub fn ahead(&self) -> Span
        ensures { result ≡ cursor.ahead (cursor_of self.now).toks }
    {
        match self.toks.first() {
            None => Span {
                file: 0,
                start: 0,
                len: 0,
            },
            Some(token) => token.span,
        }
    }

    /// How many tokens are ahead.
    pub fn len(&self) -> usize
        ensures { result ≡ length (cursor_of self.now).toks }
    {
        self.toks.len()
    }

    /// The span from a token on to the last token that was read.
    pub fn since(&self, from: Span) -> Span
        ensures { result ≡ cursor.span_to from (cursor_of self.now).last }
    {
        span_to(from, self.last)
    }

    /// Reads a token of one of these kinds.
    pub fn take_any(&mut self, kinds: &[Kind]) -> Result<Token, ParseError>
        ensures { MetToken (run_tok kinds.now (cursor_of self.old) (cursor_of self.old).toks) self.old.bytes.now result (cursor_of self.new) }
    {
        let toks = self.toks;
        let Some((token, rest)) = toks.split_first() else {
            return Err(ParseError::Syntax(0));
        };
        if !is_among(kinds, kind_of(token.kind)) {
            return Err(ParseError::Syntax(toks.len()));
        }
        self.toks = rest;
        self.last = end_of(token.span);
        Ok(*token)
    }

    /// Reads a token of this kind.
    pub fn take(&mut self, kind: Kind) -> Result<Token, ParseError>
        ensures { MetToken (run_tok (kind ∷ []) (cursor_of self.old) (cursor_of self.old).toks) self.old.bytes.now result (cursor_of self.new) }
    {
        self.take_any(&[kind])
    }

    /// Reads a token of one of these kinds, which opens a level.
    pub fn open_any(&mut self, kinds: &[Kind]) -> Result<Token, ParseError>
        ensures { MetToken (run_opens kinds.now self.old.left (cursor_of self.old).toks) self.old.bytes.now result (cursor_of self.new) }
    {
        let toks = self.toks;
        let Some((token, rest)) = toks.split_first() else {
            return Err(ParseError::Syntax(0));
        };
        if !is_among(kinds, kind_of(token.kind)) {
            return Err(ParseError::Syntax(toks.len()));
        }
        if self.left == 0 {
            return Err(ParseError::TooDeep(toks.len(), false));
        }
        self.left -= 1;
        self.toks = rest;
        self.last = end_of(token.span);
        Ok(*token)
    }

    /// Reads a token of this kind, which opens a level.
    pub fn open(&mut self, kind: Kind) -> Result<Token, ParseError>
        ensures { MetToken (run_opens (kind ∷ []) self.old.left (cursor_of self.old).toks) self.old.bytes.now result (cursor_of self.new) }
    {
        self.open_any(&[kind])
    }

    /// Reads an operator of one of these kinds before its operand, which opens a level.
    #[tactic(auto, unfolding(crate::specs::private::Code::prefix_at))]
    pub fn prefix(&mut self, kinds: &[Kind]) -> Result<UnaryOperator, ParseError>
        requires { covers unary_kinds kinds.now ≡ true }
        ensures { Met (prefix_at kinds.now (cursor_of self.old)) result (cursor_of self.new) }
    {
        let token = self.open_any(kinds)?;
        Ok(unary_of(kind_of(token.kind)))
    }

    /// Reads an operator of one of these kinds between its operands, which opens a level.
    #[tactic(auto, unfolding(crate::specs::private::Code::operator_at))]
    pub fn operator(&mut self, kinds: &[Kind]) -> Result<BinaryOperator, ParseError>
        requires { covers binary_kinds kinds.now ≡ true }
        ensures { Met (operator_at kinds.now (cursor_of self.old)) result (cursor_of self.new) }
    {
        let token = self.open_any(kinds)?;
        Ok(binary_of(kind_of(token.kind)))
    }

    /// Opens a level at the next token, if it is one of these; it is the token before that opens it, if so said.
    pub fn charge(&mut self, kinds: &[Kind], late: bool) -> Result<(), ParseError>
        ensures { Met (charge kinds.now late (cursor_of self.old)) result (cursor_of self.new) }
    {
        if !self.starts(kinds) {
            return Err(ParseError::Syntax(self.toks.len()));
        }
        if self.left == 0 {
            return Err(ParseError::TooDeep(self.toks.len(), late));
        }
        self.left -= 1;
        Ok(())
    }
}
