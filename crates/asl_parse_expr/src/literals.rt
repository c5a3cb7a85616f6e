//! Literals.

ghost use Rattle.std.specs.Prelude.{◌≡◌};
ghost use Rattle.asl_grammar.specs.grammar.Build as build;
ghost use Rattle.asl_grammar.specs.grammar.Rules as rules;
ghost use Rattle.asl_parse_expr.specs.private.Code.{cursor_of, Met, reading};

use crate::firsts::BOOLEAN_LITERAL;
use crate::tokens::{Tokens, text_at};
use asl_grammar::error::ParseError;
use asl_grammar::kinds::{Kind, kind_of};
use asl_syn::token::TokenKind;
use asl_syn::tree::{Expr, Pattern};
use std::alloc::Global;

/// The value of a literal of an integer.
fn int_of(kind: TokenKind) -> u128
    ensures { result ≡ build.int_of kind }
{
    match kind {
        TokenKind::Int(value) => value,
        _ => 0,
    }
}

/// A literal of an integer.
#[tactic(auto, unfolding(asl_grammar::specs::grammar::Rules::integer_literal))]
fn integer_literal(tokens: &mut Tokens<'_>, depth: usize) -> Result<Expr, ParseError>
    ensures { Met (reading depth rules.integer_literal (cursor_of tokens.old)) result (cursor_of tokens.new) }
{
    let token = tokens.take(Kind::IntegerLiteral)?;
    Ok(Expr::Int(token.span, int_of(token.kind)))
}

/// A literal of bits.
#[tactic(auto, unfolding(asl_grammar::specs::grammar::Rules::bits_literal))]
fn bits_literal(alloc: Global, tokens: &mut Tokens<'_>, depth: usize) -> Result<Expr, ParseError>
    ensures { Met (reading depth rules.bits_literal (cursor_of tokens.old)) result (cursor_of tokens.new) }
{
    let bytes = tokens.bytes;
    let token = tokens.take(Kind::BitsLiteral)?;
    Ok(Expr::Bits(token.span, text_at(alloc, bytes, token.span)?))
}

/// `TRUE` or `FALSE`.
#[tactic(auto, unfolding(asl_grammar::specs::grammar::Rules::boolean_literal))]
fn boolean_literal(tokens: &mut Tokens<'_>, depth: usize) -> Result<Expr, ParseError>
    ensures { Met (reading depth rules.boolean_literal (cursor_of tokens.old)) result (cursor_of tokens.new) }
{
    let token = tokens.take_any(&BOOLEAN_LITERAL)?;
    Ok(Expr::Bool(token.span, kind_of(token.kind) == Kind::True))
}

/// A literal that is an expression.
#[tactic(auto, unfolding(asl_grammar::specs::grammar::Rules::literal, asl_grammar::specs::grammar::Rules::integer_literal, asl_grammar::specs::grammar::Rules::bits_literal))]
pub fn literal(alloc: Global, tokens: &mut Tokens<'_>, depth: usize) -> Result<Expr, ParseError>
    ensures { Met (reading depth rules.literal (cursor_of tokens.old)) result (cursor_of tokens.new) }
{
    if tokens.starts(&[Kind::IntegerLiteral]) {
        integer_literal(tokens, depth)
    } else if tokens.starts(&[Kind::BitsLiteral]) {
        bits_literal(alloc, tokens, depth)
    } else {
        boolean_literal(tokens, depth)
    }
}

/// A literal of bits as a pattern.
#[tactic(auto, unfolding(asl_grammar::specs::grammar::Rules::bits_pattern))]
pub fn bits_pattern(
    alloc: Global,
    tokens: &mut Tokens<'_>,
    depth: usize,
) -> Result<Pattern, ParseError>
    ensures { Met (reading depth rules.bits_pattern (cursor_of tokens.old)) result (cursor_of tokens.new) }
{
    let bytes = tokens.bytes;
    let token = tokens.take(Kind::BitsLiteral)?;
    let value = Expr::Bits(token.span, text_at(alloc, bytes, token.span)?);
    Ok(Pattern::ValuePattern(token.span, value))
}

/// A mask.
#[tactic(auto, unfolding(asl_grammar::specs::grammar::Rules::mask_pattern))]
pub fn mask_pattern(
    alloc: Global,
    tokens: &mut Tokens<'_>,
    depth: usize,
) -> Result<Pattern, ParseError>
    ensures { Met (reading depth rules.mask_pattern (cursor_of tokens.old)) result (cursor_of tokens.new) }
{
    let bytes = tokens.bytes;
    let token = tokens.take(Kind::MaskLiteral)?;
    Ok(Pattern::MaskPattern(token.span, text_at(alloc, bytes, token.span)?))
}
