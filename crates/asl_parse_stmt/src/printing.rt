//! `print` and `println`.

ghost use Rattle.std.specs.Prelude.{◌≡◌};
ghost use Rattle.asl_grammar.specs.grammar.Rules as rules;
ghost use Rattle.asl_parse_expr.specs.private.Code.{cursor_of, Met, reading};

use crate::firsts::PRINT_ITEM;
use asl_grammar::error::ParseError;
use asl_grammar::kinds::Kind;
use asl_parse_expr::expressions::expression;
use asl_parse_expr::tokens::{Tokens, text_at};
use asl_syn::tree::{PrintItem, PrintKind, Stmt};
use sqlite_items::Items;
use std::alloc::Global;

#[tactic(auto, unfolding(asl_grammar::specs::grammar::Rules::verbatim))]
fn verbatim(alloc: Global, tokens: &mut Tokens<'_>, depth: usize) -> Result<PrintItem, ParseError>
    ensures { Met (reading depth rules.verbatim (cursor_of tokens.old)) result (cursor_of tokens.new) }
{
    let bytes = tokens.bytes;
    let token = tokens.take(Kind::StringLiteral)?;
    Ok(PrintItem::Verbatim(token.span, text_at(alloc, bytes, token.span)?))
}

fn print_item(alloc: Global, tokens: &mut Tokens<'_>, depth: usize) -> Result<PrintItem, ParseError>
    ensures { Met (reading depth rules.print_item (cursor_of tokens.old)) result (cursor_of tokens.new) }
{
    if tokens.starts(&[Kind::StringLiteral]) {
        verbatim(alloc, tokens, depth)
    } else {
        Ok(PrintItem::Shown(expression(alloc, tokens, depth)?))
    }
}

#[tactic(auto, using(crate::proofs::Steps::print_items_is))]
fn print_items(
    alloc: Global,
    tokens: &mut Tokens<'_>,
    depth: usize,
) -> Result<Items<PrintItem>, ParseError>
    ensures { Met (reading depth rules.print_items (cursor_of tokens.old)) result (cursor_of tokens.new) }
{
    let mut found = Items::new(alloc);
    found.push(print_item(alloc, tokens, depth)?)?;
    for _turn in 0..tokens.len() {
        if !tokens.starts(&[Kind::Comma]) {
            return Ok(found);
        }
        tokens.take(Kind::Comma)?;
        found.push(print_item(alloc, tokens, depth)?)?;
    }
    Ok(found)
}

fn maybe_print_items(
    alloc: Global,
    tokens: &mut Tokens<'_>,
    depth: usize,
) -> Result<Items<PrintItem>, ParseError>
    ensures { Met (reading depth rules.maybe_print_items (cursor_of tokens.old)) result (cursor_of tokens.new) }
{
    if !tokens.starts(&PRINT_ITEM) {
        return Ok(Items::new(alloc));
    }
    print_items(alloc, tokens, depth)
}

fn print_kind(tokens: &mut Tokens<'_>, depth: usize) -> Result<PrintKind, ParseError>
    ensures { Met (reading depth rules.print_kind (cursor_of tokens.old)) result (cursor_of tokens.new) }
{
    if tokens.starts(&[Kind::Print]) {
        tokens.take(Kind::Print)?;
        Ok(PrintKind::Print)
    } else {
        tokens.take(Kind::PrintLine)?;
        Ok(PrintKind::PrintLine)
    }
}

/// `print` or `println`
#[tactic(auto, unfolding(asl_grammar::specs::grammar::Rules::print_arguments, asl_grammar::specs::grammar::Rules::print_statement))]
pub fn print_statement(
    alloc: Global,
    tokens: &mut Tokens<'_>,
    depth: usize,
) -> Result<Stmt, ParseError>
    ensures { Met (reading depth rules.print_statement (cursor_of tokens.old)) result (cursor_of tokens.new) }
{
    let from = tokens.ahead();
    let kind = print_kind(tokens, depth)?;
    let left = tokens.left;
    tokens.open(Kind::OpenParen)?;
    let items = maybe_print_items(alloc, tokens, depth)?;
    tokens.take(Kind::CloseParen)?;
    tokens.left = left;
    tokens.take(Kind::Semicolon)?;
    Ok(Stmt::Print(tokens.since(from), kind, items))
}
