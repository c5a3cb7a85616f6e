//! The statements that hold no others.

ghost use Rattle.std.specs.Prelude.{◌≡◌};
ghost use Rattle.asl_grammar.specs.grammar.Build as build;
ghost use Rattle.asl_grammar.specs.grammar.Rules as rules;
ghost use Rattle.asl_parse_expr.specs.private.Code.{cursor_of, Met, reading};

use crate::binders::value;
use crate::firsts::CALLED;
use crate::targets::{other_target, place_of, target_suffixes};
use asl_grammar::error::ParseError;
use asl_grammar::kinds::Kind;
use asl_parse_expr::expressions::{arguments, expression, maybe_expression, maybe_expressions};
use asl_parse_expr::names::name;
use asl_parse_expr::tokens::Tokens;
use asl_shared::Held;
use asl_syn::read::ReadStmt;
use asl_syn::token::Span;
use asl_syn::tree::{Expr, Ident, PlacedSuffix, Stmt};
use sqlite_items::Items;
use std::alloc::Global;

/// `pass`
#[tactic(auto, unfolding(asl_grammar::specs::grammar::Rules::pass))]
pub fn pass(tokens: &mut Tokens<'_>, depth: usize) -> Result<Stmt, ParseError>
    ensures { Met (reading depth rules.pass (cursor_of tokens.old)) result (cursor_of tokens.new) }
{
    let from = tokens.ahead();
    tokens.take(Kind::Pass)?;
    tokens.take(Kind::Semicolon)?;
    Ok(Stmt::Pass(tokens.since(from)))
}

/// `unreachable`
#[tactic(auto, unfolding(asl_grammar::specs::grammar::Rules::unreachable))]
pub fn unreachable(tokens: &mut Tokens<'_>, depth: usize) -> Result<Stmt, ParseError>
    ensures { Met (reading depth rules.unreachable (cursor_of tokens.old)) result (cursor_of tokens.new) }
{
    let from = tokens.ahead();
    tokens.take(Kind::Unreachable)?;
    tokens.take(Kind::Semicolon)?;
    Ok(Stmt::Unreachable(tokens.since(from)))
}

/// `assert`
#[tactic(auto, unfolding(asl_grammar::specs::grammar::Rules::assert))]
pub fn assert(alloc: Global, tokens: &mut Tokens<'_>, depth: usize) -> Result<Stmt, ParseError>
    ensures { Met (reading depth rules.assert (cursor_of tokens.old)) result (cursor_of tokens.new) }
{
    let from = tokens.ahead();
    tokens.take(Kind::Assert)?;
    let condition = Held::new(expression(alloc, tokens, depth)?);
    tokens.take(Kind::Semicolon)?;
    Ok(Stmt::Assert(tokens.since(from), condition.into_inner()))
}

#[tactic(auto, unfolding(asl_grammar::specs::grammar::Rules::parameters))]
fn maybe_parameters(
    alloc: Global,
    tokens: &mut Tokens<'_>,
    depth: usize,
) -> Result<Items<Expr>, ParseError>
    ensures { Met (reading depth rules.maybe_parameters (cursor_of tokens.old)) result (cursor_of tokens.new) }
{
    if !tokens.starts(&[Kind::OpenBrace]) {
        return Ok(Items::new(alloc));
    }
    let left = tokens.left;
    tokens.open(Kind::OpenBrace)?;
    let found = maybe_expressions(alloc, tokens, depth)?;
    tokens.take(Kind::CloseBrace)?;
    tokens.left = left;
    Ok(found)
}

#[tactic(auto, unfolding(asl_grammar::specs::grammar::Rules::call_arguments))]
fn call_arguments(
    alloc: Global,
    tokens: &mut Tokens<'_>,
    depth: usize,
) -> Result<(Items<Expr>, Items<Expr>), ParseError>
    ensures { Met (reading depth rules.call_arguments (cursor_of tokens.old)) result (cursor_of tokens.new) }
{
    let parameters = maybe_parameters(alloc, tokens, depth)?;
    let arguments = arguments(alloc, tokens, depth)?;
    Ok((parameters, arguments))
}

#[tactic(auto, unfolding(asl_grammar::specs::grammar::Rules::assigned))]
fn assigned(
    alloc: Global,
    tokens: &mut Tokens<'_>,
    depth: usize,
) -> Result<(Items<PlacedSuffix>, Expr), ParseError>
    ensures { Met (reading depth rules.assigned (cursor_of tokens.old)) result (cursor_of tokens.new) }
{
    let suffixes = target_suffixes(alloc, tokens, depth)?;
    let value = value(alloc, tokens, depth)?;
    Ok((suffixes, value))
}

/// Behind a call: its end, or what is stored through it.
fn after_call(
    alloc: Global,
    tokens: &mut Tokens<'_>,
    depth: usize,
) -> Result<Option<(Items<PlacedSuffix>, Expr)>, ParseError>
    ensures { Met (reading depth rules.after_call (cursor_of tokens.old)) result (cursor_of tokens.new) }
{
    if tokens.starts(&[Kind::Semicolon]) {
        tokens.take(Kind::Semicolon)?;
        Ok(None)
    } else {
        Ok(Some(assigned(alloc, tokens, depth)?))
    }
}

fn called_of(
    name: Ident,
    span: Span,
    parts: (Items<Expr>, Items<Expr>),
    stored: Option<(Items<PlacedSuffix>, Expr)>,
) -> ReadStmt
    ensures { result ≡ build.called_of name span parts stored }
{
    let (parameters, arguments) = parts;
    match stored {
        None => ReadStmt::Simple(Stmt::Invoke(span, name, parameters, arguments)),
        Some((suffixes, value)) => {
            ReadStmt::Store(span, name, parameters, arguments, suffixes, value)
        }
    }
}

/// A call, a store through one, or an assignment to a place.
pub fn name_statement(
    alloc: Global,
    tokens: &mut Tokens<'_>,
    depth: usize,
) -> Result<ReadStmt, ParseError>
    ensures { Met (reading depth rules.name_statement (cursor_of tokens.old)) result (cursor_of tokens.new) }
{
    let from = tokens.ahead();
    let name = name(alloc, tokens, depth)?;
    if tokens.starts(&CALLED) {
        let parts = call_arguments(alloc, tokens, depth)?;
        let stored = after_call(alloc, tokens, depth)?;
        Ok(called_of(name, tokens.since(from), parts, stored))
    } else {
        let (suffixes, value) = assigned(alloc, tokens, depth)?;
        let target = place_of(name, suffixes);
        Ok(ReadStmt::Simple(Stmt::Assign(tokens.since(from), target, value)))
    }
}

/// An assignment whose target begins with no name.
#[tactic(auto, unfolding(asl_grammar::specs::grammar::Rules::assignment))]
pub fn assignment(alloc: Global, tokens: &mut Tokens<'_>, depth: usize) -> Result<Stmt, ParseError>
    ensures { Met (reading depth rules.assignment (cursor_of tokens.old)) result (cursor_of tokens.new) }
{
    let from = tokens.ahead();
    let target = other_target(alloc, tokens, depth)?;
    let value = value(alloc, tokens, depth)?;
    Ok(Stmt::Assign(tokens.since(from), target, value))
}

/// `return`
#[tactic(auto, unfolding(asl_grammar::specs::grammar::Rules::return_statement))]
pub fn return_statement(
    alloc: Global,
    tokens: &mut Tokens<'_>,
    depth: usize,
) -> Result<Stmt, ParseError>
    ensures { Met (reading depth rules.return_statement (cursor_of tokens.old)) result (cursor_of tokens.new) }
{
    let from = tokens.ahead();
    tokens.take(Kind::Return)?;
    let value = Held::new(maybe_expression(alloc, tokens, depth)?);
    tokens.take(Kind::Semicolon)?;
    Ok(Stmt::Return(tokens.since(from), value.into_inner()))
}

/// `throw`
#[tactic(auto, unfolding(asl_grammar::specs::grammar::Rules::throw_statement))]
pub fn throw_statement(
    alloc: Global,
    tokens: &mut Tokens<'_>,
    depth: usize,
) -> Result<Stmt, ParseError>
    ensures { Met (reading depth rules.throw_statement (cursor_of tokens.old)) result (cursor_of tokens.new) }
{
    let from = tokens.ahead();
    tokens.take(Kind::Throw)?;
    let value = Held::new(maybe_expression(alloc, tokens, depth)?);
    tokens.take(Kind::Semicolon)?;
    Ok(Stmt::Throw(tokens.since(from), value.into_inner()))
}
