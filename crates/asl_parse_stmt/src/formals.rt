//! Formals, parameters and the fields of records.

ghost use Rattle.std.specs.Prelude.{◌≡◌};
ghost use Rattle.asl_grammar.specs.grammar.Rules as rules;
ghost use Rattle.asl_parse_expr.specs.private.Code.{cursor_of, Met, reading};

use crate::firsts::SOME_MEMBERS;
use asl_grammar::error::ParseError;
use asl_grammar::kinds::Kind;
use asl_parse_expr::firsts::NAME;
use asl_parse_expr::names::name;
use asl_parse_expr::tokens::Tokens;
use asl_parse_expr::types::{type_expression, typed};
use asl_syn::tree::{Formal, Param};
use sqlite_items::Items;
use std::alloc::Global;

/// A name with its type.
#[tactic(auto, unfolding(asl_grammar::specs::grammar::Rules::formal))]
pub fn formal(alloc: Global, tokens: &mut Tokens<'_>, depth: usize) -> Result<Formal, ParseError>
    ensures { Met (reading depth rules.formal (cursor_of tokens.old)) result (cursor_of tokens.new) }
{
    let name = name(alloc, tokens, depth)?;
    tokens.take(Kind::Colon)?;
    let ty = type_expression(alloc, tokens, depth)?;
    Ok(Formal { name, ty })
}

#[tactic(auto, using(crate::proofs::Steps::formal_list_is))]
fn formal_list(
    alloc: Global,
    tokens: &mut Tokens<'_>,
    depth: usize,
) -> Result<Items<Formal>, ParseError>
    ensures { Met (reading depth rules.formal_list (cursor_of tokens.old)) result (cursor_of tokens.new) }
{
    let mut found = Items::new(alloc);
    found.push(formal(alloc, tokens, depth)?)?;
    for _turn in 0..tokens.len() {
        if !tokens.starts(&[Kind::Comma]) {
            return Ok(found);
        }
        tokens.take(Kind::Comma)?;
        found.push(formal(alloc, tokens, depth)?)?;
    }
    Ok(found)
}

fn maybe_formals(
    alloc: Global,
    tokens: &mut Tokens<'_>,
    depth: usize,
) -> Result<Items<Formal>, ParseError>
    ensures { Met (reading depth rules.maybe_formals (cursor_of tokens.old)) result (cursor_of tokens.new) }
{
    if !tokens.starts(&NAME) {
        return Ok(Items::new(alloc));
    }
    formal_list(alloc, tokens, depth)
}

/// The formals of a subprogram, in their parentheses.
#[tactic(auto, unfolding(asl_grammar::specs::grammar::Rules::formals))]
pub fn formals(
    alloc: Global,
    tokens: &mut Tokens<'_>,
    depth: usize,
) -> Result<Items<Formal>, ParseError>
    ensures { Met (reading depth rules.formals (cursor_of tokens.old)) result (cursor_of tokens.new) }
{
    let left = tokens.left;
    tokens.open(Kind::OpenParen)?;
    let found = maybe_formals(alloc, tokens, depth)?;
    tokens.take(Kind::CloseParen)?;
    tokens.left = left;
    Ok(found)
}

#[tactic(auto, unfolding(asl_grammar::specs::grammar::Rules::param))]
fn param(alloc: Global, tokens: &mut Tokens<'_>, depth: usize) -> Result<Param, ParseError>
    ensures { Met (reading depth rules.param (cursor_of tokens.old)) result (cursor_of tokens.new) }
{
    let name = name(alloc, tokens, depth)?;
    let ty = typed(alloc, tokens, depth)?;
    Ok(Param { name, ty })
}

#[tactic(auto, using(crate::proofs::Steps::param_list_is))]
fn param_list(
    alloc: Global,
    tokens: &mut Tokens<'_>,
    depth: usize,
) -> Result<Items<Param>, ParseError>
    ensures { Met (reading depth rules.param_list (cursor_of tokens.old)) result (cursor_of tokens.new) }
{
    let mut found = Items::new(alloc);
    found.push(param(alloc, tokens, depth)?)?;
    for _turn in 0..tokens.len() {
        if !tokens.starts(&[Kind::Comma]) {
            return Ok(found);
        }
        tokens.take(Kind::Comma)?;
        found.push(param(alloc, tokens, depth)?)?;
    }
    Ok(found)
}

fn maybe_param_list(
    alloc: Global,
    tokens: &mut Tokens<'_>,
    depth: usize,
) -> Result<Items<Param>, ParseError>
    ensures { Met (reading depth rules.maybe_param_list (cursor_of tokens.old)) result (cursor_of tokens.new) }
{
    if !tokens.starts(&NAME) {
        return Ok(Items::new(alloc));
    }
    param_list(alloc, tokens, depth)
}

/// The parameters of a subprogram, if it has braces.
#[tactic(auto, unfolding(asl_grammar::specs::grammar::Rules::params))]
pub fn maybe_params(
    alloc: Global,
    tokens: &mut Tokens<'_>,
    depth: usize,
) -> Result<Items<Param>, ParseError>
    ensures { Met (reading depth rules.maybe_params (cursor_of tokens.old)) result (cursor_of tokens.new) }
{
    if !tokens.starts(&[Kind::OpenBrace]) {
        return Ok(Items::new(alloc));
    }
    let left = tokens.left;
    tokens.open(Kind::OpenBrace)?;
    let found = maybe_param_list(alloc, tokens, depth)?;
    tokens.take(Kind::CloseBrace)?;
    tokens.left = left;
    Ok(found)
}

#[tactic(auto, using(crate::proofs::Steps::listed_members_is))]
fn listed_members(
    alloc: Global,
    tokens: &mut Tokens<'_>,
    depth: usize,
) -> Result<Items<Formal>, ParseError>
    ensures { Met (reading depth rules.listed_members (cursor_of tokens.old)) result (cursor_of tokens.new) }
{
    let mut found = Items::new(alloc);
    found.push(formal(alloc, tokens, depth)?)?;
    for _turn in 0..tokens.len() {
        if !tokens.starts(&[Kind::Comma]) {
            return Ok(found);
        }
        tokens.take(Kind::Comma)?;
        if !tokens.starts(&NAME) {
            return Ok(found);
        }
        found.push(formal(alloc, tokens, depth)?)?;
    }
    Ok(found)
}

#[tactic(auto, unfolding(asl_grammar::specs::grammar::Rules::some_members, asl_grammar::specs::grammar::Rules::no_members))]
fn maybe_some_members(
    alloc: Global,
    tokens: &mut Tokens<'_>,
    depth: usize,
) -> Result<Items<Formal>, ParseError>
    ensures { Met (reading depth rules.maybe_some_members (cursor_of tokens.old)) result (cursor_of tokens.new) }
{
    if !tokens.starts(&SOME_MEMBERS) {
        return Ok(Items::new(alloc));
    }
    if tokens.starts(&[Kind::Minus]) {
        tokens.take(Kind::Minus)?;
        return Ok(Items::new(alloc));
    }
    listed_members(alloc, tokens, depth)
}

/// The fields of a record or an exception, if it has braces.
#[tactic(auto, unfolding(asl_grammar::specs::grammar::Rules::member_braces))]
pub fn members(
    alloc: Global,
    tokens: &mut Tokens<'_>,
    depth: usize,
) -> Result<Items<Formal>, ParseError>
    ensures { Met (reading depth rules.members (cursor_of tokens.old)) result (cursor_of tokens.new) }
{
    if !tokens.starts(&[Kind::OpenBrace]) {
        return Ok(Items::new(alloc));
    }
    let left = tokens.left;
    tokens.open(Kind::OpenBrace)?;
    let found = maybe_some_members(alloc, tokens, depth)?;
    tokens.take(Kind::CloseBrace)?;
    tokens.left = left;
    Ok(found)
}
