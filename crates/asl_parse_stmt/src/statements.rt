//! Statements, and blocks of them.

ghost use Rattle.std.specs.Prelude.{◌≡◌};
ghost use Rattle.asl_grammar.specs.grammar.Rules as rules;
ghost use Rattle.asl_parse_expr.specs.private.Code.{cursor_of, Met, reading};

use crate::binders::{let_statement, var_statement};
use crate::bodies::Bodies;
use crate::firsts::{SIMPLE_STATEMENT, STATEMENT};
use crate::levels::nest;
use crate::printing::print_statement;
use crate::simple::{
    assert, assignment, name_statement, pass, return_statement, throw_statement, unreachable,
};
use asl_grammar::error::ParseError;
use asl_grammar::kinds::Kind;
use asl_parse_expr::firsts::NAME;
use asl_parse_expr::tokens::Tokens;
use asl_syn::read::ReadStmt;
use asl_syn::tree::Stmt;
use sqlite_items::Items;
use std::alloc::Global;

/// A statement that holds no other and begins with no name.
pub fn simple_statement(
    alloc: Global,
    tokens: &mut Tokens<'_>,
    depth: usize,
) -> Result<Stmt, ParseError>
    ensures { Met (reading depth rules.simple_statement (cursor_of tokens.old)) result (cursor_of tokens.new) }
{
    if tokens.starts(&[Kind::Pass]) {
        pass(tokens, depth)
    } else if tokens.starts(&[Kind::Unreachable]) {
        unreachable(tokens, depth)
    } else if tokens.starts(&[Kind::Assert]) {
        assert(alloc, tokens, depth)
    } else if tokens.starts(&[Kind::Let]) {
        let_statement(alloc, tokens, depth)
    } else if tokens.starts(&[Kind::Var]) {
        var_statement(alloc, tokens, depth)
    } else if tokens.starts(&[Kind::Minus, Kind::OpenParen]) {
        assignment(alloc, tokens, depth)
    } else if tokens.starts(&[Kind::Return]) {
        return_statement(alloc, tokens, depth)
    } else if tokens.starts(&[Kind::Throw]) {
        throw_statement(alloc, tokens, depth)
    } else {
        print_statement(alloc, tokens, depth)
    }
}

#[cycle(statements)]
fn if_statement(
    alloc: Global,
    tokens: &mut Tokens<'_>,
    depth: usize,
) -> Result<ReadStmt, ParseError>
    ensures { Met (reading depth rules.if_statement (cursor_of tokens.old)) result (cursor_of tokens.new) }
{
    let from = tokens.ahead();
    let left = tokens.left;
    let depth = nest(tokens, Kind::If, depth)?;
    let bodies = Bodies {
        alloc,
        depth,
        block,
    };
    let (condition, then_block, else_ifs, else_block) = bodies.if_body(tokens)?;
    tokens.left = left;
    Ok(ReadStmt::If(
        tokens.since(from),
        condition,
        then_block,
        else_ifs,
        else_block,
    ))
}

#[cycle(statements)]
fn case_statement(
    alloc: Global,
    tokens: &mut Tokens<'_>,
    depth: usize,
) -> Result<ReadStmt, ParseError>
    ensures { Met (reading depth rules.case_statement (cursor_of tokens.old)) result (cursor_of tokens.new) }
{
    let from = tokens.ahead();
    let left = tokens.left;
    let depth = nest(tokens, Kind::Case, depth)?;
    let bodies = Bodies {
        alloc,
        depth,
        block,
    };
    let (subject, alternatives, otherwise) = bodies.case_body(tokens)?;
    tokens.left = left;
    Ok(ReadStmt::Case(tokens.since(from), subject, alternatives, otherwise))
}

#[cycle(statements)]
fn for_statement(
    alloc: Global,
    tokens: &mut Tokens<'_>,
    depth: usize,
) -> Result<ReadStmt, ParseError>
    ensures { Met (reading depth rules.for_statement (cursor_of tokens.old)) result (cursor_of tokens.new) }
{
    let from = tokens.ahead();
    let left = tokens.left;
    let depth = nest(tokens, Kind::For, depth)?;
    let bodies = Bodies {
        alloc,
        depth,
        block,
    };
    let (name, first, direction, last, limit, body) = bodies.for_body(tokens)?;
    tokens.left = left;
    Ok(ReadStmt::For(
        tokens.since(from),
        name,
        first,
        direction,
        last,
        limit,
        body,
    ))
}

#[cycle(statements)]
fn while_statement(
    alloc: Global,
    tokens: &mut Tokens<'_>,
    depth: usize,
) -> Result<ReadStmt, ParseError>
    ensures { Met (reading depth rules.while_statement (cursor_of tokens.old)) result (cursor_of tokens.new) }
{
    let from = tokens.ahead();
    let left = tokens.left;
    let depth = nest(tokens, Kind::While, depth)?;
    let bodies = Bodies {
        alloc,
        depth,
        block,
    };
    let (condition, limit, body) = bodies.while_body(tokens)?;
    tokens.left = left;
    Ok(ReadStmt::While(tokens.since(from), condition, limit, body))
}

#[cycle(statements)]
fn repeat_statement(
    alloc: Global,
    tokens: &mut Tokens<'_>,
    depth: usize,
) -> Result<ReadStmt, ParseError>
    ensures { Met (reading depth rules.repeat_statement (cursor_of tokens.old)) result (cursor_of tokens.new) }
{
    let from = tokens.ahead();
    let left = tokens.left;
    let depth = nest(tokens, Kind::Repeat, depth)?;
    let bodies = Bodies {
        alloc,
        depth,
        block,
    };
    let (body, condition, limit) = bodies.repeat_body(tokens)?;
    tokens.left = left;
    Ok(ReadStmt::Repeat(tokens.since(from), body, condition, limit))
}

#[cycle(statements)]
fn try_statement(
    alloc: Global,
    tokens: &mut Tokens<'_>,
    depth: usize,
) -> Result<ReadStmt, ParseError>
    ensures { Met (reading depth rules.try_statement (cursor_of tokens.old)) result (cursor_of tokens.new) }
{
    let from = tokens.ahead();
    let left = tokens.left;
    let depth = nest(tokens, Kind::Try, depth)?;
    let bodies = Bodies {
        alloc,
        depth,
        block,
    };
    let (body, catchers, otherwise) = bodies.try_body(tokens)?;
    tokens.left = left;
    Ok(ReadStmt::Try(tokens.since(from), body, catchers, otherwise))
}

#[cycle(statements)]
fn statement(alloc: Global, tokens: &mut Tokens<'_>, depth: usize) -> Result<ReadStmt, ParseError>
    ensures { Met (reading depth rules.statement (cursor_of tokens.old)) result (cursor_of tokens.new) }
{
    if tokens.starts(&SIMPLE_STATEMENT) {
        Ok(ReadStmt::Simple(simple_statement(alloc, tokens, depth)?))
    } else if tokens.starts(&NAME) {
        name_statement(alloc, tokens, depth)
    } else if tokens.starts(&[Kind::If]) {
        if_statement(alloc, tokens, depth)
    } else if tokens.starts(&[Kind::Case]) {
        case_statement(alloc, tokens, depth)
    } else if tokens.starts(&[Kind::For]) {
        for_statement(alloc, tokens, depth)
    } else if tokens.starts(&[Kind::While]) {
        while_statement(alloc, tokens, depth)
    } else if tokens.starts(&[Kind::Repeat]) {
        repeat_statement(alloc, tokens, depth)
    } else {
        try_statement(alloc, tokens, depth)
    }
}

/// Statements, as many as there are.
#[cycle(statements)]
#[tactic(auto, using(crate::proofs::Steps::block_is))]
pub fn block(
    alloc: Global,
    tokens: &mut Tokens<'_>,
    depth: usize,
) -> Result<Items<ReadStmt>, ParseError>
    ensures { Met (reading depth rules.block (cursor_of tokens.old)) result (cursor_of tokens.new) }
{
    let mut found = Items::new(alloc);
    for _turn in 0..tokens.len() {
        if !tokens.starts(&STATEMENT) {
            return Ok(found);
        }
        found.push(statement(alloc, tokens, depth)?)?;
    }
    Ok(found)
}
