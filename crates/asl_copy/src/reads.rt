//! Copies of statements as they are read.

ghost use Rattle.std.specs.Prelude.{◌≡◌, IfOk};

use crate::exprs::{copy_expr, copy_exprs, copy_maybe_expr, copy_patterns};
use crate::names::{copy_ident, copy_maybe_ident};
use crate::stmts::copy_stmt;
use crate::targets::copy_suffixes;
use asl_syn::read::{ReadAlternative, ReadCatcher, ReadElseIf, ReadOtherwise, ReadStmt};
use sqlite_items::Items;
use std::alloc::{AllocError, Global};

/// A copy of a statement as it is read.
#[cycle(read_copies)]
pub fn copy_read_stmt(alloc: Global, stmt: &ReadStmt) -> Result<ReadStmt, AllocError>
    ensures { IfOk result (λ copy. copy ≡ stmt.now) }
{
    match stmt {
        ReadStmt::Simple(stmt) => Ok(ReadStmt::Simple(copy_stmt(alloc, stmt)?)),
        ReadStmt::Store(span, name, parameters, arguments, suffixes, value) => {
            let name = copy_ident(alloc, name)?;
            let parameters = copy_exprs(alloc, parameters.as_slice())?;
            let arguments = copy_exprs(alloc, arguments.as_slice())?;
            let suffixes = copy_suffixes(alloc, suffixes.as_slice())?;
            let value = copy_expr(alloc, value)?;
            Ok(ReadStmt::Store(*span, name, parameters, arguments, suffixes, value))
        }
        ReadStmt::If(span, condition, first, others, last) => {
            let condition = copy_expr(alloc, condition)?;
            let first = copy_read_stmts(alloc, first.as_slice())?;
            let others = copy_read_else_ifs(alloc, others.as_slice())?;
            let last = copy_read_stmts(alloc, last.as_slice())?;
            Ok(ReadStmt::If(*span, condition, first, others, last))
        }
        ReadStmt::Case(span, subject, alternatives, otherwise) => {
            let subject = copy_expr(alloc, subject)?;
            let alternatives = copy_read_alternatives(alloc, alternatives.as_slice())?;
            let otherwise = copy_read_otherwise(alloc, otherwise)?;
            Ok(ReadStmt::Case(*span, subject, alternatives, otherwise))
        }
        ReadStmt::For(span, index, from, direction, to, limit, body) => {
            let index = copy_ident(alloc, index)?;
            let from = copy_expr(alloc, from)?;
            let to = copy_expr(alloc, to)?;
            let limit = copy_maybe_expr(alloc, limit)?;
            let body = copy_read_stmts(alloc, body.as_slice())?;
            Ok(ReadStmt::For(*span, index, from, *direction, to, limit, body))
        }
        ReadStmt::While(span, condition, limit, body) => {
            let condition = copy_expr(alloc, condition)?;
            let limit = copy_maybe_expr(alloc, limit)?;
            let body = copy_read_stmts(alloc, body.as_slice())?;
            Ok(ReadStmt::While(*span, condition, limit, body))
        }
        ReadStmt::Repeat(span, body, condition, limit) => {
            let body = copy_read_stmts(alloc, body.as_slice())?;
            let condition = copy_expr(alloc, condition)?;
            let limit = copy_maybe_expr(alloc, limit)?;
            Ok(ReadStmt::Repeat(*span, body, condition, limit))
        }
        ReadStmt::Try(span, body, catchers, otherwise) => {
            let body = copy_read_stmts(alloc, body.as_slice())?;
            let catchers = copy_read_catchers(alloc, catchers.as_slice())?;
            let otherwise = copy_read_otherwise(alloc, otherwise)?;
            Ok(ReadStmt::Try(*span, body, catchers, otherwise))
        }
    }
}

/// Copies of statements as they are read.
#[cycle(read_copies)]
pub fn copy_read_stmts(alloc: Global, items: &[ReadStmt]) -> Result<Items<ReadStmt>, AllocError>
    ensures { IfOk result (λ copies. copies ≡ items.now) }
{
    let mut copies = Items::new(alloc);
    for item in items {
        copies.push(copy_read_stmt(alloc, item)?)?;
    }
    Ok(copies)
}

/// A copy of an `elsif`.
#[cycle(read_copies)]
fn copy_read_else_if(alloc: Global, branch: &ReadElseIf) -> Result<ReadElseIf, AllocError>
    ensures { IfOk result (λ copy. copy ≡ branch.now) }
{
    let ReadElseIf::ElseIf(condition, body) = branch;
    let condition = copy_expr(alloc, condition)?;
    let body = copy_read_stmts(alloc, body.as_slice())?;
    Ok(ReadElseIf::ElseIf(condition, body))
}

/// Copies of `elsif`s.
#[cycle(read_copies)]
fn copy_read_else_ifs(alloc: Global, items: &[ReadElseIf]) -> Result<Items<ReadElseIf>, AllocError>
    ensures { IfOk result (λ copies. copies ≡ items.now) }
{
    let mut copies = Items::new(alloc);
    for item in items {
        copies.push(copy_read_else_if(alloc, item)?)?;
    }
    Ok(copies)
}

/// A copy of an alternative.
#[cycle(read_copies)]
fn copy_read_alternative(
    alloc: Global,
    alternative: &ReadAlternative,
) -> Result<ReadAlternative, AllocError>
    ensures { IfOk result (λ copy. copy ≡ alternative.now) }
{
    let ReadAlternative::When(patterns, condition, body) = alternative;
    let patterns = copy_patterns(alloc, patterns.as_slice())?;
    let condition = copy_maybe_expr(alloc, condition)?;
    let body = copy_read_stmts(alloc, body.as_slice())?;
    Ok(ReadAlternative::When(patterns, condition, body))
}

/// Copies of alternatives.
#[cycle(read_copies)]
fn copy_read_alternatives(
    alloc: Global,
    items: &[ReadAlternative],
) -> Result<Items<ReadAlternative>, AllocError>
    ensures { IfOk result (λ copies. copies ≡ items.now) }
{
    let mut copies = Items::new(alloc);
    for item in items {
        copies.push(copy_read_alternative(alloc, item)?)?;
    }
    Ok(copies)
}

/// A copy of a catcher.
#[cycle(read_copies)]
fn copy_read_catcher(alloc: Global, catcher: &ReadCatcher) -> Result<ReadCatcher, AllocError>
    ensures { IfOk result (λ copy. copy ≡ catcher.now) }
{
    let ReadCatcher::Catch(name, ty, body) = catcher;
    let name = copy_maybe_ident(alloc, name)?;
    let ty = copy_ident(alloc, ty)?;
    let body = copy_read_stmts(alloc, body.as_slice())?;
    Ok(ReadCatcher::Catch(name, ty, body))
}

/// Copies of catchers.
#[cycle(read_copies)]
fn copy_read_catchers(
    alloc: Global,
    items: &[ReadCatcher],
) -> Result<Items<ReadCatcher>, AllocError>
    ensures { IfOk result (λ copies. copies ≡ items.now) }
{
    let mut copies = Items::new(alloc);
    for item in items {
        copies.push(copy_read_catcher(alloc, item)?)?;
    }
    Ok(copies)
}

/// A copy of what is done otherwise.
#[cycle(read_copies)]
fn copy_read_otherwise(
    alloc: Global,
    otherwise: &ReadOtherwise,
) -> Result<ReadOtherwise, AllocError>
    ensures { IfOk result (λ copy. copy ≡ otherwise.now) }
{
    match otherwise {
        ReadOtherwise::NoOtherwise => Ok(ReadOtherwise::NoOtherwise),
        ReadOtherwise::Otherwise(body) => {
            Ok(ReadOtherwise::Otherwise(copy_read_stmts(alloc, body.as_slice())?))
        }
    }
}
