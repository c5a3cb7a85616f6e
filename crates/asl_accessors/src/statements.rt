//! Statements, written out.

ghost use Rattle.std.specs.Prelude.{◌≡◌, ◌++◌, IfOk, OnOk, map};
ghost use Rattle.asl_rules.specs.declarations.WrittenOut as rules;

use crate::lists::reversed;
use crate::stores::{Store, write_store};
use asl_shared::Held;
use asl_syn::read::{ReadAlternative, ReadCatcher, ReadElseIf, ReadOtherwise, ReadStmt};
use asl_syn::tree::{Alternative, Catcher, ElseIf, Otherwise, Stmt};
use sqlite_items::Items;
use std::alloc::{AllocError, Global};

/// Writes out a statement, behind what is written.
#[cycle(writing)]
fn write_stmt(alloc: Global, stmt: ReadStmt, written: &mut Items<Stmt>) -> Result<(), AllocError>
    ensures { OnOk result (written.new ≡ written.old ++ rules.stmt_written stmt) }
{
    match stmt {
        ReadStmt::Simple(stmt) => {
            written.push(stmt)?;
        }
        ReadStmt::Store(at, name, parameters, arguments, suffixes, value) => {
            let store = Store {
                at,
                name,
                parameters,
                arguments,
                suffixes,
                value: Held::new(value),
            };
            write_store(alloc, store, written)?;
        }
        ReadStmt::If(span, condition, first, others, last) => {
            let condition = Held::new(condition);
            let first = write_stmts(alloc, first)?;
            let others = write_else_ifs(alloc, others)?;
            let last = write_stmts(alloc, last)?;
            written.push(Stmt::If(span, condition.into_inner(), first, others, last))?;
        }
        ReadStmt::Case(span, subject, alternatives, otherwise) => {
            let subject = Held::new(subject);
            let otherwise = Held::new(otherwise);
            let alternatives = write_alternatives(alloc, alternatives)?;
            let otherwise = write_otherwise(alloc, otherwise.into_inner())?;
            written.push(Stmt::Case(span, subject.into_inner(), alternatives, otherwise))?;
        }
        ReadStmt::For(span, index, from, direction, to, limit, body) => {
            let (from, to, limit) = (Held::new(from), Held::new(to), Held::new(limit));
            let body = write_stmts(alloc, body)?;
            let (from, to, limit) = (from.into_inner(), to.into_inner(), limit.into_inner());
            written.push(Stmt::For(span, index, from, direction, to, limit, body))?;
        }
        ReadStmt::While(span, condition, limit, body) => {
            let (condition, limit) = (Held::new(condition), Held::new(limit));
            let body = write_stmts(alloc, body)?;
            let (condition, limit) = (condition.into_inner(), limit.into_inner());
            written.push(Stmt::While(span, condition, limit, body))?;
        }
        ReadStmt::Repeat(span, body, condition, limit) => {
            let (condition, limit) = (Held::new(condition), Held::new(limit));
            let body = write_stmts(alloc, body)?;
            let (condition, limit) = (condition.into_inner(), limit.into_inner());
            written.push(Stmt::Repeat(span, body, condition, limit))?;
        }
        ReadStmt::Try(span, body, catchers, otherwise) => {
            let otherwise = Held::new(otherwise);
            let body = write_stmts(alloc, body)?;
            let catchers = write_catchers(alloc, catchers)?;
            let otherwise = write_otherwise(alloc, otherwise.into_inner())?;
            written.push(Stmt::Try(span, body, catchers, otherwise))?;
        }
    }
    Ok(())
}

/// Statements, written out.
#[cycle(writing)]
pub fn write_stmts(alloc: Global, stmts: Items<ReadStmt>) -> Result<Items<Stmt>, AllocError>
    ensures { IfOk result (λ written. written ≡ rules.list_written stmts) }
{
    let mut rest = reversed(alloc, stmts)?;
    let mut written = Items::new(alloc);
    while let Some(stmt) = rest.pop() {
        write_stmt(alloc, stmt, &mut written)?;
    }
    Ok(written)
}

/// A branch of an `if`, written out.
#[cycle(writing)]
fn write_else_if(alloc: Global, branch: ReadElseIf) -> Result<ElseIf, AllocError>
    ensures { IfOk result (λ written. written ≡ rules.else_if_written branch) }
{
    let ReadElseIf::ElseIf(condition, body) = branch;
    let condition = Held::new(condition);
    let body = write_stmts(alloc, body)?;
    Ok(ElseIf::ElseIf(condition.into_inner(), body))
}

/// The branches of an `if`, written out.
#[cycle(writing)]
fn write_else_ifs(alloc: Global, branches: Items<ReadElseIf>) -> Result<Items<ElseIf>, AllocError>
    ensures { IfOk result (λ written. written ≡ map rules.else_if_written branches) }
{
    let mut rest = reversed(alloc, branches)?;
    let mut written = Items::new(alloc);
    while let Some(branch) = rest.pop() {
        written.push(write_else_if(alloc, branch)?)?;
    }
    Ok(written)
}

/// An alternative of a `case`, written out.
#[cycle(writing)]
fn write_alternative(alloc: Global, alternative: ReadAlternative) -> Result<Alternative, AllocError>
    ensures { IfOk result (λ written. written ≡ rules.alternative_written alternative) }
{
    let ReadAlternative::When(patterns, condition, body) = alternative;
    let condition = Held::new(condition);
    let body = write_stmts(alloc, body)?;
    Ok(Alternative::When(patterns, condition.into_inner(), body))
}

/// The alternatives of a `case`, written out.
#[cycle(writing)]
fn write_alternatives(
    alloc: Global,
    alternatives: Items<ReadAlternative>,
) -> Result<Items<Alternative>, AllocError>
    ensures { IfOk result (λ written. written ≡ map rules.alternative_written alternatives) }
{
    let mut rest = reversed(alloc, alternatives)?;
    let mut written = Items::new(alloc);
    while let Some(alternative) = rest.pop() {
        written.push(write_alternative(alloc, alternative)?)?;
    }
    Ok(written)
}

/// A catcher of a `try`, written out.
#[cycle(writing)]
fn write_catcher(alloc: Global, catcher: ReadCatcher) -> Result<Catcher, AllocError>
    ensures { IfOk result (λ written. written ≡ rules.catcher_written catcher) }
{
    let ReadCatcher::Catch(name, ty, body) = catcher;
    let body = write_stmts(alloc, body)?;
    Ok(Catcher::Catch(name, ty, body))
}

/// The catchers of a `try`, written out.
#[cycle(writing)]
fn write_catchers(alloc: Global, catchers: Items<ReadCatcher>) -> Result<Items<Catcher>, AllocError>
    ensures { IfOk result (λ written. written ≡ map rules.catcher_written catchers) }
{
    let mut rest = reversed(alloc, catchers)?;
    let mut written = Items::new(alloc);
    while let Some(catcher) = rest.pop() {
        written.push(write_catcher(alloc, catcher)?)?;
    }
    Ok(written)
}

/// What is done otherwise, written out.
#[cycle(writing)]
fn write_otherwise(alloc: Global, otherwise: ReadOtherwise) -> Result<Otherwise, AllocError>
    ensures { IfOk result (λ written. written ≡ rules.otherwise_written otherwise) }
{
    match otherwise {
        ReadOtherwise::NoOtherwise => Ok(Otherwise::NoOtherwise),
        ReadOtherwise::Otherwise(body) => Ok(Otherwise::Otherwise(write_stmts(alloc, body)?)),
    }
}
