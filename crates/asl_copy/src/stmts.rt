//! Copies of statements.

ghost use Rattle.std.specs.Prelude.{◌≡◌, IfOk};

use crate::exprs::{
    copy_expr, copy_exprs, copy_maybe_expr, copy_maybe_type, copy_patterns, copy_type,
};
use crate::names::{copy_ident, copy_idents, copy_maybe_ident, copy_text};
use crate::targets::copy_target;
use asl_syn::tree::{Alternative, Bind, Binder, Catcher, ElseIf, Otherwise, PrintItem, Stmt};
use sqlite_items::Items;
use std::alloc::{AllocError, Global};

/// A copy of a name that is declared, or of `-`.
fn copy_binder(alloc: Global, binder: &Binder) -> Result<Binder, AllocError>
    ensures { IfOk result (λ copy. copy ≡ binder.now) }
{
    match binder {
        Binder::Bound(name) => Ok(Binder::Bound(copy_ident(alloc, name)?)),
        Binder::Unbound(span) => Ok(Binder::Unbound(*span)),
    }
}

/// Copies of these.
fn copy_binders(alloc: Global, items: &[Binder]) -> Result<Items<Binder>, AllocError>
    ensures { IfOk result (λ copies. copies ≡ items.now) }
{
    let mut copies = Items::new(alloc);
    for item in items {
        copies.push(copy_binder(alloc, item)?)?;
    }
    Ok(copies)
}

/// A copy of the names that a local declaration declares.
fn copy_bind(alloc: Global, bind: &Bind) -> Result<Bind, AllocError>
    ensures { IfOk result (λ copy. copy ≡ bind.now) }
{
    match bind {
        Bind::Single(binder) => Ok(Bind::Single(copy_binder(alloc, binder)?)),
        Bind::Several(span, binders) => {
            Ok(Bind::Several(*span, copy_binders(alloc, binders.as_slice())?))
        }
    }
}

/// A copy of a thing that is printed.
fn copy_print_item(alloc: Global, item: &PrintItem) -> Result<PrintItem, AllocError>
    ensures { IfOk result (λ copy. copy ≡ item.now) }
{
    match item {
        PrintItem::Verbatim(span, text) => {
            Ok(PrintItem::Verbatim(*span, copy_text(alloc, text)?))
        }
        PrintItem::Shown(value) => Ok(PrintItem::Shown(copy_expr(alloc, value)?)),
    }
}

/// Copies of things that are printed.
fn copy_print_items(alloc: Global, items: &[PrintItem]) -> Result<Items<PrintItem>, AllocError>
    ensures { IfOk result (λ copies. copies ≡ items.now) }
{
    let mut copies = Items::new(alloc);
    for item in items {
        copies.push(copy_print_item(alloc, item)?)?;
    }
    Ok(copies)
}

/// A copy of a statement.
#[cycle(stmt_copies)]
pub fn copy_stmt(alloc: Global, stmt: &Stmt) -> Result<Stmt, AllocError>
    ensures { IfOk result (λ copy. copy ≡ stmt.now) }
{
    match stmt {
        Stmt::Pass(span) => Ok(Stmt::Pass(*span)),
        Stmt::Unreachable(span) => Ok(Stmt::Unreachable(*span)),
        Stmt::Assert(span, condition) => Ok(Stmt::Assert(*span, copy_expr(alloc, condition)?)),
        Stmt::Print(span, kind, items) => {
            Ok(Stmt::Print(*span, *kind, copy_print_items(alloc, items.as_slice())?))
        }
        Stmt::Local(span, kind, bind, ty, value) => {
            let bind = copy_bind(alloc, bind)?;
            let ty = copy_maybe_type(alloc, ty)?;
            let value = copy_expr(alloc, value)?;
            Ok(Stmt::Local(*span, *kind, bind, ty, value))
        }
        Stmt::LocalVars(span, names, ty) => {
            let names = copy_idents(alloc, names.as_slice())?;
            let ty = copy_type(alloc, ty)?;
            Ok(Stmt::LocalVars(*span, names, ty))
        }
        Stmt::Assign(span, target, value) => {
            let target = copy_target(alloc, target)?;
            let value = copy_expr(alloc, value)?;
            Ok(Stmt::Assign(*span, target, value))
        }
        Stmt::Invoke(span, name, parameters, arguments) => {
            let name = copy_ident(alloc, name)?;
            let parameters = copy_exprs(alloc, parameters.as_slice())?;
            let arguments = copy_exprs(alloc, arguments.as_slice())?;
            Ok(Stmt::Invoke(*span, name, parameters, arguments))
        }
        Stmt::Return(span, value) => Ok(Stmt::Return(*span, copy_maybe_expr(alloc, value)?)),
        Stmt::Throw(span, value) => Ok(Stmt::Throw(*span, copy_maybe_expr(alloc, value)?)),
        Stmt::If(span, condition, first, others, last) => {
            let condition = copy_expr(alloc, condition)?;
            let first = copy_stmts(alloc, first.as_slice())?;
            let others = copy_else_ifs(alloc, others.as_slice())?;
            let last = copy_stmts(alloc, last.as_slice())?;
            Ok(Stmt::If(*span, condition, first, others, last))
        }
        Stmt::Case(span, subject, alternatives, otherwise) => {
            let subject = copy_expr(alloc, subject)?;
            let alternatives = copy_alternatives(alloc, alternatives.as_slice())?;
            let otherwise = copy_otherwise(alloc, otherwise)?;
            Ok(Stmt::Case(*span, subject, alternatives, otherwise))
        }
        Stmt::For(span, index, from, direction, to, limit, body) => {
            let index = copy_ident(alloc, index)?;
            let from = copy_expr(alloc, from)?;
            let to = copy_expr(alloc, to)?;
            let limit = copy_maybe_expr(alloc, limit)?;
            let body = copy_stmts(alloc, body.as_slice())?;
            Ok(Stmt::For(*span, index, from, *direction, to, limit, body))
        }
        Stmt::While(span, condition, limit, body) => {
            let condition = copy_expr(alloc, condition)?;
            let limit = copy_maybe_expr(alloc, limit)?;
            let body = copy_stmts(alloc, body.as_slice())?;
            Ok(Stmt::While(*span, condition, limit, body))
        }
        Stmt::Repeat(span, body, condition, limit) => {
            let body = copy_stmts(alloc, body.as_slice())?;
            let condition = copy_expr(alloc, condition)?;
            let limit = copy_maybe_expr(alloc, limit)?;
            Ok(Stmt::Repeat(*span, body, condition, limit))
        }
        Stmt::Try(span, body, catchers, otherwise) => {
            let body = copy_stmts(alloc, body.as_slice())?;
            let catchers = copy_catchers(alloc, catchers.as_slice())?;
            let otherwise = copy_otherwise(alloc, otherwise)?;
            Ok(Stmt::Try(*span, body, catchers, otherwise))
        }
    }
}

/// Copies of statements.
#[cycle(stmt_copies)]
pub fn copy_stmts(alloc: Global, items: &[Stmt]) -> Result<Items<Stmt>, AllocError>
    ensures { IfOk result (λ copies. copies ≡ items.now) }
{
    let mut copies = Items::new(alloc);
    for item in items {
        copies.push(copy_stmt(alloc, item)?)?;
    }
    Ok(copies)
}

/// A copy of an `elsif`.
#[cycle(stmt_copies)]
fn copy_else_if(alloc: Global, branch: &ElseIf) -> Result<ElseIf, AllocError>
    ensures { IfOk result (λ copy. copy ≡ branch.now) }
{
    let ElseIf::ElseIf(condition, body) = branch;
    let condition = copy_expr(alloc, condition)?;
    let body = copy_stmts(alloc, body.as_slice())?;
    Ok(ElseIf::ElseIf(condition, body))
}

/// Copies of `elsif`s.
#[cycle(stmt_copies)]
fn copy_else_ifs(alloc: Global, items: &[ElseIf]) -> Result<Items<ElseIf>, AllocError>
    ensures { IfOk result (λ copies. copies ≡ items.now) }
{
    let mut copies = Items::new(alloc);
    for item in items {
        copies.push(copy_else_if(alloc, item)?)?;
    }
    Ok(copies)
}

/// A copy of an alternative.
#[cycle(stmt_copies)]
fn copy_alternative(alloc: Global, alternative: &Alternative) -> Result<Alternative, AllocError>
    ensures { IfOk result (λ copy. copy ≡ alternative.now) }
{
    let Alternative::When(patterns, condition, body) = alternative;
    let patterns = copy_patterns(alloc, patterns.as_slice())?;
    let condition = copy_maybe_expr(alloc, condition)?;
    let body = copy_stmts(alloc, body.as_slice())?;
    Ok(Alternative::When(patterns, condition, body))
}

/// Copies of alternatives.
#[cycle(stmt_copies)]
fn copy_alternatives(alloc: Global, items: &[Alternative]) -> Result<Items<Alternative>, AllocError>
    ensures { IfOk result (λ copies. copies ≡ items.now) }
{
    let mut copies = Items::new(alloc);
    for item in items {
        copies.push(copy_alternative(alloc, item)?)?;
    }
    Ok(copies)
}

/// A copy of a catcher.
#[cycle(stmt_copies)]
fn copy_catcher(alloc: Global, catcher: &Catcher) -> Result<Catcher, AllocError>
    ensures { IfOk result (λ copy. copy ≡ catcher.now) }
{
    let Catcher::Catch(name, ty, body) = catcher;
    let name = copy_maybe_ident(alloc, name)?;
    let ty = copy_ident(alloc, ty)?;
    let body = copy_stmts(alloc, body.as_slice())?;
    Ok(Catcher::Catch(name, ty, body))
}

/// Copies of catchers.
#[cycle(stmt_copies)]
fn copy_catchers(alloc: Global, items: &[Catcher]) -> Result<Items<Catcher>, AllocError>
    ensures { IfOk result (λ copies. copies ≡ items.now) }
{
    let mut copies = Items::new(alloc);
    for item in items {
        copies.push(copy_catcher(alloc, item)?)?;
    }
    Ok(copies)
}

/// A copy of what is done otherwise.
#[cycle(stmt_copies)]
fn copy_otherwise(alloc: Global, otherwise: &Otherwise) -> Result<Otherwise, AllocError>
    ensures { IfOk result (λ copy. copy ≡ otherwise.now) }
{
    match otherwise {
        Otherwise::NoOtherwise => Ok(Otherwise::NoOtherwise),
        Otherwise::Otherwise(body) => {
            Ok(Otherwise::Otherwise(copy_stmts(alloc, body.as_slice())?))
        }
    }
}
