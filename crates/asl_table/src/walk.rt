//! The tables of a program.

ghost use Rattle.std.specs.Prelude.{◌≡◌, ◌++◌, map, All, IfOk, OnOk};
ghost use Rattle.asl_rules.specs.report.MaskTables as rules;
ghost use Rattle.asl_rules.specs.declarations.WrittenOut.{joined};
ghost use Rattle.asl_table.specs.View.{table_view, HasWidth};
ghost use Rattle.asl_table.specs.private.Walk.{inside, else_if_cases, catcher_cases, otherwise_cases};

use crate::cases::{Tables, push_case};
use crate::table::MaskTable;
use asl_syn::read::{
    ReadAlternative, ReadCatcher, ReadDecl, ReadElseIf, ReadOtherwise, ReadProgram, ReadStmt,
};
use std::alloc::{AllocError, Global};

/// Adds the tables of a statement.
#[cycle(walk)]
fn add_stmt(alloc: Global, stmt: &ReadStmt, tables: &mut Tables) -> Result<(), AllocError>
    ensures { OnOk result (tables.new ≡ tables.old ++ rules.tables_from (rules.cases_in stmt.now)) }
{
    match stmt {
        ReadStmt::Simple(_) => Ok(()),
        ReadStmt::Store(_, _, _, _, _, _) => Ok(()),
        ReadStmt::If(_, _, first, others, last) => {
            add_stmts(alloc, first.as_slice(), tables)?;
            add_else_ifs(alloc, others.as_slice(), tables)?;
            add_stmts(alloc, last.as_slice(), tables)
        }
        ReadStmt::Case(span, _, alternatives, otherwise) => {
            push_case(alloc, *span, alternatives.as_slice(), tables)?;
            add_alternatives(alloc, alternatives.as_slice(), tables)?;
            add_otherwise(alloc, otherwise, tables)
        }
        ReadStmt::For(_, _, _, _, _, _, body) => add_stmts(alloc, body.as_slice(), tables),
        ReadStmt::While(_, _, _, body) => add_stmts(alloc, body.as_slice(), tables),
        ReadStmt::Repeat(_, body, _, _) => add_stmts(alloc, body.as_slice(), tables),
        ReadStmt::Try(_, body, catchers, otherwise) => {
            add_stmts(alloc, body.as_slice(), tables)?;
            add_catchers(alloc, catchers.as_slice(), tables)?;
            add_otherwise(alloc, otherwise, tables)
        }
    }
}

/// Adds the tables of statements.
#[cycle(walk)]
fn add_stmts(alloc: Global, stmts: &[ReadStmt], tables: &mut Tables) -> Result<(), AllocError>
    ensures { OnOk result (tables.new ≡ tables.old ++ rules.tables_from (joined (map rules.cases_in stmts.now))) }
{
    for stmt in stmts {
        add_stmt(alloc, stmt, tables)?;
    }
    Ok(())
}

/// Adds the tables of the list of an `elsif`.
#[cycle(walk)]
fn add_else_if(alloc: Global, branch: &ReadElseIf, tables: &mut Tables) -> Result<(), AllocError>
    ensures { OnOk result (tables.new ≡ tables.old ++ rules.tables_from (else_if_cases branch.now)) }
{
    match branch {
        ReadElseIf::ElseIf(_, body) => add_stmts(alloc, body.as_slice(), tables),
    }
}

/// Adds the tables of the lists of `elsif`s.
#[cycle(walk)]
fn add_else_ifs(
    alloc: Global,
    branches: &[ReadElseIf],
    tables: &mut Tables,
) -> Result<(), AllocError>
    ensures { OnOk result (tables.new ≡ tables.old ++ rules.tables_from (joined (map else_if_cases branches.now))) }
{
    for branch in branches {
        add_else_if(alloc, branch, tables)?;
    }
    Ok(())
}

/// Adds the tables of the list of an alternative.
#[cycle(walk)]
fn add_alternative(
    alloc: Global,
    alternative: &ReadAlternative,
    tables: &mut Tables,
) -> Result<(), AllocError>
    ensures { OnOk result (tables.new ≡ tables.old ++ rules.tables_from (inside alternative.now)) }
{
    match alternative {
        ReadAlternative::When(_, _, body) => add_stmts(alloc, body.as_slice(), tables),
    }
}

/// Adds the tables of the lists of alternatives.
#[cycle(walk)]
fn add_alternatives(
    alloc: Global,
    alternatives: &[ReadAlternative],
    tables: &mut Tables,
) -> Result<(), AllocError>
    ensures { OnOk result (tables.new ≡ tables.old ++ rules.tables_from (joined (map inside alternatives.now))) }
{
    for alternative in alternatives {
        add_alternative(alloc, alternative, tables)?;
    }
    Ok(())
}

/// Adds the tables of the list of a catcher.
#[cycle(walk)]
fn add_catcher(alloc: Global, catcher: &ReadCatcher, tables: &mut Tables) -> Result<(), AllocError>
    ensures { OnOk result (tables.new ≡ tables.old ++ rules.tables_from (catcher_cases catcher.now)) }
{
    match catcher {
        ReadCatcher::Catch(_, _, body) => add_stmts(alloc, body.as_slice(), tables),
    }
}

/// Adds the tables of the lists of catchers.
#[cycle(walk)]
fn add_catchers(
    alloc: Global,
    catchers: &[ReadCatcher],
    tables: &mut Tables,
) -> Result<(), AllocError>
    ensures { OnOk result (tables.new ≡ tables.old ++ rules.tables_from (joined (map catcher_cases catchers.now))) }
{
    for catcher in catchers {
        add_catcher(alloc, catcher, tables)?;
    }
    Ok(())
}

/// Adds the tables of what is done otherwise.
#[cycle(walk)]
fn add_otherwise(
    alloc: Global,
    otherwise: &ReadOtherwise,
    tables: &mut Tables,
) -> Result<(), AllocError>
    ensures { OnOk result (tables.new ≡ tables.old ++ rules.tables_from (otherwise_cases otherwise.now)) }
{
    match otherwise {
        ReadOtherwise::NoOtherwise => Ok(()),
        ReadOtherwise::Otherwise(body) => add_stmts(alloc, body.as_slice(), tables),
    }
}

/// Adds the tables of a declaration: of an accessor those of its getter, and then those of its setter.
fn add_decl(alloc: Global, decl: &ReadDecl, tables: &mut Tables) -> Result<(), AllocError>
    ensures { OnOk result (tables.new ≡ tables.old ++ rules.tables_from (joined (map rules.cases_in (rules.body_of decl.now)))) }
{
    match decl {
        ReadDecl::Type(_) | ReadDecl::Storage(_) => Ok(()),
        ReadDecl::Func(func) => add_stmts(alloc, func.body.as_slice(), tables),
        ReadDecl::Accessor(accessor) => {
            add_stmts(alloc, accessor.getter.as_slice(), tables)?;
            add_stmts(alloc, accessor.setter.as_slice(), tables)
        }
    }
}

/// The tables of declarations as they are read.
#[tactic(auto, using(crate::proofs::Appending::one_decl))]
fn tables_in(alloc: Global, decls: &[ReadDecl]) -> Result<Tables, AllocError>
    ensures { IfOk result (λ tables. tables ≡ rules.tables_from (rules.cases_of decls.now)) }
{
    let mut tables = Tables::new(alloc);
    for decl in decls {
        add_decl(alloc, decl, &mut tables)?;
    }
    Ok(tables)
}

/// The tables of a program as it is read, in source order: of each `case` that has an alternative, and only masks and literals
/// of bits as patterns, all of one width, and no condition. One that holds others stands before them. All bodies count, those
/// that may be replaced and those that replace them. An error means that there was no memory.
#[tactic(auto, using(crate::proofs::Widths::all_wide), unfolding(asl_rules::specs::report::MaskTables::tables_of))]
pub fn tables(alloc: Global, program: &ReadProgram) -> Result<Vec<MaskTable>, AllocError>
    ensures is { IfOk result (λ tables. map table_view tables.items ≡ rules.tables_of program.now.decls) }
    ensures wide { IfOk result (λ tables. All HasWidth tables.items) }
{
    let tables = tables_in(alloc, program.decls.as_slice())?;
    Ok(tables.into_tables())
}
