//! Whether the end of a statement can be reached.

ghost use Rattle.std.specs.Prelude.{◌≡◌, map};
ghost use Rattle.asl_rules.specs.statements.Falling as rules;
ghost use Rattle.asl_falling.specs.private.Falls as parts;

use asl_syn::tree::{Alternative, Catcher, ElseIf, Otherwise, Stmt};

/// Whether the end of a statement can be reached.
#[cycle(falls)]
fn falls(s: &Stmt) -> bool
    ensures { result ≡ rules.falls s.now }
{
    match s {
        Stmt::Pass(_) => true,
        Stmt::Unreachable(_) => false,
        Stmt::Assert(_, _) => true,
        Stmt::Local(_, _, _, _, _) => true,
        Stmt::LocalVars(_, _, _) => true,
        Stmt::Assign(_, _, _) => true,
        Stmt::Invoke(_, _, _, _) => true,
        Stmt::If(_, _, first, others, last) => {
            all_fall(first.as_slice())
                || any_branch_falls(others.as_slice())
                || all_fall(last.as_slice())
        }
        Stmt::Case(_, _, alternatives, otherwise) => {
            any_alternative_falls(alternatives.as_slice()) || otherwise_falls(otherwise)
        }
        Stmt::For(_, _, _, _, _, _, _) => true,
        Stmt::While(_, _, _, _) => true,
        Stmt::Repeat(_, _, _, _) => true,
        Stmt::Return(_, _) => false,
        Stmt::Throw(_, _) => false,
        Stmt::Try(_, stmts, catchers, otherwise) => {
            all_fall(stmts.as_slice())
                || any_catcher_falls(catchers.as_slice())
                || otherwise_falls(otherwise)
        }
        Stmt::Print(_, _, _) => true,
    }
}

#[cycle(falls)]
fn all_fall(stmts: &[Stmt]) -> bool
    ensures { result ≡ rules.all_fall (map rules.falls stmts.now) }
{
    for s in stmts {
        if !falls(s) {
            return false;
        }
    }
    true
}

#[cycle(falls)]
fn any_branch_falls(branches: &[ElseIf]) -> bool
    ensures { result ≡ rules.any_falls (map parts.branch_falls branches.now) }
{
    for b in branches {
        match b {
            ElseIf::ElseIf(_, stmts) => {
                if all_fall(stmts.as_slice()) {
                    return true;
                }
            }
        }
    }
    false
}

#[cycle(falls)]
fn any_alternative_falls(alternatives: &[Alternative]) -> bool
    ensures { result ≡ rules.any_falls (map parts.alternative_falls alternatives.now) }
{
    for a in alternatives {
        match a {
            Alternative::When(_, _, stmts) => {
                if all_fall(stmts.as_slice()) {
                    return true;
                }
            }
        }
    }
    false
}

#[cycle(falls)]
fn any_catcher_falls(catchers: &[Catcher]) -> bool
    ensures { result ≡ rules.any_falls (map parts.catcher_falls catchers.now) }
{
    for c in catchers {
        match c {
            Catcher::Catch(_, _, stmts) => {
                if all_fall(stmts.as_slice()) {
                    return true;
                }
            }
        }
    }
    false
}

#[cycle(falls)]
fn otherwise_falls(otherwise: &Otherwise) -> bool
    ensures { result ≡ parts.otherwise_falls otherwise.now }
{
    match otherwise {
        Otherwise::NoOtherwise => false,
        Otherwise::Otherwise(stmts) => all_fall(stmts.as_slice()),
    }
}

/// Whether the end of a list of statements can be reached: that of each of its statements can. The end of a statement
/// with branches can be reached where one of them can be fallen through; that of `return`, `throw` and `unreachable`
/// can't, and that of each other statement can.
pub fn falls_through(stmts: &[Stmt]) -> bool
    ensures { result ≡ rules.falls_through stmts.now }
{
    all_fall(stmts)
}
