//! What an initialiser outside bodies and a `recurselimit` may not hold: a call, and the name of a global `var`.

ghost use Rattle.std.specs.Prelude.{◌≡◌, Some, IfOk};
ghost use Rattle.asl_rules.specs.declarations.Barred as rules;
ghost use Rattle.asl_rules.specs.Faults.{none_at};
ghost use Rattle.asl_rules.specs.declarations.UsedNames.{first_said};
ghost use Rattle.asl_rules.specs.declarations.Scopes.{storage_of};
ghost use Rattle.asl_types.specs.private.Answers.{Met, Agrees};
ghost use Rattle.asl_types.specs.private.Standings.{storage_view};
ghost use Rattle.asl_names.specs.private.UseView.{use_of, all_uses};

use asl_names::{Use, uses_in_expr};
use asl_rules::slot::Slot;
use asl_syn::code::{Refused, StaticCode};
use asl_syn::token::Span;
use asl_syn::tree::Expr;
use asl_types::answer::fault;
use asl_types::{Scope, Storage};
use std::alloc::{AllocError, Global};

/// Whether storage is outside bodies and can be assigned.
fn is_global_var(s: Storage) -> bool
    ensures { result ≡ rules.is_global_var (Some (storage_view s.entry)) }
{
    match s.slot {
        Slot::Local(_) => false,
        Slot::Global(_) => s.is_mutable,
    }
}

/// A name at this place, where it is a global that can be assigned.
fn at_var(span: Span, name: &[u8], names: &Scope) -> Option<Span>
    ensures { result ≡ rules.at_var span (storage_of name.now names.now) }
{
    match names.storage_of(name) {
        None => None,
        Some(s) => { if is_global_var(s) { Some(span) } else { None } }
    }
}

/// A call, or the name of a global `var`: where it stands.
fn barred_at(one: Use<'_>, names: &Scope) -> Option<Span>
    ensures { result ≡ rules.barred_at names.now (use_of one.entry) }
{
    match one {
        Use::Value(span, name) => at_var(span, name, names),
        Use::Subprogram(span, _) => Some(span),
        Use::Type(_) => None,
    }
}

/// The first of them.
fn first_barred(uses: &[Use<'_>], names: &Scope) -> Option<Span>
    ensures { result ≡ first_said (rules.barred_at names.now) (all_uses uses.now) }
{
    for one in uses {
        if let Some(span) = barred_at(*one, names) {
            return Some(span);
        }
    }
    None
}

/// The place of the first call or name of a global `var` in an expression.
fn barred(alloc: Global, e: &Expr, names: &Scope) -> Result<Option<Span>, AllocError>
    ensures { IfOk result (λ at. at ≡ rules.barred e.now names.now) }
{
    let uses = uses_in_expr(alloc, e)?;
    Ok(first_barred(uses.as_slice(), names))
}

/// T04 at the first call or name of a global `var` in an expression.
pub fn check_unbarred(alloc: Global, e: &Expr, names: &Scope) -> Result<(), Refused>
    ensures { Agrees result (none_at StaticCode.T04 (rules.barred e.now names.now)) }
{
    match barred(alloc, e, names)? {
        None => Ok(()),
        Some(span) => fault(StaticCode::T04, span),
    }
}
