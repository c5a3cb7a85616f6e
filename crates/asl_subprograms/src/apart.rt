//! The subprograms of a program: those of one name have formals of different kinds.

ghost use Rattle.std.specs.Prelude.{◌≡◌, map, slice_get};
ghost use Rattle.asl_rules.specs.Faults.{need};
ghost use Rattle.asl_rules.specs.declarations.Scopes as scopes;
ghost use Rattle.asl_types.specs.private.Answers.{Agrees};
ghost use Rattle.asl_types.specs.View.{parts_of};
ghost use Rattle.asl_subprograms.specs.private.Apart as rules;

use crate::subprograms::Subprograms;
use asl_syn::code::{Refused, StaticCode};
use asl_syn::tree::Func;
use asl_types::Ty;
use asl_types::answer::fault;

/// Whether the overload of this name and formals of these kinds stands before this number.
fn is_before(subs: &Subprograms, name: &[u8], formals: &[Ty], number: usize) -> bool
    ensures { result ≡ rules.is_before number (scopes.choose name.now (parts_of formals.now) subs.now) }
{
    match subs.choose(name, formals) {
        None => false,
        Some(first) => first.0 < number,
    }
}

/// Whether none before the subprogram of this number has its name, and formals of its kinds.
fn is_apart(subs: &Subprograms, number: usize) -> bool
    ensures { result ≡ rules.is_apart number (slice_get subs.now number) subs.now }
{
    match subs.signatures().get(number) {
        None => true,
        Some(s) => !is_before(subs, s.name().get().as_slice(), s.formals(), number),
    }
}

/// T10 at the name of the subprogram of this number, where one before it has the name, and formals of the same kinds.
fn check_one(f: &Func, subs: &Subprograms, number: usize) -> Result<(), Refused>
    ensures { Agrees result (need (rules.is_apart number (slice_get subs.now number) subs.now) StaticCode.T10 f.now.name.span) }
{
    if is_apart(subs, number) {
        Ok(())
    } else {
        fault(StaticCode::T10, f.name.span)
    }
}

/// T10 at the first name of a subprogram that one before it has, with formals of the same kinds. Those of one name are
/// compared without a walk over the others.
pub fn check_apart(funcs: &[&Func], subs: &Subprograms) -> Result<(), Refused>
    ensures { Agrees result (rules.apart_rule (map (λ f. f.now) funcs.now) subs.now) }
{
    for (number, f) in funcs.iter().enumerate() {
        check_one(f, subs, number)?;
    }
    Ok(())
}
