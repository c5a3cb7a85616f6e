//! The names of parameters and formals: each stands once, and isn't visible yet.

ghost use Rattle.std.specs.Prelude.{◌≡◌, ◌&&◌, IfErr, OnOk, []};
ghost use Rattle.asl_rules.specs.Faults.{need};
ghost use Rattle.asl_rules.specs.declarations.Scopes.{is_free, is_absent};
ghost use Rattle.asl_names.specs.private.Firsts.{first_place, kept};
ghost use Rattle.asl_types.specs.private.Answers.{Met, Agrees};
ghost use Rattle.asl_decl.specs.private.Free as rules;

use asl_names::firsts::Firsts;
use asl_syn::code::{Refused, StaticCode};
use asl_syn::tree::{Formal, Func, Ident, Param};
use asl_types::Scope;
use asl_types::answer::fault;
use std::alloc::Global;

/// T01 at a name that is visible, or among those before it.
fn check_new(name: &Ident, before: &Firsts<'_>, names: &Scope) -> Result<(), Refused>
    ensures { Agrees result (need (is_free name.now.text names.now && is_absent (first_place name.now.text before.now)) StaticCode.T01 name.now.span) }
{
    let text = name.text.as_slice();
    if names.is_free(text) && before.place_of(text).is_none() {
        Ok(())
    } else {
        fault(StaticCode::T01, name.span)
    }
}

fn check_params<'a>(
    before: &mut Firsts<'a>,
    params: &'a [Param],
    names: &Scope,
) -> Result<(), Refused>
    ensures { Met (λ _. before.new) result (rules.params_beside params.now 0 before.old names.now) }
{
    for (place, p) in params.iter().enumerate() {
        check_new(&p.name, before, names)?;
        before.keep(p.name.text.as_slice(), place)?;
    }
    Ok(())
}

fn check_formals<'a>(
    before: &mut Firsts<'a>,
    formals: &'a [Formal],
    names: &Scope,
) -> Result<(), Refused>
    ensures { Met (λ _. before.new) result (rules.formals_beside formals.now 0 before.old names.now) }
{
    for (place, f) in formals.iter().enumerate() {
        check_new(&f.name, before, names)?;
        before.keep(f.name.text.as_slice(), place)?;
    }
    Ok(())
}

fn check_by_places(alloc: Global, f: &Func, names: &Scope) -> Result<(), Refused>
    ensures { (Met (λ _. tt) result (rules.ended (rules.free_beside f.now names.now))) }
{
    let mut before = Firsts::new(alloc);
    check_params(&mut before, f.params.as_slice(), names)?;
    check_formals(&mut before, f.formals.as_slice(), names)?;
    Ok(())
}

/// T01 at the first parameter, and then the first formal, whose name is visible or stands twice. It is
/// `check_by_places`, with the clause in the words of the rules.
#[tactic(auto, using(crate::proofs::FreeLemmas::free_is))]
pub(crate) fn check_free(alloc: Global, f: &Func, names: &Scope) -> Result<(), Refused>
    ensures { Agrees result (rules.free_rule f.now names.now) }
{
    check_by_places(alloc, f, names)?;
    Ok(())
}
