//! The signatures of subprograms, in source order.

ghost use Rattle.std.specs.Prelude.{◌≡◌, [], length, map, IfOk};
ghost use Rattle.asl_rules.specs.declarations.Programs as programs;
ghost use Rattle.asl_rules.specs.Tests.{Tests};
ghost use Rattle.asl_types.specs.private.Answers.{Agrees};
ghost use Rattle.asl_types.specs.Suits.{Suits};
ghost use Rattle.asl_types.specs.View.{parts_of};
ghost use Rattle.asl_decl.specs.private.HeadViews.{types_of};
ghost use Rattle.asl_decl.specs.private.Signatures as rules;

use crate::free::check_free;
use crate::heads::{HeadTypes, head_types};
use crate::limit::limit_of;
use asl_judge::name_of;
use asl_rules::effect::Effect;
use asl_subprograms::{Signature, Subprograms};
use asl_syn::code::Refused;
use asl_syn::tree::{Func, Qualifier};
use asl_types::Scope;
use asl_value::Name;
use std::alloc::{AllocError, Global};

/// The greatest effect in a body.
fn class_of(qualifier: Qualifier) -> Effect
    ensures { result ≡ programs.class_of qualifier }
{
    match qualifier {
        Qualifier::Unqualified => Effect::Writes,
        Qualifier::Pure => Effect::Pure,
        Qualifier::Readonly => Effect::Readonly,
    }
}

/// The signature of these types.
fn with_types(name: Name, class: Effect, types: HeadTypes, limit: i128) -> Signature
    ensures { result ≡ record { name = name; class = class; params = types.params; formals = parts_of types.formals; result = types.result; limit = limit } }
{
    Signature::new(
        name,
        class,
        types.params,
        types.formals,
        types.result,
        limit,
    )
}

/// The signature of a subprogram, over the names outside bodies.
fn find_signature<'a>(
    alloc: Global,
    names: &mut Scope<'a>,
    none: &Subprograms,
    f: &'a Func,
) -> Result<Signature, Refused>
    requires { none.now ≡ [] }
    ensures rule { (t : Tests) → Suits t → Agrees result (rules.signature_found t f.now names.old) }
    ensures names { IfOk result (λ _. names.new ≡ names.old) }
{
    check_free(alloc, f, names)?;
    let name = name_of(alloc, f.name.text.as_slice())?;
    let types = head_types(alloc, names, none, f)?;
    let limit = limit_of(alloc, names, none, f, types.params.as_slice())?;
    Ok(with_types(name, class_of(f.qualifier), types, limit))
}

/// The signatures of subprograms in order, over the names outside bodies: the fault of the first that has one.
pub(crate) fn find_signatures<'a>(
    alloc: Global,
    names: &mut Scope<'a>,
    funcs: &[&'a Func],
) -> Result<Subprograms, Refused>
    ensures rule { (t : Tests) → Suits t → Agrees result (rules.signatures_after t [] (map (λ f. f.now) funcs.now) names.old) }
    ensures names { IfOk result (λ _. names.new ≡ names.old) }
    ensures many { IfOk result (λ subs. length subs ≡ length funcs.now) }
{
    let none = Subprograms::new(alloc);
    let mut subs = Subprograms::new(alloc);
    for f in funcs {
        let signature = find_signature(alloc, names, &none, f)?;
        subs.push(signature)?;
    }
    Ok(subs)
}
