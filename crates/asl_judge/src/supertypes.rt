//! The names that declared types reach by `subtypes`. A declared type shares those that its supertype reaches.

ghost use Rattle.std.specs.Prelude.{◌≡◌, ◌∷◌, [], IfOk};
ghost use Rattle.asl_rules.specs.declarations.Declarations as rules;
ghost use Rattle.asl_rules.specs.Faults.{need, found_or};
ghost use Rattle.asl_rules.specs.Tests.{Tests};
ghost use Rattle.asl_rules.specs.types.Types.{misfit, structure, named};
ghost use Rattle.asl_rules.specs.declarations.Scopes.{type_of_name};
ghost use Rattle.asl_types.specs.private.Answers.{Agrees};
ghost use Rattle.asl_subprograms.specs.private.ContextView.{scope_of};
ghost use Rattle.asl_types.specs.Suits.{Suits};

use crate::definitions::name_of;
use asl_shared::{Held, Shared};
use asl_subprograms::Context;
use asl_syn::code::{Refused, StaticCode};
use asl_syn::token::Span;
use asl_syn::tree::Ident;
use asl_types::answer::fault;
use asl_types::fits::fits;
use asl_types::structure::structure;
use asl_types::{Form, Scope, Ty};
use asl_value::Supers;
use std::alloc::{AllocError, Global};

fn only(alloc: Global, name: &[u8]) -> Result<Supers, AllocError>
    ensures { IfOk result (λ names. names ≡ name.now ∷ []) }
{
    let name = name_of(alloc, name)?;
    Supers::none(alloc)?.with(alloc, &name)
}

/// The names that a declared type of this name reaches, itself first.
fn reached(alloc: Global, name: &[u8], ty: &Ty) -> Result<Supers, AllocError>
    ensures { IfOk result (λ names. names ≡ rules.reached name.now ty.now) }
{
    match ty.form() {
        Form::Named(own, supers, _) => supers.with(alloc, own),
        Form::Integer(_) => only(alloc, name),
        Form::Boolean => only(alloc, name),
        Form::Bits(_, _) => only(alloc, name),
        Form::Enumeration(_, _) => only(alloc, name),
        Form::Record(_, _) => only(alloc, name),
        Form::Exception(_, _) => only(alloc, name),
        Form::Tuple(_) => only(alloc, name),
        Form::Array(_, _) => only(alloc, name),
    }
}

/// T25 at this place where the structure of a type doesn't fit that of the other.
fn check_subtype(span: Span, ty: &Ty, other: &Ty) -> Result<(), Refused>
    ensures { (t : Tests) → Suits t → Agrees result (need (rules.is_none (misfit t (structure ty.now) (structure other.now))) StaticCode.T25 span) }
{
    match fits(structure(ty), structure(other)) {
        None => Ok(()),
        Some(_) => fault(StaticCode::T25, span),
    }
}

/// The type that is declared under a name: T02 where none is.
fn declared(name: &Ident, names: &Scope) -> Result<Ty, Refused>
    ensures { Agrees result (found_or (type_of_name name.now.text names.now) StaticCode.T02 name.now.span) }
{
    match names.type_of_name(name.text.as_slice()) {
        None => fault(StaticCode::T02, name.span),
        Some(ty) => Ok(ty.copy()?),
    }
}

/// The names that a declared type reaches by its `subtypes`, where its structure fits that of the type there.
pub(crate) fn supertypes(
    alloc: Global,
    context: Context,
    supertype: &Option<Ident>,
    ty: &Ty,
) -> Result<Supers, Refused>
    ensures { (t : Tests) → Suits t → Agrees result (rules.supertype_rule t supertype.now ty.now (scope_of context.entry)) }
{
    match supertype {
        None => Ok(Supers::none(alloc)?),
        Some(name) => {
            let other = Held::new(declared(name, context.names)?);
            check_subtype(name.span, ty, other.get())?;
            Ok(reached(alloc, name.text.as_slice(), other.get())?)
        }
    }
}

/// The type of a declared name, which reaches these others, with the structure that it stands for.
pub(crate) fn named_with(
    alloc: Global,
    name: &[u8],
    supers: Supers,
    ty: &Ty,
) -> Result<Ty, AllocError>
    ensures { IfOk result (λ it. it ≡ named name.now supers (structure ty.now)) }
{
    let name = name_of(alloc, name)?;
    let inner = structure(ty).copy()?;
    Ok(Ty::named(name, supers, Shared::new(alloc, inner)?))
}
