//! What declared types stand for.

ghost use Rattle.std.specs.Prelude.{◌≡◌, [], IfOk, true};
ghost use Rattle.asl_rules.specs.declarations.Declarations as rules;
ghost use Rattle.asl_rules.specs.Faults.{need};
ghost use Rattle.asl_rules.specs.Tests.{Tests};
ghost use Rattle.asl_rules.specs.types.Types.{record_of, exception_of, enumeration_of};
ghost use Rattle.asl_types.specs.private.Answers.{Met, Agrees};
ghost use Rattle.asl_subprograms.specs.private.ContextView.{scope_of};
ghost use Rattle.asl_types.specs.Suits.{Suits};
ghost use Rattle.asl_types.specs.View.{fields_of};
ghost use Rattle.asl_judge.specs.private.Definitions.{fields_after, once_beside, labels_after};

use crate::written::written;
use asl_names::firsts::Firsts;
use asl_shared::Shared;
use asl_subprograms::Context;
use asl_syn::code::{Refused, StaticCode};
use asl_syn::token::Span;
use asl_syn::tree::{Formal, Ident, TypeDef};
use asl_types::answer::fault;
use asl_types::sizes::bounded;
use asl_types::{FieldType, Ty};
use asl_value::Name;
use sqlite_items::Items;
use std::alloc::{AllocError, Global};

/// A name of its own.
pub fn name_of(alloc: Global, text: &[u8]) -> Result<Name, AllocError>
    ensures { IfOk result (λ name. name ≡ text.now) }
{
    Shared::new(alloc, Items::from_slice(alloc, text)?)
}

// ---- fields and labels

/// The fields of a type with what is written of each, in order.
fn fields_in_order(
    alloc: Global,
    context: Context,
    fields: &[Formal],
) -> Result<Items<FieldType>, Refused>
    ensures { (t : Tests) → Suits t → Agrees result (fields_after t [] fields.now (scope_of context.entry)) }
{
    let mut types = Items::new(alloc);
    for field in fields {
        let ty = written(alloc, context, &field.ty, true)?;
        let name = name_of(alloc, field.name.text.as_slice())?;
        types.push(FieldType::Field(name, ty))?;
    }
    Ok(types)
}

/// The fields of a type, with the types that are written. It is `fields_in_order`, with the clause of the rules.
#[tactic(auto, using(crate::proofs::DefinitionLemmas::fields_good, crate::proofs::DefinitionLemmas::fields_bad))]
fn fields_written(
    alloc: Global,
    context: Context,
    fields: &[Formal],
) -> Result<Items<FieldType>, Refused>
    ensures { (t : Tests) → Suits t → Met fields_of result (rules.fields_written t fields.now (scope_of context.entry)) }
{
    let types = fields_in_order(alloc, context, fields)?;
    Ok(types)
}

/// Whether each field stands once, by the places at which names stand first.
fn is_once_by_places(alloc: Global, fields: &[Formal]) -> Result<bool, AllocError>
    ensures { IfOk result (λ once. once ≡ once_beside fields.now 0 []) }
{
    let mut firsts = Firsts::new(alloc);
    for (place, field) in fields.iter().enumerate() {
        let name = field.name.text.as_slice();
        if firsts.place_of(name).is_some() {
            return Ok(false);
        }
        firsts.keep(name, place)?;
    }
    Ok(true)
}

/// Whether each field stands once. It is `is_once_by_places`, with the clause of the rules.
#[tactic(auto, using(crate::proofs::OnceLemmas::once_is))]
fn is_once(alloc: Global, fields: &[Formal]) -> Result<bool, AllocError>
    ensures { IfOk result (λ once. once ≡ rules.once fields.now []) }
{
    let once = is_once_by_places(alloc, fields)?;
    Ok(once)
}

/// T15 at this place where a field stands twice.
fn check_once(alloc: Global, span: Span, fields: &[Formal]) -> Result<(), Refused>
    ensures { Agrees result (need (rules.once fields.now []) StaticCode.T15 span) }
{
    if !is_once(alloc, fields)? {
        return fault(StaticCode::T15, span);
    }
    Ok(())
}

/// Labels in order.
fn labels_in_order(alloc: Global, labels: &[Ident]) -> Result<Items<Name>, AllocError>
    ensures { IfOk result (λ names. names ≡ labels_after [] labels.now) }
{
    let mut names = Items::new(alloc);
    for label in labels {
        names.push(name_of(alloc, label.text.as_slice())?)?;
    }
    Ok(names)
}

/// The labels of an enumeration. It is `labels_in_order`, with the clause of the rules.
#[tactic(auto, using(crate::proofs::DefinitionLemmas::labels_all))]
fn labels_of(alloc: Global, labels: &[Ident]) -> Result<Items<Name>, AllocError>
    ensures { IfOk result (λ names. names ≡ rules.labels labels.now) }
{
    let names = labels_in_order(alloc, labels)?;
    Ok(names)
}

// ---- definitions

fn enumeration(alloc: Global, name: &[u8], labels: &[Ident]) -> Result<Ty, AllocError>
    ensures { IfOk result (λ ty. ty ≡ enumeration_of name.now (rules.labels labels.now)) }
{
    let labels = Shared::new(alloc, labels_of(alloc, labels)?)?;
    Ok(Ty::enumeration(name_of(alloc, name)?, labels))
}

fn record_with(alloc: Global, name: &[u8], fields: Items<FieldType>) -> Result<Ty, AllocError>
    ensures { IfOk result (λ ty. ty ≡ record_of name.now (fields_of fields)) }
{
    let name = name_of(alloc, name)?;
    Ty::record_of(alloc, name, Shared::new(alloc, fields)?)
}

fn exception_with(alloc: Global, name: &[u8], fields: Items<FieldType>) -> Result<Ty, AllocError>
    ensures { IfOk result (λ ty. ty ≡ exception_of name.now (fields_of fields)) }
{
    let name = name_of(alloc, name)?;
    Ty::exception_of(alloc, name, Shared::new(alloc, fields)?)
}

/// A record of these fields, each of which stands once, within the limits.
fn record(
    alloc: Global,
    context: Context,
    name: &[u8],
    span: Span,
    fields: &[Formal],
) -> Result<Ty, Refused>
    ensures { (t : Tests) → Suits t → Agrees result (rules.def_rule t name.now (TypeDef.Record span fields.now) (scope_of context.entry)) }
{
    let types = fields_written(alloc, context, fields)?;
    check_once(alloc, span, fields)?;
    let ty = record_with(alloc, name, types)?;
    bounded(span, ty)
}

/// An exception of these fields, each of which stands once, within the limits.
fn exception(
    alloc: Global,
    context: Context,
    name: &[u8],
    span: Span,
    fields: &[Formal],
) -> Result<Ty, Refused>
    ensures { (t : Tests) → Suits t → Agrees result (rules.def_rule t name.now (TypeDef.Exception span fields.now) (scope_of context.entry)) }
{
    let types = fields_written(alloc, context, fields)?;
    check_once(alloc, span, fields)?;
    let ty = exception_with(alloc, name, types)?;
    bounded(span, ty)
}

/// What a declared type stands for.
pub(crate) fn define(
    alloc: Global,
    context: Context,
    name: &[u8],
    def: &TypeDef,
) -> Result<Ty, Refused>
    ensures { (t : Tests) → Suits t → Agrees result (rules.def_rule t name.now def.now (scope_of context.entry)) }
{
    match def {
        TypeDef::Alias(ty) => written(alloc, context, ty, true),
        TypeDef::Labels(_, labels) => Ok(enumeration(alloc, name, labels.as_slice())?),
        TypeDef::Record(span, fields) => record(alloc, context, name, *span, fields.as_slice()),
        TypeDef::Exception(span, fields) => {
            exception(alloc, context, name, *span, fields.as_slice())
        }
    }
}
