//! Fields of records and exceptions, and bitfields, by their names.
ghost use Rattle.std.specs.Prelude.{◌≡◌, [], map};
ghost use Rattle.asl_bits.specs.declared.TheConstants.{WIDTH_LIMIT};
ghost use Rattle.asl_rules.specs.runs.Pures.{◌>>=◌ as ◌then◌, there};
ghost use Rattle.asl_rules.specs.values.Structures as structures;
ghost use Rattle.asl_rules.specs.values.Vectors as vectors;
ghost use Rattle.asl_value.specs.View.{value_of, view_of, all_fields};
ghost use Rattle.asl_const.specs.private.Finds.{Finds, named_after};

use crate::failure::{Mistake, Unknown};
use asl_shared::Held;
use asl_syn::token::Span;
use asl_syn::tree::Ident;
use asl_types::members::bitfield_among;
use asl_value::{BitField, FieldValue, Value, View, bitfield, bitfields, copy, same_name};
use sqlite_items::Items;
use std::alloc::Global;

/// The value of a field among these.
fn field_among(span: Span, name: &[u8], fields: &[FieldValue]) -> Result<Value, Unknown>
    ensures { Finds value_of result (there span (structures.field_value name.now (all_fields fields.now))) }
{
    for field in fields {
        let FieldValue::Given(own, value) = field;
        if same_name(own.get().as_slice(), name) {
            return Ok(copy(value)?);
        }
    }
    Err(Unknown::Stuck(Mistake::WrongKind, span))
}

/// The bitfields that bits are seen with.
fn bitfields_in(view: &Option<View>) -> &[BitField]
    ensures { result.now ≡ view_of view.now }
{
    match view {
        Some(fields) => fields.get().as_slice(),
        None => &[],
    }
}

/// The bits of a bitfield among these.
#[tactic(auto, using(crate::proofs::Bitfields::named_is))]
fn bits_of_field(
    alloc: Global,
    span: Span,
    name: &[u8],
    fields: &[BitField],
    x: &Value,
) -> Result<Value, Unknown>
    ensures { Finds value_of result (vectors.bitfield_named span name.now fields.now then λ g. vectors.bitfield_of span g (value_of x.now)) }
{
    match bitfield_among(fields, name) {
        Some(field) => Ok(bitfield(alloc, span, field, x)?),
        None => Err(Unknown::Stuck(Mistake::WrongKind, span)),
    }
}

/// The value of a field of a record or an exception, or the bits of a bitfield.
pub(crate) fn field_of(alloc: Global, span: Span, name: &[u8], x: Value) -> Result<Value, Unknown>
    ensures { Finds value_of result (structures.field_of span name.now (value_of x)) }
{
    let x = Held::new(x);
    match x.get() {
        Value::Record(_, fields) | Value::Exception(_, _, _, fields) => {
            field_among(span, name, fields.get().as_slice())
        }
        Value::Bits(_, view) => bits_of_field(alloc, span, name, bitfields_in(view), x.get()),
        Value::Int(_)
        | Value::Bool(_)
        | Value::Label(_, _)
        | Value::Tuple(_)
        | Value::Array(_, _) => Err(Unknown::Stuck(Mistake::WrongKind, span)),
    }
}

/// The bitfield of a name among these.
#[tactic(auto, using(crate::proofs::Bitfields::named_is))]
fn named(span: Span, name: &[u8], fields: &[BitField]) -> Result<BitField, Unknown>
    ensures { Finds (λ f. f) result (vectors.bitfield_named span name.now fields.now) }
{
    match bitfield_among(fields, name) {
        Some(field) => Ok(field.share()?),
        None => Err(Unknown::Stuck(Mistake::WrongKind, span)),
    }
}

/// The bitfields of these names among these, in the order of the names.
fn all_named(
    alloc: Global,
    span: Span,
    names: &[Ident],
    fields: &[BitField],
) -> Result<Items<BitField>, Unknown>
    ensures { Finds (λ fs. fs) result (named_after span [] names.now fields.now) }
{
    let mut chosen = Items::new(alloc);
    for name in names {
        chosen.push(named(span, name.text.as_slice(), fields)?)?;
    }
    Ok(chosen)
}

/// The bits of the bitfields of these names among these, the first on top.
#[tactic(auto, using(crate::proofs::Bitfields::all_is))]
fn bits_of_named(
    alloc: Global,
    span: Span,
    names: &[Ident],
    fields: &[BitField],
    x: &Value,
) -> Result<Value, Unknown>
    ensures { Finds value_of result (vectors.each_named span names.now fields.now then λ fs. vectors.bitfields_of WIDTH_LIMIT span fs (value_of x.now)) }
{
    let chosen = all_named(alloc, span, names, fields)?;
    Ok(bitfields(alloc, span, chosen.as_slice(), x)?)
}

/// The bits of the bitfields of these names, the first on top.
pub(crate) fn bits_of_fields(
    alloc: Global,
    span: Span,
    names: &[Ident],
    x: Value,
) -> Result<Value, Unknown>
    ensures { Finds value_of result (vectors.bitfields_named span names.now (value_of x) then λ fs. vectors.bitfields_of WIDTH_LIMIT span fs (value_of x)) }
{
    let x = Held::new(x);
    match x.get() {
        Value::Bits(_, view) => bits_of_named(alloc, span, names, bitfields_in(view), x.get()),
        Value::Int(_)
        | Value::Bool(_)
        | Value::Label(_, _)
        | Value::Record(_, _)
        | Value::Exception(_, _, _, _)
        | Value::Tuple(_)
        | Value::Array(_, _) => Err(Unknown::Stuck(Mistake::WrongKind, span)),
    }
}
