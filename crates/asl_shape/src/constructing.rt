//! Records and exceptions made of the values of their fields.
ghost use Rattle.std.specs.Prelude.{◌≡◌, map, IfOk};
ghost use Rattle.asl_rules.specs.private.ByPlace as places;
ghost use Rattle.asl_rules.specs.runs.Pures.{there};
ghost use Rattle.asl_value.specs.private.Answers.{Is};
ghost use Rattle.asl_value.specs.private.Forms.{shell_of};
ghost use Rattle.asl_value.specs.View.{value_of, field_of, all_fields};
ghost use Rattle.asl_shape.specs.View.{all_given};

use crate::shapes::FieldGiven;
use asl_shared::Shared;
use asl_syn::token::Span;
use asl_types::seeing::see;
use asl_value::{Failure, FieldValue, Shell, Value};
use sqlite_items::Items;
use std::alloc::{AllocError, Global};

/// The record or the exception with the fields that are given, each with the bitfields of its type. Each must have its value
/// among those that are given.
pub fn construct(
    alloc: Global,
    span: Span,
    shell: &Shell,
    fields: &[FieldGiven],
    values: &[Value],
) -> Result<Value, Failure>
    ensures { Is value_of result
        (places.constructed span (shell_of shell.now) (all_given fields.now) (map value_of values.now)) }
{
    let made = given_fields(alloc, span, fields, values)?;
    Ok(in_shell(shell, Shared::new(alloc, made)?)?)
}

/// The fields with the values that are given.
#[tactic(auto, using(crate::proofs::Fields::field_given, crate::proofs::Fields::field_missing, crate::proofs::Fields::none_given, crate::proofs::Fields::all_fields_given))]
fn given_fields(
    alloc: Global,
    span: Span,
    fields: &[FieldGiven],
    values: &[Value],
) -> Result<Items<FieldValue>, Failure>
    ensures { Is all_fields result
        (there span (places.fields_from (all_given fields.now) (map value_of values.now))) }
{
    let mut made = Items::new(alloc);
    for field in fields {
        if field.place >= values.len() {
            return Err(Failure::WrongKind(span));
        }
        made.push(given(alloc, field, &values[field.place])?)?;
    }
    Ok(made)
}

/// A field with this value, and the bitfields of its type.
fn given(alloc: Global, field: &FieldGiven, value: &Value) -> Result<FieldValue, AllocError>
    ensures name { IfOk result (λ it. (field_of it).name ≡ field.now.name) }
    ensures value { IfOk result
        (λ it. (field_of it).value ≡ places.seen_as field.now.ty (value_of value.now)) }
{
    Ok(FieldValue::Given(field.name.share()?, see(alloc, &field.ty, value)?))
}

/// A record or an exception with these fields.
fn in_shell(shell: &Shell, fields: Shared<Items<FieldValue>>) -> Result<Value, AllocError>
    ensures { IfOk result (λ it. value_of it ≡ places.in_shell (shell_of shell.now) (all_fields fields)) }
{
    match shell {
        Shell::Record(name) => Ok(Value::Record(name.share()?, fields)),
        Shell::Exception(own, supers, name) => Ok(Value::Exception(
            own.share()?,
            supers.share()?,
            name.share()?,
            fields,
        )),
    }
}
