//! Parts of values, and values made of parts.
ghost use Rattle.std.specs.Prelude.{◌≡◌, ◌<◌, length, map, option_map, IfOk, OnOk, IfSome};
ghost use Rattle.asl_rules.specs.values.Structures as rules;
ghost use Rattle.asl_rules.specs.values.Values.{int, array_with, tuple_with};
ghost use Rattle.asl_value.specs.private.Answers.{Is};
ghost use Rattle.asl_rules.specs.private.ByPlace as places;
ghost use Rattle.asl_rules.specs.runs.Pures.{there};
ghost use Rattle.asl_value.specs.private.Reaching as reaching;
ghost use Rattle.asl_value.specs.View.{kind_of, value_of, field_of, all_values, all_fields};

use crate::failure::Failure;
use crate::supers::Supers;
use crate::value::{FieldValue, Kind, Name, Value, copy};
use asl_shared::Shared;
use asl_syn::code::DynCode;
use asl_syn::token::Span;
use sqlite_items::Items;
use std::alloc::{AllocError, Global};

/// What a construction makes.
#[derive(Drop)]
pub enum Shell {
    /// A record: the name of the declaration that writes its type.
    Record(Name),
    /// An exception: the name that it is built with, the names that this reaches, and the name of the declaration that writes
    /// its type.
    Exception(Name, Supers, Name),
}

/// The element of an array at an index, over the same parts: D06 where there is none.
pub fn element_of(span: Span, array: &Value, index: &Value) -> Result<Value, Failure>
    ensures { Is value_of result (rules.element_of span (value_of array.now) (value_of index.now)) }
{
    match (array, index) {
        (Value::Array(kind, elements), Value::Int(i)) => {
            element_at(span, kind.get(), elements.get().as_slice(), *i)
        }
        _ => Err(Failure::WrongKind(span)),
    }
}

/// The element at an index of an array with elements of this kind: D06 where there is none.
#[tactic(auto, using(crate::proofs::Elements::element_there, crate::proofs::Elements::element_none))]
fn element_at(span: Span, kind: &Kind, elements: &[Value], index: i128) -> Result<Value, Failure>
    ensures { Is value_of result
        (rules.element_of span (array_with (kind_of kind.now) (all_values elements.now)) (int index)) }
{
    match index_in(index, elements.len()) {
        Some(at) => Ok(copy(&elements[at])?),
        None => Err(Failure::Fault(DynCode::D06, span)),
    }
}

/// The index as a place among so many elements, `None` where there is none.
#[tactic(auto, using(crate::proofs::Elements::index_low, crate::proofs::Elements::index_high, crate::proofs::Elements::index_below))]
pub(crate) fn index_in(index: i128, count: usize) -> Option<usize>
    ensures value { result ≡ reaching.index_in index count }
    ensures within { IfSome result (λ at. at < count) }
{
    if index < 0 {
        return None;
    }
    if index >= count as i128 {
        return None;
    }
    Some(index as usize)
}

/// The field of a record or an exception in a place, from 0, over the same parts.
pub fn field_in(span: Span, place: usize, value: &Value) -> Result<Value, Failure>
    ensures { Is value_of result (places.field_in span place (value_of value.now)) }
{
    match value {
        Value::Record(_, fields) => field_at(span, place, fields.get().as_slice()),
        Value::Exception(_, _, _, fields) => field_at(span, place, fields.get().as_slice()),
        _ => Err(Failure::WrongKind(span)),
    }
}

/// The value of the field in a place.
#[tactic(auto, using(crate::proofs::Elements::field_there, crate::proofs::Elements::field_none))]
pub(crate) fn field_at(span: Span, place: usize, fields: &[FieldValue]) -> Result<Value, Failure>
    ensures value { Is value_of result (there span (places.field_at place (all_fields fields.now))) }
    ensures within { OnOk result (place < length fields.now) }
{
    if place < fields.len() {
        Ok(copy_of_field(&fields[place])?)
    } else {
        Err(Failure::WrongKind(span))
    }
}

/// The value of a field, over the same parts.
fn copy_of_field(field: &FieldValue) -> Result<Value, AllocError>
    ensures { IfOk result (λ it. value_of it ≡ (field_of field.now).value) }
{
    match field {
        FieldValue::Given(_, value) => copy(value),
    }
}

/// The part of a tuple at the end of a way of places, each from 0, over the same parts. With no way it is the value itself.
#[tactic(auto, using(crate::proofs::Ways::way_on, crate::proofs::Ways::way_off, crate::proofs::Ways::way_end))]
pub fn part_in(span: Span, way: &[usize], value: &Value) -> Result<Value, Failure>
    ensures { Is value_of result (places.part_in span way.now (value_of value.now)) }
{
    let mut here = value;
    for place in way {
        match part_of_tuple(*place, here) {
            Some(part) => here = part,
            None => return Err(Failure::WrongKind(span)),
        }
    }
    Ok(copy(here)?)
}

/// The part of a tuple in a place.
fn part_of_tuple(place: usize, value: &Value) -> Option<&Value>
    ensures { option_map (λ x. value_of x.now) result ≡ reaching.part_of_tuple place (value_of value.now) }
{
    match value {
        Value::Tuple(parts) => value_at(place, parts.get().as_slice()),
        _ => None,
    }
}

/// The value in a place. It is `sqlite_items::at`, with the clause of the rules.
fn value_at(place: usize, values: &[Value]) -> Option<&Value>
    ensures { option_map (λ x. value_of x.now) result ≡ rules.value_at place (all_values values.now) }
{
    sqlite_items::at(values, place)
}

/// The tuple of these parts.
pub fn tuple(alloc: Global, parts: Items<Value>) -> Result<Value, AllocError>
    ensures { IfOk result (λ it. value_of it ≡ tuple_with (rules.values_of (map value_of parts))) }
{
    Ok(Value::Tuple(Shared::new(alloc, parts)?))
}
