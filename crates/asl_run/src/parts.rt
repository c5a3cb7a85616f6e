//! Parts of values where they stand, without a copy: of an array that is held in a place an element, of a record a field.
//! Where there is no such part, nothing is found, and the node gives the fault.
ghost use Rattle.std.specs.Prelude.{◌≡◌, ◌<◌, option_map, IfSome};
ghost use Rattle.std.specs.Option.{option_copied};
ghost use Rattle.asl_syn.specs.declared.token.Span.{Span as At};
ghost use Rattle.asl_rules.specs.private.ByPlace as places;
ghost use Rattle.asl_rules.specs.runs.Pures.{there};
ghost use Rattle.asl_rules.specs.types.Types.{Kind};
ghost use Rattle.asl_rules.specs.values.Structures as structures;
ghost use Rattle.asl_rules.specs.values.Values.{array_with, int};
ghost use Rattle.asl_value.specs.private.Reaching as reaching;
ghost use Rattle.asl_value.specs.View.{value_of, field_of, all_values, all_fields};
ghost use Rattle.asl_run.specs.private.AtOnce.{Gives};

use asl_value::{FieldValue, Value};

/// The field of a record or an exception in a place, from 0.
pub fn field_in(value: &Value, place: usize) -> Option<&Value>
    ensures { (span : At) → Gives (option_map value_of (option_copied result))
        (places.field_in span place (value_of value.now)) }
{
    match value {
        Value::Record(_, fields) => field_at(fields.get().as_slice(), place),
        Value::Exception(_, _, _, fields) => field_at(fields.get().as_slice(), place),
        // any other value may be left to the node
        _ => None,
    }
}

/// The value of the field in a place.
#[tactic(auto, using(asl_value::proofs::Elements::field_there))]
fn field_at(fields: &[FieldValue], place: usize) -> Option<&Value>
    ensures { (span : At) → Gives (option_map value_of (option_copied result))
        (there span (places.field_at place (all_fields fields.now))) }
{
    if place < fields.len() {
        Some(value_in(&fields[place]))
    } else {
        None
    }
}

/// The value of a field.
fn value_in(field: &FieldValue) -> &Value
    ensures { value_of result.now ≡ (field_of field.now).value }
{
    let FieldValue::Given(_, value) = field;
    value
}

/// The element of an array at an index.
pub fn element_in(array: &Value, index: i128) -> Option<&Value>
    ensures { (span : At) → Gives (option_map value_of (option_copied result))
        (structures.element_of span (value_of array.now) (int index)) }
{
    match array {
        Value::Array(_, elements) => element_at(elements.get().as_slice(), index),
        // any other value may be left to the node
        _ => None,
    }
}

/// The element at an index.
fn element_at(elements: &[Value], index: i128) -> Option<&Value>
    ensures { (span : At) (kind : Kind) → Gives (option_map value_of (option_copied result))
        (structures.element_of span (array_with kind (all_values elements.now)) (int index)) }
{
    match index_in(index, elements.len()) {
        Some(at) => Some(&elements[at]),
        None => None,
    }
}

/// The index as a place among so many elements.
#[tactic(auto, using(asl_value::proofs::Elements::index_low, asl_value::proofs::Elements::index_high, asl_value::proofs::Elements::index_below))]
fn index_in(index: i128, count: usize) -> Option<usize>
    ensures value { result ≡ reaching.index_in index count }
    ensures within { IfSome result (λ at. at < count) }
{
    if index < 0 {
        return None;
    }
    if index >= count as i128 {
        return None;
    }
    Some(index as usize)
}
