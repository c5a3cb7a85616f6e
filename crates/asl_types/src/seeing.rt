//! What a written type adds to the values in its places: the bitfields of bits.

ghost use Rattle.std.specs.Prelude.{◌≡◌, ℕ, IfOk};
ghost use Rattle.asl_poly.specs.Terms.{Polynomial};
ghost use Rattle.asl_rules.specs.private.ByPlace.{seen_as, parts_seen_as, all_seen_as};
ghost use Rattle.asl_rules.specs.types.Types as rules;
ghost use Rattle.asl_types.specs.private.Seeing.{part_seen};
ghost use Rattle.asl_types.specs.View.{parts_of};
ghost use Rattle.asl_value.specs.View.{value_of, all_values};

use crate::ty::{Form, Ty};
use asl_shared::Shared;
use asl_value::{Value, View, copy};
use sqlite_items::Items;
use std::alloc::{AllocError, Global};

/// The value in a place of this type: its bits carry the bitfields that are written there, and bits in fields keep theirs.
/// It is over the same parts where the type adds nothing.
#[cycle(see)]
pub fn see(alloc: Global, ty: &Ty, value: &Value) -> Result<Value, AllocError>
    ensures { IfOk result (λ it. value_of it ≡ seen_as ty.now (value_of value.now)) }
{
    if !ty.holds_bits() {
        return copy(value);
    }
    match ty.form() {
        Form::Integer(_) => copy(value),
        Form::Boolean => copy(value),
        Form::Bits(_, view) => see_bits(view, value),
        Form::Enumeration(_, _) => copy(value),
        Form::Record(_, _) => copy(value),
        Form::Exception(_, _) => copy(value),
        Form::Tuple(parts) => see_tuple(alloc, parts.get().as_slice(), value),
        Form::Array(_, element) => see_array(alloc, element.get(), value),
        Form::Named(_, _, inner) => see(alloc, inner.get(), value),
    }
}

/// Bits with these bitfields, and any other value itself.
fn see_bits(view: &View, value: &Value) -> Result<Value, AllocError>
    ensures { (w : Polynomial) → IfOk result (λ it. value_of it ≡ seen_as (rules.bits_of w view.now) (value_of value.now)) }
{
    match value {
        Value::Int(_) => copy(value),
        Value::Bool(_) => copy(value),
        Value::Bits(bits, _) => Ok(Value::Bits(bits.share()?, Some(view.share()?))),
        Value::Label(_, _) => copy(value),
        Value::Record(_, _) => copy(value),
        Value::Exception(_, _, _, _) => copy(value),
        Value::Tuple(_) => copy(value),
        Value::Array(_, _) => copy(value),
    }
}

/// A tuple whose parts are seen as of these types, and any other value itself.
#[cycle(see)]
fn see_tuple(alloc: Global, parts: &[Ty], value: &Value) -> Result<Value, AllocError>
    ensures { IfOk result (λ it. value_of it ≡ seen_as (rules.tuple_of (parts_of parts.now)) (value_of value.now)) }
{
    match value {
        Value::Int(_) => copy(value),
        Value::Bool(_) => copy(value),
        Value::Bits(_, _) => copy(value),
        Value::Label(_, _) => copy(value),
        Value::Record(_, _) => copy(value),
        Value::Exception(_, _, _, _) => copy(value),
        Value::Tuple(values) => {
            let made = see_parts(alloc, parts, values.get().as_slice())?;
            Ok(Value::Tuple(Shared::new(alloc, made)?))
        }
        Value::Array(_, _) => copy(value),
    }
}

/// An array whose elements are seen as of this type, and any other value itself.
#[cycle(see)]
fn see_array(alloc: Global, element: &Ty, value: &Value) -> Result<Value, AllocError>
    ensures { (n : ℕ) → IfOk result (λ it. value_of it ≡ seen_as (rules.array_of n element.now) (value_of value.now)) }
{
    match value {
        Value::Int(_) => copy(value),
        Value::Bool(_) => copy(value),
        Value::Bits(_, _) => copy(value),
        Value::Label(_, _) => copy(value),
        Value::Record(_, _) => copy(value),
        Value::Exception(_, _, _, _) => copy(value),
        Value::Tuple(_) => copy(value),
        Value::Array(kind, values) => {
            let made = see_all(alloc, element, values.get().as_slice())?;
            Ok(Value::Array(kind.share()?, Shared::new(alloc, made)?))
        }
    }
}

/// The parts of a tuple, each seen as of its type.
#[cycle(see)]
#[tactic(auto, using(asl_value::proofs::Lists::nothing_made, crate::proofs::Seen::part_made, crate::proofs::Seen::parts_made))]
fn see_parts(alloc: Global, parts: &[Ty], values: &[Value]) -> Result<Items<Value>, AllocError>
    ensures { IfOk result (λ it. all_values it ≡ parts_seen_as (parts_of parts.now) (all_values values.now)) }
{
    let mut made = Items::new(alloc);
    for (i, value) in values.iter().enumerate() {
        made.push(see_part(alloc, parts, i, value)?)?;
    }
    Ok(made)
}

/// The part in a place, seen as of the type of that place, where there is one.
#[cycle(see)]
#[tactic(auto, using(crate::proofs::Seen::part_there, crate::proofs::Seen::part_past))]
fn see_part(alloc: Global, parts: &[Ty], place: usize, value: &Value) -> Result<Value, AllocError>
    ensures { IfOk result (λ it. value_of it ≡ part_seen place parts.now (value_of value.now)) }
{
    if place < parts.len() {
        see(alloc, &parts[place], value)
    } else {
        copy(value)
    }
}

/// The elements of an array, each seen as of this type.
#[cycle(see)]
#[tactic(auto, using(asl_value::proofs::Lists::nothing_made, crate::proofs::Seen::element_made, crate::proofs::Seen::elements_made))]
fn see_all(alloc: Global, element: &Ty, values: &[Value]) -> Result<Items<Value>, AllocError>
    ensures { IfOk result (λ it. all_values it ≡ all_seen_as element.now (all_values values.now)) }
{
    let mut made = Items::new(alloc);
    for value in values {
        made.push(see(alloc, element, value)?)?;
    }
    Ok(made)
}
