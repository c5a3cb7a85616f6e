//! Parts of values replaced: in place where they have one owner, and else in a copy of their list, over the same parts.
ghost use Rattle.std.specs.Prelude.{◌≡◌, ◌<◌, ◌∷◌, map, pos, length, IfOk, OnOk};
ghost use Rattle.asl_rules.specs.values.Structures as rules;
ghost use Rattle.asl_value.specs.private.Answers.{Is, Changes};
ghost use Rattle.asl_value.specs.private.Forms.{all_steps};
ghost use Rattle.asl_bits.specs.declared.TheConstants.{WIDTH_LIMIT};
ghost use Rattle.asl_rules.specs.private.ByPlace as places;
ghost use Rattle.asl_rules.specs.runs.Pures.{there};
ghost use Rattle.asl_rules.specs.types.Views.{adopting};
ghost use Rattle.asl_value.specs.private.Reaching.{put_into_fields, put_into_elements, Reaches};
ghost use Rattle.asl_value.specs.View.{value_of, field_of, all_values, all_fields, all_slices};

use crate::failure::Failure;
use crate::keeping::adopt;
use crate::parts::{element_of, field_at, field_in, index_in};
use crate::slices::{Cuts, SliceShape, slice_places};
use crate::value::{FieldValue, Value, copy};
use crate::vectors::{bitfield, bitfields, bits_at, with_bitfield, with_bitfields, with_places};
use crate::views::BitField;
use asl_shared::{Held, Shared};
use asl_syn::code::DynCode;
use asl_syn::token::Span;
use sqlite_items::Items;
use std::alloc::{AllocError, Global};
use std::mem;

/// A step into a value, with the place of its failures.
#[derive(Drop)]
pub enum Step {
    /// Into the field in a place, from 0.
    Field(Span, usize),
    /// Into a bitfield.
    Bitfield(Span, BitField),
    /// Into several bitfields taken together.
    Bitfields(Span, Items<BitField>),
    /// Into slices, with the values of their expressions in order.
    Slices(Span, Items<SliceShape>, Items<Value>),
    /// Into the element at an index.
    Element(Span, Value),
}

/// Replaces what stands at the end of these steps; with no step it is the value itself. The new value takes the bitfields of
/// the one that it replaces; where no bits occur in its type, that isn't looked at. Where a step isn't there, or new bits don't
/// fill the places of the old ones, the value stays the same. Where memory is wanting nothing is said of it.
pub fn replace(
    alloc: Global,
    value: &mut Value,
    steps: &[Step],
    holds_bits: bool,
    new: Value,
) -> Result<(), Failure>
    ensures { Changes result (places.updated WIDTH_LIMIT holds_bits (all_steps steps.now) (value_of new) (value_of value.old)) value.old value.new }
{
    let new = Held::new(new);
    if is_among_bits(steps) {
        replace_bits(alloc, value, steps, holds_bits, new)
    } else {
        replace_part(alloc, value, steps, holds_bits, new)
    }
}

/// Replaces what stands at the end of steps, in a copy that takes the value's place.
#[tactic(auto, using(crate::proofs::Followed::unchanged_is))]
fn replace_bits(
    alloc: Global,
    value: &mut Value,
    steps: &[Step],
    holds_bits: bool,
    new: Held<Value>,
) -> Result<(), Failure>
    ensures { Changes result (places.updated WIDTH_LIMIT holds_bits (all_steps steps.now) (value_of new) (value_of value.old)) value.old value.new }
{
    let changed = put(alloc, copy(value)?, steps, holds_bits, new)?;
    *value = changed;
    Ok(())
}

/// Replaces what stands at the end of steps, in place where that has one owner.
#[tactic(auto, using(crate::proofs::Followed::unchanged))]
fn replace_part(
    alloc: Global,
    value: &mut Value,
    steps: &[Step],
    holds_bits: bool,
    new: Held<Value>,
) -> Result<(), Failure>
    ensures { Changes result (places.updated WIDTH_LIMIT holds_bits (all_steps steps.now) (value_of new) (value_of value.old)) value.old value.new }
{
    reach(alloc, value, steps, holds_bits, new.get())?;
    let old = mem::replace(value, Value::Bool(false));
    match put(alloc, old, steps, holds_bits, new) {
        Ok(changed) => {
            *value = changed;
            Ok(())
        }
        Err(_) => Err(Failure::NoMemory),
    }
}

/// Whether the first step leads to some of the bits of a value.
fn is_among_bits(steps: &[Step]) -> bool {
    match steps.split_first() {
        None => false,
        Some((step, _)) => match step {
            Step::Field(_, _) => false,
            Step::Bitfield(_, _) => true,
            Step::Bitfields(_, _) => true,
            Step::Slices(_, _, _) => true,
            Step::Element(_, _) => false,
        },
    }
}

/// Whether there is a value with another at the end of these steps.
#[cycle(reach)]
fn reach(
    alloc: Global,
    value: &Value,
    steps: &[Step],
    holds_bits: bool,
    new: &Value,
) -> Result<(), Failure>
    ensures { Reaches result (places.updated WIDTH_LIMIT holds_bits (all_steps steps.now) (value_of new.now) (value_of value.now)) }
{
    match steps.split_first() {
        None => Ok(()),
        Some((step, rest)) => match step {
            Step::Field(span, place) => reach_field(
                alloc, value, *span, *place, rest, holds_bits, new,
            ),
            Step::Bitfield(_, _) => reach_bits(alloc, value, steps, holds_bits, new),
            Step::Bitfields(_, _) => reach_bits(alloc, value, steps, holds_bits, new),
            Step::Slices(_, _, _) => reach_bits(alloc, value, steps, holds_bits, new),
            Step::Element(span, index) => reach_element(
                alloc, value, *span, index, rest, holds_bits, new,
            ),
        },
    }
}

/// Whether there is one behind a field.
#[cycle(reach)]
#[tactic(auto, using(crate::proofs::Followed::field_on, crate::proofs::Followed::field_off))]
fn reach_field(
    alloc: Global,
    value: &Value,
    span: Span,
    place: usize,
    rest: &[Step],
    holds_bits: bool,
    new: &Value,
) -> Result<(), Failure>
    ensures { Reaches result (places.updated WIDTH_LIMIT holds_bits (places.into_field span place ∷ all_steps rest.now) (value_of new.now) (value_of value.now)) }
{
    let part = Held::new(field_in(span, place, value)?);
    reach(alloc, part.get(), rest, holds_bits, new)
}

/// Whether there is one behind an element.
#[cycle(reach)]
#[tactic(auto, using(crate::proofs::Followed::element_on, crate::proofs::Followed::element_off))]
fn reach_element(
    alloc: Global,
    value: &Value,
    span: Span,
    index: &Value,
    rest: &[Step],
    holds_bits: bool,
    new: &Value,
) -> Result<(), Failure>
    ensures { Reaches result (places.updated WIDTH_LIMIT holds_bits (places.into_element span (value_of index.now) ∷ all_steps rest.now) (value_of new.now) (value_of value.now)) }
{
    let part = Held::new(element_of(span, value, index)?);
    reach(alloc, part.get(), rest, holds_bits, new)
}

/// Whether there is one, which is made for that.
#[tactic(auto, using(crate::proofs::Followed::made_off))]
fn reach_bits(
    alloc: Global,
    value: &Value,
    steps: &[Step],
    holds_bits: bool,
    new: &Value,
) -> Result<(), Failure>
    ensures { Reaches result (places.updated WIDTH_LIMIT holds_bits (all_steps steps.now) (value_of new.now) (value_of value.now)) }
{
    let new = Held::new(copy(new)?);
    let _made = Held::new(put(alloc, copy(value)?, steps, holds_bits, new)?);
    Ok(())
}

/// The value with another at the end of these steps.
#[cycle(put)]
fn put(
    alloc: Global,
    value: Value,
    steps: &[Step],
    holds_bits: bool,
    new: Held<Value>,
) -> Result<Value, Failure>
    ensures { Is value_of result (places.updated WIDTH_LIMIT holds_bits (all_steps steps.now) (value_of new) (value_of value)) }
{
    match steps.split_first() {
        None => Ok(placed(alloc, &value, holds_bits, new)?),
        Some((step, rest)) => match step {
            Step::Field(span, place) => put_field(
                alloc, value, *span, *place, rest, holds_bits, new,
            ),
            Step::Bitfield(span, field) => put_bitfield(
                alloc, value, *span, field, rest, holds_bits, new,
            ),
            Step::Bitfields(span, fields) => {
                put_bitfields(
                    alloc,
                    value,
                    *span,
                    fields.as_slice(),
                    rest,
                    holds_bits,
                    new,
                )
            }
            Step::Slices(span, shapes, given) => {
                let cuts = Cuts {
                    span: *span,
                    shapes: shapes.as_slice(),
                    given: given.as_slice(),
                };
                put_slices(alloc, value, cuts, rest, holds_bits, new)
            }
            Step::Element(span, index) => put_element(
                alloc, value, *span, index, rest, holds_bits, new,
            ),
        },
    }
}

/// What a place holds then: the new value, with the bitfields of the old one where bits may occur in it.
fn placed(
    alloc: Global,
    old: &Value,
    holds_bits: bool,
    new: Held<Value>,
) -> Result<Value, AllocError>
    ensures { IfOk result (λ it. value_of it ≡ adopting holds_bits (value_of old.now) (value_of new)) }
{
    if holds_bits {
        adopt(alloc, old, new.get())
    } else {
        Ok(new.into_inner())
    }
}

/// The bits with others at the end of the steps behind a bitfield.
#[cycle(put)]
fn put_bitfield(
    alloc: Global,
    value: Value,
    span: Span,
    field: &BitField,
    rest: &[Step],
    holds_bits: bool,
    new: Held<Value>,
) -> Result<Value, Failure>
    ensures { Is value_of result
        (places.updated WIDTH_LIMIT holds_bits (places.into_bitfield span field.now ∷ all_steps rest.now) (value_of new) (value_of value)) }
{
    let value = Held::new(value);
    let part = bitfield(alloc, span, field, value.get())?;
    let changed = Held::new(put(alloc, part, rest, holds_bits, new)?);
    with_bitfield(alloc, span, field, changed.get(), value.get())
}

/// The bits with others at the end of the steps behind several bitfields taken together.
#[cycle(put)]
fn put_bitfields(
    alloc: Global,
    value: Value,
    span: Span,
    fields: &[BitField],
    rest: &[Step],
    holds_bits: bool,
    new: Held<Value>,
) -> Result<Value, Failure>
    ensures { Is value_of result
        (places.updated WIDTH_LIMIT holds_bits (places.into_bitfields span fields.now ∷ all_steps rest.now) (value_of new) (value_of value)) }
{
    let value = Held::new(value);
    let part = bitfields(alloc, span, fields, value.get())?;
    let changed = Held::new(put(alloc, part, rest, holds_bits, new)?);
    with_bitfields(alloc, span, fields, changed.get(), value.get())
}

/// The bits with others at the end of the steps behind slices.
#[cycle(put)]
#[tactic(auto, using(crate::proofs::Followed::slices_put, crate::proofs::Followed::slices_off, crate::proofs::Followed::read_off, crate::proofs::Followed::part_off))]
fn put_slices(
    alloc: Global,
    value: Value,
    cuts: Cuts,
    rest: &[Step],
    holds_bits: bool,
    new: Held<Value>,
) -> Result<Value, Failure>
    ensures { Is value_of result
        (places.updated WIDTH_LIMIT holds_bits (places.into_slices cuts.entry.span (all_slices cuts.entry.shapes.now) (map value_of cuts.entry.given.now) ∷ all_steps rest.now) (value_of new) (value_of value)) }
{
    let value = Held::new(value);
    let places = slice_places(alloc, cuts, value.get())?;
    let part = bits_at(alloc, cuts.span, places.as_slice(), value.get())?;
    let changed = Held::new(put(alloc, part, rest, holds_bits, new)?);
    with_places(
        alloc,
        cuts.span,
        places.as_slice(),
        changed.get(),
        value.get(),
    )
}

/// The record or the exception with another value at the end of the steps behind the field in a place.
#[cycle(put)]
fn put_field(
    alloc: Global,
    value: Value,
    span: Span,
    place: usize,
    rest: &[Step],
    holds_bits: bool,
    new: Held<Value>,
) -> Result<Value, Failure>
    ensures { Is value_of result
        (places.updated WIDTH_LIMIT holds_bits (places.into_field span place ∷ all_steps rest.now) (value_of new) (value_of value)) }
{
    match value {
        Value::Record(name, fields) => {
            let changed = put_in_fields(alloc, fields, span, place, rest, holds_bits, new)?;
            Ok(Value::Record(name, changed))
        }
        Value::Exception(own, supers, name, fields) => {
            let changed = put_in_fields(alloc, fields, span, place, rest, holds_bits, new)?;
            Ok(Value::Exception(own, supers, name, changed))
        }
        _ => Err(Failure::WrongKind(span)),
    }
}

/// The fields with another value at the end of the steps behind the one in a place.
#[cycle(put)]
fn put_in_fields(
    alloc: Global,
    fields: Shared<Items<FieldValue>>,
    span: Span,
    place: usize,
    rest: &[Step],
    holds_bits: bool,
    new: Held<Value>,
) -> Result<Shared<Items<FieldValue>>, Failure>
    ensures { Is all_fields result
        (put_into_fields WIDTH_LIMIT holds_bits span place (all_steps rest.now) (value_of new) (all_fields fields)) }
{
    let part = field_at(span, place, fields.get().as_slice())?;
    let part = Held::new(part);
    let mut owned = into_owned_fields(alloc, fields)?;
    set_field(&mut owned, place, Value::Bool(false))?;
    let changed = put(alloc, part.into_inner(), rest, holds_bits, new)?;
    set_field(&mut owned, place, changed)?;
    Ok(Shared::new(alloc, owned)?)
}

/// The array with another value at the end of the steps behind the element at an index.
#[cycle(put)]
fn put_element(
    alloc: Global,
    value: Value,
    span: Span,
    index: &Value,
    rest: &[Step],
    holds_bits: bool,
    new: Held<Value>,
) -> Result<Value, Failure>
    ensures { Is value_of result
        (places.updated WIDTH_LIMIT holds_bits (places.into_element span (value_of index.now) ∷ all_steps rest.now) (value_of new) (value_of value)) }
{
    match (value, index) {
        (Value::Array(kind, elements), Value::Int(i)) => {
            let changed = put_in_elements(alloc, elements, span, *i, rest, holds_bits, new)?;
            Ok(Value::Array(kind, changed))
        }
        _ => Err(Failure::WrongKind(span)),
    }
}

/// The elements with another value at the end of the steps behind the one at an index.
#[cycle(put)]
fn put_in_elements(
    alloc: Global,
    elements: Shared<Items<Value>>,
    span: Span,
    index: i128,
    rest: &[Step],
    holds_bits: bool,
    new: Held<Value>,
) -> Result<Shared<Items<Value>>, Failure>
    ensures { Is all_values result
        (put_into_elements WIDTH_LIMIT holds_bits span index (all_steps rest.now) (value_of new) (all_values elements)) }
{
    match index_in(index, elements.get().len()) {
        Some(at) => put_in_place(alloc, elements, span, at, rest, holds_bits, new),
        None => Err(Failure::Fault(DynCode::D06, span)),
    }
}

/// The elements with another value at the end of the steps behind the one in a place.
#[cycle(put)]
fn put_in_place(
    alloc: Global,
    elements: Shared<Items<Value>>,
    span: Span,
    at: usize,
    rest: &[Step],
    holds_bits: bool,
    new: Held<Value>,
) -> Result<Shared<Items<Value>>, Failure>
    ensures { Is all_values result
        (put_into_elements WIDTH_LIMIT holds_bits span (pos at) (all_steps rest.now) (value_of new) (all_values elements)) }
{
    let part = value_at(span, at, elements.get().as_slice())?;
    let part = Held::new(part);
    let mut owned = into_owned(alloc, elements)?;
    owned.set(at, Value::Bool(false));
    let changed = put(alloc, part.into_inner(), rest, holds_bits, new)?;
    owned.set(at, changed);
    Ok(Shared::new(alloc, owned)?)
}

/// Gives the field in a place another value.
#[tactic(auto, using(crate::proofs::Putting::field_set))]
fn set_field(fields: &mut Items<FieldValue>, place: usize, value: Value) -> Result<(), AllocError>
    requires { place < length fields.old }
    ensures length { OnOk result (length fields.new ≡ length fields.old) }
    ensures value { OnOk result
        (places.with_field_at place (value_of value) (all_fields fields.old) ≡ Some (all_fields fields.new)) }
{
    let field = given_as(&fields.as_slice()[place], value)?;
    fields.set(place, field);
    Ok(())
}

/// A field of the same name with another value.
fn given_as(field: &FieldValue, value: Value) -> Result<FieldValue, AllocError>
    ensures name { IfOk result (λ it. (field_of it).name ≡ (field_of field.now).name) }
    ensures value { IfOk result (λ it. (field_of it).value ≡ value_of value) }
{
    let value = Held::new(value);
    match field {
        FieldValue::Given(name, _) => Ok(FieldValue::Given(name.share()?, value.into_inner())),
    }
}

/// The element in a place, over the same parts: D06 where there is none.
#[tactic(auto, using(crate::proofs::Elements::value_inside, crate::proofs::Elements::value_outside))]
fn value_at(span: Span, at: usize, elements: &[Value]) -> Result<Value, Failure>
    ensures value { Is value_of result (rules.inside span (rules.value_at at (all_values elements.now))) }
    ensures within { OnOk result (at < length elements.now) }
{
    if at < elements.len() {
        Ok(copy(&elements[at])?)
    } else {
        Err(Failure::Fault(DynCode::D06, span))
    }
}

/// The elements, with no other owner.
fn into_owned(alloc: Global, elements: Shared<Items<Value>>) -> Result<Items<Value>, AllocError>
    ensures { IfOk result (λ it. it ≡ elements) }
{
    match elements.take() {
        Ok(owned) => Ok(owned),
        Err(shared) => copy_all(alloc, shared.get().as_slice()),
    }
}

/// The same values in a list of their own.
fn copy_all(alloc: Global, values: &[Value]) -> Result<Items<Value>, AllocError>
    ensures { IfOk result (λ it. it ≡ values.now) }
{
    let mut copies = Items::new(alloc);
    for value in values {
        copies.push(copy(value)?)?;
    }
    Ok(copies)
}

/// The fields, with no other owner.
fn into_owned_fields(
    alloc: Global,
    fields: Shared<Items<FieldValue>>,
) -> Result<Items<FieldValue>, AllocError>
    ensures { IfOk result (λ it. it ≡ fields) }
{
    match fields.take() {
        Ok(owned) => Ok(owned),
        Err(shared) => copy_fields(alloc, shared.get().as_slice()),
    }
}

/// The same fields in a list of their own.
fn copy_fields(alloc: Global, fields: &[FieldValue]) -> Result<Items<FieldValue>, AllocError>
    ensures { IfOk result (λ it. it ≡ fields.now) }
{
    let mut copies = Items::new(alloc);
    for field in fields {
        copies.push(copy_field(field)?)?;
    }
    Ok(copies)
}

/// The same field, over the same parts.
fn copy_field(field: &FieldValue) -> Result<FieldValue, AllocError>
    ensures { IfOk result (λ it. it ≡ field.now) }
{
    match field {
        FieldValue::Given(name, value) => Ok(FieldValue::Given(name.share()?, copy(value)?)),
    }
}
