//! Bits with bitfields, one or several taken together: read, and written.
ghost use Rattle.std.specs.Prelude.{◌≡◌, ◌≤◌, IfOk};
ghost use Rattle.asl_bits.specs.declared.TheConstants.{WIDTH_LIMIT};
ghost use Rattle.asl_rules.specs.values.Vectors as rules;
ghost use Rattle.asl_value.specs.private.Answers.{Is};
ghost use Rattle.asl_value.specs.private.Fields.{filled};
ghost use Rattle.asl_value.specs.View.{view_of, value_of};

use crate::failure::Failure;
use crate::operators::plain_bits;
use crate::places::{Places, are_within, cut, fill, read_bits, write_bits};
use crate::value::{Value, share_view};
use crate::views::{BitField, View};
use asl_syn::code::DynCode;
use asl_syn::token::Span;
use asl_vector::Vector;
use sqlite_items::Items;
use std::alloc::{AllocError, Global};

/// The bits of a bitfield, without bitfields.
pub fn bitfield(
    alloc: Global,
    span: Span,
    field: &BitField,
    value: &Value,
) -> Result<Value, Failure>
    ensures { Is value_of result (rules.bitfield_of span field.now (value_of value.now)) }
{
    match value {
        Value::Bits(bits, _) => { Ok(plain_bits(cut(alloc, bits, &Places::of_field(field))?)) }
        _ => Err(Failure::WrongKind(span)),
    }
}

/// The bits of several bitfields, the first on top, without bitfields: D14 past `WIDTH_LIMIT`.
pub fn bitfields(
    alloc: Global,
    span: Span,
    fields: &[BitField],
    value: &Value,
) -> Result<Value, Failure>
    ensures { Is value_of result (rules.bitfields_of WIDTH_LIMIT span fields.now (value_of value.now)) }
{
    let places = all_places(alloc, fields)?;
    if !are_within(places.as_slice()) {
        return Err(Failure::Fault(DynCode::D14, span));
    }
    bits_at(alloc, span, places.as_slice(), value)
}

/// The bits with others in place of those of a bitfield, with the bitfields that they have. The others must be as many as the
/// bitfield has places, all of which must be there: else it is of the wrong kind, and no run of a checked program comes there.
pub fn with_bitfield(
    alloc: Global,
    span: Span,
    field: &BitField,
    part: &Value,
    value: &Value,
) -> Result<Value, Failure>
    ensures { Is value_of result (rules.with_bitfield span field.now (value_of part.now) (value_of value.now)) }
{
    let mut places = Items::new(alloc);
    places.push(Places::of_field(field))?;
    with_places(alloc, span, places.as_slice(), part, value)
}

/// The bits with others in place of those of several bitfields, of which the first takes the highest, with the bitfields that
/// they have: D14 past `WIDTH_LIMIT`. The others must be as many as the bitfields have places, all of which must be there.
pub fn with_bitfields(
    alloc: Global,
    span: Span,
    fields: &[BitField],
    part: &Value,
    value: &Value,
) -> Result<Value, Failure>
    ensures { Is value_of result (rules.with_bitfields WIDTH_LIMIT span fields.now (value_of part.now) (value_of value.now)) }
{
    let places = all_places(alloc, fields)?;
    if !are_within(places.as_slice()) {
        return Err(Failure::Fault(DynCode::D14, span));
    }
    with_places(alloc, span, places.as_slice(), part, value)
}

// ---- places

/// The places of these bitfields, in order.
#[tactic(auto, using(crate::proofs::InPlaces::fields_none, crate::proofs::InPlaces::fields_more, crate::proofs::InPlaces::fields_all))]
fn all_places(alloc: Global, fields: &[BitField]) -> Result<Items<Places>, AllocError>
    ensures { IfOk result (λ it. it ≡ rules.places_of_fields fields.now) }
{
    let mut places = Items::new(alloc);
    for field in fields {
        places.push(Places::of_field(field))?;
    }
    Ok(places)
}

/// The bits in these places, the first on top, without bitfields.
pub(crate) fn bits_at(
    alloc: Global,
    span: Span,
    places: &[Places],
    value: &Value,
) -> Result<Value, Failure>
    requires { rules.total_width places.now ≤ WIDTH_LIMIT }
    ensures { Is value_of result (rules.bits_at span places.now (value_of value.now)) }
{
    match value {
        Value::Bits(bits, _) => Ok(plain_bits(read_bits(alloc, bits, places)?)),
        _ => Err(Failure::WrongKind(span)),
    }
}

/// The bits with others in these places, which they must fill.
pub(crate) fn with_places(
    alloc: Global,
    span: Span,
    places: &[Places],
    part: &Value,
    value: &Value,
) -> Result<Value, Failure>
    ensures { Is value_of result
        (rules.with_places span places.now (value_of part.now) (value_of value.now)) }
{
    match (part, value) {
        (Value::Bits(part, _), Value::Bits(bits, view)) => {
            put_bits(alloc, span, places, part, bits, view)
        }
        _ => Err(Failure::WrongKind(span)),
    }
}

fn put_bits(
    alloc: Global,
    span: Span,
    places: &[Places],
    part: &Vector,
    bits: &Vector,
    view: &Option<View>,
) -> Result<Value, Failure>
    ensures { Is value_of result (filled span places.now part.now bits.now (view_of view.now)) }
{
    if !fill(part.width(), places, bits.width()) {
        return Err(Failure::WrongKind(span));
    }
    Ok(Value::Bits(write_bits(alloc, bits, part, places)?, share_view(view)?))
}
