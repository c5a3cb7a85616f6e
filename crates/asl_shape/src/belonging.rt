//! Whether values belong to types.
ghost use Rattle.std.specs.Prelude.{◌≡◌, ◌==◌, pos, length};
ghost use Rattle.asl_rules.specs.types.Closed as cl;
ghost use Rattle.asl_rules.specs.types.Closed.{closed};
ghost use Rattle.asl_rules.specs.types.Types as types;
ghost use Rattle.asl_rules.specs.types.Types.{View};
ghost use Rattle.asl_rules.specs.values.Values as rules;
ghost use Rattle.asl_types.specs.View.{fields_of, parts_of};
ghost use Rattle.asl_value.specs.View.{value_of, field_of, all_values, all_fields};
ghost use Rattle.asl_shape.specs.private.Having.{has_field};

use crate::kinds::{count, kind_is};
use crate::numbers::{is_in, number_of};
use asl_cons::Part;
use asl_types::{FieldType, Form, Ty};
use asl_value::{FieldValue, Name, Supers, Value, is_among, reaches, same_name};
use asl_vector::Vector;

/// Whether a value is of the kind of a type, has its widths, lies in its constraints, and reaches its names, part by part. In
/// the type no name of a body stands.
pub fn belongs(x: &Value, ty: &Ty) -> bool
    ensures { result ≡ rules.has (value_of x.now) (closed ty.now) }
{
    is_of(ty, x)
}

/// Whether a value is of a type.
#[cycle(belongs)]
fn is_of(ty: &Ty, x: &Value) -> bool
    ensures { result ≡ rules.has (value_of x.now) (closed ty.now) }
{
    match ty.form() {
        Form::Integer(constraint) => integer_belongs(x, constraint.get().parts()),
        Form::Boolean => boolean_belongs(x),
        Form::Bits(width, _) => bits_belong(x, number_of(width.get())),
        Form::Enumeration(name, labels) => {
            label_belongs(x, name.get().as_slice(), labels.get().as_slice())
        }
        Form::Record(name, fields) => {
            record_belongs(name.get().as_slice(), fields.get().as_slice(), x)
        }
        Form::Exception(name, fields) => {
            exception_belongs(name.get().as_slice(), fields.get().as_slice(), x)
        }
        Form::Tuple(parts) => tuple_belongs(parts.get().as_slice(), x),
        Form::Array(length, element) => array_belongs(*length, element.get(), x),
        Form::Named(name, supers, inner) => {
            may_be(x, name.get().as_slice(), supers) && is_of(inner.get(), x)
        }
    }
}

/// Whether a value is no exception that doesn't reach this name, which itself reaches others.
fn may_be(x: &Value, name: &[u8], others: &Supers) -> bool
    ensures { result ≡ rules.is_exception name.now (value_of x.now) }
{
    match x {
        Value::Exception(own, supers, _, _) => {
            reaches(own.get().as_slice(), supers, name, others.len())
        }
        _ => true,
    }
}

/// Whether a value is an integer in a constraint.
pub(crate) fn integer_belongs(x: &Value, parts: &[Part]) -> bool
    ensures { result ≡ rules.has (value_of x.now) (cl.integer_in (cl.constraint_at parts.now (λ n. pos 0))) }
{
    match x {
        Value::Int(z) => is_in(*z, parts),
        _ => false,
    }
}

/// Whether a value is a boolean.
pub(crate) fn boolean_belongs(x: &Value) -> bool
    ensures { result ≡ rules.has (value_of x.now) cl.boolean }
{
    match x {
        Value::Bool(_) => true,
        _ => false,
    }
}

/// Whether a value is bits of a width.
pub(crate) fn bits_belong(x: &Value, width: i128) -> bool
    ensures { (u : View) → result ≡ rules.has (value_of x.now) (cl.bits_of width u) }
{
    match x {
        Value::Bits(bits, _) => is_wide(bits, width),
        _ => false,
    }
}

/// Whether bits have a width.
#[tactic(auto, using(crate::proofs::Having::width_is))]
fn is_wide(bits: &Vector, width: i128) -> bool
    ensures { result ≡ rules.is_width (length bits.now) width }
{
    bits.width() as i128 == width
}

/// Whether a value is one of some labels of an enumeration.
fn label_belongs(x: &Value, name: &[u8], labels: &[Name]) -> bool
    ensures { result ≡ rules.has (value_of x.now) (cl.enumeration_of name.now labels.now) }
{
    match x {
        Value::Label(own, label) => {
            same_name(own.get().as_slice(), name) && is_among(label.get().as_slice(), labels)
        }
        _ => false,
    }
}

/// Whether a value is a record with fields of these types.
#[cycle(belongs)]
fn record_belongs(name: &[u8], fields: &[FieldType], x: &Value) -> bool
    ensures { result ≡ rules.has (value_of x.now) (cl.record_of name.now (cl.fields_with (fields_of fields.now) (λ n. pos 0))) }
{
    match x {
        Value::Record(own, given) => {
            same_name(own.get().as_slice(), name) && fields_belong(fields, given.get().as_slice())
        }
        _ => false,
    }
}

/// Whether a value is an exception with fields of these types.
#[cycle(belongs)]
fn exception_belongs(name: &[u8], fields: &[FieldType], x: &Value) -> bool
    ensures { result ≡ rules.has (value_of x.now) (cl.exception_of name.now (cl.fields_with (fields_of fields.now) (λ n. pos 0))) }
{
    match x {
        Value::Exception(_, _, own, given) => {
            same_name(own.get().as_slice(), name) && fields_belong(fields, given.get().as_slice())
        }
        _ => false,
    }
}

/// Whether there are as many fields, each of the name and the type in its place.
#[cycle(belongs)]
#[tactic(auto, using(crate::proofs::Having::fields_fewer, crate::proofs::Having::fields_here, crate::proofs::Having::fields_apart, crate::proofs::Having::fields_left))]
fn fields_belong(fields: &[FieldType], given: &[FieldValue]) -> bool
    ensures { result ≡ rules.fields_in (all_fields given.now) (cl.fields_with (fields_of fields.now) (λ n. pos 0)) }
{
    let mut rest = given;
    for field in fields {
        match rest.split_first() {
            None => return false,
            Some((value, more)) => {
                if !field_belongs(field, value) {
                    return false;
                }
                rest = more;
            }
        }
    }
    rest.is_empty()
}

/// Whether a field is of a name and a type.
#[cycle(belongs)]
fn field_belongs(field: &FieldType, given: &FieldValue) -> bool
    ensures { result ≡ has_field (field_of given.now) field.now }
{
    match (field, given) {
        (FieldType::Field(name, ty), FieldValue::Given(own, x)) => {
            same_name(own.get().as_slice(), name.get().as_slice()) && is_of(ty, x)
        }
    }
}

/// Whether a value is a tuple with parts of these types.
#[cycle(belongs)]
fn tuple_belongs(parts: &[Ty], x: &Value) -> bool
    ensures { result ≡ rules.has (value_of x.now) (cl.tuple_of (cl.parts_with (parts_of parts.now) (λ n. pos 0))) }
{
    match x {
        Value::Tuple(given) => parts_belong(parts, given.get().as_slice()),
        _ => false,
    }
}

/// Whether there are as many parts, each of the type in its place.
#[cycle(belongs)]
#[tactic(auto, using(crate::proofs::Having::parts_fewer, crate::proofs::Having::parts_here, crate::proofs::Having::parts_apart, crate::proofs::Having::parts_left))]
fn parts_belong(parts: &[Ty], given: &[Value]) -> bool
    ensures { result ≡ rules.parts_in (all_values given.now) (cl.parts_with (parts_of parts.now) (λ n. pos 0)) }
{
    let mut rest = given;
    for part in parts {
        match rest.split_first() {
            None => return false,
            Some((value, more)) => {
                if !is_of(part, value) {
                    return false;
                }
                rest = more;
            }
        }
    }
    rest.is_empty()
}

/// Whether a value is an array of a length with elements of a type.
#[cycle(belongs)]
#[tactic(auto)]
fn array_belongs(length: u32, element: &Ty, x: &Value) -> bool
    ensures { result ≡ rules.has (value_of x.now) (cl.array_of length (types.kind element.now) (closed element.now)) }
{
    match x {
        Value::Array(kind, elements) => {
            kind_is(element, kind.get())
                && is_long(elements.get().as_slice(), length as u128)
                && all_belong(element, elements.get().as_slice())
        }
        _ => false,
    }
}

/// Whether there are so many values.
pub(crate) fn is_long(values: &[Value], length: u128) -> bool
    ensures { result ≡ (rules.count (all_values values.now) == length) }
{
    count(values) == length
}

/// Whether each of some values is of a type.
#[cycle(belongs)]
#[tactic(auto, using(crate::proofs::Having::all_here, crate::proofs::Having::all_apart, crate::proofs::Having::all_end))]
fn all_belong(ty: &Ty, values: &[Value]) -> bool
    ensures { result ≡ rules.all_in (all_values values.now) (closed ty.now) }
{
    for value in values {
        if !is_of(ty, value) {
            return false;
        }
    }
    true
}
