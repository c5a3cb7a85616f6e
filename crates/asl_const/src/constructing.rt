//! Constructions of records and exceptions. The fields that are given are found by the first places of their names, so that a
//! construction takes no walk over the others for each field.
ghost use Rattle.std.specs.Prelude.{◌≡◌, pos, List, [], map, option_map, IfOk};
ghost use Rattle.asl_rules.specs.runs.ByNames.{types_among};
ghost use Rattle.asl_rules.specs.types.Closed.{closed, fields_with};
ghost use Rattle.asl_rules.specs.declarations.Constants.{Known};
ghost use Rattle.asl_rules.specs.runs.Pures.{there};
ghost use Rattle.asl_rules.specs.declarations.Scopes.{Entry};
ghost use Rattle.asl_rules.specs.values.Structures as rules;
ghost use Rattle.asl_rules.specs.types.Types.{Ty as TheTy};
ghost use Rattle.asl_rules.specs.values.Values.{record_with, exception_with};
ghost use Rattle.asl_types.specs.View.{fields_of as types_of};
ghost use Rattle.asl_value.specs.View.{value_of, field_of, fields_of, all_fields};
ghost use Rattle.asl_const.specs.private.Finds.{Finds, known_after, with_all};
ghost use Rattle.asl_names.specs.private.Firsts.{placed};
ghost use Rattle.asl_const.specs.private.Giving.{given_names, kept_in, filled_one, filled_after, filled_with, type_behind};

use crate::failure::{Mistake, Unknown};
use asl_names::firsts::Firsts;
use asl_shape::belongs;
use asl_shared::{Held, Shared};
use asl_syn::token::Span;
use asl_syn::tree::FieldValue;
use asl_types::seeing::see;
use asl_types::{FieldType, Form, Scope, Ty};
use asl_value::{FieldValue as ValueOfField, Name, Supers, Value};
use sqlite_items::Items;
use std::alloc::{AllocError, Global};

/// Where something is constructed, and what is given for fields: their names, these with the places at which they stand first,
/// and the values in order.
#[derive(Clone, Copy)]
struct Given<'g, 'f> {
    span: Span,
    fields: &'g [FieldValue],
    firsts: &'f Firsts<'g>,
    values: &'g [Value],
}

/// The names of the fields that are given, with the places at which they stand first.
fn firsts_of(alloc: Global, given: &[FieldValue]) -> Result<Firsts<'_>, AllocError>
    ensures { IfOk result (λ firsts. firsts ≡ placed (given_names given.now) 0 []) }
{
    let mut firsts = Firsts::new(alloc);
    for (place, field) in given.iter().enumerate() {
        let FieldValue::Given(name, _) = field;
        firsts.keep(name.text.as_slice(), place)?;
    }
    Ok(firsts)
}

/// The value that is given for a field.
#[tactic(auto, using(crate::proofs::GivenLemmas::given_none, crate::proofs::GivenLemmas::given_some))]
fn given_value<'g, 'f>(given: Given<'g, 'f>, name: &[u8]) -> Option<&'g Value>
    requires { given.firsts.now ≡ placed (given_names given.fields.now) 0 [] }
    ensures { option_map (λ x. value_of x.now) result ≡ rules.given_value name.now (given_names given.entry.fields.now) (map value_of given.entry.values.now) }
{
    match given.firsts.place_of(name) {
        None => None,
        Some(place) => sqlite_items::at(given.values, place),
    }
}

/// A value as a field of a type keeps it: with the bitfields that are written there, where it belongs there.
#[tactic(auto, using(crate::proofs::Filling::kept_there, crate::proofs::Filling::kept_none))]
fn keep(alloc: Global, ty: &Ty, value: &Value) -> Result<Option<Value>, AllocError>
    ensures { IfOk result (λ o. option_map value_of o ≡ kept_in ty.now (value_of value.now)) }
{
    if belongs(value, ty) {
        Ok(Some(see(alloc, ty, value)?))
    } else {
        Ok(None)
    }
}

/// A field with a value, where there is one.
fn fill_with(
    alloc: Global,
    span: Span,
    field: &FieldType,
    value: Option<&Value>,
) -> Result<ValueOfField, Unknown>
    ensures { Finds field_of result (filled_with span field.now (option_map (λ x. value_of x.now) value.entry)) }
{
    let FieldType::Field(name, ty) = field;
    match value {
        None => Err(Unknown::Stuck(Mistake::WrongKind, span)),
        Some(value) => match keep(alloc, ty, value)? {
            None => Err(Unknown::Stuck(Mistake::WrongKind, span)),
            Some(value) => {
                let value = Held::new(value);
                let name = name.share()?;
                Ok(ValueOfField::Given(name, value.into_inner()))
            }
        },
    }
}

/// A field of a type with the value that is given for it.
fn fill(alloc: Global, given: Given, field: &FieldType) -> Result<ValueOfField, Unknown>
    requires { given.firsts.now ≡ placed (given_names given.fields.now) 0 [] }
    ensures { Finds field_of result (filled_one given.entry.span field.now (given_names given.entry.fields.now) (map value_of given.entry.values.now)) }
{
    let FieldType::Field(name, _) = field;
    let value = given_value(given, name.get().as_slice());
    fill_with(alloc, given.span, field, value)
}

/// The fields of a type with the values that are given for them.
fn filled(alloc: Global, given: Given, fields: &[FieldType]) -> Result<Items<ValueOfField>, Unknown>
    requires { given.firsts.now ≡ placed (given_names given.fields.now) 0 [] }
    ensures { Finds (map field_of) result (filled_after given.entry.span [] fields.now (given_names given.entry.fields.now) (map value_of given.entry.values.now)) }
{
    let mut into = Items::new(alloc);
    for field in fields {
        into.push(fill(alloc, given, field)?)?;
    }
    Ok(into)
}

/// A record of these fields.
fn in_record(alloc: Global, name: &Name, fields: Items<ValueOfField>) -> Result<Value, AllocError>
    ensures { IfOk result (λ it. value_of it ≡ record_with name.now (all_fields fields)) }
{
    let fields = Shared::new(alloc, fields)?;
    Ok(Value::Record(name.share()?, fields))
}

/// An exception of these fields, by the name that it is built with.
fn in_exception(
    alloc: Global,
    own: &Name,
    supers: &Supers,
    name: &Name,
    fields: Items<ValueOfField>,
) -> Result<Value, AllocError>
    ensures { IfOk result (λ it. value_of it ≡ exception_with own.now supers.now name.now (all_fields fields)) }
{
    let fields = Shared::new(alloc, fields)?;
    Ok(Value::Exception(own.share()?, supers.share()?, name.share()?, fields))
}

/// A record of the fields of a type with the values that are given for them.
#[tactic(auto, using(crate::proofs::Filling::type_good, crate::proofs::Filling::type_bad))]
fn built_record(
    alloc: Global,
    given: Given,
    name: &Name,
    fields: &[FieldType],
) -> Result<Value, Unknown>
    requires { given.firsts.now ≡ placed (given_names given.fields.now) 0 [] }
    ensures { Finds value_of result (there given.entry.span (option_map (λ xs. record_with name.now xs) (rules.fields_given (fields_with (types_of fields.now) (λ n. pos 0)) (given_names given.entry.fields.now) (map value_of given.entry.values.now)))) }
{
    let fields = filled(alloc, given, fields)?;
    Ok(in_record(alloc, name, fields)?)
}

/// An exception of the fields of a type with the values that are given for them, by the name that it is built with.
#[tactic(auto, using(crate::proofs::Filling::type_good, crate::proofs::Filling::type_bad))]
fn built_exception(
    alloc: Global,
    given: Given,
    own: &Name,
    supers: &Supers,
    name: &Name,
    fields: &[FieldType],
) -> Result<Value, Unknown>
    requires { given.firsts.now ≡ placed (given_names given.fields.now) 0 [] }
    ensures { Finds value_of result (there given.entry.span (option_map (λ xs. exception_with own.now supers.now name.now xs) (rules.fields_given (fields_with (types_of fields.now) (λ n. pos 0)) (given_names given.entry.fields.now) (map value_of given.entry.values.now)))) }
{
    let fields = filled(alloc, given, fields)?;
    Ok(in_exception(alloc, own, supers, name, fields)?)
}

/// What a construction of a type makes, an exception by the name that it is built with.
fn built(
    alloc: Global,
    given: Given,
    own: &Name,
    supers: &Supers,
    ty: &Ty,
) -> Result<Value, Unknown>
    requires { given.firsts.now ≡ placed (given_names given.fields.now) 0 [] }
    ensures { Finds value_of result (rules.built given.entry.span own.now supers.now (closed ty.now) (given_names given.entry.fields.now) (map value_of given.entry.values.now)) }
{
    match ty.form() {
        Form::Record(name, fields) => built_record(alloc, given, name, fields.get().as_slice()),
        Form::Exception(name, fields) => {
            built_exception(alloc, given, own, supers, name, fields.get().as_slice())
        }
        Form::Named(_, _, inner) => built(alloc, given, own, supers, inner.get()),
        Form::Integer(_)
        | Form::Boolean
        | Form::Bits(_, _)
        | Form::Enumeration(_, _)
        | Form::Tuple(_)
        | Form::Array(_, _) => Err(Unknown::Stuck(Mistake::WrongKind, given.span)),
    }
}

/// What a construction of a type without a declared name makes.
fn built_plain(alloc: Global, given: Given, ty: &Ty) -> Result<Value, Unknown>
    requires { given.firsts.now ≡ placed (given_names given.fields.now) 0 [] }
    ensures { Finds value_of result (rules.built given.entry.span [] [] (closed ty.now) (given_names given.entry.fields.now) (map value_of given.entry.values.now)) }
{
    let no_name = Shared::new(alloc, Items::new(alloc))?;
    let no_names = Supers::none(alloc)?;
    built(alloc, given, &no_name, &no_names, ty)
}

/// What a construction of a type makes of the values that are given.
fn construct(alloc: Global, given: Given, ty: &Ty) -> Result<Value, Unknown>
    requires { given.firsts.now ≡ placed (given_names given.fields.now) 0 [] }
    ensures { Finds value_of result (rules.construct given.entry.span (closed ty.now) (given_names given.entry.fields.now) (map value_of given.entry.values.now)) }
{
    match ty.form() {
        Form::Named(name, supers, inner) => built(alloc, given, name, supers, inner.get()),
        Form::Record(_, _) | Form::Exception(_, _) => built_plain(alloc, given, ty),
        Form::Integer(_)
        | Form::Boolean
        | Form::Bits(_, _)
        | Form::Enumeration(_, _)
        | Form::Tuple(_)
        | Form::Array(_, _) => Err(Unknown::Stuck(Mistake::WrongKind, given.span)),
    }
}

/// What a construction of a type makes, where there is one.
fn construct_declared(
    alloc: Global,
    span: Span,
    ty: Option<&Ty>,
    fields: &[FieldValue],
    values: &[Value],
) -> Result<Value, Unknown>
    ensures { Finds value_of result (rules.constructed span (type_behind ty.entry) (given_names fields.now) (map value_of values.now)) }
{
    let Some(ty) = ty else {
        return Err(Unknown::Stuck(Mistake::UnknownName, span));
    };
    let firsts = firsts_of(alloc, fields)?;
    let given = Given {
        span,
        fields,
        firsts: &firsts,
        values,
    };
    construct(alloc, given, ty)
}

/// What a construction of a type of this name makes of the values that are given for fields, in order.
#[tactic(auto, using(crate::proofs::InOrder::all_good, crate::proofs::InOrder::all_bad))]
pub(crate) fn construct_named(
    alloc: Global,
    names: &Scope,
    span: Span,
    name: &[u8],
    given: &[FieldValue],
    values: Result<Items<Value>, Unknown>,
) -> Result<Value, Unknown>
    ensures { (es : List Known) (entries : List Entry) → Finds (map value_of) values (known_after [] es entries) → Finds value_of result (with_all span es entries (λ xs. rules.constructed span (types_among names.now name.now) (given_names given.now) xs)) }
{
    let values = Held::new(values?);
    let declared = names.type_of_name(name);
    construct_declared(alloc, span, declared, given, values.get().as_slice())
}
