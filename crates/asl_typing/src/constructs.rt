//! Constructions of records and exceptions. The fields of the type and those that are given are found by the first places
//! of their names, so that a construction takes no walk over the others for each field.

ghost use Rattle.std.specs.Prelude.{◌≡◌, ℕ, List, [], take, slice_get, Some, option_map, IfOk};
ghost use Rattle.asl_rules.specs.Faults.{found_or};
ghost use Rattle.asl_rules.specs.declarations.Layouts.{place_of};
ghost use Rattle.asl_rules.specs.values.Members as rules;
ghost use Rattle.asl_rules.specs.values.Members.{has_name, numbered};
ghost use Rattle.asl_rules.specs.Tests.{Tests, IsRight};
ghost use Rattle.asl_rules.specs.runs.Trees.{record_shell, exception_shell};
ghost use Rattle.asl_value.specs.private.Forms.{shell_of};
ghost use Rattle.asl_shape.specs.View.{given_view, all_given};
ghost use Rattle.asl_types.specs.private.Answers.{Met};
ghost use Rattle.asl_subprograms.specs.private.ContextView.{scope_of};
ghost use Rattle.asl_types.specs.View.{fields_of};
ghost use Rattle.asl_tree.specs.View.{typed_of, all_operands};
ghost use Rattle.asl_rules.specs.declarations.Scopes.{type_of_name};
ghost use Rattle.asl_typing.specs.private.Constructs.{given_name, given_names, given_texts, field_name, field_ty, field_names, making, made_as, made_of, built_view, given_type, given_fit, construction_of};
ghost use Rattle.asl_names.specs.private.Firsts.{placed};

use crate::ends::{all_together, greatest, keep_class, stand_together};
use asl_allowed::effects::greater;
use asl_names::firsts::Firsts;
use asl_rules::effect::Effect;
use asl_shape::FieldGiven;
use asl_shared::Shared;
use asl_subprograms::Context;
use asl_syn::code::{Refused, StaticCode};
use asl_syn::token::Span;
use asl_syn::tree::{FieldValue, Ident};
use asl_tree::nodes;
use asl_tree::tree::{Note, Tree};
use asl_types::answer::fault;
use asl_types::fits::fits;
use asl_types::{FieldType, Form, Ty};
use asl_value::{Name, Shell, Supers};
use sqlite_items::{Boxed, Items};
use std::alloc::{AllocError, Global};

/// What is constructed: where, by which name, and with which fields.
#[derive(Clone, Copy)]
pub struct Site<'g> {
    pub span: Span,
    pub name: &'g Ident,
    pub given: &'g [FieldValue],
}

/// What is built: what it is made by, and the fields of its type.
pub(crate) struct Built<'t> {
    shell: Shell,
    fields: &'t [FieldType],
}

// By hand, so that a drop of one is a call, as `Held` of asl_shared says.
impl<'t> Drop for Built<'t> {
    fn drop(self) {
        let Built {
            shell: _shell,
            fields: _fields,
        } = self;
    }
}

impl<'t> Built<'t> {
    /// What it is made by.
    fn into_shell(self) -> Shell
        ensures { shell_of result ≡ (built_view self.entry).shell }
    {
        let Built {
            shell,
            fields: _fields,
        } = self;
        shell
    }
}

/// The name of a field of a type.
fn name_of(field: &FieldType) -> &Name
    ensures { result.now ≡ field_name field.now }
{
    match field {
        FieldType::Field(name, _) => name,
    }
}

/// The type of a field of a type.
fn type_in(field: &FieldType) -> &Ty
    ensures { result.now ≡ field_ty field.now }
{
    match field {
        FieldType::Field(_, ty) => ty,
    }
}

/// The name of a field that is given.
fn name_given(field: &FieldValue) -> &Ident
    ensures { result.now ≡ given_name field.now }
{
    match field {
        FieldValue::Given(name, _) => name,
    }
}

/// The names of the fields of a type, with the places at which they stand first.
fn firsts_of_fields(alloc: Global, fields: &[FieldType]) -> Result<Firsts<'_>, AllocError>
    ensures { IfOk result (λ firsts. firsts ≡ placed (field_names fields.now) 0 []) }
{
    let mut firsts = Firsts::new(alloc);
    for (place, field) in fields.iter().enumerate() {
        firsts.keep(name_of(field).get().as_slice(), place)?;
    }
    Ok(firsts)
}

/// The names of the fields that are given, with the places at which they stand first.
fn firsts_of_given(alloc: Global, given: &[FieldValue]) -> Result<Firsts<'_>, AllocError>
    ensures { IfOk result (λ firsts. firsts ≡ placed (given_texts given.now) 0 []) }
{
    let mut firsts = Firsts::new(alloc);
    for (place, field) in given.iter().enumerate() {
        firsts.keep(name_given(field).text.as_slice(), place)?;
    }
    Ok(firsts)
}

/// The first place of a name among those whose first places these are.
#[tactic(auto, using(crate::proofs::GivenLemmas::place_known))]
fn place_in(firsts: &Firsts, name: &[u8]) -> Option<usize>
    ensures { (names : List (List ℕ)) → firsts.now ≡ placed names 0 [] → result ≡ place_of name.now names }
{
    firsts.place_of(name)
}

/// Whether a name is also that of a field that is given before this place.
#[tactic(auto, using(crate::proofs::GivenLemmas::repeated_none, crate::proofs::GivenLemmas::repeated_some))]
fn is_repeated(firsts: &Firsts, given: &[FieldValue], name: &[u8], place: usize) -> bool
    requires { firsts.now ≡ placed (given_texts given.now) 0 [] }
    ensures { result ≡ has_name name.now (take place (given_texts given.now)) }
{
    match place_in(firsts, name) {
        None => false,
        Some(first) => first < place,
    }
}

/// The type of the field in this place.
fn type_at(fields: &[FieldType], place: usize) -> Option<&Ty>
    ensures { option_map (λ ty. ty.now) result ≡ option_map (λ field. field_ty field) (slice_get fields.now place) }
{
    match fields.get(place) {
        None => None,
        Some(field) => Some(type_in(field)),
    }
}

/// The type of the first field of a name.
#[tactic(auto, using(crate::proofs::GivenLemmas::type_missing, crate::proofs::GivenLemmas::type_there))]
fn type_of_field<'t>(firsts: &Firsts, fields: &'t [FieldType], name: &[u8]) -> Option<&'t Ty>
    requires { firsts.now ≡ placed (field_names fields.now) 0 [] }
    ensures { option_map (λ ty. ty.now) result ≡ option_map (λ p. p.1) (numbered name.now (fields_of fields.now)) }
{
    match place_in(firsts, name) {
        None => None,
        Some(place) => type_at(fields, place),
    }
}

/// The type of the field of this name, which is given in this place.
fn type_given(
    given: &[FieldValue],
    given_firsts: &Firsts,
    fields: &[FieldType],
    firsts: &Firsts,
    place: usize,
    name: &Ident,
) -> Result<Ty, Refused>
    requires given { given_firsts.now ≡ placed (given_texts given.now) 0 [] }
    requires fields { firsts.now ≡ placed (field_names fields.now) 0 [] }
    ensures { Met (λ ty. ty) result (given_type name.now (take place (given_texts given.now)) (fields_of fields.now)) }
{
    if is_repeated(given_firsts, given, name.text.as_slice(), place) {
        return fault(StaticCode::T15, name.span);
    }
    match type_of_field(firsts, fields, name.text.as_slice()) {
        None => fault(StaticCode::T15, name.span),
        Some(ty) => Ok(ty.copy()?),
    }
}

/// The types of the fields that are given, in order: T15 at a name that stood before, or that is no field's.
#[tactic(auto, using(crate::proofs::GivenTypes::types_first, crate::proofs::GivenTypes::types_last))]
fn types_given(
    alloc: Global,
    given: &[FieldValue],
    given_firsts: &Firsts,
    fields: &[FieldType],
    firsts: &Firsts,
) -> Result<Items<Ty>, Refused>
    requires given { given_firsts.now ≡ placed (given_texts given.now) 0 [] }
    requires fields { firsts.now ≡ placed (field_names fields.now) 0 [] }
    ensures { Met (λ tys. tys) result (rules.given_once (given_names given.now) [] (fields_of fields.now)) }
{
    let mut types = Items::new(alloc);
    for (place, field) in given.iter().enumerate() {
        let ty = type_given(
            given,
            given_firsts,
            fields,
            firsts,
            place,
            name_given(field),
        )?;
        types.push(ty)?;
    }
    Ok(types)
}

/// Whether each value fits its field: the first fault of those that don't.
fn all_fit(operands: &[Tree], types: &[Ty]) -> Result<(), Refused>
    ensures { (t : Tests) → IsRight t → Met (λ u. u) result (rules.all_fit t (all_operands operands.now) types.now) }
{
    let mut rest = types;
    for operand in operands {
        match rest.split_first() {
            None => return Ok(()),
            Some((ty, more)) => {
                if let Some(code) = fits(operand.ty(), ty) {
                    return fault(code, operand.span());
                }
                rest = more;
            }
        }
    }
    Ok(())
}

/// A field of a type with the place of its value.
fn field_placed(field: &FieldType, place: usize) -> Result<FieldGiven, AllocError>
    ensures { IfOk result (λ g. given_view g ≡ record { name = field_name field.now; ty = field_ty field.now; place = place }) }
{
    Ok(FieldGiven {
        name: name_of(field).share()?,
        ty: type_in(field).copy()?,
        place,
    })
}

/// Each field of the type with the place of its value among those that are given: `None` where one is missing.
#[tactic(auto, using(crate::proofs::GivenPlaces::places_first, crate::proofs::GivenPlaces::places_next, crate::proofs::GivenPlaces::places_missing, crate::proofs::GivenPlaces::places_last))]
fn places_given(
    alloc: Global,
    fields: &[FieldType],
    given: &[FieldValue],
    firsts: &Firsts,
) -> Result<Option<Items<FieldGiven>>, AllocError>
    requires { firsts.now ≡ placed (given_texts given.now) 0 [] }
    ensures { IfOk result (λ o. option_map all_given o ≡ rules.places_given (fields_of fields.now) (given_texts given.now)) }
{
    let mut places = Items::new(alloc);
    for field in fields {
        match place_in(firsts, name_of(field).get().as_slice()) {
            None => return Ok(None),
            Some(place) => places.push(field_placed(field, place)?)?,
        }
    }
    Ok(Some(places))
}

/// The conditions on the fields of a construction, in order, with the places of those that are given.
fn fields_fit(
    alloc: Global,
    span: Span,
    fields: &[FieldType],
    given: &[FieldValue],
    values: &[Tree],
) -> Result<Items<FieldGiven>, Refused>
    ensures { (t : Tests) → IsRight t → Met all_given result (given_fit t span (given_names given.now) (all_operands values.now) (fields_of fields.now)) }
{
    let firsts = firsts_of_fields(alloc, fields)?;
    let given_firsts = firsts_of_given(alloc, given)?;
    let types = types_given(alloc, given, &given_firsts, fields, &firsts)?;
    all_fit(values, types.as_slice())?;
    match places_given(alloc, fields, given, &given_firsts)? {
        None => fault(StaticCode::T15, span),
        Some(places) => Ok(places),
    }
}

/// A name with no bytes.
fn no_name(alloc: Global) -> Result<Name, AllocError>
    ensures { IfOk result (λ n. n ≡ []) }
{
    Shared::new(alloc, Items::new(alloc))
}

/// A record of the declaration of this name.
fn record_built<'t>(name: &Name, fields: &'t [FieldType]) -> Result<Option<Built<'t>>, AllocError>
    ensures { IfOk result (λ o. option_map built_view o ≡ Some (making (record_shell name.now) (fields_of fields.now))) }
{
    Ok(Some(Built {
        shell: Shell::Record(name.share()?),
        fields,
    }))
}

/// An exception of the declaration of this name, which is built with one that reaches these.
fn exception_built<'t>(
    own: &Name,
    supers: &Supers,
    name: &Name,
    fields: &'t [FieldType],
) -> Result<Option<Built<'t>>, AllocError>
    ensures { IfOk result (λ o. option_map built_view o ≡ Some (making (exception_shell own.now supers.now name.now) (fields_of fields.now))) }
{
    Ok(Some(Built {
        shell: Shell::Exception(own.share()?, supers.share()?, name.share()?),
        fields,
    }))
}

/// What a construction makes of a type that is built with this name, which reaches these: `None` where it is no record and no
/// exception.
fn built_as<'t>(own: &Name, supers: &Supers, ty: &'t Ty) -> Result<Option<Built<'t>>, AllocError>
    ensures { IfOk result (λ o. option_map built_view o ≡ made_as own.now supers.now ty.now) }
{
    match ty.form() {
        Form::Integer(_) => Ok(None),
        Form::Boolean => Ok(None),
        Form::Bits(_, _) => Ok(None),
        Form::Enumeration(_, _) => Ok(None),
        Form::Record(name, fields) => record_built(name, fields.get().as_slice()),
        Form::Exception(name, fields) => {
            exception_built(own, supers, name, fields.get().as_slice())
        }
        Form::Tuple(_) => Ok(None),
        Form::Array(_, _) => Ok(None),
        Form::Named(_, _, inner) => built_as(own, supers, inner.get()),
    }
}

/// What a construction makes of a type that no declared name stands for.
fn built_bare(alloc: Global, ty: &Ty) -> Result<Option<Built<'_>>, AllocError>
    ensures { IfOk result (λ o. option_map built_view o ≡ made_as [] [] ty.now) }
{
    let own = no_name(alloc)?;
    let supers = Supers::none(alloc)?;
    built_as(&own, &supers, ty)
}

/// What a construction makes of a type: `None` where it is no record and no exception.
fn built_of(alloc: Global, ty: &Ty) -> Result<Option<Built<'_>>, AllocError>
    ensures { IfOk result (λ o. option_map built_view o ≡ made_of ty.now) }
{
    match ty.form() {
        Form::Integer(_) => built_bare(alloc, ty),
        Form::Boolean => built_bare(alloc, ty),
        Form::Bits(_, _) => built_bare(alloc, ty),
        Form::Enumeration(_, _) => built_bare(alloc, ty),
        Form::Record(_, _) => built_bare(alloc, ty),
        Form::Exception(_, _) => built_bare(alloc, ty),
        Form::Tuple(_) => built_bare(alloc, ty),
        Form::Array(_, _) => built_bare(alloc, ty),
        Form::Named(name, supers, inner) => built_as(name, supers, inner.get()),
    }
}

/// What a construction of a type makes: T05 at its name where it is no record and no exception.
fn built_named<'t>(alloc: Global, name: &Ident, ty: &'t Ty) -> Result<Built<'t>, Refused>
    ensures { Met built_view result (found_or (made_of ty.now) StaticCode.T05 name.now.span) }
{
    match built_of(alloc, ty)? {
        None => fault(StaticCode::T05, name.span),
        Some(made) => Ok(made),
    }
}

/// A construction of this type whose values were typed.
fn construct(
    alloc: Global,
    class: Effect,
    site: Site,
    ty: &Ty,
    values: Items<Tree>,
) -> Result<Boxed<Tree>, Refused>
    ensures { (t : Tests) → IsRight t → Met typed_of result (construction_of t class site.entry.span site.entry.name.now ty.now (given_names site.entry.given.now) (all_operands values)) }
{
    let made = built_named(alloc, site.name, ty)?;
    let places = fields_fit(alloc, site.span, made.fields, site.given, values.as_slice())?;
    stand_together(site.span, all_together(Effect::Pure, values.as_slice()))?;
    let effect = greater(greatest(Effect::Pure, values.as_slice()), Effect::Pure);
    keep_class(class, site.span, effect)?;
    let note = Note {
        span: site.span,
        ty: ty.copy()?,
        effect,
    };
    Ok(nodes::construct(alloc, note, made.into_shell(), places, values)?)
}

/// A construction whose values were typed, of the type of its name: T02 where that is none, T05 where it is no record
/// and no exception, T15 at a name given twice or that is no field's, the misfit of a value, T15 where a field is
/// missing, then T13, then T12.
#[tactic(auto, using(crate::proofs::ConstructRows::row_missing, crate::proofs::ConstructRows::row_of))]
pub fn type_construction(
    alloc: Global,
    context: Context,
    site: Site,
    values: Items<Tree>,
) -> Result<Boxed<Tree>, Refused>
    ensures { (t : Tests) → IsRight t → Met typed_of result (rules.construction t (scope_of context.entry).class site.entry.span site.entry.name.now (type_of_name site.entry.name.now.text (scope_of context.entry).names) (given_names site.entry.given.now) (all_operands values)) }
{
    match context.names.type_of_name(site.name.text.as_slice()) {
        None => fault(StaticCode::T02, site.name.span),
        Some(ty) => construct(alloc, context.class, site, ty, values),
    }
}
