//! The parts of types by their names: fields of records and exceptions, and bitfields.

ghost use Rattle.std.specs.Prelude.{◌≡◌, option_map};
ghost use Rattle.asl_rules.specs.values.Members as rules;
ghost use Rattle.asl_types.specs.private.MemberView.{member_view};

use crate::ty::{Form, Ty};
use asl_value::{BitField, same_name};

/// The first of these bitfields that has this name.
#[tactic(auto, using(crate::proofs::MemberLemmas::bitfield_here, crate::proofs::MemberLemmas::bitfield_later, crate::proofs::MemberLemmas::bitfield_none))]
pub fn bitfield_among<'a>(view: &'a [BitField], name: &[u8]) -> Option<&'a BitField>
    ensures { option_map (λ f. f.now) result ≡ rules.bitfield_in name.now view.now }
{
    for field in view {
        if same_name(field.name(), name) {
            return Some(field);
        }
    }
    None
}

/// A part of a type by its name: a field with its place, from 0, and its type, or a bitfield.
pub enum Member<'t> {
    Field(usize, &'t Ty),
    Bitfield(&'t BitField),
}

/// A field as a part.
fn field_member<'t>(found: Option<(usize, &'t Ty)>) -> Option<Member<'t>>
    ensures { option_map member_view result ≡ rules.field_among (option_map (λ p. (p.0, p.1.now)) found.entry) }
{
    match found {
        Some((place, ty)) => Some(Member::Field(place, ty)),
        None => None,
    }
}

/// A bitfield as a part.
fn bitfield_member<'t>(found: Option<&'t BitField>) -> Option<Member<'t>>
    ensures { option_map member_view result ≡ option_map (λ b. rules.a_bitfield b) (option_map (λ f. f.now) found.entry) }
{
    match found {
        Some(field) => Some(Member::Bitfield(field)),
        None => None,
    }
}

/// The part of this name of a record, an exception or bits.
pub fn member_of<'t>(ty: &'t Ty, name: &[u8]) -> Option<Member<'t>>
    ensures { option_map member_view result ≡ rules.member_of ty.now name.now }
{
    match ty.form() {
        Form::Integer(_) => None,
        Form::Boolean => None,
        Form::Bits(_, view) => bitfield_member(bitfield_among(view.get().as_slice(), name)),
        Form::Enumeration(_, _) => None,
        Form::Record(_, _) => field_member(ty.field_named(name)),
        Form::Exception(_, _) => field_member(ty.field_named(name)),
        Form::Tuple(_) => None,
        Form::Array(_, _) => None,
        Form::Named(_, _, inner) => member_of(inner.get(), name),
    }
}
