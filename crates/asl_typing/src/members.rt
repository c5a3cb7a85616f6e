//! Fields, bitfields and elements.

ghost use Rattle.std.specs.Prelude.{◌≡◌, ◌+◌, ◌≤◌, ◌^◌, min, IfOk};
ghost use Rattle.asl_rules.specs.Faults.{found_or};
ghost use Rattle.asl_rules.specs.values.Members as rules;
ghost use Rattle.asl_rules.specs.types.Types as types;
ghost use Rattle.asl_rules.specs.expressions.Typing.{in_class};
ghost use Rattle.asl_types.specs.private.Answers.{Met, Agrees};
ghost use Rattle.asl_types.specs.private.MemberView.{member_view};
ghost use Rattle.asl_tree.specs.View.{tree_of, typed_of};
ghost use Rattle.asl_typing.specs.private.FoundMembers.{found_view, IsNarrow, bitfield_part as bitfield_rule};

use crate::ends::{keep_class, stand_together};
use asl_allowed::effects::{greater, together};
use asl_rules::effect::Effect;
use asl_syn::code::{Refused, StaticCode};
use asl_syn::token::Span;
use asl_syn::tree::Ident;
use asl_tree::nodes;
use asl_tree::tree::{Note, Tree};
use asl_types::answer::fault;
use asl_types::integers::bits_wide;
use asl_types::kinds::{is_bits, is_integer};
use asl_types::members::{Member, bitfield_among, member_of};
use asl_types::structure::{element_in, view_of};
use asl_types::{BitField, Ty};
use sqlite_items::{Boxed, Items};
use std::alloc::{AllocError, Global};

/// How many places a bitfield has, up to one more than the limit of widths.
fn places_in(field: &BitField) -> u64
    ensures { result ≡ min (types.bitfield_width field.now) (2 ^ 62 + 1) }
{
    let (high, low) = (field.high(), field.low());
    if high < low {
        return 0;
    }
    let further = high - low;
    if further < 0x4000_0000_0000_0000 {
        further as u64 + 1
    } else {
        0x4000_0000_0000_0001
    }
}

/// A bitfield as a part: T20 at its name where it has more places than the limit of widths.
fn bitfield_part<'t>(name: &Ident, field: &'t BitField) -> Result<Member<'t>, Refused>
    ensures rule { Met member_view result (bitfield_rule name.now field.now) }
    ensures room { IfOk result (λ m. IsNarrow (member_view m)) }
{
    if places_in(field) > 0x4000_0000_0000_0000 {
        return fault(StaticCode::T20, name.span);
    }
    Ok(Member::Bitfield(field))
}

/// Bits as wide as a bitfield, which has no more places than the limit of widths.
pub fn bitfield_type(alloc: Global, field: &BitField) -> Result<Ty, AllocError>
    requires { types.bitfield_width field.now ≤ 2 ^ 62 }
    ensures { IfOk result (λ ty. ty ≡ types.bits_wide (types.bitfield_width field.now)) }
{
    bits_wide(alloc, places_in(field))
}

/// A part of a type by its name: T15 at the name where there is none, and T20 where a bitfield has more places than the limit of
/// widths.
pub fn member_named<'t>(name: &Ident, ty: &'t Ty) -> Result<Member<'t>, Refused>
    ensures rule { Met member_view result (rules.member_named name.now ty.now) }
    ensures room { IfOk result (λ m. IsNarrow (member_view m)) }
{
    match member_of(ty, name.text.as_slice()) {
        None => fault(StaticCode::T15, name.span),
        Some(Member::Field(place, field)) => Ok(Member::Field(place, field)),
        Some(Member::Bitfield(field)) => bitfield_part(name, field),
    }
}

/// A field of what was typed.
fn field_at(
    alloc: Global,
    class: Effect,
    span: Span,
    operand: Boxed<Tree>,
    place: usize,
    ty: Ty,
) -> Result<Boxed<Tree>, Refused>
    ensures { Met typed_of result (in_class class span (typed_of operand).effect ty (rules.member_tree (tree_of operand) (rules.a_field place ty))) }
{
    let effect = operand.get().effect();
    keep_class(class, span, effect)?;
    Ok(nodes::field(alloc, Note { span, ty, effect }, operand, place)?)
}

/// A bitfield of what was typed.
fn bitfield_at(
    alloc: Global,
    class: Effect,
    span: Span,
    operand: Boxed<Tree>,
    field: BitField,
) -> Result<Boxed<Tree>, Refused>
    requires { types.bitfield_width field ≤ 2 ^ 62 }
    ensures { Met typed_of result (in_class class span (typed_of operand).effect (types.bits_wide (types.bitfield_width field)) (rules.member_tree (tree_of operand) (rules.a_bitfield field))) }
{
    let effect = operand.get().effect();
    keep_class(class, span, effect)?;
    let ty = bitfield_type(alloc, &field)?;
    Ok(nodes::bitfield(alloc, Note { span, ty, effect }, operand, field)?)
}

/// What was found of a part by its name.
enum Found {
    Field(usize, Ty),
    Bitfield(BitField),
}

/// A part of a type by its name, on its own, with the faults of `member_named`.
fn own_member(name: &Ident, ty: &Ty) -> Result<Found, Refused>
    ensures rule { Met found_view result (rules.member_named name.now ty.now) }
    ensures room { IfOk result (λ m. IsNarrow (found_view m)) }
{
    match member_named(name, ty)? {
        Member::Field(place, ty) => Ok(Found::Field(place, ty.copy()?)),
        Member::Bitfield(field) => Ok(Found::Bitfield(field.share()?)),
    }
}

/// A field or a bitfield of what was typed: the fault of `member_named`, then T12.
pub fn type_field(
    alloc: Global,
    class: Effect,
    span: Span,
    name: &Ident,
    operand: Boxed<Tree>,
) -> Result<Boxed<Tree>, Refused>
    ensures { Met typed_of result (rules.field_behind class span name.now (typed_of operand)) }
{
    match own_member(name, operand.get().ty())? {
        Found::Field(place, ty) => field_at(alloc, class, span, operand, place, ty),
        Found::Bitfield(field) => bitfield_at(alloc, class, span, operand, field),
    }
}

/// A bitfield by its name: T15 at the name where there is none.
fn bitfield_named(name: &Ident, view: &[BitField]) -> Result<BitField, Refused>
    ensures { Met (λ f. f) result (found_or (rules.bitfield_in name.now.text view.now) StaticCode.T15 name.now.span) }
{
    match bitfield_among(view, name.text.as_slice()) {
        None => fault(StaticCode::T15, name.span),
        Some(field) => Ok(field.share()?),
    }
}

/// Bitfields by their names, in order.
#[tactic(auto, using(crate::proofs::MemberRows::bitfields_first, crate::proofs::MemberRows::bitfields_next, crate::proofs::MemberRows::bitfields_stop, crate::proofs::MemberRows::bitfields_last))]
fn bitfields_in(
    alloc: Global,
    names: &[Ident],
    view: &[BitField],
) -> Result<Items<BitField>, Refused>
    ensures { Met (λ fs. fs) result (rules.bitfields_in names.now view.now) }
{
    let mut fields = Items::new(alloc);
    for name in names {
        let field = bitfield_named(name, view)?;
        fields.push(field)?;
    }
    Ok(fields)
}

/// How many places bitfields have, up to one more than the limit of widths.
#[tactic(auto, using(crate::proofs::MemberRows::wide_next))]
fn all_wide(fields: &[BitField]) -> u64
    ensures { result ≡ min (rules.all_wide fields.now) (2 ^ 62 + 1) }
{
    let mut wide: u64 = 0;
    for field in fields {
        wide = capped(wide + places_in(field));
    }
    wide
}

/// A number, up to one more than the limit of widths.
fn capped(wide: u64) -> u64
    ensures { result ≡ min wide (2 ^ 62 + 1) }
{
    if wide <= 0x4000_0000_0000_0000 {
        wide
    } else {
        0x4000_0000_0000_0001
    }
}

/// Bitfields of bits by their names: T15 where there is one that isn't, or of another type, and T20 where they have more places
/// than the limit of widths.
pub fn bitfields_named(
    alloc: Global,
    span: Span,
    names: &[Ident],
    ty: &Ty,
) -> Result<Items<BitField>, Refused>
    ensures rule { Met (λ fs. fs) result (rules.bitfields_named span names.now ty.now) }
    ensures room { IfOk result (λ fs. rules.all_wide fs ≤ 2 ^ 62) }
{
    let fields = bitfields_in(alloc, names, view_of(ty))?;
    if !is_bits(ty) {
        return fault(StaticCode::T15, span);
    }
    if all_wide(fields.as_slice()) > 0x4000_0000_0000_0000 {
        return fault(StaticCode::T20, span);
    }
    Ok(fields)
}

/// Bitfields of what was typed: the fault of `bitfields_named`, then T12.
pub fn type_bitfields(
    alloc: Global,
    class: Effect,
    span: Span,
    names: &[Ident],
    operand: Boxed<Tree>,
) -> Result<Boxed<Tree>, Refused>
    ensures { Met typed_of result (rules.bitfields_behind class span names.now (typed_of operand)) }
{
    let fields = bitfields_named(alloc, span, names, operand.get().ty())?;
    let effect = operand.get().effect();
    keep_class(class, span, effect)?;
    let ty = bitfields_type(alloc, fields.as_slice())?;
    Ok(nodes::bitfields(alloc, Note { span, ty, effect }, operand, fields)?)
}

/// Bits as wide as bitfields, which have no more places than the limit of widths.
pub fn bitfields_type(alloc: Global, fields: &[BitField]) -> Result<Ty, AllocError>
    requires { rules.all_wide fields.now ≤ 2 ^ 62 }
    ensures { IfOk result (λ ty. ty ≡ types.bits_wide (rules.all_wide fields.now)) }
{
    bits_wide(alloc, all_wide(fields))
}

/// The type of the elements of an array at an integer: T08 where it is no array, or where the index is no integer.
pub fn indexed(span: Span, array: &Ty, index: &Ty) -> Result<Ty, Refused>
    ensures { Agrees result (rules.indexed span array.now index.now) }
{
    match element_in(array) {
        None => fault(StaticCode::T08, span),
        Some(ty) => {
            if !is_integer(index) {
                return fault(StaticCode::T08, span);
            }
            Ok(ty.copy()?)
        }
    }
}

/// An element of what was typed, at what was typed: the fault of `indexed`, then T13, then T12.
pub fn type_element(
    alloc: Global,
    class: Effect,
    span: Span,
    array: Boxed<Tree>,
    index: Boxed<Tree>,
) -> Result<Boxed<Tree>, Refused>
    ensures { Met typed_of result (rules.element_at class span (typed_of array) (typed_of index)) }
{
    let ty = indexed(span, array.get().ty(), index.get().ty())?;
    let (k, l) = (array.get().effect(), index.get().effect());
    stand_together(span, together(k, l))?;
    let effect = greater(k, l);
    keep_class(class, span, effect)?;
    Ok(nodes::element(alloc, Note { span, ty, effect }, array, index)?)
}
