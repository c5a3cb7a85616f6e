//! The bitfields of bits that are written: their ends as numbers, and the places that they have.

ghost use Rattle.std.specs.Prelude.{◌≡◌, ◌≤◌, ◌^◌, pos, nat_le, nat_lt, ◌&&◌, [], ◌∷◌, map, option_map, Ok, OnOk, IfOk, IfSome, if◌then◌else◌, Some, None};
ghost use Rattle.asl_poly.specs.Poly.{constant_value};
ghost use Rattle.asl_rules.specs.expressions.Exprs.{found};
ghost use Rattle.asl_rules.specs.Faults.{found_or};
ghost use Rattle.asl_widths.specs.private.Steps.{and_then};
ghost use Rattle.asl_rules.specs.Tests.{Tests};
ghost use Rattle.asl_rules.specs.types.Writing as rules;
ghost use Rattle.asl_types.specs.private.Answers.{Met};
ghost use Rattle.asl_subprograms.specs.private.ContextView.{scope_of};
ghost use Rattle.asl_widths.specs.WidthViews.{width_of};
ghost use Rattle.asl_written.specs.private.WrittenFields.{found_bitfield, found_bitfields, end_seen, field_seen, field_view, fields_view, no_fields, with_field, fields_seen, numbered_as, all_numbers, end_number, ends_numbered, numbered_from, placed_all, view_from};

use asl_names::firsts::Firsts;
use asl_poly::Poly;
use asl_shape::BitfieldShape;
use asl_shared::Shared;
use asl_subprograms::Context;
use asl_syn::code::{Refused, StaticCode};
use asl_syn::token::Span;
use asl_syn::tree::{Bitfield, Expr, Ident};
use asl_tree::lists::{one_tree, two_trees};
use asl_tree::places::place;
use asl_tree::tree::Tree;
use asl_types::BitField;
use asl_types::answer::fault;
use asl_value::Name;
use asl_widths::type_width;
use sqlite_items::{Boxed, Items};
use std::alloc::{AllocError, Global};

/// Where an end of a bitfield stands, and its number, where it is one.
#[derive(Clone, Copy)]
pub(crate) struct EndNumber {
    span: Span,
    number: Option<i128>,
}

/// The name of a bitfield, and its highest and its lowest end.
#[derive(Drop)]
pub(crate) struct FieldEnds {
    name: Name,
    high: EndNumber,
    low: EndNumber,
}

/// The name of a bitfield, and the numbers that its ends are.
#[derive(Drop)]
pub(crate) struct FieldNumbers {
    name: Name,
    high: i128,
    low: i128,
}

/// A bitfield with its shape and the typed trees of its ends.
pub(crate) struct FieldWritten {
    ends: FieldEnds,
    shape: BitfieldShape,
    trees: Items<Tree>,
}

// By hand, so that a drop of one is a call, as `Held` of asl_shared says.
impl Drop for FieldWritten {
    fn drop(self) {
        let FieldWritten {
            ends: _ends,
            shape: _shape,
            trees: _trees,
        } = self;
    }
}

impl FieldWritten {
    /// Its parts.
    pub(crate) fn into_parts(self) -> (FieldEnds, BitfieldShape, Items<Tree>)
        ensures { result ≡ (self.ends, self.shape, self.trees) }
    {
        let FieldWritten { ends, shape, trees } = self;
        (ends, shape, trees)
    }
}

/// Bitfields in order, with their shapes and the typed trees of their ends.
pub(crate) struct FieldsWritten {
    pub(crate) ends: Items<FieldEnds>,
    pub(crate) shapes: Items<BitfieldShape>,
    pub(crate) trees: Items<Tree>,
}

// By hand, so that a drop of one is a call, as `Held` of asl_shared says.
impl Drop for FieldsWritten {
    fn drop(self) {
        let FieldsWritten {
            ends: _ends,
            shapes: _shapes,
            trees: _trees,
        } = self;
    }
}

impl FieldsWritten {
    /// Its parts.
    pub(crate) fn into_parts(self) -> (Items<FieldEnds>, Items<BitfieldShape>, Items<Tree>)
        ensures { result ≡ (self.ends, self.shapes, self.trees) }
    {
        let FieldsWritten {
            ends,
            shapes,
            trees,
        } = self;
        (ends, shapes, trees)
    }
}

impl FieldsWritten {
    /// No bitfields.
    fn new(alloc: Global) -> FieldsWritten
        ensures { fields_view result ≡ no_fields }
    {
        FieldsWritten {
            ends: Items::new(alloc),
            shapes: Items::new(alloc),
            trees: Items::new(alloc),
        }
    }

    /// One more bitfield.
    fn push(&mut self, field: FieldWritten) -> Result<(), AllocError>
        ensures { OnOk result (fields_view self.new ≡ with_field (fields_view self.old) (field_view field)) }
    {
        let (ends, shape, trees) = field.into_parts();
        self.ends.push(ends)?;
        self.shapes.push(shape)?;
        self.trees.append(trees)
    }
}

/// The name of a bitfield.
fn name_of(alloc: Global, name: &Ident) -> Result<Name, AllocError>
    ensures { IfOk result (λ n. n ≡ name.now.text) }
{
    let text = Items::from_slice(alloc, name.text.as_slice())?;
    Shared::new(alloc, text)
}

/// The end of a bitfield that is this width.
fn end(e: &Expr, width: &Poly) -> EndNumber
    ensures { (t : Tests) → result ≡ record { span = (found t e.now).span; number = constant_value width.now } }
{
    EndNumber {
        span: place(e),
        number: width.as_constant(),
    }
}

/// A bitfield of one place.
fn one_bit(alloc: Global, context: Context, e: &Expr, name: &Ident) -> Result<FieldWritten, Refused>
    ensures { (t : Tests) → Met field_view result (and_then (rules.one_bit_rule (found t e.now) name.now (scope_of context.entry)) (λ f. Ok (field_seen f))) }
{
    let (poly, tree) = type_width(alloc, context, e)?.into_parts();
    let at = end(e, &poly);
    let trees = one_tree(alloc, tree)?;
    let name = name_of(alloc, name)?;
    let ends = FieldEnds {
        name: name.share()?,
        high: at,
        low: at,
    };
    Ok(FieldWritten {
        ends,
        shape: BitfieldShape::OnePlace(name),
        trees,
    })
}

/// A bitfield from one place to another.
fn bit_range(
    alloc: Global,
    context: Context,
    high: &Expr,
    low: &Expr,
    name: &Ident,
) -> Result<FieldWritten, Refused>
    ensures { (t : Tests) → Met field_view result (and_then (rules.bit_range_rule (found t high.now) (found t low.now) name.now (scope_of context.entry)) (λ f. Ok (field_seen f))) }
{
    let (p, a) = type_width(alloc, context, high)?.into_parts();
    let (q, b) = type_width(alloc, context, low)?.into_parts();
    let (high, low) = (end(high, &p), end(low, &q));
    let trees = two_trees(alloc, a, b)?;
    let name = name_of(alloc, name)?;
    let ends = FieldEnds {
        name: name.share()?,
        high,
        low,
    };
    Ok(FieldWritten {
        ends,
        shape: BitfieldShape::ManyPlaces(name),
        trees,
    })
}

/// A bitfield.
fn field(alloc: Global, context: Context, field: &Bitfield) -> Result<FieldWritten, Refused>
    ensures { (t : Tests) → Met field_view result (and_then (found_bitfield t field.now (scope_of context.entry)) (λ f. Ok (field_seen f))) }
{
    match field {
        Bitfield::OneBit(e, name) => one_bit(alloc, context, e, name),
        Bitfield::BitRange(high, low, name) => bit_range(alloc, context, high, low, name),
    }
}

/// The bitfields in order, or the first fault of a width in them.
#[tactic(auto, using(crate::proofs::FieldLemmas::fields_first))]
pub(crate) fn all_fields(
    alloc: Global,
    context: Context,
    fields: &[Bitfield],
) -> Result<FieldsWritten, Refused>
    ensures { (t : Tests) → Met fields_view result (and_then (rules.all_fields (found_bitfields t fields.now) (scope_of context.entry)) (λ fs. Ok (fields_seen fs))) }
{
    let mut made = FieldsWritten::new(alloc);
    for f in fields {
        let next = field(alloc, context, f)?;
        made.push(next)?;
    }
    Ok(made)
}

/// The number of an end: T19 where it is none.
fn number_at(end: EndNumber) -> Result<i128, Refused>
    ensures { Met (λ z. z) result (end_number end) }
{
    match end.number {
        Some(z) => Ok(z),
        None => fault(StaticCode::T19, end.span),
    }
}

/// The numbers of the ends of a bitfield.
fn numbered(ends: &FieldEnds) -> Result<FieldNumbers, Refused>
    ensures { Met numbered_as result (ends_numbered ends.now) }
{
    let high = number_at(ends.high)?;
    let low = number_at(ends.low)?;
    Ok(FieldNumbers {
        name: ends.name.share()?,
        high,
        low,
    })
}

/// The numbers of the ends of bitfields in order, or the first fault.
#[tactic(auto, using(crate::proofs::FieldLemmas::numbers_next, crate::proofs::FieldLemmas::numbers_stop, crate::proofs::FieldLemmas::numbers_last, crate::proofs::FieldLemmas::numbers_first))]
fn all_numbered(alloc: Global, fields: &[FieldEnds]) -> Result<Items<FieldNumbers>, Refused>
    ensures { Met all_numbers result (numbered_from fields.now) }
{
    let mut made = Items::new(alloc);
    for f in fields {
        let next = numbered(f)?;
        made.push(next)?;
    }
    Ok(made)
}

/// The places of a bitfield of bits of this width: T16 where they don't lie within it.
fn placed(span: Span, width: i128, field: &FieldNumbers) -> Result<BitField, Refused>
    ensures { Met (λ f. f) result (found_or (rules.placed width (numbered_as field.now)) StaticCode.T16 span) }
{
    if field.low < 0 || field.high < field.low || width <= field.high {
        return fault(StaticCode::T16, span);
    }
    Ok(BitField::new(field.name.share()?, field.high as u128, field.low as u128))
}

/// The places of bitfields in order, or the first fault.
#[tactic(auto, using(crate::proofs::FieldLemmas::places_next, crate::proofs::FieldLemmas::places_stop, crate::proofs::FieldLemmas::places_last, crate::proofs::FieldLemmas::places_first))]
fn all_placed(
    alloc: Global,
    span: Span,
    width: i128,
    fields: &[FieldNumbers],
) -> Result<Items<BitField>, Refused>
    ensures { Met (λ v. v) result (rules.all_placed span width (all_numbers fields.now)) }
{
    let mut made = Items::new(alloc);
    for f in fields {
        let next = placed(span, width, f)?;
        made.push(next)?;
    }
    Ok(made)
}

/// Whether each name of the bitfields stands once.
#[tactic(auto, using(crate::proofs::NameLemmas::once_next, crate::proofs::NameLemmas::once_stop, crate::proofs::NameLemmas::once_last))]
fn names_once(alloc: Global, view: &[BitField]) -> Result<bool, AllocError>
    ensures { IfOk result (λ b. b ≡ rules.names_once view.now []) }
{
    let mut firsts = Firsts::new(alloc);
    for (place, field) in view.iter().enumerate() {
        if firsts.place_of(field.name()).is_some() {
            return Ok(false);
        }
        firsts.keep(field.name(), place)?;
    }
    Ok(true)
}

/// The places of bitfields of bits whose width is this number, where it is one: T16 where it is none or where they don't lie
/// within it, and T15 where two have one name.
fn all_within(
    alloc: Global,
    span: Span,
    width: &Poly,
    fields: &[FieldNumbers],
) -> Result<Items<BitField>, Refused>
    ensures { Met (λ v. v) result (placed_all span (constant_value width.now) (all_numbers fields.now)) }
{
    let Some(z) = width.as_constant() else {
        return fault(StaticCode::T16, span);
    };
    let view = all_placed(alloc, span, z, fields)?;
    if !names_once(alloc, view.as_slice())? {
        return fault(StaticCode::T15, span);
    }
    Ok(view)
}

/// The places of bitfields of bits of this width: T19 at the first end that is no number, then the faults of the places.
pub(crate) fn fields_placed(
    alloc: Global,
    span: Span,
    width: &Poly,
    fields: &[FieldEnds],
) -> Result<Items<BitField>, Refused>
    ensures { Met (λ v. v) result (view_from span (constant_value width.now) fields.now) }
{
    if fields.is_empty() {
        return Ok(Items::new(alloc));
    }
    let numbers = all_numbered(alloc, fields)?;
    all_within(alloc, span, width, numbers.as_slice())
}
