//! The suffixes of targets: their expressions, and what lies behind them.

ghost use Rattle.std.specs.Prelude.{◌≡◌, ◌&&◌, [], ◌++◌, map, OnOk};
ghost use Rattle.asl_rules.specs.declarations.Scopes as scopes;
ghost use Rattle.asl_rules.specs.statements.Targets as rules;
ghost use Rattle.asl_rules.specs.statements.Targets.{typed_suffix};
ghost use Rattle.asl_rules.specs.expressions.Slicing.{all_integers};
ghost use Rattle.asl_rules.specs.types.Types.{is_bits};
ghost use Rattle.asl_rules.specs.Tests.{Tests};
ghost use Rattle.asl_rules.specs.expressions.Typing.{effects_of};
ghost use Rattle.asl_types.specs.private.Answers.{Met};
ghost use Rattle.asl_types.specs.Suits.{Suits};
ghost use Rattle.asl_tree.specs.View.{typed_of, all_operands};
ghost use Rattle.asl_assignments.specs.private.TargetViews.{suffix_of, behind_of, reached_of};
ghost use Rattle.asl_assignments.specs.private.SuffixWalks.{bits_behind};
ghost use Rattle.asl_blocks.specs.private.Views.{body_of};
ghost use Rattle.asl_blocks.specs.private.Walks as walks;
ghost use Rattle.asl_blocks.specs.private.Walks.{after};

use asl_blocks::body::{Body, context};
use asl_expr::exprs::type_expr;
use asl_expr::slices::{all_integers, slice_operands, slice_shapes, sliced_width};
use asl_rules::effect::Effect;
use asl_shared::Held;
use asl_syn::code::{Refused, StaticCode};
use asl_syn::token::Span;
use asl_syn::tree::{Ident, PlacedSuffix, Slice, Suffix};
use asl_tree::act::TreeStep;
use asl_tree::tree::Tree;
use asl_types::answer::fault;
use asl_types::integers::bits_of;
use asl_types::kinds::is_bits;
use asl_types::members::Member;
use asl_types::{Scope, Ty};
use asl_typing::members::{bitfield_type, bitfields_named, bitfields_type, indexed, member_named};
use sqlite_items::{Boxed, Items};
use std::alloc::AllocError;

/// A suffix whose expressions were typed, with the span of the target up to it.
#[derive(Drop)]
pub(crate) enum TypedSuffix<'a> {
    Field(Span, &'a Ident),
    Bitfields(Span, &'a [Ident]),
    Slices(Span, &'a [Slice], Items<Tree>),
    Element(Span, Boxed<Tree>),
}

/// The span of a target up to this place.
fn up_to(name: &Ident, end: u32) -> Span
    ensures { result ≡ rules.up_to name.now end }
{
    Span {
        file: name.span.file,
        start: name.span.start,
        len: end.saturating_sub(name.span.start),
    }
}

/// The expressions of a suffix.
fn type_suffix<'a>(
    names: &Scope,
    body: &Body,
    at: Span,
    suffix: &'a Suffix,
) -> Result<TypedSuffix<'a>, Refused>
    ensures { (t : Tests) → Suits t → Met (suffix_of t) result (typed_suffix t at suffix.now (body_of names.now body.now).scope) }
{
    match suffix {
        Suffix::FieldOf(name) => Ok(TypedSuffix::Field(at, name)),
        Suffix::FieldsOf(fields) => Ok(TypedSuffix::Bitfields(at, fields.as_slice())),
        Suffix::SlicesOf(slices) => {
            let slices = slices.as_slice();
            let operands = slice_operands(body.alloc, context(names, body), slices)?;
            Ok(TypedSuffix::Slices(at, slices, operands))
        }
        Suffix::ElementOf(e) => {
            let index = type_expr(body.alloc, context(names, body), e)?;
            Ok(TypedSuffix::Element(at, index))
        }
    }
}

/// The expressions of the suffixes behind a name, in order.
pub(crate) fn type_suffixes<'a>(
    names: &Scope,
    body: &Body,
    name: &Ident,
    suffixes: &'a [PlacedSuffix],
) -> Result<Vec<TypedSuffix<'a>>, Refused>
    ensures { (t : Tests) → Suits t → Met (λ ys. map (suffix_of t) ys.items) result (rules.typed_suffixes t name.now suffixes.now (body_of names.now body.now).scope) }
{
    let mut typed = Vec::new(body.alloc);
    for x in suffixes {
        let suffix = type_suffix(names, body, up_to(name, x.end), &x.suffix)?;
        typed.push(suffix)?;
    }
    Ok(typed)
}

/// The effects of some expressions, behind those before.
fn push_all(trees: &[Tree], effects: &mut Items<Effect>) -> Result<(), AllocError>
    ensures { OnOk result (effects.new ≡ effects.old ++ effects_of (all_operands trees.now)) }
{
    for e in trees {
        effects.push(e.effect())?;
    }
    Ok(())
}

/// The effects of the expressions of a suffix, behind those before.
pub(crate) fn push_effects(
    suffix: &TypedSuffix,
    effects: &mut Items<Effect>,
) -> Result<(), AllocError>
    ensures { (t : Tests) → OnOk result (effects.new ≡ effects.old ++ rules.suffix_effects (suffix_of t suffix.now)) }
{
    match suffix {
        TypedSuffix::Field(_, _) => Ok(()),
        TypedSuffix::Bitfields(_, _) => Ok(()),
        TypedSuffix::Slices(_, _, operands) => push_all(operands.as_slice(), effects),
        TypedSuffix::Element(_, index) => effects.push(index.get().effect()),
    }
}

/// What lies behind a suffix: its type, and the step to it.
#[derive(Drop)]
pub(crate) struct Behind {
    pub(crate) ty: Held<Ty>,
    pub(crate) step: Held<TreeStep>,
}

/// What lies behind `.f`.
fn behind_field(body: &Body, at: Span, name: &Ident, ty: &Ty) -> Result<Behind, Refused>
    ensures { (G : scopes.Scope) → Met behind_of result (rules.behind_suffix (rules.by_field at name.now) ty.now G) }
{
    match member_named(name, ty)? {
        Member::Field(place, field) => Ok(Behind {
            ty: Held::new(field.copy()?),
            step: Held::new(TreeStep::Field(at, place)),
        }),
        Member::Bitfield(field) => {
            let behind = Held::new(bitfield_type(body.alloc, field)?);
            Ok(Behind {
                ty: behind,
                step: Held::new(TreeStep::Bitfield(at, field.share()?)),
            })
        }
    }
}

/// What lies behind `.[f, g]`.
fn behind_bitfields(body: &Body, at: Span, fields: &[Ident], ty: &Ty) -> Result<Behind, Refused>
    ensures { (G : scopes.Scope) → Met behind_of result (rules.behind_suffix (rules.by_bitfields at fields.now) ty.now G) }
{
    let fields = bitfields_named(body.alloc, at, fields, ty)?;
    let behind = bitfields_type(body.alloc, fields.as_slice())?;
    Ok(Behind {
        ty: Held::new(behind),
        step: Held::new(TreeStep::Bitfields(at, fields)),
    })
}

/// Whether slices can be taken of a value of this type, and all operands of theirs are integers.
fn has_slices(ty: &Ty, operands: &Items<Tree>) -> bool
    ensures { result ≡ (is_bits ty.now && all_integers (all_operands operands.now)) }
{
    is_bits(ty) && all_integers(operands.as_slice())
}

/// What lies behind `[..]` of bits, whose expressions were typed and are integers.
fn behind_bits(
    names: &Scope,
    body: &Body,
    at: Span,
    slices: &[Slice],
    operands: Items<Tree>,
) -> Result<Behind, Refused>
    ensures { (t : Tests) → Met behind_of result (bits_behind at (rules.found_slices t slices.now) (all_operands operands) (body_of names.now body.now).scope) }
{
    let width = sliced_width(body.alloc, context(names, body), at, slices)?;
    let behind = Held::new(bits_of(body.alloc, width)?);
    let shapes = slice_shapes(body.alloc, slices)?;
    Ok(Behind {
        ty: behind,
        step: Held::new(TreeStep::Slices(at, shapes, operands)),
    })
}

/// What lies behind `[..]`, whose expressions were typed.
fn behind_slices(
    names: &Scope,
    body: &Body,
    at: Span,
    slices: &[Slice],
    operands: Items<Tree>,
    ty: &Ty,
) -> Result<Behind, Refused>
    ensures { (t : Tests) → Suits t → Met behind_of result (rules.behind_suffix (rules.by_slices at (rules.found_slices t slices.now) (all_operands operands)) ty.now (body_of names.now body.now).scope) }
{
    if !has_slices(ty, &operands) {
        return fault(StaticCode::T08, at);
    }
    behind_bits(names, body, at, slices, operands)
}

/// What lies behind `[[e]]`, whose expression was typed.
fn behind_element(at: Span, index: Boxed<Tree>, ty: &Ty) -> Result<Behind, Refused>
    ensures { (G : scopes.Scope) → Met behind_of result (rules.behind_suffix (rules.by_element at (typed_of index)) ty.now G) }
{
    let element = indexed(at, ty, index.get().ty())?;
    Ok(Behind {
        ty: Held::new(element),
        step: Held::new(TreeStep::Element(at, index.into_inner())),
    })
}

/// What lies behind a suffix whose expressions were typed: its faults stand at the target up to it, or at the name of a field.
fn behind_suffix(
    names: &Scope,
    body: &Body,
    suffix: TypedSuffix,
    ty: &Ty,
) -> Result<Behind, Refused>
    ensures { (t : Tests) → Suits t → Met behind_of result (rules.behind_suffix (suffix_of t suffix.entry) ty.now (body_of names.now body.now).scope) }
{
    match suffix {
        TypedSuffix::Field(at, name) => behind_field(body, at, name, ty),
        TypedSuffix::Bitfields(at, fields) => behind_bitfields(body, at, fields, ty),
        TypedSuffix::Slices(at, slices, operands) => {
            behind_slices(names, body, at, slices, operands, ty)
        }
        TypedSuffix::Element(at, index) => behind_element(at, index, ty),
    }
}

/// What lies behind all suffixes: its type, and the steps to it.
#[derive(Drop)]
pub(crate) struct Reached {
    pub(crate) ty: Held<Ty>,
    pub(crate) steps: Items<TreeStep>,
}

/// What lies behind suffixes, one after the other, of a value of this type.
pub(crate) fn reach(
    names: &Scope,
    body: &Body,
    suffixes: Vec<TypedSuffix>,
    ty: Ty,
) -> Result<Reached, Refused>
    ensures { (t : Tests) → Suits t → Met reached_of result (after (walks.reach_step (body_of names.now body.now).scope) (map (suffix_of t) suffixes.entry.items) (rules.reached ty [])) }
{
    let mut rest = suffixes;
    rest.reverse();
    let mut steps = Items::new(body.alloc);
    let mut reached = Held::new(ty);
    while let Some(suffix) = rest.pop() {
        let behind = behind_suffix(names, body, suffix, reached.get())?;
        steps.push(behind.step.into_inner())?;
        reached = behind.ty;
    }
    Ok(Reached { ty: reached, steps })
}
