//! Slices of bits and of integers.

ghost use Rattle.std.specs.Prelude.{◌≡◌, ◌||◌, ◌&&◌, IfOk};
ghost use Rattle.asl_widths.specs.private.Steps.{and_then, after};
ghost use Rattle.asl_rules.specs.expressions.Slicing as rules;
ghost use Rattle.asl_rules.specs.expressions.Slicing.{sliceable, slices_behind, shapes_of};
ghost use Rattle.asl_rules.specs.statements.Targets.{found_slices};
ghost use Rattle.asl_rules.specs.Tests.{Tests};
ghost use Rattle.asl_rules.specs.types.Types as types;
ghost use Rattle.asl_rules.specs.expressions.Exprs.{found, found_slice};
ghost use Rattle.asl_value.specs.View.{slice_of, all_slices};
ghost use Rattle.asl_types.specs.private.Answers.{Met};
ghost use Rattle.asl_subprograms.specs.private.ContextView.{scope_of};
ghost use Rattle.asl_types.specs.Suits.{Suits};
ghost use Rattle.asl_tree.specs.View.{note_view, typed_of, all_operands};
ghost use Rattle.asl_expr.specs.private.SliceViews.{slices_note, Sums, added_width};
ghost use Rattle.asl_rules.specs.types.Widths as limits;
ghost use Rattle.asl_types.specs.private.Totals.{IsTotal};

use crate::below::Below;
use crate::exprs::type_expr;
use crate::operand_lists::slices_below;
use crate::patterns::type_pattern;
use asl_poly::Poly;
use asl_rules::effect::Effect;
use asl_subprograms::Context;
use asl_syn::code::{Refused, StaticCode};
use asl_syn::token::Span;
use asl_syn::tree::{Expr, Slice};
use asl_tree::nodes;
use asl_tree::tree::{Note, Tree};
use asl_types::Total;
use asl_types::answer::fault;
use asl_types::integers::bits_of;
use asl_types::kinds::{is_bits, is_integer};
use asl_typing::ends::{all_together, greatest, keep_class, stand_together};
use asl_value::SliceShape;
use asl_widths::type_width;
use sqlite_items::{Boxed, Items};
use std::alloc::{AllocError, Global};

/// A slice without its expressions.
fn shape(slice: &Slice) -> SliceShape
    ensures { (t : Tests) → slice_of result ≡ (found_slice t slice.now).shape }
{
    match slice {
        Slice::BitAt(_) => SliceShape::AtBit,
        Slice::HighLow(_, _) => SliceShape::HighLow,
        Slice::LowWidth(_, _) => SliceShape::LowWidth,
        Slice::FactorWidth(_, _) => SliceShape::FactorWidth,
    }
}

/// Slices without their expressions, in order.
#[tactic(auto, using(crate::proofs::SliceLemmas::shapes_next, crate::proofs::SliceLemmas::shapes_last))]
pub fn slice_shapes(alloc: Global, slices: &[Slice]) -> Result<Items<SliceShape>, AllocError>
    ensures { (t : Tests) → IfOk result (λ ss. all_slices ss ≡ shapes_of (found_slices t slices.now)) }
{
    let mut shapes = Items::new(alloc);
    for s in slices {
        shapes.push(shape(s))?;
    }
    Ok(shapes)
}

/// The typed trees of the expressions of slices in order, or the first fault.
pub fn slice_operands(
    alloc: Global,
    context: Context,
    slices: &[Slice],
) -> Result<Items<Tree>, Refused>
    ensures { (t : Tests) → Suits t → Met all_operands result (rules.all_operands (found_slices t slices.now) (scope_of context.entry)) }
{
    slices_below(
        &Below {
            alloc,
            context,
            typing: type_expr,
            matching: type_pattern,
        },
        slices,
    )
}

/// A sum with the width of one bit.
fn add_bit(alloc: Global, total: Total) -> Result<Total, AllocError>
    ensures { (x : limits.Total) → IsTotal total x → IfOk result (λ s. IsTotal s (limits.plus_number x 1)) }
{
    total.plus_number(alloc, 1)
}

/// A sum with the width from a lowest to a highest place.
fn add_between(alloc: Global, total: Total, high: &Poly, low: &Poly) -> Result<Total, AllocError>
    ensures { (x : limits.Total) → IsTotal total x → IfOk result (λ s. IsTotal s (limits.plus_number (limits.minus (limits.plus x high.now) low.now) 1)) }
{
    let total = total.plus(alloc, high)?;
    let total = total.minus(alloc, low)?;
    total.plus_number(alloc, 1)
}

/// A sum with the width of a slice from a lowest to a highest place, or the first fault of its ends.
fn add_range(
    alloc: Global,
    context: Context,
    total: Total,
    high: &Expr,
    low: &Expr,
) -> Result<Total, Refused>
    ensures { (t : Tests) (x : limits.Total) → IsTotal total x → Sums result ((rules.high_low_found (found t high.now) (found t low.now)).adds x (scope_of context.entry)) }
{
    let high = type_width(alloc, context, high)?;
    let low = type_width(alloc, context, low)?;
    Ok(add_between(alloc, total, &high.poly, &low.poly)?)
}

/// A sum with a width, or its fault.
fn add_width(alloc: Global, context: Context, total: Total, e: &Expr) -> Result<Total, Refused>
    ensures { (t : Tests) (x : limits.Total) → IsTotal total x → Sums result (added_width (found t e.now) x (scope_of context.entry)) }
{
    let width = type_width(alloc, context, e)?;
    Ok(total.plus(alloc, &width.poly)?)
}

/// A sum with the width of a slice, or its first fault.
fn add_slice(alloc: Global, context: Context, total: Total, slice: &Slice) -> Result<Total, Refused>
    ensures { (t : Tests) (x : limits.Total) → IsTotal total x → Sums result ((found_slice t slice.now).adds x (scope_of context.entry)) }
{
    match slice {
        Slice::BitAt(_) => Ok(add_bit(alloc, total)?),
        Slice::HighLow(high, low) => add_range(alloc, context, total, high, low),
        Slice::LowWidth(_, width) => add_width(alloc, context, total, width),
        Slice::FactorWidth(_, width) => add_width(alloc, context, total, width),
    }
}

/// The sum of the widths of slices, within the limits, or their first fault.
pub fn sliced_width(
    alloc: Global,
    context: Context,
    span: Span,
    slices: &[Slice],
) -> Result<Poly, Refused>
    ensures { (t : Tests) → Met (λ p. p) result (rules.sliced_width span (found_slices t slices.now) (scope_of context.entry)) }
{
    let mut total = Total::new(alloc)?;
    for s in slices {
        total = add_slice(alloc, context, total, s)?;
    }
    total.into_width(span)
}

/// Whether all of these were found to be integers.
#[tactic(auto, using(crate::proofs::SliceLemmas::integers_next, crate::proofs::SliceLemmas::integers_not, crate::proofs::SliceLemmas::integers_last))]
pub fn all_integers(operands: &[Tree]) -> bool
    ensures { result ≡ rules.all_integers (all_operands operands.now) }
{
    for o in operands {
        if !is_integer(o.ty()) {
            return false;
        }
    }
    true
}

/// The note of slices of what was typed, whose widths make this one: T13 where their operands may not stand together, then T12.
fn noted(
    alloc: Global,
    class: Effect,
    span: Span,
    sliced: &Tree,
    operands: &[Tree],
    width: Poly,
) -> Result<Note, Refused>
    ensures { Met note_view result (slices_note class span (typed_of sliced.now) (all_operands operands.now) width) }
{
    let effect = sliced.effect();
    stand_together(span, all_together(effect, operands))?;
    let effect = greatest(effect, operands);
    keep_class(class, span, effect)?;
    Ok(Note {
        span,
        ty: bits_of(alloc, width)?,
        effect,
    })
}

/// Whether what was typed is bits or an integer, and all of these are integers.
fn is_sliceable(sliced: &Tree, operands: &[Tree]) -> bool
    ensures { result ≡ ((types.is_bits (typed_of sliced.now).ty || types.is_integer (typed_of sliced.now).ty) && rules.all_integers (all_operands operands.now)) }
{
    (is_bits(sliced.ty()) || is_integer(sliced.ty())) && all_integers(operands)
}

/// Slices of what was typed, whose widths make this one: T13 where their operands may not stand together, then T12.
fn slices_sized(
    alloc: Global,
    class: Effect,
    span: Span,
    sliced: Boxed<Tree>,
    slices: &[Slice],
    operands: Items<Tree>,
    width: Poly,
) -> Result<Boxed<Tree>, Refused>
    ensures { (t : Tests) → Met typed_of result (slices_behind class span (typed_of sliced) (shapes_of (found_slices t slices.now)) (all_operands operands) width) }
{
    let shapes = slice_shapes(alloc, slices)?;
    let note = noted(alloc, class, span, sliced.get(), operands.as_slice(), width)?;
    Ok(nodes::slices(alloc, note, sliced, shapes, operands)?)
}

/// Slices of what was typed, which can be sliced at these operands.
fn slices_wide(
    alloc: Global,
    context: Context,
    span: Span,
    sliced: Boxed<Tree>,
    slices: &[Slice],
    operands: Items<Tree>,
) -> Result<Boxed<Tree>, Refused>
    ensures { (t : Tests) → Met typed_of result (and_then (rules.sliced_width span (found_slices t slices.now) (scope_of context.entry)) (λ w. slices_behind (scope_of context.entry).class span (typed_of sliced) (shapes_of (found_slices t slices.now)) (all_operands operands) w)) }
{
    let width = sliced_width(alloc, context, span, slices)?;
    slices_sized(alloc, context.class, span, sliced, slices, operands, width)
}

/// Slices of what was typed, whose expressions were typed: T08 where it is neither bits nor an integer or where one of them is
/// no integer, then the faults of the widths, then T13 and T12.
pub fn type_slices(
    alloc: Global,
    context: Context,
    span: Span,
    sliced: Boxed<Tree>,
    slices: &[Slice],
    operands: Items<Tree>,
) -> Result<Boxed<Tree>, Refused>
    ensures { (t : Tests) → Suits t → Met typed_of result (after (sliceable span (typed_of sliced).ty (all_operands operands)) (and_then (rules.sliced_width span (found_slices t slices.now) (scope_of context.entry)) (λ w. slices_behind (scope_of context.entry).class span (typed_of sliced) (shapes_of (found_slices t slices.now)) (all_operands operands) w))) }
{
    if !is_sliceable(sliced.get(), operands.as_slice()) {
        return fault(StaticCode::T08, span);
    }
    slices_wide(alloc, context, span, sliced, slices, operands)
}
