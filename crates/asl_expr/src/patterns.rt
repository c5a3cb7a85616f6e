//! Patterns against types.

ghost use Rattle.std.specs.Prelude.{◌≡◌, pos, [], OnOk, IfOk, length};
ghost use Rattle.asl_poly.specs.Poly.{constant_map};
ghost use Rattle.asl_rules.specs.expressions.Exprs as exprs;
ghost use Rattle.asl_rules.specs.expressions.Patterns as rules;
ghost use Rattle.asl_rules.specs.types.Shapes as shapes;
ghost use Rattle.asl_rules.specs.Tests.{Tests};
ghost use Rattle.asl_rules.specs.values.Vectors.{literal_digits};
ghost use Rattle.asl_types.specs.private.Answers.{Met};
ghost use Rattle.asl_subprograms.specs.private.ContextView.{scope_of};
ghost use Rattle.asl_types.specs.Suits.{Suits};
ghost use Rattle.asl_types.specs.View.{parts_of};
ghost use Rattle.asl_tree.specs.View.{typed_of};
ghost use Rattle.asl_expr.specs.PatternViews.{matched_of, matches_view, no_matches, with_match, found_patterns, set_from, tuple_from, parts_for};

use crate::below::Below;
use crate::exprs::type_expr;
use crate::pattern_nodes::match_node;
use asl_bits::WIDTH_LIMIT;
use asl_poly::{Poly, PolyRefused};
use asl_shape::PatternShape;
use asl_subprograms::Context;
use asl_syn::code::{Refused, StaticCode};
use asl_syn::token::Span;
use asl_syn::tree::Pattern;
use asl_tree::lists::{one_tree, two_trees};
use asl_tree::tree::Tree;
use asl_types::Ty;
use asl_types::answer::fault;
use asl_types::kinds::is_integer;
use asl_types::structure::tuple_parts;
use asl_types::tests::same_width;
use asl_typing::comparable::{bits_width, comparable};
use asl_value::MaskDigits;
use sqlite_items::{Boxed, Items};
use std::alloc::{AllocError, Global};

/// A pattern without its expressions, and their typed trees in order.
pub struct Matched {
    pub shape: PatternShape,
    pub trees: Items<Tree>,
}

// By hand, so that a drop of one is a call, as `Held` of asl_shared says.
impl Drop for Matched {
    fn drop(self) {
        let Matched {
            shape: _shape,
            trees: _trees,
        } = self;
    }
}

impl Matched {
    /// Its parts.
    pub fn into_parts(self) -> (PatternShape, Items<Tree>)
        ensures { result ≡ (self.shape, self.trees) }
    {
        let Matched { shape, trees } = self;
        (shape, trees)
    }
}

/// Several patterns without their expressions, and their typed trees in order.
pub struct Matches {
    pub shapes: Items<PatternShape>,
    pub trees: Items<Tree>,
}

// By hand, so that a drop of one is a call, as `Held` of asl_shared says.
impl Drop for Matches {
    fn drop(self) {
        let Matches {
            shapes: _shapes,
            trees: _trees,
        } = self;
    }
}

impl Matches {
    /// Its parts.
    pub(crate) fn into_parts(self) -> (Items<PatternShape>, Items<Tree>)
        ensures { result ≡ (self.shapes, self.trees) }
    {
        let Matches { shapes, trees } = self;
        (shapes, trees)
    }
}

impl Matches {
    /// No patterns.
    pub(crate) fn new(alloc: Global) -> Matches
        ensures { matches_view result ≡ no_matches }
    {
        Matches {
            shapes: Items::new(alloc),
            trees: Items::new(alloc),
        }
    }

    /// One more pattern.
    pub(crate) fn push(&mut self, matched: Matched) -> Result<(), AllocError>
        ensures { OnOk result (matches_view self.new ≡ with_match (matches_view self.old) (matched_of matched)) }
    {
        let (shape, trees) = matched.into_parts();
        self.shapes.push(shape)?;
        self.trees.append(trees)
    }
}

/// `-`
pub(crate) fn anything(alloc: Global) -> Matched
    ensures { matched_of result ≡ rules.matched shapes.anything [] }
{
    Matched {
        shape: PatternShape::Anything,
        trees: Items::new(alloc),
    }
}

/// A set of patterns that were matched.
pub(crate) fn set_matched(negated: bool, matches: Matches) -> Matched
    ensures { matched_of result ≡ set_from negated (matches_view matches) }
{
    let (shapes, trees) = matches.into_parts();
    Matched {
        shape: PatternShape::OneOf(negated, shapes),
        trees,
    }
}

/// A tuple of patterns that were matched.
pub(crate) fn tuple_matched(span: Span, matches: Matches) -> Matched
    ensures { matched_of result ≡ tuple_from span (matches_view matches) }
{
    let (shapes, trees) = matches.into_parts();
    Matched {
        shape: PatternShape::InParts(span, shapes),
        trees,
    }
}

/// An end that was typed, at or below which an integer lies: T23 where the type or it is no integer.
pub(crate) fn most_matched(
    alloc: Global,
    span: Span,
    ty: &Ty,
    end: Boxed<Tree>,
) -> Result<Matched, Refused>
    ensures { Met matched_of result (rules.end_matched span (shapes.at_most span) ty.now (typed_of end)) }
{
    if !(is_integer(ty) && is_integer(end.get().ty())) {
        return fault(StaticCode::T23, span);
    }
    Ok(Matched {
        shape: PatternShape::AtMost(span),
        trees: one_tree(alloc, end)?,
    })
}

/// An end that was typed, at or above which an integer lies: T23 where the type or it is no integer.
pub(crate) fn least_matched(
    alloc: Global,
    span: Span,
    ty: &Ty,
    end: Boxed<Tree>,
) -> Result<Matched, Refused>
    ensures { Met matched_of result (rules.end_matched span (shapes.at_least span) ty.now (typed_of end)) }
{
    if !(is_integer(ty) && is_integer(end.get().ty())) {
        return fault(StaticCode::T23, span);
    }
    Ok(Matched {
        shape: PatternShape::AtLeast(span),
        trees: one_tree(alloc, end)?,
    })
}

/// A value that was typed: T23 where it can't be compared with the type, and T06 where they are bits of other widths.
pub(crate) fn value_matched(
    alloc: Global,
    span: Span,
    ty: &Ty,
    value: Boxed<Tree>,
) -> Result<Matched, Refused>
    ensures { (t : Tests) → Suits t → Met matched_of result (rules.value_matched t span ty.now (typed_of value)) }
{
    comparable(StaticCode::T23, span, ty, value.get().ty())?;
    Ok(Matched {
        shape: PatternShape::EqualTo(span),
        trees: one_tree(alloc, value)?,
    })
}

/// Ends that were typed, between which an integer lies: T23 where the type or one of them is no integer.
pub(crate) fn range_matched(
    alloc: Global,
    span: Span,
    ty: &Ty,
    low: Boxed<Tree>,
    high: Boxed<Tree>,
) -> Result<Matched, Refused>
    ensures { Met matched_of result (rules.range_matched span ty.now (typed_of low) (typed_of high)) }
{
    if !(is_integer(ty) && is_integer(low.get().ty()) && is_integer(high.get().ty())) {
        return fault(StaticCode::T23, span);
    }
    Ok(Matched {
        shape: PatternShape::Between(span),
        trees: two_trees(alloc, low, high)?,
    })
}

/// A mask: T23 where the type is no bits, T06 where it has other digits than these have places, and T20 where it has more digits
/// than the widest bits have places.
pub(crate) fn mask_matched(
    alloc: Global,
    span: Span,
    text: &[u8],
    ty: &Ty,
) -> Result<Matched, Refused>
    ensures { (t : Tests) → Suits t → Met matched_of result (rules.mask_matched t span (literal_digits text.now) ty.now) }
{
    let digits = MaskDigits::of_literal(alloc, text)?;
    let Some(width) = bits_width(ty) else {
        return fault(StaticCode::T23, span);
    };
    if !has_width_of(alloc, width, digits.len())? {
        return fault(StaticCode::T06, span);
    }
    if digits.len() > WIDTH_LIMIT as usize {
        return fault(StaticCode::T20, span);
    }
    Ok(Matched {
        shape: PatternShape::Masked(span, digits),
        trees: Items::new(alloc),
    })
}

/// Whether a width is this number.
#[tactic(auto, using(crate::proofs::PatternLemmas::too_large))]
fn has_width_of(alloc: Global, width: &Poly, number: usize) -> Result<bool, AllocError>
    ensures { (t : Tests) → Suits t → IfOk result (λ b. b ≡ t.same width.now (constant_map (pos number))) }
{
    match Poly::constant(alloc, number as i128) {
        Ok(other) => Ok(same_width(width, &other)),
        Err(PolyRefused::TooLarge) => Ok(false),
        Err(PolyRefused::NoMemory) => Err(AllocError),
    }
}

/// The parts of a tuple where there are as many as of these patterns, else T23.
pub(crate) fn parts_of_tuple<'t>(
    span: Span,
    patterns: &[Pattern],
    ty: &'t Ty,
) -> Result<&'t [Ty], Refused>
    ensures rule { (t : Tests) → Met (λ ts. parts_of ts.now) result (parts_for span (found_patterns t patterns.now) ty.now) }
    ensures many { IfOk result (λ ts. length ts.now ≡ length patterns.now) }
{
    let Some(parts) = tuple_parts(ty) else {
        return fault(StaticCode::T23, span);
    };
    if parts.len() != patterns.len() {
        return fault(StaticCode::T23, span);
    }
    Ok(parts)
}

/// A pattern against a type, or its one fault. Its expressions are pure.
#[cycle(exprs)]
pub fn type_pattern(
    alloc: Global,
    context: Context,
    pattern: &Pattern,
    ty: &Ty,
) -> Result<Matched, Refused>
    ensures { (t : Tests) → Suits t → Met matched_of result (exprs.found_pattern t pattern.now ty.now (scope_of context.entry)) }
{
    match_node(
        &Below {
            alloc,
            context,
            typing: type_expr,
            matching: type_pattern,
        },
        pattern,
        ty,
    )
}
