//! The forms of patterns against types.

ghost use Rattle.std.specs.Prelude.{◌≡◌, Ok, length, suc};
ghost use denote.Param.Weighed.{most};
ghost use Rattle.asl_rules.specs.expressions.Exprs as exprs;
ghost use Rattle.asl_rules.specs.expressions.Exprs.{found};
ghost use Rattle.asl_rules.specs.expressions.Patterns as rules;
ghost use Rattle.asl_rules.specs.expressions.Patterns.{pure_typed};
ghost use Rattle.asl_rules.specs.types.Shapes as shapes;
ghost use Rattle.asl_rules.specs.Tests.{Tests};
ghost use Rattle.asl_types.specs.private.Answers.{Met};
ghost use Rattle.asl_subprograms.specs.private.ContextView.{scope_of};
ghost use Rattle.asl_types.specs.Suits.{Suits};
ghost use Rattle.asl_types.specs.View.{parts_of};
ghost use Rattle.asl_expr.specs.private.Below.{Types, Matching};
ghost use Rattle.asl_expr.specs.PatternViews.{matched_of, matches_view, no_matches, with_matches, found_patterns};
ghost use Rattle.asl_widths.specs.private.Steps.{and_then};
ghost use Rattle.asl_syn.specs.declared.tree.Expr.{size-Expr};
ghost use Rattle.asl_syn.specs.declared.tree.Pattern.{size-Pattern};

use crate::below::{Below, match_below, type_pure};
use crate::patterns::{
    Matched, Matches, anything, least_matched, mask_matched, most_matched, parts_of_tuple,
    range_matched, set_matched, tuple_matched, value_matched,
};
use asl_subprograms::Context;
use asl_syn::code::Refused;
use asl_syn::token::Span;
use asl_syn::tree::{Expr, Pattern};
use asl_tree::tree::Tree;
use asl_types::Ty;
use sqlite_items::Boxed;
use std::alloc::Global;

/// Patterns in order, each against this type, or the first fault.
#[tactic(auto, using(crate::proofs::Falling::weaker_matching, crate::proofs::PatternLemmas::matches_next, crate::proofs::PatternLemmas::matches_stop, crate::proofs::PatternLemmas::matches_last, crate::proofs::PatternLemmas::matches_first))]
fn match_all<E, M: Fn(Global, Context, &Pattern, &Ty) -> Result<Matched, Refused>>(
    here: &Below<E, M>,
    patterns: &[Pattern],
    ty: &Ty,
) -> Result<Matches, Refused>
    requires matching { Matching (suc (most size-Pattern patterns.now)) (M.pre here.now.matching) (M.post here.now.matching) }
    ensures { (t : Tests) → Suits t → Met matches_view result (and_then (rules.all_match (found_patterns t patterns.now) ty.now (scope_of here.now.context)) (λ ms. Ok (with_matches no_matches ms))) }
{
    let mut made = Matches::new(here.alloc);
    for p in patterns {
        let next = match_below(here, p, ty)?;
        made.push(next)?;
    }
    Ok(made)
}

/// Patterns in order, each against the part of a tuple in its place, or the first fault.
#[tactic(auto, using(crate::proofs::Falling::weaker_matching, crate::proofs::PatternLemmas::parts_next, crate::proofs::PatternLemmas::parts_stop, crate::proofs::PatternLemmas::parts_last, crate::proofs::PatternLemmas::matches_first))]
fn match_parts<E, M: Fn(Global, Context, &Pattern, &Ty) -> Result<Matched, Refused>>(
    here: &Below<E, M>,
    patterns: &[Pattern],
    parts: &[Ty],
) -> Result<Matches, Refused>
    requires many { length parts.now ≡ length patterns.now }
    requires matching { Matching (suc (most size-Pattern patterns.now)) (M.pre here.now.matching) (M.post here.now.matching) }
    ensures { (t : Tests) → Suits t → Met matches_view result (and_then (rules.parts_match (found_patterns t patterns.now) (parts_of parts.now) (scope_of here.now.context)) (λ ms. Ok (with_matches no_matches ms))) }
{
    let mut made = Matches::new(here.alloc);
    for (i, p) in patterns.iter().enumerate() {
        let next = match_below(here, p, &parts[i])?;
        made.push(next)?;
    }
    Ok(made)
}

/// A set of patterns.
#[tactic(auto, using(crate::proofs::PatternArms::set_stops))]
fn set_pattern<E, M: Fn(Global, Context, &Pattern, &Ty) -> Result<Matched, Refused>>(
    here: &Below<E, M>,
    negated: bool,
    patterns: &[Pattern],
    ty: &Ty,
) -> Result<Matched, Refused>
    requires matching { Matching (suc (most size-Pattern patterns.now)) (M.pre here.now.matching) (M.post here.now.matching) }
    ensures { (t : Tests) → Suits t → Met matched_of result (and_then (rules.all_match (found_patterns t patterns.now) ty.now (scope_of here.now.context)) (λ ms. Ok (rules.set_matched negated ms))) }
{
    let made = match_all(here, patterns, ty)?;
    Ok(set_matched(negated, made))
}

/// A tuple of patterns.
fn tuple_pattern<E, M: Fn(Global, Context, &Pattern, &Ty) -> Result<Matched, Refused>>(
    here: &Below<E, M>,
    span: Span,
    patterns: &[Pattern],
    ty: &Ty,
) -> Result<Matched, Refused>
    requires matching { Matching (suc (most size-Pattern patterns.now)) (M.pre here.now.matching) (M.post here.now.matching) }
    ensures { (t : Tests) → Suits t → Met matched_of result (rules.tuple_pattern_rule span (found_patterns t patterns.now) ty.now (scope_of here.now.context)) }
{
    let parts = parts_of_tuple(span, patterns, ty)?;
    let made = match_parts(here, patterns, parts)?;
    Ok(tuple_matched(span, made))
}

/// An end, at or below which an integer lies.
fn most_pattern<E: Fn(Global, Context, &Expr) -> Result<Boxed<Tree>, Refused>, M>(
    here: &Below<E, M>,
    span: Span,
    e: &Expr,
    ty: &Ty,
) -> Result<Matched, Refused>
    requires types { Types (suc (size-Expr e.now)) (E.pre here.now.typing) (E.post here.now.typing) }
    ensures { (t : Tests) → Suits t → Met matched_of result (and_then (pure_typed (found t e.now) (scope_of here.now.context)) (λ S. rules.end_matched span (shapes.at_most span) ty.now S)) }
{
    let found = type_pure(here, e)?;
    most_matched(here.alloc, span, ty, found)
}

/// An end, at or above which an integer lies.
fn least_pattern<E: Fn(Global, Context, &Expr) -> Result<Boxed<Tree>, Refused>, M>(
    here: &Below<E, M>,
    span: Span,
    e: &Expr,
    ty: &Ty,
) -> Result<Matched, Refused>
    requires types { Types (suc (size-Expr e.now)) (E.pre here.now.typing) (E.post here.now.typing) }
    ensures { (t : Tests) → Suits t → Met matched_of result (and_then (pure_typed (found t e.now) (scope_of here.now.context)) (λ S. rules.end_matched span (shapes.at_least span) ty.now S)) }
{
    let found = type_pure(here, e)?;
    least_matched(here.alloc, span, ty, found)
}

/// A value.
fn value_pattern<E: Fn(Global, Context, &Expr) -> Result<Boxed<Tree>, Refused>, M>(
    here: &Below<E, M>,
    span: Span,
    e: &Expr,
    ty: &Ty,
) -> Result<Matched, Refused>
    requires types { Types (suc (size-Expr e.now)) (E.pre here.now.typing) (E.post here.now.typing) }
    ensures { (t : Tests) → Suits t → Met matched_of result (and_then (pure_typed (found t e.now) (scope_of here.now.context)) (λ S. rules.value_matched t span ty.now S)) }
{
    let found = type_pure(here, e)?;
    value_matched(here.alloc, span, ty, found)
}

/// Ends, between which an integer lies.
fn range_pattern<E: Fn(Global, Context, &Expr) -> Result<Boxed<Tree>, Refused>, M>(
    here: &Below<E, M>,
    span: Span,
    low: &Expr,
    high: &Expr,
    ty: &Ty,
) -> Result<Matched, Refused>
    requires low { Types (suc (size-Expr low.now)) (E.pre here.now.typing) (E.post here.now.typing) }
    requires high { Types (suc (size-Expr high.now)) (E.pre here.now.typing) (E.post here.now.typing) }
    ensures { (t : Tests) → Suits t → Met matched_of result (and_then (pure_typed (found t low.now) (scope_of here.now.context)) (λ S. and_then (pure_typed (found t high.now) (scope_of here.now.context)) (λ U. rules.range_matched span ty.now S U))) }
{
    let low = type_pure(here, low)?;
    let high = type_pure(here, high)?;
    range_matched(here.alloc, span, ty, low, high)
}

/// A pattern against a type. Its expressions are pure.
#[tactic(auto, using(crate::proofs::PatternArms::set_met, crate::proofs::PatternArms::tuple_met, crate::proofs::Falling::weaker, crate::proofs::Falling::weaker_matching))]
pub(crate) fn match_node<
    E: Fn(Global, Context, &Expr) -> Result<Boxed<Tree>, Refused>,
    M: Fn(Global, Context, &Pattern, &Ty) -> Result<Matched, Refused>,
>(here: &Below<E, M>, pattern: &Pattern, ty: &Ty) -> Result<Matched, Refused>
    requires types { Types (size-Pattern pattern.now) (E.pre here.now.typing) (E.post here.now.typing) }
    requires matching { Matching (size-Pattern pattern.now) (M.pre here.now.matching) (M.post here.now.matching) }
    ensures { (t : Tests) → Suits t → Met matched_of result (exprs.found_pattern t pattern.now ty.now (scope_of here.now.context)) }
{
    match pattern {
        Pattern::AnyPattern(_) => Ok(anything(here.alloc)),
        Pattern::SetPattern(_, negated, patterns) => {
            set_pattern(here, *negated, patterns.as_slice(), ty)
        }
        Pattern::MaskPattern(span, text) => mask_matched(here.alloc, *span, text.as_slice(), ty),
        Pattern::AtMost(span, e) => most_pattern(here, *span, e, ty),
        Pattern::AtLeast(span, e) => least_pattern(here, *span, e, ty),
        Pattern::TuplePattern(span, patterns) => {
            tuple_pattern(here, *span, patterns.as_slice(), ty)
        }
        Pattern::ValuePattern(span, e) => value_pattern(here, *span, e, ty),
        Pattern::RangePattern(span, low, high) => range_pattern(here, *span, low, high, ty),
    }
}
