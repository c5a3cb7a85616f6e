//! Whether values match patterns.
ghost use Rattle.std.specs.Prelude.{◌≡◌, ◌<◌, ◌&&◌, List, map, length, OnSome};
ghost use Rattle.asl_bits.specs.declared.TheConstants.{WIDTH_LIMIT};
ghost use Rattle.asl_rules.specs.runs.ByNames.{matched_in as matched_in_one};
ghost use Rattle.asl_rules.specs.types.Closed.{not_above};
ghost use Rattle.asl_rules.specs.values.Matching as rules;
ghost use Rattle.asl_rules.specs.runs.Plans.{Good};
ghost use Rattle.asl_rules.specs.values.Structures.{values_in};
ghost use Rattle.asl_rules.specs.types.Shapes.{in_parts};
ghost use Rattle.asl_rules.specs.values.Values.{int};
ghost use Rattle.asl_value.specs.declared.value.Value.{Value};
ghost use Rattle.asl_value.specs.private.Answers.{Is};
ghost use Rattle.asl_value.specs.View.{value_of, all_values, digits_of};
ghost use Rattle.asl_shape.specs.private.Matched.{matched_at, values_from, integer_in_front, are_equal};
ghost use Rattle.asl_shape.specs.View.{pattern_of, all_patterns};

use crate::arguments::integer_in;
use crate::shapes::PatternShape;
use asl_shared::Held;
use asl_syn::token::Span;
use asl_syn::tree::BinaryOperator;
use asl_value::{Failure, MaskDigits, Value, binary, truth};
use std::alloc::Global;

/// Whether a value matches, and the place of the first value that is left.
#[derive(Clone, Copy, Drop)]
pub(crate) struct Matched {
    holds: bool,
    next: usize,
}

/// Whether a value matches one of some patterns, with the values of the expressions in them, all of which were evaluated, in
/// order.
pub fn is_matched(
    alloc: Global,
    patterns: &[PatternShape],
    values: &[Value],
    x: &Value,
) -> Result<bool, Failure>
    ensures { Is (λ b. b) result
        (rules.is_matched WIDTH_LIMIT (all_patterns patterns.now) (map value_of values.now) (value_of x.now)) }
{
    let m = any_matches(alloc, patterns, x, values, 0)?;
    Ok(m.holds)
}

/// Whether a value matches a pattern, as a value, with the values of the expressions in it, in order.
#[tactic(auto, using(crate::proofs::Patterns::one_pattern))]
pub fn matched_in(
    alloc: Global,
    pattern: &PatternShape,
    values: &[Value],
    x: &Value,
) -> Result<Value, Failure>
    ensures { Is value_of result
        (matched_in_one WIDTH_LIMIT (pattern_of pattern.now) (map value_of values.now) (value_of x.now)) }
{
    let m = matches(alloc, pattern, x, values, 0)?;
    Ok(Value::Bool(m.holds))
}

/// Whether a value matches a pattern, with the values from a place on.
#[cycle(matches)]
fn matches(
    alloc: Global,
    pattern: &PatternShape,
    x: &Value,
    values: &[Value],
    at: usize,
) -> Result<Matched, Failure>
    ensures { Is (matched_at values.now) result
        (rules.matches WIDTH_LIMIT (pattern_of pattern.now) (value_of x.now) (values_from values.now at)) }
{
    match pattern {
        PatternShape::Anything => Ok(Matched {
            holds: true,
            next: at,
        }),
        PatternShape::OneOf(negated, patterns) => {
            let m = any_matches(alloc, patterns.as_slice(), x, values, at)?;
            Ok(negated_or(*negated, m))
        }
        PatternShape::Masked(span, mask) => masked(*span, mask, x, values, at),
        PatternShape::AtMost(span) => at_most(*span, x, values, at),
        PatternShape::AtLeast(span) => at_least(*span, x, values, at),
        PatternShape::InParts(span, patterns) => {
            parts_match(alloc, *span, patterns.as_slice(), x, values, at)
        }
        PatternShape::EqualTo(span) => equal_to(alloc, *span, x, values, at),
        PatternShape::Between(span) => between(*span, x, values, at),
    }
}

/// `!{..}` holds where `{..}` doesn't.
fn negated_or(negated: bool, m: Matched) -> Matched
    ensures { (xs : List Value) → rules.negated_or negated (matched_at xs m) ≡ Good (matched_at xs result) }
{
    if negated {
        Matched {
            holds: !m.holds,
            next: m.next,
        }
    } else {
        m
    }
}

/// Whether one of the patterns matches at least. Each takes its values.
#[cycle(matches)]
#[tactic(auto, using(crate::proofs::Patterns::any_begins, crate::proofs::Patterns::any_more, crate::proofs::Patterns::any_ends))]
fn any_matches(
    alloc: Global,
    patterns: &[PatternShape],
    x: &Value,
    values: &[Value],
    at: usize,
) -> Result<Matched, Failure>
    ensures { Is (matched_at values.now) result
        (rules.any_match WIDTH_LIMIT (all_patterns patterns.now) (value_of x.now) (values_from values.now at)) }
{
    let mut so_far = Matched {
        holds: false,
        next: at,
    };
    for pattern in patterns {
        let m = matches(alloc, pattern, x, values, so_far.next)?;
        so_far = Matched {
            holds: so_far.holds || m.holds,
            next: m.next,
        };
    }
    Ok(so_far)
}

/// Whether each part of a tuple matches its pattern.
#[cycle(matches)]
fn parts_match(
    alloc: Global,
    span: Span,
    patterns: &[PatternShape],
    x: &Value,
    values: &[Value],
    at: usize,
) -> Result<Matched, Failure>
    ensures { Is (matched_at values.now) result
        (rules.matches WIDTH_LIMIT (in_parts span (all_patterns patterns.now)) (value_of x.now) (values_from values.now at)) }
{
    match x {
        Value::Tuple(parts) => {
            all_match(alloc, span, patterns, parts.get().as_slice(), values, at)
        }
        _ => Err(Failure::WrongKind(span)),
    }
}

/// Whether each part matches its pattern, where there are as many.
#[cycle(matches)]
#[tactic(auto, using(crate::proofs::Patterns::all_begin, crate::proofs::Patterns::all_more, crate::proofs::Patterns::all_end, crate::proofs::Patterns::fewer_parts, crate::proofs::Patterns::more_parts))]
fn all_match(
    alloc: Global,
    span: Span,
    patterns: &[PatternShape],
    parts: &[Value],
    values: &[Value],
    at: usize,
) -> Result<Matched, Failure>
    ensures { Is (matched_at values.now) result
        (rules.all_match WIDTH_LIMIT span (all_patterns patterns.now) (values_in (all_values parts.now)) (values_from values.now at)) }
{
    let mut so_far = Matched {
        holds: true,
        next: at,
    };
    let mut rest = parts;
    for pattern in patterns {
        match rest.split_first() {
            None => return Err(Failure::WrongKind(span)),
            Some((part, more)) => {
                let m = matches(alloc, pattern, part, values, so_far.next)?;
                so_far = Matched {
                    holds: so_far.holds && m.holds,
                    next: m.next,
                };
                rest = more;
            }
        }
    }
    if !rest.is_empty() {
        return Err(Failure::WrongKind(span));
    }
    Ok(so_far)
}

/// Bits of the width of the mask, with its digits.
#[tactic(auto, using(crate::proofs::Patterns::mask_some, crate::proofs::Patterns::mask_none))]
fn masked(
    span: Span,
    mask: &MaskDigits,
    x: &Value,
    values: &[Value],
    at: usize,
) -> Result<Matched, Failure>
    ensures { Is (matched_at values.now) result
        (rules.mask_match span (digits_of mask.now) (value_of x.now) (values_from values.now at)) }
{
    match x {
        Value::Bits(bits, _) => match mask.matches(bits) {
            Some(holds) => Ok(Matched { holds, next: at }),
            None => Err(Failure::WrongKind(span)),
        },
        _ => Err(Failure::WrongKind(span)),
    }
}

/// The integer in a place.
#[tactic(auto, using(crate::proofs::Patterns::integer_there, crate::proofs::Patterns::integer_none))]
pub(crate) fn integer_at(values: &[Value], at: usize) -> Option<i128>
    ensures value { result ≡ integer_in_front (values_from values.now at) }
    ensures within { OnSome result (at < length values.now) }
{
    if at >= values.len() {
        return None;
    }
    integer_in(&values[at])
}

/// Whether an integer is at most another.
#[tactic(auto, using(crate::proofs::Patterns::not_above_is))]
pub(crate) fn is_at_most(a: i128, b: i128) -> bool
    ensures { result ≡ not_above a b }
{
    a <= b
}

/// `<=`
fn at_most(span: Span, x: &Value, values: &[Value], at: usize) -> Result<Matched, Failure>
    ensures { Is (matched_at values.now) result
        (rules.at_most_match span (value_of x.now) (values_from values.now at)) }
{
    match x {
        Value::Int(a) => below(span, *a, values, at),
        _ => Err(Failure::WrongKind(span)),
    }
}

/// Whether an integer is at most another.
#[tactic(auto, using(crate::proofs::Patterns::at_most_is, crate::proofs::Patterns::at_most_none))]
fn below(span: Span, a: i128, values: &[Value], at: usize) -> Result<Matched, Failure>
    ensures { Is (matched_at values.now) result
        (rules.at_most_match span (int a) (values_from values.now at)) }
{
    match integer_at(values, at) {
        Some(b) => Ok(Matched {
            holds: is_at_most(a, b),
            next: at + 1,
        }),
        None => Err(Failure::WrongKind(span)),
    }
}

/// `>=`
fn at_least(span: Span, x: &Value, values: &[Value], at: usize) -> Result<Matched, Failure>
    ensures { Is (matched_at values.now) result
        (rules.at_least_match span (value_of x.now) (values_from values.now at)) }
{
    match x {
        Value::Int(a) => above(span, *a, values, at),
        _ => Err(Failure::WrongKind(span)),
    }
}

/// Whether an integer is at least another.
#[tactic(auto, using(crate::proofs::Patterns::at_least_is, crate::proofs::Patterns::at_least_none))]
fn above(span: Span, a: i128, values: &[Value], at: usize) -> Result<Matched, Failure>
    ensures { Is (matched_at values.now) result
        (rules.at_least_match span (int a) (values_from values.now at)) }
{
    match integer_at(values, at) {
        Some(b) => Ok(Matched {
            holds: is_at_most(b, a),
            next: at + 1,
        }),
        None => Err(Failure::WrongKind(span)),
    }
}

/// `e..e`
fn between(span: Span, x: &Value, values: &[Value], at: usize) -> Result<Matched, Failure>
    ensures { Is (matched_at values.now) result
        (rules.range_match span (value_of x.now) (values_from values.now at)) }
{
    match x {
        Value::Int(a) => within(span, *a, values, at),
        _ => Err(Failure::WrongKind(span)),
    }
}

/// Whether an integer lies between two others.
#[tactic(auto, using(crate::proofs::Patterns::between_is, crate::proofs::Patterns::no_low, crate::proofs::Patterns::no_high))]
fn within(span: Span, a: i128, values: &[Value], at: usize) -> Result<Matched, Failure>
    ensures { Is (matched_at values.now) result
        (rules.range_match span (int a) (values_from values.now at)) }
{
    match integer_at(values, at) {
        Some(low) => match integer_at(values, at + 1) {
            Some(high) => Ok(Matched {
                holds: is_between(low, a, high),
                next: at + 2,
            }),
            None => Err(Failure::WrongKind(span)),
        },
        None => Err(Failure::WrongKind(span)),
    }
}

/// Whether an integer is between two others.
fn is_between(low: i128, a: i128, high: i128) -> bool
    ensures { result ≡ (not_above low a && not_above a high) }
{
    is_at_most(low, a) && is_at_most(a, high)
}

/// As `==`.
#[tactic(auto, using(crate::proofs::Patterns::equal_is, crate::proofs::Patterns::equal_none))]
fn equal_to(
    alloc: Global,
    span: Span,
    x: &Value,
    values: &[Value],
    at: usize,
) -> Result<Matched, Failure>
    ensures { Is (matched_at values.now) result
        (rules.value_match WIDTH_LIMIT span (value_of x.now) (values_from values.now at)) }
{
    if at >= values.len() {
        return Err(Failure::WrongKind(span));
    }
    let holds = are_equal(alloc, span, x, &values[at])?;
    Ok(Matched {
        holds,
        next: at + 1,
    })
}

/// Whether two values are the same.
fn are_equal(alloc: Global, span: Span, x: &Value, y: &Value) -> Result<bool, Failure>
    ensures { Is (λ b. b) result
        (are_equal WIDTH_LIMIT span (value_of x.now) (value_of y.now)) }
{
    let same = Held::new(binary(alloc, span, BinaryOperator::Equal, x, y)?);
    truth(span, same.get())
}
