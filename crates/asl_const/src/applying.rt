//! What operators, bitfields, elements, slices and patterns give of values that were evaluated.
ghost use Rattle.std.specs.Prelude.{◌≡◌, List, [], map, Err};
ghost use Rattle.asl_bits.specs.declared.TheConstants.{WIDTH_LIMIT};
ghost use Rattle.asl_syn.specs.declared.tree.BinaryOperator.TheVariants as logical;
ghost use Rattle.asl_rules.specs.runs.ByNames.{matched_in as matched_in_one};
ghost use Rattle.asl_rules.specs.declarations.Constants.{Known, settled};
ghost use Rattle.asl_rules.specs.runs.Forms as forms;
ghost use Rattle.asl_rules.specs.values.Operators as operators;
ghost use Rattle.asl_rules.specs.runs.Plans.{Pure, Good, Bad, Stuck, CallBarred};
ghost use Rattle.asl_rules.specs.runs.Pures.{◌>>=◌ as ◌then◌};
ghost use Rattle.asl_rules.specs.declarations.Scopes.{Entry};
ghost use Rattle.asl_rules.specs.types.Shaped.{itself, shapes_in};
ghost use Rattle.asl_rules.specs.values.Structures as structures;
ghost use Rattle.asl_rules.specs.values.Values.{Value as TheValue, tuple_with};
ghost use Rattle.asl_rules.specs.values.Vectors as vectors;
ghost use Rattle.asl_rules.specs.types.Views.{stripped};
ghost use Rattle.asl_value.specs.View.{value_of};
ghost use Rattle.asl_const.specs.private.Finds.{Finds, decision_of, decided_by, known_after, known_pattern, known_slice, with_all};

use crate::failure::{Mistake, Unknown};
use crate::shapes::{pattern_shape, slice_shapes};
use asl_shape::matched_in;
use asl_shared::Held;
use asl_syn::token::Span;
use asl_syn::tree::{BinaryOperator, Pattern, Slice, UnaryOperator};
use asl_value::{Value, binary, element_of, slices_of, strip, truth, tuple, unary};
use sqlite_items::Items;
use std::alloc::Global;

/// What a left operand says of an operation: its value, or that the right operand is asked.
#[derive(Drop)]
pub(crate) enum Decision {
    Already(bool),
    ByRight(Value),
}

/// A boolean.
pub(crate) fn truth_of(span: Span, x: Value) -> Result<bool, Unknown>
    ensures { Finds (λ b. b) result (operators.truth span (value_of x)) }
{
    let x = Held::new(x);
    Ok(truth(span, x.get())?)
}

/// An operation on one value.
pub(crate) fn of_one(
    alloc: Global,
    span: Span,
    operator: UnaryOperator,
    x: Value,
) -> Result<Value, Unknown>
    ensures { Finds value_of result (operators.unary_value span operator (value_of x)) }
{
    let x = Held::new(x);
    Ok(unary(alloc, span, operator, x.get())?)
}

/// The branch that was taken, whose bits lose their bitfields.
pub(crate) fn branch(alloc: Global, x: Result<Value, Unknown>) -> Result<Value, Unknown>
    ensures { (r : Pure TheValue) → Finds value_of x r → Finds value_of result (r then λ y. Good (stripped y)) }
{
    let x = Held::new(x?);
    Ok(strip(alloc, x.get())?)
}

/// How an operation goes on behind its left operand: `&&`, `||` and `-->` may be decided by it.
pub(crate) fn decide(span: Span, operator: BinaryOperator, x: Value) -> Result<Decision, Unknown>
    ensures { Finds decision_of result (decided_by span (value_of x) (operators.strictness operator)) }
{
    match operator {
        BinaryOperator::LogicalAnd => decide_and(span, x),
        BinaryOperator::LogicalOr => decide_or(span, x),
        BinaryOperator::Implies => decide_implies(span, x),
        _ => Ok(Decision::ByRight(x)),
    }
}

fn decide_and(span: Span, x: Value) -> Result<Decision, Unknown>
    ensures { Finds decision_of result (decided_by span (value_of x) (operators.strictness logical.LogicalAnd)) }
{
    let x = Held::new(x);
    if truth(span, x.get())? {
        Ok(Decision::ByRight(x.into_inner()))
    } else {
        Ok(Decision::Already(false))
    }
}

fn decide_or(span: Span, x: Value) -> Result<Decision, Unknown>
    ensures { Finds decision_of result (decided_by span (value_of x) (operators.strictness logical.LogicalOr)) }
{
    let x = Held::new(x);
    if truth(span, x.get())? {
        Ok(Decision::Already(true))
    } else {
        Ok(Decision::ByRight(x.into_inner()))
    }
}

fn decide_implies(span: Span, x: Value) -> Result<Decision, Unknown>
    ensures { Finds decision_of result (decided_by span (value_of x) (operators.strictness logical.Implies)) }
{
    let x = Held::new(x);
    if truth(span, x.get())? {
        Ok(Decision::ByRight(x.into_inner()))
    } else {
        Ok(Decision::Already(true))
    }
}

/// An operation on two values, of which the left one asked for the right one.
#[tactic(auto, using(crate::proofs::Deciding::asked_good, crate::proofs::Deciding::asked_bad))]
pub(crate) fn of_two(
    alloc: Global,
    span: Span,
    operator: BinaryOperator,
    x: Value,
    y: Result<Value, Unknown>,
) -> Result<Value, Unknown>
    ensures { (left : TheValue) (b : Known) (names : List Entry) → decided_by span left (operators.strictness operator) ≡ Good (Err (value_of x)) → Finds value_of y (b names) → Finds value_of result (settled span names (forms.behind_left WIDTH_LIMIT span operator b left (operators.strictness operator) names)) }
{
    let x = Held::new(x);
    let y = Held::new(y?);
    Ok(binary(alloc, span, operator, x.get(), y.get())?)
}

/// The tuple of these parts, which are the values of expressions in order.
#[tactic(auto, using(crate::proofs::InOrder::all_good, crate::proofs::InOrder::all_bad))]
pub(crate) fn tuple_of(
    alloc: Global,
    parts: Result<Items<Value>, Unknown>,
) -> Result<Value, Unknown>
    ensures { (span : Span) (es : List Known) (names : List Entry) → Finds (map value_of) parts (known_after [] es names) → Finds value_of result (with_all span es names (λ xs. Good (tuple_with (structures.values_of xs)))) }
{
    Ok(tuple(alloc, parts?)?)
}

/// The element of an array at an index.
#[tactic(auto, using(crate::proofs::Deciding::element_good, crate::proofs::Deciding::element_bad))]
pub(crate) fn element(span: Span, x: Value, y: Result<Value, Unknown>) -> Result<Value, Unknown>
    ensures { (e : Known) (names : List Entry) → Finds value_of y (e names) → Finds value_of result (settled span names (forms.behind e names (structures.element_of span (value_of x)))) }
{
    let x = Held::new(x);
    let y = Held::new(y?);
    Ok(element_of(span, x.get(), y.get())?)
}

/// The bits of slices of a value, whose expressions have these values in order.
#[tactic(auto, using(crate::proofs::InOrder::all_good, crate::proofs::InOrder::all_bad))]
pub(crate) fn sliced(
    alloc: Global,
    span: Span,
    slices: &[Slice],
    x: Value,
    values: Result<Items<Value>, Unknown>,
) -> Result<Value, Unknown>
    ensures { (es : List Known) (names : List Entry) → Finds (map value_of) values (known_after [] es names) → Finds value_of result (with_all span es names (λ zs. vectors.slices_of WIDTH_LIMIT span (shapes_in itself (map known_slice slices.now)) zs (value_of x))) }
{
    let x = Held::new(x);
    let values = Held::new(values?);
    let shapes = slice_shapes(alloc, slices)?;
    Ok(slices_of(
        alloc,
        span,
        shapes.as_slice(),
        values.get().as_slice(),
        x.get(),
    )?)
}

/// Whether a value matches a pattern, whose expressions have these values in order.
#[tactic(auto, using(crate::proofs::InOrder::all_good, crate::proofs::InOrder::all_bad))]
pub(crate) fn is_in(
    alloc: Global,
    pattern: &Pattern,
    x: Value,
    values: Result<Items<Value>, Unknown>,
) -> Result<Value, Unknown>
    ensures { (span : Span) (es : List Known) (names : List Entry) → Finds (map value_of) values (known_after [] es names) → Finds value_of result (with_all span es names (λ zs. matched_in_one WIDTH_LIMIT (known_pattern pattern.now).shape zs (value_of x))) }
{
    let x = Held::new(x);
    let values = Held::new(values?);
    let shape = Held::new(pattern_shape(alloc, pattern)?);
    Ok(matched_in(alloc, shape.get(), values.get().as_slice(), x.get())?)
}

/// A call, which has no value before any run, behind its parameters and its arguments.
pub(crate) fn barred(
    span: Span,
    params: Result<Items<Value>, Unknown>,
    args: Result<Items<Value>, Unknown>,
) -> Result<Value, Unknown>
    ensures { (r s : Pure (List TheValue)) → Finds (map value_of) params r → Finds (map value_of) args s → Finds value_of result (r then λ ys. s then λ xs. Bad (Stuck CallBarred span)) }
{
    drop(params?);
    drop(args?);
    Err(Unknown::Stuck(Mistake::CallBarred, span))
}
