//! The operands of expressions in order: of lists of expressions, of the values of fields and of slices.

ghost use Rattle.std.specs.Prelude.{◌≡◌, [], ◌∷◌, map, suc};
ghost use denote.Param.Weighed.{most};
ghost use Rattle.asl_rules.specs.expressions.Exprs as rules;
ghost use Rattle.asl_rules.specs.expressions.Exprs.{found, found_slice};
ghost use Rattle.asl_rules.specs.expressions.Slicing as slicing;
ghost use Rattle.asl_rules.specs.statements.Targets.{found_slices};
ghost use Rattle.asl_rules.specs.Tests.{Tests};
ghost use Rattle.asl_rules.specs.expressions.Typing.{operands};
ghost use Rattle.asl_types.specs.private.Answers.{Met};
ghost use Rattle.asl_subprograms.specs.private.ContextView.{scope_of};
ghost use Rattle.asl_types.specs.Suits.{Suits};
ghost use Rattle.asl_tree.specs.View.{operand_of, all_operands};
ghost use Rattle.asl_expr.specs.private.Below.{Types};
ghost use Rattle.asl_typing.specs.private.Constructs.{found_fields, value_of};
ghost use Rattle.asl_syn.specs.declared.tree.Expr.{size-Expr};
ghost use Rattle.asl_syn.specs.declared.tree.FieldValue.{size-FieldValue};
ghost use Rattle.asl_syn.specs.declared.tree.FieldValue.TheVariants as value;
ghost use Rattle.asl_syn.specs.declared.tree.Slice.{size-Slice};

use crate::below::{Below, operand_below};
use asl_subprograms::Context;
use asl_syn::code::Refused;
use asl_syn::tree::{Expr, FieldValue, Ident, Slice};
use asl_tree::lists::{one_tree, two_trees};
use asl_tree::tree::Tree;
use sqlite_items::{Boxed, Items};
use std::alloc::Global;

/// The typed trees of expressions in order, or the first fault.
#[tactic(auto, using(crate::proofs::Falling::weaker, crate::proofs::Values::operands_first, crate::proofs::Values::exprs_next, crate::proofs::Values::exprs_stop, crate::proofs::Values::exprs_last))]
pub(crate) fn operands_below<E: Fn(Global, Context, &Expr) -> Result<Boxed<Tree>, Refused>, M>(
    here: &Below<E, M>,
    es: &[Expr],
) -> Result<Items<Tree>, Refused>
    requires types { Types (suc (most size-Expr es.now)) (E.pre here.now.typing) (E.post here.now.typing) }
    ensures { (t : Tests) → Suits t → Met all_operands result (operands (map (found t) es.now) (scope_of here.now.context)) }
{
    let mut trees = Items::new(here.alloc);
    for e in es {
        let tree = operand_below(here, e)?;
        trees.push(tree.into_inner())?;
    }
    Ok(trees)
}

/// The name of a field that is given, and its value.
fn field_parts(given: &FieldValue) -> (&Ident, &Expr)
    ensures { given.now ≡ value.Given result.0.now result.1.now }
{
    match given {
        FieldValue::Given(name, e) => (name, e),
    }
}

/// The typed tree of the value of a field that is given.
#[tactic(auto, using(crate::proofs::Falling::value_types))]
fn value_below<E: Fn(Global, Context, &Expr) -> Result<Boxed<Tree>, Refused>, M>(
    here: &Below<E, M>,
    given: &FieldValue,
) -> Result<Boxed<Tree>, Refused>
    requires types { Types (size-FieldValue given.now) (E.pre here.now.typing) (E.post here.now.typing) }
    ensures { (t : Tests) → Suits t → Met operand_of result (value_of t given.now (scope_of here.now.context)) }
{
    let (_, e) = field_parts(given);
    operand_below(here, e)
}

/// The typed trees of the values of fields that are given, in order, or the first fault.
#[tactic(auto, using(crate::proofs::Falling::weaker, crate::proofs::Values::operands_first, crate::proofs::Values::values_next, crate::proofs::Values::values_stop, crate::proofs::Values::values_last))]
pub(crate) fn values_below<E: Fn(Global, Context, &Expr) -> Result<Boxed<Tree>, Refused>, M>(
    here: &Below<E, M>,
    given: &[FieldValue],
) -> Result<Items<Tree>, Refused>
    requires types { Types (suc (most size-FieldValue given.now)) (E.pre here.now.typing) (E.post here.now.typing) }
    ensures { (t : Tests) → Suits t → Met all_operands result (operands (rules.values_given (found_fields t given.now)) (scope_of here.now.context)) }
{
    let mut trees = Items::new(here.alloc);
    for g in given {
        let tree = value_below(here, g)?;
        trees.push(tree.into_inner())?;
    }
    Ok(trees)
}

/// The typed tree of one expression in a list, or its fault.
#[tactic(auto, using(crate::proofs::SliceLemmas::one_operand, crate::proofs::SliceLemmas::only_failed))]
fn type_one<E: Fn(Global, Context, &Expr) -> Result<Boxed<Tree>, Refused>, M>(
    here: &Below<E, M>,
    e: &Expr,
) -> Result<Items<Tree>, Refused>
    requires types { Types (suc (size-Expr e.now)) (E.pre here.now.typing) (E.post here.now.typing) }
    ensures { (t : Tests) → Suits t → Met all_operands result (operands (found t e.now ∷ []) (scope_of here.now.context)) }
{
    let tree = operand_below(here, e)?;
    Ok(one_tree(here.alloc, tree)?)
}

/// The typed trees of two expressions in order, or the first fault.
#[tactic(auto, using(crate::proofs::SliceLemmas::two_operands, crate::proofs::SliceLemmas::first_failed, crate::proofs::SliceLemmas::second_failed))]
fn type_two<E: Fn(Global, Context, &Expr) -> Result<Boxed<Tree>, Refused>, M>(
    here: &Below<E, M>,
    first: &Expr,
    second: &Expr,
) -> Result<Items<Tree>, Refused>
    requires first { Types (suc (size-Expr first.now)) (E.pre here.now.typing) (E.post here.now.typing) }
    requires second { Types (suc (size-Expr second.now)) (E.pre here.now.typing) (E.post here.now.typing) }
    ensures { (t : Tests) → Suits t → Met all_operands result (operands (found t first.now ∷ found t second.now ∷ []) (scope_of here.now.context)) }
{
    let a = operand_below(here, first)?;
    let b = operand_below(here, second)?;
    Ok(two_trees(here.alloc, a, b)?)
}

/// The typed trees of the expressions of a slice in order, or the first fault.
#[tactic(auto, using(crate::proofs::Falling::weaker))]
fn slice_below<E: Fn(Global, Context, &Expr) -> Result<Boxed<Tree>, Refused>, M>(
    here: &Below<E, M>,
    slice: &Slice,
) -> Result<Items<Tree>, Refused>
    requires types { Types (size-Slice slice.now) (E.pre here.now.typing) (E.post here.now.typing) }
    ensures { (t : Tests) → Suits t → Met all_operands result ((found_slice t slice.now).operands (scope_of here.now.context)) }
{
    match slice {
        Slice::BitAt(e) => type_one(here, e),
        Slice::HighLow(high, low) => type_two(here, high, low),
        Slice::LowWidth(low, width) => type_two(here, low, width),
        Slice::FactorWidth(factor, width) => type_two(here, factor, width),
    }
}

/// The typed trees of the expressions of slices in order, or the first fault.
#[tactic(auto, using(crate::proofs::Falling::weaker, crate::proofs::SliceLemmas::operands_next, crate::proofs::SliceLemmas::operands_stop, crate::proofs::SliceLemmas::operands_last, crate::proofs::SliceLemmas::operands_first))]
pub(crate) fn slices_below<E: Fn(Global, Context, &Expr) -> Result<Boxed<Tree>, Refused>, M>(
    here: &Below<E, M>,
    slices: &[Slice],
) -> Result<Items<Tree>, Refused>
    requires types { Types (suc (most size-Slice slices.now)) (E.pre here.now.typing) (E.post here.now.typing) }
    ensures { (t : Tests) → Suits t → Met all_operands result (slicing.all_operands (found_slices t slices.now) (scope_of here.now.context)) }
{
    let mut trees = Items::new(here.alloc);
    for s in slices {
        let more = slice_below(here, s)?;
        trees.append(more)?;
    }
    Ok(trees)
}
