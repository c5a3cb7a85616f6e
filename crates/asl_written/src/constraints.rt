//! The constraints of integers that are written.

ghost use Rattle.std.specs.Prelude.{◌≡◌, [], ◌∷◌, map, Ok, OnOk, IfOk};
ghost use Rattle.asl_widths.specs.private.Steps.{and_then};
ghost use Rattle.asl_rules.specs.expressions.Exprs.{found};
ghost use Rattle.asl_rules.specs.Tests.{Tests};
ghost use Rattle.asl_rules.specs.statements.Branches.{of_range};
ghost use Rattle.asl_rules.specs.types.Types.{integer_of};
ghost use Rattle.asl_rules.specs.types.Writing as rules;
ghost use Rattle.asl_cons.specs.Arithmetic as cons;
ghost use Rattle.asl_types.specs.private.Answers.{Met};
ghost use Rattle.asl_subprograms.specs.private.ContextView.{scope_of};
ghost use Rattle.asl_shape.specs.View.{part_of};
ghost use Rattle.asl_tree.specs.View.{tree_of};
ghost use Rattle.asl_written.specs.private.Constraints.{found_part, found_parts, part_view, gathered_view, with_parts, none_gathered, gathered, integer_from};
ghost use Rattle.asl_widths.specs.WidthViews.{width_of, number_of};
ghost use Rattle.asl_written.specs.WrittenViews.{written_of};

use crate::written::Written;
use asl_cons::{Cons, End, MOST_PARTS, Part};
use asl_poly::Poly;
use asl_shape::{PartShape, TypeShape};
use asl_subprograms::Context;
use asl_syn::code::{Refused, StaticCode};
use asl_syn::token::Span;
use asl_syn::tree::{ConstraintPart, Expr};
use asl_tree::lists::{one_tree, two_trees};
use asl_tree::tree::Tree;
use asl_types::Ty;
use asl_types::answer::fault;
use asl_types::integers::{integers, shown};
use asl_widths::{has_atom, type_number, type_width};
use sqlite_items::Items;
use std::alloc::{AllocError, Global};

/// A part of a constraint with its shape and the typed trees of its ends.
pub(crate) struct PartWritten {
    part: Part,
    shape: PartShape,
    trees: Items<Tree>,
}

// By hand, so that a drop of one is a call, as `Held` of asl_shared says.
impl Drop for PartWritten {
    fn drop(self) {
        let PartWritten {
            part: _part,
            shape: _shape,
            trees: _trees,
        } = self;
    }
}

impl PartWritten {
    /// Its parts.
    pub(crate) fn into_parts(self) -> (Part, PartShape, Items<Tree>)
        ensures { result ≡ (self.part, self.shape, self.trees) }
    {
        let PartWritten { part, shape, trees } = self;
        (part, shape, trees)
    }
}

/// Parts of a constraint in order, with their shapes and the typed trees of their ends.
pub(crate) struct PartsWritten {
    parts: Vec<Part>,
    shapes: Items<PartShape>,
    trees: Items<Tree>,
}

// By hand, so that a drop of one is a call, as `Held` of asl_shared says.
impl Drop for PartsWritten {
    fn drop(self) {
        let PartsWritten {
            parts: _parts,
            shapes: _shapes,
            trees: _trees,
        } = self;
    }
}

impl PartsWritten {
    /// Its parts.
    pub(crate) fn into_parts(self) -> (Vec<Part>, Items<PartShape>, Items<Tree>)
        ensures { result ≡ (self.parts, self.shapes, self.trees) }
    {
        let PartsWritten {
            parts,
            shapes,
            trees,
        } = self;
        (parts, shapes, trees)
    }
}

impl PartsWritten {
    /// No parts.
    fn new(alloc: Global) -> PartsWritten
        ensures { gathered_view result ≡ none_gathered }
    {
        PartsWritten {
            parts: Vec::new(alloc),
            shapes: Items::new(alloc),
            trees: Items::new(alloc),
        }
    }

    /// One more part.
    fn push(&mut self, part: PartWritten) -> Result<(), AllocError>
        ensures { OnOk result (gathered_view self.new ≡ with_parts (gathered_view self.old) (part_view part ∷ [])) }
    {
        let (part, shape, trees) = part.into_parts();
        self.parts.push(part)?;
        self.shapes.push(shape)?;
        self.trees.append(trees)
    }
}

/// A part from one width to another.
fn range_part(p: Poly, q: Poly, trees: Items<Tree>, shape: PartShape) -> PartWritten
    ensures { part_view result ≡ record { part = cons.part (cons.shown p) (cons.shown q); shape = part_of shape; trees = map tree_of trees } }
{
    PartWritten {
        part: Part {
            low: shown(p),
            high: shown(q),
        },
        shape,
        trees,
    }
}

/// A part from one integer to another.
fn number_part(y: i128, z: i128, trees: Items<Tree>, shape: PartShape) -> PartWritten
    ensures { part_view result ≡ record { part = cons.part (End.Int y) (End.Int z); shape = part_of shape; trees = map tree_of trees } }
{
    PartWritten {
        part: Part {
            low: End::Int(y),
            high: End::Int(z),
        },
        shape,
        trees,
    }
}

/// A part that is one width.
fn one_width(alloc: Global, context: Context, e: &Expr) -> Result<PartWritten, Refused>
    ensures { (t : Tests) → Met part_view result (rules.one_width (found t e.now) (scope_of context.entry)) }
{
    let (poly, tree) = type_width(alloc, context, e)?.into_parts();
    let trees = one_tree(alloc, tree)?;
    let other = poly.copy(alloc)?;
    Ok(range_part(poly, other, trees, PartShape::Only))
}

/// A part that is one integer.
fn one_number(alloc: Global, context: Context, e: &Expr) -> Result<PartWritten, Refused>
    ensures { (t : Tests) → Met part_view result (rules.one_number (found t e.now) (scope_of context.entry)) }
{
    let (number, tree) = type_number(alloc, context, e)?.into_parts();
    let trees = one_tree(alloc, tree)?;
    Ok(number_part(number, number, trees, PartShape::Only))
}

/// A part that is one width, or an integer where it names no atom.
fn only(alloc: Global, context: Context, e: &Expr) -> Result<PartWritten, Refused>
    ensures { (t : Tests) → Met part_view result (rules.only_rule (found t e.now) (scope_of context.entry)) }
{
    if has_atom(context, e) {
        one_width(alloc, context, e)
    } else {
        one_number(alloc, context, e)
    }
}

/// A part from one width to another.
fn range_of_widths(
    alloc: Global,
    context: Context,
    low: &Expr,
    high: &Expr,
) -> Result<PartWritten, Refused>
    ensures { (t : Tests) → Met part_view result (rules.range_of_widths (found t low.now) (found t high.now) (scope_of context.entry)) }
{
    let (p, a) = type_width(alloc, context, low)?.into_parts();
    let (q, b) = type_width(alloc, context, high)?.into_parts();
    let trees = two_trees(alloc, a, b)?;
    Ok(range_part(p, q, trees, PartShape::FromTo))
}

/// A part from one integer to another.
fn range_of_numbers(
    alloc: Global,
    context: Context,
    low: &Expr,
    high: &Expr,
) -> Result<PartWritten, Refused>
    ensures { (t : Tests) → Met part_view result (rules.range_of_numbers (found t low.now) (found t high.now) (scope_of context.entry)) }
{
    let (y, a) = type_number(alloc, context, low)?.into_parts();
    let (z, b) = type_number(alloc, context, high)?.into_parts();
    let trees = two_trees(alloc, a, b)?;
    Ok(number_part(y, z, trees, PartShape::FromTo))
}

/// A part from one width to another, or from one integer to another where neither names an atom.
fn range(alloc: Global, context: Context, low: &Expr, high: &Expr) -> Result<PartWritten, Refused>
    ensures { (t : Tests) → Met part_view result (rules.range_rule (found t low.now) (found t high.now) (scope_of context.entry)) }
{
    if has_atom(context, low) || has_atom(context, high) {
        range_of_widths(alloc, context, low, high)
    } else {
        range_of_numbers(alloc, context, low, high)
    }
}

/// The integers of one part.
fn integers_of(alloc: Global, own: Part) -> Result<Ty, AllocError>
    ensures { IfOk result (λ ty. ty ≡ integer_of (own ∷ [])) }
{
    let mut parts = Vec::new(alloc);
    parts.push(own)?;
    integers(alloc, Cons::from_parts(alloc, parts)?)
}

/// The integers of a range that was written.
fn integers_written(alloc: Global, written: PartWritten) -> Result<Ty, AllocError>
    ensures { IfOk result (λ ty. ty ≡ of_range (Ok (part_view written))) }
{
    let (own, _, _) = written.into_parts();
    integers_of(alloc, own)
}

/// The integers of a range, where it could be written, else all integers.
pub fn range_type(
    alloc: Global,
    context: Context,
    low: &Expr,
    high: &Expr,
) -> Result<Ty, AllocError>
    ensures { (t : Tests) → IfOk result (λ ty. ty ≡ of_range (rules.range_rule (found t low.now) (found t high.now) (scope_of context.entry))) }
{
    match range(alloc, context, low, high) {
        Err(Refused::NoMemory) => Err(AllocError),
        Err(Refused::At(_)) => integers(alloc, Cons::whole(alloc)),
        Ok(written) => integers_written(alloc, written),
    }
}

/// A part of a constraint.
fn part(alloc: Global, context: Context, part: &ConstraintPart) -> Result<PartWritten, Refused>
    ensures { (t : Tests) → Met part_view result (found_part t part.now (scope_of context.entry)) }
{
    match part {
        ConstraintPart::Only(e) => only(alloc, context, e),
        ConstraintPart::FromTo(low, high) => range(alloc, context, low, high),
    }
}

/// The parts of a constraint in order, or the first fault.
#[tactic(auto, using(crate::proofs::ConstraintLemmas::parts_first))]
fn all_parts(
    alloc: Global,
    context: Context,
    parts: &[ConstraintPart],
) -> Result<PartsWritten, Refused>
    ensures { (t : Tests) → Met gathered_view result (and_then (rules.all_parts (found_parts t parts.now) (scope_of context.entry)) (λ qs. Ok (gathered qs))) }
{
    let mut made = PartsWritten::new(alloc);
    for p in parts {
        let next = part(alloc, context, p)?;
        made.push(next)?;
    }
    Ok(made)
}

/// Integers in a constraint of these parts: T20 where there are more than 64.
#[tactic(auto, unfolding(asl_rules::specs::types::Writing::most_parts))]
fn integer(alloc: Global, span: Span, made: PartsWritten) -> Result<Written, Refused>
    ensures { Met written_of result (integer_from span (gathered_view made)) }
{
    if made.parts.len() > MOST_PARTS {
        return fault(StaticCode::T20, span);
    }
    let (parts, shapes, trees) = made.into_parts();
    let constraint = Cons::from_parts(alloc, parts)?;
    let ty = integers(alloc, constraint)?;
    Ok(Written {
        ty,
        shape: TypeShape::IntegerOf(shapes),
        sizes: trees,
    })
}

/// Integers in a constraint of the parts that are written, whole where there are none.
pub(crate) fn integer_written(
    alloc: Global,
    context: Context,
    span: Span,
    parts: &[ConstraintPart],
) -> Result<Written, Refused>
    ensures { (t : Tests) → Met written_of result (rules.integer_rule span (found_parts t parts.now) (scope_of context.entry)) }
{
    let made = all_parts(alloc, context, parts)?;
    integer(alloc, span, made)
}
