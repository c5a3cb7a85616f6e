//! What stands for the parameters of a call: the widths in braces, or the whole widths of arguments.

ghost use Rattle.std.specs.Prelude.{◌≡◌, pos, map, option_map, OnOk, IfOk};
ghost use Rattle.asl_poly.specs.Poly.{constant_map, is_atom, is_factor, is_only};
ghost use Rattle.asl_rules.specs.expressions.Calls as rules;
ghost use Rattle.asl_rules.specs.expressions.Calls.{given};
ghost use Rattle.asl_rules.specs.expressions.Exprs.{found};
ghost use Rattle.asl_rules.specs.Tests.{Tests};
ghost use Rattle.asl_rules.specs.types.Types as types;
ghost use Rattle.asl_types.specs.private.Answers.{Met};
ghost use Rattle.asl_subprograms.specs.private.ContextView.{scope_of};
ghost use Rattle.asl_types.specs.View.{parts_of};
ghost use Rattle.asl_tree.specs.View.{tree_of, all_operands};
ghost use Rattle.asl_expr.specs.CallViews.{replacing_of, none_replaced, with_written, with_argument, giving_of};

use asl_poly::{Atom, Poly, PolyRefused};
use asl_subprograms::{Context, Param, Signature};
use asl_syn::code::{Refused, StaticCode};
use asl_syn::token::Span;
use asl_syn::tree::Expr;
use asl_tree::places::place;
use asl_tree::tree::Tree;
use asl_types::answer::fault;
use asl_types::structure::width_in;
use asl_types::{Form, Ty};
use asl_widths::type_width;
use sqlite_items::{Boxed, Items};
use std::alloc::{AllocError, Global};

/// The width that stands for a parameter, and the place of the expression that gives it.
#[derive(Drop)]
pub(crate) struct GivenWidth {
    pub(crate) width: Poly,
    pub(crate) span: Span,
}

/// What stands for parameters: their widths in order, and the typed trees of those in braces, or the places of the arguments that
/// give them.
pub(crate) struct Replaced {
    pub(crate) given: Items<GivenWidth>,
    pub(crate) places: Items<usize>,
    pub(crate) trees: Items<Tree>,
}

// By hand, so that a drop of one is a call, as `Held` of asl_shared says.
impl Drop for Replaced {
    fn drop(self) {
        let Replaced {
            given: _given,
            places: _places,
            trees: _trees,
        } = self;
    }
}

impl Replaced {
    /// Its places and its trees.
    pub(crate) fn into_parts(self) -> (Items<usize>, Items<Tree>)
        ensures { result ≡ (self.places, self.trees) }
    {
        let Replaced {
            given: _given,
            places,
            trees,
        } = self;
        (places, trees)
    }

    /// No parameters.
    fn new(alloc: Global) -> Replaced
        ensures { replacing_of result ≡ none_replaced }
    {
        Replaced {
            given: Items::new(alloc),
            places: Items::new(alloc),
            trees: Items::new(alloc),
        }
    }

    /// One more parameter, which is written in braces.
    fn push_written(&mut self, width: Poly, span: Span, tree: Boxed<Tree>) -> Result<(), AllocError>
        ensures { OnOk result (replacing_of self.new ≡ with_written (replacing_of self.old) (given width span) (tree_of tree)) }
    {
        self.given.push(GivenWidth { width, span })?;
        self.trees.push(tree.into_inner())
    }

    /// One more parameter, which the argument in this place gives.
    fn push_argument(&mut self, width: Poly, span: Span, place: usize) -> Result<(), AllocError>
        ensures { OnOk result (replacing_of self.new ≡ with_argument (replacing_of self.old) (given width span) place) }
    {
        self.given.push(GivenWidth { width, span })?;
        self.places.push(place)
    }
}

/// The widths of the expressions in braces in order, or the first fault.
#[tactic(auto, using(crate::proofs::ParamLemmas::replaced_first))]
pub(crate) fn widths_given(
    alloc: Global,
    context: Context,
    es: &[Expr],
) -> Result<Replaced, Refused>
    ensures { (t : Tests) → Met replacing_of result (rules.widths_given (map (found t) es.now) (scope_of context.entry)) }
{
    let mut made = Replaced::new(alloc);
    for e in es {
        let (width, tree) = type_width(alloc, context, e)?.into_parts();
        made.push_written(width, place(e), tree)?;
    }
    Ok(made)
}

/// The width 0.
fn zero(alloc: Global) -> Result<Poly, AllocError>
    ensures { IfOk result (λ p. p ≡ constant_map (pos 0)) }
{
    match Poly::constant(alloc, 0) {
        Ok(p) => Ok(p),
        Err(PolyRefused::TooLarge) => unreachable!(),
        Err(PolyRefused::NoMemory) => Err(AllocError),
    }
}

/// The width of bits, and 0 where the type is no bits.
pub(crate) fn width_of(alloc: Global, ty: &Ty) -> Result<Poly, AllocError>
    ensures { IfOk result (λ p. p ≡ types.width_of ty.now) }
{
    match width_in(ty) {
        Some(width) => width.copy(alloc),
        None => zero(alloc),
    }
}

/// Whether these are this atom alone.
fn is_only(atom: Atom, atoms: &[Atom]) -> bool
    ensures { result ≡ is_only atom atoms.now }
{
    match atoms {
        [other] => other.0 == atom.0,
        _ => false,
    }
}

/// Whether a width has this atom as its only term.
#[tactic(auto, using(crate::proofs::ParamLemmas::not_one))]
fn is_factor(atom: Atom, width: &Poly) -> bool
    ensures { result ≡ is_factor atom width.now.terms }
{
    if width.terms() != 1 {
        return false;
    }
    match width.term(0) {
        None => false,
        Some((coefficient, atoms)) => coefficient == 1 && is_only(atom, atoms),
    }
}

/// Whether a width is this atom alone.
fn is_alone(atom: Atom, width: &Poly) -> bool
    ensures { result ≡ is_atom atom width.now }
{
    width.denominator() == 1 && is_factor(atom, width)
}

/// Whether the type is bits of this parameter alone, without a name.
fn is_width_alone(atom: Atom, ty: &Ty) -> bool
    ensures { result ≡ rules.is_width_alone atom ty.now }
{
    match ty.form() {
        Form::Integer(_) => false,
        Form::Boolean => false,
        Form::Bits(width, _) => is_alone(atom, width.get()),
        Form::Enumeration(_, _) => false,
        Form::Record(_, _) => false,
        Form::Exception(_, _) => false,
        Form::Tuple(_) => false,
        Form::Array(_, _) => false,
        Form::Named(_, _, _) => false,
    }
}

/// The first argument whose formal is bits of this parameter alone, with its place, from 0.
#[tactic(auto, using(crate::proofs::ParamLemmas::giving_here, crate::proofs::ParamLemmas::giving_later, crate::proofs::ParamLemmas::giving_none, crate::proofs::ParamLemmas::giving_past))]
fn giving<'a>(atom: Atom, formals: &[Ty], arguments: &'a [Tree]) -> Option<(usize, &'a Tree)>
    ensures { option_map giving_of result ≡ rules.given_by_argument atom 0 (parts_of formals.now) (all_operands arguments.now) }
{
    for i in 0..formals.len() {
        if i >= arguments.len() {
            return None;
        }
        let argument = &arguments[i];
        if is_width_alone(atom, &formals[i]) {
            return Some((i, argument));
        }
    }
    None
}

/// The whole widths of the arguments that give the parameters: T11 where one has none.
#[tactic(auto, using(crate::proofs::ParamLemmas::omitted_next, crate::proofs::ParamLemmas::omitted_stop, crate::proofs::ParamLemmas::omitted_last, crate::proofs::ParamLemmas::replaced_first))]
fn widths_omitted(
    alloc: Global,
    span: Span,
    params: &[Param],
    formals: &[Ty],
    arguments: &[Tree],
) -> Result<Replaced, Refused>
    ensures { Met replacing_of result (rules.widths_omitted span params.now (parts_of formals.now) (all_operands arguments.now)) }
{
    let mut made = Replaced::new(alloc);
    for p in params {
        let Some((place, argument)) = giving(p.atom(), formals, arguments) else {
            return fault(StaticCode::T11, span);
        };
        let width = width_of(alloc, argument.ty())?;
        made.push_argument(width, argument.span(), place)?;
    }
    Ok(made)
}

/// What stands for the parameters of a subprogram: those in braces, T11 where they aren't as many, or where there are none, the
/// whole widths of arguments.
pub(crate) fn widths(
    alloc: Global,
    context: Context,
    span: Span,
    signature: &Signature,
    params: &[Expr],
    arguments: &[Tree],
) -> Result<Replaced, Refused>
    ensures { (t : Tests) → Met replacing_of result (rules.widths_rule span signature.now (map (found t) params.now) (all_operands arguments.now) (scope_of context.entry)) }
{
    if params.is_empty() {
        return widths_omitted(
            alloc,
            span,
            signature.params(),
            signature.formals(),
            arguments,
        );
    }
    if params.len() != signature.params().len() {
        return fault(StaticCode::T11, span);
    }
    widths_given(alloc, context, params)
}
