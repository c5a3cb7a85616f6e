//! Whether parameters and arguments of a call fit, with widths in the place of the parameters.

ghost use Rattle.std.specs.Prelude.{◌≡◌, option_map, IfOk};
ghost use Rattle.asl_rules.specs.expressions.Calls as rules;
ghost use Rattle.asl_rules.specs.Faults.{found_or, fitted};
ghost use Rattle.asl_rules.specs.Tests.{Tests};
ghost use Rattle.asl_rules.specs.types.Types as types;
ghost use Rattle.asl_types.specs.private.Answers.{Met};
ghost use Rattle.asl_types.specs.Suits.{Suits};
ghost use Rattle.asl_types.specs.View.{parts_of};
ghost use Rattle.asl_tree.specs.View.{all_operands};
ghost use Rattle.asl_expr.specs.CallViews.{given_of, all_given};

use crate::params::GivenWidth;
use asl_poly::{Atom, Poly};
use asl_shared::Held;
use asl_subprograms::{Param, Signature};
use asl_syn::code::{Refused, StaticCode};
use asl_syn::token::Span;
use asl_tree::tree::Tree;
use asl_types::Ty;
use asl_types::answer::fault;
use asl_types::fits::fits;
use asl_types::integers::{integers, only_width};
use asl_types::substitute::substitute;
use std::alloc::{AllocError, Global};

/// The widths that stand for parameters, by their atoms.
#[tactic(auto, using(crate::proofs::FitLemmas::pairs_next, crate::proofs::FitLemmas::pairs_short, crate::proofs::FitLemmas::pairs_last))]
pub(crate) fn replaced_by(
    alloc: Global,
    params: &[Param],
    given: &[GivenWidth],
) -> Result<Vec<(Atom, Poly)>, AllocError>
    ensures { IfOk result (λ by. by.items ≡ rules.replaced_by params.now (all_given given.now)) }
{
    let mut by = Vec::new(alloc);
    for i in 0..params.len() {
        if i >= given.len() {
            return Ok(by);
        }
        let width = given[i].width.copy(alloc)?;
        by.push((params[i].atom(), width))?;
    }
    Ok(by)
}

/// The type with widths in the place of its atoms: T20 where one passes the limits.
pub(crate) fn replaced(
    alloc: Global,
    span: Span,
    by: &[(Atom, Poly)],
    ty: &Ty,
) -> Result<Held<Ty>, Refused>
    ensures { Met (λ T. T) result (found_or (types.substitute by.now ty.now) StaticCode.T20 span) }
{
    match substitute(alloc, by, ty)? {
        Some(ty) => Ok(Held::new(ty)),
        None => fault(StaticCode::T20, span),
    }
}

/// A type satisfies another: the code of its misfit at this place where it doesn't.
fn fitted(ty: &Ty, other: &Ty, at: Span) -> Result<(), Refused>
    ensures { (t : Tests) → Suits t → Met (λ u. u) result (fitted (types.misfit t ty.now other.now) at) }
{
    match fits(ty, other) {
        None => Ok(()),
        Some(code) => fault(code, at),
    }
}

/// A type satisfies another with widths in the place of its atoms: T20 at the call where one passes the limits, and else the code
/// of the misfit.
fn fits_replaced(
    alloc: Global,
    span: Span,
    by: &[(Atom, Poly)],
    ty: &Ty,
    other: &Ty,
    at: Span,
) -> Result<(), Refused>
    ensures { (t : Tests) → Suits t → Met (λ u. u) result (rules.fits_replaced t span by.now ty.now other.now at) }
{
    let other = replaced(alloc, span, by, other)?;
    fitted(ty, other.get(), at)
}

/// A width that stands for a parameter fits its type, where one is written.
fn fits_written(
    alloc: Global,
    span: Span,
    by: &[(Atom, Poly)],
    ty: Option<&Ty>,
    given: &GivenWidth,
) -> Result<(), Refused>
    ensures { (t : Tests) → Suits t → Met (λ u. u) result (rules.fits_written t span by.now (option_map (λ T. T.now) ty.entry) (given_of given.now)) }
{
    let Some(ty) = ty else {
        return Ok(());
    };
    let own = Held::new(integers(alloc, only_width(alloc, &given.width)?)?);
    fits_replaced(alloc, span, by, own.get(), ty, given.span)
}

/// The widths that stand for parameters fit their types in order, or the first fault.
#[tactic(auto, using(crate::proofs::FitLemmas::params_next, crate::proofs::FitLemmas::params_stop, crate::proofs::FitLemmas::params_short, crate::proofs::FitLemmas::params_last))]
fn params_fit(
    alloc: Global,
    span: Span,
    by: &[(Atom, Poly)],
    params: &[Param],
    given: &[GivenWidth],
) -> Result<(), Refused>
    ensures { (t : Tests) → Suits t → Met (λ u. u) result (rules.params_fit t span by.now params.now (all_given given.now)) }
{
    for i in 0..params.len() {
        if i >= given.len() {
            return Ok(());
        }
        fits_written(alloc, span, by, params[i].ty(), &given[i])?;
    }
    Ok(())
}

/// The arguments fit the formals in order, or the first fault.
#[tactic(auto, using(crate::proofs::FitLemmas::arguments_next, crate::proofs::FitLemmas::arguments_stop, crate::proofs::FitLemmas::arguments_short, crate::proofs::FitLemmas::arguments_last))]
fn arguments_fit(
    alloc: Global,
    span: Span,
    by: &[(Atom, Poly)],
    formals: &[Ty],
    arguments: &[Tree],
) -> Result<(), Refused>
    ensures { (t : Tests) → Suits t → Met (λ u. u) result (rules.arguments_fit t span by.now (parts_of formals.now) (all_operands arguments.now)) }
{
    for i in 0..formals.len() {
        if i >= arguments.len() {
            return Ok(());
        }
        let argument = &arguments[i];
        fits_replaced(alloc, span, by, argument.ty(), &formals[i], argument.span())?;
    }
    Ok(())
}

/// All parameters and arguments of a call fit, or the first fault.
pub(crate) fn both_fit(
    alloc: Global,
    span: Span,
    signature: &Signature,
    given: &[GivenWidth],
    arguments: &[Tree],
    by: &[(Atom, Poly)],
) -> Result<(), Refused>
    ensures { (t : Tests) → Suits t → Met (λ u. u) result (rules.both_fit t span signature.now (all_given given.now) (all_operands arguments.now) by.now) }
{
    params_fit(alloc, span, by, signature.params(), given)?;
    arguments_fit(alloc, span, by, signature.formals(), arguments)
}
