//! Global storage: its type and the value that it begins with.

ghost use Rattle.std.specs.Prelude.{◌≡◌, Some, None, IfOk};
ghost use Rattle.asl_rules.specs.declarations.Declarations as rules;
ghost use Rattle.asl_rules.specs.expressions.Exprs as exprs;
ghost use Rattle.asl_rules.specs.Faults.{fitted};
ghost use Rattle.asl_rules.specs.Tests.{Tests};
ghost use Rattle.asl_rules.specs.types.Types as types;
ghost use Rattle.asl_types.specs.private.Answers.{Met, Agrees};
ghost use Rattle.asl_subprograms.specs.private.ContextView.{scope_of};
ghost use Rattle.asl_types.specs.Suits.{Suits};
ghost use Rattle.asl_judge.specs.private.Brought.{initial_of};
ghost use Rattle.asl_judge.specs.private.Definitions.{type_fitted, both_found};

use crate::barred::check_unbarred;
use crate::values::{first_in, known, with_view};
use crate::written::{typed, written};
use asl_shared::Held;
use asl_subprograms::Context;
use asl_syn::code::{Refused, StaticCode};
use asl_syn::tree::{Expr, StorageDecl, StorageKind, TypeExpr};
use asl_tree::places::place;
use asl_types::Ty;
use asl_types::answer::fault;
use asl_types::baring::widened;
use asl_types::fits::fits;
use asl_value::Value;
use asl_written::written::type_place;
use std::alloc::{AllocError, Global};

/// The type of global storage, and the value that it begins with.
#[derive(Drop)]
pub(crate) struct Initial {
    pub(crate) ty: Ty,
    pub(crate) value: Value,
}

/// Whether global storage can be assigned.
pub fn is_var(kind: StorageKind) -> bool
    ensures { result ≡ rules.is_var kind }
{
    match kind {
        StorageKind::Constant => false,
        StorageKind::Let => false,
        StorageKind::Var => true,
    }
}

/// The fault at an initialiser whose type doesn't fit.
fn check_fit(ty: &Ty, to: &Ty, e: &Expr) -> Result<(), Refused>
    ensures { (t : Tests) → Suits t → Agrees result (fitted (types.misfit t ty.now to.now) (exprs.found t e.now).span) }
{
    match fits(ty, to) {
        None => Ok(()),
        Some(code) => fault(code, place(e)),
    }
}

/// The type of storage without a written type: that of its initialiser, of a `var` without a constraint.
fn unannotated(alloc: Global, is_var: bool, ty: &Ty) -> Result<Ty, AllocError>
    ensures { IfOk result (λ it. it ≡ rules.unannotated is_var ty.now) }
{
    if is_var {
        widened(alloc, ty)
    } else {
        ty.copy()
    }
}

/// Storage of a written type without an initialiser begins with the first value of the type.
fn of_type(
    alloc: Global,
    context: Context,
    d: &StorageDecl,
    ty: &TypeExpr,
) -> Result<Initial, Refused>
    ensures { (t : Tests) → Suits t → Met initial_of result (rules.storage_rule t d.now (rules.is_var d.now.kind) (Some ty.now) None (scope_of context.entry)) }
{
    let at = type_place(ty);
    let ty = Held::new(written(alloc, context, ty, true)?);
    let value = first_in(alloc, at, ty.get())?;
    Ok(Initial {
        ty: ty.into_inner(),
        value,
    })
}

/// Storage without a written type has that of its initialiser.
fn of_value(alloc: Global, context: Context, d: &StorageDecl, e: &Expr) -> Result<Initial, Refused>
    ensures { (t : Tests) → Suits t → Met initial_of result (rules.storage_rule t d.now (rules.is_var d.now.kind) None (Some e.now) (scope_of context.entry)) }
{
    check_unbarred(alloc, e, context.names)?;
    let found = Held::new(typed(alloc, context, e)?);
    let ty = Held::new(unannotated(alloc, is_var(d.kind), found.get())?);
    let value = known(alloc, context, e)?;
    Ok(Initial {
        ty: ty.into_inner(),
        value,
    })
}

/// The written type of storage, which its initialiser fits.
fn fitted_type(alloc: Global, context: Context, ty: &TypeExpr, e: &Expr) -> Result<Ty, Refused>
    ensures { (t : Tests) → Suits t → Agrees result (type_fitted t ty.now e.now (scope_of context.entry)) }
{
    check_unbarred(alloc, e, context.names)?;
    let ty = Held::new(written(alloc, context, ty, true)?);
    let found = Held::new(typed(alloc, context, e)?);
    check_fit(found.get(), ty.get(), e)?;
    Ok(ty.into_inner())
}

/// Storage of a written type, with what its initialiser gives.
fn both_in_order(
    alloc: Global,
    context: Context,
    ty: &TypeExpr,
    e: &Expr,
) -> Result<Initial, Refused>
    ensures { (t : Tests) → Suits t → Met initial_of result (both_found t ty.now e.now (scope_of context.entry)) }
{
    let ty = Held::new(fitted_type(alloc, context, ty, e)?);
    let value = Held::new(known(alloc, context, e)?);
    let value = with_view(alloc, ty.get(), value.get())?;
    Ok(Initial {
        ty: ty.into_inner(),
        value,
    })
}

/// Storage of a written type, which its initialiser fits. It is `both_in_order`, with the clause of the rules, which
/// alone speaks of `d`.
fn of_both(
    alloc: Global,
    context: Context,
    d: &StorageDecl,
    ty: &TypeExpr,
    e: &Expr,
) -> Result<Initial, Refused>
    ensures { (t : Tests) → Suits t → Met initial_of result (rules.storage_rule t d.now (rules.is_var d.now.kind) (Some ty.now) (Some e.now) (scope_of context.entry)) }
{
    both_in_order(alloc, context, ty, e)
}

/// The type and the first value of global storage: before all else its initialiser holds no call and no global `var`;
/// then it has a type, fits, and is evaluated.
pub(crate) fn initial_storage(
    alloc: Global,
    context: Context,
    d: &StorageDecl,
) -> Result<Initial, Refused>
    ensures { (t : Tests) → Suits t → Met initial_of result (rules.storage_rule t d.now (rules.is_var d.now.kind) d.now.ty d.now.init (scope_of context.entry)) }
{
    match (&d.ty, &d.init) {
        (None, None) => fault(StaticCode::S03, d.span),
        (Some(ty), None) => of_type(alloc, context, d, ty),
        (None, Some(e)) => of_value(alloc, context, d, e),
        (Some(ty), Some(e)) => of_both(alloc, context, d, ty, e),
    }
}
