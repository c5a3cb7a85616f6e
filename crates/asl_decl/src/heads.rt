//! The types of parameters, formals and results.

ghost use Rattle.std.specs.Prelude.{◌≡◌, [], Some, None, true, IfOk, OnOk};
ghost use Rattle.asl_rules.specs.declarations.Declarations as outside;
ghost use Rattle.asl_rules.specs.Tests.{Tests};
ghost use Rattle.asl_types.specs.private.Answers.{Met, Agrees};
ghost use Rattle.asl_subprograms.specs.private.ContextView.{scope_of};
ghost use Rattle.asl_types.specs.Suits.{Suits};
ghost use Rattle.asl_decl.specs.private.HeadTypes as rules;
ghost use Rattle.asl_decl.specs.private.HeadTypes.{IsFront};
ghost use Rattle.asl_decl.specs.private.HeadViews.{types_of};

use crate::bodies::declare_param;
use asl_judge::written::written;
use asl_rules::effect::Effect;
use asl_subprograms::{Context, Param, Subprograms};
use asl_syn::code::Refused;
use asl_syn::tree::{Formal, Func, Param as WrittenParam, TypeExpr};
use asl_types::{Scope, Ty};
use sqlite_items::Items;
use std::alloc::Global;

/// What declarations outside bodies are judged in: these names, no subprogram, and any effect.
pub(crate) fn in_names<'c, 'a>(names: &'c Scope<'a>, none: &'c Subprograms) -> Context<'c, 'a>
    requires { none.now ≡ [] }
    ensures { scope_of result ≡ outside.in_names names.now }
{
    Context {
        names,
        subs: none,
        class: Effect::Writes,
    }
}

/// The type that is written, where one is.
fn maybe_written(
    alloc: Global,
    context: Context,
    ty: &Option<TypeExpr>,
) -> Result<Option<Ty>, Refused>
    ensures { (t : Tests) → Suits t → Agrees result (rules.maybe_written t ty.now (scope_of context.entry)) }
{
    match ty {
        None => Ok(None),
        Some(ty) => Ok(Some(written(alloc, context, ty, false)?)),
    }
}

/// The parameters in order, whose names become visible, each where it isn't.
#[tactic(auto, using(crate::proofs::HeadLemmas::front_first, crate::proofs::HeadLemmas::front_more))]
fn type_params<'a>(
    alloc: Global,
    names: &mut Scope<'a>,
    none: &Subprograms,
    params: &'a [WrittenParam],
) -> Result<Items<Param>, Refused>
    requires { none.now ≡ [] }
    ensures rule { (t : Tests) → Suits t → Met (λ ps. (ps, names.new)) result (rules.params_after t params.now [] names.old) }
    ensures front { IfOk result (λ _. IsFront names.old names.new) }
{
    let mut typed = Items::new(alloc);
    for p in params {
        let ty = maybe_written(alloc, in_names(names, none), &p.ty)?;
        let atom = names.next_atom();
        let param = Param::new(atom, ty);
        declare_param(alloc, names, p.name.text.as_slice(), &param)?;
        typed.push(param)?;
    }
    Ok(typed)
}

/// The types of formals in order.
fn type_formals(alloc: Global, context: Context, formals: &[Formal]) -> Result<Items<Ty>, Refused>
    ensures { (t : Tests) → Suits t → Agrees result (rules.formals_after t [] formals.now (scope_of context.entry)) }
{
    let mut types = Items::new(alloc);
    for f in formals {
        types.push(written(alloc, context, &f.ty, false)?)?;
    }
    Ok(types)
}

/// The types of a subprogram's parameters, formals and result.
#[derive(Drop)]
pub(crate) struct HeadTypes {
    pub(crate) params: Items<Param>,
    pub(crate) formals: Items<Ty>,
    pub(crate) result: Option<Ty>,
}

/// The types of a subprogram's parameters, formals and result, over the names outside bodies, to which those of the
/// parameters are added.
fn type_all<'a>(
    alloc: Global,
    names: &mut Scope<'a>,
    none: &Subprograms,
    f: &'a Func,
) -> Result<HeadTypes, Refused>
    requires { none.now ≡ [] }
    ensures rule { (t : Tests) → Suits t → Met types_of result (rules.head_types t f.now names.old) }
    ensures front { IfOk result (λ _. IsFront names.old names.new) }
{
    let params = type_params(alloc, names, none, f.params.as_slice())?;
    let formals = type_formals(alloc, in_names(names, none), f.formals.as_slice())?;
    let returns = maybe_written(alloc, in_names(names, none), &f.result)?;
    Ok(HeadTypes {
        params,
        formals,
        result: returns,
    })
}

/// The types of a subprogram's parameters, formals and result, over the names outside bodies.
#[tactic(auto, using(crate::proofs::HeadLemmas::front_taken))]
pub(crate) fn head_types<'a>(
    alloc: Global,
    names: &mut Scope<'a>,
    none: &Subprograms,
    f: &'a Func,
) -> Result<HeadTypes, Refused>
    requires { none.now ≡ [] }
    ensures rule { (t : Tests) → Suits t → Met types_of result (rules.head_types t f.now names.old) }
    ensures names { IfOk result (λ _. names.new ≡ names.old) }
{
    let len = names.len();
    let types = type_all(alloc, names, none, f)?;
    names.truncate(len);
    Ok(types)
}
