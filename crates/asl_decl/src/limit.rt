//! How deep the calls of a subprogram by itself may go.

ghost use Rattle.std.specs.Prelude.{◌≡◌, [], pos};
ghost use Rattle.asl_rules.specs.declarations.Declarations as outside;
ghost use Rattle.asl_rules.specs.expressions.Exprs as exprs;
ghost use Rattle.asl_rules.specs.Faults.{need};
ghost use Rattle.asl_rules.specs.runs.Limits.{most_activations};
ghost use Rattle.asl_rules.specs.declarations.Programs as rules;
ghost use Rattle.asl_rules.specs.declarations.Scopes.{with_class};
ghost use Rattle.asl_rules.specs.Tests.{Tests};
ghost use Rattle.asl_rules.specs.types.Types as types;
ghost use Rattle.asl_value.specs.View.{value_of};
ghost use Rattle.asl_types.specs.private.Answers.{Agrees};
ghost use Rattle.asl_subprograms.specs.private.ContextView.{scope_of};
ghost use Rattle.asl_types.specs.Suits.{Suits};
ghost use Rattle.asl_judge.specs.private.Definitions.{type_found};
ghost use Rattle.asl_decl.specs.private.Limits as limits;

use crate::heads::in_names;
use asl_judge::barred::check_unbarred;
use asl_judge::values::known;
use asl_judge::written::typed;
use asl_rules::effect::Effect;
use asl_shared::Held;
use asl_subprograms::{Context, Param, Subprograms};
use asl_syn::code::{Refused, StaticCode};
use asl_syn::token::Span;
use asl_syn::tree::{Expr, Func, Param as WrittenParam};
use asl_tree::places::place;
use asl_types::answer::fault;
use asl_types::kinds::is_integer;
use asl_types::{Scope, Ty};
use asl_value::Value;
use asl_written::written::type_place;
use std::alloc::Global;

/// The activations of a subprogram at one time, where no other number is written.
#[tactic(auto, unfolding(asl_rules::specs::runs::Limits::most_activations))]
fn usual() -> i128
    ensures { result ≡ pos most_activations }
{
    256
}

/// T05 at this place where a type isn't an integer.
fn check_integer(ty: &Ty, at: Span) -> Result<(), Refused>
    ensures { Agrees result (need (types.is_integer ty.now) StaticCode.T05 at) }
{
    if is_integer(ty) {
        Ok(())
    } else {
        fault(StaticCode::T05, at)
    }
}

/// T05 at the type of a parameter that is written and isn't an integer.
fn check_param(written: &WrittenParam, param: &Param) -> Result<(), Refused>
    ensures { (t : Tests) → Agrees result (rules.type_is_integer t written.now.ty param.now.ty) }
{
    match (&written.ty, param.ty()) {
        (Some(written), Some(ty)) => check_integer(ty, type_place(written)),
        (Some(_), None) => Ok(()),
        (None, Some(_)) => Ok(()),
        (None, None) => Ok(()),
    }
}

/// T05 at the first such type.
fn check_params(written: &[WrittenParam], params: &[Param]) -> Result<(), Refused>
    ensures { (t : Tests) → Agrees result (rules.params_are_integers t written.now params.now) }
{
    let mut rest = params;
    for p in written {
        match rest.split_first() {
            None => return Ok(()),
            Some((param, more)) => {
                check_param(p, param)?;
                rest = more;
            }
        }
    }
    Ok(())
}

/// An integer: T04 at this place where it is none.
fn as_number(span: Span, value: &Value) -> Result<i128, Refused>
    ensures { Agrees result (rules.as_number span (value_of value.now)) }
{
    match value {
        Value::Int(number) => Ok(*number),
        Value::Bool(_) => fault(StaticCode::T04, span),
        Value::Bits(_, _) => fault(StaticCode::T04, span),
        Value::Label(_, _) => fault(StaticCode::T04, span),
        Value::Record(_, _) => fault(StaticCode::T04, span),
        Value::Exception(_, _, _, _) => fault(StaticCode::T04, span),
        Value::Tuple(_) => fault(StaticCode::T04, span),
        Value::Array(_, _) => fault(StaticCode::T04, span),
    }
}

/// The value of an integer.
fn known_number(alloc: Global, names: &Scope, none: &Subprograms, e: &Expr) -> Result<i128, Refused>
    requires { none.now ≡ [] }
    ensures { (t : Tests) → Suits t → Agrees result (limits.limit_known t e.now names.now) }
{
    let value = Held::new(known(alloc, in_names(names, none), e)?);
    as_number(place(e), value.get())
}

/// The type of an expression over the names outside bodies, which has no effect.
fn typed_pure(alloc: Global, names: &Scope, none: &Subprograms, e: &Expr) -> Result<Ty, Refused>
    requires { none.now ≡ [] }
    ensures { (t : Tests) → Suits t → Agrees result (type_found t e.now (with_class (outside.in_names names.now) Effect.Pure)) }
{
    let context = Context {
        names,
        subs: none,
        class: Effect::Pure,
    };
    typed(alloc, context, e)
}

/// The number that is written: before all else it holds no call and no global `var`; then it has a type, the parameters
/// are integers, it is one itself, and it is evaluated.
fn written_limit(
    alloc: Global,
    names: &Scope,
    none: &Subprograms,
    f: &Func,
    e: &Expr,
    params: &[Param],
) -> Result<i128, Refused>
    requires { none.now ≡ [] }
    ensures { (t : Tests) → Suits t → Agrees result (limits.limit_written t f.now e.now params.now names.now) }
{
    check_unbarred(alloc, e, names)?;
    let ty = Held::new(typed_pure(alloc, names, none, e)?);
    check_params(f.params.as_slice(), params)?;
    check_integer(ty.get(), place(e))?;
    known_number(alloc, names, none, e)
}

/// The usual number, where the parameters are integers.
fn usual_limit(f: &Func, params: &[Param]) -> Result<i128, Refused>
    ensures { (t : Tests) → Agrees result (limits.limit_usual t f.now params.now) }
{
    check_params(f.params.as_slice(), params)?;
    Ok(usual())
}

/// How deep the calls of a subprogram by itself may go, by its `recurselimit`, where one is written. Before its value is
/// asked for the types of the parameters are integers.
#[tactic(auto, using(crate::proofs::LimitLemmas::limit_is))]
pub(crate) fn limit_of(
    alloc: Global,
    names: &Scope,
    none: &Subprograms,
    f: &Func,
    params: &[Param],
) -> Result<i128, Refused>
    requires { none.now ≡ [] }
    ensures { (t : Tests) → Suits t → Agrees result (limits.limit_after t f.now params.now names.now) }
{
    match &f.limit {
        None => usual_limit(f, params),
        Some(e) => written_limit(alloc, names, none, f, e, params),
    }
}
