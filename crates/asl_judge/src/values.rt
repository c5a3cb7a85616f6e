//! The values that global storage begins with.

ghost use Rattle.std.specs.Prelude.{◌≡◌, IfOk};
ghost use Rattle.asl_rules.specs.types.Closed.{closed};
ghost use Rattle.asl_rules.specs.declarations.Declarations as rules;
ghost use Rattle.asl_rules.specs.runs.Plans.{Pure};
ghost use Rattle.asl_rules.specs.Tests.{Tests};
ghost use Rattle.asl_rules.specs.values.Values as values;
ghost use Rattle.asl_rules.specs.types.Views.{viewed};
ghost use Rattle.asl_rules.specs.types.Written.{first_value};
ghost use Rattle.asl_value.specs.private.Answers.{Is};
ghost use Rattle.asl_value.specs.View.{value_of};
ghost use Rattle.asl_types.specs.private.Answers.{Met};
ghost use Rattle.asl_subprograms.specs.private.ContextView.{scope_of};
ghost use Rattle.asl_types.specs.Suits.{Suits};

use asl_const as constants;
use asl_shape::first_value;
use asl_subprograms::Context;
use asl_syn::code::{Fault, Refused, StaticCode};
use asl_syn::token::Span;
use asl_syn::tree::Expr;
use asl_types::Ty;
use asl_types::answer::fault;
use asl_types::seeing::see;
use asl_value::{Failure, Value};
use std::alloc::{AllocError, Global};

/// The answer of an evaluation before any run: where there is no value, T04 at the faulting node, with the code of the
/// evaluation.
fn evaluated(value: Result<Value, Failure>) -> Result<Value, Refused>
    ensures { (r : Pure values.Value) → Is value_of value r → Met value_of result (rules.evaluated r) }
{
    match value {
        Ok(value) => Ok(value),
        Err(Failure::Fault(code, span)) => Err(Refused::At(Fault {
            code: StaticCode::T04,
            inner: Some(code),
            span,
        })),
        Err(Failure::WrongKind(span)) => fault(StaticCode::T04, span),
        Err(Failure::UnknownType(span)) => fault(StaticCode::T04, span),
        Err(Failure::NoMemory) => Err(Refused::NoMemory),
    }
}

/// The first value of a type that is written at this place: T04 there, with the code of the evaluation, where it has
/// none.
pub fn first_in(alloc: Global, at: Span, ty: &Ty) -> Result<Value, Refused>
    ensures { (t : Tests) → Suits t → Met value_of result (rules.evaluated (first_value t.limit at (closed ty.now))) }
{
    let value = first_value(alloc, at, ty);
    evaluated(value)
}

/// The value of a constant, and of what is evaluated where an initialiser stands.
pub fn known(alloc: Global, context: Context, e: &Expr) -> Result<Value, Refused>
    ensures { (t : Tests) → Suits t → Met value_of result (rules.known t e.now (scope_of context.entry)) }
{
    constants::eval_const(alloc, context.names, e)
}

/// A value as it goes through a type: its bits carry the bitfields that are written there. It is `see`, with a clause
/// over the closed type.
#[tactic(auto, using(crate::proofs::ValueLemmas::seen_in))]
pub fn with_view(alloc: Global, ty: &Ty, value: &Value) -> Result<Value, AllocError>
    ensures { IfOk result (λ it. value_of it ≡ viewed (closed ty.now) (value_of value.now)) }
{
    let value = see(alloc, ty, value)?;
    Ok(value)
}
