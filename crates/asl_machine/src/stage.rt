//! Where a machine stands, and what it answers there.
ghost use Rattle.std.specs.Prelude.{◌≡◌};
ghost use Rattle.asl_machine.specs.Stages.{answer_of};
ghost use Rattle.asl_machine.specs.Stages as stages;

use asl_syn::code::DynCode;
use asl_syn::token::Span;
use asl_value::Value;

/// How a run ends.
#[derive(Clone, Copy, PartialEq, Eq)]
pub enum Outcome {
    /// The subprogram returned. `Machine::returned` has its value.
    Returned,
    /// An exception was not caught. `Machine::uncaught` has it.
    Uncaught,
    /// A fault of the rules, at its place.
    Fault(DynCode, Span),
}

/// Why a run was given up.
#[derive(Clone, Copy, PartialEq, Eq)]
pub enum RunRefused {
    /// The sink refused a write.
    SinkFault,
    /// Memory was wanting.
    NoMemory,
}

/// Where a machine stands: ready, with the value that the last call returned where it returned one, or ended.
pub enum Stage {
    Ready(Option<Value>),
    Uncaught(Value),
    Fault(DynCode, Span),
    Refused(RunRefused),
}

// By hand, so that a drop of one is a call, as `Held` of asl_shared says.
impl Drop for Stage {
    fn drop(self) {
        match self {
            Stage::Ready(_returned) => {}
            Stage::Uncaught(_thrown) => {}
            Stage::Fault(_code, _span) => {}
            Stage::Refused(_refused) => {}
        }
    }
}

/// Whether the machine can be called.
pub(crate) fn is_ready(stage: &Stage) -> bool
    ensures { result ≡ stages.is_ready stage.now }
{
    match stage {
        Stage::Ready(_) => true,
        Stage::Uncaught(_) => false,
        Stage::Fault(_, _) => false,
        Stage::Refused(_) => false,
    }
}

/// The answer of a call that leaves the machine so.
pub(crate) fn answer(stage: &Stage) -> Result<Outcome, RunRefused>
    ensures { result ≡ answer_of stage.now }
{
    match stage {
        Stage::Ready(_) => Ok(Outcome::Returned),
        Stage::Uncaught(_) => Ok(Outcome::Uncaught),
        Stage::Fault(code, span) => Ok(Outcome::Fault(*code, *span)),
        Stage::Refused(refused) => Err(*refused),
    }
}
