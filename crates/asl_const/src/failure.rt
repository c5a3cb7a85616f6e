//! Why an expression has no value before any run.

use asl_syn::code::DynCode;
use asl_syn::token::Span;
use asl_value::Failure;
use std::alloc::{AllocError, AllocFailed};

/// Why the rules give an expression no value. No expression that has a type meets one but a name without a value, or a call.
#[derive(Clone, Copy)]
pub(crate) enum Mistake {
    /// A name without a value, or no type.
    UnknownName,
    /// A value of another kind than is asked for.
    WrongKind,
    /// A written type that is none.
    UnknownType,
    /// A call.
    CallBarred,
}

/// Why an evaluation ends without a value.
#[derive(Clone, Copy)]
pub(crate) enum Unknown {
    /// Memory was wanting.
    NoMemory,
    /// A fault of the rules, at its place.
    Fault(DynCode, Span),
    /// The rules give no value here.
    Stuck(Mistake, Span),
}

impl From<AllocError> for Unknown {
    ghost use Rattle.std.specs.Prelude.{◌≡◌};
    ghost use Rattle.asl_const.specs.declared.failure.Unknown.TheVariants.{NoMemory};

    ghost from_gives = { λ _ e. e ≡ NoMemory };

    fn from(_error: AllocError) -> Unknown {
        Unknown::NoMemory
    }
}

impl<T: Drop> From<AllocFailed<T>> for Unknown {
    ghost use Rattle.std.specs.Prelude.{◌≡◌};
    ghost use Rattle.asl_const.specs.declared.failure.Unknown.TheVariants.{NoMemory};

    ghost from_gives = { λ _ e. e ≡ NoMemory };

    fn from(_error: AllocFailed<T>) -> Unknown {
        Unknown::NoMemory
    }
}

impl From<Failure> for Unknown {
    ghost use Rattle.std.specs.Prelude.{◌≡◌};
    ghost use Rattle.asl_const.specs.private.Unknowns.{unknown_of};

    ghost from_gives = { λ failure e. e ≡ unknown_of failure };

    fn from(failure: Failure) -> Unknown {
        match failure {
            Failure::Fault(code, span) => Unknown::Fault(code, span),
            Failure::WrongKind(span) => Unknown::Stuck(Mistake::WrongKind, span),
            Failure::UnknownType(span) => Unknown::Stuck(Mistake::UnknownType, span),
            Failure::NoMemory => Unknown::NoMemory,
        }
    }
}
