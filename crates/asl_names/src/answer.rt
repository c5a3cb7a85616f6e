//! Faults as answers.

ghost use Rattle.std.specs.Prelude.{◌≡◌, Err};
ghost use Rattle.asl_rules.specs.Faults.{fault_of};

use asl_syn::code::{Fault, Refused, StaticCode};
use asl_syn::token::Span;

/// The fault of this code at this place.
pub(crate) fn fault<T>(code: StaticCode, span: Span) -> Result<T, Refused>
    ensures { result ≡ Err (Refused.At (fault_of code span)) }
{
    Err(Refused::At(Fault {
        code,
        inner: None,
        span,
    }))
}
