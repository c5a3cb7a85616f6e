//! Whether values of two types can be compared for equality.

ghost use Rattle.std.specs.Prelude.{◌≡◌, true, false, MatchOption};
ghost use Rattle.asl_rules.specs.expressions.Operations as rules;
ghost use Rattle.asl_rules.specs.Tests.{Tests, IsRight};
ghost use Rattle.asl_rules.specs.types.Types as types;
ghost use Rattle.asl_types.specs.private.Answers.{Met};

use asl_poly::Poly;
use asl_syn::code::{Refused, StaticCode};
use asl_syn::token::Span;
use asl_types::answer::fault;
use asl_types::kinds::same_kind;
use asl_types::tests::same_width;
use asl_types::{Form, Ty};

/// The width of bits, where the type is bits.
pub fn bits_width(ty: &Ty) -> Option<&Poly>
    ensures { MatchOption result (types.is_bits ty.now ≡ false) (λ w. (types.is_bits ty.now ≡ true) × (w.now ≡ types.width_of ty.now)) }
{
    match ty.form() {
        Form::Integer(_) => None,
        Form::Boolean => None,
        Form::Bits(width, _) => Some(width.get()),
        Form::Enumeration(_, _) => None,
        Form::Record(_, _) => None,
        Form::Exception(_, _) => None,
        Form::Tuple(_) => None,
        Form::Array(_, _) => None,
        Form::Named(_, _, inner) => bits_width(inner.get()),
    }
}

/// Whether two types have the same width, where both are bits.
pub(crate) fn same_widths(ty: &Ty, other: &Ty) -> bool
    ensures { (t : Tests) → IsRight t → result ≡ rules.same_widths t ty.now other.now }
{
    match bits_width(ty) {
        None => true,
        Some(p) => match bits_width(other) {
            None => true,
            Some(q) => same_width(p, q),
        },
    }
}

/// Whether the type is no record, exception, tuple or array.
pub(crate) fn is_comparable(ty: &Ty) -> bool
    ensures { result ≡ rules.is_comparable ty.now }
{
    match ty.form() {
        Form::Integer(_) => true,
        Form::Boolean => true,
        Form::Bits(_, _) => true,
        Form::Enumeration(_, _) => true,
        Form::Record(_, _) => false,
        Form::Exception(_, _) => false,
        Form::Tuple(_) => false,
        Form::Array(_, _) => false,
        Form::Named(_, _, inner) => is_comparable(inner.get()),
    }
}

/// Values of the types can be compared: they are of one kind, else this code, and bits have one width, else T06.
pub fn comparable(code: StaticCode, span: Span, ty: &Ty, other: &Ty) -> Result<(), Refused>
    ensures { (t : Tests) → IsRight t → Met (λ u. u) result (rules.comparable t code span ty.now other.now) }
{
    if !(same_kind(ty, other) && is_comparable(ty)) {
        return fault(code, span);
    }
    if !same_widths(ty, other) {
        return fault(StaticCode::T06, span);
    }
    Ok(())
}
