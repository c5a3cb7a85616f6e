//! Values that are converted to written types.
ghost use Rattle.std.specs.Prelude.{Some, map};
ghost use Rattle.asl_bits.specs.declared.TheConstants.{WIDTH_LIMIT};
ghost use Rattle.asl_rules.specs.types.Written as rules;
ghost use Rattle.asl_value.specs.private.Answers.{Is};
ghost use Rattle.asl_value.specs.View.{value_of};
ghost use Rattle.asl_shape.specs.private.Filled.{closed_of};
ghost use Rattle.asl_shape.specs.private.FilledView.{filled_of};
ghost use Rattle.asl_shape.specs.View.{type_of};

use asl_shape::TypeShape;
use asl_shape::filled::{Filled, filled_has, filled_kind, filled_view};
use asl_shape::filling::filling;
use asl_shape::kinds::kind_of;
use asl_syn::code::DynCode;
use asl_syn::token::Span;
use asl_value::{Failure, Value, equal_kinds};
use std::alloc::Global;

/// `as`: a value of the kind of a written type, which has to lie in it (D07), with the bitfields that are written there. The
/// values of the expressions in the type are given in order.
#[tactic(auto, using(crate::proofs::Converts::converted_is, crate::proofs::Converts::no_type))]
pub fn converted(
    alloc: Global,
    span: Span,
    shape: &TypeShape,
    values: &[Value],
    x: &Value,
) -> Result<Value, Failure>
    ensures { Is value_of result
        (rules.converted WIDTH_LIMIT span (Some (type_of shape.now)) (map value_of values.now) (value_of x.now)) }
{
    match filling(alloc, shape, values, 0)? {
        None => Err(Failure::UnknownType(span)),
        Some(filled) => of_kind_of(alloc, span, &filled.ty, x),
    }
}

/// A value of the kind of a type, which has to lie in it.
fn of_kind_of(alloc: Global, span: Span, ty: &Filled, x: &Value) -> Result<Value, Failure>
    ensures { Is value_of result (rules.of_kind_of span (closed_of (filled_of ty.now)) (value_of x.now)) }
{
    let own = kind_of(alloc, x)?;
    let wanted = filled_kind(alloc, ty)?;
    if equal_kinds(&own, &wanted) {
        in_type(alloc, span, ty, x)
    } else {
        Err(Failure::WrongKind(span))
    }
}

/// A value that has to lie in a type, with the bitfields that are written there: D07 where it doesn't.
fn in_type(alloc: Global, span: Span, ty: &Filled, x: &Value) -> Result<Value, Failure>
    ensures { Is value_of result (rules.in_type span (closed_of (filled_of ty.now)) (value_of x.now)) }
{
    if filled_has(alloc, ty, x)? {
        Ok(filled_view(alloc, ty, x)?)
    } else {
        Err(Failure::Fault(DynCode::D07, span))
    }
}
