//! The values that variables of written types begin with.
ghost use Rattle.std.specs.Prelude.{map};
ghost use Rattle.asl_bits.specs.declared.TheConstants.{WIDTH_LIMIT};
ghost use Rattle.asl_value.specs.private.Answers.{Is};
ghost use Rattle.asl_value.specs.View.{value_of};
ghost use Rattle.asl_shape.specs.private.First.{first_written};
ghost use Rattle.asl_shape.specs.View.{type_of};

use crate::filled::filled_first;
use crate::filling::filling;
use crate::shapes::TypeShape;
use asl_syn::token::Span;
use asl_value::{Failure, Value};
use std::alloc::Global;

/// The value that a variable of a written type begins with, with the values of the expressions in the type, in order. `whole`
/// is where the type is written, the place of D16.
#[tactic(auto, using(crate::proofs::WrittenFirsts::first_is, crate::proofs::WrittenFirsts::no_first))]
pub fn first_of(
    alloc: Global,
    span: Span,
    whole: Span,
    shape: &TypeShape,
    values: &[Value],
) -> Result<Value, Failure>
    ensures { Is value_of result
        (first_written WIDTH_LIMIT span whole (type_of shape.now) (map value_of values.now)) }
{
    match filling(alloc, shape, values, 0)? {
        None => Err(Failure::UnknownType(span)),
        Some(filled) => filled_first(alloc, whole, &filled.ty),
    }
}
