//! What is done with the values of operands.
ghost use Rattle.std.specs.Prelude.{◌≡◌, map};
ghost use Rattle.asl_value.specs.View.{value_of};
ghost use Rattle.asl_branches.specs.Meets.{Is};
ghost use Rattle.asl_run.specs.private.Operations.{one_given, many_given, more_given};

use asl_branches::stop::Stop;
use asl_converts::converted;
use asl_shape::{FieldGiven, PatternShape, TypeShape, construct, matched_in};
use asl_syn::token::Span;
use asl_syn::tree::UnaryOperator;
use asl_value::{
    BitField, Shell, SliceShape, Value, bitfield, bitfields, field_in, slices_of, tuple, unary,
};
use sqlite_items::Items;
use std::alloc::Global;

/// What is done with the value of one operand.
#[derive(Clone, Copy)]
pub enum One<'r> {
    /// `op e`
    Unary(UnaryOperator),
    /// `e.f`: the place of the field, from 0.
    Field(usize),
    /// `e.f`, where `f` is a bitfield.
    Bitfield(&'r BitField),
    /// `e.[f, g]`
    Bitfields(&'r [BitField]),
}

/// What is done with the values of operands in order.
#[derive(Clone, Copy)]
pub enum Many<'r> {
    /// `(e, e)`
    Tuple,
    /// `Name{f = e, ..}`
    Construct(&'r Shell, &'r [FieldGiven]),
}

/// What is done with the value of one operand and with those of others behind it.
#[derive(Clone, Copy)]
pub enum More<'r> {
    /// `e[..]`
    Slices(&'r [SliceShape]),
    /// `e as T`
    As(&'r TypeShape),
    /// `e IN p`
    In(&'r PatternShape),
}

/// What an operation with one operand gives.
pub fn one_value(alloc: Global, span: Span, one: One, x: &Value) -> Result<Value, Stop>
    ensures { Is value_of result (one_given span one.entry (value_of x.now)) }
{
    match one {
        One::Unary(operator) => Ok(unary(alloc, span, operator, x)?),
        One::Field(place) => Ok(field_in(span, place, x)?),
        One::Bitfield(field) => Ok(bitfield(alloc, span, field, x)?),
        One::Bitfields(fields) => Ok(bitfields(alloc, span, fields, x)?),
    }
}

/// What an operation with several operands gives.
pub fn many_value(alloc: Global, span: Span, many: Many, xs: Items<Value>) -> Result<Value, Stop>
    ensures { Is value_of result (many_given span many.entry (map value_of xs)) }
{
    match many {
        Many::Tuple => Ok(tuple(alloc, xs)?),
        Many::Construct(shell, fields) => {
            Ok(construct(alloc, span, shell, fields, xs.as_slice())?)
        }
    }
}

/// What an operation gives with one operand and others behind it.
pub fn more_value(
    alloc: Global,
    span: Span,
    more: More,
    x: &Value,
    zs: &[Value],
) -> Result<Value, Stop>
    ensures { Is value_of result (more_given span more.entry (value_of x.now) (map value_of zs.now)) }
{
    match more {
        More::Slices(shapes) => Ok(slices_of(alloc, span, shapes, zs, x)?),
        More::As(shape) => Ok(converted(alloc, span, shape, zs, x)?),
        More::In(shape) => Ok(matched_in(alloc, shape, zs, x)?),
    }
}
