//! Parameters that are omitted, which are the widths of arguments.
ghost use Rattle.std.specs.Prelude.{◌≡◌, map, option_map, option_and_then, slice_get};
ghost use Rattle.asl_rules.specs.runs.Evaluation.{width_of_bits as width_rule};
ghost use Rattle.asl_rules.specs.private.TypedMeaning as rules;
ghost use Rattle.asl_value.specs.private.Answers.{Is};
ghost use Rattle.asl_value.specs.View.{value_of};

use asl_syn::token::Span;
use asl_value::{Failure, Value};
use std::alloc::Global;

/// The width of bits, as a value.
pub fn width_of_bits(value: &Value) -> Option<Value>
    ensures { option_map value_of result ≡ width_rule (value_of value.now) }
{
    match value {
        Value::Bits(bits, _) => Some(Value::Int(bits.width() as i128)),
        _ => None,
    }
}

/// The width of the argument in a place, where there is one and it is bits.
#[tactic(auto, using(crate::proofs::OmittedWidths::argument_there, crate::proofs::OmittedWidths::argument_none))]
fn width_at(args: &[Value], place: usize) -> Option<Value>
    ensures { option_map value_of result ≡ option_and_then width_rule (slice_get (map value_of args.now) place) }
{
    if place >= args.len() {
        return None;
    }
    width_of_bits(&args[place])
}

/// The widths of the arguments in some places, from 0, as values.
#[tactic(auto, using(crate::proofs::OmittedWidths::widths_begin, crate::proofs::OmittedWidths::width_more, crate::proofs::OmittedWidths::width_none, crate::proofs::OmittedWidths::widths_end))]
pub fn widths_of(
    alloc: Global,
    span: Span,
    places: &[usize],
    args: &[Value],
) -> Result<Vec<Value>, Failure>
    ensures { Is (λ ys. map value_of ys.items) result
        (rules.widths_of span places.now (map value_of args.now)) }
{
    let mut widths = Vec::new(alloc);
    for place in places {
        match width_at(args, *place) {
            Some(width) => widths.push(width)?,
            None => return Err(Failure::WrongKind(span)),
        }
    }
    Ok(widths)
}

/// The parameters of a call: those that are given, or where none are, the widths of the arguments in some places, from 0.
#[tactic(auto, using(crate::proofs::OmittedWidths::params_omitted, crate::proofs::OmittedWidths::params_given))]
pub fn params_of(
    alloc: Global,
    span: Span,
    places: &[usize],
    params: Vec<Value>,
    args: &[Value],
) -> Result<Vec<Value>, Failure>
    ensures { Is (λ ys. map value_of ys.items) result
        (rules.params_of span places.now (map value_of params.items) (map value_of args.now)) }
{
    if params.is_empty() {
        widths_of(alloc, span, places, args)
    } else {
        Ok(params)
    }
}
