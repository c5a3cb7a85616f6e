//! The values that are given, by what they are.
ghost use Rattle.std.specs.Prelude.{◌≡◌, map, option_map};
ghost use Rattle.asl_value.specs.View.{value_of};
ghost use Rattle.asl_shape.specs.private.Arguments as given;

use asl_value::Value;
use asl_vector::Vector;

/// The integer that a value is.
pub(crate) fn integer_in(value: &Value) -> Option<i128>
    ensures { result ≡ given.integer_in (value_of value.now) }
{
    match value {
        Value::Int(z) => Some(*z),
        _ => None,
    }
}

/// The bits that a value is.
fn bits_in(value: &Value) -> Option<&Vector>
    ensures { option_map (λ b. b.now) result ≡ given.bits_in (value_of value.now) }
{
    match value {
        Value::Bits(bits, _) => Some(bits),
        _ => None,
    }
}

/// Bits alone.
#[tactic(auto, using(crate::proofs::Given::not_one_bits, crate::proofs::Given::one_bits_is))]
pub(crate) fn one_bits(values: &[Value]) -> Option<&Vector>
    ensures { option_map (λ b. b.now) result ≡ given.one_bits (map value_of values.now) }
{
    if values.len() != 1 {
        return None;
    }
    bits_in(&values[0])
}

/// An integer alone.
#[tactic(auto, using(crate::proofs::Given::not_one_integer, crate::proofs::Given::one_integer_is))]
pub(crate) fn one_integer(values: &[Value]) -> Option<i128>
    ensures { result ≡ given.one_integer (map value_of values.now) }
{
    if values.len() != 1 {
        return None;
    }
    integer_in(&values[0])
}

/// Both, where both are there.
fn both(a: Option<i128>, b: Option<i128>) -> Option<(i128, i128)>
    ensures { result ≡ given.both a b }
{
    match a {
        None => None,
        Some(x) => match b {
            None => None,
            Some(y) => Some((x, y)),
        },
    }
}

/// Two integers alone.
#[tactic(auto, using(crate::proofs::Given::not_two_integers, crate::proofs::Given::two_integers_are))]
pub(crate) fn two_integers(values: &[Value]) -> Option<(i128, i128)>
    ensures { result ≡ given.two_integers (map value_of values.now) }
{
    if values.len() != 2 {
        return None;
    }
    both(integer_in(&values[0]), integer_in(&values[1]))
}

/// Bits alone, and nothing beside them.
#[tactic(auto, using(crate::proofs::Given::beside_none, crate::proofs::Given::beside_some))]
pub(crate) fn bits_alone<'v>(beside: &[Value], values: &'v [Value]) -> Option<&'v Vector>
    ensures { option_map (λ b. b.now) result ≡ given.beside_nothing (map value_of beside.now) (given.one_bits (map value_of values.now)) }
{
    if beside.is_empty() {
        one_bits(values)
    } else {
        None
    }
}

/// An integer alone, and nothing beside it.
#[tactic(auto, using(crate::proofs::Given::beside_none, crate::proofs::Given::beside_some))]
pub(crate) fn integer_alone(beside: &[Value], values: &[Value]) -> Option<i128>
    ensures { result ≡ given.beside_nothing (map value_of beside.now) (given.one_integer (map value_of values.now)) }
{
    if beside.is_empty() {
        one_integer(values)
    } else {
        None
    }
}

/// Two integers alone, and nothing beside them.
#[tactic(auto, using(crate::proofs::Given::beside_none, crate::proofs::Given::beside_some))]
pub(crate) fn two_alone(beside: &[Value], values: &[Value]) -> Option<(i128, i128)>
    ensures { result ≡ given.beside_nothing (map value_of beside.now) (given.two_integers (map value_of values.now)) }
{
    if beside.is_empty() {
        two_integers(values)
    } else {
        None
    }
}
