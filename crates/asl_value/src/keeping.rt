//! What a place keeps of a value: the bitfields of the value that stood there, none, or those of its type; and whether kinds are the same.
ghost use Rattle.std.specs.Prelude.{◌≡◌, ◌==◌, length, IfOk};
ghost use Rattle.asl_rules.specs.types.Types.{kind_eq, kinds_eq};
ghost use Rattle.asl_rules.specs.private.HoldsBits as bits;
ghost use Rattle.asl_rules.specs.values.Values as values;
ghost use Rattle.asl_rules.specs.types.Views as rules;
ghost use Rattle.asl_value.specs.private.Keeping as keeping;
ghost use Rattle.asl_value.specs.View.{kind_of, all_kinds, value_of, all_values};

use crate::names::same_name;
use crate::value::{Kind, Value, copy, share_view};
use asl_shared::Shared;
use asl_vector::Vector;
use sqlite_items::Items;
use std::alloc::{AllocError, Global};

// ---- values without bits

/// Whether there are bits in a value, other than in its fields.
#[cycle(has_bits)]
fn has_bits(value: &Value) -> bool
    ensures { result ≡ bits.has_bits (value_of value.now) }
{
    match value {
        Value::Int(_) => false,
        Value::Bool(_) => false,
        Value::Bits(_, _) => true,
        Value::Label(_, _) => false,
        Value::Record(_, _) => false,
        Value::Exception(_, _, _, _) => false,
        Value::Tuple(parts) => have_bits(parts.get().as_slice()),
        Value::Array(_, elements) => have_bits(elements.get().as_slice()),
    }
}

#[cycle(has_bits)]
#[tactic(auto, using(crate::proofs::Kept::bits_here, crate::proofs::Kept::bits_later, crate::proofs::Kept::bits_none))]
fn have_bits(values: &[Value]) -> bool
    ensures { result ≡ bits.have_bits (all_values values.now) }
{
    for value in values {
        if has_bits(value) {
            return true;
        }
    }
    false
}

// ---- values without bitfields

/// The value without bitfields; bits in fields keep theirs.
#[tactic(auto, using(asl_rules::proofs::values::Bitless::nothing_to_strip))]
pub fn strip(alloc: Global, value: &Value) -> Result<Value, AllocError>
    ensures { IfOk result (λ it. value_of it ≡ rules.stripped (value_of value.now)) }
{
    if has_bits(value) {
        stripped(alloc, value)
    } else {
        copy(value)
    }
}

#[cycle(stripped)]
fn stripped(alloc: Global, value: &Value) -> Result<Value, AllocError>
    ensures { IfOk result (λ it. value_of it ≡ rules.stripped (value_of value.now)) }
{
    match value {
        Value::Bits(bits, _) => Ok(Value::Bits(bits.share()?, None)),
        Value::Tuple(parts) => {
            let made = all_stripped(alloc, parts.get().as_slice())?;
            Ok(Value::Tuple(Shared::new(alloc, made)?))
        }
        Value::Array(kind, elements) => {
            let made = all_stripped(alloc, elements.get().as_slice())?;
            Ok(Value::Array(kind.share()?, Shared::new(alloc, made)?))
        }
        Value::Int(_) => copy(value),
        Value::Bool(_) => copy(value),
        Value::Label(_, _) => copy(value),
        Value::Record(_, _) => copy(value),
        Value::Exception(_, _, _, _) => copy(value),
    }
}

#[cycle(stripped)]
#[tactic(auto, using(crate::proofs::Lists::nothing_made, crate::proofs::Kept::stripped_made, crate::proofs::Kept::all_stripped_made))]
fn all_stripped(alloc: Global, values: &[Value]) -> Result<Items<Value>, AllocError>
    ensures { IfOk result (λ it. all_values it ≡ rules.all_stripped (all_values values.now)) }
{
    let mut made = Items::new(alloc);
    for value in values {
        made.push(stripped(alloc, value)?)?;
    }
    Ok(made)
}

// ---- values with the bitfields of others

/// A value that is stored over another: its bits carry the bitfields of that, part by part.
#[tactic(auto, using(asl_rules::proofs::values::Bitless::nothing_to_adopt))]
pub fn adopt(alloc: Global, old: &Value, value: &Value) -> Result<Value, AllocError>
    ensures { IfOk result (λ it. value_of it ≡ rules.adopted (value_of old.now) (value_of value.now)) }
{
    if has_bits(value) {
        adopted(alloc, old, value)
    } else {
        copy(value)
    }
}

#[cycle(adopted)]
fn adopted(alloc: Global, old: &Value, value: &Value) -> Result<Value, AllocError>
    ensures { IfOk result (λ it. value_of it ≡ rules.adopted (value_of old.now) (value_of value.now)) }
{
    match (old, value) {
        (Value::Bits(_, view), Value::Bits(bits, _)) => {
            Ok(Value::Bits(bits.share()?, share_view(view)?))
        }
        (Value::Tuple(olds), Value::Tuple(parts)) => {
            let made = all_adopted(alloc, olds.get().as_slice(), parts.get().as_slice())?;
            Ok(Value::Tuple(Shared::new(alloc, made)?))
        }
        (Value::Array(_, olds), Value::Array(kind, elements)) => {
            let made = all_adopted(alloc, olds.get().as_slice(), elements.get().as_slice())?;
            Ok(Value::Array(kind.share()?, Shared::new(alloc, made)?))
        }
        // over a value of another kind
        (_, Value::Bits(_, _)) => copy(value),
        (_, Value::Tuple(_)) => copy(value),
        (_, Value::Array(_, _)) => copy(value),
        (_, Value::Int(_)) => copy(value),
        (_, Value::Bool(_)) => copy(value),
        (_, Value::Label(_, _)) => copy(value),
        (_, Value::Record(_, _)) => copy(value),
        (_, Value::Exception(_, _, _, _)) => copy(value),
    }
}

#[cycle(adopted)]
#[tactic(auto, using(crate::proofs::Lists::nothing_made, crate::proofs::Kept::adopted_made, crate::proofs::Kept::all_adopted_made))]
fn all_adopted(alloc: Global, olds: &[Value], values: &[Value]) -> Result<Items<Value>, AllocError>
    ensures { IfOk result
        (λ it. all_values it ≡ rules.all_adopted (all_values olds.now) (all_values values.now)) }
{
    let mut made = Items::new(alloc);
    for (i, value) in values.iter().enumerate() {
        made.push(adopted_at(alloc, olds, i, value)?)?;
    }
    Ok(made)
}

#[cycle(adopted)]
#[tactic(auto, using(crate::proofs::Kept::adopted_there, crate::proofs::Kept::adopted_past))]
fn adopted_at(
    alloc: Global,
    olds: &[Value],
    place: usize,
    value: &Value,
) -> Result<Value, AllocError>
    ensures { IfOk result (λ it. value_of it ≡ keeping.adopted_at place olds.now (value_of value.now)) }
{
    if place < olds.len() {
        adopted(alloc, &olds[place], value)
    } else {
        copy(value)
    }
}

// ---- kinds

/// Whether two kinds are the same.
#[cycle(equal_kinds)]
pub fn equal_kinds(k: &Kind, l: &Kind) -> bool
    ensures { result ≡ kind_eq (kind_of k.now) (kind_of l.now) }
{
    match (k, l) {
        (Kind::Integers, Kind::Integers) => true,
        (Kind::Booleans, Kind::Booleans) => true,
        (Kind::Bitvectors, Kind::Bitvectors) => true,
        (Kind::Enumerations(m), Kind::Enumerations(n)) => {
            same_name(m.get().as_slice(), n.get().as_slice())
        }
        (Kind::Records(m), Kind::Records(n)) => same_name(m.get().as_slice(), n.get().as_slice()),
        (Kind::Exceptions(m), Kind::Exceptions(n)) => {
            same_name(m.get().as_slice(), n.get().as_slice())
        }
        (Kind::Tuples(ks), Kind::Tuples(ls)) => all_equal(ks.get().as_slice(), ls.get().as_slice()),
        (Kind::Arrays(m, k), Kind::Arrays(n, l)) => *m == *n && equal_kinds(k.get(), l.get()),
        (Kind::Integers, _) => false,
        (Kind::Booleans, _) => false,
        (Kind::Bitvectors, _) => false,
        (Kind::Enumerations(_), _) => false,
        (Kind::Records(_), _) => false,
        (Kind::Exceptions(_), _) => false,
        (Kind::Tuples(_), _) => false,
        (Kind::Arrays(_, _), _) => false,
    }
}

#[cycle(equal_kinds)]
#[tactic(auto, using(crate::proofs::Pairs::equal_here, crate::proofs::Pairs::equal_apart, crate::proofs::Pairs::equal_end, crate::proofs::Pairs::equal_longer))]
fn all_equal(ks: &[Kind], ls: &[Kind]) -> bool
    ensures { result ≡ kinds_eq (all_kinds ks.now) (all_kinds ls.now) }
{
    if ks.len() != ls.len() {
        return false;
    }
    for i in 0..ks.len() {
        if !equal_kinds(&ks[i], &ls[i]) {
            return false;
        }
    }
    true
}

/// Whether there are as many bits.
pub(crate) fn one_width(a: &Vector, b: &Vector) -> bool
    ensures { result ≡ (length a.now == length b.now) }
{
    a.width() == b.width()
}
