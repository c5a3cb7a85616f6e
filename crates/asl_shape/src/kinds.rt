//! The kinds of values, and whether a kind is that of a type.
ghost use Rattle.std.specs.Prelude.{◌≡◌, IfOk};
ghost use Rattle.asl_rules.specs.types.Types as types;
ghost use Rattle.asl_rules.specs.values.Values as rules;
ghost use Rattle.asl_types.specs.View.{parts_of};
ghost use Rattle.asl_value.specs.View.{kind_of as view_of_kind, all_kinds, value_of, all_values};

use asl_shared::Shared;
use asl_types::{Form, Ty};
use asl_value::{Kind, Value, same_name};
use sqlite_items::Items;
use std::alloc::{AllocError, Global};

/// The kind of a value.
#[cycle(kind_of)]
pub fn kind_of(alloc: Global, x: &Value) -> Result<Kind, AllocError>
    ensures { IfOk result (λ k. view_of_kind k ≡ rules.kind_of (value_of x.now)) }
{
    match x {
        Value::Int(_) => Ok(Kind::Integers),
        Value::Bool(_) => Ok(Kind::Booleans),
        Value::Bits(_, _) => Ok(Kind::Bitvectors),
        Value::Label(name, _) => Ok(Kind::Enumerations(name.share()?)),
        Value::Record(name, _) => Ok(Kind::Records(name.share()?)),
        Value::Exception(_, _, name, _) => Ok(Kind::Exceptions(name.share()?)),
        Value::Tuple(parts) => {
            let kinds = kinds_of(alloc, parts.get().as_slice())?;
            Ok(Kind::Tuples(Shared::new(alloc, kinds)?))
        }
        Value::Array(kind, elements) => {
            Ok(Kind::Arrays(count(elements.get().as_slice()), kind.share()?))
        }
    }
}

/// How many values there are.
#[tactic(auto, using(crate::proofs::ValueKinds::count_is))]
pub(crate) fn count(values: &[Value]) -> u128
    ensures { result ≡ rules.count (all_values values.now) }
{
    values.len() as u128
}

/// The kinds of the parts of a tuple, in order.
#[cycle(kind_of)]
#[tactic(auto, using(crate::proofs::ValueKinds::kind_more, crate::proofs::ValueKinds::kinds_end))]
fn kinds_of(alloc: Global, parts: &[Value]) -> Result<Items<Kind>, AllocError>
    ensures { IfOk result (λ ks. all_kinds ks ≡ rules.kinds_of (all_values parts.now)) }
{
    let mut kinds = Items::new(alloc);
    for part in parts {
        kinds.push(kind_of(alloc, part)?)?;
    }
    Ok(kinds)
}

/// Whether a kind is that of a type.
#[cycle(kind_is)]
pub(crate) fn kind_is(ty: &Ty, kind: &Kind) -> bool
    ensures { result ≡ types.kind_eq (view_of_kind kind.now) (types.kind ty.now) }
{
    match ty.form() {
        Form::Integer(_) => matches!(kind, Kind::Integers),
        Form::Boolean => matches!(kind, Kind::Booleans),
        Form::Bits(_, _) => matches!(kind, Kind::Bitvectors),
        Form::Enumeration(name, _) => match kind {
            Kind::Enumerations(other) => {
                same_name(other.get().as_slice(), name.get().as_slice())
            }
            _ => false,
        },
        Form::Record(name, _) => match kind {
            Kind::Records(other) => same_name(other.get().as_slice(), name.get().as_slice()),
            _ => false,
        },
        Form::Exception(name, _) => match kind {
            Kind::Exceptions(other) => same_name(other.get().as_slice(), name.get().as_slice()),
            _ => false,
        },
        Form::Tuple(parts) => match kind {
            Kind::Tuples(kinds) => kinds_are(parts.get().as_slice(), kinds.get().as_slice()),
            _ => false,
        },
        Form::Array(length, element) => match kind {
            Kind::Arrays(other, inner) => {
                *other == u128::from(*length) && kind_is(element.get(), inner.get())
            }
            _ => false,
        },
        Form::Named(_, _, inner) => kind_is(inner.get(), kind),
    }
}

/// Whether there are as many kinds as parts, each that of the part.
#[cycle(kind_is)]
#[tactic(auto, using(crate::proofs::ValueKinds::kinds_fewer, crate::proofs::ValueKinds::kinds_here, crate::proofs::ValueKinds::kinds_apart, crate::proofs::ValueKinds::kinds_left))]
fn kinds_are(parts: &[Ty], kinds: &[Kind]) -> bool
    ensures { result ≡ types.kinds_eq (all_kinds kinds.now) (types.kinds (parts_of parts.now)) }
{
    let mut rest = kinds;
    for part in parts {
        match rest.split_first() {
            None => return false,
            Some((kind, more)) => {
                if !kind_is(part, kind) {
                    return false;
                }
                rest = more;
            }
        }
    }
    rest.is_empty()
}
