//! Written types that are all one type, as far as their texts say it: one declared name, or integers in no constraint.

ghost use Rattle.std.specs.Prelude.{◌≡◌, option_map};
ghost use Rattle.asl_written.specs.private.OneType as one;

use asl_syn::tree::TypeExpr;
use asl_value::same_name;

/// The declared name that is written.
fn name_in(ty: &TypeExpr) -> Option<&[u8]>
    ensures { option_map (λ name. name.now) result ≡ one.name_in ty.now }
{
    match ty {
        TypeExpr::IntegerType(_, _) => None,
        TypeExpr::BooleanType(_) => None,
        TypeExpr::BitType(_) => None,
        TypeExpr::NamedType(_, name) => Some(name.as_slice()),
        TypeExpr::BitsType(_, _, _) => None,
        TypeExpr::TupleType(_, _) => None,
        TypeExpr::ArrayType(_, _, _) => None,
    }
}

/// Whether the type is integers in no constraint.
fn is_whole(ty: &TypeExpr) -> bool
    ensures { result ≡ one.is_whole ty.now }
{
    match ty {
        TypeExpr::IntegerType(_, parts) => parts.as_slice().is_empty(),
        TypeExpr::BooleanType(_) => false,
        TypeExpr::BitType(_) => false,
        TypeExpr::NamedType(_, _) => false,
        TypeExpr::BitsType(_, _, _) => false,
        TypeExpr::TupleType(_, _) => false,
        TypeExpr::ArrayType(_, _, _) => false,
    }
}

/// Whether both are one declared name.
fn are_same_names(first: Option<&[u8]>, other: Option<&[u8]>) -> bool
    ensures { result ≡ one.same_names (option_map (λ name. name.now) first.entry) (option_map (λ name. name.now) other.entry) }
{
    match first {
        None => false,
        Some(name) => match other {
            None => false,
            Some(further) => same_name(name, further),
        },
    }
}

/// Whether both are one declared name, or integers in no constraint.
fn is_like(first: &TypeExpr, other: &TypeExpr) -> bool
    ensures { result ≡ one.is_like first.now other.now }
{
    are_same_names(name_in(first), name_in(other)) || (is_whole(first) && is_whole(other))
}

/// Whether all of these are like the first.
fn are_like(first: &TypeExpr, others: &[TypeExpr]) -> bool
    ensures { result ≡ one.are_like first.now others.now }
{
    for other in others {
        if !is_like(first, other) {
            return false;
        }
    }
    true
}

/// Whether the types are all one type, as far as their texts say it.
pub(crate) fn is_one_type(types: &[TypeExpr]) -> bool
    ensures { result ≡ one.is_one_type types.now }
{
    match types.split_first() {
        None => true,
        Some((first, rest)) => are_like(first, rest),
    }
}
