//! The expressions inside slices, fields, patterns and written types, in source order. They are gathered before any is
//! evaluated, so that an evaluation calls itself for expressions alone.
ghost use Rattle.std.specs.Prelude.{◌≡◌, ◌≤◌, [], ◌∷◌, ◌++◌, map, max, IfOk};
ghost use Rattle.asl_bits.specs.declared.TheConstants.{WIDTH_LIMIT};
ghost use Rattle.asl_rules.specs.declarations.Constants.{constant};
ghost use Rattle.asl_rules.specs.types.Shaped.{exprs_in, itself};
ghost use Rattle.asl_const.specs.private.Finds.{known_bitfield, known_given, known_part, known_pattern, known_slice, known_type};
ghost use Rattle.asl_const.specs.private.Gathered.{constants, deepest};
ghost use Rattle.asl_syn.specs.declared.tree.Bitfield.{size-Bitfield};
ghost use Rattle.asl_syn.specs.declared.tree.ConstraintPart.{size-ConstraintPart};
ghost use Rattle.asl_syn.specs.declared.tree.Expr.{size-Expr};
ghost use Rattle.asl_syn.specs.declared.tree.FieldValue.{size-FieldValue};
ghost use Rattle.asl_syn.specs.declared.tree.Pattern.{size-Pattern};
ghost use Rattle.asl_syn.specs.declared.tree.Slice.{size-Slice};
ghost use Rattle.asl_syn.specs.declared.tree.TypeExpr.{size-TypeExpr};
ghost use denote.Param.Weighed.{most};

use asl_syn::tree::{Bitfield, ConstraintPart, Expr, FieldValue, Pattern, Slice, TypeExpr};
use sqlite_items::Items;
use std::alloc::{AllocError, Global};

// ---- for callers: each gathers from the beginning

/// The expressions of a list.
pub(crate) fn of_list(alloc: Global, es: &[Expr]) -> Result<Items<&Expr>, AllocError>
    ensures values { IfOk result (λ all. constants all ≡ map (constant WIDTH_LIMIT) es.now) }
    ensures depth { IfOk result (λ all. deepest all ≤ most size-Expr es.now) }
{
    let mut all = Items::new(alloc);
    for e in es {
        all.push(e)?;
    }
    Ok(all)
}

/// Those of fields that are given.
pub(crate) fn of_fields(alloc: Global, fields: &[FieldValue]) -> Result<Items<&Expr>, AllocError>
    ensures values { IfOk result (λ es. constants es ≡ exprs_in itself (map known_given fields.now)) }
    ensures depth { IfOk result (λ es. deepest es ≤ most size-FieldValue fields.now) }
{
    let mut all = Items::new(alloc);
    for field in fields {
        let FieldValue::Given(_, e) = field;
        all.push(e)?;
    }
    Ok(all)
}

/// Those of slices.
pub(crate) fn of_slices(alloc: Global, slices: &[Slice]) -> Result<Items<&Expr>, AllocError>
    ensures values { IfOk result (λ es. constants es ≡ exprs_in itself (map known_slice slices.now)) }
    ensures depth { IfOk result (λ es. deepest es ≤ most size-Slice slices.now) }
{
    let mut all = Items::new(alloc);
    for slice in slices {
        all = with_slice(all, slice)?;
    }
    Ok(all)
}

/// Those of a pattern.
pub(crate) fn of_pattern(alloc: Global, pattern: &Pattern) -> Result<Items<&Expr>, AllocError>
    ensures values { IfOk result (λ es. constants es ≡ (known_pattern pattern.now).exprs) }
    ensures depth { IfOk result (λ es. deepest es ≤ size-Pattern pattern.now) }
{
    with_pattern(Items::new(alloc), pattern)
}

/// Those of a written type.
pub(crate) fn of_type(alloc: Global, ty: &TypeExpr) -> Result<Items<&Expr>, AllocError>
    ensures values { IfOk result (λ es. constants es ≡ (known_type ty.now).exprs) }
    ensures depth { IfOk result (λ es. deepest es ≤ size-TypeExpr ty.now) }
{
    with_type(Items::new(alloc), ty)
}

// ---- each gathers behind those that it is given

/// An expression.
fn with_one<'e>(into: Items<&'e Expr>, e: &'e Expr) -> Result<Items<&'e Expr>, AllocError>
    ensures values { IfOk result (λ all. constants all ≡ constants into.entry ++ constant WIDTH_LIMIT e.now ∷ []) }
    ensures depth { IfOk result (λ all. deepest all ≤ max (deepest into.entry) (size-Expr e.now)) }
{
    let mut all = into;
    all.push(e)?;
    Ok(all)
}

/// Two expressions.
fn with_two<'e>(
    into: Items<&'e Expr>,
    a: &'e Expr,
    b: &'e Expr,
) -> Result<Items<&'e Expr>, AllocError>
    ensures values { IfOk result (λ all. constants all ≡ constants into.entry ++ constant WIDTH_LIMIT a.now ∷ constant WIDTH_LIMIT b.now ∷ []) }
    ensures depth { IfOk result (λ all. deepest all ≤ max (deepest into.entry) (max (size-Expr a.now) (size-Expr b.now))) }
{
    with_one(with_one(into, a)?, b)
}

/// The expressions of a slice.
fn with_slice<'e>(into: Items<&'e Expr>, slice: &'e Slice) -> Result<Items<&'e Expr>, AllocError>
    ensures values { IfOk result (λ all. constants all ≡ constants into.entry ++ (known_slice slice.now).exprs) }
    ensures depth { IfOk result (λ all. deepest all ≤ max (deepest into.entry) (size-Slice slice.now)) }
{
    match slice {
        Slice::BitAt(i) => with_one(into, i),
        Slice::HighLow(a, b) | Slice::LowWidth(a, b) | Slice::FactorWidth(a, b) => {
            with_two(into, a, b)
        }
    }
}

/// The expressions of a pattern.
#[cycle(inside_patterns)]
fn with_pattern<'e>(
    into: Items<&'e Expr>,
    pattern: &'e Pattern,
) -> Result<Items<&'e Expr>, AllocError>
    ensures values { IfOk result (λ all. constants all ≡ constants into.entry ++ (known_pattern pattern.now).exprs) }
    ensures depth { IfOk result (λ all. deepest all ≤ max (deepest into.entry) (size-Pattern pattern.now)) }
{
    match pattern {
        Pattern::AnyPattern(_) | Pattern::MaskPattern(_, _) => Ok(into),
        Pattern::AtMost(_, e) | Pattern::AtLeast(_, e) | Pattern::ValuePattern(_, e) => {
            with_one(into, e)
        }
        Pattern::RangePattern(_, low, high) => with_two(into, low, high),
        Pattern::SetPattern(_, _, patterns) | Pattern::TuplePattern(_, patterns) => {
            with_patterns(into, patterns.as_slice())
        }
    }
}

/// The expressions of patterns.
#[cycle(inside_patterns)]
fn with_patterns<'e>(
    into: Items<&'e Expr>,
    patterns: &'e [Pattern],
) -> Result<Items<&'e Expr>, AllocError>
    ensures values { IfOk result (λ all. constants all ≡ constants into.entry ++ exprs_in itself (map known_pattern patterns.now)) }
    ensures depth { IfOk result (λ all. deepest all ≤ max (deepest into.entry) (most size-Pattern patterns.now)) }
{
    let mut all = into;
    for pattern in patterns {
        all = with_pattern(all, pattern)?;
    }
    Ok(all)
}

/// The expressions of a part of a constraint.
fn with_part<'e>(
    into: Items<&'e Expr>,
    part: &'e ConstraintPart,
) -> Result<Items<&'e Expr>, AllocError>
    ensures values { IfOk result (λ all. constants all ≡ constants into.entry ++ (known_part part.now).exprs) }
    ensures depth { IfOk result (λ all. deepest all ≤ max (deepest into.entry) (size-ConstraintPart part.now)) }
{
    match part {
        ConstraintPart::Only(e) => with_one(into, e),
        ConstraintPart::FromTo(low, high) => with_two(into, low, high),
    }
}

/// The expressions of a constraint.
fn with_parts<'e>(
    into: Items<&'e Expr>,
    parts: &'e [ConstraintPart],
) -> Result<Items<&'e Expr>, AllocError>
    ensures values { IfOk result (λ all. constants all ≡ constants into.entry ++ exprs_in itself (map known_part parts.now)) }
    ensures depth { IfOk result (λ all. deepest all ≤ max (deepest into.entry) (most size-ConstraintPart parts.now)) }
{
    let mut all = into;
    for part in parts {
        all = with_part(all, part)?;
    }
    Ok(all)
}

/// The expressions of a bitfield.
fn with_bitfield<'e>(
    into: Items<&'e Expr>,
    field: &'e Bitfield,
) -> Result<Items<&'e Expr>, AllocError>
    ensures values { IfOk result (λ all. constants all ≡ constants into.entry ++ (known_bitfield field.now).exprs) }
    ensures depth { IfOk result (λ all. deepest all ≤ max (deepest into.entry) (size-Bitfield field.now)) }
{
    match field {
        Bitfield::OneBit(place, _) => with_one(into, place),
        Bitfield::BitRange(high, low, _) => with_two(into, high, low),
    }
}

/// The expressions of bitfields.
fn with_bitfields<'e>(
    into: Items<&'e Expr>,
    fields: &'e [Bitfield],
) -> Result<Items<&'e Expr>, AllocError>
    ensures values { IfOk result (λ all. constants all ≡ constants into.entry ++ exprs_in itself (map known_bitfield fields.now)) }
    ensures depth { IfOk result (λ all. deepest all ≤ max (deepest into.entry) (most size-Bitfield fields.now)) }
{
    let mut all = into;
    for field in fields {
        all = with_bitfield(all, field)?;
    }
    Ok(all)
}

/// The expressions of a written type.
#[cycle(inside_types)]
fn with_type<'e>(into: Items<&'e Expr>, ty: &'e TypeExpr) -> Result<Items<&'e Expr>, AllocError>
    ensures values { IfOk result (λ all. constants all ≡ constants into.entry ++ (known_type ty.now).exprs) }
    ensures depth { IfOk result (λ all. deepest all ≤ max (deepest into.entry) (size-TypeExpr ty.now)) }
{
    match ty {
        TypeExpr::BooleanType(_) | TypeExpr::BitType(_) | TypeExpr::NamedType(_, _) => Ok(into),
        TypeExpr::IntegerType(_, parts) => with_parts(into, parts.as_slice()),
        TypeExpr::BitsType(_, width, fields) => {
            with_bitfields(with_one(into, width.get())?, fields.as_slice())
        }
        TypeExpr::TupleType(_, parts) => with_types(into, parts.as_slice()),
        TypeExpr::ArrayType(_, length, element) => {
            with_type(with_one(into, length.get())?, element.get())
        }
    }
}

/// The expressions of written types.
#[cycle(inside_types)]
fn with_types<'e>(
    into: Items<&'e Expr>,
    types: &'e [TypeExpr],
) -> Result<Items<&'e Expr>, AllocError>
    ensures values { IfOk result (λ all. constants all ≡ constants into.entry ++ exprs_in itself (map known_type types.now)) }
    ensures depth { IfOk result (λ all. deepest all ≤ max (deepest into.entry) (most size-TypeExpr types.now)) }
{
    let mut all = into;
    for ty in types {
        all = with_type(all, ty)?;
    }
    Ok(all)
}
