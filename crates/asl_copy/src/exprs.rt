//! Copies of expressions, written types, slices and patterns.

ghost use Rattle.std.specs.Prelude.{◌≡◌, IfOk};

use crate::names::{copy_ident, copy_idents, copy_text};
use asl_syn::tree::{Bitfield, ConstraintPart, Expr, FieldValue, Pattern, Slice, TypeExpr};
use sqlite_items::{Boxed, Items};
use std::alloc::{AllocError, Global};

#[cycle(copies)]
fn boxed_expr(alloc: Global, inner: &Boxed<Expr>) -> Result<Boxed<Expr>, AllocError>
    ensures { IfOk result (λ copy. copy ≡ inner.now) }
{
    Boxed::new(alloc, copy_expr(alloc, inner.get())?)
}

/// A copy of an expression.
#[cycle(copies)]
pub fn copy_expr(alloc: Global, expr: &Expr) -> Result<Expr, AllocError>
    ensures { IfOk result (λ copy. copy ≡ expr.now) }
{
    match expr {
        Expr::Int(span, value) => Ok(Expr::Int(*span, *value)),
        Expr::Bits(span, text) => Ok(Expr::Bits(*span, copy_text(alloc, text)?)),
        Expr::Bool(span, value) => Ok(Expr::Bool(*span, *value)),
        Expr::Name(span, name) => Ok(Expr::Name(*span, copy_text(alloc, name)?)),
        Expr::Unary(span, operator, operand) => {
            let operand = boxed_expr(alloc, operand)?;
            Ok(Expr::Unary(*span, *operator, operand))
        }
        Expr::Binary(span, operator, left, right) => {
            let left = boxed_expr(alloc, left)?;
            let right = boxed_expr(alloc, right)?;
            Ok(Expr::Binary(*span, *operator, left, right))
        }
        Expr::Conditional(span, condition, yes, no) => {
            let condition = boxed_expr(alloc, condition)?;
            let yes = boxed_expr(alloc, yes)?;
            let no = boxed_expr(alloc, no)?;
            Ok(Expr::Conditional(*span, condition, yes, no))
        }
        Expr::Tuple(span, parts) => Ok(Expr::Tuple(*span, copy_exprs(alloc, parts.as_slice())?)),
        Expr::Construct(span, name, fields) => {
            let name = copy_ident(alloc, name)?;
            let fields = copy_fields(alloc, fields.as_slice())?;
            Ok(Expr::Construct(*span, name, fields))
        }
        Expr::Call(span, name, parameters, arguments) => {
            let name = copy_ident(alloc, name)?;
            let parameters = copy_exprs(alloc, parameters.as_slice())?;
            let arguments = copy_exprs(alloc, arguments.as_slice())?;
            Ok(Expr::Call(*span, name, parameters, arguments))
        }
        Expr::Field(span, of, field) => {
            let of = boxed_expr(alloc, of)?;
            let field = copy_ident(alloc, field)?;
            Ok(Expr::Field(*span, of, field))
        }
        Expr::Fields(span, of, fields) => {
            let of = boxed_expr(alloc, of)?;
            let fields = copy_idents(alloc, fields.as_slice())?;
            Ok(Expr::Fields(*span, of, fields))
        }
        Expr::Slices(span, of, slices) => {
            let of = boxed_expr(alloc, of)?;
            let slices = copy_slices(alloc, slices.as_slice())?;
            Ok(Expr::Slices(*span, of, slices))
        }
        Expr::Element(span, of, index) => {
            let of = boxed_expr(alloc, of)?;
            let index = boxed_expr(alloc, index)?;
            Ok(Expr::Element(*span, of, index))
        }
        Expr::As(span, of, ty) => {
            let of = boxed_expr(alloc, of)?;
            let ty = Boxed::new(alloc, copy_type(alloc, ty.get())?)?;
            Ok(Expr::As(*span, of, ty))
        }
        Expr::In(span, of, pattern) => {
            let of = boxed_expr(alloc, of)?;
            let pattern = Boxed::new(alloc, copy_pattern(alloc, pattern.get())?)?;
            Ok(Expr::In(*span, of, pattern))
        }
    }
}

/// Copies of expressions.
#[cycle(copies)]
pub fn copy_exprs(alloc: Global, items: &[Expr]) -> Result<Items<Expr>, AllocError>
    ensures { IfOk result (λ copies. copies ≡ items.now) }
{
    let mut copies = Items::new(alloc);
    for item in items {
        copies.push(copy_expr(alloc, item)?)?;
    }
    Ok(copies)
}

/// A copy of an expression, where there is one.
pub fn copy_maybe_expr(alloc: Global, item: &Option<Expr>) -> Result<Option<Expr>, AllocError>
    ensures { IfOk result (λ copy. copy ≡ item.now) }
{
    match item {
        None => Ok(None),
        Some(item) => Ok(Some(copy_expr(alloc, item)?)),
    }
}

/// A copy of a field of a construction.
#[cycle(copies)]
fn copy_field(alloc: Global, field: &FieldValue) -> Result<FieldValue, AllocError>
    ensures { IfOk result (λ copy. copy ≡ field.now) }
{
    let FieldValue::Given(name, value) = field;
    let name = copy_ident(alloc, name)?;
    let value = copy_expr(alloc, value)?;
    Ok(FieldValue::Given(name, value))
}

/// Copies of the fields of a construction.
#[cycle(copies)]
fn copy_fields(alloc: Global, items: &[FieldValue]) -> Result<Items<FieldValue>, AllocError>
    ensures { IfOk result (λ copies. copies ≡ items.now) }
{
    let mut copies = Items::new(alloc);
    for item in items {
        copies.push(copy_field(alloc, item)?)?;
    }
    Ok(copies)
}

/// A copy of a slice.
#[cycle(copies)]
fn copy_slice(alloc: Global, slice: &Slice) -> Result<Slice, AllocError>
    ensures { IfOk result (λ copy. copy ≡ slice.now) }
{
    match slice {
        Slice::BitAt(index) => Ok(Slice::BitAt(copy_expr(alloc, index)?)),
        Slice::HighLow(high, low) => {
            let high = copy_expr(alloc, high)?;
            let low = copy_expr(alloc, low)?;
            Ok(Slice::HighLow(high, low))
        }
        Slice::LowWidth(low, width) => {
            let low = copy_expr(alloc, low)?;
            let width = copy_expr(alloc, width)?;
            Ok(Slice::LowWidth(low, width))
        }
        Slice::FactorWidth(factor, width) => {
            let factor = copy_expr(alloc, factor)?;
            let width = copy_expr(alloc, width)?;
            Ok(Slice::FactorWidth(factor, width))
        }
    }
}

/// Copies of slices.
#[cycle(copies)]
pub fn copy_slices(alloc: Global, items: &[Slice]) -> Result<Items<Slice>, AllocError>
    ensures { IfOk result (λ copies. copies ≡ items.now) }
{
    let mut copies = Items::new(alloc);
    for item in items {
        copies.push(copy_slice(alloc, item)?)?;
    }
    Ok(copies)
}

/// A copy of a part of a constraint.
#[cycle(copies)]
fn copy_part(alloc: Global, part: &ConstraintPart) -> Result<ConstraintPart, AllocError>
    ensures { IfOk result (λ copy. copy ≡ part.now) }
{
    match part {
        ConstraintPart::Only(only) => Ok(ConstraintPart::Only(copy_expr(alloc, only)?)),
        ConstraintPart::FromTo(low, high) => {
            let low = copy_expr(alloc, low)?;
            let high = copy_expr(alloc, high)?;
            Ok(ConstraintPart::FromTo(low, high))
        }
    }
}

/// Copies of the parts of a constraint.
#[cycle(copies)]
fn copy_parts(alloc: Global, items: &[ConstraintPart]) -> Result<Items<ConstraintPart>, AllocError>
    ensures { IfOk result (λ copies. copies ≡ items.now) }
{
    let mut copies = Items::new(alloc);
    for item in items {
        copies.push(copy_part(alloc, item)?)?;
    }
    Ok(copies)
}

/// A copy of a bitfield.
#[cycle(copies)]
fn copy_bitfield(alloc: Global, bitfield: &Bitfield) -> Result<Bitfield, AllocError>
    ensures { IfOk result (λ copy. copy ≡ bitfield.now) }
{
    match bitfield {
        Bitfield::OneBit(index, name) => {
            let index = copy_expr(alloc, index)?;
            let name = copy_ident(alloc, name)?;
            Ok(Bitfield::OneBit(index, name))
        }
        Bitfield::BitRange(high, low, name) => {
            let high = copy_expr(alloc, high)?;
            let low = copy_expr(alloc, low)?;
            let name = copy_ident(alloc, name)?;
            Ok(Bitfield::BitRange(high, low, name))
        }
    }
}

/// Copies of bitfields.
#[cycle(copies)]
fn copy_bitfields(alloc: Global, items: &[Bitfield]) -> Result<Items<Bitfield>, AllocError>
    ensures { IfOk result (λ copies. copies ≡ items.now) }
{
    let mut copies = Items::new(alloc);
    for item in items {
        copies.push(copy_bitfield(alloc, item)?)?;
    }
    Ok(copies)
}

/// A copy of a type as it is written.
#[cycle(copies)]
pub fn copy_type(alloc: Global, ty: &TypeExpr) -> Result<TypeExpr, AllocError>
    ensures { IfOk result (λ copy. copy ≡ ty.now) }
{
    match ty {
        TypeExpr::IntegerType(span, parts) => {
            Ok(TypeExpr::IntegerType(*span, copy_parts(alloc, parts.as_slice())?))
        }
        TypeExpr::BooleanType(span) => Ok(TypeExpr::BooleanType(*span)),
        TypeExpr::BitType(span) => Ok(TypeExpr::BitType(*span)),
        TypeExpr::NamedType(span, name) => {
            Ok(TypeExpr::NamedType(*span, copy_text(alloc, name)?))
        }
        TypeExpr::BitsType(span, width, bitfields) => {
            let width = boxed_expr(alloc, width)?;
            let bitfields = copy_bitfields(alloc, bitfields.as_slice())?;
            Ok(TypeExpr::BitsType(*span, width, bitfields))
        }
        TypeExpr::TupleType(span, parts) => {
            Ok(TypeExpr::TupleType(*span, copy_types(alloc, parts.as_slice())?))
        }
        TypeExpr::ArrayType(span, length, element) => {
            let length = boxed_expr(alloc, length)?;
            let element = Boxed::new(alloc, copy_type(alloc, element.get())?)?;
            Ok(TypeExpr::ArrayType(*span, length, element))
        }
    }
}

/// Copies of types as they are written.
#[cycle(copies)]
fn copy_types(alloc: Global, items: &[TypeExpr]) -> Result<Items<TypeExpr>, AllocError>
    ensures { IfOk result (λ copies. copies ≡ items.now) }
{
    let mut copies = Items::new(alloc);
    for item in items {
        copies.push(copy_type(alloc, item)?)?;
    }
    Ok(copies)
}

/// A copy of a type as it is written, where there is one.
pub fn copy_maybe_type(
    alloc: Global,
    item: &Option<TypeExpr>,
) -> Result<Option<TypeExpr>, AllocError>
    ensures { IfOk result (λ copy. copy ≡ item.now) }
{
    match item {
        None => Ok(None),
        Some(item) => Ok(Some(copy_type(alloc, item)?)),
    }
}

/// A copy of a pattern.
#[cycle(copies)]
fn copy_pattern(alloc: Global, pattern: &Pattern) -> Result<Pattern, AllocError>
    ensures { IfOk result (λ copy. copy ≡ pattern.now) }
{
    match pattern {
        Pattern::AnyPattern(span) => Ok(Pattern::AnyPattern(*span)),
        Pattern::SetPattern(span, is_negated, parts) => {
            let parts = copy_patterns(alloc, parts.as_slice())?;
            Ok(Pattern::SetPattern(*span, *is_negated, parts))
        }
        Pattern::MaskPattern(span, text) => {
            Ok(Pattern::MaskPattern(*span, copy_text(alloc, text)?))
        }
        Pattern::AtMost(span, bound) => Ok(Pattern::AtMost(*span, copy_expr(alloc, bound)?)),
        Pattern::AtLeast(span, bound) => Ok(Pattern::AtLeast(*span, copy_expr(alloc, bound)?)),
        Pattern::TuplePattern(span, parts) => {
            Ok(Pattern::TuplePattern(*span, copy_patterns(alloc, parts.as_slice())?))
        }
        Pattern::ValuePattern(span, value) => {
            Ok(Pattern::ValuePattern(*span, copy_expr(alloc, value)?))
        }
        Pattern::RangePattern(span, low, high) => {
            let low = copy_expr(alloc, low)?;
            let high = copy_expr(alloc, high)?;
            Ok(Pattern::RangePattern(*span, low, high))
        }
    }
}

/// Copies of patterns.
#[cycle(copies)]
pub fn copy_patterns(alloc: Global, items: &[Pattern]) -> Result<Items<Pattern>, AllocError>
    ensures { IfOk result (λ copies. copies ≡ items.now) }
{
    let mut copies = Items::new(alloc);
    for item in items {
        copies.push(copy_pattern(alloc, item)?)?;
    }
    Ok(copies)
}
