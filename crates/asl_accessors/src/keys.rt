//! The keys of headers: equal where two headers are the same tree, spans aside.

ghost use Rattle.std.specs.Prelude.{◌≡◌, ◌++◌, ◌∷◌, false, OnOk, IfOk, map};
ghost use Rattle.asl_rules.specs.declarations.Keys as rules;

use asl_syn::read::{Accessor, ReadFunc};
use asl_syn::tree::{
    BinaryOperator, Bitfield, ConstraintPart, Expr, FieldValue, Formal, Ident, Param, Pattern,
    Qualifier, Slice, TypeExpr, UnaryOperator,
};
use std::alloc::{AllocError, Global};

/// A key that is being made.
pub type Key = Vec<u128>;

fn push_text(key: &mut Key, text: &[u8]) -> Result<(), AllocError>
    ensures { OnOk result (key.new.items ≡ key.old.items ++ rules.text_key text.now) }
{
    key.push(text.len() as u128)?;
    for byte in text {
        key.push(*byte as u128)?;
    }
    Ok(())
}

fn push_name(key: &mut Key, name: &Ident) -> Result<(), AllocError>
    ensures { OnOk result (key.new.items ≡ key.old.items ++ rules.name_key name.now) }
{
    push_text(key, name.text.as_slice())
}

fn push_names(key: &mut Key, names: &[Ident]) -> Result<(), AllocError>
    ensures { OnOk result (key.new.items ≡ key.old.items ++ rules.list_key (map rules.name_key names.now)) }
{
    key.push(names.len() as u128)?;
    for name in names {
        push_name(key, name)?;
    }
    Ok(())
}

fn truth(value: bool) -> u128
    ensures { result ≡ rules.truth value }
{
    if value { 1 } else { 0 }
}

/// The digits of a literal of bits or of a mask, 2 where one is free.
fn digits_of(alloc: Global, text: &[u8]) -> Result<Key, AllocError>
    ensures { IfOk result (λ digits. digits.items ≡ rules.digits_in false text.now) }
{
    let mut digits = Vec::new(alloc);
    let mut is_free = false;
    for byte in text {
        match *byte {
            b'(' => is_free = true,
            b')' => is_free = false,
            b'x' => digits.push(2)?,
            b'0' => digits.push(if is_free { 2 } else { 0 })?,
            b'1' => digits.push(if is_free { 2 } else { 1 })?,
            _ => {}
        }
    }
    Ok(digits)
}

fn push_digits(alloc: Global, key: &mut Key, text: &[u8]) -> Result<(), AllocError>
    ensures { OnOk result (key.new.items ≡ key.old.items ++ rules.digits_key text.now) }
{
    let digits = digits_of(alloc, text)?;
    key.push(digits.len() as u128)?;
    key.extend_from_slice(digits.as_slice())?;
    Ok(())
}

fn unary_key(operator: UnaryOperator) -> u128
    ensures { result ≡ rules.unary_key operator }
{
    match operator {
        UnaryOperator::Negate => 0,
        UnaryOperator::Not => 1,
        UnaryOperator::Complement => 2,
    }
}

fn binary_key(operator: BinaryOperator) -> u128
    ensures { result ≡ rules.binary_key operator }
{
    match operator {
        BinaryOperator::LogicalAnd => 0,
        BinaryOperator::LogicalOr => 1,
        BinaryOperator::Implies => 2,
        BinaryOperator::Equivalent => 3,
        BinaryOperator::Equal => 4,
        BinaryOperator::NotEqual => 5,
        BinaryOperator::Less => 6,
        BinaryOperator::LessEqual => 7,
        BinaryOperator::Greater => 8,
        BinaryOperator::GreaterEqual => 9,
        BinaryOperator::Add => 10,
        BinaryOperator::Subtract => 11,
        BinaryOperator::BitAnd => 12,
        BinaryOperator::BitOr => 13,
        BinaryOperator::BitXor => 14,
        BinaryOperator::Concatenate => 15,
        BinaryOperator::Multiply => 16,
        BinaryOperator::DivideExact => 17,
        BinaryOperator::DivideFloor => 18,
        BinaryOperator::Modulo => 19,
        BinaryOperator::ShiftLeft => 20,
        BinaryOperator::ShiftRight => 21,
        BinaryOperator::Power => 22,
    }
}

#[cycle(keys)]
fn push_expr(alloc: Global, key: &mut Key, expr: &Expr) -> Result<(), AllocError>
    ensures { OnOk result (key.new.items ≡ key.old.items ++ rules.expr_key expr.now) }
{
    match expr {
        Expr::Int(_, value) => {
            key.push(0)?;
            key.push(*value)?;
            Ok(())
        }
        Expr::Bits(_, text) => {
            key.push(1)?;
            push_digits(alloc, key, text.as_slice())
        }
        Expr::Bool(_, value) => {
            key.push(2)?;
            key.push(truth(*value))?;
            Ok(())
        }
        Expr::Name(_, name) => {
            key.push(3)?;
            push_text(key, name.as_slice())
        }
        Expr::Unary(_, operator, operand) => {
            key.push(4)?;
            key.push(unary_key(*operator))?;
            push_expr(alloc, key, operand.get())
        }
        Expr::Binary(_, operator, left, right) => {
            key.push(5)?;
            key.push(binary_key(*operator))?;
            push_expr(alloc, key, left.get())?;
            push_expr(alloc, key, right.get())
        }
        Expr::Conditional(_, condition, yes, no) => {
            key.push(6)?;
            push_expr(alloc, key, condition.get())?;
            push_expr(alloc, key, yes.get())?;
            push_expr(alloc, key, no.get())
        }
        Expr::Tuple(_, parts) => {
            key.push(7)?;
            push_exprs(alloc, key, parts.as_slice())
        }
        Expr::Construct(_, name, fields) => {
            key.push(8)?;
            push_name(key, name)?;
            push_fields(alloc, key, fields.as_slice())
        }
        Expr::Call(_, name, parameters, arguments) => {
            key.push(9)?;
            push_name(key, name)?;
            push_exprs(alloc, key, parameters.as_slice())?;
            push_exprs(alloc, key, arguments.as_slice())
        }
        Expr::Field(_, of, field) => {
            key.push(10)?;
            push_expr(alloc, key, of.get())?;
            push_name(key, field)
        }
        Expr::Fields(_, of, fields) => {
            key.push(11)?;
            push_expr(alloc, key, of.get())?;
            push_names(key, fields.as_slice())
        }
        Expr::Slices(_, of, slices) => {
            key.push(12)?;
            push_expr(alloc, key, of.get())?;
            push_slices(alloc, key, slices.as_slice())
        }
        Expr::Element(_, of, index) => {
            key.push(13)?;
            push_expr(alloc, key, of.get())?;
            push_expr(alloc, key, index.get())
        }
        Expr::As(_, of, ty) => {
            key.push(14)?;
            push_expr(alloc, key, of.get())?;
            push_type(alloc, key, ty.get())
        }
        Expr::In(_, of, pattern) => {
            key.push(15)?;
            push_expr(alloc, key, of.get())?;
            push_pattern(alloc, key, pattern.get())
        }
    }
}

#[cycle(keys)]
fn push_exprs(alloc: Global, key: &mut Key, items: &[Expr]) -> Result<(), AllocError>
    ensures { OnOk result (key.new.items ≡ key.old.items ++ rules.list_key (map rules.expr_key items.now)) }
{
    key.push(items.len() as u128)?;
    for item in items {
        push_expr(alloc, key, item)?;
    }
    Ok(())
}

#[cycle(keys)]
fn push_field(alloc: Global, key: &mut Key, field: &FieldValue) -> Result<(), AllocError>
    ensures { OnOk result (key.new.items ≡ key.old.items ++ rules.field_key field.now) }
{
    let FieldValue::Given(name, value) = field;
    push_name(key, name)?;
    push_expr(alloc, key, value)
}

#[cycle(keys)]
fn push_fields(alloc: Global, key: &mut Key, items: &[FieldValue]) -> Result<(), AllocError>
    ensures { OnOk result (key.new.items ≡ key.old.items ++ rules.list_key (map rules.field_key items.now)) }
{
    key.push(items.len() as u128)?;
    for item in items {
        push_field(alloc, key, item)?;
    }
    Ok(())
}

#[cycle(keys)]
fn push_slice(alloc: Global, key: &mut Key, slice: &Slice) -> Result<(), AllocError>
    ensures { OnOk result (key.new.items ≡ key.old.items ++ rules.slice_key slice.now) }
{
    match slice {
        Slice::BitAt(index) => {
            key.push(0)?;
            push_expr(alloc, key, index)
        }
        Slice::HighLow(high, low) => {
            key.push(1)?;
            push_expr(alloc, key, high)?;
            push_expr(alloc, key, low)
        }
        Slice::LowWidth(low, width) => {
            key.push(2)?;
            push_expr(alloc, key, low)?;
            push_expr(alloc, key, width)
        }
        Slice::FactorWidth(factor, width) => {
            key.push(3)?;
            push_expr(alloc, key, factor)?;
            push_expr(alloc, key, width)
        }
    }
}

#[cycle(keys)]
fn push_slices(alloc: Global, key: &mut Key, items: &[Slice]) -> Result<(), AllocError>
    ensures { OnOk result (key.new.items ≡ key.old.items ++ rules.list_key (map rules.slice_key items.now)) }
{
    key.push(items.len() as u128)?;
    for item in items {
        push_slice(alloc, key, item)?;
    }
    Ok(())
}

#[cycle(keys)]
fn push_part(alloc: Global, key: &mut Key, part: &ConstraintPart) -> Result<(), AllocError>
    ensures { OnOk result (key.new.items ≡ key.old.items ++ rules.part_key part.now) }
{
    match part {
        ConstraintPart::Only(only) => {
            key.push(0)?;
            push_expr(alloc, key, only)
        }
        ConstraintPart::FromTo(low, high) => {
            key.push(1)?;
            push_expr(alloc, key, low)?;
            push_expr(alloc, key, high)
        }
    }
}

#[cycle(keys)]
fn push_parts(alloc: Global, key: &mut Key, items: &[ConstraintPart]) -> Result<(), AllocError>
    ensures { OnOk result (key.new.items ≡ key.old.items ++ rules.list_key (map rules.part_key items.now)) }
{
    key.push(items.len() as u128)?;
    for item in items {
        push_part(alloc, key, item)?;
    }
    Ok(())
}

#[cycle(keys)]
fn push_bitfield(alloc: Global, key: &mut Key, bitfield: &Bitfield) -> Result<(), AllocError>
    ensures { OnOk result (key.new.items ≡ key.old.items ++ rules.bitfield_key bitfield.now) }
{
    match bitfield {
        Bitfield::OneBit(index, name) => {
            key.push(0)?;
            push_expr(alloc, key, index)?;
            push_name(key, name)
        }
        Bitfield::BitRange(high, low, name) => {
            key.push(1)?;
            push_expr(alloc, key, high)?;
            push_expr(alloc, key, low)?;
            push_name(key, name)
        }
    }
}

#[cycle(keys)]
fn push_bitfields(alloc: Global, key: &mut Key, items: &[Bitfield]) -> Result<(), AllocError>
    ensures { OnOk result (key.new.items ≡ key.old.items ++ rules.list_key (map rules.bitfield_key items.now)) }
{
    key.push(items.len() as u128)?;
    for item in items {
        push_bitfield(alloc, key, item)?;
    }
    Ok(())
}

#[cycle(keys)]
fn push_pattern(alloc: Global, key: &mut Key, pattern: &Pattern) -> Result<(), AllocError>
    ensures { OnOk result (key.new.items ≡ key.old.items ++ rules.pattern_key pattern.now) }
{
    match pattern {
        Pattern::AnyPattern(_) => {
            key.push(0)?;
            Ok(())
        }
        Pattern::SetPattern(_, is_negated, parts) => {
            key.push(1)?;
            key.push(truth(*is_negated))?;
            push_patterns(alloc, key, parts.as_slice())
        }
        Pattern::MaskPattern(_, text) => {
            key.push(2)?;
            push_digits(alloc, key, text.as_slice())
        }
        Pattern::AtMost(_, bound) => {
            key.push(3)?;
            push_expr(alloc, key, bound)
        }
        Pattern::AtLeast(_, bound) => {
            key.push(4)?;
            push_expr(alloc, key, bound)
        }
        Pattern::TuplePattern(_, parts) => {
            key.push(5)?;
            push_patterns(alloc, key, parts.as_slice())
        }
        Pattern::ValuePattern(_, value) => {
            key.push(6)?;
            push_expr(alloc, key, value)
        }
        Pattern::RangePattern(_, low, high) => {
            key.push(7)?;
            push_expr(alloc, key, low)?;
            push_expr(alloc, key, high)
        }
    }
}

#[cycle(keys)]
fn push_patterns(alloc: Global, key: &mut Key, items: &[Pattern]) -> Result<(), AllocError>
    ensures { OnOk result (key.new.items ≡ key.old.items ++ rules.list_key (map rules.pattern_key items.now)) }
{
    key.push(items.len() as u128)?;
    for item in items {
        push_pattern(alloc, key, item)?;
    }
    Ok(())
}

#[cycle(keys)]
fn push_type(alloc: Global, key: &mut Key, ty: &TypeExpr) -> Result<(), AllocError>
    ensures { OnOk result (key.new.items ≡ key.old.items ++ rules.type_key ty.now) }
{
    match ty {
        TypeExpr::IntegerType(_, parts) => {
            key.push(0)?;
            push_parts(alloc, key, parts.as_slice())
        }
        TypeExpr::BooleanType(_) => {
            key.push(1)?;
            Ok(())
        }
        TypeExpr::BitType(_) => {
            key.push(2)?;
            Ok(())
        }
        TypeExpr::NamedType(_, name) => {
            key.push(3)?;
            push_text(key, name.as_slice())
        }
        TypeExpr::BitsType(_, width, bitfields) => {
            key.push(4)?;
            push_expr(alloc, key, width.get())?;
            push_bitfields(alloc, key, bitfields.as_slice())
        }
        TypeExpr::TupleType(_, parts) => {
            key.push(5)?;
            push_types(alloc, key, parts.as_slice())
        }
        TypeExpr::ArrayType(_, length, element) => {
            key.push(6)?;
            push_expr(alloc, key, length.get())?;
            push_type(alloc, key, element.get())
        }
    }
}

#[cycle(keys)]
fn push_types(alloc: Global, key: &mut Key, items: &[TypeExpr]) -> Result<(), AllocError>
    ensures { OnOk result (key.new.items ≡ key.old.items ++ rules.list_key (map rules.type_key items.now)) }
{
    key.push(items.len() as u128)?;
    for item in items {
        push_type(alloc, key, item)?;
    }
    Ok(())
}

fn push_maybe_type(alloc: Global, key: &mut Key, ty: &Option<TypeExpr>) -> Result<(), AllocError>
    ensures { OnOk result (key.new.items ≡ key.old.items ++ rules.maybe_key rules.type_key ty.now) }
{
    match ty {
        None => {
            key.push(0)?;
            Ok(())
        }
        Some(ty) => {
            key.push(1)?;
            push_type(alloc, key, ty)
        }
    }
}

fn push_maybe_expr(alloc: Global, key: &mut Key, e: &Option<Expr>) -> Result<(), AllocError>
    ensures { OnOk result (key.new.items ≡ key.old.items ++ rules.maybe_key rules.expr_key e.now) }
{
    match e {
        None => {
            key.push(0)?;
            Ok(())
        }
        Some(e) => {
            key.push(1)?;
            push_expr(alloc, key, e)
        }
    }
}

fn qualifier_key(qualifier: Qualifier) -> u128
    ensures { result ≡ rules.qualifier_key qualifier }
{
    match qualifier {
        Qualifier::Unqualified => 0,
        Qualifier::Pure => 1,
        Qualifier::Readonly => 2,
    }
}

fn push_formal(alloc: Global, key: &mut Key, formal: &Formal) -> Result<(), AllocError>
    ensures { OnOk result (key.new.items ≡ key.old.items ++ rules.formal_key formal.now) }
{
    push_name(key, &formal.name)?;
    push_type(alloc, key, &formal.ty)
}

fn push_formals(alloc: Global, key: &mut Key, formals: &[Formal]) -> Result<(), AllocError>
    ensures { OnOk result (key.new.items ≡ key.old.items ++ rules.list_key (map rules.formal_key formals.now)) }
{
    key.push(formals.len() as u128)?;
    for formal in formals {
        push_formal(alloc, key, formal)?;
    }
    Ok(())
}

fn push_params(alloc: Global, key: &mut Key, params: &[Param]) -> Result<(), AllocError>
    ensures { OnOk result (key.new.items ≡ key.old.items ++ rules.list_key (map rules.param_key params.now)) }
{
    key.push(params.len() as u128)?;
    for param in params {
        push_name(key, &param.name)?;
        push_maybe_type(alloc, key, &param.ty)?;
    }
    Ok(())
}

/// The key of a subprogram: all of it but its word and its body.
pub fn func_key(alloc: Global, func: &ReadFunc) -> Result<Key, AllocError>
    ensures { IfOk result (λ key. key.items ≡ rules.func_key func.now) }
{
    let mut key = Vec::new(alloc);
    key.push(0)?;
    key.push(qualifier_key(func.qualifier))?;
    push_name(&mut key, &func.name)?;
    push_params(alloc, &mut key, func.params.as_slice())?;
    push_formals(alloc, &mut key, func.formals.as_slice())?;
    push_maybe_type(alloc, &mut key, &func.result)?;
    push_maybe_expr(alloc, &mut key, &func.limit)?;
    Ok(key)
}

/// The key of an accessor: all of it but its word and its bodies.
pub fn accessor_key(alloc: Global, accessor: &Accessor) -> Result<Key, AllocError>
    ensures { IfOk result (λ key. key.items ≡ rules.accessor_key accessor.now) }
{
    let mut key = Vec::new(alloc);
    key.push(1)?;
    key.push(qualifier_key(accessor.qualifier))?;
    push_name(&mut key, &accessor.name)?;
    push_params(alloc, &mut key, accessor.params.as_slice())?;
    push_formals(alloc, &mut key, accessor.formals.as_slice())?;
    push_formal(alloc, &mut key, &accessor.value)?;
    Ok(key)
}
