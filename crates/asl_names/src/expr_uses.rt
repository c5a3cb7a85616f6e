//! The names that expressions, written types, patterns and slices use, in source order.

ghost use Rattle.std.specs.Prelude.{◌≡◌, ◌∷◌, ◌++◌, [], map, IfOk, OnOk};
ghost use Rattle.asl_rules.specs.declarations.UsedNames as rules;
ghost use Rattle.asl_rules.specs.declarations.UsedNames.{bitfield_uses, part_uses, given_uses};
ghost use Rattle.asl_names.specs.private.UseView.{use_of, all_uses};

use crate::name_use::Use;
use asl_syn::tree::{Bitfield, ConstraintPart, Expr, FieldValue, Pattern, Slice, TypeExpr};
use sqlite_items::Items;
use std::alloc::{AllocError, Global};

/// One more use.
pub(crate) fn add<'a>(uses: &mut Items<Use<'a>>, one: Use<'a>) -> Result<(), AllocError>
    ensures { OnOk result (all_uses uses.new ≡ all_uses uses.old ++ use_of one.entry ∷ []) }
{
    uses.push(one)?;
    Ok(())
}

/// The uses in an expression.
#[cycle(uses)]
pub(crate) fn add_expr<'a>(uses: &mut Items<Use<'a>>, e: &'a Expr) -> Result<(), AllocError>
    ensures { OnOk result (all_uses uses.new ≡ all_uses uses.old ++ rules.expr_uses e.now) }
{
    match e {
        Expr::Int(_, _) | Expr::Bits(_, _) | Expr::Bool(_, _) => Ok(()),
        Expr::Name(span, name) => add(uses, Use::Value(*span, name.as_slice())),
        Expr::Unary(_, _, a) => add_expr(uses, a.get()),
        Expr::Field(_, a, _) => add_expr(uses, a.get()),
        Expr::Fields(_, a, _) => add_expr(uses, a.get()),
        Expr::Binary(_, _, a, b) => {
            add_expr(uses, a.get())?;
            add_expr(uses, b.get())
        }
        Expr::Element(_, a, i) => {
            add_expr(uses, a.get())?;
            add_expr(uses, i.get())
        }
        Expr::Conditional(_, c, a, b) => {
            add_expr(uses, c.get())?;
            add_expr(uses, a.get())?;
            add_expr(uses, b.get())
        }
        Expr::Tuple(_, parts) => add_exprs(uses, parts.as_slice()),
        Expr::Construct(_, name, fields) => {
            add(uses, Use::Type(name.text.as_slice()))?;
            add_fields(uses, fields.as_slice())
        }
        Expr::Call(span, name, parameters, arguments) => {
            add(uses, Use::Subprogram(*span, name.text.as_slice()))?;
            add_exprs(uses, parameters.as_slice())?;
            add_exprs(uses, arguments.as_slice())
        }
        Expr::Slices(_, a, slices) => {
            add_expr(uses, a.get())?;
            add_slices(uses, slices.as_slice())
        }
        Expr::As(_, a, ty) => {
            add_expr(uses, a.get())?;
            add_type(uses, ty.get())
        }
        Expr::In(_, a, pattern) => {
            add_expr(uses, a.get())?;
            add_pattern(uses, pattern.get())
        }
    }
}

/// The uses in expressions in order.
#[cycle(uses)]
fn add_exprs<'a>(uses: &mut Items<Use<'a>>, exprs: &'a [Expr]) -> Result<(), AllocError>
    ensures { OnOk result (all_uses uses.new ≡ all_uses uses.old ++ rules.joined (map rules.expr_uses exprs.now)) }
{
    for e in exprs {
        add_expr(uses, e)?;
    }
    Ok(())
}

/// The uses in what is given for a field.
#[cycle(uses)]
fn add_field<'a>(uses: &mut Items<Use<'a>>, field: &'a FieldValue) -> Result<(), AllocError>
    ensures { OnOk result (all_uses uses.new ≡ all_uses uses.old ++ given_uses field.now) }
{
    match field {
        FieldValue::Given(_, e) => add_expr(uses, e),
    }
}

#[cycle(uses)]
fn add_fields<'a>(uses: &mut Items<Use<'a>>, fields: &'a [FieldValue]) -> Result<(), AllocError>
    ensures { OnOk result (all_uses uses.new ≡ all_uses uses.old ++ rules.joined (map given_uses fields.now)) }
{
    for field in fields {
        add_field(uses, field)?;
    }
    Ok(())
}

/// The uses in a slice.
#[cycle(uses)]
fn add_slice<'a>(uses: &mut Items<Use<'a>>, slice: &'a Slice) -> Result<(), AllocError>
    ensures { OnOk result (all_uses uses.new ≡ all_uses uses.old ++ rules.slice_uses slice.now) }
{
    match slice {
        Slice::BitAt(e) => add_expr(uses, e),
        Slice::HighLow(a, b) => {
            add_expr(uses, a)?;
            add_expr(uses, b)
        }
        Slice::LowWidth(a, b) => {
            add_expr(uses, a)?;
            add_expr(uses, b)
        }
        Slice::FactorWidth(a, b) => {
            add_expr(uses, a)?;
            add_expr(uses, b)
        }
    }
}

/// The uses in slices in order.
#[cycle(uses)]
fn add_slices<'a>(uses: &mut Items<Use<'a>>, slices: &'a [Slice]) -> Result<(), AllocError>
    ensures { OnOk result (all_uses uses.new ≡ all_uses uses.old ++ rules.joined (map rules.slice_uses slices.now)) }
{
    for slice in slices {
        add_slice(uses, slice)?;
    }
    Ok(())
}

/// The uses in a pattern.
#[cycle(uses)]
fn add_pattern<'a>(uses: &mut Items<Use<'a>>, pattern: &'a Pattern) -> Result<(), AllocError>
    ensures { OnOk result (all_uses uses.new ≡ all_uses uses.old ++ rules.pattern_uses pattern.now) }
{
    match pattern {
        Pattern::AnyPattern(_) | Pattern::MaskPattern(_, _) => Ok(()),
        Pattern::SetPattern(_, _, parts) => add_patterns(uses, parts.as_slice()),
        Pattern::AtMost(_, e) => add_expr(uses, e),
        Pattern::AtLeast(_, e) => add_expr(uses, e),
        Pattern::TuplePattern(_, parts) => add_patterns(uses, parts.as_slice()),
        Pattern::ValuePattern(_, e) => add_expr(uses, e),
        Pattern::RangePattern(_, a, b) => {
            add_expr(uses, a)?;
            add_expr(uses, b)
        }
    }
}

/// The uses in patterns in order.
#[cycle(uses)]
fn add_patterns<'a>(uses: &mut Items<Use<'a>>, patterns: &'a [Pattern]) -> Result<(), AllocError>
    ensures { OnOk result (all_uses uses.new ≡ all_uses uses.old ++ rules.joined (map rules.pattern_uses patterns.now)) }
{
    for pattern in patterns {
        add_pattern(uses, pattern)?;
    }
    Ok(())
}

/// The uses in a written type.
#[cycle(uses)]
pub(crate) fn add_type<'a>(uses: &mut Items<Use<'a>>, ty: &'a TypeExpr) -> Result<(), AllocError>
    ensures { OnOk result (all_uses uses.new ≡ all_uses uses.old ++ rules.type_uses ty.now) }
{
    match ty {
        TypeExpr::IntegerType(_, parts) => add_parts(uses, parts.as_slice()),
        TypeExpr::BooleanType(_) | TypeExpr::BitType(_) => Ok(()),
        TypeExpr::NamedType(_, name) => add(uses, Use::Type(name.as_slice())),
        TypeExpr::BitsType(_, width, fields) => {
            add_expr(uses, width.get())?;
            add_bitfields(uses, fields.as_slice())
        }
        TypeExpr::TupleType(_, parts) => add_types(uses, parts.as_slice()),
        TypeExpr::ArrayType(_, length, element) => {
            add_expr(uses, length.get())?;
            add_type(uses, element.get())
        }
    }
}

/// The uses in written types in order.
#[cycle(uses)]
fn add_types<'a>(uses: &mut Items<Use<'a>>, types: &'a [TypeExpr]) -> Result<(), AllocError>
    ensures { OnOk result (all_uses uses.new ≡ all_uses uses.old ++ rules.joined (map rules.type_uses types.now)) }
{
    for ty in types {
        add_type(uses, ty)?;
    }
    Ok(())
}

/// The uses in a part of a constraint.
#[cycle(uses)]
fn add_part<'a>(uses: &mut Items<Use<'a>>, part: &'a ConstraintPart) -> Result<(), AllocError>
    ensures { OnOk result (all_uses uses.new ≡ all_uses uses.old ++ part_uses part.now) }
{
    match part {
        ConstraintPart::Only(e) => add_expr(uses, e),
        ConstraintPart::FromTo(a, b) => {
            add_expr(uses, a)?;
            add_expr(uses, b)
        }
    }
}

#[cycle(uses)]
fn add_parts<'a>(uses: &mut Items<Use<'a>>, parts: &'a [ConstraintPart]) -> Result<(), AllocError>
    ensures { OnOk result (all_uses uses.new ≡ all_uses uses.old ++ rules.joined (map part_uses parts.now)) }
{
    for part in parts {
        add_part(uses, part)?;
    }
    Ok(())
}

/// The uses in a bitfield.
#[cycle(uses)]
fn add_bitfield<'a>(uses: &mut Items<Use<'a>>, field: &'a Bitfield) -> Result<(), AllocError>
    ensures { OnOk result (all_uses uses.new ≡ all_uses uses.old ++ bitfield_uses field.now) }
{
    match field {
        Bitfield::OneBit(e, _) => add_expr(uses, e),
        Bitfield::BitRange(a, b, _) => {
            add_expr(uses, a)?;
            add_expr(uses, b)
        }
    }
}

#[cycle(uses)]
fn add_bitfields<'a>(uses: &mut Items<Use<'a>>, fields: &'a [Bitfield]) -> Result<(), AllocError>
    ensures { OnOk result (all_uses uses.new ≡ all_uses uses.old ++ rules.joined (map bitfield_uses fields.now)) }
{
    for field in fields {
        add_bitfield(uses, field)?;
    }
    Ok(())
}

/// The uses in an expression.
pub fn uses_in_expr<'a>(alloc: Global, e: &'a Expr) -> Result<Items<Use<'a>>, AllocError>
    ensures { IfOk result (λ uses. all_uses uses ≡ rules.expr_uses e.now) }
{
    let mut uses = Items::new(alloc);
    add_expr(&mut uses, e)?;
    Ok(uses)
}
