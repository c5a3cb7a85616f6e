//! The types that are written: the type in a scope, with its shape and the typed trees of its expressions.

ghost use Rattle.std.specs.Prelude.{◌≡◌, [], ◌∷◌, Ok, OnOk, IfOk};
ghost use Rattle.asl_bits.specs.declared.TheConstants.{WIDTH_LIMIT};
ghost use Rattle.asl_poly.specs.Poly.{constant_value};
ghost use Rattle.asl_rules.specs.expressions.Exprs as exprs;
ghost use Rattle.asl_rules.specs.expressions.Exprs.{found};
ghost use Rattle.asl_rules.specs.Faults.{found_or};
ghost use Rattle.asl_widths.specs.private.Steps.{and_then};
ghost use Rattle.asl_rules.specs.types.Shapes as shape;
ghost use Rattle.asl_rules.specs.types.Types as types;
ghost use Rattle.asl_rules.specs.types.Types.{boolean};
ghost use Rattle.asl_rules.specs.types.Widths as limits;
ghost use Rattle.asl_rules.specs.types.Writing as rules;
ghost use Rattle.asl_rules.specs.types.Writing.{written_as};
ghost use Rattle.asl_rules.specs.Tests.{Tests};
ghost use Rattle.asl_types.specs.private.Alike.{IsAlike};
ghost use Rattle.asl_types.specs.private.Answers.{Met};
ghost use Rattle.asl_subprograms.specs.private.ContextView.{scope_of};
ghost use Rattle.asl_types.specs.Suits.{Suits};
ghost use Rattle.asl_types.specs.View.{parts_of};
ghost use Rattle.asl_widths.specs.WidthViews.{width_of};
ghost use Rattle.asl_written.specs.private.WrittenFields.{found_bitfields, fields_view, bits_from};
ghost use Rattle.asl_written.specs.private.WrittenTypes.{found_types, types_view, no_types, with_type, with_types, tuple_from};
ghost use Rattle.asl_written.specs.WrittenViews.{written_of};

use crate::constraints::integer_written;
use crate::one_type::is_one_type;
use crate::written_fields::{FieldsWritten, all_fields, fields_placed};
use asl_bits::WIDTH_LIMIT;
use asl_poly::Poly;
use asl_shape::TypeShape;
use asl_shared::{Held, Shared};
use asl_subprograms::Context;
use asl_syn::code::{Refused, StaticCode};
use asl_syn::token::Span;
use asl_syn::tree::{Bitfield, Expr, TypeExpr};
use asl_tree::lists::one_tree;
use asl_tree::tree::Tree;
use asl_types::Ty;
use asl_types::answer::fault;
use asl_types::integers::bits_wide;
use asl_types::sizes::bounded;
use asl_widths::{Width, type_width};
use sqlite_items::{Boxed, Items};
use std::alloc::{AllocError, Global};

/// A type with its shape and the typed trees of its expressions in order.
pub struct Written {
    pub ty: Ty,
    pub shape: TypeShape,
    pub sizes: Items<Tree>,
}

// By hand, so that a drop of one is a call, as `Held` of asl_shared says.
impl Drop for Written {
    fn drop(self) {
        let Written {
            ty: _ty,
            shape: _shape,
            sizes: _sizes,
        } = self;
    }
}

impl Written {
    /// Its parts.
    pub fn into_parts(self) -> (Ty, TypeShape, Items<Tree>)
        ensures { result ≡ (self.ty, self.shape, self.sizes) }
    {
        let Written { ty, shape, sizes } = self;
        (ty, shape, sizes)
    }
}

/// Where a written type stands.
pub fn type_place(ty: &TypeExpr) -> Span
    ensures { (t : Tests) → result ≡ (exprs.found_type t ty.now).span }
{
    match ty {
        TypeExpr::IntegerType(span, _) => *span,
        TypeExpr::BooleanType(span) => *span,
        TypeExpr::BitType(span) => *span,
        TypeExpr::NamedType(span, _) => *span,
        TypeExpr::BitsType(span, _, _) => *span,
        TypeExpr::TupleType(span, _) => *span,
        TypeExpr::ArrayType(span, _, _) => *span,
    }
}

/// Several types, their shapes and the typed trees of their expressions in order.
pub(crate) struct TypesWritten {
    types: Items<Ty>,
    shapes: Items<TypeShape>,
    sizes: Items<Tree>,
}

// By hand, so that a drop of one is a call, as `Held` of asl_shared says.
impl Drop for TypesWritten {
    fn drop(self) {
        let TypesWritten {
            types: _types,
            shapes: _shapes,
            sizes: _sizes,
        } = self;
    }
}

impl TypesWritten {
    /// Its parts.
    pub(crate) fn into_parts(self) -> (Items<Ty>, Items<TypeShape>, Items<Tree>)
        ensures { result ≡ (self.types, self.shapes, self.sizes) }
    {
        let TypesWritten {
            types,
            shapes,
            sizes,
        } = self;
        (types, shapes, sizes)
    }
}

impl TypesWritten {
    /// No types.
    fn new(alloc: Global) -> TypesWritten
        ensures { types_view result ≡ no_types }
    {
        TypesWritten {
            types: Items::new(alloc),
            shapes: Items::new(alloc),
            sizes: Items::new(alloc),
        }
    }

    /// One more type.
    fn push(&mut self, written: Written) -> Result<(), AllocError>
        ensures { OnOk result (types_view self.new ≡ with_type (types_view self.old) (written_of written)) }
    {
        let (ty, shape, sizes) = written.into_parts();
        self.types.push(ty)?;
        self.shapes.push(shape)?;
        self.sizes.append(sizes)
    }
}

/// Booleans.
fn boolean_written(alloc: Global) -> Written
    ensures { written_of result ≡ written_as boolean shape.boolean [] }
{
    Written {
        ty: Ty::boolean(),
        shape: TypeShape::Boolean,
        sizes: Items::new(alloc),
    }
}

/// One bit.
fn bit_written(alloc: Global, span: Span) -> Result<Written, AllocError>
    ensures { IfOk result (λ w. written_of w ≡ written_as (types.bits_wide 1) (shape.one_bit span) []) }
{
    Ok(Written {
        ty: bits_wide(alloc, 1)?,
        shape: TypeShape::OneBit(span),
        sizes: Items::new(alloc),
    })
}

/// The type of a declared name: T02 where it is none.
fn name_written(
    alloc: Global,
    context: Context,
    span: Span,
    name: &[u8],
) -> Result<Written, Refused>
    ensures { Met written_of result (rules.name_written span name.now (scope_of context.entry)) }
{
    match context.names.type_of_name(name) {
        None => fault(StaticCode::T02, span),
        Some(ty) => Ok(Written {
            ty: ty.copy()?,
            shape: TypeShape::Known(ty.copy()?),
            sizes: Items::new(alloc),
        }),
    }
}

/// Tuples of these parts, which know where these are all one type.
fn tuple_of(parts: Shared<Items<Ty>>, is_one: bool) -> Ty
    requires { IsAlike is_one (parts_of parts) }
    ensures { result ≡ types.tuple_of (parts_of parts) }
{
    if is_one {
        Ty::alike(parts)
    } else {
        Ty::tuple(parts)
    }
}

/// Tuples of these types, within the limits, which know where these are all one type.
fn tuple_written(
    alloc: Global,
    span: Span,
    made: TypesWritten,
    is_one: bool,
) -> Result<Written, Refused>
    requires { IsAlike is_one (parts_of made.types) }
    ensures { Met written_of result (tuple_from span (types_view made)) }
{
    let (types, shapes, sizes) = made.into_parts();
    let types = Shared::new(alloc, types)?;
    let ty = bounded(span, tuple_of(types, is_one))?;
    Ok(Written {
        ty,
        shape: TypeShape::TupleOf(shapes),
        sizes,
    })
}

/// A length from 0 to 65,536, else T20.
#[tactic(auto, unfolding(asl_rules::specs::types::Widths::largest))]
fn length_of(span: Span, z: i128) -> Result<u32, Refused>
    ensures { Met (λ n. n) result (limits.length_of span z) }
{
    if z < 0 || z > 65536 {
        return fault(StaticCode::T20, span);
    }
    Ok(z as u32)
}

/// The length that a width is: T19 where it is no number, and T20 where that is past the limits.
fn constant_length(span: Span, width: &Poly) -> Result<u32, Refused>
    ensures { Met (λ n. n) result (and_then (found_or (constant_value width.now) StaticCode.T19 span) (λ z. limits.length_of span z)) }
{
    match width.as_constant() {
        Some(z) => length_of(span, z),
        None => fault(StaticCode::T19, span),
    }
}

/// One tree in front of others.
fn tree_first(
    alloc: Global,
    first: Boxed<Tree>,
    rest: Items<Tree>,
) -> Result<Items<Tree>, AllocError>
    ensures { IfOk result (λ trees. trees ≡ first ∷ rest) }
{
    let mut trees = one_tree(alloc, first)?;
    trees.append(rest)?;
    Ok(trees)
}

/// Arrays of this length, within the limits.
fn array_written(
    alloc: Global,
    span: Span,
    length: Width,
    element: Written,
) -> Result<Written, Refused>
    ensures { Met written_of result (rules.array_written span (width_of length).poly (width_of length).tree (written_of element)) }
{
    let (poly, tree) = length.into_parts();
    let length = constant_length(span, &poly)?;
    let (ty, shape, sizes) = element.into_parts();
    let shape = Held::new(shape);
    let ty = bounded(span, Ty::array(length, Shared::new(alloc, ty)?))?;
    let ty = Held::new(ty);
    let shape = Boxed::new(alloc, shape.into_inner())?;
    let sizes = tree_first(alloc, tree, sizes)?;
    Ok(Written {
        ty: ty.into_inner(),
        shape: TypeShape::ArrayOf(shape),
        sizes,
    })
}

/// Whether a width, outside bodies, lies within 0 and the width limit where it is a number.
fn within_limits(outside: bool, width: &Poly) -> bool
    ensures { result ≡ rules.within_limits WIDTH_LIMIT outside width.now }
{
    if !outside {
        return true;
    }
    match width.as_constant() {
        None => true,
        Some(z) => z >= 0 && z <= i128::from(WIDTH_LIMIT),
    }
}

/// Bits of a width with bitfields that were gathered: the faults of their places, and then T20 where the width passes the
/// limit outside bodies.
fn bits_written(
    alloc: Global,
    outside: bool,
    span: Span,
    width: Width,
    fields: FieldsWritten,
) -> Result<Written, Refused>
    ensures { Met written_of result (bits_from WIDTH_LIMIT outside span (width_of width).poly (width_of width).tree (fields_view fields)) }
{
    let (poly, tree) = width.into_parts();
    let (ends, shapes, trees) = fields.into_parts();
    let view = fields_placed(alloc, span, &poly, ends.as_slice())?;
    if !within_limits(outside, &poly) {
        return fault(StaticCode::T20, span);
    }
    let sizes = tree_first(alloc, tree, trees)?;
    let view = Shared::new(alloc, view)?;
    let ty = Ty::bits(Shared::new(alloc, poly)?, view);
    Ok(Written {
        ty,
        shape: TypeShape::BitsOf(span, shapes),
        sizes,
    })
}

/// Bits of a width with bitfields.
fn bits_type(
    alloc: Global,
    context: Context,
    outside: bool,
    span: Span,
    e: &Expr,
    fields: &[Bitfield],
) -> Result<Written, Refused>
    ensures { (t : Tests) → Suits t → Met written_of result (rules.bits_rule t.limit outside span (found t e.now) (found_bitfields t fields.now) (scope_of context.entry)) }
{
    let w = type_width(alloc, context, e)?;
    let fields = all_fields(alloc, context, fields)?;
    bits_written(alloc, outside, span, w, fields)
}

/// The type that is written, or its one fault. Outside bodies a width that is a number lies within 0 and the width limit.
#[cycle(written)]
pub fn type_written(
    alloc: Global,
    context: Context,
    ty: &TypeExpr,
    outside: bool,
) -> Result<Written, Refused>
    ensures { (t : Tests) → Suits t → Met written_of result (exprs.written t ty.now outside (scope_of context.entry)) }
{
    match ty {
        TypeExpr::IntegerType(span, parts) => {
            integer_written(alloc, context, *span, parts.as_slice())
        }
        TypeExpr::BooleanType(_) => Ok(boolean_written(alloc)),
        TypeExpr::BitType(span) => Ok(bit_written(alloc, *span)?),
        TypeExpr::NamedType(span, name) => name_written(alloc, context, *span, name.as_slice()),
        TypeExpr::BitsType(span, width, fields) => {
            bits_type(
                alloc,
                context,
                outside,
                *span,
                width.get(),
                fields.as_slice(),
            )
        }
        TypeExpr::TupleType(span, parts) => {
            let parts = parts.as_slice();
            let made = all_written(alloc, context, parts, outside)?;
            tuple_written(alloc, *span, made, is_one_type(parts))
        }
        TypeExpr::ArrayType(span, length, element) => {
            let length = type_width(alloc, context, length.get())?;
            let element = type_written(alloc, context, element.get(), outside)?;
            array_written(alloc, *span, length, element)
        }
    }
}

/// The types that are written in order, or the first fault.
#[cycle(written)]
#[tactic(auto, using(crate::proofs::TypeLemmas::types_next, crate::proofs::TypeLemmas::types_stop, crate::proofs::TypeLemmas::types_last))]
fn all_written(
    alloc: Global,
    context: Context,
    types: &[TypeExpr],
    outside: bool,
) -> Result<TypesWritten, Refused>
    ensures { (t : Tests) → Suits t → Met types_view result (and_then (rules.types_in_order outside (found_types t types.now) (scope_of context.entry)) (λ Ws. Ok (with_types no_types Ws))) }
{
    let mut made = TypesWritten::new(alloc);
    for ty in types {
        let next = type_written(alloc, context, ty, outside)?;
        made.push(next)?;
    }
    Ok(made)
}
