//! The nodes that operators make.

ghost use Rattle.std.specs.Prelude.{◌≡◌, IfOk};
ghost use Rattle.asl_syn.specs.declared.tree.Expr.TheVariants as ex;

use asl_syn::token::Span;
use asl_syn::tree::{BinaryOperator, Expr, Pattern, TypeExpr, UnaryOperator};
use sqlite_items::Boxed;
use std::alloc::{AllocError, Global};

/// An operator before its operand.
pub fn unary_node(
    alloc: Global,
    span: Span,
    operator: UnaryOperator,
    operand: Boxed<Expr>,
) -> Result<Boxed<Expr>, AllocError>
    ensures { IfOk result (λ e. e ≡ ex.Unary span operator operand) }
{
    Boxed::new(alloc, Expr::Unary(span, operator, operand))
}

/// An operator between its operands.
pub fn binary_node(
    alloc: Global,
    span: Span,
    operator: BinaryOperator,
    left: Boxed<Expr>,
    right: Boxed<Expr>,
) -> Result<Boxed<Expr>, AllocError>
    ensures { IfOk result (λ e. e ≡ ex.Binary span operator left right) }
{
    Boxed::new(alloc, Expr::Binary(span, operator, left, right))
}

/// An expression with the pattern behind `IN`.
pub fn in_node(
    alloc: Global,
    span: Span,
    left: Boxed<Expr>,
    pattern: Pattern,
) -> Result<Boxed<Expr>, AllocError>
    ensures { IfOk result (λ e. e ≡ ex.In span left pattern) }
{
    let pattern = Boxed::new(alloc, pattern)?;
    Boxed::new(alloc, Expr::In(span, left, pattern))
}

/// An expression with the type behind `as`.
pub fn as_node(
    alloc: Global,
    span: Span,
    left: Boxed<Expr>,
    ty: TypeExpr,
) -> Result<Boxed<Expr>, AllocError>
    ensures { IfOk result (λ e. e ≡ ex.As span left ty) }
{
    let ty = Boxed::new(alloc, ty)?;
    Boxed::new(alloc, Expr::As(span, left, ty))
}
