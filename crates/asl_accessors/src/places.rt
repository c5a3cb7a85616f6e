//! Where expressions and targets stand.

ghost use Rattle.std.specs.Prelude.{◌≡◌};
ghost use Rattle.asl_rules.specs.expressions.Exprs.{expr_span};
ghost use Rattle.asl_rules.specs.statements.Targets.{up_to};
ghost use Rattle.asl_rules.specs.declarations.WrittenOut.{stored_to};

use asl_syn::token::Span;
use asl_syn::tree::{Expr, Ident, PlacedSuffix};

/// Where an expression stands.
pub fn place(e: &Expr) -> Span
    ensures { result ≡ expr_span e.now }
{
    match e {
        Expr::Int(span, _) => *span,
        Expr::Bits(span, _) => *span,
        Expr::Bool(span, _) => *span,
        Expr::Name(span, _) => *span,
        Expr::Unary(span, _, _) => *span,
        Expr::Binary(span, _, _, _) => *span,
        Expr::Conditional(span, _, _, _) => *span,
        Expr::Tuple(span, _) => *span,
        Expr::Construct(span, _, _) => *span,
        Expr::Call(span, _, _, _) => *span,
        Expr::Field(span, _, _) => *span,
        Expr::Fields(span, _, _) => *span,
        Expr::Slices(span, _, _) => *span,
        Expr::Element(span, _, _) => *span,
        Expr::As(span, _, _) => *span,
        Expr::In(span, _, _) => *span,
    }
}

/// A target from the first byte of its name up to this place.
fn up_to(name: &Ident, end: u32) -> Span
    ensures { result ≡ up_to name.now end }
{
    Span {
        file: name.span.file,
        start: name.span.start,
        len: end.saturating_sub(name.span.start),
    }
}

/// A target from the first byte of its name to its last suffix, which stands behind this place.
pub fn stored_to(name: &Ident, end: u32, suffixes: &[PlacedSuffix]) -> Span
    ensures { result ≡ stored_to name.now end suffixes.now }
{
    let mut last = end;
    for suffix in suffixes {
        last = suffix.end;
    }
    up_to(name, last)
}
