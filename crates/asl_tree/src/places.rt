//! Where expressions stand.

ghost use Rattle.std.specs.Prelude.{◌≡◌};
ghost use Rattle.asl_rules.specs.expressions.Exprs as rules;
ghost use Rattle.asl_rules.specs.Tests.{Tests};

use asl_syn::token::Span;
use asl_syn::tree::Expr;

/// Where an expression stands.
pub fn place(e: &Expr) -> Span
    ensures { (t : Tests) → result ≡ (rules.found t e.now).span }
{
    match e {
        Expr::Int(span, _) => *span,
        Expr::Bits(span, _) => *span,
        Expr::Bool(span, _) => *span,
        Expr::Name(span, _) => *span,
        Expr::Unary(span, _, _) => *span,
        Expr::Binary(span, _, _, _) => *span,
        Expr::Conditional(span, _, _, _) => *span,
        Expr::Tuple(span, _) => *span,
        Expr::Construct(span, _, _) => *span,
        Expr::Call(span, _, _, _) => *span,
        Expr::Field(span, _, _) => *span,
        Expr::Fields(span, _, _) => *span,
        Expr::Slices(span, _, _) => *span,
        Expr::Element(span, _, _) => *span,
        Expr::As(span, _, _) => *span,
        Expr::In(span, _, _) => *span,
    }
}
