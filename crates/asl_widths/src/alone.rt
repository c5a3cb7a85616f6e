//! The width of an expression by the visible names alone, without its typed tree.

ghost use Rattle.std.specs.Prelude.{Ok};
ghost use Rattle.asl_rules.specs.Tests.{Tests};
ghost use Rattle.asl_rules.specs.expressions.Exprs as rules;
ghost use Rattle.asl_subprograms.specs.private.ContextView.{of_names};
ghost use Rattle.asl_types.specs.private.Answers.{Met};
ghost use Rattle.asl_widths.specs.private.Steps.{and_then};

use crate::widths::type_width;
use asl_poly::Poly;
use asl_rules::effect::Effect;
use asl_subprograms::{Context, Subprograms};
use asl_syn::code::Refused;
use asl_syn::tree::Expr;
use asl_types::Scope;
use std::alloc::Global;

/// The polynomial that an expression stands for as a width where these names are visible, or its one fault.
pub fn width_of(alloc: Global, e: &Expr, names: &Scope) -> Result<Poly, Refused>
    ensures { (t : Tests) → Met (λ p. p) result (and_then (rules.width t e.now (of_names names.now)) (λ w. Ok w.poly)) }
{
    let subs = Subprograms::new(alloc);
    let context = Context {
        names,
        subs: &subs,
        class: Effect::Pure,
    };
    let (poly, _tree) = type_width(alloc, context, e)?.into_parts();
    Ok(poly)
}
