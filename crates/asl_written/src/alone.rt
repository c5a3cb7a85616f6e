//! The type that is written, by the visible names alone, without its shape and the typed trees of its sizes.

ghost use Rattle.std.specs.Prelude.{Ok, false};
ghost use Rattle.asl_rules.specs.Tests.{Tests};
ghost use Rattle.asl_rules.specs.expressions.Exprs as rules;
ghost use Rattle.asl_subprograms.specs.private.ContextView.{of_names};
ghost use Rattle.asl_types.specs.Suits.{Suits};
ghost use Rattle.asl_types.specs.private.Answers.{Met};
ghost use Rattle.asl_widths.specs.private.Steps.{and_then};

use crate::written::type_written;
use asl_rules::effect::Effect;
use asl_subprograms::{Context, Subprograms};
use asl_syn::code::Refused;
use asl_syn::tree::TypeExpr;
use asl_types::{Scope, Ty};
use std::alloc::Global;

/// The type that is written in a body where these names are visible, or its one fault.
pub fn ty_of(alloc: Global, ty: &TypeExpr, names: &Scope) -> Result<Ty, Refused>
    ensures { (t : Tests) → Suits t → Met (λ r. r) result (and_then (rules.written t ty.now false (of_names names.now)) (λ w. Ok w.ty)) }
{
    let subs = Subprograms::new(alloc);
    let context = Context {
        names,
        subs: &subs,
        class: Effect::Pure,
    };
    let (ty, _shape, _sizes) = type_written(alloc, context, ty, false)?.into_parts();
    Ok(ty)
}
