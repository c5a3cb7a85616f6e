//! What the integers of a body that can't be assigned count as in widths.

ghost use Rattle.std.specs.Prelude.{◌≡◌, IfOk};
ghost use Rattle.asl_rules.specs.expressions.Exprs as exprs;
ghost use Rattle.asl_rules.specs.statements.Locals as rules;
ghost use Rattle.asl_rules.specs.declarations.Scopes as scopes;
ghost use Rattle.asl_rules.specs.Tests.{Tests};
ghost use Rattle.asl_subprograms.specs.private.ContextView.{scope_of};
ghost use Rattle.asl_types.specs.Suits.{Suits};
ghost use Rattle.asl_blocks.specs.private.Views.{body_of};

use asl_blocks::body::{Body, context};
use asl_shared::Shared;
use asl_syn::code::Refused;
use asl_syn::tree::Expr;
use asl_types::counting::next_itself;
use asl_types::kinds::is_integer;
use asl_types::{Counted, Scope, Ty};
use asl_widths::{has_atom, type_width};
use std::alloc::{AllocError, Global};

/// What an initialiser counts as, where it is a width expression within the limits, and else the next name itself.
fn counted_as(names: &Scope, body: &Body, e: &Expr) -> Result<Counted, AllocError>
    ensures { (t : Tests) → Suits t → IfOk result (λ counted. counted ≡ rules.counted_as ((exprs.found t e.now).width (body_of names.now body.now).scope) ((exprs.found t e.now).has_atom (body_of names.now body.now).scope) (scopes.next_atom names.now)) }
{
    match type_width(body.alloc, context(names, body), e) {
        Err(Refused::NoMemory) => Err(AllocError),
        Err(Refused::At(_)) => next_itself(body.alloc, names),
        Ok(width) => {
            let (poly, _) = width.into_parts();
            let poly = Shared::new(body.alloc, poly)?;
            Ok(Counted::new(poly, has_atom(context(names, body), e)))
        }
    }
}

/// What a name with this initialiser counts as: an integer as its initialiser.
pub(crate) fn initialised_as(
    names: &Scope,
    body: &Body,
    ty: &Ty,
    e: &Expr,
) -> Result<Option<Counted>, AllocError>
    ensures { (t : Tests) → Suits t → IfOk result (λ counted. counted ≡ rules.initialised_as t ty.now e.now (body_of names.now body.now).scope) }
{
    if is_integer(ty) {
        Ok(Some(counted_as(names, body, e)?))
    } else {
        Ok(None)
    }
}
