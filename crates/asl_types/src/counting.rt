//! What the integers of a body that can't be assigned count as in widths.

ghost use Rattle.std.specs.Prelude.{◌≡◌, IfOk};
ghost use Rattle.asl_poly.specs.Poly.{atom_map};
ghost use Rattle.asl_rules.specs.statements.Locals as rules;
ghost use Rattle.asl_rules.specs.declarations.Scopes as scopes;

use crate::kinds::is_integer;
use crate::scope::{Counted, Scope};
use crate::ty::Ty;
use asl_poly::{Atom, Poly, PolyRefused};
use asl_shared::Shared;
use std::alloc::{AllocError, Global};

/// An atom alone.
pub fn atom(alloc: Global, atom: Atom) -> Result<Poly, AllocError>
    ensures { IfOk result (λ p. p ≡ atom_map atom) }
{
    match Poly::atom(alloc, atom) {
        Ok(poly) => Ok(poly),
        Err(PolyRefused::TooLarge) => unreachable!(),
        Err(PolyRefused::NoMemory) => Err(AllocError),
    }
}

/// What a name with this atom counts as: itself.
pub fn counted_at(alloc: Global, number: Atom) -> Result<Counted, AllocError>
    ensures { IfOk result (λ c. c ≡ scopes.atom_at number) }
{
    Ok(Counted::new(Shared::new(alloc, atom(alloc, number)?)?, true))
}

/// What the next name of a body counts as where it stands for itself.
pub fn next_itself(alloc: Global, names: &Scope) -> Result<Counted, AllocError>
    ensures { IfOk result (λ c. c ≡ scopes.atom_at (scopes.next_atom names.now)) }
{
    counted_at(alloc, names.next_atom())
}

/// What a name of this type counts as where it stands for itself, as a formal does: an integer as the next atom, and no
/// other type as anything.
pub fn itself(alloc: Global, ty: &Ty, names: &Scope) -> Result<Option<Counted>, AllocError>
    ensures { IfOk result (λ c. c ≡ rules.itself ty.now names.now) }
{
    if is_integer(ty) {
        Ok(Some(next_itself(alloc, names)?))
    } else {
        Ok(None)
    }
}
