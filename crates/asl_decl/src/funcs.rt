//! The subprograms of a program.

ghost use Rattle.std.specs.Prelude.{◌≡◌, [], map, IfOk};
ghost use Rattle.asl_rules.specs.declarations.Programs as programs;
ghost use Rattle.asl_decl.specs.private.Signatures as rules;

use asl_syn::tree::{Decl, Func};
use sqlite_items::Items;
use std::alloc::{AllocError, Global};

/// The subprograms in order.
fn funcs_in_order<'a>(alloc: Global, decls: &'a [Decl]) -> Result<Items<&'a Func>, AllocError>
    ensures { IfOk result (λ fs. map (λ f. f.now) fs ≡ rules.funcs_after [] decls.now) }
{
    let mut funcs = Items::new(alloc);
    for d in decls {
        match d {
            Decl::Type(_) => {}
            Decl::Storage(_) => {}
            Decl::Func(f) => funcs.push(f)?,
        }
    }
    Ok(funcs)
}

/// The subprograms of a program, in source order. It is `funcs_in_order`, with the clause of the rules.
#[tactic(auto, using(crate::proofs::SignatureLemmas::funcs_all))]
pub(crate) fn funcs_of<'a>(alloc: Global, decls: &'a [Decl]) -> Result<Items<&'a Func>, AllocError>
    ensures { IfOk result (λ fs. map (λ f. f.now) fs ≡ programs.funcs_of decls.now) }
{
    let funcs = funcs_in_order(alloc, decls)?;
    Ok(funcs)
}
