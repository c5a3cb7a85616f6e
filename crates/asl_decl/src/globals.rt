//! The global storage of a program.

ghost use Rattle.std.specs.Prelude.{◌≡◌, ℕ, [], IfOk};
ghost use Rattle.asl_decl.specs.Globals.{storage_numbers};
ghost use Rattle.asl_decl.specs.private.StorageOrder.{storage_after};

use asl_syn::tree::Decl;
use sqlite_items::Items;
use std::alloc::{AllocError, Global};
use std::marker::Model;

/// The number of a declaration in source order, from 0.
#[derive(Clone, Copy, PartialEq, Eq)]
pub struct DeclId {
    number: usize,
}

impl Model for DeclId {
    ghost Value = { ℕ };

    ghost view = { λ d. d.number };

    ghost inverse = { λ n. record { number = n } };
}

impl DeclId {
    /// The declaration of this number.
    pub fn new(number: usize) -> DeclId
        ensures { result ≡ number }
    {
        DeclId { number }
    }

    /// The number, from 0.
    pub fn number(self) -> usize
        ensures { result ≡ self }
    {
        self.number
    }
}

/// The storage in order.
fn globals_in_order(alloc: Global, decls: &[Decl]) -> Result<Items<DeclId>, AllocError>
    ensures { IfOk result (λ ids. ids ≡ storage_after [] 0 decls.now) }
{
    let mut ids = Items::new(alloc);
    for (number, d) in decls.iter().enumerate() {
        match d {
            Decl::Type(_) => {}
            Decl::Storage(_) => ids.push(DeclId::new(number))?,
            Decl::Func(_) => {}
        }
    }
    Ok(ids)
}

/// The global storage of a program, in source order. It is `globals_in_order`, with the clause that callers need.
#[tactic(auto, using(crate::proofs::StorageLemmas::storage_all))]
pub(crate) fn globals_of(alloc: Global, decls: &[Decl]) -> Result<Items<DeclId>, AllocError>
    ensures { IfOk result (λ ids. ids ≡ storage_numbers decls.now) }
{
    let ids = globals_in_order(alloc, decls)?;
    Ok(ids)
}
