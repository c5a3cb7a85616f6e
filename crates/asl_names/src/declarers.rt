//! Where each name is declared.

ghost use Rattle.std.specs.Prelude.{◌≡◌, OnOk, IfOk};
ghost use Rattle.asl_names.specs.private.Graphs as graphs;

use crate::firsts::Firsts;
use asl_syn::tree::{Decl, Ident, TypeDef};
use std::alloc::{AllocError, Global};

fn keep_labels<'a>(
    table: &mut Firsts<'a>,
    labels: &'a [Ident],
    place: usize,
) -> Result<(), AllocError>
    ensures { OnOk result (table.new ≡ graphs.all_kept (graphs.named_at place labels.now) table.old) }
{
    for label in labels {
        table.keep(label.text.as_slice(), place)?;
    }
    Ok(())
}

fn keep_decl<'a>(table: &mut Firsts<'a>, d: &'a Decl, place: usize) -> Result<(), AllocError>
    ensures { OnOk result (table.new ≡ graphs.all_kept (graphs.named_at place (graphs.plain_names d.now)) table.old) }
{
    match d {
        Decl::Type(t) => {
            table.keep(t.name.text.as_slice(), place)?;
            match &t.def {
                TypeDef::Labels(_, labels) => keep_labels(table, labels.as_slice(), place),
                TypeDef::Alias(_) => Ok(()),
                TypeDef::Record(_, _) => Ok(()),
                TypeDef::Exception(_, _) => Ok(()),
            }
        }
        Decl::Storage(s) => table.keep(s.name.text.as_slice(), place),
        Decl::Func(_) => Ok(()),
    }
}

/// Where each name is declared, as a type, as a label of one or as storage.
#[tactic(auto, using(crate::proofs::Declaring::kept_both))]
pub(crate) fn declared_places<'a>(
    alloc: Global,
    decls: &'a [Decl],
) -> Result<Firsts<'a>, AllocError>
    ensures { IfOk result (λ table. table ≡ graphs.declarers decls.now) }
{
    let mut table = Firsts::new(alloc);
    for (place, d) in decls.iter().enumerate() {
        keep_decl(&mut table, d, place)?;
    }
    Ok(table)
}
