//! The globals that a run begins with.

ghost use Rattle.std.specs.List.{All};
ghost use Rattle.std.specs.Prelude.{◌≡◌, IfOk, IfSome, OnOk, option_map};
ghost use Rattle.asl_rules.specs.runs.Evaluation.{globals_among, global_in};
ghost use Rattle.asl_rules.specs.declarations.Scopes.{storage_of};
ghost use Rattle.asl_tree.specs.Sealed.{cell_of, cell_in, cells_in, cells_of, HasItsType};
ghost use Rattle.asl_check.specs.private.GlobalViews.{found_global, with_found};

use asl_judge::{is_var, name_of};
use asl_syn::tree::{Decl, StorageDecl};
use asl_tree::Global as Cell;
use asl_types::Scope;
use asl_value::copy;
use std::alloc::{AllocError, Global};

/// Global storage with its type and the value that a run begins with, where its name stands for such.
fn storage_cell(alloc: Global, d: &StorageDecl, names: &Scope) -> Result<Option<Cell>, AllocError>
    ensures typed { IfOk result (λ g. IfSome g (HasItsType names.now)) }
    ensures cell { IfOk result (λ g. option_map cell_of g ≡ option_map cell_in (global_in d.now (storage_of d.now.name.text names.now))) }
{
    let text = d.name.text.as_slice();
    let Some(storage) = names.storage_of(text) else {
        return Ok(None);
    };
    let Some(value) = storage.initial else {
        return Ok(None);
    };
    let name = name_of(alloc, text)?;
    Ok(Some(Cell {
        name,
        ty: storage.ty.copy()?,
        value: copy(value)?,
        is_mutable: is_var(d.kind),
    }))
}

/// The global that a declaration brings, where it brings one.
fn found_cell(alloc: Global, d: &Decl, names: &Scope) -> Result<Option<Cell>, AllocError>
    ensures typed { IfOk result (λ g. IfSome g (HasItsType names.now)) }
    ensures cell { IfOk result (λ g. option_map cell_of g ≡ option_map cell_in (found_global d.now names.now)) }
{
    match d {
        Decl::Type(_) => Ok(None),
        Decl::Storage(d) => storage_cell(alloc, d, names),
        Decl::Func(_) => Ok(None),
    }
}

/// One more global, where there is one.
fn push_found(globals: &mut Vec<Cell>, found: Option<Cell>) -> Result<(), AllocError>
    ensures { OnOk result (globals.new.items ≡ with_found globals.old.items found) }
{
    match found {
        None => Ok(()),
        Some(cell) => {
            globals.push(cell)?;
            Ok(())
        }
    }
}

/// The globals that a run begins with, in source order and each with its type, over the names that are visible outside bodies.
#[tactic(auto, using(crate::proofs::GlobalTurns::cells_next, crate::proofs::GlobalTurns::cells_end, crate::proofs::GlobalTurns::typed_next))]
pub(crate) fn find_globals(
    alloc: Global,
    decls: &[Decl],
    names: &Scope,
) -> Result<Vec<Cell>, AllocError>
    ensures typed { IfOk result (λ gs. All (HasItsType names.now) gs.items) }
    ensures cells { IfOk result (λ gs. cells_of gs.items ≡ cells_in (globals_among decls.now names.now)) }
{
    let mut globals = Vec::new(alloc);
    for d in decls {
        let found = found_cell(alloc, d, names)?;
        push_found(&mut globals, found)?;
    }
    Ok(globals)
}
