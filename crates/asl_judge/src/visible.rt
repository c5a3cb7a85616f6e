//! The names that are visible before the first turn.

ghost use Rattle.std.specs.Prelude.{◌≡◌, map, IfOk, IfErr, OnOk};
ghost use Rattle.asl_rules.specs.declarations.Names as rules;
ghost use Rattle.asl_rules.specs.declarations.Scopes.{subprogram, with_entries};
ghost use Rattle.asl_rules.specs.declarations.Turns.{reserved};
ghost use Rattle.asl_judge.specs.private.Settling.{all_reserved};

use crate::judging::labels_in;
use crate::storage::is_var;
use asl_names::LIBRARY;
use asl_syn::code::Refused;
use asl_syn::tree::{Decl, Ident, StorageDecl, TypeDecl};
use asl_types::{Scope, Ty};
use asl_value::Value;
use std::alloc::Global;

fn declare_subprograms<'a>(
    names: &mut Scope<'a>,
    subprograms: &[&'static str],
) -> Result<(), Refused>
    ensures declared { OnOk result (names.new ≡ with_entries (map subprogram (map (λ n. n.now) subprograms.now)) names.old) }
    ensures memory { IfErr result (λ e. e ≡ Refused.NoMemory) }
{
    for name in subprograms {
        names.declare_subprogram(name.as_bytes())?;
    }
    Ok(())
}

/// The subprograms of the library.
#[tactic(auto, using(crate::proofs::LibraryNames::library_is))]
fn library_names<'a>(alloc: Global) -> Result<Scope<'a>, Refused>
    ensures declared { IfOk result (λ names. names ≡ map subprogram rules.library) }
    ensures memory { IfErr result (λ e. e ≡ Refused.NoMemory) }
{
    let mut names = Scope::new(alloc);
    declare_subprograms(&mut names, &LIBRARY)?;
    Ok(names)
}

// ---- stand-ins

/// Labels become visible, each by a stand-in, where it isn't.
fn reserve_labels<'a>(names: &mut Scope<'a>, labels: &'a [Ident]) -> Result<(), Refused>
    ensures reserved { OnOk result (names.new ≡ with_entries (map (λ i. subprogram i.text) labels.now) names.old) }
    ensures memory { IfErr result (λ e. e ≡ Refused.NoMemory) }
{
    for label in labels {
        names.declare_subprogram(label.text.as_slice())?;
    }
    Ok(())
}

fn reserve_type<'a>(names: &mut Scope<'a>, d: &'a TypeDecl) -> Result<(), Refused>
    ensures reserved { OnOk result (names.new ≡ with_entries (reserved (Decl.Type d.now)) names.old) }
    ensures memory { IfErr result (λ e. e ≡ Refused.NoMemory) }
{
    names.declare_subprogram(d.name.text.as_slice())?;
    reserve_labels(names, labels_in(&d.def))
}

fn reserve_storage<'a>(names: &mut Scope<'a>, d: &'a StorageDecl) -> Result<(), Refused>
    ensures reserved { OnOk result (names.new ≡ with_entries (reserved (Decl.Storage d.now)) names.old) }
    ensures memory { IfErr result (λ e. e ≡ Refused.NoMemory) }
{
    let name = d.name.text.as_slice();
    names.declare_global(name, Ty::boolean(), is_var(d.kind), Value::Bool(false))
}

/// The names of a declaration become visible, each by a stand-in, where it isn't.
fn reserve<'a>(names: &mut Scope<'a>, d: &'a Decl) -> Result<(), Refused>
    ensures reserved { OnOk result (names.new ≡ with_entries (reserved d.now) names.old) }
    ensures memory { IfErr result (λ e. e ≡ Refused.NoMemory) }
{
    match d {
        Decl::Type(d) => reserve_type(names, d),
        Decl::Storage(d) => reserve_storage(names, d),
        Decl::Func(f) => names.declare_subprogram(f.name.text.as_slice()),
    }
}

/// The names of the library, and in source order those of the declarations, each by a stand-in.
pub(crate) fn names_reserved<'a>(alloc: Global, decls: &'a [Decl]) -> Result<Scope<'a>, Refused>
    ensures reserved { IfOk result (λ names. names ≡ all_reserved decls.now (map subprogram rules.library)) }
    ensures memory { IfErr result (λ e. e ≡ Refused.NoMemory) }
{
    let mut names = library_names(alloc)?;
    for d in decls {
        reserve(&mut names, d)?;
    }
    Ok(names)
}
