//! What the declarations of a program bring.

ghost use Rattle.std.specs.Prelude.{◌≡◌, length, map, IfOk};
ghost use Rattle.asl_rules.specs.Tests.{Tests};
ghost use Rattle.asl_types.specs.private.Answers.{Met};
ghost use Rattle.asl_types.specs.Suits.{Suits};
ghost use Rattle.asl_decl.specs.Globals.{storage_numbers};
ghost use Rattle.asl_decl.specs.Heads.{declared_of, declared_rule};
ghost use Rattle.asl_decl.specs.private.Signatures.{declared_found};

use crate::funcs::funcs_of;
use crate::globals::{DeclId, globals_of};
use crate::signatures::find_signatures;
use asl_judge::phases::judge_names;
use asl_subprograms::Subprograms;
use asl_subprograms::apart::check_apart;
use asl_syn::code::Refused;
use asl_syn::tree::{Decl, Func};
use asl_types::Scope;
use sqlite_items::Items;
use std::alloc::Global;

/// What the declarations of a program bring: the names that are visible in all bodies, its subprograms in source order
/// with their signatures, and which declarations are its global storage, in source order.
#[derive(Drop)]
pub struct Table<'a> {
    pub names: Scope<'a>,
    pub funcs: Items<&'a Func>,
    pub subs: Subprograms,
    pub globals: Items<DeclId>,
}

/// The names outside bodies, these subprograms, each with its signature over these names, and this storage: the fault of the
/// first signature that has one, and then T10 at the first name of a subprogram that one before it has, with formals of the
/// same kinds.
fn with_funcs<'a>(
    alloc: Global,
    names: Scope<'a>,
    funcs: Items<&'a Func>,
    globals: Items<DeclId>,
) -> Result<Table<'a>, Refused>
    ensures rule { (t : Tests) → Suits t → Met declared_of result (declared_found t (map (λ f. f.now) funcs.entry) names.entry) }
    ensures many { IfOk result (λ x. length x.funcs ≡ length x.subs) }
    ensures globals { IfOk result (λ x. x.globals ≡ globals) }
{
    let mut names = names;
    let subs = find_signatures(alloc, &mut names, funcs.as_slice())?;
    check_apart(funcs.as_slice(), &subs)?;
    Ok(Table {
        names,
        funcs,
        subs,
        globals,
    })
}

impl<'a> Table<'a> {
    /// What the declarations bring. The phases before bodies come in order: names (T01), declarations that reach
    /// themselves (T03), the fault of the first declaration that has one where all that it uses is well formed, the
    /// signatures of subprograms, and those of one name whose formals have the same kinds (T10). Want of memory says nothing.
    /// Its globals are the declarations that are storage.
    pub fn build(alloc: Global, decls: &'a [Decl]) -> Result<Table<'a>, Refused>
        ensures rule { (t : Tests) → Suits t → Met declared_of result (declared_rule t decls.now) }
        ensures many { IfOk result (λ x. length x.funcs ≡ length x.subs) }
        ensures globals { IfOk result (λ x. x.globals ≡ storage_numbers decls.now) }
    {
        let names = judge_names(alloc, decls)?;
        let funcs = funcs_of(alloc, decls)?;
        let globals = globals_of(alloc, decls)?;
        with_funcs(alloc, names, funcs, globals)
    }

    /// The global storage, in source order, by the numbers of its declarations.
    pub fn globals(&self) -> &[DeclId]
        ensures { result.now ≡ self.now.globals }
    {
        self.globals.as_slice()
    }
}
