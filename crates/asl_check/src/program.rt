//! Whole programs.

ghost use Rattle.std.specs.Prelude.{◌≡◌, length, map, IfOk};
ghost use Rattle.asl_rules.specs.private.Grown.{AreGrown, AreReadGrown};
ghost use Rattle.asl_rules.specs.declarations.Programs.{entries};
ghost use Rattle.asl_tree.specs.Sealed.{IsSealed};
ghost use Rattle.asl_rules.specs.declarations.Programs.{verdict};
ghost use Rattle.asl_decl.specs.Heads.{declared_with, heads_of};
ghost use Rattle.asl_check.specs.private.Bringing.{with_bodies, with_entry_found};
ghost use Rattle.asl_rules.specs.Tests.{Tests};
ghost use Rattle.asl_types.specs.private.Answers.{Met};
ghost use Rattle.asl_types.specs.Suits.{Suits};
ghost use Rattle.asl_check.specs.private.Verdicts.{accepted_of, both_verdict, HasEntries, IsReadVerdict, IsVerdict, Seals};
ghost use Rattle.asl_accessors.specs.Judged.{final_of};

use crate::bodies::check_bodies;
use crate::globals::find_globals;
use asl_accessors::{Replacing, parted};
use asl_decl::{Entries, Table, find_entries};
use asl_rules::entry::Entry;
use asl_subprograms::Subprograms;
use asl_syn::code::Refused;
use asl_syn::read::ReadProgram;
use asl_syn::tree::{Decl, Func, Program};
use asl_tree::act::TreeFunc;
use asl_tree::{Checked, Global as Cell, Parts, SubId};
use asl_types::Scope;
use sqlite_items::Items;
use std::alloc::Global;

/// A program that is well formed with its entries.
#[derive(Drop)]
pub struct Accepted<'a> {
    /// The names that are visible outside bodies.
    pub names: Scope<'a>,
    /// The signatures of its subprograms, in source order.
    pub subs: Subprograms,
    /// Its subprograms with the typed trees of their bodies, in source order.
    pub funcs: Items<TreeFunc>,
    /// The subprograms that are the entries, where they are asked for.
    pub entries: Entries,
}

/// The bodies of a program with these signatures, and its entries.
fn judge_bodies<'a>(
    alloc: Global,
    names: Scope<'a>,
    subs: Subprograms,
    funcs: &[&'a Func],
    entry: Entry,
) -> Result<Accepted<'a>, Refused>
    ensures { (t : Tests) → Suits t → Met (accepted_of entry) result (with_bodies entry names.entry (heads_of names.entry (map (λ f. f.now) funcs.now) subs) subs t) }
{
    let mut names = names;
    let trees = check_bodies(alloc, &mut names, &subs, funcs)?;
    let entries = find_entries(entry, &subs)?;
    Ok(Accepted {
        names,
        subs,
        funcs: trees,
        entries,
    })
}

/// The bodies of a program whose declarations are well formed, and its entries. It is `judge_bodies`, with the clause
/// that `check_decls` needs.
fn find_bodies<'a>(
    alloc: Global,
    names: Scope<'a>,
    subs: Subprograms,
    funcs: &[&'a Func],
    entry: Entry,
) -> Result<Accepted<'a>, Refused>
    requires { length funcs.now ≡ length subs }
    ensures { (t : Tests) → Suits t → Met (accepted_of entry) result (with_entry_found entry (declared_with names.entry (heads_of names.entry (map (λ f. f.now) funcs.now) subs)) t) }
{
    judge_bodies(alloc, names, subs, funcs, entry)
}

/// Checks declarations. They are accepted exactly where they are well formed with the entries that are asked for, and
/// otherwise refused at their one fault. The phases come in order: names, declarations that reach themselves,
/// declarations of types and storage, signatures, overloads, bodies, the entries. Want of memory says nothing.
#[tactic(auto, using(crate::proofs::BodyTurns::verdict_is))]
pub fn check_decls<'a>(
    alloc: Global,
    decls: &'a [Decl],
    entry: Entry,
) -> Result<Accepted<'a>, Refused>
    ensures { (t : Tests) → Suits t → Met (accepted_of entry) result (verdict entry decls.now t) }
{
    let Table {
        names,
        funcs,
        subs,
        globals: _globals,
    } = Table::build(alloc, decls)?;
    find_bodies(alloc, names, subs, funcs.as_slice(), entry)
}

/// What is made of a program that is well formed: its subprograms with their typed trees, its globals, and its entries.
#[derive(Drop)]
struct Made {
    funcs: Items<TreeFunc>,
    globals: Vec<Cell>,
    main: Option<SubId>,
    entry16: Option<SubId>,
}

/// A subprogram by its number, where there is one.
fn numbered(main: Option<usize>) -> Option<SubId>
    ensures { result ≡ main }
{
    match main {
        None => None,
        Some(number) => Some(SubId::new(number)),
    }
}

/// What is made of declarations such as texts give, where they are well formed.
fn make(alloc: Global, decls: &[Decl], entry: Entry) -> Result<Made, Refused>
    requires { AreGrown decls.now }
    ensures rule { (t : Tests) → Suits t → HasEntries (λ made. entries made.main made.entry16) result (verdict entry decls.now t) }
    ensures sealed { IfOk result (λ made. IsSealed decls.now entry (entries made.main made.entry16) made.funcs made.globals.items) }
{
    let Accepted {
        names,
        subs: _subs,
        funcs,
        entries,
    } = check_decls(alloc, decls, entry)?;
    let globals = find_globals(alloc, decls, &names)?;
    Ok(Made {
        funcs,
        globals,
        main: numbered(entries.main),
        entry16: numbered(entries.entry16),
    })
}

/// Checks a program that is written out, such as texts give: each enumeration has a label, and storage has a type or an
/// initialiser. That is less than being what some files are read to and written out as, and all that the rules and soundness
/// rest on. The program is accepted, and sealed, exactly if it is well formed with the entries that are asked for, and
/// otherwise refused at its one fault, by any right tests under the width limit. Want of memory says nothing.
pub fn check_written(alloc: Global, program: Program, entry: Entry) -> Result<Checked, Refused>
    requires { AreGrown program.decls }
    ensures { (t : Tests) → Suits t → IsVerdict t entry program.decls result }
{
    let Made {
        funcs,
        globals,
        main,
        entry16,
    } = make(alloc, program.decls.as_slice(), entry)?;
    Ok(Checked::seal(Parts {
        program,
        asked: entry,
        entry: main,
        entry16,
        subs: funcs,
        globals,
    }))
}

/// Checks both programs that come of what is read: first the one with the bodies that may be replaced, and then the one with
/// those that replace them, which is sealed.
fn check_both(alloc: Global, parted: Replacing, entry: Entry) -> Result<Checked, Refused>
    requires { AreGrown (final_of parted) }
    ensures { (t : Tests) → Suits t → Seals entry (final_of parted) (both_verdict entry parted t) result }
{
    check_decls(alloc, parted.defaults(), entry)?;
    let program = parted.replaced(alloc)?;
    check_written(alloc, program, entry)
}

/// Checks a program as it is read, such as texts give. First each body that replaces another is looked at (T26, T27); then the
/// program is judged with the bodies that may be replaced, and last with those that replace them, which is the program that is
/// sealed. It is accepted exactly if both are well formed with the entries that are asked for, and otherwise refused at its one
/// fault, by any right tests under the width limit. Want of memory says nothing.
pub fn check(alloc: Global, program: ReadProgram, entry: Entry) -> Result<Checked, Refused>
    requires { AreReadGrown program.decls }
    ensures { (t : Tests) → Suits t → IsReadVerdict t entry program.decls result }
{
    let parted = parted(alloc, program)?;
    if parted.replaces() {
        check_both(alloc, parted, entry)
    } else {
        let program = parted.replaced(alloc)?;
        check_written(alloc, program, entry)
    }
}
