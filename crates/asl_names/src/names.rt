//! The names that a program declares outside its bodies.

ghost use Rattle.std.specs.Prelude.{◌≡◌, [], false, map, OnOk, IfErr};
ghost use Rattle.asl_syn.specs.declared.tree.Decl.TheVariants as decl;
ghost use Rattle.asl_rules.specs.declarations.Names as rules;
ghost use Rattle.asl_names.specs.private.Answers.{Met, Agrees};
ghost use Rattle.asl_names.specs.private.Known.{known, with_name, after_name, after_names, after_decls};

use crate::answer::fault;
use crate::library;
use asl_syn::code::{Refused, StaticCode};
use asl_syn::tree::{Decl, Ident, TypeDecl, TypeDef};
use indexmap::IndexMap;
use std::alloc::Global;
use std::marker::Model;

/// Names that were declared, each with whether its first declaration is a subprogram's.
#[derive(Drop)]
pub struct Names<'a> {
    subprograms: IndexMap<&'a [u8], bool>,
}

impl<'a> Model for Names<'a> {
    ghost use Rattle.std.specs.Prelude.{map};
    ghost use Rattle.asl_names.specs.private.Known.{Known};

    ghost Value = { Known };

    ghost view = { λ n. map (λ e. (e.0.now, e.1)) n.subprograms.entries };
}

impl<'a> Names<'a> {
    /// No names.
    pub fn new(alloc: Global) -> Names<'a>
        ensures { result ≡ [] }
    {
        Names {
            subprograms: IndexMap::new(alloc),
        }
    }

    /// Whether the first declaration of this name is a subprogram's, where there is one.
    pub fn get(&self, name: &[u8]) -> Option<bool>
        ensures { result ≡ known self.now name.now }
    {
        self.subprograms.get(name).copied()
    }

    /// Keeps a name, where it isn't there.
    pub fn keep(&mut self, name: &'a [u8], is_subprogram: bool) -> Result<(), Refused>
        ensures kept { OnOk result (self.new ≡ with_name name.now is_subprogram self.old) }
        ensures memory { IfErr result (λ e. e ≡ Refused.NoMemory) }
    {
        if self.get(name).is_none() {
            self.subprograms.insert(name, is_subprogram)?;
        }
        Ok(())
    }
}

/// Whether a name may be declared again: only subprograms may share one.
fn may_share(standing: Option<bool>, is_subprogram: bool) -> bool
    ensures { result ≡ rules.may_share standing is_subprogram }
{
    match standing {
        None => true,
        Some(first) => first && is_subprogram,
    }
}

/// One more name: T01 at it where it is taken.
fn declare<'a>(names: &mut Names<'a>, name: &'a Ident, is_subprogram: bool) -> Result<(), Refused>
    ensures { Met (λ _. names.new) result (after_name names.old name.now is_subprogram) }
{
    let text = name.text.as_slice();
    if library::is_listed(text) || !may_share(names.get(text), is_subprogram) {
        return fault(StaticCode::T01, name.span);
    }
    names.keep(text, is_subprogram)
}

fn declare_labels<'a>(names: &mut Names<'a>, labels: &'a [Ident]) -> Result<(), Refused>
    ensures { Met (λ _. names.new) result (after_names names.old (map (rules.declared_as false) labels.now)) }
{
    for label in labels {
        declare(names, label, false)?;
    }
    Ok(())
}

fn declare_type<'a>(names: &mut Names<'a>, d: &'a TypeDecl) -> Result<(), Refused>
    ensures { Met (λ _. names.new) result (after_names names.old (rules.declared_by (decl.Type d.now))) }
{
    declare(names, &d.name, false)?;
    match &d.def {
        TypeDef::Labels(_, labels) => declare_labels(names, labels.as_slice()),
        TypeDef::Alias(_) => Ok(()),
        TypeDef::Record(_, _) => Ok(()),
        TypeDef::Exception(_, _) => Ok(()),
    }
}

fn declare_decl<'a>(names: &mut Names<'a>, d: &'a Decl) -> Result<(), Refused>
    ensures { Met (λ _. names.new) result (after_names names.old (rules.declared_by d.now)) }
{
    match d {
        Decl::Type(t) => declare_type(names, t),
        Decl::Storage(s) => declare(names, &s.name, false),
        Decl::Func(f) => declare(names, &f.name, true),
    }
}

fn declare_all<'a>(alloc: Global, decls: &'a [Decl]) -> Result<Names<'a>, Refused>
    ensures { Agrees result (after_decls [] decls.now) }
{
    let mut names = Names::new(alloc);
    for d in decls {
        declare_decl(&mut names, d)?;
    }
    Ok(names)
}

/// T01 at the first name that is taken, by one before it or by the library. It is `declare_all` without its names, with
/// the clause of the rules.
#[tactic(auto, using(crate::proofs::Walks::names_walk))]
pub(crate) fn check_names(alloc: Global, decls: &[Decl]) -> Result<(), Refused>
    ensures { Agrees result (rules.names_rule [] (rules.all_declared decls.now)) }
{
    declare_all(alloc, decls)?;
    Ok(())
}
