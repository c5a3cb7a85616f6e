//! Programs that are well formed.
ghost use Rattle.std.specs.Prelude.{◌≡◌, ◌↔◌, ◌⊎◌, Option};
ghost use Rattle.asl_rules.specs.declared.entry.Entry.TheVariants as asked;
ghost use Rattle.asl_tree.specs.Sealed.{entries_of, sealed_of, IsSealed};

use crate::act::TreeFunc;
use asl_rules::entry::Entry;
use asl_syn::tree::Program;
use asl_types::Ty;
use asl_value::{Name, Value};
use sqlite_items::Items;
use std::marker::Model;

/// The number of a subprogram in source order, from 0.
#[derive(Clone, Copy, PartialEq, Eq)]
pub struct SubId {
    number: usize,
}

impl Model for SubId {
    ghost use Rattle.std.specs.Prelude.{ℕ};

    ghost Value = { ℕ };

    ghost view = { λ s. s.number };

    ghost inverse = { λ n. record { number = n } };
}

impl SubId {
    /// The subprogram of this number.
    pub fn new(number: usize) -> SubId
        ensures { result ≡ number }
    {
        SubId { number }
    }

    /// The number, from 0.
    pub fn number(self) -> usize
        ensures { result ≡ self }
    {
        self.number
    }
}

/// Global storage: its name, its type, the value that a run begins with, and whether it can be assigned.
pub struct Global {
    pub name: Name,
    pub ty: Ty,
    pub value: Value,
    pub is_mutable: bool,
}

// By hand, so that a drop of one is a call, as `Held` of asl_shared says.
impl Drop for Global {
    fn drop(self) {
        let Global {
            name: _name,
            ty,
            value,
            is_mutable: _is_mutable,
        } = self;
        drop(ty);
        drop(value);
    }
}

/// What a program that is well formed is sealed of: its trees as they were written, the entries that were asked for, the
/// subprograms that they are, where they were asked for, and the typed trees of its subprograms and its globals, each in source
/// order.
pub struct Parts {
    pub program: Program,
    pub asked: Entry,
    pub entry: Option<SubId>,
    pub entry16: Option<SubId>,
    pub subs: Items<TreeFunc>,
    pub globals: Vec<Global>,
}

// By hand, so that a drop of one is a call, as `Held` of asl_shared says.
impl Drop for Parts {
    fn drop(self) {
        let Parts {
            program: _program,
            asked: _asked,
            entry: _entry,
            entry16: _entry16,
            subs: _subs,
            globals: _globals,
        } = self;
    }
}

/// A program that is well formed with the entries that were asked for, the typed trees of its subprograms, and its globals.
/// Contracts see its declarations and the entries: they determine the trees and the globals.
pub struct Checked {
    parts: Parts,
}

// By hand, so that a drop of one is a call, as `Held` of asl_shared says.
impl Drop for Checked {
    fn drop(self) {
        let Checked { parts } = self;
        drop(parts);
    }
}

impl Model for Checked {
    ghost use Rattle.asl_tree.specs.Sealed.{Sealed, entries_of, sealed_code, sealed_of, IsSealed};

    ghost Value = { Sealed };

    ghost coded = { sealed_code };

    ghost view = { λ c. sealed_of c.parts };

    ghost invariant = { λ c. IsSealed c.parts.program.decls c.parts.asked (entries_of c.parts) c.parts.subs c.parts.globals.items };
}

impl Checked {
    /// Seals the parts of a program that is well formed with these entries, which are these subprograms: the typed trees of its
    /// subprograms, and its globals with the types that their names have outside bodies and the values that a run begins with.
    pub fn seal(parts: Parts) -> Checked
        requires { IsSealed parts.program.decls parts.asked (entries_of parts) parts.subs parts.globals.items }
        ensures { result ≡ sealed_of parts }
    {
        Checked { parts }
    }

    /// The entries that were asked for.
    pub fn asked(&self) -> Entry
        ensures { result ≡ self.now.asked }
    {
        self.parts.asked
    }

    /// The subprogram that a run begins with, or that is called for words of 32 bits: none exactly where no entry was asked for,
    /// or `decode16` alone.
    #[tactic(auto, using(crate::proofs::Asked::entry_asked))]
    pub fn entry(&self) -> Option<SubId>
        ensures main { result ≡ self.now.entries.main }
        ensures none { result ≡ Option.None ↔ ((self.now.asked ≡ asked.None) ⊎ (self.now.asked ≡ asked.Decode16)) }
    {
        self.parts.entry
    }

    /// The subprogram that is called for words of 16 bits: none exactly where no entry was asked for, or `main`, or `decode` alone.
    #[tactic(auto, using(crate::proofs::Asked::entry16_asked))]
    pub fn entry16(&self) -> Option<SubId>
        ensures entry16 { result ≡ self.now.entries.entry16 }
        ensures none { result ≡ Option.None ↔ ((self.now.asked ≡ asked.None) ⊎ ((self.now.asked ≡ asked.Main) ⊎ (self.now.asked ≡ asked.Decode))) }
    {
        self.parts.entry16
    }

    /// The trees of the program, as they were written.
    pub fn program(&self) -> &Program
        ensures { result.now.decls ≡ self.now.decls }
    {
        &self.parts.program
    }

    /// The parts that it was sealed of.
    pub fn parts(&self) -> &Parts
        ensures whole { sealed_of result.now ≡ self.now }
        ensures sealed { IsSealed self.now.decls self.now.asked self.now.entries result.now.subs result.now.globals.items }
    {
        &self.parts
    }
}
