//! Whole programs: written out, and with the bodies that replace others.

ghost use Rattle.std.specs.Prelude.{◌≡◌, false, ◌++◌, IfOk, OnOk};
ghost use Rattle.std.specs.Option.{option_copied};
ghost use Rattle.asl_accessors.specs.Judged.{final_of, IsMatched};
ghost use Rattle.asl_accessors.specs.private.Standing.{all_without_word, default_for, final_for, left_for, written_for};
ghost use Rattle.asl_rules.specs.declarations.Programs.{default_decls, final_decls};
ghost use Rattle.asl_rules.specs.declarations.Replacing as replacing;
ghost use Rattle.asl_rules.specs.declarations.WrittenOut as rules;

use crate::declarations::write_decl;
use crate::holes::{Hole, push_hole, put_all, write_others};
use crate::lists::reversed;
use crate::matching::{Part, match_bodies};
use asl_copy::decls::{copy_decl, copy_decls};
use asl_syn::code::Refused;
use asl_syn::read::{BodyWord, ReadDecl, ReadProgram};
use asl_syn::tree::{Decl, Program};
use sqlite_items::{Items, at};
use std::alloc::{AllocError, Global};
use std::marker::Model;

// ---- what callers who keep the program are given

/// A program, written out: each accessor as a function and a procedure, and each statement that stores through one as the
/// statements that do so.
pub fn written_out(alloc: Global, program: &ReadProgram) -> Result<Program, AllocError>
    ensures { IfOk result (λ written. written.decls ≡ rules.written_out program.now.decls) }
{
    let decls = copy_decls(alloc, program.decls.as_slice())?;
    let mut rest = reversed(alloc, decls)?;
    let mut written = Items::new(alloc);
    while let Some(decl) = rest.pop() {
        write_decl(alloc, decl, &mut written)?;
    }
    Ok(Program { decls: written })
}

/// A declaration without the word of its body.
fn without_word(decl: ReadDecl) -> ReadDecl
    ensures { result ≡ replacing.without_word decl }
{
    match decl {
        ReadDecl::Type(decl) => ReadDecl::Type(decl),
        ReadDecl::Storage(decl) => ReadDecl::Storage(decl),
        ReadDecl::Func(mut func) => {
            func.word = BodyWord::NoWord;
            ReadDecl::Func(func)
        }
        ReadDecl::Accessor(mut accessor) => {
            accessor.word = BodyWord::NoWord;
            ReadDecl::Accessor(accessor)
        }
    }
}

/// The declaration that stands for the one at this place in the program with the bodies that may be replaced.
fn default_at<'a>(part: Part, place: usize, all: &'a [ReadDecl]) -> Option<&'a ReadDecl>
    ensures { option_copied result ≡ default_for part place all.now }
{
    match part {
        Part::Stays => at(all, place),
        Part::Replaced(_) => at(all, place),
        Part::AlsoReplaced(_) => at(all, place),
        Part::Replaces => None,
    }
}

/// The declaration that stands for the one at this place in the program with the bodies that replace others.
fn final_at<'a>(part: Part, place: usize, all: &'a [ReadDecl]) -> Option<&'a ReadDecl>
    ensures { option_copied result ≡ final_for part place all.now }
{
    match part {
        Part::Stays => at(all, place),
        Part::Replaced(by) => at(all, by),
        Part::AlsoReplaced(by) => at(all, by),
        Part::Replaces => None,
    }
}

/// Adds a copy of a declaration without its word, if there is one.
fn push_copy(
    alloc: Global,
    decl: Option<&ReadDecl>,
    decls: &mut Items<ReadDecl>,
) -> Result<(), AllocError>
    ensures { OnOk result (decls.new ≡ decls.old ++ all_without_word (option_copied decl.entry)) }
{
    match decl {
        None => Ok(()),
        Some(decl) => decls.push(without_word(copy_decl(alloc, decl)?)),
    }
}

/// The program with the bodies that may be replaced, and without those that replace them.
pub fn defaults(alloc: Global, program: &ReadProgram) -> Result<ReadProgram, Refused>
    ensures matched { IsMatched program.now.decls result }
    ensures made { IfOk result (λ made. made.decls ≡ replacing.defaults program.now.decls) }
{
    let all = program.decls.as_slice();
    let parts = match_bodies(alloc, all)?;
    let mut decls = Items::new(alloc);
    for (place, part) in parts.as_slice().iter().enumerate() {
        push_copy(alloc, default_at(*part, place, all), &mut decls)?;
    }
    Ok(ReadProgram { decls })
}

/// The program with the bodies that replace others.
pub fn replaced(alloc: Global, program: &ReadProgram) -> Result<ReadProgram, Refused>
    ensures matched { IsMatched program.now.decls result }
    ensures made { IfOk result (λ made. made.decls ≡ replacing.replaced program.now.decls) }
{
    let all = program.decls.as_slice();
    let parts = match_bodies(alloc, all)?;
    let mut decls = Items::new(alloc);
    for (place, part) in parts.as_slice().iter().enumerate() {
        push_copy(alloc, final_at(*part, place, all), &mut decls)?;
    }
    Ok(ReadProgram { decls })
}

// ---- what the checker judges, which keeps no copy of the program

/// A program that is written out with the bodies that may be replaced, where those are, and the declarations that take their
/// places, each at its own place. These are written out only when they are asked for: one may take the place of many.
pub struct Replacing {
    decls: Items<Decl>,
    holes: Items<Hole>,
    placed: Vec<Option<ReadDecl>>,
}

// By hand, so that a drop of one is a call, as `Held` of asl_shared says.
impl Drop for Replacing {
    fn drop(self) {
        let Replacing {
            decls: _decls,
            holes: _holes,
            placed: _placed,
        } = self;
    }
}

impl Model for Replacing {
    ghost use Rattle.std.specs.Prelude.{[]};
    ghost use Rattle.asl_accessors.specs.Judged.{Both, both_code};
    ghost use Rattle.asl_accessors.specs.private.Holes.{others_from};

    ghost Value = { Both };

    ghost coded = { both_code };

    ghost view = { λ r. record { defaults = r.decls; others = others_from [] r.holes r.placed.items } };
}

impl Replacing {
    /// Whether a body replaces another.
    pub fn replaces(&self) -> bool
        ensures { result ≡ false → final_of self.now ≡ self.now.defaults }
    {
        !self.holes.is_empty()
    }

    /// The declarations with the bodies that may be replaced.
    pub fn defaults(&self) -> &[Decl]
        ensures { result.now ≡ self.now.defaults }
    {
        self.decls.as_slice()
    }

    /// The program with the bodies that replace others.
    pub fn replaced(self, alloc: Global) -> Result<Program, AllocError>
        ensures { IfOk result (λ program. program.decls ≡ final_of self) }
    {
        let Replacing {
            decls,
            holes,
            placed,
        } = self;
        let others = write_others(alloc, holes.as_slice(), placed)?;
        let mut decls = decls;
        put_all(&mut decls, others);
        Ok(Program { decls })
    }
}

/// Writes out a declaration behind others, unless it takes the place of one: then it is given back.
fn write_default(
    alloc: Global,
    part: Part,
    decl: ReadDecl,
    decls: &mut Items<Decl>,
) -> Result<Option<ReadDecl>, AllocError>
    ensures left { IfOk result (λ left. left ≡ left_for part decl) }
    ensures written { OnOk result (decls.new ≡ decls.old ++ written_for part decl) }
{
    match part {
        Part::Stays => write_decl(alloc, decl, decls)?,
        Part::Replaced(_) => write_decl(alloc, decl, decls)?,
        Part::AlsoReplaced(_) => write_decl(alloc, decl, decls)?,
        Part::Replaces => return Ok(Some(decl)),
    }
    Ok(None)
}

/// A program, written out with the bodies that may be replaced, and what takes their places. The first `implementation` that no
/// `impdef` matches is T26, and the first that matches an `impdef` which one before it matches is T27.
pub fn parted(alloc: Global, program: ReadProgram) -> Result<Replacing, Refused>
    ensures matched { IsMatched program.decls result }
    ensures defaults { IfOk result (λ r. r.defaults ≡ default_decls program.decls) }
    ensures replaced { IfOk result (λ r. final_of r ≡ final_decls program.decls) }
{
    let parts = match_bodies(alloc, program.decls.as_slice())?;
    let mut rest = reversed(alloc, program.into_decls())?;
    let mut decls = Items::new(alloc);
    let mut holes = Items::new(alloc);
    let mut placed = Vec::new(alloc);
    while let Some(decl) = rest.pop() {
        let part = parts[placed.len()];
        push_hole(part, decls.len(), &mut holes)?;
        placed.push(write_default(alloc, part, decl, &mut decls)?)?;
    }
    Ok(Replacing {
        decls,
        holes,
        placed,
    })
}
