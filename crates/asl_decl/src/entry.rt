//! The entries of a program.

ghost use Rattle.std.specs.Prelude.{◌≡◌, ◌<◌, ◌&&◌, Some, pos, option_map};
ghost use Rattle.std.specs.Option.{option_map_or};
ghost use Rattle.asl_poly.specs.Poly.{constant_map, constant_value};
ghost use Rattle.asl_rules.specs.declarations.Programs as rules;
ghost use Rattle.asl_rules.specs.types.Types as types;
ghost use Rattle.asl_decl.specs.Entered.{entries_of};
ghost use Rattle.asl_types.specs.private.Answers.{Agrees, Met};
ghost use Rattle.asl_types.specs.View.{parts_of};

use asl_poly::Poly;
use asl_rules::entry::Entry;
use asl_subprograms::{Signature, Subprograms};
use asl_syn::code::{Refused, StaticCode};
use asl_syn::token::Span;
use asl_types::Ty;
use asl_types::answer::fault;
use asl_types::kinds::{is_bits, is_integer};
use asl_types::structure::width_in;

/// The beginning of the first file.
fn origin() -> Span
    ensures { result ≡ rules.origin }
{
    Span {
        file: 0,
        start: 0,
        len: 0,
    }
}

/// Whether a result is an integer.
fn has_integer(ty: Option<&Ty>) -> bool
    ensures { result ≡ rules.has_integer (option_map (λ t. t.now) ty.entry) }
{
    match ty {
        None => false,
        Some(ty) => is_integer(ty),
    }
}

/// Whether there are no formals.
fn has_no_formal(formals: &[Ty]) -> bool
    ensures { result ≡ rules.has_no_formal (parts_of formals.now) }
{
    match formals.split_first() {
        None => true,
        Some(_) => false,
    }
}

/// A function that a run can begin with.
fn is_main(f: &Signature) -> bool
    ensures { result ≡ rules.is_main f.now }
{
    f.name().get().as_slice() == b"main".as_slice()
        && f.params().is_empty()
        && has_no_formal(f.formals())
        && has_integer(f.result())
}

/// Whether a number is this width.
fn is_this(number: i128, wide: u32) -> bool
    ensures { result ≡ rules.is_wide wide (Some number) }
{
    number == i128::from(wide)
}

/// Whether a width is this one, which isn't 0.
#[tactic(auto, using(crate::proofs::WordLemmas::no_word))]
fn is_word_wide(width: Option<&Poly>, wide: u32) -> bool
    requires { 0 < wide }
    ensures { result ≡ rules.is_wide wide (constant_value (option_map_or (λ w. w.now) width.entry (constant_map (pos 0)))) }
{
    match width {
        None => false,
        Some(width) => match width.as_constant() {
            None => false,
            Some(number) => is_this(number, wide),
        },
    }
}

/// Whether a type is bits of this width.
fn is_word(ty: &Ty, wide: u32) -> bool
    requires { 0 < wide }
    ensures { result ≡ (types.is_bits ty.now && rules.is_wide wide (constant_value (types.width_of ty.now))) }
{
    is_bits(ty) && is_word_wide(width_in(ty), wide)
}

/// One formal of this width.
fn has_word(formals: &[Ty], wide: u32) -> bool
    requires { 0 < wide }
    ensures { result ≡ rules.has_word wide (parts_of formals.now) }
{
    match formals.split_first() {
        None => false,
        Some((ty, rest)) => match rest.split_first() {
            None => is_word(ty, wide),
            Some(_) => false,
        },
    }
}

/// A procedure of this name that takes a word of this width.
fn takes_word(f: &Signature, name: &[u8], wide: u32) -> bool
    requires { 0 < wide }
    ensures { result ≡ rules.takes_word name.now wide f.now }
{
    f.name().get().as_slice() == name
        && f.params().is_empty()
        && has_word(f.formals(), wide)
        && f.result().is_none()
}

/// The number of the first function that a run can begin with, from 0.
fn find_main(signatures: &[Signature]) -> Option<usize>
    ensures { result ≡ rules.entry_from rules.is_main 0 signatures.now }
{
    for number in 0..signatures.len() {
        if is_main(&signatures[number]) {
            return Some(number);
        }
    }
    None
}

/// The number of the first procedure of this name that takes a word of this width, from 0.
fn find_word(signatures: &[Signature], name: &[u8], wide: u32) -> Option<usize>
    requires { 0 < wide }
    ensures { result ≡ rules.entry_from (rules.takes_word name.now wide) 0 signatures.now }
{
    for number in 0..signatures.len() {
        if takes_word(&signatures[number], name, wide) {
            return Some(number);
        }
    }
    None
}

/// The number of the first procedure that takes a word of 32 bits, from 0.
fn find_decode(signatures: &[Signature]) -> Option<usize>
    ensures { result ≡ rules.entry_from rules.is_decode 0 signatures.now }
{
    find_word(signatures, b"decode", 32)
}

/// The number of the first procedure that takes a word of 16 bits, from 0.
fn find_decode16(signatures: &[Signature]) -> Option<usize>
    ensures { result ≡ rules.entry_from rules.is_decode16 0 signatures.now }
{
    find_word(signatures, b"decode16", 16)
}

/// T24 at the beginning of the first file where there is no entry.
fn found(number: Option<usize>) -> Result<Option<usize>, Refused>
    ensures { Agrees result (rules.entry_found number) }
{
    match number {
        None => fault(StaticCode::T24, origin()),
        Some(number) => Ok(Some(number)),
    }
}

/// The subprograms that are the entries, by their numbers in source order, from 0, where they are asked for: the one that a run
/// begins with or that is called for words of 32 bits, and the one that is called for words of 16 bits.
#[derive(Clone, Copy)]
pub struct Entries {
    pub main: Option<usize>,
    pub entry16: Option<usize>,
}

/// An entry alone that isn't called for words of 16 bits.
fn main_alone(number: Option<usize>) -> Result<Entries, Refused>
    ensures { Met entries_of result (rules.main_rule number) }
{
    let main = found(number)?;
    Ok(Entries {
        main,
        entry16: None,
    })
}

/// An entry for words of 16 bits, beside another one, where there is one.
fn with_entry16(main: Option<usize>, number: Option<usize>) -> Result<Entries, Refused>
    ensures { Met entries_of result (rules.entry16_rule main number) }
{
    let entry16 = found(number)?;
    Ok(Entries { main, entry16 })
}

/// The entries that are asked for: T24 at the beginning of the first file where one is missing.
pub fn find_entries(entry: Entry, subs: &Subprograms) -> Result<Entries, Refused>
    ensures { Met entries_of result (rules.entry_rule entry subs.now) }
{
    let signatures = subs.signatures();
    match entry {
        Entry::None => Ok(Entries {
            main: None,
            entry16: None,
        }),
        Entry::Main => main_alone(find_main(signatures)),
        Entry::Decode => main_alone(find_decode(signatures)),
        Entry::Decode16 => with_entry16(None, find_decode16(signatures)),
        Entry::Both => {
            let main = found(find_decode(signatures))?;
            with_entry16(main, find_decode16(signatures))
        }
    }
}
