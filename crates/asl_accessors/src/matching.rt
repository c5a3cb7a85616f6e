//! Which `implementation` matches which `impdef`.

ghost use Rattle.std.specs.Prelude.{◌≡◌, [], Some, if◌then◌else◌, option_map, false, not, IfOk, OnOk};
ghost use Rattle.std.specs.Str.{bytes_eq};
ghost use Rattle.asl_rules.specs.Faults.{fault_of};
ghost use Rattle.asl_rules.specs.declarations.Keys as rules;
ghost use Rattle.asl_rules.specs.declarations.Replacing as replacing;
ghost use Rattle.asl_accessors.specs.Judged.{IsMatched};
ghost use Rattle.asl_accessors.specs.private.Parts.{Answers, AreFirsts, AreLasts, IsKept, all_seen, has_place, header_judged, header_placed, headers_judged, headers_placed, heads, is_elsewhere, parts_in, place_in, seen, worded};

use crate::keys::{Key, accessor_key, func_key};
use asl_syn::code::{Fault, Refused, StaticCode};
use asl_syn::read::{BodyWord, ReadDecl};
use asl_syn::token::Span;
use indexmap::IndexMap;
use std::alloc::{AllocError, Global};
use std::marker::Model;

/// A declaration with a body and a word: the word, the key of its header, and where its name stands.
#[derive(Drop)]
pub struct Header {
    pub word: BodyWord,
    pub key: Key,
    pub at: Span,
}

/// What becomes of a declaration. A place is a number of declarations that stand before.
#[derive(Clone, Copy, PartialEq, Eq)]
pub enum Part {
    /// It stays as it is.
    Stays,
    /// An `impdef`: the `implementation` at this place replaces it, and none behind it.
    Replaced(usize),
    /// An `impdef`: the `implementation` at this place replaces it, and one behind it.
    AlsoReplaced(usize),
    /// An `implementation`.
    Replaces,
}

/// Keys of headers, each with the place of a declaration. Contracts see the list of these.
struct Places<'a> {
    places: IndexMap<&'a [u128], usize>,
}

// By hand, so that a drop of one is a call, as `Held` of asl_shared says.
impl<'a> Drop for Places<'a> {
    fn drop(self) {
        let Places { places: _places } = self;
    }
}

impl<'a> Model for Places<'a> {
    ghost use Rattle.asl_accessors.specs.private.Parts.{Places, placed};

    ghost Value = { Places };

    ghost view = { λ p. placed p.places.entries };
}

impl<'a> Places<'a> {
    /// No keys.
    fn new(alloc: Global) -> Places<'a>
        ensures { result ≡ [] }
    {
        Places {
            places: IndexMap::new(alloc),
        }
    }

    /// The place of a key.
    fn get(&self, key: &[u128]) -> Option<usize>
        ensures { result ≡ place_in self.now key.now }
    {
        self.places.get(key).copied()
    }

    /// Keeps a key with its place, and not with that which it had.
    fn put(&mut self, key: &'a [u128], place: usize) -> Result<(), AllocError>
        ensures { OnOk result ((k : rules.Key) → place_in self.new k ≡ (if bytes_eq key.now k then Some place else place_in self.old k)) }
    {
        self.places.insert(key, place)?;
        Ok(())
    }
}

/// The header of a declaration that has a word.
fn header_of(alloc: Global, decl: &ReadDecl) -> Result<Option<Header>, AllocError>
    ensures { IfOk result (λ header. option_map seen header ≡ worded (replacing.header_of decl.now)) }
{
    let (word, key, at) = match decl {
        ReadDecl::Type(_) => return Ok(None),
        ReadDecl::Storage(_) => return Ok(None),
        ReadDecl::Func(func) => {
            if func.word == BodyWord::NoWord {
                return Ok(None);
            }
            (func.word, func_key(alloc, func)?, func.name.span)
        }
        ReadDecl::Accessor(accessor) => {
            if accessor.word == BodyWord::NoWord {
                return Ok(None);
            }
            let key = accessor_key(alloc, accessor)?;
            (accessor.word, key, accessor.name.span)
        }
    };
    Ok(Some(Header { word, key, at }))
}

/// The headers of declarations, where they have a word.
fn headers_of(alloc: Global, decls: &[ReadDecl]) -> Result<Vec<Option<Header>>, AllocError>
    ensures { IfOk result (λ headers. all_seen headers.items ≡ heads decls.now) }
{
    let mut headers = Vec::new(alloc);
    for decl in decls {
        headers.push(header_of(alloc, decl)?)?;
    }
    Ok(headers)
}

/// Keeps an `impdef` with its place.
fn keep_impdef<'a>(
    places: &mut Places<'a>,
    header: &'a Option<Header>,
    place: usize,
) -> Result<(), AllocError>
    ensures { OnOk result (IsKept replacing.is_impdef (option_map seen header.now) place places.old places.new) }
{
    match header {
        None => Ok(()),
        Some(header) => match header.word {
            BodyWord::NoWord | BodyWord::Implementation => Ok(()),
            BodyWord::ImpDef => places.put(header.key.as_slice(), place),
        },
    }
}

/// The keys of the `impdef`s, each with the place of the last one that has it.
fn impdefs<'a>(alloc: Global, headers: &'a [Option<Header>]) -> Result<Places<'a>, AllocError>
    ensures { IfOk result (λ places. AreLasts (all_seen headers.now) places) }
{
    let mut places = Places::new(alloc);
    for (place, header) in headers.iter().enumerate() {
        keep_impdef(&mut places, header, place)?;
    }
    Ok(places)
}

fn fault(code: StaticCode, span: Span) -> Refused
    ensures { result ≡ Refused.At (fault_of code span) }
{
    Refused::At(Fault {
        code,
        inner: None,
        span,
    })
}

/// Keeps an `implementation` with its place. T26 where no `impdef` matches it, and T27 where one before it
/// is the same.
fn keep_implementation<'a>(
    places: &mut Places<'a>,
    header: &'a Option<Header>,
    place: usize,
    impdefs: &Places<'a>,
) -> Result<(), Refused>
    ensures kept { OnOk result (IsKept replacing.is_implementation (option_map seen header.now) place places.old places.new) }
    ensures judged { Answers result (header_judged (has_place impdefs.now) (has_place places.old) (option_map seen header.now)) }
{
    match header {
        None => Ok(()),
        Some(header) => match header.word {
            BodyWord::NoWord | BodyWord::ImpDef => Ok(()),
            BodyWord::Implementation => {
                let key = header.key.as_slice();
                if impdefs.get(key).is_none() {
                    return Err(fault(StaticCode::T26, header.at));
                }
                if places.get(key).is_some() {
                    return Err(fault(StaticCode::T27, header.at));
                }
                places.put(key, place)?;
                Ok(())
            }
        },
    }
}

/// The keys of the `implementation`s with their places. The first that no `impdef` matches is T26, and the
/// first that is the same as one before it T27.
fn implementations<'a>(
    alloc: Global,
    headers: &'a [Option<Header>],
    impdefs: &Places<'a>,
) -> Result<Places<'a>, Refused>
    ensures kept { IfOk result (λ places. AreFirsts (all_seen headers.now) places) }
    ensures judged { Answers result (headers_judged (has_place impdefs.now) (λ _. false) (all_seen headers.now)) }
{
    let mut places = Places::new(alloc);
    for (place, header) in headers.iter().enumerate() {
        keep_implementation(&mut places, header, place, impdefs)?;
    }
    Ok(places)
}

/// Whether the last `impdef` of a key stands at this place.
fn is_last(place: usize, last: Option<usize>) -> bool
    ensures { result ≡ not (is_elsewhere place last) }
{
    match last {
        None => false,
        Some(last) => last == place,
    }
}

/// What becomes of the declaration at a place, which has a word.
fn part_of<'a>(
    place: usize,
    header: &'a Header,
    implementations: &Places<'a>,
    impdefs: &Places<'a>,
) -> Part
    ensures { result ≡ header_placed (place_in implementations.now) (place_in impdefs.now) place (Some (seen header.now)) }
{
    let key = header.key.as_slice();
    match header.word {
        BodyWord::NoWord => Part::Stays,
        BodyWord::Implementation => Part::Replaces,
        BodyWord::ImpDef => match implementations.get(key) {
            None => Part::Stays,
            Some(by) => {
                if is_last(place, impdefs.get(key)) {
                    Part::Replaced(by)
                } else {
                    Part::AlsoReplaced(by)
                }
            }
        },
    }
}

/// What becomes of each declaration.
fn parts_of<'a>(
    alloc: Global,
    headers: &'a [Option<Header>],
    implementations: &Places<'a>,
    impdefs: &Places<'a>,
) -> Result<Vec<Part>, AllocError>
    ensures { IfOk result (λ parts. parts.items ≡ headers_placed (place_in implementations.now) (place_in impdefs.now) 0 (all_seen headers.now)) }
{
    let mut parts = Vec::new(alloc);
    for (place, header) in headers.iter().enumerate() {
        let part = match header {
            None => Part::Stays,
            Some(header) => part_of(place, header, implementations, impdefs),
        };
        parts.push(part)?;
    }
    Ok(parts)
}

/// What becomes of each declaration. The first `implementation` that no `impdef` matches is T26, and the
/// first that matches an `impdef` which one before it matches is T27.
pub fn match_bodies(alloc: Global, decls: &[ReadDecl]) -> Result<Vec<Part>, Refused>
    ensures matched { IsMatched decls.now result }
    ensures each { IfOk result (λ parts. parts.items ≡ parts_in decls.now decls.now) }
{
    let headers = headers_of(alloc, decls)?;
    let impdefs = impdefs(alloc, headers.as_slice())?;
    let implementations = implementations(alloc, headers.as_slice(), &impdefs)?;
    Ok(parts_of(alloc, headers.as_slice(), &implementations, &impdefs)?)
}
