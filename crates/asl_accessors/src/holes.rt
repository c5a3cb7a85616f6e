//! Bodies that are replaced, and the declarations that take their places.

ghost use Rattle.std.specs.Prelude.{◌≡◌, ◌-◌, ◌<◌, [], ◌++◌, None, Some, IfOk, OnOk, length, map, replicate, slice_index_or, slice_set};
ghost use Rattle.asl_accessors.specs.Judged.{or_defaults};
ghost use Rattle.asl_accessors.specs.private.Holes.{filled, holes_for, left_by, other_of, others_from, others_written, with_other};

use crate::declarations::write_decl;
use crate::lists::reversed;
use crate::matching::Part;
use asl_copy::decls::copy_decl;
use asl_syn::read::ReadDecl;
use asl_syn::tree::Decl;
use sqlite_items::Items;
use std::alloc::{AllocError, Global};

/// A body that is replaced: how many declarations are written before it, at which place the declaration stands that takes its
/// place, and whether that takes no place behind it.
#[derive(Clone, Copy)]
pub struct Hole {
    pub from: usize,
    pub by: usize,
    pub is_last: bool,
}

// ---- where they are

/// Adds a body that is replaced, if this one is. So many declarations are written before it.
pub fn push_hole(part: Part, from: usize, holes: &mut Items<Hole>) -> Result<(), AllocError>
    ensures { OnOk result (holes.new ≡ holes.old ++ holes_for part from) }
{
    match part {
        Part::Stays => Ok(()),
        Part::Replaced(by) => holes.push(Hole {
            from,
            by,
            is_last: true,
        }),
        Part::AlsoReplaced(by) => holes.push(Hole {
            from,
            by,
            is_last: false,
        }),
        Part::Replaces => Ok(()),
    }
}

// ---- what takes their places

/// Takes the declaration from a place, which holds none then.
fn take_at(placed: &mut Vec<Option<ReadDecl>>, place: usize) -> Option<ReadDecl>
    requires { place < length placed.old.items }
    ensures taken { result ≡ slice_index_or placed.old.items place None }
    ensures left { placed.new.items ≡ slice_set placed.old.items place None }
{
    placed[place].take()
}

/// A copy of the declaration in a place.
fn copy_at(
    alloc: Global,
    placed: &Vec<Option<ReadDecl>>,
    place: usize,
) -> Result<Option<ReadDecl>, AllocError>
    requires { place < length placed.now.items }
    ensures { IfOk result (λ copy. copy ≡ slice_index_or placed.now.items place None) }
{
    match &placed[place] {
        None => Ok(None),
        Some(decl) => Ok(Some(copy_decl(alloc, decl)?)),
    }
}

/// The declaration that takes the place of a body: it is taken from its own place, or copied where it is wanted again.
fn take_other(
    alloc: Global,
    hole: Hole,
    placed: &mut Vec<Option<ReadDecl>>,
) -> Result<Option<ReadDecl>, AllocError>
    ensures other { IfOk result (λ other. other ≡ other_of hole placed.old.items) }
    ensures left { OnOk result (placed.new.items ≡ left_by hole placed.old.items) }
{
    if hole.by >= placed.len() {
        return Ok(None);
    }
    if hole.is_last {
        Ok(take_at(placed, hole.by))
    } else {
        copy_at(alloc, placed, hole.by)
    }
}

/// Fills up to so many places in which no declaration takes the place of another.
fn fill_up(others: &mut Items<Option<Decl>>, count: usize) -> Result<(), AllocError>
    ensures { OnOk result (others.new ≡ filled count others.old) }
{
    while others.len() < count {
        others.push(None)?;
    }
    Ok(())
}

/// Adds declarations that take the place of others.
fn push_all(
    alloc: Global,
    others: &mut Items<Option<Decl>>,
    decls: Items<Decl>,
) -> Result<(), AllocError>
    ensures { OnOk result (others.new ≡ others.old ++ map (λ d. Some d) decls) }
{
    let mut rest = reversed(alloc, decls)?;
    while let Some(decl) = rest.pop() {
        others.push(Some(decl))?;
    }
    Ok(())
}

/// Writes out the declaration that takes the place of a body, in that place.
fn write_other(
    alloc: Global,
    hole: Hole,
    placed: &mut Vec<Option<ReadDecl>>,
    others: &mut Items<Option<Decl>>,
) -> Result<(), AllocError>
    ensures others { OnOk result (others.new ≡ filled hole.from others.old ++ others_written (other_of hole placed.old.items)) }
    ensures left { OnOk result (placed.new.items ≡ left_by hole placed.old.items) }
{
    let other = take_other(alloc, hole, placed)?;
    fill_up(others, hole.from)?;
    match other {
        None => Ok(()),
        Some(other) => {
            let mut written = Items::new(alloc);
            write_decl(alloc, other, &mut written)?;
            push_all(alloc, others, written)
        }
    }
}

/// Writes out the declarations that take the places of bodies, each in its place.
pub fn write_others(
    alloc: Global,
    holes: &[Hole],
    placed: Vec<Option<ReadDecl>>,
) -> Result<Items<Option<Decl>>, AllocError>
    ensures { IfOk result (λ others. others ≡ others_from [] holes.now placed.items) }
{
    let mut placed = placed;
    let mut others = Items::new(alloc);
    for hole in holes {
        write_other(alloc, *hole, &mut placed, &mut others)?;
    }
    Ok(others)
}

// ---- putting them there

/// Puts a declaration in this place, if one takes it.
fn put_at(decls: &mut Items<Decl>, place: usize, other: Option<Decl>)
    ensures { decls.new ≡ with_other decls.old place other }
{
    if let Some(decl) = other {
        if place < decls.len() {
            decls.set(place, decl);
        }
    }
}

/// Puts declarations in the places that they take.
#[tactic(auto, using(crate::proofs::OthersInPlace::last_put, crate::proofs::OthersInPlace::none_in_place))]
pub fn put_all(decls: &mut Items<Decl>, others: Items<Option<Decl>>)
    ensures { decls.new ≡ or_defaults decls.old others }
{
    let mut rest = others;
    while let Some(other) = rest.pop() {
        put_at(decls, rest.len(), other);
    }
}
