//! Copies of targets and of what stands behind them.

ghost use Rattle.std.specs.Prelude.{◌≡◌, IfOk};

use crate::exprs::{copy_expr, copy_slices};
use crate::names::{copy_ident, copy_idents};
use asl_syn::tree::{PlacedSuffix, Suffix, Target};
use sqlite_items::Items;
use std::alloc::{AllocError, Global};

/// A copy of a suffix.
fn copy_suffix(alloc: Global, suffix: &Suffix) -> Result<Suffix, AllocError>
    ensures { IfOk result (λ copy. copy ≡ suffix.now) }
{
    match suffix {
        Suffix::FieldOf(field) => Ok(Suffix::FieldOf(copy_ident(alloc, field)?)),
        Suffix::FieldsOf(fields) => Ok(Suffix::FieldsOf(copy_idents(alloc, fields.as_slice())?)),
        Suffix::SlicesOf(slices) => Ok(Suffix::SlicesOf(copy_slices(alloc, slices.as_slice())?)),
        Suffix::ElementOf(index) => Ok(Suffix::ElementOf(copy_expr(alloc, index)?)),
    }
}

/// A copy of a suffix with its place.
fn copy_placed(alloc: Global, placed: &PlacedSuffix) -> Result<PlacedSuffix, AllocError>
    ensures { IfOk result (λ copy. copy ≡ placed.now) }
{
    Ok(PlacedSuffix {
        end: placed.end,
        suffix: copy_suffix(alloc, &placed.suffix)?,
    })
}

/// Copies of suffixes with their places.
pub fn copy_suffixes(
    alloc: Global,
    items: &[PlacedSuffix],
) -> Result<Items<PlacedSuffix>, AllocError>
    ensures { IfOk result (λ copies. copies ≡ items.now) }
{
    let mut copies = Items::new(alloc);
    for item in items {
        copies.push(copy_placed(alloc, item)?)?;
    }
    Ok(copies)
}

/// A copy of a target.
#[cycle(target_copies)]
pub fn copy_target(alloc: Global, target: &Target) -> Result<Target, AllocError>
    ensures { IfOk result (λ copy. copy ≡ target.now) }
{
    match target {
        Target::Discarded(span) => Ok(Target::Discarded(*span)),
        Target::Place(span, name, suffixes) => {
            let name = copy_ident(alloc, name)?;
            let suffixes = copy_suffixes(alloc, suffixes.as_slice())?;
            Ok(Target::Place(*span, name, suffixes))
        }
        Target::Targets(span, targets) => {
            Ok(Target::Targets(*span, copy_targets(alloc, targets.as_slice())?))
        }
    }
}

/// Copies of targets.
#[cycle(target_copies)]
fn copy_targets(alloc: Global, items: &[Target]) -> Result<Items<Target>, AllocError>
    ensures { IfOk result (λ copies. copies ≡ items.now) }
{
    let mut copies = Items::new(alloc);
    for item in items {
        copies.push(copy_target(alloc, item)?)?;
    }
    Ok(copies)
}
