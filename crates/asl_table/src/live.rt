//! Masks of which only the lowest digits count, each with the highest place that it fixes among these.

ghost use Rattle.std.specs.Prelude.{◌≡◌, ◌≤◌, ◌<◌, suc, length, IfOk};
ghost use Rattle.asl_mask.specs.Covers as rules;
ghost use Rattle.asl_table.specs.private.Listed as listed;
ghost use Rattle.asl_table.specs.private.Listed.{top_fixed, masks_of, half_of, IsLive, AreLive};
ghost use Rattle.asl_rules.specs.report.MaskTables.{digits_in};
ghost use Rattle.asl_table.specs.Widths.{AreWide};

use asl_mask::Mask;
use std::alloc::{AllocError, Global};

/// A mask, and one more than the highest place among those that count which it fixes, 0 where there is none.
#[derive(Clone, Copy)]
pub(crate) struct Live<'a> {
    pub(crate) mask: &'a Mask,
    pub(crate) top: u32,
}

/// One more than the highest place below this one that a mask fixes, 0 where there is none.
fn top_of(mask: &Mask, below: u32) -> u32
    requires { below ≤ length mask.now }
    ensures { result ≡ top_fixed below mask.now }
{
    let mut top = below;
    while top > 0 && mask.digit(top - 1).is_none() {
        top -= 1;
    }
    top
}

/// Masks of one width, of which all digits count.
pub(crate) fn all_live<'a>(
    alloc: Global,
    masks: &'a [Mask],
    width: u32,
) -> Result<Vec<Live<'a>>, AllocError>
    requires { AreWide width masks.now }
    ensures masks { IfOk result (λ all. masks_of all.items ≡ masks.now) }
    ensures live { IfOk result (λ all. AreLive width all.items) }
{
    let mut all = Vec::new(alloc);
    for mask in masks {
        all.push(Live {
            mask,
            top: top_of(mask, width),
        })?;
    }
    Ok(all)
}

/// The masks of a table, which have one width, and of which all digits count.
pub(crate) fn table_live<'a>(
    alloc: Global,
    masks: &'a [(u32, Mask)],
    width: u32,
) -> Result<Vec<Live<'a>>, AllocError>
    requires { AreWide width (digits_in masks.now) }
    ensures masks { IfOk result (λ all. masks_of all.items ≡ digits_in masks.now) }
    ensures live { IfOk result (λ all. AreLive width all.items) }
{
    let mut all = Vec::new(alloc);
    for (_, mask) in masks {
        all.push(Live {
            mask,
            top: top_of(mask, width),
        })?;
    }
    Ok(all)
}

/// The greatest of the tops.
pub(crate) fn highest(live: &[Live]) -> u32
    ensures { result ≡ listed.highest live.now }
{
    let mut most = 0;
    for l in live {
        if most < l.top {
            most = l.top;
        }
    }
    most
}

/// Whether one of the tops is 0.
pub(crate) fn has_zero(live: &[Live]) -> bool
    ensures { result ≡ listed.has_zero live.now }
{
    for l in live {
        if l.top == 0 {
            return true;
        }
    }
    false
}

/// The mask with the digits below a place, where it allows this digit there.
fn half<'a>(l: Live<'a>, place: u32, bit: bool) -> Option<Live<'a>>
    requires { IsLive (suc place) l }
    ensures { result ≡ half_of place bit l.entry }
{
    if l.top <= place {
        return Some(l);
    }
    match l.mask.digit(place) {
        None => Some(l),
        Some(digit) => {
            if digit == bit {
                Some(Live {
                    mask: l.mask,
                    top: top_of(l.mask, place),
                })
            } else {
                None
            }
        }
    }
}

/// The masks that allow this digit at a place, with the digits below it.
pub(crate) fn allowing<'a>(
    alloc: Global,
    live: &[Live<'a>],
    place: u32,
    bit: bool,
) -> Result<Vec<Live<'a>>, AllocError>
    requires { AreLive (suc place) live.now }
    ensures masks { IfOk result (λ half. masks_of half.items ≡ rules.allowing place bit (masks_of live.now)) }
    ensures live { IfOk result (λ half. AreLive place half.items) }
{
    let mut allowed = Vec::new(alloc);
    for l in live {
        if let Some(l) = half(*l, place, bit) {
            allowed.push(l)?;
        }
    }
    Ok(allowed)
}
