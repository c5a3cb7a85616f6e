//! The search for a word that no mask matches.

ghost use Rattle.std.specs.Prelude.{◌≡◌, ◌++◌, ◌∷◌, ◌-◌, ◌≤◌, ◌<◌, [], suc, false, length, replicate, IfOk};
ghost use Rattle.asl_mask.specs.Covers as rules;
ghost use Rattle.asl_rules.specs.report.MaskTables.{digits_in};
ghost use Rattle.asl_table.specs.private.Listed.{masks_of, AreLive};
ghost use Rattle.asl_table.specs.Widths.{AreWide};
ghost use Rattle.asl_table.specs.private.Found.{search_of};

use crate::live::{Live, all_live, allowing, has_zero, highest, table_live};
use asl_bits::{Bits, WIDTH_LIMIT, filled, joined};
use asl_mask::{Cover, Mask};
use std::alloc::{AllocError, Global};

/// What a search finds.
#[derive(Drop)]
pub(crate) enum Finding {
    /// It would split more often than the budget allows.
    Budget,
    /// Each word is matched; so many splits of the budget are left.
    Total(u64),
    /// The least word that isn't matched.
    Free(Bits),
}

/// Whether every word of a width is one that a mask matches, and else the least that none does, or `Budget` exactly where
/// the search splits more often than this. The masks have that width, which is within the limit. An error means that there
/// was no memory.
pub fn cover(alloc: Global, masks: &[Mask], width: u32, budget: u64) -> Result<Cover, AllocError>
    requires within { width ≤ WIDTH_LIMIT }
    requires wide { AreWide width masks.now }
    ensures { IfOk result (λ c. c ≡ rules.cover_of width budget masks.now) }
{
    let live = all_live(alloc, masks, width)?;
    cover_live(alloc, live.as_slice(), width, budget)
}

/// The same of the masks of a table, which stand beside the numbers of their alternatives.
pub fn cover_table(
    alloc: Global,
    masks: &[(u32, Mask)],
    width: u32,
    budget: u64,
) -> Result<Cover, AllocError>
    requires within { width ≤ WIDTH_LIMIT }
    requires wide { AreWide width (digits_in masks.now) }
    ensures { IfOk result (λ c. c ≡ rules.cover_of width budget (digits_in masks.now)) }
{
    let live = table_live(alloc, masks, width)?;
    cover_live(alloc, live.as_slice(), width, budget)
}

/// The same of masks in the lists of the search.
fn cover_live(alloc: Global, live: &[Live], width: u32, budget: u64) -> Result<Cover, AllocError>
    requires within { width ≤ WIDTH_LIMIT }
    requires live { AreLive width live.now }
    ensures { IfOk result (λ c. c ≡ rules.cover_of width budget (masks_of live.now)) }
{
    match search(alloc, live, width, budget)? {
        Finding::Budget => Ok(Cover::Budget),
        Finding::Total(_) => Ok(Cover::Total),
        Finding::Free(word) => Ok(Cover::Free(word)),
    }
}

/// The search over masks of which the digits below this width count: it splits at the highest place that one of them
/// fixes, and goes on with the masks that allow 0 there, and, where these match every word, with those that allow 1.
fn search(alloc: Global, live: &[Live], width: u32, left: u64) -> Result<Finding, AllocError>
    requires within { width ≤ WIDTH_LIMIT }
    requires live { AreLive width live.now }
    ensures { IfOk result (λ s. s ≡ search_of width left (masks_of live.now)) }
{
    if live.is_empty() {
        return Ok(Finding::Free(filled(width, false)));
    }
    if has_zero(live) {
        return Ok(Finding::Total(left));
    }
    if left == 0 {
        return Ok(Finding::Budget);
    }
    let place = highest(live) - 1;
    let low = allowing(alloc, live, place, false)?;
    match search(alloc, low.as_slice(), place, left - 1)? {
        Finding::Budget => Ok(Finding::Budget),
        Finding::Free(word) => Ok(Finding::Free(padded(&word, false, width))),
        Finding::Total(rest) => {
            let high = allowing(alloc, live, place, true)?;
            match search(alloc, high.as_slice(), place, rest)? {
                Finding::Budget => Ok(Finding::Budget),
                Finding::Total(rest) => Ok(Finding::Total(rest)),
                Finding::Free(word) => Ok(Finding::Free(padded(&word, true, width))),
            }
        }
    }
}

/// The bits with one on top of them, and zeros above up to a width.
fn padded(bits: &Bits, bit: bool, width: u32) -> Bits
    requires above { length bits.now < width }
    requires within { width ≤ WIDTH_LIMIT }
    ensures { result ≡ (bits.now ++ bit ∷ []) ++ replicate (width - suc (length bits.now)) false }
{
    let more: Bits = joined(&filled::<1>(1, bit), bits);
    more.extended(width, false)
}
