//! The lowest digits of the masks of a table, in one word each, which tell most pairs of masks apart.

ghost use Rattle.std.specs.Prelude.{◌≡◌, ℕ, List, Bool, true, false, ◌==◌, length, None, IfOk};
ghost use Rattle.asl_bits.specs.Lists.{bits_value};
ghost use Rattle.asl_mask.specs.Covers.{Digits};
ghost use Rattle.asl_mask.specs.Least.{overlap_of};
ghost use Rattle.asl_table.specs.Pairs.{low_number, IsLow, AreLows};

use asl_bits::Bits;
use asl_mask::Mask;
use std::alloc::{AllocError, Global};

/// How many digits a word holds.
const WORD: u32 = 128;

/// The lowest digits of a mask, as many as a word holds, with the number of its alternative.
#[derive(Clone, Copy)]
pub struct Low {
    /// 1 at each place that is fixed.
    pub fixed: u128,
    /// The digits at these places, and 0 at all others.
    pub digits: u128,
    /// The number of the mask's alternative.
    pub alternative: u32,
}

/// The lowest digits of each mask of a table. An error means that there was no memory.
pub fn lows(alloc: Global, masks: &[(u32, Mask)]) -> Result<Vec<Low>, AllocError>
    ensures { IfOk result (λ ls. AreLows masks.now ls.items) }
{
    let mut lows = Vec::new(alloc);
    for (alternative, mask) in masks {
        lows.push(lowest_of(*alternative, mask))?;
    }
    Ok(lows)
}

/// The lowest digits of a mask of this alternative.
fn lowest_of(alternative: u32, mask: &Mask) -> Low
    ensures { IsLow alternative mask.now result }
{
    Low {
        fixed: number_of(mask.fixed()),
        digits: number_of(mask.digits()),
        alternative,
    }
}

/// The number that the lowest bits are read as.
#[tactic(auto, using(crate::proofs::LowWords::number_long))]
fn number_of(bits: &Bits) -> u128
    ensures { result ≡ low_number bits.now }
{
    let width = bits.width();
    if width < WORD {
        bits.part::<1>(0, width).word()
    } else {
        bits.part::<1>(0, WORD).word()
    }
}

/// Whether the two masks are of different alternatives, and some word may match both. If not, no word does, or they are of
/// one alternative.
pub(crate) fn may_meet(a: &Low, b: &Low) -> bool
    ensures yes { result ≡ true → (a.now.alternative == b.now.alternative) ≡ false }
    ensures no { (m n : Digits) → length m ≡ length n →
        IsLow a.now.alternative m a.now → IsLow b.now.alternative n b.now →
        (a.now.alternative == b.now.alternative) ≡ false → result ≡ false → overlap_of (length m) m n ≡ None }
{
    (a.digits ^ b.digits) & (a.fixed & b.fixed) == 0 && a.alternative != b.alternative
}
