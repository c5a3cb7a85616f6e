//! The words that two masks both match.

ghost use Rattle.std.specs.Prelude.{◌≡◌, ◌<◌, ℕ, length};
ghost use Rattle.asl_mask.specs.Least.{overlap_of};
ghost use Rattle.asl_rules.specs.report.MaskTables.{digits_in};
ghost use Rattle.asl_table.specs.Pairs.{mask_at, IsNext, AreLows};
ghost use Rattle.asl_table.specs.Widths.{AreWide};

use crate::lowest::{Low, may_meet};
use asl_bits::{Bits, filled};
use asl_mask::Mask;

/// The least word that both masks match, and `None` exactly where no word does. The widths must be equal. No memory is
/// taken.
pub fn overlap(a: &Mask, b: &Mask) -> Option<Bits>
    requires { length a.now ≡ length b.now }
    ensures { result ≡ overlap_of (length a.now) a.now b.now }
{
    let fixed = a.fixed().and(b.fixed());
    let apart = a.digits().xor(b.digits()).and(&fixed);
    if apart.same(&filled(apart.width(), false)) {
        Some(a.digits().or(b.digits()))
    } else {
        None
    }
}

/// For the mask with the number `i`, the next mask from the number `from` on (both counted from 0) that is of another
/// alternative and that some word matches too, with the least such word. `lows` has the lowest digits of each mask. No memory
/// is taken.
pub fn next_overlap(
    masks: &[(u32, Mask)],
    lows: &[Low],
    i: usize,
    from: usize,
) -> Option<(usize, Bits)>
    requires there { i < length masks.now }
    requires wide { AreWide (length (mask_at masks.now i).1) (digits_in masks.now) }
    requires lows { AreLows masks.now lows.now }
    ensures { (n : ℕ) → IsNext (length (mask_at masks.now i).1) n (mask_at masks.now i) masks.now from result }
{
    let low = lows[i];
    for j in from..lows.len() {
        if may_meet(&low, &lows[j]) {
            if let Some(word) = overlap(mask_of(masks, i), mask_of(masks, j)) {
                return Some((j, word));
            }
        }
    }
    None
}

/// The mask with this number.
#[tactic(auto, using(crate::proofs::Pairing::same_at))]
fn mask_of(masks: &[(u32, Mask)], i: usize) -> &Mask
    requires { i < length masks.now }
    ensures { result.now ≡ (mask_at masks.now i).1 }
{
    &masks[i].1
}
