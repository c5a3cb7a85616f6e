//! Sums of widths that are within the limits.

ghost use Rattle.std.specs.Prelude.{◌<◌, ◌≤◌, ◌^◌};

use asl_poly::{Atom, Poly};
use sqlite_items::Items;

/// A sum within the limits: the width, the weight of all that was added over one denominator, which is the least common multiple of
/// theirs, and their atoms, each once.
#[derive(Drop)]
pub(crate) struct Within {
    pub(crate) sum: Poly,
    pub(crate) weight: u128,
    pub(crate) denominator: u128,
    pub(crate) atoms: Items<Atom>,
    ghost light: { weight ≤ 2 ^ 62 },
    ghost some: { 0 < denominator },
    ghost fine: { denominator ≤ 2 ^ 16 },
}
