//! What is found of some masks.

use asl_bits::Bits;

/// Whether some masks of one width match every word.
#[derive(Drop)]
pub enum Cover {
    /// The search for a word that none matches would split more often than the budget allows.
    Budget,
    /// Each word is one that a mask matches.
    Total,
    /// The least word that no mask matches.
    Free(Bits),
}
