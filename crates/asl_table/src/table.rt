//! A table of masks.

use asl_mask::Mask;
use asl_syn::token::Span;

/// The masks of a `case` that has only masks and literals of bits as patterns.
#[derive(Drop)]
pub struct MaskTable {
    /// Where the `case` stands.
    pub span: Span,
    /// How many digits each of the masks has.
    pub width: u32,
    /// The masks in source order, each with the number of its alternative, counted from 0 in the `case`.
    pub masks: Vec<(u32, Mask)>,
}
