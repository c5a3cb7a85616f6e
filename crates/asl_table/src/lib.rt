//! Tables of masks: those of a program, whether every word of a width is one that a mask matches, and which words two masks both match.
#![tactic(auto)]

mod cases;
mod live;
mod lowest;
mod pairs;
mod search;
mod table;
mod walk;

pub use lowest::{Low, lows};
pub use pairs::{next_overlap, overlap};
pub use search::{cover, cover_table};
pub use table::MaskTable;
pub use walk::tables;
