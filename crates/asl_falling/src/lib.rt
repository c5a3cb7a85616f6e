//! Whether the end of a list of statements can be reached.
#![tactic(auto)]

mod falls;

pub use falls::falls_through;
