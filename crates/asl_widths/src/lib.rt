//! Widths and numbers as expressions write them.
#![tactic(auto)]

mod alone;
mod widths;

pub use alone::width_of;
pub use widths::{Number, Width, has_atom, type_number, type_width};
