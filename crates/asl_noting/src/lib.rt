//! A sink round another one, which notes whether the text that it took is open: whether it isn't empty and doesn't end in a line feed.
#![tactic(auto)]

mod lent;
mod noting;
mod taken;

pub use lent::Lent;
pub use noting::{Noting, Start};
pub use taken::Taken;
