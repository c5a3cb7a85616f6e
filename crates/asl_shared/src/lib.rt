//! Values with several owners, which contracts see as what they hold, so that a tree of them is plain data; and values that
//! are dropped by a call.
#![tactic(auto)]

mod held;
mod shared;

pub use held::Held;
pub use shared::Shared;
