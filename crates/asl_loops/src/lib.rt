//! Loops and catchers: `for`, `while`, `repeat` and `try`.
#![tactic(auto)]

pub mod catchers;
pub mod loops;
