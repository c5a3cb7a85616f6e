//! Statements that choose one of their lists: `if` and `case`.
#![tactic(auto)]

pub mod branches;
pub mod cases;
