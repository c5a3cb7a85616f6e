//! What the checks of all statements have in common: what a body is judged in, typed expressions, and the lists inside a statement.
#![tactic(auto)]

pub mod body;
pub mod otherwise;
pub mod steps;
pub mod typing;
pub mod within;
