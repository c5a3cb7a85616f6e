//! Statements without lists but assignments: declarations, `assert`, calls, `return`, `throw` and printing.
#![tactic(auto)]

mod binds;
mod counted;
pub mod locals;
pub mod prints;
pub mod simple;
