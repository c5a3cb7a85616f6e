//! Statements: the names that they declare, their effects and their typed trees, or the one fault.
#![tactic(auto)]

pub mod lists;
mod stmts;
