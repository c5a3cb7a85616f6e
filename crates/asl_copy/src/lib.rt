//! Copies of trees. A copy is the same tree, spans included.
#![tactic(auto)]

pub mod decls;
pub mod exprs;
pub mod names;
pub mod reads;
pub mod stmts;
pub mod targets;
