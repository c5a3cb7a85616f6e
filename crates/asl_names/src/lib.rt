//! The names of declarations: those that they use, and which declarations use which.
#![tactic(auto)]

mod answer;
mod components;
mod cycles;
mod decl_uses;
mod declarers;
mod expr_uses;
pub mod firsts;
mod graph;
mod library;
mod listed;
mod name_use;
mod names;
mod reach;

pub use expr_uses::uses_in_expr;
pub use graph::graph_of_decls;
pub use library::LIBRARY;
pub use name_use::Use;
