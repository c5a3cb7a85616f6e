//! The parser of statements and declarations: its functions follow the rules of the grammar.
#![tactic(auto)]

mod binders;
mod bodies;
pub mod declarations;
mod firsts;
mod formals;
mod labels;
mod levels;
mod printing;
mod simple;
mod statements;
mod targets;
