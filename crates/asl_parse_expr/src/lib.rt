//! The parser of expressions, patterns and types: one function for each rule of the grammar.
#![tactic(auto)]

mod braces;
pub mod expressions;
pub mod firsts;
mod grammar;
mod literals;
pub mod names;
mod operators;
pub mod patterns;
pub mod suffixes;
pub mod tokens;
pub mod types;
