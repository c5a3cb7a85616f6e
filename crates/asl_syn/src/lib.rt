//! The syntax of the language: spans, tokens, trees, and the codes of faults.
#![tactic(auto)]

pub mod code;
pub mod place;
pub mod read;
pub mod token;
pub mod tree;
