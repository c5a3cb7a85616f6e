//! The lexemes and the grammar of the language: their definitions, which contracts cite, and the laws of these.
#![tactic(auto)]

pub mod error;
pub mod kinds;
pub mod operators;
pub mod parts;
pub mod reading;
pub mod trees;
