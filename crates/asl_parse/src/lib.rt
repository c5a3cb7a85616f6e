//! The parser of files: from their texts to their declarations, or to their one fault.
#![tactic(auto)]

mod files;
mod tree;

pub use files::parse;
