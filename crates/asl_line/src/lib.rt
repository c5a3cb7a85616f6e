//! Reads the command line, by clap.
#![tactic(auto)]

mod commands;
mod words;

pub use words::{Line, parse};
