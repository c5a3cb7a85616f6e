//! The bodies of subprograms and whole programs, and so the checker.
#![tactic(auto)]

mod bodies;
mod globals;
mod program;

pub use program::{Accepted, check, check_decls, check_written};
