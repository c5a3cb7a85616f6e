//! The subprograms of a program: what calls need of each, the one that a call chooses, and that those of one name are apart.
#![tactic(auto)]

pub mod apart;
mod context;
mod subprograms;

pub use context::Context;
pub use subprograms::{Param, Signature, Subprograms};
