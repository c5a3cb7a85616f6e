//! Machines that run checked programs, call by call.
#![tactic(auto)]

mod machine;
mod memory;
mod noted;
mod runs;
mod stage;

pub use machine::Machine;
pub use memory::GlobalVar;
pub use stage::{Outcome, RunRefused, Stage};
