//! The one call that the program makes: a command line over files, answered to a sink.
#![tactic(auto)]

mod memory;
mod reading;
mod top;

pub use asl_answer::Status;
pub use memory::asl_in_memory;
pub use top::asl;
