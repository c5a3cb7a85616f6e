//! The answers of commands: what was read is checked and run, and what comes of it is written to a sink, with a status.
#![tactic(auto)]

mod answer;
mod masks;
mod places;
mod reading;
mod running;
mod status;
mod texts;
mod writing;

pub use answer::write_answer;
pub use reading::Reading;
pub use status::{Status, Stop};
