//! Turns over a graph: which node is next, if each waits until all that it uses is settled.
#![tactic(auto)]

mod graph;
mod queue;
mod turns;

pub use graph::{all_marked, has_mark, row};
pub use turns::Turns;
