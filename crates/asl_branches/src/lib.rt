//! The choices and the catches among statements, and what all forms of nodes stand on: the state of a run, what a node is run
//! in, what runs the nodes below it, and why a run stops.
#![tactic(auto)]

pub mod below;
pub mod catches;
pub mod choices;
pub mod frames;
pub mod lists;
pub mod run;
pub mod setting;
pub mod stop;
