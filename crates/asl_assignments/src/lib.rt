//! Assignments: the places that a target names, what is stored there, and their effects.
#![tactic(auto)]

pub mod stores;
mod suffixes;
mod targets;
