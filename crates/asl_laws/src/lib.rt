//! Laws of the rules: what is true of every program and every run.
#![tactic(auto)]

pub mod certificate;
pub mod law;
pub mod mask;
