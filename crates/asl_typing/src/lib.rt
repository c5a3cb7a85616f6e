//! What the rules of expressions give of operands that were typed: the type, the effect and the typed tree, or the one fault.
#![tactic(auto)]

pub mod comparable;
pub mod constructs;
pub mod ends;
pub mod literals;
pub mod members;
pub mod operations;
pub mod operators;
