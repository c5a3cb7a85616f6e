//! Declarations of types and of storage, in any order: what each brings, over those that it uses.
#![tactic(auto)]

pub mod barred;
mod definitions;
mod judging;
mod outcome;
pub mod phases;
mod storage;
mod supertypes;
mod turns;
pub mod values;
mod visible;
pub mod written;

pub use definitions::name_of;
pub use storage::is_var;
