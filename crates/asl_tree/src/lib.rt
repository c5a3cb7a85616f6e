//! Typed trees, which the checker makes of bodies that are well formed and a run goes through, and programs that were checked.
#![tactic(auto)]

pub mod act;
pub mod body;
mod checked;
pub mod lists;
pub mod nodes;
pub mod places;
mod slots;
pub mod tree;

pub use checked::{Checked, Global, Parts, SubId};
