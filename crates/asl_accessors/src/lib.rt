//! Accessors, and bodies that replace others: what is read is written out in the language that the rules judge.
#![tactic(auto)]

mod declarations;
mod holes;
mod keys;
mod lists;
mod made;
mod matching;
mod places;
mod programs;
mod statements;
mod stores;

pub use programs::{Replacing, defaults, parted, replaced, written_out};
