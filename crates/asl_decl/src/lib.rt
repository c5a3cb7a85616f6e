//! What the declarations of a program bring, before its bodies are checked.
#![tactic(auto)]

mod bodies;
mod entry;
mod free;
mod funcs;
mod globals;
mod heads;
mod limit;
mod signatures;
mod table;

pub use bodies::enter_body;
pub use entry::{Entries, find_entries};
pub use globals::DeclId;
pub use table::Table;
