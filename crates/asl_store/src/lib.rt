//! The storage of a run: its globals, and the frames of the subprograms that are active.
//!
//! A frame has so many slots, each bound to a value or not. Only taking a frame's room may be refused memory: what is done with
//! its slots takes none.
#![tactic(auto)]

mod store;

pub use store::Store;
