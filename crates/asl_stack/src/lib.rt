//! The native stack of a run. It is a crate of its own, since its tests make typed trees, and are dear to prove.
#![tactic(auto)]

#[cfg(test)]
mod stack;
