//! Values that are converted to written types.
#![tactic(auto)]

mod converting;

pub use converting::converted;
