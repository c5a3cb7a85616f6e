//! The values of constants.
#![tactic(auto)]

mod applying;
mod constants;
mod constructing;
mod conversions;
mod failure;
mod fields;
mod inside;
mod shapes;

pub use constants::eval_const;
