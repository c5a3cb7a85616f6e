//! Types: their kinds and sizes, which satisfies which, and the scope that they stand in.
#![tactic(auto)]

pub mod answer;
pub mod baring;
pub mod counting;
pub mod fits;
pub mod integers;
pub mod kinds;
pub mod members;
mod places;
mod plain;
mod scope;
pub mod seeing;
pub mod sizes;
pub mod structure;
pub mod substitute;
pub mod tests;
mod totals;
mod ty;
pub mod widths;

pub use asl_value::{BitField, View};
pub use scope::{Counted, Scope, Standing, Storage, reading, writing};
pub use totals::Total;
pub use ty::{FieldType, Form, Ty};
