//! Types as they are written.
#![tactic(auto)]

mod alone;
pub mod constraints;
mod one_type;
pub mod written;
mod written_fields;

pub use alone::ty_of;
