//! Slices, patterns, written types and the subprograms of the library, without expressions, and what they do with values.
#![tactic(auto)]

mod arguments;
mod belonging;
mod constructing;
pub mod filled;
pub mod filling;
mod firsts;
pub mod kinds;
mod library;
mod matching;
mod numbers;
mod routines;
mod shapes;
mod widths;
mod written;

pub use asl_value::SliceShape;
pub use belonging::belongs;
pub use constructing::construct;
pub use firsts::first_value;
pub use library::routine;
pub use matching::{is_matched, matched_in};
pub use routines::{Routine, routine_named};
pub use shapes::{BitfieldShape, FieldGiven, PartShape, PatternShape, TypeShape};
pub use widths::{params_of, width_of_bits, widths_of};
pub use written::first_of;
