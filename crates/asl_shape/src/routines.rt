//! The subprograms of the library.
ghost use Rattle.std.specs.Prelude.{◌≡◌, option_map};
ghost use Rattle.asl_rules.specs.declarations.Routines as rules;
ghost use Rattle.asl_shape.specs.View.{routine_of};

use asl_value::same_name;

/// A subprogram of the library.
#[derive(Clone, Copy, PartialEq, Eq)]
pub enum Routine {
    UInt,
    SInt,
    Zeros,
    Ones,
    ZeroExtend,
    SignExtend,
    IsZero,
    IsOnes,
    Len,
    Abs,
    Min,
    Max,
}

/// The subprogram of the library of this name.
pub fn routine_named(name: &[u8]) -> Option<Routine>
    ensures { option_map routine_of result ≡ rules.routine_named name.now }
{
    if same_name(b"UInt", name) {
        Some(Routine::UInt)
    } else if same_name(b"SInt", name) {
        Some(Routine::SInt)
    } else if same_name(b"Zeros", name) {
        Some(Routine::Zeros)
    } else if same_name(b"Ones", name) {
        Some(Routine::Ones)
    } else if same_name(b"ZeroExtend", name) {
        Some(Routine::ZeroExtend)
    } else if same_name(b"SignExtend", name) {
        Some(Routine::SignExtend)
    } else if same_name(b"IsZero", name) {
        Some(Routine::IsZero)
    } else if same_name(b"IsOnes", name) {
        Some(Routine::IsOnes)
    } else if same_name(b"Len", name) {
        Some(Routine::Len)
    } else if same_name(b"Abs", name) {
        Some(Routine::Abs)
    } else if same_name(b"Min", name) {
        Some(Routine::Min)
    } else if same_name(b"Max", name) {
        Some(Routine::Max)
    } else {
        None
    }
}
