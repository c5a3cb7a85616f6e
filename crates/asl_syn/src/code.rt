//! The codes of faults, and the faults that a program can have before it runs.
#![tactic(auto)]

use crate::token::Span;
use std::alloc::{AllocError, AllocFailed};

/// The code of a fault that is found before the program runs.
#[derive(Clone, Copy, PartialEq, Eq)]
pub enum StaticCode {
    /// A byte that begins no lexeme or gap.
    L01,
    /// A block comment is not closed.
    L02,
    /// A quoted literal is malformed or not closed.
    L03,
    /// An integer literal above 2^127 - 1, or a bitvector literal or mask that is wider than the width limit.
    L04,
    /// A name that begins with two underscores.
    L05,
    /// A token that cannot stand here, or a file that ends where more must follow.
    S01,
    /// The token that opens the 101st level of nesting.
    S02,
    /// A word of the language that is left out, or a form that is not supported.
    S03,
    /// A file of more than 1,048,576 bytes.
    M01,
    /// More than 64 files.
    M02,
    /// The 200,001st token of a file.
    M03,
    /// A word of a word list whose length is neither 8 nor 4.
    N01,
    /// A byte in a word of a word list that is no digit.
    N02,
    /// The 65,537th word of a word list.
    N03,
    /// Declared twice, or shadows a visible name.
    T01,
    /// An unknown name, or a name that stands for another sort of thing.
    T02,
    /// A declaration depends on itself.
    T03,
    /// An expression that must be constant is not, or its evaluation fails.
    T04,
    /// The kinds differ, or one named type is no subtype of the other.
    T05,
    /// The widths are not equal.
    T06,
    /// The constraint allows integers that the constraint asked for does not.
    T07,
    /// No rule for the operator, slice or index has these kinds.
    T08,
    /// No overload takes these kinds.
    T09,
    /// Two overloads clash.
    T10,
    /// Parameters: the wrong number of them, or one that is omitted and that no argument determines.
    T11,
    /// The expression has an effect that is not allowed here.
    T12,
    /// The effects of the operands conflict.
    T13,
    /// The target cannot be assigned.
    T14,
    /// An unknown, repeated or missing field.
    T15,
    /// A bitfield that reaches outside its type's width.
    T16,
    /// A function can end without returning a value.
    T17,
    /// A `return` or a call with a value where none belongs, or without one where one does.
    T18,
    /// Not a width expression.
    T19,
    /// A width, a constraint or a type beyond the limits.
    T20,
    /// A type that is not an exception, or `throw;` outside a catcher.
    T21,
    /// The pattern does not fit.
    T23,
    /// The subprogram to start with is missing.
    T24,
    /// A type that is not a subtype of the named one.
    T25,
    /// An `implementation` that no `impdef` matches.
    T26,
    /// A second `implementation` of one `impdef`.
    T27,
}

impl StaticCode {
    ghost use Rattle.std.specs.Prelude.{◌≡◌};
    ghost use Rattle.asl_syn.specs.Codes.{static_text};

    /// The three bytes that are printed for the code.
    pub fn text(self) -> &'static str
        ensures { result.now ≡ static_text self }
    {
        match self {
            StaticCode::L01 => "L01",
            StaticCode::L02 => "L02",
            StaticCode::L03 => "L03",
            StaticCode::L04 => "L04",
            StaticCode::L05 => "L05",
            StaticCode::S01 => "S01",
            StaticCode::S02 => "S02",
            StaticCode::S03 => "S03",
            StaticCode::M01 => "M01",
            StaticCode::M02 => "M02",
            StaticCode::M03 => "M03",
            StaticCode::N01 => "N01",
            StaticCode::N02 => "N02",
            StaticCode::N03 => "N03",
            StaticCode::T01 => "T01",
            StaticCode::T02 => "T02",
            StaticCode::T03 => "T03",
            StaticCode::T04 => "T04",
            StaticCode::T05 => "T05",
            StaticCode::T06 => "T06",
            StaticCode::T07 => "T07",
            StaticCode::T08 => "T08",
            StaticCode::T09 => "T09",
            StaticCode::T10 => "T10",
            StaticCode::T11 => "T11",
            StaticCode::T12 => "T12",
            StaticCode::T13 => "T13",
            StaticCode::T14 => "T14",
            StaticCode::T15 => "T15",
            StaticCode::T16 => "T16",
            StaticCode::T17 => "T17",
            StaticCode::T18 => "T18",
            StaticCode::T19 => "T19",
            StaticCode::T20 => "T20",
            StaticCode::T21 => "T21",
            StaticCode::T23 => "T23",
            StaticCode::T24 => "T24",
            StaticCode::T25 => "T25",
            StaticCode::T26 => "T26",
            StaticCode::T27 => "T27",
        }
    }
}

/// The code of a fault that a run can end in.
#[derive(Clone, Copy, PartialEq, Eq)]
pub enum DynCode {
    /// An integer outside -2^127 .. 2^127 - 1.
    D01,
    /// A divisor that is not above 0.
    D02,
    /// `DIV` is inexact.
    D03,
    /// The right operand of `^`, `<<` or `>>` is negative.
    D04,
    /// A slice outside its value.
    D05,
    /// An index outside its array.
    D06,
    /// An asserted conversion fails.
    D07,
    /// An assertion is FALSE, or an extension to fewer bits.
    D08,
    /// No alternative matches.
    D09,
    /// A loop that goes on past its limit.
    D10,
    /// A recursion deeper than its limit.
    D11,
    /// More than 2,000 nodes of the tree are being evaluated at once.
    D12,
    /// No step is left.
    D13,
    /// A width that is negative or above the width limit.
    D14,
    /// `unreachable` was reached.
    D15,
    /// A variable of a type without values is initialised.
    D16,
}

impl DynCode {
    ghost use Rattle.std.specs.Prelude.{◌≡◌};
    ghost use Rattle.asl_syn.specs.Codes.{dynamic_text};

    /// The three bytes that are printed for the code.
    pub fn text(self) -> &'static str
        ensures { result.now ≡ dynamic_text self }
    {
        match self {
            DynCode::D01 => "D01",
            DynCode::D02 => "D02",
            DynCode::D03 => "D03",
            DynCode::D04 => "D04",
            DynCode::D05 => "D05",
            DynCode::D06 => "D06",
            DynCode::D07 => "D07",
            DynCode::D08 => "D08",
            DynCode::D09 => "D09",
            DynCode::D10 => "D10",
            DynCode::D11 => "D11",
            DynCode::D12 => "D12",
            DynCode::D13 => "D13",
            DynCode::D14 => "D14",
            DynCode::D15 => "D15",
            DynCode::D16 => "D16",
        }
    }
}

/// A fault that is found before the program runs: its code, the code that ended the evaluation of a constant (only for
/// [`StaticCode::T04`]), and where it stands.
#[derive(Clone, Copy, PartialEq, Eq)]
pub struct Fault {
    pub code: StaticCode,
    pub inner: Option<DynCode>,
    pub span: Span,
}

/// Why a program was refused.
#[derive(Clone, Copy, PartialEq, Eq)]
pub enum Refused {
    /// Its one fault.
    At(Fault),
    /// No memory was left to decide.
    NoMemory,
}

impl From<AllocError> for Refused {
    ghost use Rattle.std.specs.Prelude.{◌≡◌};
    ghost use Rattle.asl_syn.specs.declared.code.Refused.TheVariants.{NoMemory};

    ghost from_gives = { λ _ e. e ≡ NoMemory };

    fn from(_error: AllocError) -> Refused {
        Refused::NoMemory
    }
}

impl<T: Drop> From<AllocFailed<T>> for Refused {
    ghost use Rattle.std.specs.Prelude.{◌≡◌};
    ghost use Rattle.asl_syn.specs.declared.code.Refused.TheVariants.{NoMemory};

    ghost from_gives = { λ _ e. e ≡ NoMemory };

    fn from(_error: AllocFailed<T>) -> Refused {
        Refused::NoMemory
    }
}
