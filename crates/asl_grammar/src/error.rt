//! Why there is no tree.

use std::alloc::AllocError;

/// Why there is no tree. A place is how many tokens there are from it to the end of the file.
#[derive(Clone, Copy, PartialEq, Eq)]
pub enum ParseError {
    /// Memory was wanting. This says nothing of the text.
    OutOfMemory,
    /// No text goes on with the token there, or at the end.
    Syntax(usize),
    /// The token there opens a level too many, or, where the `bool` is set, the token before it.
    TooDeep(usize, bool),
}

impl From<AllocError> for ParseError {
    ghost use Rattle.std.specs.Prelude.{◌≡◌};
    ghost use Rattle.asl_grammar.specs.declared.error.ParseError.TheVariants.{OutOfMemory};

    ghost from_gives = { λ _ e. e ≡ OutOfMemory };

    fn from(_error: AllocError) -> ParseError {
        ParseError::OutOfMemory
    }
}
