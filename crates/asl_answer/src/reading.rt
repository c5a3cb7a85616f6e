//! What an answer is given for.
use asl_syn::place::Source;

/// What came of the reading.
#[derive(Drop)]
pub enum Reading {
    /// All files were read: the source files, in the order of the words, and the bytes of the word list, none where the command has none.
    All(Vec<Source>, Vec<u8>),
    /// The file of this name is the first that is too long.
    Long(String),
    /// There are more than 64 source files; none was opened.
    Many,
}
