//! The line and the column of a span.
#![tactic(auto)]

ghost use Rattle.std.specs.Prelude.{◌≡◌, ◌+◌, ◌≤◌, ◌<◌, length, slice_get, IsSomeAnd, take, vec_len};
ghost use Rattle.asl_syn.specs.Place.{line_of, column_of, IsPlaced, bytes_before};

use crate::token::Span;

/// A file: its name as it was given on the command line, and its bytes.
#[derive(Drop)]
pub struct Source {
    pub name: String,
    pub bytes: Vec<u8>,
}

/// The greatest number of bytes that a file may have.
pub const MAX_BYTES: usize = 1_048_576;

fn line_of(before: &[u8]) -> u32
    requires { length before.now ≤ MAX_BYTES }
    ensures { result ≡ line_of before.now }
{
    1 + before.iter().filter(|b| **b == b'\n').count() as u32
}

fn column_of(before: &[u8]) -> u32
    requires { length before.now ≤ MAX_BYTES }
    ensures { result ≡ column_of before.now }
{
    let mut column = 1;
    for b in before {
        if *b == b'\n' {
            column = 1;
        } else {
            column += 1;
        }
    }
    column
}

/// The line and the column of the first byte of a span. Both count from 1, the column in bytes. The span must lie in
/// its file, and the file must have at most [`MAX_BYTES`] bytes.
pub fn place(files: &[Source], span: Span) -> (u32, u32)
    requires { IsPlaced files.now span }
    ensures line { result.0 ≡ line_of (bytes_before files.now span) }
    ensures column { result.1 ≡ column_of (bytes_before files.now span) }
{
    let bytes = files[span.file as usize].bytes.as_slice();
    let before = &bytes[..span.start as usize];
    (line_of(before), column_of(before))
}
