//! Gaps: blanks and comments.

ghost use Rattle.std.specs.Prelude.{◌≡◌, ◌≤◌, length};
ghost use Rattle.std.specs.Option.{option_copied};
ghost use Rattle.asl_grammar.specs.lexemes.Gaps.{after_block, after_line, after_piece, Gap, opens_block};

use crate::bytes::{is_blank, line_len};

/// The bytes from the next line feed on, none where there is none.
fn after_line(bytes: &[u8]) -> &[u8]
    ensures { result.now ≡ after_line bytes.now }
{
    &bytes[line_len(bytes)..]
}

/// The bytes after the next `*/`, or `None` where there is none.
#[tactic(auto, using(asl_grammar::proofs::lexemes::Gapping::after_block_short))]
fn after_block(bytes: &[u8]) -> Option<&[u8]>
    ensures { option_copied result ≡ after_block bytes.now }
{
    let mut rest = bytes;
    while let [a, b, ..] = rest {
        if *a == b'*' && *b == b'/' {
            return Some(&rest[2..]);
        }
        rest = &rest[1..];
    }
    None
}

/// Whether the bytes begin with `/*`.
pub fn opens_block(bytes: &[u8]) -> bool
    ensures { result ≡ opens_block bytes.now }
{
    match bytes {
        [a, b, ..] => *a == b'/' && *b == b'*',
        _ => false,
    }
}

/// The bytes after the blank or the comment that stands first, or `None` where neither stands there.
fn after_piece(bytes: &[u8]) -> Option<&[u8]>
    ensures { option_copied result ≡ after_piece bytes.now }
{
    match bytes {
        [] => None,
        [a, ..] if is_blank(*a) => Some(&bytes[1..]),
        [b'/', b'/', ..] => Some(after_line(&bytes[2..])),
        [b'/', b'*', ..] => after_block(&bytes[2..]),
        _ => None,
    }
}

/// The bytes after the gap that stands first.
pub fn after_gap(bytes: &[u8]) -> &[u8]
    ensures gap { Gap bytes.now result.now }
    ensures fits { length result.now ≤ length bytes.now }
{
    let mut rest = bytes;
    while let Some(next) = after_piece(rest) {
        rest = next;
    }
    rest
}
