//! A list of files in memory with their names.
ghost use Rattle.std.specs.Prelude.{◌≡◌, ◌<◌, ◌≤◌, ◌+◌, ◌++◌, [], length, take, drop};
ghost use Rattle.asl_io.specs.Shelf.{place_of, left_of};

/// The index of the first file with this name.
pub fn place(held: &[(String, Vec<u8>)], name: &str) -> Option<usize>
    ensures { result ≡ place_of held.now name.now }
{
    held.iter().position(|entry| entry.0.as_str() == name)
}

/// Copies the next bytes of a text, at most `piece`, to the front of `buf`, and returns how many.
fn give(bytes: &[u8], at: usize, piece: usize, buf: &mut [u8]) -> usize
    requires { 0 < piece }
    ensures bound { result ≤ length buf.new }
    ensures piece { result ≤ piece }
    ensures fits { at + result ≤ usize.MAX }
    ensures gives { drop at bytes.now ≡ take result buf.new ++ drop (at + result) bytes.now }
    ensures end { result ≡ 0 → 0 < length buf.new → drop at bytes.now ≡ [] }
{
    if bytes.len() <= at {
        return 0;
    }
    let n = buf.len().min(piece).min(bytes.len() - at);
    buf[..n].copy_from_slice(&bytes[at..at + n]);
    n
}

/// Copies the next bytes of a file, at most `piece`, to the front of `buf`, and returns how many.
pub fn give_from(
    held: &[(String, Vec<u8>)],
    place: Option<usize>,
    at: usize,
    piece: usize,
    buf: &mut [u8],
) -> usize
    requires { 0 < piece }
    ensures bound { result ≤ length buf.new }
    ensures piece { result ≤ piece }
    ensures fits { at + result ≤ usize.MAX }
    ensures gives { left_of held.now place at ≡ take result buf.new ++ left_of held.now place (at + result) }
    ensures end { result ≡ 0 → 0 < length buf.new → left_of held.now place at ≡ [] }
{
    let Some(i) = place else {
        return 0;
    };
    let Some(entry) = held.get(i) else {
        return 0;
    };
    give(entry.1.as_slice(), at, piece, buf)
}
