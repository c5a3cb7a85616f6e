//! Places of spans that stand one behind another: of each file, the bytes are gone through once.
ghost use Rattle.std.specs.Prelude.{◌≡◌, ◌≤◌, length, map};
ghost use Rattle.asl_rules.specs.report.Texts.{Text, bytes_of, name_of};
ghost use Rattle.asl_answer.specs.private.Model.{file_of, AreShort};
ghost use Rattle.asl_answer.specs.private.Places.{IsIn, IsPlace, Begins};

use asl_syn::place::Source;
use asl_syn::token::Span;

/// A place in a file: the number of the file, how many of its bytes stand before the place, and its line and column, which count
/// from 1.
#[derive(Clone, Copy)]
pub struct Place {
    file: u32,
    start: u32,
    pub line: u32,
    pub column: u32,
}

/// The beginning of a file.
pub fn beginning(file: u32) -> Place
    ensures place { (bytes : Text) → IsIn bytes result }
    ensures file { result.file ≡ file }
    ensures start { result.start ≡ 0 }
{
    Place {
        file,
        start: 0,
        line: 1,
        column: 1,
    }
}

/// The bytes of the file with a number, none where there is no such file.
fn bytes_in(sources: &[Source], file: u32) -> &[u8]
    requires { AreShort sources.now }
    ensures bytes { result.now ≡ bytes_of (map file_of sources.now) file }
    ensures short { length result.now ≤ 1048576 }
{
    match sources.get(file as usize) {
        Some(source) => source.bytes.as_slice(),
        None => &[],
    }
}

/// The name of the file with a number, none where there is no such file.
pub fn name_in(sources: &[Source], file: u32) -> &str
    ensures { result.now ≡ name_of (map file_of sources.now) file }
{
    match sources.get(file as usize) {
        Some(source) => source.name.as_str(),
        None => "",
    }
}

/// The place itself where it stands in this file and not behind `start`, or else the beginning of the file.
fn nearest(place: Place, file: u32, start: u32) -> Place
    ensures place { (bytes : Text) → (place.file ≡ file → IsIn bytes place) → IsIn bytes result }
    ensures file { result.file ≡ file }
    ensures start { result.start ≤ start }
{
    if place.file == file && place.start <= start {
        place
    } else {
        beginning(file)
    }
}

/// The place with this number of bytes before it, which is not before `from`.
fn ahead(bytes: &[u8], from: Place, start: u32) -> Place
    requires short { length bytes.now ≤ 1048576 }
    requires place { IsIn bytes.now from }
    requires ahead { from.start ≤ start }
    requires inside { start ≤ length bytes.now }
    ensures place { IsIn bytes.now result }
    ensures file { result.file ≡ from.file }
    ensures start { result.start ≡ start }
{
    let mut line = from.line;
    let mut column = from.column;
    for at in from.start..start {
        if bytes[at as usize] == b'\n' {
            line += 1;
            column = 1;
        } else {
            column += 1;
        }
    }
    Place {
        file: from.file,
        start,
        line,
        column,
    }
}

/// The place where a span begins; a span that begins behind its file's end stands at the end. Only the bytes between `from` and the
/// span are gone through where `from` stands before the span in the same file.
pub fn place_of(sources: &[Source], span: Span, from: Place) -> Place
    requires short { AreShort sources.now }
    requires place { IsPlace sources.now from }
    ensures place { IsPlace sources.now result }
    ensures begins { Begins sources.now result span }
{
    let bytes = bytes_in(sources, span.file);
    let start = (bytes.len() as u32).min(span.start);
    let near = nearest(from, span.file, start);
    ahead(bytes, near, start)
}
