//! Tokens, and the first fault of a text.
ghost use Rattle.std.specs.Prelude.{◌≤◌, length, IfOk, vec_len};

use asl_lex::lexer::Lexer;
use asl_lex::tokens::{tokens_of, tokens_of_all};
use asl_syn::code::{Fault, Refused, StaticCode};
use asl_syn::place::{MAX_BYTES, Source};
use asl_syn::token::{Span, Token};
use std::alloc::{AllocError, Global};
use std::fmt::Write;

/// Adds what a span covers: its file, its first byte and its length.
fn push_span(out: &mut String, span: Span) -> Option<()> {
    let Span { file, start, len } = span;
    write!(out, " {file}:{start}+{len}").ok()
}

/// The tokens, each with its place.
fn shown(alloc: Global, tokens: &[Token]) -> Option<String> {
    let mut out = String::new(alloc);
    for token in tokens {
        if !out.is_empty() {
            out.push_str(", ").ok()?;
        }
        let kind = token.kind;
        write!(out, "{kind:?}").ok()?;
        push_span(&mut out, token.span)?;
    }
    Some(out)
}

/// A fault: its code and its place.
fn shown_fault(alloc: Global, fault: &Fault) -> Option<String> {
    let mut out = String::from_str(alloc, fault.code.text()).ok()?;
    push_span(&mut out, fault.span)?;
    Some(out)
}

/// What is read of a text, the seventh file; none where memory is wanting.
fn read(alloc: Global, text: &[u8]) -> Option<String> {
    if MAX_BYTES < text.len() {
        return None;
    }
    match tokens_of(alloc, 7, text) {
        Ok(tokens) => shown(alloc, tokens.as_slice()),
        Err(Refused::At(fault)) => shown_fault(alloc, &fault),
        Err(Refused::NoMemory) => None,
    }
}

/// Texts, with their tokens or their first fault.
const TEXTS: &[(&[u8], &str)] = &[
    (b"", ""),
    (b" \t\r\n// x", ""),
    (
        b"func f\n begin",
        "Word(Func) 7:0+4, Name 7:5+1, Word(Begin) 7:8+5",
    ),
    (b"/* a **/_a1/*//*/EOR", "Name 7:8+3, Word(BitEor) 7:17+3"),
    (
        b"-->==>:::..",
        "Mark(Implies) 7:0+3, Mark(Equal) 7:3+2, Mark(Greater) 7:5+1, Mark(ColonColon) 7:6+2, Mark(Colon) 7:8+1, Mark(DotDot) 7:9+2",
    ),
    (
        b"12ab 0xg 1.5",
        "Int(12) 7:0+2, Name 7:2+2, Int(0) 7:5+1, Name 7:6+2, Int(1) 7:9+1, Mark(Dot) 7:10+1, Int(5) 7:11+1",
    ),
    (b"0x7F_f 1__2", "Int(2047) 7:0+6, Int(12) 7:7+4"),
    (
        b"170141183460469231731687303715884105727",
        "Int(170141183460469231731687303715884105727) 7:0+39",
    ),
    (
        b"'' '1 0' 'x1' '(0 1)' \"a\\\"//\"",
        "Bits 7:0+2, Bits 7:3+5, Mask 7:9+4, Mask 7:14+7, Text 7:22+7",
    ),
    (b"a & b", "L01 7:2+1"),
    (b"a\x80", "L01 7:1+1"),
    (b"a /*/ b", "L02 7:2+5"),
    (b"'01z'", "L03 7:0+3"),
    (b"'()'", "L03 7:0+2"),
    (b"'(01'", "L03 7:0+4"),
    (b" '0", "L03 7:1+2"),
    (b"\"a\\q\"", "L03 7:0+3"),
    (b"\"a\n\"", "L03 7:0+2"),
    (b"170141183460469231731687303715884105728", "L04 7:0+39"),
    (b"0x8000_0000_0000_0000_0000_0000_0000_0000", "L04 7:0+41"),
    (b"a __b &", "L05 7:2+3"),
];

fn rows() -> &'static [(&'static [u8], &'static str)] {
    TEXTS
}

#[test]
fn texts_are_read(rt: HostRuntime) {
    for &(text, want) in rows() {
        let found = read(rt.alloc(), text).expect(&rt, "memory");
        assert_eq!(rt; found.as_str(), want);
    }
}

/// Whether a text has 200,000 tokens, and then this fault of so many bytes at its byte 400,000, again and again.
fn ends_so(text: &[u8], code: StaticCode, len: u32) -> bool
    requires { length text.now ≤ 1048576 }
{
    let mut lexer = Lexer::new(0, text);
    for _ in 0..200_000 {
        if !matches!(lexer.next(), Ok(Some(_))) {
            return false;
        }
    }
    let fault = Fault {
        code,
        inner: None,
        span: Span {
            file: 0,
            start: 400_000,
            len,
        },
    };
    lexer.next() == Err(fault) && lexer.next() == Err(fault)
}

/// Whether it is the 200,001st token of a text that may not be, behind any fault of its own.
fn are_counted(alloc: Global) -> Result<bool, AllocError> {
    let mut text = vec![in alloc; b'\''; 400_000]?;
    for (code, len) in [(StaticCode::L03, 1), (StaticCode::M03, 2)] {
        text.push(b'\'')?;
        if text.len() > MAX_BYTES || !ends_so(text.as_slice(), code, len) {
            return Ok(false);
        }
    }
    Ok(true)
}

#[test]
fn a_text_has_at_most_200_000_tokens(rt: HostRuntime) {
    assert_eq!(rt; are_counted(rt.alloc()), Ok(true));
}

fn source(alloc: Global, bytes: &[u8]) -> Result<Source, AllocError>
    requires { length bytes.now ≤ 1048576 }
    ensures { IfOk result (λ source. vec_len source.bytes ≤ 1048576) }
{
    Ok(Source {
        name: String::new(alloc),
        bytes: Vec::from_slice(alloc, bytes)?,
    })
}

/// The tokens of three files, one after another.
fn of_files(alloc: Global) -> Option<String> {
    let files = [
        source(alloc, b"a;").ok()?,
        source(alloc, b"").ok()?,
        source(alloc, b" bc").ok()?,
    ];
    let mut out = String::new(alloc);
    for tokens in tokens_of_all(alloc, &files).ok()?.as_slice() {
        out.push_str(shown(alloc, tokens.as_slice())?.as_str())
            .ok()?;
        out.push_str("; ").ok()?;
    }
    Some(out)
}

#[test]
fn files_are_read_in_order(rt: HostRuntime) {
    let found = of_files(rt.alloc()).expect(&rt, "memory");
    assert_eq!(rt;
        found.as_str(),
        "Name 0:0+1, Mark(Semicolon) 0:1+1; ; Name 2:1+2; "
    );
}
