//! The exact texts: fault lines, and the lines that end an answer.
ghost use Rattle.std.specs.Prelude.{◌≡◌, ◌<◌, ℕ, List, Result, Err, IfOk, map, string_bytes};
ghost use Rattle.asl_rules.specs.report.Texts.{placed, line_at, fault_line, dynamic_line, long_line, accepted_line, done_line, made_words};
ghost use Rattle.asl_rules.specs.report.Report.{Answer, answer, on_words_read};
ghost use Rattle.asl_rules.specs.report.WordList.{ListFault, Word};
ghost use Rattle.asl_words.specs.private.Faults.{Says};
ghost use Rattle.asl_answer.specs.private.Model.{file_of, AreShort};

use asl_syn::code::{DynCode, Fault, StaticCode};
use asl_syn::place::{Source, place};
use asl_syn::token::Span;
use asl_words::WordFault;
use std::alloc::{AllocError, Global};

/// A place in a file, and a code or other words.
pub fn placed_text(
    alloc: Global,
    name: &str,
    line: usize,
    column: u32,
    len: u32,
    code: &str,
) -> Result<String, AllocError>
    ensures { IfOk result (λ text. string_bytes text ≡ placed name.now line column len code.now) }
{
    format!(in alloc; "{name}:{line}:{column}+{len}: {code}\n")
}

/// The line of a code at a span. A span that begins behind its file's end is shown at the end.
fn text_at(alloc: Global, sources: &[Source], span: Span, code: &str) -> Result<String, AllocError>
    requires { AreShort sources.now }
    ensures { IfOk result (λ text. string_bytes text ≡ line_at (map file_of sources.now) span code.now) }
{
    match sources.get(span.file as usize) {
        Some(source) => {
            let start = (source.bytes.len() as u32).min(span.start);
            let first = Span {
                file: span.file,
                start,
                len: 0,
            };
            let (line, column) = place(sources, first);
            let name = source.name.as_str();
            placed_text(alloc, name, line as usize, column, span.len, code)
        }
        None => placed_text(alloc, "", 1, 1, span.len, code),
    }
}

/// The line of a fault that was found before anything ran.
pub fn fault_text(alloc: Global, sources: &[Source], fault: &Fault) -> Result<String, AllocError>
    requires { AreShort sources.now }
    ensures { IfOk result (λ text. string_bytes text ≡ fault_line (map file_of sources.now) fault.now) }
{
    match fault.inner {
        Some(inner) => {
            let outer = fault.code.text();
            let inner = inner.text();
            let code = format!(in alloc; "{outer} {inner}")?;
            text_at(alloc, sources, fault.span, code.as_str())
        }
        None => text_at(alloc, sources, fault.span, fault.code.text()),
    }
}

/// The line of a fault that a run ended in.
pub fn dynamic_text(
    alloc: Global,
    sources: &[Source],
    code: DynCode,
    span: Span,
) -> Result<String, AllocError>
    requires { AreShort sources.now }
    ensures { IfOk result (λ text. string_bytes text ≡ dynamic_line (map file_of sources.now) code span) }
{
    text_at(alloc, sources, span, code.text())
}

/// The line of a file that is too long.
pub fn long_text(alloc: Global, name: &str) -> Result<String, AllocError>
    ensures { IfOk result (λ text. string_bytes text ≡ long_line name.now) }
{
    format!(in alloc; "{name}:1:1+0: M01\n")
}

/// The code of a word list's fault, and the number of its line.
fn code_and_line(fault: WordFault) -> (StaticCode, usize)
    requires { fault ≡ WordFault.NoMemory → ⊥ }
    ensures { (r : Result (List Word) ListFault) → Says fault r → r ≡ Err (record { code = result.0; line = result.1 }) }
{
    match fault {
        WordFault::Length(line) => (StaticCode::N01, line),
        WordFault::Digit(line) => (StaticCode::N02, line),
        WordFault::TooMany(line) => (StaticCode::N03, line),
        WordFault::NoMemory => unreachable!(),
    }
}

/// The line of a word list's fault, at the beginning of its line.
pub fn list_fault_text(alloc: Global, name: &str, fault: WordFault) -> Result<String, AllocError>
    requires { fault ≡ WordFault.NoMemory → ⊥ }
    ensures { IfOk result (λ text. (r : Result (List Word) ListFault) → Says fault r → (go : List Word → Answer) → on_words_read name.now r go ≡ answer (string_bytes text) 1) }
{
    let (code, line) = code_and_line(fault);
    placed_text(alloc, name, line, 1, 0, code.text())
}

/// The line of words that all returned, by their number.
pub fn done_text(alloc: Global, words: u32) -> Result<String, AllocError>
    ensures { IfOk result (λ text. string_bytes text ≡ done_line words) }
{
    format!(in alloc; "done {words}\n")
}

/// What stands before the value that a made text returned.
pub fn made_words(
    alloc: Global,
    number: u32,
    size: u32,
    bytes: usize,
    declarations: usize,
) -> Result<String, AllocError>
    ensures { IfOk result (λ text. string_bytes text ≡ made_words number size bytes declarations) }
{
    format!(in alloc; "self {number} {size}: {bytes} bytes, {declarations} declarations, ")
}

/// The line of a check that accepts so many declarations.
pub fn accepted_text(alloc: Global, declarations: usize) -> Result<String, AllocError>
    ensures { IfOk result (λ text. string_bytes text ≡ accepted_line declarations) }
{
    format!(in alloc; "ok {declarations} declarations\n")
}
