//! The tree of the tokens of a file, or its one syntax fault.

ghost use Rattle.std.specs.Prelude.{◌≡◌, ◌≤◌, ◌-◌, List, ℕ, length, drop, IfOk, Err};
ghost use Rattle.asl_syn.specs.declared.code.Fault.{Fault as TheFault};
ghost use Rattle.asl_syn.specs.declared.code.Refused.TheVariants.{At, NoMemory};
ghost use Rattle.asl_grammar.specs.declared.error.ParseError.TheVariants.{OutOfMemory};
ghost use Rattle.asl_grammar.specs.grammar.Faults as faults;
ghost use Rattle.asl_grammar.specs.grammar.Faults.{max_levels, lexemes, Parses, SyntaxFault};
ghost use Rattle.asl_grammar.specs.grammar.Language.{outcome};
ghost use Rattle.asl_parse.specs.private.Outcomes.{IsOutcome};

use asl_grammar::error::ParseError;
use asl_grammar::kinds::{Kind, kind_of};
use asl_parse_expr::tokens::Tokens;
use asl_parse_stmt::declarations::program;
use asl_syn::code::{Fault, Refused, StaticCode};
use asl_syn::place::MAX_BYTES;
use asl_syn::read::ReadDecl;
use asl_syn::token::{Span, Token};
use sqlite_items::Items;
use std::alloc::Global;

/// How many levels may be open.
const MAX_LEVELS: usize = 100;

/// Reads all tokens of a file.
fn outcome_of(alloc: Global, bytes: &[u8], toks: &[Token]) -> Result<Items<ReadDecl>, ParseError>
    ensures { IsOutcome (outcome max_levels (lexemes bytes.now toks.now)) result }
{
    let mut tokens = Tokens {
        bytes,
        toks,
        left: MAX_LEVELS,
        last: 0,
    };
    let found = program(alloc, &mut tokens, MAX_LEVELS)?;
    let ahead = tokens.len();
    if ahead > 0 {
        return Err(ParseError::Syntax(ahead));
    }
    Ok(found)
}

/// Where the next token stands, or the end of the file.
fn place_of(file: u32, bytes: &[u8], ahead: &[Token]) -> Span
    requires { length bytes.now ≤ MAX_BYTES }
    ensures { result ≡ faults.place_of file (length bytes.now) (lexemes bytes.now ahead.now) }
{
    match ahead.first() {
        None => Span {
            file,
            start: bytes.len() as u32,
            len: 0,
        },
        Some(token) => token.span,
    }
}

/// A word that is left out has a code of its own.
fn refusal_code(ahead: &[Token]) -> StaticCode
    ensures { (bytes : List ℕ) → result ≡ faults.refusal_code (lexemes bytes ahead.now) }
{
    match ahead.first() {
        None => StaticCode::S01,
        Some(token) => {
            if kind_of(token.kind) == Kind::LeftOut {
                StaticCode::S03
            } else {
                StaticCode::S01
            }
        }
    }
}

/// The next token isn't allowed.
fn refusal(file: u32, bytes: &[u8], ahead: &[Token]) -> Fault
    requires { length bytes.now ≤ MAX_BYTES }
    ensures { result ≡ faults.refusal file (length bytes.now) (lexemes bytes.now ahead.now) }
{
    Fault {
        code: refusal_code(ahead),
        inner: None,
        span: place_of(file, bytes, ahead),
    }
}

/// Where the next token stands.
fn span_at(ahead: &[Token]) -> Span
    ensures { (bytes : List ℕ) → result ≡ faults.place_of 0 0 (lexemes bytes ahead.now) }
{
    match ahead.first() {
        None => Span {
            file: 0,
            start: 0,
            len: 0,
        },
        Some(token) => token.span,
    }
}

/// The tokens from where so many are left on.
fn ahead_of(toks: &[Token], left: usize) -> &[Token]
    ensures { result.now ≡ drop (length toks.now - left) toks.now }
{
    &toks[toks.len().saturating_sub(left)..]
}

/// The tokens from where so many are left on, or, if late, from the one before on.
fn opener_of(toks: &[Token], left: usize, late: bool) -> &[Token]
    ensures { result.now ≡ drop (faults.before late (length toks.now - left)) toks.now }
{
    let there = toks.len().saturating_sub(left);
    if late {
        &toks[there.saturating_sub(1)..]
    } else {
        &toks[there..]
    }
}

/// The token there opens a level too many, or the one before it.
fn level_fault(toks: &[Token], left: usize, late: bool) -> Fault
    ensures { (bytes : List ℕ) → result ≡ faults.level_fault (lexemes bytes toks.now) left late }
{
    Fault {
        code: StaticCode::S02,
        inner: None,
        span: span_at(opener_of(toks, left, late)),
    }
}

/// The syntax fault, by where the reader stopped.
fn refused(file: u32, bytes: &[u8], toks: &[Token], error: ParseError) -> Refused
    requires { length bytes.now ≤ MAX_BYTES }
    ensures fault { (f : TheFault) → result ≡ At f → outcome max_levels (lexemes bytes.now toks.now) ≡ Err error → SyntaxFault file bytes.now toks.now f }
    ensures memory { error ≡ OutOfMemory → result ≡ NoMemory }
{
    match error {
        ParseError::OutOfMemory => Refused::NoMemory,
        ParseError::Syntax(left) => Refused::At(refusal(file, bytes, ahead_of(toks, left))),
        ParseError::TooDeep(left, late) => Refused::At(level_fault(toks, left, late)),
    }
}

/// The tree of the tokens of a file, or its one syntax fault.
pub fn tree_of(
    alloc: Global,
    file: u32,
    bytes: &[u8],
    toks: &[Token],
) -> Result<Items<ReadDecl>, Refused>
    requires { length bytes.now ≤ MAX_BYTES }
    ensures tree { IfOk result (λ v. Parses bytes.now toks.now v) }
    ensures fault { (f : TheFault) → result ≡ Err (At f) → SyntaxFault file bytes.now toks.now f }
{
    match outcome_of(alloc, bytes, toks) {
        Ok(found) => Ok(found),
        Err(error) => Err(refused(file, bytes, toks, error)),
    }
}
