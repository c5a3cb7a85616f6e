//! The tokens of files.

ghost use Rattle.std.specs.Prelude.{◌≡◌, ◌≤◌, length, IfOk, Err, All, map, vec_len};
ghost use Rattle.asl_syn.specs.Place.{IsPlaced};
ghost use Rattle.asl_syn.specs.declared.code.Fault.{Fault};
ghost use Rattle.asl_syn.specs.declared.code.Refused.TheVariants.{At};
ghost use Rattle.asl_grammar.specs.lexemes.Refusals.{max_width};
ghost use Rattle.asl_grammar.specs.lexemes.Tokens.{Tokens, LexFault};
ghost use Rattle.asl_grammar.specs.lexemes.Files.{AllTokens, FirstLexFault};

use crate::lexer::Lexer;
use asl_syn::code::Refused;
use asl_syn::place::{MAX_BYTES, Source};
use asl_syn::token::Token;
use std::alloc::Global;

/// The tokens of a file, or its fault. `file` is the number that the spans carry. The file must have at most
/// [`MAX_BYTES`] bytes.
pub fn tokens_of(alloc: Global, file: u32, bytes: &[u8]) -> Result<Vec<Token>, Refused>
    requires { length bytes.now ≤ MAX_BYTES }
    ensures tokens { IfOk result (λ v. Tokens max_width file bytes.now v.items) }
    ensures fault { (f : Fault) → result ≡ Err (At f) → LexFault max_width file bytes.now f }
{
    let mut tokens = Vec::new(alloc);
    let mut lexer = Lexer::new(file, bytes);
    'tokens: loop {
        match lexer.next() {
            Err(fault) => return Err(Refused::At(fault)),
            Ok(None) => return Ok(tokens),
            Ok(Some(token)) => tokens.push(token)?,
        }
    }
}

/// The tokens of each file, or the fault of the first file that has one, which lies in that file. There must be at most 64
/// files, each of at most [`MAX_BYTES`] bytes.
pub fn tokens_of_all(alloc: Global, files: &[Source]) -> Result<Vec<Vec<Token>>, Refused>
    requires few { length files.now ≤ 64 }
    requires small { All (λ s. vec_len s.bytes ≤ MAX_BYTES) files.now }
    ensures tokens { IfOk result (λ v. AllTokens max_width 0 (map (λ s. s.bytes.items) files.now) (map (λ ts. ts.items) v.items)) }
    ensures fault { (f : Fault) → result ≡ Err (At f) → FirstLexFault max_width 0 (map (λ s. s.bytes.items) files.now) f }
    ensures placed { (f : Fault) → result ≡ Err (At f) → IsPlaced files.now f.span }
{
    let mut all = Vec::new(alloc);
    for (number, source) in files.iter().enumerate() {
        let tokens = tokens_of(alloc, number as u32, source.bytes.as_slice())?;
        all.push(tokens)?;
    }
    Ok(all)
}
