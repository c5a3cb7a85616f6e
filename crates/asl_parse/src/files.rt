//! The declarations of files, or their one fault.

ghost use Rattle.std.specs.Prelude.{◌≡◌, ◌≤◌, All, Ok as TheOk, Err, IfOk, length, map, vec_len};
ghost use Rattle.asl_syn.specs.declared.code.Fault.{Fault as TheFault};
ghost use Rattle.asl_syn.specs.declared.code.Refused.TheVariants.{At};
ghost use Rattle.asl_grammar.specs.Reading.{text_of, file_of, HasTrees, FirstSyntaxFault, Reads};

use crate::tree::tree_of;
use asl_lex::tokens::tokens_of_all;
use asl_syn::code::Refused;
use asl_syn::place::{MAX_BYTES, Source};
use asl_syn::read::{ReadDecl, ReadProgram};
use asl_syn::token::Token;
use sqlite_items::Items;
use std::alloc::Global;

/// The trees of the tokens of files, one behind the other.
fn trees_of_all(
    alloc: Global,
    files: &[Source],
    tokens: &[Vec<Token>],
) -> Result<Items<ReadDecl>, Refused>
    requires few { length files.now ≤ 64 }
    requires small { All (λ s. vec_len s.bytes ≤ MAX_BYTES) files.now }
    requires same { length tokens.now ≡ length files.now }
    ensures trees { IfOk result (λ v. HasTrees (map text_of files.now) (map (λ ts. ts.items) tokens.now) v) }
    ensures fault { (f : TheFault) → result ≡ Err (At f) → FirstSyntaxFault 0 (map text_of files.now) (map (λ ts. ts.items) tokens.now) f }
{
    let mut decls = Items::new(alloc);
    for (number, source) in files.iter().enumerate() {
        let found = tree_of(
            alloc,
            number as u32,
            source.bytes.as_slice(),
            tokens[number].as_slice(),
        )?;
        decls.append(found)?;
    }
    Ok(decls)
}

/// The declarations of the files, in the order of the files and of the declarations in them, where each text is good. Else
/// the one fault: of the lexemes of the first file that has one, or else the syntax fault of the first file that has one.
pub fn parse(alloc: Global, files: &[Source]) -> Result<ReadProgram, Refused>
    requires few { length files.now ≤ 64 }
    requires small { All (λ s. vec_len s.bytes ≤ MAX_BYTES) files.now }
    ensures program { IfOk result (λ p. Reads (map file_of files.now) (TheOk p.decls)) }
    ensures fault { (f : TheFault) → result ≡ Err (At f) → Reads (map file_of files.now) (Err f) }
{
    let tokens = tokens_of_all(alloc, files)?;
    let decls = trees_of_all(alloc, files, tokens.as_slice())?;
    Ok(ReadProgram { decls })
}
