//! Names.

ghost use Rattle.std.specs.Prelude.{◌≡◌};
ghost use Rattle.asl_grammar.specs.grammar.Rules as rules;
ghost use Rattle.asl_parse_expr.specs.private.Code.{cursor_of, Met, reading};

use crate::firsts::NAME;
use crate::tokens::{Tokens, ident};
use asl_grammar::error::ParseError;
use asl_grammar::kinds::Kind;
use asl_syn::tree::Ident;
use sqlite_items::Items;
use std::alloc::Global;

/// A name.
#[tactic(auto, unfolding(asl_grammar::specs::grammar::Rules::name))]
pub fn name(alloc: Global, tokens: &mut Tokens<'_>, depth: usize) -> Result<Ident, ParseError>
    ensures { Met (reading depth rules.name (cursor_of tokens.old)) result (cursor_of tokens.new) }
{
    let bytes = tokens.bytes;
    let token = tokens.take_any(&NAME)?;
    Ok(ident(alloc, bytes, token)?)
}

/// Names with commas between.
#[tactic(auto, using(crate::proofs::Steps::names_is))]
pub fn names(
    alloc: Global,
    tokens: &mut Tokens<'_>,
    depth: usize,
) -> Result<Items<Ident>, ParseError>
    ensures { Met (reading depth rules.names (cursor_of tokens.old)) result (cursor_of tokens.new) }
{
    let mut found = Items::new(alloc);
    found.push(name(alloc, tokens, depth)?)?;
    for _turn in 0..tokens.len() {
        if !tokens.starts(&[Kind::Comma]) {
            return Ok(found);
        }
        tokens.take(Kind::Comma)?;
        found.push(name(alloc, tokens, depth)?)?;
    }
    Ok(found)
}
