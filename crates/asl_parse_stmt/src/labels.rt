//! Labels of enumerations, and supertypes.

ghost use Rattle.std.specs.Prelude.{◌≡◌};
ghost use Rattle.asl_grammar.specs.grammar.Rules as rules;
ghost use Rattle.asl_parse_expr.specs.private.Code.{cursor_of, Met, reading};

use asl_grammar::error::ParseError;
use asl_grammar::kinds::Kind;
use asl_parse_expr::firsts::NAME;
use asl_parse_expr::names::name;
use asl_parse_expr::tokens::Tokens;
use asl_syn::tree::{Ident, TypeDef};
use sqlite_items::Items;
use std::alloc::Global;

#[tactic(auto, using(crate::proofs::Steps::label_list_is))]
fn label_list(
    alloc: Global,
    tokens: &mut Tokens<'_>,
    depth: usize,
) -> Result<Items<Ident>, ParseError>
    ensures { Met (reading depth rules.label_list (cursor_of tokens.old)) result (cursor_of tokens.new) }
{
    let mut found = Items::new(alloc);
    found.push(name(alloc, tokens, depth)?)?;
    for _turn in 0..tokens.len() {
        if !tokens.starts(&[Kind::Comma]) {
            return Ok(found);
        }
        tokens.take(Kind::Comma)?;
        if !tokens.starts(&NAME) {
            return Ok(found);
        }
        found.push(name(alloc, tokens, depth)?)?;
    }
    Ok(found)
}

/// The labels of an enumeration.
#[tactic(auto, unfolding(asl_grammar::specs::grammar::Rules::label_braces, asl_grammar::specs::grammar::Rules::labels))]
pub fn labels(alloc: Global, tokens: &mut Tokens<'_>, depth: usize) -> Result<TypeDef, ParseError>
    ensures { Met (reading depth rules.labels (cursor_of tokens.old)) result (cursor_of tokens.new) }
{
    let from = tokens.ahead();
    tokens.take(Kind::Enumeration)?;
    let left = tokens.left;
    tokens.open(Kind::OpenBrace)?;
    let found = label_list(alloc, tokens, depth)?;
    tokens.take(Kind::CloseBrace)?;
    tokens.left = left;
    Ok(TypeDef::Labels(tokens.since(from), found))
}

/// The supertype of a type, if it has one.
pub fn supertype(
    alloc: Global,
    tokens: &mut Tokens<'_>,
    depth: usize,
) -> Result<Option<Ident>, ParseError>
    ensures { Met (reading depth rules.supertype (cursor_of tokens.old)) result (cursor_of tokens.new) }
{
    if !tokens.starts(&[Kind::Subtypes]) {
        return Ok(None);
    }
    tokens.take(Kind::Subtypes)?;
    Ok(Some(name(alloc, tokens, depth)?))
}
