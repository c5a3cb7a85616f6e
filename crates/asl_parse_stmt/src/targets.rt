//! The left sides of assignments.

ghost use Rattle.std.specs.Prelude.{◌≡◌};
ghost use Rattle.asl_grammar.specs.grammar.Build as build;
ghost use Rattle.asl_grammar.specs.grammar.Rules as rules;
ghost use Rattle.asl_parse_expr.specs.private.Code.{cursor_of, Met, reading, then};

use crate::levels::nest;
use asl_grammar::error::ParseError;
use asl_grammar::kinds::Kind;
use asl_parse_expr::firsts::NAME;
use asl_parse_expr::names::name;
use asl_parse_expr::suffixes::suffixes;
use asl_parse_expr::tokens::{Tokens, end_of, span_to};
use asl_syn::tree::{Ident, PlacedSuffix, Target};
use sqlite_items::Items;
use std::alloc::Global;

fn last_end(start: u32, suffixes: &[PlacedSuffix]) -> u32
    ensures { result ≡ build.last_end start suffixes.now }
{
    let mut end = start;
    for suffix in suffixes {
        end = suffix.end;
    }
    end
}

/// A name with its suffixes.
pub fn place_of(name: Ident, suffixes: Items<PlacedSuffix>) -> Target
    ensures { result ≡ build.place_of name suffixes }
{
    let end = last_end(end_of(name.span), suffixes.as_slice());
    Target::Place(span_to(name.span, end), name, suffixes)
}

/// The suffixes of a target, whose levels end with it.
#[tactic(auto, unfolding(asl_grammar::specs::grammar::Rules::target_suffixes))]
pub fn target_suffixes(
    alloc: Global,
    tokens: &mut Tokens<'_>,
    depth: usize,
) -> Result<Items<PlacedSuffix>, ParseError>
    ensures { Met (reading depth rules.target_suffixes (cursor_of tokens.old)) result (cursor_of tokens.new) }
{
    let left = tokens.left;
    let found = suffixes(alloc, tokens, depth)?;
    tokens.left = left;
    Ok(found)
}

#[tactic(auto, unfolding(asl_grammar::specs::grammar::Rules::no_target))]
fn no_target(tokens: &mut Tokens<'_>, depth: usize) -> Result<Target, ParseError>
    ensures { Met (reading depth rules.no_target (cursor_of tokens.old)) result (cursor_of tokens.new) }
{
    let token = tokens.take(Kind::Minus)?;
    Ok(Target::Discarded(token.span))
}

#[cycle(targets)]
fn target(alloc: Global, tokens: &mut Tokens<'_>, depth: usize) -> Result<Target, ParseError>
    ensures { Met (reading depth rules.target (cursor_of tokens.old)) result (cursor_of tokens.new) }
{
    if tokens.starts(&[Kind::Minus]) {
        no_target(tokens, depth)
    } else if tokens.starts(&NAME) {
        let name = name(alloc, tokens, depth)?;
        let suffixes = target_suffixes(alloc, tokens, depth)?;
        Ok(place_of(name, suffixes))
    } else {
        targets(alloc, tokens, depth)
    }
}

#[cycle(targets)]
#[tactic(auto, using(crate::proofs::Steps::more_targets_is))]
fn more_targets(
    alloc: Global,
    tokens: &mut Tokens<'_>,
    depth: usize,
    mut found: Items<Target>,
) -> Result<Items<Target>, ParseError>
    ensures { Met (then (build.behind found) (reading depth rules.more_targets (cursor_of tokens.old))) result (cursor_of tokens.new) }
{
    for _turn in 0..tokens.len() {
        if !tokens.starts(&[Kind::Comma]) {
            return Ok(found);
        }
        tokens.take(Kind::Comma)?;
        found.push(target(alloc, tokens, depth)?)?;
    }
    Ok(found)
}

#[cycle(targets)]
fn two_targets(
    alloc: Global,
    tokens: &mut Tokens<'_>,
    depth: usize,
) -> Result<Items<Target>, ParseError>
    ensures { Met (reading depth rules.two_targets (cursor_of tokens.old)) result (cursor_of tokens.new) }
{
    let mut found = Items::new(alloc);
    found.push(target(alloc, tokens, depth)?)?;
    tokens.take(Kind::Comma)?;
    found.push(target(alloc, tokens, depth)?)?;
    more_targets(alloc, tokens, depth, found)
}

#[cycle(targets)]
fn targets(alloc: Global, tokens: &mut Tokens<'_>, depth: usize) -> Result<Target, ParseError>
    ensures { Met (reading depth rules.targets (cursor_of tokens.old)) result (cursor_of tokens.new) }
{
    let from = tokens.ahead();
    let left = tokens.left;
    let depth = nest(tokens, Kind::OpenParen, depth)?;
    let parts = two_targets(alloc, tokens, depth)?;
    tokens.take(Kind::CloseParen)?;
    tokens.left = left;
    Ok(Target::Targets(tokens.since(from), parts))
}

/// A target that begins with no name.
pub fn other_target(
    alloc: Global,
    tokens: &mut Tokens<'_>,
    depth: usize,
) -> Result<Target, ParseError>
    ensures { Met (reading depth rules.other_target (cursor_of tokens.old)) result (cursor_of tokens.new) }
{
    if tokens.starts(&[Kind::Minus]) {
        no_target(tokens, depth)
    } else {
        targets(alloc, tokens, depth)
    }
}
