//! Patterns.

ghost use Rattle.std.specs.Prelude.{◌≡◌};
ghost use Rattle.asl_grammar.specs.grammar.Build as build;
ghost use Rattle.asl_grammar.specs.grammar.Rules as rules;
ghost use Rattle.asl_parse_expr.specs.private.Code.{cursor_of, Met, reading, then, ending};
ghost use Rattle.asl_parse_expr.specs.private.Nests.{Nests};

use crate::firsts::{LITERAL, UNARY};
use crate::grammar::{Grammar, Symbol, Value, nested};
use crate::literals::{bits_pattern, mask_pattern};
use crate::operators::unary_node;
use crate::tokens::Tokens;
use asl_grammar::error::ParseError;
use asl_grammar::kinds::Kind;
use asl_syn::token::Span;
use asl_syn::tree::{Expr, Pattern, UnaryOperator};
use sqlite_items::{Boxed, Items};
use std::alloc::Global;

/// The pattern that parentheses hold: a tuple, unless they hold one alone.
fn pattern_parens_of(span: Span, mut parts: Items<Pattern>) -> Pattern
    ensures { result ≡ build.pattern_parens_of span parts }
{
    if parts.len() == 1 {
        return parts.remove(0);
    }
    Pattern::TuplePattern(span, parts)
}

impl<F: Fn(Global, &mut Tokens<'_>, usize, Symbol) -> Result<Value, ParseError>> Grammar<F> {
    /// The patterns of a set, and the `}`.
    #[tactic(auto, unfolding(asl_grammar::specs::grammar::Rules::set_parts))]
    pub fn set_parts(&self, tokens: &mut Tokens<'_>) -> Result<Items<Pattern>, ParseError>
        requires { Nests self.now.depth (F.pre self.now.nested) (F.post self.now.nested) }
        ensures { Met (reading self.now.depth rules.set_parts (cursor_of tokens.old)) result (cursor_of tokens.new) }
    {
        let found = self.patterns(tokens)?;
        tokens.take(Kind::CloseBrace)?;
        Ok(found)
    }

    /// The patterns of a set in braces.
    #[tactic(auto, unfolding(asl_grammar::specs::grammar::Rules::set_braces))]
    pub fn set_braces(&self, tokens: &mut Tokens<'_>) -> Result<Items<Pattern>, ParseError>
        requires { Nests self.now.depth (F.pre self.now.nested) (F.post self.now.nested) }
        ensures { Met (reading self.now.depth rules.set_braces (cursor_of tokens.old)) result (cursor_of tokens.new) }
    {
        let left = tokens.left;
        tokens.open(Kind::OpenBrace)?;
        let found = match self.value(tokens, Symbol::SetParts)? {
            Value::Patterns(found) => found,
            _ => unreachable!(),
        };
        tokens.left = left;
        Ok(found)
    }

    /// A set.
    #[tactic(auto, unfolding(asl_grammar::specs::grammar::Rules::set_pattern))]
    pub fn set_pattern(&self, tokens: &mut Tokens<'_>) -> Result<Pattern, ParseError>
        requires { Nests self.now.depth (F.pre self.now.nested) (F.post self.now.nested) }
        ensures { Met (reading self.now.depth rules.set_pattern (cursor_of tokens.old)) result (cursor_of tokens.new) }
    {
        let from = tokens.ahead();
        let parts = self.set_braces(tokens)?;
        Ok(Pattern::SetPattern(tokens.since(from), false, parts))
    }

    /// `!` and a set.
    #[tactic(auto, unfolding(asl_grammar::specs::grammar::Rules::not_set_pattern))]
    pub fn not_set_pattern(&self, tokens: &mut Tokens<'_>) -> Result<Pattern, ParseError>
        requires { Nests self.now.depth (F.pre self.now.nested) (F.post self.now.nested) }
        ensures { Met (reading self.now.depth rules.not_set_pattern (cursor_of tokens.old)) result (cursor_of tokens.new) }
    {
        let from = tokens.ahead();
        tokens.take(Kind::Bang)?;
        let parts = self.set_braces(tokens)?;
        Ok(Pattern::SetPattern(tokens.since(from), true, parts))
    }

    /// The pattern behind `IN`.
    pub fn in_pattern(&self, tokens: &mut Tokens<'_>) -> Result<Pattern, ParseError>
        requires { Nests self.now.depth (F.pre self.now.nested) (F.post self.now.nested) }
        ensures { Met (reading self.now.depth rules.in_pattern (cursor_of tokens.old)) result (cursor_of tokens.new) }
    {
        if tokens.starts(&[Kind::Bang]) {
            self.not_set_pattern(tokens)
        } else if tokens.starts(&[Kind::OpenBrace]) {
            self.set_pattern(tokens)
        } else if tokens.starts(&[Kind::BitsLiteral]) {
            bits_pattern(self.alloc, tokens, self.depth)
        } else {
            mask_pattern(self.alloc, tokens, self.depth)
        }
    }

    /// How a sum goes on behind its first operand.
    #[tactic(auto, using(crate::proofs::Tails::sum_rests_is))]
    pub fn sum_rests(
        &self,
        tokens: &mut Tokens<'_>,
        from: Span,
        left: Boxed<Expr>,
    ) -> Result<Boxed<Expr>, ParseError>
        requires { Nests self.now.depth (F.pre self.now.nested) (F.post self.now.nested) }
        ensures { Met (then (build.chained from left) (reading self.now.depth rules.sum_rests (cursor_of tokens.old))) result (cursor_of tokens.new) }
    {
        let left = self.power_rest(tokens, from, left)?;
        let left = self.product_rest(tokens, from, left)?;
        self.sum_rest(tokens, from, left)
    }

    /// An outermost sum: the levels of its operators end with it.
    #[tactic(auto, unfolding(asl_grammar::specs::grammar::Rules::scoped_sum))]
    pub fn scoped_sum(&self, tokens: &mut Tokens<'_>) -> Result<Boxed<Expr>, ParseError>
        requires { Nests self.now.depth (F.pre self.now.nested) (F.post self.now.nested) }
        ensures { Met (reading self.now.depth rules.scoped_sum (cursor_of tokens.old)) result (cursor_of tokens.new) }
    {
        let left = tokens.left;
        let whole = self.sum(tokens)?;
        tokens.left = left;
        Ok(whole)
    }

    /// The upper end of a range, if there is one.
    #[tactic(auto, unfolding(asl_grammar::specs::grammar::Rules::range_end, crate::specs::private::Code::ending))]
    pub fn range_end(
        &self,
        tokens: &mut Tokens<'_>,
        from: Span,
        low: Boxed<Expr>,
    ) -> Result<Pattern, ParseError>
        requires { Nests self.now.depth (F.pre self.now.nested) (F.post self.now.nested) }
        ensures { Met (ending from (build.pattern_of low) (reading self.now.depth rules.range_end (cursor_of tokens.old))) result (cursor_of tokens.new) }
    {
        if !tokens.starts(&[Kind::DotDot]) {
            return Ok(Pattern::ValuePattern(tokens.since(from), low.into_inner()));
        }
        tokens.take(Kind::DotDot)?;
        let high = self.scoped_sum(tokens)?;
        Ok(Pattern::RangePattern(tokens.since(from), low.into_inner(), high.into_inner()))
    }

    /// A sum whose first operator, a prefix one, was read: its level is opened here.
    #[tactic(auto, using(crate::proofs::Tails::late_sum_is))]
    pub fn late_sum(
        &self,
        tokens: &mut Tokens<'_>,
        from: Span,
        operator: UnaryOperator,
    ) -> Result<Boxed<Expr>, ParseError>
        requires { Nests self.now.depth (F.pre self.now.nested) (F.post self.now.nested) }
        ensures { Met (then (build.late_sum_of from operator) (reading self.now.depth rules.late_sum (cursor_of tokens.old))) result (cursor_of tokens.new) }
    {
        let left = tokens.left;
        tokens.charge(&UNARY, true)?;
        let operand = self.unary(tokens)?;
        let whole = unary_node(self.alloc, tokens.since(from), operator, operand)?;
        let whole = self.sum_rests(tokens, from, whole)?;
        tokens.left = left;
        Ok(whole)
    }

    /// A value or a range whose first operator, a prefix one, was read.
    pub fn late_range(
        &self,
        tokens: &mut Tokens<'_>,
        from: Span,
        operator: UnaryOperator,
    ) -> Result<Pattern, ParseError>
        requires { Nests self.now.depth (F.pre self.now.nested) (F.post self.now.nested) }
        ensures { Met (ending from (build.late_range_of from operator) (reading self.now.depth rules.late_range (cursor_of tokens.old))) result (cursor_of tokens.new) }
    {
        let low = self.late_sum(tokens, from, operator)?;
        self.range_end(tokens, from, low)
    }

    /// `-` alone, or a value or a range that begins with it.
    pub fn minus_pattern(&self, tokens: &mut Tokens<'_>) -> Result<Pattern, ParseError>
        requires { Nests self.now.depth (F.pre self.now.nested) (F.post self.now.nested) }
        ensures { Met (reading self.now.depth rules.minus_pattern (cursor_of tokens.old)) result (cursor_of tokens.new) }
    {
        let from = tokens.ahead();
        tokens.take(Kind::Minus)?;
        if tokens.starts(&UNARY) {
            self.late_range(tokens, from, UnaryOperator::Negate)
        } else {
            Ok(Pattern::AnyPattern(tokens.since(from)))
        }
    }

    /// A set with `!`, or a value or a range that begins with `!`.
    pub fn bang_pattern(&self, tokens: &mut Tokens<'_>) -> Result<Pattern, ParseError>
        requires { Nests self.now.depth (F.pre self.now.nested) (F.post self.now.nested) }
        ensures { Met (reading self.now.depth rules.bang_pattern (cursor_of tokens.old)) result (cursor_of tokens.new) }
    {
        let from = tokens.ahead();
        tokens.take(Kind::Bang)?;
        if tokens.starts(&[Kind::OpenBrace]) {
            let parts = self.set_braces(tokens)?;
            Ok(Pattern::SetPattern(tokens.since(from), true, parts))
        } else {
            self.late_range(tokens, from, UnaryOperator::Not)
        }
    }

    /// `<=` and a sum.
    #[tactic(auto, unfolding(asl_grammar::specs::grammar::Rules::at_most))]
    pub fn at_most(&self, tokens: &mut Tokens<'_>) -> Result<Pattern, ParseError>
        requires { Nests self.now.depth (F.pre self.now.nested) (F.post self.now.nested) }
        ensures { Met (reading self.now.depth rules.at_most (cursor_of tokens.old)) result (cursor_of tokens.new) }
    {
        let from = tokens.ahead();
        tokens.take(Kind::LessEqual)?;
        let bound = self.scoped_sum(tokens)?;
        Ok(Pattern::AtMost(tokens.since(from), bound.into_inner()))
    }

    /// `>=` and a sum.
    #[tactic(auto, unfolding(asl_grammar::specs::grammar::Rules::at_least))]
    pub fn at_least(&self, tokens: &mut Tokens<'_>) -> Result<Pattern, ParseError>
        requires { Nests self.now.depth (F.pre self.now.nested) (F.post self.now.nested) }
        ensures { Met (reading self.now.depth rules.at_least (cursor_of tokens.old)) result (cursor_of tokens.new) }
    {
        let from = tokens.ahead();
        tokens.take(Kind::GreaterEqual)?;
        let bound = self.scoped_sum(tokens)?;
        Ok(Pattern::AtLeast(tokens.since(from), bound.into_inner()))
    }

    /// The patterns of a tuple, and the `)`.
    #[tactic(auto, unfolding(asl_grammar::specs::grammar::Rules::pattern_parts))]
    pub fn pattern_parts(&self, tokens: &mut Tokens<'_>) -> Result<Items<Pattern>, ParseError>
        requires { Nests self.now.depth (F.pre self.now.nested) (F.post self.now.nested) }
        ensures { Met (reading self.now.depth rules.pattern_parts (cursor_of tokens.old)) result (cursor_of tokens.new) }
    {
        let found = self.patterns(tokens)?;
        tokens.take(Kind::CloseParen)?;
        Ok(found)
    }

    /// A pattern in parentheses, or a tuple of patterns.
    #[tactic(auto, unfolding(asl_grammar::specs::grammar::Rules::pattern_in_parens))]
    pub fn pattern_in_parens(&self, tokens: &mut Tokens<'_>) -> Result<Pattern, ParseError>
        requires { Nests self.now.depth (F.pre self.now.nested) (F.post self.now.nested) }
        ensures { Met (reading self.now.depth rules.pattern_in_parens (cursor_of tokens.old)) result (cursor_of tokens.new) }
    {
        let from = tokens.ahead();
        let left = tokens.left;
        tokens.open(Kind::OpenParen)?;
        let parts = match self.value(tokens, Symbol::PatternParts)? {
            Value::Patterns(found) => found,
            _ => unreachable!(),
        };
        tokens.left = left;
        Ok(pattern_parens_of(tokens.since(from), parts))
    }

    /// An operand that begins with none of `-`, `!`, `(`.
    pub fn plain_unary(&self, tokens: &mut Tokens<'_>) -> Result<Boxed<Expr>, ParseError>
        requires { Nests self.now.depth (F.pre self.now.nested) (F.post self.now.nested) }
        ensures { Met (reading self.now.depth rules.plain_unary (cursor_of tokens.old)) result (cursor_of tokens.new) }
    {
        if tokens.starts(&[Kind::Not]) {
            self.prefixed_by(tokens, &[Kind::Not])
        } else if tokens.starts(&LITERAL) {
            self.post_literal(tokens)
        } else {
            self.post_named(tokens)
        }
    }

    /// A sum that begins with none of `-`, `!`, `(`, inside a greater expression.
    #[tactic(auto, unfolding(asl_grammar::specs::grammar::Rules::plain_chain, crate::specs::private::Code::then))]
    pub fn plain_chain(&self, tokens: &mut Tokens<'_>) -> Result<Boxed<Expr>, ParseError>
        requires { Nests self.now.depth (F.pre self.now.nested) (F.post self.now.nested) }
        ensures { Met (reading self.now.depth rules.plain_chain (cursor_of tokens.old)) result (cursor_of tokens.new) }
    {
        let from = tokens.ahead();
        let left = self.plain_unary(tokens)?;
        self.sum_rests(tokens, from, left)
    }

    /// An outermost sum that begins with none of `-`, `!`, `(`.
    #[tactic(auto, unfolding(asl_grammar::specs::grammar::Rules::plain_sum))]
    pub fn plain_sum(&self, tokens: &mut Tokens<'_>) -> Result<Boxed<Expr>, ParseError>
        requires { Nests self.now.depth (F.pre self.now.nested) (F.post self.now.nested) }
        ensures { Met (reading self.now.depth rules.plain_sum (cursor_of tokens.old)) result (cursor_of tokens.new) }
    {
        let left = tokens.left;
        let whole = self.plain_chain(tokens)?;
        tokens.left = left;
        Ok(whole)
    }

    /// A value or a range that begins with none of `-`, `!`, `(`.
    #[tactic(auto, unfolding(asl_grammar::specs::grammar::Rules::sum_pattern, crate::specs::private::Code::ending))]
    pub fn sum_pattern(&self, tokens: &mut Tokens<'_>) -> Result<Pattern, ParseError>
        requires { Nests self.now.depth (F.pre self.now.nested) (F.post self.now.nested) }
        ensures { Met (reading self.now.depth rules.sum_pattern (cursor_of tokens.old)) result (cursor_of tokens.new) }
    {
        let from = tokens.ahead();
        let low = self.plain_sum(tokens)?;
        self.range_end(tokens, from, low)
    }

    /// A pattern.
    pub fn pattern(&self, tokens: &mut Tokens<'_>) -> Result<Pattern, ParseError>
        requires { Nests self.now.depth (F.pre self.now.nested) (F.post self.now.nested) }
        ensures { Met (reading self.now.depth rules.pattern (cursor_of tokens.old)) result (cursor_of tokens.new) }
    {
        if tokens.starts(&[Kind::Minus]) {
            self.minus_pattern(tokens)
        } else if tokens.starts(&[Kind::Bang]) {
            self.bang_pattern(tokens)
        } else if tokens.starts(&[Kind::OpenBrace]) {
            self.set_pattern(tokens)
        } else if tokens.starts(&[Kind::MaskLiteral]) {
            mask_pattern(self.alloc, tokens, self.depth)
        } else if tokens.starts(&[Kind::LessEqual]) {
            self.at_most(tokens)
        } else if tokens.starts(&[Kind::GreaterEqual]) {
            self.at_least(tokens)
        } else if tokens.starts(&[Kind::OpenParen]) {
            self.pattern_in_parens(tokens)
        } else {
            self.sum_pattern(tokens)
        }
    }

    /// Patterns with commas between.
    #[tactic(auto, using(crate::proofs::Steps::patterns_is))]
    pub fn patterns(&self, tokens: &mut Tokens<'_>) -> Result<Items<Pattern>, ParseError>
        requires { Nests self.now.depth (F.pre self.now.nested) (F.post self.now.nested) }
        ensures { Met (reading self.now.depth rules.patterns (cursor_of tokens.old)) result (cursor_of tokens.new) }
    {
        let mut found = Items::new(self.alloc);
        found.push(self.pattern(tokens)?)?;
        for _turn in 0..tokens.len() {
            if !tokens.starts(&[Kind::Comma]) {
                return Ok(found);
            }
            tokens.take(Kind::Comma)?;
            found.push(self.pattern(tokens)?)?;
        }
        Ok(found)
    }
}

/// Patterns with commas between.
pub fn patterns(
    alloc: Global,
    tokens: &mut Tokens<'_>,
    depth: usize,
) -> Result<Items<Pattern>, ParseError>
    ensures { Met (reading depth rules.patterns (cursor_of tokens.old)) result (cursor_of tokens.new) }
{
    Grammar {
        alloc,
        depth,
        nested,
    }
    .patterns(tokens)
}
