//! Suffixes: fields, slices and elements.

ghost use Rattle.std.specs.Prelude.{◌≡◌, IfOk};
ghost use Rattle.asl_grammar.specs.grammar.Build as build;
ghost use Rattle.asl_grammar.specs.grammar.Rules as rules;
ghost use Rattle.asl_parse_expr.specs.private.Code.{cursor_of, Met, reading, then};
ghost use Rattle.asl_parse_expr.specs.private.Nests.{Nests};

use crate::firsts::{NAME, SLICE_FORM, SUFFIX};
use crate::grammar::{Grammar, Symbol, Value, nested};
use crate::names::{name, names};
use crate::tokens::{Tokens, span_to};
use asl_grammar::error::ParseError;
use asl_grammar::kinds::Kind;
use asl_grammar::parts::SliceForm;
use asl_syn::token::Span;
use asl_syn::tree::{Expr, PlacedSuffix, Slice, Suffix};
use sqlite_items::{Boxed, Items};
use std::alloc::{AllocError, Global};

/// The slice that two expressions make in a form.
fn slice_by(first: Expr, form: SliceForm, second: Expr) -> Slice
    ensures { result ≡ build.slice_by first form second }
{
    match form {
        SliceForm::HighLow => Slice::HighLow(first, second),
        SliceForm::LowWidth => Slice::LowWidth(first, second),
        SliceForm::FactorWidth => Slice::FactorWidth(first, second),
    }
}

/// `:`, `+:` or `*:`
fn slice_form(tokens: &mut Tokens<'_>, depth: usize) -> Result<SliceForm, ParseError>
    ensures { Met (reading depth rules.slice_form (cursor_of tokens.old)) result (cursor_of tokens.new) }
{
    if tokens.starts(&[Kind::Colon]) {
        tokens.take(Kind::Colon)?;
        Ok(SliceForm::HighLow)
    } else if tokens.starts(&[Kind::PlusColon]) {
        tokens.take(Kind::PlusColon)?;
        Ok(SliceForm::LowWidth)
    } else {
        tokens.take(Kind::StarColon)?;
        Ok(SliceForm::FactorWidth)
    }
}

/// A suffix on an expression.
fn suffix_on(
    alloc: Global,
    span: Span,
    left: Boxed<Expr>,
    suffix: Suffix,
) -> Result<Boxed<Expr>, AllocError>
    ensures { IfOk result (λ e. e ≡ build.suffix_on span left suffix) }
{
    let whole = match suffix {
        Suffix::FieldOf(field) => Expr::Field(span, left, field),
        Suffix::FieldsOf(fields) => Expr::Fields(span, left, fields),
        Suffix::SlicesOf(slices) => Expr::Slices(span, left, slices),
        Suffix::ElementOf(index) => Expr::Element(span, left, Boxed::new(alloc, index)?),
    };
    Boxed::new(alloc, whole)
}

/// Names of fields in brackets.
#[tactic(auto, unfolding(asl_grammar::specs::grammar::Rules::field_list))]
fn field_list(alloc: Global, tokens: &mut Tokens<'_>, depth: usize) -> Result<Suffix, ParseError>
    ensures { Met (reading depth rules.field_list (cursor_of tokens.old)) result (cursor_of tokens.new) }
{
    let left = tokens.left;
    tokens.open(Kind::OpenBracket)?;
    let fields = names(alloc, tokens, depth)?;
    tokens.take(Kind::CloseBracket)?;
    tokens.left = left;
    Ok(Suffix::FieldsOf(fields))
}

/// What stands behind `.`.
#[tactic(auto, unfolding(asl_grammar::specs::grammar::Rules::dotted, asl_grammar::specs::grammar::Rules::name))]
fn dotted(alloc: Global, tokens: &mut Tokens<'_>, depth: usize) -> Result<Suffix, ParseError>
    ensures { Met (reading depth rules.dotted (cursor_of tokens.old)) result (cursor_of tokens.new) }
{
    if tokens.starts(&NAME) {
        Ok(Suffix::FieldOf(name(alloc, tokens, depth)?))
    } else {
        field_list(alloc, tokens, depth)
    }
}

/// A field, or several in brackets.
#[tactic(auto, unfolding(asl_grammar::specs::grammar::Rules::dot))]
fn dot(alloc: Global, tokens: &mut Tokens<'_>, depth: usize) -> Result<Suffix, ParseError>
    ensures { Met (reading depth rules.dot (cursor_of tokens.old)) result (cursor_of tokens.new) }
{
    tokens.open(Kind::Dot)?;
    dotted(alloc, tokens, depth)
}

impl<F: Fn(Global, &mut Tokens<'_>, usize, Symbol) -> Result<Value, ParseError>> Grammar<F> {
    /// How a slice goes on behind its first expression.
    pub fn slice_rest(
        &self,
        tokens: &mut Tokens<'_>,
        first: Boxed<Expr>,
    ) -> Result<Slice, ParseError>
        requires { Nests self.now.depth (F.pre self.now.nested) (F.post self.now.nested) }
        ensures { Met (then (build.slice_of first) (reading self.now.depth rules.slice_rest (cursor_of tokens.old))) result (cursor_of tokens.new) }
    {
        if !tokens.starts(&SLICE_FORM) {
            return Ok(Slice::BitAt(first.into_inner()));
        }
        let form = slice_form(tokens, self.depth)?;
        let second = self.expression(tokens)?;
        Ok(slice_by(first.into_inner(), form, second.into_inner()))
    }

    /// A slice.
    #[tactic(auto, unfolding(asl_grammar::specs::grammar::Rules::slice, crate::specs::private::Code::then))]
    pub fn slice(&self, tokens: &mut Tokens<'_>) -> Result<Slice, ParseError>
        requires { Nests self.now.depth (F.pre self.now.nested) (F.post self.now.nested) }
        ensures { Met (reading self.now.depth rules.slice (cursor_of tokens.old)) result (cursor_of tokens.new) }
    {
        let first = self.expression(tokens)?;
        self.slice_rest(tokens, first)
    }

    /// Slices with commas between.
    #[tactic(auto, using(crate::proofs::Steps::slices_is))]
    pub fn slices(&self, tokens: &mut Tokens<'_>) -> Result<Items<Slice>, ParseError>
        requires { Nests self.now.depth (F.pre self.now.nested) (F.post self.now.nested) }
        ensures { Met (reading self.now.depth rules.slices (cursor_of tokens.old)) result (cursor_of tokens.new) }
    {
        let mut found = Items::new(self.alloc);
        found.push(self.slice(tokens)?)?;
        for _turn in 0..tokens.len() {
            if !tokens.starts(&[Kind::Comma]) {
                return Ok(found);
            }
            tokens.take(Kind::Comma)?;
            found.push(self.slice(tokens)?)?;
        }
        Ok(found)
    }

    /// Slices, and the `]`.
    #[tactic(auto, unfolding(asl_grammar::specs::grammar::Rules::slices_in))]
    pub fn slices_in(&self, tokens: &mut Tokens<'_>) -> Result<Suffix, ParseError>
        requires { Nests self.now.depth (F.pre self.now.nested) (F.post self.now.nested) }
        ensures { Met (reading self.now.depth rules.slices_in (cursor_of tokens.old)) result (cursor_of tokens.new) }
    {
        let found = self.slices(tokens)?;
        tokens.take(Kind::CloseBracket)?;
        Ok(Suffix::SlicesOf(found))
    }

    /// The index of an array: from its second `[` on.
    #[tactic(auto, unfolding(asl_grammar::specs::grammar::Rules::element))]
    pub fn element(&self, tokens: &mut Tokens<'_>) -> Result<Suffix, ParseError>
        requires { Nests self.now.depth (F.pre self.now.nested) (F.post self.now.nested) }
        ensures { Met (reading self.now.depth rules.element (cursor_of tokens.old)) result (cursor_of tokens.new) }
    {
        let left = tokens.left;
        tokens.open(Kind::OpenBracket)?;
        let index = self.expression(tokens)?;
        tokens.take(Kind::CloseBracket)?;
        tokens.left = left;
        tokens.take(Kind::CloseBracket)?;
        Ok(Suffix::ElementOf(index.into_inner()))
    }

    /// What stands behind `[`, and the `]`.
    #[tactic(auto, unfolding(asl_grammar::specs::grammar::Rules::bracketed_in, asl_grammar::specs::grammar::Rules::element))]
    pub fn bracketed_in(&self, tokens: &mut Tokens<'_>) -> Result<Suffix, ParseError>
        requires { Nests self.now.depth (F.pre self.now.nested) (F.post self.now.nested) }
        ensures { Met (reading self.now.depth rules.bracketed_in (cursor_of tokens.old)) result (cursor_of tokens.new) }
    {
        if tokens.starts(&[Kind::OpenBracket]) {
            self.element(tokens)
        } else {
            self.slices_in(tokens)
        }
    }

    /// Slices or an index in brackets: a level for the operator, and one for the bracket.
    pub fn bracket(&self, tokens: &mut Tokens<'_>) -> Result<Suffix, ParseError>
        requires { Nests self.now.depth (F.pre self.now.nested) (F.post self.now.nested) }
        ensures { Met (reading self.now.depth rules.bracket (cursor_of tokens.old)) result (cursor_of tokens.new) }
    {
        tokens.charge(&[Kind::OpenBracket], false)?;
        let left = tokens.left;
        tokens.open(Kind::OpenBracket)?;
        let found = match self.value(tokens, Symbol::Bracketed)? {
            Value::Suffix(found) => found,
            _ => unreachable!(),
        };
        tokens.left = left;
        Ok(found)
    }

    /// One suffix.
    #[tactic(auto, unfolding(asl_grammar::specs::grammar::Rules::suffix_part, asl_grammar::specs::grammar::Rules::dot))]
    pub fn suffix_part(&self, tokens: &mut Tokens<'_>) -> Result<Suffix, ParseError>
        requires { Nests self.now.depth (F.pre self.now.nested) (F.post self.now.nested) }
        ensures { Met (reading self.now.depth rules.suffix_part (cursor_of tokens.old)) result (cursor_of tokens.new) }
    {
        if tokens.starts(&[Kind::Dot]) {
            dot(self.alloc, tokens, self.depth)
        } else {
            self.bracket(tokens)
        }
    }

    /// One suffix, with the place where it ends.
    #[tactic(auto, unfolding(asl_grammar::specs::grammar::Rules::suffix))]
    pub fn suffix(&self, tokens: &mut Tokens<'_>) -> Result<PlacedSuffix, ParseError>
        requires { Nests self.now.depth (F.pre self.now.nested) (F.post self.now.nested) }
        ensures { Met (reading self.now.depth rules.suffix (cursor_of tokens.old)) result (cursor_of tokens.new) }
    {
        let suffix = self.suffix_part(tokens)?;
        Ok(PlacedSuffix {
            end: tokens.last,
            suffix,
        })
    }

    /// Suffixes, each opening a level.
    #[tactic(auto, using(crate::proofs::Steps::suffixes_is))]
    pub fn suffixes(&self, tokens: &mut Tokens<'_>) -> Result<Items<PlacedSuffix>, ParseError>
        requires { Nests self.now.depth (F.pre self.now.nested) (F.post self.now.nested) }
        ensures { Met (reading self.now.depth rules.suffixes (cursor_of tokens.old)) result (cursor_of tokens.new) }
    {
        let mut found = Items::new(self.alloc);
        for _turn in 0..tokens.len() {
            if !tokens.starts(&SUFFIX) {
                return Ok(found);
            }
            found.push(self.suffix(tokens)?)?;
        }
        Ok(found)
    }

    /// Suffixes, put on an expression.
    #[tactic(auto, using(crate::proofs::Tails::suffixed_is))]
    pub fn suffixed(
        &self,
        tokens: &mut Tokens<'_>,
        from: Span,
        mut left: Boxed<Expr>,
    ) -> Result<Boxed<Expr>, ParseError>
        requires { Nests self.now.depth (F.pre self.now.nested) (F.post self.now.nested) }
        ensures { Met (then (build.suffixed from left) (reading self.now.depth rules.suffixes (cursor_of tokens.old))) result (cursor_of tokens.new) }
    {
        for _turn in 0..tokens.len() {
            if !tokens.starts(&SUFFIX) {
                return Ok(left);
            }
            let placed = self.suffix(tokens)?;
            left = suffix_on(self.alloc, span_to(from, placed.end), left, placed.suffix)?;
        }
        Ok(left)
    }
}

/// Suffixes, each opening a level.
pub fn suffixes(
    alloc: Global,
    tokens: &mut Tokens<'_>,
    depth: usize,
) -> Result<Items<PlacedSuffix>, ParseError>
    ensures { Met (reading depth rules.suffixes (cursor_of tokens.old)) result (cursor_of tokens.new) }
{
    Grammar {
        alloc,
        depth,
        nested,
    }
    .suffixes(tokens)
}
