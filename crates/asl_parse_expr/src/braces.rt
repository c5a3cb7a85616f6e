//! Names with what stands behind them: the braces of a construction or of parameters, and arguments.

ghost use Rattle.std.specs.Prelude.{◌≡◌};
ghost use Rattle.asl_grammar.specs.grammar.Build as build;
ghost use Rattle.asl_grammar.specs.grammar.Rules as rules;
ghost use Rattle.asl_parse_expr.specs.private.Code.{cursor_of, Met, reading, then};
ghost use Rattle.asl_parse_expr.specs.private.Nests.{Nests};

use crate::firsts::{AFTER_NAME, LITERAL, NAME, OTHER_PREFIX_OPERATORS, UNARY};
use crate::grammar::{Grammar, Symbol, Value};
use crate::names::name;
use crate::operators::unary_node;
use crate::tokens::{Tokens, span_to};
use asl_grammar::error::ParseError;
use asl_grammar::kinds::Kind;
use asl_grammar::parts::{AfterName, Braces};
use asl_syn::token::Span;
use asl_syn::tree::{Expr, FieldValue, Ident, UnaryOperator};
use sqlite_items::{Boxed, Items};
use std::alloc::Global;

/// A name with what stands behind it.
fn after_of(name: Ident, span: Span, after: AfterName) -> Expr
    ensures { result ≡ build.after_of name span after }
{
    match after {
        AfterName::Built(fields) => Expr::Construct(span, name, fields),
        AfterName::Called(given, arguments) => Expr::Call(span, name, given, arguments),
    }
}

/// The `}` of empty braces.
#[tactic(auto, unfolding(asl_grammar::specs::grammar::Rules::empty_braces))]
fn empty_braces(tokens: &mut Tokens<'_>, depth: usize) -> Result<Braces, ParseError>
    ensures { Met (reading depth rules.empty_braces (cursor_of tokens.old)) result (cursor_of tokens.new) }
{
    tokens.take(Kind::CloseBrace)?;
    Ok(Braces::Empty)
}

impl<F: Fn(Global, &mut Tokens<'_>, usize, Symbol) -> Result<Value, ParseError>> Grammar<F> {
    /// Braces behind a name.
    #[tactic(auto, unfolding(asl_grammar::specs::grammar::Rules::braces))]
    pub fn braces(&self, tokens: &mut Tokens<'_>) -> Result<Braces, ParseError>
        requires { Nests self.now.depth (F.pre self.now.nested) (F.post self.now.nested) }
        ensures { Met (reading self.now.depth rules.braces (cursor_of tokens.old)) result (cursor_of tokens.new) }
    {
        let left = tokens.left;
        tokens.open(Kind::OpenBrace)?;
        let found = match self.value(tokens, Symbol::Braced)? {
            Value::Braces(found) => found,
            _ => unreachable!(),
        };
        tokens.left = left;
        Ok(found)
    }

    /// Braces behind a name, and the arguments behind these: parameters must have them, empty braces may.
    #[tactic(auto, unfolding(asl_grammar::specs::grammar::Rules::after_braces, asl_grammar::specs::grammar::Rules::braces_called, asl_grammar::specs::grammar::Rules::arguments))]
    pub fn after_braces(&self, tokens: &mut Tokens<'_>) -> Result<AfterName, ParseError>
        requires { Nests self.now.depth (F.pre self.now.nested) (F.post self.now.nested) }
        ensures { Met (reading self.now.depth rules.after_braces (cursor_of tokens.old)) result (cursor_of tokens.new) }
    {
        match self.braces(tokens)? {
            Braces::Empty => {
                if tokens.starts(&[Kind::OpenParen]) {
                    Ok(AfterName::Called(Items::new(self.alloc), self.arguments(tokens)?))
                } else {
                    Ok(AfterName::Built(Items::new(self.alloc)))
                }
            }
            Braces::Fields(fields) => Ok(AfterName::Built(fields)),
            Braces::Parameters(given) => Ok(AfterName::Called(given, self.arguments(tokens)?)),
        }
    }

    /// Arguments, or the braces of a construction or of parameters.
    #[tactic(auto, unfolding(asl_grammar::specs::grammar::Rules::after_name, asl_grammar::specs::grammar::Rules::arguments))]
    pub fn after_name(&self, tokens: &mut Tokens<'_>) -> Result<AfterName, ParseError>
        requires { Nests self.now.depth (F.pre self.now.nested) (F.post self.now.nested) }
        ensures { Met (reading self.now.depth rules.after_name (cursor_of tokens.old)) result (cursor_of tokens.new) }
    {
        if tokens.starts(&[Kind::OpenParen]) {
            Ok(AfterName::Called(Items::new(self.alloc), self.arguments(tokens)?))
        } else {
            self.after_braces(tokens)
        }
    }

    /// What stands behind a name that was read, if anything does.
    pub fn maybe_after_name(&self, tokens: &mut Tokens<'_>, name: Ident) -> Result<Expr, ParseError>
        requires { Nests self.now.depth (F.pre self.now.nested) (F.post self.now.nested) }
        ensures { Met (then (build.named_of name) (reading self.now.depth rules.maybe_after_name (cursor_of tokens.old))) result (cursor_of tokens.new) }
    {
        if !tokens.starts(&AFTER_NAME) {
            return Ok(Expr::Name(name.span, name.text));
        }
        let after = self.after_name(tokens)?;
        let span = span_to(name.span, tokens.last);
        Ok(after_of(name, span, after))
    }

    /// A name alone, a call or a construction.
    #[tactic(auto, unfolding(asl_grammar::specs::grammar::Rules::named, crate::specs::private::Code::then))]
    pub fn named(&self, tokens: &mut Tokens<'_>) -> Result<Expr, ParseError>
        requires { Nests self.now.depth (F.pre self.now.nested) (F.post self.now.nested) }
        ensures { Met (reading self.now.depth rules.named (cursor_of tokens.old)) result (cursor_of tokens.new) }
    {
        let name = name(self.alloc, tokens, self.depth)?;
        self.maybe_after_name(tokens, name)
    }

    /// An expression whose first operator, a prefix one, was read: its level is opened here.
    pub fn late_expression(
        &self,
        tokens: &mut Tokens<'_>,
        from: Span,
        operator: UnaryOperator,
    ) -> Result<Boxed<Expr>, ParseError>
        requires { Nests self.now.depth (F.pre self.now.nested) (F.post self.now.nested) }
        ensures { Met (then (build.late_of from operator) (reading self.now.depth rules.late_expression (cursor_of tokens.old))) result (cursor_of tokens.new) }
    {
        let left = tokens.left;
        tokens.charge(&UNARY, true)?;
        let operand = self.unary(tokens)?;
        let whole = unary_node(self.alloc, tokens.since(from), operator, operand)?;
        let whole = self.rest(tokens, from, whole)?;
        tokens.left = left;
        Ok(whole)
    }

    /// An expression whose first name was read.
    pub fn expression_after_name(
        &self,
        tokens: &mut Tokens<'_>,
        name: Ident,
    ) -> Result<Boxed<Expr>, ParseError>
        requires { Nests self.now.depth (F.pre self.now.nested) (F.post self.now.nested) }
        ensures { Met (then (build.after_name_of name) (reading self.now.depth rules.expression_after_name (cursor_of tokens.old))) result (cursor_of tokens.new) }
    {
        let left = tokens.left;
        let from = name.span;
        let whole = Boxed::new(self.alloc, self.maybe_after_name(tokens, name)?)?;
        let whole = self.post_rest(tokens, from, whole)?;
        let whole = self.rest(tokens, from, whole)?;
        tokens.left = left;
        Ok(whole)
    }

    /// An operand that begins with neither a name nor `-`.
    pub fn other_unary(&self, tokens: &mut Tokens<'_>) -> Result<Boxed<Expr>, ParseError>
        requires { Nests self.now.depth (F.pre self.now.nested) (F.post self.now.nested) }
        ensures { Met (reading self.now.depth rules.other_unary (cursor_of tokens.old)) result (cursor_of tokens.new) }
    {
        if tokens.starts(&OTHER_PREFIX_OPERATORS) {
            self.prefixed_by(tokens, &OTHER_PREFIX_OPERATORS)
        } else if tokens.starts(&LITERAL) {
            self.post_literal(tokens)
        } else {
            self.post_parenthesized(tokens)
        }
    }

    /// An expression that begins with neither a name, `-` nor `if`, inside a greater one.
    #[tactic(auto, unfolding(asl_grammar::specs::grammar::Rules::other_chain, crate::specs::private::Code::then))]
    pub fn other_chain(&self, tokens: &mut Tokens<'_>) -> Result<Boxed<Expr>, ParseError>
        requires { Nests self.now.depth (F.pre self.now.nested) (F.post self.now.nested) }
        ensures { Met (reading self.now.depth rules.other_chain (cursor_of tokens.old)) result (cursor_of tokens.new) }
    {
        let from = tokens.ahead();
        let left = self.other_unary(tokens)?;
        self.rest(tokens, from, left)
    }

    /// An expression that begins with neither a name nor `-`, inside a greater one.
    #[tactic(auto, unfolding(asl_grammar::specs::grammar::Rules::other_open_expression, asl_grammar::specs::grammar::Rules::conditional))]
    pub fn other_open_expression(&self, tokens: &mut Tokens<'_>) -> Result<Boxed<Expr>, ParseError>
        requires { Nests self.now.depth (F.pre self.now.nested) (F.post self.now.nested) }
        ensures { Met (reading self.now.depth rules.other_open_expression (cursor_of tokens.old)) result (cursor_of tokens.new) }
    {
        if tokens.starts(&[Kind::If]) {
            self.conditional(tokens)
        } else {
            self.other_chain(tokens)
        }
    }

    /// An outermost expression that begins with neither a name nor `-`.
    #[tactic(auto, unfolding(asl_grammar::specs::grammar::Rules::other_expression))]
    pub fn other_expression(&self, tokens: &mut Tokens<'_>) -> Result<Boxed<Expr>, ParseError>
        requires { Nests self.now.depth (F.pre self.now.nested) (F.post self.now.nested) }
        ensures { Met (reading self.now.depth rules.other_expression (cursor_of tokens.old)) result (cursor_of tokens.new) }
    {
        let left = tokens.left;
        let whole = self.other_open_expression(tokens)?;
        tokens.left = left;
        Ok(whole)
    }

    /// A field of a construction with its value.
    #[tactic(auto, unfolding(asl_grammar::specs::grammar::Rules::field_value))]
    pub fn field_value(&self, tokens: &mut Tokens<'_>) -> Result<FieldValue, ParseError>
        requires { Nests self.now.depth (F.pre self.now.nested) (F.post self.now.nested) }
        ensures { Met (reading self.now.depth rules.field_value (cursor_of tokens.old)) result (cursor_of tokens.new) }
    {
        let name = name(self.alloc, tokens, self.depth)?;
        tokens.take(Kind::Assign)?;
        let value = self.expression(tokens)?;
        Ok(FieldValue::Given(name, value.into_inner()))
    }

    /// More fields, each behind a comma.
    #[tactic(auto, using(crate::proofs::Steps::more_field_values_is))]
    pub fn more_field_values(
        &self,
        tokens: &mut Tokens<'_>,
        mut found: Items<FieldValue>,
    ) -> Result<Items<FieldValue>, ParseError>
        requires { Nests self.now.depth (F.pre self.now.nested) (F.post self.now.nested) }
        ensures { Met (then (build.behind found) (reading self.now.depth rules.more_field_values (cursor_of tokens.old))) result (cursor_of tokens.new) }
    {
        for _turn in 0..tokens.len() {
            if !tokens.starts(&[Kind::Comma]) {
                return Ok(found);
            }
            tokens.take(Kind::Comma)?;
            found.push(self.field_value(tokens)?)?;
        }
        Ok(found)
    }

    /// The fields of a construction from `=` on: the name of the first was read.
    pub fn field_values_after_name(
        &self,
        tokens: &mut Tokens<'_>,
        name: Ident,
    ) -> Result<Items<FieldValue>, ParseError>
        requires { Nests self.now.depth (F.pre self.now.nested) (F.post self.now.nested) }
        ensures { Met (then (build.fields_from_name name) (reading self.now.depth rules.field_values_after_name (cursor_of tokens.old))) result (cursor_of tokens.new) }
    {
        tokens.take(Kind::Assign)?;
        let value = self.expression(tokens)?;
        let mut found = Items::new(self.alloc);
        found.push(FieldValue::Given(name, value.into_inner()))?;
        let found = self.more_field_values(tokens, found)?;
        tokens.take(Kind::CloseBrace)?;
        Ok(found)
    }

    /// More parameters, each behind a comma, and the `}`.
    pub fn more_parameters(
        &self,
        tokens: &mut Tokens<'_>,
        found: Items<Expr>,
    ) -> Result<Items<Expr>, ParseError>
        requires { Nests self.now.depth (F.pre self.now.nested) (F.post self.now.nested) }
        ensures { Met (then (build.behind found) (reading self.now.depth rules.more_parameters (cursor_of tokens.old))) result (cursor_of tokens.new) }
    {
        let found = self.more_expressions(tokens, found)?;
        tokens.take(Kind::CloseBrace)?;
        Ok(found)
    }

    /// Parameters of which the first begins with a `-` that was read.
    #[tactic(auto, unfolding(asl_grammar::specs::grammar::Rules::parameters_after_minus, crate::specs::private::Code::then, asl_grammar::specs::grammar::Build::behind))]
    pub fn parameters_after_minus(
        &self,
        tokens: &mut Tokens<'_>,
        minus: Span,
    ) -> Result<Items<Expr>, ParseError>
        requires { Nests self.now.depth (F.pre self.now.nested) (F.post self.now.nested) }
        ensures { Met (then (build.parameters_from_minus minus) (reading self.now.depth rules.parameters_after_minus (cursor_of tokens.old))) result (cursor_of tokens.new) }
    {
        let first = self.late_expression(tokens, minus, UnaryOperator::Negate)?;
        let mut found = Items::new(self.alloc);
        found.push(first.into_inner())?;
        self.more_parameters(tokens, found)
    }

    /// Parameters of which the first begins with a name that was read.
    #[tactic(auto, unfolding(asl_grammar::specs::grammar::Rules::parameters_after_name, crate::specs::private::Code::then, asl_grammar::specs::grammar::Build::behind))]
    pub fn parameters_after_name(
        &self,
        tokens: &mut Tokens<'_>,
        name: Ident,
    ) -> Result<Items<Expr>, ParseError>
        requires { Nests self.now.depth (F.pre self.now.nested) (F.post self.now.nested) }
        ensures { Met (then (build.parameters_from_name name) (reading self.now.depth rules.parameters_after_name (cursor_of tokens.old))) result (cursor_of tokens.new) }
    {
        let first = self.expression_after_name(tokens, name)?;
        let mut found = Items::new(self.alloc);
        found.push(first.into_inner())?;
        self.more_parameters(tokens, found)
    }

    /// What stands in braces behind their first `-`: nothing more, or the rest of parameters.
    #[tactic(auto, using(crate::proofs::Tails::after_minus_is))]
    pub fn after_minus(&self, tokens: &mut Tokens<'_>, minus: Span) -> Result<Braces, ParseError>
        requires { Nests self.now.depth (F.pre self.now.nested) (F.post self.now.nested) }
        ensures { Met (then (build.minus_in_braces_of minus) (reading self.now.depth rules.after_minus (cursor_of tokens.old))) result (cursor_of tokens.new) }
    {
        if tokens.starts(&[Kind::CloseBrace]) {
            tokens.take(Kind::CloseBrace)?;
            return Ok(Braces::Fields(Items::new(self.alloc)));
        }
        Ok(Braces::Parameters(self.parameters_after_minus(tokens, minus)?))
    }

    /// What stands in braces behind their first name: the rest of fields, or of parameters.
    #[tactic(auto, using(crate::proofs::Tails::after_first_name_is))]
    pub fn after_first_name(
        &self,
        tokens: &mut Tokens<'_>,
        name: Ident,
    ) -> Result<Braces, ParseError>
        requires { Nests self.now.depth (F.pre self.now.nested) (F.post self.now.nested) }
        ensures { Met (then (build.name_in_braces_of name) (reading self.now.depth rules.after_first_name (cursor_of tokens.old))) result (cursor_of tokens.new) }
    {
        if tokens.starts(&[Kind::Assign]) {
            return Ok(Braces::Fields(self.field_values_after_name(tokens, name)?));
        }
        Ok(Braces::Parameters(self.parameters_after_name(tokens, name)?))
    }

    /// Braces that begin with `-`.
    #[tactic(auto, unfolding(asl_grammar::specs::grammar::Rules::minus_in_braces, crate::specs::private::Code::then))]
    pub fn minus_in_braces(&self, tokens: &mut Tokens<'_>) -> Result<Braces, ParseError>
        requires { Nests self.now.depth (F.pre self.now.nested) (F.post self.now.nested) }
        ensures { Met (reading self.now.depth rules.minus_in_braces (cursor_of tokens.old)) result (cursor_of tokens.new) }
    {
        let minus = tokens.take_any(&[Kind::Minus])?;
        self.after_minus(tokens, minus.span)
    }

    /// Braces that begin with a name.
    #[tactic(auto, unfolding(asl_grammar::specs::grammar::Rules::name_in_braces, crate::specs::private::Code::then))]
    pub fn name_in_braces(&self, tokens: &mut Tokens<'_>) -> Result<Braces, ParseError>
        requires { Nests self.now.depth (F.pre self.now.nested) (F.post self.now.nested) }
        ensures { Met (reading self.now.depth rules.name_in_braces (cursor_of tokens.old)) result (cursor_of tokens.new) }
    {
        let name = name(self.alloc, tokens, self.depth)?;
        self.after_first_name(tokens, name)
    }

    /// Parameters of which the first begins with neither a name nor `-`.
    pub fn other_in_braces(&self, tokens: &mut Tokens<'_>) -> Result<Braces, ParseError>
        requires { Nests self.now.depth (F.pre self.now.nested) (F.post self.now.nested) }
        ensures { Met (reading self.now.depth rules.other_in_braces (cursor_of tokens.old)) result (cursor_of tokens.new) }
    {
        let first = self.other_expression(tokens)?;
        let mut found = Items::new(self.alloc);
        found.push(first.into_inner())?;
        Ok(Braces::Parameters(self.more_parameters(tokens, found)?))
    }

    /// What stands in braces behind a name, and the `}`.
    pub fn braced_in(&self, tokens: &mut Tokens<'_>) -> Result<Braces, ParseError>
        requires { Nests self.now.depth (F.pre self.now.nested) (F.post self.now.nested) }
        ensures { Met (reading self.now.depth rules.braced_in (cursor_of tokens.old)) result (cursor_of tokens.new) }
    {
        if tokens.starts(&[Kind::CloseBrace]) {
            empty_braces(tokens, self.depth)
        } else if tokens.starts(&[Kind::Minus]) {
            self.minus_in_braces(tokens)
        } else if tokens.starts(&NAME) {
            self.name_in_braces(tokens)
        } else {
            self.other_in_braces(tokens)
        }
    }
}
