//! Expressions.

ghost use Rattle.std.specs.Prelude.{◌≡◌, ◌∷◌, [], true};
ghost use Rattle.asl_grammar.specs.grammar.Build as build;
ghost use Rattle.asl_grammar.specs.grammar.Operators.{binary_kinds, unary_kinds};
ghost use Rattle.asl_grammar.specs.grammar.Reader.{covers};
ghost use Rattle.asl_grammar.specs.grammar.Rules as rules;
ghost use Rattle.asl_parse_expr.specs.private.Code.{cursor_of, Met, reading, then};
ghost use Rattle.asl_parse_expr.specs.private.Nests.{Nests};

use crate::firsts::{
    COMPARISON_OPERATORS, EQUALITY_OPERATORS, EXPRESSION, LITERAL, LOGIC_OPERATORS,
    PREFIX_OPERATORS, PRODUCT_OPERATORS, SUM_OPERATORS,
};
use crate::grammar::{Grammar, Symbol, Value, nested};
use crate::literals::literal;
use crate::operators::{as_node, binary_node, in_node, unary_node};
use crate::tokens::Tokens;
use asl_grammar::error::ParseError;
use asl_grammar::kinds::Kind;
use asl_syn::token::Span;
use asl_syn::tree::Expr;
use sqlite_items::{Boxed, Items};
use std::alloc::Global;

/// The expression that parentheses hold: a tuple, unless they hold one alone.
fn parens_of(span: Span, mut parts: Items<Expr>) -> Expr
    ensures { result ≡ build.parens_of span parts }
{
    if parts.len() == 1 {
        return parts.remove(0);
    }
    Expr::Tuple(span, parts)
}

impl<F: Fn(Global, &mut Tokens<'_>, usize, Symbol) -> Result<Value, ParseError>> Grammar<F> {
    /// Expressions with commas between, and the `)`.
    #[tactic(auto, unfolding(asl_grammar::specs::grammar::Rules::parenthesized_in))]
    pub fn parenthesized_in(&self, tokens: &mut Tokens<'_>) -> Result<Items<Expr>, ParseError>
        requires { Nests self.now.depth (F.pre self.now.nested) (F.post self.now.nested) }
        ensures { Met (reading self.now.depth rules.parenthesized_in (cursor_of tokens.old)) result (cursor_of tokens.new) }
    {
        let found = self.expressions(tokens)?;
        tokens.take(Kind::CloseParen)?;
        Ok(found)
    }

    /// An expression in parentheses, or a tuple.
    #[tactic(auto, unfolding(asl_grammar::specs::grammar::Rules::parenthesized))]
    pub fn parenthesized(&self, tokens: &mut Tokens<'_>) -> Result<Expr, ParseError>
        requires { Nests self.now.depth (F.pre self.now.nested) (F.post self.now.nested) }
        ensures { Met (reading self.now.depth rules.parenthesized (cursor_of tokens.old)) result (cursor_of tokens.new) }
    {
        let from = tokens.ahead();
        let left = tokens.left;
        tokens.open(Kind::OpenParen)?;
        let parts = match self.value(tokens, Symbol::Parenthesized)? {
            Value::Expressions(found) => found,
            _ => unreachable!(),
        };
        tokens.left = left;
        Ok(parens_of(tokens.since(from), parts))
    }

    /// Arguments, and the `)`.
    #[tactic(auto, unfolding(asl_grammar::specs::grammar::Rules::arguments_in))]
    pub fn arguments_in(&self, tokens: &mut Tokens<'_>) -> Result<Items<Expr>, ParseError>
        requires { Nests self.now.depth (F.pre self.now.nested) (F.post self.now.nested) }
        ensures { Met (reading self.now.depth rules.arguments_in (cursor_of tokens.old)) result (cursor_of tokens.new) }
    {
        let found = self.maybe_expressions(tokens)?;
        tokens.take(Kind::CloseParen)?;
        Ok(found)
    }

    /// Arguments in parentheses.
    #[tactic(auto, unfolding(asl_grammar::specs::grammar::Rules::arguments))]
    pub fn arguments(&self, tokens: &mut Tokens<'_>) -> Result<Items<Expr>, ParseError>
        requires { Nests self.now.depth (F.pre self.now.nested) (F.post self.now.nested) }
        ensures { Met (reading self.now.depth rules.arguments (cursor_of tokens.old)) result (cursor_of tokens.new) }
    {
        let left = tokens.left;
        tokens.open(Kind::OpenParen)?;
        let found = match self.value(tokens, Symbol::Arguments)? {
            Value::Expressions(found) => found,
            _ => unreachable!(),
        };
        tokens.left = left;
        Ok(found)
    }

    /// `IN` with its pattern, if it is there.
    #[tactic(auto, unfolding(asl_grammar::specs::grammar::Rules::in_clause, crate::specs::private::Code::then))]
    pub fn in_clause(
        &self,
        tokens: &mut Tokens<'_>,
        from: Span,
        left: Boxed<Expr>,
    ) -> Result<Boxed<Expr>, ParseError>
        requires { Nests self.now.depth (F.pre self.now.nested) (F.post self.now.nested) }
        ensures { Met (then (build.in_on from left) (reading self.now.depth rules.in_clause (cursor_of tokens.old))) result (cursor_of tokens.new) }
    {
        if !tokens.starts(&[Kind::In]) {
            return Ok(left);
        }
        tokens.open(Kind::In)?;
        let pattern = self.in_pattern(tokens)?;
        Ok(in_node(self.alloc, tokens.since(from), left, pattern)?)
    }

    /// Suffixes, and `IN` with its pattern.
    #[tactic(auto, unfolding(asl_grammar::specs::grammar::Rules::post_rest, crate::specs::private::Code::then))]
    pub fn post_rest(
        &self,
        tokens: &mut Tokens<'_>,
        from: Span,
        left: Boxed<Expr>,
    ) -> Result<Boxed<Expr>, ParseError>
        requires { Nests self.now.depth (F.pre self.now.nested) (F.post self.now.nested) }
        ensures { Met (then (build.posted from left) (reading self.now.depth rules.post_rest (cursor_of tokens.old))) result (cursor_of tokens.new) }
    {
        let whole = self.suffixed(tokens, from, left)?;
        self.in_clause(tokens, from, whole)
    }

    /// A literal with what may follow it.
    #[tactic(auto, unfolding(asl_grammar::specs::grammar::Rules::post_literal, crate::specs::private::Code::then))]
    pub fn post_literal(&self, tokens: &mut Tokens<'_>) -> Result<Boxed<Expr>, ParseError>
        requires { Nests self.now.depth (F.pre self.now.nested) (F.post self.now.nested) }
        ensures { Met (reading self.now.depth rules.post_literal (cursor_of tokens.old)) result (cursor_of tokens.new) }
    {
        let from = tokens.ahead();
        let left = Boxed::new(self.alloc, literal(self.alloc, tokens, self.depth)?)?;
        self.post_rest(tokens, from, left)
    }

    /// An expression in parentheses, or a tuple, with what may follow it.
    #[tactic(auto, unfolding(asl_grammar::specs::grammar::Rules::post_parenthesized, crate::specs::private::Code::then))]
    pub fn post_parenthesized(&self, tokens: &mut Tokens<'_>) -> Result<Boxed<Expr>, ParseError>
        requires { Nests self.now.depth (F.pre self.now.nested) (F.post self.now.nested) }
        ensures { Met (reading self.now.depth rules.post_parenthesized (cursor_of tokens.old)) result (cursor_of tokens.new) }
    {
        let from = tokens.ahead();
        let left = Boxed::new(self.alloc, self.parenthesized(tokens)?)?;
        self.post_rest(tokens, from, left)
    }

    /// A name, a call or a construction, with what may follow it.
    #[tactic(auto, unfolding(asl_grammar::specs::grammar::Rules::post_named, crate::specs::private::Code::then))]
    pub fn post_named(&self, tokens: &mut Tokens<'_>) -> Result<Boxed<Expr>, ParseError>
        requires { Nests self.now.depth (F.pre self.now.nested) (F.post self.now.nested) }
        ensures { Met (reading self.now.depth rules.post_named (cursor_of tokens.old)) result (cursor_of tokens.new) }
    {
        let from = tokens.ahead();
        let left = Boxed::new(self.alloc, self.named(tokens)?)?;
        self.post_rest(tokens, from, left)
    }

    /// One of some prefix operators with its operand.
    pub fn prefixed_by(
        &self,
        tokens: &mut Tokens<'_>,
        operators: &[Kind],
    ) -> Result<Boxed<Expr>, ParseError>
        requires nests { Nests self.now.depth (F.pre self.now.nested) (F.post self.now.nested) }
        requires operators { covers unary_kinds operators.now ≡ true }
        ensures { Met (reading self.now.depth (rules.prefixed_by operators.now) (cursor_of tokens.old)) result (cursor_of tokens.new) }
    {
        let from = tokens.ahead();
        let operator = tokens.prefix(operators)?;
        let operand = match self.value(tokens, Symbol::Operand)? {
            Value::Expr(found) => found,
            _ => unreachable!(),
        };
        Ok(unary_node(self.alloc, tokens.since(from), operator, operand)?)
    }

    /// An operand of `^`.
    pub fn unary(&self, tokens: &mut Tokens<'_>) -> Result<Boxed<Expr>, ParseError>
        requires { Nests self.now.depth (F.pre self.now.nested) (F.post self.now.nested) }
        ensures { Met (reading self.now.depth rules.unary (cursor_of tokens.old)) result (cursor_of tokens.new) }
    {
        if tokens.starts(&PREFIX_OPERATORS) {
            self.prefixed_by(tokens, &PREFIX_OPERATORS)
        } else if tokens.starts(&LITERAL) {
            self.post_literal(tokens)
        } else if tokens.starts(&[Kind::OpenParen]) {
            self.post_parenthesized(tokens)
        } else {
            self.post_named(tokens)
        }
    }

    /// How a chain of `^` goes on behind its first operand.
    #[tactic(auto, using(crate::proofs::Steps::power_rest_is))]
    pub fn power_rest(
        &self,
        tokens: &mut Tokens<'_>,
        from: Span,
        mut left: Boxed<Expr>,
    ) -> Result<Boxed<Expr>, ParseError>
        requires { Nests self.now.depth (F.pre self.now.nested) (F.post self.now.nested) }
        ensures { Met (then (build.chained from left) (reading self.now.depth rules.power_rest (cursor_of tokens.old))) result (cursor_of tokens.new) }
    {
        for _turn in 0..tokens.len() {
            if !tokens.starts(&[Kind::Caret]) {
                return Ok(left);
            }
            let operator = tokens.operator(&[Kind::Caret])?;
            let right = self.unary(tokens)?;
            left = binary_node(self.alloc, tokens.since(from), operator, left, right)?;
        }
        Ok(left)
    }

    /// A chain of `^`.
    #[tactic(auto, unfolding(asl_grammar::specs::grammar::Rules::power, crate::specs::private::Code::then))]
    pub fn power(&self, tokens: &mut Tokens<'_>) -> Result<Boxed<Expr>, ParseError>
        requires { Nests self.now.depth (F.pre self.now.nested) (F.post self.now.nested) }
        ensures { Met (reading self.now.depth rules.power (cursor_of tokens.old)) result (cursor_of tokens.new) }
    {
        let from = tokens.ahead();
        let left = self.unary(tokens)?;
        self.power_rest(tokens, from, left)
    }

    /// How a chain of `*`, `DIV`, `DIVRM`, `MOD`, `<<`, `>>` goes on behind its first operand.
    #[tactic(auto, using(crate::proofs::Steps::product_rest_is))]
    pub fn product_rest(
        &self,
        tokens: &mut Tokens<'_>,
        from: Span,
        mut left: Boxed<Expr>,
    ) -> Result<Boxed<Expr>, ParseError>
        requires { Nests self.now.depth (F.pre self.now.nested) (F.post self.now.nested) }
        ensures { Met (then (build.chained from left) (reading self.now.depth rules.product_rest (cursor_of tokens.old))) result (cursor_of tokens.new) }
    {
        for _turn in 0..tokens.len() {
            if !tokens.starts(&PRODUCT_OPERATORS) {
                return Ok(left);
            }
            let operator = tokens.operator(&PRODUCT_OPERATORS)?;
            let right = self.power(tokens)?;
            left = binary_node(self.alloc, tokens.since(from), operator, left, right)?;
        }
        Ok(left)
    }

    /// A chain of `*`, `DIV`, `DIVRM`, `MOD`, `<<`, `>>`.
    #[tactic(auto, unfolding(asl_grammar::specs::grammar::Rules::product, crate::specs::private::Code::then))]
    pub fn product(&self, tokens: &mut Tokens<'_>) -> Result<Boxed<Expr>, ParseError>
        requires { Nests self.now.depth (F.pre self.now.nested) (F.post self.now.nested) }
        ensures { Met (reading self.now.depth rules.product (cursor_of tokens.old)) result (cursor_of tokens.new) }
    {
        let from = tokens.ahead();
        let left = self.power(tokens)?;
        self.product_rest(tokens, from, left)
    }

    /// How a chain of `+`, `-`, `AND`, `OR`, `XOR`, `::` goes on behind its first operand.
    #[tactic(auto, using(crate::proofs::Steps::sum_rest_is))]
    pub fn sum_rest(
        &self,
        tokens: &mut Tokens<'_>,
        from: Span,
        mut left: Boxed<Expr>,
    ) -> Result<Boxed<Expr>, ParseError>
        requires { Nests self.now.depth (F.pre self.now.nested) (F.post self.now.nested) }
        ensures { Met (then (build.chained from left) (reading self.now.depth rules.sum_rest (cursor_of tokens.old))) result (cursor_of tokens.new) }
    {
        for _turn in 0..tokens.len() {
            if !tokens.starts(&SUM_OPERATORS) {
                return Ok(left);
            }
            let operator = tokens.operator(&SUM_OPERATORS)?;
            let right = self.product(tokens)?;
            left = binary_node(self.alloc, tokens.since(from), operator, left, right)?;
        }
        Ok(left)
    }

    /// A sum.
    #[tactic(auto, unfolding(asl_grammar::specs::grammar::Rules::sum, crate::specs::private::Code::then))]
    pub fn sum(&self, tokens: &mut Tokens<'_>) -> Result<Boxed<Expr>, ParseError>
        requires { Nests self.now.depth (F.pre self.now.nested) (F.post self.now.nested) }
        ensures { Met (reading self.now.depth rules.sum (cursor_of tokens.old)) result (cursor_of tokens.new) }
    {
        let from = tokens.ahead();
        let left = self.product(tokens)?;
        self.sum_rest(tokens, from, left)
    }

    /// A comparison with another sum, if there is one.
    pub fn comparison_rest(
        &self,
        tokens: &mut Tokens<'_>,
        from: Span,
        left: Boxed<Expr>,
    ) -> Result<Boxed<Expr>, ParseError>
        requires { Nests self.now.depth (F.pre self.now.nested) (F.post self.now.nested) }
        ensures { Met (then (build.compared from left) (reading self.now.depth rules.comparison_rest (cursor_of tokens.old))) result (cursor_of tokens.new) }
    {
        if !tokens.starts(&COMPARISON_OPERATORS) {
            return Ok(left);
        }
        let operator = tokens.operator(&COMPARISON_OPERATORS)?;
        let right = self.sum(tokens)?;
        Ok(binary_node(self.alloc, tokens.since(from), operator, left, right)?)
    }

    /// A sum, or the comparison of two.
    #[tactic(auto, unfolding(asl_grammar::specs::grammar::Rules::comparison, crate::specs::private::Code::then))]
    pub fn comparison(&self, tokens: &mut Tokens<'_>) -> Result<Boxed<Expr>, ParseError>
        requires { Nests self.now.depth (F.pre self.now.nested) (F.post self.now.nested) }
        ensures { Met (reading self.now.depth rules.comparison (cursor_of tokens.old)) result (cursor_of tokens.new) }
    {
        let from = tokens.ahead();
        let left = self.sum(tokens)?;
        self.comparison_rest(tokens, from, left)
    }

    /// How a chain of `==`, `!=` goes on behind its first operand.
    #[tactic(auto, using(crate::proofs::Steps::equality_rest_is))]
    pub fn equality_rest(
        &self,
        tokens: &mut Tokens<'_>,
        from: Span,
        mut left: Boxed<Expr>,
    ) -> Result<Boxed<Expr>, ParseError>
        requires { Nests self.now.depth (F.pre self.now.nested) (F.post self.now.nested) }
        ensures { Met (then (build.chained from left) (reading self.now.depth rules.equality_rest (cursor_of tokens.old))) result (cursor_of tokens.new) }
    {
        for _turn in 0..tokens.len() {
            if !tokens.starts(&EQUALITY_OPERATORS) {
                return Ok(left);
            }
            let operator = tokens.operator(&EQUALITY_OPERATORS)?;
            let right = self.comparison(tokens)?;
            left = binary_node(self.alloc, tokens.since(from), operator, left, right)?;
        }
        Ok(left)
    }

    /// A chain of `==`, `!=`.
    #[tactic(auto, unfolding(asl_grammar::specs::grammar::Rules::equality, crate::specs::private::Code::then))]
    pub fn equality(&self, tokens: &mut Tokens<'_>) -> Result<Boxed<Expr>, ParseError>
        requires { Nests self.now.depth (F.pre self.now.nested) (F.post self.now.nested) }
        ensures { Met (reading self.now.depth rules.equality (cursor_of tokens.old)) result (cursor_of tokens.new) }
    {
        let from = tokens.ahead();
        let left = self.comparison(tokens)?;
        self.equality_rest(tokens, from, left)
    }

    /// How a chain of one logical operator goes on.
    #[tactic(auto, using(crate::proofs::Steps::links_by_is))]
    pub fn links_by(
        &self,
        tokens: &mut Tokens<'_>,
        from: Span,
        mut left: Boxed<Expr>,
        kind: Kind,
    ) -> Result<Boxed<Expr>, ParseError>
        requires nests { Nests self.now.depth (F.pre self.now.nested) (F.post self.now.nested) }
        requires operator { covers binary_kinds (kind ∷ []) ≡ true }
        ensures { Met (then (build.chained from left) (reading self.now.depth (rules.links_by kind) (cursor_of tokens.old))) result (cursor_of tokens.new) }
    {
        for _turn in 0..tokens.len() {
            if !tokens.starts(&[kind]) {
                return Ok(left);
            }
            let operator = tokens.operator(&[kind])?;
            let right = self.equality(tokens)?;
            left = binary_node(self.alloc, tokens.since(from), operator, left, right)?;
        }
        Ok(left)
    }

    /// One logical operator with its operand, and how its chain goes on.
    #[tactic(auto, using(crate::proofs::Tails::some_links_by_is))]
    pub fn some_links_by(
        &self,
        tokens: &mut Tokens<'_>,
        from: Span,
        left: Boxed<Expr>,
        kind: Kind,
    ) -> Result<Boxed<Expr>, ParseError>
        requires nests { Nests self.now.depth (F.pre self.now.nested) (F.post self.now.nested) }
        requires operator { covers binary_kinds (kind ∷ []) ≡ true }
        ensures { Met (then (build.chained from left) (reading self.now.depth (rules.some_links_by kind) (cursor_of tokens.old))) result (cursor_of tokens.new) }
    {
        let operator = tokens.operator(&[kind])?;
        let right = self.equality(tokens)?;
        let whole = binary_node(self.alloc, tokens.since(from), operator, left, right)?;
        self.links_by(tokens, from, whole, kind)
    }

    /// A chain of one of the logical operators.
    #[tactic(auto, using(crate::proofs::Tails::logic_links_is))]
    pub fn logic_links(
        &self,
        tokens: &mut Tokens<'_>,
        from: Span,
        left: Boxed<Expr>,
    ) -> Result<Boxed<Expr>, ParseError>
        requires { Nests self.now.depth (F.pre self.now.nested) (F.post self.now.nested) }
        ensures { Met (then (build.chained from left) (reading self.now.depth rules.logic_links (cursor_of tokens.old))) result (cursor_of tokens.new) }
    {
        if tokens.starts(&[Kind::AndAnd]) {
            self.some_links_by(tokens, from, left, Kind::AndAnd)
        } else if tokens.starts(&[Kind::OrOr]) {
            self.some_links_by(tokens, from, left, Kind::OrOr)
        } else if tokens.starts(&[Kind::Implies]) {
            self.some_links_by(tokens, from, left, Kind::Implies)
        } else {
            self.some_links_by(tokens, from, left, Kind::Iff)
        }
    }

    /// A chain of one of the logical operators, if there is one.
    #[tactic(auto, using(crate::proofs::Tails::logic_rest_on))]
    pub fn logic_rest(
        &self,
        tokens: &mut Tokens<'_>,
        from: Span,
        left: Boxed<Expr>,
    ) -> Result<Boxed<Expr>, ParseError>
        requires { Nests self.now.depth (F.pre self.now.nested) (F.post self.now.nested) }
        ensures { Met (then (build.logically from left) (reading self.now.depth rules.logic_rest (cursor_of tokens.old))) result (cursor_of tokens.new) }
    {
        if !tokens.starts(&LOGIC_OPERATORS) {
            return Ok(left);
        }
        self.logic_links(tokens, from, left)
    }

    /// A chain of `&&`, of `||`, of `-->` or of `<->`.
    #[tactic(auto, unfolding(asl_grammar::specs::grammar::Rules::logic, crate::specs::private::Code::then))]
    pub fn logic(&self, tokens: &mut Tokens<'_>) -> Result<Boxed<Expr>, ParseError>
        requires { Nests self.now.depth (F.pre self.now.nested) (F.post self.now.nested) }
        ensures { Met (reading self.now.depth rules.logic (cursor_of tokens.old)) result (cursor_of tokens.new) }
    {
        let from = tokens.ahead();
        let left = self.equality(tokens)?;
        self.logic_rest(tokens, from, left)
    }

    /// Types behind `as`, as many as there are.
    #[tactic(auto, using(crate::proofs::Steps::as_rest_is))]
    pub fn as_rest(
        &self,
        tokens: &mut Tokens<'_>,
        from: Span,
        mut left: Boxed<Expr>,
    ) -> Result<Boxed<Expr>, ParseError>
        requires { Nests self.now.depth (F.pre self.now.nested) (F.post self.now.nested) }
        ensures { Met (then (build.as_chained from left) (reading self.now.depth rules.as_rest (cursor_of tokens.old))) result (cursor_of tokens.new) }
    {
        for _turn in 0..tokens.len() {
            if !tokens.starts(&[Kind::As]) {
                return Ok(left);
            }
            tokens.open(Kind::As)?;
            let ty = self.as_type(tokens)?;
            left = as_node(self.alloc, tokens.since(from), left, ty)?;
        }
        Ok(left)
    }

    /// An expression that is no `if` expression, inside a greater one.
    #[tactic(auto, unfolding(asl_grammar::specs::grammar::Rules::as_chain, crate::specs::private::Code::then))]
    pub fn as_chain(&self, tokens: &mut Tokens<'_>) -> Result<Boxed<Expr>, ParseError>
        requires { Nests self.now.depth (F.pre self.now.nested) (F.post self.now.nested) }
        ensures { Met (reading self.now.depth rules.as_chain (cursor_of tokens.old)) result (cursor_of tokens.new) }
    {
        let from = tokens.ahead();
        let left = self.logic(tokens)?;
        self.as_rest(tokens, from, left)
    }

    /// The parts of an `if` expression.
    #[tactic(auto, unfolding(asl_grammar::specs::grammar::Rules::if_parts))]
    pub fn if_parts(
        &self,
        tokens: &mut Tokens<'_>,
    ) -> Result<(Boxed<Expr>, Boxed<Expr>, Boxed<Expr>), ParseError>
        requires { Nests self.now.depth (F.pre self.now.nested) (F.post self.now.nested) }
        ensures { Met (reading self.now.depth rules.if_parts (cursor_of tokens.old)) result (cursor_of tokens.new) }
    {
        let condition = self.open_expression(tokens)?;
        tokens.take(Kind::Then)?;
        let then = self.open_expression(tokens)?;
        tokens.take(Kind::Else)?;
        let other = self.open_expression(tokens)?;
        Ok((condition, then, other))
    }

    /// An `if` expression: its level ends with it, and those of operators in it do not.
    #[tactic(auto, using(crate::proofs::Steps::conditional_is, crate::proofs::Rooms::if_room))]
    pub fn conditional(&self, tokens: &mut Tokens<'_>) -> Result<Boxed<Expr>, ParseError>
        requires { Nests self.now.depth (F.pre self.now.nested) (F.post self.now.nested) }
        ensures { Met (reading self.now.depth rules.conditional (cursor_of tokens.old)) result (cursor_of tokens.new) }
    {
        let from = tokens.ahead();
        let left = tokens.left;
        tokens.open(Kind::If)?;
        let (condition, then, other) = match self.value(tokens, Symbol::IfParts)? {
            Value::Branches(first, second, third) => (first, second, third),
            _ => unreachable!(),
        };
        prove!(tokens.left < left);
        tokens.left += 1;
        let span = tokens.since(from);
        let whole = Expr::Conditional(span, condition, then, other);
        Ok(Boxed::new(self.alloc, whole)?)
    }

    /// An expression inside a greater one: the levels of its operators stay open.
    #[tactic(auto, unfolding(asl_grammar::specs::grammar::Rules::open_expression, asl_grammar::specs::grammar::Rules::conditional))]
    pub fn open_expression(&self, tokens: &mut Tokens<'_>) -> Result<Boxed<Expr>, ParseError>
        requires { Nests self.now.depth (F.pre self.now.nested) (F.post self.now.nested) }
        ensures { Met (reading self.now.depth rules.open_expression (cursor_of tokens.old)) result (cursor_of tokens.new) }
    {
        if tokens.starts(&[Kind::If]) {
            self.conditional(tokens)
        } else {
            self.as_chain(tokens)
        }
    }

    /// An outermost expression: the levels of its operators end with it.
    #[tactic(auto, unfolding(asl_grammar::specs::grammar::Rules::expression))]
    pub fn expression(&self, tokens: &mut Tokens<'_>) -> Result<Boxed<Expr>, ParseError>
        requires { Nests self.now.depth (F.pre self.now.nested) (F.post self.now.nested) }
        ensures { Met (reading self.now.depth rules.expression (cursor_of tokens.old)) result (cursor_of tokens.new) }
    {
        let left = tokens.left;
        let whole = self.open_expression(tokens)?;
        tokens.left = left;
        Ok(whole)
    }

    /// How an expression goes on behind its first operand.
    pub fn rest(
        &self,
        tokens: &mut Tokens<'_>,
        from: Span,
        left: Boxed<Expr>,
    ) -> Result<Boxed<Expr>, ParseError>
        requires { Nests self.now.depth (F.pre self.now.nested) (F.post self.now.nested) }
        ensures { Met (then (build.finished from left) (reading self.now.depth rules.rest (cursor_of tokens.old))) result (cursor_of tokens.new) }
    {
        let left = self.power_rest(tokens, from, left)?;
        let left = self.product_rest(tokens, from, left)?;
        let left = self.sum_rest(tokens, from, left)?;
        let left = self.comparison_rest(tokens, from, left)?;
        let left = self.equality_rest(tokens, from, left)?;
        let left = self.logic_rest(tokens, from, left)?;
        self.as_rest(tokens, from, left)
    }

    /// More expressions, each behind a comma.
    #[tactic(auto, using(crate::proofs::Steps::more_expressions_is))]
    pub fn more_expressions(
        &self,
        tokens: &mut Tokens<'_>,
        mut found: Items<Expr>,
    ) -> Result<Items<Expr>, ParseError>
        requires { Nests self.now.depth (F.pre self.now.nested) (F.post self.now.nested) }
        ensures { Met (then (build.behind found) (reading self.now.depth rules.more_expressions (cursor_of tokens.old))) result (cursor_of tokens.new) }
    {
        for _turn in 0..tokens.len() {
            if !tokens.starts(&[Kind::Comma]) {
                return Ok(found);
            }
            tokens.take(Kind::Comma)?;
            found.push(self.expression(tokens)?.into_inner())?;
        }
        Ok(found)
    }

    /// Expressions with commas between.
    #[tactic(auto, unfolding(asl_grammar::specs::grammar::Rules::expressions, crate::specs::private::Code::then))]
    pub fn expressions(&self, tokens: &mut Tokens<'_>) -> Result<Items<Expr>, ParseError>
        requires { Nests self.now.depth (F.pre self.now.nested) (F.post self.now.nested) }
        ensures { Met (reading self.now.depth rules.expressions (cursor_of tokens.old)) result (cursor_of tokens.new) }
    {
        let mut found = Items::new(self.alloc);
        found.push(self.expression(tokens)?.into_inner())?;
        self.more_expressions(tokens, found)
    }

    /// Expressions with commas between, or none.
    pub fn maybe_expressions(&self, tokens: &mut Tokens<'_>) -> Result<Items<Expr>, ParseError>
        requires { Nests self.now.depth (F.pre self.now.nested) (F.post self.now.nested) }
        ensures { Met (reading self.now.depth rules.maybe_expressions (cursor_of tokens.old)) result (cursor_of tokens.new) }
    {
        if !tokens.starts(&EXPRESSION) {
            return Ok(Items::new(self.alloc));
        }
        self.expressions(tokens)
    }

    /// An expression, or none.
    pub fn maybe_expression(&self, tokens: &mut Tokens<'_>) -> Result<Option<Expr>, ParseError>
        requires { Nests self.now.depth (F.pre self.now.nested) (F.post self.now.nested) }
        ensures { Met (reading self.now.depth rules.maybe_expression (cursor_of tokens.old)) result (cursor_of tokens.new) }
    {
        if !tokens.starts(&EXPRESSION) {
            return Ok(None);
        }
        Ok(Some(self.expression(tokens)?.into_inner()))
    }
}

/// An outermost expression.
pub fn expression(alloc: Global, tokens: &mut Tokens<'_>, depth: usize) -> Result<Expr, ParseError>
    ensures { Met (reading depth rules.expression (cursor_of tokens.old)) result (cursor_of tokens.new) }
{
    let grammar = Grammar {
        alloc,
        depth,
        nested,
    };
    Ok(grammar.expression(tokens)?.into_inner())
}

/// An expression, or none.
pub fn maybe_expression(
    alloc: Global,
    tokens: &mut Tokens<'_>,
    depth: usize,
) -> Result<Option<Expr>, ParseError>
    ensures { Met (reading depth rules.maybe_expression (cursor_of tokens.old)) result (cursor_of tokens.new) }
{
    Grammar {
        alloc,
        depth,
        nested,
    }
    .maybe_expression(tokens)
}

/// Expressions with commas between, or none.
pub fn maybe_expressions(
    alloc: Global,
    tokens: &mut Tokens<'_>,
    depth: usize,
) -> Result<Items<Expr>, ParseError>
    ensures { Met (reading depth rules.maybe_expressions (cursor_of tokens.old)) result (cursor_of tokens.new) }
{
    Grammar {
        alloc,
        depth,
        nested,
    }
    .maybe_expressions(tokens)
}

/// Arguments in parentheses.
pub fn arguments(
    alloc: Global,
    tokens: &mut Tokens<'_>,
    depth: usize,
) -> Result<Items<Expr>, ParseError>
    ensures { Met (reading depth rules.arguments (cursor_of tokens.old)) result (cursor_of tokens.new) }
{
    Grammar {
        alloc,
        depth,
        nested,
    }
    .arguments(tokens)
}
