//! Types.

ghost use Rattle.std.specs.Prelude.{◌≡◌};
ghost use Rattle.asl_grammar.specs.grammar.Build as build;
ghost use Rattle.asl_grammar.specs.grammar.Rules as rules;
ghost use Rattle.asl_parse_expr.specs.private.Code.{cursor_of, Met, reading, then};
ghost use Rattle.asl_parse_expr.specs.private.Nests.{Nests};

use crate::firsts::{NAME, TYPE_EXPRESSION};
use crate::grammar::{Grammar, Symbol, Value, nested};
use crate::names::name;
use crate::tokens::{Tokens, text_at};
use asl_grammar::error::ParseError;
use asl_grammar::kinds::Kind;
use asl_syn::tree::{Bitfield, ConstraintPart, Expr, Ident, TypeExpr};
use sqlite_items::{Boxed, Items};
use std::alloc::Global;

/// A bit or a range of bits with its name.
fn bitfield_of(high: Boxed<Expr>, low: Option<Boxed<Expr>>, name: Ident) -> Bitfield
    ensures { result ≡ build.bitfield_of high low name }
{
    match low {
        None => Bitfield::OneBit(high.into_inner(), name),
        Some(low) => Bitfield::BitRange(high.into_inner(), low.into_inner(), name),
    }
}

/// `boolean`
#[tactic(auto, unfolding(asl_grammar::specs::grammar::Rules::boolean_type))]
fn boolean_type(tokens: &mut Tokens<'_>, depth: usize) -> Result<TypeExpr, ParseError>
    ensures { Met (reading depth rules.boolean_type (cursor_of tokens.old)) result (cursor_of tokens.new) }
{
    let token = tokens.take(Kind::Boolean)?;
    Ok(TypeExpr::BooleanType(token.span))
}

/// `bit`
#[tactic(auto, unfolding(asl_grammar::specs::grammar::Rules::bit_type))]
fn bit_type(tokens: &mut Tokens<'_>, depth: usize) -> Result<TypeExpr, ParseError>
    ensures { Met (reading depth rules.bit_type (cursor_of tokens.old)) result (cursor_of tokens.new) }
{
    let token = tokens.take(Kind::Bit)?;
    Ok(TypeExpr::BitType(token.span))
}

/// The name of a type.
#[tactic(auto, unfolding(asl_grammar::specs::grammar::Rules::named_type))]
fn named_type(alloc: Global, tokens: &mut Tokens<'_>, depth: usize) -> Result<TypeExpr, ParseError>
    ensures { Met (reading depth rules.named_type (cursor_of tokens.old)) result (cursor_of tokens.new) }
{
    let bytes = tokens.bytes;
    let token = tokens.take_any(&NAME)?;
    Ok(TypeExpr::NamedType(token.span, text_at(alloc, bytes, token.span)?))
}

impl<F: Fn(Global, &mut Tokens<'_>, usize, Symbol) -> Result<Value, ParseError>> Grammar<F> {
    /// The upper end of a range of integers, if there is one.
    #[tactic(auto, unfolding(asl_grammar::specs::grammar::Rules::constraint_end, crate::specs::private::Code::then))]
    pub fn constraint_end(
        &self,
        tokens: &mut Tokens<'_>,
        low: Boxed<Expr>,
    ) -> Result<ConstraintPart, ParseError>
        requires { Nests self.now.depth (F.pre self.now.nested) (F.post self.now.nested) }
        ensures { Met (then (build.constraint_part_of low) (reading self.now.depth rules.constraint_end (cursor_of tokens.old))) result (cursor_of tokens.new) }
    {
        if !tokens.starts(&[Kind::DotDot]) {
            return Ok(ConstraintPart::Only(low.into_inner()));
        }
        tokens.take(Kind::DotDot)?;
        let high = self.expression(tokens)?;
        Ok(ConstraintPart::FromTo(low.into_inner(), high.into_inner()))
    }

    /// An integer or a range of integers.
    #[tactic(auto, unfolding(asl_grammar::specs::grammar::Rules::constraint_part, crate::specs::private::Code::then))]
    pub fn constraint_part(&self, tokens: &mut Tokens<'_>) -> Result<ConstraintPart, ParseError>
        requires { Nests self.now.depth (F.pre self.now.nested) (F.post self.now.nested) }
        ensures { Met (reading self.now.depth rules.constraint_part (cursor_of tokens.old)) result (cursor_of tokens.new) }
    {
        let low = self.expression(tokens)?;
        self.constraint_end(tokens, low)
    }

    /// Parts of a constraint with commas between.
    #[tactic(auto, using(crate::proofs::Steps::constraint_list_is))]
    pub fn constraint_list(
        &self,
        tokens: &mut Tokens<'_>,
    ) -> Result<Items<ConstraintPart>, ParseError>
        requires { Nests self.now.depth (F.pre self.now.nested) (F.post self.now.nested) }
        ensures { Met (reading self.now.depth rules.constraint_list (cursor_of tokens.old)) result (cursor_of tokens.new) }
    {
        let mut found = Items::new(self.alloc);
        found.push(self.constraint_part(tokens)?)?;
        for _turn in 0..tokens.len() {
            if !tokens.starts(&[Kind::Comma]) {
                return Ok(found);
            }
            tokens.take(Kind::Comma)?;
            found.push(self.constraint_part(tokens)?)?;
        }
        Ok(found)
    }

    /// Parts of a constraint, and the `}`.
    #[tactic(auto, unfolding(asl_grammar::specs::grammar::Rules::constraint_parts))]
    pub fn constraint_parts(
        &self,
        tokens: &mut Tokens<'_>,
    ) -> Result<Items<ConstraintPart>, ParseError>
        requires { Nests self.now.depth (F.pre self.now.nested) (F.post self.now.nested) }
        ensures { Met (reading self.now.depth rules.constraint_parts (cursor_of tokens.old)) result (cursor_of tokens.new) }
    {
        let found = self.constraint_list(tokens)?;
        tokens.take(Kind::CloseBrace)?;
        Ok(found)
    }

    /// A constraint.
    #[tactic(auto, unfolding(asl_grammar::specs::grammar::Rules::constraint))]
    pub fn constraint(&self, tokens: &mut Tokens<'_>) -> Result<Items<ConstraintPart>, ParseError>
        requires { Nests self.now.depth (F.pre self.now.nested) (F.post self.now.nested) }
        ensures { Met (reading self.now.depth rules.constraint (cursor_of tokens.old)) result (cursor_of tokens.new) }
    {
        let left = tokens.left;
        tokens.open(Kind::OpenBrace)?;
        let found = match self.value(tokens, Symbol::ConstraintParts)? {
            Value::Constraint(found) => found,
            _ => unreachable!(),
        };
        tokens.left = left;
        Ok(found)
    }

    /// A constraint, if there is one: else no parts.
    #[tactic(auto, unfolding(asl_grammar::specs::grammar::Rules::maybe_constraint, asl_grammar::specs::grammar::Rules::constraint))]
    pub fn maybe_constraint(
        &self,
        tokens: &mut Tokens<'_>,
    ) -> Result<Items<ConstraintPart>, ParseError>
        requires { Nests self.now.depth (F.pre self.now.nested) (F.post self.now.nested) }
        ensures { Met (reading self.now.depth rules.maybe_constraint (cursor_of tokens.old)) result (cursor_of tokens.new) }
    {
        if !tokens.starts(&[Kind::OpenBrace]) {
            return Ok(Items::new(self.alloc));
        }
        self.constraint(tokens)
    }

    /// The lower end of a bitfield, if there is one.
    #[tactic(auto, unfolding(asl_grammar::specs::grammar::Rules::low_end))]
    pub fn low_end(&self, tokens: &mut Tokens<'_>) -> Result<Option<Boxed<Expr>>, ParseError>
        requires { Nests self.now.depth (F.pre self.now.nested) (F.post self.now.nested) }
        ensures { Met (reading self.now.depth rules.low_end (cursor_of tokens.old)) result (cursor_of tokens.new) }
    {
        if !tokens.starts(&[Kind::Colon]) {
            return Ok(None);
        }
        tokens.take(Kind::Colon)?;
        Ok(Some(self.expression(tokens)?))
    }

    /// The bits of a bitfield, in brackets.
    #[tactic(auto, unfolding(asl_grammar::specs::grammar::Rules::bit_ends))]
    pub fn bit_ends(
        &self,
        tokens: &mut Tokens<'_>,
    ) -> Result<(Boxed<Expr>, Option<Boxed<Expr>>), ParseError>
        requires { Nests self.now.depth (F.pre self.now.nested) (F.post self.now.nested) }
        ensures { Met (reading self.now.depth rules.bit_ends (cursor_of tokens.old)) result (cursor_of tokens.new) }
    {
        let left = tokens.left;
        tokens.open(Kind::OpenBracket)?;
        let high = self.expression(tokens)?;
        let low = self.low_end(tokens)?;
        tokens.take(Kind::CloseBracket)?;
        tokens.left = left;
        Ok((high, low))
    }

    /// A bitfield.
    #[tactic(auto, unfolding(asl_grammar::specs::grammar::Rules::bitfield))]
    pub fn bitfield(&self, tokens: &mut Tokens<'_>) -> Result<Bitfield, ParseError>
        requires { Nests self.now.depth (F.pre self.now.nested) (F.post self.now.nested) }
        ensures { Met (reading self.now.depth rules.bitfield (cursor_of tokens.old)) result (cursor_of tokens.new) }
    {
        let (high, low) = self.bit_ends(tokens)?;
        let name = name(self.alloc, tokens, self.depth)?;
        Ok(bitfield_of(high, low, name))
    }

    /// Bitfields with commas between, and maybe one behind them.
    #[tactic(auto, using(crate::proofs::Steps::bitfield_list_is))]
    pub fn bitfield_list(&self, tokens: &mut Tokens<'_>) -> Result<Items<Bitfield>, ParseError>
        requires { Nests self.now.depth (F.pre self.now.nested) (F.post self.now.nested) }
        ensures { Met (reading self.now.depth rules.bitfield_list (cursor_of tokens.old)) result (cursor_of tokens.new) }
    {
        let mut found = Items::new(self.alloc);
        found.push(self.bitfield(tokens)?)?;
        for _turn in 0..tokens.len() {
            if !tokens.starts(&[Kind::Comma]) {
                return Ok(found);
            }
            tokens.take(Kind::Comma)?;
            if !tokens.starts(&[Kind::OpenBracket]) {
                return Ok(found);
            }
            found.push(self.bitfield(tokens)?)?;
        }
        Ok(found)
    }

    /// Bitfields, or none.
    #[tactic(auto, unfolding(asl_grammar::specs::grammar::Rules::maybe_bitfield_list, asl_grammar::specs::grammar::Rules::bitfield_list, asl_grammar::specs::grammar::Rules::bitfield, asl_grammar::specs::grammar::Rules::bit_ends))]
    pub fn maybe_bitfield_list(
        &self,
        tokens: &mut Tokens<'_>,
    ) -> Result<Items<Bitfield>, ParseError>
        requires { Nests self.now.depth (F.pre self.now.nested) (F.post self.now.nested) }
        ensures { Met (reading self.now.depth rules.maybe_bitfield_list (cursor_of tokens.old)) result (cursor_of tokens.new) }
    {
        if !tokens.starts(&[Kind::OpenBracket]) {
            return Ok(Items::new(self.alloc));
        }
        self.bitfield_list(tokens)
    }

    /// Bitfields, and the `}`.
    #[tactic(auto, unfolding(asl_grammar::specs::grammar::Rules::bitfields_in))]
    pub fn bitfields_in(&self, tokens: &mut Tokens<'_>) -> Result<Items<Bitfield>, ParseError>
        requires { Nests self.now.depth (F.pre self.now.nested) (F.post self.now.nested) }
        ensures { Met (reading self.now.depth rules.bitfields_in (cursor_of tokens.old)) result (cursor_of tokens.new) }
    {
        let found = self.maybe_bitfield_list(tokens)?;
        tokens.take(Kind::CloseBrace)?;
        Ok(found)
    }

    /// Bitfields in braces.
    #[tactic(auto, unfolding(asl_grammar::specs::grammar::Rules::bitfields))]
    pub fn bitfields(&self, tokens: &mut Tokens<'_>) -> Result<Items<Bitfield>, ParseError>
        requires { Nests self.now.depth (F.pre self.now.nested) (F.post self.now.nested) }
        ensures { Met (reading self.now.depth rules.bitfields (cursor_of tokens.old)) result (cursor_of tokens.new) }
    {
        let left = tokens.left;
        tokens.open(Kind::OpenBrace)?;
        let found = match self.value(tokens, Symbol::Bitfields)? {
            Value::Bitfields(found) => found,
            _ => unreachable!(),
        };
        tokens.left = left;
        Ok(found)
    }

    /// Bitfields in braces, if they are there.
    #[tactic(auto, unfolding(asl_grammar::specs::grammar::Rules::maybe_bitfields, asl_grammar::specs::grammar::Rules::bitfields))]
    pub fn maybe_bitfields(&self, tokens: &mut Tokens<'_>) -> Result<Items<Bitfield>, ParseError>
        requires { Nests self.now.depth (F.pre self.now.nested) (F.post self.now.nested) }
        ensures { Met (reading self.now.depth rules.maybe_bitfields (cursor_of tokens.old)) result (cursor_of tokens.new) }
    {
        if !tokens.starts(&[Kind::OpenBrace]) {
            return Ok(Items::new(self.alloc));
        }
        self.bitfields(tokens)
    }

    /// `integer`, with its constraint.
    #[tactic(auto, unfolding(asl_grammar::specs::grammar::Rules::integer_type))]
    pub fn integer_type(&self, tokens: &mut Tokens<'_>) -> Result<TypeExpr, ParseError>
        requires { Nests self.now.depth (F.pre self.now.nested) (F.post self.now.nested) }
        ensures { Met (reading self.now.depth rules.integer_type (cursor_of tokens.old)) result (cursor_of tokens.new) }
    {
        let from = tokens.ahead();
        tokens.take(Kind::Integer)?;
        let parts = self.maybe_constraint(tokens)?;
        Ok(TypeExpr::IntegerType(tokens.since(from), parts))
    }

    /// A width, and the `)`.
    #[tactic(auto, unfolding(asl_grammar::specs::grammar::Rules::width_in))]
    pub fn width_in(&self, tokens: &mut Tokens<'_>) -> Result<Boxed<Expr>, ParseError>
        requires { Nests self.now.depth (F.pre self.now.nested) (F.post self.now.nested) }
        ensures { Met (reading self.now.depth rules.width_in (cursor_of tokens.old)) result (cursor_of tokens.new) }
    {
        let width = self.expression(tokens)?;
        tokens.take(Kind::CloseParen)?;
        Ok(width)
    }

    /// `bits` with its width and its bitfields.
    #[tactic(auto, unfolding(asl_grammar::specs::grammar::Rules::bits_type))]
    pub fn bits_type(&self, tokens: &mut Tokens<'_>) -> Result<TypeExpr, ParseError>
        requires { Nests self.now.depth (F.pre self.now.nested) (F.post self.now.nested) }
        ensures { Met (reading self.now.depth rules.bits_type (cursor_of tokens.old)) result (cursor_of tokens.new) }
    {
        let from = tokens.ahead();
        tokens.take(Kind::Bits)?;
        let left = tokens.left;
        tokens.open(Kind::OpenParen)?;
        let width = match self.value(tokens, Symbol::Width)? {
            Value::Expr(found) => found,
            _ => unreachable!(),
        };
        tokens.left = left;
        let fields = self.maybe_bitfields(tokens)?;
        let span = tokens.since(from);
        Ok(TypeExpr::BitsType(span, width, fields))
    }

    /// More types, each behind a comma.
    #[tactic(auto, using(crate::proofs::Steps::more_types_is))]
    pub fn more_types(
        &self,
        tokens: &mut Tokens<'_>,
        mut found: Items<TypeExpr>,
    ) -> Result<Items<TypeExpr>, ParseError>
        requires { Nests self.now.depth (F.pre self.now.nested) (F.post self.now.nested) }
        ensures { Met (then (build.behind found) (reading self.now.depth rules.more_types (cursor_of tokens.old))) result (cursor_of tokens.new) }
    {
        for _turn in 0..tokens.len() {
            if !tokens.starts(&[Kind::Comma]) {
                return Ok(found);
            }
            tokens.take(Kind::Comma)?;
            found.push(self.type_expression(tokens)?)?;
        }
        Ok(found)
    }

    /// Two types or more, with commas between.
    pub fn two_types(&self, tokens: &mut Tokens<'_>) -> Result<Items<TypeExpr>, ParseError>
        requires { Nests self.now.depth (F.pre self.now.nested) (F.post self.now.nested) }
        ensures { Met (reading self.now.depth rules.two_types (cursor_of tokens.old)) result (cursor_of tokens.new) }
    {
        let mut found = Items::new(self.alloc);
        found.push(self.type_expression(tokens)?)?;
        tokens.take(Kind::Comma)?;
        found.push(self.type_expression(tokens)?)?;
        self.more_types(tokens, found)
    }

    /// The types of a tuple, and the `)`.
    #[tactic(auto, unfolding(asl_grammar::specs::grammar::Rules::type_parts))]
    pub fn type_parts(&self, tokens: &mut Tokens<'_>) -> Result<Items<TypeExpr>, ParseError>
        requires { Nests self.now.depth (F.pre self.now.nested) (F.post self.now.nested) }
        ensures { Met (reading self.now.depth rules.type_parts (cursor_of tokens.old)) result (cursor_of tokens.new) }
    {
        let found = self.two_types(tokens)?;
        tokens.take(Kind::CloseParen)?;
        Ok(found)
    }

    /// A type of tuples.
    #[tactic(auto, unfolding(asl_grammar::specs::grammar::Rules::tuple_type))]
    pub fn tuple_type(&self, tokens: &mut Tokens<'_>) -> Result<TypeExpr, ParseError>
        requires { Nests self.now.depth (F.pre self.now.nested) (F.post self.now.nested) }
        ensures { Met (reading self.now.depth rules.tuple_type (cursor_of tokens.old)) result (cursor_of tokens.new) }
    {
        let from = tokens.ahead();
        let left = tokens.left;
        tokens.open(Kind::OpenParen)?;
        let parts = match self.value(tokens, Symbol::TypeParts)? {
            Value::Types(found) => found,
            _ => unreachable!(),
        };
        tokens.left = left;
        Ok(TypeExpr::TupleType(tokens.since(from), parts))
    }

    /// The length of an array, in two brackets.
    #[tactic(auto, unfolding(asl_grammar::specs::grammar::Rules::array_length))]
    pub fn array_length(&self, tokens: &mut Tokens<'_>) -> Result<Boxed<Expr>, ParseError>
        requires { Nests self.now.depth (F.pre self.now.nested) (F.post self.now.nested) }
        ensures { Met (reading self.now.depth rules.array_length (cursor_of tokens.old)) result (cursor_of tokens.new) }
    {
        let left = tokens.left;
        tokens.open(Kind::OpenBracket)?;
        let inside = tokens.left;
        tokens.open(Kind::OpenBracket)?;
        let length = self.expression(tokens)?;
        tokens.take(Kind::CloseBracket)?;
        tokens.left = inside;
        tokens.take(Kind::CloseBracket)?;
        tokens.left = left;
        Ok(length)
    }

    /// The length of an array, and the type of its elements.
    #[tactic(auto, unfolding(asl_grammar::specs::grammar::Rules::array_parts))]
    pub fn array_parts(
        &self,
        tokens: &mut Tokens<'_>,
    ) -> Result<(Boxed<Expr>, TypeExpr), ParseError>
        requires { Nests self.now.depth (F.pre self.now.nested) (F.post self.now.nested) }
        ensures { Met (reading self.now.depth rules.array_parts (cursor_of tokens.old)) result (cursor_of tokens.new) }
    {
        let length = self.array_length(tokens)?;
        tokens.take(Kind::Of)?;
        let element = self.type_expression(tokens)?;
        Ok((length, element))
    }

    /// A type of arrays.
    #[tactic(auto, unfolding(asl_grammar::specs::grammar::Rules::array_type))]
    pub fn array_type(&self, tokens: &mut Tokens<'_>) -> Result<TypeExpr, ParseError>
        requires { Nests self.now.depth (F.pre self.now.nested) (F.post self.now.nested) }
        ensures { Met (reading self.now.depth rules.array_type (cursor_of tokens.old)) result (cursor_of tokens.new) }
    {
        let from = tokens.ahead();
        let left = tokens.left;
        tokens.open(Kind::Array)?;
        let (length, element) = match self.value(tokens, Symbol::ArrayParts)? {
            Value::Array(first, second) => (first, second),
            _ => unreachable!(),
        };
        tokens.left = left;
        let span = tokens.since(from);
        Ok(TypeExpr::ArrayType(span, length, Boxed::new(self.alloc, element)?))
    }

    /// A type.
    pub fn type_expression(&self, tokens: &mut Tokens<'_>) -> Result<TypeExpr, ParseError>
        requires { Nests self.now.depth (F.pre self.now.nested) (F.post self.now.nested) }
        ensures { Met (reading self.now.depth rules.type_expression (cursor_of tokens.old)) result (cursor_of tokens.new) }
    {
        if tokens.starts(&[Kind::Integer]) {
            self.integer_type(tokens)
        } else if tokens.starts(&[Kind::Boolean]) {
            boolean_type(tokens, self.depth)
        } else if tokens.starts(&[Kind::Bit]) {
            bit_type(tokens, self.depth)
        } else if tokens.starts(&NAME) {
            named_type(self.alloc, tokens, self.depth)
        } else if tokens.starts(&[Kind::Bits]) {
            self.bits_type(tokens)
        } else if tokens.starts(&[Kind::OpenParen]) {
            self.tuple_type(tokens)
        } else {
            self.array_type(tokens)
        }
    }

    /// A constraint alone, which stands for `integer` with it.
    #[tactic(auto, unfolding(asl_grammar::specs::grammar::Rules::constraint_type))]
    pub fn constraint_type(&self, tokens: &mut Tokens<'_>) -> Result<TypeExpr, ParseError>
        requires { Nests self.now.depth (F.pre self.now.nested) (F.post self.now.nested) }
        ensures { Met (reading self.now.depth rules.constraint_type (cursor_of tokens.old)) result (cursor_of tokens.new) }
    {
        let from = tokens.ahead();
        let parts = self.constraint(tokens)?;
        Ok(TypeExpr::IntegerType(tokens.since(from), parts))
    }

    /// What stands behind `as`: a type, or a constraint alone.
    pub fn as_type(&self, tokens: &mut Tokens<'_>) -> Result<TypeExpr, ParseError>
        requires { Nests self.now.depth (F.pre self.now.nested) (F.post self.now.nested) }
        ensures { Met (reading self.now.depth rules.as_type (cursor_of tokens.old)) result (cursor_of tokens.new) }
    {
        if tokens.starts(&TYPE_EXPRESSION) {
            self.type_expression(tokens)
        } else {
            self.constraint_type(tokens)
        }
    }

    /// A colon with a type, or none.
    #[tactic(auto, unfolding(asl_grammar::specs::grammar::Rules::typed))]
    pub fn typed(&self, tokens: &mut Tokens<'_>) -> Result<Option<TypeExpr>, ParseError>
        requires { Nests self.now.depth (F.pre self.now.nested) (F.post self.now.nested) }
        ensures { Met (reading self.now.depth rules.typed (cursor_of tokens.old)) result (cursor_of tokens.new) }
    {
        if !tokens.starts(&[Kind::Colon]) {
            return Ok(None);
        }
        tokens.take(Kind::Colon)?;
        Ok(Some(self.type_expression(tokens)?))
    }
}

/// A type.
pub fn type_expression(
    alloc: Global,
    tokens: &mut Tokens<'_>,
    depth: usize,
) -> Result<TypeExpr, ParseError>
    ensures { Met (reading depth rules.type_expression (cursor_of tokens.old)) result (cursor_of tokens.new) }
{
    Grammar {
        alloc,
        depth,
        nested,
    }
    .type_expression(tokens)
}

/// A colon with a type, or none.
pub fn typed(
    alloc: Global,
    tokens: &mut Tokens<'_>,
    depth: usize,
) -> Result<Option<TypeExpr>, ParseError>
    ensures { Met (reading depth rules.typed (cursor_of tokens.old)) result (cursor_of tokens.new) }
{
    Grammar {
        alloc,
        depth,
        nested,
    }
    .typed(tokens)
}
