//! The rules of expressions, patterns and types nest in each other. Their functions take the reader of what is nested as
//! a parameter, so that each stands on the functions before it alone.
//!
//! An expression is passed as a `Boxed` one: to drop it is then one call, where the drop of a bare tree is written out at
//! each place at which a function may return early, and its proof goes through all of that.

ghost use Rattle.std.specs.Prelude.{◌≡◌, suc};
ghost use Rattle.asl_parse_expr.specs.private.Code.{cursor_of};
ghost use Rattle.asl_parse_expr.specs.private.Nests.{Nests, MetValue};

use crate::tokens::Tokens;
use asl_grammar::error::ParseError;
use asl_grammar::parts::Braces;
use asl_syn::tree::{Bitfield, ConstraintPart, Expr, Pattern, Suffix, TypeExpr};
use sqlite_items::{Boxed, Items};
use std::alloc::Global;

/// What is nested: what stands behind a token that opens a level.
#[derive(Clone, Copy)]
pub enum Symbol {
    /// Behind `(` of an expression.
    Parenthesized,
    /// Behind `(` of a call.
    Arguments,
    /// Behind `{` after a name.
    Braced,
    /// Behind a prefix operator.
    Operand,
    /// Behind `if` of an expression.
    IfParts,
    /// Behind `[` of a suffix.
    Bracketed,
    /// Behind `(` of `bits`.
    Width,
    /// Behind `{` of a set.
    SetParts,
    /// Behind `(` of a pattern.
    PatternParts,
    /// Behind `{` of a constraint.
    ConstraintParts,
    /// Behind `{` of a `bits` type.
    Bitfields,
    /// Behind `(` of a type.
    TypeParts,
    /// Behind `array`.
    ArrayParts,
}

/// What it is read to.
#[derive(Drop)]
pub enum Value {
    Expressions(Items<Expr>),
    Braces(Braces),
    Expr(Boxed<Expr>),
    Branches(Boxed<Expr>, Boxed<Expr>, Boxed<Expr>),
    Suffix(Suffix),
    Patterns(Items<Pattern>),
    Constraint(Items<ConstraintPart>),
    Bitfields(Items<Bitfield>),
    Types(Items<TypeExpr>),
    Array(Boxed<Expr>, TypeExpr),
}

/// The rules, where things may nest so deep below.
#[derive(Clone, Copy)]
pub struct Grammar<F> {
    pub alloc: Global,
    pub depth: usize,
    pub nested: F,
}

impl<F: Fn(Global, &mut Tokens<'_>, usize, Symbol) -> Result<Value, ParseError>> Grammar<F> {
    /// What stands behind a token that opened a level: the value's variant is that of the symbol.
    pub fn value(&self, tokens: &mut Tokens<'_>, what: Symbol) -> Result<Value, ParseError>
        requires { Nests self.now.depth (F.pre self.now.nested) (F.post self.now.nested) }
        ensures { MetValue what self.now.depth (cursor_of tokens.old) result (cursor_of tokens.new) }
    {
        (self.nested)(self.alloc, tokens, self.depth, what)
    }

    /// Reads what a symbol stands for, by its rule: a level deeper than what nests in it.
    fn read(&self, tokens: &mut Tokens<'_>, what: Symbol) -> Result<Value, ParseError>
        requires { Nests self.now.depth (F.pre self.now.nested) (F.post self.now.nested) }
        ensures { MetValue what (suc self.now.depth) (cursor_of tokens.old) result (cursor_of tokens.new) }
    {
        match what {
            Symbol::Parenthesized => Ok(Value::Expressions(self.parenthesized_in(tokens)?)),
            Symbol::Arguments => Ok(Value::Expressions(self.arguments_in(tokens)?)),
            Symbol::Braced => Ok(Value::Braces(self.braced_in(tokens)?)),
            Symbol::Operand => Ok(Value::Expr(self.unary(tokens)?)),
            Symbol::IfParts => {
                let (first, second, third) = self.if_parts(tokens)?;
                Ok(Value::Branches(first, second, third))
            }
            Symbol::Bracketed => Ok(Value::Suffix(self.bracketed_in(tokens)?)),
            Symbol::Width => Ok(Value::Expr(self.width_in(tokens)?)),
            Symbol::SetParts => Ok(Value::Patterns(self.set_parts(tokens)?)),
            Symbol::PatternParts => Ok(Value::Patterns(self.pattern_parts(tokens)?)),
            Symbol::ConstraintParts => Ok(Value::Constraint(self.constraint_parts(tokens)?)),
            Symbol::Bitfields => Ok(Value::Bitfields(self.bitfields_in(tokens)?)),
            Symbol::TypeParts => Ok(Value::Types(self.type_parts(tokens)?)),
            Symbol::ArrayParts => {
                let (first, second) = self.array_parts(tokens)?;
                Ok(Value::Array(first, second))
            }
        }
    }
}

/// Reads what is nested.
pub fn nested(
    alloc: Global,
    tokens: &mut Tokens<'_>,
    depth: usize,
    what: Symbol,
) -> Result<Value, ParseError>
    ensures { MetValue what depth (cursor_of tokens.old) result (cursor_of tokens.new) }
{
    if depth == 0 {
        return Err(ParseError::TooDeep(tokens.len(), false));
    }
    let grammar = Grammar {
        alloc,
        depth: depth - 1,
        nested,
    };
    grammar.read(tokens, what)
}
