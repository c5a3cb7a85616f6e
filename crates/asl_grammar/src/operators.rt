//! The operators that kinds of tokens are.
// Written by tools/grammar/generate.py from tools/grammar/table.py.

ghost use Rattle.std.specs.Prelude.{◌≡◌, true};
ghost use Rattle.asl_grammar.specs.grammar.Cursor.{among};
ghost use Rattle.asl_grammar.specs.grammar.Operators as operators;

use crate::kinds::Kind;
use asl_syn::tree::{BinaryOperator, UnaryOperator};

/// The operator before its operand that this kind is.
pub fn unary_of(kind: Kind) -> UnaryOperator
    requires { among operators.unary_kinds kind ≡ true }
    ensures { result ≡ operators.unary_of kind }
{
    match kind {
        Kind::Minus => UnaryOperator::Negate,
        Kind::Bang => UnaryOperator::Not,
        Kind::Not => UnaryOperator::Complement,
        _ => unreachable!(),
    }
}

/// The operator between its operands that this kind is.
pub fn binary_of(kind: Kind) -> BinaryOperator
    requires { among operators.binary_kinds kind ≡ true }
    ensures { result ≡ operators.binary_of kind }
{
    match kind {
        Kind::AndAnd => BinaryOperator::LogicalAnd,
        Kind::OrOr => BinaryOperator::LogicalOr,
        Kind::Implies => BinaryOperator::Implies,
        Kind::Iff => BinaryOperator::Equivalent,
        Kind::Equal => BinaryOperator::Equal,
        Kind::NotEqual => BinaryOperator::NotEqual,
        Kind::Less => BinaryOperator::Less,
        Kind::LessEqual => BinaryOperator::LessEqual,
        Kind::Greater => BinaryOperator::Greater,
        Kind::GreaterEqual => BinaryOperator::GreaterEqual,
        Kind::Plus => BinaryOperator::Add,
        Kind::Minus => BinaryOperator::Subtract,
        Kind::BitAnd => BinaryOperator::BitAnd,
        Kind::BitOr => BinaryOperator::BitOr,
        Kind::BitXor => BinaryOperator::BitXor,
        Kind::ColonColon => BinaryOperator::Concatenate,
        Kind::Star => BinaryOperator::Multiply,
        Kind::Div => BinaryOperator::DivideExact,
        Kind::DivRm => BinaryOperator::DivideFloor,
        Kind::Mod => BinaryOperator::Modulo,
        Kind::ShiftLeft => BinaryOperator::ShiftLeft,
        Kind::ShiftRight => BinaryOperator::ShiftRight,
        Kind::Caret => BinaryOperator::Power,
        _ => unreachable!(),
    }
}
