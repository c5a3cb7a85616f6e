//! The tokens that a rule may begin with, where there are several, and the operators of a level.
// Written by tools/grammar/generate.py from tools/grammar/table.py.

use asl_grammar::kinds::Kind;

/// What stands behind a name: arguments, or braces.
pub const AFTER_NAME: [Kind; 2] = [Kind::OpenParen, Kind::OpenBrace];

/// `TRUE` or `FALSE`.
pub const BOOLEAN_LITERAL: [Kind; 2] = [Kind::True, Kind::False];

/// The operators that compare numbers.
pub const COMPARISON_OPERATORS: [Kind; 4] = [
    Kind::Less,
    Kind::LessEqual,
    Kind::Greater,
    Kind::GreaterEqual,
];

/// The operators of a chain of equations.
pub const EQUALITY_OPERATORS: [Kind; 2] = [Kind::Equal, Kind::NotEqual];

/// An expression.
pub const EXPRESSION: [Kind; 12] = [
    Kind::If,
    Kind::Minus,
    Kind::Bang,
    Kind::Not,
    Kind::IntegerLiteral,
    Kind::BitsLiteral,
    Kind::True,
    Kind::False,
    Kind::OpenParen,
    Kind::Name,
    Kind::Getter,
    Kind::Setter,
];

/// A literal that is an expression.
pub const LITERAL: [Kind; 4] = [
    Kind::IntegerLiteral,
    Kind::BitsLiteral,
    Kind::True,
    Kind::False,
];

/// A name.
pub const NAME: [Kind; 3] = [Kind::Name, Kind::Getter, Kind::Setter];

/// The logical operators.
pub const LOGIC_OPERATORS: [Kind; 4] = [Kind::AndAnd, Kind::OrOr, Kind::Implies, Kind::Iff];

/// The operators before an operand, without `-`.
pub const OTHER_PREFIX_OPERATORS: [Kind; 2] = [Kind::Bang, Kind::Not];

/// The operators before an operand.
pub const PREFIX_OPERATORS: [Kind; 3] = [Kind::Minus, Kind::Bang, Kind::Not];

/// The operators of a product.
pub const PRODUCT_OPERATORS: [Kind; 6] = [
    Kind::Star,
    Kind::Div,
    Kind::DivRm,
    Kind::Mod,
    Kind::ShiftLeft,
    Kind::ShiftRight,
];

/// What stands between the two expressions of a slice.
pub const SLICE_FORM: [Kind; 3] = [Kind::Colon, Kind::PlusColon, Kind::StarColon];

/// A suffix.
pub const SUFFIX: [Kind; 2] = [Kind::Dot, Kind::OpenBracket];

/// The operators of a sum.
pub const SUM_OPERATORS: [Kind; 6] = [
    Kind::Plus,
    Kind::Minus,
    Kind::BitAnd,
    Kind::BitOr,
    Kind::BitXor,
    Kind::ColonColon,
];

/// A type.
pub const TYPE_EXPRESSION: [Kind; 9] = [
    Kind::Integer,
    Kind::Boolean,
    Kind::Bit,
    Kind::Name,
    Kind::Getter,
    Kind::Setter,
    Kind::Bits,
    Kind::OpenParen,
    Kind::Array,
];

/// An operand.
pub const UNARY: [Kind; 11] = [
    Kind::Minus,
    Kind::Bang,
    Kind::Not,
    Kind::IntegerLiteral,
    Kind::BitsLiteral,
    Kind::True,
    Kind::False,
    Kind::OpenParen,
    Kind::Name,
    Kind::Getter,
    Kind::Setter,
];
