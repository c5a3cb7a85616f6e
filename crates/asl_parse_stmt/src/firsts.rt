//! The tokens that a rule may begin with, where there are several, and the operators of a level.
// Written by tools/grammar/generate.py from tools/grammar/table.py.

use asl_grammar::kinds::Kind;

/// Whether a body may be replaced, or replaces another.
pub const BODY_WORD: [Kind; 2] = [Kind::ImpDef, Kind::Implementation];

/// The parameters or the arguments of a call.
pub const CALLED: [Kind; 2] = [Kind::OpenBrace, Kind::OpenParen];

/// A declaration.
pub const DECLARATION: [Kind; 10] = [
    Kind::TypeWord,
    Kind::Constant,
    Kind::Let,
    Kind::Var,
    Kind::ImpDef,
    Kind::Implementation,
    Kind::Pure,
    Kind::ReadOnly,
    Kind::Func,
    Kind::Accessor,
];

/// A constant, or a `let` of the whole program.
pub const FIXED_STORAGE: [Kind; 2] = [Kind::Constant, Kind::Let];

/// A subprogram, behind the word of its body.
pub const FUNCTION: [Kind; 3] = [Kind::Pure, Kind::ReadOnly, Kind::Func];

/// What `print` writes.
pub const PRINT_ITEM: [Kind; 13] = [
    Kind::StringLiteral,
    Kind::If,
    Kind::Minus,
    Kind::Bang,
    Kind::Not,
    Kind::IntegerLiteral,
    Kind::BitsLiteral,
    Kind::True,
    Kind::False,
    Kind::OpenParen,
    Kind::Name,
    Kind::Getter,
    Kind::Setter,
];

/// A statement that holds no other and begins with no name.
pub const SIMPLE_STATEMENT: [Kind; 11] = [
    Kind::Pass,
    Kind::Unreachable,
    Kind::Assert,
    Kind::Let,
    Kind::Var,
    Kind::Minus,
    Kind::OpenParen,
    Kind::Return,
    Kind::Throw,
    Kind::Print,
    Kind::PrintLine,
];

/// What stands in the braces of a record.
pub const SOME_MEMBERS: [Kind; 4] = [Kind::Minus, Kind::Name, Kind::Getter, Kind::Setter];

/// A statement.
pub const STATEMENT: [Kind; 20] = [
    Kind::Pass,
    Kind::Unreachable,
    Kind::Assert,
    Kind::Let,
    Kind::Var,
    Kind::Minus,
    Kind::OpenParen,
    Kind::Return,
    Kind::Throw,
    Kind::Print,
    Kind::PrintLine,
    Kind::Name,
    Kind::Getter,
    Kind::Setter,
    Kind::If,
    Kind::Case,
    Kind::For,
    Kind::While,
    Kind::Repeat,
    Kind::Try,
];

/// A qualifier.
pub const WRITTEN_QUALIFIER: [Kind; 2] = [Kind::Pure, Kind::ReadOnly];
