//! Spans, and the tokens of a text. A token owns nothing: the text of a name or a literal stands in the
//! source, at the token's span.
#![tactic(auto)]

/// A run of bytes of a file: the number of the file among the program's files, the index of the first byte, both from
/// 0, and the number of bytes.
#[derive(Clone, Copy, PartialEq, Eq)]
pub struct Span {
    pub file: u32,
    pub start: u32,
    pub len: u32,
}

/// The words: the reserved ones with a meaning, behind them those that are refused wherever they stand, and last the two
/// that are names, and have a meaning in an accessor. `EOR` and `XOR` are two words with one meaning.
#[derive(Clone, Copy, Debug, PartialEq, Eq)]
pub enum Word {
    BitAnd,
    Div,
    DivRm,
    BitEor,
    False,
    In,
    Mod,
    Not,
    BitOr,
    True,
    BitXor,
    Array,
    As,
    Assert,
    Begin,
    Bit,
    Bits,
    Boolean,
    Case,
    Catch,
    Constant,
    Do,
    DownTo,
    Else,
    ElsIf,
    End,
    Enumeration,
    Exception,
    For,
    Func,
    If,
    Integer,
    Let,
    LoopLimit,
    Of,
    Otherwise,
    Pass,
    Print,
    PrintLine,
    Pure,
    ReadOnly,
    Record,
    RecurseLimit,
    Repeat,
    Return,
    Subtypes,
    Then,
    Throw,
    To,
    Try,
    TypeWord,
    Unreachable,
    Until,
    Var,
    When,
    Where,
    While,
    Accessor,
    ImpDef,
    Implementation,
    Real,
    StringWord,
    Collection,
    Pragma,
    NoReturn,
    Arbitrary,
    Config,
    Getter,
    Setter,
}

/// The marks of the language.
#[derive(Clone, Copy, Debug, PartialEq, Eq)]
pub enum Mark {
    OpenParen,
    CloseParen,
    OpenBracket,
    CloseBracket,
    OpenBrace,
    CloseBrace,
    Semicolon,
    Comma,
    Dot,
    DotDot,
    Colon,
    ColonColon,
    Assign,
    Equal,
    FatArrow,
    Bang,
    NotEqual,
    AndAnd,
    OrOr,
    Implies,
    Iff,
    Less,
    LessEqual,
    ShiftLeft,
    Greater,
    GreaterEqual,
    ShiftRight,
    Plus,
    PlusColon,
    Minus,
    Star,
    StarColon,
    Caret,
    Slash,
    Access,
}

/// What a token is.
#[derive(Clone, Copy, Debug, PartialEq, Eq)]
pub enum TokenKind {
    /// A name.
    Name,
    /// An integer literal, with its value, below 2^127 in every token of a text.
    Int(u128),
    /// A bitvector literal; its span includes the quotes.
    Bits,
    /// A mask; its span includes the quotes.
    Mask,
    /// A string; its span includes the quotes.
    Text,
    Word(Word),
    Mark(Mark),
}

/// A token, and where it stands.
#[derive(Clone, Copy, PartialEq, Eq)]
pub struct Token {
    pub kind: TokenKind,
    pub span: Span,
}
