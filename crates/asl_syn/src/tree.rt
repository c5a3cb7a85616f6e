//! The trees of a program. A name or a literal owns its text.
//!
//! An expression, a statement, a type, a pattern, a target, a name and a declaration has its span as its first field:
//! from its first lexeme to its last, without parentheses that stand directly round it. What is only a part of one
//! of these (`FieldValue`, `Slice`, `ConstraintPart`, `Bitfield`, `ElseIf`, `Alternative`, `Otherwise`, `Catcher`,
//! `Formal`, `Param`) has no span of its own: no fault is reported at it.
//!
//! A program, a declaration and a formal have a `Drop` of their own. So letting one go is a call, wherever it is alive at a
//! `?`; else a case for each form that may lie in it would be written out there.
#![tactic(auto)]

use crate::token::Span;
use sqlite_items::{Boxed, Items};

/// The bytes of a name or of a literal. Contracts see them as a list.
pub type Text = Items<u8>;

/// A name where it stands.
#[derive(Drop)]
pub struct Ident {
    pub span: Span,
    pub text: Text,
}

/// The operators with one operand.
#[derive(Clone, Copy, PartialEq, Eq)]
pub enum UnaryOperator {
    /// `-` of an integer.
    Negate,
    /// `!` of a boolean.
    Not,
    /// `NOT` of bits.
    Complement,
}

/// The operators with two operands.
#[derive(Clone, Copy, PartialEq, Eq)]
pub enum BinaryOperator {
    /// `&&`
    LogicalAnd,
    /// `||`
    LogicalOr,
    /// `-->`
    Implies,
    /// `<->`
    Equivalent,
    /// `==`
    Equal,
    /// `!=`
    NotEqual,
    /// `<`
    Less,
    /// `<=`
    LessEqual,
    /// `>`
    Greater,
    /// `>=`
    GreaterEqual,
    /// `+`
    Add,
    /// `-`
    Subtract,
    /// `AND`
    BitAnd,
    /// `OR`
    BitOr,
    /// `XOR` or `EOR`
    BitXor,
    /// `::`
    Concatenate,
    /// `*`
    Multiply,
    /// `DIV`
    DivideExact,
    /// `DIVRM`
    DivideFloor,
    /// `MOD`
    Modulo,
    /// `<<`
    ShiftLeft,
    /// `>>`
    ShiftRight,
    /// `^`
    Power,
}

/// An expression.
#[cycle(syntax)]
#[derive(Drop)]
pub enum Expr {
    /// An integer literal with its value.
    Int(Span, u128),
    /// A bitvector literal, its text with the quotes.
    Bits(Span, Text),
    /// `TRUE` or `FALSE`.
    Bool(Span, bool),
    /// A name.
    Name(Span, Text),
    /// `op e`
    Unary(Span, UnaryOperator, Boxed<Expr>),
    /// `e op e`
    Binary(Span, BinaryOperator, Boxed<Expr>, Boxed<Expr>),
    /// `if e then e else e`
    Conditional(Span, Boxed<Expr>, Boxed<Expr>, Boxed<Expr>),
    /// `(e, e)`, of two parts or more.
    Tuple(Span, Items<Expr>),
    /// `R{f = e}`
    Construct(Span, Ident, Items<FieldValue>),
    /// `f{p}(e)`: the name, the parameters that are given and the arguments.
    Call(Span, Ident, Items<Expr>, Items<Expr>),
    /// `e.f`
    Field(Span, Boxed<Expr>, Ident),
    /// `e.[f, g]`
    Fields(Span, Boxed<Expr>, Items<Ident>),
    /// `e[slices]`
    Slices(Span, Boxed<Expr>, Items<Slice>),
    /// `e[[i]]`
    Element(Span, Boxed<Expr>, Boxed<Expr>),
    /// `e as T`
    As(Span, Boxed<Expr>, Boxed<TypeExpr>),
    /// `e IN p`
    In(Span, Boxed<Expr>, Boxed<Pattern>),
}

/// A field of a construction.
#[cycle(syntax)]
#[derive(Drop)]
pub enum FieldValue {
    /// `f = e`
    Given(Ident, Expr),
}

/// A slice of bits or of an integer.
#[cycle(syntax)]
#[derive(Drop)]
pub enum Slice {
    /// `index`
    BitAt(Expr),
    /// `high:low`
    HighLow(Expr, Expr),
    /// `low +: width`
    LowWidth(Expr, Expr),
    /// `factor *: width`
    FactorWidth(Expr, Expr),
}

/// A type as it is written.
#[cycle(syntax)]
#[derive(Drop)]
pub enum TypeExpr {
    /// `integer`, with the parts of its constraint: unconstrained where there are none.
    IntegerType(Span, Items<ConstraintPart>),
    /// `boolean`
    BooleanType(Span),
    /// `bit`
    BitType(Span),
    /// A name.
    NamedType(Span, Text),
    /// `bits(w)`, with its bitfields.
    BitsType(Span, Boxed<Expr>, Items<Bitfield>),
    /// `(T, T)`, of two parts or more.
    TupleType(Span, Items<TypeExpr>),
    /// `array [[n]] of T`
    ArrayType(Span, Boxed<Expr>, Boxed<TypeExpr>),
}

/// A part of a constraint.
#[cycle(syntax)]
#[derive(Drop)]
pub enum ConstraintPart {
    /// `e`
    Only(Expr),
    /// `low..high`
    FromTo(Expr, Expr),
}

/// A bitfield of a type of bits.
#[cycle(syntax)]
#[derive(Drop)]
pub enum Bitfield {
    /// `[index] f`
    OneBit(Expr, Ident),
    /// `[high:low] f`
    BitRange(Expr, Expr, Ident),
}

/// A pattern.
#[cycle(syntax)]
#[derive(Drop)]
pub enum Pattern {
    /// `-`
    AnyPattern(Span),
    /// `{p, p}`, or `!{p, p}` where it is negated.
    SetPattern(Span, bool, Items<Pattern>),
    /// A mask, its text with the quotes.
    MaskPattern(Span, Text),
    /// `<= e`
    AtMost(Span, Expr),
    /// `>= e`
    AtLeast(Span, Expr),
    /// `(p, p)`, of two parts or more.
    TuplePattern(Span, Items<Pattern>),
    /// `e`
    ValuePattern(Span, Expr),
    /// `low..high`
    RangePattern(Span, Expr, Expr),
}

/// What may follow the name of a target.
#[derive(Drop)]
pub enum Suffix {
    /// `.f`
    FieldOf(Ident),
    /// `.[f, g]`
    FieldsOf(Items<Ident>),
    /// `[slices]`
    SlicesOf(Items<Slice>),
    /// `[[i]]`
    ElementOf(Expr),
}

/// A suffix, and the index in the file of the first byte behind it.
#[derive(Drop)]
pub struct PlacedSuffix {
    pub end: u32,
    pub suffix: Suffix,
}

/// The left side of an assignment.
#[cycle(target)]
#[derive(Drop)]
pub enum Target {
    /// `-`
    Discarded(Span),
    /// A name with its suffixes.
    Place(Span, Ident, Items<PlacedSuffix>),
    /// `(target, target)`, of two parts or more.
    Targets(Span, Items<Target>),
}

/// One name of a declaration, or `-`.
#[derive(Drop)]
pub enum Binder {
    Bound(Ident),
    Unbound(Span),
}

/// The names that a local declaration declares.
#[derive(Drop)]
pub enum Bind {
    Single(Binder),
    /// `(a, b)`, of two parts or more.
    Several(Span, Items<Binder>),
}

/// Whether what a local declaration declares can be assigned.
#[derive(Clone, Copy, PartialEq, Eq)]
pub enum LocalKind {
    Let,
    Var,
}

/// Which way a `for` counts.
#[derive(Clone, Copy, PartialEq, Eq)]
pub enum Direction {
    Up,
    Down,
}

/// Whether a line feed follows what is printed.
#[derive(Clone, Copy, PartialEq, Eq)]
pub enum PrintKind {
    Print,
    PrintLine,
}

/// One thing that is printed.
#[derive(Drop)]
pub enum PrintItem {
    /// A string, its text with the quotes.
    Verbatim(Span, Text),
    Shown(Expr),
}

/// A statement.
#[cycle(statements)]
#[derive(Drop)]
pub enum Stmt {
    /// `pass;`
    Pass(Span),
    /// `unreachable;`
    Unreachable(Span),
    /// `assert e;`
    Assert(Span, Expr),
    /// `print(..);` or `println(..);`
    Print(Span, PrintKind, Items<PrintItem>),
    /// `let` or `var` with an initialiser.
    Local(Span, LocalKind, Bind, Option<TypeExpr>, Expr),
    /// `var x, y: T;`
    LocalVars(Span, Items<Ident>, TypeExpr),
    /// `target = e;`
    Assign(Span, Target, Expr),
    /// `f{p}(e);`
    Invoke(Span, Ident, Items<Expr>, Items<Expr>),
    /// `if e then .. elsif e then .. else .. end;`, the last list empty where there is no `else`.
    If(Span, Expr, Items<Stmt>, Items<ElseIf>, Items<Stmt>),
    /// `case e of .. end;`
    Case(Span, Expr, Items<Alternative>, Otherwise),
    /// `for x = e to e looplimit e do .. end;`
    For(Span, Ident, Expr, Direction, Expr, Option<Expr>, Items<Stmt>),
    /// `while e looplimit e do .. end;`
    While(Span, Expr, Option<Expr>, Items<Stmt>),
    /// `repeat .. until e looplimit e;`
    Repeat(Span, Items<Stmt>, Expr, Option<Expr>),
    /// `return e;` or `return;`
    Return(Span, Option<Expr>),
    /// `throw e;` or `throw;`
    Throw(Span, Option<Expr>),
    /// `try .. catch .. end;`
    Try(Span, Items<Stmt>, Items<Catcher>, Otherwise),
}

/// `elsif e then ..`
#[cycle(statements)]
#[derive(Drop)]
pub enum ElseIf {
    ElseIf(Expr, Items<Stmt>),
}

/// `when p, p where e => ..`
#[cycle(statements)]
#[derive(Drop)]
pub enum Alternative {
    When(Items<Pattern>, Option<Expr>, Items<Stmt>),
}

/// What a `case` or a `try` does otherwise.
#[cycle(statements)]
#[derive(Drop)]
pub enum Otherwise {
    NoOtherwise,
    /// `otherwise => ..`
    Otherwise(Items<Stmt>),
}

/// `when e: T => ..` or `when T => ..`
#[cycle(statements)]
#[derive(Drop)]
pub enum Catcher {
    Catch(Option<Ident>, Ident, Items<Stmt>),
}

/// A formal argument of a subprogram, or a field of a record or an exception.
pub struct Formal {
    pub name: Ident,
    pub ty: TypeExpr,
}

impl Drop for Formal {
    fn drop(self) {
        let Formal { name: _name, ty } = self;
        drop(ty);
    }
}

/// A parameter of a subprogram.
pub struct Param {
    pub name: Ident,
    pub ty: Option<TypeExpr>,
}

impl Drop for Param {
    fn drop(self) {
        let Param { name: _name, ty } = self;
        drop(ty);
    }
}

/// What a type declaration defines.
#[derive(Drop)]
pub enum TypeDef {
    Alias(TypeExpr),
    Labels(Span, Items<Ident>),
    Record(Span, Items<Formal>),
    Exception(Span, Items<Formal>),
}

/// The kinds of global storage.
#[derive(Clone, Copy, PartialEq, Eq)]
pub enum StorageKind {
    Constant,
    Let,
    Var,
}

/// The qualifier of a subprogram.
#[derive(Clone, Copy, PartialEq, Eq)]
pub enum Qualifier {
    Unqualified,
    Pure,
    Readonly,
}

/// `type T of .. subtypes U;`
pub struct TypeDecl {
    pub span: Span,
    pub name: Ident,
    pub def: TypeDef,
    pub supertype: Option<Ident>,
}

impl Drop for TypeDecl {
    fn drop(self) {
        let TypeDecl {
            span: _span,
            name: _name,
            def,
            supertype: _supertype,
        } = self;
        drop(def);
    }
}

/// `constant`, `let` or `var` outside subprograms.
pub struct StorageDecl {
    pub span: Span,
    pub kind: StorageKind,
    pub name: Ident,
    pub ty: Option<TypeExpr>,
    pub init: Option<Expr>,
}

impl Drop for StorageDecl {
    fn drop(self) {
        let StorageDecl {
            span: _span,
            kind: _kind,
            name: _name,
            ty,
            init,
        } = self;
        drop(ty);
        drop(init);
    }
}

/// `func f{N}(x: T) => T recurselimit e begin .. end;`, a procedure where there is no result.
pub struct Func {
    pub span: Span,
    pub qualifier: Qualifier,
    pub name: Ident,
    pub params: Items<Param>,
    pub formals: Items<Formal>,
    pub result: Option<TypeExpr>,
    pub limit: Option<Expr>,
    pub body: Items<Stmt>,
}

impl Drop for Func {
    fn drop(self) {
        let Func {
            span: _span,
            qualifier: _qualifier,
            name: _name,
            params: _params,
            formals: _formals,
            result,
            limit,
            body: _body,
        } = self;
        drop(result);
        drop(limit);
    }
}

/// A declaration.
#[derive(Drop)]
pub enum Decl {
    Type(TypeDecl),
    Storage(StorageDecl),
    Func(Func),
}

/// A program: the declarations of all its files, in the order of the files and within each as they are written.
pub struct Program {
    pub decls: Items<Decl>,
}

impl Drop for Program {
    fn drop(self) {
        let Program { decls: _decls } = self;
    }
}
