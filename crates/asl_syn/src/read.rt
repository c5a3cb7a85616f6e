//! The trees of a text as it is read. They are larger than those that the rules judge: an accessor, and a statement that
//! stores through one, are written out before anything is judged, and so is the body that stands for another.
//!
//! Only the statements that hold others, and the declarations with bodies, have forms of their own here; all that
//! stands in them is as in [`crate::tree`].
#![tactic(auto)]

use crate::token::Span;
use crate::tree::{
    Direction, Expr, Formal, Ident, Param, Pattern, PlacedSuffix, Qualifier, Stmt, StorageDecl,
    TypeDecl, TypeExpr,
};
use sqlite_items::Items;

/// A statement as it is read.
#[cycle(read_statements)]
#[derive(Drop)]
pub enum ReadStmt {
    /// A statement that holds no other, and stores through no accessor.
    Simple(Stmt),
    /// `f{p}(e) suffixes = e;`: the name, the parameters that are given, the arguments, the suffixes and what is stored.
    Store(Span, Ident, Items<Expr>, Items<Expr>, Items<PlacedSuffix>, Expr),
    /// `if e then .. elsif e then .. else .. end;`, the last list empty where there is no `else`.
    If(Span, Expr, Items<ReadStmt>, Items<ReadElseIf>, Items<ReadStmt>),
    /// `case e of .. end;`
    Case(Span, Expr, Items<ReadAlternative>, ReadOtherwise),
    /// `for x = e to e looplimit e do .. end;`
    For(Span, Ident, Expr, Direction, Expr, Option<Expr>, Items<ReadStmt>),
    /// `while e looplimit e do .. end;`
    While(Span, Expr, Option<Expr>, Items<ReadStmt>),
    /// `repeat .. until e looplimit e;`
    Repeat(Span, Items<ReadStmt>, Expr, Option<Expr>),
    /// `try .. catch .. end;`
    Try(Span, Items<ReadStmt>, Items<ReadCatcher>, ReadOtherwise),
}

/// `elsif e then ..`
#[cycle(read_statements)]
#[derive(Drop)]
pub enum ReadElseIf {
    ElseIf(Expr, Items<ReadStmt>),
}

/// `when p, p where e => ..`
#[cycle(read_statements)]
#[derive(Drop)]
pub enum ReadAlternative {
    When(Items<Pattern>, Option<Expr>, Items<ReadStmt>),
}

/// What a `case` or a `try` does otherwise.
#[cycle(read_statements)]
#[derive(Drop)]
pub enum ReadOtherwise {
    NoOtherwise,
    /// `otherwise => ..`
    Otherwise(Items<ReadStmt>),
}

/// `when e: T => ..` or `when T => ..`
#[cycle(read_statements)]
#[derive(Drop)]
pub enum ReadCatcher {
    Catch(Option<Ident>, Ident, Items<ReadStmt>),
}

/// Whether a body may be replaced, or replaces another.
#[derive(Clone, Copy, PartialEq, Eq)]
pub enum BodyWord {
    NoWord,
    /// `impdef`
    ImpDef,
    /// `implementation`
    Implementation,
}

/// A subprogram as it is read.
pub struct ReadFunc {
    pub span: Span,
    pub word: BodyWord,
    pub qualifier: Qualifier,
    pub name: Ident,
    pub params: Items<Param>,
    pub formals: Items<Formal>,
    pub result: Option<TypeExpr>,
    pub limit: Option<Expr>,
    pub body: Items<ReadStmt>,
}

impl Drop for ReadFunc {
    fn drop(self) {
        let ReadFunc {
            span: _span,
            word: _word,
            qualifier: _qualifier,
            name: _name,
            params: _params,
            formals: _formals,
            result,
            limit,
            body: _body,
        } = self;
        drop(result);
        drop(limit);
    }
}

impl ReadFunc {
    ghost use Rattle.std.specs.Prelude.{◌≡◌};

    /// Its name, parameters, formals, result, limit and body.
    pub fn into_parts(
        self,
    ) -> (
        Ident,
        Items<Param>,
        Items<Formal>,
        Option<TypeExpr>,
        Option<Expr>,
        Items<ReadStmt>,
    )
        ensures { result ≡ (self.name, self.params, self.formals, self.result, self.limit, self.body) }
    {
        let ReadFunc {
            span: _span,
            word: _word,
            qualifier: _qualifier,
            name,
            params,
            formals,
            result,
            limit,
            body,
        } = self;
        (name, params, formals, result, limit, body)
    }
}

/// `accessor f{N}(x: T) <=> v: T begin getter .. end; setter .. end; end;`, with the qualifier of the getter.
pub struct Accessor {
    pub span: Span,
    pub word: BodyWord,
    pub name: Ident,
    pub params: Items<Param>,
    pub formals: Items<Formal>,
    pub value: Formal,
    pub qualifier: Qualifier,
    pub getter: Items<ReadStmt>,
    pub setter: Items<ReadStmt>,
}

impl Drop for Accessor {
    fn drop(self) {
        let Accessor {
            span: _span,
            word: _word,
            name: _name,
            params: _params,
            formals: _formals,
            value,
            qualifier: _qualifier,
            getter: _getter,
            setter: _setter,
        } = self;
        drop(value);
    }
}

impl Accessor {
    ghost use Rattle.std.specs.Prelude.{◌≡◌};

    /// Its name, parameters, formals and value, and the bodies of the getter and the setter.
    pub fn into_parts(
        self,
    ) -> (
        Ident,
        Items<Param>,
        Items<Formal>,
        Formal,
        Items<ReadStmt>,
        Items<ReadStmt>,
    )
        ensures { result ≡ (self.name, self.params, self.formals, self.value, self.getter, self.setter) }
    {
        let Accessor {
            span: _span,
            word: _word,
            name,
            params,
            formals,
            value,
            qualifier: _qualifier,
            getter,
            setter,
        } = self;
        (name, params, formals, value, getter, setter)
    }
}

/// A declaration as it is read.
#[derive(Drop)]
pub enum ReadDecl {
    Type(TypeDecl),
    Storage(StorageDecl),
    Func(ReadFunc),
    Accessor(Accessor),
}

/// A program as it is read: the declarations of all its files, in the order of the files and within each as they are
/// written.
pub struct ReadProgram {
    pub decls: Items<ReadDecl>,
}

impl Drop for ReadProgram {
    fn drop(self) {
        let ReadProgram { decls: _decls } = self;
    }
}

impl ReadProgram {
    ghost use Rattle.std.specs.Prelude.{◌≡◌};

    /// Its declarations.
    pub fn into_decls(self) -> Items<ReadDecl>
        ensures { result ≡ self.decls }
    {
        let ReadProgram { decls } = self;
        decls
    }
}
