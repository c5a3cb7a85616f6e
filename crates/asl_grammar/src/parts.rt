//! Parts of trees that only the grammar knows: what was read behind a name, before it is known what it belongs to.
#![tactic(auto)]

use asl_syn::read::ReadStmt;
use asl_syn::tree::{Bind, Expr, FieldValue, Formal, Ident, Param, Qualifier, TypeExpr};
use sqlite_items::Items;

/// What stands in braces behind a name.
#[derive(Drop)]
pub enum Braces {
    /// `{}`
    Empty,
    /// `{-}`, or the fields of a construction.
    Fields(Items<FieldValue>),
    /// Parameters.
    Parameters(Items<Expr>),
}

/// What stands behind a name that isn't alone.
#[derive(Drop)]
pub enum AfterName {
    /// The fields of a construction.
    Built(Items<FieldValue>),
    /// The parameters that are given, and the arguments.
    Called(Items<Expr>, Items<Expr>),
}

/// What stands between `var` and the end of the statement.
#[derive(Drop)]
pub enum VarTail {
    /// Names of one type.
    Declared(Items<Ident>, TypeExpr),
    /// What is declared, with its type and its initial value.
    Initialised(Bind, Option<TypeExpr>, Expr),
}

/// A declaration with a body, behind its word.
#[derive(Drop)]
pub enum Bodied {
    /// `func f{N}(x: T) => T recurselimit e begin .. end;`
    Subprogram(
        Qualifier,
        Ident,
        Items<Param>,
        Items<Formal>,
        Option<TypeExpr>,
        Option<Expr>,
        Items<ReadStmt>,
    ),
    /// `accessor f{N}(x: T) <=> v: T begin getter .. end; setter .. end; end;`, with the qualifier of the getter.
    Accessor(
        Ident,
        Items<Param>,
        Items<Formal>,
        Formal,
        Qualifier,
        Items<ReadStmt>,
        Items<ReadStmt>,
    ),
}

/// How a slice with two expressions is written.
#[derive(Clone, Copy, PartialEq, Eq)]
pub enum SliceForm {
    /// `high:low`
    HighLow,
    /// `low+:width`
    LowWidth,
    /// `factor*:width`
    FactorWidth,
}
