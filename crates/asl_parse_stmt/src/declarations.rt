//! Declarations.

ghost use Rattle.std.specs.Prelude.{◌≡◌};
ghost use Rattle.asl_grammar.specs.grammar.Build as build;
ghost use Rattle.asl_grammar.specs.grammar.Rules as rules;
ghost use Rattle.asl_parse_expr.specs.private.Code.{cursor_of, Met, reading};
ghost use Rattle.asl_parse_stmt.specs.private.Heads as heads;

use crate::binders::{maybe_value, value};
use crate::firsts::{BODY_WORD, DECLARATION, FIXED_STORAGE, FUNCTION, WRITTEN_QUALIFIER};
use crate::formals::{formal, formals, maybe_params, members};
use crate::labels::{labels, supertype};
use crate::statements::block;
use asl_grammar::error::ParseError;
use asl_grammar::kinds::Kind;
use asl_grammar::parts::Bodied;
use asl_parse_expr::expressions::expression;
use asl_parse_expr::firsts::TYPE_EXPRESSION;
use asl_parse_expr::names::name;
use asl_parse_expr::tokens::Tokens;
use asl_parse_expr::types::{type_expression, typed};
use asl_shared::Held;
use asl_syn::read::{Accessor, BodyWord, ReadDecl, ReadFunc, ReadStmt};
use asl_syn::token::Span;
use asl_syn::tree::{
    Expr, Formal, Ident, Param, Qualifier, StorageDecl, StorageKind, TypeDecl, TypeDef, TypeExpr,
};
use sqlite_items::Items;
use std::alloc::Global;

#[tactic(auto, unfolding(asl_grammar::specs::grammar::Rules::record_type))]
fn record_type(alloc: Global, tokens: &mut Tokens<'_>, depth: usize) -> Result<TypeDef, ParseError>
    ensures { Met (reading depth rules.record_type (cursor_of tokens.old)) result (cursor_of tokens.new) }
{
    let from = tokens.ahead();
    tokens.take(Kind::Record)?;
    let fields = members(alloc, tokens, depth)?;
    Ok(TypeDef::Record(tokens.since(from), fields))
}

#[tactic(auto, unfolding(asl_grammar::specs::grammar::Rules::exception_type))]
fn exception_type(
    alloc: Global,
    tokens: &mut Tokens<'_>,
    depth: usize,
) -> Result<TypeDef, ParseError>
    ensures { Met (reading depth rules.exception_type (cursor_of tokens.old)) result (cursor_of tokens.new) }
{
    let from = tokens.ahead();
    tokens.take(Kind::Exception)?;
    let fields = members(alloc, tokens, depth)?;
    Ok(TypeDef::Exception(tokens.since(from), fields))
}

fn type_definition(
    alloc: Global,
    tokens: &mut Tokens<'_>,
    depth: usize,
) -> Result<TypeDef, ParseError>
    ensures { Met (reading depth rules.type_definition (cursor_of tokens.old)) result (cursor_of tokens.new) }
{
    if tokens.starts(&TYPE_EXPRESSION) {
        Ok(TypeDef::Alias(type_expression(alloc, tokens, depth)?))
    } else if tokens.starts(&[Kind::Enumeration]) {
        labels(alloc, tokens, depth)
    } else if tokens.starts(&[Kind::Record]) {
        record_type(alloc, tokens, depth)
    } else {
        exception_type(alloc, tokens, depth)
    }
}

#[tactic(auto, unfolding(asl_grammar::specs::grammar::Rules::type_decl))]
fn type_decl(alloc: Global, tokens: &mut Tokens<'_>, depth: usize) -> Result<ReadDecl, ParseError>
    ensures { Met (reading depth rules.type_decl (cursor_of tokens.old)) result (cursor_of tokens.new) }
{
    let from = tokens.ahead();
    tokens.take(Kind::TypeWord)?;
    let name = name(alloc, tokens, depth)?;
    tokens.take(Kind::Of)?;
    let def = Held::new(type_definition(alloc, tokens, depth)?);
    let supertype = supertype(alloc, tokens, depth)?;
    tokens.take(Kind::Semicolon)?;
    Ok(ReadDecl::Type(TypeDecl {
        span: tokens.since(from),
        name,
        def: def.into_inner(),
        supertype,
    }))
}

fn fixed_kind(tokens: &mut Tokens<'_>, depth: usize) -> Result<StorageKind, ParseError>
    ensures { Met (reading depth rules.fixed_kind (cursor_of tokens.old)) result (cursor_of tokens.new) }
{
    if tokens.starts(&[Kind::Constant]) {
        tokens.take(Kind::Constant)?;
        Ok(StorageKind::Constant)
    } else {
        tokens.take(Kind::Let)?;
        Ok(StorageKind::Let)
    }
}

/// `constant` or `let`
#[tactic(auto, unfolding(asl_grammar::specs::grammar::Rules::fixed_storage))]
fn fixed_storage(
    alloc: Global,
    tokens: &mut Tokens<'_>,
    depth: usize,
) -> Result<ReadDecl, ParseError>
    ensures { Met (reading depth rules.fixed_storage (cursor_of tokens.old)) result (cursor_of tokens.new) }
{
    let from = tokens.ahead();
    let kind = fixed_kind(tokens, depth)?;
    let name = name(alloc, tokens, depth)?;
    let ty = Held::new(typed(alloc, tokens, depth)?);
    let init = value(alloc, tokens, depth)?;
    Ok(ReadDecl::Storage(StorageDecl {
        span: tokens.since(from),
        kind,
        name,
        ty: ty.into_inner(),
        init: Some(init),
    }))
}

#[tactic(auto, unfolding(asl_grammar::specs::grammar::Rules::typed_var))]
fn global_rest(
    alloc: Global,
    tokens: &mut Tokens<'_>,
    depth: usize,
) -> Result<(Option<TypeExpr>, Option<Expr>), ParseError>
    ensures { Met (reading depth rules.global_rest (cursor_of tokens.old)) result (cursor_of tokens.new) }
{
    if tokens.starts(&[Kind::Colon]) {
        tokens.take(Kind::Colon)?;
        let ty = Held::new(type_expression(alloc, tokens, depth)?);
        let init = maybe_value(alloc, tokens, depth)?;
        Ok((Some(ty.into_inner()), init))
    } else {
        let init = value(alloc, tokens, depth)?;
        Ok((None, Some(init)))
    }
}

/// `var`
#[tactic(auto, unfolding(asl_grammar::specs::grammar::Rules::global_var))]
fn global_var(alloc: Global, tokens: &mut Tokens<'_>, depth: usize) -> Result<ReadDecl, ParseError>
    ensures { Met (reading depth rules.global_var (cursor_of tokens.old)) result (cursor_of tokens.new) }
{
    let from = tokens.ahead();
    tokens.take(Kind::Var)?;
    let name = name(alloc, tokens, depth)?;
    let (ty, init) = global_rest(alloc, tokens, depth)?;
    Ok(ReadDecl::Storage(StorageDecl {
        span: tokens.since(from),
        kind: StorageKind::Var,
        name,
        ty,
        init,
    }))
}

fn result_type(
    alloc: Global,
    tokens: &mut Tokens<'_>,
    depth: usize,
) -> Result<Option<TypeExpr>, ParseError>
    ensures { Met (reading depth rules.result_type (cursor_of tokens.old)) result (cursor_of tokens.new) }
{
    if !tokens.starts(&[Kind::FatArrow]) {
        return Ok(None);
    }
    tokens.take(Kind::FatArrow)?;
    Ok(Some(type_expression(alloc, tokens, depth)?))
}

fn recursion_limit(
    alloc: Global,
    tokens: &mut Tokens<'_>,
    depth: usize,
) -> Result<Option<Expr>, ParseError>
    ensures { Met (reading depth rules.recursion_limit (cursor_of tokens.old)) result (cursor_of tokens.new) }
{
    if !tokens.starts(&[Kind::RecurseLimit]) {
        return Ok(None);
    }
    tokens.take(Kind::RecurseLimit)?;
    Ok(Some(expression(alloc, tokens, depth)?))
}

fn written_qualifier(tokens: &mut Tokens<'_>, depth: usize) -> Result<Qualifier, ParseError>
    ensures { Met (reading depth rules.written_qualifier (cursor_of tokens.old)) result (cursor_of tokens.new) }
{
    if tokens.starts(&[Kind::Pure]) {
        tokens.take(Kind::Pure)?;
        Ok(Qualifier::Pure)
    } else {
        tokens.take(Kind::ReadOnly)?;
        Ok(Qualifier::Readonly)
    }
}

fn qualifier(tokens: &mut Tokens<'_>, depth: usize) -> Result<Qualifier, ParseError>
    ensures { Met (reading depth rules.qualifier (cursor_of tokens.old)) result (cursor_of tokens.new) }
{
    if !tokens.starts(&WRITTEN_QUALIFIER) {
        return Ok(Qualifier::Unqualified);
    }
    written_qualifier(tokens, depth)
}

/// A subprogram up to its result.
#[tactic(auto, unfolding(crate::specs::private::Heads::function_head))]
fn function_head(
    alloc: Global,
    tokens: &mut Tokens<'_>,
    depth: usize,
) -> Result<
    (
        Qualifier,
        Ident,
        Items<Param>,
        Items<Formal>,
        Option<TypeExpr>,
    ),
    ParseError,
>
    ensures { Met (heads.function_head depth (cursor_of tokens.old)) result (cursor_of tokens.new) }
{
    let qualifier = qualifier(tokens, depth)?;
    tokens.take(Kind::Func)?;
    let name = name(alloc, tokens, depth)?;
    let params = maybe_params(alloc, tokens, depth)?;
    let formals = formals(alloc, tokens, depth)?;
    let result = result_type(alloc, tokens, depth)?;
    Ok((qualifier, name, params, formals, result))
}

/// A function or a procedure, behind the word of its body.
fn function(alloc: Global, tokens: &mut Tokens<'_>, depth: usize) -> Result<Bodied, ParseError>
    ensures { Met (reading depth rules.function (cursor_of tokens.old)) result (cursor_of tokens.new) }
{
    let (qualifier, name, params, formals, result) = function_head(alloc, tokens, depth)?;
    let result = Held::new(result);
    let limit = Held::new(recursion_limit(alloc, tokens, depth)?);
    tokens.take(Kind::Begin)?;
    let body = block(alloc, tokens, depth)?;
    tokens.take(Kind::End)?;
    tokens.take(Kind::Semicolon)?;
    Ok(Bodied::Subprogram(
        qualifier,
        name,
        params,
        formals,
        result.into_inner(),
        limit.into_inner(),
        body,
    ))
}

#[tactic(auto, unfolding(asl_grammar::specs::grammar::Rules::getter))]
fn getter(
    alloc: Global,
    tokens: &mut Tokens<'_>,
    depth: usize,
) -> Result<(Qualifier, Items<ReadStmt>), ParseError>
    ensures { Met (reading depth rules.getter (cursor_of tokens.old)) result (cursor_of tokens.new) }
{
    let qualifier = qualifier(tokens, depth)?;
    tokens.take(Kind::Getter)?;
    let body = block(alloc, tokens, depth)?;
    tokens.take(Kind::End)?;
    tokens.take(Kind::Semicolon)?;
    Ok((qualifier, body))
}

#[tactic(auto, unfolding(asl_grammar::specs::grammar::Rules::setter))]
fn setter(
    alloc: Global,
    tokens: &mut Tokens<'_>,
    depth: usize,
) -> Result<Items<ReadStmt>, ParseError>
    ensures { Met (reading depth rules.setter (cursor_of tokens.old)) result (cursor_of tokens.new) }
{
    tokens.take(Kind::Setter)?;
    let body = block(alloc, tokens, depth)?;
    tokens.take(Kind::End)?;
    tokens.take(Kind::Semicolon)?;
    Ok(body)
}

/// An accessor up to its value.
#[tactic(auto, unfolding(crate::specs::private::Heads::accessor_head))]
fn accessor_head(
    alloc: Global,
    tokens: &mut Tokens<'_>,
    depth: usize,
) -> Result<(Ident, Items<Param>, Items<Formal>, Formal), ParseError>
    ensures { Met (heads.accessor_head depth (cursor_of tokens.old)) result (cursor_of tokens.new) }
{
    tokens.take(Kind::Accessor)?;
    let name = name(alloc, tokens, depth)?;
    let params = maybe_params(alloc, tokens, depth)?;
    let formals = formals(alloc, tokens, depth)?;
    tokens.take(Kind::Access)?;
    let value = formal(alloc, tokens, depth)?;
    Ok((name, params, formals, value))
}

/// An accessor, behind the word of its bodies.
fn accessor(alloc: Global, tokens: &mut Tokens<'_>, depth: usize) -> Result<Bodied, ParseError>
    ensures { Met (reading depth rules.accessor (cursor_of tokens.old)) result (cursor_of tokens.new) }
{
    let (name, params, formals, value) = accessor_head(alloc, tokens, depth)?;
    tokens.take(Kind::Begin)?;
    let (qualifier, getter) = getter(alloc, tokens, depth)?;
    let setter = setter(alloc, tokens, depth)?;
    tokens.take(Kind::End)?;
    tokens.take(Kind::Semicolon)?;
    Ok(Bodied::Accessor(name, params, formals, value, qualifier, getter, setter))
}

fn body_word(tokens: &mut Tokens<'_>, depth: usize) -> Result<BodyWord, ParseError>
    ensures { Met (reading depth rules.body_word (cursor_of tokens.old)) result (cursor_of tokens.new) }
{
    if tokens.starts(&[Kind::ImpDef]) {
        tokens.take(Kind::ImpDef)?;
        Ok(BodyWord::ImpDef)
    } else {
        tokens.take(Kind::Implementation)?;
        Ok(BodyWord::Implementation)
    }
}

fn maybe_body_word(tokens: &mut Tokens<'_>, depth: usize) -> Result<BodyWord, ParseError>
    ensures { Met (reading depth rules.maybe_body_word (cursor_of tokens.old)) result (cursor_of tokens.new) }
{
    if !tokens.starts(&BODY_WORD) {
        return Ok(BodyWord::NoWord);
    }
    body_word(tokens, depth)
}

fn behind_word(alloc: Global, tokens: &mut Tokens<'_>, depth: usize) -> Result<Bodied, ParseError>
    ensures { Met (reading depth rules.behind_word (cursor_of tokens.old)) result (cursor_of tokens.new) }
{
    if tokens.starts(&FUNCTION) {
        function(alloc, tokens, depth)
    } else {
        accessor(alloc, tokens, depth)
    }
}

fn bodied_of(span: Span, word: BodyWord, found: Bodied) -> ReadDecl
    ensures { result ≡ build.bodied_of span word found }
{
    match found {
        Bodied::Subprogram(qualifier, name, params, formals, result, limit, body) => {
            ReadDecl::Func(ReadFunc {
                span,
                word,
                qualifier,
                name,
                params,
                formals,
                result,
                limit,
                body,
            })
        }
        Bodied::Accessor(name, params, formals, value, qualifier, getter, setter) => {
            ReadDecl::Accessor(Accessor {
                span,
                word,
                name,
                params,
                formals,
                value,
                qualifier,
                getter,
                setter,
            })
        }
    }
}

/// A subprogram or an accessor.
#[tactic(auto, unfolding(asl_grammar::specs::grammar::Rules::bodied))]
fn bodied(alloc: Global, tokens: &mut Tokens<'_>, depth: usize) -> Result<ReadDecl, ParseError>
    ensures { Met (reading depth rules.bodied (cursor_of tokens.old)) result (cursor_of tokens.new) }
{
    let from = tokens.ahead();
    let word = maybe_body_word(tokens, depth)?;
    let found = behind_word(alloc, tokens, depth)?;
    Ok(bodied_of(tokens.since(from), word, found))
}

fn declaration(alloc: Global, tokens: &mut Tokens<'_>, depth: usize) -> Result<ReadDecl, ParseError>
    ensures { Met (reading depth rules.declaration (cursor_of tokens.old)) result (cursor_of tokens.new) }
{
    if tokens.starts(&[Kind::TypeWord]) {
        type_decl(alloc, tokens, depth)
    } else if tokens.starts(&FIXED_STORAGE) {
        fixed_storage(alloc, tokens, depth)
    } else if tokens.starts(&[Kind::Var]) {
        global_var(alloc, tokens, depth)
    } else {
        bodied(alloc, tokens, depth)
    }
}

/// The declarations of a file, as many as there are.
#[tactic(auto, using(crate::proofs::Steps::program_is))]
pub fn program(
    alloc: Global,
    tokens: &mut Tokens<'_>,
    depth: usize,
) -> Result<Items<ReadDecl>, ParseError>
    ensures { Met (reading depth rules.program (cursor_of tokens.old)) result (cursor_of tokens.new) }
{
    let mut found = Items::new(alloc);
    for _turn in 0..tokens.len() {
        if !tokens.starts(&DECLARATION) {
            return Ok(found);
        }
        found.push(declaration(alloc, tokens, depth)?)?;
    }
    Ok(found)
}
