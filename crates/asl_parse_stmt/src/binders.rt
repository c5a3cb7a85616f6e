//! What a local declaration declares, and its type and value.

ghost use Rattle.std.specs.Prelude.{◌≡◌, ◌∷◌, IfOk};
ghost use Rattle.asl_grammar.specs.grammar.Build as build;
ghost use Rattle.asl_grammar.specs.grammar.Rules as rules;
ghost use Rattle.asl_parse_expr.specs.private.Code.{cursor_of, Met, reading, then};

use asl_grammar::error::ParseError;
use asl_grammar::kinds::Kind;
use asl_grammar::parts::VarTail;
use asl_parse_expr::expressions::expression;
use asl_parse_expr::firsts::NAME;
use asl_parse_expr::names::{name, names};
use asl_parse_expr::tokens::Tokens;
use asl_parse_expr::types::{type_expression, typed};
use asl_shared::Held;
use asl_syn::token::Span;
use asl_syn::tree::{Bind, Binder, Expr, Ident, LocalKind, Stmt, TypeExpr};
use sqlite_items::Items;
use std::alloc::{AllocError, Global};

/// An initial or new value, to the end of the statement.
#[tactic(auto, unfolding(asl_grammar::specs::grammar::Rules::value))]
pub fn value(alloc: Global, tokens: &mut Tokens<'_>, depth: usize) -> Result<Expr, ParseError>
    ensures { Met (reading depth rules.value (cursor_of tokens.old)) result (cursor_of tokens.new) }
{
    tokens.take(Kind::Assign)?;
    let value = Held::new(expression(alloc, tokens, depth)?);
    tokens.take(Kind::Semicolon)?;
    Ok(value.into_inner())
}

/// The initial value, if there is one, to the end of the statement.
#[tactic(auto, unfolding(asl_grammar::specs::grammar::Rules::no_value))]
pub fn maybe_value(
    alloc: Global,
    tokens: &mut Tokens<'_>,
    depth: usize,
) -> Result<Option<Expr>, ParseError>
    ensures { Met (reading depth rules.maybe_value (cursor_of tokens.old)) result (cursor_of tokens.new) }
{
    if tokens.starts(&[Kind::Semicolon]) {
        tokens.take(Kind::Semicolon)?;
        return Ok(None);
    }
    Ok(Some(value(alloc, tokens, depth)?))
}

#[tactic(auto, unfolding(asl_grammar::specs::grammar::Rules::no_binder))]
fn no_binder(tokens: &mut Tokens<'_>, depth: usize) -> Result<Binder, ParseError>
    ensures { Met (reading depth rules.no_binder (cursor_of tokens.old)) result (cursor_of tokens.new) }
{
    let token = tokens.take(Kind::Minus)?;
    Ok(Binder::Unbound(token.span))
}

fn binder(alloc: Global, tokens: &mut Tokens<'_>, depth: usize) -> Result<Binder, ParseError>
    ensures { Met (reading depth rules.binder (cursor_of tokens.old)) result (cursor_of tokens.new) }
{
    if tokens.starts(&NAME) {
        Ok(Binder::Bound(name(alloc, tokens, depth)?))
    } else {
        no_binder(tokens, depth)
    }
}

#[tactic(auto, using(crate::proofs::Steps::more_binders_is))]
fn more_binders(
    alloc: Global,
    tokens: &mut Tokens<'_>,
    depth: usize,
    mut found: Items<Binder>,
) -> Result<Items<Binder>, ParseError>
    ensures { Met (then (build.behind found) (reading depth rules.more_binders (cursor_of tokens.old))) result (cursor_of tokens.new) }
{
    for _turn in 0..tokens.len() {
        if !tokens.starts(&[Kind::Comma]) {
            return Ok(found);
        }
        tokens.take(Kind::Comma)?;
        found.push(binder(alloc, tokens, depth)?)?;
    }
    Ok(found)
}

fn two_binders(
    alloc: Global,
    tokens: &mut Tokens<'_>,
    depth: usize,
) -> Result<Items<Binder>, ParseError>
    ensures { Met (reading depth rules.two_binders (cursor_of tokens.old)) result (cursor_of tokens.new) }
{
    let mut found = Items::new(alloc);
    found.push(binder(alloc, tokens, depth)?)?;
    tokens.take(Kind::Comma)?;
    found.push(binder(alloc, tokens, depth)?)?;
    more_binders(alloc, tokens, depth, found)
}

#[tactic(auto, unfolding(asl_grammar::specs::grammar::Rules::several))]
fn several(alloc: Global, tokens: &mut Tokens<'_>, depth: usize) -> Result<Bind, ParseError>
    ensures { Met (reading depth rules.several (cursor_of tokens.old)) result (cursor_of tokens.new) }
{
    let from = tokens.ahead();
    let left = tokens.left;
    tokens.open(Kind::OpenParen)?;
    let binders = two_binders(alloc, tokens, depth)?;
    tokens.take(Kind::CloseParen)?;
    tokens.left = left;
    Ok(Bind::Several(tokens.since(from), binders))
}

fn other_bind(alloc: Global, tokens: &mut Tokens<'_>, depth: usize) -> Result<Bind, ParseError>
    ensures { Met (reading depth rules.other_bind (cursor_of tokens.old)) result (cursor_of tokens.new) }
{
    if tokens.starts(&[Kind::Minus]) {
        Ok(Bind::Single(no_binder(tokens, depth)?))
    } else {
        several(alloc, tokens, depth)
    }
}

#[tactic(auto, unfolding(asl_grammar::specs::grammar::Rules::bind_name))]
fn local_bind(alloc: Global, tokens: &mut Tokens<'_>, depth: usize) -> Result<Bind, ParseError>
    ensures { Met (reading depth rules.local_bind (cursor_of tokens.old)) result (cursor_of tokens.new) }
{
    if tokens.starts(&NAME) {
        Ok(Bind::Single(Binder::Bound(name(alloc, tokens, depth)?)))
    } else {
        other_bind(alloc, tokens, depth)
    }
}

/// `let`
#[tactic(auto, unfolding(asl_grammar::specs::grammar::Rules::let_statement))]
pub fn let_statement(
    alloc: Global,
    tokens: &mut Tokens<'_>,
    depth: usize,
) -> Result<Stmt, ParseError>
    ensures { Met (reading depth rules.let_statement (cursor_of tokens.old)) result (cursor_of tokens.new) }
{
    let from = tokens.ahead();
    tokens.take(Kind::Let)?;
    let bind = local_bind(alloc, tokens, depth)?;
    let ty = Held::new(typed(alloc, tokens, depth)?);
    let init = value(alloc, tokens, depth)?;
    let ty = ty.into_inner();
    Ok(Stmt::Local(tokens.since(from), LocalKind::Let, bind, ty, init))
}

fn typed_tail(
    alloc: Global,
    first: Ident,
    ty: TypeExpr,
    init: Option<Expr>,
) -> Result<VarTail, AllocError>
    ensures { IfOk result (λ tail. tail ≡ build.var_tail_of first (build.Typed ty init)) }
{
    match init {
        None => {
            let mut names = Items::new(alloc);
            names.push(first)?;
            Ok(VarTail::Declared(names, ty))
        }
        Some(init) => Ok(VarTail::Initialised(Bind::Single(Binder::Bound(first)), Some(ty), init)),
    }
}

/// A name in front of others.
fn in_front(alloc: Global, first: Ident, others: Items<Ident>) -> Result<Items<Ident>, AllocError>
    ensures { IfOk result (λ all. all ≡ first ∷ others) }
{
    let mut all = Items::new(alloc);
    all.push(first)?;
    all.append(others)?;
    Ok(all)
}

#[tactic(auto, unfolding(asl_grammar::specs::grammar::Rules::names_typed, asl_parse_expr::specs::private::Code::then))]
fn names_typed(
    alloc: Global,
    tokens: &mut Tokens<'_>,
    depth: usize,
    first: Ident,
) -> Result<VarTail, ParseError>
    ensures { Met (then (build.var_tail_of first) (reading depth rules.names_typed (cursor_of tokens.old))) result (cursor_of tokens.new) }
{
    tokens.take(Kind::Comma)?;
    let others = names(alloc, tokens, depth)?;
    tokens.take(Kind::Colon)?;
    let ty = Held::new(type_expression(alloc, tokens, depth)?);
    tokens.take(Kind::Semicolon)?;
    Ok(VarTail::Declared(in_front(alloc, first, others)?, ty.into_inner()))
}

#[tactic(auto, unfolding(asl_grammar::specs::grammar::Rules::typed_value, asl_parse_expr::specs::private::Code::then))]
fn typed_value(
    alloc: Global,
    tokens: &mut Tokens<'_>,
    depth: usize,
    first: Ident,
) -> Result<VarTail, ParseError>
    ensures { Met (then (build.var_tail_of first) (reading depth rules.typed_value (cursor_of tokens.old))) result (cursor_of tokens.new) }
{
    tokens.take(Kind::Colon)?;
    let ty = Held::new(type_expression(alloc, tokens, depth)?);
    let init = maybe_value(alloc, tokens, depth)?;
    Ok(typed_tail(alloc, first, ty.into_inner(), init)?)
}

/// What stands behind `var` and a name.
fn var_rest(
    alloc: Global,
    tokens: &mut Tokens<'_>,
    depth: usize,
    first: Ident,
) -> Result<VarTail, ParseError>
    ensures { Met (then (build.var_tail_of first) (reading depth rules.var_rest (cursor_of tokens.old))) result (cursor_of tokens.new) }
{
    if tokens.starts(&[Kind::Comma]) {
        names_typed(alloc, tokens, depth, first)
    } else if tokens.starts(&[Kind::Colon]) {
        typed_value(alloc, tokens, depth, first)
    } else {
        let init = value(alloc, tokens, depth)?;
        Ok(VarTail::Initialised(Bind::Single(Binder::Bound(first)), None, init))
    }
}

#[tactic(auto, unfolding(asl_grammar::specs::grammar::Rules::var_names, asl_parse_expr::specs::private::Code::then))]
fn var_names(alloc: Global, tokens: &mut Tokens<'_>, depth: usize) -> Result<VarTail, ParseError>
    ensures { Met (reading depth rules.var_names (cursor_of tokens.old)) result (cursor_of tokens.new) }
{
    let first = name(alloc, tokens, depth)?;
    var_rest(alloc, tokens, depth, first)
}

#[tactic(auto, unfolding(asl_grammar::specs::grammar::Rules::var_other))]
fn var_tail(alloc: Global, tokens: &mut Tokens<'_>, depth: usize) -> Result<VarTail, ParseError>
    ensures { Met (reading depth rules.var_tail (cursor_of tokens.old)) result (cursor_of tokens.new) }
{
    if tokens.starts(&NAME) {
        return var_names(alloc, tokens, depth);
    }
    let bind = other_bind(alloc, tokens, depth)?;
    let ty = Held::new(typed(alloc, tokens, depth)?);
    let init = value(alloc, tokens, depth)?;
    Ok(VarTail::Initialised(bind, ty.into_inner(), init))
}

fn var_of(span: Span, tail: VarTail) -> Stmt
    ensures { result ≡ build.var_of span tail }
{
    match tail {
        VarTail::Declared(names, ty) => Stmt::LocalVars(span, names, ty),
        VarTail::Initialised(bind, ty, init) => Stmt::Local(span, LocalKind::Var, bind, ty, init),
    }
}

/// `var`
#[tactic(auto, unfolding(asl_grammar::specs::grammar::Rules::var_statement))]
pub fn var_statement(
    alloc: Global,
    tokens: &mut Tokens<'_>,
    depth: usize,
) -> Result<Stmt, ParseError>
    ensures { Met (reading depth rules.var_statement (cursor_of tokens.old)) result (cursor_of tokens.new) }
{
    let from = tokens.ahead();
    tokens.take(Kind::Var)?;
    let tail = var_tail(alloc, tokens, depth)?;
    Ok(var_of(tokens.since(from), tail))
}
