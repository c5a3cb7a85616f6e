//! Statements that store through an accessor, written out.

ghost use Rattle.std.specs.Prelude.{◌≡◌, ◌<◌, ◌++◌, [], ◌∷◌, IfOk, OnOk, length, map};
ghost use Rattle.asl_rules.specs.expressions.Exprs.{expr_span};
ghost use Rattle.asl_rules.specs.declarations.WrittenOut as rules;
ghost use Rattle.asl_accessors.specs.private.Names.{names_at};

use crate::lists::reversed;
use crate::made::{made_place, made_value};
use crate::places::{place, stored_to};
use asl_copy::exprs::copy_exprs;
use asl_copy::names::copy_ident;
use asl_shared::Held;
use asl_syn::token::Span;
use asl_syn::tree::{Bind, Binder, Expr, Ident, LocalKind, PlacedSuffix, Stmt, Target};
use sqlite_items::Items;
use std::alloc::{AllocError, Global};

/// `f{p}(e) suffixes = e;`
#[derive(Drop)]
pub struct Store {
    pub at: Span,
    pub name: Ident,
    pub parameters: Items<Expr>,
    pub arguments: Items<Expr>,
    pub suffixes: Items<PlacedSuffix>,
    pub value: Held<Expr>,
}

/// `let NAME = e;` or `var NAME = e;`
fn bound(at: Span, kind: LocalKind, name: Ident, value: Expr) -> Stmt
    ensures { result ≡ rules.bound at kind name value }
{
    Stmt::Local(at, kind, Bind::Single(Binder::Bound(name)), None, value)
}

/// `let __0 = e;`, `let __1 = e;` and so on, behind what is written.
fn write_values(
    alloc: Global,
    at: Span,
    values: Items<Expr>,
    written: &mut Items<Stmt>,
) -> Result<(), AllocError>
    ensures { OnOk result (written.new ≡ written.old ++ rules.values_bound at 0 values) }
{
    let count = values.len();
    let mut rest = reversed(alloc, values)?;
    while let Some(value) = rest.pop() {
        let number = count - rest.len() - 1;
        let value = Held::new(value);
        let name = Ident {
            span: place(value.get()),
            text: made_value(alloc, at, number)?,
        };
        written.push(bound(at, LocalKind::Let, name, value.into_inner()))?;
    }
    Ok(())
}

/// Where expressions stand.
fn places_of(alloc: Global, values: &[Expr]) -> Result<Vec<Span>, AllocError>
    ensures { IfOk result (λ spans. spans.items ≡ map expr_span values.now) }
{
    let mut spans = Vec::new(alloc);
    for value in values {
        spans.push(place(value))?;
    }
    Ok(spans)
}

/// The names of the arguments, each where the argument stands.
fn arguments_named(alloc: Global, at: Span, spans: &[Span]) -> Result<Items<Expr>, AllocError>
    ensures { IfOk result (λ names. names ≡ names_at at 1 spans.now) }
{
    let mut names = Items::new(alloc);
    for (place, span) in spans.iter().enumerate() {
        names.push(Expr::Name(*span, made_value(alloc, at, place + 1)?))?;
    }
    Ok(names)
}

/// `f{p}(e, a);`
fn write_whole(alloc: Global, store: Store, written: &mut Items<Stmt>) -> Result<(), AllocError>
    ensures { OnOk result (written.new ≡ written.old ++ rules.stored store.at store.name store.parameters store.arguments [] store.value) }
{
    let Store {
        at,
        name,
        parameters,
        arguments,
        suffixes: _suffixes,
        value,
    } = store;
    let mut all = Items::new(alloc);
    all.push(value.into_inner())?;
    all.append(arguments)?;
    written.push(Stmt::Invoke(at, name, parameters, all))?;
    Ok(())
}

/// `var __t = f{p}(__1, ..);`
fn got(
    alloc: Global,
    at: Span,
    name: &Ident,
    parameters: &[Expr],
    spans: &[Span],
) -> Result<Stmt, AllocError>
    ensures { IfOk result (λ s. s ≡ rules.bound at LocalKind.Var (rules.ident at (rules.made_place at)) (Expr.Call at name.now parameters.now (names_at at 1 spans.now))) }
{
    let place = Ident {
        span: at,
        text: made_place(alloc, at)?,
    };
    let name = copy_ident(alloc, name)?;
    let parameters = copy_exprs(alloc, parameters)?;
    let arguments = arguments_named(alloc, at, spans)?;
    let call = Expr::Call(at, name, parameters, arguments);
    Ok(bound(at, LocalKind::Var, place, call))
}

/// `__t suffixes = __0;`, where what is stored stands here.
fn stored(
    alloc: Global,
    at: Span,
    name: &Ident,
    suffixes: Items<PlacedSuffix>,
    value: Span,
) -> Result<Stmt, AllocError>
    ensures { IfOk result (λ s. s ≡ Stmt.Assign at (Target.Place (rules.stored_to name.now 0 suffixes) (rules.ident name.now.span (rules.made_place at)) suffixes) (Expr.Name value (rules.made_value at 0))) }
{
    let span = stored_to(name, 0, suffixes.as_slice());
    let place = Ident {
        span: name.span,
        text: made_place(alloc, at)?,
    };
    let value = Expr::Name(value, made_value(alloc, at, 0)?);
    Ok(Stmt::Assign(at, Target::Place(span, place, suffixes), value))
}

/// `f{p}(__t, __1, ..);`
fn given_back(
    alloc: Global,
    at: Span,
    name: Ident,
    parameters: Items<Expr>,
    spans: &[Span],
) -> Result<Stmt, AllocError>
    ensures { IfOk result (λ s. s ≡ Stmt.Invoke at name parameters (Expr.Name at (rules.made_place at) ∷ names_at at 1 spans.now)) }
{
    let mut arguments = Items::new(alloc);
    arguments.push(Expr::Name(at, made_place(alloc, at)?))?;
    arguments.append(arguments_named(alloc, at, spans)?)?;
    Ok(Stmt::Invoke(at, name, parameters, arguments))
}

/// What is stored, and behind it the arguments.
fn all_values(alloc: Global, value: Expr, arguments: Items<Expr>) -> Result<Items<Expr>, AllocError>
    ensures { IfOk result (λ values. values ≡ value ∷ arguments) }
{
    let mut values = Items::new(alloc);
    values.push(value)?;
    values.append(arguments)?;
    Ok(values)
}

/// The statements that take the value, store into it, and give it back.
fn write_part(alloc: Global, store: Store, written: &mut Items<Stmt>) -> Result<(), AllocError>
    requires { 0 < length store.suffixes }
    ensures { OnOk result (written.new ≡ written.old ++ rules.stored store.at store.name store.parameters store.arguments store.suffixes store.value) }
{
    let Store {
        at,
        name,
        parameters,
        arguments,
        suffixes,
        value,
    } = store;
    let value_at = place(value.get());
    let values = all_values(alloc, value.into_inner(), arguments)?;
    let spans = places_of(alloc, values.as_slice())?;
    write_values(alloc, at, values, written)?;
    let spans = &spans.as_slice()[1..];
    written.push(got(alloc, at, &name, parameters.as_slice(), spans)?)?;
    written.push(stored(alloc, at, &name, suffixes, value_at)?)?;
    written.push(given_back(alloc, at, name, parameters, spans)?)?;
    Ok(())
}

/// Writes out a statement that stores through an accessor, behind what is written.
pub fn write_store(alloc: Global, store: Store, written: &mut Items<Stmt>) -> Result<(), AllocError>
    ensures { OnOk result (written.new ≡ written.old ++ rules.stored store.at store.name store.parameters store.arguments store.suffixes store.value) }
{
    if store.suffixes.is_empty() {
        write_whole(alloc, store, written)
    } else {
        write_part(alloc, store, written)
    }
}
