//! Local declarations.

ghost use Rattle.std.specs.Prelude.{◌≡◌, length, IfOk, Ok};
ghost use Rattle.asl_rules.specs.statements.Locals as rules;
ghost use Rattle.asl_rules.specs.Tests.{Tests};
ghost use Rattle.asl_types.specs.private.Answers.{Met};
ghost use Rattle.asl_types.specs.Suits.{Suits};
ghost use Rattle.asl_rules.specs.runs.Trees as trees;
ghost use Rattle.asl_tree.specs.View.{typed_of, tree_of};
ghost use Rattle.asl_tree.specs.Acts.{simple_of, taken_of};
ghost use Rattle.asl_written.specs.WrittenViews.{written_of};
ghost use Rattle.asl_simple.specs.private.LocalViews.{initialised_of};
ghost use Rattle.asl_blocks.specs.private.Views.{body_of, done_of};
ghost use Rattle.asl_blocks.specs.private.Walks as walks;

use crate::binds::{declare_local, declare_parts, taken_parts, unannotated};
use crate::counted::initialised_as;
use crate::simple::simply;
use asl_blocks::body::{Body, Done, context};
use asl_blocks::steps::{check_fits, end_simple};
use asl_blocks::typing::type_in;
use asl_rules::effect::Effect;
use asl_syn::code::{Refused, StaticCode};
use asl_syn::token::Span;
use asl_syn::tree::{Bind, Binder, Expr, Ident, LocalKind, TypeExpr};
use asl_tree::act::{Simple, Taken};
use asl_tree::tree::Tree;
use asl_types::answer::fault;
use asl_types::{Scope, Ty};
use asl_written::written::{type_place, type_written};
use sqlite_items::Boxed;
use std::alloc::{AllocError, Global};

/// A declaration with an initialiser, as it is written.
#[derive(Clone, Copy)]
pub struct Declaration<'a> {
    pub span: Span,
    pub kind: LocalKind,
    pub bind: &'a Bind,
    pub ty: &'a Option<TypeExpr>,
    pub value: &'a Expr,
}

/// The type that is written, where one is, which the initialiser fits, and the initialiser.
pub(crate) struct Initialised {
    written: Option<Ty>,
    value: Boxed<Tree>,
}

// By hand, so that a drop of one is a call, as `Held` of asl_shared says.
impl Drop for Initialised {
    fn drop(self) {
        let Initialised {
            written: _written,
            value: _value,
        } = self;
    }
}

impl Initialised {
    /// The statement that declares what is taken of it.
    fn into_act(self, span: Span, taken: Taken) -> Simple
        ensures { simple_of result ≡ trees.Declare span self.written (taken_of taken) (tree_of self.value) }
    {
        let Initialised { written, value } = self;
        Simple::Declare(span, written, taken, value.into_inner())
    }

    /// Its effect.
    fn effect(&self) -> Effect
        ensures { result ≡ (initialised_of self.now).value.effect }
    {
        self.value.get().effect()
    }

    /// The type that is written, else its own.
    fn whole(&self) -> &Ty
        ensures { result.now ≡ rules.written_or (initialised_of self.now).written (initialised_of self.now).value.ty }
    {
        match &self.written {
            None => self.value.get().ty(),
            Some(ty) => ty,
        }
    }
}

/// An initialiser, which fits the type that is written, where one is.
fn type_initialiser(
    names: &Scope,
    body: &Body,
    ty: &Option<TypeExpr>,
    e: &Expr,
) -> Result<Initialised, Refused>
    ensures { (t : Tests) → Suits t → Met initialised_of result (rules.initialised t ty.now e.now (body_of names.now body.now).scope) }
{
    match ty {
        None => {
            let value = type_in(names, body, e)?;
            Ok(Initialised {
                written: None,
                value,
            })
        }
        Some(ty) => {
            let written = type_written(body.alloc, context(names, body), ty, false)?;
            let value = type_in(names, body, e)?;
            check_fits(&written.ty, value.get())?;
            Ok(Initialised {
                written: Some(written.ty.copy()?),
                value,
            })
        }
    }
}

/// The type of what is declared.
fn type_declared(alloc: Global, kind: LocalKind, d: &Initialised) -> Result<Ty, AllocError>
    ensures { IfOk result (λ ty. ty ≡ rules.type_declared kind d.now.written (typed_of d.now.value).ty) }
{
    match &d.written {
        None => unannotated(alloc, kind, d.value.get().ty()),
        Some(ty) => ty.copy(),
    }
}

/// A declaration of one name: T01 where it is visible.
fn declare_one<'a>(
    names: &mut Scope<'a>,
    body: &Body,
    declaration: &Declaration<'a>,
    name: &'a Ident,
    d: Initialised,
) -> Result<Done, Refused>
    ensures { (t : Tests) → Suits t → Met (done_of names.new) result (rules.one_declared t declaration.now.span declaration.now.kind name.now declaration.now.value.now (initialised_of d) (body_of names.old body.now).scope) }
{
    let text = name.text.as_slice();
    if !names.is_free(text) {
        return fault(StaticCode::T01, name.span);
    }
    let ty = type_declared(body.alloc, declaration.kind, &d)?;
    let counted = initialised_as(names, body, &ty, declaration.value)?;
    let effect = d.effect();
    let act = d.into_act(declaration.span, Taken::Whole);
    let done = end_simple(body.class, declaration.span, true, effect, act)?;
    declare_local(names, declaration.kind, text, ty, counted)?;
    Ok(done)
}

/// A declaration of no name.
fn declare_none(names: &Scope, body: &Body, span: Span, d: Initialised) -> Result<Done, Refused>
    ensures { Met (done_of names.now) result (rules.none_declared span (initialised_of d) (body_of names.now body.now).scope) }
{
    let effect = d.effect();
    end_simple(
        body.class,
        span,
        true,
        effect,
        d.into_act(span, Taken::Nothing),
    )
}

/// A declaration of the parts of a tuple: the names, then T05 where there aren't as many as parts.
fn declare_several<'a>(
    names: &mut Scope<'a>,
    body: &Body,
    declaration: &Declaration<'a>,
    binders: &'a [Binder],
    d: Initialised,
) -> Result<Done, Refused>
    ensures { Met (done_of names.new) result (walks.several_walk declaration.now.span declaration.now.kind binders.now (initialised_of d) (body_of names.old body.now).scope) }
{
    let alloc = body.alloc;
    let as_many = declare_parts(
        alloc,
        names,
        binders,
        declaration.kind,
        &d.written,
        d.whole(),
    )?;
    if !as_many {
        return fault(StaticCode::T05, declaration.span);
    }
    let effect = d.effect();
    let taken = Taken::InParts(taken_parts(alloc, binders)?);
    let act = d.into_act(declaration.span, taken);
    end_simple(body.class, declaration.span, true, effect, act)
}

/// A declaration whose initialiser was typed.
fn declare<'a>(
    names: &mut Scope<'a>,
    body: &Body,
    declaration: &Declaration<'a>,
    d: Initialised,
) -> Result<Done, Refused>
    ensures { (t : Tests) → Suits t → Met (done_of names.new) result (walks.bound_walk t declaration.now.span declaration.now.kind declaration.now.bind.now declaration.now.value.now (initialised_of d) (body_of names.old body.now).scope) }
{
    match declaration.bind {
        Bind::Single(Binder::Bound(name)) => declare_one(names, body, declaration, name, d),
        Bind::Single(Binder::Unbound(_)) => declare_none(names, body, declaration.span, d),
        Bind::Several(_, binders) => {
            declare_several(names, body, declaration, binders.as_slice(), d)
        }
    }
}

/// A declaration with an initialiser: the fit, then the names, then the count.
pub fn check_bind<'a>(
    names: &mut Scope<'a>,
    body: &Body,
    declaration: &Declaration<'a>,
) -> Result<Done, Refused>
    ensures { (t : Tests) → Suits t → Met (done_of names.new) result (walks.bind_walk t declaration.now.span declaration.now.kind declaration.now.bind.now declaration.now.ty.now declaration.now.value.now (body_of names.old body.now).scope) }
{
    let d = type_initialiser(names, body, declaration.ty, declaration.value)?;
    declare(names, body, declaration, d)
}

/// Names of one type, without an initialiser: T01 at the first that is visible.
fn declare_vars<'a>(names: &mut Scope<'a>, idents: &'a [Ident], ty: &Ty) -> Result<(), Refused>
    ensures { Met (λ _. names.new) result (rules.names_rule idents.now ty.now names.old) }
{
    for name in idents {
        let text = name.text.as_slice();
        if !names.is_free(text) {
            return fault(StaticCode::T01, name.span);
        }
        names.declare_variable(text, ty.copy()?)?;
    }
    Ok(())
}

/// A declaration without an initialiser.
pub fn check_vars<'a>(
    names: &mut Scope<'a>,
    body: &Body,
    span: Span,
    idents: &'a [Ident],
    ty: &TypeExpr,
) -> Result<Done, Refused>
    ensures { (t : Tests) → Suits t → Met (done_of names.new) result (rules.vars_rule t span idents.now ty.now (body_of names.old body.now).scope) }
{
    let written = type_written(body.alloc, context(names, body), ty, false)?;
    declare_vars(names, idents, &written.ty)?;
    let (ty_written, shape, sizes) = written.into_parts();
    drop(ty_written);
    let act = Simple::DeclareFirst(span, idents.len(), type_place(ty), shape, sizes);
    Ok(simply(act, Effect::Pure))
}
