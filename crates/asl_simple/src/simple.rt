//! Statements that declare nothing and have no lists.

ghost use Rattle.std.specs.Prelude.{◌≡◌, List, Some};
ghost use Rattle.asl_rules.specs.statements.Acting as acting;
ghost use Rattle.asl_rules.specs.statements.Stmts as rules;
ghost use Rattle.asl_rules.specs.declarations.Scopes.{Entry};
ghost use Rattle.asl_rules.specs.Tests.{Tests};
ghost use Rattle.asl_types.specs.private.Answers.{Met};
ghost use Rattle.asl_types.specs.Suits.{Suits};
ghost use Rattle.asl_tree.specs.Acts.{simple_of};
ghost use Rattle.asl_blocks.specs.private.Views.{body_of, done_of};

use asl_allowed::effects::greater;
use asl_blocks::body::{Body, Done, context};
use asl_blocks::steps::{check_condition, check_fits, end_simple, is_exception};
use asl_blocks::typing::{type_in, type_reading};
use asl_expr::calls::type_procedure;
use asl_rules::effect::Effect;
use asl_shared::Held;
use asl_syn::code::{Refused, StaticCode};
use asl_syn::token::Span;
use asl_syn::tree::{Expr, Ident};
use asl_tree::act::{Act, Simple};
use asl_types::Scope;
use asl_types::answer::fault;

/// A statement of this tree and this effect.
pub fn simply(act: Simple, effect: Effect) -> Done
    ensures { (names : List Entry) → done_of names result ≡ acting.done names effect (simple_of act) }
{
    Done {
        act: Held::new(Act::Simple(act)),
        effect,
    }
}

/// `assert`: a boolean that at most reads.
pub fn check_assert(names: &Scope, body: &Body, span: Span, e: &Expr) -> Result<Done, Refused>
    ensures { (t : Tests) → Suits t → Met (done_of names.now) result (rules.assert_rule t span e.now (body_of names.now body.now).scope) }
{
    let condition = type_reading(names, body, e)?;
    check_condition(condition.get())?;
    let effect = condition.get().effect();
    let act = Simple::Assert(span, condition.into_inner());
    end_simple(body.class, span, true, effect, act)
}

/// A call of a procedure.
pub fn check_invoke(
    names: &Scope,
    body: &Body,
    span: Span,
    name: &Ident,
    params: &[Expr],
    arguments: &[Expr],
) -> Result<Done, Refused>
    ensures { (t : Tests) → Suits t → Met (done_of names.now) result (rules.invoke_rule t span name.now params.now arguments.now (body_of names.now body.now).scope) }
{
    let called = type_procedure(
        body.alloc,
        context(names, body),
        span,
        name,
        params,
        arguments,
    )?;
    let (effect, callee, places, params, arguments) = called.into_parts();
    let act = Simple::Invoke(span, callee, places, params, arguments);
    Ok(simply(act, effect))
}

/// `return e`: T18 in a procedure, else what it gives fits the result.
fn return_value(names: &Scope, body: &Body, span: Span, e: &Expr) -> Result<Done, Refused>
    ensures { (t : Tests) → Suits t → Met (done_of names.now) result (rules.return_rule t span (Some e.now) (body_of names.now body.now).scope (body_of names.now body.now).result) }
{
    let value = type_in(names, body, e)?;
    let Some(to) = &body.result else {
        return fault(StaticCode::T18, span);
    };
    check_fits(to, value.get())?;
    let effect = value.get().effect();
    let act = Simple::Return(span, Some(value.into_inner()));
    end_simple(body.class, span, true, effect, act)
}

/// `return`: of the form that the body asks for.
pub fn check_return(
    names: &Scope,
    body: &Body,
    span: Span,
    value: &Option<Expr>,
) -> Result<Done, Refused>
    ensures { (t : Tests) → Suits t → Met (done_of names.now) result (rules.return_rule t span value.now (body_of names.now body.now).scope (body_of names.now body.now).result) }
{
    match value {
        None => match &body.result {
            None => Ok(simply(Simple::Return(span, None), Effect::Pure)),
            Some(_) => fault(StaticCode::T18, span),
        },
        Some(e) => return_value(names, body, span, e),
    }
}

/// `throw e`: of an exception.
fn throw_value(names: &Scope, body: &Body, span: Span, e: &Expr) -> Result<Done, Refused>
    ensures { (t : Tests) → Suits t → Met (done_of names.now) result (rules.throw_rule t span (Some e.now) (body_of names.now body.now)) }
{
    let value = type_in(names, body, e)?;
    if !is_exception(value.get().ty()) {
        return fault(StaticCode::T21, value.get().span());
    }
    let effect = greater(value.get().effect(), Effect::Writes);
    let act = Simple::Throw(span, Some(value.into_inner()));
    end_simple(body.class, span, true, effect, act)
}

/// `throw`: of an exception, or of the one that is being handled.
pub fn check_throw(
    names: &Scope,
    body: &Body,
    span: Span,
    value: &Option<Expr>,
) -> Result<Done, Refused>
    ensures { (t : Tests) → Suits t → Met (done_of names.now) result (rules.throw_rule t span value.now (body_of names.now body.now)) }
{
    match value {
        None => {
            if !body.handles {
                return fault(StaticCode::T21, span);
            }
            let act = Simple::Throw(span, None);
            end_simple(body.class, span, true, Effect::Writes, act)
        }
        Some(e) => throw_value(names, body, span, e),
    }
}
