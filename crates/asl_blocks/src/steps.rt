//! What statements have in common.

ghost use Rattle.std.specs.Prelude.{◌≡◌, List, Some};
ghost use Rattle.asl_rules.specs.statements.Acting as rules;
ghost use Rattle.asl_rules.specs.statements.Branches as branches;
ghost use Rattle.asl_rules.specs.Faults.{none_at};
ghost use Rattle.asl_rules.specs.Tests.{Tests};
ghost use Rattle.asl_rules.specs.runs.Trees as trees;
ghost use Rattle.asl_rules.specs.runs.Trees.{Act};
ghost use Rattle.asl_rules.specs.declarations.Scopes.{Entry};
ghost use Rattle.asl_types.specs.private.Answers.{Met, Agrees};
ghost use Rattle.asl_types.specs.Suits.{Suits};
ghost use Rattle.asl_tree.specs.View.{operand_of, tree_of};
ghost use Rattle.asl_tree.specs.Acts.{maybe_tree, act_of, simple_of};
ghost use Rattle.asl_blocks.specs.private.Views.{maybe_operand, done_of};
ghost use Rattle.asl_blocks.specs.private.Walks as walks;

use crate::body::Done;
use asl_allowed::effects::at_most;
use asl_rules::effect::Effect;
use asl_shared::Held;
use asl_syn::code::{Refused, StaticCode};
use asl_syn::token::Span;
use asl_tree::act::{Act, Simple};
use asl_tree::tree::Tree;
use asl_types::answer::fault;
use asl_types::fits::fits;
use asl_types::kinds::{is_boolean, is_integer};
use asl_types::{Form, Ty};
use sqlite_items::Boxed;

/// The end of each statement: T13 where its operands may not stand together, then T12 where it passes the class of its
/// body.
pub fn ended(
    class: Effect,
    span: Span,
    is_together: bool,
    effect: Effect,
    act: Act,
) -> Result<Done, Refused>
    ensures { (names : List Entry) → Met (done_of names) result (rules.ended class span is_together effect names (act_of act)) }
{
    let act = Held::new(act);
    if !is_together {
        return fault(StaticCode::T13, span);
    }
    if !at_most(effect, class) {
        return fault(StaticCode::T12, span);
    }
    Ok(Done { act, effect })
}

/// The end of a statement without lists.
pub fn end_simple(
    class: Effect,
    span: Span,
    is_together: bool,
    effect: Effect,
    act: Simple,
) -> Result<Done, Refused>
    ensures { (names : List Entry) → Met (done_of names) result (rules.ended class span is_together effect names (simple_of act)) }
{
    ended(class, span, is_together, effect, Act::Simple(act))
}

/// A condition is a boolean, else T05 at it.
pub fn check_condition(e: &Tree) -> Result<(), Refused>
    ensures { Agrees result (rules.condition (operand_of e.now)) }
{
    if is_boolean(e.ty()) {
        Ok(())
    } else {
        fault(StaticCode::T05, e.span())
    }
}

/// An expression is an integer, else T05 at it.
pub fn check_integer(e: &Tree) -> Result<(), Refused>
    ensures { Agrees result (branches.limit_fits (Some (operand_of e.now))) }
{
    if is_integer(e.ty()) {
        Ok(())
    } else {
        fault(StaticCode::T05, e.span())
    }
}

/// The limit of a loop is an integer, else T05 at it.
pub fn check_limit(limit: &Option<Boxed<Tree>>) -> Result<(), Refused>
    ensures { Agrees result (branches.limit_fits (maybe_operand limit.now)) }
{
    match limit {
        None => Ok(()),
        Some(e) => check_integer(e.get()),
    }
}

/// Whether a type is one of exceptions.
pub fn is_exception(ty: &Ty) -> bool
    ensures { result ≡ branches.is_exception ty.now }
{
    match ty.form() {
        Form::Exception(_, _) => true,
        Form::Named(_, _, inner) => is_exception(inner.get()),
        _ => false,
    }
}

/// What an expression gives fits a type, else the fault of the fit at it.
pub fn check_fits(to: &Ty, e: &Tree) -> Result<(), Refused>
    ensures { (t : Tests) → Suits t → Agrees result (rules.fits t to.now (operand_of e.now)) }
{
    match fits(e.ty(), to) {
        None => Ok(()),
        Some(code) => fault(code, e.span()),
    }
}

/// The place of the first condition that is no boolean, after one more.
pub fn misplaced(before: Option<Span>, condition: &Tree) -> Option<Span>
    ensures { result ≡ walks.misplaced before (operand_of condition.now) }
{
    match before {
        Some(at) => Some(at),
        None => {
            if is_boolean(condition.ty()) {
                None
            } else {
                Some(condition.span())
            }
        }
    }
}

/// The place of the first condition that is no boolean, after one more, where there is one.
pub fn where_misplaced(before: Option<Span>, condition: &Option<Boxed<Tree>>) -> Option<Span>
    ensures { result ≡ walks.where_misplaced before (maybe_operand condition.now) }
{
    match condition {
        None => before,
        Some(e) => misplaced(before, e.get()),
    }
}

/// The effect of an expression that may be there.
pub fn effect_of(e: &Option<Boxed<Tree>>) -> Effect
    ensures { result ≡ branches.effect_of (maybe_operand e.now) }
{
    match e {
        None => Effect::Pure,
        Some(e) => e.get().effect(),
    }
}

/// The tree in a box, where there is one.
pub fn unboxed(e: Option<Boxed<Tree>>) -> Option<Tree>
    ensures tree { maybe_tree result ≡ branches.tree_in (maybe_operand e) }
{
    match e {
        None => None,
        Some(e) => Some(e.into_inner()),
    }
}

/// No condition is misplaced, else T05 at the first that is.
pub fn check_placed(misplaced: Option<Span>) -> Result<(), Refused>
    ensures { Agrees result (none_at StaticCode.T05 misplaced) }
{
    match misplaced {
        None => Ok(()),
        Some(at) => fault(StaticCode::T05, at),
    }
}
