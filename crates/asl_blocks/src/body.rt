//! What the statements of a body are judged in, and what the checker finds at them.

ghost use Rattle.std.specs.Prelude.{◌≡◌, [], IfOk};
ghost use Rattle.asl_rules.specs.declared.effect.Effect.TheVariants.{Pure};
ghost use Rattle.asl_rules.specs.declarations.Scopes.{handling};
ghost use Rattle.asl_subprograms.specs.private.ContextView.{scope_of};
ghost use Rattle.asl_blocks.specs.private.Views.{body_of};
ghost use Rattle.std.specs.Prelude.{List};
ghost use Rattle.asl_rules.specs.declarations.Scopes.{Entry};

use asl_rules::effect::Effect;
use asl_shared::Held;
use asl_subprograms::{Context, Subprograms};
use asl_tree::act::{Act, Last};
use asl_types::{Scope, Ty};
use sqlite_items::Items;
use std::alloc::{AllocError, Global};

/// What the statements of a body are judged in beside the visible names: the subprograms of the program, the greatest effect
/// that is allowed, the type of the result, none in a procedure, and whether an exception is being handled.
pub struct Body<'c> {
    pub alloc: Global,
    pub subs: &'c Subprograms,
    pub class: Effect,
    pub result: Option<Ty>,
    pub handles: bool,
}

// By hand, so that a drop of one is a call, as `Held` of asl_shared says.
impl<'c> Drop for Body<'c> {
    fn drop(self) {
        let Body {
            alloc: _alloc,
            subs: _subs,
            class: _class,
            result: _result,
            handles: _handles,
        } = self;
    }
}

/// What is found at a statement beside the names: its typed tree and its effect.
#[derive(Drop)]
pub struct Done {
    pub act: Held<Act>,
    pub effect: Effect,
}

/// What is found at a list: the typed trees of its statements, and the greatest effect.
#[derive(Drop)]
pub struct Listed {
    pub acts: Held<Items<Act>>,
    pub effect: Effect,
}

/// What is found at an `otherwise`, where there is one.
#[derive(Drop)]
pub struct LastListed {
    pub last: Held<Last>,
    pub effect: Effect,
}

/// What the expressions of a body are judged in.
pub fn context<'c, 'a>(names: &'c Scope<'a>, body: &'c Body<'c>) -> Context<'c, 'a>
    ensures { scope_of result ≡ (body_of names.now body.now).scope }
{
    Context {
        names,
        subs: body.subs,
        class: body.class,
    }
}

/// The same type again, where there is one.
fn copy_result(ty: &Option<Ty>) -> Result<Option<Ty>, AllocError>
    ensures { IfOk result (λ copy. copy ≡ ty.now) }
{
    match ty {
        None => Ok(None),
        Some(ty) => Ok(Some(ty.copy()?)),
    }
}

/// The same while an exception is being handled.
pub fn while_handling<'c>(body: &Body<'c>) -> Result<Body<'c>, AllocError>
    ensures { (names : List Entry) → IfOk result (λ inner. body_of names inner ≡ handling (body_of names body.now)) }
{
    let result = copy_result(&body.result)?;
    Ok(Body {
        alloc: body.alloc,
        subs: body.subs,
        class: body.class,
        result,
        handles: true,
    })
}
