//! Calls of subprograms of the program and of the library.

ghost use Rattle.std.specs.Prelude.{◌≡◌, map, Some, None, List, IfOk};
ghost use Rattle.asl_rules.specs.expressions.Calls as rules;
ghost use Rattle.asl_rules.specs.declarations.Scopes as scopes;
ghost use Rattle.asl_rules.specs.runs.Trees as trees;
ghost use Rattle.asl_rules.specs.types.Types as types;
ghost use Rattle.asl_rules.specs.expressions.Typing.{Found, finish_all};
ghost use Rattle.asl_syn.specs.declared.tree.Ident.{Ident};
ghost use Rattle.asl_shape.specs.View.{routine_of};
ghost use Rattle.asl_rules.specs.expressions.Exprs.{found};
ghost use Rattle.asl_rules.specs.Faults.{need, found_or};
ghost use Rattle.asl_widths.specs.private.Steps.{and_then, after};
ghost use Rattle.asl_rules.specs.declarations.Routines.{routine_named};
ghost use Rattle.asl_rules.specs.declarations.Scopes.{standing_of, is_subprogram};
ghost use Rattle.asl_rules.specs.Tests.{Tests};
ghost use Rattle.asl_types.specs.private.Answers.{Met};
ghost use Rattle.asl_subprograms.specs.private.ContextView.{scope_of};
ghost use Rattle.asl_types.specs.Suits.{Suits};
ghost use Rattle.asl_tree.specs.View.{note_view, tree_of, callee_of, typed_of, all_operands};
ghost use Rattle.asl_expr.specs.CallViews.{called_of, replacing_of, all_given, call_note, effect_of};

use crate::call_fits::{both_fit, replaced, replaced_by};
use crate::exprs::type_all;
use crate::params::{Replaced, widths, widths_given};
use crate::routine_types::{routine_params, routine_taken, routine_type};
use asl_allowed::effects::greater;
use asl_rules::effect::Effect;
use asl_shape::{Routine, routine_named};
use asl_subprograms::{Context, Signature};
use asl_syn::code::{Refused, StaticCode};
use asl_syn::token::Span;
use asl_syn::tree::{Expr, Ident};
use asl_tree::nodes;
use asl_tree::tree::{Callee, Note, Tree};
use asl_types::answer::fault;
use asl_types::{Standing, Ty};
use asl_typing::ends::{all_together, greatest, keep_class, stand_together};
use asl_typing::operations::operand_types;
use sqlite_items::{Boxed, Items};
use std::alloc::{AllocError, Global};

/// A call of a procedure: its effect, what is called, the places of the arguments whose widths stand for parameters that are
/// omitted, the parameters in braces, and the arguments.
pub struct Called {
    pub effect: Effect,
    pub callee: Callee,
    pub places: Items<usize>,
    pub params: Items<Tree>,
    pub arguments: Items<Tree>,
}

// By hand, so that a drop of one is a call, as `Held` of asl_shared says.
impl Drop for Called {
    fn drop(self) {
        let Called {
            effect: _effect,
            callee: _callee,
            places: _places,
            params: _params,
            arguments: _arguments,
        } = self;
    }
}

impl Called {
    /// Its parts: the effect, what is called, the places of arguments, the parameters in braces, and the arguments.
    pub fn into_parts(self) -> (Effect, Callee, Items<usize>, Items<Tree>, Items<Tree>)
        ensures { result ≡ (self.effect, self.callee, self.places, self.params, self.arguments) }
    {
        let Called {
            effect,
            callee,
            places,
            params,
            arguments,
        } = self;
        (effect, callee, places, params, arguments)
    }
}

/// The name is that of a subprogram, else T02.
fn subprogram(context: Context, name: &Ident) -> Result<(), Refused>
    ensures { Met (λ u. u) result (need (is_subprogram (standing_of name.now.text (scope_of context.entry).names)) StaticCode.T02 name.now.span) }
{
    match context.names.standing_of(name.text.as_slice()) {
        None => fault(StaticCode::T02, name.span),
        Some(Standing::Stored(_)) => fault(StaticCode::T02, name.span),
        Some(Standing::Subprogram) => Ok(()),
        Some(Standing::TypeName(_)) => fault(StaticCode::T02, name.span),
        Some(Standing::Label(_, _)) => fault(StaticCode::T02, name.span),
    }
}

/// The note of a call with these arguments, which itself has this effect: T13 where they may not stand together, then T12.
fn noted(
    class: Effect,
    span: Span,
    arguments: &[Tree],
    own: Effect,
    ty: Ty,
) -> Result<Note, Refused>
    ensures { Met note_view result (call_note class span (all_operands arguments.now) own ty) }
{
    stand_together(span, all_together(Effect::Pure, arguments))?;
    let effect = greater(greatest(Effect::Pure, arguments), own);
    keep_class(class, span, effect)?;
    Ok(Note { span, ty, effect })
}

/// The typed tree of a call.
#[tactic(auto, using(asl_tree::proofs::Operands::trees_seen))]
fn call_tree(
    alloc: Global,
    note: Note,
    callee: Callee,
    given: Replaced,
    arguments: Items<Tree>,
) -> Result<Boxed<Tree>, AllocError>
    ensures { IfOk result (λ t. tree_of t ≡ rules.call_tree (callee_of callee) (replacing_of given) (all_operands arguments) (note_view note)) }
{
    let (places, trees) = given.into_parts();
    nodes::call(alloc, note, callee, places, trees, arguments)
}

/// The overload that a call with these arguments chooses, with its number: T09 where there is none.
fn chosen<'c>(
    alloc: Global,
    context: Context<'c, '_>,
    span: Span,
    name: &Ident,
    arguments: &[Tree],
) -> Result<(usize, &'c Signature), Refused>
    ensures { Met (λ p. record { number = p.0; signature = p.1.now }) result (rules.chosen span name.now (all_operands arguments.now) (scope_of context.entry).subs) }
{
    let tys = operand_types(alloc, arguments)?;
    match context.subs.choose(name.text.as_slice(), tys.as_slice()) {
        Some(chosen) => Ok(chosen),
        None => fault(StaticCode::T09, span),
    }
}

/// A call with these arguments, which itself has this effect: T13 where they may not stand together, then T12.
fn call_noted(
    alloc: Global,
    class: Effect,
    span: Span,
    callee: Callee,
    given: Replaced,
    arguments: Items<Tree>,
    own: Effect,
    ty: Ty,
) -> Result<Boxed<Tree>, Refused>
    ensures { Met typed_of result (finish_all class span (all_operands arguments) own ty (rules.call_tree (callee_of callee) (replacing_of given) (all_operands arguments))) }
{
    let note = noted(class, span, arguments.as_slice(), own, ty)?;
    Ok(call_tree(alloc, note, callee, given, arguments)?)
}

/// A call of a subprogram of the library with these parameters and arguments.
fn routine_called(
    alloc: Global,
    class: Effect,
    span: Span,
    routine: Routine,
    given: Replaced,
    arguments: Items<Tree>,
) -> Result<Boxed<Tree>, Refused>
    ensures { Met typed_of result (rules.routine_called class span (routine_of routine) (replacing_of given) (all_operands arguments)) }
{
    let ty = routine_type(alloc, routine, given.given.as_slice(), arguments.as_slice())?;
    call_noted(
        alloc,
        class,
        span,
        Callee::OfLibrary(routine),
        given,
        arguments,
        Effect::Pure,
        ty,
    )
}

/// A call of a subprogram of the library with as many parameters as it has.
fn routine_given(
    alloc: Global,
    context: Context,
    span: Span,
    routine: Routine,
    params: &[Expr],
    arguments: Items<Tree>,
) -> Result<Boxed<Tree>, Refused>
    ensures { (t : Tests) → Met typed_of result (and_then (rules.widths_given (map (found t) params.now) (scope_of context.entry)) (λ w. rules.routine_called (scope_of context.entry).class span (routine_of routine) w (all_operands arguments))) }
{
    let given = widths_given(alloc, context, params)?;
    routine_called(alloc, context.class, span, routine, given, arguments)
}

/// A call of a subprogram of the library.
fn call_routine(
    alloc: Global,
    context: Context,
    span: Span,
    routine: Routine,
    params: &[Expr],
    arguments: Items<Tree>,
) -> Result<Boxed<Tree>, Refused>
    ensures { (t : Tests) (name : Ident) → Met typed_of result (rules.function_of t span name (map (found t) params.now) (all_operands arguments) (scope_of context.entry) (Some (routine_of routine))) }
{
    routine_taken(span, routine, arguments.as_slice())?;
    if params.len() != routine_params(routine) {
        return fault(StaticCode::T11, span);
    }
    routine_given(alloc, context, span, routine, params, arguments)
}

/// The type of the result of a function, with widths in the place of its parameters: first the fits of the parameters and the
/// arguments, then T20 where a width passes its limits.
fn result_type(
    alloc: Global,
    span: Span,
    signature: &Signature,
    ty: &Ty,
    given: &Replaced,
    arguments: &[Tree],
) -> Result<Ty, Refused>
    ensures { (t : Tests) → Suits t → Met (λ T. T) result (after (rules.both_fit t span signature.now (all_given given.now.given) (all_operands arguments.now) (rules.replaced_by signature.now.params (all_given given.now.given))) (found_or (types.substitute (rules.replaced_by signature.now.params (all_given given.now.given)) ty.now) StaticCode.T20 span)) }
{
    let by = replaced_by(alloc, signature.params(), given.given.as_slice())?;
    both_fit(
        alloc,
        span,
        signature,
        given.given.as_slice(),
        arguments,
        by.as_slice(),
    )?;
    let ty = replaced(alloc, span, by.as_slice(), ty)?;
    Ok(ty.into_inner())
}

/// A call of the overload of a number, with these parameters and arguments.
fn function_called(
    alloc: Global,
    class: Effect,
    span: Span,
    number: usize,
    signature: &Signature,
    ty: &Ty,
    given: Replaced,
    arguments: Items<Tree>,
) -> Result<Boxed<Tree>, Refused>
    ensures { (t : Tests) → Suits t → Met typed_of result (rules.function_called t class span (record { number = number; signature = signature.now }) ty.now (replacing_of given) (all_operands arguments)) }
{
    let ty = result_type(alloc, span, signature, ty, &given, arguments.as_slice())?;
    let own = signature.class();
    call_noted(
        alloc,
        class,
        span,
        Callee::Own(number),
        given,
        arguments,
        own,
        ty,
    )
}

/// A call of the overload of a number, which has a result of this type.
fn function_given(
    alloc: Global,
    context: Context,
    span: Span,
    number: usize,
    signature: &Signature,
    ty: &Ty,
    params: &[Expr],
    arguments: Items<Tree>,
) -> Result<Boxed<Tree>, Refused>
    ensures { (t : Tests) → Suits t → Met typed_of result (and_then (rules.widths_rule span signature.now (map (found t) params.now) (all_operands arguments) (scope_of context.entry)) (λ w. rules.function_called t (scope_of context.entry).class span (record { number = number; signature = signature.now }) ty.now w (all_operands arguments))) }
{
    let given = widths(
        alloc,
        context,
        span,
        signature,
        params,
        arguments.as_slice(),
    )?;
    function_called(
        alloc,
        context.class,
        span,
        number,
        signature,
        ty,
        given,
        arguments,
    )
}

/// A call of a function of the program.
fn call_own(
    alloc: Global,
    context: Context,
    span: Span,
    name: &Ident,
    params: &[Expr],
    arguments: Items<Tree>,
) -> Result<Boxed<Tree>, Refused>
    ensures { (t : Tests) → Suits t → Met typed_of result (rules.function_of t span name.now (map (found t) params.now) (all_operands arguments) (scope_of context.entry) None) }
{
    let (number, signature) = chosen(alloc, context, span, name, arguments.as_slice())?;
    let Some(ty) = signature.result() else {
        return fault(StaticCode::T18, span);
    };
    function_given(
        alloc, context, span, number, signature, ty, params, arguments,
    )
}

/// A call in an expression, whose arguments were typed: T02 where the name is no subprogram's, T09 where none takes arguments of
/// these kinds, T18 where it is a procedure's, T11 where the parameters aren't as many or can't be told, the faults of the
/// parameters, the faults of the fits, T20 where a width passes its limits, and then T13 and T12.
pub fn type_call(
    alloc: Global,
    context: Context,
    span: Span,
    name: &Ident,
    params: &[Expr],
    arguments: Items<Tree>,
) -> Result<Boxed<Tree>, Refused>
    ensures { (t : Tests) → Suits t → Met typed_of result (after (need (is_subprogram (standing_of name.now.text (scope_of context.entry).names)) StaticCode.T02 name.now.span) (rules.function_of t span name.now (map (found t) params.now) (all_operands arguments) (scope_of context.entry) (routine_named name.now.text))) }
{
    subprogram(context, name)?;
    match routine_named(name.text.as_slice()) {
        Some(routine) => call_routine(alloc, context, span, routine, params, arguments),
        None => call_own(alloc, context, span, name, params, arguments),
    }
}

/// The effect of a call of a procedure of the program, whose parameters and arguments fit, T13 and T12.
fn procedure_effect(
    alloc: Global,
    context: Context,
    span: Span,
    signature: &Signature,
    given: &Replaced,
    arguments: &[Tree],
) -> Result<Effect, Refused>
    ensures { (t : Tests) → Suits t → Met (λ k. k) result (after (rules.both_fit t span signature.now (all_given given.now.given) (all_operands arguments.now) (rules.replaced_by signature.now.params (all_given given.now.given))) (effect_of (scope_of context.entry).class span (all_operands arguments.now) signature.now.class)) }
{
    let by = replaced_by(alloc, signature.params(), given.given.as_slice())?;
    both_fit(
        alloc,
        span,
        signature,
        given.given.as_slice(),
        arguments,
        by.as_slice(),
    )?;
    stand_together(span, all_together(Effect::Pure, arguments))?;
    let effect = greater(greatest(Effect::Pure, arguments), signature.class());
    keep_class(context.class, span, effect)?;
    Ok(effect)
}

/// A call of the overload of a number, a procedure, with these parameters and arguments.
fn procedure_called(
    alloc: Global,
    context: Context,
    span: Span,
    number: usize,
    signature: &Signature,
    given: Replaced,
    arguments: Items<Tree>,
) -> Result<Called, Refused>
    ensures { (t : Tests) → Suits t → Met called_of result (rules.procedure_called t (scope_of context.entry).class span (record { number = number; signature = signature.now }) (replacing_of given) (all_operands arguments)) }
{
    let effect = procedure_effect(
        alloc,
        context,
        span,
        signature,
        &given,
        arguments.as_slice(),
    )?;
    let (places, params) = given.into_parts();
    Ok(Called {
        effect,
        callee: Callee::Own(number),
        places,
        params,
        arguments,
    })
}

/// A call of the overload of a number, a procedure.
fn procedure_given(
    alloc: Global,
    context: Context,
    span: Span,
    number: usize,
    signature: &Signature,
    params: &[Expr],
    arguments: Items<Tree>,
) -> Result<Called, Refused>
    ensures { (t : Tests) → Suits t → Met called_of result (and_then (rules.widths_rule span signature.now (map (found t) params.now) (all_operands arguments) (scope_of context.entry)) (λ w. rules.procedure_called t (scope_of context.entry).class span (record { number = number; signature = signature.now }) w (all_operands arguments))) }
{
    let given = widths(
        alloc,
        context,
        span,
        signature,
        params,
        arguments.as_slice(),
    )?;
    procedure_called(alloc, context, span, number, signature, given, arguments)
}

/// A call of a procedure of the program, whose arguments were typed.
fn procedure_own(
    alloc: Global,
    context: Context,
    span: Span,
    name: &Ident,
    params: &[Expr],
    arguments: Items<Tree>,
) -> Result<Called, Refused>
    ensures { (t : Tests) → Suits t → Met called_of result (rules.procedure_of t span name.now (map (found t) params.now) (all_operands arguments) (scope_of context.entry) None) }
{
    let (number, signature) = chosen(alloc, context, span, name, arguments.as_slice())?;
    if signature.result().is_some() {
        return fault(StaticCode::T18, span);
    }
    procedure_given(alloc, context, span, number, signature, params, arguments)
}

/// The library has no procedure.
fn procedure_of_library(span: Span, routine: Routine, arguments: &[Tree]) -> Result<Called, Refused>
    ensures { (t : Tests) (name : Ident) (ps : List Found) (G : scopes.Scope) → Met called_of result (rules.procedure_of t span name ps (all_operands arguments.now) G (Some (routine_of routine))) }
{
    routine_taken(span, routine, arguments)?;
    fault(StaticCode::T18, span)
}

/// A call as a statement: the arguments in order, and then as a call in an expression, but T18 where it is a function's.
pub fn type_procedure(
    alloc: Global,
    context: Context,
    span: Span,
    name: &Ident,
    params: &[Expr],
    arguments: &[Expr],
) -> Result<Called, Refused>
    ensures { (t : Tests) → Suits t → Met called_of result (rules.procedure_rule t span name.now (map (found t) params.now) (map (found t) arguments.now) (scope_of context.entry)) }
{
    let arguments = type_all(alloc, context, arguments)?;
    subprogram(context, name)?;
    match routine_named(name.text.as_slice()) {
        Some(routine) => procedure_of_library(span, routine, arguments.as_slice()),
        None => procedure_own(alloc, context, span, name, params, arguments),
    }
}
