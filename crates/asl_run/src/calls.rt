//! Calls of subprograms.
ghost use Rattle.std.specs.Prelude.{◌≡◌, ◌+◌, ◌<◌, ◌≤◌, [], length, map, option_map, pos, reverse, slice_get, Some, IfOk, OnOk};
ghost use Rattle.asl_rules.specs.runs.Forms as forms;
ghost use Rattle.asl_rules.specs.private.ByPlace.{seen_as};
ghost use Rattle.asl_rules.specs.values.Operators.{less};
ghost use Rattle.asl_rules.specs.private.TypedMeaning as rules;
ghost use Rattle.asl_rules.specs.private.TypedMeaning.{list_of};
ghost use Rattle.asl_tree.specs.Funcs.{all_funcs, func_of};
ghost use Rattle.asl_tree.specs.View.{all_trees};
ghost use Rattle.asl_value.specs.View.{value_of};
ghost use Rattle.asl_branches.specs.Meets.{at, Is, Ran, SameBut};
ghost use Rattle.asl_branches.specs.View.{exit_of, room_of};
ghost use Rattle.asl_run.specs.private.Calling.{body_of, call_given, ended, Bound, BoundFormals, Enters, EntersWith, Leaves, RanBody};

use asl_allowed::activations::has_room;
use asl_branches::below::Nodes;
use asl_branches::lists::{eval_all, push};
use asl_branches::run::Run;
use asl_branches::stop::{Exit, Mistake, Stop};
use asl_io::Sink;
use asl_shape::{params_of, routine};
use asl_shared::Held;
use asl_syn::code::DynCode;
use asl_syn::token::Span;
use asl_tree::act::TreeFunc;
use asl_tree::tree::{Callee, Tree};
use asl_types::Ty;
use asl_types::seeing::see;
use asl_value::{Value, copy};
use std::alloc::{AllocError, Global};
use std::{mem, slice};

/// A call: what is called, the places of the arguments whose widths stand for parameters that are omitted, the parameters in
/// braces, and the arguments.
#[derive(Clone, Copy)]
pub struct Call<'r> {
    pub span: Span,
    pub callee: Callee,
    pub widths: &'r [usize],
    pub params: &'r [Tree],
    pub args: &'r [Tree],
}

/// A subprogram that is called: where the call stands, its number, and its tree.
#[derive(Clone, Copy)]
pub struct Called<'r> {
    pub span: Span,
    pub id: usize,
    pub func: &'r TreeFunc,
}

// ---- values

/// Copies of values in a list of their own.
fn listed(alloc: Global, values: &[Value]) -> Result<Vec<Value>, AllocError>
    ensures { IfOk result (λ list. list.items ≡ values.now) }
{
    let mut list = Vec::new(alloc);
    for x in values {
        list.push(copy(x)?)?;
    }
    Ok(list)
}

/// What a body gives: in a function a value, as the type of the result keeps it, and none in a procedure.
fn body_gives(alloc: Global, func: &TreeFunc, exit: Exit) -> Result<Option<Value>, Stop>
    ensures { Is (option_map value_of) result
        (ended func.now.span (rules.result_seen func.now.result) (exit_of exit)) }
{
    match exit {
        Exit::Returned(given) => returned(alloc, func.span, &func.result, given),
        Exit::Normal => match &func.result {
            None => Ok(None),
            Some(_) => Err(Stop::Stuck(Mistake::EndReached, func.span)),
        },
    }
}

fn returned(
    alloc: Global,
    span: Span,
    ty: &Option<Ty>,
    given: Option<Value>,
) -> Result<Option<Value>, Stop>
    ensures { Is (option_map value_of) result
        (forms.returned span (rules.result_seen ty.now) (option_map value_of given)) }
{
    match ty {
        None => match given {
            None => Ok(None),
            Some(_) => Err(Stop::Stuck(Mistake::WrongKind, span)),
        },
        Some(ty) => match given {
            None => Err(Stop::Stuck(Mistake::WrongKind, span)),
            Some(x) => Ok(Some(kept(alloc, ty, Held::new(x))?)),
        },
    }
}

/// A value with the bitfields of a type. Where no bits occur in the type, that is the value itself.
#[tactic(auto, using(asl_types::proofs::Seen::unseen))]
fn kept(alloc: Global, ty: &Ty, x: Held<Value>) -> Result<Value, AllocError>
    ensures { IfOk result (λ it. value_of it ≡ seen_as ty.now (value_of x)) }
{
    if ty.holds_bits() {
        see(alloc, ty, x.get())
    } else {
        Ok(x.into_inner())
    }
}

// ---- frames

/// Whether a subprogram may be active once more. Its activations are counted only if those of all subprograms reach its limit.
#[tactic(auto, using(crate::proofs::Called::few_active))]
fn may_enter(id: usize, live: &[usize], limit: i128) -> bool
    ensures { result ≡ less (pos (forms.activations id (reverse live.now))) limit }
{
    if (live.len() as i128) < limit {
        return true;
    }
    has_room(id, live, limit)
}

/// How many slots the frame of a callee has: those of its parameters and formals, and those of its body.
fn slots_for(params: usize, formals: usize, body: u32) -> Result<u32, AllocError>
    ensures { IfOk result (λ slots. slots ≡ params + formals + body) }
{
    match params.checked_add(formals) {
        None => Err(AllocError),
        Some(places) => match u32::try_from(places) {
            Err(_) => Err(AllocError),
            Ok(places) => match places.checked_add(body) {
                None => Err(AllocError),
                Some(slots) => Ok(slots),
            },
        },
    }
}

/// Enters the frame of a callee, of so many slots.
fn enter(alloc: Global, run: &mut Run, id: usize, slots: u32) -> Result<(), AllocError>
    ensures enters { OnOk result (Enters run.old run.new id slots) }
    ensures steps { run.new.steps ≡ run.old.steps }
    ensures text_open { run.new.text_open ≡ run.old.text_open }
{
    run.live.push(id)?;
    let handled = mem::replace(&mut run.handled, Vec::new(alloc));
    run.frames.enter(slots, handled)?;
    Ok(())
}

/// Leaves the frame of a callee.
fn leave(run: &mut Run)
    requires { 0 < length run.old.frames.callers }
    ensures { Leaves run.old run.new }
{
    run.handled = run.frames.leave();
    let _id = run.live.pop();
}

/// The next places of the frame take the parameters.
fn bind_params(run: &mut Run, params: Vec<Value>)
    requires room { length params.items ≤ room_of run.old }
    ensures bound { Bound (map value_of params.items) run.old run.new }
{
    for x in params {
        push(run, x);
    }
}

/// The next places of the frame take the formals, each with the bitfields of its type, of as many.
fn bind_formals(
    alloc: Global,
    run: &mut Run,
    formals: &[Ty],
    args: &[Value],
) -> Result<(), AllocError>
    requires as_many { length formals.now ≡ length args.now }
    requires room { length formals.now ≤ room_of run.old }
    ensures bound { OnOk result (BoundFormals formals.now (map value_of args.now) run.old run.new) }
    ensures same { SameBut run.old run.new }
{
    let mut i = 0;
    while i < formals.len() {
        push(run, see(alloc, &formals[i], &args[i])?);
        i += 1;
    }
    Ok(())
}

/// The parameters of a callee: those in braces, or else the widths of arguments in these places.
#[inline(never)]
fn params_given(
    alloc: Global,
    span: Span,
    widths: &[usize],
    given: Given,
) -> Result<Vec<Value>, Stop>
    ensures { Is (λ list. map value_of list.items) result
        (rules.params_of span widths.now (map value_of given.entry.params.now) (map value_of given.entry.args.now)) }
{
    if widths.is_empty() && given.params.is_empty() {
        return Ok(Vec::new(alloc));
    }
    let params = listed(alloc, given.params)?;
    Ok(params_of(alloc, span, widths, params, given.args)?)
}

// ---- calls

/// The values of parameters and of arguments.
#[derive(Clone, Copy)]
pub struct Given<'r> {
    pub params: &'r [Value],
    pub args: &'r [Value],
}

/// The value of a call.
pub fn eval_call<K: Sink, N: Nodes<K>>(
    here: &N,
    run: &mut Run,
    sink: &mut K,
    call: Call,
) -> Result<Value, Stop>
    requires ready { N.ready here.now }
    ensures { Ran value_of result (N.setting here.now)
        (λ c. forms.call (list_of (all_trees call.entry.params.now)) (list_of (all_trees call.entry.args.now)) c
        (body_of (N.setting here.now).funcs.now call.entry) (forms.function_gives call.entry.span))
        (at K.Sink run.old sink.old) (at K.Sink run.new sink.new) }
{
    match call_subprogram(here, run, sink, call)? {
        Some(x) => Ok(x),
        None => Err(Stop::Stuck(Mistake::WrongKind, call.span)),
    }
}

/// Executes a call.
pub fn exec_invoke<K: Sink, N: Nodes<K>>(
    here: &N,
    run: &mut Run,
    sink: &mut K,
    call: Call,
) -> Result<Exit, Stop>
    requires ready { N.ready here.now }
    ensures { Ran exit_of result (N.setting here.now)
        (λ c. forms.call (list_of (all_trees call.entry.params.now)) (list_of (all_trees call.entry.args.now)) c
        (body_of (N.setting here.now).funcs.now call.entry) (forms.procedure_gives call.entry.span))
        (at K.Sink run.old sink.old) (at K.Sink run.new sink.new) }
{
    match call_subprogram(here, run, sink, call)? {
        None => Ok(Exit::Normal),
        Some(_x) => Err(Stop::Stuck(Mistake::WrongKind, call.span)),
    }
}

/// The parameters in braces, the arguments, and what the callee gives for their values: a function a value, a procedure none.
/// What a case needs of the native stack is in a function of its own, since this one is open as long as the callee is.
fn call_subprogram<K: Sink, N: Nodes<K>>(
    here: &N,
    run: &mut Run,
    sink: &mut K,
    call: Call,
) -> Result<Option<Value>, Stop>
    requires ready { N.ready here.now }
    ensures { Ran (option_map value_of) result (N.setting here.now) (call_given (N.setting here.now).funcs.now call.entry)
        (at K.Sink run.old sink.old) (at K.Sink run.new sink.new) }
{
    if call.params.is_empty() {
        call_on(here, run, sink, call, &[])
    } else {
        call_on_params(here, run, sink, call)
    }
}

/// The same with a list of the values of the parameters.
#[inline(never)]
fn call_on_params<K: Sink, N: Nodes<K>>(
    here: &N,
    run: &mut Run,
    sink: &mut K,
    call: Call,
) -> Result<Option<Value>, Stop>
    requires ready { N.ready here.now }
    ensures { Ran (option_map value_of) result (N.setting here.now) (call_given (N.setting here.now).funcs.now call.entry)
        (at K.Sink run.old sink.old) (at K.Sink run.new sink.new) }
{
    let params = eval_all(here, run, sink, call.params)?;
    call_on(here, run, sink, call, params.as_slice())
}

/// The arguments, and what the callee gives for these parameters and their values. One argument takes no list.
fn call_on<K: Sink, N: Nodes<K>>(
    here: &N,
    run: &mut Run,
    sink: &mut K,
    call: Call,
    params: &[Value],
) -> Result<Option<Value>, Stop>
    requires ready { N.ready here.now }
    ensures { Ran (option_map value_of) result (N.setting here.now)
        (λ c. forms.eval_all (list_of (all_trees call.entry.args.now)) [] c
        (body_of (N.setting here.now).funcs.now call.entry (map value_of params.now)))
        (at K.Sink run.old sink.old) (at K.Sink run.new sink.new) }
{
    if call.args.len() == 1 {
        call_on_one(here, run, sink, call, params)
    } else {
        call_on_list(here, run, sink, call, params)
    }
}

/// The same with one argument.
#[inline(never)]
fn call_on_one<K: Sink, N: Nodes<K>>(
    here: &N,
    run: &mut Run,
    sink: &mut K,
    call: Call,
    params: &[Value],
) -> Result<Option<Value>, Stop>
    requires ready { N.ready here.now }
    requires one { length call.args.now ≡ 1 }
    ensures { Ran (option_map value_of) result (N.setting here.now)
        (λ c. forms.eval_all (list_of (all_trees call.entry.args.now)) [] c
        (body_of (N.setting here.now).funcs.now call.entry (map value_of params.now)))
        (at K.Sink run.old sink.old) (at K.Sink run.new sink.new) }
{
    let x = Held::new(here.eval(run, sink, &call.args[0])?);
    let given = Given {
        params,
        args: slice::from_ref(x.get()),
    };
    call_with(here, run, sink, call, given)
}

/// The same with a list of the values of the arguments.
#[inline(never)]
fn call_on_list<K: Sink, N: Nodes<K>>(
    here: &N,
    run: &mut Run,
    sink: &mut K,
    call: Call,
    params: &[Value],
) -> Result<Option<Value>, Stop>
    requires ready { N.ready here.now }
    ensures { Ran (option_map value_of) result (N.setting here.now)
        (λ c. forms.eval_all (list_of (all_trees call.entry.args.now)) [] c
        (body_of (N.setting here.now).funcs.now call.entry (map value_of params.now)))
        (at K.Sink run.old sink.old) (at K.Sink run.new sink.new) }
{
    let args = eval_all(here, run, sink, call.args)?;
    let given = Given {
        params,
        args: args.as_slice(),
    };
    call_with(here, run, sink, call, given)
}

/// What the callee gives.
fn call_with<K: Sink, N: Nodes<K>>(
    here: &N,
    run: &mut Run,
    sink: &mut K,
    call: Call,
    given: Given,
) -> Result<Option<Value>, Stop>
    requires ready { N.ready here.now }
    ensures { Ran (option_map value_of) result (N.setting here.now)
        (body_of (N.setting here.now).funcs.now call.entry (map value_of given.entry.params.now) (map value_of given.entry.args.now))
        (at K.Sink run.old sink.old) (at K.Sink run.new sink.new) }
{
    match call.callee {
        Callee::Own(id) => call_own(here, run, sink, call, id, given),
        Callee::OfLibrary(which) => Ok(Some(routine(
            here.setting().alloc,
            call.span,
            which,
            given.params,
            given.args,
        )?)),
    }
}

/// A call of a subprogram of the program.
fn call_own<K: Sink, N: Nodes<K>>(
    here: &N,
    run: &mut Run,
    sink: &mut K,
    call: Call,
    id: usize,
    given: Given,
) -> Result<Option<Value>, Stop>
    requires ready { N.ready here.now }
    ensures { Ran (option_map value_of) result (N.setting here.now)
        (λ c. rules.called call.entry.span id call.entry.widths.now (map value_of given.entry.params.now) (map value_of given.entry.args.now) c
        (slice_get (all_funcs (N.setting here.now).funcs.now) id))
        (at K.Sink run.old sink.old) (at K.Sink run.new sink.new) }
{
    match here.setting().funcs.as_slice().get(id) {
        None => Err(Stop::Stuck(Mistake::UnknownName, call.span)),
        Some(func) => call_limited(
            here,
            run,
            sink,
            Called {
                span: call.span,
                id,
                func,
            },
            call.widths,
            given,
        ),
    }
}

/// D11 where it is as often active as it may be.
fn call_limited<K: Sink, N: Nodes<K>>(
    here: &N,
    run: &mut Run,
    sink: &mut K,
    called: Called,
    widths: &[usize],
    given: Given,
) -> Result<Option<Value>, Stop>
    requires ready { N.ready here.now }
    ensures { Ran (option_map value_of) result (N.setting here.now)
        (λ c. rules.called called.entry.span called.entry.id widths.now (map value_of given.entry.params.now) (map value_of given.entry.args.now) c
        (Some (func_of called.entry.func.now)))
        (at K.Sink run.old sink.old) (at K.Sink run.new sink.new) }
{
    if !may_enter(called.id, run.live.as_slice(), called.func.limit) {
        return Err(Stop::Fault(DynCode::D11, called.span));
    }
    let params = params_given(here.setting().alloc, called.span, widths, given)?;
    run_func(here, run, sink, called, params, given.args)
}

/// Runs a subprogram with these parameters and arguments, of which there are as many as it has formals.
pub(crate) fn run_func<K: Sink, N: Nodes<K>>(
    here: &N,
    run: &mut Run,
    sink: &mut K,
    called: Called,
    params: Vec<Value>,
    args: &[Value],
) -> Result<Option<Value>, Stop>
    requires ready { N.ready here.now }
    ensures { Ran (option_map value_of) result (N.setting here.now)
        (rules.run_with called.entry.span called.entry.id (func_of called.entry.func.now) (map value_of params.items) (map value_of args.now))
        (at K.Sink run.old sink.old) (at K.Sink run.new sink.new) }
{
    let func = called.func;
    if func.formals.as_slice().len() != args.len() {
        return Err(Stop::Stuck(Mistake::WrongKind, called.span));
    }
    enter_with(here.setting().alloc, run, called, params, args)?;
    run_body(here, run, sink, func)
}

/// Enters the frame of a subprogram, with its parameters and its formals in the first places.
fn enter_with(
    alloc: Global,
    run: &mut Run,
    called: Called,
    params: Vec<Value>,
    args: &[Value],
) -> Result<(), AllocError>
    requires as_many { length called.func.now.formals ≡ length args.now }
    ensures enters { OnOk result (EntersWith called.entry.id called.entry.func.now (map value_of params.items) (map value_of args.now) run.old run.new) }
    ensures steps { run.new.steps ≡ run.old.steps }
    ensures text_open { run.new.text_open ≡ run.old.text_open }
{
    let formals = called.func.formals.as_slice();
    let slots = slots_for(params.len(), formals.len(), called.func.body.slots())?;
    enter(alloc, run, called.id, slots)?;
    bind_params(run, params);
    bind_formals(alloc, run, formals, args)
}

/// Runs the body of a subprogram in its frame, which was entered, and leaves it.
fn run_body<K: Sink, N: Nodes<K>>(
    here: &N,
    run: &mut Run,
    sink: &mut K,
    func: &TreeFunc,
) -> Result<Option<Value>, Stop>
    requires ready { N.ready here.now }
    requires entered { 0 < length run.old.frames.callers }
    requires room { func.now.body.slots ≤ room_of run.old }
    ensures { RanBody result (N.setting here.now) func.now
        (at K.Sink run.old sink.old) (at K.Sink run.new sink.new) }
{
    match here.exec_all(run, sink, func.body.list()) {
        Ok(exit) => {
            let given = body_gives(here.setting().alloc, func, exit)?;
            leave(run);
            Ok(given)
        }
        Err(Stop::Thrown(x)) => {
            leave(run);
            Err(Stop::Thrown(x))
        }
        Err(stop) => Err(stop),
    }
}
