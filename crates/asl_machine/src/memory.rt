//! The values of global storage between two calls and in one, and the steps that are left.
ghost use Rattle.std.specs.Prelude.{◌≡◌, false, List, [], ◌∷◌, ◌++◌, take, drop, IfOk, OnOk};
ghost use Rattle.asl_machine.specs.private.Memory.{arranged, held, named, storage_of};
ghost use Rattle.asl_machine.specs.Storage.{given, given_one, taken, taken_one, marks_of, values_in, vars_from};
ghost use Rattle.asl_machine.specs.Work.{IsInitial};

use asl_run::{Frames, Run};
use asl_tree::{Checked, Global as Storage};
use asl_value::{Name, Value, copy};
use std::alloc::{AllocError, Global};
use std::mem;

/// A global variable: its name and its value.
#[derive(Drop)]
pub struct GlobalVar {
    pub name: Name,
    pub value: Value,
}

/// What calls work on.
#[derive(Drop)]
pub(crate) struct Memory {
    /// Of each storage, in source order, whether it can be assigned.
    pub marks: Vec<bool>,
    /// The value of each storage in source order. Between two calls that of a variable is in `vars`.
    pub values: Vec<Value>,
    /// The variables in source order.
    pub vars: Vec<GlobalVar>,
    /// The steps that are left.
    pub steps: u64,
    /// Whether what the last call that ran printed isn't empty and doesn't end in a line feed.
    pub text_open: bool,
}

// ---- before the first call

/// Of each storage whether it can be assigned.
pub(crate) fn marks(alloc: Global, globals: &[Storage]) -> Result<Vec<bool>, AllocError>
    ensures { IfOk result (λ marks. marks.items ≡ marks_of globals.now) }
{
    let mut marks = Vec::new(alloc);
    for g in globals {
        marks.push(g.is_mutable)?;
    }
    Ok(marks)
}

/// The value of each storage.
pub(crate) fn values(alloc: Global, globals: &[Storage]) -> Result<Vec<Value>, AllocError>
    ensures { IfOk result (λ values. values.items ≡ values_in globals.now) }
{
    let mut values = Vec::new(alloc);
    for g in globals {
        values.push(copy(&g.value)?)?;
    }
    Ok(values)
}

/// Keeps storage that can be assigned as a variable.
fn keep_var(vars: &mut Vec<GlobalVar>, g: &Storage) -> Result<(), AllocError>
    ensures { OnOk result (vars.new.items ≡ vars.old.items ++ vars_from (g.now ∷ [])) }
{
    if !g.is_mutable {
        return Ok(());
    }
    let var = GlobalVar {
        name: g.name.share()?,
        value: copy(&g.value)?,
    };
    vars.push(var)?;
    Ok(())
}

/// The storage that can be assigned.
pub(crate) fn vars(alloc: Global, globals: &[Storage]) -> Result<Vec<GlobalVar>, AllocError>
    ensures { IfOk result (λ vars. vars.items ≡ vars_from globals.now) }
{
    let mut vars = Vec::new(alloc);
    for g in globals {
        keep_var(&mut vars, g)?;
    }
    Ok(vars)
}

/// The memory of a machine before its first call.
pub(crate) fn begin(alloc: Global, checked: &Checked, steps: u64) -> Result<Memory, AllocError>
    ensures arranged { IfOk result (λ m. arranged checked.now m) }
    ensures held { IfOk result (λ m. held checked.now m) }
    ensures named { IfOk result (λ m. named checked.now m) }
    ensures globals { IfOk result (λ m. IsInitial checked.now (storage_of m)) }
    ensures steps { IfOk result (λ m. m.steps ≡ steps) }
    ensures text { IfOk result (λ m. m.text_open ≡ false) }
{
    let parts = checked.parts();
    let globals = parts.globals.as_slice();
    Ok(Memory {
        marks: marks(alloc, globals)?,
        values: values(alloc, globals)?,
        vars: vars(alloc, globals)?,
        steps,
        text_open: false,
    })
}

// ---- in a call

/// One place: where it is marked, and a variable is left, it takes the value of the variable at `next`, which takes its own.
/// Answers which variable is the next then.
#[tactic(auto, using(crate::proofs::Places::passed_given, crate::proofs::Places::passed_taken, crate::proofs::Places::ended_given, crate::proofs::Places::ended_taken, crate::proofs::Places::swapped_given, crate::proofs::Places::swapped_taken))]
fn exchange_one(mark: bool, value: &mut Value, vars: &mut Vec<GlobalVar>, next: usize) -> usize
    ensures given { (rest : List GlobalVar → List Value) → given_one mark value.old (drop next vars.old.items) rest ≡ value.new ∷ rest (drop result vars.new.items) }
    ensures taken { (rest : List GlobalVar → List GlobalVar) → take next vars.old.items ++ taken_one mark value.old (drop next vars.old.items) rest ≡ take result vars.new.items ++ rest (drop result vars.new.items) }
{
    if !mark {
        return next;
    }
    if next >= vars.len() {
        return next;
    }
    let var = &mut vars[next];
    mem::swap(&mut var.value, value);
    next + 1
}

/// The places of the variables, which are those that are marked, take the values of these in order, and theirs stand in the
/// variables.
#[tactic(auto, using(crate::proofs::Exchange::given_all, crate::proofs::Exchange::taken_all))]
pub(crate) fn exchange(marks: &[bool], values: &mut Vec<Value>, vars: &mut Vec<GlobalVar>)
    ensures values { values.new.items ≡ given marks.now values.old.items vars.old.items }
    ensures vars { vars.new.items ≡ taken marks.now values.old.items vars.old.items }
{
    let mut i = 0;
    let mut next = 0;
    while i < marks.len() && i < values.len() {
        next = exchange_one(marks[i], &mut values[i], vars, next);
        i += 1;
    }
}

/// The state of a run that begins: the values of storage are moved into it.
pub(crate) fn enter(alloc: Global, memory: &mut Memory) -> Run
    ensures globals { result.frames.globals ≡ storage_of memory.old }
    ensures vars { memory.new.vars.items ≡ taken memory.old.marks.items memory.old.values.items memory.old.vars.items }
    ensures marks { memory.new.marks.items ≡ memory.old.marks.items }
    ensures frame { result.frames.values ≡ [] }
    ensures handled { result.handled.items ≡ [] }
    ensures callers { result.frames.callers ≡ [] }
    ensures live { result.live.items ≡ [] }
    ensures steps { result.steps ≡ memory.old.steps }
    ensures text { result.text_open ≡ false }
{
    exchange(
        memory.marks.as_slice(),
        &mut memory.values,
        &mut memory.vars,
    );
    Run {
        frames: Frames::new(alloc, mem::replace(&mut memory.values, Vec::new(alloc))),
        handled: Vec::new(alloc),
        live: Vec::new(alloc),
        steps: memory.steps,
        text_open: false,
    }
}

/// After a run, which left text open or not: the values of storage are moved back.
pub(crate) fn leave(memory: &mut Memory, run: &mut Run, text_open: bool)
    ensures values { memory.new.values.items ≡ given memory.old.marks.items run.old.frames.globals memory.old.vars.items }
    ensures vars { memory.new.vars.items ≡ taken memory.old.marks.items run.old.frames.globals memory.old.vars.items }
    ensures marks { memory.new.marks.items ≡ memory.old.marks.items }
    ensures steps { memory.new.steps ≡ run.old.steps }
    ensures text { memory.new.text_open ≡ text_open }
{
    run.frames.swap_globals(&mut memory.values);
    exchange(
        memory.marks.as_slice(),
        &mut memory.values,
        &mut memory.vars,
    );
    memory.steps = run.steps;
    memory.text_open = text_open;
}
