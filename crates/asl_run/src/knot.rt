//! The entry into a node: it takes a step, and is refused where none is left (D13) or where no node more may be open (D12).
//! What is evaluated or executed at once isn't entered so.
ghost use Rattle.std.specs.Prelude.{◌≡◌, ℕ, List, Option, None, Some};
ghost use Rattle.asl_rules.specs.runs.StatementForms as forms;
ghost use Rattle.asl_rules.specs.private.TypedMeaning.{acts_of};
ghost use Rattle.asl_rules.specs.runs.Trees.{Note, Read};
ghost use Rattle.asl_tree.specs.Acts.{act_of, all_acts};
ghost use Rattle.asl_tree.specs.private.Room.{FitsAct, FitsList};
ghost use Rattle.asl_value.specs.View.{value_of};
ghost use Rattle.asl_branches.specs.Meets.{Answers, Evaluates, Executes, RanBy, at};
ghost use Rattle.asl_branches.specs.View.{core_of, cutting_of, exit_of, meaning_of, meter_of, room_of};

use crate::acts_at_once::executed;
use crate::at_once::{AtOnce, evaluated};
use crate::exprs::eval_node;
use crate::level::Level;
use crate::places::read;
use crate::stmts::{act_span, exec_node};
use asl_branches::run::Run;
use asl_branches::setting::Setting;
use asl_branches::stop::{Exit, Stop};
use asl_io::Sink;
use asl_rules::slot::Slot;
use asl_syn::code::DynCode;
use asl_syn::token::Span;
use asl_tree::act::Act;
use asl_tree::tree::Tree;
use asl_value::{Value, plain_bits};
use sqlite_items::Items;

/// The value of an expression.
#[cycle(run)]
pub fn eval<K: Sink>(here: Setting, run: &mut Run, sink: &mut K, e: &Tree) -> Result<Value, Stop>
    ensures { Evaluates result here.entry e.now (at K.Sink run.old sink.old) (at K.Sink run.new sink.new) }
{
    if let Tree::Read(note, slot) = e {
        return enter_read(here, run, note.span, *slot);
    }
    let mut left = run.steps;
    match evaluated(here.alloc, run, &mut left, here.depth, e) {
        AtOnce::Integer(z) => {
            run.steps = left;
            Ok(Value::Int(z))
        }
        AtOnce::Truth(b) => {
            run.steps = left;
            Ok(Value::Bool(b))
        }
        AtOnce::Bits(bits) => {
            run.steps = left;
            Ok(plain_bits(bits))
        }
        AtOnce::Neither => enter_expr(here, run, sink, e),
    }
}

/// The value of a name whose node is entered. It has no node below, so nothing is made ready for one.
#[tactic(auto, using(crate::proofs::Entries::expr_stepless, crate::proofs::Entries::expr_deep, crate::proofs::Entries::read_entered))]
pub fn enter_read(here: Setting, run: &mut Run, span: Span, slot: Slot) -> Result<Value, Stop>
    ensures { (note : Note) (told : Option (List ℕ)) (faults : ℕ) (full : Option ℕ) → note.span ≡ span →
        Answers (Some 0) value_of result
        ((meaning_of here.entry.funcs.now here.entry.depth).expr (Read note slot) (core_of run.old) (meter_of run.old told))
        ((cutting_of here.entry.funcs.now here.entry.depth).expr (Read note slot) (core_of run.old) (meter_of run.old told))
        (record { run = run.old; told = told; faults = faults; full = full })
        (record { run = run.new; told = told; faults = faults; full = full }) }
{
    if run.steps == 0 {
        return Err(Stop::Fault(DynCode::D13, span));
    }
    if here.depth == 0 {
        return Err(Stop::Fault(DynCode::D12, span));
    }
    run.steps -= 1;
    read(run, span, slot)
}

/// The value of an expression whose node is entered.
#[cycle(run)]
#[tactic(auto, using(crate::proofs::Entries::expr_stepless, crate::proofs::Entries::expr_deep, crate::proofs::Entries::expr_entered))]
fn enter_expr<K: Sink>(here: Setting, run: &mut Run, sink: &mut K, e: &Tree) -> Result<Value, Stop>
    ensures { Evaluates result here.entry e.now (at K.Sink run.old sink.old) (at K.Sink run.new sink.new) }
{
    if run.steps == 0 {
        return Err(Stop::Fault(DynCode::D13, e.span()));
    }
    if here.depth == 0 {
        return Err(Stop::Fault(DynCode::D12, e.span()));
    }
    run.steps -= 1;
    eval_node(
        &Level {
            setting: Setting {
                alloc: here.alloc,
                funcs: here.funcs,
                depth: here.depth - 1,
            },
            eval: eval::<K>,
            exec: exec_all::<K>,
        },
        run,
        sink,
        e,
    )
}

/// Executes a statement.
#[cycle(run)]
pub fn exec<K: Sink>(here: Setting, run: &mut Run, sink: &mut K, s: &Act) -> Result<Exit, Stop>
    requires room { FitsAct (room_of run.old) (act_of s.now) }
    ensures { Executes result here.entry s.now (at K.Sink run.old sink.old) (at K.Sink run.new sink.new) }
{
    match executed(here.alloc, run, here.depth, s) {
        Some(exit) => Ok(exit),
        None => enter_stmt(here, run, sink, s),
    }
}

/// Executes a statement whose node is entered.
#[cycle(run)]
#[tactic(auto, using(crate::proofs::Entries::stmt_stepless, crate::proofs::Entries::stmt_deep, crate::proofs::Entries::stmt_entered))]
fn enter_stmt<K: Sink>(here: Setting, run: &mut Run, sink: &mut K, s: &Act) -> Result<Exit, Stop>
    requires room { FitsAct (room_of run.old) (act_of s.now) }
    ensures { Executes result here.entry s.now (at K.Sink run.old sink.old) (at K.Sink run.new sink.new) }
{
    if run.steps == 0 {
        return Err(Stop::Fault(DynCode::D13, act_span(s)));
    }
    if here.depth == 0 {
        return Err(Stop::Fault(DynCode::D12, act_span(s)));
    }
    run.steps -= 1;
    exec_node(
        &Level {
            setting: Setting {
                alloc: here.alloc,
                funcs: here.funcs,
                depth: here.depth - 1,
            },
            eval: eval::<K>,
            exec: exec_all::<K>,
        },
        run,
        sink,
        s,
    )
}

/// Executes statements in order, up to one that returns.
#[cycle(run)]
pub fn exec_all<K: Sink>(
    here: Setting,
    run: &mut Run,
    sink: &mut K,
    list: &Items<Act>,
) -> Result<Exit, Stop>
    requires room { FitsList (room_of run.old) (all_acts list.now) }
    ensures { RanBy None exit_of result here.entry (forms.in_order (acts_of (all_acts list.now)))
        (at K.Sink run.old sink.old) (at K.Sink run.new sink.new) }
{
    for s in list.as_slice() {
        match exec(here, run, sink, s)? {
            Exit::Normal => {}
            Exit::Returned(x) => return Ok(Exit::Returned(x)),
        }
    }
    Ok(Exit::Normal)
}
