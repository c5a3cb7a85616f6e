//! A machine that runs a checked program.
ghost use Rattle.std.specs.Prelude.{◌≡◌, ◌-◌, ◌≤◌, [], Some, OnErr, IfOk, map};
ghost use Rattle.std.specs.Option.{option_copied};
ghost use Rattle.asl_rules.specs.runs.Machines.{GivenUp};
ghost use Rattle.asl_rules.specs.runs.Plans.{final};
ghost use Rattle.asl_rules.specs.Tests.{Tests};
ghost use Rattle.asl_types.specs.Suits.{Suits};
ghost use Rattle.asl_value.specs.View.{value_of};
ghost use Rattle.asl_machine.specs.Stages.{OnReady, OnRun, OnEnded, answer_of, returned_by, uncaught_by, Counted};
ghost use Rattle.asl_machine.specs.Storage.{var_of, vars_in};
ghost use Rattle.asl_machine.specs.Took.{Took};
ghost use Rattle.asl_machine.specs.Work.{AreNamed, IsCallable, IsNew, EndsWith, globals_of, run_with, text_with};

use crate::memory::{GlobalVar, Memory, begin};
use crate::runs::run_checked;
use crate::stage::{Outcome, RunRefused, Stage, answer, is_ready};
use asl_io::Sink;
use asl_tree::{Checked, SubId};
use asl_value::Value;
use std::alloc::{AllocError, Global};
use std::marker::Model;

/// A machine that runs a checked program, call by call, over globals that stay.
#[derive(Drop)]
pub struct Machine {
    checked: Checked,
    memory: Memory,
    stage: Stage,
}

impl Model for Machine {
    ghost use Rattle.asl_machine.specs.private.Memory.{arranged, held, named, storage_of};
    ghost use Rattle.asl_machine.specs.Stages.{OnReady, OnRun};
    ghost use Rattle.asl_machine.specs.Work.{Work, work_code};

    ghost Value = { Work };

    ghost coded = { work_code };

    ghost view = { λ m. record { checked = m.checked; storage = storage_of m.memory; steps = m.memory.steps; text_open = m.memory.text_open; stage = m.stage } };

    ghost invariant = { λ m. OnRun m.stage (arranged m.checked m.memory) × OnReady m.stage (held m.checked m.memory) × named m.checked m.memory };
}

impl Machine {
    /// A machine for this program, its globals at their initial values, with so many steps left.
    pub fn new(alloc: Global, checked: Checked, steps: u64) -> Result<Machine, AllocError>
        ensures { IfOk result (λ m. IsNew m checked steps) }
    {
        let memory = begin(alloc, &checked, steps)?;
        Ok(Machine {
            checked,
            memory,
            stage: Stage::Ready(None),
        })
    }

    /// Calls a subprogram that has no parameters, with arguments in the types of its formals. The printed text goes
    /// to the sink as it comes. After any answer but `Returned` the machine has ended: every later call gives the same
    /// answer and writes nothing. After `Returned` the globals and the steps that are left go on.
    ///
    /// Whatever it answers, a front of the call's text was written behind what the sink held, and `text_open` says whether
    /// that is open. No step is given back, and no more are taken than the whole call takes. So where the run was given up,
    /// they fell by the nodes that were entered: by so many that what was written is no longer than the text of a call
    /// with so many steps, and no shorter than that with one less.
    pub fn call<K: Sink>(
        &mut self,
        alloc: Global,
        sub: SubId,
        args: Vec<Value>,
        sink: &mut K,
    ) -> Result<Outcome, RunRefused>
        requires { (t : Tests) → Suits t → IsCallable t self.old.checked sub (map value_of args.items) }
        ensures answer { result ≡ answer_of self.new.stage }
        ensures checked { self.new.checked ≡ self.old.checked }
        ensures outcome { (t : Tests) → Suits t → OnReady self.old.stage
            (EndsWith t self.new (K.written sink.new)
            (run_with t self.old sub (map value_of args.items) (K.written sink.old))) }
        ensures given_up { (t : Tests) → Suits t → OnReady self.old.stage
            (OnErr result
            (GivenUp (text_with t self.old sub (map value_of args.items) (K.written sink.old))
            (K.written sink.old) (K.written sink.new)
            self.old.steps (self.old.steps - self.new.steps))) }
        ensures text_open { (t : Tests) → Suits t → OnReady self.old.stage
            (Took (text_with t self.old sub (map value_of args.items) (Some []) self.old.steps)
            (K.written sink.old) (K.written sink.new) self.new.text_open) }
        ensures fewer { self.new.steps ≤ self.old.steps }
        ensures no_more { (t : Tests) → Suits t → OnReady self.old.stage
            ((final (run_with t self.old sub (map value_of args.items) (K.written sink.old))).steps ≤ self.new.steps) }
        ensures again { OnEnded self.old.stage
            ((self.new ≡ self.old) × (K.written sink.new ≡ K.written sink.old)) }
        ensures counts { OnReady self.old.stage
            (Counted self.new.stage (K.faults sink.old) (K.faults sink.new)) }
        ensures counts_again { OnEnded self.old.stage (K.faults sink.new ≡ K.faults sink.old) }
        ensures same_full { K.full sink.new ≡ K.full sink.old }
    {
        if !is_ready(&self.stage) {
            return answer(&self.stage);
        }
        let args = args.as_slice();
        self.stage = run_checked(alloc, &self.checked, &mut self.memory, sink, sub, args);
        answer(&self.stage)
    }

    /// The program that it was made with.
    pub fn checked(&self) -> &Checked
        ensures { result.now ≡ self.now.checked }
    {
        &self.checked
    }

    /// The global variables: one for each that the program declares, in source order, whatever a call answered. After a run
    /// that was given up nothing is said of their values.
    pub fn globals(&self) -> &[GlobalVar]
        ensures names { AreNamed self.now.checked result.now }
        ensures values { (t : Tests) → Suits t → OnRun self.now.stage (map var_of result.now ≡ vars_in (globals_of t self.now)) }
    {
        self.memory.vars.as_slice()
    }

    /// The steps that are left. After a run that was given up, those that were left when it was.
    pub fn steps_left(&self) -> u64
        ensures { result ≡ self.now.steps }
    {
        self.memory.steps
    }

    /// Whether what the last call that ran printed isn't empty and doesn't end in a line feed. Where the sink refused a write,
    /// what it took of the text decides.
    pub fn text_open(&self) -> bool
        ensures { result ≡ self.now.text_open }
    {
        self.memory.text_open
    }

    /// The exception that the machine has ended in, none where it hasn't ended so.
    pub fn uncaught(&self) -> Option<&Value>
        ensures { option_copied result ≡ uncaught_by self.now.stage }
    {
        match &self.stage {
            Stage::Ready(_) => None,
            Stage::Uncaught(x) => Some(x),
            Stage::Fault(_, _) => None,
            Stage::Refused(_) => None,
        }
    }

    /// The value that the last call returned, none where no call ran or the last that ran returned none.
    pub fn returned(&self) -> Option<&Value>
        ensures { option_copied result ≡ returned_by self.now.stage }
    {
        match &self.stage {
            Stage::Ready(Some(x)) => Some(x),
            Stage::Ready(None) => None,
            Stage::Uncaught(_) => None,
            Stage::Fault(_, _) => None,
            Stage::Refused(_) => None,
        }
    }
}
