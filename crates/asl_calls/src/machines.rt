//! Machines over texts, and calls of their `main`.
ghost use Rattle.std.specs.Prelude.{◌≡◌, IfSome};
ghost use Rattle.asl_rules.specs.private.Grown.{AreReadGrown};
ghost use Rattle.asl_calls.specs.private.Callable.{HasCallableMain};

use asl_check::check;
use asl_io::MemSink;
use asl_machine::{Machine, Outcome, RunRefused};
use asl_parse::parse;
use asl_rules::entry::Entry;
use asl_syn::place::{MAX_BYTES, Source};
use asl_syn::read::ReadProgram;
use asl_tree::Checked;
use std::alloc::Global;

/// The steps of a machine.
const STEPS: u64 = 1_000_000;

/// The program of a text; none where there is a fault, or memory is wanting.
#[tactic(auto, using(crate::proofs::Callable::grown))]
fn program_of(alloc: Global, text: &[u8]) -> Option<ReadProgram>
    ensures { IfSome result (λ program. AreReadGrown program.decls) }
{
    if MAX_BYTES < text.len() {
        return None;
    }
    let name = String::from_str(alloc, "a.asl").ok()?;
    let bytes = text.to_vec(alloc).ok()?;
    let source = Source { name, bytes };
    match parse(alloc, std::slice::from_ref(&source)) {
        Ok(program) => Some(program),
        Err(_) => None,
    }
}

/// The program, checked with the entry `main`; none where there is a fault, or memory is wanting.
#[tactic(auto, using(crate::proofs::Callable::has_callable_main))]
fn checked_of(alloc: Global, program: ReadProgram) -> Option<Checked>
    requires { AreReadGrown program.decls }
    ensures { IfSome result HasCallableMain }
{
    match check(alloc, program, Entry::Main) {
        Ok(checked) => Some(checked),
        Err(_) => None,
    }
}

/// A machine for the program of a text with a `main`; none where there is a fault, or memory is wanting.
pub fn machine_of(alloc: Global, text: &[u8]) -> Option<Machine>
    ensures { IfSome result (λ machine. HasCallableMain machine.checked) }
{
    let program = program_of(alloc, text)?;
    let checked = checked_of(alloc, program)?;
    match Machine::new(alloc, checked, STEPS) {
        Ok(machine) => Some(machine),
        Err(_) => None,
    }
}

/// Calls `main`, and gives the answer.
#[tactic(auto, using(crate::proofs::Callable::callable_so))]
pub fn call_main(
    alloc: Global,
    machine: &mut Machine,
    sink: &mut MemSink,
) -> Option<Result<Outcome, RunRefused>>
    requires { HasCallableMain machine.old.checked }
    ensures { machine.new.checked ≡ machine.old.checked }
{
    let main = machine.checked().entry()?;
    Some(machine.call(alloc, main, Vec::new(alloc), sink))
}
