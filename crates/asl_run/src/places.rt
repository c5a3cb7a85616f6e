//! The places of a state.
ghost use Rattle.std.specs.Prelude.{◌≡◌, Some, length, map, option_map};
ghost use Rattle.std.specs.Option.{option_copied};
ghost use Rattle.asl_bits.specs.declared.TheConstants.{WIDTH_LIMIT};
ghost use Rattle.asl_rules.specs.runs.Plans.{lift};
ghost use Rattle.asl_rules.specs.runs.Pures.{known};
ghost use Rattle.asl_rules.specs.runs.StatementForms.{done_normal};
ghost use Rattle.asl_rules.specs.private.TypedMeaning as rules;
ghost use Rattle.asl_value.specs.private.Forms.{all_steps};
ghost use Rattle.asl_value.specs.View.{value_of};
ghost use Rattle.asl_branches.specs.Meets.{Acts, Grows, Is, Keeps, NoneRefused, Stores};
ghost use Rattle.asl_branches.specs.View.{core_of};
ghost use Rattle.asl_run.specs.private.Storing.{stored_in};

use asl_branches::frames::Frames;
use asl_branches::run::Run;
use asl_branches::stop::{Exit, Mistake, Stop};
use asl_rules::slot::Slot;
use asl_syn::token::Span;
use asl_value::{Step, Value, copy};
use std::alloc::Global;

// ---- reading

/// The value in a place.
#[tactic(auto, using(crate::proofs::Slots::value_at_place))]
pub fn value_at(run: &Run, slot: Slot) -> Option<&Value>
    ensures { option_map value_of (option_copied result) ≡ rules.value_at slot (core_of run.now) }
{
    match slot {
        Slot::Local(i) => run.frames.value(i),
        Slot::Global(i) => run.frames.global(i),
    }
}

/// A copy of the value in a place, over the same parts.
pub fn read(run: &Run, span: Span, slot: Slot) -> Result<Value, Stop>
    ensures { Is value_of result (known span (rules.value_at slot (core_of run.now))) }
{
    match value_at(run, slot) {
        Some(value) => Ok(copy(value)?),
        None => Err(Stop::Stuck(Mistake::UnknownName, span)),
    }
}

// ---- storing

/// Where in a place a value is stored: at the end of these steps. A fault stands at the span.
#[derive(Clone, Copy)]
pub struct Storing<'a> {
    pub span: Span,
    pub steps: &'a [Step],
    /// Whether bits occur in the type of what is stored.
    pub holds_bits: bool,
}

/// A store into one of the values of the frame, in place where each part on the way has one owner.
fn store_local(
    alloc: Global,
    frames: &mut Frames,
    at: usize,
    storing: &Storing,
    value: Value,
) -> Result<(), Stop>
    ensures stores { Stores result
        (stored_in storing.now.holds_bits storing.now.span at (all_steps storing.now.steps.now) (value_of value) (map value_of frames.old.values))
        frames.old.values frames.new.values }
    ensures as_many { length frames.new.values ≡ length frames.old.values }
    ensures same { frames.new ≡ record frames.old { values = frames.new.values } }
{
    if at >= frames.height() {
        drop(value);
        return Err(Stop::Stuck(Mistake::UnknownName, storing.span));
    }
    frames.replace(alloc, at, storing.steps, storing.holds_bits, value)?;
    Ok(())
}

/// A store into one of the globals.
fn store_global(
    alloc: Global,
    frames: &mut Frames,
    at: usize,
    storing: &Storing,
    value: Value,
) -> Result<(), Stop>
    ensures stores { Stores result
        (stored_in storing.now.holds_bits storing.now.span at (all_steps storing.now.steps.now) (value_of value) (map value_of frames.old.globals))
        frames.old.globals frames.new.globals }
    ensures same { frames.new ≡ record frames.old { globals = frames.new.globals } }
{
    if at >= frames.globals() {
        drop(value);
        return Err(Stop::Stuck(Mistake::UnknownName, storing.span));
    }
    frames.replace_global(alloc, at, storing.steps, storing.holds_bits, value)?;
    Ok(())
}

/// A store into a place. At a fault the place holds what it held.
pub fn assign_at(
    alloc: Global,
    run: &mut Run,
    slot: Slot,
    storing: &Storing,
    value: Value,
) -> Result<Exit, Stop>
    ensures acts { Acts result
        (λ c. lift (rules.stored WIDTH_LIMIT storing.now.holds_bits storing.now.span slot (value_of value) (all_steps storing.now.steps.now) c) c done_normal)
        run.old run.new }
    ensures none_refused { NoneRefused result }
    ensures keeps { Keeps result run.old run.new }
    ensures grows { Grows (Some 0) result run.old run.new }
{
    match slot {
        Slot::Local(i) => {
            store_local(alloc, &mut run.frames, i, storing, value)?;
            Ok(Exit::Normal)
        }
        Slot::Global(i) => {
            store_global(alloc, &mut run.frames, i, storing, value)?;
            Ok(Exit::Normal)
        }
    }
}
