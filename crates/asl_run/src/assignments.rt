//! Assignments: a value, or parts of it, stored at places.
ghost use Rattle.std.specs.Prelude.{◌≡◌, [], ◌∷◌, length, map, IfOk};
ghost use Rattle.asl_bits.specs.declared.TheConstants.{WIDTH_LIMIT};
ghost use Rattle.asl_rules.specs.private.ByPlace.{into_slices};
ghost use Rattle.asl_rules.specs.runs.Forms.{eval_all as in_turn};
ghost use Rattle.asl_rules.specs.runs.Plans.{Ret, lift};
ghost use Rattle.asl_rules.specs.private.HoldsBits as bits;
ghost use Rattle.asl_rules.specs.runs.StatementForms as forms;
ghost use Rattle.asl_rules.specs.runs.Trees.{tree_type};
ghost use Rattle.asl_rules.specs.private.TypedMeaning as rules;
ghost use Rattle.asl_rules.specs.private.TypedMeaning.{list_of};
ghost use Rattle.asl_tree.specs.Acts.{all_places};
ghost use Rattle.asl_tree.specs.View.{tree_of, all_trees};
ghost use Rattle.asl_value.specs.private.Forms.{step_of, all_steps};
ghost use Rattle.asl_value.specs.View.{value_of, all_slices};
ghost use Rattle.asl_branches.specs.Meets.{at, Is, Ran};
ghost use Rattle.asl_branches.specs.View.{exit_of};
ghost use Rattle.asl_run.specs.private.Storing.{stepped, all_stepped, parts_in, taking, all_taking};

use crate::places::{Storing, assign_at};
use asl_branches::below::Nodes;
use asl_branches::lists::eval_all;
use asl_branches::run::Run;
use asl_branches::stop::{Exit, Stop};
use asl_io::Sink;
use asl_shared::Held;
use asl_syn::token::Span;
use asl_tree::act::{TreePlace, TreeStep};
use asl_tree::tree::Tree;
use asl_value::{BitField, SliceShape, Step, Value, copy, part_in};
use sqlite_items::Items;
use std::alloc::{AllocError, Global};

/// An expression, and the stores of its value.
pub fn exec_assign<K: Sink, N: Nodes<K>>(
    here: &N,
    run: &mut Run,
    sink: &mut K,
    targets: &[TreePlace],
    e: &Tree,
) -> Result<Exit, Stop>
    requires ready { N.ready here.now }
    ensures { Ran exit_of result (N.setting here.now)
        (forms.assignment (tree_of e.now) (rules.stores WIDTH_LIMIT (bits.holds_bits (tree_type (tree_of e.now))) (all_places targets.now)))
        (at K.Sink run.old sink.old) (at K.Sink run.new sink.new) }
{
    let holds_bits = e.ty().holds_bits();
    let x = here.eval(run, sink, e)?;
    store(here, run, sink, targets, holds_bits, x)
}

/// Stores a value at these places, each its part; it is known whether bits occur in its type.
#[tactic(auto, using(crate::proofs::Storing::stores_are))]
fn store<K: Sink, N: Nodes<K>>(
    here: &N,
    run: &mut Run,
    sink: &mut K,
    targets: &[TreePlace],
    holds_bits: bool,
    value: Value,
) -> Result<Exit, Stop>
    requires ready { N.ready here.now }
    ensures { Ran exit_of result (N.setting here.now)
        (λ c. lift (rules.stores WIDTH_LIMIT holds_bits (all_places targets.now) (value_of value)) c (λ ss. forms.store_each ss c))
        (at K.Sink run.old sink.old) (at K.Sink run.new sink.new) }
{
    if targets.len() == 1 && targets[0].way.is_empty() {
        return store_at(here, run, sink, &targets[0], holds_bits, value);
    }
    let parts = parts_of(here.setting().alloc, targets, value)?;
    store_all(here, run, sink, targets, holds_bits, parts.as_slice())
}

/// The parts of a value that places take, in order.
fn parts_of(alloc: Global, targets: &[TreePlace], value: Value) -> Result<Items<Value>, Stop>
    ensures parts { Is (map value_of) result (parts_in targets.now (value_of value)) }
    ensures as_many { IfOk result (λ parts. length parts ≡ length targets.now) }
{
    let value = Held::new(value);
    let mut parts = Items::new(alloc);
    for target in targets {
        parts.push(part_in(target.span, target.way.as_slice(), value.get())?)?;
    }
    Ok(parts)
}

/// Stores parts at their places, in turn.
fn store_all<K: Sink, N: Nodes<K>>(
    here: &N,
    run: &mut Run,
    sink: &mut K,
    targets: &[TreePlace],
    holds_bits: bool,
    parts: &[Value],
) -> Result<Exit, Stop>
    requires ready { N.ready here.now }
    requires as_many { length parts.now ≡ length targets.now }
    ensures { Ran exit_of result (N.setting here.now)
        (forms.store_each (all_taking holds_bits targets.now (map value_of parts.now)))
        (at K.Sink run.old sink.old) (at K.Sink run.new sink.new) }
{
    let mut i = 0;
    while i < targets.len() {
        store_one(here, run, sink, &targets[i], holds_bits, &parts[i])?;
        i += 1;
    }
    Ok(Exit::Normal)
}

/// A place takes a copy of a value.
fn store_one<K: Sink, N: Nodes<K>>(
    here: &N,
    run: &mut Run,
    sink: &mut K,
    target: &TreePlace,
    holds_bits: bool,
    part: &Value,
) -> Result<Exit, Stop>
    requires ready { N.ready here.now }
    ensures { Ran exit_of result (N.setting here.now)
        (forms.store_each (taking holds_bits target.now (value_of part.now) ∷ []))
        (at K.Sink run.old sink.old) (at K.Sink run.new sink.new) }
{
    store_at(here, run, sink, target, holds_bits, copy(part)?)
}

/// A place takes a value: the operands of its steps are evaluated, and then it is stored.
fn store_at<K: Sink, N: Nodes<K>>(
    here: &N,
    run: &mut Run,
    sink: &mut K,
    target: &TreePlace,
    holds_bits: bool,
    value: Value,
) -> Result<Exit, Stop>
    requires ready { N.ready here.now }
    ensures { Ran exit_of result (N.setting here.now)
        (forms.store_each (taking holds_bits target.now (value_of value) ∷ []))
        (at K.Sink run.old sink.old) (at K.Sink run.new sink.new) }
{
    let part = Held::new(value);
    let steps = eval_steps(here, run, sink, target.steps.as_slice())?;
    let storing = Storing {
        span: target.span,
        steps: steps.as_slice(),
        holds_bits,
    };
    assign_at(
        here.setting().alloc,
        run,
        target.slot,
        &storing,
        part.into_inner(),
    )
}

/// The steps of a place, the operands evaluated in order.
fn eval_steps<K: Sink, N: Nodes<K>>(
    here: &N,
    run: &mut Run,
    sink: &mut K,
    steps: &[TreeStep],
) -> Result<Items<Step>, Stop>
    requires ready { N.ready here.now }
    ensures { Ran all_steps result (N.setting here.now) (all_stepped steps.now [])
        (at K.Sink run.old sink.old) (at K.Sink run.new sink.new) }
{
    let mut found = Items::new(here.setting().alloc);
    for step in steps {
        let it = eval_step(here, run, sink, step)?;
        found.push(it)?;
    }
    Ok(found)
}

/// A step, its operands evaluated in order.
fn eval_step<K: Sink, N: Nodes<K>>(
    here: &N,
    run: &mut Run,
    sink: &mut K,
    step: &TreeStep,
) -> Result<Step, Stop>
    requires ready { N.ready here.now }
    ensures { Ran step_of result (N.setting here.now) (stepped step.now)
        (at K.Sink run.old sink.old) (at K.Sink run.new sink.new) }
{
    match step {
        TreeStep::Field(span, place) => Ok(Step::Field(*span, *place)),
        TreeStep::Bitfield(span, field) => Ok(Step::Bitfield(*span, field.share()?)),
        TreeStep::Bitfields(span, fields) => {
            let fields = shared_fields(here.setting().alloc, fields.as_slice())?;
            Ok(Step::Bitfields(*span, fields))
        }
        TreeStep::Slices(span, shapes, es) => {
            eval_slices(here, run, sink, *span, shapes.as_slice(), es.as_slice())
        }
        TreeStep::Element(span, e) => {
            let x = here.eval(run, sink, e)?;
            Ok(Step::Element(*span, x))
        }
    }
}

/// The expressions of slices in order.
fn eval_slices<K: Sink, N: Nodes<K>>(
    here: &N,
    run: &mut Run,
    sink: &mut K,
    span: Span,
    shapes: &[SliceShape],
    es: &[Tree],
) -> Result<Step, Stop>
    requires ready { N.ready here.now }
    ensures { Ran step_of result (N.setting here.now)
        (λ c. in_turn (list_of (all_trees es.now)) [] c (λ xs c1. Ret (into_slices span (all_slices shapes.now) xs) c1))
        (at K.Sink run.old sink.old) (at K.Sink run.new sink.new) }
{
    let zs = eval_all(here, run, sink, es)?;
    let shapes = same_shapes(here.setting().alloc, shapes)?;
    Ok(Step::Slices(span, shapes, zs))
}

fn shared_fields(alloc: Global, fields: &[BitField]) -> Result<Items<BitField>, AllocError>
    ensures { IfOk result (λ same. same ≡ fields.now) }
{
    let mut same = Items::new(alloc);
    for field in fields {
        same.push(field.share()?)?;
    }
    Ok(same)
}

fn same_shapes(alloc: Global, shapes: &[SliceShape]) -> Result<Items<SliceShape>, AllocError>
    ensures { IfOk result (λ same. same ≡ shapes.now) }
{
    let mut same = Items::new(alloc);
    for shape in shapes {
        same.push(*shape)?;
    }
    Ok(same)
}
