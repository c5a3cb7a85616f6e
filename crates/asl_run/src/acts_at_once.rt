//! What is executed at once: assignments to names and to slices of the bits that they hold, declarations and `return`, where their
//! expressions are evaluated at once. Where one isn't, or there is no such place, nothing is done, and the node is entered.
ghost use Rattle.std.specs.Prelude.{◌≡◌, ◌≤◌, ◌+◌, ◌∷◌, [], Bool, true, false, List, Some, IfOk};
ghost use Rattle.std.specs.Prelude.{length, map, option_map, slice_get};
ghost use Rattle.std.specs.Option.{option_copied};
ghost use Rattle.asl_bits.specs.Lists.{with_slice};
ghost use Rattle.asl_syn.specs.declared.token.Span.{Span as At};
ghost use Rattle.asl_rules.specs.private.ByPlace.{seen_where};
ghost use Rattle.asl_rules.specs.private.HoldsBits.{holds_bits};
ghost use Rattle.asl_rules.specs.private.TypedMeaning.{act_node, value_at as held};
ghost use Rattle.asl_rules.specs.runs.StatementForms.{return_value};
ghost use Rattle.asl_rules.specs.runs.Trees.{Declare, into_slices, tree_type};
ghost use Rattle.asl_rules.specs.types.Views.{adopted};
ghost use Rattle.asl_rules.specs.values.Operators as operators;
ghost use Rattle.asl_rules.specs.values.Values.{Value as Seen, bits_with};
ghost use Rattle.asl_tree.specs.Acts.{act_of, all_places, place_of, simple_of, step_of, taken_of};
ghost use Rattle.asl_tree.specs.View.{all_trees, tree_of};
ghost use Rattle.asl_tree.specs.private.Room.{FitsAct, declared, names_taken};
ghost use Rattle.asl_tree.specs.declared.act.TreeFunc.{TreeFunc};
ghost use Rattle.asl_value.specs.View.{slice_of, value_of, view_of};
ghost use Rattle.asl_branches.specs.Meets.{SameBut, SameRound};
ghost use Rattle.asl_branches.specs.View.{core_of, exit_of, height_of, program_of, room_of};
ghost use Rattle.asl_run.specs.private.AtOnce.{Did, Executed, Puts, PutsPart, Sets, TakesNothing, WithPart};
ghost use Rattle.asl_run.specs.private.AtOnce.{assigns, did, found, whole_at};

use crate::at_once::{AtOnce, LEVELS, Reach, cut_at, evaluated};
use crate::bits::{Cut, has_fields};
use crate::places::value_at;
use asl_branches::frames::Frames;
use asl_branches::lists::push;
use asl_branches::run::Run;
use asl_branches::stop::Exit;
use asl_rules::slot::Slot;
use asl_tree::act::{Act, Simple, Taken, TreePlace, TreeStep};
use asl_tree::tree::Tree;
use asl_types::Ty;
use asl_value::{SliceShape, Value, View, plain_bits};
use asl_vector::Vector;
use std::alloc::{AllocError, Global};

/// Where a statement stands in a run: the allocator, the steps that are left, and how many nodes more may be open, each behind
/// its own entry.
#[derive(Clone, Copy)]
pub struct Entered {
    pub alloc: Global,
    pub steps: u64,
    pub depth: u32,
}

// ---- stores

/// One of the values of the frame becomes another, which takes nothing of it; whether there is that one.
fn put_local(frames: &mut Frames, at: usize, value: Value) -> bool
    requires { TakesNothing (slice_get (map value_of frames.old.values) at) (value_of value) }
    ensures sets { Sets result at (value_of value) frames.old.values frames.new.values }
    ensures as_many { length frames.new.values ≡ length frames.old.values }
    ensures same { frames.new ≡ record frames.old { values = frames.new.values } }
{
    if at >= frames.height() {
        drop(value);
        return false;
    }
    frames.set(at, value);
    true
}

/// One of the globals becomes another, which takes nothing of it; whether there is that one.
fn put_global(frames: &mut Frames, at: usize, value: Value) -> bool
    requires { TakesNothing (slice_get (map value_of frames.old.globals) at) (value_of value) }
    ensures sets { Sets result at (value_of value) frames.old.globals frames.new.globals }
    ensures same { frames.new ≡ record frames.old { globals = frames.new.globals } }
{
    if at >= frames.globals() {
        drop(value);
        return false;
    }
    frames.set_global(at, value);
    true
}

/// A place takes a value that takes nothing of the old one; whether there is that place.
fn put_at(run: &mut Run, slot: Slot, value: Value) -> bool
    requires { TakesNothing (held slot (core_of run.old)) (value_of value) }
    ensures puts { Puts result (Some (value_of value)) slot run.old run.new }
    ensures same { SameBut run.old run.new }
    ensures height { height_of run.new ≡ height_of run.old }
{
    match slot {
        Slot::Local(i) => put_local(&mut run.frames, i, value),
        Slot::Global(i) => put_global(&mut run.frames, i, value),
    }
}

/// Whether a place holds bits that are seen with no bitfields.
fn holds_bare_bits(run: &Run, slot: Slot) -> bool
    ensures { result ≡ true → (bits : List Bool) → TakesNothing (held slot (core_of run.now)) (operators.plain_bits bits) }
{
    match value_at(run, slot) {
        Some(value) => is_bare(value),
        None => false,
    }
}

/// Whether a value is bits that are seen with no bitfields.
fn is_bare(value: &Value) -> bool
    ensures { result ≡ true → (bits : List Bool)
        → adopted (value_of value.now) (operators.plain_bits bits) ≡ operators.plain_bits bits }
{
    match value {
        Value::Bits(_, view) => !has_fields(view),
        // any other value may be left to the node
        _ => false,
    }
}

/// A place takes bits, where those that it holds have no bitfields; whether it did.
fn put_bits(run: &mut Run, slot: Slot, bits: Vector) -> bool
    ensures puts { Puts result (Some (operators.plain_bits bits)) slot run.old run.new }
    ensures same { SameBut run.old run.new }
    ensures height { height_of run.new ≡ height_of run.old }
{
    if holds_bare_bits(run, slot) {
        put_at(run, slot, plain_bits(bits))
    } else {
        drop(bits);
        false
    }
}

/// A place takes what was found; whether it did.
fn put(run: &mut Run, slot: Slot, it: AtOnce) -> bool
    ensures puts { Puts result (found it) slot run.old run.new }
    ensures same { SameBut run.old run.new }
    ensures height { height_of run.new ≡ height_of run.old }
{
    match it {
        AtOnce::Integer(z) => put_at(run, slot, Value::Int(z)),
        AtOnce::Truth(b) => put_at(run, slot, Value::Bool(b)),
        AtOnce::Bits(bits) => put_bits(run, slot, bits),
        AtOnce::Neither => false,
    }
}

// ---- slices

/// A place takes bits in place of some of those that it holds; whether it did.
fn put_part(alloc: Global, run: &mut Run, slot: Slot, cut: Cut, part: &Vector) -> bool
    ensures puts { PutsPart result part.now cut slot run.old run.new }
    ensures same { SameBut run.old run.new }
    ensures height { height_of run.new ≡ height_of run.old }
{
    match with_part(alloc, value_at(run, slot), cut, part) {
        Some(changed) => put_at(run, slot, changed),
        None => false,
    }
}

/// The bits that stand there with others in place of some of them, of which there are as many; none where it isn't so.
fn with_part(alloc: Global, there: Option<&Value>, cut: Cut, part: &Vector) -> Option<Value>
    ensures { WithPart result cut part.now (option_map value_of (option_copied there.entry)) }
{
    match there {
        Some(Value::Bits(bits, view)) => {
            if part.width() != cut.width {
                return None;
            }
            if cut.low as u64 + cut.width as u64 > bits.width() as u64 {
                return None;
            }
            match replaced(alloc, bits, view, cut, part) {
                Ok(changed) => Some(changed),
                Err(_) => None,
            }
        }
        // any other value may be left to the node
        _ => None,
    }
}

/// Bits with others in place of some of them, and the same bitfields.
fn replaced(
    alloc: Global,
    bits: &Vector,
    view: &Option<View>,
    cut: Cut,
    part: &Vector,
) -> Result<Value, AllocError>
    requires { cut.low + length part.now ≤ length bits.now }
    ensures { IfOk result (λ it. value_of it ≡ bits_with (with_slice bits.now cut.low part.now) (view_of view.now)) }
{
    let changed = bits.replaced(alloc, cut.low, part)?;
    match view {
        None => Ok(Value::Bits(changed, None)),
        Some(fields) => Ok(Value::Bits(changed, Some(fields.share()?))),
    }
}

// ---- statements

/// An assignment to a place without steps; whether it was executed.
fn assign_whole(run: &mut Run, here: Entered, slot: Slot, e: &Tree) -> bool
    ensures meets { (fs : List TreeFunc) (holds : Bool) (at : At) → Executed (did result) fs here.depth
        (assigns holds (whole_at at slot [] ∷ []) (tree_of e.now)) run.old here.steps run.new }
    ensures keeps { SameRound run.old run.new }
    ensures height { height_of run.new ≡ height_of run.old }
{
    let mut left = here.steps;
    let it = evaluated(here.alloc, run, &mut left, here.depth, e);
    if put(run, slot, it) {
        run.steps = left;
        true
    } else {
        false
    }
}

/// An assignment to one slice of a place; whether it was executed.
fn assign_slice(
    run: &mut Run,
    here: Entered,
    slot: Slot,
    shape: SliceShape,
    es: &[Tree],
    e: &Tree,
) -> bool
    ensures meets { (fs : List TreeFunc) (holds : Bool) (at span : At) → Executed (did result) fs here.depth
        (assigns holds (whole_at at slot (into_slices span (slice_of shape ∷ []) (all_trees es.now) ∷ []) ∷ []) (tree_of e.now))
        run.old here.steps run.new }
    ensures keeps { SameRound run.old run.new }
    ensures height { height_of run.new ≡ height_of run.old }
{
    let mut left = here.steps;
    match evaluated(here.alloc, run, &mut left, here.depth, e) {
        AtOnce::Bits(part) => {
            let reach = Reach {
                alloc: here.alloc,
                depth: here.depth,
                levels: LEVELS,
            };
            match cut_at(run, &mut left, reach, shape, es) {
                Some(cut) => {
                    if put_part(here.alloc, run, slot, cut, &part) {
                        run.steps = left;
                        true
                    } else {
                        false
                    }
                }
                None => false,
            }
        }
        AtOnce::Integer(_) => false,
        AtOnce::Truth(_) => false,
        AtOnce::Neither => false,
    }
}

/// An assignment to a place with one step; whether it was executed.
fn assign_step(run: &mut Run, here: Entered, slot: Slot, step: &TreeStep, e: &Tree) -> bool
    ensures meets { (fs : List TreeFunc) (holds : Bool) (at : At) → Executed (did result) fs here.depth
        (assigns holds (whole_at at slot (step_of step.now ∷ []) ∷ []) (tree_of e.now)) run.old here.steps run.new }
    ensures keeps { SameRound run.old run.new }
    ensures height { height_of run.new ≡ height_of run.old }
{
    match step {
        TreeStep::Slices(_, shapes, es) => {
            if shapes.len() == 1 {
                assign_slice(run, here, slot, shapes.as_slice()[0], es.as_slice(), e)
            } else {
                false
            }
        }
        // any other step may be left to the node
        _ => false,
    }
}

/// An assignment to one place; whether it was executed.
fn assign(run: &mut Run, here: Entered, target: &TreePlace, e: &Tree) -> bool
    ensures meets { (fs : List TreeFunc) (holds : Bool) → Executed (did result) fs here.depth
        (assigns holds (place_of target.now ∷ []) (tree_of e.now)) run.old here.steps run.new }
    ensures keeps { SameRound run.old run.new }
    ensures height { height_of run.new ≡ height_of run.old }
{
    if !target.way.is_empty() {
        return false;
    }
    if target.steps.is_empty() {
        return assign_whole(run, here, target.slot, e);
    }
    if target.steps.len() == 1 {
        return assign_step(run, here, target.slot, &target.steps.as_slice()[0], e);
    }
    false
}

/// An assignment; whether it was executed.
fn assign_one(run: &mut Run, here: Entered, targets: &[TreePlace], e: &Tree) -> bool
    ensures meets { (fs : List TreeFunc) → Executed (did result) fs here.depth
        (assigns (holds_bits (tree_type (tree_of e.now))) (all_places targets.now) (tree_of e.now)) run.old here.steps run.new }
    ensures keeps { SameRound run.old run.new }
    ensures height { height_of run.new ≡ height_of run.old }
{
    if targets.len() == 1 {
        assign(run, here, &targets[0], e)
    } else {
        false
    }
}

/// What was found, as a value.
fn as_value(it: AtOnce) -> Option<Value>
    ensures { option_map value_of result ≡ found it }
{
    match it {
        AtOnce::Integer(z) => Some(Value::Int(z)),
        AtOnce::Truth(b) => Some(Value::Bool(b)),
        AtOnce::Bits(bits) => Some(plain_bits(bits)),
        AtOnce::Neither => None,
    }
}

/// Whether bits occur in a type that is written.
#[tactic(auto, using(asl_types::proofs::Seen::unseen))]
fn gives_fields(ty: &Option<Ty>) -> bool
    ensures { result ≡ false → (x : Seen) → seen_where ty.now x ≡ x }
{
    match ty {
        None => false,
        Some(ty) => ty.holds_bits(),
    }
}

/// A declaration of one name; whether it was executed.
fn declare(run: &mut Run, here: Entered, ty: &Option<Ty>, taken: &Taken, e: &Tree) -> bool
    requires room { names_taken (taken_of taken.now) ≤ room_of run.old }
    ensures meets { (fs : List TreeFunc) (at : At) → Executed (did result) fs here.depth
        (act_node (program_of fs) (Declare at ty.now (taken_of taken.now) (tree_of e.now))) run.old here.steps run.new }
    ensures keeps { SameRound run.old run.new }
    ensures height { height_of run.new ≤ names_taken (taken_of taken.now) + height_of run.old }
{
    match taken {
        Taken::Whole => {
            if gives_fields(ty) {
                return false;
            }
            let mut left = here.steps;
            match as_value(evaluated(here.alloc, run, &mut left, here.depth, e)) {
                Some(value) => {
                    push(run, value);
                    run.steps = left;
                    true
                }
                None => false,
            }
        }
        // any other may be left to the node
        _ => false,
    }
}

/// `return e;`: the value that it returns, where it was executed.
fn returned(run: &mut Run, here: Entered, e: &Tree) -> Option<Exit>
    ensures meets { (fs : List TreeFunc) → Executed (option_map exit_of result) fs here.depth
        (return_value (Some (tree_of e.now))) run.old here.steps run.new }
    ensures keeps { SameRound run.old run.new }
    ensures height { height_of run.new ≡ height_of run.old }
{
    let mut left = here.steps;
    match as_value(evaluated(here.alloc, run, &mut left, here.depth, e)) {
        Some(value) => {
            run.steps = left;
            Some(Exit::Returned(Some(value)))
        }
        None => None,
    }
}

/// The normal end, where a statement was executed.
fn normal(was: bool) -> Option<Exit>
    ensures { option_map exit_of result ≡ did was }
{
    if was { Some(Exit::Normal) } else { None }
}

/// A statement without lists: how it ended, where it was executed.
fn simple(run: &mut Run, here: Entered, s: &Simple) -> Option<Exit>
    requires room { FitsAct (room_of run.old) (simple_of s.now) }
    ensures meets { (fs : List TreeFunc) → Executed (option_map exit_of result) fs here.depth
        (act_node (program_of fs) (simple_of s.now)) run.old here.steps run.new }
    ensures keeps { SameRound run.old run.new }
    ensures height { height_of run.new ≤ declared (simple_of s.now) + height_of run.old }
{
    match s {
        Simple::Assign(_, targets, e) => normal(assign_one(run, here, targets.as_slice(), e)),
        Simple::Declare(_, ty, taken, e) => normal(declare(run, here, ty, taken, e)),
        Simple::Return(_, Some(e)) => returned(run, here, e),
        // any form may be left to its node
        _ => None,
    }
}

/// Executes a statement, where that can be done at once: how it ended.
pub fn executed(alloc: Global, run: &mut Run, depth: u32, s: &Act) -> Option<Exit>
    requires room { FitsAct (room_of run.old) (act_of s.now) }
    ensures meets { (fs : List TreeFunc) → Did (option_map exit_of result) fs depth s.now run.old run.new }
    ensures keeps { SameRound run.old run.new }
    ensures height { height_of run.new ≤ declared (act_of s.now) + height_of run.old }
{
    let steps = run.steps;
    if steps == 0 || depth == 0 {
        return None;
    }
    match s {
        Act::Simple(s) => simple(
            run,
            Entered {
                alloc,
                steps: steps - 1,
                depth: depth - 1,
            },
            s,
        ),
        // any form may be left to its node
        _ => None,
    }
}
