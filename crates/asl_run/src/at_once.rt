//! What is evaluated at once: integers, booleans, and bits without bitfields, by literals, names of storage, elements and
//! fields of what is held there, operators, conditionals, slices, and the library's subprograms on these, some levels deep.
//! What is held in a place is read where it stands, and nothing is built on the way. Where an expression is none of these,
//! where it has no value, or where a step, a level or memory is wanting, nothing is done: then its node is entered as any other.
ghost use Rattle.std.specs.Prelude.{◌≡◌, ◌-◌, ◌∷◌, [], Bool, List, option_map};
ghost use Rattle.std.specs.Option.{option_copied};
ghost use Rattle.asl_bits.specs.declared.TheConstants.{WIDTH_LIMIT};
ghost use Rattle.asl_syn.specs.declared.token.Span.{Span as At};
ghost use Rattle.asl_rules.specs.private.ByPlace as places;
ghost use Rattle.asl_rules.specs.runs.Forms as forms;
ghost use Rattle.asl_rules.specs.values.Operators as operators;
ghost use Rattle.asl_rules.specs.values.Vectors.{slices_of};
ghost use Rattle.asl_rules.specs.runs.Plans.{Good, Pure};
ghost use Rattle.asl_rules.specs.private.TypedMeaning.{list_of, tree_node};
ghost use Rattle.asl_rules.specs.values.Values.{Value as Seen, bool, int};
ghost use Rattle.asl_rules.specs.types.Views.{stripping};
ghost use Rattle.asl_shape.specs.View.{routine_of};
ghost use Rattle.asl_tree.specs.View.{all_trees, tree_of};
ghost use Rattle.asl_tree.specs.declared.act.TreeFunc.{TreeFunc};
ghost use Rattle.asl_tree.specs.declared.tree.Tree.{Tree as TypedTree};
ghost use Rattle.asl_value.specs.private.Numbers.{answer_of};
ghost use Rattle.asl_value.specs.View.{all_slices, slice_of, value_of};
ghost use Rattle.asl_branches.specs.View.{program_of};
ghost use Rattle.asl_branches.specs.declared.run.Run.{Run as State};
ghost use Rattle.asl_run.specs.private.AtOnce.{CutsAt, decided_as, decision, Ends, Finds, Gives, found, library_call};

use crate::bits;
use crate::bits::{
    Cut, bare, complement, of_bits, of_bits_alone, of_bits_and_integer, of_width,
    of_width_and_bits, place_of, places_of,
};
use crate::parts::{element_in, field_in};
use crate::places::value_at;
use asl_branches::run::Run;
use asl_num as num;
use asl_num::NumFault;
use asl_rules::slot::Slot;
use asl_shape::Routine;
use asl_syn::tree::{BinaryOperator, UnaryOperator};
use asl_tree::tree::{Callee, Tree};
use asl_value::{SliceShape, Value};
use asl_vector::Vector;
use std::alloc::Global;

/// What was found at once: a value, or none.
#[derive(Drop)]
pub enum AtOnce {
    Integer(i128),
    Truth(bool),
    /// Bits without bitfields.
    Bits(Vector),
    Neither,
}

/// How far down nodes may be entered, and the allocator.
#[derive(Clone, Copy)]
pub struct Reach {
    pub alloc: Global,
    /// How many nodes more may be open.
    pub depth: u32,
    /// How many levels more are looked at.
    pub levels: u32,
}

/// The levels of an expression that are looked at.
pub const LEVELS: u32 = 12;

// ---- values

/// A value without parts.
fn plain(value: &Value) -> AtOnce
    ensures { Gives (found result) (Good (value_of value.now)) }
{
    match value {
        Value::Int(z) => AtOnce::Integer(*z),
        Value::Bool(b) => AtOnce::Truth(*b),
        Value::Bits(bits, view) => bare(bits, view),
        // any other value may be left to the node
        _ => AtOnce::Neither,
    }
}

/// What is found where a value stands.
fn seen(there: Option<&Value>) -> AtOnce
    ensures { (r : Pure Seen) → Gives (option_map value_of (option_copied there.entry)) r → Gives (found result) r }
{
    match there {
        Some(value) => plain(value),
        None => AtOnce::Neither,
    }
}

/// What a literal stands for.
fn literal(n: u128) -> AtOnce
    ensures { (span : At) → Gives (found result) (forms.literal span n) }
{
    match i128::try_from(n) {
        Ok(z) => AtOnce::Integer(z),
        Err(_) => AtOnce::Neither,
    }
}

// ---- operators

/// What an operation on integers gives.
fn settled(r: Result<i128, NumFault>) -> AtOnce
    ensures { (span : At) → Gives (found result) (answer_of span r) }
{
    match r {
        Ok(z) => AtOnce::Integer(z),
        Err(_) => AtOnce::Neither,
    }
}

#[tactic(auto, using(asl_value::proofs::Integers::same_is))]
fn is_same(a: i128, b: i128) -> bool
    ensures { result ≡ operators.same a b }
{
    a == b
}

#[tactic(auto, using(asl_value::proofs::Integers::less_is))]
fn is_less(a: i128, b: i128) -> bool
    ensures { result ≡ operators.less a b }
{
    a < b
}

/// An operator on integers.
fn of_integers(operator: BinaryOperator, a: i128, b: i128) -> AtOnce
    ensures { (span : At) → Gives (found result) (operators.of_integers span operator a b) }
{
    match operator {
        BinaryOperator::Equal => AtOnce::Truth(is_same(a, b)),
        BinaryOperator::NotEqual => AtOnce::Truth(!is_same(a, b)),
        BinaryOperator::Less => AtOnce::Truth(is_less(a, b)),
        BinaryOperator::LessEqual => AtOnce::Truth(!is_less(b, a)),
        BinaryOperator::Greater => AtOnce::Truth(is_less(b, a)),
        BinaryOperator::GreaterEqual => AtOnce::Truth(!is_less(a, b)),
        BinaryOperator::Add => settled(num::add(a, b)),
        BinaryOperator::Subtract => settled(num::sub(a, b)),
        BinaryOperator::Multiply => settled(num::mul(a, b)),
        BinaryOperator::DivideExact => settled(num::div_exact(a, b)),
        BinaryOperator::DivideFloor => settled(num::div_floor(a, b)),
        BinaryOperator::Modulo => settled(num::modulo(a, b)),
        BinaryOperator::ShiftLeft => settled(num::shl(a, b)),
        BinaryOperator::ShiftRight => settled(num::shr(a, b)),
        BinaryOperator::Power => settled(num::pow(a, b)),
        BinaryOperator::LogicalAnd => AtOnce::Neither,
        BinaryOperator::LogicalOr => AtOnce::Neither,
        BinaryOperator::Implies => AtOnce::Neither,
        BinaryOperator::Equivalent => AtOnce::Neither,
        BinaryOperator::BitAnd => AtOnce::Neither,
        BinaryOperator::BitOr => AtOnce::Neither,
        BinaryOperator::BitXor => AtOnce::Neither,
        BinaryOperator::Concatenate => AtOnce::Neither,
    }
}

/// An operator on booleans, both of which were evaluated.
fn of_truths(operator: BinaryOperator, a: bool, b: bool) -> AtOnce
    ensures { (span : At) → Gives (found result) (operators.of_booleans span operator a b) }
{
    match operator {
        BinaryOperator::LogicalAnd => AtOnce::Truth(a && b),
        BinaryOperator::LogicalOr => AtOnce::Truth(a || b),
        BinaryOperator::Implies => AtOnce::Truth(!a || b),
        BinaryOperator::Equivalent => AtOnce::Truth(is_same_bool(a, b)),
        BinaryOperator::Equal => AtOnce::Truth(is_same_bool(a, b)),
        BinaryOperator::NotEqual => AtOnce::Truth(!is_same_bool(a, b)),
        BinaryOperator::Less => AtOnce::Neither,
        BinaryOperator::LessEqual => AtOnce::Neither,
        BinaryOperator::Greater => AtOnce::Neither,
        BinaryOperator::GreaterEqual => AtOnce::Neither,
        BinaryOperator::Add => AtOnce::Neither,
        BinaryOperator::Subtract => AtOnce::Neither,
        BinaryOperator::BitAnd => AtOnce::Neither,
        BinaryOperator::BitOr => AtOnce::Neither,
        BinaryOperator::BitXor => AtOnce::Neither,
        BinaryOperator::Concatenate => AtOnce::Neither,
        BinaryOperator::Multiply => AtOnce::Neither,
        BinaryOperator::DivideExact => AtOnce::Neither,
        BinaryOperator::DivideFloor => AtOnce::Neither,
        BinaryOperator::Modulo => AtOnce::Neither,
        BinaryOperator::ShiftLeft => AtOnce::Neither,
        BinaryOperator::ShiftRight => AtOnce::Neither,
        BinaryOperator::Power => AtOnce::Neither,
    }
}

fn is_same_bool(a: bool, b: bool) -> bool
    ensures { result ≡ operators.same_bool a b }
{
    if a { b } else { !b }
}

/// What a left operand decides: the right one isn't asked.
fn decided(operator: BinaryOperator, a: bool) -> Option<bool>
    ensures { decision (operators.strictness operator) a ≡ decided_as result }
{
    match operator {
        BinaryOperator::LogicalAnd => { if a { None } else { Some(false) } }
        BinaryOperator::LogicalOr => { if a { Some(true) } else { None } }
        BinaryOperator::Implies => { if a { None } else { Some(true) } }
        BinaryOperator::Equivalent => None,
        BinaryOperator::Equal => None,
        BinaryOperator::NotEqual => None,
        BinaryOperator::Less => None,
        BinaryOperator::LessEqual => None,
        BinaryOperator::Greater => None,
        BinaryOperator::GreaterEqual => None,
        BinaryOperator::Add => None,
        BinaryOperator::Subtract => None,
        BinaryOperator::BitAnd => None,
        BinaryOperator::BitOr => None,
        BinaryOperator::BitXor => None,
        BinaryOperator::Concatenate => None,
        BinaryOperator::Multiply => None,
        BinaryOperator::DivideExact => None,
        BinaryOperator::DivideFloor => None,
        BinaryOperator::Modulo => None,
        BinaryOperator::ShiftLeft => None,
        BinaryOperator::ShiftRight => None,
        BinaryOperator::Power => None,
    }
}

// ---- expressions

/// What stands in a place, or where a way of fields and elements from there ends, so far down.
#[cycle(at_once)]
fn reached<'r>(run: &'r Run, left: &mut u64, reach: Reach, e: &Tree) -> Option<&'r Value>
    ensures { (fs : List TreeFunc) → Finds (option_map value_of (option_copied result)) fs reach.depth
        e.now run.now left.old left.new }
{
    if *left == 0 || reach.depth == 0 || reach.levels == 0 {
        return None;
    }
    *left -= 1;
    let below = Reach {
        alloc: reach.alloc,
        depth: reach.depth - 1,
        levels: reach.levels - 1,
    };
    part(run, left, below, e)
}

/// The same once the expression is entered.
#[cycle(at_once)]
fn part<'r>(run: &'r Run, left: &mut u64, reach: Reach, e: &Tree) -> Option<&'r Value>
    ensures { (fs : List TreeFunc) → Ends (option_map value_of (option_copied result)) fs reach.depth
        (tree_node (program_of fs) (tree_of e.now)) run.now left.old left.new }
{
    match e {
        Tree::Read(_, slot) => value_at(run, *slot),
        Tree::Field(_, a, place) => field(run, left, reach, a.get(), *place),
        Tree::Element(_, a, i) => element(run, left, reach, a.get(), i.get()),
        // any form may be left to its node
        _ => None,
    }
}

/// The field in a place of what is reached.
#[cycle(at_once)]
fn field<'r>(
    run: &'r Run,
    left: &mut u64,
    reach: Reach,
    a: &Tree,
    place: usize,
) -> Option<&'r Value>
    ensures { (fs : List TreeFunc) (at : At) → Ends (option_map value_of (option_copied result)) fs reach.depth
        (λ c. forms.behind (tree_of a.now) c (places.field_in at place)) run.now left.old left.new }
{
    match reached(run, left, reach, a) {
        Some(value) => field_in(value, place),
        None => None,
    }
}

/// The element at an index of what is reached.
#[cycle(at_once)]
fn element<'r>(run: &'r Run, left: &mut u64, reach: Reach, a: &Tree, i: &Tree) -> Option<&'r Value>
    ensures { (fs : List TreeFunc) (at : At) → Ends (option_map value_of (option_copied result)) fs reach.depth
        (forms.element at (tree_of a.now) (tree_of i.now)) run.now left.old left.new }
{
    match reached(run, left, reach, a) {
        Some(array) => match operand(run, left, reach, i) {
            AtOnce::Integer(z) => element_in(array, z),
            AtOnce::Truth(_) => None,
            AtOnce::Bits(_bits) => None,
            AtOnce::Neither => None,
        },
        None => None,
    }
}

/// An operator with an integer as its operand.
fn of_integer(operator: UnaryOperator, x: i128) -> AtOnce
    ensures { (at : At) → Gives (found result) (operators.unary_value at operator (int x)) }
{
    match operator {
        UnaryOperator::Negate => settled(num::neg(x)),
        UnaryOperator::Not => AtOnce::Neither,
        UnaryOperator::Complement => AtOnce::Neither,
    }
}

/// An operator with a boolean as its operand.
fn of_truth(operator: UnaryOperator, x: bool) -> AtOnce
    ensures { (at : At) → Gives (found result) (operators.unary_value at operator (bool x)) }
{
    match operator {
        UnaryOperator::Negate => AtOnce::Neither,
        UnaryOperator::Not => AtOnce::Truth(!x),
        UnaryOperator::Complement => AtOnce::Neither,
    }
}

/// An operator with bits as its operand.
fn of_vector(alloc: Global, operator: UnaryOperator, x: &Vector) -> AtOnce
    ensures { (at : At) → Gives (found result) (operators.unary_value at operator (operators.plain_bits x.now)) }
{
    match operator {
        UnaryOperator::Negate => AtOnce::Neither,
        UnaryOperator::Not => AtOnce::Neither,
        UnaryOperator::Complement => complement(alloc, x),
    }
}

/// The value of the operand, and what the operator gives of it.
#[cycle(at_once)]
fn unary(run: &Run, left: &mut u64, reach: Reach, operator: UnaryOperator, a: &Tree) -> AtOnce
    ensures { (fs : List TreeFunc) (at : At) → Ends (found result) fs reach.depth
        (λ c. forms.behind (tree_of a.now) c (operators.unary_value at operator)) run.now left.old left.new }
{
    match evaluate(run, left, reach, a) {
        AtOnce::Integer(x) => of_integer(operator, x),
        AtOnce::Truth(x) => of_truth(operator, x),
        AtOnce::Bits(x) => of_vector(reach.alloc, operator, &x),
        AtOnce::Neither => AtOnce::Neither,
    }
}

/// An operator behind an integer.
#[cycle(at_once)]
fn behind_integer(
    run: &Run,
    left: &mut u64,
    reach: Reach,
    operator: BinaryOperator,
    x: i128,
    b: &Tree,
) -> AtOnce
    ensures { (fs : List TreeFunc) (at : At) → Ends (found result) fs reach.depth
        (forms.behind_left WIDTH_LIMIT at operator (tree_of b.now) (int x) (operators.strictness operator))
        run.now left.old left.new }
{
    match operand(run, left, reach, b) {
        AtOnce::Integer(y) => of_integers(operator, x, y),
        AtOnce::Truth(_) => AtOnce::Neither,
        AtOnce::Bits(_bits) => AtOnce::Neither,
        AtOnce::Neither => AtOnce::Neither,
    }
}

/// An operator behind a boolean: `&&`, `||` and `-->` may be decided by it.
#[cycle(at_once)]
fn behind_truth(
    run: &Run,
    left: &mut u64,
    reach: Reach,
    operator: BinaryOperator,
    x: bool,
    b: &Tree,
) -> AtOnce
    ensures { (fs : List TreeFunc) (at : At) → Ends (found result) fs reach.depth
        (forms.behind_left WIDTH_LIMIT at operator (tree_of b.now) (bool x) (operators.strictness operator))
        run.now left.old left.new }
{
    if let Some(r) = decided(operator, x) {
        return AtOnce::Truth(r);
    }
    match evaluate(run, left, reach, b) {
        AtOnce::Truth(y) => of_truths(operator, x, y),
        AtOnce::Integer(_) => AtOnce::Neither,
        AtOnce::Bits(_bits) => AtOnce::Neither,
        AtOnce::Neither => AtOnce::Neither,
    }
}

/// An operator behind bits.
#[cycle(at_once)]
fn behind_bits(
    run: &Run,
    left: &mut u64,
    reach: Reach,
    operator: BinaryOperator,
    x: &Vector,
    b: &Tree,
) -> AtOnce
    ensures { (fs : List TreeFunc) (at : At) → Ends (found result) fs reach.depth
        (forms.behind_left WIDTH_LIMIT at operator (tree_of b.now) (operators.plain_bits x.now) (operators.strictness operator))
        run.now left.old left.new }
{
    match evaluate(run, left, reach, b) {
        AtOnce::Bits(y) => of_bits(reach.alloc, operator, x, &y),
        AtOnce::Integer(z) => of_bits_and_integer(reach.alloc, operator, x, z),
        AtOnce::Truth(_) => AtOnce::Neither,
        AtOnce::Neither => AtOnce::Neither,
    }
}

/// A node without nodes below is entered, which gives this; nothing where it can't be.
fn leaf(left: &mut u64, reach: Reach, it: AtOnce) -> AtOnce
    ensures { (fs : List TreeFunc) (e : TypedTree) (s : State) →
        Ends (found it) fs (reach.depth - 1) (tree_node (program_of fs) (tree_of e)) s (left.old - 1) (left.old - 1) →
        Finds (found result) fs reach.depth e s left.old left.new }
{
    if *left == 0 || reach.depth == 0 {
        drop(it);
        return AtOnce::Neither;
    }
    *left -= 1;
    it
}

/// The value of an operand. Literals and names, which most operands are, take no call.
#[cycle(at_once)]
fn operand(run: &Run, left: &mut u64, reach: Reach, e: &Tree) -> AtOnce
    ensures { (fs : List TreeFunc) → Finds (found result) fs reach.depth e.now run.now left.old left.new }
{
    match e {
        Tree::Int(_, n) => leaf(left, reach, literal(*n)),
        Tree::Read(_, slot) => leaf(left, reach, seen(value_at(run, *slot))),
        // any other is evaluated as it is elsewhere
        _ => evaluate(run, left, reach, e),
    }
}

/// Whether an expression is a call of a subprogram of the program, which is never evaluated at once.
fn calls_own(e: &Tree) -> bool {
    match e {
        Tree::Call(_, Callee::Own(_), _, _, _) => true,
        // any other may be tried
        _ => false,
    }
}

/// The values of both operands, and what the operator gives of them.
#[cycle(at_once)]
fn operation(
    run: &Run,
    left: &mut u64,
    reach: Reach,
    operator: BinaryOperator,
    a: &Tree,
    b: &Tree,
) -> AtOnce
    ensures { (fs : List TreeFunc) (at : At) → Ends (found result) fs reach.depth
        (forms.operation WIDTH_LIMIT at operator (tree_of a.now) (tree_of b.now)) run.now left.old left.new }
{
    if calls_own(a) || calls_own(b) {
        return AtOnce::Neither;
    }
    match operand(run, left, reach, a) {
        AtOnce::Integer(x) => behind_integer(run, left, reach, operator, x, b),
        AtOnce::Truth(x) => behind_truth(run, left, reach, operator, x, b),
        AtOnce::Bits(x) => behind_bits(run, left, reach, operator, &x, b),
        AtOnce::Neither => AtOnce::Neither,
    }
}

/// The branch that a condition takes. What is found has no bitfields to lose.
#[cycle(at_once)]
fn conditional(run: &Run, left: &mut u64, reach: Reach, e: &Tree, a: &Tree, b: &Tree) -> AtOnce
    ensures { (fs : List TreeFunc) (at : At) (holds : Bool) → Ends (found result) fs reach.depth
        (forms.conditional (stripping holds) at (tree_of e.now) (tree_of a.now) (tree_of b.now)) run.now left.old left.new }
{
    match evaluate(run, left, reach, e) {
        AtOnce::Truth(x) => {
            if x {
                evaluate(run, left, reach, a)
            } else {
                evaluate(run, left, reach, b)
            }
        }
        AtOnce::Integer(_) => AtOnce::Neither,
        AtOnce::Bits(_bits) => AtOnce::Neither,
        AtOnce::Neither => AtOnce::Neither,
    }
}

// ---- slices

/// One slice of bits or of an integer.
#[cycle(at_once)]
fn sliced(
    run: &Run,
    left: &mut u64,
    reach: Reach,
    a: &Tree,
    shapes: &[SliceShape],
    es: &[Tree],
) -> AtOnce
    ensures { (fs : List TreeFunc) (at : At) → Ends (found result) fs reach.depth
        (λ c. forms.behind_more (tree_of a.now) (list_of (all_trees es.now)) c
        (λ x zs. slices_of WIDTH_LIMIT at (all_slices shapes.now) zs x)) run.now left.old left.new }
{
    if shapes.len() != 1 {
        return AtOnce::Neither;
    }
    match evaluate(run, left, reach, a) {
        AtOnce::Bits(bits) => match cut_at(run, left, reach, shapes[0], es) {
            Some(cut) => bits::part(reach.alloc, &bits, cut),
            None => AtOnce::Neither,
        },
        AtOnce::Integer(z) => match cut_at(run, left, reach, shapes[0], es) {
            Some(cut) => bits::part_of_integer(reach.alloc, z, cut),
            None => AtOnce::Neither,
        },
        AtOnce::Truth(_) => AtOnce::Neither,
        AtOnce::Neither => AtOnce::Neither,
    }
}

/// The places of one slice.
#[cycle(at_once)]
pub fn cut_at(
    run: &Run,
    left: &mut u64,
    reach: Reach,
    shape: SliceShape,
    es: &[Tree],
) -> Option<Cut>
    ensures { (fs : List TreeFunc) → CutsAt result (slice_of shape) fs reach.depth
        (list_of (all_trees es.now)) run.now left.old left.new }
{
    if es.len() == 1 {
        return bit_place(run, left, reach, shape, &es[0]);
    }
    if es.len() == 2 {
        return two_places(run, left, reach, shape, &es[0], &es[1]);
    }
    None
}

/// The place of `[i]`.
#[cycle(at_once)]
fn bit_place(run: &Run, left: &mut u64, reach: Reach, shape: SliceShape, e: &Tree) -> Option<Cut>
    ensures { (fs : List TreeFunc) → CutsAt result (slice_of shape) fs reach.depth
        (tree_of e.now ∷ []) run.now left.old left.new }
{
    match evaluate(run, left, reach, e) {
        AtOnce::Integer(i) => place_of(shape, i),
        AtOnce::Truth(_) => None,
        AtOnce::Bits(_bits) => None,
        AtOnce::Neither => None,
    }
}

/// The places of a slice with two expressions.
#[cycle(at_once)]
fn two_places(
    run: &Run,
    left: &mut u64,
    reach: Reach,
    shape: SliceShape,
    first: &Tree,
    second: &Tree,
) -> Option<Cut>
    ensures { (fs : List TreeFunc) → CutsAt result (slice_of shape) fs reach.depth
        (tree_of first.now ∷ tree_of second.now ∷ []) run.now left.old left.new }
{
    match evaluate(run, left, reach, first) {
        AtOnce::Integer(i) => match evaluate(run, left, reach, second) {
            AtOnce::Integer(j) => places_of(shape, i, j),
            AtOnce::Truth(_) => None,
            AtOnce::Bits(_bits) => None,
            AtOnce::Neither => None,
        },
        AtOnce::Truth(_) => None,
        AtOnce::Bits(_bits) => None,
        AtOnce::Neither => None,
    }
}

// ---- the library

/// A subprogram of the library on bits, on a width, or on both.
#[cycle(at_once)]
fn library(
    run: &Run,
    left: &mut u64,
    reach: Reach,
    which: Routine,
    params: &[Tree],
    args: &[Tree],
) -> AtOnce
    ensures { (fs : List TreeFunc) (at : At) → Ends (found result) fs reach.depth
        (library_call at (routine_of which) (list_of (all_trees params.now)) (list_of (all_trees args.now))) run.now left.old left.new }
{
    if params.is_empty() && args.len() == 1 {
        return on_bits(run, left, reach, which, &args[0]);
    }
    if params.len() == 1 && args.is_empty() {
        return of_its_width(run, left, reach, which, &params[0]);
    }
    if params.len() == 1 && args.len() == 1 {
        return to_width(run, left, reach, which, &params[0], &args[0]);
    }
    AtOnce::Neither
}

/// One on bits.
#[cycle(at_once)]
fn on_bits(run: &Run, left: &mut u64, reach: Reach, which: Routine, e: &Tree) -> AtOnce
    ensures { (fs : List TreeFunc) (at : At) → Ends (found result) fs reach.depth
        (library_call at (routine_of which) [] (tree_of e.now ∷ [])) run.now left.old left.new }
{
    match evaluate(run, left, reach, e) {
        AtOnce::Bits(x) => of_bits_alone(which, &x),
        AtOnce::Integer(_) => AtOnce::Neither,
        AtOnce::Truth(_) => AtOnce::Neither,
        AtOnce::Neither => AtOnce::Neither,
    }
}

/// One on a width.
#[cycle(at_once)]
fn of_its_width(run: &Run, left: &mut u64, reach: Reach, which: Routine, width: &Tree) -> AtOnce
    ensures { (fs : List TreeFunc) (at : At) → Ends (found result) fs reach.depth
        (library_call at (routine_of which) (tree_of width.now ∷ []) []) run.now left.old left.new }
{
    match evaluate(run, left, reach, width) {
        AtOnce::Integer(w) => of_width(reach.alloc, which, w),
        AtOnce::Truth(_) => AtOnce::Neither,
        AtOnce::Bits(_bits) => AtOnce::Neither,
        AtOnce::Neither => AtOnce::Neither,
    }
}

/// One on a width and on bits.
#[cycle(at_once)]
fn to_width(
    run: &Run,
    left: &mut u64,
    reach: Reach,
    which: Routine,
    width: &Tree,
    e: &Tree,
) -> AtOnce
    ensures { (fs : List TreeFunc) (at : At) → Ends (found result) fs reach.depth
        (library_call at (routine_of which) (tree_of width.now ∷ []) (tree_of e.now ∷ [])) run.now left.old left.new }
{
    match evaluate(run, left, reach, width) {
        AtOnce::Integer(w) => match evaluate(run, left, reach, e) {
            AtOnce::Bits(x) => of_width_and_bits(reach.alloc, which, w, &x),
            AtOnce::Integer(_) => AtOnce::Neither,
            AtOnce::Truth(_) => AtOnce::Neither,
            AtOnce::Neither => AtOnce::Neither,
        },
        AtOnce::Truth(_) => AtOnce::Neither,
        AtOnce::Bits(_bits) => AtOnce::Neither,
        AtOnce::Neither => AtOnce::Neither,
    }
}

// ---- nodes

/// What an expression gives once it is entered.
#[cycle(at_once)]
fn node(run: &Run, left: &mut u64, reach: Reach, e: &Tree) -> AtOnce
    ensures { (fs : List TreeFunc) → Ends (found result) fs reach.depth
        (tree_node (program_of fs) (tree_of e.now)) run.now left.old left.new }
{
    match e {
        Tree::Int(_, n) => literal(*n),
        Tree::Constant(_, value) => plain(value),
        Tree::Read(_, slot) => seen(value_at(run, *slot)),
        Tree::Binary(_, operator, a, b) => {
            operation(run, left, reach, *operator, a.get(), b.get())
        }
        Tree::Unary(_, operator, a) => unary(run, left, reach, *operator, a.get()),
        Tree::Field(_, a, place) => seen(field(run, left, reach, a.get(), *place)),
        Tree::Element(_, a, i) => seen(element(run, left, reach, a.get(), i.get())),
        Tree::Conditional(_, condition, a, b) => {
            conditional(run, left, reach, condition.get(), a.get(), b.get())
        }
        Tree::Slices(_, a, shapes, es) => sliced(
            run,
            left,
            reach,
            a.get(),
            shapes.as_slice(),
            es.as_slice(),
        ),
        Tree::Call(_, callee, _, params, args) => match callee {
            Callee::OfLibrary(which) => library(
                run,
                left,
                reach,
                *which,
                params.as_slice(),
                args.as_slice(),
            ),
            Callee::Own(_) => AtOnce::Neither,
        },
        // any form may be left to its node
        _ => AtOnce::Neither,
    }
}

/// What an expression gives, so far down.
#[cycle(at_once)]
fn evaluate(run: &Run, left: &mut u64, reach: Reach, e: &Tree) -> AtOnce
    ensures { (fs : List TreeFunc) → Finds (found result) fs reach.depth e.now run.now left.old left.new }
{
    if *left == 0 || reach.depth == 0 || reach.levels == 0 {
        return AtOnce::Neither;
    }
    *left -= 1;
    let below = Reach {
        alloc: reach.alloc,
        depth: reach.depth - 1,
        levels: reach.levels - 1,
    };
    node(run, left, below, e)
}

/// What an expression gives where `depth` nodes more may be open, and the steps that are left.
pub fn evaluated(alloc: Global, run: &Run, left: &mut u64, depth: u32, e: &Tree) -> AtOnce
    ensures { (fs : List TreeFunc) → Finds (found result) fs depth e.now run.now left.old left.new }
{
    if calls_own(e) {
        return AtOnce::Neither;
    }
    let reach = Reach {
        alloc,
        depth,
        levels: LEVELS,
    };
    evaluate(run, left, reach, e)
}
