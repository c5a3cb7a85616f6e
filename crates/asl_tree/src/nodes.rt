//! Nodes of typed trees, made of the trees of their parts.

ghost use Rattle.std.specs.Prelude.{◌≡◌, IfOk};
ghost use Rattle.asl_rules.specs.runs.Trees as rules;
ghost use Rattle.asl_rules.specs.expressions.Typing.{trees_of};
ghost use Rattle.asl_value.specs.View.{value_of, all_slices};
ghost use Rattle.asl_value.specs.private.Forms.{shell_of};
ghost use Rattle.asl_shape.specs.View.{all_given, type_of, pattern_of};
ghost use Rattle.asl_tree.specs.View.{note_view, callee_of, tree_of, all_trees, all_operands};

use crate::tree::{Callee, Note, Tree};
use asl_rules::slot::Slot;
use asl_shape::{FieldGiven, PatternShape, TypeShape};
use asl_syn::tree::{BinaryOperator, UnaryOperator};
use asl_types::BitField;
use asl_value::{Shell, SliceShape, Value};
use sqlite_items::{Boxed, Items};
use std::alloc::{AllocError, Global};

/// An integer literal with its value.
pub fn int(alloc: Global, note: Note, n: u128) -> Result<Boxed<Tree>, AllocError>
    ensures { IfOk result (λ t. tree_of t ≡ rules.Int (note_view note) n) }
{
    Boxed::new(alloc, Tree::Int(note, n))
}

/// A boolean, bits or a label, with its value.
pub fn constant(alloc: Global, note: Note, value: Value) -> Result<Boxed<Tree>, AllocError>
    ensures { IfOk result (λ t. tree_of t ≡ rules.Constant (note_view note) (value_of value)) }
{
    Boxed::new(alloc, Tree::Constant(note, value))
}

/// A name of storage.
pub fn read(alloc: Global, note: Note, slot: Slot) -> Result<Boxed<Tree>, AllocError>
    ensures { IfOk result (λ t. tree_of t ≡ rules.Read (note_view note) slot) }
{
    Boxed::new(alloc, Tree::Read(note, slot))
}

/// `op e`.
pub fn unary(
    alloc: Global,
    note: Note,
    op: UnaryOperator,
    a: Boxed<Tree>,
) -> Result<Boxed<Tree>, AllocError>
    ensures { IfOk result (λ t. tree_of t ≡ rules.Unary (note_view note) op (tree_of a)) }
{
    Boxed::new(alloc, Tree::Unary(note, op, a))
}

/// `e op e`.
pub fn binary(
    alloc: Global,
    note: Note,
    op: BinaryOperator,
    a: Boxed<Tree>,
    b: Boxed<Tree>,
) -> Result<Boxed<Tree>, AllocError>
    ensures { IfOk result (λ t. tree_of t ≡ rules.Binary (note_view note) op (tree_of a) (tree_of b)) }
{
    Boxed::new(alloc, Tree::Binary(note, op, a, b))
}

/// `if e then e else e`.
pub fn conditional(
    alloc: Global,
    note: Note,
    condition: Boxed<Tree>,
    a: Boxed<Tree>,
    b: Boxed<Tree>,
) -> Result<Boxed<Tree>, AllocError>
    ensures { IfOk result (λ t. tree_of t ≡ rules.Conditional (note_view note) (tree_of condition) (tree_of a) (tree_of b)) }
{
    Boxed::new(alloc, Tree::Conditional(note, condition, a, b))
}

/// A tuple, by the trees of its parts.
fn tuple_of(alloc: Global, note: Note, parts: Items<Tree>) -> Result<Boxed<Tree>, AllocError>
    ensures { IfOk result (λ t. tree_of t ≡ rules.Tuple (note_view note) (all_trees parts)) }
{
    Boxed::new(alloc, Tree::Tuple(note, parts))
}

/// A tuple of these operands. It is `tuple_of`, with a clause over operands.
pub fn tuple(alloc: Global, note: Note, parts: Items<Tree>) -> Result<Boxed<Tree>, AllocError>
    ensures { IfOk result (λ t. tree_of t ≡ rules.Tuple (note_view note) (trees_of (all_operands parts))) }
{
    tuple_of(alloc, note, parts)
}

/// A construction, by the trees of its values.
fn construction_of(
    alloc: Global,
    note: Note,
    shell: Shell,
    fields: Items<FieldGiven>,
    values: Items<Tree>,
) -> Result<Boxed<Tree>, AllocError>
    ensures { IfOk result (λ t. tree_of t ≡ rules.Construct (note_view note) (shell_of shell) (all_given fields) (all_trees values)) }
{
    Boxed::new(alloc, Tree::Construct(note, shell, fields, values))
}

/// A construction of these operands, to which the fields' places refer. It is `construction_of`, with a clause over
/// operands.
pub fn construct(
    alloc: Global,
    note: Note,
    shell: Shell,
    fields: Items<FieldGiven>,
    values: Items<Tree>,
) -> Result<Boxed<Tree>, AllocError>
    ensures { IfOk result (λ t. tree_of t ≡ rules.Construct (note_view note) (shell_of shell) (all_given fields) (trees_of (all_operands values))) }
{
    construction_of(alloc, note, shell, fields, values)
}

/// `e.f`: the place of the field, from 0.
pub fn field(
    alloc: Global,
    note: Note,
    a: Boxed<Tree>,
    place: usize,
) -> Result<Boxed<Tree>, AllocError>
    ensures { IfOk result (λ t. tree_of t ≡ rules.Field (note_view note) (tree_of a) place) }
{
    Boxed::new(alloc, Tree::Field(note, a, place))
}

/// `e.f`, where `f` is a bitfield.
pub fn bitfield(
    alloc: Global,
    note: Note,
    a: Boxed<Tree>,
    field: BitField,
) -> Result<Boxed<Tree>, AllocError>
    ensures { IfOk result (λ t. tree_of t ≡ rules.Bitfield (note_view note) (tree_of a) field) }
{
    Boxed::new(alloc, Tree::Bitfield(note, a, field))
}

/// `e.[f, g]`.
pub fn bitfields(
    alloc: Global,
    note: Note,
    a: Boxed<Tree>,
    fields: Items<BitField>,
) -> Result<Boxed<Tree>, AllocError>
    ensures { IfOk result (λ t. tree_of t ≡ rules.Bitfields (note_view note) (tree_of a) fields) }
{
    Boxed::new(alloc, Tree::Bitfields(note, a, fields))
}

/// `e[[e]]`.
pub fn element(
    alloc: Global,
    note: Note,
    a: Boxed<Tree>,
    index: Boxed<Tree>,
) -> Result<Boxed<Tree>, AllocError>
    ensures { IfOk result (λ t. tree_of t ≡ rules.Element (note_view note) (tree_of a) (tree_of index)) }
{
    Boxed::new(alloc, Tree::Element(note, a, index))
}

/// `e[..]`.
pub fn slices(
    alloc: Global,
    note: Note,
    a: Boxed<Tree>,
    shapes: Items<SliceShape>,
    operands: Items<Tree>,
) -> Result<Boxed<Tree>, AllocError>
    ensures { IfOk result (λ t. tree_of t ≡ rules.Slices (note_view note) (tree_of a) (all_slices shapes) (all_trees operands)) }
{
    Boxed::new(alloc, Tree::Slices(note, a, shapes, operands))
}

/// `e as T`.
pub fn conversion(
    alloc: Global,
    note: Note,
    a: Boxed<Tree>,
    shape: TypeShape,
    sizes: Items<Tree>,
) -> Result<Boxed<Tree>, AllocError>
    ensures { IfOk result (λ t. tree_of t ≡ rules.As (note_view note) (tree_of a) (type_of shape) (all_trees sizes)) }
{
    Boxed::new(alloc, Tree::As(note, a, shape, sizes))
}

/// `e IN p`.
pub fn membership(
    alloc: Global,
    note: Note,
    a: Boxed<Tree>,
    shape: PatternShape,
    trees: Items<Tree>,
) -> Result<Boxed<Tree>, AllocError>
    ensures { IfOk result (λ t. tree_of t ≡ rules.In (note_view note) (tree_of a) (pattern_of shape) (all_trees trees)) }
{
    Boxed::new(alloc, Tree::In(note, a, shape, trees))
}

/// A call: see `Tree::Call`.
pub fn call(
    alloc: Global,
    note: Note,
    callee: Callee,
    places: Items<usize>,
    params: Items<Tree>,
    arguments: Items<Tree>,
) -> Result<Boxed<Tree>, AllocError>
    ensures { IfOk result (λ t. tree_of t ≡ rules.Call (note_view note) (callee_of callee) places (all_trees params) (all_trees arguments)) }
{
    Boxed::new(alloc, Tree::Call(note, callee, places, params, arguments))
}
