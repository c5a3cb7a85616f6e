//! Expressions: each function does what the rules say of a node. Its answer is `Stuck` exactly where they give no outcome.
ghost use Rattle.std.specs.Prelude.{◌≡◌, IfOk};
ghost use Rattle.asl_bits.specs.declared.TheConstants.{WIDTH_LIMIT};
ghost use Rattle.asl_rules.specs.runs.Forms as forms;
ghost use Rattle.asl_rules.specs.values.Operators as operators;
ghost use Rattle.asl_rules.specs.private.TypedMeaning.{list_of, tree_node};
ghost use Rattle.asl_rules.specs.types.Views.{stripping};
ghost use Rattle.asl_tree.specs.View.{tree_of, all_trees};
ghost use Rattle.asl_value.specs.View.{value_of};
ghost use Rattle.asl_branches.specs.Meets.{at, Ran};
ghost use Rattle.asl_branches.specs.View.{program_of};
ghost use Rattle.asl_run.specs.private.Operations.{one_given, many_given, more_given};

use crate::calls::{Call, eval_call};
use crate::operations::{Many, More, One, many_value, more_value, one_value};
use crate::places::read;
use asl_branches::below::Nodes;
use asl_branches::lists::eval_all;
use asl_branches::run::Run;
use asl_branches::stop::Stop;
use asl_io::Sink;
use asl_shared::Held;
use asl_syn::token::Span;
use asl_syn::tree::BinaryOperator;
use asl_tree::tree::Tree;
use asl_value::{Value, binary, copy, element_of, literal, strip, truth};
use std::alloc::{AllocError, Global};

/// An operator with its operands.
#[derive(Clone, Copy)]
pub struct Operation<'r> {
    pub span: Span,
    pub operator: BinaryOperator,
    pub right: &'r Tree,
}

/// What an expression does once it is entered.
#[inline(never)]
pub fn eval_node<K: Sink, N: Nodes<K>>(
    here: &N,
    run: &mut Run,
    sink: &mut K,
    e: &Tree,
) -> Result<Value, Stop>
    requires ready { N.ready here.now }
    ensures { Ran value_of result (N.setting here.now)
        (tree_node (program_of (N.setting here.now).funcs.now) (tree_of e.now))
        (at K.Sink run.old sink.old) (at K.Sink run.new sink.new) }
{
    match e {
        Tree::Call(note, callee, widths, params, args) => eval_call(
            here,
            run,
            sink,
            Call {
                span: note.span,
                callee: *callee,
                widths: widths.as_slice(),
                params: params.as_slice(),
                args: args.as_slice(),
            },
        ),
        // any other form
        _ => eval_form(here, run, sink, e),
    }
}

/// The same for any form. A function begins by clearing the slots of all its arms on the stack. Of the forms that aren't
/// evaluated at once, a call is the most frequent, so it gets a function without the other arms.
#[inline(never)]
fn eval_form<K: Sink, N: Nodes<K>>(
    here: &N,
    run: &mut Run,
    sink: &mut K,
    e: &Tree,
) -> Result<Value, Stop>
    requires ready { N.ready here.now }
    ensures { Ran value_of result (N.setting here.now)
        (tree_node (program_of (N.setting here.now).funcs.now) (tree_of e.now))
        (at K.Sink run.old sink.old) (at K.Sink run.new sink.new) }
{
    match e {
        Tree::Int(note, n) => Ok(literal(note.span, *n)?),
        Tree::Constant(_, x) => Ok(copy(x)?),
        Tree::Read(note, slot) => read(run, note.span, *slot),
        Tree::Unary(note, operator, a) => eval_one(
            here,
            run,
            sink,
            note.span,
            a.get(),
            One::Unary(*operator),
        ),
        Tree::Binary(note, operator, a, b) => eval_binary(
            here,
            run,
            sink,
            a.get(),
            Operation {
                span: note.span,
                operator: *operator,
                right: b.get(),
            },
        ),
        Tree::Conditional(note, e, a, b) => eval_conditional(
            here,
            run,
            sink,
            Conditional {
                span: note.span,
                holds_bits: note.ty.holds_bits(),
                condition: e.get(),
                first: a.get(),
                second: b.get(),
            },
        ),
        Tree::Tuple(note, es) => {
            eval_many(here, run, sink, note.span, es.as_slice(), Many::Tuple)
        }
        Tree::Construct(note, shell, fields, es) => eval_many(
            here,
            run,
            sink,
            note.span,
            es.as_slice(),
            Many::Construct(shell, fields.as_slice()),
        ),
        Tree::Call(note, callee, widths, params, args) => eval_call(
            here,
            run,
            sink,
            Call {
                span: note.span,
                callee: *callee,
                widths: widths.as_slice(),
                params: params.as_slice(),
                args: args.as_slice(),
            },
        ),
        Tree::Field(note, a, place) => {
            eval_one(here, run, sink, note.span, a.get(), One::Field(*place))
        }
        Tree::Bitfield(note, a, field) => {
            eval_one(here, run, sink, note.span, a.get(), One::Bitfield(field))
        }
        Tree::Bitfields(note, a, fields) => eval_one(
            here,
            run,
            sink,
            note.span,
            a.get(),
            One::Bitfields(fields.as_slice()),
        ),
        Tree::Slices(note, a, shapes, es) => eval_more(
            here,
            run,
            sink,
            a.get(),
            es.as_slice(),
            Behind {
                span: note.span,
                more: More::Slices(shapes.as_slice()),
            },
        ),
        Tree::Element(note, a, i) => { eval_element(here, run, sink, note.span, a.get(), i.get()) }
        Tree::As(note, a, shape, es) => eval_more(
            here,
            run,
            sink,
            a.get(),
            es.as_slice(),
            Behind {
                span: note.span,
                more: More::As(shape),
            },
        ),
        Tree::In(note, a, shape, es) => eval_more(
            here,
            run,
            sink,
            a.get(),
            es.as_slice(),
            Behind {
                span: note.span,
                more: More::In(shape),
            },
        ),
    }
}

fn eval_one<K: Sink, N: Nodes<K>>(
    here: &N,
    run: &mut Run,
    sink: &mut K,
    span: Span,
    operand: &Tree,
    one: One,
) -> Result<Value, Stop>
    requires ready { N.ready here.now }
    ensures { Ran value_of result (N.setting here.now)
        (λ c. forms.behind (tree_of operand.now) c (one_given span one.entry))
        (at K.Sink run.old sink.old) (at K.Sink run.new sink.new) }
{
    let x = Held::new(here.eval(run, sink, operand)?);
    one_value(here.setting().alloc, span, one, x.get())
}

fn eval_binary<K: Sink, N: Nodes<K>>(
    here: &N,
    run: &mut Run,
    sink: &mut K,
    left: &Tree,
    operation: Operation,
) -> Result<Value, Stop>
    requires ready { N.ready here.now }
    ensures { Ran value_of result (N.setting here.now)
        (forms.operation WIDTH_LIMIT operation.entry.span operation.entry.operator (tree_of left.now) (tree_of operation.entry.right.now))
        (at K.Sink run.old sink.old) (at K.Sink run.new sink.new) }
{
    let x = Held::new(here.eval(run, sink, left)?);
    eval_behind(here, run, sink, operation, x.get())
}

/// What an operator does behind its left operand: `&&`, `||` and `-->` may be decided by it.
fn eval_behind<K: Sink, N: Nodes<K>>(
    here: &N,
    run: &mut Run,
    sink: &mut K,
    operation: Operation,
    x: &Value,
) -> Result<Value, Stop>
    requires ready { N.ready here.now }
    ensures { Ran value_of result (N.setting here.now)
        (forms.behind_left WIDTH_LIMIT operation.entry.span operation.entry.operator (tree_of operation.entry.right.now) (value_of x.now) (operators.strictness operation.entry.operator))
        (at K.Sink run.old sink.old) (at K.Sink run.new sink.new) }
{
    match operation.operator {
        BinaryOperator::LogicalAnd => {
            if truth(operation.span, x)? {
                eval_right(here, run, sink, operation, x)
            } else {
                Ok(Value::Bool(false))
            }
        }
        BinaryOperator::LogicalOr => {
            if truth(operation.span, x)? {
                Ok(Value::Bool(true))
            } else {
                eval_right(here, run, sink, operation, x)
            }
        }
        BinaryOperator::Implies => {
            if truth(operation.span, x)? {
                eval_right(here, run, sink, operation, x)
            } else {
                Ok(Value::Bool(true))
            }
        }
        BinaryOperator::Equivalent
        | BinaryOperator::Equal
        | BinaryOperator::NotEqual
        | BinaryOperator::Less
        | BinaryOperator::LessEqual
        | BinaryOperator::Greater
        | BinaryOperator::GreaterEqual
        | BinaryOperator::Add
        | BinaryOperator::Subtract
        | BinaryOperator::BitAnd
        | BinaryOperator::BitOr
        | BinaryOperator::BitXor
        | BinaryOperator::Concatenate
        | BinaryOperator::Multiply
        | BinaryOperator::DivideExact
        | BinaryOperator::DivideFloor
        | BinaryOperator::Modulo
        | BinaryOperator::ShiftLeft
        | BinaryOperator::ShiftRight
        | BinaryOperator::Power => eval_right(here, run, sink, operation, x),
    }
}

fn eval_right<K: Sink, N: Nodes<K>>(
    here: &N,
    run: &mut Run,
    sink: &mut K,
    operation: Operation,
    x: &Value,
) -> Result<Value, Stop>
    requires ready { N.ready here.now }
    ensures { Ran value_of result (N.setting here.now)
        (forms.ask_right WIDTH_LIMIT operation.entry.span operation.entry.operator (tree_of operation.entry.right.now) (value_of x.now))
        (at K.Sink run.old sink.old) (at K.Sink run.new sink.new) }
{
    let y = Held::new(here.eval(run, sink, operation.right)?);
    Ok(binary(
        here.setting().alloc,
        operation.span,
        operation.operator,
        x,
        y.get(),
    )?)
}

/// `if e then e else e`, and whether bits occur in its type.
#[derive(Clone, Copy)]
pub struct Conditional<'r> {
    pub span: Span,
    pub holds_bits: bool,
    pub condition: &'r Tree,
    pub first: &'r Tree,
    pub second: &'r Tree,
}

fn eval_conditional<K: Sink, N: Nodes<K>>(
    here: &N,
    run: &mut Run,
    sink: &mut K,
    it: Conditional,
) -> Result<Value, Stop>
    requires ready { N.ready here.now }
    ensures { Ran value_of result (N.setting here.now)
        (forms.conditional (stripping it.entry.holds_bits) it.entry.span (tree_of it.entry.condition.now) (tree_of it.entry.first.now) (tree_of it.entry.second.now))
        (at K.Sink run.old sink.old) (at K.Sink run.new sink.new) }
{
    let x = Held::new(here.eval(run, sink, it.condition)?);
    if truth(it.span, x.get())? {
        eval_branch(here, run, sink, it.holds_bits, it.first)
    } else {
        eval_branch(here, run, sink, it.holds_bits, it.second)
    }
}

/// The branch that is taken, whose bits lose their bitfields.
fn eval_branch<K: Sink, N: Nodes<K>>(
    here: &N,
    run: &mut Run,
    sink: &mut K,
    holds_bits: bool,
    e: &Tree,
) -> Result<Value, Stop>
    requires ready { N.ready here.now }
    ensures { Ran value_of result (N.setting here.now) (forms.branch_value (stripping holds_bits) (tree_of e.now))
        (at K.Sink run.old sink.old) (at K.Sink run.new sink.new) }
{
    let x = Held::new(here.eval(run, sink, e)?);
    Ok(stripped(here.setting().alloc, holds_bits, x)?)
}

/// A value without bitfields, where it is known whether bits occur in its type.
fn stripped(alloc: Global, holds_bits: bool, x: Held<Value>) -> Result<Value, AllocError>
    ensures { IfOk result (λ it. value_of it ≡ stripping holds_bits (value_of x)) }
{
    if holds_bits {
        strip(alloc, x.get())
    } else {
        Ok(x.into_inner())
    }
}

fn eval_many<K: Sink, N: Nodes<K>>(
    here: &N,
    run: &mut Run,
    sink: &mut K,
    span: Span,
    es: &[Tree],
    many: Many,
) -> Result<Value, Stop>
    requires ready { N.ready here.now }
    ensures { Ran value_of result (N.setting here.now)
        (λ c. forms.behind_all (list_of (all_trees es.now)) c (many_given span many.entry))
        (at K.Sink run.old sink.old) (at K.Sink run.new sink.new) }
{
    let xs = eval_all(here, run, sink, es)?;
    many_value(here.setting().alloc, span, many, xs)
}

/// What is done with an operand and with those behind it.
#[derive(Clone, Copy)]
pub struct Behind<'r> {
    pub span: Span,
    pub more: More<'r>,
}

fn eval_more<K: Sink, N: Nodes<K>>(
    here: &N,
    run: &mut Run,
    sink: &mut K,
    operand: &Tree,
    es: &[Tree],
    behind: Behind,
) -> Result<Value, Stop>
    requires ready { N.ready here.now }
    ensures { Ran value_of result (N.setting here.now)
        (λ c. forms.behind_more (tree_of operand.now) (list_of (all_trees es.now)) c (more_given behind.entry.span behind.entry.more))
        (at K.Sink run.old sink.old) (at K.Sink run.new sink.new) }
{
    let x = Held::new(here.eval(run, sink, operand)?);
    eval_behind_one(here, run, sink, x.get(), es, behind)
}

/// The operands behind the first.
fn eval_behind_one<K: Sink, N: Nodes<K>>(
    here: &N,
    run: &mut Run,
    sink: &mut K,
    x: &Value,
    es: &[Tree],
    behind: Behind,
) -> Result<Value, Stop>
    requires ready { N.ready here.now }
    ensures { Ran value_of result (N.setting here.now)
        (λ c. forms.behind_all (list_of (all_trees es.now)) c (more_given behind.entry.span behind.entry.more (value_of x.now)))
        (at K.Sink run.old sink.old) (at K.Sink run.new sink.new) }
{
    let zs = eval_all(here, run, sink, es)?;
    more_value(
        here.setting().alloc,
        behind.span,
        behind.more,
        x,
        zs.as_slice(),
    )
}

fn eval_element<K: Sink, N: Nodes<K>>(
    here: &N,
    run: &mut Run,
    sink: &mut K,
    span: Span,
    array: &Tree,
    index: &Tree,
) -> Result<Value, Stop>
    requires ready { N.ready here.now }
    ensures { Ran value_of result (N.setting here.now)
        (forms.element span (tree_of array.now) (tree_of index.now))
        (at K.Sink run.old sink.old) (at K.Sink run.new sink.new) }
{
    let x = Held::new(here.eval(run, sink, array)?);
    let y = Held::new(here.eval(run, sink, index)?);
    Ok(element_of(span, x.get(), y.get())?)
}
