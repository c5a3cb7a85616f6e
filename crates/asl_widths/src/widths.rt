//! Widths: the polynomials and the integers that expressions stand for where a width, a length or an end of a constraint is
//! asked for, within the limits.

ghost use Rattle.std.specs.Prelude.{◌≡◌, ◌<◌, ◌%◌, unsigned_abs, pos, ◌+ℤ◌, ◌-ℤ◌, ◌*ℤ◌, Ok, option_map, IfOk, IfSome};
ghost use Rattle.asl_cons.specs.Arithmetic.{fits};
ghost use Rattle.asl_poly.specs.Poly.{constant_map, constant_value};
ghost use Rattle.asl_rules.specs.expressions.Exprs as rules;
ghost use Rattle.asl_rules.specs.expressions.Exprs.{name_read, negative_tree, combined_tree};
ghost use Rattle.asl_rules.specs.types.Arithmetic as arithmetic;
ghost use Rattle.asl_rules.specs.Faults.{need, found_or};
ghost use Rattle.asl_widths.specs.private.Steps.{and_then, after};
ghost use Rattle.asl_rules.specs.declarations.Scopes.{standing_of, storage_of};
ghost use Rattle.asl_rules.specs.Tests.{Tests};
ghost use Rattle.asl_rules.specs.runs.Trees as rules_trees;
ghost use Rattle.asl_rules.specs.expressions.Typing.{width_as, number_as, width_note};
ghost use Rattle.asl_rules.specs.types.Widths as limits;
ghost use Rattle.asl_types.specs.private.Standings.{storage_view, value_behind};
ghost use Rattle.asl_types.specs.private.Answers.{Met, Agrees};
ghost use Rattle.asl_subprograms.specs.private.ContextView.{scope_of};
ghost use Rattle.asl_tree.specs.View.{note_view, tree_of};
ghost use Rattle.asl_widths.specs.WidthViews.{width_of, number_of};

use asl_poly::{HEAVIEST, Poly};
use asl_rules::effect::Effect;
use asl_rules::joining::{Combination, Joining};
use asl_subprograms::Context;
use asl_syn::code::{Refused, StaticCode};
use asl_syn::token::Span;
use asl_syn::tree::{BinaryOperator, Expr, UnaryOperator};
use asl_tree::nodes;
use asl_tree::places::place;
use asl_tree::tree::{Note, Tree};
use asl_types::answer::fault;
use asl_types::integers::any_integer;
use asl_types::kinds::is_integer;
use asl_types::widths::{
    width_difference, width_divided, width_of_number, width_product, width_sum,
};
use asl_types::{Counted, Standing, Storage};
use asl_value::Value;
use sqlite_items::Boxed;
use std::alloc::{AllocError, Global};

/// The greatest integer that 128 bits hold.
const GREATEST: u128 = 170_141_183_460_469_231_731_687_303_715_884_105_727;

/// A width with its typed tree.
pub struct Width {
    pub poly: Poly,
    pub tree: Boxed<Tree>,
}

// By hand, so that a drop of one is a call, as `Held` of asl_shared says.
impl Drop for Width {
    fn drop(self) {
        let Width {
            poly: _poly,
            tree: _tree,
        } = self;
    }
}

impl Width {
    /// Its parts.
    pub fn into_parts(self) -> (Poly, Boxed<Tree>)
        ensures { result ≡ (self.poly, self.tree) }
    {
        let Width { poly, tree } = self;
        (poly, tree)
    }
}

/// The integer of a width that names no atom, with its typed tree.
pub struct Number {
    pub number: i128,
    pub tree: Boxed<Tree>,
}

// By hand, so that a drop of one is a call, as `Held` of asl_shared says.
impl Drop for Number {
    fn drop(self) {
        let Number {
            number: _number,
            tree: _tree,
        } = self;
    }
}

impl Number {
    /// Its parts.
    pub fn into_parts(self) -> (i128, Boxed<Tree>)
        ensures { result ≡ (self.number, self.tree) }
    {
        let Number { number, tree } = self;
        (number, tree)
    }
}

/// The note of an expression in a width, which is a pure integer.
fn noted(alloc: Global, span: Span) -> Result<Note, AllocError>
    ensures { IfOk result (λ n. note_view n ≡ width_note span) }
{
    Ok(Note {
        span,
        ty: any_integer(alloc)?,
        effect: Effect::Pure,
    })
}

/// The width of a value that is known: T19 where it is no integer, or where there is none.
fn width_of_known(alloc: Global, span: Span, value: Option<&Value>) -> Result<Poly, Refused>
    ensures { Met (λ p. p) result (limits.width_of_known span (value_behind value.entry)) }
{
    let Some(value) = value else {
        return fault(StaticCode::T19, span);
    };
    match value {
        Value::Int(z) => width_of_number(alloc, span, *z),
        Value::Bool(_) => fault(StaticCode::T19, span),
        Value::Bits(_, _) => fault(StaticCode::T19, span),
        Value::Label(_, _) => fault(StaticCode::T19, span),
        Value::Record(_, _) => fault(StaticCode::T19, span),
        Value::Exception(_, _, _, _) => fault(StaticCode::T19, span),
        Value::Tuple(_) => fault(StaticCode::T19, span),
        Value::Array(_, _) => fault(StaticCode::T19, span),
    }
}

/// The width of storage: T05 where it is no integer.
fn width_of_storage(alloc: Global, span: Span, s: Storage) -> Result<Poly, Refused>
    ensures { Met (λ p. p) result (limits.width_of_storage span (storage_view s.entry)) }
{
    if !is_integer(s.ty) {
        return fault(StaticCode::T05, span);
    }
    match s.counted {
        None => width_of_known(alloc, span, s.known()),
        Some(counted) => Ok(counted.poly().copy(alloc)?),
    }
}

/// The width of a name: T02 where it is neither storage nor a label, and T05 where it is a label.
fn width_of_name(alloc: Global, context: Context, span: Span, name: &[u8]) -> Result<Width, Refused>
    ensures { Met width_of result (and_then (limits.width_of_standing span (standing_of name.now (scope_of context.entry).names)) (λ p. Ok (width_as p (name_read span name.now (scope_of context.entry))))) }
{
    match context.names.standing_of(name) {
        None => fault(StaticCode::T02, span),
        Some(Standing::Stored(s)) => {
            let poly = width_of_storage(alloc, span, s)?;
            let tree = nodes::read(alloc, noted(alloc, span)?, s.slot)?;
            Ok(Width { poly, tree })
        }
        Some(Standing::Subprogram) => fault(StaticCode::T02, span),
        Some(Standing::TypeName(_)) => fault(StaticCode::T02, span),
        Some(Standing::Label(_, _)) => fault(StaticCode::T05, span),
    }
}

/// The polynomial of an integer literal: T20 past the limit of widths.
fn width_of_literal(alloc: Global, span: Span, n: u128) -> Result<Poly, Refused>
    ensures { Met (λ p. p) result (limits.width_of_number span (pos n)) }
{
    if n > HEAVIEST {
        return fault(StaticCode::T20, span);
    }
    width_of_number(alloc, span, n as i128)
}

/// An integer literal as a width.
fn literal_width(alloc: Global, span: Span, n: u128) -> Result<Width, Refused>
    ensures { Met width_of result (and_then (limits.width_of_number span (pos n)) (λ p. Ok (width_as p (rules_trees.Int (width_note span) n)))) }
{
    let poly = width_of_literal(alloc, span, n)?;
    let tree = nodes::int(alloc, noted(alloc, span)?, n)?;
    Ok(Width { poly, tree })
}

/// The opposite of a width, else T20.
fn negated_width(alloc: Global, span: Span, a: Width) -> Result<Width, Refused>
    ensures { Met width_of result (and_then (limits.width_difference span (constant_map (pos 0)) (width_of a).poly) (λ r. Ok (width_as r (negative_tree span (width_of a).tree)))) }
{
    let (poly, tree) = a.into_parts();
    let zero = width_of_literal(alloc, span, 0)?;
    let poly = width_difference(alloc, span, &zero, &poly)?;
    let tree = nodes::unary(alloc, noted(alloc, span)?, UnaryOperator::Negate, tree)?;
    Ok(Width { poly, tree })
}

/// The operator that combines numbers so.
fn operator(o: Combination) -> BinaryOperator
    ensures { result ≡ arithmetic.operator o }
{
    match o {
        Combination::Sum => BinaryOperator::Add,
        Combination::Difference => BinaryOperator::Subtract,
        Combination::Product => BinaryOperator::Multiply,
    }
}

/// What an operator does in a width.
fn joining(op: BinaryOperator) -> Joining
    ensures { result ≡ arithmetic.joining op }
{
    match op {
        BinaryOperator::LogicalAnd => Joining::JoinsNothing,
        BinaryOperator::LogicalOr => Joining::JoinsNothing,
        BinaryOperator::Implies => Joining::JoinsNothing,
        BinaryOperator::Equivalent => Joining::JoinsNothing,
        BinaryOperator::Equal => Joining::JoinsNothing,
        BinaryOperator::NotEqual => Joining::JoinsNothing,
        BinaryOperator::Less => Joining::JoinsNothing,
        BinaryOperator::LessEqual => Joining::JoinsNothing,
        BinaryOperator::Greater => Joining::JoinsNothing,
        BinaryOperator::GreaterEqual => Joining::JoinsNothing,
        BinaryOperator::Add => Joining::Combines(Combination::Sum),
        BinaryOperator::Subtract => Joining::Combines(Combination::Difference),
        BinaryOperator::BitAnd => Joining::JoinsNothing,
        BinaryOperator::BitOr => Joining::JoinsNothing,
        BinaryOperator::BitXor => Joining::JoinsNothing,
        BinaryOperator::Concatenate => Joining::JoinsNothing,
        BinaryOperator::Multiply => Joining::Combines(Combination::Product),
        BinaryOperator::DivideExact => Joining::Divides,
        BinaryOperator::DivideFloor => Joining::JoinsNothing,
        BinaryOperator::Modulo => Joining::JoinsNothing,
        BinaryOperator::ShiftLeft => Joining::JoinsNothing,
        BinaryOperator::ShiftRight => Joining::JoinsNothing,
        BinaryOperator::Power => Joining::JoinsNothing,
    }
}

/// Two widths combined: T20 where that passes the limits.
fn width_combined(
    alloc: Global,
    span: Span,
    o: Combination,
    p: &Poly,
    q: &Poly,
) -> Result<Poly, Refused>
    ensures { Met (λ r. r) result (limits.width_combined span o p.now q.now) }
{
    match o {
        Combination::Sum => width_sum(alloc, span, p, q),
        Combination::Difference => width_difference(alloc, span, p, q),
        Combination::Product => width_product(alloc, span, p, q),
    }
}

/// Two widths combined, with their trees.
fn combined_width(
    alloc: Global,
    span: Span,
    o: Combination,
    a: Width,
    b: Width,
) -> Result<Width, Refused>
    ensures { Met width_of result (and_then (limits.width_combined span o (width_of a).poly (width_of b).poly) (λ r. Ok (width_as r (combined_tree span o (width_of a).tree (width_of b).tree)))) }
{
    let (p, a) = a.into_parts();
    let (q, b) = b.into_parts();
    let poly = width_combined(alloc, span, o, &p, &q)?;
    let tree = nodes::binary(alloc, noted(alloc, span)?, operator(o), a, b)?;
    Ok(Width { poly, tree })
}

/// The number above 0 that an expression is written as, where it is one.
fn divisor(e: &Expr) -> Option<u128>
    ensures is { (t : Tests) → result ≡ (rules.found t e.now).divisor }
    ensures some { IfSome result (λ k. 0 < k) }
{
    match e {
        Expr::Int(_, n) => { if *n == 0 { None } else { Some(*n) } }
        // no other form is a number that is written
        _ => None,
    }
}

/// The tree of a division by a number that is written at this place.
fn divided_tree(
    alloc: Global,
    span: Span,
    a: Boxed<Tree>,
    at: Span,
    k: u128,
) -> Result<Boxed<Tree>, AllocError>
    ensures { IfOk result (λ it. tree_of it ≡ rules.divided_tree span (tree_of a) at k) }
{
    let b = nodes::int(alloc, noted(alloc, at)?, k)?;
    nodes::binary(
        alloc,
        noted(alloc, span)?,
        BinaryOperator::DivideExact,
        a,
        b,
    )
}

/// A width divided by an expression: T19 where that isn't written as a number above 0, or where the width has no atom and isn't a
/// multiple of it, and T20 where the denominator passes its limit.
fn divided_width(alloc: Global, span: Span, a: Width, b: &Expr) -> Result<Width, Refused>
    ensures { (t : Tests) → Met width_of result (and_then (found_or (rules.found t b.now).divisor StaticCode.T19 span) (λ k. and_then (limits.width_divided span (width_of a).poly k) (λ r. Ok (width_as r (rules.divided_tree span (width_of a).tree (rules.found t b.now).span k))))) }
{
    let Some(k) = divisor(b) else {
        return fault(StaticCode::T19, span);
    };
    let (p, a) = a.into_parts();
    let poly = width_divided(alloc, span, &p, k)?;
    let tree = divided_tree(alloc, span, a, place(b), k)?;
    Ok(Width { poly, tree })
}

/// The polynomial that an expression stands for as a width, or its one fault: of integer literals, names of constants, global
/// `let`s, parameters, integer formals, `let`s and loop indices, `+`, `-`, `*`, and `DIV` by a number above 0 that is written.
pub fn type_width(alloc: Global, context: Context, e: &Expr) -> Result<Width, Refused>
    ensures { (t : Tests) → Met width_of result (rules.width t e.now (scope_of context.entry)) }
{
    match e {
        Expr::Int(span, n) => literal_width(alloc, *span, *n),
        Expr::Name(span, name) => width_of_name(alloc, context, *span, name.as_slice()),
        Expr::Unary(span, op, a) => match op {
            UnaryOperator::Negate => {
                let a = type_width(alloc, context, a.get())?;
                negated_width(alloc, *span, a)
            }
            UnaryOperator::Not => fault(StaticCode::T19, *span),
            UnaryOperator::Complement => fault(StaticCode::T19, *span),
        },
        Expr::Binary(span, op, a, b) => match joining(*op) {
            Joining::Combines(o) => {
                let a = type_width(alloc, context, a.get())?;
                let b = type_width(alloc, context, b.get())?;
                combined_width(alloc, *span, o, a, b)
            }
            Joining::Divides => {
                let a = type_width(alloc, context, a.get())?;
                divided_width(alloc, *span, a, b.get())
            }
            Joining::JoinsNothing => fault(StaticCode::T19, *span),
        },
        // no other form is a width
        _ => fault(StaticCode::T19, place(e)),
    }
}

/// The integer of a value that is known: T19 where it is no integer, or where there is none.
fn number_of_known(span: Span, value: Option<&Value>) -> Result<i128, Refused>
    ensures { Agrees result (limits.number_of_known span (value_behind value.entry)) }
{
    let Some(value) = value else {
        return fault(StaticCode::T19, span);
    };
    match value {
        Value::Int(z) => Ok(*z),
        Value::Bool(_) => fault(StaticCode::T19, span),
        Value::Bits(_, _) => fault(StaticCode::T19, span),
        Value::Label(_, _) => fault(StaticCode::T19, span),
        Value::Record(_, _) => fault(StaticCode::T19, span),
        Value::Exception(_, _, _, _) => fault(StaticCode::T19, span),
        Value::Tuple(_) => fault(StaticCode::T19, span),
        Value::Array(_, _) => fault(StaticCode::T19, span),
    }
}

/// The integer of a name of a body that counts as this: T19 where it has atoms.
fn number_of_counted(span: Span, counted: &Counted) -> Result<i128, Refused>
    ensures { Agrees result (found_or (constant_value counted.now.poly) StaticCode.T19 span) }
{
    match counted.poly().as_constant() {
        Some(z) => Ok(z),
        None => fault(StaticCode::T19, span),
    }
}

/// The integer of storage: T05 where it is no integer.
fn number_of_storage(span: Span, s: Storage) -> Result<i128, Refused>
    ensures { Agrees result (limits.number_of_storage span (storage_view s.entry)) }
{
    if !is_integer(s.ty) {
        return fault(StaticCode::T05, span);
    }
    match s.counted {
        None => number_of_known(span, s.known()),
        Some(counted) => number_of_counted(span, counted),
    }
}

/// The integer of a name: T02 where it is neither storage nor a label, and T05 where it is a label.
fn number_of_name(
    alloc: Global,
    context: Context,
    span: Span,
    name: &[u8],
) -> Result<Number, Refused>
    ensures { Met number_of result (and_then (limits.number_of_standing span (standing_of name.now (scope_of context.entry).names)) (λ z. Ok (number_as z (name_read span name.now (scope_of context.entry))))) }
{
    match context.names.standing_of(name) {
        None => fault(StaticCode::T02, span),
        Some(Standing::Stored(s)) => {
            let number = number_of_storage(span, s)?;
            let tree = nodes::read(alloc, noted(alloc, span)?, s.slot)?;
            Ok(Number { number, tree })
        }
        Some(Standing::Subprogram) => fault(StaticCode::T02, span),
        Some(Standing::TypeName(_)) => fault(StaticCode::T02, span),
        Some(Standing::Label(_, _)) => fault(StaticCode::T05, span),
    }
}

/// An integer literal: T20 where 128 bits don't hold it.
fn literal_number(alloc: Global, span: Span, n: u128) -> Result<Number, Refused>
    ensures { Met number_of result (after (need (fits (pos n)) StaticCode.T20 span) (Ok (number_as (pos n) (rules_trees.Int (width_note span) n)))) }
{
    if n > GREATEST {
        return fault(StaticCode::T20, span);
    }
    let tree = nodes::int(alloc, noted(alloc, span)?, n)?;
    Ok(Number {
        number: n as i128,
        tree,
    })
}

/// The sum of two integers, else T20.
fn held_sum(span: Span, y: i128, z: i128) -> Result<i128, Refused>
    ensures { Agrees result (limits.held span (y +ℤ z)) }
{
    match y.checked_add(z) {
        Some(n) => Ok(n),
        None => fault(StaticCode::T20, span),
    }
}

/// The difference of two integers, else T20.
fn held_difference(span: Span, y: i128, z: i128) -> Result<i128, Refused>
    ensures { Agrees result (limits.held span (y -ℤ z)) }
{
    match y.checked_sub(z) {
        Some(n) => Ok(n),
        None => fault(StaticCode::T20, span),
    }
}

/// The product of two integers, else T20.
fn held_product(span: Span, y: i128, z: i128) -> Result<i128, Refused>
    ensures { Agrees result (limits.held span (y *ℤ z)) }
{
    match y.checked_mul(z) {
        Some(n) => Ok(n),
        None => fault(StaticCode::T20, span),
    }
}

/// The opposite of an integer, else T20.
fn negated_number(alloc: Global, span: Span, a: Number) -> Result<Number, Refused>
    ensures { Met number_of result (and_then (limits.held span (pos 0 -ℤ (number_of a).number)) (λ n. Ok (number_as n (negative_tree span (number_of a).tree)))) }
{
    let (number, tree) = a.into_parts();
    let number = held_difference(span, 0, number)?;
    let tree = nodes::unary(alloc, noted(alloc, span)?, UnaryOperator::Negate, tree)?;
    Ok(Number { number, tree })
}

/// Two integers combined: T20 where 128 bits don't hold it.
fn number_combined(span: Span, o: Combination, y: i128, z: i128) -> Result<i128, Refused>
    ensures { Agrees result (limits.number_combined span o y z) }
{
    match o {
        Combination::Sum => held_sum(span, y, z),
        Combination::Difference => held_difference(span, y, z),
        Combination::Product => held_product(span, y, z),
    }
}

/// Two integers combined, with their trees.
fn combined_number(
    alloc: Global,
    span: Span,
    o: Combination,
    a: Number,
    b: Number,
) -> Result<Number, Refused>
    ensures { Met number_of result (and_then (limits.number_combined span o (number_of a).number (number_of b).number) (λ n. Ok (number_as n (combined_tree span o (number_of a).tree (number_of b).tree)))) }
{
    let (y, a) = a.into_parts();
    let (z, b) = b.into_parts();
    let number = number_combined(span, o, y, z)?;
    let tree = nodes::binary(alloc, noted(alloc, span)?, operator(o), a, b)?;
    Ok(Number { number, tree })
}

/// An integer divided by `k`, of which it is a multiple.
fn exact_quotient(z: i128, k: u128) -> i128
    requires some { 0 < k }
    requires exact { unsigned_abs z % k ≡ 0 }
    ensures { result ≡ limits.exact_quotient z k }
{
    if k <= GREATEST {
        z.div_euclid(k as i128)
    } else if z == 0 {
        0
    } else {
        // only -2^127 is a multiple of so great a number, and it is so of 2^127 alone
        -1
    }
}

/// An integer divided by `k`: T19 where it isn't a multiple of it.
fn number_divided(span: Span, z: i128, k: u128) -> Result<i128, Refused>
    requires { 0 < k }
    ensures { Agrees result (limits.number_divided span z k) }
{
    if z.unsigned_abs() % k != 0 {
        return fault(StaticCode::T19, span);
    }
    Ok(exact_quotient(z, k))
}

/// An integer divided by an expression: T19 where that isn't written as a number above 0 of which the integer is a multiple.
fn divided_number(alloc: Global, span: Span, a: Number, b: &Expr) -> Result<Number, Refused>
    ensures { (t : Tests) → Met number_of result (and_then (found_or (rules.found t b.now).divisor StaticCode.T19 span) (λ k. and_then (limits.number_divided span (number_of a).number k) (λ n. Ok (number_as n (rules.divided_tree span (number_of a).tree (rules.found t b.now).span k))))) }
{
    let Some(k) = divisor(b) else {
        return fault(StaticCode::T19, span);
    };
    let (z, a) = a.into_parts();
    let number = number_divided(span, z, k)?;
    let tree = divided_tree(alloc, span, a, place(b), k)?;
    Ok(Number { number, tree })
}

/// The integer that a width without atoms stands for, or its one fault. It and its parts are 128-bit integers.
pub fn type_number(alloc: Global, context: Context, e: &Expr) -> Result<Number, Refused>
    ensures { (t : Tests) → Met number_of result ((rules.found t e.now).number (scope_of context.entry)) }
{
    match e {
        Expr::Int(span, n) => literal_number(alloc, *span, *n),
        Expr::Name(span, name) => number_of_name(alloc, context, *span, name.as_slice()),
        Expr::Unary(span, op, a) => match op {
            UnaryOperator::Negate => {
                let a = type_number(alloc, context, a.get())?;
                negated_number(alloc, *span, a)
            }
            UnaryOperator::Not => fault(StaticCode::T19, *span),
            UnaryOperator::Complement => fault(StaticCode::T19, *span),
        },
        Expr::Binary(span, op, a, b) => match joining(*op) {
            Joining::Combines(o) => {
                let a = type_number(alloc, context, a.get())?;
                let b = type_number(alloc, context, b.get())?;
                combined_number(alloc, *span, o, a, b)
            }
            Joining::Divides => {
                let a = type_number(alloc, context, a.get())?;
                divided_number(alloc, *span, a, b.get())
            }
            Joining::JoinsNothing => fault(StaticCode::T19, *span),
        },
        // no other form is a width
        _ => fault(StaticCode::T19, place(e)),
    }
}

/// Whether storage counts as a text that names an atom.
fn storage_has_atom(s: Option<Storage>) -> bool
    ensures { result ≡ limits.storage_has_atom (option_map storage_view s.entry) }
{
    match s {
        None => false,
        Some(s) => match s.counted {
            None => false,
            Some(counted) => counted.has_atom(),
        },
    }
}

/// Whether a width names an atom, the texts that `let`s stand for included.
pub fn has_atom(context: Context, e: &Expr) -> bool
    ensures { (t : Tests) → result ≡ (rules.found t e.now).has_atom (scope_of context.entry) }
{
    match e {
        Expr::Name(_, name) => storage_has_atom(context.names.storage_of(name.as_slice())),
        Expr::Unary(_, op, a) => match op {
            UnaryOperator::Negate => has_atom(context, a.get()),
            UnaryOperator::Not => false,
            UnaryOperator::Complement => false,
        },
        Expr::Binary(_, op, a, b) => match joining(*op) {
            Joining::Combines(_) => has_atom(context, a.get()) || has_atom(context, b.get()),
            Joining::Divides => has_atom(context, a.get()) || has_atom(context, b.get()),
            Joining::JoinsNothing => false,
        },
        // no other form is a width
        _ => false,
    }
}
