//! Names and literals.

ghost use Rattle.std.specs.Prelude.{◌≡◌, length, IfOk};
ghost use Rattle.asl_rules.specs.expressions.Exprs as rules;
ghost use Rattle.asl_rules.specs.runs.Trees as trees_of_rules;
ghost use Rattle.asl_rules.specs.types.Types as types;
ghost use Rattle.asl_rules.specs.expressions.Typing.{in_class};
ghost use Rattle.asl_rules.specs.values.Values.{bool as a_bool, bits_with};
ghost use Rattle.asl_value.specs.View.{value_of};
ghost use Rattle.asl_types.specs.private.Answers.{Met};
ghost use Rattle.asl_subprograms.specs.private.ContextView.{scope_of};
ghost use Rattle.asl_types.specs.private.Standings.{storage_view};
ghost use Rattle.asl_types.specs.Suits.{Suits};
ghost use Rattle.asl_rules.specs.declarations.Scopes as scopes;
ghost use Rattle.asl_rules.specs.Tests.{Tests};
ghost use Rattle.asl_rules.specs.values.Vectors.{literal_of};
ghost use Rattle.asl_tree.specs.View.{typed_of};

use crate::ends::keep_class;
use asl_rules::effect::Effect;
use asl_subprograms::Context;
use asl_syn::code::{Refused, StaticCode};
use asl_syn::token::Span;
use asl_tree::nodes;
use asl_tree::tree::{Note, Tree};
use asl_types::answer::fault;
use asl_types::integers::{any_integer, bits_wide, integers, only_number};
use asl_types::{Standing, Storage, Ty, reading};
use asl_value::{Value, bits_of_literal, copy, plain_bits};
use asl_vector::Vector;
use sqlite_items::Boxed;
use std::alloc::{AllocError, Global};

/// The type of an integer literal: its number alone, and any integer where it isn't within 128 bits.
fn literal_type(alloc: Global, n: u128) -> Result<Ty, AllocError>
    ensures { IfOk result (λ ty. ty ≡ rules.literal_type n) }
{
    match i128::try_from(n) {
        Ok(number) => integers(alloc, only_number(alloc, number)?),
        Err(_) => any_integer(alloc),
    }
}

/// An integer literal.
pub fn type_int(alloc: Global, class: Effect, span: Span, n: u128) -> Result<Boxed<Tree>, Refused>
    ensures { Met typed_of result (in_class class span Effect.Pure (rules.literal_type n) (λ m. trees_of_rules.Int m n)) }
{
    keep_class(class, span, Effect::Pure)?;
    let note = Note {
        span,
        ty: literal_type(alloc, n)?,
        effect: Effect::Pure,
    };
    Ok(nodes::int(alloc, note, n)?)
}

/// `TRUE` or `FALSE`.
pub fn type_bool(alloc: Global, class: Effect, span: Span, b: bool) -> Result<Boxed<Tree>, Refused>
    ensures { Met typed_of result (in_class class span Effect.Pure types.boolean (λ n. trees_of_rules.Constant n (a_bool b))) }
{
    keep_class(class, span, Effect::Pure)?;
    let note = Note {
        span,
        ty: Ty::boolean(),
        effect: Effect::Pure,
    };
    Ok(nodes::constant(alloc, note, Value::Bool(b))?)
}

/// Bits that are written.
fn type_digits(
    alloc: Global,
    class: Effect,
    span: Span,
    bits: Vector,
) -> Result<Boxed<Tree>, Refused>
    ensures { Met typed_of result (rules.bits_literal class span bits) }
{
    keep_class(class, span, Effect::Pure)?;
    let note = Note {
        span,
        ty: bits_wide(alloc, u64::from(bits.width()))?,
        effect: Effect::Pure,
    };
    Ok(nodes::constant(alloc, note, plain_bits(bits))?)
}

/// A literal of bits, whose text has its quotes: S03 where a digit is free, or where it has more digits than the widest bits.
pub fn type_bits(
    alloc: Global,
    class: Effect,
    span: Span,
    text: &[u8],
) -> Result<Boxed<Tree>, Refused>
    ensures { (t : Tests) → Suits t → Met typed_of result (rules.bits_rule_of class span (literal_of t.limit text.now)) }
{
    match bits_of_literal(alloc, text)? {
        None => fault(StaticCode::S03, span),
        Some(bits) => type_digits(alloc, class, span, bits),
    }
}

/// A name of storage.
fn type_storage(
    alloc: Global,
    class: Effect,
    span: Span,
    s: Storage,
) -> Result<Boxed<Tree>, Refused>
    ensures { Met typed_of result (in_class class span (scopes.reading (storage_view s.entry)) s.entry.ty.now (λ n. trees_of_rules.Read n s.entry.slot)) }
{
    let effect = reading(s);
    keep_class(class, span, effect)?;
    let note = Note {
        span,
        ty: s.ty.copy()?,
        effect,
    };
    Ok(nodes::read(alloc, note, s.slot)?)
}

/// A label of an enumeration.
fn type_label(
    alloc: Global,
    class: Effect,
    span: Span,
    ty: &Ty,
    value: &Value,
) -> Result<Boxed<Tree>, Refused>
    ensures { Met typed_of result (in_class class span Effect.Pure ty.now (λ n. trees_of_rules.Constant n (value_of value.now))) }
{
    keep_class(class, span, Effect::Pure)?;
    let note = Note {
        span,
        ty: ty.copy()?,
        effect: Effect::Pure,
    };
    Ok(nodes::constant(alloc, note, copy(value)?)?)
}

/// A name: T02 where it is neither storage nor a label.
pub fn type_name(
    alloc: Global,
    context: Context,
    span: Span,
    name: &[u8],
) -> Result<Boxed<Tree>, Refused>
    ensures { Met typed_of result (rules.name_rule span name.now (scope_of context.entry)) }
{
    match context.names.standing_of(name) {
        None => fault(StaticCode::T02, span),
        Some(Standing::Stored(s)) => type_storage(alloc, context.class, span, s),
        Some(Standing::Subprogram) => fault(StaticCode::T02, span),
        Some(Standing::TypeName(_)) => fault(StaticCode::T02, span),
        Some(Standing::Label(ty, value)) => type_label(alloc, context.class, span, ty, value),
    }
}
