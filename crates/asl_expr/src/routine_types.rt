//! The types of the subprograms of the library.

ghost use Rattle.std.specs.Prelude.{◌≡◌, ◌≤◌, ◌^◌, ◌-◌, pos, neg_ℤ, map, IfOk};
ghost use Rattle.asl_poly.specs.Poly.{constant_value};
ghost use Rattle.asl_rules.specs.expressions.Calls as rules;
ghost use Rattle.asl_rules.specs.types.Types as types;
ghost use Rattle.asl_rules.specs.expressions.Typing.{types_of};
ghost use Rattle.asl_types.specs.private.Answers.{Met};
ghost use Rattle.asl_shape.specs.View.{routine_of};
ghost use Rattle.asl_tree.specs.View.{all_operands};
ghost use Rattle.asl_expr.specs.CallViews.{all_given};

use crate::params::{GivenWidth, width_of};
use asl_cons::Cons;
use asl_poly::Poly;
use asl_shape::Routine;
use asl_syn::code::{Refused, StaticCode};
use asl_syn::token::Span;
use asl_tree::tree::Tree;
use asl_types::Ty;
use asl_types::answer::fault;
use asl_types::integers::{any_integer, bits_of, from_to, integers, only_width};
use asl_types::kinds::{is_bits, is_integer};
use std::alloc::{AllocError, Global};

/// How many parameters a subprogram of the library has in braces.
pub(crate) fn routine_params(routine: Routine) -> usize
    ensures { result ≡ rules.routine_params (routine_of routine) }
{
    match routine {
        Routine::UInt => 0,
        Routine::SInt => 0,
        Routine::Zeros => 1,
        Routine::Ones => 1,
        Routine::ZeroExtend => 1,
        Routine::SignExtend => 1,
        Routine::IsZero => 0,
        Routine::IsOnes => 0,
        Routine::Len => 0,
        Routine::Abs => 0,
        Routine::Min => 0,
        Routine::Max => 0,
    }
}

/// Whether there are no arguments.
#[tactic(auto, using(crate::proofs::CallLemmas::nothing_is, crate::proofs::CallLemmas::nothing_not))]
fn takes_nothing(arguments: &[Tree]) -> bool
    ensures { result ≡ types.kinds_eq types.no_kind (types.kinds (types_of (all_operands arguments.now))) }
{
    if arguments.len() != 0 {
        return false;
    }
    true
}

/// Whether there is one argument, and it is bits.
#[tactic(auto, using(crate::proofs::CallLemmas::bits_is, crate::proofs::CallLemmas::bits_not))]
fn takes_bits(arguments: &[Tree]) -> bool
    ensures { result ≡ types.kinds_eq rules.of_bits (types.kinds (types_of (all_operands arguments.now))) }
{
    if arguments.len() != 1 {
        return false;
    }
    is_bits(arguments[0].ty())
}

/// Whether there is one argument, and it is an integer.
#[tactic(auto, using(crate::proofs::CallLemmas::integer_is, crate::proofs::CallLemmas::integer_not))]
fn takes_integer(arguments: &[Tree]) -> bool
    ensures { result ≡ types.kinds_eq rules.of_integer (types.kinds (types_of (all_operands arguments.now))) }
{
    if arguments.len() != 1 {
        return false;
    }
    is_integer(arguments[0].ty())
}

/// Whether there are two arguments, and both are integers.
#[tactic(auto, using(crate::proofs::CallLemmas::integers_are, crate::proofs::CallLemmas::integers_not))]
fn takes_integers(arguments: &[Tree]) -> bool
    ensures { result ≡ types.kinds_eq (types.one_more types.integers rules.of_integer) (types.kinds (types_of (all_operands arguments.now))) }
{
    if arguments.len() != 2 {
        return false;
    }
    let first = is_integer(arguments[0].ty());
    let second = is_integer(arguments[1].ty());
    first && second
}

/// Whether a subprogram of the library takes arguments of these types.
fn takes(routine: Routine, arguments: &[Tree]) -> bool
    ensures { result ≡ types.kinds_eq (rules.routine_formals (routine_of routine)) (types.kinds (types_of (all_operands arguments.now))) }
{
    match routine {
        Routine::UInt => takes_bits(arguments),
        Routine::SInt => takes_bits(arguments),
        Routine::Zeros => takes_nothing(arguments),
        Routine::Ones => takes_nothing(arguments),
        Routine::ZeroExtend => takes_bits(arguments),
        Routine::SignExtend => takes_bits(arguments),
        Routine::IsZero => takes_bits(arguments),
        Routine::IsOnes => takes_bits(arguments),
        Routine::Len => takes_bits(arguments),
        Routine::Abs => takes_integer(arguments),
        Routine::Min => takes_integers(arguments),
        Routine::Max => takes_integers(arguments),
    }
}

/// A subprogram of the library takes arguments of its kinds, else T09.
pub(crate) fn routine_taken(span: Span, routine: Routine, arguments: &[Tree]) -> Result<(), Refused>
    ensures { Met (λ u. u) result (rules.routine_taken span (routine_of routine) (all_operands arguments.now)) }
{
    if !takes(routine, arguments) {
        return fault(StaticCode::T09, span);
    }
    Ok(())
}

/// The width of the first argument, 0 where there is none.
fn first_width(alloc: Global, arguments: &[Tree]) -> Result<Poly, AllocError>
    ensures { IfOk result (λ p. p ≡ rules.first_width (types_of (all_operands arguments.now))) }
{
    match arguments.first() {
        Some(a) => width_of(alloc, a.ty()),
        None => width_of(alloc, &Ty::boolean()),
    }
}

/// 2 to this power.
fn power(k: u32) -> i128
    requires { k ≤ 126 }
    ensures { result ≡ pos (2 ^ k) }
{
    1i128 << k
}

/// The integers that bits of this width stand for without a sign: 0 to 2^k - 1 where the width is a number k from 0 to 127, else
/// any.
fn unsigned(alloc: Global, width: Option<i128>) -> Result<Cons, AllocError>
    ensures { IfOk result (λ c. c ≡ rules.unsigned width) }
{
    match width {
        None => Ok(Cons::whole(alloc)),
        Some(k) => {
            if k < 0 || k > 127 {
                return Ok(Cons::whole(alloc));
            }
            if k == 127 {
                return from_to(alloc, 0, i128::MAX);
            }
            from_to(alloc, 0, power(k as u32) - 1)
        }
    }
}

/// The integers that bits of this width stand for with a sign: -2^(k-1) to 2^(k-1) - 1 where the width is a number k from 1 to
/// 128, else any.
fn signed(alloc: Global, width: Option<i128>) -> Result<Cons, AllocError>
    ensures { IfOk result (λ c. c ≡ rules.signed width) }
{
    match width {
        None => Ok(Cons::whole(alloc)),
        Some(k) => {
            if k < 1 || k > 128 {
                return Ok(Cons::whole(alloc));
            }
            if k == 128 {
                return from_to(alloc, i128::MIN, i128::MAX);
            }
            let half = power(k as u32 - 1);
            from_to(alloc, 0 - half, half - 1)
        }
    }
}

/// The integers that the first argument stands for without a sign.
fn unsigned_type(alloc: Global, arguments: &[Tree]) -> Result<Ty, AllocError>
    ensures { IfOk result (λ it. it ≡ types.integer_of (rules.unsigned (constant_value (rules.first_width (types_of (all_operands arguments.now)))))) }
{
    let width = first_width(alloc, arguments)?;
    integers(alloc, unsigned(alloc, width.as_constant())?)
}

/// The integers that the first argument stands for with a sign.
fn signed_type(alloc: Global, arguments: &[Tree]) -> Result<Ty, AllocError>
    ensures { IfOk result (λ it. it ≡ types.integer_of (rules.signed (constant_value (rules.first_width (types_of (all_operands arguments.now)))))) }
{
    let width = first_width(alloc, arguments)?;
    integers(alloc, signed(alloc, width.as_constant())?)
}

/// The width of the first argument alone.
fn length_type(alloc: Global, arguments: &[Tree]) -> Result<Ty, AllocError>
    ensures { IfOk result (λ it. it ≡ types.integer_of (types.only_width (rules.first_width (types_of (all_operands arguments.now))))) }
{
    let width = first_width(alloc, arguments)?;
    integers(alloc, only_width(alloc, &width)?)
}

/// Bits of the first parameter.
fn bits_of_first(alloc: Global, given: &[GivenWidth]) -> Result<Ty, AllocError>
    ensures { IfOk result (λ it. it ≡ rules.bits_of_first (rules.polys (all_given given.now))) }
{
    match given.first() {
        Some(g) => bits_of(alloc, g.width.copy(alloc)?),
        None => Ok(Ty::boolean()),
    }
}

/// The type of the result of a subprogram of the library.
pub(crate) fn routine_type(
    alloc: Global,
    routine: Routine,
    given: &[GivenWidth],
    arguments: &[Tree],
) -> Result<Ty, AllocError>
    ensures { IfOk result (λ it. it ≡ rules.routine_type (routine_of routine) (rules.polys (all_given given.now)) (types_of (all_operands arguments.now))) }
{
    match routine {
        Routine::UInt => unsigned_type(alloc, arguments),
        Routine::SInt => signed_type(alloc, arguments),
        Routine::Zeros => bits_of_first(alloc, given),
        Routine::Ones => bits_of_first(alloc, given),
        Routine::ZeroExtend => bits_of_first(alloc, given),
        Routine::SignExtend => bits_of_first(alloc, given),
        Routine::IsZero => Ok(Ty::boolean()),
        Routine::IsOnes => Ok(Ty::boolean()),
        Routine::Len => length_type(alloc, arguments),
        Routine::Abs => any_integer(alloc),
        Routine::Min => any_integer(alloc),
        Routine::Max => any_integer(alloc),
    }
}
