//! Exact arithmetic on 128-bit integers: the mathematical result, or the reason why there is none.
//!
//! Nothing wraps. Only `div_floor`, `modulo` and `shr` round, and they round down. A divisor must be above 0, and the right
//! operand of `pow`, `shl` and `shr` at least 0. Each call takes a short time, however large its operands.
#![tactic(auto)]

ghost use Rattle.std.specs.Prelude.{◌≡◌, ℕ, ℤ, ◌+◌, ◌<◌, ◌≤◌, ◌^◌, pos, ◌+ℤ◌, ◌-ℤ◌, ◌*ℤ◌, neg_ℤ, unsigned_abs};
ghost use Rattle.std.specs.Int.{int_pow};
ghost use Rattle.asl_num.specs.Exact.{IsExact, floor_div, floor_mod, IsQuotient, IsFloor, IsRemainder, IsPower, IsShiftLeft, IsShiftRight};

use thiserror::Error;

/// Why an operation has no result.
#[derive(Clone, Copy, Debug, PartialEq, Eq, Error)]
pub enum NumFault {
    /// The result is outside -2^127 to 2^127 - 1.
    #[error("the result leaves 128 bits")]
    Overflow,
    /// The divisor is 0 or less. This is reported before `Inexact`.
    #[error("the divisor is not above 0")]
    Divisor,
    /// The exact division has a remainder.
    #[error("the division has a remainder")]
    Inexact,
    /// The right operand of a power or a shift is below 0. This is reported before `Overflow`.
    #[error("the right operand is negative")]
    Negative,
}

/// The integer with the other sign, or `Overflow`, which only -2^127 gives.
pub fn neg(a: i128) -> Result<i128, NumFault>
    ensures { IsExact result (neg_ℤ a) }
{
    a.checked_neg().ok_or(NumFault::Overflow)
}

/// The sum, or `Overflow`.
pub fn add(a: i128, b: i128) -> Result<i128, NumFault>
    ensures { IsExact result (a +ℤ b) }
{
    a.checked_add(b).ok_or(NumFault::Overflow)
}

/// The difference, or `Overflow`.
pub fn sub(a: i128, b: i128) -> Result<i128, NumFault>
    ensures { IsExact result (a -ℤ b) }
{
    a.checked_sub(b).ok_or(NumFault::Overflow)
}

/// The product, or `Overflow`.
pub fn mul(a: i128, b: i128) -> Result<i128, NumFault>
    ensures { IsExact result (a *ℤ b) }
{
    a.checked_mul(b).ok_or(NumFault::Overflow)
}

/// The quotient of `DIV`: `Divisor` where `b` is 0 or less, else `Inexact` where there is a remainder.
pub fn div_exact(a: i128, b: i128) -> Result<i128, NumFault>
    ensures { IsQuotient result a b }
{
    if b <= 0 {
        return Err(NumFault::Divisor);
    }
    let quotient = a.div_euclid(b);
    if a.rem_euclid(b) != 0 {
        return Err(NumFault::Inexact);
    }
    Ok(quotient)
}

/// The quotient of `DIVRM`, rounded down: `Divisor` where `b` is 0 or less.
pub fn div_floor(a: i128, b: i128) -> Result<i128, NumFault>
    ensures { IsFloor result a b }
{
    if b <= 0 {
        return Err(NumFault::Divisor);
    }
    Ok(a.div_euclid(b))
}

/// The remainder of `MOD`, which is `a` less `b` times the quotient rounded down, so it is at least 0: `Divisor` where `b`
/// is 0 or less.
pub fn modulo(a: i128, b: i128) -> Result<i128, NumFault>
    ensures { IsRemainder result a b }
{
    if b <= 0 {
        return Err(NumFault::Divisor);
    }
    Ok(a.rem_euclid(b))
}

/// `a` to the power `b`, where 0 to the power 0 is 1: `Negative` where `b` is below 0, else `Overflow`.
pub fn pow(a: i128, b: i128) -> Result<i128, NumFault>
    ensures { IsPower result a b }
{
    if b < 0 {
        return Err(NumFault::Negative);
    }
    power(a, b as u128)
}

/// `a` times 2 to the power `b`: `Negative` where `b` is below 0, else `Overflow`.
pub fn shl(a: i128, b: i128) -> Result<i128, NumFault>
    ensures { IsShiftLeft result a b }
{
    if b < 0 {
        return Err(NumFault::Negative);
    }
    shift_up(a, b as u128)
}

/// `a` divided by 2 to the power `b`, rounded down: `Negative` where `b` is below 0.
pub fn shr(a: i128, b: i128) -> Result<i128, NumFault>
    ensures { IsShiftRight result a b }
{
    if b < 0 {
        return Err(NumFault::Negative);
    }
    Ok(shift_down(a, b as u128))
}

// `a` to the power `exponent`. From the exponent 128 on, only powers of -1, 0 and 1 fit.
#[tactic(auto, using(crate::proofs::Powers::pow_too_large))]
fn power(a: i128, exponent: u128) -> Result<i128, NumFault>
    ensures { IsExact result (int_pow a exponent) }
{
    if exponent < 128 {
        a.checked_pow(exponent as u32).ok_or(NumFault::Overflow)
    } else if 1 < a.unsigned_abs() {
        Err(NumFault::Overflow)
    } else {
        Ok(unit_power(a, exponent))
    }
}

// The power of -1, 0 or 1.
#[tactic(auto, using(crate::proofs::Powers::power_of_units))]
fn unit_power(a: i128, exponent: u128) -> i128
    requires small { unsigned_abs a ≤ 1 }
    requires large { 0 < exponent }
    ensures { result ≡ int_pow a exponent }
{
    if exponent % 2 == 1 {
        a
    } else if a == 0 {
        0
    } else {
        1
    }
}

// `a` times 2 to the power `places`. From 127 places on, only 0 and, at 127, -1 stay within the range.
#[tactic(auto, using(crate::proofs::Powers::shift_facts))]
fn shift_up(a: i128, places: u128) -> Result<i128, NumFault>
    ensures { IsExact result (a *ℤ pos (2 ^ places)) }
{
    if places < 127 {
        mul(a, (1u128 << places) as i128)
    } else if a == 0 {
        Ok(0)
    } else if a == -1 && places == 127 {
        Ok(i128::MIN)
    } else {
        Err(NumFault::Overflow)
    }
}

// `a` divided by 2 to the power `places`. From 128 places on, only the sign is left.
#[tactic(auto, using(crate::proofs::Powers::shift_facts))]
fn shift_down(a: i128, places: u128) -> i128
    ensures { result ≡ floor_div a (2 ^ places) }
{
    if places < 128 {
        a >> (places as u32)
    } else if a < 0 {
        -1
    } else {
        0
    }
}

// ---- laws of the words that the contracts cite

/// What `floor_div` and `floor_mod` mean: the quotient times the divisor and the remainder make up the integer, and the
/// remainder is from 0 to below the divisor.
#[tactic(auto, using(crate::proofs::Laws::floor_law))]
pub fn floor_law()
    ensures { (a : ℤ) (n : ℕ) → 0 < n → (floor_div a n *ℤ pos n +ℤ pos (floor_mod a n) ≡ a) × (floor_mod a n < n) }
{}

/// What `int_pow` means: it multiplies 1 by the integer as often as the exponent says.
#[tactic(auto, using(crate::proofs::Laws::power_law))]
pub fn power_law()
    ensures { (a : ℤ) (n : ℕ) → (int_pow a 0 ≡ pos 1) × (int_pow a (n + 1) ≡ int_pow a n *ℤ a) }
{}
