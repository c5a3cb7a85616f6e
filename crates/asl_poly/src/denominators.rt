//! Denominators: common ones, and lowest terms.

ghost use Rattle.std.specs.Prelude.{◌≡◌, ◌≤◌, ◌<◌, ◌*◌, ◌^◌, [], ◌∷◌, pos, IfOk, unsigned_abs, int_div};
ghost use Rattle.std.specs.Int.{IsGcd};
ghost use Rattle.asl_poly.specs.Limits.{weight};
ghost use Rattle.asl_poly.specs.Operations.{times, constant_term, with_coefficient};
ghost use Rattle.asl_poly.specs.Denominators.{greatest_common_divisor, least_common_multiple, multiples, divided, sizes};

use crate::term::{Term, copy_term, multiple};
use std::alloc::{AllocError, Global};

// The greatest common divisor, by Euclid's algorithm.
fn gcd(a: u128, b: u128) -> u128
    ensures { IsGcd a b result }
{
    let mut x = a;
    let mut y = b;
    while y != 0 {
        let rest = x % y;
        x = y;
        y = rest;
    }
    x
}

// The greatest number that divides both.
fn greatest_common_divisor(d: u128, e: u128) -> u128
    requires { 0 < d }
    ensures { result ≡ greatest_common_divisor d (e ∷ []) }
{
    gcd(d, e)
}

/// The least number that both divide.
pub fn least_common_multiple(d: u128, e: u128) -> u128
    requires some { 0 < d }
    requires left { d ≤ 2 ^ 16 }
    requires right { e ≤ 2 ^ 64 }
    ensures { result ≡ least_common_multiple d e }
{
    d * (e / greatest_common_divisor(d, e))
}

// The absolute coefficient.
fn size(t: &Term) -> u128
    ensures { result ≡ unsigned_abs t.now.coefficient }
{
    t.coefficient().unsigned_abs()
}

// The greatest number that divides `d` and all coefficients.
pub(crate) fn common_divisor(d: u128, ts: &[Term]) -> u128
    requires { 0 < d }
    ensures { result ≡ greatest_common_divisor d (sizes ts.now) }
{
    let mut g = d;
    for t in ts {
        let n = size(t);
        g = gcd(g, n);
    }
    g
}

// `k` times a term.
fn multiple_term(alloc: Global, k: u128, t: &Term) -> Result<Term, AllocError>
    requires few { k ≤ 2 ^ 16 }
    requires light { unsigned_abs t.now.coefficient ≤ 2 ^ 62 }
    ensures { IfOk result (λ r. r ≡ times (constant_term (pos k)) t.now) }
{
    let mut u = copy_term(alloc, t)?;
    let c = multiple(k, t.coefficient());
    u.set(c);
    Ok(u)
}

// `k` times the terms.
pub(crate) fn multiples(alloc: Global, k: u128, ts: &[Term]) -> Result<Vec<Term>, AllocError>
    requires few { k ≤ 2 ^ 16 }
    requires light { weight ts.now ≤ 2 ^ 62 }
    ensures { IfOk result (λ v. v.items ≡ multiples k ts.now) }
{
    let mut terms = Vec::new(alloc);
    for t in ts {
        let u = multiple_term(alloc, k, t)?;
        terms.push(u)?;
    }
    Ok(terms)
}

// The quotient, rounded towards 0.
fn quotient(c: i128, k: u128) -> i128
    requires some { 0 < k }
    requires few { k ≤ 2 ^ 16 }
    ensures { result ≡ int_div c (pos k) }
{
    c / (k as i128)
}

// A term with its coefficient divided by `k`.
fn divided_term(alloc: Global, k: u128, t: &Term) -> Result<Term, AllocError>
    requires some { 0 < k }
    requires few { k ≤ 2 ^ 16 }
    ensures { IfOk result (λ r. r ≡ with_coefficient (int_div t.now.coefficient (pos k)) t.now) }
{
    let mut u = copy_term(alloc, t)?;
    let c = quotient(t.coefficient(), k);
    u.set(c);
    Ok(u)
}

// The terms with each coefficient divided by `k`.
pub(crate) fn divided(alloc: Global, k: u128, ts: &[Term]) -> Result<Vec<Term>, AllocError>
    requires some { 0 < k }
    requires few { k ≤ 2 ^ 16 }
    ensures { IfOk result (λ v. v.items ≡ divided k ts.now) }
{
    let mut terms = Vec::new(alloc);
    for t in ts {
        let u = divided_term(alloc, k, t)?;
        terms.push(u)?;
    }
    Ok(terms)
}
