//! The weight, the degree and the atoms of terms, and the limits of sums and products.

ghost use Rattle.std.specs.Prelude.{◌≡◌, ◌<◌, ◌≤◌, ◌^◌, ◌↔◌, IsTrue, IfOk, length};
ghost use Rattle.asl_poly.specs.Terms.{over};
ghost use Rattle.asl_poly.specs.Limits.{weight, degree, has_atom, note_factors, note_terms, atoms_of_both};
ghost use Rattle.asl_poly.specs.Poly.{SumFits, ProductFits};

use crate::Atom;
use crate::denominators::least_common_multiple;
use crate::term::Term;
use std::alloc::{AllocError, Global};

/// The greatest weight of a polynomial, the sum of its absolute coefficients: 2^62.
pub const HEAVIEST: u128 = 1 << 62;

/// The greatest degree of a polynomial, the number of factors of a term.
pub const HIGHEST: usize = 4;

/// The most atoms of a polynomial.
pub const MOST_ATOMS: usize = 8;

/// The greatest denominator of a polynomial, also before the lowest terms are found: 65,536.
pub const FINEST: u128 = 65536;

// The sum of the absolute coefficients.
pub(crate) fn weight(ts: &[Term]) -> u128
    requires { weight ts.now ≤ 2 ^ 100 }
    ensures { result ≡ weight ts.now }
{
    let mut sum = 0u128;
    for t in ts {
        sum += t.coefficient().unsigned_abs();
    }
    sum
}

// The greatest degree of the terms: how many atoms, counted as factors, the longest monomial has.
pub(crate) fn degree(ts: &[Term]) -> usize
    ensures { result ≡ degree ts.now }
{
    let mut most = 0usize;
    for t in ts {
        most = most.max(t.atoms().len());
    }
    most
}

// Whether the atom is in the list.
fn has(x: Atom, ys: &[Atom]) -> bool
    ensures { result ≡ has_atom x ys.now }
{
    for y in ys {
        if x.0 == y.0 {
            return true;
        }
    }
    false
}

// Appends those of the atoms that are not yet there.
fn note_factors(seen: &mut Vec<Atom>, xs: &[Atom]) -> Result<(), AllocError>
    ensures { IfOk result (λ _. seen.new.items ≡ note_factors seen.old.items xs.now) }
{
    for x in xs {
        if !has(*x, seen.as_slice()) {
            seen.push(*x)?;
        }
    }
    Ok(())
}

// Appends those of the terms' atoms that are not yet there.
pub(crate) fn note_terms(seen: &mut Vec<Atom>, ts: &[Term]) -> Result<(), AllocError>
    ensures { IfOk result (λ _. seen.new.items ≡ note_terms seen.old.items ts.now) }
{
    for t in ts {
        note_factors(seen, t.atoms())?;
    }
    Ok(())
}

// Whether the two together have few enough atoms.
fn few(alloc: Global, p: &[Term], q: &[Term]) -> Result<bool, AllocError>
    ensures { IfOk result (λ b. IsTrue b ↔ (length (atoms_of_both p.now q.now) ≤ 8)) }
{
    let mut seen = Vec::new(alloc);
    note_terms(&mut seen, p)?;
    note_terms(&mut seen, q)?;
    Ok(seen.len() <= MOST_ATOMS)
}

// Whether the sum of the two, the terms `p` over `d` and `q` over `e`, or their difference, is within the limits.
pub(crate) fn sum_fits(
    alloc: Global,
    p: &[Term],
    d: u128,
    q: &[Term],
    e: u128,
) -> Result<bool, AllocError>
    requires left { weight p.now ≤ 2 ^ 62 }
    requires right { weight q.now ≤ 2 ^ 62 }
    requires below_left { 0 < d }
    requires below_right { 0 < e }
    requires fine_left { d ≤ 2 ^ 16 }
    requires fine_right { e ≤ 2 ^ 16 }
    ensures { IfOk result (λ b. IsTrue b ↔ SumFits (over p.now d) (over q.now e)) }
{
    let n = least_common_multiple(d, e);
    if n > FINEST {
        return Ok(false);
    }
    let light = weight(p) * (n / d) + weight(q) * (n / e) <= HEAVIEST;
    let few = few(alloc, p, q)?;
    Ok(light && few)
}

// Whether the product of the two, the terms `p` over `d` and `q` over `e`, is within the limits.
pub(crate) fn product_fits(
    alloc: Global,
    p: &[Term],
    d: u128,
    q: &[Term],
    e: u128,
) -> Result<bool, AllocError>
    requires left { weight p.now ≤ 2 ^ 62 }
    requires right { weight q.now ≤ 2 ^ 62 }
    requires low { degree p.now ≤ 4 }
    requires flat { degree q.now ≤ 4 }
    requires fine_left { d ≤ 2 ^ 16 }
    requires fine_right { e ≤ 2 ^ 16 }
    ensures { IfOk result (λ b. IsTrue b ↔ ProductFits (over p.now d) (over q.now e)) }
{
    let light = weight(p) * weight(q) <= HEAVIEST;
    let low = degree(p) + degree(q) <= HIGHEST;
    let few = few(alloc, p, q)?;
    let fine = d * e <= FINEST;
    Ok(light && low && few && fine)
}
