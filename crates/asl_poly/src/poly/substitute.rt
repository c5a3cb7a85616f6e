//! Polynomials in the place of atoms.
//!
//! The weight is found first, since a product of weights may be above every machine integer although the result is within
//! the limits: a factor of weight 0 makes its term vanish. So weights are counted up to a cap above the limit.

ghost use Rattle.std.specs.Prelude.{ℕ, ◌≡◌, ◌≤◌, ◌<◌, ◌+◌, ◌*◌, ◌^◌, ◌↔◌, [], ◌∷◌, IsTrue, IfOk, OnOk, MatchOption, min, unsigned_abs, length};
ghost use Rattle.asl_poly.specs.Limits.{IsMap, weight, degree};
ghost use Rattle.asl_poly.specs.Operations.{constant_term, gather, product_terms};
ghost use Rattle.asl_poly.specs.Substitute.{map_at, denominator_at, AllFine, factors_denominator, common_denominator, raised_term, raised_terms, AreMaps, AllMaps, factors_weight, replaced_weight, factors_degree, replaced_degree, note_maps, note_replaced, times_maps, replaced, ReplacedFits};

use crate::Atom;
use crate::denominators::least_common_multiple;
use crate::limits::{FINEST, HEAVIEST, HIGHEST, MOST_ATOMS, degree, note_terms, weight};
use crate::poly::Poly;
use crate::term::{Term, atom_term, constant_term, copy_term, multiple};
use crate::terms::{add_scaled, copied, multiplied, single};
use std::alloc::{AllocError, Global};

// A weight above the limit, and small enough for the product of two such weights to fit a machine integer.
const CAP: u128 = 1 << 63;

// What `by` has for the atom, and else the atom itself.
fn map_at(alloc: Global, by: &[(Atom, Poly)], x: Atom) -> Result<Vec<Term>, AllocError>
    ensures terms { IfOk result (λ v. v.items ≡ map_at by.now x) }
    ensures map { IfOk result (λ v. IsMap v.items) }
{
    for e in by {
        let y = &e.0;
        if x.0 == y.0 {
            let p = &e.1;
            return copied(alloc, p.terms.as_slice());
        }
    }
    single(alloc, atom_term(alloc, x)?)
}

// The denominator of what `by` has for the atom.
fn denominator_at(by: &[(Atom, Poly)], x: Atom) -> u128
    ensures { result ≡ denominator_at by.now x }
{
    for e in by {
        let y = &e.0;
        if x.0 == y.0 {
            let p = &e.1;
            return p.denominator;
        }
    }
    1
}

// The denominators of what stands for atoms are from 1 to the limit. This says so, and does nothing.
pub(crate) fn all_fine(by: &[(Atom, Poly)])
    ensures { AllFine by.now }
{
    for e in by {
        let p = &e.1;
        let _ = p.denominator();
    }
}

// The product of the denominators of what stands for the atoms.
fn factors_denominator(by: &[(Atom, Poly)], xs: &[Atom]) -> u128
    requires short { length xs.now ≤ 4 }
    requires fine { AllFine by.now }
    ensures is { result ≡ factors_denominator by.now xs.now }
    ensures few { result ≤ 2 ^ 64 }
    ensures some { 0 < result }
{
    let mut product = 1u128;
    for x in xs {
        let n = denominator_at(by, *x);
        product *= n;
    }
    product
}

// The least common multiple of the denominators of the terms, `None` where it is past the limit.
fn common_denominator_within(by: &[(Atom, Poly)], ts: &[Term]) -> Option<u128>
    requires low { degree ts.now ≤ 4 }
    requires fine { AllFine by.now }
    ensures { MatchOption result (2 ^ 16 < common_denominator by.now ts.now) (λ n. (n ≡ common_denominator by.now ts.now) × (0 < n) × (n ≤ 2 ^ 16)) }
{
    let mut n = 1u128;
    for t in ts {
        let m = factors_denominator(by, t.atoms());
        n = least_common_multiple(n, m);
        if n > FINEST {
            return None;
        }
    }
    Some(n)
}

// The same, without the premise on the denominators, which holds of every `Poly`.
pub(crate) fn common_denominator(by: &[(Atom, Poly)], ts: &[Term]) -> Option<u128>
    requires low { degree ts.now ≤ 4 }
    ensures { MatchOption result (2 ^ 16 < common_denominator by.now ts.now) (λ n. (n ≡ common_denominator by.now ts.now) × (0 < n) × (n ≤ 2 ^ 16)) }
{
    all_fine(by);
    common_denominator_within(by, ts)
}

// The term over the denominator `n`, a multiple of its own.
fn raised_term(alloc: Global, by: &[(Atom, Poly)], n: u128, t: &Term) -> Result<Term, AllocError>
    requires short { length t.now.factors ≤ 4 }
    requires light { unsigned_abs t.now.coefficient ≤ 2 ^ 62 }
    requires few { n ≤ 2 ^ 16 }
    ensures { IfOk result (λ r. r ≡ raised_term by.now n t.now) }
{
    all_fine(by);
    let k = n / factors_denominator(by, t.atoms());
    let mut u = copy_term(alloc, t)?;
    let c = multiple(k, t.coefficient());
    u.set(c);
    Ok(u)
}

// Each term over the denominator `n`, a multiple of theirs.
pub(crate) fn raised_terms(
    alloc: Global,
    by: &[(Atom, Poly)],
    n: u128,
    ts: &[Term],
) -> Result<Vec<Term>, AllocError>
    requires low { degree ts.now ≤ 4 }
    requires light { weight ts.now ≤ 2 ^ 62 }
    requires few { n ≤ 2 ^ 16 }
    ensures { IfOk result (λ v. v.items ≡ raised_terms by.now n ts.now) }
{
    let mut terms = Vec::new(alloc);
    for t in ts {
        let u = raised_term(alloc, by, n, t)?;
        terms.push(u)?;
    }
    Ok(terms)
}

// The product of the weights that stand for the atoms, or CAP where it is more.
fn factors_weight(alloc: Global, by: &[(Atom, Poly)], xs: &[Atom]) -> Result<u128, AllocError>
    ensures weight { IfOk result (λ n. n ≡ min (2 ^ 63) (factors_weight by.now xs.now)) }
    ensures maps { OnOk result (AreMaps by.now xs.now) }
{
    let mut product = 1u128;
    for x in xs {
        let q = map_at(alloc, by, *x)?;
        product = capped_product(product, weight_of_map(&q));
    }
    Ok(product)
}

// The product of two capped weights, or CAP where it is more.
fn capped_product(a: u128, b: u128) -> u128
    requires left { a ≤ 2 ^ 63 }
    requires right { b ≤ 2 ^ 63 }
    ensures { result ≡ min (2 ^ 63) (a * b) }
{
    (a * b).min(CAP)
}

// The sum of two capped weights, or CAP where it is more.
fn capped_sum(a: u128, b: u128) -> u128
    requires left { a ≤ 2 ^ 63 }
    requires right { b ≤ 2 ^ 63 }
    ensures { result ≡ min (2 ^ 63) (a + b) }
{
    (a + b).min(CAP)
}

// The weight of what stands for an atom. It is `weight`, with a clause that bounds it.
fn weight_of_map(q: &[Term]) -> u128
    requires { IsMap q.now }
    ensures is { result ≡ weight q.now }
    ensures light { result ≤ 2 ^ 62 }
{
    weight(q)
}

// The weight of a term with its atoms replaced, or CAP where it is more.
fn term_weight(alloc: Global, by: &[(Atom, Poly)], t: &Term) -> Result<u128, AllocError>
    requires light { unsigned_abs t.now.coefficient ≤ 2 ^ 100 }
    ensures { IfOk result (λ n. n ≡ min (2 ^ 63) (unsigned_abs t.now.coefficient * factors_weight by.now t.now.factors)) }
{
    let product = factors_weight(alloc, by, t.atoms())?;
    let c = t.coefficient().unsigned_abs().min(CAP);
    Ok(capped_product(c, product))
}

// The weight of the result before terms cancel, or CAP where it is more.
fn replaced_weight(alloc: Global, by: &[(Atom, Poly)], p: &[Term]) -> Result<u128, AllocError>
    requires light { weight p.now ≤ 2 ^ 100 }
    ensures { IfOk result (λ n. n ≡ min (2 ^ 63) (replaced_weight by.now p.now)) }
{
    let mut sum = 0u128;
    for t in p {
        sum = capped_sum(sum, term_weight(alloc, by, t)?);
    }
    Ok(sum)
}

// The sum of the degrees that stand for the atoms.
fn factors_degree(alloc: Global, by: &[(Atom, Poly)], xs: &[Atom]) -> Result<usize, AllocError>
    requires short { length xs.now ≤ 4 }
    ensures { IfOk result (λ n. n ≡ factors_degree by.now xs.now) }
{
    let mut sum = 0usize;
    for x in xs {
        let q = map_at(alloc, by, *x)?;
        sum += low_degree(&q);
    }
    Ok(sum)
}

// The degree of what stands for an atom. It is `degree`, with a clause that bounds it.
fn low_degree(q: &[Term]) -> usize
    requires { IsMap q.now }
    ensures is { result ≡ degree q.now }
    ensures low { result ≤ 4 }
{
    degree(q)
}

// Appends the atoms of what stands for these atoms, as far as they are not yet there.
fn note_maps(
    alloc: Global,
    by: &[(Atom, Poly)],
    seen: &mut Vec<Atom>,
    xs: &[Atom],
) -> Result<(), AllocError>
    ensures { IfOk result (λ _. seen.new.items ≡ note_maps by.now seen.old.items xs.now) }
{
    for x in xs {
        let q = map_at(alloc, by, *x)?;
        note_terms(seen, &q)?;
    }
    Ok(())
}

// Appends the atoms of what stands for the terms' atoms, as far as they are not yet there.
fn note_replaced(
    alloc: Global,
    by: &[(Atom, Poly)],
    seen: &mut Vec<Atom>,
    p: &[Term],
) -> Result<(), AllocError>
    ensures { IfOk result (λ _. seen.new.items ≡ note_replaced by.now seen.old.items p.now) }
{
    for t in p {
        note_maps(alloc, by, seen, t.atoms())?;
    }
    Ok(())
}

// The degree of the result before terms cancel.
fn replaced_degree(alloc: Global, by: &[(Atom, Poly)], p: &[Term]) -> Result<usize, AllocError>
    requires low { degree p.now ≤ 4 }
    ensures { IfOk result (λ n. n ≡ replaced_degree by.now p.now) }
{
    let mut most = 0usize;
    for t in p {
        let n = factors_degree(alloc, by, t.atoms())?;
        most = most.max(n);
    }
    Ok(most)
}

// `c` times what stands for the atoms.
fn times_maps(
    alloc: Global,
    by: &[(Atom, Poly)],
    c: i128,
    xs: &[Atom],
) -> Result<Vec<Term>, AllocError>
    requires counts { 0 < factors_weight by.now xs.now }
    requires light { unsigned_abs c * factors_weight by.now xs.now ≤ 2 ^ 62 }
    ensures { IfOk result (λ v. v.items ≡ times_maps by.now (constant_term c ∷ []) xs.now) }
{
    let mut terms = single(alloc, constant_term(alloc, c))?;
    for x in xs {
        let q = map_at(alloc, by, *x)?;
        terms = times_map(alloc, &terms, &q)?;
    }
    Ok(terms)
}

// The product with what stands for one atom. It is `multiplied`, whose bound on the second list holds of what stands for
// an atom.
fn times_map(alloc: Global, p: &[Term], q: &[Term]) -> Result<Vec<Term>, AllocError>
    requires left { weight p.now ≤ 2 ^ 62 }
    requires map { IsMap q.now }
    requires light { weight p.now * weight q.now ≤ 2 ^ 62 }
    ensures { IfOk result (λ v. v.items ≡ product_terms p.now q.now) }
{
    multiplied(alloc, p, q)
}

// Adds a term with its atoms replaced.
fn add_replaced(
    alloc: Global,
    by: &[(Atom, Poly)],
    terms: &mut Vec<Term>,
    t: &Term,
) -> Result<(), AllocError>
    requires light { weight terms.old.items + unsigned_abs t.now.coefficient * factors_weight by.now t.now.factors ≤ 2 ^ 62 }
    ensures sum { IfOk result (λ _. terms.new.items ≡ gather terms.old.items (times_maps by.now (constant_term t.now.coefficient ∷ []) t.now.factors)) }
    ensures maps { OnOk result (AreMaps by.now t.now.factors) }
{
    let w = factors_weight(alloc, by, t.atoms())?;
    if w == 0 {
        return Ok(());
    }
    let c = t.coefficient();
    let m = times_maps(alloc, by, c, t.atoms())?;
    let one = constant_term(alloc, 1);
    add_scaled(alloc, terms, &one, &m)?;
    Ok(())
}

// The terms with all their atoms replaced at once.
pub(crate) fn replaced(
    alloc: Global,
    by: &[(Atom, Poly)],
    p: &[Term],
) -> Result<Vec<Term>, AllocError>
    requires light { replaced_weight by.now p.now ≤ 2 ^ 62 }
    ensures terms { IfOk result (λ v. v.items ≡ replaced by.now [] p.now) }
    ensures maps { OnOk result (AllMaps by.now p.now) }
{
    let mut terms = Vec::new(alloc);
    for t in p {
        add_replaced(alloc, by, &mut terms, t)?;
    }
    Ok(terms)
}

// Whether the terms with their atoms replaced are within the limits.
pub(crate) fn substitute_fits(
    alloc: Global,
    by: &[(Atom, Poly)],
    p: &[Term],
) -> Result<bool, AllocError>
    requires light { weight p.now ≤ 2 ^ 100 }
    requires low { degree p.now ≤ 4 }
    ensures { IfOk result (λ b. IsTrue b ↔ ReplacedFits by.now p.now) }
{
    let light = replaced_weight(alloc, by, p)? <= HEAVIEST;
    let low = replaced_degree(alloc, by, p)? <= HIGHEST;
    let mut seen = Vec::new(alloc);
    note_replaced(alloc, by, &mut seen, p)?;
    Ok(light && low && seen.len() <= MOST_ATOMS)
}
