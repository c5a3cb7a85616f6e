//! Sums of many widths, whose weights, denominators and atoms all count together, before any terms cancel.

mod within;

ghost use Rattle.std.specs.Prelude.{◌≡◌, ◌≤◌, ◌^◌, ◌<◌, ◌*◌, ◌/◌, length, IfOk};
ghost use Rattle.asl_poly.specs.Limits as limits;
ghost use Rattle.asl_poly.specs.Poly.{SumFits, Gives, with_atoms_of};
ghost use Rattle.asl_rules.specs.expressions.Slicing.{no_width};
ghost use Rattle.asl_rules.specs.types.Widths as rules;
ghost use Rattle.asl_types.specs.private.Answers.{Agrees};
ghost use Rattle.asl_types.specs.private.Totals.{IsTotal, IsWithin, adds, added};

use crate::answer::fault;
use crate::integers::constant_width;
use crate::tests::within_limits;
use asl_poly::{Atom, FINEST, HEAVIEST, MOST_ATOMS, Poly, PolyRefused, least_common_multiple};
use asl_syn::code::{Refused, StaticCode};
use asl_syn::token::Span;
use sqlite_items::Items;
use std::alloc::{AllocError, Global};
use within::Within;

/// A sum of many widths. Once it is past the limits it stays so.
#[derive(Drop)]
pub struct Total {
    within: Option<Within>,
}

/// Whether a width is added or taken away.
#[derive(Clone, Copy)]
enum Sign {
    Plus,
    Minus,
}

/// The weight of the terms of a width: the sum of the absolute values of its coefficients.
#[tactic(auto, using(crate::proofs::TotalLemmas::weight_last))]
fn weight_of(p: &Poly) -> u128
    ensures is { result ≡ limits.weight p.now.terms }
    ensures light { result ≤ 2 ^ 62 }
{
    within_limits(p);
    let mut total: u128 = 0;
    for place in 0..p.terms() {
        match p.term(place) {
            Some((coefficient, _)) => total += coefficient.unsigned_abs(),
            None => {}
        }
    }
    total
}

/// The denominator of a width, from 1 to 65,536.
fn denominator_of(p: &Poly) -> u128
    ensures is { result ≡ p.now.denominator }
    ensures some { 0 < result }
    ensures few { result ≤ 2 ^ 16 }
{
    p.denominator() as u128
}

/// Whether an atom is among these.
fn is_noted(atom: Atom, atoms: &[Atom]) -> bool
    ensures { result ≡ limits.has_atom atom atoms.now }
{
    for other in atoms {
        if atom.0 == other.0 {
            return true;
        }
    }
    false
}

/// The atoms with these behind them, each once.
fn note_factors(atoms: &mut Items<Atom>, factors: &[Atom]) -> Result<(), AllocError>
    ensures { IfOk result (λ _. atoms.new ≡ limits.note_factors atoms.old factors.now) }
{
    for factor in factors {
        if !is_noted(*factor, atoms.as_slice()) {
            atoms.push(*factor)?;
        }
    }
    Ok(())
}

/// The atoms with those of a width behind them, each once.
#[tactic(auto, using(crate::proofs::TotalLemmas::noted_last))]
fn note_width(atoms: &mut Items<Atom>, p: &Poly) -> Result<(), AllocError>
    ensures { IfOk result (λ _. atoms.new ≡ with_atoms_of atoms.old p.now) }
{
    for place in 0..p.terms() {
        match p.term(place) {
            Some((_, factors)) => note_factors(atoms, factors)?,
            None => {}
        }
    }
    Ok(())
}

/// The sum or the difference of two widths.
fn added(alloc: Global, sign: Sign, p: &Poly, q: &Poly) -> Result<Poly, PolyRefused>
    ensures { Gives (SumFits p.now q.now) (added sign p.now q.now) result }
{
    match sign {
        Sign::Plus => p.add(alloc, q),
        Sign::Minus => p.sub(alloc, q),
    }
}

/// A weight over a denominator that is a multiple of its own.
fn weight_over(weight: u128, common: u128, own: u128) -> u128
    requires light { weight ≤ 2 ^ 62 }
    requires fine { common ≤ 2 ^ 16 }
    requires some { 0 < own }
    ensures is { result ≡ weight * (common / own) }
    ensures within { result ≤ 2 ^ 78 }
{
    weight * (common / own)
}

/// A sum within the limits with one more width.
fn more(alloc: Global, within: Within, sign: Sign, p: &Poly) -> Result<Total, AllocError>
    ensures { (x : rules.Total) → IsWithin within x → IfOk result (λ t. IsTotal t (adds sign x p.now)) }
{
    let Within {
        sum,
        weight,
        denominator,
        mut atoms,
    } = within;
    within_limits(p);
    let own = denominator_of(p);
    let common = least_common_multiple(denominator, own);
    if common > FINEST {
        return Ok(Total { within: None });
    }
    note_width(&mut atoms, p)?;
    if atoms.len() > MOST_ATOMS {
        return Ok(Total { within: None });
    }
    let before = weight_over(weight, common, denominator);
    let another = weight_over(weight_of(p), common, own);
    let weight = before + another;
    if weight > HEAVIEST {
        return Ok(Total { within: None });
    }
    match added(alloc, sign, &sum, p) {
        Ok(sum) => Ok(Total {
            within: Some(Within {
                sum,
                weight,
                denominator: common,
                atoms,
            }),
        }),
        Err(PolyRefused::TooLarge) => Ok(Total { within: None }),
        Err(PolyRefused::NoMemory) => Err(AllocError),
    }
}

/// The sum with one more width.
#[tactic(auto, using(crate::proofs::TotalLemmas::past_stays))]
fn with_width(alloc: Global, total: Total, sign: Sign, p: &Poly) -> Result<Total, AllocError>
    ensures { (x : rules.Total) → IsTotal total x → IfOk result (λ t. IsTotal t (adds sign x p.now)) }
{
    let Total { within } = total;
    match within {
        None => {
            within_limits(p);
            Ok(Total { within: None })
        }
        Some(within) => more(alloc, within, sign, p),
    }
}

impl Total {
    /// The sum of no widths.
    pub fn new(alloc: Global) -> Result<Total, AllocError>
        ensures { IfOk result (λ t. IsTotal t no_width) }
    {
        Ok(Total {
            within: Some(Within {
                sum: constant_width(alloc, 0)?,
                weight: 0,
                denominator: 1,
                atoms: Items::new(alloc),
            }),
        })
    }

    /// The sum with one more width added.
    pub fn plus(self, alloc: Global, p: &Poly) -> Result<Total, AllocError>
        ensures { (x : rules.Total) → IsTotal self x → IfOk result (λ t. IsTotal t (rules.plus x p.now)) }
    {
        with_width(alloc, self, Sign::Plus, p)
    }

    /// The sum with one more width taken away.
    pub fn minus(self, alloc: Global, p: &Poly) -> Result<Total, AllocError>
        ensures { (x : rules.Total) → IsTotal self x → IfOk result (λ t. IsTotal t (rules.minus x p.now)) }
    {
        with_width(alloc, self, Sign::Minus, p)
    }

    /// The sum with a number added.
    pub fn plus_number(self, alloc: Global, number: u32) -> Result<Total, AllocError>
        ensures { (x : rules.Total) → IsTotal self x → IfOk result (λ t. IsTotal t (rules.plus_number x number)) }
    {
        let p = constant_width(alloc, u64::from(number))?;
        with_width(alloc, self, Sign::Plus, &p)
    }

    /// The width that the sum is: T20 at this place past the limits.
    #[tactic(auto, using(crate::proofs::TotalLemmas::over))]
    pub fn into_width(self, span: Span) -> Result<Poly, Refused>
        ensures { (x : rules.Total) → IsTotal self x → Agrees result (rules.totalled span x) }
    {
        let Total { within } = self;
        match within {
            None => fault(StaticCode::T20, span),
            Some(within) => {
                let Within {
                    sum,
                    weight: _,
                    denominator: _,
                    atoms: _atoms,
                } = within;
                Ok(sum)
            }
        }
    }
}
