//! The polynomials that the other crates see.

mod substitute;

ghost use Rattle.std.specs.Prelude.{ℕ, ◌≡◌, ◌<◌, ◌≤◌, ◌*◌, ◌^◌, ◌↔◌, ℤ, pos, ◌≤ℤ◌, IsTrue, IfOk, IfSome, MatchOption, Some, None, slice_get, length, unsigned_abs};
ghost use Rattle.asl_poly.specs.WidthLimits.{heaviest};
ghost use Rattle.asl_poly.specs.Terms.{value};
ghost use Rattle.asl_poly.specs.Limits.{IsMap};
ghost use Rattle.asl_poly.specs.Operations.{product_terms};
ghost use Rattle.asl_poly.specs.Denominators.{lowest, raised};
ghost use Rattle.asl_poly.specs.Substitute.{common_denominator, raised_terms};
ghost use Rattle.asl_poly.specs.Poly.{IsPolynomial, Same, IsConstant, IsOffset, IsSum, IsDifference, IsProduct, IsQuotient, IsSubstituted, sum_denominator, ConstantFits, SumFits, ProductFits, QuotientFits, SubstituteFits, constant_map, atom_map, sum_map, difference_map, product_map, quotient_map, substitute_map, constant_value, number_over, Gives};

use crate::constant::{constant_of, offset_of};
use crate::denominators::{common_divisor, divided, least_common_multiple, multiples};
use crate::limits::{FINEST, HEAVIEST, product_fits, sum_fits};
use crate::term::{Term, atom_term, constant_term};
use crate::terms::{copied, difference, equal_terms, multiplied, single, sum};
use crate::{Atom, PolyRefused};
use std::alloc::{AllocError, Global};
use std::marker::Model;
use substitute::{all_fine, common_denominator, raised_terms, replaced, substitute_fits};

/// A polynomial with whole coefficients over a denominator, within the limits, in lowest terms and in normal form: a sum of
/// terms with different monomials, the greatest monomial first and the constant term last, none with the coefficient 0.
///
/// Monomials are compared by their greatest atom, then by the next one; a prefix of a monomial is smaller than it.
#[derive(Drop)]
pub struct Poly {
    terms: Vec<Term>,
    denominator: u128,
}

impl Model for Poly {
    ghost use Rattle.asl_poly.specs.Terms.{Polynomial, over};
    ghost use Rattle.asl_poly.specs.Poly.{IsPolynomial};

    ghost Value = { Polynomial };

    ghost view = { λ p. over p.terms.items p.denominator };

    ghost invariant = { λ p. IsPolynomial (over p.terms.items p.denominator) };
}

impl Poly {
    // The terms over `d`, in lowest terms.
    #[tactic(auto, unfolding(crate::specs::Denominators::lowest))]
    fn lowest(alloc: Global, terms: Vec<Term>, d: u128) -> Result<Poly, AllocError>
        requires map { IsMap terms.items }
        requires some { 0 < d }
        requires fine { d ≤ 2 ^ 16 }
        ensures { IfOk result (λ r. r ≡ lowest terms.items d) }
    {
        let k = common_divisor(d, &terms);
        let terms = divided(alloc, k, &terms)?;
        Ok(Poly {
            terms,
            denominator: d / k,
        })
    }

    /// The integer `value`. `TooLarge` exactly where its absolute value is above 2^62.
    #[tactic(auto, using(crate::proofs::Maps::value_constant), unfolding(crate::specs::Poly::constant_map))]
    pub fn constant(alloc: Global, value: i128) -> Result<Poly, PolyRefused>
        ensures gives { Gives (ConstantFits value) (constant_map value) result }
        ensures value { IfOk result (λ r. IsConstant r value) }
    {
        if value.unsigned_abs() > HEAVIEST {
            return Err(PolyRefused::TooLarge);
        }
        if value == 0 {
            return Ok(Poly {
                terms: Vec::new(alloc),
                denominator: 1,
            });
        }
        let terms = single(alloc, constant_term(alloc, value))?;
        Ok(Poly {
            terms,
            denominator: 1,
        })
    }

    /// The atom alone. Never `TooLarge`.
    #[tactic(auto, unfolding(crate::specs::Poly::atom_map))]
    pub fn atom(alloc: Global, atom: Atom) -> Result<Poly, PolyRefused>
        ensures { Gives (Unit {0}) (atom_map atom) result }
    {
        let terms = single(alloc, atom_term(alloc, atom)?)?;
        Ok(Poly {
            terms,
            denominator: 1,
        })
    }

    /// The same polynomial once more.
    pub fn copy(&self, alloc: Global) -> Result<Poly, AllocError>
        ensures { IfOk result (λ r. r ≡ self.now) }
    {
        let terms = copied(alloc, &self.terms)?;
        Ok(Poly {
            terms,
            denominator: self.denominator,
        })
    }

    // Whether the sum or the difference of the two is within the limits.
    fn sum_fits(&self, alloc: Global, other: &Poly) -> Result<bool, AllocError>
        ensures { IfOk result (λ b. IsTrue b ↔ SumFits self.now other.now) }
    {
        sum_fits(
            alloc,
            &self.terms,
            self.denominator,
            &other.terms,
            other.denominator,
        )
    }

    // The denominator of the sum, which is within the limits.
    #[tactic(auto, using(crate::proofs::Maps::common_some))]
    fn sum_denominator(&self, other: &Poly) -> u128
        ensures { result ≡ sum_denominator self.now other.now }
    {
        least_common_multiple(self.denominator, other.denominator)
    }

    // The terms over `n`, a multiple of the denominator.
    #[tactic(auto, using(crate::proofs::Maps::lacks_few))]
    fn raised(&self, alloc: Global, n: u128) -> Result<Vec<Term>, AllocError>
        requires { n ≤ 2 ^ 16 }
        ensures { IfOk result (λ v. v.items ≡ raised n self.now) }
    {
        let k = n / self.denominator;
        multiples(alloc, k, &self.terms)
    }

    /// The sum, over L, the least common multiple of the two denominators. `TooLarge` exactly where L is above 65,536, the
    /// sum of both weights, each times L divided by its denominator, is above 2^62, or both together have more than 8 atoms.
    pub fn add(&self, alloc: Global, other: &Poly) -> Result<Poly, PolyRefused>
        ensures gives { Gives (SumFits self.now other.now) (sum_map self.now other.now) result }
        ensures value { IfOk result (λ r. IsSum self.now other.now r) }
    {
        let _ = self.denominator();
        let _ = other.denominator();
        if !self.sum_fits(alloc, other)? {
            return Err(PolyRefused::TooLarge);
        }
        let n = self.sum_denominator(other);
        let terms = self.raised(alloc, n)?;
        let others = other.raised(alloc, n)?;
        let made = sum(alloc, terms, &others)?;
        let answer = Poly::lowest(alloc, made, n)?;
        Ok(answer)
    }

    /// The difference. `TooLarge` as for the sum.
    pub fn sub(&self, alloc: Global, other: &Poly) -> Result<Poly, PolyRefused>
        ensures gives { Gives (SumFits self.now other.now) (difference_map self.now other.now) result }
        ensures value { IfOk result (λ r. IsDifference self.now other.now r) }
    {
        let _ = self.denominator();
        let _ = other.denominator();
        if !self.sum_fits(alloc, other)? {
            return Err(PolyRefused::TooLarge);
        }
        let n = self.sum_denominator(other);
        let terms = self.raised(alloc, n)?;
        let others = other.raised(alloc, n)?;
        let made = difference(alloc, terms, &others)?;
        let answer = Poly::lowest(alloc, made, n)?;
        Ok(answer)
    }

    // Whether the product of the two is within the limits.
    #[tactic(auto, using(crate::proofs::Maps::degree_map))]
    fn product_fits(&self, alloc: Global, other: &Poly) -> Result<bool, AllocError>
        ensures { IfOk result (λ b. IsTrue b ↔ ProductFits self.now other.now) }
    {
        product_fits(
            alloc,
            &self.terms,
            self.denominator,
            &other.terms,
            other.denominator,
        )
    }

    // The terms of the product.
    fn product(&self, alloc: Global, other: &Poly) -> Result<Vec<Term>, AllocError>
        requires { ProductFits self.now other.now }
        ensures { IfOk result (λ v. v.items ≡ product_terms self.now.terms other.now.terms) }
    {
        multiplied(alloc, &self.terms, &other.terms)
    }

    // The product of the denominators.
    fn product_denominator(&self, other: &Poly) -> u128
        ensures { result ≡ self.now.denominator * other.now.denominator }
    {
        self.denominator * other.denominator
    }

    /// The product. `TooLarge` exactly where the product of the weights is above 2^62, the sum of the degrees above 4, both
    /// together have more than 8 atoms, or the product of the denominators is above 65,536.
    pub fn mul(&self, alloc: Global, other: &Poly) -> Result<Poly, PolyRefused>
        ensures gives { Gives (ProductFits self.now other.now) (product_map self.now other.now) result }
        ensures value { IfOk result (λ r. IsProduct self.now other.now r) }
    {
        let _ = self.denominator();
        let _ = other.denominator();
        if !self.product_fits(alloc, other)? {
            return Err(PolyRefused::TooLarge);
        }
        let n = self.product_denominator(other);
        let made = self.product(alloc, other)?;
        let answer = Poly::lowest(alloc, made, n)?;
        Ok(answer)
    }

    // The terms once more.
    fn own_terms(&self, alloc: Global) -> Result<Vec<Term>, AllocError>
        ensures { IfOk result (λ v. v.items ≡ self.now.terms) }
    {
        copied(alloc, &self.terms)
    }

    // The denominator times `k`, where that is within the limit.
    fn finer(&self, k: u128) -> Option<u128>
        ensures { MatchOption result (QuotientFits self.now k → ⊥) (λ n. QuotientFits self.now k × (n ≡ self.now.denominator * k)) }
    {
        let _ = self.denominator();
        if k > FINEST {
            return None;
        }
        let n = self.denominator * k;
        if n > FINEST {
            return None;
        }
        Some(n)
    }

    /// This divided by `k`. `TooLarge` exactly where the denominator times `k` is above 65,536.
    pub fn div(&self, alloc: Global, k: i128) -> Result<Poly, PolyRefused>
        requires { pos 1 ≤ℤ k }
        ensures gives { Gives (QuotientFits self.now (unsigned_abs k)) (quotient_map self.now (unsigned_abs k)) result }
        ensures value { IfOk result (λ r. IsQuotient self.now (unsigned_abs k) r) }
    {
        self.over(alloc, k.unsigned_abs())
    }

    // This over `k` times the denominator, in lowest terms.
    fn over(&self, alloc: Global, k: u128) -> Result<Poly, PolyRefused>
        requires { 0 < k }
        ensures gives { Gives (QuotientFits self.now k) (quotient_map self.now k) result }
        ensures value { IfOk result (λ r. IsQuotient self.now k r) }
    {
        let _ = self.denominator();
        let Some(n) = self.finer(k) else {
            return Err(PolyRefused::TooLarge);
        };
        let made = self.own_terms(alloc)?;
        let answer = Poly::lowest(alloc, made, n)?;
        Ok(answer)
    }

    // The least common multiple of the denominators of the terms with their atoms replaced, `None` where it is past the limit.
    #[tactic(auto, using(crate::proofs::Maps::degree_map))]
    fn common_denominator(&self, by: &[(Atom, Poly)]) -> Option<u128>
        ensures { MatchOption result (2 ^ 16 < common_denominator by.now self.now.terms) (λ n. (n ≡ common_denominator by.now self.now.terms) × (0 < n) × (n ≤ 2 ^ 16)) }
    {
        common_denominator(by, &self.terms)
    }

    // The terms over `n`, a multiple of these denominators.
    #[tactic(auto, using(crate::proofs::Maps::degree_map))]
    fn raised_terms(
        &self,
        alloc: Global,
        by: &[(Atom, Poly)],
        n: u128,
    ) -> Result<Vec<Term>, AllocError>
        requires { n ≤ 2 ^ 16 }
        ensures { IfOk result (λ v. v.items ≡ raised_terms by.now n self.now.terms) }
    {
        raised_terms(alloc, by, n, &self.terms)
    }

    /// Replaces each atom by the polynomial that `by` has for it, all at once. Where `by` has an atom twice, the first entry
    /// counts; an atom that `by` does not have stays.
    ///
    /// Each term has the product of the denominators of what replaces its atoms; L is the least common multiple of these.
    /// `TooLarge` exactly where one of these is above its limit: the weight, that is, the sum over the terms of the absolute
    /// coefficient times the weights of the replacements of its atoms, times L divided by the term's denominator; the degree,
    /// that is, the greatest sum over one term of the degrees of these replacements; the number of atoms that the
    /// replacements have; and L times the denominator of this.
    pub fn substitute(&self, alloc: Global, by: &[(Atom, Poly)]) -> Result<Poly, PolyRefused>
        ensures gives { Gives (SubstituteFits by.now self.now) (substitute_map by.now self.now) result }
        ensures value { IfOk result (λ r. IsSubstituted by.now self.now r) }
    {
        let _ = self.denominator();
        all_fine(by);
        let Some(n) = self.common_denominator(by) else {
            return Err(PolyRefused::TooLarge);
        };
        let Some(d) = self.finer(n) else {
            return Err(PolyRefused::TooLarge);
        };
        let raised = self.raised_terms(alloc, by, n)?;
        if !substitute_fits(alloc, by, &raised)? {
            return Err(PolyRefused::TooLarge);
        }
        let made = replaced(alloc, by, &raised)?;
        let answer = Poly::lowest(alloc, made, d)?;
        Ok(answer)
    }

    /// Whether both have one value for all integers at their atoms.
    pub fn same(&self, other: &Poly) -> bool
        ensures { IsTrue result ↔ Same self.now other.now }
    {
        self.denominator == other.denominator && equal_terms(&self.terms, &other.terms)
    }

    /// The integer that this is for all integers at its atoms, `None` where there is none.
    pub fn as_constant(&self) -> Option<i128>
        ensures number { result ≡ constant_value self.now }
        ensures value { MatchOption result ((c : ℤ) → IsConstant self.now c → ⊥) (λ c. IsConstant self.now c) }
    {
        if self.denominator == 1 {
            constant_of(&self.terms)
        } else {
            None
        }
    }

    /// The integer that this times the denominator is for all integers at its atoms, `None` where there is none. It is
    /// within the greatest weight. It takes no memory.
    pub fn number(&self) -> Option<i128>
        ensures is { result ≡ number_over self.now }
        ensures light { IfSome result (λ c. unsigned_abs c ≤ heaviest) }
        ensures value { MatchOption result ((c : ℤ) → ((a : ℕ → ℤ) → value a self.now.terms ≡ c) → ⊥) (λ c. (a : ℕ → ℤ) → value a self.now.terms ≡ c) }
    {
        constant_of(&self.terms)
    }

    /// The integer `c` such that `self` is `other` and `c` over the product of the denominators, for all integers at the
    /// atoms, or `None` where there is none.
    pub fn offset(&self, other: &Poly) -> Option<i128>
        ensures { MatchOption result ((c : ℤ) → IsOffset self.now other.now c → ⊥) (λ c. IsOffset self.now other.now c) }
    {
        offset_of(
            &self.terms,
            other.denominator,
            &other.terms,
            self.denominator,
        )
    }

    /// The denominator, from 1 to 65,536. It takes no memory.
    pub fn denominator(&self) -> i128
        ensures is { result ≡ pos self.now.denominator }
        ensures within_limits { IsPolynomial self.now }
    {
        self.denominator as i128
    }

    /// How many terms there are: at most 495, which is how many products of at most 4 of 8 atoms there are.
    pub fn terms(&self) -> u32
        ensures count { result ≡ length self.now.terms }
        ensures few { result ≤ 495 }
        ensures within_limits { IsPolynomial self.now }
    {
        self.terms.len() as u32
    }

    /// The coefficient of the term at `place`, counted from 0, and its atoms, each as often as it is a factor, the greatest
    /// first. `None` exactly past the last term. The terms stand over the denominator.
    pub fn term(&self, place: u32) -> Option<(i128, &[Atom])>
        ensures { MatchOption result (slice_get self.now.terms place ≡ None) (λ r. slice_get self.now.terms place ≡ Some (record { coefficient = r.0; factors = r.1.now })) }
    {
        let t = self.terms.get(place as usize)?;
        Some((t.coefficient(), t.atoms()))
    }
}
