//! Constraints.

ghost use Rattle.std.specs.Prelude.{◌≡◌, ◌≤◌, ◌↔◌, [], ◌++◌, Some, IsTrue, IfOk, length};
ghost use Rattle.asl_cons.specs.Constraint.{AllEnds, Below};
ghost use Rattle.asl_cons.specs.Arithmetic.{limited, union_parts, sum_parts, difference_parts, product_parts, modulo_parts, quotient_parts, shifted_up_parts, shifted_down_parts};

use crate::Part;
use crate::arithmetic::{MOST_PARTS, Operator, by_moduli, by_pairs};
use crate::inclusion::all_covered;
use crate::parts::{copy_part, part_within_limits};
use std::alloc::{AllocError, Global};
use std::marker::Model;

/// A constraint: whole, which means that it allows every integer, or 1 to 64 parts.
///
/// The arithmetic takes each pair of parts, the left part first. It gives the whole constraint where an operand is whole
/// (`modulo` looks at the right operand only), where a pair of parts gives no part, where there would be more than 64
/// parts, where a constant end does not fit 128 bits, and where an end is beyond the limits of polynomials. A part is
/// constant where both of its ends are integers: they have no atom, and are whole.
#[derive(Drop)]
pub struct Cons {
    parts: Vec<Part>,
}

impl Model for Cons {
    ghost use Rattle.std.specs.Prelude.{List};
    ghost use Rattle.asl_cons.specs.declared.Part.{Part};
    ghost use Rattle.asl_cons.specs.Constraint.{IsConstraint};

    ghost Value = { List Part };

    ghost view = { λ c. c.parts.items };

    ghost invariant = { λ c. IsConstraint c.parts.items };
}

// Appends copies of the parts to `made`.
fn add_copies(alloc: Global, made: &mut Vec<Part>, ps: &[Part]) -> Result<(), AllocError>
    ensures { IfOk result (λ _. made.new.items ≡ made.old.items ++ ps.now) }
{
    for p in ps {
        made.push(copy_part(alloc, p)?)?;
    }
    Ok(())
}

// The ends of all parts that are no integers are polynomials within the limits. This says so of them, and does nothing.
fn all_within_limits(ps: &[Part])
    ensures { AllEnds ps.now }
{
    for p in ps {
        part_within_limits(p);
    }
}

impl Cons {
    /// The constraint that allows every integer. It takes no memory.
    pub fn whole(alloc: Global) -> Cons
        ensures { result ≡ [] }
    {
        Cons {
            parts: Vec::new(alloc),
        }
    }

    /// The parts; there are none exactly for the whole constraint.
    pub fn parts(&self) -> &[Part]
        ensures parts { result.now ≡ self.now }
        ensures few { length self.now ≤ 64 }
        ensures within_limits { AllEnds self.now }
    {
        self.parts.as_slice()
    }

    /// Whether `other` is whole, or every integer of the constant parts of this lies in a constant part of `other` and each
    /// other part `p..q` of this has a part `r..s` in `other` with `p - r` and `s - q` constants of at least 0, which may be
    /// fractions. The whole constraint is below the whole one only. It takes no memory.
    pub fn below(&self, other: &Cons) -> bool
        ensures { IsTrue result ↔ Below self.now other.now }
    {
        other.parts.is_empty() || (!self.parts.is_empty() && all_covered(&self.parts, &other.parts))
    }

    /// The constraint with these parts, whole where there are none or more than 64.
    pub fn from_parts(alloc: Global, parts: Vec<Part>) -> Result<Cons, AllocError>
        ensures { IfOk result (λ c. c ≡ limited (Some parts.items)) }
    {
        if parts.len() > MOST_PARTS {
            return Ok(Cons::whole(alloc));
        }
        all_within_limits(&parts);
        Ok(Cons { parts })
    }

    /// The same constraint once more.
    pub fn copy(&self, alloc: Global) -> Result<Cons, AllocError>
        ensures { IfOk result (λ c. c ≡ self.now) }
    {
        let mut parts = Vec::new(alloc);
        add_copies(alloc, &mut parts, &self.parts)?;
        Ok(Cons { parts })
    }

    /// The parts of both, those of this first; whole where one of the two is whole or there would be more than 64.
    pub fn union(&self, alloc: Global, other: &Cons) -> Result<Cons, AllocError>
        ensures { IfOk result (λ c. c ≡ union_parts self.now other.now) }
    {
        let mut parts = Vec::new(alloc);
        if self.parts.is_empty()
            || other.parts.is_empty()
            || self.parts.len() + other.parts.len() > MOST_PARTS
        {
            return Ok(Cons { parts });
        }
        add_copies(alloc, &mut parts, &self.parts)?;
        add_copies(alloc, &mut parts, &other.parts)?;
        Ok(Cons { parts })
    }

    /// `p..q` and `r..s` give `p + r..q + s`.
    #[tactic(auto, unfolding(crate::specs::Arithmetic::sum_parts))]
    pub fn add(&self, alloc: Global, other: &Cons) -> Result<Cons, AllocError>
        ensures { IfOk result (λ c. c ≡ sum_parts self.now other.now) }
    {
        let parts = by_pairs(alloc, Operator::Add, &self.parts, &other.parts)?;
        Ok(Cons { parts })
    }

    /// `p..q` and `r..s` give `p - s..q - r`.
    #[tactic(auto, unfolding(crate::specs::Arithmetic::difference_parts))]
    pub fn sub(&self, alloc: Global, other: &Cons) -> Result<Cons, AllocError>
        ensures { IfOk result (λ c. c ≡ difference_parts self.now other.now) }
    {
        let parts = by_pairs(alloc, Operator::Sub, &self.parts, &other.parts)?;
        Ok(Cons { parts })
    }

    /// Two constant parts give the least to the greatest of the four products of their ends; a part `p..q` that is not
    /// constant and a constant part `c..c` on either side, with c at least 0, give `c*p..c*q`.
    #[tactic(auto, unfolding(crate::specs::Arithmetic::product_parts))]
    pub fn mul(&self, alloc: Global, other: &Cons) -> Result<Cons, AllocError>
        ensures { IfOk result (λ c. c ≡ product_parts self.now other.now) }
    {
        let parts = by_pairs(alloc, Operator::Mul, &self.parts, &other.parts)?;
        Ok(Cons { parts })
    }

    /// `0..m - 1` for each part of `other`, where each is a constant `m..m`, m above 0.
    #[tactic(auto, unfolding(crate::specs::Arithmetic::modulo_parts))]
    pub fn modulo(&self, alloc: Global, other: &Cons) -> Result<Cons, AllocError>
        ensures { IfOk result (λ c. c ≡ modulo_parts self.now other.now) }
    {
        let parts = by_moduli(alloc, &other.parts)?;
        Ok(Cons { parts })
    }

    /// The ends of constant parts divided by constant parts `m..m`, m above 0, and rounded down.
    #[tactic(auto, unfolding(crate::specs::Arithmetic::quotient_parts))]
    pub fn div_floor(&self, alloc: Global, other: &Cons) -> Result<Cons, AllocError>
        ensures { IfOk result (λ c. c ≡ quotient_parts self.now other.now) }
    {
        let parts = by_pairs(alloc, Operator::DivFloor, &self.parts, &other.parts)?;
        Ok(Cons { parts })
    }

    /// The ends of constant parts times 2^k, by constant parts `k..k`, k at least 0.
    #[tactic(auto, unfolding(crate::specs::Arithmetic::shifted_up_parts))]
    pub fn shl(&self, alloc: Global, other: &Cons) -> Result<Cons, AllocError>
        ensures { IfOk result (λ c. c ≡ shifted_up_parts self.now other.now) }
    {
        let parts = by_pairs(alloc, Operator::Shl, &self.parts, &other.parts)?;
        Ok(Cons { parts })
    }

    /// The ends of constant parts divided by 2^k and rounded down, by constant parts `k..k`, k at least 0.
    #[tactic(auto, unfolding(crate::specs::Arithmetic::shifted_down_parts))]
    pub fn shr(&self, alloc: Global, other: &Cons) -> Result<Cons, AllocError>
        ensures { IfOk result (λ c. c ≡ shifted_down_parts self.now other.now) }
    {
        let parts = by_pairs(alloc, Operator::Shr, &self.parts, &other.parts)?;
        Ok(Cons { parts })
    }
}
