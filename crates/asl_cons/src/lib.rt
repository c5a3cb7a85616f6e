//! Constraints: sets of integers between ends that may depend on unknown integers, as in `{0..N, 2*N}`.
//!
//! A [`Cons`] is whole, which means that it allows every integer, or has 1 to 64 parts, each from one [`End`] to another.
//! `below` tells whether one constraint allows no more than another, for all integers at the atoms, and there is a call for
//! what each operator makes of two constraints. [`Ranges`] are the parts of a constraint whose ends have been evaluated.
#![tactic(auto)]

mod arithmetic;
mod cons;
mod ends;
mod inclusion;
mod integers;
mod parts;
mod ranges;

ghost use Rattle.std.specs.Prelude.{ℕ, ◌<◌, ◌^◌, ℤ, pos, ◌+ℤ◌, ◌-ℤ◌, ◌*ℤ◌, unsigned_abs, List};
ghost use Rattle.asl_num.specs.Exact.{floor_div, floor_mod};
ghost use Rattle.asl_cons.specs.declared.Part.{Part};
ghost use Rattle.asl_cons.specs.Constraint.{AllEnds, Below, In};
ghost use Rattle.asl_cons.specs.Arithmetic.{power_of_two, sum_parts, difference_parts, product_parts, modulo_parts, quotient_parts, shifted_up_parts, shifted_down_parts, union_parts};

pub use arithmetic::MOST_PARTS;
use asl_poly::Poly;
pub use cons::Cons;
pub use ranges::Ranges;

/// An end of a part: a 128-bit integer, or a polynomial.
#[derive(Drop)]
pub enum End {
    /// This integer.
    Int(i128),
    /// The value of this polynomial, which may be a fraction. A result of the arithmetic that is an integer is an `Int`.
    Width(Poly),
}

/// The integers from `low` to `high`: none where `low` is greater than `high`.
#[derive(Drop)]
pub struct Part {
    /// The least integer.
    pub low: End,
    /// The greatest integer.
    pub high: End,
}

/// A constraint that is below another allows no integer that the other does not, whatever the integers at the atoms are.
#[tactic(auto, using(crate::proofs::Membership::below_in))]
pub fn inclusion_law()
    ensures { (a : ℕ → ℤ) (i : ℤ) (ps qs : List Part) → AllEnds ps → Below ps qs → In a i ps → In a i qs }
{}

/// What an operation makes of two constraints allows what it makes of an integer that the one allows and an integer that the
/// other allows, whatever the integers at the atoms are: the sum, the difference, the product, the remainder, the quotient
/// rounded down, and the shifts. A union allows what one of the two allows.
#[tactic(auto, using(crate::proofs::Results::union_left, crate::proofs::Results::union_right))]
pub fn arithmetic_law()
    ensures sum { (a : ℕ → ℤ) (ps qs : List Part) (x y : ℤ) → In a x ps → In a y qs → In a (x +ℤ y) (sum_parts ps qs) }
    ensures difference { (a : ℕ → ℤ) (ps qs : List Part) (x y : ℤ) → In a x ps → In a y qs → In a (x -ℤ y) (difference_parts ps qs) }
    ensures product { (a : ℕ → ℤ) (ps qs : List Part) (x y : ℤ) → In a x ps → In a y qs → In a (x *ℤ y) (product_parts ps qs) }
    ensures remainder { (a : ℕ → ℤ) (ps qs : List Part) (x : ℤ) (n : ℕ) → 0 < n → In a (pos n) qs → In a (pos (floor_mod x n)) (modulo_parts ps qs) }
    ensures quotient { (a : ℕ → ℤ) (ps qs : List Part) (x y : ℤ) → In a x ps → In a y qs → In a (floor_div x (unsigned_abs y)) (quotient_parts ps qs) }
    ensures shifted_up { (a : ℕ → ℤ) (ps qs : List Part) (x y : ℤ) → In a x ps → In a y qs → In a (x *ℤ power_of_two y) (shifted_up_parts ps qs) }
    ensures shifted_down { (a : ℕ → ℤ) (ps qs : List Part) (x y : ℤ) → In a x ps → In a y qs → In a (floor_div x (2 ^ unsigned_abs y)) (shifted_down_parts ps qs) }
    ensures union_of_left { (a : ℕ → ℤ) (ps qs : List Part) (x : ℤ) → In a x ps → In a x (union_parts ps qs) }
    ensures union_of_right { (a : ℕ → ℤ) (ps qs : List Part) (x : ℤ) → In a x qs → In a x (union_parts ps qs) }
{}
