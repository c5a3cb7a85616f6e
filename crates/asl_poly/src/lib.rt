//! Polynomials over unknown integers, for widths such as `2*N + 1`.
//!
//! A [`Poly`] has integer coefficients over a denominator, and is kept in normal form and in lowest terms, so two widths are
//! compared by their values for all integers and not by how they are written: `N + N` and `2*N` are the same, and so are
//! `2*N DIV 2` and `N`. Each `Poly` is within four limits: its weight, the sum of the absolute values of its coefficients,
//! is at most [`HEAVIEST`]; its degree, the number of factors of a term, is at most [`HIGHEST`]; it has at most
//! [`MOST_ATOMS`] atoms; and its denominator is at most [`FINEST`].
#![tactic(auto)]

mod constant;
mod denominators;
mod limits;
mod monomial;
mod poly;
mod term;
mod terms;

ghost use Rattle.std.specs.Prelude.{◌≢◌, ℕ, ℤ};
ghost use Rattle.asl_poly.specs.Terms.{Polynomial};
ghost use Rattle.asl_poly.specs.Poly.{IsPolynomial, SameAt};

pub use denominators::least_common_multiple;
pub use limits::{FINEST, HEAVIEST, HIGHEST, MOST_ATOMS};
pub use poly::Poly;
use std::alloc::AllocError;
use std::marker::Model;
use thiserror::Error;

/// An unknown integer, named by a number.
#[derive(Clone, Copy, Debug, PartialEq, Eq)]
pub struct Atom(pub u128);

impl Model for Atom {
    ghost use Rattle.std.specs.Prelude.{ℕ};

    ghost Value = { ℕ };

    ghost view = { λ x. x.0 };

    ghost inverse = { λ n. record { 0 = n } };
}

/// Why there is no polynomial.
#[derive(Clone, Copy, Debug, PartialEq, Eq, Error)]
pub enum PolyRefused {
    /// The weight would be above 2^62, the degree above 4, the number of atoms above 8, or the denominator above 65,536. All
    /// are counted over the operands, before any terms cancel and before the lowest terms are found.
    #[error("the polynomial is past the limits")]
    TooLarge,
    /// There is no memory left.
    #[error("there is no memory left")]
    NoMemory,
}

impl From<AllocError> for PolyRefused {
    ghost use Rattle.std.specs.Prelude.{◌≡◌};
    ghost use Rattle.asl_poly.specs.declared.PolyRefused.TheVariants.{NoMemory};

    ghost from_gives = { λ _ e. e ≡ NoMemory };

    fn from(_: AllocError) -> Self {
        PolyRefused::NoMemory
    }
}

/// Two different polynomials within the limits, in lowest terms, have different values for some integers at their atoms.
pub fn law4()
    ensures { (p q : Polynomial) → IsPolynomial p → IsPolynomial q → p ≢ q → (a : ℕ → ℤ) × (SameAt a p q → ⊥) }
{}
