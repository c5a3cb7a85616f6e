//! Arithmetic on 128-bit integers, `None` where the result does not fit.

ghost use Rattle.std.specs.Prelude.{◌≡◌, ◌↔◌, ◌*ℤ◌, ◌≤ℤ◌, pos, Some, IsTrue, unsigned_abs};
ghost use Rattle.std.specs.Int.{int_min, int_max};
ghost use Rattle.asl_num.specs.Exact.{floor_div};
ghost use Rattle.asl_cons.specs.Arithmetic.{exact, power_of_two};

// The product.
pub(crate) fn product(x: i128, y: i128) -> Option<i128>
    ensures { result ≡ exact (x *ℤ y) }
{
    asl_num::mul(x, y).ok()
}

// `x` times 2 to the power `places`.
pub(crate) fn shifted_up(x: i128, places: i128) -> Option<i128>
    requires { pos 0 ≤ℤ places }
    ensures { result ≡ exact (x *ℤ power_of_two places) }
{
    asl_num::shl(x, places).ok()
}

// The quotient, rounded down.
pub(crate) fn quotient(x: i128, m: i128) -> Option<i128>
    requires { pos 1 ≤ℤ m }
    ensures { result ≡ Some (floor_div x (unsigned_abs m)) }
{
    asl_num::div_floor(x, m).ok()
}

// Whether `d` times `x` is at most `c`. The product may be past 128 bits, so `x` is compared with the quotient rounded down.
pub(crate) fn at_most(x: i128, c: i128, d: i128) -> bool
    requires { pos 1 ≤ℤ d }
    ensures { IsTrue result ↔ ((x *ℤ d) ≤ℤ c) }
{
    match quotient(c, d) {
        Some(most) => x <= most,
        None => false,
    }
}

// The least of four integers.
pub(crate) fn least(a: i128, b: i128, c: i128, d: i128) -> i128
    ensures { result ≡ int_min (int_min a b) (int_min c d) }
{
    a.min(b).min(c.min(d))
}

// The greatest of four integers.
pub(crate) fn most(a: i128, b: i128, c: i128, d: i128) -> i128
    ensures { result ≡ int_max (int_max a b) (int_max c d) }
{
    a.max(b).max(c.max(d))
}
