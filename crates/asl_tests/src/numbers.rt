//! Integers of 128 bits, worked by hand.
use asl_num::{
    NumFault, add, div_exact, div_floor, floor_law, modulo, mul, neg, pow, power_law, shl, shr, sub,
};

type Answer = Result<i128, NumFault>;

/// Three operations on two integers.
#[derive(Clone, Copy)]
enum Operations {
    /// The exact quotient, the one that is rounded down, and the rest.
    Divide,
    /// The power, the shift up and the shift down.
    Raise,
    /// The sum, the difference and the product.
    Combine,
    /// The first with its sign changed, by each operation that changes it.
    Negate,
}

/// Operations, two integers, and what the three give of them.
type Row = (Operations, i128, i128, Answer, Answer, Answer);

const INEXACT: Answer = Err(NumFault::Inexact);

const DIVISOR: Answer = Err(NumFault::Divisor);

const OVERFLOW: Answer = Err(NumFault::Overflow);

const NEGATIVE: Answer = Err(NumFault::Negative);

const ROWS: &[Row] = &[
    (Operations::Divide, 7, 2, INEXACT, Ok(3), Ok(1)),
    (Operations::Divide, -7, 2, INEXACT, Ok(-4), Ok(1)),
    (Operations::Divide, -8, 2, Ok(-4), Ok(-4), Ok(0)),
    (
        Operations::Divide,
        -1,
        i128::MAX,
        INEXACT,
        Ok(-1),
        Ok(i128::MAX - 1),
    ),
    (
        Operations::Divide,
        i128::MIN,
        1,
        Ok(i128::MIN),
        Ok(i128::MIN),
        Ok(0),
    ),
    (Operations::Divide, 0, 5, Ok(0), Ok(0), Ok(0)),
    (Operations::Divide, 5, 0, DIVISOR, DIVISOR, DIVISOR),
    (Operations::Divide, 5, -1, DIVISOR, DIVISOR, DIVISOR),
    (Operations::Raise, 3, 4, Ok(81), Ok(48), Ok(0)),
    (Operations::Raise, -3, 3, Ok(-27), Ok(-24), Ok(-1)),
    (Operations::Raise, 0, 0, Ok(1), Ok(0), Ok(0)),
    (Operations::Raise, -2, 127, Ok(i128::MIN), OVERFLOW, Ok(-1)),
    (Operations::Raise, 2, 127, OVERFLOW, OVERFLOW, Ok(0)),
    (Operations::Raise, 1, 127, Ok(1), OVERFLOW, Ok(0)),
    (Operations::Raise, -1, 127, Ok(-1), Ok(i128::MIN), Ok(-1)),
    (Operations::Raise, -1, i128::MAX, Ok(-1), OVERFLOW, Ok(-1)),
    (Operations::Raise, 0, i128::MAX, Ok(0), Ok(0), Ok(0)),
    (Operations::Raise, 3, i128::MAX, OVERFLOW, OVERFLOW, Ok(0)),
    (Operations::Raise, 1, -1, NEGATIVE, NEGATIVE, NEGATIVE),
    (
        Operations::Raise,
        3,
        i128::MIN,
        NEGATIVE,
        NEGATIVE,
        NEGATIVE,
    ),
    (Operations::Combine, 2, 3, Ok(5), Ok(-1), Ok(6)),
    (
        Operations::Combine,
        i128::MAX,
        1,
        OVERFLOW,
        Ok(i128::MAX - 1),
        Ok(i128::MAX),
    ),
    (
        Operations::Combine,
        -i128::MAX,
        1,
        Ok(1 - i128::MAX),
        Ok(i128::MIN),
        Ok(-i128::MAX),
    ),
    (
        Operations::Combine,
        i128::MIN,
        -1,
        OVERFLOW,
        Ok(-i128::MAX),
        OVERFLOW,
    ),
    (
        Operations::Combine,
        1 << 64,
        1 << 63,
        Ok(27670116110564327424),
        Ok(1 << 63),
        OVERFLOW,
    ),
    (Operations::Negate, -7, -1, Ok(7), Ok(7), Ok(7)),
    (
        Operations::Negate,
        i128::MIN,
        -1,
        OVERFLOW,
        OVERFLOW,
        OVERFLOW,
    ),
];

fn rows() -> &'static [Row] {
    ROWS
}

fn results(operations: Operations, a: i128, b: i128) -> (Answer, Answer, Answer) {
    match operations {
        Operations::Divide => (div_exact(a, b), div_floor(a, b), modulo(a, b)),
        Operations::Raise => (pow(a, b), shl(a, b), shr(a, b)),
        Operations::Combine => (add(a, b), sub(a, b), mul(a, b)),
        Operations::Negate => (neg(a), sub(0, a), mul(a, b)),
    }
}

#[test]
fn operations_on_integers(rt: HostRuntime) {
    for (place, row) in rows().iter().enumerate() {
        let (operations, a, b, first, second, third) = *row;
        let found = results(operations, a, b);
        assert_eq!(rt; found, (first, second, third), "row {place}");
    }
    floor_law();
    power_law();
}
