//! Polynomials, against binomial formulas and the limits.
use asl_poly::{Atom, Poly, PolyRefused, law4};
use std::alloc::Global;

/// How a polynomial is made, of those that were made before it, by their places.
#[derive(Clone, Copy)]
enum Step {
    Number(i128),
    /// The atom of this number.
    Name(u128),
    /// The sum of the first so many atoms, and a number.
    Sum(u128, i128),
    Add(usize, usize),
    Subtract(usize, usize),
    Multiply(usize, usize),
    Divide(usize, i128),
    /// A polynomial with these in place of atoms, by the numbers of the atoms.
    Replace(usize, &'static [(u128, usize)]),
}

/// What must be true of the polynomials that were made.
#[derive(Clone, Copy)]
enum Fact {
    /// Two are the same, or not.
    Same(usize, usize, bool),
    /// One is this integer, or none.
    Constant(usize, Option<i128>),
    /// One is another and this integer, or not.
    Offset(usize, usize, Option<i128>),
    /// One has this denominator.
    Denominator(usize, i128),
    /// One has so many terms.
    Terms(usize, u32),
    /// The term at a place has this coefficient and so many atoms, or there is none.
    Term(usize, u32, Option<(i128, usize)>),
    /// What this step makes passes the limits.
    TooLarge(Step),
}

/// The greatest weight.
const HEAVIEST: i128 = 4611686018427387904;

/// The greatest denominator.
const FINEST: i128 = 65536;

const CALCULATIONS: &[(&[Step], &[Fact])] = &[
    // The second, the fourth and the fifth power of eight names and one. The coefficients of the fourth are 4! over the
    // factorials of how often each of the nine is a factor.
    (
        &[
            Step::Sum(8, 1),
            Step::Multiply(0, 0),
            Step::Multiply(1, 1),
            Step::Multiply(1, 0),
            Step::Multiply(3, 0),
        ],
        &[
            Fact::Terms(1, 45),
            Fact::Terms(2, 495),
            Fact::Same(2, 4, true),
            Fact::TooLarge(Step::Multiply(2, 0)),
            Fact::Term(2, 0, Some((1, 4))),
            Fact::Term(2, 1, Some((4, 4))),
            Fact::Term(2, 493, Some((4, 1))),
            Fact::Term(2, 494, Some((1, 0))),
            Fact::Term(2, 495, None),
        ],
    ),
    // A sum and a product, and their differences, are compared by values.
    (
        &[
            Step::Name(7),
            Step::Number(2),
            Step::Add(0, 0),
            Step::Multiply(1, 0),
            Step::Subtract(2, 2),
            Step::Subtract(2, 1),
        ],
        &[
            Fact::Constant(1, Some(2)),
            Fact::Same(2, 3, true),
            Fact::Same(2, 0, false),
            Fact::Constant(2, None),
            Fact::Constant(4, Some(0)),
            Fact::Offset(5, 2, Some(-2)),
            Fact::Offset(2, 0, None),
        ],
    ),
    // Two names change places: in a product, and at once in `2*n - m`.
    (
        &[
            Step::Name(7),
            Step::Name(2),
            Step::Multiply(0, 1),
            Step::Multiply(1, 0),
            Step::Add(0, 0),
            Step::Subtract(4, 1),
            Step::Replace(5, &[(7, 1), (2, 0)]),
            Step::Add(1, 1),
            Step::Subtract(7, 0),
        ],
        &[Fact::Same(2, 3, true), Fact::Same(6, 8, true)],
    ),
    // Weights count before terms cancel.
    (
        &[Step::Name(0), Step::Number(HEAVIEST), Step::Multiply(1, 0)],
        &[
            Fact::TooLarge(Step::Number(HEAVIEST + 1)),
            Fact::TooLarge(Step::Number(i128::MIN)),
            Fact::TooLarge(Step::Subtract(2, 0)),
        ],
    ),
    // Names count before terms cancel.
    (
        &[
            Step::Sum(8, 0),
            Step::Name(8),
            Step::Name(0),
            Step::Subtract(0, 2),
        ],
        &[Fact::TooLarge(Step::Subtract(0, 1)), Fact::Terms(3, 7)],
    ),
    // A term has at most four factors.
    (
        &[
            Step::Name(0),
            Step::Multiply(0, 0),
            Step::Replace(1, &[(0, 1)]),
            Step::Multiply(1, 1),
        ],
        &[
            Fact::Terms(2, 1),
            Fact::TooLarge(Step::Multiply(3, 0)),
            Fact::TooLarge(Step::Replace(3, &[(0, 1)])),
        ],
    ),
    // Halves are compared by values: twice a name over two is the name, and the half of a name and one is a half more.
    (
        &[
            Step::Name(7),
            Step::Add(0, 0),
            Step::Divide(1, 2),
            Step::Divide(0, 2),
            Step::Sum(1, 1),
            Step::Replace(4, &[(0, 0)]),
            Step::Divide(5, 2),
            Step::Subtract(6, 3),
            Step::Add(7, 7),
            Step::Divide(7, 2),
            Step::Multiply(3, 3),
        ],
        &[
            Fact::Same(2, 0, true),
            Fact::Same(3, 0, false),
            Fact::Denominator(2, 1),
            Fact::Denominator(3, 2),
            Fact::Term(3, 0, Some((1, 1))),
            Fact::Constant(7, None),
            Fact::Denominator(7, 2),
            Fact::Offset(6, 3, Some(2)),
            Fact::Offset(3, 0, None),
            Fact::Constant(8, Some(1)),
            Fact::Denominator(9, 4),
            Fact::Denominator(10, 4),
        ],
    ),
    // Denominators count before the lowest terms are found, each operation's own.
    (
        &[
            Step::Name(7),
            Step::Number(FINEST + 1),
            Step::Multiply(1, 0),
            Step::Divide(0, FINEST),
            Step::Divide(0, 256),
            Step::Divide(4, 256),
            Step::Divide(0, 257),
            Step::Divide(0, 32768),
            Step::Add(3, 7),
            Step::Multiply(4, 4),
        ],
        &[
            Fact::Denominator(3, FINEST),
            Fact::Same(5, 3, true),
            Fact::Denominator(8, FINEST),
            Fact::Denominator(9, FINEST),
            Fact::TooLarge(Step::Divide(0, FINEST + 1)),
            Fact::TooLarge(Step::Divide(2, FINEST + 1)),
            Fact::TooLarge(Step::Divide(4, 257)),
            Fact::TooLarge(Step::Divide(0, i128::MAX)),
            Fact::TooLarge(Step::Add(4, 6)),
            Fact::TooLarge(Step::Subtract(4, 6)),
            Fact::TooLarge(Step::Multiply(4, 6)),
        ],
    ),
    // A weight counts over the common denominator, and a quotient keeps it.
    (
        &[
            Step::Name(0),
            Step::Name(1),
            Step::Number(HEAVIEST),
            Step::Multiply(2, 0),
            Step::Divide(3, 3),
            Step::Divide(0, 3),
            Step::Divide(1, 2),
            Step::Number(HEAVIEST / 2),
            Step::Multiply(7, 0),
            Step::Divide(8, 3),
            Step::Number(HEAVIEST / 4),
            Step::Multiply(10, 0),
            Step::Divide(11, 3),
            Step::Add(12, 6),
            Step::Number(HEAVIEST - 1),
        ],
        &[
            Fact::Denominator(4, 3),
            Fact::Denominator(13, 6),
            Fact::TooLarge(Step::Add(4, 5)),
            Fact::TooLarge(Step::Add(9, 6)),
            Fact::TooLarge(Step::Add(14, 5)),
        ],
    ),
    // What replaces names has its denominators in one for all terms, times that of the whole.
    (
        &[
            Step::Name(0),
            Step::Name(1),
            Step::Divide(0, 256),
            Step::Divide(1, 256),
            Step::Divide(1, 257),
            Step::Replace(2, &[(0, 3)]),
            Step::Sum(2, 0),
            Step::Divide(0, FINEST),
            Step::Number(FINEST),
            Step::Multiply(8, 1),
            Step::Divide(9, 3),
            Step::Divide(0, 2),
            Step::Add(1, 1),
            Step::Replace(11, &[(0, 12)]),
            Step::Multiply(0, 1),
            Step::Replace(14, &[(0, 11), (1, 11)]),
        ],
        &[
            Fact::Denominator(5, FINEST),
            Fact::TooLarge(Step::Replace(2, &[(0, 4)])),
            Fact::TooLarge(Step::Replace(6, &[(0, 2), (1, 4)])),
            Fact::TooLarge(Step::Replace(7, &[(0, 10)])),
            Fact::Same(13, 1, true),
            Fact::Denominator(15, 4),
        ],
    ),
    // The weight of what replaces names counts over that one denominator.
    (
        &[
            Step::Name(0),
            Step::Name(1),
            Step::Number(HEAVIEST / 2),
            Step::Multiply(2, 0),
            Step::Add(3, 1),
            Step::Divide(1, 2),
            Step::Subtract(4, 0),
            Step::Replace(6, &[(1, 5)]),
        ],
        &[
            Fact::TooLarge(Step::Replace(4, &[(1, 5)])),
            Fact::Denominator(7, 2),
        ],
    ),
];

fn calculations() -> &'static [(&'static [Step], &'static [Fact])] {
    CALCULATIONS
}

/// The sum of the first `count` atoms and `constant`.
fn sum_of(alloc: Global, count: u128, constant: i128) -> Result<Poly, PolyRefused> {
    let mut sum = Poly::constant(alloc, constant)?;
    for i in 0..count {
        let atom = Poly::atom(alloc, Atom(i))?;
        sum = sum.add(alloc, &atom)?;
    }
    Ok(sum)
}

/// The polynomial at a place of the table, which has no others.
fn at(made: &[Poly], place: usize) -> Result<&Poly, PolyRefused> {
    made.get(place).ok_or(PolyRefused::NoMemory)
}

fn replaced(
    alloc: Global,
    made: &[Poly],
    place: usize,
    by: &[(u128, usize)],
) -> Result<Poly, PolyRefused> {
    let mut pairs = Vec::new(alloc);
    for &(atom, other) in by {
        let pair = (Atom(atom), at(made, other)?.copy(alloc)?);
        if pairs.push(pair).is_err() {
            return Err(PolyRefused::NoMemory);
        }
    }
    at(made, place)?.substitute(alloc, pairs.as_slice())
}

fn divided(alloc: Global, polynomial: &Poly, number: i128) -> Result<Poly, PolyRefused> {
    if number < 1 {
        return Err(PolyRefused::NoMemory);
    }
    polynomial.div(alloc, number)
}

fn made_by(alloc: Global, made: &[Poly], step: Step) -> Result<Poly, PolyRefused> {
    match step {
        Step::Number(number) => Poly::constant(alloc, number),
        Step::Name(atom) => Poly::atom(alloc, Atom(atom)),
        Step::Sum(count, number) => sum_of(alloc, count, number),
        Step::Add(left, right) => at(made, left)?.add(alloc, at(made, right)?),
        Step::Subtract(left, right) => at(made, left)?.sub(alloc, at(made, right)?),
        Step::Multiply(left, right) => at(made, left)?.mul(alloc, at(made, right)?),
        Step::Divide(place, number) => divided(alloc, at(made, place)?, number),
        Step::Replace(place, by) => replaced(alloc, made, place, by),
    }
}

fn calculated(alloc: Global, steps: &[Step]) -> Result<Vec<Poly>, PolyRefused> {
    let mut made = Vec::new(alloc);
    for step in steps {
        let next = made_by(alloc, made.as_slice(), *step)?;
        if made.push(next).is_err() {
            return Err(PolyRefused::NoMemory);
        }
    }
    Ok(made)
}

/// The coefficient of a term, and how many atoms it has.
fn term_at(polynomial: &Poly, place: u32) -> Option<(i128, usize)> {
    let term = polynomial.term(place)?;
    Some((term.0, term.1.len()))
}

fn holds(alloc: Global, made: &[Poly], fact: Fact) -> Result<bool, PolyRefused> {
    Ok(match fact {
        Fact::Same(left, right, want) => at(made, left)?.same(at(made, right)?) == want,
        Fact::Constant(place, want) => at(made, place)?.as_constant() == want,
        Fact::Offset(left, right, want) => at(made, left)?.offset(at(made, right)?) == want,
        Fact::Denominator(place, want) => at(made, place)?.denominator() == want,
        Fact::Terms(place, want) => at(made, place)?.terms() == want,
        Fact::Term(place, term, want) => term_at(at(made, place)?, term) == want,
        Fact::TooLarge(step) => { matches!(made_by(alloc, made, step), Err(PolyRefused::TooLarge)) }
    })
}

#[test]
fn facts_of_calculations(rt: HostRuntime) {
    let alloc = rt.alloc();
    for (number, (steps, facts)) in calculations().iter().enumerate() {
        let made = calculated(alloc, steps).expect(&rt, "polynomials");
        for (place, fact) in facts.iter().enumerate() {
            let found = holds(alloc, made.as_slice(), *fact);
            assert_eq!(rt; found, Ok(true), "calculation {number}, fact {place}");
        }
    }
    law4();
}
