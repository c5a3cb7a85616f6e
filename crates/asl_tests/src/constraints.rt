//! Constraints, worked by hand from the rules of the operators.
use asl_cons::{Cons, End, Part, Ranges, arithmetic_law, inclusion_law};
use asl_poly::{Atom, Poly, PolyRefused};
use std::alloc::{AllocError, Global};

/// The parts of a constraint.
#[derive(Clone, Copy)]
enum Parts {
    /// Constant parts, by their ends; the constraint is whole where there are none.
    Ints(&'static [(i128, i128)]),
    /// One part, from an integer to an atom and an integer.
    UpTo(i128, u128, i128),
    /// One atom alone.
    Point(u128),
    /// One part, from a half to an integer.
    HalfTo(i128),
    /// One part, from the half of an atom and an integer to the atom.
    HalfOf(u128, i128),
}

#[derive(Clone, Copy)]
enum Operator {
    /// The left side as it is.
    Left,
    Union,
    Add,
    Subtract,
    Multiply,
    Modulo,
    DivideFloor,
    ShiftLeft,
    ShiftRight,
}

/// Operators, both sides, and what they give.
const APPLIED: &[(Operator, Parts, Parts, Parts)] = &[
    (
        Operator::Add,
        Parts::Ints(&[(1, 3)]),
        Parts::Ints(&[(8, 8), (3, 3)]),
        Parts::Ints(&[(9, 11), (4, 6)]),
    ),
    (
        Operator::Subtract,
        Parts::Ints(&[(1, 3)]),
        Parts::Ints(&[(-7, 7)]),
        Parts::Ints(&[(-6, 10)]),
    ),
    (
        Operator::Multiply,
        Parts::Ints(&[(-7, 7)]),
        Parts::Ints(&[(-2, 3)]),
        Parts::Ints(&[(-21, 21)]),
    ),
    (
        Operator::Modulo,
        Parts::Ints(&[]),
        Parts::Ints(&[(8, 8), (3, 3)]),
        Parts::Ints(&[(0, 7), (0, 2)]),
    ),
    (
        Operator::Modulo,
        Parts::Ints(&[(1, 3)]),
        Parts::Ints(&[(0, 0)]),
        Parts::Ints(&[]),
    ),
    (
        Operator::DivideFloor,
        Parts::Ints(&[(-7, 7)]),
        Parts::Ints(&[(2, 2)]),
        Parts::Ints(&[(-4, 3)]),
    ),
    (
        Operator::DivideFloor,
        Parts::Ints(&[(-7, 7)]),
        Parts::Ints(&[(0, 0)]),
        Parts::Ints(&[]),
    ),
    (
        Operator::ShiftLeft,
        Parts::Ints(&[(1, 3)]),
        Parts::Ints(&[(2, 2)]),
        Parts::Ints(&[(4, 12)]),
    ),
    (
        Operator::ShiftRight,
        Parts::Ints(&[(-7, 7)]),
        Parts::Ints(&[(2, 2)]),
        Parts::Ints(&[(-2, 1)]),
    ),
    (
        Operator::Union,
        Parts::Ints(&[(1, 3)]),
        Parts::Ints(&[(2, 2)]),
        Parts::Ints(&[(1, 3), (2, 2)]),
    ),
    (
        Operator::Union,
        Parts::Ints(&[]),
        Parts::Ints(&[(2, 2)]),
        Parts::Ints(&[]),
    ),
    (
        Operator::Add,
        Parts::Ints(&[(i128::MAX, i128::MAX)]),
        Parts::Ints(&[(2, 2)]),
        Parts::Ints(&[]),
    ),
    (
        Operator::ShiftLeft,
        Parts::Ints(&[(i128::MAX, i128::MAX)]),
        Parts::Ints(&[(2, 2)]),
        Parts::Ints(&[]),
    ),
    // More than 64 parts are whole.
    (
        Operator::Left,
        Parts::Ints(&[(1, 1); 65]),
        Parts::Ints(&[]),
        Parts::Ints(&[]),
    ),
    (
        Operator::Union,
        Parts::Ints(&[(1, 1); 64]),
        Parts::Ints(&[(1, 1)]),
        Parts::Ints(&[]),
    ),
    (
        Operator::Add,
        Parts::Ints(&[(1, 1); 9]),
        Parts::Ints(&[(1, 1); 8]),
        Parts::Ints(&[]),
    ),
    // Parts with names are moved and multiplied, and an end that loses its atoms is an integer.
    (
        Operator::Add,
        Parts::UpTo(0, 5, 0),
        Parts::Ints(&[(4, 4)]),
        Parts::UpTo(4, 5, 4),
    ),
    (
        Operator::Add,
        Parts::UpTo(0, 5, 0),
        Parts::Ints(&[(-7, -7)]),
        Parts::UpTo(-7, 5, -7),
    ),
    (
        Operator::Add,
        Parts::UpTo(0, 5, 0),
        Parts::Ints(&[(1 << 62, 1 << 62)]),
        Parts::Ints(&[]),
    ),
    (
        Operator::Multiply,
        Parts::Ints(&[(1, 1)]),
        Parts::UpTo(0, 5, 0),
        Parts::UpTo(0, 5, 0),
    ),
    (
        Operator::Multiply,
        Parts::Ints(&[(-1, -1)]),
        Parts::UpTo(0, 5, 0),
        Parts::Ints(&[]),
    ),
    (
        Operator::Subtract,
        Parts::Point(5),
        Parts::Point(5),
        Parts::Ints(&[(0, 0)]),
    ),
    // An end that isn't whole is no integer, and the sum of two of them is one.
    (
        Operator::Left,
        Parts::HalfTo(5),
        Parts::Ints(&[]),
        Parts::HalfTo(5),
    ),
    (
        Operator::Add,
        Parts::HalfTo(5),
        Parts::HalfTo(5),
        Parts::Ints(&[(1, 10)]),
    ),
    (
        Operator::Subtract,
        Parts::HalfTo(5),
        Parts::Ints(&[(0, 0)]),
        Parts::HalfTo(5),
    ),
    (
        Operator::Multiply,
        Parts::Ints(&[(2, 2)]),
        Parts::HalfTo(5),
        Parts::Ints(&[(1, 10)]),
    ),
    (
        Operator::Modulo,
        Parts::Ints(&[(1, 3)]),
        Parts::HalfTo(1),
        Parts::Ints(&[]),
    ),
];

fn applications() -> &'static [(Operator, Parts, Parts, Parts)] {
    APPLIED
}

/// Two constraints, and whether the first is below the second.
const INCLUDED: &[(Parts, Parts, bool)] = &[
    (
        Parts::Ints(&[(1, 3)]),
        Parts::Ints(&[(1, 1), (3, 3)]),
        false,
    ),
    (Parts::Ints(&[(1, 3)]), Parts::Ints(&[(3, 9), (0, 2)]), true),
    (Parts::Ints(&[(3, 1)]), Parts::Ints(&[(8, 8)]), true),
    (Parts::Ints(&[(1, 3)]), Parts::Ints(&[]), true),
    (Parts::Ints(&[]), Parts::Ints(&[(1, 3)]), false),
    (Parts::UpTo(0, 5, 0), Parts::UpTo(-1, 5, 2), true),
    (Parts::UpTo(-1, 5, 2), Parts::UpTo(0, 5, 0), false),
    (Parts::UpTo(0, 5, 0), Parts::UpTo(0, 6, 0), false),
    (Parts::Ints(&[(1, 5)]), Parts::HalfTo(5), false),
    (Parts::HalfTo(5), Parts::Ints(&[(0, 5)]), true),
    (Parts::HalfTo(5), Parts::Ints(&[(1, 5)]), false),
    (
        Parts::HalfTo(5),
        Parts::Ints(&[(i128::MIN, i128::MAX)]),
        true,
    ),
    (Parts::HalfTo(5), Parts::HalfTo(6), true),
    (Parts::HalfTo(5), Parts::HalfTo(4), false),
    (Parts::HalfOf(5, 1), Parts::HalfOf(5, 0), true),
    (Parts::HalfOf(5, 0), Parts::HalfOf(5, 1), false),
];

fn inclusions() -> &'static [(Parts, Parts, bool)] {
    INCLUDED
}

/// An atom and an integer.
fn atom_and(alloc: Global, atom: u128, more: i128) -> Result<Poly, PolyRefused> {
    Poly::atom(alloc, Atom(atom))?.add(alloc, &Poly::constant(alloc, more)?)
}

/// The half of an atom and an integer.
fn half_of(alloc: Global, atom: u128, more: i128) -> Result<Poly, PolyRefused> {
    atom_and(alloc, atom, more)?.div(alloc, 2)
}

/// The half of an atom and one, less the half of the atom.
fn half(alloc: Global) -> Result<Poly, PolyRefused> {
    half_of(alloc, 5, 1)?.sub(alloc, &half_of(alloc, 5, 0)?)
}

fn constant_parts(alloc: Global, spans: &[(i128, i128)]) -> Result<Vec<Part>, AllocError> {
    let mut parts = Vec::new(alloc);
    for &(low, high) in spans {
        parts.push(Part {
            low: End::Int(low),
            high: End::Int(high),
        })?;
    }
    Ok(parts)
}

fn one_part(alloc: Global, low: End, high: End) -> Option<Vec<Part>> {
    Vec::from_array(alloc, [Part { low, high }]).ok()
}

/// The constraint of these parts.
fn constraint(alloc: Global, parts: Parts) -> Option<Cons> {
    let parts = match parts {
        Parts::Ints(spans) => constant_parts(alloc, spans).ok()?,
        Parts::UpTo(low, atom, more) => {
            let high = End::Width(atom_and(alloc, atom, more).ok()?);
            one_part(alloc, End::Int(low), high)?
        }
        Parts::Point(atom) => {
            let low = atom_and(alloc, atom, 0).ok()?;
            let high = atom_and(alloc, atom, 0).ok()?;
            one_part(alloc, End::Width(low), End::Width(high))?
        }
        Parts::HalfTo(high) => one_part(alloc, End::Width(half(alloc).ok()?), End::Int(high))?,
        Parts::HalfOf(atom, more) => {
            let low = half_of(alloc, atom, more).ok()?;
            let high = atom_and(alloc, atom, 0).ok()?;
            one_part(alloc, End::Width(low), End::Width(high))?
        }
    };
    Cons::from_parts(alloc, parts).ok()
}

/// How many of the ends are integers.
fn integer_ends(parts: &[Part]) -> usize {
    let mut count = 0usize;
    for part in parts {
        for end in [&part.low, &part.high] {
            if matches!(end, End::Int(_)) {
                count = count.saturating_add(1);
            }
        }
    }
    count
}

/// How many parts these are, and how many of their ends are integers.
fn counts(parts: Parts) -> (usize, usize) {
    match parts {
        Parts::Ints(spans) => (spans.len(), spans.len().saturating_mul(2)),
        Parts::UpTo(_, _, _) => (1, 1),
        Parts::Point(_) => (1, 0),
        Parts::HalfTo(_) => (1, 1),
        Parts::HalfOf(_, _) => (1, 0),
    }
}

/// Whether a constraint has these parts, in some order.
fn is(alloc: Global, found: &Cons, want: Parts) -> Option<bool> {
    let parts = found.parts();
    let wanted = constraint(alloc, want)?;
    Some(
        (parts.len(), integer_ends(parts)) == counts(want)
            && found.below(&wanted)
            && wanted.below(found),
    )
}

fn apply(alloc: Global, operator: Operator, left: &Cons, right: &Cons) -> Result<Cons, AllocError> {
    match operator {
        Operator::Left => left.copy(alloc),
        Operator::Union => left.union(alloc, right),
        Operator::Add => left.add(alloc, right),
        Operator::Subtract => left.sub(alloc, right),
        Operator::Multiply => left.mul(alloc, right),
        Operator::Modulo => left.modulo(alloc, right),
        Operator::DivideFloor => left.div_floor(alloc, right),
        Operator::ShiftLeft => left.shl(alloc, right),
        Operator::ShiftRight => left.shr(alloc, right),
    }
}

/// Whether an operator gives these parts, and a copy of them has them too.
fn applies(alloc: Global, row: &(Operator, Parts, Parts, Parts)) -> Option<bool> {
    let (operator, left, right, want) = *row;
    let left = constraint(alloc, left)?;
    let right = constraint(alloc, right)?;
    let found = apply(alloc, operator, &left, &right).ok()?;
    let same = found.copy(alloc).ok()?;
    Some(is(alloc, &found, want)? && is(alloc, &same, want)?)
}

#[test]
fn operators_on_parts(rt: HostRuntime) {
    for (place, row) in applications().iter().enumerate() {
        assert_eq!(rt; applies(rt.alloc(), row), Some(true), "row {place}");
    }
    assert!(rt; Cons::whole(rt.alloc()).parts().is_empty());
}

fn is_below(alloc: Global, left: Parts, right: Parts) -> Option<bool> {
    Some(constraint(alloc, left)?.below(&constraint(alloc, right)?))
}

#[test]
fn parts_are_included(rt: HostRuntime) {
    for (place, row) in inclusions().iter().enumerate() {
        let (left, right, want) = *row;
        assert_eq!(rt;
            is_below(rt.alloc(), left, right),
            Some(want),
            "row {place}"
        );
    }
    inclusion_law();
    arithmetic_law();
}

/// Whether ranges of which more and more come begin and hold what they must.
fn are_ranges(alloc: Global) -> Result<bool, AllocError> {
    let mut ranges = Ranges::new(alloc);
    for ((low, high), first) in [((5, 3), None), ((7, 9), Some(7)), ((-1, 1), Some(0))] {
        ranges.push(low, high)?;
        if ranges.first() != first {
            return Ok(false);
        }
    }
    Ok(ranges.has(9) && !ranges.has(10) && !ranges.has(4))
}

#[test]
fn ranges_at_one_moment(rt: HostRuntime) {
    assert_eq!(rt; are_ranges(rt.alloc()), Ok(true));
}
