//! Bitvectors, worked by hand.
use asl_bits::{Bits, BitsRefused, WIDTH_LIMIT, number_law, signed_law};

const ONES_64: i128 = 0xffff_ffff_ffff_ffff;

const TOO_MANY: i128 = WIDTH_LIMIT as i128 + 1;

/// A number, or why there are no bits.
type Answer = Result<i128, BitsRefused>;

/// What must be true of bitvectors, which are given by a number and a width.
#[derive(Clone, Copy)]
enum Fact {
    /// A number and its width, where a slice begins and its width, and what the slice shows.
    Slice(i128, i128, i128, i128, Answer),
    /// Three bits, four bits, all of them, and the four with the three at the place 1; at the place 2 they are out of range.
    Join(i128, i128, i128, i128),
    /// A number and its width, what it shows in eight bits with zeros before it and with its sign before it, and in two's complement.
    Extend(i128, i128, Option<i128>, Option<i128>, Option<i128>),
    /// Two numbers and a width, what AND, OR and XOR give, the sum and the difference, and NOT of the first.
    Work(i128, i128, i128, (i128, i128, i128), (i128, i128), i128),
    /// An integer, where a slice begins and its width, and what the slice shows, None where there is none.
    SliceOfInteger(i128, i128, i128, Option<i128>),
    /// What zeros of a width show.
    Zeros(i128, Answer),
    /// What ones of a width show in two's complement.
    Ones(i128, Answer),
}

const FACTS: &[Fact] = &[
    Fact::Slice(10, 4, 2, 2, Ok(2)),
    Fact::Slice(10, 4, 4, 0, Ok(0)),
    Fact::Slice(10, 4, 0, 4, Ok(10)),
    Fact::Slice(10, 4, 3, 2, Err(BitsRefused::OutOfRange)),
    Fact::Slice(10, 4, -1, 2, Err(BitsRefused::OutOfRange)),
    Fact::Slice(10, 4, 5, 0, Err(BitsRefused::OutOfRange)),
    Fact::Slice(10, 4, 0, -1, Err(BitsRefused::TooWide)),
    Fact::Slice(10, 4, -1, TOO_MANY, Err(BitsRefused::TooWide)),
    Fact::Slice(0x1234_5678_9abc_def0, 64, 36, 12, Ok(0x567)),
    Fact::Join(0b101, 0b1100, 0b101_1100, 0b1010),
    Fact::Join(0b000, 0b1111, 0b000_1111, 0b0001),
    Fact::Join(0b111, 0b0000, 0b111_0000, 0b1110),
    Fact::Extend(10, 4, Some(10), Some(250), Some(-6)),
    Fact::Extend(5, 4, Some(5), Some(5), Some(5)),
    Fact::Extend(0, 0, Some(0), Some(0), Some(0)),
    Fact::Extend(ONES_64, 64, None, None, Some(-1)),
    Fact::Work(
        0b1100,
        0b1010,
        4,
        (0b1000, 0b1110, 0b0110),
        (0b0110, 0b0010),
        0b0011,
    ),
    Fact::Work(
        0b0000,
        0b0001,
        4,
        (0b0000, 0b0001, 0b0001),
        (0b0001, 0b1111),
        0b1111,
    ),
    Fact::Work(
        ONES_64,
        1,
        64,
        (1, ONES_64, ONES_64 - 1),
        (0, ONES_64 - 1),
        0,
    ),
    Fact::SliceOfInteger(-1, 0, 5, Some(31)),
    Fact::SliceOfInteger(-8, 1, 4, Some(12)),
    Fact::SliceOfInteger(-8, 1000, 4, Some(15)),
    Fact::SliceOfInteger(6, 1, 2, Some(3)),
    Fact::SliceOfInteger(6, -1, 2, None),
    Fact::Slice(-1, 2_048, 1_984, 64, Ok(ONES_64)),
    Fact::Slice(-2, 129, 0, 127, Ok(i128::MAX - 1)),
    Fact::Zeros(5, Ok(0)),
    Fact::Zeros(-1, Err(BitsRefused::TooWide)),
    Fact::Ones(TOO_MANY, Err(BitsRefused::TooWide)),
    Fact::Ones(128, Ok(-1)),
    Fact::Ones(129, Ok(-1)),
    Fact::Ones(2_048, Ok(-1)),
];

fn facts() -> &'static [Fact] {
    FACTS
}

/// The number that a slice of the bits of a number shows.
fn sliced(value: i128, width: i128, low: i128, count: i128) -> Answer {
    Bits::from_int(value, width)?.slice(low, count)?.uint()
}

/// What three bits before four show, and the three at a place of the four.
fn joined(high: i128, low: i128, place: i128) -> Result<(i128, i128), BitsRefused> {
    let high = Bits::from_int(high, 3)?;
    let low = Bits::from_int(low, 4)?;
    let all = high.concat(&low)?.uint()?;
    Ok((all, low.with_slice(place, &high)?.uint()?))
}

fn joins(high: i128, low: i128, all: i128, put: i128) -> bool {
    joined(high, low, 1) == Ok((all, put)) && joined(high, low, 2) == Err(BitsRefused::OutOfRange)
}

/// The number that the bits of a number show once they are eight.
fn extended(value: i128, width: i128, is_signed: bool) -> Option<i128> {
    let bits = Bits::from_int(value, width).ok()?;
    bits.extend(8, is_signed).ok()?.uint().ok()
}

/// The number of these bits in two's complement.
fn signed(value: i128, width: i128) -> Option<i128> {
    Bits::from_int(value, width).ok()?.sint().ok()
}

/// What AND, OR and XOR give of two bitvectors of one width that differ.
fn by_places(left: &Bits, right: &Bits) -> Option<(i128, i128, i128)> {
    if left.width() != right.width() || left.same(right) {
        return None;
    }
    let and = left.and(right).uint().ok()?;
    let or = left.or(right).uint().ok()?;
    Some((and, or, left.xor(right).uint().ok()?))
}

/// The sum and the difference of bitvectors of one width.
fn with_carries(left: &Bits, right: &Bits) -> Option<(i128, i128)> {
    if left.width() != right.width() {
        return None;
    }
    let sum = left.add(right).uint().ok()?;
    Some((sum, left.sub(right).uint().ok()?))
}

/// The bits of two numbers at one width.
fn both(left: i128, right: i128, width: i128) -> Option<(Bits, Bits)> {
    let left = Bits::from_int(left, width).ok()?;
    Some((left, Bits::from_int(right, width).ok()?))
}

/// Whether two bitvectors give these numbers by places, with carries, and by NOT of the first, of which a copy is the same.
fn work_so(
    left: &Bits,
    right: &Bits,
    places: (i128, i128, i128),
    carried: (i128, i128),
    not: i128,
) -> bool {
    by_places(left, right) == Some(places)
        && with_carries(left, right) == Some(carried)
        && left.not().uint() == Ok(not)
        && left.copy().uint() == left.uint()
}

/// The number that a slice of an integer shows.
fn sliced_int(value: i128, low: i128, count: i128) -> Option<i128> {
    Bits::slice_int(value, low, count).ok()?.uint().ok()
}

/// The number that zeros show.
fn zeros(width: i128) -> Answer {
    Bits::zeros(width)?.uint()
}

/// What ones show in two's complement.
fn ones(width: i128) -> Answer {
    Bits::ones(width)?.sint()
}

/// Whether 128 ones have no number of 128 bits with a sign, and the highest is set.
fn holds_128() -> bool {
    match Bits::ones(128) {
        Ok(ones) => {
            ones.uint() == Err(BitsRefused::Overflow) && (ones.width() < 128 || ones.bit(127))
        }
        Err(_) => false,
    }
}

fn holds(fact: Fact) -> bool {
    match fact {
        Fact::Slice(value, width, low, count, want) => sliced(value, width, low, count) == want,
        Fact::Join(high, low, all, put) => joins(high, low, all, put),
        Fact::Extend(value, width, zeros, signs, sint) => {
            extended(value, width, false) == zeros
                && extended(value, width, true) == signs
                && signed(value, width) == sint
        }
        Fact::Work(left, right, width, places, carried, not) => match both(left, right, width) {
            Some((left, right)) => work_so(&left, &right, places, carried, not),
            None => false,
        },
        Fact::SliceOfInteger(value, low, count, want) => sliced_int(value, low, count) == want,
        Fact::Zeros(width, want) => zeros(width) == want,
        Fact::Ones(width, want) => ones(width) == want,
    }
}

#[test]
fn facts_of_bits(rt: HostRuntime) {
    for (place, fact) in facts().iter().enumerate() {
        assert!(rt; holds(*fact), "fact {place}");
    }
    assert!(rt; holds_128());
    number_law();
    signed_law();
}
