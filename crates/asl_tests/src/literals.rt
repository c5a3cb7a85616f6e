//! Literals in quotes, and masks.
use asl_bits::Bits;
use asl_mask::{Mask, MaskFault};
use asl_quote::{QuoteState, digit_count, is_mask, opens_quote, quote_reach};

/// What must be true of the texts of literals and masks.
#[derive(Clone, Copy)]
enum Fact {
    /// How far a literal reaches behind its opening quote, and whether it is closed there; None where none begins.
    Reach(&'static [u8], Option<(usize, bool)>),
    /// How many digits a literal has, and whether it is a mask.
    Digits(&'static [u8], usize, bool),
    /// The digit that a byte is, fixed or free, None where it is none.
    Digit(QuoteState, u8, Option<Option<bool>>),
    /// Whether a mask matches the lowest bits of an integer.
    Match(&'static [u8], i128, bool),
    /// The place of the first bad byte of a text that is no mask.
    Bad(&'static [u8], usize),
    /// The width of a mask, its lowest digit, and the number of its digits where all are fixed.
    Shown(&'static [u8], (u32, Option<bool>, Option<i128>)),
}

const FACTS: &[Fact] = &[
    Fact::Reach(b"'10 1' rest", Some((5, true))),
    Fact::Reach(b"''", Some((1, true))),
    Fact::Reach(b"'1(0 1)x'", Some((8, true))),
    Fact::Reach(b"'()'", Some((1, false))),
    Fact::Reach(b"'(01'", Some((3, false))),
    Fact::Reach(b"'(x)'", Some((1, false))),
    Fact::Reach(b"'12'", Some((1, false))),
    Fact::Reach(b"'1", Some((1, false))),
    Fact::Reach(b"\"a \\n\\\"b\"", Some((8, true))),
    Fact::Reach(b"\"\\q\"", Some((1, false))),
    Fact::Reach(b"\"a\n\"", Some((1, false))),
    Fact::Reach(b"a", None),
    Fact::Digits(b"'10 1'", 3, false),
    Fact::Digits(b"''", 0, false),
    Fact::Digits(b"'1x'", 2, true),
    Fact::Digits(b"'1(01) 1'", 4, true),
    Fact::Digit(QuoteState::Bits, b'1', Some(Some(true))),
    Fact::Digit(QuoteState::Group, b'1', Some(None)),
    Fact::Digit(QuoteState::Group, b' ', None),
    Fact::Match(b"1x", 2, true),
    Fact::Match(b"1x", 1, false),
    Fact::Match(b"x0", 2, true),
    Fact::Match(b"1(0)x", 0b101, true),
    Fact::Match(b"1(0 1)x", 0b1111, true),
    Fact::Match(b"1(0)x", 0b011, false),
    Fact::Match(
        b"xxxx xxxx xxxx xxxx xxxx xxxx xxxx 1010",
        0x1234_567a,
        true,
    ),
    Fact::Match(
        b"xxxx xxxx xxxx xxxx xxxx xxxx xxxx 1010",
        0x1234_567b,
        false,
    ),
    Fact::Match(b"", 0, true),
    Fact::Bad(b"10()", 3),
    Fact::Bad(b"(0x)", 2),
    Fact::Bad(b"(01", 3),
    Fact::Bad(b"0)", 1),
    Fact::Bad(b"2", 0),
    Fact::Bad(b"1'0", 1),
    Fact::Shown(b"10 1", (3, Some(true), Some(5))),
    Fact::Shown(b"10x", (3, None, None)),
    Fact::Shown(b"1(1)0", (3, Some(false), None)),
    Fact::Shown(b"0000 1111", (8, Some(true), Some(15))),
];

fn facts() -> &'static [Fact] {
    FACTS
}

/// How far a literal reaches behind its opening quote, and whether it is closed there; None where none begins.
fn reach(text: &[u8]) -> Option<(usize, bool)> {
    let state = opens_quote(text)?;
    let (_, rest) = text.split_first()?;
    let (len, end) = quote_reach(state, rest);
    Some((len, end == QuoteState::Closed))
}

/// Whether the mask matches the lowest bits of the integer, None where there is no such mask.
fn matched(mask: &[u8], value: i128) -> Option<bool> {
    let mask = Mask::read(mask).ok()?;
    let word = Bits::from_int(value, mask.width() as i128).ok()?;
    if word.width() == mask.width() {
        Some(mask.matches(&word))
    } else {
        None
    }
}

/// The lowest digit of a mask, None where it is no fixed one.
fn lowest(mask: &Mask) -> Option<bool> {
    if 0 < mask.width() {
        mask.digit(0)
    } else {
        None
    }
}

/// The width of a mask, its lowest digit, and the number of its digits where all are fixed.
fn shown(text: &[u8]) -> Option<(u32, Option<bool>, Option<i128>)> {
    let mask = Mask::read(text).ok()?;
    let number = match mask.value() {
        Some(bits) => bits.uint().ok(),
        None => None,
    };
    Some((mask.width(), lowest(&mask), number))
}

fn holds(fact: Fact) -> bool {
    match fact {
        Fact::Reach(text, want) => reach(text) == want,
        Fact::Digits(text, digits, mask) => digit_count(text) == digits && is_mask(text) == mask,
        Fact::Digit(state, byte, want) => state.digit(byte) == want,
        Fact::Match(mask, value, want) => matched(mask, value) == Some(want),
        Fact::Bad(text, place) => Mask::read(text).err() == Some(MaskFault::BadCharacter(place)),
        Fact::Shown(text, want) => shown(text) == Some(want),
    }
}

#[test]
fn facts_of_literals(rt: HostRuntime) {
    for (place, fact) in facts().iter().enumerate() {
        assert!(rt; holds(*fact), "fact {place}");
    }
    asl_quote::literal_law();
    asl_mask::literal_law();
}
