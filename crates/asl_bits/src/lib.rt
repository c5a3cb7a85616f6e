//! Bitvectors of a width up to a limit, packed into words of 128 bits.
//!
//! Contracts see a bitvector as the list of its bits, lowest first. The operations work word by word and take no memory.
//! Those that take a width or a place as an integer answer `TooWide` where the width is negative or over the limit, and
//! otherwise `OutOfRange` where one of the places is outside the bitvector.
#![tactic(auto)]

ghost use Rattle.std.specs.Prelude.{◌≡◌, ℕ, ◌%◌, ◌<◌, ◌≤◌, ◌^◌, List, Bool, true, false, length, replicate, Ok};
ghost use Rattle.asl_bits.specs.Lists.{bits_value, bits_of, int_bits, signed_value, extension_of};
ghost use Rattle.asl_bits.specs.Answers.{OfWidth, IsSlice, IsIntSlice, IsWithSlice, IsConcat, IsExtension, IsWidth, IsPlace};

mod sized;
mod words;

pub use sized::{BitsOf, filled, joined, wrapped};

/// How many words of 128 bits the widest bitvector has.
pub const WORDS: usize = 16;

/// The width limit: how many bits the widest bitvector has.
pub const WIDTH_LIMIT: u32 = 128 * WORDS as u32;

/// Why an operation has no result.
#[derive(Clone, Copy, Debug, PartialEq, Eq)]
pub enum BitsRefused {
    /// A width is negative or over the limit. This is reported before `OutOfRange`.
    TooWide,
    /// A place is negative, or the bits from there on go past the width, or an extension would shorten the bitvector.
    OutOfRange,
    /// The number is outside -2^127 to 2^127 - 1.
    Overflow,
}

/// A bitvector of any width up to the limit.
pub type Bits = BitsOf<WORDS>;

/// A bitvector of at most 128 bits.
pub type Narrow = BitsOf<1>;

impl BitsOf<WORDS> {
    /// `w` bits 0, or `TooWide`.
    pub fn zeros(w: i128) -> Result<Bits, BitsRefused>
        ensures { OfWidth result w (λ n. result ≡ Ok (replicate n false)) }
    {
        let width = width_of(w)?;
        Ok(filled(width, false))
    }

    /// `w` bits 1, or `TooWide`.
    pub fn ones(w: i128) -> Result<Bits, BitsRefused>
        ensures { OfWidth result w (λ n. result ≡ Ok (replicate n true)) }
    {
        let width = width_of(w)?;
        Ok(filled(width, true))
    }

    /// The lowest `w` bits of the integer in two's complement, that is, the integer modulo 2 to the power `w`, or `TooWide`.
    pub fn from_int(value: i128, w: i128) -> Result<Bits, BitsRefused>
        ensures { OfWidth result w (λ n. result ≡ Ok (int_bits n value)) }
    {
        let width = width_of(w)?;
        Ok(wrapped(value, width))
    }

    /// `w` bits of the integer in two's complement from the place `lo` on; an integer has bits at every place.
    /// `TooWide` for the width `w`, otherwise `OutOfRange` where `lo` is negative.
    pub fn slice_int(value: i128, lo: i128, w: i128) -> Result<Bits, BitsRefused>
        ensures { IsIntSlice result value lo w }
    {
        let width = width_of(w)?;
        match asl_num::shr(value, lo) {
            Ok(rest) => Ok(wrapped(rest, width)),
            Err(_) => Err(BitsRefused::OutOfRange),
        }
    }

    /// `w` bits from the place `lo` on. `TooWide` for the width `w`, otherwise `OutOfRange` where `lo` is negative or
    /// `lo + w` is above the width.
    pub fn slice(&self, lo: i128, w: i128) -> Result<Bits, BitsRefused>
        ensures { IsSlice result self.now lo w }
    {
        let width = width_of(w)?;
        let place = place_of(lo, width, self.width())?;
        Ok(self.part(place, width))
    }

    /// The bits with `part` in place of those from `lo` on. `OutOfRange` where `lo` is negative or the part would go past
    /// the width.
    pub fn with_slice(&self, lo: i128, part: &Bits) -> Result<Bits, BitsRefused>
        ensures { IsWithSlice result self.now lo part.now }
    {
        let place = place_of(lo, part.width(), self.width())?;
        Ok(self.replaced(place, part))
    }

    /// The bits on top of those of `low`, or `TooWide`.
    pub fn concat(&self, low: &Bits) -> Result<Bits, BitsRefused>
        ensures { IsConcat result self.now low.now }
    {
        if WIDTH_LIMIT - low.width() < self.width() {
            return Err(BitsRefused::TooWide);
        }
        Ok(joined(self, low))
    }

    /// The bits with zeros on top up to the width `w`, or, where it is signed, with copies of the highest bit.
    /// `TooWide` for the width `w`, otherwise `OutOfRange` where `w` is below the width.
    pub fn extend(&self, w: i128, signed: bool) -> Result<Bits, BitsRefused>
        ensures { IsExtension result self.now w signed }
    {
        let width = width_of(w)?;
        if width < self.width() {
            return Err(BitsRefused::OutOfRange);
        }
        Ok(self.extended(width, signed))
    }
}

/// `w` as a width, or `TooWide`.
pub fn width_of(w: i128) -> Result<u32, BitsRefused>
    ensures { IsWidth result w }
{
    if 0 <= w && w <= WIDTH_LIMIT as i128 {
        Ok(w as u32)
    } else {
        Err(BitsRefused::TooWide)
    }
}

// `lo` as a place from which `width` bits on are among the `most` that there are, or `OutOfRange`.
fn place_of(lo: i128, width: u32, most: u32) -> Result<u32, BitsRefused>
    ensures { IsPlace result lo width most }
{
    if width <= most && 0 <= lo && lo <= (most - width) as i128 {
        Ok(lo as u32)
    } else {
        Err(BitsRefused::OutOfRange)
    }
}

// ---- laws

/// Lists of `w` bits stand for the numbers below 2 to the power `w`, one for each: the bits of a number read as the number,
/// and the number that bits are read as has these bits.
#[tactic(auto, using(crate::proofs::Laws::number_laws))]
pub fn number_law()
    ensures width { (w n : ℕ) → length (bits_of w n) ≡ w }
    ensures value { (w n : ℕ) → bits_value (bits_of w n) ≡ n % 2 ^ w }
    ensures bits { (bs : List Bool) → bits_of (length bs) (bits_value bs) ≡ bs }
    ensures small { (bs : List Bool) → bits_value bs < 2 ^ length bs }
{}

/// The integer that bits are read as in two's complement has these bits (`bits`), and an extension is read as the same
/// integer as before (`signed`, `unsigned`).
#[tactic(auto, using(crate::proofs::Laws::signed_laws))]
pub fn signed_law()
    ensures bits { (bs : List Bool) → int_bits (length bs) (signed_value bs) ≡ bs }
    ensures signed { (bs : List Bool) (n : ℕ) → length bs ≤ n → signed_value (extension_of bs n true) ≡ signed_value bs }
    ensures unsigned { (bs : List Bool) (n : ℕ) → length bs ≤ n → bits_value (extension_of bs n false) ≡ bits_value bs }
{}
