//! Bitvectors in any number of words. The operations go over the words in use alone.
ghost use Rattle.std.specs.Prelude.{◌≡◌, ◌+◌, ◌*◌, ◌<◌, ◌≤◌, ◌^◌, ◌++◌, List, Bool, true, false, length, map, not, replicate, pos, ◌-ℤ◌, slice_get, IsTrue, ◌↔◌, Some};
ghost use Rattle.std.specs.Option.{SomeIff};
ghost use Rattle.asl_bits.specs.Lists.{bits_value, bits_of, int_bits, signed_value, both, and_bit, or_bit, xor_bit, top_bit, slice_of, with_slice, extension_of};
ghost use Rattle.asl_bits.specs.Answers.{IsInt};
ghost use Rattle.asl_bits.specs.Words.{words_value};

use crate::{BitsRefused, words};
use std::marker::Model;

/// A bitvector in `N` words of 128 bits: its width, and its bits as a number, in words from the lowest on. Bits at or above
/// the width are 0.
#[derive(Drop)]
pub struct BitsOf<const N: usize> {
    width: u32,
    words: [u128; N],
}

impl<const N: usize> Model for BitsOf<N> {
    ghost use Rattle.std.specs.Prelude.{◌<◌, ◌≤◌, ◌^◌, ◌*◌, List, Bool};
    ghost use Rattle.asl_bits.specs.Lists.{bits_of};
    ghost use Rattle.asl_bits.specs.Words.{words_value};

    ghost Value = { List Bool };

    ghost view = { λ b. bits_of b.width (words_value b.words) };

    ghost invariant = { λ b. (b.width ≤ 128 * N) × (words_value b.words < 2 ^ b.width) };
}

impl<const N: usize> BitsOf<N> {
    /// How many bits there are.
    #[tactic(auto, using(crate::proofs::Values::width_is))]
    pub fn width(&self) -> u32
        ensures value { result ≡ length self.now }
        ensures within { result ≤ 128 * N }
    {
        self.width
    }

    // The first words, so many that all bits stand in them.
    #[tactic(auto, using(crate::proofs::InUse::first_value, crate::proofs::Values::width_is))]
    fn first(&self, count: usize) -> &[u128]
        requires within { count ≤ N }
        requires room { length self.now ≤ 128 * count }
        ensures value { words_value result.now ≡ bits_value self.now }
        ensures count { length result.now ≡ count }
    {
        &self.words[..count]
    }

    // The words in use.
    fn in_use(&self) -> &[u128]
        ensures value { words_value result.now ≡ bits_value self.now }
        ensures small { length result.now ≤ 2 ^ 26 }
    {
        self.first(words_for::<N>(self.width()))
    }

    /// The same bits.
    pub fn copy(&self) -> BitsOf<N>
        ensures { result ≡ self.now }
    {
        BitsOf {
            width: self.width,
            words: self.words,
        }
    }

    /// The complement: each bit inverted.
    #[tactic(auto, using(crate::proofs::InUse::not_facts))]
    pub fn not(&self) -> BitsOf<N>
        ensures { result ≡ map not self.now }
    {
        let width = self.width();
        let count = words_for::<N>(width);
        let mut words = [0; N];
        words::complement(&mut words[..count], self.first(count), width as usize);
        BitsOf { width, words }
    }

    /// Place by place 1 where both are.
    #[tactic(auto, using(crate::proofs::InUse::and_facts))]
    pub fn and(&self, other: &BitsOf<N>) -> BitsOf<N>
        requires { length self.now ≡ length other.now }
        ensures { result ≡ both and_bit self.now other.now }
    {
        let width = self.width();
        let count = words_for::<N>(width);
        let mut words = [0; N];
        words::and(&mut words[..count], self.first(count), other.first(count));
        BitsOf { width, words }
    }

    /// Place by place 1 where one of the two is.
    #[tactic(auto, using(crate::proofs::InUse::or_facts))]
    pub fn or(&self, other: &BitsOf<N>) -> BitsOf<N>
        requires { length self.now ≡ length other.now }
        ensures { result ≡ both or_bit self.now other.now }
    {
        let width = self.width();
        let count = words_for::<N>(width);
        let mut words = [0; N];
        words::or(&mut words[..count], self.first(count), other.first(count));
        BitsOf { width, words }
    }

    /// Place by place 1 where the two differ.
    #[tactic(auto, using(crate::proofs::InUse::xor_facts))]
    pub fn xor(&self, other: &BitsOf<N>) -> BitsOf<N>
        requires { length self.now ≡ length other.now }
        ensures { result ≡ both xor_bit self.now other.now }
    {
        let width = self.width();
        let count = words_for::<N>(width);
        let mut words = [0; N];
        words::xor(&mut words[..count], self.first(count), other.first(count));
        BitsOf { width, words }
    }

    /// The sum modulo 2 to the power of the width.
    #[tactic(auto, using(crate::proofs::InUse::sum_facts))]
    pub fn add(&self, other: &BitsOf<N>) -> BitsOf<N>
        requires { length self.now ≡ length other.now }
        ensures { result ≡ bits_of (length self.now) (bits_value self.now + bits_value other.now) }
    {
        let width = self.width();
        let count = words_for::<N>(width);
        let mut words = [0; N];
        words::sum(
            &mut words[..count],
            self.first(count),
            other.first(count),
            false,
            width as usize,
        );
        BitsOf { width, words }
    }

    /// The difference modulo 2 to the power of the width.
    #[tactic(auto, using(crate::proofs::InUse::sub_facts))]
    pub fn sub(&self, other: &BitsOf<N>) -> BitsOf<N>
        requires { length self.now ≡ length other.now }
        ensures { result ≡ int_bits (length self.now) (pos (bits_value self.now) -ℤ pos (bits_value other.now)) }
    {
        let width = self.width();
        let count = words_for::<N>(width);
        let mut turned = [0; N];
        words::complement(&mut turned[..count], other.first(count), width as usize);
        let mut words = [0; N];
        words::sum(
            &mut words[..count],
            self.first(count),
            &turned[..count],
            true,
            width as usize,
        );
        BitsOf { width, words }
    }

    /// The bits read as an unsigned number, or `Overflow`.
    pub fn uint(&self) -> Result<i128, BitsRefused>
        ensures { IsInt result (pos (bits_value self.now)) }
    {
        match self.small() {
            Some(number) => Ok(number),
            None => Err(BitsRefused::Overflow),
        }
    }

    /// The bits read as an integer in two's complement, or `Overflow`. A bitvector of width 0 is 0.
    #[tactic(auto, using(crate::proofs::Values::signed_facts))]
    pub fn sint(&self) -> Result<i128, BitsRefused>
        ensures { IsInt result (signed_value self.now) }
    {
        if !self.top() {
            return self.uint();
        }
        match self.not().small() {
            Some(below) => Ok(-1 - below),
            None => Err(BitsRefused::Overflow),
        }
    }

    /// Whether the bits are the same.
    #[tactic(auto, using(crate::proofs::InUse::same_of))]
    pub fn same(&self, other: &BitsOf<N>) -> bool
        requires { length self.now ≡ length other.now }
        ensures { IsTrue result ↔ self.now ≡ other.now }
    {
        let count = words_for::<N>(self.width());
        words::same(self.first(count), other.first(count))
    }

    /// The bit at a place, which counts from 0 at the lowest.
    #[tactic(auto, using(crate::proofs::InUse::bit_of))]
    pub fn bit(&self, place: u32) -> bool
        requires { place < length self.now }
        ensures { slice_get self.now place ≡ Some result }
    {
        words::window(self.in_use(), place as usize) % 2 == 1
    }

    // The bits read as an unsigned number, where it is below 2^127.
    fn small(&self) -> Option<i128>
        ensures { SomeIff result (bits_value self.now < 2 ^ 127) (pos (bits_value self.now)) }
    {
        match words::single(self.in_use()) {
            Some(word) => {
                if word < 1 << 127 {
                    Some(word as i128)
                } else {
                    None
                }
            }
            None => None,
        }
    }

    // The highest bit, and `false` where there is none.
    #[tactic(auto, using(crate::proofs::Values::top_facts))]
    fn top(&self) -> bool
        ensures { result ≡ top_bit self.now }
    {
        if self.width() == 0 {
            false
        } else {
            self.bit(self.width() - 1)
        }
    }

    /// `width` bits from a place on, in any number of words that hold them.
    #[tactic(auto, using(crate::proofs::InUse::part_facts))]
    pub fn part<const M: usize>(&self, place: u32, width: u32) -> BitsOf<M>
        requires inside { place + width ≤ length self.now }
        requires room { width ≤ 128 * M }
        ensures { result ≡ slice_of self.now place width }
    {
        let count = words_for::<M>(width);
        let mut words = [0; M];
        words::lower(
            &mut words[..count],
            self.in_use(),
            place as usize,
            width as usize,
        );
        BitsOf { width, words }
    }

    /// The bits with `part` in place of those from a place on.
    #[tactic(auto, using(crate::proofs::Putting::put_facts))]
    pub fn replaced<const P: usize>(&self, place: u32, part: &BitsOf<P>) -> BitsOf<N>
        requires { place + length part.now ≤ length self.now }
        ensures { result ≡ with_slice self.now place part.now }
    {
        let width = self.width();
        let end = place as usize + part.width() as usize;
        let count = words_for::<N>(width);
        let mut words = [0; N];
        words::put(
            &mut words[..count],
            self.first(count),
            part.in_use(),
            place as usize,
            end,
        );
        BitsOf { width, words }
    }

    /// The bits with zeros on top up to a width, or, where it is signed, with copies of the highest bit.
    pub fn extended<const M: usize>(&self, width: u32, signed: bool) -> BitsOf<M>
        requires longer { length self.now ≤ width }
        requires room { width ≤ 128 * M }
        ensures { result ≡ extension_of self.now width signed }
    {
        let above = filled::<M>(width - self.width(), signed && self.top());
        joined::<M, N, M>(&above, self)
    }
}

impl BitsOf<1> {
    /// The bits of a word.
    #[tactic(auto, using(crate::proofs::InUse::single_word))]
    pub fn of_word(width: u32, word: u128) -> BitsOf<1>
        requires room { width ≤ 128 }
        requires small { word < 2 ^ width }
        ensures { result ≡ bits_of width word }
    {
        BitsOf {
            width,
            words: [word],
        }
    }

    /// The word that the bits stand in.
    #[tactic(auto, using(crate::proofs::InUse::one_word))]
    pub fn word(&self) -> u128
        ensures { result ≡ bits_value self.now }
    {
        self.words[0]
    }
}

/// The bits of `high` on top of those of `low`, in any number of words that hold them.
#[tactic(auto, using(crate::proofs::InUse::join_facts))]
pub fn joined<const A: usize, const B: usize, const C: usize>(
    high: &BitsOf<A>,
    low: &BitsOf<B>,
) -> BitsOf<C>
    requires room { length high.now + length low.now ≤ 128 * C }
    requires small { length high.now + length low.now < 2 ^ 32 }
    ensures { result ≡ low.now ++ high.now }
{
    let by = low.width();
    let width = by + high.width();
    let count = words_for::<C>(width);
    let mut words = [0; C];
    words::join(
        &mut words[..count],
        high.in_use(),
        low.in_use(),
        by as usize,
    );
    BitsOf { width, words }
}

/// `width` bits, all equal to `bit`.
#[tactic(auto, using(crate::proofs::Values::fill_facts))]
pub fn filled<const N: usize>(width: u32, bit: bool) -> BitsOf<N>
    requires { width ≤ 128 * N }
    ensures { result ≡ replicate width bit }
{
    let zeros = lowest::<N>(0, width);
    if bit { zeros.not() } else { zeros }
}

/// The lowest `width` bits of the integer in two's complement.
#[tactic(auto, using(crate::proofs::Values::wrap_facts))]
pub fn wrapped<const N: usize>(value: i128, width: u32) -> BitsOf<N>
    requires { width ≤ 128 * N }
    ensures { result ≡ int_bits width value }
{
    if value < 0 {
        lowest::<N>(value.unsigned_abs() - 1, width).not()
    } else {
        lowest::<N>(value.unsigned_abs(), width)
    }
}

// The lowest `width` bits of a word.
#[tactic(auto, using(crate::proofs::InUse::lowest_facts))]
fn lowest<const N: usize>(word: u128, width: u32) -> BitsOf<N>
    requires { width ≤ 128 * N }
    ensures { result ≡ bits_of width word }
{
    let count = words_for::<N>(width);
    let mut words = [0; N];
    words::lower(&mut words[..count], &[word], 0, width as usize);
    BitsOf { width, words }
}

// How many words hold so many bits.
fn words_for<const N: usize>(width: u32) -> usize
    requires { width ≤ 128 * N }
    ensures within { result ≤ N }
    ensures room { width ≤ 128 * result }
    ensures small { result ≤ 2 ^ 26 }
{
    if N == 1 {
        1
    } else {
        (width as usize + 127) / 128
    }
}
