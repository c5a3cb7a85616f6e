//! Places among bits, and the bits that stand there: read, and written.
ghost use Rattle.std.specs.Prelude.{◌≡◌, ◌+◌, ◌<◌, ◌≤◌, ◌++◌, [], ◌==◌, ◌^◌, true, length, nat_le, IfOk, MatchOption};
ghost use Rattle.asl_bits.specs.declared.TheConstants.{WIDTH_LIMIT};
ghost use Rattle.asl_bits.specs.Lists.{slice_of, with_slice, int_bits};
ghost use Rattle.asl_num.specs.Exact.{floor_div};
ghost use Rattle.asl_rules.specs.values.Vectors as rules;

use crate::views::BitField;
use asl_bits::WIDTH_LIMIT;
use asl_vector::Vector;
use std::alloc::{AllocError, Global};
use std::marker::Model;

/// So many places, from the lowest on.
#[derive(Drop)]
pub(crate) struct Places {
    low: u128,
    others: u128,
    last: bool,
}

impl Model for Places {
    ghost use Rattle.std.specs.Prelude.{◌+◌};
    ghost use Rattle.std.specs.Int.{from_bool};
    ghost use Rattle.asl_rules.specs.values.Vectors.{Places};

    ghost Value = { Places };

    ghost view = { λ p. record { low = p.low; width = p.others + from_bool p.last } };
}

impl Places {
    /// So many places from one on.
    pub(crate) fn new(low: u128, width: u32) -> Places
        ensures { result ≡ record { low = low; width = width } }
    {
        Places {
            low,
            others: width as u128,
            last: false,
        }
    }

    /// The places of a bitfield.
    pub(crate) fn of_field(field: &BitField) -> Places
        ensures { result ≡ rules.places_of_field field.now }
    {
        if field.high() < field.low() {
            Places {
                low: field.low(),
                others: 0,
                last: false,
            }
        } else {
            Places {
                low: field.low(),
                others: field.high() - field.low(),
                last: true,
            }
        }
    }

    /// How many there are, where they are at most so many.
    fn up_to(&self, most: u128) -> Option<u128>
        ensures { MatchOption result (most < self.now.width) (λ w. (w ≡ self.now.width) × (w ≤ most)) }
    {
        if self.others > most {
            None
        } else if !self.last {
            Some(self.others)
        } else if self.others < most {
            Some(self.others + 1)
        } else {
            None
        }
    }
}

// ---- tests

/// Whether all together are at most as many as the widest bits.
#[tactic(auto, using(crate::proofs::InPlaces::within_none, crate::proofs::InPlaces::within_more, crate::proofs::InPlaces::within_all, crate::proofs::InPlaces::not_within))]
pub(crate) fn are_within(places: &[Places]) -> bool
    ensures { result ≡ nat_le (rules.total_width places.now) WIDTH_LIMIT }
{
    let mut left = WIDTH_LIMIT as u128;
    for place in places {
        match place.up_to(left) {
            Some(width) => left -= width,
            None => return false,
        }
    }
    true
}

/// Whether so many bits fill the places, of so many.
pub(crate) fn fill(count: u32, places: &[Places], most: u32) -> bool
    ensures { result ≡ rules.fill count places.now most }
{
    have_width(count, places) && are_inside(places, most)
}

/// Whether the places are so many.
#[tactic(auto, using(crate::proofs::InPlaces::within_none, crate::proofs::InPlaces::within_more, crate::proofs::InPlaces::as_many, crate::proofs::InPlaces::more_places))]
fn have_width(count: u32, places: &[Places]) -> bool
    ensures { result ≡ (count == rules.total_width places.now) }
{
    let mut left = count as u128;
    for place in places {
        match place.up_to(left) {
            Some(width) => left -= width,
            None => return false,
        }
    }
    left == 0
}

/// Whether so many places hold all of these.
#[tactic(auto, using(crate::proofs::InPlaces::inside_none, crate::proofs::InPlaces::inside_more, crate::proofs::InPlaces::not_inside, crate::proofs::InPlaces::inside_all))]
fn are_inside(places: &[Places], most: u32) -> bool
    ensures { result ≡ rules.all_within places.now most }
{
    for place in places {
        if !is_inside(place, most) {
            return false;
        }
    }
    true
}

/// Whether so many places hold these.
fn is_inside(place: &Places, most: u32) -> bool
    ensures { result ≡ nat_le (place.now.low + place.now.width) most }
{
    place.low <= most as u128 && place.up_to(most as u128 - place.low).is_some()
}

// ---- reading

/// The bits in these places, the first on top; places past the end have none.
#[tactic(auto, using(crate::proofs::InPlaces::none_read, crate::proofs::InPlaces::one_read, crate::proofs::InPlaces::all_read, crate::proofs::InPlaces::room_left))]
pub(crate) fn read_bits(
    alloc: Global,
    bits: &Vector,
    places: &[Places],
) -> Result<Vector, AllocError>
    requires { rules.total_width places.now ≤ WIDTH_LIMIT }
    ensures { IfOk result (λ it. it ≡ rules.read_bits places.now bits.now) }
{
    let mut made = no_bits(alloc)?;
    for place in places {
        let part = cut(alloc, bits, place)?;
        made = made.on_top(alloc, &part)?;
    }
    Ok(made)
}

/// The bits of an integer in two's complement in these places, the first on top.
#[tactic(auto, using(crate::proofs::InPlaces::none_cut, crate::proofs::InPlaces::one_cut, crate::proofs::InPlaces::room_cut, crate::proofs::InPlaces::width_cut, crate::proofs::InPlaces::all_cut))]
pub(crate) fn read_integer(alloc: Global, z: i128, places: &[Places]) -> Result<Vector, AllocError>
    requires { rules.total_width places.now ≤ WIDTH_LIMIT }
    ensures { IfOk result (λ it. it ≡ rules.read_int places.now z) }
{
    let mut made = no_bits(alloc)?;
    for place in places {
        let part = cut_integer(alloc, z, place)?;
        made = made.on_top(alloc, &part)?;
    }
    Ok(made)
}

/// Bits without places.
fn no_bits(alloc: Global) -> Result<Vector, AllocError>
    ensures { IfOk result (λ it. it ≡ []) }
{
    Vector::filled(alloc, 0, false)
}

/// The bits in these places, as far as there are any.
#[tactic(auto, using(crate::proofs::InPlaces::cut_past, crate::proofs::InPlaces::cut_short))]
pub(crate) fn cut(alloc: Global, bits: &Vector, place: &Places) -> Result<Vector, AllocError>
    ensures { IfOk result (λ it. it ≡ slice_of bits.now place.now.low place.now.width) }
{
    let most = bits.width() as u128;
    if place.low >= most {
        return bits.part(alloc, 0, 0);
    }
    let rest = most - place.low;
    match place.up_to(rest) {
        Some(width) => bits.part(alloc, place.low as u32, width as u32),
        None => bits.part(alloc, place.low as u32, rest as u32),
    }
}

/// The bits of an integer in two's complement in these places.
#[tactic(auto, using(crate::proofs::InPlaces::same_above))]
fn cut_integer(alloc: Global, z: i128, place: &Places) -> Result<Vector, AllocError>
    requires { place.now.width ≤ WIDTH_LIMIT }
    ensures { IfOk result (λ it. it ≡ int_bits place.now.width (floor_div z (2 ^ place.now.low))) }
{
    match place.up_to(WIDTH_LIMIT as u128) {
        Some(width) => {
            if place.low < 127 {
                Vector::part_of_int(alloc, z, place.low as u32, width as u32)
            } else {
                Vector::part_of_int(alloc, z, 127, width as u32)
            }
        }
        None => unreachable!(),
    }
}

// ---- writing

/// The bits with others in these places, which they fill, from the first to the last.
#[tactic(auto, using(crate::proofs::InPlaces::none_put, crate::proofs::InPlaces::place_inside, crate::proofs::InPlaces::width_inside, crate::proofs::InPlaces::room_inside, crate::proofs::InPlaces::one_put, crate::proofs::InPlaces::all_put))]
pub(crate) fn write_bits(
    alloc: Global,
    bits: &Vector,
    part: &Vector,
    places: &[Places],
) -> Result<Vector, AllocError>
    requires { rules.fill (length part.now) places.now (length bits.now) ≡ true }
    ensures { IfOk result (λ it. it ≡ rules.write_bits places.now part.now bits.now) }
{
    let mut left = part.width();
    let mut made = bits.share()?;
    for place in places {
        match place.up_to(left as u128) {
            Some(width) => {
                left -= width as u32;
                made = with_some(alloc, &made, place, part, left)?;
            }
            None => unreachable!(),
        }
    }
    Ok(made)
}

/// The bits with some of others in these places: those from one on.
#[tactic(auto, using(crate::proofs::InPlaces::part_inside))]
fn with_some(
    alloc: Global,
    bits: &Vector,
    place: &Places,
    part: &Vector,
    from: u32,
) -> Result<Vector, AllocError>
    requires enough { from + place.now.width ≤ length part.now }
    requires inside { place.now.low + place.now.width ≤ length bits.now }
    ensures { IfOk result (λ it. it ≡ with_slice bits.now place.now.low (slice_of part.now from place.now.width)) }
{
    // Their clauses say that the widths are within `WIDTH_LIMIT`.
    let _most = bits.width();
    let _all = part.width();
    match place.up_to(WIDTH_LIMIT as u128) {
        Some(width) => {
            let some = part.part(alloc, from, width as u32)?;
            bits.replaced(alloc, place.low as u32, &some)
        }
        None => unreachable!(),
    }
}
