//! Types that no text writes: an enumeration without the name that declares it, and two records of one name.
use asl_cons::Cons;
use asl_shared::{Held, Shared};
use asl_syn::code::{Refused, StaticCode};
use asl_syn::token::Span;
use asl_types::fits::{fits, join};
use asl_types::sizes::{bounded, is_bounded};
use asl_types::{FieldType, Form, Ty};
use asl_value::{Name, Supers};
use sqlite_items::Items;
use std::alloc::{AllocError, Global};

const HERE: Span = Span {
    file: 0,
    start: 0,
    len: 1,
};

fn name(alloc: Global, text: &str) -> Result<Name, AllocError> {
    Shared::new(alloc, Items::from_slice(alloc, text.as_bytes())?)
}

fn integers(alloc: Global) -> Result<Ty, AllocError> {
    Ok(Ty::integer(Shared::new(alloc, Cons::whole(alloc))?))
}

fn colour(alloc: Global) -> Result<Ty, AllocError> {
    let mut labels = Items::new(alloc);
    labels.push(name(alloc, "RED")?)?;
    labels.push(name(alloc, "GREEN")?)?;
    Ok(Ty::enumeration(name(alloc, "Colour")?, Shared::new(alloc, labels)?))
}

/// A name for a type, which reaches nothing.
fn named(alloc: Global, text: &str, inner: Ty) -> Result<Ty, AllocError> {
    let inner = Shared::new(alloc, inner)?;
    let reached = Supers::none(alloc)?;
    Ok(Ty::named(name(alloc, text)?, reached, inner))
}

/// A field with its type.
fn field(alloc: Global, own: &str, ty: Held<Ty>) -> Result<FieldType, AllocError> {
    Ok(FieldType::Field(name(alloc, own)?, ty.into_inner()))
}

/// A record `R` with a field of this type.
fn record(alloc: Global, ty: Held<Ty>) -> Result<Ty, AllocError> {
    let mut fields = Items::new(alloc);
    fields.push(field(alloc, "a", ty)?)?;
    Ty::record_of(alloc, name(alloc, "R")?, Shared::new(alloc, fields)?)
}

/// An array of pairs.
fn pairs(alloc: Global, length: u32) -> Result<Ty, AllocError> {
    let mut parts = Items::new(alloc);
    parts.push(integers(alloc)?)?;
    parts.push(Ty::boolean())?;
    let pair = Ty::tuple(Shared::new(alloc, parts)?);
    Ok(Ty::array(length, Shared::new(alloc, pair)?))
}

/// An enumeration, and the same under a name.
fn colours(alloc: Global) -> Result<(Held<Ty>, Held<Ty>), AllocError> {
    let plain = Held::new(colour(alloc)?);
    let paint = named(alloc, "Paint", colour(alloc)?)?;
    Ok((plain, Held::new(paint)))
}

/// Two records of one name, which differ in the types of their fields.
fn records(alloc: Global) -> Result<(Held<Ty>, Held<Ty>), AllocError> {
    let whole = Held::new(record(alloc, Held::new(integers(alloc)?))?);
    let truths = record(alloc, Held::new(Ty::boolean()))?;
    Ok((whole, Held::new(truths)))
}

/// Whether each of two types fits the other.
fn fit_each_other(first: &Ty, second: &Ty) -> bool {
    fits(first, second).is_none() && fits(second, first).is_none()
}

/// Whether the join of two types is one with a name.
fn join_has_a_name(alloc: Global, first: &Ty, second: &Ty) -> bool {
    match join(alloc, first, second) {
        Ok(Some(joined)) => matches!(Held::new(joined).get().form(), Form::Named(_, _, _)),
        _ => false,
    }
}

/// Whether an enumeration and the same under a name fit, and so do two records of one name, and no enumeration is a record.
fn fit_as_declared(
    alloc: Global,
    enumerations: &(Held<Ty>, Held<Ty>),
    both: &(Held<Ty>, Held<Ty>),
) -> bool {
    let (plain, paint) = (enumerations.0.get(), enumerations.1.get());
    let (whole, truths) = (both.0.get(), both.1.get());
    fit_each_other(plain, paint)
        && join_has_a_name(alloc, plain, paint)
        && fit_each_other(whole, truths)
        && fits(plain, whole) == Some(StaticCode::T05)
}

#[test]
fn types_fit_by_their_declaration(rt: HostRuntime) {
    let alloc = rt.alloc();
    let enumerations = colours(alloc).expect(&rt, "memory");
    let both = records(alloc).expect(&rt, "memory");
    assert!(rt; fit_as_declared(alloc, &enumerations, &both));
}

/// Whether a type has this size, and the depth of an array of pairs.
fn measures(ty: &Ty, size: u32, is_within: bool) -> bool {
    ty.size() == size && ty.depth() == 3 && is_bounded(ty) == is_within
}

/// Whether a type passes the limits, or T20 says that it doesn't.
fn passes(ty: Ty) -> Option<bool> {
    match bounded(HERE, ty).err() {
        None => Some(true),
        Some(Refused::At(fault)) if fault.code == StaticCode::T20 => Some(false),
        Some(_) => None,
    }
}

/// Whether an array of so many pairs has this size, and passes the limits where it is within them.
fn is_counted(alloc: Global, length: u32, size: u32, is_within: bool) -> Result<bool, AllocError> {
    let ty = pairs(alloc, length)?;
    let is_measured = measures(&ty, size, is_within);
    Ok(passes(ty) == Some(is_within) && is_measured)
}

/// Lengths of arrays of pairs, their sizes, and whether these are within the limit.
const SIZES: [(u32, u32, bool); 4] = [
    (3, 6, true),
    (32768, 65536, true),
    (32769, 65537, false),
    (4294967295, 65537, false),
];

#[test]
fn sizes_past_the_limit_are_one_number(rt: HostRuntime) {
    for (length, size, is_within) in SIZES {
        assert_eq!(rt;
            is_counted(rt.alloc(), length, size, is_within).ok(),
            Some(true),
            "{length}"
        );
    }
}
