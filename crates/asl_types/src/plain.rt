//! Types as plain data, by which contracts tell one from another. No call makes any.

use asl_cons::Part;
use asl_poly::Poly;
use asl_shared::Shared;
use asl_value::{BitField, Name, Names};
use sqlite_items::Items;

/// A type without the numbers that it keeps.
#[cycle(plain)]
#[derive(Drop)]
pub enum Plain {
    Integer(Items<Part>),
    Boolean,
    Bits(Poly, Items<BitField>),
    Enumeration(Name, Names),
    Record(Name, Items<PlainField>),
    Exception(Name, Items<PlainField>),
    Tuple(Items<Plain>),
    Array(u32, Shared<Plain>),
    Named(Name, Names, Shared<Plain>),
}

/// A field without the numbers that its type keeps.
#[cycle(plain)]
#[derive(Drop)]
pub enum PlainField {
    Field(Name, Plain),
}
