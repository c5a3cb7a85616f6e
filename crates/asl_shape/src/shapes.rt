//! Slices, patterns and written types without the expressions in them.

use asl_syn::token::Span;
use asl_types::Ty;
use asl_value::{MaskDigits, Name};
use sqlite_items::{Boxed, Items};

/// A pattern.
#[cycle(patterns)]
#[derive(Drop)]
pub enum PatternShape {
    /// `-`
    Anything,
    /// `{p, q}`, or where it is negated `!{p, q}`.
    OneOf(bool, Items<PatternShape>),
    /// A mask.
    Masked(Span, MaskDigits),
    /// `<= e`
    AtMost(Span),
    /// `>= e`
    AtLeast(Span),
    /// `(p, q)`
    InParts(Span, Items<PatternShape>),
    /// `e`
    EqualTo(Span),
    /// `e..e`
    Between(Span),
}

/// A part of a constraint.
#[derive(Clone, Copy, PartialEq, Eq)]
pub enum PartShape {
    /// `e`
    Only,
    /// `e..e`
    FromTo,
}

/// A bitfield with its name.
#[derive(Drop)]
pub enum BitfieldShape {
    /// `[e] name`
    OnePlace(Name),
    /// `[e:e] name`
    ManyPlaces(Name),
}

/// A written type.
#[cycle(type_shapes)]
#[derive(Drop)]
pub enum TypeShape {
    /// Integers, in a constraint where it has parts.
    IntegerOf(Items<PartShape>),
    Boolean,
    /// `bit`
    OneBit(Span),
    /// `bits(e) {..}`
    BitsOf(Span, Items<BitfieldShape>),
    /// A declared name: the type that it stands for, in which no name of a body stands.
    Known(Ty),
    TupleOf(Items<TypeShape>),
    ArrayOf(Boxed<TypeShape>),
}

/// A field of a construction, in the order of the type.
#[derive(Drop)]
pub struct FieldGiven {
    /// Its name.
    pub name: Name,
    /// Its type.
    pub ty: Ty,
    /// The place of its value among those that are given, from 0.
    pub place: usize,
}
