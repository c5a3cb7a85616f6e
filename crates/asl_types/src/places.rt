//! The places of fields by their names.

ghost use Rattle.std.specs.Prelude.{◌≡◌, [], option_map, IfOk, OnOk};
ghost use Rattle.asl_types.specs.private.FieldPlaces as rules;
ghost use Rattle.asl_types.specs.private.NamePlaces as names;

use crate::ty::{FieldType, Ty};
use asl_shared::Shared;
use indexmap::IndexMap;
use std::alloc::{AllocError, Global};
use std::marker::Model;

/// Names of fields, each with a place, from 0. A name is found without a walk over the others. Contracts see the names with
/// their places.
pub struct FieldPlaces {
    places: IndexMap<Vec<u8>, usize>,
}

// By hand, so that a drop of one is a call, as `Held` of asl_shared says.
impl Drop for FieldPlaces {
    fn drop(self) {
        let FieldPlaces { places: _places } = self;
    }
}

impl Model for FieldPlaces {
    ghost use Rattle.asl_types.specs.private.NamePlaces.{Places, named};

    ghost Value = { Places };

    ghost view = { λ n. named n.places.entries };
}

impl FieldPlaces {
    /// No names.
    fn new(alloc: Global) -> FieldPlaces
        ensures { result ≡ [] }
    {
        FieldPlaces {
            places: IndexMap::new(alloc),
        }
    }

    /// The place of a name, where it has one.
    fn place_of(&self, name: &[u8]) -> Option<usize>
        ensures { result ≡ names.place_of name.now self.now }
    {
        self.places.get(name).copied()
    }

    /// Gives a name this place, in the stead of the one that it had.
    fn put(&mut self, name: Vec<u8>, place: usize) -> Result<(), AllocError>
        ensures { OnOk result (self.new ≡ names.put name.items place self.old) }
    {
        self.places.insert(name, place)?;
        Ok(())
    }

    /// Gives the name of a field this place.
    fn put_field(
        &mut self,
        alloc: Global,
        field: &FieldType,
        place: usize,
    ) -> Result<(), AllocError>
        ensures { OnOk result (self.new ≡ rules.with_field field.now place self.old) }
    {
        match field {
            FieldType::Field(name, _) => self.put(name.get().as_slice().to_vec(alloc)?, place),
        }
    }
}

/// The places of these fields: of each name that of the first field that has it.
pub(crate) fn places_of(alloc: Global, fields: &[FieldType]) -> Result<FieldPlaces, AllocError>
    ensures { IfOk result (λ places. places ≡ rules.places_from 0 fields.now) }
{
    let mut places = FieldPlaces::new(alloc);
    let mut left = fields.len();
    while left > 0 {
        left -= 1;
        places.put_field(alloc, &fields[left], left)?;
    }
    Ok(places)
}

/// The place of a name among these, where some are kept.
pub(crate) fn place_in(places: &Option<Shared<FieldPlaces>>, name: &[u8]) -> Option<usize>
    ensures { result ≡ names.place_of name.now (rules.places_in places.now) }
{
    match places {
        None => None,
        Some(places) => places.get().place_of(name),
    }
}

/// The type of the field in this place, with the place.
pub(crate) fn field_at(fields: &[FieldType], place: Option<usize>) -> Option<(usize, &Ty)>
    ensures { option_map (λ p. (p.0, p.1.now)) result ≡ rules.field_at fields.now place }
{
    match place {
        None => None,
        Some(place) => match fields.get(place) {
            None => None,
            Some(FieldType::Field(_, ty)) => Some((place, ty)),
        },
    }
}
