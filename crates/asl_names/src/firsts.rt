//! Names with the places at which they stand first.

ghost use Rattle.std.specs.Prelude.{◌≡◌, [], OnOk};
ghost use Rattle.asl_names.specs.private.Firsts.{first_place, kept};

use indexmap::IndexMap;
use std::alloc::{AllocError, Global};
use std::marker::Model;

/// Names, each with the place at which it stands first among those that were kept. A name is found without a walk over the
/// others. Contracts see the names with their places.
pub struct Firsts<'a> {
    places: IndexMap<&'a [u8], usize>,
}

// By hand, so that a drop of one is a call, as `Held` of asl_shared says.
impl<'a> Drop for Firsts<'a> {
    fn drop(self) {
        let Firsts { places: _places } = self;
    }
}

impl<'a> Model for Firsts<'a> {
    ghost use Rattle.asl_names.specs.private.Firsts.{Places, named};

    ghost Value = { Places };

    ghost view = { λ n. named n.places.entries };
}

impl<'a> Firsts<'a> {
    /// No names.
    pub fn new(alloc: Global) -> Firsts<'a>
        ensures { result ≡ [] }
    {
        Firsts {
            places: IndexMap::new(alloc),
        }
    }

    /// The place of a name, where it was kept.
    pub fn place_of(&self, name: &[u8]) -> Option<usize>
        ensures { result ≡ first_place name.now self.now }
    {
        self.places.get(name).copied()
    }

    /// Keeps a name with its place, where it wasn't kept before.
    pub fn keep(&mut self, name: &'a [u8], place: usize) -> Result<(), AllocError>
        ensures { OnOk result (self.new ≡ kept name.now place self.old) }
    {
        if self.place_of(name).is_none() {
            self.places.insert(name, place)?;
        }
        Ok(())
    }
}
