//! The bytes that were taken, which only contracts see. It has no bytes itself, and its methods do nothing when they run.
ghost use Rattle.std.specs.Prelude.{◌≡◌, ℕ, List, [], ◌++◌};
ghost use Rattle.std.specs.Borrow.{ftrue};

use std::marker::Model;

/// The bytes that were taken. A clause reads them as `bytes`.
#[derive(Drop)]
pub struct Taken {
    pub ghost bytes: { List ℕ },
}

impl Model for Taken {
    ghost also_owns = { λ _. ftrue };
}

impl Taken {
    /// Nothing was taken.
    pub fn new() -> Taken
        ensures { result.bytes ≡ [] }
    {
        Taken {}
    }

    /// These were taken too.
    pub fn and(&self, bytes: &&[u8]) -> Taken
        ensures { result.bytes ≡ self.now.bytes ++ bytes.now.now }
    {
        Taken {}
    }
}
