//! A value that is dropped by a call.
//!
//! Where a value of a large enum is alive across a `?` or an early return, its drop is written out there, a case for each
//! variant and each variant inside those, and the function grows with each such place. A type with a `Drop` of its own is
//! dropped by one call. So a function holds such a value in a `Held` from where it is made to where it is given away.
ghost use Rattle.std.specs.Prelude.{◌≡◌};

use std::marker::Model;

/// A value that is dropped by a call, which contracts see as the value.
pub struct Held<T: Drop> {
    inner: T,
}

impl<T: Drop> Model for Held<T> {
    ghost Value = { T };

    ghost coded = { T.code };

    ghost view = { λ h. h.inner };
}

impl<T: Drop> Drop for Held<T> {
    fn drop(self) {
        let Held { inner: _inner } = self;
    }
}

impl<T: Drop> Held<T> {
    /// The value, held.
    pub fn new(inner: T) -> Held<T>
        ensures { result ≡ inner }
    {
        Held { inner }
    }

    /// The value.
    pub fn get(&self) -> &T
        ensures { result.now ≡ self.now }
    {
        &self.inner
    }

    /// The value, held no more.
    pub fn into_inner(self) -> T
        ensures { result ≡ self }
    {
        let Held { inner } = self;
        inner
    }
}
