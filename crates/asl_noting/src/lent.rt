//! Sinks that are lent.
ghost use Rattle.std.specs.Prelude.{◌≡◌, ℕ, ◌<◌, ◌≤◌, List, Option, length, take, IfOk, OnErr, OnOk};
ghost use Rattle.std.specs.Borrow.{GName};
ghost use Rattle.asl_io.specs.Faults.{Rises};
ghost use Rattle.asl_io.specs.Told.{Takes};

use asl_io::{Sink, SinkFault};

/// A sink that is lent. It takes bytes as `Sink` says, and stays the same sink.
pub trait Lent {
    /// Which one it is.
    ghost name: { Self → GName };

    /// The bytes taken so far, where this kind of sink tells them.
    ghost written: { Self → Option (List ℕ) };

    /// How many calls have failed.
    ghost faults: { Self → ℕ };

    /// Where this is a number, no call fails before that many bytes have been taken.
    ghost full: { Self → Option ℕ };

    /// Takes the first `n` bytes where it answers `Ok(n)`, and none where it answers `Err`.
    fn give(&mut self, bytes: &[u8]) -> Result<usize, SinkFault>
        ensures bound { IfOk result (λ n. n ≤ length bytes.now) }
        ensures some { IfOk result (λ n. 0 < length bytes.now → 0 < n) }
        ensures takes { IfOk result (λ n. Takes (written self.old) (written self.new) (take n bytes.now)) }
        ensures none { OnErr result (written self.new ≡ written self.old) }
        ensures count_grows { faults self.old ≤ faults self.new }
        ensures count_rises { OnErr result (Rises (faults self.old) (faults self.new)) }
        ensures count_stays { OnOk result (faults self.new ≡ faults self.old) }
        ensures same_full { full self.new ≡ full self.old }
        ensures same { name self.new ≡ name self.old };
}

impl<K: Sink> Lent for &mut K {
    ghost name = { λ r. r.ghost_name };

    ghost written = { λ r. K.written r.now };

    ghost faults = { λ r. K.faults r.now };

    ghost full = { λ r. K.full r.now };

    fn give(&mut self, bytes: &[u8]) -> Result<usize, SinkFault> {
        (**self).write(bytes)
    }
}
