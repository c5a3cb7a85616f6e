//! What takes bytes, and the writing of a whole text.
ghost use Rattle.std.specs.Prelude.{◌≡◌, ℕ, ◌<◌, ◌≤◌, List, Option, length, take, IfOk, OnErr, OnOk};
ghost use Rattle.asl_io.specs.Faults.{Rises};
ghost use Rattle.asl_io.specs.Told.{Takes, TakesPrefix};

/// The sink did not take the bytes.
#[derive(Clone, Copy, Debug, PartialEq, Eq)]
pub struct SinkFault;

/// What takes bytes.
pub trait Sink {
    /// The bytes taken so far, where this kind of sink tells them.
    ghost written: { Self → Option (List ℕ) };

    /// How many calls have failed.
    ghost faults: { Self → ℕ };

    /// Where this is a number, no call fails before that many bytes have been taken.
    ghost full: { Self → Option ℕ };

    /// Takes the first `n` bytes where it answers `Ok(n)`, and none where it answers `Err`.
    fn write(&mut self, bytes: &[u8]) -> Result<usize, SinkFault>
        ensures bound { IfOk result (λ n. n ≤ length bytes.now) }
        ensures some { IfOk result (λ n. 0 < length bytes.now → 0 < n) }
        ensures takes { IfOk result (λ n. Takes (written self.old) (written self.new) (take n bytes.now)) }
        ensures none { OnErr result (written self.new ≡ written self.old) }
        ensures count_grows { faults self.old ≤ faults self.new }
        ensures count_rises { OnErr result (Rises (faults self.old) (faults self.new)) }
        ensures count_stays { OnOk result (faults self.new ≡ faults self.old) }
        ensures same_full { full self.new ≡ full self.old };

    /// The sentence above on `full`, where the bytes are told.
    ghost filled: { (s : Self) (room : ℕ) (bytes : List ℕ) → full s ≡ Option.Some room → written s ≡ Option.Some bytes → 0 < faults s → room ≤ length bytes };
}

/// Writes all the bytes, in as many calls as the sink needs. At a fault a prefix of them has been taken.
pub fn put_all<K: Sink>(sink: &mut K, bytes: &[u8]) -> Result<(), SinkFault>
    ensures all { OnOk result (Takes (K.written sink.old) (K.written sink.new) bytes.now) }
    ensures prefix { OnErr result (TakesPrefix (K.written sink.old) (K.written sink.new) bytes.now) }
    ensures count_grows { K.faults sink.old ≤ K.faults sink.new }
    ensures count_rises { OnErr result (Rises (K.faults sink.old) (K.faults sink.new)) }
    ensures count_stays { OnOk result (K.faults sink.new ≡ K.faults sink.old) }
    ensures same_full { K.full sink.new ≡ K.full sink.old }
{
    let mut done = 0;
    while done < bytes.len() {
        done += sink.write(&bytes[done..])?;
    }
    Ok(())
}
