//! The sink round another one.
ghost use Rattle.std.specs.Prelude.{◌≡◌, ℕ, List, [], Option, Some, None, false};
ghost use Rattle.std.specs.Borrow.{GName};
ghost use Rattle.asl_io.specs.private.Filled.{no_room};
ghost use Rattle.asl_rules.specs.runs.Told.{appended, open_after};

use crate::lent::Lent;
use crate::taken::Taken;
use asl_io::{Sink, SinkFault};
use std::marker::{Brand, PhantomData};

/// The sink that is noted, as it stands when this begins. Who begins it picks these at a `Brand`.
pub trait Start {
    /// Which sink it is.
    ghost name: { GName };

    /// The bytes that it took before, where it tells them.
    ghost told: { Option (List ℕ) };

    /// Where this is a number, it doesn't fail before that many bytes have been taken.
    ghost full: { Option ℕ };
}

impl Start for Brand {
    ghost name = { 0 };

    ghost told = { None };

    ghost full = { None };
}

/// A sink round another one, to which it hands on all bytes. It tells those that were taken since it began, also where the other
/// tells none, and notes whether they are open.
pub struct Noting<W: Lent, S: Start> {
    sink: W,
    taken: Taken,
    is_open: bool,
    start: PhantomData<S>,
    ghost same: { W.name sink ≡ S.name },
    ghost told: { W.written sink ≡ appended S.told taken.bytes },
    ghost full: { W.full sink ≡ S.full },
    ghost open: { is_open ≡ open_after false taken.bytes },
}

impl<W: Lent, S: Start> Sink for Noting<W, S> {
    ghost written = { λ s. Some s.taken.bytes };

    ghost faults = { λ s. W.faults s.sink };

    ghost full = { λ _. None };

    ghost filled = { λ _ room _ full _ _. no_room _ room full };

    #[tactic(auto, using(crate::proofs::Opening::appended_then, crate::proofs::Opening::open_then))]
    fn write(&mut self, bytes: &[u8]) -> Result<usize, SinkFault> {
        let n = self.sink.give(bytes)?;
        let front = &bytes[..n];
        let is_open = stays_open(self.is_open, front);
        self.taken = self.taken.and(&front);
        self.is_open = is_open;
        Ok(n)
    }
}

impl<W: Lent, S: Start> Noting<W, S> {
    ghost use Rattle.asl_noting.specs.Noted.{Noted};

    /// Nothing was taken yet.
    pub fn begin(sink: W) -> Noting<W, S>
        requires name { S.name ≡ W.name sink }
        requires told { S.told ≡ W.written sink }
        requires full { S.full ≡ W.full sink }
        ensures nothing { ⟦<Noting<W, S> as Sink>⟧.written result ≡ Some [] }
        ensures faults { ⟦<Noting<W, S> as Sink>⟧.faults result ≡ W.faults sink }
    {
        Noting {
            sink,
            taken: Taken::new(),
            is_open: false,
            start: PhantomData,
        }
    }

    /// Whether what was taken is open, and the sink.
    pub fn end(self) -> (bool, W)
        ensures same { W.name result.1 ≡ S.name }
        ensures noted { Noted (⟦<Noting<W, S> as Sink>⟧.written self) S.told (W.written result.1) result.0 }
        ensures faults { W.faults result.1 ≡ ⟦<Noting<W, S> as Sink>⟧.faults self }
        ensures full { W.full result.1 ≡ S.full }
    {
        let Noting {
            sink,
            taken: _taken,
            is_open,
            start: _start,
        } = self;
        (is_open, sink)
    }
}

/// Whether text is open once these bytes are written behind it.
#[tactic(auto, using(crate::proofs::Opening::open_end))]
fn stays_open(before: bool, bytes: &[u8]) -> bool
    ensures { result ≡ open_after before bytes.now }
{
    if bytes.is_empty() {
        before
    } else {
        bytes[bytes.len() - 1] != b'\n'
    }
}
