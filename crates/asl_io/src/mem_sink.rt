//! A sink in memory that may fail.
ghost use Rattle.std.specs.Prelude.{min, ◌-◌, ◌≡◌, ◌<◌, ◌≤◌, ◌↔◌, ◌⊎◌, [], Some, Contains, length, take, vec_len, vec_capacity, IfOk, IsErr, OnErr, OnOk};
ghost use Rattle.asl_io.specs.Faults.{Rises, room_where_none_fails, next_number};
ghost use Rattle.asl_io.specs.Told.{Takes};

use crate::sink::{Sink, SinkFault};
use std::alloc::{AllocError, Global};

/// A sink in memory, which fails at the listed calls and where it is full.
#[derive(Drop)]
pub struct MemSink {
    bytes: Vec<u8>,
    room: usize,
    piece: usize,
    fails: Vec<u64>,
    calls: u64,
    faults: u64,
    ghost some: { 0 < piece },
    ghost taken: { room ≤ vec_capacity bytes },
    ghost within: { vec_len bytes ≤ room },
    ghost full: { fails.items ≡ [] → 0 < faults → vec_len bytes ≡ room },
}

impl MemSink {
    ghost use Rattle.asl_io.specs.private.MemSink.{failing_calls, call_count, piece_of, room_of};

    /// A sink with room for `room` bytes, which is allocated here, that takes at most `piece` of them in a call, which must
    /// be above 0. The calls with the listed numbers fail, counted from 1, and so does every call once the room is full.
    pub fn new(
        alloc: Global,
        room: usize,
        piece: usize,
        fails: Vec<u64>,
    ) -> Result<MemSink, AllocError>
        requires { 0 < piece }
        ensures empty { IfOk result (λ sink. ⟦<MemSink as Sink>⟧.written sink ≡ Some []) }
        ensures count { IfOk result (λ sink. ⟦<MemSink as Sink>⟧.faults sink ≡ 0) }
        ensures full { IfOk result (λ sink. ⟦<MemSink as Sink>⟧.full sink ≡ room_where_none_fails fails.items room) }

        // Which calls fail, and how much the others take.
        ensures room { IfOk result (λ sink. room_of sink ≡ room) }
        ensures piece { IfOk result (λ sink. piece_of sink ≡ piece) }
        ensures fails { IfOk result (λ sink. failing_calls sink ≡ fails.items) }
        ensures calls { IfOk result (λ sink. call_count sink ≡ 0) }
    {
        let bytes = Vec::with_capacity(alloc, room)?;
        Ok(MemSink {
            bytes,
            room,
            piece,
            fails,
            calls: 0,
            faults: 0,
        })
    }

    /// The bytes that have been written.
    pub fn bytes(&self) -> &[u8]
        ensures { ⟦<MemSink as Sink>⟧.written self.now ≡ Some result.now }
    {
        self.bytes.as_slice()
    }
}

impl Sink for MemSink {
    ghost use Rattle.asl_io.specs.private.Filled.{filled_room};

    ghost written = { λ s. Some s.bytes.items };

    ghost faults = { λ s. s.faults };

    ghost full = { λ s. room_where_none_fails s.fails.items s.room };

    ghost filled = { λ s room bytes full written count. filled_room s.fails.items s.room room s.bytes.items bytes s.faults (vec_len s.bytes) s.bytes.ok.0 s.full full written count };

    fn write(&mut self, bytes: &[u8]) -> Result<usize, SinkFault>
        ensures bound { IfOk result (λ n. n ≤ length bytes.now) }
        ensures some { IfOk result (λ n. 0 < length bytes.now → 0 < n) }
        ensures takes { IfOk result (λ n. Takes (Some self.old.bytes.items) (Some self.new.bytes.items) (take n bytes.now)) }
        ensures none { OnErr result (self.new.bytes.items ≡ self.old.bytes.items) }
        ensures count_grows { self.old.faults ≤ self.new.faults }
        ensures count_rises { OnErr result (Rises self.old.faults self.new.faults) }
        ensures count_stays { OnOk result (self.new.faults ≡ self.old.faults) }
        ensures same_full { room_where_none_fails self.new.fails.items self.new.room ≡ room_where_none_fails self.old.fails.items self.old.room }
        ensures amount { IfOk result (λ n. n ≡ min (min (length bytes.now) self.old.piece) (self.old.room - vec_len self.old.bytes)) }
        ensures same_piece { self.new.piece ≡ self.old.piece }
        ensures same_room { self.new.room ≡ self.old.room }
        ensures number { self.new.calls ≡ next_number self.old.calls }
        ensures same_fails { self.new.fails ≡ self.old.fails }
        ensures fails { IsErr result ↔ (Contains self.old.fails.items (next_number self.old.calls) ⊎ (vec_len self.old.bytes ≡ self.old.room)) }
    {
        self.calls = self.calls.saturating_add(1);
        let room = self.room - self.bytes.len();
        if room == 0 || self.fails.contains(&self.calls) {
            self.faults = self.faults.saturating_add(1);
            return Err(SinkFault);
        }
        let n = bytes.len().min(self.piece).min(room);
        self.bytes.extend_from_slice(&bytes[..n]).unwrap();
        Ok(n)
    }
}
