//! Files in memory that may fail.
ghost use Rattle.std.specs.Prelude.{◌≡◌, ◌<◌, ◌≤◌, ◌+◌, ◌↔◌, ◌⊎◌, [], Some, None, Option, Contains, IsTrue, length, take, IfOk, IfSome, IsErr, IsOk, OnErr, OnOk};
ghost use Rattle.std.proofs.Math.Path.{refl};
ghost use Rattle.asl_io.specs.Faults.{Rises, next_number};
ghost use Rattle.asl_io.specs.Told.{Gives};
ghost use Rattle.asl_io.specs.Shelf.{held_of, left_of, is_sure, is_empty, place_of};

use crate::files::{FileFault, Files};
use crate::shelf;

/// Files in memory, which fail at the listed calls and where a name is not held.
#[derive(Drop)]
pub struct MemFiles {
    held: Vec<(String, Vec<u8>)>,
    piece: usize,
    fails: Vec<u64>,
    calls: u64,
    faults: u64,
    place: Option<usize>,
    at: usize,
    ghost some: { 0 < piece },
}

impl MemFiles {
    ghost use Rattle.asl_io.specs.private.MemFiles.{failing_calls, call_count, piece_of};

    /// Files with these names and bytes, none of them open, that are given in pieces of at most `piece` bytes, which must
    /// be above 0. The calls with the listed numbers fail, where `open` and `next` are counted together from 1. Of two files
    /// with one name the first counts.
    pub fn new(held: Vec<(String, Vec<u8>)>, piece: usize, fails: Vec<u64>) -> MemFiles
        requires { 0 < piece }
        ensures held { ⟦<MemFiles as Files>⟧.held result ≡ Some (held_of held.items) }
        ensures closed { ⟦<MemFiles as Files>⟧.left result ≡ Some [] }
        ensures count { ⟦<MemFiles as Files>⟧.faults result ≡ 0 }
        ensures steady { ⟦<MemFiles as Files>⟧.steady result ≡ is_empty fails.items }
        ensures sure { ⟦<MemFiles as Files>⟧.sure result ≡ is_sure fails.items held.items }

        // Which calls fail.
        ensures fails { failing_calls result ≡ fails.items }
        ensures calls { call_count result ≡ 0 }
        ensures piece { piece_of result ≡ piece }
    {
        MemFiles {
            held,
            piece,
            fails,
            calls: 0,
            faults: 0,
            place: None,
            at: 0,
        }
    }
}

impl Files for MemFiles {
    ghost held = { λ s. Some (held_of s.held.items) };

    ghost left = { λ s. Some (left_of s.held.items s.place s.at) };

    ghost faults = { λ s. s.faults };

    ghost steady = { λ s. is_empty s.fails.items };

    ghost sure = { λ s. is_sure s.fails.items s.held.items };

    ghost told = { λ _. refl };

    fn open(&mut self, name: &str) -> Result<(), FileFault>
        ensures begins { OnOk result (Some (left_of self.new.held.items self.new.place self.new.at) ≡ Some (held_of self.old.held.items name.now)) }
        ensures same_held { Some (held_of self.new.held.items) ≡ Some (held_of self.old.held.items) }
        ensures same_sure { is_sure self.new.fails.items self.new.held.items ≡ is_sure self.old.fails.items self.old.held.items }
        ensures count_grows { self.old.faults ≤ self.new.faults }
        ensures count_rises { OnErr result (Rises self.old.faults self.new.faults) }
        ensures count_stays { OnOk result (self.new.faults ≡ self.old.faults) }
        ensures opens { IsTrue (is_sure self.old.fails.items self.old.held.items name.now) → IsOk result }
        ensures steady { IsTrue (is_sure self.old.fails.items self.old.held.items name.now) → IsTrue (is_empty self.new.fails.items) }
        ensures same_piece { self.new.piece ≡ self.old.piece }
        ensures number { self.new.calls ≡ next_number self.old.calls }
        ensures same_fails { self.new.fails.items ≡ self.old.fails.items }
        ensures fails { IsErr result ↔ (Contains self.old.fails.items (next_number self.old.calls) ⊎ (place_of self.old.held.items name.now ≡ None)) }
    {
        self.calls = self.calls.saturating_add(1);
        let Some(place) = shelf::place(self.held.as_slice(), name) else {
            self.faults = self.faults.saturating_add(1);
            return Err(FileFault);
        };
        if self.fails.contains(&self.calls) {
            self.faults = self.faults.saturating_add(1);
            return Err(FileFault);
        }
        self.place = Some(place);
        self.at = 0;
        Ok(())
    }

    fn next(&mut self, buf: &mut [u8]) -> Result<usize, FileFault>
        ensures bound { IfOk result (λ n. n ≤ length buf.new) }
        ensures gives { IfOk result (λ n. Gives (Some (left_of self.old.held.items self.old.place self.old.at)) (Some (left_of self.new.held.items self.new.place self.new.at)) (take n buf.new)) }
        ensures end { IfOk result (λ n. n ≡ 0 → 0 < length buf.new → IfSome (Some (left_of self.old.held.items self.old.place self.old.at)) (λ bytes. bytes ≡ [])) }
        ensures at_end { IfOk result (λ n. Some (left_of self.old.held.items self.old.place self.old.at) ≡ Some [] → n ≡ 0) }
        ensures same_held { Some (held_of self.new.held.items) ≡ Some (held_of self.old.held.items) }
        ensures same_sure { is_sure self.new.fails.items self.new.held.items ≡ is_sure self.old.fails.items self.old.held.items }
        ensures count_grows { self.old.faults ≤ self.new.faults }
        ensures count_rises { OnErr result (Rises self.old.faults self.new.faults) }
        ensures count_stays { OnOk result (self.new.faults ≡ self.old.faults) }
        ensures goes_on { IsTrue (is_empty self.old.fails.items) → IsOk result }
        ensures stays_steady { IsTrue (is_empty self.old.fails.items) → IsTrue (is_empty self.new.fails.items) }
        ensures piece { IfOk result (λ n. n ≤ self.old.piece) }
        ensures same_piece { self.new.piece ≡ self.old.piece }
        ensures number { self.new.calls ≡ next_number self.old.calls }
        ensures same_fails { self.new.fails.items ≡ self.old.fails.items }
        ensures fails { IsErr result ↔ Contains self.old.fails.items (next_number self.old.calls) }
    {
        self.calls = self.calls.saturating_add(1);
        if self.fails.contains(&self.calls) {
            self.faults = self.faults.saturating_add(1);
            return Err(FileFault);
        }
        let n = shelf::give_from(self.held.as_slice(), self.place, self.at, self.piece, buf);
        self.at += n;
        Ok(n)
    }
}
