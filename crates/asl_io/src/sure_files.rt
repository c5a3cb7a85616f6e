//! Files in memory that never fail.
ghost use Rattle.std.specs.Prelude.{◌≡◌, [], Some, None, true};
ghost use Rattle.std.proofs.Math.Path.{refl};
ghost use Rattle.asl_io.specs.Shelf.{held_of, left_of};

use crate::files::{FileFault, Files};
use crate::shelf;

/// Files in memory. A name that is not held is an empty file.
#[derive(Drop)]
pub struct SureFiles {
    held: Vec<(String, Vec<u8>)>,
    place: Option<usize>,
    at: usize,
}

impl SureFiles {
    /// Files with these names and bytes, none of them open. Of two with one name the first counts.
    pub fn new(held: Vec<(String, Vec<u8>)>) -> SureFiles
        ensures held { ⟦<SureFiles as Files>⟧.held result ≡ Some (held_of held.items) }
        ensures closed { ⟦<SureFiles as Files>⟧.left result ≡ Some [] }
        ensures count { ⟦<SureFiles as Files>⟧.faults result ≡ 0 }
        ensures steady { ⟦<SureFiles as Files>⟧.steady result ≡ true }
        ensures sure { ⟦<SureFiles as Files>⟧.sure result ≡ λ _. true }
    {
        SureFiles {
            held,
            place: None,
            at: 0,
        }
    }
}

impl Files for SureFiles {
    ghost held = { λ s. Some (held_of s.held.items) };

    ghost left = { λ s. Some (left_of s.held.items s.place s.at) };

    ghost faults = { λ _. 0 };

    ghost steady = { λ _. true };

    ghost sure = { λ _ _. true };

    ghost told = { λ _. refl };

    fn open(&mut self, name: &str) -> Result<(), FileFault> {
        self.place = shelf::place(self.held.as_slice(), name);
        self.at = 0;
        Ok(())
    }

    fn next(&mut self, buf: &mut [u8]) -> Result<usize, FileFault> {
        let n = shelf::give_from(
            self.held.as_slice(),
            self.place,
            self.at,
            buf.len().max(1),
            buf,
        );
        self.at += n;
        Ok(n)
    }
}
