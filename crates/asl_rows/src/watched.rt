//! Devices that tell whether a call was made behind one that failed, on either of them.
use asl_io::{FileFault, Files, Sink, SinkFault};
use std::cell::Cell;

/// What the files and the sink of a run share.
#[derive(Drop)]
pub struct Watch {
    has_failed: Cell<bool>,
    went_on: Cell<bool>,
}

impl Watch {
    /// No call has been made.
    pub fn new() -> Watch {
        Watch {
            has_failed: Cell::new(false),
            went_on: Cell::new(false),
        }
    }

    /// Whether a call has failed.
    pub fn has_failed(&self) -> bool {
        self.has_failed.get()
    }

    /// Whether a call was made behind one that had failed.
    pub fn went_on(&self) -> bool {
        self.went_on.get()
    }

    /// Notes that a call begins.
    fn begin(&self) {
        if self.has_failed.get() {
            self.went_on.set(true);
        }
    }

    /// Notes how a call ended.
    fn end(&self, is_ok: bool) {
        if !is_ok {
            self.has_failed.set(true);
        }
    }
}

/// Files or a sink that are watched.
#[derive(Drop)]
pub struct Watched<'a, D> {
    pub device: D,
    pub watch: &'a Watch,
}

impl<F: Files> Files for Watched<'_, F> {
    ghost held = { λ w. F.held w.device };

    ghost left = { λ w. F.left w.device };

    ghost faults = { λ w. F.faults w.device };

    ghost steady = { λ w. F.steady w.device };

    ghost sure = { λ w. F.sure w.device };

    ghost told = { λ w. F.told w.device };

    fn open(&mut self, name: &str) -> Result<(), FileFault> {
        self.watch.begin();
        let answer = self.device.open(name);
        self.watch.end(answer.is_ok());
        answer
    }

    fn next(&mut self, buf: &mut [u8]) -> Result<usize, FileFault> {
        self.watch.begin();
        let answer = self.device.next(buf);
        self.watch.end(answer.is_ok());
        answer
    }
}

impl<K: Sink> Sink for Watched<'_, K> {
    ghost written = { λ w. K.written w.device };

    ghost faults = { λ w. K.faults w.device };

    ghost full = { λ w. K.full w.device };

    ghost filled = { λ w. K.filled w.device };

    fn write(&mut self, bytes: &[u8]) -> Result<usize, SinkFault> {
        self.watch.begin();
        let answer = self.device.write(bytes);
        self.watch.end(answer.is_ok());
        answer
    }
}
