//! The runs of command lines over watched devices.
ghost use Rattle.std.specs.Prelude.{◌<◌};

use crate::rows::Row;
use crate::watched::{Watch, Watched};
use asl_cmd::{asl, asl_in_memory};
use asl_io::{MemFiles, MemSink};
use std::alloc::{AllocError, Global};

/// How many bytes a call moves at most, and which calls fail, counted from 1.
#[derive(Drop)]
pub struct Devices<'a> {
    pub piece: usize,
    pub files_fail: &'a [u64],
    pub sink_fails: &'a [u64],
}

/// What a command line came to.
#[derive(Drop)]
pub struct Ran {
    sink: MemSink,
    status: u8,
    has_failed: bool,
    went_on: bool,
}

impl Ran {
    /// Whether a call on the devices failed.
    pub fn has_failed(&self) -> bool {
        self.has_failed
    }

    /// Whether it wrote this text and ended with this status, and made no call behind one that failed.
    pub fn is(&self, text: &[u8], status: u8) -> bool {
        self.sink.bytes() == text && self.status == status && !self.went_on
    }

    /// Whether it wrote a prefix of this text and ended with this status, and made no call behind one that failed.
    pub fn is_cut(&self, text: &[u8], status: u8) -> bool {
        text.starts_with(self.sink.bytes()) && self.status == status && !self.went_on
    }
}

fn words_of(alloc: Global, text: &str) -> Result<Vec<String>, AllocError> {
    let mut words = Vec::new(alloc);
    for word in text.split(' ') {
        words.push(String::from_str(alloc, word)?)?;
    }
    Ok(words)
}

fn files_of(alloc: Global, row: &Row) -> Result<Vec<(String, Vec<u8>)>, AllocError> {
    let mut files = Vec::new(alloc);
    for (name, bytes) in [("a.asl", row.program), ("w", row.list)] {
        files.push((String::from_str(alloc, name)?, bytes.to_vec(alloc)?))?;
    }
    Ok(files)
}

/// Runs a command line over devices that may fail.
pub fn run(alloc: Global, row: &Row, devices: &Devices<'_>) -> Result<Ran, AllocError>
    requires { 0 < devices.now.piece }
{
    let words = words_of(alloc, row.words)?;
    let watch = Watch::new();
    let files_fail = devices.files_fail.to_vec(alloc)?;
    let mut files = Watched {
        device: MemFiles::new(files_of(alloc, row)?, devices.piece, files_fail),
        watch: &watch,
    };
    let sink_fails = devices.sink_fails.to_vec(alloc)?;
    let mut out = Watched {
        device: MemSink::new(alloc, row.room, devices.piece, sink_fails)?,
        watch: &watch,
    };
    let status = asl(alloc, words.as_slice(), &mut files, &mut out).code();
    Ok(Ran {
        sink: out.device,
        status,
        has_failed: watch.has_failed(),
        went_on: watch.went_on(),
    })
}

/// Runs a command line over files that never fail and a sink with the row's room.
pub fn run_in_memory(alloc: Global, row: &Row) -> Result<Ran, AllocError> {
    let words = words_of(alloc, row.words)?;
    let (sink, status) = asl_in_memory(alloc, words.as_slice(), files_of(alloc, row)?, row.room)?;
    Ok(Ran {
        sink,
        status: status.code(),
        has_failed: false,
        went_on: false,
    })
}
