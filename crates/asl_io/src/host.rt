//! The host's files and its standard output. Contracts know nothing of their bytes.
ghost use Rattle.std.specs.Prelude.{◌≡◌, None, false};
ghost use Rattle.std.proofs.Math.Path.{refl};

use crate::files::{FileFault, Files};
use crate::sink::{Sink, SinkFault};
use std::fs::File;
use std::io::{Read, Write};
use std::{fs, io};

/// The host's files.
#[derive(Drop)]
pub struct HostFiles {
    rt: HostRuntime,
    file: Option<File>,
    faults: u64,
}

impl HostFiles {
    /// The host's files, with none of them open.
    pub fn new(rt: HostRuntime) -> HostFiles
        ensures { ⟦<HostFiles as Files>⟧.faults result ≡ 0 }
    {
        HostFiles {
            rt,
            file: None,
            faults: 0,
        }
    }
}

impl Files for HostFiles {
    ghost held = { λ _. None };

    ghost left = { λ _. None };

    ghost faults = { λ s. s.faults };

    ghost steady = { λ _. false };

    ghost sure = { λ _ _. false };

    ghost told = { λ _. refl };

    fn open(&mut self, name: &str) -> Result<(), FileFault> {
        self.file = None;
        match fs::open(&self.rt, name) {
            Ok(file) => {
                self.file = Some(file);
                Ok(())
            }
            Err(_) => {
                self.faults = self.faults.saturating_add(1);
                Err(FileFault)
            }
        }
    }

    fn next(&mut self, buf: &mut [u8]) -> Result<usize, FileFault> {
        let Some(file) = &mut self.file else {
            return Ok(0);
        };
        match file.read(buf) {
            Ok(n) => Ok(n),
            Err(_) => {
                self.faults = self.faults.saturating_add(1);
                Err(FileFault)
            }
        }
    }
}

/// The host's standard output.
#[derive(Drop)]
pub struct HostSink {
    rt: HostRuntime,
    faults: u64,
}

impl HostSink {
    /// The host's standard output.
    pub fn new(rt: HostRuntime) -> HostSink
        ensures { ⟦<HostSink as Sink>⟧.faults result ≡ 0 }
    {
        HostSink { rt, faults: 0 }
    }
}

impl Sink for HostSink {
    ghost use Rattle.asl_io.specs.private.Filled.{no_room};

    ghost written = { λ _. None };

    ghost faults = { λ s. s.faults };

    ghost full = { λ _. None };

    ghost filled = { λ _ room _ full _ _. no_room _ room full };

    fn write(&mut self, bytes: &[u8]) -> Result<usize, SinkFault> {
        match io::writer(&self.rt).write(bytes) {
            Ok(n) if n > 0 || bytes.is_empty() => Ok(n),
            _ => {
                self.faults = self.faults.saturating_add(1);
                Err(SinkFault)
            }
        }
    }
}
