//! Checks and runs programs of ASL1, the architecture specification language.
#![tactic(auto)]

use asl_cmd::{Status, asl};
use asl_io::{HostFiles, HostSink};
use std::io;
use std::process::ExitCode;

/// The words of the command line. One that is no text makes the line no command, so none is given then.
fn words_of(rt: &HostRuntime) -> io::Result<Vec<String>> {
    match std::env::args(rt) {
        Ok(words) => Ok(words.collect(rt.alloc())?),
        Err(error) if error.kind() == io::ErrorKind::InvalidData => Ok(Vec::new(rt.alloc())),
        Err(error) => Err(error),
    }
}

/// Runs the program over the host's files and its standard output.
fn run_host(rt: &HostRuntime) -> io::Result<Status> {
    let words = words_of(rt)?;
    let mut files = HostFiles::new(rt.clone()?);
    let mut out = HostSink::new(rt.clone()?);
    Ok(asl(rt.alloc(), words.as_slice(), &mut files, &mut out))
}

fn main(rt: HostRuntime) -> ExitCode {
    let status = run_host(&rt).unwrap_or(Status::NoMemory);
    ExitCode::from(status.code())
}
