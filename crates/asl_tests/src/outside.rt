//! The host's files and its standard output, and files and sinks in memory.
ghost use Rattle.std.specs.Prelude.{◌<◌};

use asl_io::{
    HostFiles, HostSink, MemFiles, MemSink, ReadAnswer, SureFiles, SureSink, put_all, read_file,
};
use std::alloc::{AllocError, Global};
use std::{fs, io};

/// Whether a file gave these bytes, or this reason.
fn is(found: Result<Vec<u8>, ReadAnswer>, want: Result<&[u8], ReadAnswer>) -> bool {
    match found {
        Ok(bytes) => match want {
            Ok(want) => bytes.as_slice() == want,
            Err(_) => false,
        },
        Err(why) => want.err() == Some(why),
    }
}

/// Whether the host gives a file whole, and says which is too long and which isn't there.
fn host_gives(rt: &HostRuntime) -> io::Result<bool> {
    let alloc = rt.alloc();
    let want = vec![in alloc; b'a'; 5000usize]?;
    fs::write(rt, "five_thousand", want.as_slice())?;
    let mut files = HostFiles::new(rt.clone()?);
    let whole = read_file(alloc, &mut files, "five_thousand", 1_048_576);
    let long = read_file(alloc, &mut files, "five_thousand", 4_999);
    let none = read_file(alloc, &mut files, "no_such_file", 10);
    Ok(
        is(whole, Ok(want.as_slice()))
            && is(long, Err(ReadAnswer::TooLong))
            && is(none, Err(ReadAnswer::Fault)),
    )
}

/// Whether the host takes a text. An answer of Ok leaves the count of faults as it was, by the contract.
fn host_takes(rt: &HostRuntime) -> io::Result<bool> {
    let mut sink = HostSink::new(rt.clone()?);
    Ok(put_all(&mut sink, b"taken whole\n").is_ok())
}

fn one_file(alloc: Global, name: &str, bytes: &[u8]) -> Result<Vec<(String, Vec<u8>)>, AllocError> {
    let mut held = Vec::new(alloc);
    held.push((String::from_str(alloc, name)?, bytes.to_vec(alloc)?))?;
    Ok(held)
}

/// Whether memory gives a file in pieces, and says which is too long and which isn't there.
fn memory_gives(alloc: Global, piece: usize) -> Result<bool, AllocError>
    requires { 0 < piece }
{
    let held = one_file(alloc, "a", b"hello")?;
    let mut files = MemFiles::new(held, piece, Vec::new(alloc));
    let whole = read_file(alloc, &mut files, "a", 5);
    let long = read_file(alloc, &mut files, "a", 4);
    let none = read_file(alloc, &mut files, "b", 4);
    let held = one_file(alloc, "a", b"hello")?;
    let sure = read_file(alloc, &mut SureFiles::new(held), "a", 5);
    Ok(
        is(whole, Ok(b"hello"))
            && is(long, Err(ReadAnswer::TooLong))
            && is(none, Err(ReadAnswer::Fault))
            && is(sure, Ok(b"hello")),
    )
}

/// Whether memory takes a text in pieces, and no more than it has room for.
fn memory_takes(alloc: Global) -> Result<bool, AllocError> {
    let mut sink = MemSink::new(alloc, 5, 2, Vec::new(alloc))?;
    let whole = put_all(&mut sink, b"hello").is_ok();
    let more = put_all(&mut sink, b"!").is_ok();
    let sure = put_all(&mut SureSink::new(), b"hello").is_ok();
    Ok(whole && !more && sure && sink.bytes() == b"hello".as_slice())
}

#[test]
fn devices_give_and_take(rt: HostRuntime) {
    assert!(rt; matches!(host_gives(&rt), Ok(true)));
    assert!(rt; matches!(host_takes(&rt), Ok(true)));
    for piece in [1usize, 7] {
        assert!(rt; matches!(memory_gives(rt.alloc(), piece), Ok(true)));
    }
    assert!(rt; matches!(memory_takes(rt.alloc()), Ok(true)));
}
