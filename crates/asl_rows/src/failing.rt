//! Command lines over devices that have little room, move small pieces, and fail.
ghost use Rattle.std.specs.Prelude.{◌<◌};

use crate::rows::{Row, rows, two_words};
use crate::running::{Devices, Ran, run, run_in_memory};
use std::alloc::{AllocError, Global};
use std::process::Abort;
use std::test::Fail;

/// More calls than a run makes on either device.
const MOST_CALLS: u64 = 1_000;

/// The device of which a call fails.
#[derive(Clone, Copy, Debug)]
enum Device {
    Files,
    Sink,
}

/// Whether this is what the row wants.
fn is_wanted(row: &Row, ran: Result<Ran, AllocError>) -> bool {
    match ran {
        Ok(ran) => ran.is(row.text, row.status),
        Err(_) => false,
    }
}

/// Whether the row gives what it wants over devices that move one byte at a time.
fn holds_byte_by_byte(alloc: Global, row: &Row) -> bool {
    let devices = Devices {
        piece: 1,
        files_fail: &[],
        sink_fails: row.fails,
    };
    is_wanted(row, run(alloc, row, &devices))
}

/// Whether the row gives what it wants over files that never fail, where its sink fails only once it is full.
fn holds_in_memory(alloc: Global, row: &Row) -> bool {
    !row.fails.is_empty() || is_wanted(row, run_in_memory(alloc, row))
}

#[test]
fn command_lines_over_devices_in_memory(rt: HostRuntime) {
    for row in rows() {
        assert!(rt;
            holds_byte_by_byte(rt.alloc(), row) && holds_in_memory(rt.alloc(), row),
            "{}, which wants status {}",
            row.words,
            row.status
        );
    }
}

/// Runs a command line over devices of which these calls fail.
fn run_failing(
    alloc: Global,
    row: &Row,
    device: Device,
    piece: usize,
    fails: &[u64],
) -> Result<Ran, AllocError>
    requires { 0 < piece }
{
    let (files_fail, sink_fails): (&[u64], &[u64]) = match device {
        Device::Files => (fails, &[]),
        Device::Sink => (&[], fails),
    };
    let devices = Devices {
        piece,
        files_fail,
        sink_fails,
    };
    run(alloc, row, &devices)
}

/// Whether a run of which a call failed wrote nothing, or a prefix of the row's text, with the status of the device.
fn is_cut_short(row: &Row, device: Device, ran: &Ran) -> bool {
    match device {
        Device::Files => ran.is(b"", 5),
        Device::Sink => ran.is_cut(row.text, 6),
    }
}

/// Lets one call after another fail, from the first on, until a run comes to no call that fails: that one gives what the row wants.
fn fail_in_turn(
    rt: &impl Abort,
    alloc: Global,
    row: &Row,
    device: Device,
    piece: usize,
) -> Result<(), AllocError>
    requires { 0 < piece }
{
    for call in 1..=MOST_CALLS {
        let ran = run_failing(alloc, row, device, piece, &[call])?;
        let is_over = !ran.has_failed();
        let holds = if is_over {
            ran.is(row.text, row.status)
        } else {
            is_cut_short(row, device, &ran)
        };
        assert!(rt;
            holds,
            "call {call} of {device:?} fails, in pieces of {piece}"
        );
        if is_over {
            return Ok(());
        }
    }
    assert!(rt; false, "a run makes more calls than {MOST_CALLS}");
    Ok(())
}

#[test]
fn each_call_fails_in_turn(rt: HostRuntime) -> Result<(), Fail> {
    let row = two_words();
    for piece in [1usize, 7] {
        for device in [Device::Files, Device::Sink] {
            fail_in_turn(&rt, rt.alloc(), row, device, piece)?;
        }
    }
    Ok(())
}
