//! Runs in which a call of the source, the sink or the shelf fails, and what the lines before it leave.

use super::super::take::PIECE;
use super::super::top::Status;
use super::{end_of_run, lines_of, no_files, words_of};
use evm_outside::{MemShelf, MemSink, MemSource, Source};
use std::alloc::{AllocError, Global};
use std::str;
use std::test::Fail;

/// A script that edits, saves, loads and asks, and its replies.
const SCRIPT: &str =
    "input a 2 / add a 0 0 2 2 / save a evm f / cut a 0 0 1 1 / load a evm f / content a";

/// A device of a run.
#[derive(Clone, Copy, PartialEq)]
enum Device {
    /// Gives 20 bytes a call.
    Source,
    Sink,
    Shelf,
}

/// The device and its call that fails, what is written of the replies to the script, how the run ends, and whether the file is
/// there.
const FAILING: [(Device, u64, &str, Status, bool); 14] = [
    (Device::Source, 0, "", Status::ReadFault, false),
    (Device::Source, 1, "ok 0\n", Status::ReadFault, false),
    (
        Device::Source,
        2,
        "ok 0\nok 1\nok 44\n",
        Status::ReadFault,
        true,
    ),
    (
        Device::Source,
        3,
        "ok 0\nok 1\nok 44\nok 1\n",
        Status::ReadFault,
        true,
    ),
    // The input has ended with a whole line, but nothing says so.
    (
        Device::Source,
        4,
        "ok 0\nok 1\nok 44\nok 1\nok 1\nok 4\n",
        Status::ReadFault,
        true,
    ),
    (Device::Sink, 0, "", Status::WriteFault, false),
    (Device::Sink, 1, "ok 0\n", Status::WriteFault, false),
    // The line is carried out before its reply is written.
    (Device::Sink, 2, "ok 0\nok 1\n", Status::WriteFault, true),
    (
        Device::Sink,
        3,
        "ok 0\nok 1\nok 44\n",
        Status::WriteFault,
        true,
    ),
    (
        Device::Sink,
        5,
        "ok 0\nok 1\nok 44\nok 1\nok 1\n",
        Status::WriteFault,
        true,
    ),
    (
        Device::Sink,
        6,
        "ok 0\nok 1\nok 44\nok 1\nok 1\nok 4\n",
        Status::Done,
        true,
    ),
    (
        Device::Shelf,
        0,
        "ok 0\nok 1\nno shelf\nok 1\nno missing\nok 3\n",
        Status::Refused,
        false,
    ),
    (
        Device::Shelf,
        1,
        "ok 0\nok 1\nok 44\nok 1\nno shelf\nok 3\n",
        Status::Refused,
        true,
    ),
    (
        Device::Shelf,
        2,
        "ok 0\nok 1\nok 44\nok 1\nok 1\nok 4\n",
        Status::Done,
        true,
    ),
];

/// The calls of a device that fail: this one, where the device is the one that fails, and else none.
fn failing(
    alloc: Global,
    device: Device,
    wanted: Device,
    number: u64,
) -> Result<Vec<u64>, AllocError> {
    let mut failing = Vec::new(alloc);
    if device == wanted {
        failing.push(number)?;
    }
    Ok(failing)
}

#[test]
fn each_call_that_fails_leaves_the_lines_before_it(rt: HostRuntime) -> Result<(), Fail> {
    let alloc = rt.alloc();
    let words = words_of(alloc, &["evm", "run"])?;
    for (device, number, replies, end, is_saved) in FAILING {
        let script = lines_of(alloc, SCRIPT)?.into_bytes();
        let source = failing(alloc, device, Device::Source, number)?;
        let mut input = MemSource::new(script, 20, source);
        let sink = failing(alloc, device, Device::Sink, number)?;
        let mut output = MemSink::new(alloc, 64, sink)?;
        let mut shelf = MemShelf::new(alloc, failing(alloc, device, Device::Shelf, number)?);
        let status = end_of_run(alloc, words.as_slice(), &mut input, &mut output, &mut shelf)?;
        assert_eq!(rt;
            str::from_utf8(output.bytes()),
            Ok(replies),
            "at {replies:?}"
        );
        assert_eq!(rt; status, end, "at {replies:?}");
        assert_eq!(rt; shelf.get(b"f").is_some(), is_saved, "at {replies:?}");
    }
    Ok(())
}

#[test]
fn no_more_than_a_piece_is_read_past_a_line(rt: HostRuntime) -> Result<(), Fail> {
    let alloc = rt.alloc();
    let words = words_of(alloc, &["evm", "run"])?;
    let mut script = lines_of(alloc, "input a 2")?.into_bytes();
    let blank = vec![in alloc; b'\n'; 200_000]?;
    script.extend_from_slice(blank.as_slice())?;
    let mut input = MemSource::new(script, 1_000_000, Vec::new(alloc));
    let mut output = MemSink::new(alloc, 64, vec![in alloc; 0u64]?)?;
    let mut shelf = no_files(alloc);
    let status = end_of_run(alloc, words.as_slice(), &mut input, &mut output, &mut shelf)?;
    assert_eq!(rt; status, Status::WriteFault);
    assert_eq!(rt; output.bytes().len(), 0);
    let mut rest = vec![in alloc; 0u8; 200_000]?;
    let left = input.read(rest.as_mut_slice()).unwrap_or(0);
    assert_eq!(rt; left >= 134_464, true, "at {left}");
    Ok(())
}
