//! Each call of each device fails in turn. The streams take ten bytes at once, and each line is written by itself.
ghost use Rattle.std.specs.Prelude.{◌≤◌, length};

use crate::runs::{ends, run_of};
use run_scenes::{Device, Ended, Given};
use std::alloc::{AllocError, Global};

pub(crate) const CANNOT_READ: &[u8] = b"slif: read fault\n";

pub(crate) const CANNOT_WRITE: &[u8] = b"slif: write fault\n";

/// A run whose devices do not fail: how it ends, and how many calls the files and the input get.
#[derive(Clone, Copy)]
pub(crate) struct Case<'a> {
    pub given: Given<'a>,
    pub status: u8,
    pub out: &'a [u8],
    pub err: &'a [u8],
    pub files: u8,
    pub input: u8,
}

// How many bytes the next write takes.
fn write_len(text: &[u8]) -> usize
    ensures { result ≤ length text.now }
{
    let most = text.len().min(10);
    for k in 0..most {
        if text[k] == b'\n' {
            return k + 1;
        }
    }
    most
}

// What is left of lines after so many writes.
fn left_behind(lines: &[u8], writes: u8) -> &[u8] {
    let mut left = lines;
    for _ in 0..writes {
        left = &left[write_len(left)..];
    }
    left
}

// How many writes lines take.
fn writes_of(lines: &[u8]) -> u8 {
    for writes in 0..99 {
        if left_behind(lines, writes).is_empty() {
            return writes;
        }
    }
    99
}

// Whether a text is what so many writes write of lines, and then another line.
fn is_cut(text: &[u8], lines: &[u8], writes: u8, behind: &[u8]) -> bool {
    let Some(prefix) = text.strip_suffix(behind) else {
        return false;
    };
    match lines.strip_prefix(prefix) {
        Some(left) => left == left_behind(lines, writes),
        None => false,
    }
}

// The line of a call on the files that fails: each file is opened and then read twice, the grammar first.
fn files_line(before: u8) -> &'static [u8] {
    match before {
        0 => b"slif: cannot open g.slif\n",
        3 => b"slif: cannot open i.txt\n",
        _ => CANNOT_READ,
    }
}

// Whether a run ends as it should where the call after so many of a device fails. A line that cannot be written is told, unless it tells a fault.
fn is_broken(case: &Case<'_>, device: Device, before: u8, end: &Ended) -> bool {
    let told: &[u8] = if case.status == 4 { b"" } else { CANNOT_WRITE };
    match device {
        Device::Files => end.is(4, b"", files_line(before)),
        Device::Input => end.is(4, b"", CANNOT_READ),
        Device::Out => {
            end.is(4, end.out(), CANNOT_WRITE) && is_cut(end.out(), case.out, before, b"")
        }
        Device::Err => {
            end.is(4, case.out, end.err()) && is_cut(end.err(), case.err, before, told)
        }
    }
}

// Whether the call after so many fails as it should.
fn breaks(alloc: Global, case: &Case<'_>, device: Device, before: u8) -> Result<bool, AllocError> {
    let calls = [u64::from(before) + 1];
    let end = run_of(alloc, &case.given.failing(device, &calls))?;
    Ok(is_broken(case, device, before, &end))
}

// Whether the run is whole where the call after so many would fail.
fn is_whole(
    alloc: Global,
    case: &Case<'_>,
    device: Device,
    before: u8,
) -> Result<bool, AllocError> {
    let calls = [u64::from(before) + 1];
    let given = case.given.failing(device, &calls);
    ends(alloc, &given, case.status, case.out, case.err)
}

// How many calls a device gets.
fn calls_of(case: &Case<'_>, device: Device) -> u8 {
    match device {
        Device::Files => case.files,
        Device::Input => case.input,
        Device::Out => writes_of(case.out),
        Device::Err => writes_of(case.err),
    }
}

/// Whether each call of a device fails as it should, and no more calls are made.
pub(crate) fn all_break(
    alloc: Global,
    case: &Case<'_>,
    device: Device,
) -> Result<bool, AllocError> {
    let calls = calls_of(case, device);
    for before in 0..calls {
        if !breaks(alloc, case, device, before)? {
            return Ok(false);
        }
    }
    is_whole(alloc, case, device, calls)
}

/// Whether a run ends so, and each call that fails ends it as it should.
pub(crate) fn fails_in_turn(alloc: Global, case: &Case<'_>) -> Result<bool, AllocError> {
    for device in [Device::Files, Device::Input, Device::Out, Device::Err] {
        if !all_break(alloc, case, device)? {
            return Ok(false);
        }
    }
    Ok(true)
}

/// Whether, where a call fails, so does each write of the line that tells it.
pub(crate) fn line_breaks(
    alloc: Global,
    given: &Given<'_>,
    line: &[u8],
) -> Result<bool, AllocError> {
    let case = Case {
        given: *given,
        status: 4,
        out: b"",
        err: line,
        files: 0,
        input: 0,
    };
    all_break(alloc, &case, Device::Err)
}
