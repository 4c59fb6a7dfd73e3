//! The outside fails at each call in turn.
use crate::devices::{CANNOT_READ, CANNOT_WRITE, Case, all_break, line_breaks};
use crate::runs::{ends, run_of};
use crate::suppliers::{SEMICOLON_LINES, SEMICOLONS};
use run_scenes::{
    CHECKED, CHECKED_LINES, COMPARED, COMPARED_LINES, COUNTED, COUNTED_LINES, Device, EXPECTED,
    EXPECTED_LINES, Given, REPORTED, REPORTED_LINES, SCRIPT, SCRIPTED, SCRIPTED_LINES, SUM,
    SUM_LINES, TREE_LINES, TREES, WORKED, WORKED_LINES,
};
use std::alloc::{AllocError, Global};
use std::test::Fail;

// The sum, what is expected and the report, with their inputs in a file.
const NAMED_SUM: Given<'static> = Given {
    words: &["run", "--grammar", "g.slif", "--input", "i.txt"],
    file: b"1+2+3",
    ..SUM
};

const NAMED_EXPECTED: Given<'static> = Given {
    words: &["expect", "--grammar", "g.slif", "--input", "i.txt"],
    ..EXPECTED
};

const NAMED_REPORTED: Given<'static> = Given {
    words: &["progress", "--at=2", "--grammar=g.slif", "--input=i.txt"],
    ..REPORTED
};

const NAMED_COMPARED: Given<'static> = Given {
    words: &["glades", "--grammar=g.slif", "--input=i.txt"],
    file: b"1+2+3",
    ..COMPARED
};

// A script in the only file that it needs.
const NAMED_SCRIPTED: Given<'static> = Given {
    words: &["script", "--input=g.slif"],
    grammar: SCRIPT,
    input: b"",
    ..SCRIPTED
};

// Runs that end well, what they tell, and how many calls the files and the input get: a file three, an input one for two bytes (of a
// script eight) and one that finds nothing.
type Job = (Given<'static>, &'static [u8], u8, u8);

static JOBS: [Job; 15] = [
    (SUM, SUM_LINES, 3, 4),
    (COUNTED, COUNTED_LINES, 3, 4),
    (TREES, TREE_LINES, 3, 4),
    (CHECKED, CHECKED_LINES, 3, 0),
    (EXPECTED, EXPECTED_LINES, 3, 2),
    (REPORTED, REPORTED_LINES, 3, 2),
    (WORKED, WORKED_LINES, 0, 0),
    (NAMED_SUM, SUM_LINES, 6, 0),
    (NAMED_EXPECTED, EXPECTED_LINES, 6, 0),
    (NAMED_REPORTED, REPORTED_LINES, 6, 0),
    (COMPARED, COMPARED_LINES, 3, 4),
    (NAMED_COMPARED, COMPARED_LINES, 6, 0),
    (SCRIPTED, SCRIPTED_LINES, 0, 18),
    (NAMED_SCRIPTED, SCRIPTED_LINES, 3, 0),
    (SEMICOLONS, SEMICOLON_LINES, 3, 3),
];

// Whether each call of a device fails as it should in a job.
fn job_breaks(alloc: Global, job: &Job, device: Device) -> Result<bool, AllocError> {
    let (given, out, files, input) = job;
    let case = Case {
        given: *given,
        status: 0,
        out,
        err: b"",
        files: *files,
        input: *input,
    };
    all_break(alloc, &case, device)
}

// Whether each call of a device fails as it should in each job.
fn fail_in_turn(alloc: Global, device: Device) -> Result<bool, AllocError> {
    for job in &JOBS {
        if !job_breaks(alloc, job, device)? {
            return Ok(false);
        }
    }
    Ok(true)
}

#[test]
fn writes_of_each_job_fail_in_turn(rt: HostRuntime) -> Result<(), Fail> {
    assert!(rt; fail_in_turn(rt.alloc(), Device::Out)?);
    Ok(())
}

#[test]
fn reads_of_the_input_fail_in_turn(rt: HostRuntime) -> Result<(), Fail> {
    assert!(rt; fail_in_turn(rt.alloc(), Device::Input)?);
    Ok(())
}

#[test]
fn calls_on_files_fail_in_turn(rt: HostRuntime) -> Result<(), Fail> {
    assert!(rt; fail_in_turn(rt.alloc(), Device::Files)?);
    Ok(())
}

#[test]
fn no_line_is_told_of_a_run_that_ends_well(rt: HostRuntime) -> Result<(), Fail> {
    assert!(rt; fail_in_turn(rt.alloc(), Device::Err)?);
    Ok(())
}

// Of the sixty bytes of the sum each call before the one that fails writes ten.
fn writes_tens(alloc: Global, before: u8) -> Result<bool, AllocError> {
    let calls = [u64::from(before) + 1];
    let end = run_of(alloc, &SUM.failing(Device::Out, &calls))?;
    let tens = end.out().len() == 10 * usize::from(before);
    Ok(tens && end.is(4, end.out(), CANNOT_WRITE) && SUM_LINES.starts_with(end.out()))
}

#[test]
fn a_failed_write_is_not_tried_again(rt: HostRuntime) -> Result<(), Fail> {
    for before in 0..6 {
        assert!(rt; writes_tens(rt.alloc(), before)?);
    }
    let whole = SUM.failing(Device::Out, &[7]);
    assert!(rt; ends(rt.alloc(), &whole, 0, SUM_LINES, b"")?);
    Ok(())
}

const NO_GRAMMAR: Given<'static> = Given {
    words: &["run"],
    ..SUM
};

const NOT_OPENED: Given<'static> = Given {
    files_fail: &[1],
    ..SUM
};

// Runs, the calls on the standard error that fail, and what stands there.
static ERR_ROWS: [(Given<'static>, &[u64], &[u8]); 5] = [
    (NO_GRAMMAR, &[1], CANNOT_WRITE),
    (NO_GRAMMAR, &[2], b"slif: usagslif: write fault\n"),
    (NO_GRAMMAR, &[1, 2], b""),
    (NO_GRAMMAR, &[1, 3], b"slif: writ"),
    (NOT_OPENED, &[2], b"slif: cann"),
];

// Whether the line of a refusal fails as it should.
fn refusals_fail(alloc: Global) -> Result<bool, AllocError> {
    for (given, calls, told) in &ERR_ROWS {
        let broken = given.failing(Device::Err, calls);
        if !ends(alloc, &broken, 4, b"", told)? {
            return Ok(false);
        }
    }
    Ok(true)
}

#[test]
fn the_line_of_a_refusal_fails_in_turn(rt: HostRuntime) -> Result<(), Fail> {
    assert!(rt; refusals_fail(rt.alloc())?);
    Ok(())
}

// Runs of which the first call of a device fails, and the line that tells it.
static FAULT_ROWS: [(Given<'static>, Device, &[u8]); 12] = [
    (SUM, Device::Files, b"slif: cannot open g.slif\n"),
    (SUM, Device::Input, CANNOT_READ),
    (SUM, Device::Out, CANNOT_WRITE),
    (CHECKED, Device::Out, CANNOT_WRITE),
    (EXPECTED, Device::Input, CANNOT_READ),
    (EXPECTED, Device::Out, CANNOT_WRITE),
    (REPORTED, Device::Out, CANNOT_WRITE),
    (WORKED, Device::Out, CANNOT_WRITE),
    (COMPARED, Device::Input, CANNOT_READ),
    (COMPARED, Device::Out, CANNOT_WRITE),
    (SCRIPTED, Device::Input, CANNOT_READ),
    (SCRIPTED, Device::Out, CANNOT_WRITE),
];

// Whether the line of a fault fails as it should.
fn faults_fail(alloc: Global) -> Result<bool, AllocError> {
    for (given, device, line) in &FAULT_ROWS {
        let broken = given.failing(*device, &[1]);
        if !line_breaks(alloc, &broken, line)? {
            return Ok(false);
        }
    }
    Ok(true)
}

#[test]
fn the_line_of_a_fault_fails_in_turn(rt: HostRuntime) -> Result<(), Fail> {
    assert!(rt; faults_fail(rt.alloc())?);
    Ok(())
}
