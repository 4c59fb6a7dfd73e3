//! Grammars and inputs that are a byte too long, and such as are just not.
use crate::devices::{CANNOT_READ, Case, all_break};
use crate::runs::ends;
use crate::suppliers::SEMICOLONS;
use run_scenes::{
    CHECKED, COMPARED, Device, EXPECTED, Given, REPORTED, SCRIPTED, SUM, SUMS, TREES,
};
use std::alloc::{AllocError, Global};
use std::test::Fail;

const LONGEST_GRAMMAR: usize = 1_048_576;

const LONGEST_INPUT: usize = 16_777_216;

// Of job `slip`.
const LONGEST_GIVEN: usize = 1_048_576;

const LONG_GRAMMAR: &[u8] = b"slif: grammar: longer than 1048576 bytes\n";

const LONG_INPUT: &[u8] = b"slif: input is longer than 16777216 bytes\n";

const LONG_GIVEN: &[u8] = b"slif: input is longer than 1048576 bytes\n";

const CHECKED_SUMS: &[u8] = b"accepted: 2 rules, 2 lexemes, 0 discards\nE\n";

const STOPPED: &[u8] = b"slif: input stopped at line 1 column 1; found: none; expected: N\n";

// Files, and an input that is read as they are, give 4,096 bytes at once; a grammar's file is opened first.
const GIVES: usize = 4096;

// Whether a call of a device that fails ends the run with a line.
fn breaks(
    alloc: Global,
    given: &Given<'_>,
    device: Device,
    call: u64,
    line: &[u8],
) -> Result<bool, AllocError> {
    let calls = [call];
    ends(alloc, &given.failing(device, &calls), 4, b"", line)
}

// Whether a run is refused with a line, of which each write fails in turn.
fn is_refused(
    alloc: Global,
    given: &Given<'_>,
    status: u8,
    line: &[u8],
) -> Result<bool, AllocError> {
    let case = Case {
        given: *given,
        status,
        out: b"",
        err: line,
        files: 0,
        input: 0,
    };
    all_break(alloc, &case, Device::Err)
}

// Whether a run is refused for a grammar that is read 257 times, and no more.
fn refuses_grammar(alloc: Global, given: &Given<'_>) -> Result<bool, AllocError> {
    let calls = [259];
    let whole = given.failing(Device::Files, &calls);
    Ok(
        is_refused(alloc, given, 3, LONG_GRAMMAR)?
            && breaks(alloc, given, Device::Files, 2, CANNOT_READ)?
            && breaks(alloc, given, Device::Files, 258, CANNOT_READ)?
            && ends(alloc, &whole, 3, b"", LONG_GRAMMAR)?,
    )
}

// Whether each job refuses a grammar that is a byte too long, whatever it is.
fn refuse_grammar(alloc: Global, grammar: &[u8]) -> Result<bool, AllocError> {
    for job in &[CHECKED, SUM, EXPECTED, REPORTED, COMPARED] {
        let given = Given { grammar, ..*job };
        if !refuses_grammar(alloc, &given)? {
            return Ok(false);
        }
    }
    Ok(true)
}

// A grammar, and then a comment.
fn padded(alloc: Global, text: &[u8], length: usize) -> Result<Vec<u8>, AllocError> {
    let mut grammar = text.to_vec(alloc)?;
    grammar.resize(length, b'#')?;
    Ok(grammar)
}

#[test]
fn a_grammar_is_too_long(rt: HostRuntime) -> Result<(), Fail> {
    let alloc = rt.alloc();
    let grammar = padded(alloc, SUMS, LONGEST_GRAMMAR + 1)?;
    assert!(rt; refuse_grammar(alloc, &grammar)?);
    Ok(())
}

#[test]
fn a_grammar_is_as_long_as_it_may_be(rt: HostRuntime) -> Result<(), Fail> {
    let alloc = rt.alloc();
    let grammar = padded(alloc, SUMS, LONGEST_GRAMMAR)?;
    let given = Given {
        grammar: &grammar,
        ..CHECKED
    };
    assert!(rt; ends(alloc, &given, 0, CHECKED_SUMS, b"")?);
    Ok(())
}

// Jobs whose input is a file.
static FILED: [Given<'static>; 4] = [
    Given {
        words: &["run", "--grammar", "g.slif", "--input", "i.txt"],
        ..SUM
    },
    Given {
        words: &["expect", "--grammar", "g.slif", "--input", "i.txt"],
        ..SUM
    },
    Given {
        words: &["progress", "--at=0", "--grammar=g.slif", "--input=i.txt"],
        ..SUM
    },
    Given {
        words: &["glades", "--grammar=g.slif", "--input=i.txt"],
        ..SUM
    },
];

// Whether a run is refused for an input that is read 4,097 times after so many calls, and no more.
fn refuses_input(
    alloc: Global,
    given: &Given<'_>,
    device: Device,
    before: u8,
) -> Result<bool, AllocError> {
    let before = u64::from(before);
    let calls = [before + 4098];
    let whole = given.failing(device, &calls);
    Ok(
        is_refused(alloc, given, 1, LONG_INPUT)?
            && breaks(alloc, given, device, before + 1, CANNOT_READ)?
            && breaks(alloc, given, device, before + 4097, CANNOT_READ)?
            && ends(alloc, &whole, 1, b"", LONG_INPUT)?,
    )
}

// Whether each job refuses an input that is a byte too long.
fn refuse_input(alloc: Global, input: &[u8]) -> Result<bool, AllocError> {
    for job in &[SUM, TREES, EXPECTED, REPORTED, COMPARED, SCRIPTED] {
        let given = Given {
            input,
            gives: GIVES,
            ..*job
        };
        if !refuses_input(alloc, &given, Device::Input, 0)? {
            return Ok(false);
        }
    }
    Ok(true)
}

// Whether each job refuses a file that is a byte too long. The grammar's has three calls, and this one is opened.
fn refuse_file(alloc: Global, file: &[u8]) -> Result<bool, AllocError> {
    for job in &FILED {
        let given = Given { file, ..*job };
        if !refuses_input(alloc, &given, Device::Files, 4)? {
            return Ok(false);
        }
    }
    Ok(true)
}

const FILED_SCRIPT: Given<'static> = Given {
    words: &["script", "--input=i.txt"],
    ..SCRIPTED
};

// Whether job `script`, which opens no other file, refuses one that is a byte too long.
fn refuse_script(alloc: Global, file: &[u8]) -> Result<bool, AllocError> {
    let given = Given {
        file,
        ..FILED_SCRIPT
    };
    refuses_input(alloc, &given, Device::Files, 1)
}

fn letters(alloc: Global, count: usize) -> Result<Vec<u8>, AllocError> {
    let mut text = Vec::new(alloc);
    text.resize(count, b'x')?;
    Ok(text)
}

#[test]
fn an_input_is_too_long(rt: HostRuntime) -> Result<(), Fail> {
    let alloc = rt.alloc();
    let input = letters(alloc, LONGEST_INPUT + 1)?;
    assert!(rt; refuse_input(alloc, &input)?);
    Ok(())
}

#[test]
fn a_file_is_too_long(rt: HostRuntime) -> Result<(), Fail> {
    let alloc = rt.alloc();
    let file = letters(alloc, LONGEST_INPUT + 1)?;
    assert!(rt; refuse_file(alloc, &file)?);
    assert!(rt; refuse_script(alloc, &file)?);
    Ok(())
}

#[test]
fn an_input_is_as_long_as_it_may_be(rt: HostRuntime) -> Result<(), Fail> {
    let alloc = rt.alloc();
    let input = letters(alloc, LONGEST_INPUT)?;
    let given = Given {
        input: &input,
        gives: GIVES,
        ..SUM
    };
    assert!(rt; ends(alloc, &given, 1, b"", STOPPED)?);
    Ok(())
}

#[test]
fn a_script_is_as_long_as_it_may_be(rt: HostRuntime) -> Result<(), Fail> {
    let alloc = rt.alloc();
    let input = letters(alloc, LONGEST_INPUT)?;
    let given = Given {
        input: &input,
        gives: GIVES,
        ..SCRIPTED
    };
    assert!(rt; ends(alloc, &given, 0, b"bad line\n", b"")?);
    Ok(())
}

// Whether job `slip` ends so over an input.
fn supplied_ends(alloc: Global, input: &[u8], line: &[u8]) -> Result<bool, AllocError> {
    let given = Given {
        input,
        gives: GIVES,
        ..SEMICOLONS
    };
    ends(alloc, &given, 1, b"", line)
}

#[test]
fn an_input_with_lexemes_given_is_too_long(rt: HostRuntime) -> Result<(), Fail> {
    let alloc = rt.alloc();
    let long = letters(alloc, LONGEST_GIVEN + 1)?;
    assert!(rt; supplied_ends(alloc, &long, LONG_GIVEN)?);
    let longest = letters(alloc, LONGEST_GIVEN)?;
    assert!(rt; supplied_ends(alloc, &longest, STOPPED)?);
    Ok(())
}
