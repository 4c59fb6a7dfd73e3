//! Whole scripts and their answers, from an independent implementation of the definition or by hand from it.
ghost use Rattle.std.specs.Prelude.{◌≡◌, ◌<◌};

use marpa_script::{ScriptRefusal, play_script};
use slif_base::{MemSink, Steps, chars_of};
use std::alloc::{AllocError, Global};
use std::marker::Brand;
use std::sync::ledger::{Blank, Ledger};
use std::test::Fail;

// A script, and the answers to its lines.
type Case = (&'static str, &'static str);

const CASES: &[Case] = &[
    // fewer or more words than a command has
    (
        "symbol\nrule\nsequence\nstart\nprecompute x\nalternative\ncomplete x\nexpected x\nreport\ntrees\n",
        "bad line\nbad line\nbad line\nbad line\nbad line\nbad line\nbad line\nbad line\nbad line\nbad line\n",
    ),
    // words of nothing
    (
        " symbol a\nsymbol  a\nsymbol a \nsymbol a b\n symbol\n \n  \n",
        "bad line\nbad line\nbad line\nbad line\nbad line\nbad line\nbad line\n",
    ),
    // a symbol again
    (
        "symbol a\nsymbol b\nsymbol a\nsymbol symbol\nsymbol symbol\n",
        "symbol 0\nsymbol 1\nsymbol 0\nsymbol 2\nsymbol 2\n",
    ),
    // lines of the other phase
    (
        "alternative a 1\ncomplete\nexpected\nreport 0\ntrees 1\nsymbol S\nrule S\nstart S\nstart S\nstart Z\nprecompute\nprecompute\nsymbol x\nrule S S\nstart S\nsequence S S star\nfrob\nsymbol\ncomplete\ntrees 3\nexpected\nreport 0\nreport 1\nreport 2\n",
        "not now\nnot now\nnot now\nnot now\nnot now\nsymbol 0\nrule 0\nstart\nsecond start\nbad name\nready\nnot now\nnot now\nnot now\nnot now\nnot now\nbad line\nbad line\nplace 1\ntrees 0\nnone\nreported 0\nreported 0\nno set 2\n",
    ),
    // what a sequence may say
    (
        "symbol S\nsymbol a\nsymbol c\nsymbol by\nsymbol proper\nsequence S a\nsequence S a maybe\nsequence S a star by\nsequence S a star c\nsequence S a star proper\nsequence S a star by proper\nsequence S a plus by c proper x\nsequence S a plus by c x\nsequence S a plus by by proper\nsequence Z a plus\nsequence S Z plus\nsequence S a plus by Z\nsequence S a plus by Z proper\nstart S\nprecompute\n",
        "symbol 0\nsymbol 1\nsymbol 2\nsymbol 3\nsymbol 4\nbad line\nbad line\nbad line\nbad line\nbad line\nrule 0\nbad line\nbad line\nrule 1\nbad name\nbad name\nbad name\nbad name\nstart\nS is a sequence and has another rule\n",
    ),
    // lists, token by token
    (
        "symbol S\nsymbol a\nsymbol c\nsequence S a plus by c\nstart S\nprecompute\nexpected\nalternative a 1\nexpected\ncomplete\nexpected\nalternative c 1\ncomplete\nalternative a 1\ntrees 2\ncomplete\ntrees 9\nreport 0\nreport 1\nreport 2\nreport 3\n",
        "symbol 0\nsymbol 1\nsymbol 2\nrule 0\nstart\nready\na\ntaken\na\nplace 1\nc\ntaken\nplace 2\ntaken\n[\"S\",0,[\"a\",0,1],[\"c\",1,2]]\ntrees 1\nplace 3\n[\"S\",0,[\"a\",0,1],[\"c\",1,2],[\"a\",2,3]]\ntrees 1\n0:0 @0-0 S\nreported 1\n0:1 @0-1 S\nreported 1\n0:2 @0-2 S\nreported 1\n0:1 @0-3 S\nreported 1\n",
    ),
    // a place where nothing is expected
    (
        "symbol S\nsymbol a\nrule S a S\nrule S a\nstart S\nprecompute\ncomplete\nexpected\nalternative a 1\ntrees 1\nreport 1\ncomplete\nreport 2\n",
        "symbol 0\nsymbol 1\nrule 0\nrule 1\nstart\nready\nplace 1\nnone\nunexpected\ntrees 0\nreported 0\nplace 2\nreported 0\n",
    ),
    // tokens of several lengths
    (
        "symbol S\nsymbol a\nrule S a S\nrule S a\nstart S\nprecompute\nalternative a 2\ncomplete\nexpected\ntrees 1\nalternative a 1\ncomplete\ntrees 1\nexpected\nreport 2\nalternative a 5\nalternative a 5\nalternative a 4\nexpected\ntrees 2\ncomplete\ntrees 2\ncomplete\ncomplete\ncomplete\ntrees 2\ncomplete\ntrees 2\n",
        "symbol 0\nsymbol 1\nrule 0\nrule 1\nstart\nready\ntaken\nplace 1\nnone\ntrees 0\nunexpected\nplace 2\n[\"S\",1,[\"a\",0,2]]\ntrees 1\na\n0:0 @2-2 S\n0:1 @0-2 S\n1:0 @2-2 S\n1:1 @0-2 S\nreported 4\ntaken\nduplicate\ntaken\na\n[\"S\",1,[\"a\",0,2]]\ntrees 1\nplace 3\ntrees 0\nplace 4\nplace 5\nplace 6\n[\"S\",0,[\"a\",0,2],[\"S\",1,[\"a\",2,6]]]\ntrees 1\nplace 7\n[\"S\",0,[\"a\",0,2],[\"S\",1,[\"a\",2,7]]]\ntrees 1\n",
    ),
    // a token that is no terminal
    (
        "symbol S\nsymbol A\nsymbol a\nrule S A\nrule A a\nstart S\nprecompute\nalternative S 1\nalternative A 1\nalternative a 1\nalternative Z 1\nalternative Z 0\n",
        "symbol 0\nsymbol 1\nsymbol 2\nrule 0\nrule 1\nstart\nready\nunexpected\nunexpected\ntaken\nbad name\nbad name\n",
    ),
    (
        "precompute\nsymbol a\nprecompute\nsymbol S\nrule S a\nprecompute\nstart a\nprecompute\n",
        "no rules\nsymbol 0\nno rules\nsymbol 1\nrule 0\nno start symbol\nstart\nstart symbol a has no rule\n",
    ),
    (
        "symbol S\nsymbol a\nrule S a\nrule S a\nstart S\nprecompute\n",
        "symbol 0\nsymbol 1\nrule 0\nrule 1\nstart\nrule 1 of S is a duplicate\n",
    ),
    (
        "symbol S\nsymbol a\nrule S a\nsequence S a plus\nstart S\nprecompute\nrule S S\nprecompute\n",
        "symbol 0\nsymbol 1\nrule 0\nrule 1\nstart\nS is a sequence and has another rule\nrule 2\nS is a sequence and has another rule\n",
    ),
    (
        "symbol S\nsymbol T\nsymbol a\nrule S T\nrule T S\nrule T a\nstart S\nprecompute\n",
        "symbol 0\nsymbol 1\nsymbol 2\nrule 0\nrule 1\nrule 2\nstart\ncyclic: S, T, S\n",
    ),
    (
        "symbol S\nsymbol a\nrule S a S\nstart S\nprecompute\nrule S a\nprecompute\nalternative a 1\ncomplete\ntrees 1\n",
        "symbol 0\nsymbol 1\nrule 0\nstart\nstart symbol S is unproductive\nrule 1\nready\ntaken\nplace 1\n[\"S\",1,[\"a\",0,1]]\ntrees 1\n",
    ),
    (
        "symbol S\nsymbol T\nrule T\nsequence S T star\nstart S\nprecompute\n",
        "symbol 0\nsymbol 1\nrule 0\nrule 1\nstart\nsequence S has a nullable item or separator\n",
    ),
    (
        "symbol S\nsymbol B\nsymbol a\nrule S B B\nrule B a\nrule B\nstart S\nprecompute\ntrees 1\nalternative a 1\ncomplete\ntrees 5\ntrees 1\nreport 1\n",
        "symbol 0\nsymbol 1\nsymbol 2\nrule 0\nrule 1\nrule 2\nstart\nready\n[\"S\"]\ntrees 1\ntaken\nplace 1\n[\"S\",0,[\"B\"],[\"B\",1,[\"a\",0,1]]]\n[\"S\",0,[\"B\",1,[\"a\",0,1]],[\"B\"]]\ntrees 2\n[\"S\",0,[\"B\"],[\"B\",1,[\"a\",0,1]]]\ntrees 1\n0:1 @0-1 S\n0:2 @0-1 S\n1:0 @1-1 B\n1:1 @0-1 B\nreported 4\n",
    ),
    (
        "symbol S\nsymbol B\nsymbol x\nrule S B x\nrule B x\nstart S\nprecompute\nalternative x 1\nalternative x 2\ncomplete\nalternative x 2\ncomplete\nalternative x 1\ncomplete\ntrees 9\ntrees 1\nreport 3\n",
        "symbol 0\nsymbol 1\nsymbol 2\nrule 0\nrule 1\nstart\nready\ntaken\ntaken\nplace 1\ntaken\nplace 2\ntaken\nplace 3\n[\"S\",0,[\"B\",1,[\"x\",0,2]],[\"x\",2,3]]\n[\"S\",0,[\"B\",1,[\"x\",0,1]],[\"x\",1,3]]\ntrees 2\n[\"S\",0,[\"B\",1,[\"x\",0,2]],[\"x\",2,3]]\ntrees 1\n0:2 @0-3 S\nreported 1\n",
    ),
    (
        "symbol none\nsymbol S\nrule S none\nstart S\nprecompute\nexpected\nalternative none 1\ncomplete\nexpected\n",
        "symbol 0\nsymbol 1\nrule 0\nstart\nready\nnone\ntaken\nplace 1\nnone\n",
    ),
    (
        "symbol z\nsymbol S\nsymbol a\nrule S a\nrule S z\nstart S\nprecompute\nexpected\n",
        "symbol 0\nsymbol 1\nsymbol 2\nrule 0\nrule 1\nstart\nready\nz, a\n",
    ),
    (
        "symbol S\nsymbol a\nrule S a\nstart S\nprecompute\nalternative a 0000000001\nalternative a 00000000001\nalternative a 4294967295\nalternative a 4294967296\nalternative a 0\nalternative a +1\nalternative a -1\nalternative a 1\nalternative a 01\nalternative a 1048576\nalternative a 1048577\ntrees 0\ntrees 00\nreport 4294967295\nreport 0000000000\ncomplete\ntrees 4294967295\nreport 1\nexpected\n",
        "symbol 0\nsymbol 1\nrule 0\nstart\nready\ntaken\nbad line\nbad length\nbad line\nbad length\nbad line\nbad line\nduplicate\nduplicate\ntaken\nbad length\ntrees 0\ntrees 0\nno set 4294967295\n0:0 @0-0 S\nreported 1\nplace 1\n[\"S\",0,[\"a\",0,1]]\ntrees 1\n0:1 @0-1 S\nreported 1\nnone\n",
    ),
    ("", ""),
    ("\n", "bad line\n"),
    ("\n\n", "bad line\nbad line\n"),
    ("symbol a", "symbol 0\n"),
];

// Names of other characters.
const MORE_CASES: &[Case] = &[
    // names that are escaped in the text of a value alone
    (
        "symbol S\nsymbol \"$@\\\nrule S \"$@\\\nstart S\nprecompute\nexpected\nalternative \"$@\\ 1\ncomplete\ntrees 1\n",
        "symbol 0\nsymbol 1\nrule 0\nstart\nready\n\"$@\\\ntaken\nplace 1\n[\"S\",0,[\"\\\"\\$\\@\\\\\",0,1]]\ntrees 1\n",
    ),
    // names of several bytes
    (
        "symbol größe\nsymbol π\nrule größe π\nstart größe\nprecompute\nexpected\nalternative π 2\ncomplete\ncomplete\ntrees 3\nreport 2\n",
        "symbol 0\nsymbol 1\nrule 0\nstart\nready\nπ\ntaken\nplace 1\nplace 2\n[\"größe\",0,[\"π\",0,2]]\ntrees 1\n0:1 @0-2 größe\nreported 1\n",
    ),
    // a carriage return is part of a word
    (
        "symbol a\r\nsymbol a\nprecompute\r\n",
        "symbol 0\nsymbol 1\nbad line\n",
    ),
];

fn play<L: Ledger>(
    blank: Blank,
    alloc: Global,
    script: &[u8],
    out: &mut MemSink,
) -> Option<Result<(), ScriptRefusal>>
    requires name { blank.name ≡ L.name }
    requires parts { blank.parts ≡ L.parts }
    requires some { 0 < blank.parts }
{
    let mut steps = Steps::<L>::of_blank(blank);
    let chars = chars_of(alloc, script).ok()?;
    if chars.len() > 100_000 {
        return None;
    }
    Some(play_script(alloc, &chars, out, &mut steps))
}

// Whether a script ends so over a sink of which some writes fail, and these answers and a last one are written.
fn ends(
    alloc: Global,
    script: &[u8],
    fails: &[u64],
    answers: &[u8],
    last: &str,
    wanted: Result<(), ScriptRefusal>,
) -> Result<bool, AllocError> {
    let mut out = MemSink::new(alloc, 100, fails.to_vec(alloc)?);
    let played = play::<Brand>(Blank::new(1), alloc, script, &mut out);
    let written = out.written().strip_suffix(last.as_bytes());
    Ok(played == Some(wanted) && written == Some(answers))
}

fn are_answered(alloc: Global, cases: &[Case]) -> Result<bool, AllocError> {
    for (script, answers) in cases {
        if !ends(
            alloc,
            script.as_bytes(),
            &[],
            answers.as_bytes(),
            "",
            Ok(()),
        )? {
            return Ok(false);
        }
    }
    Ok(true)
}

#[test]
fn scripts_are_answered(rt: HostRuntime) -> Result<(), Fail> {
    assert!(rt; are_answered(rt.alloc(), CASES)?);
    assert!(rt; are_answered(rt.alloc(), MORE_CASES)?);
    Ok(())
}

// Lines of which no first part is a command, and their answers.
const LINES: &[Case] = &[
    ("symbol S", "symbol 0\n"),
    ("symbol a", "symbol 1\n"),
    ("sequence S a plus", "rule 0\n"),
    ("start S", "start\n"),
    ("precompute", "ready\n"),
    ("expected", "a\n"),
    ("alternative a 2", "taken\n"),
    ("complete", "place 1\n"),
    ("complete", "place 2\n"),
    ("report 2", "0:1 @0-2 S\nreported 1\n"),
    ("trees 7", "[\"S\",0,[\"a\",0,2]]\ntrees 1\n"),
];

// Whether what stands there is answered by these answers and then this one, wherever the line is cut.
fn line_is_cut(
    alloc: Global,
    script: &mut Vec<u8>,
    line: &str,
    answers: &[u8],
    answer: &str,
) -> Result<bool, AllocError> {
    for (at, byte) in line.as_bytes().iter().enumerate() {
        script.push(*byte)?;
        let is_whole = at + 1 == line.len();
        let last = if is_whole { answer } else { "bad line\n" };
        if !ends(alloc, script, &[], answers, last, Ok(()))? {
            return Ok(false);
        }
    }
    Ok(true)
}

// Whether the lines are answered so, wherever the script is cut.
fn are_cut(alloc: Global) -> Result<bool, AllocError> {
    let mut script = Vec::new(alloc);
    let mut answers = Vec::new(alloc);
    for (line, answer) in LINES {
        if !ends(alloc, &script, &[], &answers, "", Ok(()))?
            || !line_is_cut(alloc, &mut script, *line, &answers, *answer)?
        {
            return Ok(false);
        }
        script.push(b'\n')?;
        answers.extend_from_slice(answer.as_bytes())?;
    }
    ends(alloc, &script, &[], &answers, "", Ok(()))
}

#[test]
fn scripts_are_cut(rt: HostRuntime) -> Result<(), Fail> {
    assert!(rt; are_cut(rt.alloc())?);
    Ok(())
}

// Each line of the answers to those lines.
const ANSWERS: &[&str] = &[
    "symbol 0\n",
    "symbol 1\n",
    "rule 0\n",
    "start\n",
    "ready\n",
    "a\n",
    "taken\n",
    "place 1\n",
    "place 2\n",
    "0:1 @0-2 S\n",
    "reported 1\n",
    "[\"S\",0,[\"a\",0,2]]\n",
    "trees 1\n",
];

fn all_lines(alloc: Global) -> Result<Vec<u8>, AllocError> {
    let mut script = Vec::new(alloc);
    for (line, _) in LINES {
        script.extend_from_slice(line.as_bytes())?;
        script.push(b'\n')?;
    }
    Ok(script)
}

// Whether the answers before the write that fails are written, whichever that is.
fn writes_fail_so(alloc: Global) -> Result<bool, AllocError> {
    let script = all_lines(alloc)?;
    let mut answers = Vec::new(alloc);
    let mut write: u64 = 0;
    for answer in ANSWERS {
        write = write.saturating_add(1);
        if !ends(
            alloc,
            &script,
            &[write],
            &answers,
            "",
            Err(ScriptRefusal::WriteFault),
        )? {
            return Ok(false);
        }
        answers.extend_from_slice(answer.as_bytes())?;
    }
    Ok(true)
}

#[test]
fn each_write_fails(rt: HostRuntime) -> Result<(), Fail> {
    assert!(rt; writes_fail_so(rt.alloc())?);
    Ok(())
}
