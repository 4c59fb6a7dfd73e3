//! Pages of job `more`: what is told after a place. The rows were told by another program.
use crate::runs::run_of;
use run_scenes::{Given, SUM, SUMS};
use std::alloc::{AllocError, Global};
use std::test::Fail;

const LETTERS: &[u8] = b":default ::= action => ::array\nS ::= X*\nX ~ 'a'\n";

const RANKED: &[u8] =
    b":default ::= action => [name,values]\nS ::= P | Q rank => 5\nP ::= x\nQ ::= x\nx ~ 'x'\n";

const NULLED: &[u8] = b":default ::= action => ::array\nS ::= B B\nB ::= 'a'\nB ::=\n";

const EMPTY: &[u8] = b":default ::= action => ::array\nS ::= B B\nB ::= C\nC ::=\n";

const COMMAS: &[u8] =
    b":default ::= action => ::array\nL ::= N+ separator => comma\nN ~ [\\d]\ncomma ~ ','\n";

const ALIKE: &[u8] = b":default ::= action => ::array\nS ::= x+ separator => x\nx ~ 'a'\n";

const LISTS: &[u8] =
    b":default ::= action => ::array\nS ::= L L\nL ::= I* separator => c\nI ::= a | a a\na ~ 'a'\nc ~ 'a'\n";

const DIVIDED: &[u8] =
    b":default ::= action => [name,values]\nS ::= T T\nT ::= x rank => 1 | x x\nx ~ 'x'\n";

// The first derivation of the sum of three.
const THREE: &str = "t2.r1,1.t1.t2.r1,1.r0,3.t1.t2.r1,1.r0,3";

const NO_PLACE: &[u8] = b"slif: the cursor names no derivation\n";

/// What stands after `more --grammar g.slif --after`, a grammar, an input, and what is told, or None where the text names no derivation.
type Row<'a> = (&'a [&'a str], &'a [u8], &'a [u8], Option<&'a [u8]>);

static ROWS: [Row<'static>; 35] = [
    // first page
    (
        &[
            "more",
            "--grammar",
            "g.slif",
            "--after",
            "0",
            "--first",
            "1",
        ],
        SUMS,
        b"1+2+3",
        Some(
            b"[[[\"1\"],\"+\",[\"2\"]],\"+\",[\"3\"]]\ncursor: t2.r1,1.t1.t2.r1,1.r0,3.t1.t2.r1,1.r0,3\n",
        ),
    ),
    // second page, to the end
    (
        &["more", "--grammar", "g.slif", "--after", THREE],
        SUMS,
        b"1+2+3",
        Some(b"[[\"1\"],\"+\",[[\"2\"],\"+\",[\"3\"]]]\nend\n"),
    ),
    // a place that is none
    (
        &["more", "--grammar", "g.slif", "--after", "t0"],
        SUMS,
        b"1+2+3",
        None,
    ),
    // nulled start, behind it
    (
        &["more", "--grammar", "g.slif", "--after", "n0"],
        LETTERS,
        b"",
        Some(b"end\n"),
    ),
    // nulled start, from the beginning
    (
        &["more", "--grammar", "g.slif", "--after", "0"],
        LETTERS,
        b"",
        Some(b"[]\nend\n"),
    ),
    // exactly as many as are left: end
    (
        &[
            "more",
            "--grammar",
            "g.slif",
            "--after",
            "0",
            "--first",
            "2",
        ],
        SUMS,
        b"1+2+3",
        Some(
            b"[[[\"1\"],\"+\",[\"2\"]],\"+\",[\"3\"]]\n[[\"1\"],\"+\",[[\"2\"],\"+\",[\"3\"]]]\nend\n",
        ),
    ),
    // exactly one left, as a tree
    (
        &[
            "more",
            "--grammar",
            "g.slif",
            "--after",
            THREE,
            "--first",
            "1",
            "--show",
            "tree",
        ],
        SUMS,
        b"1+2+3",
        Some(
            b"[\"E\",0,[\"E\",1,[\"N\",\"1\"]],[\"'+'\",\"+\"],[\"E\",0,[\"E\",1,[\"N\",\"2\"]],[\"'+'\",\"+\"],[\"E\",1,[\"N\",\"3\"]]]]\nend\n",
        ),
    ),
    // behind the last: end alone
    (
        &[
            "more",
            "--grammar",
            "g.slif",
            "--after",
            "t2.r1,1.t1.t2.r1,1.t1.t2.r1,1.r0,3.r0,3",
        ],
        SUMS,
        b"1+2+3",
        Some(b"end\n"),
    ),
    // cursor of another input
    (
        &["more", "--grammar", "g.slif", "--after", THREE],
        SUMS,
        b"1+2",
        None,
    ),
    // TEXT with a hyphen in the option word
    (
        &["more", "--grammar", "g.slif", "--after=-x"],
        SUMS,
        b"1+2+3",
        None,
    ),
    // two zeros
    (
        &["more", "--grammar", "g.slif", "--after", "00"],
        SUMS,
        b"1+2+3",
        None,
    ),
    // a dot at the end
    (
        &[
            "more",
            "--grammar",
            "g.slif",
            "--after",
            "t2.r1,1.t1.t2.r1,1.r0,3.t1.t2.r1,1.r0,3.",
        ],
        SUMS,
        b"1+2+3",
        None,
    ),
    // leading zero
    (
        &[
            "more",
            "--grammar",
            "g.slif",
            "--after",
            "t02.r1,1.t1.t2.r1,1.r0,3.t1.t2.r1,1.r0,3",
        ],
        SUMS,
        b"1+2+3",
        None,
    ),
    // no children
    (
        &[
            "more",
            "--grammar",
            "g.slif",
            "--after",
            "t2.r1,0.t1.t2.r1,1.r0,3.t1.t2.r1,1.r0,3",
        ],
        SUMS,
        b"1+2+3",
        None,
    ),
    // more children than trees
    (
        &[
            "more",
            "--grammar",
            "g.slif",
            "--after",
            "t2.r1,1.t1.t2.r1,1.r0,4.t1.t2.r1,1.r0,3",
        ],
        SUMS,
        b"1+2+3",
        None,
    ),
    // number of 33 bits
    (
        &["more", "--grammar", "g.slif", "--after", "t4294967296"],
        SUMS,
        b"1+2+3",
        None,
    ),
    // two trees left
    (
        &["more", "--grammar", "g.slif", "--after", "t2.r1,1.t2.r1,1"],
        SUMS,
        b"1+2+3",
        None,
    ),
    // ranks: Q, rule
    (
        &[
            "more",
            "--grammar",
            "g.slif",
            "--after",
            "t3.r3,1.r1,1",
            "--rank",
            "rule",
        ],
        RANKED,
        b"x",
        Some(b"[\"S\",[\"P\",\"x\"]]\nend\n"),
    ),
    // ranks: P, rule
    (
        &[
            "more",
            "--grammar",
            "g.slif",
            "--after",
            "t3.r2,1.r0,1",
            "--rank",
            "rule",
        ],
        RANKED,
        b"x",
        Some(b"end\n"),
    ),
    // ranks: Q, none
    (
        &[
            "more",
            "--grammar",
            "g.slif",
            "--after",
            "t3.r3,1.r1,1",
            "--rank",
            "none",
        ],
        RANKED,
        b"x",
        Some(b"end\n"),
    ),
    // ranks: P, none
    (
        &[
            "more",
            "--grammar",
            "g.slif",
            "--after",
            "t3.r2,1.r0,1",
            "--rank",
            "none",
        ],
        RANKED,
        b"x",
        Some(b"[\"S\",[\"Q\",\"x\"]]\nend\n"),
    ),
    // ranks: Q, high
    (
        &[
            "more",
            "--grammar",
            "g.slif",
            "--after",
            "t3.r3,1.r1,1",
            "--rank",
            "high",
        ],
        RANKED,
        b"x",
        Some(b"end\n"),
    ),
    // ranks: P, high
    (
        &[
            "more",
            "--grammar",
            "g.slif",
            "--after",
            "t3.r2,1.r0,1",
            "--rank",
            "high",
        ],
        RANKED,
        b"x",
        None,
    ),
    // nulled child first
    (
        &[
            "more",
            "--grammar",
            "g.slif",
            "--after",
            "0",
            "--first",
            "1",
        ],
        NULLED,
        b"a",
        Some(b"[[],[\"a\"]]\ncursor: n1.t2.r1,1.r0,2\n"),
    ),
    // nulled child first, on
    (
        &["more", "--grammar", "g.slif", "--after", "n1.t2.r1,1.r0,2"],
        NULLED,
        b"a",
        Some(b"[[\"a\"],[]]\nend\n"),
    ),
    // a node without tokens
    (
        &["more", "--grammar", "g.slif", "--after", "n1.n1.r0,2"],
        EMPTY,
        b"",
        None,
    ),
    // trailing separator
    (
        &["more", "--grammar", "g.slif", "--after", "t1.t2.t1.t2.r0,4"],
        COMMAS,
        b"1,2,",
        Some(b"end\n"),
    ),
    // without it
    (
        &["more", "--grammar", "g.slif", "--after", "t1.t2.t1.r0,3"],
        COMMAS,
        b"1,2,",
        None,
    ),
    // item and separator alike
    (
        &["more", "--grammar", "g.slif", "--after", "t1.t1.r0,2"],
        ALIKE,
        b"aa",
        Some(b"end\n"),
    ),
    // lists by twos, page 1
    (
        &[
            "more",
            "--grammar",
            "g.slif",
            "--after",
            "0",
            "--first",
            "2",
        ],
        LISTS,
        b"aaa",
        Some(
            b"[[[\"a\",\"a\"]],[[\"a\"]]]\n[[[\"a\"]],[[\"a\"]]]\ncursor: t4.r2,1.t3.r1,2.t4.r2,1.r1,1.r0,2\n",
        ),
    ),
    // lists by twos, page 2
    (
        &[
            "more",
            "--grammar",
            "g.slif",
            "--after",
            "t4.r2,1.t3.r1,2.t4.r2,1.r1,1.r0,2",
            "--first",
            "2",
        ],
        LISTS,
        b"aaa",
        Some(
            b"[[[\"a\"]],[[\"a\",\"a\"]]]\n[[[\"a\"]],[[\"a\"]]]\ncursor: t4.r2,1.r1,1.t4.r2,1.t3.r1,2.r0,2\n",
        ),
    ),
    // lists by twos, page 3
    (
        &[
            "more",
            "--grammar",
            "g.slif",
            "--after",
            "t4.r2,1.r1,1.t4.r2,1.t3.r1,2.r0,2",
            "--first",
            "2",
        ],
        LISTS,
        b"aaa",
        Some(b"[[],[[\"a\"],[\"a\"]]]\n[[],[[\"a\",\"a\"]]]\ncursor: n1.t4.t4.r3,2.t3.r1,2.r0,2\n"),
    ),
    // lists by twos, page 4
    (
        &[
            "more",
            "--grammar",
            "g.slif",
            "--after",
            "n1.t4.t4.r3,2.t3.r1,2.r0,2",
            "--first",
            "2",
        ],
        LISTS,
        b"aaa",
        Some(b"[[[\"a\"],[\"a\"]],[]]\n[[[\"a\",\"a\"]],[]]\nend\n"),
    ),
    // high by ones, page 1
    (
        &[
            "more",
            "--grammar",
            "g.slif",
            "--after",
            "0",
            "--first",
            "1",
            "--rank",
            "high",
        ],
        DIVIDED,
        b"xxx",
        Some(b"[\"S\",[\"T\",\"x\",\"x\"],[\"T\",\"x\"]]\ncursor: t2.t2.r2,2.t2.r1,1.r0,2\n"),
    ),
    // high by ones, page 2
    (
        &[
            "more",
            "--grammar",
            "g.slif",
            "--after",
            "t2.t2.r2,2.t2.r1,1.r0,2",
            "--first",
            "1",
            "--rank",
            "high",
        ],
        DIVIDED,
        b"xxx",
        Some(b"[\"S\",[\"T\",\"x\"],[\"T\",\"x\",\"x\"]]\nend\n"),
    ),
];

// Words, an input by the sums, and the message.
type Refusal<'a> = (&'a [&'a str], &'a [u8], &'a [u8]);

static REFUSED: [Refusal<'static>; 2] = [
    // no derivation comes before a bad cursor
    (
        &["more", "--grammar", "g.slif", "--after", "rubbish"],
        b"1+",
        b"slif: input ended without a derivation; expected: N\n",
    ),
    // a stop comes before a bad cursor
    (
        &["more", "--grammar", "g.slif", "--after", "rubbish"],
        b"1x",
        b"slif: input stopped at line 1 column 2; found: none; expected: '+'\n",
    ),
];

// Whether a row comes about.
fn is_told(alloc: Global, row: &Row<'_>) -> Result<bool, AllocError> {
    let (words, grammar, input, lines) = *row;
    let given = Given {
        words,
        grammar,
        input,
        ..SUM
    };
    let ended = run_of(alloc, &given)?;
    Ok(match lines {
        Some(lines) => ended.is(0, lines, b""),
        None => ended.is(1, b"", NO_PLACE),
    })
}

// Whether an input by the sums is refused so.
fn is_refused(alloc: Global, row: &Refusal<'_>) -> Result<bool, AllocError> {
    let (words, input, message) = *row;
    let given = Given {
        words,
        input,
        ..SUM
    };
    Ok(run_of(alloc, &given)?.is(1, b"", message))
}

const SIX: &[u8] = b"1+2+3+4+5+6";

// What a job writes of the sum of six operands.
fn lines_of<'a>(alloc: Global, words: &'a [&'a str]) -> Result<Vec<u8>, AllocError> {
    let given = Given {
        words,
        input: SIX,
        ..SUM
    };
    let ended = run_of(alloc, &given)?;
    ended.out().to_vec(alloc)
}

fn page<'a>(
    alloc: Global,
    rank: &'a str,
    size: &'a str,
    after: &'a str,
) -> Result<Vec<u8>, AllocError> {
    let words = [
        "more",
        "--grammar",
        "g.slif",
        "--rank",
        rank,
        "--first",
        size,
        "--after",
        after,
    ];
    lines_of(alloc, &words)
}

// Appends the values of a page. Answers the place that its last line tells, if there is one.
fn turned(page: &[u8], values: &mut Vec<u8>) -> Result<Option<String>, AllocError> {
    let Ok(text) = str::from_utf8(page) else {
        return Ok(None);
    };
    for line in text.split_inclusive('\n') {
        if let Some(place) = line.strip_prefix("cursor: ") {
            return Ok(Some(String::from_str(*values.allocator(), place.trim_end())?));
        }
        if line != "end\n" {
            values.extend_from_slice(line.as_bytes())?;
        }
    }
    Ok(None)
}

// The values of all pages.
fn joined(alloc: Global, rank: &str, size: &str) -> Result<Vec<u8>, AllocError> {
    let mut values = Vec::new(alloc);
    let mut place = String::from_str(alloc, "0")?;
    for _ in 0..50 {
        let page = page(alloc, rank, size, &place)?;
        match turned(&page, &mut values)? {
            Some(next) => place = next,
            None => return Ok(values),
        }
    }
    Ok(values)
}

fn whole_list(alloc: Global, rank: &str) -> Result<Vec<u8>, AllocError> {
    let words = ["run", "--grammar", "g.slif", "--rank", rank];
    lines_of(alloc, &words)
}

fn pages_are_the_list_by(alloc: Global, rank: &str) -> Result<bool, AllocError> {
    let list = whole_list(alloc, rank)?;
    let lines = list.iter().filter(|byte| **byte == b'\n').count();
    let one = joined(alloc, rank, "1")?;
    let two = joined(alloc, rank, "2")?;
    let five = joined(alloc, rank, "5")?;
    Ok(lines == 42 && one == list && two == list && five == list)
}

#[test]
fn pages_are_the_list(rt: HostRuntime) -> Result<(), Fail> {
    for rank in ["none", "rule", "high"] {
        assert!(rt; pages_are_the_list_by(rt.alloc(), rank)?);
    }
    Ok(())
}

#[test]
fn places_are_gone_on_from(rt: HostRuntime) -> Result<(), Fail> {
    for row in &ROWS {
        assert!(rt; is_told(rt.alloc(), row)?);
    }
    Ok(())
}

#[test]
fn inputs_are_refused_before_places(rt: HostRuntime) -> Result<(), Fail> {
    for row in &REFUSED {
        assert!(rt; is_refused(rt.alloc(), row)?);
    }
    Ok(())
}
