//! Runs that end well: what each job tells.
use crate::runs::{Told, all_tell, all_told, run_of, tells};
use run_scenes::{
    CHECKED, CHECKED_LINES, COUNTED, COUNTED_LINES, EXPECTED, EXPECTED_LINES, Given, OPERATORS,
    REPORTED, REPORTED_LINES, SCRIPT, SCRIPTED, SCRIPTED_LINES, SUM, SUM_LINES, SUMS, TREE_LINES,
    TREES, WORKED, WORKED_LINES,
};
use std::alloc::{AllocError, Global};
use std::test::Fail;

// Two rules of one span, of which the second has the higher rank.
const RANKED: &[u8] =
    b":default ::= action => [name,values]\nS ::= P | Q rank => 5\nP ::= x\nQ ::= x\nx ~ 'x'\n";

const RANKED_X: Given<'static> = Given {
    grammar: RANKED,
    input: b"x",
    ..SUM
};

// Ranks choose over one span alone, and not between two ways to divide a text.
const DIVIDED: Given<'static> = Given {
    words: &["run", "--grammar", "g.slif", "--rank", "high"],
    grammar: b":default ::= action => [name,values]\nS ::= T T\nT ::= x rank => 1 | x x\nx ~ 'x'\n",
    input: b"xxx",
    ..SUM
};

const DIVIDED_LINES: &[u8] =
    b"[\"S\",[\"T\",\"x\",\"x\"],[\"T\",\"x\"]]\n[\"S\",[\"T\",\"x\"],[\"T\",\"x\",\"x\"]]\n";

static RANK_ROWS: [Told<'static>; 7] = [
    (
        Given {
            words: &["run", "--grammar", "g.slif"],
            ..RANKED_X
        },
        b"[\"S\",[\"Q\",\"x\"]]\n[\"S\",[\"P\",\"x\"]]\n",
    ),
    (
        Given {
            words: &["run", "--grammar", "g.slif", "--rank", "rule"],
            ..RANKED_X
        },
        b"[\"S\",[\"Q\",\"x\"]]\n[\"S\",[\"P\",\"x\"]]\n",
    ),
    (
        Given {
            words: &["run", "--grammar", "g.slif", "--rank", "none"],
            ..RANKED_X
        },
        b"[\"S\",[\"P\",\"x\"]]\n[\"S\",[\"Q\",\"x\"]]\n",
    ),
    (
        Given {
            words: &[
                "--rank=none",
                "--show=tree",
                "--first=1",
                "--grammar=g.slif",
                "--",
                "run",
            ],
            ..RANKED_X
        },
        b"[\"S\",0,[\"P\",2,[\"x\",\"x\"]]]\n",
    ),
    (
        Given {
            words: &["run", "--grammar", "g.slif", "--rank", "high", "--stats"],
            ..RANKED_X
        },
        b"[\"S\",[\"Q\",\"x\"]]\nstats: tokens 1 kept 8 nodes 3 expanded 2\n",
    ),
    (
        Given {
            words: &["run", "--grammar", "g.slif", "--rank", "rule", "--stats"],
            ..RANKED_X
        },
        b"[\"S\",[\"Q\",\"x\"]]\n[\"S\",[\"P\",\"x\"]]\nstats: tokens 1 kept 8 nodes 5 expanded 2\n",
    ),
    (DIVIDED, DIVIDED_LINES),
];

#[test]
fn derivations_are_told_by_rank(rt: HostRuntime) -> Result<(), Fail> {
    assert!(rt; all_tell(rt.alloc(), &RANK_ROWS)?);
    Ok(())
}

static SHOW_ROWS: [Told<'static>; 3] = [
    (SUM, SUM_LINES),
    (TREES, TREE_LINES),
    (
        Given {
            words: &["run", "--grammar", "g.slif", "--show", "array"],
            ..SUM
        },
        SUM_LINES,
    ),
];

#[test]
fn all_derivations_are_told_as_arrays_or_trees(rt: HostRuntime) -> Result<(), Fail> {
    assert!(rt; all_tell(rt.alloc(), &SHOW_ROWS)?);
    Ok(())
}

static FIRST_ROWS: [Told<'static>; 2] = [
    (
        Given {
            words: &["run", "--grammar", "g.slif", "--first", "2"],
            input: b"1+2+3+4",
            ..SUM
        },
        b"[[[[\"1\"],\"+\",[\"2\"]],\"+\",[\"3\"]],\"+\",[\"4\"]]\n[[[\"1\"],\"+\",[[\"2\"],\"+\",[\"3\"]]],\"+\",[\"4\"]]\n",
    ),
    (
        Given {
            words: &["run", "--grammar", "g.slif", "--first", "3"],
            ..SUM
        },
        SUM_LINES,
    ),
];

#[test]
fn so_many_of_the_first_are_told(rt: HostRuntime) -> Result<(), Fail> {
    assert!(rt; all_tell(rt.alloc(), &FIRST_ROWS)?);
    Ok(())
}

// The standard input is left alone where the words name a file.
const NAMED: Given<'static> = Given {
    words: &["run", "--grammar", "g.slif", "--input", "i.txt"],
    file: b"1+2+3",
    input: b"?",
    input_fails: &[1],
    ..SUM
};

fn is_read_from_its_file(alloc: Global) -> Result<bool, AllocError> {
    let end = run_of(alloc, &NAMED)?;
    Ok(end.asked() == 2 && end.is(0, SUM_LINES, b""))
}

#[test]
fn the_input_is_read_from_its_file(rt: HostRuntime) -> Result<(), Fail> {
    assert!(rt; is_read_from_its_file(rt.alloc())?);
    Ok(())
}

// Grammars, inputs, and the values of their derivations.
static VALUE_ROWS: [(&[u8], &[u8], &[u8]); 7] = [
    (
        b":default ::= action => ::array\nS ::= X*\nX ~ 'a'\n",
        b"",
        b"[]\n",
    ),
    (
        OPERATORS,
        b"2**3**2+1*4",
        b"[[[\"2\"],\"**\",[[\"3\"],\"**\",[\"2\"]]],\"+\",[[\"1\"],\"*\",[\"4\"]]]\n",
    ),
    (
        b":default ::= action => ::array\nS ::= B B\nB ::= 'a'\nB ::=\n",
        b"a",
        b"[[],[\"a\"]]\n[[\"a\"],[]]\n",
    ),
    (
        b":default ::= action => ::array\nS ::= C 'x' | 'a' B\nC ::= S\nB ::= 'b'\n",
        b"abx",
        b"[[[\"a\",[\"b\"]]],\"x\"]\n",
    ),
    (
        b":default ::= action => [name,values]\nS ::= K | I\nK ::= kw\nI ::= id\nkw ~ 'if'\nid ~ [a-z]+\n:lexeme ~ kw priority => 1\n",
        b"iffy",
        b"[\"S\",[\"I\",\"iffy\"]]\n",
    ),
    (
        b":default ::= action => ::array\nL ::= N+ separator => comma\nN ~ [\\d]\ncomma ~ ','\n",
        b"1,2,",
        b"[\"1\",\"2\"]\n",
    ),
    (b"S ::= 'a' rank => 1000000\n", b"a", b"undef\n"),
];

#[test]
fn values_are_told(rt: HostRuntime) -> Result<(), Fail> {
    assert!(rt; all_told(rt.alloc(), &SUM, &VALUE_ROWS)?);
    Ok(())
}

static CHECK_ROWS: [Told<'static>; 3] = [
    // The input is left alone.
    (
        Given {
            input_fails: &[1],
            ..CHECKED
        },
        CHECKED_LINES,
    ),
    (
        Given {
            grammar: b":discard ~ white\nwhite ~ [\\s]+\nS ::= <a  list>* separator => comma\ncomma ~ ','\n<a  list> ::= 'x' 'y'\n",
            ..CHECKED
        },
        b"accepted: 2 rules, 3 lexemes, 1 discards\nS nullable\na list\n",
    ),
    (
        Given {
            words: &["--grammar", "g.slif", "--", "check"],
            grammar: b"S ::= X+ separator => U\nU ::= 'u' U\nX ~ 'x'\n",
            ..CHECKED
        },
        b"accepted: 2 rules, 2 lexemes, 0 discards\nS\nU unproductive inaccessible\n",
    ),
];

#[test]
fn accepted_grammars_are_told(rt: HostRuntime) -> Result<(), Fail> {
    assert!(rt; all_tell(rt.alloc(), &CHECK_ROWS)?);
    Ok(())
}

static EXPECT_ROWS: [(&[u8], &[u8], &[u8]); 5] = [
    (SUMS, b"1", b"'+'\n"),
    (SUMS, b"", b"N\n"),
    (OPERATORS, b"1+", EXPECTED_LINES),
    (
        b"S ::= '=' '=' | 'a' '=='\nlexeme default = latm => 1\n",
        b"==",
        b"",
    ),
    (
        b"L ::= N+ separator => comma proper => 1\nN ~ [\\d]\ncomma ~ ','\n",
        b"1,2,",
        b"N\n",
    ),
];

#[test]
fn what_is_expected_is_told(rt: HostRuntime) -> Result<(), Fail> {
    assert!(rt; all_told(rt.alloc(), &EXPECTED, &EXPECT_ROWS)?);
    Ok(())
}

// The report of the sum `1+` at each place, and that of a list after its first separator.
static REPORT_ROWS: [Told<'static>; 4] = [
    (
        Given {
            words: &["progress", "--at", "0", "--grammar", "g.slif"],
            ..REPORTED
        },
        b"0:0 @0-0 E\n1:0 @0-0 E\n",
    ),
    (
        Given {
            words: &["progress", "--at", "1", "--grammar", "g.slif"],
            ..REPORTED
        },
        b"0:1 @0-1 E\n1:1 @0-1 E\n",
    ),
    (REPORTED, REPORTED_LINES),
    (
        Given {
            grammar: b":default ::= action => ::array\nL ::= N+ separator => comma\nN ~ [\\d]\ncomma ~ ','\n",
            input: b"1,",
            ..REPORTED
        },
        b"0:2 @0-2 L\n",
    ),
];

#[test]
fn reports_are_told(rt: HostRuntime) -> Result<(), Fail> {
    assert!(rt; all_tell(rt.alloc(), &REPORT_ROWS)?);
    Ok(())
}

// The numbers are those of the whole forest, however many values are told. Of a start that spans nothing there is no node.
static NUMBER_ROWS: [Told<'static>; 3] = [
    (COUNTED, COUNTED_LINES),
    (
        Given {
            words: &["run", "--stats", "--first", "1", "--grammar", "g.slif"],
            ..SUM
        },
        b"[[[\"1\"],\"+\",[\"2\"]],\"+\",[\"3\"]]\nstats: tokens 5 kept 25 nodes 13 expanded 0\n",
    ),
    (
        Given {
            grammar: b":default ::= action => ::array\nS ::= X*\nX ~ 'a'\n",
            input: b"",
            ..COUNTED
        },
        b"[]\nstats: tokens 0 kept 5 nodes 0 expanded 0\n",
    ),
];

#[test]
fn numbers_are_told_where_they_are_asked_for(rt: HostRuntime) -> Result<(), Fail> {
    assert!(rt; all_tell(rt.alloc(), &NUMBER_ROWS)?);
    Ok(())
}

// The items that the sets leave out are brought back at the end: one for each token but the last.
fn keeps_a_few(alloc: Global, input: &[u8], lines: &[u8]) -> Result<bool, AllocError> {
    let long = Given {
        grammar: b"L ::= x L | x\nx ~ 'x'\n",
        input,
        ..COUNTED
    };
    tells(alloc, &long, lines)
}

#[test]
fn right_recursion_keeps_a_few_items_a_place(rt: HostRuntime) -> Result<(), Fail> {
    let input = vec![in rt.alloc(); b'x'; 10_000]?;
    let lines = b"undef\nstats: tokens 10000 kept 50003 nodes 20000 expanded 9999\n";
    assert!(rt; keeps_a_few(rt.alloc(), &input, lines)?);
    Ok(())
}

// Work needs no file and no input.
const ALONE: Given<'static> = Given {
    files_fail: &[1],
    input_fails: &[1],
    ..WORKED
};

static WORK_ROWS: [Told<'static>; 3] = [
    (ALONE, WORKED_LINES),
    (
        Given {
            words: &["work", "--size", "100"],
            ..ALONE
        },
        b"work 100: tokens 301 kept 2113 nodes 703 expanded 100 values 1\n",
    ),
    (
        Given {
            words: &["work", "--size", "1000"],
            ..ALONE
        },
        b"work 1000: tokens 3001 kept 21013 nodes 7003 expanded 1000 values 1\n",
    ),
];

#[test]
fn work_is_counted(rt: HostRuntime) -> Result<(), Fail> {
    assert!(rt; all_tell(rt.alloc(), &WORK_ROWS)?);
    Ok(())
}

// A script needs no other file than its own, and the standard input is left alone where the words name one.
static SCRIPT_ROWS: [Told<'static>; 4] = [
    (
        Given {
            files_fail: &[1],
            ..SCRIPTED
        },
        SCRIPTED_LINES,
    ),
    (
        Given {
            words: &["--input=i.txt", "script"],
            file: SCRIPT,
            input: b"symbol a\n",
            input_fails: &[1],
            ..SCRIPTED
        },
        SCRIPTED_LINES,
    ),
    (
        Given {
            input: b"",
            ..SCRIPTED
        },
        b"",
    ),
    (
        Given {
            input: b"\nsymbol \xC3\xA9\nprecompute\nstart \xC3\xA9\nprecompute",
            ..SCRIPTED
        },
        b"bad line\nsymbol 0\nno rules\nstart\nno rules\n",
    ),
];

#[test]
fn scripts_are_answered(rt: HostRuntime) -> Result<(), Fail> {
    assert!(rt; all_tell(rt.alloc(), &SCRIPT_ROWS)?);
    Ok(())
}
