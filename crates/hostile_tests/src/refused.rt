//! Words, grammars and inputs that are refused: the status and the line, and nothing on the standard output.
use crate::devices::{Case, fails_in_turn, line_breaks};
use crate::runs::{asked, ends};
use run_scenes::{
    CHECKED, COMPARED, EXPECTED, Given, OPERATORS, REPORTED, SCRIPTED, SUM, SUMS, TREES, WORKED,
    WORKED_LINES,
};
use std::alloc::{AllocError, Global};
use std::test::Fail;

const USAGE: &[u8] =
    b"slif: usage: slif JOB [options]; jobs: run, check, expect, progress, work, script, more, slip, glades\n";

static WRONG_WORDS: [&[&str]; 16] = [
    &[],
    &["run"],
    &["jump", "--grammar", "g.slif"],
    &["run", "run", "--grammar", "g.slif"],
    &["run", "--grammar", "-g"],
    &["run", "--grammar", "g.slif", "--grammar", "g.slif"],
    &["run", "--grammar=g.slif", "--first", "0"],
    &["check", "--grammar", "g.slif", "--rank", "rule"],
    &["progress", "--grammar", "g.slif"],
    &["work", "--size", "0"],
    &["work", "--size", "100001"],
    &["work", "--size", "2", "--stats"],
    &["glades", "--input", "i.txt"],
    &["glades", "--grammar", "g.slif", "--rank", "rule"],
    &["script", "--grammar", "g.slif"],
    &["script", "--input", "-"],
];

// Whether a run is refused so, and each call that fails ends it as it should.
fn is_refused(
    alloc: Global,
    given: &Given<'_>,
    status: u8,
    line: &[u8],
    files: u8,
    input: u8,
) -> Result<bool, AllocError> {
    let case = Case {
        given: *given,
        status,
        out: b"",
        err: line,
        files,
        input,
    };
    fails_in_turn(alloc, &case)
}

// Neither a file nor the input is touched.
fn is_refused_at_once(alloc: Global, words: &[&str]) -> Result<bool, AllocError> {
    let given = Given { words, ..SUM };
    is_refused(alloc, &given, 2, USAGE, 0, 0)
}

#[test]
fn other_words_are_refused(rt: HostRuntime) -> Result<(), Fail> {
    for words in &WRONG_WORDS {
        assert!(rt; is_refused_at_once(rt.alloc(), words)?);
    }
    Ok(())
}

// Texts that have no description, and faults of descriptions, in the order in which they are sought.
static TEXT_ROWS: [(&[u8], &[u8]); 17] = [
    (b"S ::= \xFF", b"slif: grammar: not UTF-8 at byte 6\n"),
    (
        b"S ::= 'a",
        b"slif: grammar: bad token at line 1 column 7\n",
    ),
    (
        b"# c\n\n S ::= 'a' \"b\"",
        b"slif: grammar: bad token at line 3 column 12\n",
    ),
    (
        b"S ::= 'a'*",
        b"slif: grammar: bad statement at line 1 column 1\n",
    ),
    (
        b"S ::= 'a' ; 'b'",
        b"slif: grammar: bad statement at line 1 column 13\n",
    ),
    (
        b"S ::= 'a' bless => x",
        b"slif: grammar: bad adverb bless at line 1 column 11\n",
    ),
    (
        b"S ::= 'a' rank => 1 rank => 2",
        b"slif: grammar: repeated rank at line 1 column 21\n",
    ),
    (
        b"S ::= T",
        b"slif: grammar: no rule for T at line 1 column 7\n",
    ),
    (
        b"S ::= <no  rule>",
        b"slif: grammar: no rule for no rule at line 1 column 7\n",
    ),
    (
        b"S ::= 'a'\nS ~ 'b'",
        b"slif: grammar: S has rules of both levels at line 2 column 1\n",
    ),
    (
        b"S ::= 'a'\n:lexeme ~ S priority => 1",
        b"slif: grammar: S is not a lexeme at line 2 column 11\n",
    ),
    (
        b"S ::= [z-a]",
        b"slif: grammar: bad class [z-a] at line 1 column 7\n",
    ),
    (
        b"S ::= [a\n]",
        b"slif: grammar: bad class [a\\n] at line 1 column 7\n",
    ),
    (
        b"S ::= [\x1B\r\t\x7F\xC2\x85\xE2\x80\xA8\\q]",
        b"slif: grammar: bad class [\\x{1b}\\r\\t\\x{7f}\\x{85}\\x{2028}\\q] at line 1 column 7\n",
    ),
    (
        b":start ::= S\n:start ::= S\nS ::= 'a'",
        b"slif: grammar: second start at line 2 column 1\n",
    ),
    (
        b"S ::= 'a' rank => 1000001",
        b"slif: grammar: number out of range at line 1 column 19\n",
    ),
    (b"", b"slif: grammar: no rules\n"),
];

// What a check refuses of the structural grammar, and then of the lexical one.
static CHECK_ROWS: [(&[u8], &[u8]); 8] = [
    (
        b":start ::= T\nS ::= 'a'",
        b"slif: grammar: start symbol T has no rule\n",
    ),
    (
        b"S ::= X*\nS ::= 'x'\nX ~ 'a'",
        b"slif: grammar: S is a sequence and has another rule\n",
    ),
    (
        b"S ::= 'a' | 'a'",
        b"slif: grammar: rule 1 of S is a duplicate\n",
    ),
    (
        b"S ::= X*\nX ::= 'a'\nX ::=",
        b"slif: grammar: sequence S has a nullable item or separator\n",
    ),
    (
        b"S ::= 'a' S",
        b"slif: grammar: start symbol S is unproductive\n",
    ),
    (
        b"P ::= Q\nQ ::= P | 'b'\n",
        b"slif: grammar: cyclic: P, Q, P\n",
    ),
    (
        b"S ::= x\nx ~ y\ny ~ x",
        b"slif: lexical grammar: start symbol x is unproductive\n",
    ),
    (
        b"S ::= x\nx ~ y\ny ~ x\ny ~ 'a'",
        b"slif: lexical grammar: cyclic: x, y, x\n",
    ),
];

// All jobs refuse a grammar alike, and the input is left alone. An empty file is read once.
fn refuse(alloc: Global, grammar: &[u8], line: &[u8]) -> Result<bool, AllocError> {
    let files = if grammar.is_empty() { 2 } else { 3 };
    for job in &[CHECKED, SUM, EXPECTED, REPORTED, COMPARED] {
        let given = Given { grammar, ..*job };
        if !is_refused(alloc, &given, 3, line, files, 0)? {
            return Ok(false);
        }
    }
    Ok(true)
}

// A literal of 1,001 characters.
fn refuse_long(alloc: Global) -> Result<bool, AllocError> {
    let mut grammar = [b'x'; 1009];
    grammar[..7].copy_from_slice(b"S ::= '");
    grammar[1008] = b'\'';
    refuse(
        alloc,
        &grammar,
        b"slif: grammar: too long at line 1 column 7\n",
    )
}

#[test]
fn bad_grammars_are_refused(rt: HostRuntime) -> Result<(), Fail> {
    for (grammar, line) in &TEXT_ROWS {
        assert!(rt; refuse(rt.alloc(), grammar, line)?);
    }
    for (grammar, line) in &CHECK_ROWS {
        assert!(rt; refuse(rt.alloc(), grammar, line)?);
    }
    assert!(rt; refuse_long(rt.alloc())?);
    Ok(())
}

// Grammars, inputs that are not read to their end, how many reads an input takes, and the line of each.
static STOP_ROWS: [(&[u8], &[u8], u8, &[u8]); 7] = [
    (
        SUMS,
        b"x",
        2,
        b"slif: input stopped at line 1 column 1; found: none; expected: N\n",
    ),
    (
        OPERATORS,
        b"1+*2",
        3,
        b"slif: input stopped at line 1 column 3; found: '*'; expected: '(', N\n",
    ),
    (
        b"S ::= '=' '=' | 'a' '=='\n",
        b"==",
        2,
        b"slif: input stopped at line 1 column 1; found: '=='; expected: '=', 'a'\n",
    ),
    (
        b"S ::= 'a' 'b'\n:discard ~ [\\s]\n",
        b"a\n\xC3\xA9",
        3,
        b"slif: input stopped at line 2 column 1; found: none; expected: 'b'\n",
    ),
    (
        b"S ::= 'a'\n",
        b"aa",
        2,
        b"slif: input stopped at line 1 column 2; found: 'a'; expected: none\n",
    ),
    (
        SUMS,
        b"1+2+3+4\xFF",
        5,
        b"slif: input is not UTF-8 at byte 7\n",
    ),
    (SUMS, b"\x80", 2, b"slif: input is not UTF-8 at byte 0\n"),
];

// Whether jobs refuse an input alike.
fn stop(
    alloc: Global,
    jobs: &[Given<'static>],
    grammar: &[u8],
    input: &[u8],
    reads: u8,
    line: &[u8],
) -> Result<bool, AllocError> {
    for job in jobs {
        let given = Given {
            grammar,
            input,
            ..*job
        };
        if !is_refused(alloc, &given, 1, line, 3, reads)? {
            return Ok(false);
        }
    }
    Ok(true)
}

#[test]
fn inputs_are_refused_alike_by_all_jobs(rt: HostRuntime) -> Result<(), Fail> {
    let jobs = &[SUM, TREES, EXPECTED, REPORTED, COMPARED];
    for (grammar, input, reads, line) in &STOP_ROWS {
        assert!(rt; stop(rt.alloc(), jobs, grammar, input, *reads, line)?);
    }
    Ok(())
}

// No line of a script is played where its text is broken.
#[test]
fn scripts_that_are_not_utf8_are_refused(rt: HostRuntime) -> Result<(), Fail> {
    let given = Given {
        input: b"symbol a\nsymbol b\xFFc\n",
        ..SCRIPTED
    };
    let line = b"slif: input is not UTF-8 at byte 17\n";
    assert!(rt; is_refused(rt.alloc(), &given, 1, line, 0, 4)?);
    Ok(())
}

// Jobs whose input is a file that is not read to its end.
static FILED: [Given<'static>; 4] = [
    Given {
        words: &["run", "--grammar", "g.slif", "--input", "i.txt"],
        file: b"x",
        ..SUM
    },
    Given {
        words: &["expect", "--grammar", "g.slif", "--input", "i.txt"],
        file: b"x",
        ..SUM
    },
    Given {
        words: &["progress", "--at=0", "--grammar=g.slif", "--input=i.txt"],
        file: b"x",
        ..SUM
    },
    Given {
        words: &["glades", "--grammar=g.slif", "--input=i.txt"],
        file: b"x",
        ..SUM
    },
];

#[test]
fn inputs_of_files_are_refused_alike(rt: HostRuntime) -> Result<(), Fail> {
    let line = b"slif: input stopped at line 1 column 1; found: none; expected: N\n";
    for given in &FILED {
        assert!(rt; is_refused(rt.alloc(), given, 1, line, 6, 0)?);
    }
    Ok(())
}

// Grammars, inputs that end without a derivation, how many reads an input takes, and what is expected after it.
static END_ROWS: [(&[u8], &[u8], u8, &[u8]); 5] = [
    (
        SUMS,
        b"",
        1,
        b"slif: input ended without a derivation; expected: N\n",
    ),
    (
        SUMS,
        b"1+",
        2,
        b"slif: input ended without a derivation; expected: N\n",
    ),
    (
        OPERATORS,
        b"1+",
        2,
        b"slif: input ended without a derivation; expected: '(', N\n",
    ),
    (
        b"L ::= N+ separator => comma proper => 1\nN ~ [\\d]\ncomma ~ ','\n",
        b"1,2,",
        3,
        b"slif: input ended without a derivation; expected: N\n",
    ),
    (
        b"S ::= '=' '=' | 'a' '=='\nlexeme default = latm => 1\n",
        b"=",
        2,
        b"slif: input ended without a derivation; expected: '='\n",
    ),
];

#[test]
fn inputs_without_a_derivation_are_refused(rt: HostRuntime) -> Result<(), Fail> {
    let jobs = &[SUM, TREES, COMPARED];
    for (grammar, input, reads, line) in &END_ROWS {
        assert!(rt; stop(rt.alloc(), jobs, grammar, input, *reads, line)?);
    }
    Ok(())
}

const PAST: Given<'static> = Given {
    words: &["progress", "--at", "3", "--grammar", "g.slif"],
    ..REPORTED
};

const PAST_EMPTY: Given<'static> = Given {
    words: &["progress", "--at", "1", "--grammar", "g.slif"],
    input: b"",
    ..REPORTED
};

#[test]
fn places_past_the_last_set_are_refused(rt: HostRuntime) -> Result<(), Fail> {
    let line = b"slif: no set 3; the last is 2\n";
    assert!(rt; is_refused(rt.alloc(), &PAST, 1, line, 3, 2)?);
    let line = b"slif: no set 1; the last is 0\n";
    assert!(rt; is_refused(rt.alloc(), &PAST_EMPTY, 1, line, 3, 1)?);
    Ok(())
}

// A file of the grammar that has no such name is asked for alone; one of the input is asked for after the grammar's.
static NAME_ROWS: [(&[&str], &[u8], usize); 4] = [
    (
        &["expect", "--grammar", "h\n\x1B.slif"],
        b"slif: cannot open h\\n\\x{1b}.slif\n",
        1,
    ),
    (
        &["expect", "--grammar", "h.slif", "--input", "j.txt"],
        b"slif: cannot open h.slif\n",
        1,
    ),
    (
        &["expect", "--grammar", "g.slif", "--input", "j.txt"],
        b"slif: cannot open j.txt\n",
        2,
    ),
    (
        &["script", "--input", "j.txt"],
        b"slif: cannot open j.txt\n",
        1,
    ),
];

// Whether a run asks for so many names and tells that it cannot open the last of them.
fn is_not_opened(
    alloc: Global,
    words: &[&str],
    line: &[u8],
    names: usize,
) -> Result<bool, AllocError> {
    let given = Given { words, ..EXPECTED };
    Ok(line_breaks(alloc, &given, line)? && asked(alloc, &given)? == names)
}

#[test]
fn names_of_no_file_are_told(rt: HostRuntime) -> Result<(), Fail> {
    for (words, line, names) in &NAME_ROWS {
        assert!(rt; is_not_opened(rt.alloc(), words, line, *names)?);
    }
    assert!(rt; ends(rt.alloc(), &WORKED, 0, WORKED_LINES, b"")?);
    Ok(())
}
