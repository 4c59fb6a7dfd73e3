//! Job `slip`: lexemes that are supplied where reading is stuck. The rows were told by another program, those of words by hand.
use crate::runs::run_of;
use run_scenes::{Given, SUM};
use std::alloc::{AllocError, Global};
use std::test::Fail;

const SEMICOLONS: &[u8] =
    b":default ::= action => ::array\nS ::= X+\nX ::= N semi\nN ~ [\\d]\nsemi ~ ';'\n";

const SPANS: &[u8] =
    b":default ::= action => [name,start,length,g1start,g1length,values]\nlexeme default = action => [symbol,start,length,g1start,g1length,value]\nS ::= X+\nX ::= N semi\nN ~ [\\d]\nsemi ~ ';'\n:discard ~ space\nspace ~ [\\s]+\n";

const SHORTEST: &[u8] = b":default ::= action => ::array\nS ::= 'a' x | 'a'\nx ~ 'x'\n";

const NO_END: &[u8] = b":default ::= action => ::array\nS ::= 'a' x y\nx ~ 'x'\ny ~ 'y'\n";

const TWO: &[u8] = b":default ::= action => ::array\nS ::= x y\nx ~ 'x'\ny ~ 'y'\n";

const NULLABLE: &[u8] = b":default ::= action => ::array\nS ::= x*\nx ~ 'x'\n";

const ORDERED: &[u8] =
    b":default ::= action => [name,values]\nlexeme default = action => [symbol,value]\nS ::= 'a' P 'b'\nP ::= x | y | x y\nx ~ 'x'\ny ~ 'y'\n";

const BOTH: &[u8] = b":default ::= action => ::array\nS ::= 'a' x y 'b'\nx ~ 'x'\ny ~ 'y'\n";

const AGAIN: &[u8] = b":default ::= action => ::array\nS ::= Y+\nY ::= 'a' x\nx ~ 'x'\n";

const ONCE: &[u8] = b":default ::= action => ::array\nS ::= 'a' x x 'b'\nx ~ 'x'\n";

const FOUND: &[u8] =
    b":default ::= action => ::array\nS ::= 'a' x 'c'\nx ~ 'x'\nB ~ 'b'\nT ::= B\n";

const QUOTED: &[u8] = b":default ::= action => ::array\nS ::= 'a' [bc] ')'\n";

const SPACED: &[u8] = b":default ::= action => ::array\nS ::= 'a' <the  end>\n<the end> ~ ';'\n";

const ONE_SPACE: &[u8] = b":default ::= action => ::array\nS ::= 'a' <the end>\n<the end> ~ ';'\n";

const LAYOUT: &[u8] =
    b":default ::= action => ::array\nS ::= 'a'\n:discard ~ space\nspace ~ [\\s]+\n";

const LEFT: &[u8] = b":default ::= action => ::array\nS ::= T\nT ::= 'a'\n";

const UNUSED: &[u8] = b":default ::= action => ::array\nS ::= 'a'\nU ::= q\nq ~ 'q'\n";

const ONE: &[u8] = b":default ::= action => ::array\nS ::= 'a' x\nx ~ 'x'\n";

const LETTER: &[u8] = b":default ::= action => ::array\nS ::= 'a'\n";

const EIGHT: &[u8] =
    b":default ::= action => ::array\nS ::= a b c d e f g h\na ~ 'a'\nb ~ 'b'\nc ~ 'c'\nd ~ 'd'\ne ~ 'e'\nf ~ 'f'\ng ~ 'g'\nh ~ 'h'\n";

const SUM_OF_DIGITS: &[u8] =
    b":default ::= action => ::array\nS ::= E\nE ::= E p E | N\nN ~ [\\d]\np ~ '+'\n";

const LONGEST: &[u8] =
    b":default ::= action => ::array\nlexeme default = latm => 1\nS ::= 'a' x 'aa'\nx ~ 'x'\n";

const OPTIONAL: &[u8] =
    b":default ::= action => ::array\nS ::= 'a' P\nP ::= x 'b' | 'b'\nx ~ 'x'\n";

const SPACES: &[u8] =
    b":default ::= action => ::array\nS ::= 'a' x 'b'\nx ~ 'x'\n:discard ~ space\nspace ~ [\\s]+\n";

const COMMAS: &[u8] = b":default ::= action => ::array\nS ::= 'a' [\\t,]\n";

const USAGE: &[u8] =
    b"slif: usage: slif JOB [options]; jobs: run, check, expect, progress, work, script, more, slip, glades\n";

/// Words, a grammar, an input, the status, and what is written to each stream.
type Row<'a> = (&'a [&'a str], &'a [u8], &'a [u8], u8, &'a [u8], &'a [u8]);

static ROWS: [Row<'static>; 32] = [
    // worked 1
    (
        &["slip", "--grammar", "g.slif", "--give", "semi"],
        SEMICOLONS,
        b"12;3",
        0,
        b"[[\"1\",\"\"],[\"2\",\";\"],[\"3\",\"\"]]\n",
        b"",
    ),
    // worked 2
    (
        &["slip", "--grammar", "g.slif", "--give", "N"],
        SEMICOLONS,
        b"12;3",
        1,
        b"",
        b"slif: input stopped at line 1 column 2; found: N; expected: semi\n",
    ),
    // worked 2-unknown
    (
        &["slip", "--grammar", "g.slif", "--give", "Z"],
        SEMICOLONS,
        b"12;3",
        3,
        b"",
        b"slif: grammar: Z is not a lexeme\n",
    ),
    // spans
    (
        &["slip", "--grammar", "g.slif", "--give", "semi"],
        SPANS,
        b"1  2 ",
        0,
        b"[\"S\",0,5,0,4,[\"X\",0,3,0,2,[\"N\",0,1,0,1,\"1\"],[\"semi\",3,0,1,1,\"\"]],[\"X\",3,2,2,2,[\"N\",3,1,2,1,\"2\"],[\"semi\",5,0,3,1,\"\"]]]\n",
        b"",
    ),
    // tree
    (
        &[
            "slip",
            "--grammar",
            "g.slif",
            "--give",
            "semi",
            "--show",
            "tree",
        ],
        SEMICOLONS,
        b"1",
        0,
        b"[\"S\",0,[\"X\",1,[\"N\",\"1\"],[\"semi\",\"\"]]]\n",
        b"",
    ),
    // end-shortest
    (
        &["slip", "--grammar", "g.slif", "--give", "x"],
        SHORTEST,
        b"a",
        0,
        b"[\"a\"]\n",
        b"",
    ),
    // end-none
    (
        &["slip", "--grammar", "g.slif", "--give", "x"],
        NO_END,
        b"a",
        1,
        b"",
        b"slif: input ended without a derivation; expected: y\n",
    ),
    // empty-two
    (
        &["slip", "--grammar", "g.slif", "--give", "y,x"],
        TWO,
        b"",
        0,
        b"[\"\",\"\"]\n",
        b"",
    ),
    // empty-nullable
    (
        &["slip", "--grammar", "g.slif", "--give", "x"],
        NULLABLE,
        b"",
        0,
        b"[]\n",
        b"",
    ),
    // order
    (
        &["slip", "--grammar", "g.slif", "--give", "y,x"],
        ORDERED,
        b"ab",
        0,
        b"[\"S\",[\"'a'\",\"a\"],[\"P\",[\"y\",\"\"]],[\"'b'\",\"b\"]]\n",
        b"",
    ),
    // order-other
    (
        &["slip", "--grammar", "g.slif", "--give", "x,y"],
        ORDERED,
        b"ab",
        0,
        b"[\"S\",[\"'a'\",\"a\"],[\"P\",[\"x\",\"\"]],[\"'b'\",\"b\"]]\n",
        b"",
    ),
    // two
    (
        &["slip", "--grammar", "g.slif", "--give", "y,x"],
        BOTH,
        b"ab",
        0,
        b"[\"a\",\"\",\"\",\"b\"]\n",
        b"",
    ),
    // again-later
    (
        &["slip", "--grammar", "g.slif", "--give", "x"],
        AGAIN,
        b"aaa",
        0,
        b"[[\"a\",\"\"],[\"a\",\"\"],[\"a\",\"\"]]\n",
        b"",
    ),
    // once
    (
        &["slip", "--grammar", "g.slif", "--give", "x"],
        ONCE,
        b"ab",
        1,
        b"",
        b"slif: input stopped at line 1 column 2; found: 'b'; expected: x\n",
    ),
    // found-later
    (
        &["slip", "--grammar", "g.slif", "--give", "x"],
        FOUND,
        b"ab",
        1,
        b"",
        b"slif: input stopped at line 1 column 2; found: B; expected: 'c'\n",
    ),
    // implicit
    (
        &["slip", "--grammar", "g.slif", "--give", "')',[bc]"],
        QUOTED,
        b"a",
        0,
        b"[\"a\",\"\",\"\"]\n",
        b"",
    ),
    // angle
    (
        &["slip", "--grammar", "g.slif", "--give", "the end"],
        SPACED,
        b"a",
        0,
        b"[\"a\",\"\"]\n",
        b"",
    ),
    // angle-signs
    (
        &["slip", "--grammar", "g.slif", "--give", "<the end>"],
        ONE_SPACE,
        b"a",
        3,
        b"",
        b"slif: grammar: <the end> is not a lexeme\n",
    ),
    // discard
    (
        &["slip", "--grammar", "g.slif", "--give", "space"],
        LAYOUT,
        b"a",
        3,
        b"",
        b"slif: grammar: space is not a lexeme\n",
    ),
    // left-side
    (
        &["slip", "--grammar", "g.slif", "--give", "T"],
        LEFT,
        b"a",
        3,
        b"",
        b"slif: grammar: T is not a lexeme\n",
    ),
    // inaccessible
    (
        &["slip", "--grammar", "g.slif", "--give", "q"],
        UNUSED,
        b"b",
        1,
        b"",
        b"slif: input stopped at line 1 column 1; found: none; expected: 'a'\n",
    ),
    // first-unknown
    (
        &["slip", "--grammar", "g.slif", "--give", "x,Z,Y"],
        ONE,
        b"a",
        3,
        b"",
        b"slif: grammar: Z is not a lexeme\n",
    ),
    // words-1
    (
        &["slip", "--grammar", "g.slif", "--give=x,x"],
        LETTER,
        b"a",
        2,
        b"",
        USAGE,
    ),
    // eight
    (
        &["slip", "--grammar", "g.slif", "--give", "h,g,f,e,d,c,b,a"],
        EIGHT,
        b"",
        0,
        b"[\"\",\"\",\"\",\"\",\"\",\"\",\"\",\"\"]\n",
        b"",
    ),
    // stats
    (
        &["slip", "--grammar", "g.slif", "--give", "'a'", "--stats"],
        LETTER,
        b"a",
        2,
        b"",
        USAGE,
    ),
    // ambiguous
    (
        &["slip", "--grammar", "g.slif", "--give", "p"],
        SUM_OF_DIGITS,
        b"123",
        0,
        b"[[[[\"1\"],\"\",[\"2\"]],\"\",[\"3\"]]]\n[[[\"1\"],\"\",[[\"2\"],\"\",[\"3\"]]]]\n",
        b"",
    ),
    // ambiguous-first
    (
        &[
            "slip",
            "--grammar",
            "g.slif",
            "--give",
            "p",
            "--first",
            "1",
            "--rank",
            "none",
        ],
        SUM_OF_DIGITS,
        b"123",
        0,
        b"[[[[\"1\"],\"\",[\"2\"]],\"\",[\"3\"]]]\n",
        b"",
    ),
    // refused-first
    (
        &["slip", "--grammar", "g.slif", "--give", "Z"],
        LETTER,
        b"\xff",
        3,
        b"",
        b"slif: grammar: Z is not a lexeme\n",
    ),
    // latm
    (
        &["slip", "--grammar", "g.slif", "--give", "x"],
        LONGEST,
        b"aaa",
        0,
        b"[\"a\",\"\",\"aa\"]\n",
        b"",
    ),
    // not-stuck
    (
        &["slip", "--grammar", "g.slif", "--give", "x"],
        OPTIONAL,
        b"ab",
        0,
        b"[\"a\",[\"b\"]]\n",
        b"",
    ),
    // behind-layout
    (
        &["slip", "--grammar", "g.slif", "--give", "x"],
        SPACES,
        b"a b",
        0,
        b"[\"a\",\"\",\"b\"]\n",
        b"",
    ),
    // comma
    (
        &["slip", "--grammar", "g.slif", "--give", "[\\t,]"],
        COMMAS,
        b"a",
        3,
        b"",
        b"slif: grammar: [\\t is not a lexeme\n",
    ),
];

// Whether a row comes about.
fn is_told(alloc: Global, row: &Row<'_>) -> Result<bool, AllocError> {
    let (words, grammar, input, status, out, err) = *row;
    let given = Given {
        words,
        grammar,
        input,
        ..SUM
    };
    Ok(run_of(alloc, &given)?.is(status, out, err))
}

#[test]
fn lexemes_are_supplied_to_runs(rt: HostRuntime) -> Result<(), Fail> {
    for row in &ROWS {
        assert!(rt; is_told(rt.alloc(), row)?);
    }
    Ok(())
}
