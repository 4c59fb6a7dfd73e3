//! What job `glades` tells: where the derivations of an input differ.
use crate::runs::all_told;
use run_scenes::{COMPARED, COMPARED_LINES, OPERATORS, SUMS};
use std::test::Fail;

// Sums; the longer span stands before the shorter one.
static SUM_ROWS: [(&[u8], &[u8], &[u8]); 3] = [
    (SUMS, b"1+2+3", COMPARED_LINES),
    (
        SUMS,
        b"1+2+3+4+5",
        b"E 0-9: 0 at 0,7,8; 0 at 0,5,6\nE 0-7: 0 at 0,5,6; 0 at 0,3,4\nE 0-5: 0 at 0,3,4; 0 at 0,1,2\nE 2-9: 0 at 2,7,8; 0 at 2,5,6\nE 2-7: 0 at 2,5,6; 0 at 2,3,4\nE 4-9: 0 at 4,7,8; 0 at 4,5,6\n",
    ),
    (
        b"E ::= N || E '+' E | E '-' E assoc => right\nN ~ [\\d]\n",
        b"1-2+3",
        b"E 0-5: 1 at 0,3,4; 2 at 0,1,2\n",
    ),
];

// Children that span nothing.
static EMPTY_ROWS: [(&[u8], &[u8], &[u8]); 4] = [
    (
        b"S ::= B B\nB ::= 'a'\nB ::=\n",
        b"a",
        b"S 0-1: 0 at 0,0; 0 at 0,1\n",
    ),
    (
        b"S ::= B B null-ranking => high\nB ::= 'a'\nB ::=\n",
        b"a",
        b"S 0-1: 0 at 0,1; 0 at 0,0\n",
    ),
    (
        b"S ::= B B B\nB ::= 'a'\nB ::=\n",
        b"a",
        b"S 0-1: 0 at 0,0,0; 0 at 0,0,1\n",
    ),
    (
        b"S ::= A B\nA ::= x*\nB ::= x*\nx ~ 'x'\n",
        b"xx",
        b"S 0-2: 0 at 0,1; 0 at 0,0\n",
    ),
];

// Rules of one span: the dangling else, two lexemes of one text, ranks, and levels, which are slots of their own.
static RULE_ROWS: [(&[u8], &[u8], &[u8]); 6] = [
    (
        b"S ::= 'i' S | 'i' S 'e' S | 'x'\n",
        b"iixex",
        b"S 0-5: 0 at 0,1; 1 at 0,1,3,4\n",
    ),
    (
        b"S ::= K | I\nK ::= kw\nI ::= id\nkw ~ 'if'\nid ~ [a-z]+\n",
        b"if",
        b"S 0-1: 0 at 0; 1 at 0\n",
    ),
    (
        b"S ::= K | I rank => 1\nK ::= kw\nI ::= id\nkw ~ 'if'\nid ~ [a-z]+\n",
        b"if",
        b"S 0-1: 1 at 0; 0 at 0\n",
    ),
    (
        b"S ::= E | '(' S ')'\nE ::= F | X || E '+' E\nF ::= X\nX ~ 'x'\n",
        b"x+x",
        b"E 0-1: 2 at 0; 3 at 0\nE/1 2-3: 2 at 2; 3 at 2\n",
    ),
    (
        b"S ::= E '+' E | E\nE ::= F | X || E '+' E\nF ::= X\nX ~ 'x'\n",
        b"x+x",
        b"S 0-3: 0 at 0,1,2; 1 at 0\nE 0-1: 2 at 0; 3 at 0\nE 2-3: 2 at 2; 3 at 2\nE/1 2-3: 2 at 2; 3 at 2\n",
    ),
    (
        b"<the  sum> ::= <the  sum> '+' <the  sum> | N\nN ~ [\\d]\n",
        b"1+2+3",
        b"the sum 0-5: 0 at 0,3,4; 0 at 0,1,2\n",
    ),
];

// Sequences: the separators are children, and of a list without a last separator and one with it the former stands first.
static LIST_ROWS: [(&[u8], &[u8], &[u8]); 4] = [
    (
        b"S ::= L comma | L\nL ::= N+ separator => comma\nN ~ [\\d]\ncomma ~ ','\n",
        b"1,",
        b"S 0-2: 0 at 0,1; 1 at 0\n",
    ),
    (
        b"P ::= T+ separator => T\nT ::= x | x x\nx ~ 'x'\n",
        b"xxx",
        b"P 0-3: 0 at 0,1,2; 0 at 0,2\n",
    ),
    (
        b"P ::= T+ separator => T\nT ::= x x | x x x\nx ~ 'x'\n",
        b"xxxxx",
        b"P 0-5: 0 at 0,3; 0 at 0,2\n",
    ),
    (
        b"S ::= T+\nT ::= x+\nx ~ 'x'\n",
        b"xxx",
        b"S 0-3: 0 at 0,1,2; 0 at 0,2\n",
    ),
];

// One derivation.
static PLAIN_ROWS: [(&[u8], &[u8], &[u8]); 2] = [
    (OPERATORS, b"2**3**2+1*4", b""),
    (b"S ::= X*\nX ~ 'a'\n", b"", b""),
];

#[test]
fn sums_are_compared(rt: HostRuntime) -> Result<(), Fail> {
    assert!(rt; all_told(rt.alloc(), &COMPARED, &SUM_ROWS)?);
    Ok(())
}

#[test]
fn what_spans_nothing_is_compared(rt: HostRuntime) -> Result<(), Fail> {
    assert!(rt; all_told(rt.alloc(), &COMPARED, &EMPTY_ROWS)?);
    Ok(())
}

#[test]
fn rules_are_compared(rt: HostRuntime) -> Result<(), Fail> {
    assert!(rt; all_told(rt.alloc(), &COMPARED, &RULE_ROWS)?);
    Ok(())
}

#[test]
fn lists_are_compared(rt: HostRuntime) -> Result<(), Fail> {
    assert!(rt; all_told(rt.alloc(), &COMPARED, &LIST_ROWS)?);
    Ok(())
}

#[test]
fn one_derivation_has_no_glade(rt: HostRuntime) -> Result<(), Fail> {
    assert!(rt; all_told(rt.alloc(), &COMPARED, &PLAIN_ROWS)?);
    Ok(())
}
