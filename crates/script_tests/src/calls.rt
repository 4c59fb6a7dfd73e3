//! Calls of a scanner and what they answer, by hand from the definition: in each state, with tokens that overlap, and what is kept of derivations.
use grammar_core::{RuleId, SymbolId, TreeStep};
use scanning_calls::{ScanRefusal, Scanning};
use std::alloc::Global;
use std::test::Fail;

// Symbols and rules are told by their numbers.
#[derive(Clone, Copy)]
enum Call {
    Symbol(&'static str),
    Rule(u32, &'static [u32]),
    Items(u32, u32, Option<u32>),
    Start(u32),
    Precompute,
    Token(u32, u32),
    Complete,
    Expected,
    Derivations(u64, u64),
    Restart,
}

use Call::{
    Complete, Derivations, Expected, Items, Precompute, Restart, Rule, Start, Symbol, Token,
};

// A call, and the number that is told, or how many terminals or derivations, or 0; or why it is refused.
type Row = (Call, Result<u32, ScanRefusal>);

// Each call before its time or of numbers that there are not, and what is missing before the grammar is ready. A phrase, symbol 0, is one
// noun, symbol 1, or two.
const BUILT: &[Row] = &[
    (Precompute, Err(ScanRefusal::BadGrammar)),
    (Rule(0, &[]), Err(ScanRefusal::BadSymbol)),
    (Symbol("phrase"), Ok(0)),
    (Symbol("noun"), Ok(1)),
    (Symbol("phrase"), Ok(0)),
    (Symbol("a name of words"), Ok(2)),
    (Symbol(""), Ok(3)),
    (Rule(4, &[1]), Err(ScanRefusal::BadSymbol)),
    (Rule(0, &[1, 4]), Err(ScanRefusal::BadSymbol)),
    (Items(4, 1, None), Err(ScanRefusal::BadSymbol)),
    (Items(0, 4, None), Err(ScanRefusal::BadSymbol)),
    (Items(0, 1, Some(4)), Err(ScanRefusal::BadSymbol)),
    (Start(4), Err(ScanRefusal::BadSymbol)),
    (Token(1, 1), Err(ScanRefusal::NotNow)),
    (Complete, Err(ScanRefusal::NotNow)),
    (Expected, Err(ScanRefusal::NotNow)),
    (Derivations(0, 1), Err(ScanRefusal::NotNow)),
    (Restart, Err(ScanRefusal::NotNow)),
    (Rule(0, &[1]), Ok(0)),
    (Precompute, Err(ScanRefusal::BadGrammar)),
    (Start(0), Ok(0)),
    (Start(0), Err(ScanRefusal::SecondStart)),
    (Start(1), Err(ScanRefusal::SecondStart)),
    (Rule(0, &[1, 1]), Ok(1)),
    (Precompute, Ok(0)),
];

// Each call after its time, the refusals of tokens in their order, a long noun beside two short ones, a place after the last, and all again.
const READ: &[Row] = &[
    (Precompute, Err(ScanRefusal::NotNow)),
    (Symbol("phrase"), Err(ScanRefusal::NotNow)),
    (Rule(0, &[1]), Err(ScanRefusal::NotNow)),
    (Items(0, 1, None), Err(ScanRefusal::NotNow)),
    (Start(0), Err(ScanRefusal::NotNow)),
    (Expected, Ok(1)),
    (Derivations(0, 9), Ok(0)),
    (Token(0, 1), Err(ScanRefusal::Unexpected)),
    (Token(9, 0), Err(ScanRefusal::Unexpected)),
    (Token(1, 0), Err(ScanRefusal::BadLength)),
    (Token(1, 1_048_577), Err(ScanRefusal::BadLength)),
    (Token(1, 1), Ok(0)),
    (Token(1, 2), Ok(0)),
    (Token(1, 2), Err(ScanRefusal::Duplicate)),
    (Complete, Ok(1)),
    (Derivations(0, 9), Ok(1)),
    (Token(1, 1), Ok(0)),
    (Complete, Ok(2)),
    (Derivations(0, 9), Ok(2)),
    (Derivations(0, 1), Ok(1)),
    (Derivations(1, 9), Ok(1)),
    (Derivations(2, 9), Ok(0)),
    (Derivations(0, 0), Ok(0)),
    (Expected, Ok(1)),
    (Complete, Ok(3)),
    (Expected, Ok(0)),
    (Token(1, 1), Err(ScanRefusal::Unexpected)),
    (Derivations(0, 9), Ok(0)),
    (Restart, Ok(0)),
    (Derivations(0, 9), Ok(0)),
    (Expected, Ok(1)),
    (Token(1, 1_048_576), Ok(0)),
    (Complete, Ok(1)),
];

// A list, symbol 0, is a sign, symbol 1, which spans nothing, and items, symbol 2: an item, symbol 3, at least, and commas, symbol 4, between.
const LISTED: &[Row] = &[
    (Symbol("list"), Ok(0)),
    (Symbol("sign"), Ok(1)),
    (Symbol("items"), Ok(2)),
    (Symbol("item"), Ok(3)),
    (Symbol("comma"), Ok(4)),
    (Rule(0, &[1, 2]), Ok(0)),
    (Rule(1, &[]), Ok(1)),
    (Items(2, 3, Some(4)), Ok(2)),
    (Start(0), Ok(0)),
    (Precompute, Ok(0)),
    (Token(3, 1), Ok(0)),
    (Complete, Ok(1)),
    (Token(4, 1), Ok(0)),
    (Complete, Ok(2)),
    (Derivations(0, 9), Ok(0)),
    (Token(3, 1), Ok(0)),
    (Complete, Ok(3)),
    (Derivations(0, 9), Ok(1)),
];

fn done(answer: Result<(), ScanRefusal>) -> Result<u32, ScanRefusal> {
    answer?;
    Ok(0)
}

// How many there are, of a few.
fn count(items: usize) -> u32 {
    items.min(100) as u32
}

fn precomputed(alloc: Global, scan: &mut Scanning) -> Result<u32, ScanRefusal> {
    let mut text = Vec::new(alloc);
    done(scan.precompute(alloc, &mut text))
}

fn answer(alloc: Global, scan: &mut Scanning, call: Call) -> Result<u32, ScanRefusal> {
    match call {
        Symbol(name) => scan.symbol(name),
        Rule(left, parts) => scan.rule(alloc, left, parts),
        Items(left, item, separator) => scan.sequence(left, item, true, separator, true),
        Start(symbol) => done(scan.start(symbol)),
        Precompute => precomputed(alloc, scan),
        Token(symbol, length) => done(scan.alternative(symbol, length)),
        Complete => scan.complete(),
        Expected => Ok(count(scan.expected(alloc)?.len())),
        Derivations(skip, most) => Ok(count(
            scan.derivations(alloc, skip, most)?.derivations.len(),
        )),
        Restart => done(scan.restart()),
    }
}

// Whether the calls are answered so, one after another.
fn are_answered(alloc: Global, scan: &mut Scanning, rows: &[Row]) -> bool {
    for (call, wanted) in rows {
        if answer(alloc, scan, *call) != *wanted {
            return false;
        }
    }
    true
}

#[test]
fn calls_are_answered(rt: HostRuntime) -> Result<(), Fail> {
    let mut scan = Scanning::new(rt.alloc());
    assert!(rt; are_answered(rt.alloc(), &mut scan, BUILT));
    assert!(rt; are_answered(rt.alloc(), &mut scan, READ));
    Ok(())
}

fn token(symbol: u32, from: u32, to: u32) -> TreeStep {
    TreeStep::Token {
        symbol: SymbolId(symbol),
        from,
        to,
    }
}

fn rule(rule: u32, children: u32, from: u32, to: u32) -> TreeStep {
    TreeStep::Rule {
        rule: RuleId(rule),
        children,
        from,
        to,
    }
}

// Whether so many derivations of three places are kept, with these steps in the last, and more after them or not.
fn are_kept(
    alloc: Global,
    rows: &[Row],
    most: u64,
    wanted: &[TreeStep],
    more: bool,
) -> Result<bool, Fail> {
    let mut scan = Scanning::new(alloc);
    if !are_answered(alloc, &mut scan, rows) {
        return Ok(false);
    }
    let kept = scan.derivations(alloc, 0, most)?;
    match kept.derivations.last() {
        Some(steps) => Ok(steps.as_slice() == wanted && kept.more == more),
        None => Ok(false),
    }
}

#[test]
fn derivations_are_kept_by_their_steps(rt: HostRuntime) -> Result<(), Fail> {
    let alloc = rt.alloc();
    let sign = TreeStep::Nulled {
        symbol: SymbolId(1),
        at: 0,
    };
    let list = [
        sign,
        token(3, 0, 1),
        token(4, 1, 2),
        token(3, 2, 3),
        rule(2, 3, 0, 3),
        rule(0, 2, 0, 3),
    ];
    assert!(rt; are_kept(alloc, LISTED, 9, &list, false)?);
    Ok(())
}

#[test]
fn why_a_grammar_is_not_ready_is_told(rt: HostRuntime) -> Result<(), Fail> {
    let alloc = rt.alloc();
    let mut scan = Scanning::new(alloc);
    let mut text = b"what stood there".to_vec(alloc)?;
    assert!(rt; scan.precompute(alloc, &mut text) == Err(ScanRefusal::BadGrammar));
    assert!(rt; text.as_slice() == "no rules".as_bytes());
    Ok(())
}
