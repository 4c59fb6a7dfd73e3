//! The check of grammars: what their symbols can do, and refusals with their texts.
use crate::grammars::{add_list, add_names, add_rule};
use grammar_check::{Checked, append_refusal, check};
use grammar_core::{Assoc, CoreRefusal, SymbolId, Written};
use std::alloc::{AllocError as NoMemory, Global};
use std::test::Fail;

// The symbols S, T, X, Y by their numbers.
const S: u32 = 0;

const T: u32 = 1;

const X: u32 = 2;

const Y: u32 = 3;

// A left side, its parts and their level.
type Plain = (u32, &'static [u32], u32);

// S ::= T | X ; T ::= Y || T Y ; X ::= X Y
const LEVELS: &[Plain] = &[
    (S, &[T], 0),
    (S, &[X], 0),
    (T, &[Y], 1),
    (T, &[T, Y], 0),
    (X, &[X, Y], 0),
];

// X ::= Y T ; T ::=
const NULLED: &[Plain] = &[(X, &[Y, T], 0), (T, &[], 0)];

// T ::= T Y ; X ::=
const ENDLESS: &[Plain] = &[(T, &[T, Y], 0), (X, &[], 0)];

const STARTS: &[u32] = &[S, Y, T];

// Whether S is a list of X, too.
#[derive(Clone, Copy)]
enum List {
    No,
    // with Y between
    Star,
    Plus,
}

// Adds the list.
fn add_listed(w: &mut Written, list: List) -> Result<(), CoreRefusal> {
    match list {
        List::No => {}
        List::Star => {
            add_list(w, X, false, Some(SymbolId(Y)), false)?;
        }
        List::Plus => {
            add_list(w, X, true, None, false)?;
        }
    }
    Ok(())
}

// Adds the symbols S, T, X, Y, the rules, the starts and the list.
fn add_all(
    alloc: Global,
    w: &mut Written,
    rules: &[Plain],
    starts: &[u32],
    list: List,
) -> Result<(), CoreRefusal> {
    add_names(w, &["S", "T", "X", "Y"])?;
    for (lhs, parts, level) in rules {
        add_rule(alloc, w, (*lhs, parts), *level, 2, Assoc::Left)?;
    }
    for start in starts {
        w.start_add(SymbolId(*start))?;
    }
    add_listed(w, list)
}

// Whether the slots of the first grammar can do what they should.
fn has_levels(c: &Checked<'_>) -> bool {
    if c.written().symbol_count() != 4 {
        return false;
    }
    let known = c.productive(SymbolId(T))
        && !c.productive(SymbolId(X))
        && c.productive(SymbolId(Y));
    let levels = c.slot_productive(SymbolId(T), 1) && !c.slot_productive(SymbolId(T), 2);
    let met = c.accessible(SymbolId(Y)) && c.accessible(SymbolId(T)) && !c.accessible(SymbolId(X));
    let met_levels = c.slot_accessible(SymbolId(T), 0) && !c.slot_accessible(SymbolId(T), 1);
    known && levels && met && met_levels && !c.nullable(SymbolId(S))
}

// Whether the slots of the grammar with a star can do what they should.
fn has_star(c: &Checked<'_>) -> bool {
    if c.written().symbol_count() != 4 || c.written().rule_count() != 3 {
        return false;
    }
    let nulled = c.nullable(SymbolId(S)) && c.nullable(SymbolId(T)) && !c.nullable(SymbolId(Y));
    let levels = !c.slot_nullable(SymbolId(T), 1) && c.slot_productive(SymbolId(Y), 7);
    nulled && levels && c.accessible(SymbolId(X)) && c.accessible(SymbolId(Y))
}

// Whether the slots of a grammar that is accepted can do what they should.
fn is_accepted(alloc: Global, w: &Written, list: List) -> bool {
    match check(alloc, w) {
        Ok(c) => match list {
            List::Star => has_star(&c),
            _ => has_levels(&c),
        },
        Err(_) => false,
    }
}

// Whether the rules are accepted, with S as the start and the list.
fn are_accepted(alloc: Global, rules: &[Plain], list: List) -> Result<bool, CoreRefusal> {
    let mut w = Written::new(alloc);
    add_all(alloc, &mut w, rules, &STARTS[..1], list)?;
    let accepted = is_accepted(alloc, &w, list);
    drop(w);
    Ok(accepted)
}

#[test]
fn levels_and_dead_rules(rt: HostRuntime) -> Result<(), Fail> {
    assert!(rt; are_accepted(rt.alloc(), LEVELS, List::No)?);
    Ok(())
}

#[test]
fn stars_are_nullable(rt: HostRuntime) -> Result<(), Fail> {
    assert!(rt; are_accepted(rt.alloc(), NULLED, List::Star)?);
    Ok(())
}

// Rules, starts, and what the check tells.
type Case = (&'static [Plain], &'static [u32], &'static str);

static CASES: &[Case] = &[
    (&[], &[S], "no rules"),
    (&[(S, &[Y], 0)], &[], "no start symbol"),
    (
        &[(S, &[Y], 0), (S, &[Y], 0)],
        &[S, T, X],
        "start symbol T has no rule",
    ),
    (
        &[(S, &[Y], 0), (T, &[Y], 0), (S, &[Y], 1)],
        &[S],
        "rule 2 of S is a duplicate",
    ),
    (&[(S, &[Y, S], 0)], &[S], "start symbol S is unproductive"),
    (
        &[(S, &[T], 0), (T, &[S], 0), (T, &[Y], 0)],
        &[S],
        "cyclic: S, T, S",
    ),
    (
        &[(S, &[T, X], 0), (X, &[], 0), (T, &[S], 0), (T, &[Y], 0)],
        &[S],
        "cyclic: S, T, S",
    ),
];

// Of several cycles the least, and none that cannot be met.
static CYCLES: &[Case] = &[
    (
        &[(S, &[Y], 0), (T, &[X], 0), (X, &[T], 0), (X, &[Y], 0)],
        &[S],
        "",
    ),
    (&[(S, &[S], 1), (S, &[Y], 0)], &[S], ""),
    (
        &[
            (S, &[T], 0),
            (S, &[X], 0),
            (T, &[X], 0),
            (X, &[S], 0),
            (X, &[Y], 0),
        ],
        &[S],
        "cyclic: S, X, S",
    ),
    (
        &[
            (S, &[X], 0),
            (S, &[T], 0),
            (X, &[S], 0),
            (T, &[S], 0),
            (T, &[Y], 0),
        ],
        &[S],
        "cyclic: S, T, S",
    ),
    (
        &[(S, &[T, Y], 0), (T, &[X], 0), (X, &[T], 0), (X, &[Y], 0)],
        &[S],
        "cyclic: T, X, T",
    ),
];

// With S ::= X+
static SEQUENCES: &[Case] = &[
    (&[(X, &[Y], 0)], &[S], ""),
    (
        &[(S, &[Y], 0)],
        &[S],
        "S is a sequence and has another rule",
    ),
    (
        &[(X, &[], 0)],
        &[S],
        "sequence S has a nullable item or separator",
    ),
    (&[(X, &[S], 0), (X, &[Y], 0)], &[S], "cyclic: S, X, S"),
];

// With S ::= X+
static FAULTS: &[Case] = &[
    (ENDLESS, STARTS, "start symbol Y has no rule"),
    (
        ENDLESS,
        &[S, T],
        "sequence S has a nullable item or separator",
    ),
];

const UNPRODUCTIVE: Case = (ENDLESS, &[X, T], "start symbol T is unproductive");

// Appends what is told of a grammar.
fn tell(alloc: Global, w: &Written, out: &mut Vec<u8>) -> Result<(), NoMemory> {
    match check(alloc, w) {
        Ok(_) => Ok(()),
        Err(refusal) => append_refusal(w, &refusal, out),
    }
}

// Whether this is told of a grammar.
fn is_told(alloc: Global, w: &Written, text: &str) -> Result<bool, NoMemory> {
    let mut out = Vec::new(alloc);
    tell(alloc, w, &mut out)?;
    Ok(out.as_slice() == text.as_bytes())
}

// Whether this is told of the rules with the list.
fn tells(alloc: Global, case: &Case, list: List) -> Result<bool, Fail> {
    let mut w = Written::new(alloc);
    add_all(alloc, &mut w, case.0, case.1, list)?;
    let told = is_told(alloc, &w, case.2);
    drop(w);
    Ok(told?)
}

fn tell_all(alloc: Global, cases: &[Case], list: List) -> Result<bool, Fail> {
    for case in cases {
        if !tells(alloc, case, list)? {
            return Ok(false);
        }
    }
    Ok(true)
}

#[test]
fn refusals_in_order(rt: HostRuntime) -> Result<(), Fail> {
    assert!(rt; tell_all(rt.alloc(), CASES, List::No)?);
    Ok(())
}

#[test]
fn first_faults(rt: HostRuntime) -> Result<(), Fail> {
    let listed = tell_all(rt.alloc(), FAULTS, List::Plus)?;
    assert!(rt; listed && tells(rt.alloc(), &UNPRODUCTIVE, List::No)?);
    Ok(())
}

#[test]
fn least_cycles(rt: HostRuntime) -> Result<(), Fail> {
    assert!(rt; tell_all(rt.alloc(), CYCLES, List::No)?);
    Ok(())
}

#[test]
fn sequences_are_checked(rt: HostRuntime) -> Result<(), Fail> {
    assert!(rt; tell_all(rt.alloc(), SEQUENCES, List::Plus)?);
    Ok(())
}
