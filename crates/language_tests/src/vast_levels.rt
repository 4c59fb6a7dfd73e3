//! The check of grammars whose rules name levels and groups by the thousand million.
use grammar_check::{Checked, GrammarRefusal, check};
use grammar_core::{Assoc, CoreRefusal, Rule, RuleId, SymbolId, Written};
use std::alloc::Global;
use std::test::Fail;

const GROUPS: u32 = 2_200_000_000;

// The symbols S, E, F, n by their numbers.
const S: u32 = 0;

const E: u32 = 1;

const F: u32 = 2;

const N: u32 = 3;

// A left side, its parts and their level.
type Plain = (u32, &'static [u32], u32);

// S ::= E F, and E and F end at the tightest and at the loosest level.
const SUMS: &[Plain] = &[
    (S, &[E, F], 0),
    (E, &[E, N], 1_000_000_000),
    (E, &[N], 2_199_999_999),
    (F, &[F, N], 2_100_000_000),
    (F, &[N], 0),
];

// E ::= E at one level, and an end at a tighter one.
const LOOP: &[Plain] = &[
    (S, &[E], 0),
    (E, &[E], 2_000_000_000),
    (E, &[N], 2_199_999_999),
];

fn add_rule(
    alloc: Global,
    w: &mut Written,
    (lhs, parts, level): Plain,
) -> Result<RuleId, CoreRefusal> {
    let rhs = parts.iter().map(|part| SymbolId(*part)).collect(alloc)?;
    w.rule_new(Rule {
        lhs: SymbolId(lhs),
        rhs,
        level,
        groups: GROUPS,
        assoc: Assoc::Left,
        rank: 0,
        null_high: false,
    })
}

fn add_all(alloc: Global, w: &mut Written, rules: &[Plain]) -> Result<(), CoreRefusal> {
    for name in &["S", "E", "F", "n"] {
        w.symbol_new(name)?;
    }
    for rule in rules {
        add_rule(alloc, w, *rule)?;
    }
    w.start_add(SymbolId(S))
}

fn grammar(alloc: Global, rules: &[Plain]) -> Result<Written, CoreRefusal> {
    let mut w = Written::new(alloc);
    add_all(alloc, &mut w, rules)?;
    Ok(w)
}

// Whether the slots of the sums can do what they should.
fn has_vast_levels(c: &Checked<'_>) -> bool {
    if c.written().symbol_count() != 4 {
        return false;
    }
    let e = SymbolId(E);
    let f = SymbolId(F);
    let ends = c.slot_productive(e, 1_500_000_000) && c.slot_productive(e, 2_199_999_999);
    let past = !c.slot_productive(e, GROUPS) && c.slot_productive(SymbolId(N), GROUPS);
    let met = c.slot_accessible(e, 0) && c.slot_accessible(e, 1_000_000_000);
    let unmet = !c.slot_accessible(e, 1_000_000_001) && !c.slot_accessible(e, 2_199_999_999);
    let loose = c.productive(f) && !c.slot_productive(f, 1) && !c.slot_accessible(f, 2_100_000_000);
    ends && past && met && unmet && loose
}

// Whether a grammar is accepted and has vast levels.
fn is_accepted(alloc: Global, w: &Written) -> bool {
    match check(alloc, w) {
        Ok(c) => has_vast_levels(&c),
        Err(_) => false,
    }
}

#[test]
fn vast_levels_need_few_slots(rt: HostRuntime) -> Result<(), Fail> {
    let w = grammar(rt.alloc(), SUMS)?;
    assert!(rt; is_accepted(rt.alloc(), &w));
    Ok(())
}

fn is_cycle(cycle: &[(SymbolId, u32)]) -> bool {
    let mut same = cycle.len() == 2;
    for (symbol, level) in cycle {
        same = same && symbol.0 == E && *level == 2_000_000_000;
    }
    same
}

// Whether a grammar is refused for a cycle that goes from E to E at the level.
fn is_loop(alloc: Global, w: &Written) -> bool {
    let Err(GrammarRefusal::Cyclic { cycle }) = check(alloc, w) else {
        return false;
    };
    is_cycle(&cycle)
}

#[test]
fn a_cycle_at_a_vast_level(rt: HostRuntime) -> Result<(), Fail> {
    let w = grammar(rt.alloc(), LOOP)?;
    assert!(rt; is_loop(rt.alloc(), &w));
    Ok(())
}
