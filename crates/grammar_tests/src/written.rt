//! Written grammars: what they hold, and the rules that they refuse.
use crate::grammars::{add_list, add_names};
use grammar_core::{Assoc, CoreRefusal, Rule, RuleId, SymbolId, Written, WrittenRule};
use std::alloc::Global;
use std::test::Fail;

fn two_symbols(alloc: Global) -> Result<Written, CoreRefusal> {
    let mut w = Written::new(alloc);
    add_names(&mut w, &["E", "'+'"])?;
    Ok(w)
}

// A left side, a part and how often it stands there, a level, and the answer, which is the number of the rule.
type Row = (u32, u32, usize, u32, Result<u32, CoreRefusal>);

static ROWS: &[Row] = &[
    (2, 0, 1, 5, Err(CoreRefusal::BadSymbol)),
    (0, 2, 1001, 1, Err(CoreRefusal::BadSymbol)),
    (0, 1, 1001, 2, Err(CoreRefusal::BadLevel)),
    (0, 1, 1001, 1, Err(CoreRefusal::TooMany)),
    (0, 1, 1000, 1, Ok(0)),
];

// What a grammar of two symbols answers to a rule of two groups.
fn answer(alloc: Global, w: &mut Written, row: &Row) -> Result<u32, CoreRefusal> {
    let rhs = vec![in alloc; SymbolId(row.1); row.2]?;
    let number = w.rule_new(Rule {
        lhs: SymbolId(row.0),
        rhs,
        level: row.3,
        groups: 2,
        assoc: Assoc::Left,
        rank: 0,
        null_high: false,
    })?;
    Ok(number.0)
}

fn is_row(alloc: Global, row: &Row) -> Result<bool, CoreRefusal> {
    let mut w = two_symbols(alloc)?;
    Ok(answer(alloc, &mut w, row) == row.4)
}

#[test]
fn rules_are_refused_in_order(rt: HostRuntime) -> Result<(), Fail> {
    for row in ROWS {
        assert!(rt; is_row(rt.alloc(), row)?);
    }
    Ok(())
}

fn holds_names(w: &mut Written) -> bool {
    let again = w.symbol_new("'+'") == Ok(SymbolId(1));
    let refused = w.start_add(SymbolId(2)) == Err(CoreRefusal::BadSymbol);
    let added = w.start_add(SymbolId(1)) == Ok(());
    let one = w.start_count() == 1 && w.start(0) == SymbolId(1);
    let two = w.symbol_count() == 2 && w.name(SymbolId(1)) == "'+'";
    again && refused && added && one && two
}

#[test]
fn names_and_starts_are_held(rt: HostRuntime) -> Result<(), Fail> {
    let held = holds_names(&mut two_symbols(rt.alloc())?);
    assert!(rt; held);
    Ok(())
}

fn holds_sequence(w: &mut Written) -> bool {
    let added = add_list(w, 1, true, None, false) == Ok(RuleId(0));
    added && w.rule_count() == 1 && matches!(w.written_rule(RuleId(0)), WrittenRule::Sequence(_))
}

#[test]
fn sequences_are_held(rt: HostRuntime) -> Result<(), Fail> {
    let held = holds_sequence(&mut two_symbols(rt.alloc())?);
    assert!(rt; held);
    Ok(())
}
