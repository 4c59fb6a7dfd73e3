//! Earley sets of worked examples: their sizes, and the alternatives that are refused.
ghost use Rattle.std.specs.Prelude.{◌≡◌, IfOk};
ghost use Rattle.grammar_tests.specs.Example.{sums, sum_of_two, of_one};

use crate::grammars::Language;
use crate::readings::{Step, goes, is_so};
use earley_sets::AlternativeRefusal;
use grammar_core::{Flat, FlatParts, FlatRule, FlatSource, FlatSymbol, RuleId, SymbolId};
use std::alloc::{AllocError, Global};
use std::marker::Brand;
use std::sync::ledger::Blank;
use std::test::Fail;

fn sum_symbols(alloc: Global) -> Result<Vec<FlatSymbol>, AllocError>
    ensures { IfOk result (λ symbols. symbols.items ≡ sums.symbols) }
{
    let e = FlatSymbol::Slot {
        symbol: SymbolId(0),
        level: 0,
    };
    let symbols = vec![in alloc;
        FlatSymbol::Terminal(SymbolId(1)),
        FlatSymbol::Terminal(SymbolId(2)),
        e,
        FlatSymbol::Top(0),
    ]?;
    Ok(symbols)
}

fn rule_of_sum(alloc: Global) -> Result<FlatRule, AllocError>
    ensures { IfOk result (λ rule. rule ≡ sum_of_two) }
{
    Ok(FlatRule {
        lhs: 2,
        rhs: vec![in alloc; 2, 0, 2]?,
        source: FlatSource::Written(RuleId(0)),
    })
}

fn rule_of_one(
    alloc: Global,
    lhs: u32,
    part: u32,
    source: FlatSource,
) -> Result<FlatRule, AllocError>
    ensures { IfOk result (λ rule. rule ≡ of_one lhs part source) }
{
    Ok(FlatRule {
        lhs,
        rhs: vec![in alloc; part]?,
        source,
    })
}

fn sum_rules(alloc: Global) -> Result<Vec<FlatRule>, AllocError>
    ensures { IfOk result (λ rules. rules.items ≡ sums.rules) }
{
    let sum = rule_of_sum(alloc)?;
    let number = rule_of_one(alloc, 2, 1, FlatSource::Written(RuleId(1)))?;
    let top = rule_of_one(alloc, 3, 2, FlatSource::Top(0))?;
    let rules = vec![in alloc; sum, number, top]?;
    Ok(rules)
}

// E -> E '+' E | N
fn sum_grammar(alloc: Global) -> Result<Flat, AllocError>
    ensures { IfOk result (λ f. f ≡ sums) }
{
    let symbols = sum_symbols(alloc)?;
    let rules = sum_rules(alloc)?;
    let nullable = vec![in alloc; false, false, false, false]?;
    let tops = vec![in alloc; 2]?;
    Ok(Flat::from_parts(FlatParts {
        symbols,
        nullable,
        rules,
        tops,
    }))
}

// Whether all steps go as wanted with the sum.
fn sum_goes(alloc: Global, table: &[Step]) -> Result<bool, anyhow::Error> {
    let flat = sum_grammar(alloc)?;
    let so = is_so::<Brand>(Blank::new(1), alloc, &flat, table);
    drop(flat);
    so
}

static SUM_SIZES: &[Step] = &[
    Step::Read(&[2, 1, 2, 1, 2]),
    Step::Ends(true),
    Step::AllKeep(&[3, 3, 3, 5, 4, 7]),
    Step::AllHide(&[0; 6]),
];

#[test]
fn sets_of_a_sum(rt: HostRuntime) -> Result<(), Fail> {
    assert!(rt; sum_goes(rt.alloc(), SUM_SIZES)?);
    Ok(())
}

// What is answered after a number, and what is expected there.
static SUM_ANSWERS: &[Step] = &[
    Step::Read(&[2]),
    Step::Push(2, 0, Err(AlternativeRefusal::Unexpected)),
    Step::Push(1, 0, Err(AlternativeRefusal::BadLength)),
    Step::Push(1, 1_048_577, Err(AlternativeRefusal::BadLength)),
    Step::Push(1, 1, Ok(())),
    Step::Push(1, 1, Err(AlternativeRefusal::Duplicate)),
    Step::Push(1, 0, Err(AlternativeRefusal::BadLength)),
    Step::Push(7, 1, Err(AlternativeRefusal::Unexpected)),
    Step::Expects(&[1]),
];

#[test]
fn alternatives_are_refused_in_order(rt: HostRuntime) -> Result<(), Fail> {
    assert!(rt; sum_goes(rt.alloc(), SUM_ANSWERS)?);
    Ok(())
}

// E -> E '+' E | N
const TWICE: Language = Language {
    names: &["E", "N", "+"],
    lines: &[(0, &[0, 2, 0]), (0, &[1])],
};

// L -> x L | x
const LIST: Language = Language {
    names: &["L", "x"],
    lines: &[(0, &[1, 0]), (0, &[1])],
};

// S -> B B, B -> a, B ->
const PAIR: Language = Language {
    names: &["S", "B", "a"],
    lines: &[(0, &[1, 1]), (1, &[2]), (1, &[])],
};

// A grammar, the tokens that are read, and how many items each set keeps and hides. Some tree spans them all.
type Row = (Language, &'static [Step]);

static ROWS: &[Row] = &[
    (
        TWICE,
        &[
            Step::Read(&[1, 2, 1, 2, 1]),
            Step::Ends(true),
            Step::AllKeep(&[3, 3, 3, 5, 4, 7]),
            Step::AllHide(&[0; 6]),
        ],
    ),
    (
        LIST,
        &[
            Step::Read(&[1, 1, 1, 1]),
            Step::Ends(true),
            Step::AllKeep(&[3, 5, 5, 5, 5]),
            Step::AllHide(&[0, 0, 1, 2, 3]),
        ],
    ),
    (
        PAIR,
        &[
            Step::Read(&[2]),
            Step::Ends(true),
            Step::AllKeep(&[6, 5]),
            Step::AllHide(&[0, 0]),
        ],
    ),
];

static ANSWERS: &[Step] = &[
    Step::Read(&[1]),
    Step::Push(2, 0, Err(AlternativeRefusal::BadLength)),
    Step::Push(1, 1, Err(AlternativeRefusal::Unexpected)),
    Step::Push(2, 1, Ok(())),
    Step::Push(2, 1, Err(AlternativeRefusal::Duplicate)),
    Step::Expects(&[2]),
];

// S -> C x | a B, C -> S, B -> b; flat, the symbols are x, a, b, S, C, B and the top, and the rules stand in this order
const RETURNS: Language = Language {
    names: &["S", "C", "x", "a", "B", "b"],
    lines: &[(0, &[1, 2]), (0, &[3, 4]), (1, &[0]), (4, &[5])],
};

// In the first set two items wait for S, and the one that waits for C waits for more; after `a` one waits for B, and for nothing more.
static STEPS: &[Step] = &[
    Step::Read(&[3]),
    Step::Leads(1, 5, Some((1, 2, 0))),
    Step::Leads(0, 3, None),
    Step::Leads(0, 4, None),
];

#[test]
fn a_completion_leads_on_where_one_item_waits(rt: HostRuntime) -> Result<(), Fail> {
    assert!(rt; goes(rt.alloc(), &RETURNS, STEPS)?);
    Ok(())
}

#[test]
fn sets_have_the_sizes_of_the_rows(rt: HostRuntime) -> Result<(), Fail> {
    for (language, table) in ROWS {
        assert!(rt; goes(rt.alloc(), language, table)?);
    }
    Ok(())
}

#[test]
fn alternatives_are_refused_behind_a_number(rt: HostRuntime) -> Result<(), Fail> {
    assert!(rt; goes(rt.alloc(), &TWICE, ANSWERS)?);
    Ok(())
}
