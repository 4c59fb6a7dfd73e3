//! What a grammar grants while it is built.
ghost use Rattle.std.specs.Prelude.{◌≡◌, ◌<◌, ◌≤◌, ◌&&◌, Option, length, map, nat_lt, IfOk};
ghost use Rattle.std.specs.List.{list_all};
ghost use Rattle.grammar_model.specs.Grammar.{Plain};
ghost use Rattle.grammar_core.specs.Refusals.{knows, rule_refusal};
ghost use Rattle.recognizer_model.specs.View.{plain_rule};
ghost use Rattle.marpa_script.specs.Machines.{building};
ghost use Rattle.scanning_calls.specs.Calls.{refusal_of, sequence_by, RuleAnswers, StartAnswers, SymbolAnswers};

use crate::ScanRefusal;
use grammar_core::{Assoc, CoreRefusal, Rule, SeqRule, SymbolId, Written};
use grammar_model::MOST_ENTRIES;
use std::alloc::{AllocError, Global};

const MOST_PARTS: usize = 1_000;

fn refused(refusal: CoreRefusal) -> ScanRefusal
    ensures { result ≡ refusal_of refusal }
{
    match refusal {
        CoreRefusal::BadSymbol => ScanRefusal::BadSymbol,
        CoreRefusal::BadLevel => ScanRefusal::BadSymbol,
        CoreRefusal::TooMany => ScanRefusal::TooMany,
        CoreRefusal::NoMemory => ScanRefusal::NoMemory,
    }
}

/// The number of the symbol with this name, which becomes a new symbol if none has it.
pub fn add_symbol(w: &mut Written, name: &str) -> Result<u32, ScanRefusal>
    ensures { SymbolAnswers (building w.old) name.now result (building w.new) }
{
    match w.symbol_new(name) {
        Ok(symbol) => Ok(symbol.0),
        Err(refusal) => Err(refused(refusal)),
    }
}

fn know_all(symbols: &[u32], count: usize) -> bool
    ensures { result ≡ list_all (λ s. nat_lt s count) symbols.now }
{
    symbols.iter().all(|s| (*s as usize) < count)
}

// Why there is no rule of this left side and these parts, if so.
fn why_no_rule(w: &Written, left: u32, parts: &[u32]) -> Option<CoreRefusal>
    ensures { result ≡ rule_refusal w.now (plain_rule left parts.now) }
{
    let count = w.symbol_count();
    if left as usize >= count || !know_all(parts, count) {
        return Some(CoreRefusal::BadSymbol);
    }
    if parts.len() > MOST_PARTS || w.rule_count() >= MOST_ENTRIES {
        return Some(CoreRefusal::TooMany);
    }
    None
}

fn symbols_of(alloc: Global, numbers: &[u32]) -> Result<Vec<SymbolId>, AllocError>
    ensures { IfOk result (λ symbols. symbols.items ≡ numbers.now) }
{
    let mut symbols = Vec::with_capacity(alloc, numbers.len())?;
    for number in numbers {
        symbols.push(SymbolId(*number))?;
    }
    Ok(symbols)
}

// A rule without ranks, of the one group of its statement.
fn plain(lhs: SymbolId, rhs: Vec<SymbolId>) -> Rule
    ensures { Plain result ≡ plain_rule lhs rhs.items }
{
    Rule {
        lhs,
        rhs,
        level: 0,
        groups: 1,
        assoc: Assoc::Left,
        rank: 0,
        null_high: false,
    }
}

/// One more rule, and its number.
pub fn add_rule(
    alloc: Global,
    w: &mut Written,
    left: u32,
    parts: &[u32],
) -> Result<u32, ScanRefusal>
    ensures { RuleAnswers (building w.old) (plain_rule left parts.now) result (building w.new) }
{
    if let Some(refusal) = why_no_rule(w, left, parts) {
        return Err(refused(refusal));
    }
    let Ok(symbols) = symbols_of(alloc, parts) else {
        return Err(ScanRefusal::NoMemory);
    };
    match w.rule_new(plain(SymbolId(left), symbols)) {
        Ok(rule) => Ok(rule.0),
        Err(refusal) => Err(refused(refusal)),
    }
}

fn symbol_in(number: Option<u32>) -> Option<SymbolId>
    ensures { result ≡ number }
{
    match number {
        Some(number) => Some(SymbolId(number)),
        None => None,
    }
}

/// One more rule for a sequence of items, and its number.
pub fn add_sequence(
    w: &mut Written,
    left: u32,
    item: u32,
    plus: bool,
    separator: Option<u32>,
    proper: bool,
) -> Result<u32, ScanRefusal>
    ensures { RuleAnswers (building w.old) (sequence_by left item plus separator proper) result (building w.new) }
{
    let rule = SeqRule {
        lhs: SymbolId(left),
        item: SymbolId(item),
        plus,
        separator: symbol_in(separator),
        proper,
        rank: 0,
        null_high: false,
    };
    match w.sequence_new(rule) {
        Ok(rule) => Ok(rule.0),
        Err(refusal) => Err(refused(refusal)),
    }
}

/// The start.
pub fn add_start(w: &mut Written, symbol: u32) -> Result<(), ScanRefusal>
    ensures { StartAnswers (building w.old) symbol result (building w.new) }
{
    if symbol as usize >= w.symbol_count() {
        return Err(ScanRefusal::BadSymbol);
    }
    if w.start_count() > 0 {
        return Err(ScanRefusal::SecondStart);
    }
    match w.start_add(SymbolId(symbol)) {
        Ok(()) => Ok(()),
        Err(refusal) => Err(refused(refusal)),
    }
}
