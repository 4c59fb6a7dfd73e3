//! The flat grammar of a checked one.
ghost use Rattle.std.specs.Prelude.{◌≡◌, ℕ, ◌+◌, ◌-◌, ◌<◌, ◌≤◌, ◌^◌, ◌++◌, ◌∷◌, [], false, length, map, slice_index, Contains, IfOk, IfErr, OnOk};
ghost use Rattle.grammar_model.specs.Grammar.{Plain, rule_at, lhs_of, slot_of};
ghost use Rattle.grammar_model.specs.Simple.{numbers};
ghost use Rattle.grammar_model.specs.declared.limits.TheConstants.{MOST_FLAT_RULES};
ghost use Rattle.recognizer_model.specs.declared.flat.FlatSymbol.TheVariants.{Terminal, Slot, Sequence, Top};
ghost use Rattle.flat_rules.specs.declared.refusal.FlatRefusal.TheVariants.{TooManyRules};
ghost use Rattle.flat_model.specs.Flatten.{Decided, symbol_for, is_marked, flat_of, symbols as symbols_of};
ghost use Rattle.flat_rules.specs.Tables.{rows_of, row_at, AreLefts, AreLive, AreNumbers, told_slot};
ghost use Rattle.flat_model.specs.Flattened.{IsFlattened, HasTooMany};
ghost use Rattle.flat_rules.specs.Added.{Adds, AreAll, from_rules, from_symbols, top_by};

use crate::FlatRefusal;
use crate::lefts::{live_rules, rules_by_left};
use crate::numbering::{SlotKey, Symbols, has_none, symbols_of};
use crate::pushing::{copied, push_for_slot, push_items, push_rule};
use grammar_check::Checked;
use grammar_core::{Flat, FlatParts, RuleId, SymbolId, Written};
use recognizer_model::{FlatRule, FlatSource, FlatSymbol};
use std::alloc::{AllocError, AllocFailed, Global};

// The rules of a slot.
fn push_row(
    alloc: Global,
    c: &Checked<'_>,
    symbols: &Symbols,
    live: &[bool],
    slot: SlotKey,
    row: &[u32],
    rules: &mut Vec<FlatRule>,
) -> Result<(), FlatRefusal>
    requires row { (i : ℕ) → Contains row.now i →
        (i < length c.now.rules) × (lhs_of (rule_at c.now i) ≡ slot.symbol) }
    requires live { AreLive c.now live.now }
    requires numbers { AreNumbers c.now symbols.now }
    ensures { (d : Decided c.now) →
        Adds rules.old.items rules.new.items
        (from_rules c.now d symbols.now (told_slot slot) row.now) result }
{
    for i in row {
        push_for_slot(alloc, c, symbols, live, slot, *i as usize, rules)?;
    }
    Ok(())
}

fn push_slots(
    alloc: Global,
    c: &Checked<'_>,
    symbols: &Symbols,
    rows: &[Vec<u32>],
    live: &[bool],
    rules: &mut Vec<FlatRule>,
) -> Result<(), FlatRefusal>
    requires rows { AreLefts c.now (rows_of rows.now) }
    requires live { AreLive c.now live.now }
    requires numbers { AreNumbers c.now symbols.now }
    ensures { (d : Decided c.now) →
        Adds rules.old.items rules.new.items
        (from_symbols c.now d symbols.now (map (symbol_for c.now d) symbols.now.slots)) result }
{
    c.tested();
    c.written().known();
    for x in 0..symbols.slot_count() {
        let slot = symbols.slot(x);
        push_row(
            alloc,
            c,
            symbols,
            live,
            slot,
            &rows[slot.symbol as usize],
            rules,
        )?;
    }
    Ok(())
}

fn push_lists(
    alloc: Global,
    c: &Checked<'_>,
    symbols: &Symbols,
    rules: &mut Vec<FlatRule>,
) -> Result<(), FlatRefusal>
    requires { AreNumbers c.now symbols.now }
    ensures { (d : Decided c.now) →
        Adds rules.old.items rules.new.items
        (from_symbols c.now d symbols.now (map Sequence symbols.now.lists)) result }
{
    c.tested();
    c.written().known();
    let lists = symbols.lists();
    for i in lists {
        push_items(alloc, c, symbols, *i as usize, rules)?;
    }
    Ok(())
}

fn push_top(
    alloc: Global,
    w: &Written,
    symbols: &Symbols,
    k: usize,
    rules: &mut Vec<FlatRule>,
) -> Result<(), FlatRefusal>
    requires start { k < length w.now.starts }
    requires numbers { AreNumbers w.now symbols.now }
    ensures { Adds rules.old.items rules.new.items
        (top_by symbols.now k (slice_index w.now.starts k) ∷ []) result }
{
    let start = w.start(k);
    let lhs = symbols.top_number(k);
    let rhs = copied(alloc, &[symbols.slot_number(start.0, 0)])?;
    push_rule(
        rules,
        FlatRule {
            lhs,
            rhs,
            source: FlatSource::Top(k as u32),
        },
    )
}

fn push_tops(
    alloc: Global,
    w: &Written,
    symbols: &Symbols,
    rules: &mut Vec<FlatRule>,
) -> Result<(), FlatRefusal>
    requires { AreNumbers w.now symbols.now }
    ensures { (d : Decided w.now) →
        Adds rules.old.items rules.new.items
        (from_symbols w.now d symbols.now (map Top (numbers (length w.now.starts)))) result }
{
    for k in 0..w.start_count() {
        push_top(alloc, w, symbols, k, rules)?;
    }
    Ok(())
}

// The symbol of a slot.
fn symbol_of(rows: &[Vec<u32>], slot: SlotKey) -> FlatSymbol
    requires { slot.symbol < length rows.now }
    ensures terminal { row_at (rows_of rows.now) slot.symbol ≡ [] → result ≡ Terminal slot.symbol }
    ensures left { (row_at (rows_of rows.now) slot.symbol ≡ [] → ⊥) →
        result ≡ Slot slot.symbol slot.level }
{
    let symbol = SymbolId(slot.symbol);
    if has_none(&rows[slot.symbol as usize]) {
        FlatSymbol::Terminal(symbol)
    } else {
        FlatSymbol::Slot {
            symbol,
            level: slot.level,
        }
    }
}

// The symbols of slots, and whether they are nullable.
fn list_slots(
    c: &Checked<'_>,
    symbols: &Symbols,
    rows: &[Vec<u32>],
    list: &mut Vec<FlatSymbol>,
    marks: &mut Vec<bool>,
) -> Result<(), AllocError>
    requires rows { AreLefts c.now (rows_of rows.now) }
    requires numbers { AreNumbers c.now symbols.now }
    ensures list { OnOk result ((d : Decided c.now) →
        list.new.items ≡ list.old.items ++ map (symbol_for c.now d) symbols.now.slots) }
    ensures marks { OnOk result ((d : Decided c.now) →
        marks.new.items ≡
        marks.old.items ++
        map (is_marked c.now d) (map (symbol_for c.now d) symbols.now.slots)) }
{
    c.tested();
    c.written().known();
    for x in 0..symbols.slot_count() {
        let slot = symbols.slot(x);
        list.push(symbol_of(rows, slot))?;
        marks.push(c.slot_nullable(SymbolId(slot.symbol), slot.level))?;
    }
    Ok(())
}

// The symbols of lists, which are not nullable.
fn list_lists(
    symbols: &Symbols,
    list: &mut Vec<FlatSymbol>,
    marks: &mut Vec<bool>,
) -> Result<(), AllocError>
    ensures list { OnOk result (list.new.items ≡ list.old.items ++ map Sequence symbols.now.lists) }
    ensures marks { OnOk result (marks.new.items ≡
        marks.old.items ++ map (λ i. false) symbols.now.lists) }
{
    let lists = symbols.lists();
    for i in lists {
        list.push(FlatSymbol::Sequence(RuleId(*i)))?;
        marks.push(false)?;
    }
    Ok(())
}

// The tops, each nullable where its start is.
fn list_tops(
    c: &Checked<'_>,
    list: &mut Vec<FlatSymbol>,
    marks: &mut Vec<bool>,
) -> Result<(), AllocError>
    ensures list { OnOk result (list.new.items ≡
        list.old.items ++ map Top (numbers (length c.now.starts))) }
    ensures marks { OnOk result ((d : Decided c.now) →
        marks.new.items ≡
        marks.old.items ++ map (is_marked c.now d) (map Top (numbers (length c.now.starts)))) }
{
    let w = c.written();
    for k in 0..w.start_count() {
        list.push(FlatSymbol::Top(k as u32))?;
        marks.push(c.nullable(w.start(k)))?;
    }
    Ok(())
}

// The top rules, which are the last ones.
fn top_rules(alloc: Global, rules: &[FlatRule], count: usize) -> Result<Vec<u32>, AllocError>
    requires count { count ≤ length rules.now }
    requires small { length rules.now < 2 ^ 32 }
    ensures { IfOk result (λ tops. tops.items ≡
        map (λ k. (length rules.now - count) + k) (numbers count)) }
{
    let before = rules.len() - count;
    let mut tops = Vec::new(alloc);
    for k in 0..count {
        tops.push((before + k) as u32)?;
    }
    Ok(tops)
}

// The rules of all symbols, in the order of the symbols.
fn flat_rules(
    alloc: Global,
    c: &Checked<'_>,
    symbols: &Symbols,
    rows: &[Vec<u32>],
    live: &[bool],
) -> Result<Vec<FlatRule>, FlatRefusal>
    requires rows { AreLefts c.now (rows_of rows.now) }
    requires live { AreLive c.now live.now }
    requires numbers { AreNumbers c.now symbols.now }
    ensures { (d : Decided c.now) → AreAll (flat_of c.now d).rules result }
{
    c.known();
    let mut rules = Vec::new(alloc);
    push_slots(alloc, c, symbols, rows, live, &mut rules)?;
    push_lists(alloc, c, symbols, &mut rules)?;
    push_tops(alloc, c.written(), symbols, &mut rules)?;
    Ok(rules)
}

// The symbols, and whether they are nullable.
fn flat_symbols(
    alloc: Global,
    c: &Checked<'_>,
    symbols: &Symbols,
    rows: &[Vec<u32>],
) -> Result<(Vec<FlatSymbol>, Vec<bool>), AllocError>
    requires rows { AreLefts c.now (rows_of rows.now) }
    requires numbers { AreNumbers c.now symbols.now }
    ensures list { IfOk result (λ r. (d : Decided c.now) → r.0.items ≡ symbols_of c.now d) }
    ensures marks { IfOk result (λ r. (d : Decided c.now) →
        r.1.items ≡ map (is_marked c.now d) (symbols_of c.now d)) }
{
    let mut list = Vec::new(alloc);
    let mut marks = Vec::new(alloc);
    list_slots(c, symbols, rows, &mut list, &mut marks)?;
    list_lists(symbols, &mut list, &mut marks)?;
    list_tops(c, &mut list, &mut marks)?;
    Ok((list, marks))
}

// The parts of the flat grammar, by the numbers of its symbols.
fn parts_by(
    alloc: Global,
    c: &Checked<'_>,
    numbers: &Symbols,
    rows: &[Vec<u32>],
    live: &[bool],
) -> Result<FlatParts, FlatRefusal>
    requires rows { AreLefts c.now (rows_of rows.now) }
    requires live { AreLive c.now live.now }
    requires numbers { AreNumbers c.now numbers.now }
    ensures flat { IfOk result (λ parts. (d : Decided c.now) → parts ≡ flat_of c.now d) }
    ensures few { IfOk result (λ parts. length parts.rules ≤ MOST_FLAT_RULES) }
    ensures small { IfOk result (λ parts. length parts.symbols < 2 ^ 32) }
    ensures many { IfErr result (λ e. e ≡ TooManyRules → (d : Decided c.now) →
        MOST_FLAT_RULES < length (flat_of c.now d).rules) }
{
    c.tested();
    c.known();
    let w = c.written();
    let starts = w.start_count();
    let rules = flat_rules(alloc, c, numbers, rows, live)?;
    let tops = top_rules(alloc, &rules, starts)?;
    let (symbols, nullable) = flat_symbols(alloc, c, numbers, rows)?;
    Ok(FlatParts {
        symbols,
        nullable,
        rules,
        tops,
    })
}

// The parts of the flat grammar.
fn parts_of(alloc: Global, c: &Checked<'_>) -> Result<FlatParts, FlatRefusal>
    ensures flat { IfOk result (λ parts. (d : Decided c.now) → parts ≡ flat_of c.now d) }
    ensures few { IfOk result (λ parts. length parts.rules ≤ MOST_FLAT_RULES) }
    ensures small { IfOk result (λ parts. length parts.symbols < 2 ^ 32) }
    ensures many { IfErr result (λ e. e ≡ TooManyRules → (d : Decided c.now) →
        MOST_FLAT_RULES < length (flat_of c.now d).rules) }
{
    let rows = rules_by_left(alloc, c.written())?;
    let live = live_rules(alloc, c)?;
    let numbers = symbols_of(alloc, c, &rows, &live)?;
    parts_by(alloc, c, &numbers, &rows, &live)
}

/// The flat grammar of a checked one.
pub fn flatten(alloc: Global, c: &Checked<'_>) -> Result<Flat, FlatRefusal>
    ensures flat { IfOk result (λ f. IsFlattened c.now f) }
    ensures many { IfErr result (λ e. e ≡ TooManyRules → HasTooMany c.now) }
{
    c.tested();
    c.known();
    c.written().known();
    let parts = parts_of(alloc, c)?;
    Ok(Flat::from_parts(parts))
}
