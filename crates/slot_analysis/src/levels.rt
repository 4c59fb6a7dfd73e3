//! The levels that occur at each symbol, in order.
ghost use Rattle.std.specs.Prelude.{◌≡◌, ℕ, ◌<◌, ◌^◌, length, Contains, IfOk, OnOk, IsTrue, ◌↔◌};
ghost use Rattle.grammar_model.specs.Grammar.{lhs_of, level_of};
ghost use Rattle.grammar_core.specs.Written.{rule_of};
ghost use Rattle.grammar_core.specs.Rules.{groups_of};
ghost use Rattle.std.specs.List.Sorted.{IsStrictlyIncreasing};
ghost use Rattle.horn_clauses.specs.Rows.{HasSameRows};
ghost use Rattle.jagged.specs.Rows.{row_at};
ghost use Rattle.slot_analysis.specs.Packed.{count_below, HasFirsts, HasBoth, HoldsLevels, IsLevelTable};

use grammar_core::{Written, WrittenRule};
use horn_clauses::Gathered;
use jagged::Jagged;
use std::alloc::{AllocError, Global};

/// How many of the levels are below this one.
pub fn place(levels: &[u32], level: u32) -> u32
    requires { IsStrictlyIncreasing levels.now }
    ensures { result ≡ count_below levels.now level }
{
    match levels.binary_search(&level) {
        Ok(k) => k as u32,
        Err(k) => k as u32,
    }
}

/// Whether the level is one of these.
pub fn is_level(levels: &[u32], level: u32) -> bool
    requires { IsStrictlyIncreasing levels.now }
    ensures { IsTrue result ↔ Contains levels.now level }
{
    levels.binary_search(&level).is_ok()
}

fn sort(levels: &mut Vec<u32>) -> Result<(), AllocError>
    ensures sorted { OnOk result (IsStrictlyIncreasing levels.new.items) }
    ensures same { OnOk result ((l : ℕ) →
        Contains levels.new.items l ↔ Contains levels.old.items l) }
{
    levels.sort()?;
    levels.dedup();
    Ok(())
}

// Puts a row, sorted, in the place of what the list had.
fn put_sorted(row: &[u32], levels: &mut Vec<u32>) -> Result<(), AllocError>
    ensures sorted { OnOk result (IsStrictlyIncreasing levels.new.items) }
    ensures same { OnOk result ((l : ℕ) → Contains levels.new.items l ↔ Contains row.now l) }
{
    levels.clear();
    levels.extend_from_slice(row)?;
    sort(levels)
}

// The rows, each of them sorted.
fn sort_all(alloc: Global, rows: &Jagged<u32>) -> Result<Jagged<u32>, AllocError>
    ensures same { IfOk result (λ sorted. HasSameRows rows.now sorted) }
    ensures sorted { IfOk result (λ sorted. (s : ℕ) → IsStrictlyIncreasing (row_at sorted s)) }
{
    let mut sorted = Jagged::new(alloc);
    let mut levels = Vec::new(alloc);
    for s in 0..rows.len() {
        put_sorted(rows.row(s), &mut levels)?;
        sorted.push(&levels)?;
    }
    Ok(sorted)
}

// Level 0 in each row.
fn push_firsts(rows: &mut Gathered) -> Result<(), AllocError>
    requires { length rows.old < 2 ^ 32 }
    ensures { OnOk result (HasFirsts (length rows.old) rows.new) }
{
    for s in 0..rows.len() {
        rows.add(s as u32, 0)?;
    }
    Ok(())
}

// The rule's level and the next one, in the row of its left side.
fn push_rule(rule: &WrittenRule, rows: &mut Gathered) -> Result<(), AllocError>
    requires row { lhs_of (rule_of rule.now) < length rows.old }
    requires level { level_of (rule_of rule.now) < groups_of (rule_of rule.now) }
    ensures { OnOk result (HasBoth rows.old rows.new (lhs_of (rule_of rule.now))
        (level_of (rule_of rule.now))) }
{
    // A level is below its groups, so there is a next one.
    let _groups = rule.groups();
    let left = rule.lhs();
    let level = rule.level();
    rows.add(left.0, level)?;
    rows.add(left.0, level + 1)
}

// The levels of the rules and next to those, in any order.
fn push_rules(w: &Written, rows: &mut Gathered) -> Result<(), AllocError>
    requires { HasFirsts (length w.now.names) rows.old }
    ensures { OnOk result (HoldsLevels w.now (length w.now.rules) rows.new) }
{
    for i in 0..w.rule_count() {
        push_rule(w.rule(i), rows)?;
    }
    Ok(())
}

/// For each symbol, in order, the levels 0, of its rules, and next to those.
pub fn levels_of(alloc: Global, w: &Written) -> Result<Jagged<u32>, AllocError>
    ensures { IfOk result (λ rows. IsLevelTable w.now rows) }
{
    let mut gathered = Gathered::new(alloc, w.symbol_count());
    push_firsts(&mut gathered)?;
    push_rules(w, &mut gathered)?;
    let rows = gathered.rows(alloc)?;
    sort_all(alloc, &rows)
}
