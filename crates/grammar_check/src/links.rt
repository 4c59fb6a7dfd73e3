//! Steps between slots: from a slot to one that can stand in its tree with nothing beside it.
ghost use Rattle.std.specs.Prelude.{true, false, ◌≡◌, ◌≢◌, ℕ, suc, ◌+◌, ◌-◌, ◌<◌, ◌≤◌, ◌^◌, length, slice_index, Contains, IfOk, OnOk, IsTrue, ◌↔◌};
ghost use Rattle.grammar_model.specs.Grammar.{rule_at, child_slot, slot_of};
ghost use Rattle.grammar_model.specs.Analysis.{IsNullable, IsProductive, IsAccessible};
ghost use Rattle.jagged.specs.Rows.{row_at};
ghost use Rattle.slot_analysis.specs.Slots.{number, end_of, IsNumbering, needed_of};
ghost use Rattle.slot_analysis.specs.Clauses.{IsAnalysis};
ghost use Rattle.slot_analysis.specs.Steps.{head_of, IsReach};
ghost use Rattle.grammar_check.specs.Linked.{HasPairs, IsLinkAt, IsLinkOf, IsLinkTo, IsFloored};

use horn_clauses::{Gathered, NumberSet};
use jagged::Jagged;
use slot_analysis::{Packed, Slots, child_number, head_number};
use std::alloc::{AllocError, Global};

fn is_part_nullable(w: &Packed<'_>, bases: &[u32], nullable: &NumberSet, i: usize, k: usize) -> bool
    requires rule { i < length w.now.rules }
    requires numbering { IsNumbering w.now bases.now }
    requires nullable { IsAnalysis true w.now bases.now nullable.now }
    requires part { k < needed_of (rule_at w.now i) }
    ensures { IsTrue result ↔ IsNullable w.now (child_slot (rule_at w.now i) k) }
{
    w.known();
    nullable.has(child_number(w, bases, i, k))
}

// Whether the part can stand in a tree of a start.
fn is_part_used(w: &Packed<'_>, slots: &Slots<'_>, i: usize, k: usize) -> bool
    requires rule { i < length w.now.rules }
    requires numbering { IsNumbering w.now slots.now.bases.now }
    requires productive { IsAnalysis false w.now slots.now.bases.now slots.now.productive.now }
    requires reach { IsReach w.now slots.now.bases.now slots.now.reach.now }
    requires part { k < needed_of (rule_at w.now i) }
    ensures { IsTrue result ↔
        (IsAccessible w.now (child_slot (rule_at w.now i) k) ×
        IsProductive w.now (child_slot (rule_at w.now i) k)) }
{
    w.known();
    let child = child_number(w, slots.bases, i, k);
    slots.reach.has(child) && slots.productive.has(child)
}

// The first part that is not nullable, or how many parts there are.
fn first_solid(w: &Packed<'_>, bases: &[u32], nullable: &NumberSet, i: usize) -> usize
    requires rule { i < length w.now.rules }
    requires numbering { IsNumbering w.now bases.now }
    requires nullable { IsAnalysis true w.now bases.now nullable.now }
    ensures within { result ≤ needed_of (rule_at w.now i) }
    ensures before { (j : ℕ) → j < result → IsNullable w.now (child_slot (rule_at w.now i) j) }
    ensures at { result < needed_of (rule_at w.now i) →
        IsNullable w.now (child_slot (rule_at w.now i) result) → ⊥ }
{
    let count = w.needed_count(i);
    for k in 0..count {
        if !is_part_nullable(w, bases, nullable, i, k) {
            return k;
        }
    }
    count
}

// One past the last part that is not nullable, or 0.
fn solid_end(w: &Packed<'_>, bases: &[u32], nullable: &NumberSet, i: usize) -> usize
    requires rule { i < length w.now.rules }
    requires numbering { IsNumbering w.now bases.now }
    requires nullable { IsAnalysis true w.now bases.now nullable.now }
    ensures within { result ≤ needed_of (rule_at w.now i) }
    ensures behind { (j : ℕ) → result ≤ j → j < needed_of (rule_at w.now i) →
        IsNullable w.now (child_slot (rule_at w.now i) j) }
    ensures last { 0 < result → IsNullable w.now (child_slot (rule_at w.now i) (result - 1)) → ⊥ }
{
    let mut end = 0;
    for k in 0..w.needed_count(i) {
        if !is_part_nullable(w, bases, nullable, i, k) {
            end = k + 1;
        }
    }
    end
}

// Whether the parts that are not nullable are none but this one.
fn lies_between(k: usize, first: usize, end: usize) -> bool
    ensures { IsTrue result ↔ ((k ≤ first) × (end ≤ k + 1)) }
{
    k <= first && end.saturating_sub(1) <= k
}

// The steps of a rule.
fn add_links(
    w: &Packed<'_>,
    slots: &Slots<'_>,
    i: usize,
    rows: &mut Gathered,
) -> Result<(), AllocError>
    requires rule { i < length w.now.rules }
    requires numbering { IsNumbering w.now slots.now.bases.now }
    requires nullable { IsAnalysis true w.now slots.now.bases.now slots.now.nullable.now }
    requires productive { IsAnalysis false w.now slots.now.bases.now slots.now.productive.now }
    requires reach { IsReach w.now slots.now.bases.now slots.now.reach.now }
    requires sized { length rows.old ≡ slice_index slots.now.bases.now (length w.now.names) }
    ensures { OnOk result (HasPairs rows.old rows.new (IsLinkOf w.now slots.now.bases.now i
        (needed_of (rule_at w.now i)))) }
{
    w.known();
    let head = head_number(w, slots.bases, i);
    let first = first_solid(w, slots.bases, slots.nullable, i);
    let end = solid_end(w, slots.bases, slots.nullable, i);
    for k in 0..w.needed_count(i) {
        if lies_between(k, first, end) && is_part_used(w, slots, i, k) {
            let child = child_number(w, slots.bases, i, k);
            rows.add(child, head)?;
        }
    }
    Ok(())
}

/// The rows of all steps: for each slot, the tightest slots from which there is one to it.
pub fn links_of(alloc: Global, w: &Packed<'_>, slots: &Slots<'_>) -> Result<Jagged<u32>, AllocError>
    requires numbering { IsNumbering w.now slots.now.bases.now }
    requires nullable { IsAnalysis true w.now slots.now.bases.now slots.now.nullable.now }
    requires productive { IsAnalysis false w.now slots.now.bases.now slots.now.productive.now }
    requires reach { IsReach w.now slots.now.bases.now slots.now.reach.now }
    ensures length { IfOk result (λ rows. length rows ≡
        slice_index slots.now.bases.now (length w.now.names)) }
    ensures links { IfOk result (λ rows. (t h : ℕ) →
        Contains (row_at rows t) h ↔ IsLinkTo w.now slots.now.bases.now (length w.now.rules) t h) }
{
    let bound = slots.bases[w.symbol_count()] as usize;
    let mut links = Gathered::new(alloc, bound);
    for i in 0..w.rule_count() {
        add_links(w, slots, i, &mut links)?;
    }
    links.rows(alloc)
}

/// For each slot's number the first of its symbol.
pub fn floors_of(alloc: Global, w: &Packed<'_>, bases: &[u32]) -> Result<Vec<u32>, AllocError>
    requires { IsNumbering w.now bases.now }
    ensures { IfOk result (λ floors. IsFloored w.now bases.now floors.items) }
{
    let mut floors = Vec::new(alloc);
    for s in 0..w.symbol_count() {
        floors.resize(bases[s + 1] as usize, bases[s])?;
    }
    Ok(floors)
}
