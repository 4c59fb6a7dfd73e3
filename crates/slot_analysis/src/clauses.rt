//! Rules as clauses over the numbers of slots.
ghost use Rattle.std.specs.Prelude.{◌≡◌, ℕ, suc, ◌+◌, ◌-◌, ◌<◌, ◌≤◌, ◌++◌, ◌∷◌, [], map, length, slice_index, slice_index_or, false, Contains, IfOk, OnOk, ◌⊎◌, IsTrue, IsFalse, ◌↔◌};
ghost use Rattle.grammar_model.specs.Grammar.{rule_at, lhs_of, level_of, child_slot, slot_count};
ghost use Rattle.grammar_model.specs.Checked.{IsLeft};
ghost use Rattle.slot_analysis.specs.Clauses.{HasClauses, IsAnalysis};
ghost use Rattle.slot_analysis.specs.Slots.{number, end_of, IsNumbering, body_count, needed_of, rule_clause, HasChain, HasFacts, HasLevels, HasTerminals};

use crate::packed::Packed;
use horn_clauses::{Clauses, NumberSet, least_set};
use std::alloc::{AllocError, Global};

/// The number of the tightest slot that the rule fits.
pub fn head_number(w: &Packed<'_>, bases: &[u32], i: usize) -> u32
    requires rule { i < length w.now.rules }
    requires numbering { IsNumbering w.now bases.now }
    ensures { result ≡
        slice_index bases.now (lhs_of (rule_at w.now i)) + level_of (rule_at w.now i) }
{
    w.known();
    let symbol = w.left_of(i) as usize;
    let level = w.level_at(i);
    let _end = bases[symbol + 1];
    bases[symbol] + level
}

/// The number of the rule's child slot at a place.
pub fn child_number(w: &Packed<'_>, bases: &[u32], i: usize, k: usize) -> u32
    requires rule { i < length w.now.rules }
    requires numbering { IsNumbering w.now bases.now }
    requires part { k < slot_count (rule_at w.now i) }
    ensures { result ≡ number bases.now (child_slot (rule_at w.now i) k) }
{
    w.known();
    let (symbol, level) = w.child_at(i, k);
    let _end = bases[symbol as usize + 1];
    bases[symbol as usize] + level
}

// Puts the body of a rule's clause in the place of what the list had.
fn put_body(
    w: &Packed<'_>,
    bases: &[u32],
    i: usize,
    separators: bool,
    body: &mut Vec<u32>,
) -> Result<(), AllocError>
    requires rule { i < length w.now.rules }
    requires numbering { IsNumbering w.now bases.now }
    ensures { OnOk result (body.new.items ≡
        (rule_clause separators bases.now (rule_at w.now i)).body) }
{
    body.clear();
    for k in 0..w.count_at(i, separators) {
        body.push(child_number(w, bases, i, k))?;
    }
    Ok(())
}

/// The clauses of the rules, in order.
pub fn push_rules(
    alloc: Global,
    w: &Packed<'_>,
    bases: &[u32],
    separators: bool,
    clauses: &mut Clauses,
) -> Result<(), AllocError>
    requires { IsNumbering w.now bases.now }
    ensures { OnOk result (clauses.new ≡
        clauses.old ++ map (rule_clause separators bases.now) w.now.rules) }
{
    let mut body = Vec::new(alloc);
    for i in 0..w.rule_count() {
        put_body(w, bases, i, separators, &mut body)?;
        clauses.push(head_number(w, bases, i), &body)?;
    }
    Ok(())
}

// One clause, which takes a number to the one before it.
fn push_link(next: u32, clauses: &mut Clauses) -> Result<(), AllocError>
    requires { 0 < next }
    ensures { OnOk result (clauses.new ≡
        clauses.old ++ record { head = next - 1; body = next ∷ [] } ∷ []) }
{
    clauses.push(next - 1, &[next])
}

fn push_chain(from: u32, to: u32, clauses: &mut Clauses) -> Result<(), AllocError>
    requires { from < to }
    ensures { OnOk result (HasChain clauses.old clauses.new from to) }
{
    for next in from + 1..to {
        push_link(next, clauses)?;
    }
    Ok(())
}

// The clauses of the levels of each symbol.
fn push_levels(w: &Packed<'_>, bases: &[u32], clauses: &mut Clauses) -> Result<(), AllocError>
    requires { IsNumbering w.now bases.now }
    ensures { OnOk result (HasLevels bases.now (length w.now.names) clauses.old clauses.new) }
{
    for s in 0..w.symbol_count() {
        push_chain(bases[s], bases[s + 1], clauses)?;
    }
    Ok(())
}

/// Whether each symbol is the left side of a rule.
pub fn lefts_of(alloc: Global, w: &Packed<'_>) -> Result<Vec<bool>, AllocError>
    ensures length { IfOk result (λ lefts. length lefts.items ≡ length w.now.names) }
    ensures left { IfOk result (λ lefts. (s : ℕ) →
        IsTrue (slice_index_or lefts.items s false) ↔ IsLeft w.now s) }
{
    let mut lefts = vec![in alloc; false; w.symbol_count()]?;
    for i in 0..w.rule_count() {
        let symbol = w.left_of(i) as usize;
        lefts[symbol] = true;
    }
    Ok(lefts)
}

fn push_facts(from: u32, to: u32, clauses: &mut Clauses) -> Result<(), AllocError>
    requires { from ≤ to }
    ensures { OnOk result (HasFacts clauses.old clauses.new from to) }
{
    for x in from..to {
        clauses.push(x, &[])?;
    }
    Ok(())
}

// The clauses of the terminals.
fn push_terminals(
    w: &Packed<'_>,
    bases: &[u32],
    lefts: &[bool],
    clauses: &mut Clauses,
) -> Result<(), AllocError>
    requires numbering { IsNumbering w.now bases.now }
    requires lefts { length lefts.now ≡ length w.now.names }
    ensures { OnOk result (HasTerminals bases.now lefts.now (length w.now.names) clauses.old
        clauses.new) }
{
    for s in 0..w.symbol_count() {
        if !lefts[s] {
            push_facts(bases[s], bases[s + 1], clauses)?;
        }
    }
    Ok(())
}

/// The clauses by which slots are nullable, where separators count, and else productive.
pub fn clauses_of(
    alloc: Global,
    w: &Packed<'_>,
    bases: &[u32],
    lefts: &[bool],
    separators: bool,
) -> Result<Clauses, AllocError>
    requires numbering { IsNumbering w.now bases.now }
    requires length { length lefts.now ≡ length w.now.names }
    requires left { (s : ℕ) → IsTrue (slice_index_or lefts.now s false) ↔ IsLeft w.now s }
    ensures { IfOk result (λ clauses. HasClauses separators w.now bases.now clauses) }
{
    let mut clauses = Clauses::new(alloc);
    push_rules(alloc, w, bases, separators, &mut clauses)?;
    push_levels(w, bases, &mut clauses)?;
    if separators {
        return Ok(clauses);
    }
    push_terminals(w, bases, lefts, &mut clauses)?;
    Ok(clauses)
}

/// The numbers of the slots that are nullable, where separators count, and else productive.
pub fn analysis_of(
    alloc: Global,
    w: &Packed<'_>,
    bases: &[u32],
    lefts: &[bool],
    separators: bool,
) -> Result<NumberSet, AllocError>
    requires numbering { IsNumbering w.now bases.now }
    requires length { length lefts.now ≡ length w.now.names }
    requires left { (s : ℕ) → IsTrue (slice_index_or lefts.now s false) ↔ IsLeft w.now s }
    ensures { IfOk result (λ found. IsAnalysis separators w.now bases.now found) }
{
    let clauses = clauses_of(alloc, w, bases, lefts, separators)?;
    let bound = bases[w.symbol_count()] as usize;
    let found = least_set(alloc, &clauses, bound)?;
    Ok(found)
}
