//! Steps from the starts, as clauses.
ghost use Rattle.std.specs.Prelude.{◌≡◌, ℕ, suc, ◌+◌, ◌-◌, ◌<◌, ◌≤◌, ◌^◌, [], length, slice_index, false, Contains, IfOk, OnOk, OnErr, IsTrue, ◌↔◌};
ghost use Rattle.grammar_model.specs.Grammar.{rule_at, lhs_of, level_of, child_slot, slot_count};
ghost use Rattle.grammar_model.specs.Analysis.{IsLive};
ghost use Rattle.slot_analysis.specs.Slots.{number, end_of, IsNumbering, fact_clause};
ghost use Rattle.slot_analysis.specs.Clauses.{IsAnalysis};
ghost use Rattle.horn_clauses.specs.Least.{Clause};
ghost use Rattle.slot_analysis.specs.Steps.{unit_clause, HasMore, head_of, IsOfStart, IsOfUse, IsOfNext, IsOfNexts, IsOfPart, IsOfParts, IsStep, IsReach};

use crate::clauses::{child_number, head_number};
use crate::packed::Packed;
use horn_clauses::{Clauses, NumberSet, least_set};
use std::alloc::{AllocError, Global};

fn push_unit(head: u32, part: u32, clauses: &mut Clauses) -> Result<(), AllocError>
    ensures { OnOk result (HasMore clauses.old clauses.new (λ c. c ≡ unit_clause head part)) }
{
    clauses.push(head, &[part])
}

fn push_fact(x: u32, clauses: &mut Clauses) -> Result<(), AllocError>
    ensures { OnOk result (HasMore clauses.old clauses.new (λ c. c ≡ fact_clause x)) }
{
    clauses.push(x, &[])
}

// The slots of the starts are facts.
fn push_starts(w: &Packed<'_>, bases: &[u32], clauses: &mut Clauses) -> Result<(), AllocError>
    requires { IsNumbering w.now bases.now }
    ensures { OnOk result (HasMore clauses.old clauses.new (IsOfStart w.now bases.now
        (length w.now.starts))) }
{
    for k in 0..w.start_count() {
        let x = start_number(w, bases, k);
        push_fact(x, clauses)?;
    }
    Ok(())
}

fn start_number(w: &Packed<'_>, bases: &[u32], k: usize) -> u32
    requires numbering { IsNumbering w.now bases.now }
    requires start { k < length w.now.starts }
    ensures { result ≡ slice_index bases.now (slice_index w.now.starts k) }
{
    w.known();
    let s = w.start(k);
    bases[s.0 as usize]
}

// An accessible slot is in use.
fn push_uses(total: u32, clauses: &mut Clauses) -> Result<(), AllocError>
    requires { total + total < 2 ^ 32 }
    ensures { OnOk result (HasMore clauses.old clauses.new (IsOfUse total total)) }
{
    for x in 0..total {
        push_unit(total + x, x, clauses)?;
    }
    Ok(())
}

// With a slot, the next tighter one is in use.
fn push_next(total: u32, from: u32, to: u32, clauses: &mut Clauses) -> Result<(), AllocError>
    requires order { from < to }
    requires small { total + to < 2 ^ 32 }
    ensures { OnOk result (HasMore clauses.old clauses.new (IsOfNext total from to)) }
{
    for x in from..to - 1 {
        push_unit(total + (x + 1), total + x, clauses)?;
    }
    Ok(())
}

fn push_nexts(
    w: &Packed<'_>,
    bases: &[u32],
    total: u32,
    clauses: &mut Clauses,
) -> Result<(), AllocError>
    requires numbering { IsNumbering w.now bases.now }
    requires total { total ≡ slice_index bases.now (length w.now.names) }
    requires small { total + total < 2 ^ 32 }
    ensures { OnOk result (HasMore clauses.old clauses.new (IsOfNexts bases.now total
        (length w.now.names))) }
{
    for s in 0..w.symbol_count() {
        push_next(total, bases[s], bases[s + 1], clauses)?;
    }
    Ok(())
}

// Whether what the rule needs is productive.
fn is_live(w: &Packed<'_>, bases: &[u32], productive: &NumberSet, i: usize) -> bool
    requires rule { i < length w.now.rules }
    requires numbering { IsNumbering w.now bases.now }
    requires productive { IsAnalysis false w.now bases.now productive.now }
    ensures { IsTrue result ↔ IsLive w.now (rule_at w.now i) }
{
    w.known();
    for k in 0..w.needed_count(i) {
        if !productive.has(child_number(w, bases, i, k)) {
            return false;
        }
    }
    true
}

// From a rule in use to its productive parts.
fn push_part(
    w: &Packed<'_>,
    bases: &[u32],
    productive: &NumberSet,
    total: u32,
    i: usize,
    clauses: &mut Clauses,
) -> Result<(), AllocError>
    requires rule { i < length w.now.rules }
    requires numbering { IsNumbering w.now bases.now }
    requires productive { IsAnalysis false w.now bases.now productive.now }
    requires total { total ≡ slice_index bases.now (length w.now.names) }
    requires small { total + total < 2 ^ 32 }
    ensures { OnOk result (HasMore clauses.old clauses.new
        (IsOfPart w.now bases.now total i (slot_count (rule_at
        w.now i)))) }
{
    w.known();
    let head = head_number(w, bases, i);
    for k in 0..w.part_count(i) {
        let child = child_number(w, bases, i, k);
        if productive.has(child) {
            push_unit(child, total + head, clauses)?;
        }
    }
    Ok(())
}

fn push_parts(
    w: &Packed<'_>,
    bases: &[u32],
    productive: &NumberSet,
    total: u32,
    clauses: &mut Clauses,
) -> Result<(), AllocError>
    requires numbering { IsNumbering w.now bases.now }
    requires productive { IsAnalysis false w.now bases.now productive.now }
    requires total { total ≡ slice_index bases.now (length w.now.names) }
    requires small { total + total < 2 ^ 32 }
    ensures { OnOk result (HasMore clauses.old clauses.new (IsOfParts w.now bases.now total
        (length w.now.rules))) }
{
    for i in 0..w.rule_count() {
        if is_live(w, bases, productive, i) {
            push_part(w, bases, productive, total, i, clauses)?;
        }
    }
    Ok(())
}

fn push_steps(
    w: &Packed<'_>,
    bases: &[u32],
    productive: &NumberSet,
    total: u32,
    clauses: &mut Clauses,
) -> Result<(), AllocError>
    requires numbering { IsNumbering w.now bases.now }
    requires productive { IsAnalysis false w.now bases.now productive.now }
    requires total { total ≡ slice_index bases.now (length w.now.names) }
    requires small { total + total < 2 ^ 32 }
    requires empty { clauses.old ≡ [] }
    ensures { OnOk result ((c : Clause) → Contains clauses.new c ↔ IsStep w.now bases.now total c) }
{
    push_starts(w, bases, clauses)?;
    push_uses(total, clauses)?;
    push_nexts(w, bases, total, clauses)?;
    push_parts(w, bases, productive, total, clauses)
}

fn steps_of(
    alloc: Global,
    w: &Packed<'_>,
    bases: &[u32],
    productive: &NumberSet,
    total: u32,
) -> Result<Clauses, AllocError>
    requires numbering { IsNumbering w.now bases.now }
    requires productive { IsAnalysis false w.now bases.now productive.now }
    requires total { total ≡ slice_index bases.now (length w.now.names) }
    requires small { total + total < 2 ^ 32 }
    ensures { IfOk result (λ clauses. (c : Clause) →
        Contains clauses c ↔ IsStep w.now bases.now total c) }
{
    let mut clauses = Clauses::new(alloc);
    push_steps(w, bases, productive, total, &mut clauses)?;
    Ok(clauses)
}

// Nothing, for so many slots that 32 bits tell two numbers of each. More count as too many for memory.
fn fit_twice(total: u32) -> Result<(), AllocError>
    ensures ok { OnOk result (total < 2 ^ 31) }
    ensures err { OnErr result (2 ^ 31 ≤ total) }
{
    if total > u32::MAX / 2 {
        return Err(AllocError);
    }
    Ok(())
}

/// The numbers of the accessible slots, and past them those of the slots in use.
pub fn reach_of(
    alloc: Global,
    w: &Packed<'_>,
    bases: &[u32],
    productive: &NumberSet,
) -> Result<NumberSet, AllocError>
    requires numbering { IsNumbering w.now bases.now }
    requires productive { IsAnalysis false w.now bases.now productive.now }
    ensures reach { IfOk result (λ found. IsReach w.now bases.now found) }
    ensures small { IfOk result (λ _. slice_index bases.now (length w.now.names) +
        slice_index bases.now (length w.now.names) <
        2 ^ 32) }
{
    let total = bases[w.symbol_count()];
    fit_twice(total)?;
    let clauses = steps_of(alloc, w, bases, productive, total)?;
    let found = least_set(alloc, &clauses, (total + total) as usize)?;
    Ok(found)
}
