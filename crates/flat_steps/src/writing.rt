//! Steps of flat derivations, written one after another as steps of what they stand for.
ghost use Rattle.std.specs.Prelude.{◌≡◌, ◌^◌, ◌<◌, ◌∷◌, ◌++◌, [], ℕ, List, length, map, slice_get, vec_len, vec_capacity, Some, Contains, option_to_list, IfOk, OnOk, OnErr, false};
ghost use Rattle.grammar_core.specs.Steps.{step_of};
ghost use Rattle.grammar_model.specs.Grammar.{Grammar};
ghost use Rattle.grammar_model.specs.Steps.{Step, RuleStep};
ghost use Rattle.recognizer_model.specs.Flat.{IsRule, source_of};
ghost use Rattle.recognizer_model.specs.FlatForm.{IsFlatOf, symbol_at, written_symbol as stands_for};
ghost use Rattle.forest_laws.specs.Written.{is_list_rule as is_rule_of_list, rule_written, steps_written};
ghost use Rattle.flat_steps.specs.declared.writing.FlatStep.{FlatStep as TheStep};
ghost use Rattle.flat_steps.specs.Writing.{flat_step, IsStepOf, IsCounted, AreOnTop, AreTakenOff, IsEffect, AreDone};

use grammar_core::{Flat, FlatSource, FlatSymbol, SymbolId, TreeStep, Written};
use slif_base::number;
use std::alloc::{AllocError as NoMemory, Global};

/// A step of a flat derivation, by the numbers of flat symbols and rules.
#[derive(Clone, Copy)]
pub enum FlatStep {
    Token {
        symbol: u32,
        from: u32,
        to: u32,
    },
    Nulled {
        symbol: u32,
        at: u32,
    },
    Rule {
        rule: u32,
        children: u32,
        from: u32,
        to: u32,
    },
}

/// For how many children something counts that is no child yet, and the place after the row of what was read before it; 0 is none.
#[derive(Clone, Copy)]
pub struct CountRow {
    pub count: u32,
    pub below: u32,
}

/// What a step does: it leaves a count, and may be written.
#[derive(Clone, Copy)]
pub struct Effect {
    pub row: CountRow,
    pub step: Option<TreeStep>,
}

// The written symbol that a flat one stands for.
fn written_symbol(flat: &Flat, written: &Written, x: u32) -> SymbolId
    requires flat_of { IsFlatOf flat.now written.now }
    requires symbol { x < length flat.now.symbols }
    ensures { result ≡ stands_for written.now (symbol_at flat.now x) }
{
    match flat.symbol(x) {
        FlatSymbol::Terminal(symbol) => symbol,
        FlatSymbol::Slot { symbol, .. } => symbol,
        FlatSymbol::Sequence(rule) => written.written_rule(rule).lhs(),
        FlatSymbol::Top(k) => written.start(k as usize),
    }
}

/// Whether a flat rule is a list's.
pub fn is_list_rule(flat: &Flat, rule: u32) -> bool
    requires { IsRule flat.now rule }
    ensures { result ≡ is_rule_of_list flat.now rule }
{
    flat.known();
    match flat.symbol(flat.lhs(rule)) {
        FlatSymbol::Sequence(_) => true,
        _ => false,
    }
}

fn row_at(rows: &[CountRow], k: usize) -> CountRow
    requires { k < length rows.now }
    ensures { slice_get rows.now k ≡ Some result }
{
    rows[k]
}

// The sum of the newest so many counts, and what lies below them.
fn newest(rows: &[CountRow], count: u32) -> CountRow
    requires few { length rows.now < 2 ^ 32 }
    requires on_top { (counts : List ℕ) × AreOnTop rows.now counts }
    ensures { (counts : List ℕ) → IsCounted rows.now (length rows.now) counts →
        AreTakenOff rows.now count counts result }
{
    let mut sum = 0u32;
    let mut top = rows.len() as u32;
    'newest: for _ in 0..count {
        if top > 0 {
            let row = row_at(rows, top as usize - 1);
            sum += row.count;
            top = row.below;
        }
    }
    CountRow {
        count: sum,
        below: top,
    }
}

// A rule that is no list's, as it is written; a top is not.
fn rule_step(flat: &Flat, rule: u32, children: u32, from: u32, to: u32) -> Option<TreeStep>
    requires { IsRule flat.now rule }
    ensures { map step_of (option_to_list result) ≡
        rule_written false (source_of flat.now rule) children from to }
{
    match flat.origin_of(rule) {
        FlatSource::Written(rule) => Some(TreeStep::Rule {
            rule,
            children,
            from,
            to,
        }),
        FlatSource::Top(_) => None,
    }
}

// What a rule does.
fn rule_effect(
    rows: &[CountRow],
    flat: &Flat,
    rule: u32,
    children: u32,
    from: u32,
    to: u32,
) -> Effect
    requires rule { IsRule flat.now rule }
    requires few { length rows.now < 2 ^ 32 }
    requires on_top { (counts : List ℕ) × AreOnTop rows.now counts }
    ensures { (w : Grammar) (counts : List ℕ) → IsCounted rows.now (length rows.now) counts →
        IsEffect w flat.now rows.now counts (RuleStep rule children from to) result }
{
    let newest = newest(rows, children);
    if is_list_rule(flat, rule) {
        return Effect {
            row: newest,
            step: None,
        };
    }
    Effect {
        row: CountRow {
            count: 1,
            below: newest.below,
        },
        step: rule_step(flat, rule, newest.count, from, to),
    }
}

// What a step does after those that left these counts.
#[inline(always)]
fn effect_of(rows: &[CountRow], flat: &Flat, written: &Written, step: FlatStep) -> Effect
    requires flat_of { IsFlatOf flat.now written.now }
    requires step { IsStepOf flat.now (flat_step step) }
    requires few { length rows.now < 2 ^ 32 }
    requires on_top { (counts : List ℕ) × AreOnTop rows.now counts }
    ensures { (counts : List ℕ) → IsCounted rows.now (length rows.now) counts →
        IsEffect written.now flat.now rows.now counts (flat_step step) result }
{
    let row = CountRow {
        count: 1,
        below: rows.len() as u32,
    };
    match step {
        FlatStep::Token { symbol, from, to } => Effect {
            row,
            step: Some(TreeStep::Token {
                symbol: written_symbol(flat, written, symbol),
                from,
                to,
            }),
        },
        FlatStep::Nulled { symbol, at } => Effect {
            row,
            step: Some(TreeStep::Nulled {
                symbol: written_symbol(flat, written, symbol),
                at,
            }),
        },
        FlatStep::Rule {
            rule,
            children,
            from,
            to,
        } => rule_effect(rows, flat, rule, children, from, to),
    }
}

// Makes room for one more, and for an eighth of what there is, so that little is left over.
fn make_room<T>(rows: &mut Vec<T>) -> Result<(), NoMemory>
    ensures items { rows.new.items ≡ rows.old.items }
    ensures room { OnOk result (vec_len rows.new < vec_capacity rows.new) }
{
    let len = rows.as_slice().len();
    if len < rows.capacity() {
        return Ok(());
    }
    rows.reserve_exact(len / 8 + 16)?;
    Ok(())
}

// Puts what a step does after the others.
#[inline(always)]
fn put_effect(counts: &mut Vec<CountRow>, steps: &mut Vec<TreeStep>, effect: Effect)
    requires room { vec_len counts.old < vec_capacity counts.old }
    requires room_of_steps { vec_len steps.old < vec_capacity steps.old }
    ensures counts { counts.new.items ≡ counts.old.items ++ effect.row ∷ [] }
    ensures steps { steps.new.items ≡ steps.old.items ++ option_to_list effect.step }
{
    let Ok(()) = counts.push(effect.row) else {
        unreachable!();
    };
    if let Some(step) = effect.step {
        let Ok(()) = steps.push(step) else {
            unreachable!();
        };
    }
}

/// Writes a step after the others. Rows are numbered in 32 bits, and after room for 2^32 of them one more counts as too many for
/// memory.
#[inline(always)]
pub fn write_step(
    counts: &mut Vec<CountRow>,
    steps: &mut Vec<TreeStep>,
    flat: &Flat,
    written: &Written,
    step: FlatStep,
) -> Result<(), NoMemory>
    requires flat_of { IsFlatOf flat.now written.now }
    requires step { IsStepOf flat.now (flat_step step) }
    requires done { (done : List Step) × AreDone written.now flat.now counts.old.items
        steps.old.items done }
    ensures ok { OnOk result ((done : List Step) →
        AreDone written.now flat.now counts.old.items steps.old.items done →
        AreDone written.now flat.now counts.new.items steps.new.items
        (done ++ flat_step step ∷ [])) }
    ensures err { OnErr result ((counts.new.items ≡ counts.old.items) ×
        (steps.new.items ≡ steps.old.items)) }
{
    make_room(counts)?;
    make_room(steps)?;
    number(counts.as_slice().len())?;
    let effect = effect_of(counts, flat, written, step);
    put_effect(counts, steps, effect);
    Ok(())
}

fn step_at(steps: &[FlatStep], k: usize) -> FlatStep
    requires { k < length steps.now }
    ensures { slice_get steps.now k ≡ Some result }
{
    steps[k]
}

/// Writes flat steps, one after another, as steps of the written grammar.
pub fn write_steps(
    alloc: Global,
    flat: &Flat,
    written: &Written,
    steps: &[FlatStep],
) -> Result<Vec<TreeStep>, NoMemory>
    requires flat_of { IsFlatOf flat.now written.now }
    requires steps { (step : TheStep) → Contains steps.now step → IsStepOf flat.now (flat_step step) }
    ensures { IfOk result (λ all. map step_of all.items ≡
        steps_written written.now flat.now [] (map flat_step steps.now)) }
{
    let mut counts = Vec::new(alloc);
    let mut all = Vec::new(alloc);
    for k in 0..steps.len() {
        write_step(&mut counts, &mut all, flat, written, step_at(steps, k))?;
    }
    Ok(all)
}
