//! The child slots of rules.
ghost use Rattle.std.specs.Prelude.{◌≡◌, ℕ, suc, ◌+◌, ◌<◌, ◌≤◌, ◌^◌, length, slice_index, option_to_list, IfOk};
ghost use Rattle.grammar_model.specs.declared.Assoc.TheVariants.{Left, Right};
ghost use Rattle.grammar_model.specs.Grammar.{rule_at, lhs_of, level_of, child_slot, child_level, tighter, occurs, own_level, slot_count, sequence_symbol, Sequence, Plain};
ghost use Rattle.slot_analysis.specs.Slots.{number, IsNumbering, body_count, rule_clause};

use grammar_core::{Assoc, Rule, SeqRule, SymbolId, Written, WrittenRule};
use std::alloc::{AllocError, Global};

// Whether the symbol is one of these.
fn is_among(symbol: u32, symbols: &[SymbolId]) -> bool
    ensures { result ≡ occurs symbol symbols.now }
{
    symbols.iter().any(|s| s.0 == symbol)
}

fn tighter_level(rule: &Rule) -> u32
    requires { rule.now.level < rule.now.groups }
    ensures { result ≡ tighter rule.now }
{
    let level = rule.level;
    let groups = rule.groups;
    if level + 1 == groups { 0 } else { level + 1 }
}

fn left_level(rule: &Rule, k: usize) -> u32
    requires level { rule.now.level < rule.now.groups }
    requires part { k < length rule.now.rhs }
    ensures { result ≡ own_level Left rule.now k }
{
    if is_among(rule.lhs.0, &rule.rhs[..k]) {
        tighter_level(rule)
    } else {
        rule.level
    }
}

fn right_level(rule: &Rule, k: usize) -> u32
    requires level { rule.now.level < rule.now.groups }
    requires part { k < length rule.now.rhs }
    ensures { result ≡ own_level Right rule.now k }
{
    if is_among(rule.lhs.0, &rule.rhs[k + 1..]) {
        tighter_level(rule)
    } else {
        rule.level
    }
}

// The level of an occurrence of the left side.
fn level_of_own(rule: &Rule, k: usize) -> u32
    requires level { rule.now.level < rule.now.groups }
    requires part { k < length rule.now.rhs }
    ensures { result ≡ own_level rule.now.assoc rule.now k }
{
    match rule.assoc {
        Assoc::Left => left_level(rule, k),
        Assoc::Right => right_level(rule, k),
        Assoc::Group => 0,
    }
}

fn level_of_part(rule: &Rule, k: usize) -> u32
    requires level { rule.now.level < rule.now.groups }
    requires part { k < length rule.now.rhs }
    ensures { result ≡ child_level rule.now k }
{
    if rule.groups > 1 && rule.rhs[k].0 == rule.lhs.0 {
        level_of_own(rule, k)
    } else {
        0
    }
}

// The item at place 0, and else the separator.
fn sequence_part(rule: &SeqRule, k: usize) -> u32
    requires { k < slot_count (Sequence rule.now) }
    ensures { result ≡ sequence_symbol rule.now.item rule.now.separator k }
{
    match rule.separator {
        None => rule.item.0,
        Some(separator) => { if k == 0 { rule.item.0 } else { separator.0 } }
    }
}

/// The symbol of a rule's child slot, and its level.
pub fn child_at(w: &Written, i: usize, k: usize) -> (u32, u32)
    requires rule { i < length w.now.rules }
    requires part { k < slot_count (rule_at w.now i) }
    ensures symbol { result.0 ≡ (child_slot (rule_at w.now i) k).symbol }
    ensures level { result.1 ≡ (child_slot (rule_at w.now i) k).level }
{
    match w.rule(i) {
        WrittenRule::Plain(rule) => (rule.rhs[k].0, level_of_part(rule, k)),
        WrittenRule::Sequence(rule) => (sequence_part(rule, k), 0),
    }
}
