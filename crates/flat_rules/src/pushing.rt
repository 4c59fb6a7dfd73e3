//! The rules of a flat grammar.
ghost use Rattle.std.specs.Prelude.{◌≡◌, ℕ, ◌+◌, ◌<◌, ◌≤◌, ◌^◌, ◌++◌, ◌∷◌, [], not, ◌&&◌, nat_le, true, length, map, slice_index, IsTrue, ◌↔◌, IfOk};
ghost use Rattle.std.specs.List.{flat_map};
ghost use Rattle.grammar_model.specs.Grammar.{Plain, rule_at, lhs_of, level_of, slot_count, slot_of};
ghost use Rattle.grammar_model.specs.Simple.{part_count};
ghost use Rattle.recognizer_model.specs.declared.flat.FlatSymbol.TheVariants.{Sequence};
ghost use Rattle.flat_model.specs.Flatten.{Decided, is_live};
ghost use Rattle.grammar_core.specs.Written.{rule_of};
ghost use Rattle.grammar_core.specs.Rules.{is_sequence};
ghost use Rattle.flat_rules.specs.Tables.{Numbering, AreLive, AreNumbers, number_in, numbered_in, place_of, slot_at, told_slot};
ghost use Rattle.flat_rules.specs.Added.{Adds, rule_by, part_in, parts_in, plain_by, lists_by, longer_by, items_by, from_rule, has_separator_rule, is_proper_rule, counts_separator};

use crate::FlatRefusal;
use crate::lefts::is_child_productive;
use crate::numbering::{SlotKey, Symbols};
use grammar_check::{Checked, child_at};
use grammar_core::{RuleId, Written, WrittenRule};
use grammar_model::MOST_FLAT_RULES;
use recognizer_model::{FlatRule, FlatSource};
use std::alloc::{AllocError, Global};

/// One more flat rule, if there is room.
pub fn push_rule(rules: &mut Vec<FlatRule>, rule: FlatRule) -> Result<(), FlatRefusal>
    ensures { Adds rules.old.items rules.new.items (rule ∷ []) result }
{
    if rules.len() >= MOST_FLAT_RULES {
        return Err(FlatRefusal::TooManyRules);
    }
    match rules.push(rule) {
        Ok(()) => Ok(()),
        Err(_) => Err(FlatRefusal::NoMemory),
    }
}

fn push_by(rules: &mut Vec<FlatRule>, i: usize, lhs: u32, rhs: Vec<u32>) -> Result<(), FlatRefusal>
    requires { i < 2 ^ 32 }
    ensures { Adds rules.old.items rules.new.items (rule_by i lhs rhs.items ∷ []) result }
{
    push_rule(
        rules,
        FlatRule {
            lhs,
            rhs,
            source: FlatSource::Written(RuleId(i as u32)),
        },
    )
}

// How many parts a plain rule has.
fn count_parts(rule: &WrittenRule) -> usize
    ensures { result ≡ part_count (rule_of rule.now) }
{
    match rule {
        WrittenRule::Plain(rule) => rule.rhs.len(),
        WrittenRule::Sequence(_) => 0,
    }
}

fn has_separator(rule: &WrittenRule) -> bool
    ensures { result ≡ has_separator_rule (rule_of rule.now) }
{
    match rule {
        WrittenRule::Plain(_) => false,
        WrittenRule::Sequence(rule) => rule.separator.is_some(),
    }
}

fn is_proper(rule: &WrittenRule) -> bool
    ensures { result ≡ is_proper_rule (rule_of rule.now) }
{
    match rule {
        WrittenRule::Plain(_) => true,
        WrittenRule::Sequence(rule) => rule.proper,
    }
}

fn part_number(w: &Written, symbols: &Symbols, i: usize, k: usize) -> u32
    requires rule { i < length w.now.rules }
    requires part { k < slot_count (rule_at w.now i) }
    requires small { length symbols.now.slots < 2 ^ 32 }
    ensures { result ≡ part_in symbols.now (rule_at w.now i) k }
{
    let (symbol, level) = child_at(w, i, k);
    symbols.slot_number(symbol, level)
}

// The right side of a plain rule.
fn right_side(
    alloc: Global,
    w: &Written,
    symbols: &Symbols,
    i: usize,
) -> Result<Vec<u32>, AllocError>
    requires rule { i < length w.now.rules }
    requires small { length symbols.now.slots < 2 ^ 32 }
    ensures { IfOk result (λ rhs. rhs.items ≡ parts_in symbols.now (rule_at w.now i)) }
{
    let count = count_parts(w.rule(i));
    let mut rhs = Vec::with_capacity(alloc, count)?;
    for k in 0..count {
        rhs.push(part_number(w, symbols, i, k))?;
    }
    Ok(rhs)
}

fn push_plain(
    alloc: Global,
    w: &Written,
    symbols: &Symbols,
    i: usize,
    lhs: u32,
    rules: &mut Vec<FlatRule>,
) -> Result<(), FlatRefusal>
    requires rule { i < length w.now.rules }
    requires small { length symbols.now.slots < 2 ^ 32 }
    ensures { Adds rules.old.items rules.new.items (plain_by symbols.now i lhs (rule_at w.now i))
        result }
{
    if count_parts(w.rule(i)) == 0 {
        return Ok(());
    }
    let rhs = right_side(alloc, w, symbols, i)?;
    push_by(rules, i, lhs, rhs)
}

// Whether there is a separator that has trees.
fn has_live_separator(c: &Checked<'_>, i: usize) -> bool
    requires { i < length c.now.rules }
    ensures counts { (d : Decided c.now) → result ≡ counts_separator d (rule_at c.now i) }
    ensures part { IsTrue result → 1 < slot_count (rule_at c.now i) }
{
    has_separator(c.written().rule(i)) && is_child_productive(c, i, 1)
}

/// The numbers, as a list of their own.
pub fn copied(alloc: Global, parts: &[u32]) -> Result<Vec<u32>, AllocError>
    ensures { IfOk result (λ all. all.items ≡ parts.now) }
{
    let mut all = Vec::new(alloc);
    all.extend_from_slice(parts)?;
    Ok(all)
}

fn push_these(
    alloc: Global,
    rules: &mut Vec<FlatRule>,
    i: usize,
    lhs: u32,
    parts: &[u32],
) -> Result<(), FlatRefusal>
    requires { i < 2 ^ 32 }
    ensures { Adds rules.old.items rules.new.items (rule_by i lhs parts.now ∷ []) result }
{
    let rhs = copied(alloc, parts)?;
    push_by(rules, i, lhs, rhs)
}

// Whether a list may end with a separator.
fn trails(c: &Checked<'_>, i: usize) -> bool
    requires { i < length c.now.rules }
    ensures trails { (d : Decided c.now) →
        result ≡ (not (is_proper_rule (rule_at c.now i)) && counts_separator d (rule_at c.now i)) }
    ensures part { IsTrue result → 1 < slot_count (rule_at c.now i) }
{
    !is_proper(c.written().rule(i)) && has_live_separator(c, i)
}

// The rules of a left side of a list.
fn push_lists(
    alloc: Global,
    c: &Checked<'_>,
    symbols: &Symbols,
    i: usize,
    lhs: u32,
    rules: &mut Vec<FlatRule>,
) -> Result<(), FlatRefusal>
    requires rule { i < length c.now.rules }
    requires sequence { is_sequence (rule_at c.now i) ≡ true }
    requires numbers { AreNumbers c.now symbols.now }
    ensures { (d : Decided c.now) → Adds rules.old.items rules.new.items
        (lists_by symbols.now i lhs (not (is_proper_rule (rule_at c.now i)) && counts_separator d
        (rule_at c.now i)) (rule_at c.now i)) result }
{
    let w = c.written();
    w.known();
    let list = symbols.list_number(i);
    if !trails(c, i) {
        return push_these(alloc, rules, i, lhs, &[list]);
    }
    let separator = part_number(w, symbols, i, 1);
    push_these(alloc, rules, i, lhs, &[list])?;
    push_these(alloc, rules, i, lhs, &[list, separator])
}

// The rule by which a list grows, if it can.
fn push_longer(
    alloc: Global,
    c: &Checked<'_>,
    symbols: &Symbols,
    i: usize,
    rules: &mut Vec<FlatRule>,
) -> Result<(), FlatRefusal>
    requires rule { i < length c.now.rules }
    requires sequence { is_sequence (rule_at c.now i) ≡ true }
    requires numbers { AreNumbers c.now symbols.now }
    ensures { (d : Decided c.now) →
        Adds rules.old.items rules.new.items
        (longer_by symbols.now i (counts_separator d (rule_at c.now i)) (rule_at c.now i))
        result }
{
    let w = c.written();
    let list = symbols.list_number(i);
    let item = part_number(w, symbols, i, 0);
    if !has_separator(w.rule(i)) {
        return push_these(alloc, rules, i, list, &[list, item]);
    }
    if !has_live_separator(c, i) {
        return Ok(());
    }
    let separator = part_number(w, symbols, i, 1);
    push_these(alloc, rules, i, list, &[list, separator, item])
}

/// The rules of a list.
pub fn push_items(
    alloc: Global,
    c: &Checked<'_>,
    symbols: &Symbols,
    i: usize,
    rules: &mut Vec<FlatRule>,
) -> Result<(), FlatRefusal>
    requires rule { i < length c.now.rules }
    requires sequence { is_sequence (rule_at c.now i) ≡ true }
    requires numbers { AreNumbers c.now symbols.now }
    ensures { (d : Decided c.now) →
        Adds rules.old.items rules.new.items
        (items_by symbols.now i (counts_separator d (rule_at c.now i)) (rule_at c.now i))
        result }
{
    let w = c.written();
    w.known();
    let list = symbols.list_number(i);
    let item = part_number(w, symbols, i, 0);
    push_longer(alloc, c, symbols, i, rules)?;
    push_these(alloc, rules, i, list, &[item])
}

// Whether the rule makes rules of slots of its symbol with that level.
fn makes_rules(c: &Checked<'_>, live: &[bool], level: u32, i: usize) -> bool
    requires rule { i < length c.now.rules }
    requires live { AreLive c.now live.now }
    ensures { (d : Decided c.now) →
        result ≡ (is_live c.now d (rule_at c.now i) && nat_le level (level_of (rule_at c.now i))) }
{
    live[i] && level <= c.written().rule(i).level()
}

/// The rules of a slot that come from a rule of its symbol.
pub fn push_for_slot(
    alloc: Global,
    c: &Checked<'_>,
    symbols: &Symbols,
    live: &[bool],
    slot: SlotKey,
    i: usize,
    rules: &mut Vec<FlatRule>,
) -> Result<(), FlatRefusal>
    requires rule { i < length c.now.rules }
    requires left { lhs_of (rule_at c.now i) ≡ slot.symbol }
    requires live { AreLive c.now live.now }
    requires numbers { AreNumbers c.now symbols.now }
    ensures { (d : Decided c.now) →
        Adds rules.old.items rules.new.items (from_rule c.now d symbols.now (told_slot slot) i)
        result }
{
    let w = c.written();
    if !makes_rules(c, live, slot.level, i) {
        return Ok(());
    }
    let lhs = symbols.slot_number(slot.symbol, slot.level);
    if w.rule(i).is_sequence() {
        push_lists(alloc, c, symbols, i, lhs, rules)
    } else {
        push_plain(alloc, w, symbols, i, lhs, rules)
    }
}
