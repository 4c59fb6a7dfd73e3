//! What the lister asks of a grammar of plain rules.
ghost use Rattle.std.specs.Prelude.{◌≡◌, ◌<◌, ◌&&◌, ◌==◌, ℕ, suc, length, not, slice_get, slice_index, Some};
ghost use Rattle.std.specs.List.{list_any};
ghost use Rattle.grammar_model.specs.Grammar.{lhs_of, rule_at, child_slot};
ghost use Rattle.grammar_core.specs.Written.{rule_of};
ghost use Rattle.grammar_model.specs.Simple.{IsSimple, is_terminal, part_count};
ghost use Rattle.grammar_model.specs.Characters.{is_named};

use grammar_core::{SymbolId, Written, WrittenRule};

/// How many parts the rule has.
pub fn parts_of(w: &Written, i: usize) -> usize
    requires { i < length w.now.rules }
    ensures { result ≡ part_count (rule_at w.now i) }
{
    match w.rule(i) {
        WrittenRule::Plain(rule) => rule.rhs.len(),
        WrittenRule::Sequence(_) => 0,
    }
}

fn part_at(rule: &WrittenRule, k: usize) -> u32
    requires { k < part_count (rule_of rule.now) }
    ensures { result ≡ (child_slot (rule_of rule.now) k).symbol }
{
    match rule {
        WrittenRule::Plain(rule) => rule.rhs[k].0,
        WrittenRule::Sequence(rule) => rule.item.0,
    }
}

/// The part at place `k`.
pub fn part_of(w: &Written, i: usize, k: usize) -> u32
    requires rule { i < length w.now.rules }
    requires part { k < part_count (rule_at w.now i) }
    ensures part { result ≡ (child_slot (rule_at w.now i) k).symbol }
    ensures known { result < length w.now.names }
{
    part_at(w.rule(i), k)
}

/// Whether the symbol is some rule's left side.
pub fn is_inner(w: &Written, symbol: usize) -> bool
    ensures { result ≡ list_any (λ rule. lhs_of rule == symbol) w.now.rules }
{
    for i in 0..w.rule_count() {
        if w.lhs(i).0 as usize == symbol {
            return true;
        }
    }
    false
}

/// Whether the byte is that of the symbol's quoted character.
pub fn is_quoted_at(w: &Written, input: &[u8], symbol: SymbolId, place: usize) -> bool
    requires symbol { symbol < length w.now.names }
    requires place { place < length input.now }
    ensures { result ≡ is_named (slice_get input.now place) (slice_get w.now.names symbol) }
{
    let name = w.name(symbol);
    let quoted = [39, input[place], 39];
    name.as_bytes() == quoted.as_slice()
}
