//! Which rules null their symbols.
ghost use Rattle.std.specs.Prelude.{◌≡◌, ◌<◌, length, IfOk};
ghost use Rattle.grammar_model.specs.Values.{is_nulling, nulled_action};
ghost use Rattle.grammar_core.specs.Written.{IsWritten, rule_of};
ghost use Rattle.value_text.specs.Meaning.{meaning_of};
ghost use Rattle.valuator.specs.Told.{action_in};
ghost use Rattle.valuator.specs.Play.{IsMeaningOf};
ghost use Rattle.valuator.specs.Nulling.{AreFirst, first_with};

use grammar_core::{RuleId, SymbolId, Written, WrittenRule};
use std::alloc::Global;
use value_text::{Action, Meaning, NoMemory};

/// Whether a rule is empty or a star.
fn spans_nothing(rule: &WrittenRule) -> bool
    ensures { result ≡ is_nulling (rule_of rule.now) }
{
    match rule {
        WrittenRule::Plain(rule) => rule.rhs.is_empty(),
        WrittenRule::Sequence(rule) => !rule.plus,
    }
}

/// The first rule of a symbol that nulls it, with one more of its rules.
fn first_of(known: Option<RuleId>, rule: &WrittenRule, next: RuleId) -> Option<RuleId>
    ensures { result ≡ first_with known (is_nulling (rule_of rule.now)) next }
{
    match known {
        Some(first) => Some(first),
        None => {
            if spans_nothing(rule) {
                Some(next)
            } else {
                None
            }
        }
    }
}

/// Of each symbol, the first of its rules that is empty or a star.
pub fn nulling_rules(alloc: Global, w: &Written) -> Result<Vec<Option<RuleId>>, NoMemory>
    ensures first { IfOk result (λ rules. AreFirst w.now (length w.now.rules) rules.items) }
    ensures sound { IsWritten w.now }
{
    let mut rules = vec![in alloc; None; w.symbol_count()]?;
    for i in 0..w.rule_count() {
        let symbol = w.lhs(i).0 as usize;
        rules[symbol] = first_of(rules[symbol], w.rule(i), RuleId(i as u32));
    }
    Ok(rules)
}

/// The action of a nulled symbol, if it has an empty rule or a star.
pub fn nulling_action<'p>(
    w: &Written,
    meaning: &'p Meaning,
    rules: &[Option<RuleId>],
    symbol: SymbolId,
) -> Option<&'p Action>
    requires meaning { IsMeaningOf w.now (meaning_of meaning.now) }
    requires first { AreFirst w.now (length w.now.rules) rules.now }
    requires symbol { symbol < length w.now.names }
    ensures { action_in result ≡ nulled_action w.now (meaning_of meaning.now) symbol }
{
    let rule = rules[symbol.0 as usize]?;
    Some(&meaning.rules.as_slice()[rule.0 as usize].action)
}
