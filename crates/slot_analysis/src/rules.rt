//! How many child slots of a rule there are, and how many count.
ghost use Rattle.std.specs.Prelude.{◌≡◌};
ghost use Rattle.grammar_model.specs.Grammar.{slot_count};
ghost use Rattle.grammar_core.specs.Written.{rule_of};
ghost use Rattle.slot_analysis.specs.Slots.{body_count, needed_of};

use grammar_core::WrittenRule;

/// How many child slots count for nullable slots, where separators count, and else for productive ones.
pub fn body_len(rule: &WrittenRule, separators: bool) -> usize
    ensures { result ≡ body_count separators (rule_of rule.now) }
{
    match rule {
        WrittenRule::Plain(rule) => rule.rhs.len(),
        WrittenRule::Sequence(rule) if !rule.plus => 0,
        WrittenRule::Sequence(rule) if separators && rule.separator.is_some() => 2,
        WrittenRule::Sequence(_) => 1,
    }
}

/// How many child slots the rule has.
pub fn part_count(rule: &WrittenRule) -> usize
    ensures { result ≡ slot_count (rule_of rule.now) }
{
    match rule {
        WrittenRule::Plain(rule) => rule.rhs.len(),
        WrittenRule::Sequence(rule) if rule.separator.is_some() => 2,
        WrittenRule::Sequence(_) => 1,
    }
}

/// How many child slots, from the first, a live rule needs to be productive: all but a separator.
pub fn needed_count(rule: &WrittenRule) -> usize
    ensures { result ≡ needed_of (rule_of rule.now) }
{
    match rule {
        WrittenRule::Plain(rule) => rule.rhs.len(),
        WrittenRule::Sequence(_) => 1,
    }
}
