//! Symbols and rules.
ghost use Rattle.std.specs.Prelude.{◌≡◌};
ghost use Rattle.grammar_model.specs.Grammar.{lhs_of, level_of, rank_of, null_high_of};
ghost use Rattle.grammar_core.specs.Written.{rule_of};
ghost use Rattle.grammar_core.specs.Rules.{groups_of, is_sequence};

use grammar_model::{Assoc, RuleId, SymbolId};
use std::marker::Model;

/// A rule with one part for each place of its right side.
#[derive(Debug, Drop)]
pub struct Rule {
    pub lhs: SymbolId,
    pub rhs: Vec<SymbolId>,
    /// The group of a precedenced statement that it stands in, the loosest being 0.
    pub level: u32,
    /// How many groups that statement has.
    pub groups: u32,
    pub assoc: Assoc,
    pub rank: i32,
    /// Whether a nulled last part comes first in the order of derivations.
    pub null_high: bool,
}

impl Model for Rule {
    ghost use Rattle.grammar_model.specs.Grammar.{PlainRule};

    ghost Value = { PlainRule };

    ghost view = { λ r.
        record {
          lhs = r.lhs;
          rhs = r.rhs.items;
          level = r.level;
          groups = r.groups;
          assoc = r.assoc;
          rank = r.rank;
          null_high = r.null_high;
        } };
}

/// A rule for items of one symbol, one or more or none or more, with or without separators between them.
#[derive(Debug, Drop)]
pub struct SeqRule {
    pub lhs: SymbolId,
    pub item: SymbolId,
    /// Whether there is at least one item.
    pub plus: bool,
    pub separator: Option<SymbolId>,
    /// Whether a separator after the last item is forbidden.
    pub proper: bool,
    pub rank: i32,
    pub null_high: bool,
}

impl Model for SeqRule {
    ghost use Rattle.grammar_model.specs.Grammar.{SequenceRule};

    ghost Value = { SequenceRule };

    ghost view = { λ r.
        record {
          lhs = r.lhs;
          item = r.item;
          plus = r.plus;
          separator = r.separator;
          proper = r.proper;
          rank = r.rank;
          null_high = r.null_high;
        } };
}

/// A rule of a written grammar.
#[derive(Debug, Drop)]
pub enum WrittenRule {
    Plain(Rule),
    Sequence(SeqRule),
}

impl WrittenRule {
    /// The left side.
    pub fn lhs(&self) -> SymbolId
        ensures { result ≡ lhs_of (rule_of self.now) }
    {
        match self {
            WrittenRule::Plain(rule) => rule.lhs,
            WrittenRule::Sequence(rule) => rule.lhs,
        }
    }

    /// The level, which is 0 for a sequence.
    pub fn level(&self) -> u32
        ensures { result ≡ level_of (rule_of self.now) }
    {
        match self {
            WrittenRule::Plain(rule) => rule.level,
            WrittenRule::Sequence(_) => 0,
        }
    }

    /// How many groups its statement has, a sequence being the only group of its own.
    pub fn groups(&self) -> u32
        ensures { result ≡ groups_of (rule_of self.now) }
    {
        match self {
            WrittenRule::Plain(rule) => rule.groups,
            WrittenRule::Sequence(_) => 1,
        }
    }

    /// The rank.
    pub fn rank(&self) -> i32
        ensures { result ≡ rank_of (rule_of self.now) }
    {
        match self {
            WrittenRule::Plain(rule) => rule.rank,
            WrittenRule::Sequence(rule) => rule.rank,
        }
    }

    /// Whether a nulled last part comes first in the order of derivations.
    pub fn null_high(&self) -> bool
        ensures { result ≡ null_high_of (rule_of self.now) }
    {
        match self {
            WrittenRule::Plain(rule) => rule.null_high,
            WrittenRule::Sequence(rule) => rule.null_high,
        }
    }

    /// Whether it is a sequence.
    pub fn is_sequence(&self) -> bool
        ensures { result ≡ is_sequence (rule_of self.now) }
    {
        match self {
            WrittenRule::Plain(_) => false,
            WrittenRule::Sequence(_) => true,
        }
    }
}
