//! Why a check refuses a grammar.
ghost use Rattle.std.specs.Prelude.{◌≡◌};

use grammar_core::{RuleId, SymbolId};
use std::alloc::AllocError;

/// What a check refuses. Of several reasons the first in this order is told, but want of memory may come at any point.
#[derive(Debug, Drop)]
pub enum GrammarRefusal {
    /// There is no rule.
    NoRules,
    /// There is no start.
    NoStart,
    /// The first start that is no rule's left side.
    StartNotLhs { symbol: SymbolId },
    /// The least left side of a sequence that is another rule's, too.
    SequenceLhs { symbol: SymbolId },
    /// The first plain rule with the left and the right side of an earlier one.
    Duplicate { rule: RuleId },
    /// The first sequence whose item or separator is nullable.
    CountedNullable { rule: RuleId },
    /// The first start that has no tree.
    UnproductiveStart { symbol: SymbolId },
    /// The least cycle of slots, each a symbol and a level. The first and the last slot are the same.
    Cyclic { cycle: Vec<(SymbolId, u32)> },
    /// Memory ran out.
    NoMemory,
}

impl From<AllocError> for GrammarRefusal {
    ghost use Rattle.grammar_check.specs.declared.refusal.GrammarRefusal.TheVariants.{NoMemory};

    ghost from_gives = { λ _ refusal. refusal ≡ NoMemory };

    fn from(_error: AllocError) -> Self {
        GrammarRefusal::NoMemory
    }
}
