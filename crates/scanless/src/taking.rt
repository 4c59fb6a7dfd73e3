//! How a recognizer takes a token: an edge for each lexeme that is kept, and the set of the next place.
ghost use Rattle.std.specs.Prelude.{◌≡◌, ℕ, ◌+◌, ◌<◌, ◌++◌, ◌∷◌, [], OnOk, OnErr, Contains};
ghost use Rattle.std.specs.List.Sorted.{IsStrictlySortedBy};
ghost use Rattle.std.specs.Ordering.{nat_cmp};
ghost use Rattle.grammar_model.specs.declared.Edge.{Edge as HeldEdge};
ghost use Rattle.grammar_model.specs.declared.limits.TheConstants.{LAST_PLACE};
ghost use Rattle.earley_sets.specs.Recognizer.{earleme_of, new_edge, IsExpected};
ghost use Rattle.earley_sets.specs.Counted.{CountsFrom};
ghost use Rattle.scanless.specs.Noted.{Grows};
ghost use Rattle.scanless.specs.Taking.{token_edges, Keeps, Takes, TakesSome};

use earley_sets::{AlternativeRefusal, Recce};
use grammar_core::SymbolId;
use slif_base::Steps;
use std::alloc::AllocError;
use std::sync::ledger::Ledger;

// Takes one lexeme, an edge of one place.
fn take_lexeme(recce: &mut Recce<'_>, symbol: SymbolId) -> Result<(), AllocError>
    requires place { earleme_of recce.old < LAST_PLACE }
    requires expected { IsExpected recce.old symbol }
    requires fresh { ¬ Contains recce.old.edges (new_edge recce.old symbol 1) }
    ensures same { Keeps recce.old recce.new }
    ensures ok { OnOk result (recce.new.edges ≡
        recce.old.edges ++ new_edge recce.old symbol 1 ∷ []) }
    ensures err { OnErr result (recce.new.edges ≡ recce.old.edges) }
{
    match recce.alternative(symbol, 1) {
        Ok(()) => Ok(()),
        Err(AlternativeRefusal::NoMemory) => Err(AllocError),
        Err(AlternativeRefusal::Unexpected) => unreachable!(),
        Err(AlternativeRefusal::Duplicate) => unreachable!(),
        Err(AlternativeRefusal::BadLength) => unreachable!(),
    }
}

fn take_lexemes(recce: &mut Recce<'_>, symbols: &[SymbolId]) -> Result<(), AllocError>
    requires place { earleme_of recce.old < LAST_PLACE }
    requires expected { (s : ℕ) → Contains symbols.now s → IsExpected recce.old s }
    requires order { IsStrictlySortedBy nat_cmp symbols.now }
    requires begun { (e : HeldEdge) → Contains recce.old.edges e → e.from < earleme_of recce.old }
    ensures same { Keeps recce.old recce.new }
    ensures ok { OnOk result (recce.new.edges ≡ recce.old.edges ++ token_edges
        (earleme_of recce.old) symbols.now) }
    ensures err { OnErr result (TakesSome recce.old recce.new) }
{
    for symbol in symbols {
        take_lexeme(recce, *symbol)?;
    }
    Ok(())
}

/// Takes a token, as each of these lexemes, and goes on to the place after it.
pub fn take_token<L: Ledger>(
    recce: &mut Recce<'_>,
    symbols: &[SymbolId],
    steps: &mut Steps<L>,
) -> Result<(), AllocError>
    requires place { earleme_of recce.old < LAST_PLACE }
    requires expected { (s : ℕ) → Contains symbols.now s → IsExpected recce.old s }
    requires order { IsStrictlySortedBy nat_cmp symbols.now }
    requires begun { (e : HeldEdge) → Contains recce.old.edges e → e.from < earleme_of recce.old }
    ensures takes { OnOk result (Takes recce.old recce.new symbols.now) }
    ensures err { OnErr result (TakesSome recce.old recce.new) }
    ensures grows { Grows recce.old recce.new }
    ensures counted { OnOk result ((before : ℕ) → CountsFrom recce.old before steps.old →
        CountsFrom recce.new before steps.new) }
{
    take_lexemes(recce, symbols)?;
    let _place = recce.place();
    recce.complete_earleme(steps)
}
