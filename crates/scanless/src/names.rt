//! Lexemes by the bytes of their names.
ghost use Rattle.std.specs.Prelude.{◌≡◌, ℕ, ◌↔◌, OnOk, Contains};
ghost use Rattle.std.specs.List.Sorted.{IsStrictlySortedBy};
ghost use Rattle.std.specs.Ordering.{nat_cmp};
ghost use Rattle.std.specs.Cmp.Lexicographic.{slice_cmp};
ghost use Rattle.grammar_model.specs.Values.{name_of};
ghost use Rattle.reading_model.specs.Reading.{AreSorted};
ghost use Rattle.scanless.specs.Pieces.{AreLexemes};

use crate::Prepared;
use grammar_core::SymbolId;
use std::alloc::AllocError;
use std::cmp::Ordering;

// The name of a symbol, or nothing where there is no such symbol.
fn name_or_nothing(p: &Prepared, s: SymbolId) -> &str
    ensures { result.now ≡ name_of p.now.g1 s }
{
    let w = p.written();
    if (s.0 as usize) < w.symbol_count() {
        w.name(s)
    } else {
        ""
    }
}

fn compare(p: &Prepared, a: SymbolId, b: SymbolId) -> Ordering
    ensures { result ≡ slice_cmp nat_cmp (name_of p.now.g1 a) (name_of p.now.g1 b) }
{
    name_or_nothing(p, a).cmp(name_or_nothing(p, b))
}

/// Sorts lexemes, which are in the order of their numbers, by the bytes of their names.
pub fn sort_by_name(p: &Prepared, symbols: &mut Vec<SymbolId>) -> Result<(), AllocError>
    requires lexemes { AreLexemes p.now symbols.old.items }
    requires order { IsStrictlySortedBy nat_cmp symbols.old.items }
    ensures sorted { OnOk result (AreSorted p.now symbols.new.items) }
    ensures same { OnOk result ((s : ℕ) → Contains symbols.new.items s ↔
        Contains symbols.old.items s) }
{
    p.in_order();
    symbols.sort_by(|a, b| compare(p, *a, *b))
}
