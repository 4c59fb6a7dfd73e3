//! What is told of a place: the lexemes that are found and those that are expected.
ghost use Rattle.std.specs.Prelude.{◌≡◌, ℕ, List, [], ◌∷◌, ◌++◌, map, IfOk, OnOk, Contains};
ghost use Rattle.std.specs.List.Sorted.{IsStrictlySortedBy};
ghost use Rattle.std.specs.Ordering.{nat_cmp};
ghost use Rattle.earley_sets.specs.Recognizer.{IsExpected};
ghost use Rattle.dsl_build.specs.declared.built.LexemeRow.{LexemeRow as HeldRow};
ghost use Rattle.reading_model.specs.Reading.{Piece, AreFound, AreExpected};
ghost use Rattle.scanless.specs.Reading.{HoldsPieces};
ghost use Rattle.prepared_grammars.specs.Gathered.{AddsIf, Gathers};
ghost use Rattle.scanless.specs.Pieces.{ArePlaced, IsLongestBy};

use crate::Prepared;
use crate::kept::{insert, row_at};
use crate::names::sort_by_name;
use dsl_build::LexemeRow;
use earley_sets::Recce;
use grammar_core::SymbolId;
use std::alloc::{AllocError, AllocFailed, Global};

fn add_expected(
    row: &LexemeRow,
    recce: &Recce<'_>,
    symbols: &mut Vec<SymbolId>,
) -> Result<(), AllocFailed<SymbolId>>
    ensures { OnOk result (AddsIf (IsExpected recce.now row.now.symbol) row.now.symbol
        symbols.old.items symbols.new.items) }
{
    if recce.is_expected(row.symbol) {
        symbols.push(row.symbol)?;
    }
    Ok(())
}

fn add_all_expected(
    rows: &[LexemeRow],
    recce: &Recce<'_>,
    symbols: &mut Vec<SymbolId>,
) -> Result<(), AllocFailed<SymbolId>>
    requires order { IsStrictlySortedBy nat_cmp (map (λ (r : HeldRow). r.symbol) rows.now) }
    requires none { symbols.old.items ≡ [] }
    ensures sorted { OnOk result (IsStrictlySortedBy nat_cmp symbols.new.items) }
    ensures exact { OnOk result (Gathers (λ (r : HeldRow). IsExpected recce.now r.symbol)
        (λ (r : HeldRow). r.symbol) rows.now symbols.new.items) }
{
    for row in rows {
        add_expected(row, recce, symbols)?;
    }
    Ok(())
}

/// The lexemes that are acceptable after what the recognizer holds, by the bytes of their names.
pub fn expected_lexemes(
    alloc: Global,
    p: &Prepared,
    recce: &Recce<'_>,
) -> Result<Vec<SymbolId>, AllocError>
    ensures { IfOk result (λ symbols. (pieces : List Piece) → HoldsPieces p.now pieces recce.now →
        AreExpected p.now pieces symbols.items) }
{
    p.known();
    p.in_order();
    let _place = recce.place();
    let mut symbols = Vec::new(alloc);
    add_all_expected(p.lexemes(), recce, &mut symbols)?;
    sort_by_name(p, &mut symbols)?;
    Ok(symbols)
}

// Adds the lexeme of a start, if it is that of one.
fn add_found(
    rows: &[LexemeRow],
    start: u32,
    symbols: &mut Vec<SymbolId>,
) -> Result<(), AllocFailed<SymbolId>>
    requires places { ArePlaced rows.now }
    requires sorted { IsStrictlySortedBy nat_cmp symbols.old.items }
    ensures sorted { OnOk result (IsStrictlySortedBy nat_cmp symbols.new.items) }
    ensures exact { OnOk result ((starts : List ℕ) →
        Gathers (λ (r : HeldRow). Contains starts r.start)
        (λ (r : HeldRow). r.symbol) rows.now symbols.old.items →
        Gathers (λ (r : HeldRow). Contains (starts ++ start ∷ []) r.start)
        (λ (r : HeldRow). r.symbol) rows.now symbols.new.items) }
{
    match row_at(rows, start) {
        Some(row) => insert(symbols, row.symbol),
        None => Ok(()),
    }
}

fn add_all_found(
    rows: &[LexemeRow],
    matched: &[u32],
    symbols: &mut Vec<SymbolId>,
) -> Result<(), AllocFailed<SymbolId>>
    requires places { ArePlaced rows.now }
    requires none { symbols.old.items ≡ [] }
    ensures sorted { OnOk result (IsStrictlySortedBy nat_cmp symbols.new.items) }
    ensures exact { OnOk result (Gathers (λ (r : HeldRow). Contains matched.now r.start)
        (λ (r : HeldRow). r.symbol) rows.now symbols.new.items) }
{
    for start in matched {
        add_found(rows, *start, symbols)?;
    }
    Ok(())
}

/// The lexemes that were looked for and have the longest match, by the bytes of their names.
pub fn found_lexemes(
    alloc: Global,
    p: &Prepared,
    matched: &[u32],
) -> Result<Vec<SymbolId>, AllocError>
    ensures { IfOk result (λ symbols. (text : List ℕ) (pieces : List Piece) (at n : ℕ) →
        IsLongestBy p.now text pieces at n matched.now →
        AreFound p.now text pieces at symbols.items) }
{
    p.in_order();
    let mut symbols = Vec::new(alloc);
    add_all_found(p.lexemes(), matched, &mut symbols)?;
    sort_by_name(p, &mut symbols)?;
    Ok(symbols)
}
