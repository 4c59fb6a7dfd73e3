//! Which starts are looked for at a place, by tables that are made once for each grammar.
ghost use Rattle.std.specs.Prelude.{◌≡◌, ℕ, ◌<◌, ◌↔◌, ◌⊎◌, length, map, All, Some, IsTrue, IsFalse, IfOk, OnOk, Contains};
ghost use Rattle.std.specs.List.Sorted.{IsStrictlySortedBy};
ghost use Rattle.std.specs.Ordering.{nat_cmp};
ghost use Rattle.language_model.specs.Building.{LexemeRow as TheRow};
ghost use Rattle.language_model.specs.Texts.{IsBuilt};
ghost use Rattle.dsl_build.specs.Tables.{row_of};
ghost use Rattle.prepared_grammars.specs.Gathered.{AddsIf, Gathers};
ghost use Rattle.prepared_grammars.specs.Lookups.{AreStarts, AreLookups, SetsIf, HasStart};

use dsl_build::{Built, LexemeRow};
use grammar_core::SymbolId;
use std::alloc::{AllocError, AllocFailed, Global};

/// What is looked for, by places among the starts of the lexical grammar.
#[derive(Drop)]
pub struct Lookups {
    /// the lexemes that are always looked for
    pub always: Vec<u32>,
    /// the other lexemes, by the numbers of their symbols
    pub starts: Vec<Option<u32>>,
}

fn add_always(row: &LexemeRow, always: &mut Vec<u32>) -> Result<(), AllocFailed<u32>>
    ensures { OnOk result (AddsIf (IsFalse row.now.latm) row.now.start always.old.items
        always.new.items) }
{
    if !row.latm {
        always.push(row.start)?;
    }
    Ok(())
}

// Lists the starts of the lexemes that are always looked for.
fn list_always(alloc: Global, rows: &[LexemeRow]) -> Result<Vec<u32>, AllocError>
    ensures { IfOk result (λ always. Gathers (λ (l : TheRow). IsFalse l.latm)
        (λ (l : TheRow). l.start) (map row_of rows.now) always.items) }
{
    let mut always = Vec::new(alloc);
    for row in rows {
        add_always(row, &mut always)?;
    }
    Ok(always)
}

fn note_start(row: &LexemeRow, starts: &mut Vec<Option<u32>>)
    requires { row.now.symbol < length starts.old.items }
    ensures { SetsIf (IsTrue row.now.latm) row.now.symbol (Some row.now.start) starts.old.items
        starts.new.items }
{
    if row.latm {
        starts[row.symbol.0 as usize] = Some(row.start);
    }
}

// Lists the starts of the other lexemes by their symbols, of which there are so many.
fn list_starts(
    alloc: Global,
    rows: &[LexemeRow],
    count: usize,
) -> Result<Vec<Option<u32>>, AllocError>
    requires known { All (λ (l : TheRow). l.symbol < count) (map row_of rows.now) }
    requires order { IsStrictlySortedBy nat_cmp (map (λ (l : TheRow). l.symbol)
        (map row_of rows.now)) }
    ensures { IfOk result (λ starts. AreStarts (map row_of rows.now) starts.items) }
{
    let mut starts = Vec::new(alloc);
    starts.resize(count, None)?;
    for row in rows {
        note_start(row, &mut starts);
    }
    Ok(starts)
}

/// The tables of a grammar.
pub fn lookups_of(alloc: Global, built: &Built) -> Result<Lookups, AllocError>
    requires { IsBuilt built.now }
    ensures { IfOk result (λ l. AreLookups built.now l.always.items l.starts.items) }
{
    let rows = built.lexemes.as_slice();
    Ok(Lookups {
        always: list_always(alloc, rows)?,
        starts: list_starts(alloc, rows, built.g1.symbol_count())?,
    })
}

fn start_at(starts: &[Option<u32>], symbol: SymbolId) -> Option<u32>
    ensures { (k : ℕ) → (result ≡ Some k) ↔ HasStart starts.now symbol k }
{
    match starts.get(symbol.0 as usize) {
        Some(start) => *start,
        None => None,
    }
}

fn add_start(
    starts: &[Option<u32>],
    symbol: SymbolId,
    found: &mut Vec<u32>,
) -> Result<(), AllocFailed<u32>>
    ensures { OnOk result ((k : ℕ) →
        Contains found.new.items k ↔ (Contains found.old.items k ⊎ HasStart starts.now symbol k)) }
{
    if let Some(start) = start_at(starts, symbol) {
        found.push(start)?;
    }
    Ok(())
}

/// Lists the starts that symbols have by a table.
pub fn add_starts(
    starts: &[Option<u32>],
    symbols: &[SymbolId],
    found: &mut Vec<u32>,
) -> Result<(), AllocFailed<u32>>
    ensures { OnOk result ((k : ℕ) →
        Contains found.new.items k ↔
        (Contains found.old.items k ⊎
        ((s : ℕ) × Contains symbols.now s × HasStart starts.now s k))) }
{
    for symbol in symbols {
        add_start(starts, *symbol, found)?;
    }
    Ok(())
}
