//! Which of the lexemes that have the longest match are kept, and whether a discard has it.
ghost use Rattle.std.specs.Prelude.{◌≡◌, ◌≢◌, ℕ, ◌≤ℤ◌, ◌⊎◌, ◌↔◌, ◌++◌, ◌∷◌, [], List, option_copied, IsTrue, IsNone, IfSome, IfOk, OnOk, Contains};
ghost use Rattle.std.specs.List.Sorted.{IsStrictlySortedBy};
ghost use Rattle.std.specs.Ordering.{nat_cmp};
ghost use Rattle.earley_sets.specs.Recognizer.{IsExpected};
ghost use Rattle.dsl_build.specs.declared.built.LexemeRow.{LexemeRow as HeldRow};
ghost use Rattle.reading_model.specs.Reading.{Piece, IsKept, IsSkipped};
ghost use Rattle.scanless.specs.Reading.{HoldsPieces, IsChosen};
ghost use Rattle.prepared_grammars.specs.Gathered.{Gathers};
ghost use Rattle.scanless.specs.Pieces.{ArePlaced, IsLongestBy, IsRowAt, IsHighestOf, IsFit, IsBest};

use crate::Prepared;
use crate::candidates::Work;
use dsl_build::LexemeRow;
use earley_sets::Recce;
use grammar_core::SymbolId;
use std::alloc::{AllocError, AllocFailed};

/// What can be taken of the longest match.
#[derive(Clone, Copy, Debug)]
pub enum Choice {
    /// A token: some lexeme is kept.
    Token,
    /// No lexeme is kept, but a discard has the match.
    Skipped,
    Nothing,
}

/// The row of a start, if it is a lexeme's.
pub fn row_at(rows: &[LexemeRow], start: u32) -> Option<&LexemeRow>
    requires { ArePlaced rows.now }
    ensures some { IfSome result (λ r. IsRowAt rows.now start r.now) }
    ensures none { IsNone result → (r : HeldRow) → Contains rows.now r → r.start ≢ start }
{
    rows.get(start as usize)
}

// The row of a start, if it is that of a lexeme that is acceptable.
fn fitting<'r>(rows: &'r [LexemeRow], recce: &Recce<'_>, start: u32) -> Option<&'r LexemeRow>
    requires { ArePlaced rows.now }
    ensures some { IfSome result (λ r. IsRowAt rows.now start r.now ×
        IsExpected recce.now r.now.symbol) }
    ensures none { IsNone result → (r : HeldRow) → Contains rows.now r → r.start ≡ start →
        IsExpected recce.now r.symbol → ⊥ }
{
    let row = row_at(rows, start)?;
    if recce.is_expected(row.symbol) {
        Some(row)
    } else {
        None
    }
}

fn greater<'r>(a: &'r LexemeRow, b: &'r LexemeRow) -> &'r LexemeRow
    ensures bound { (a.now.priority ≤ℤ result.now.priority) ×
        (b.now.priority ≤ℤ result.now.priority) }
    ensures one { (result.now ≡ a.now) ⊎ (result.now ≡ b.now) }
{
    if a.priority < b.priority { b } else { a }
}

// A row of the highest priority so far, with one start more.
fn raised<'r>(
    highest: Option<&'r LexemeRow>,
    rows: &'r [LexemeRow],
    recce: &Recce<'_>,
    start: u32,
) -> Option<&'r LexemeRow>
    requires { ArePlaced rows.now }
    ensures { (starts : List ℕ) → IsHighestOf (IsFit recce.now starts) rows.now
        (option_copied highest.entry) → IsHighestOf (IsFit recce.now (starts ++ start ∷ []))
        rows.now (option_copied result) }
{
    let Some(row) = fitting(rows, recce, start) else {
        return highest;
    };
    match highest {
        Some(other) => Some(greater(other, row)),
        None => Some(row),
    }
}

// A row of the highest priority of those that fit.
fn highest<'r>(rows: &'r [LexemeRow], recce: &Recce<'_>, matched: &[u32]) -> Option<&'r LexemeRow>
    requires { ArePlaced rows.now }
    ensures { IsHighestOf (IsFit recce.now matched.now) rows.now (option_copied result) }
{
    let mut highest = None;
    for start in matched {
        highest = raised(highest, rows, recce, *start);
    }
    highest
}

/// Puts a symbol in its place, unless it is there.
pub fn insert(symbols: &mut Vec<SymbolId>, symbol: SymbolId) -> Result<(), AllocFailed<SymbolId>>
    requires { IsStrictlySortedBy nat_cmp symbols.old.items }
    ensures sorted { OnOk result (IsStrictlySortedBy nat_cmp symbols.new.items) }
    ensures exact { OnOk result ((s : ℕ) → Contains symbols.new.items s ↔
        (Contains symbols.old.items s ⊎ (s ≡ symbol))) }
{
    match symbols.binary_search(&symbol) {
        Ok(_) => Ok(()),
        Err(place) => symbols.insert(place, symbol),
    }
}

fn is_as_high(a: &LexemeRow, b: &LexemeRow) -> bool
    ensures { IsTrue result ↔ (a.now.priority ≡ b.now.priority) }
{
    a.priority == b.priority
}

// Keeps the lexeme of a start, if it fits and has the highest priority.
fn keep(
    rows: &[LexemeRow],
    recce: &Recce<'_>,
    start: u32,
    highest: &LexemeRow,
    kept: &mut Vec<SymbolId>,
) -> Result<(), AllocFailed<SymbolId>>
    requires places { ArePlaced rows.now }
    requires sorted { IsStrictlySortedBy nat_cmp kept.old.items }
    ensures sorted { OnOk result (IsStrictlySortedBy nat_cmp kept.new.items) }
    ensures exact { OnOk result ((starts : List ℕ) → Gathers (IsBest recce.now starts highest.now)
        (λ (r : HeldRow). r.symbol) rows.now kept.old.items →
        Gathers (IsBest recce.now (starts ++ start ∷ []) highest.now)
        (λ (r : HeldRow). r.symbol) rows.now kept.new.items) }
{
    let Some(row) = fitting(rows, recce, start) else {
        return Ok(());
    };
    if !is_as_high(row, highest) {
        return Ok(());
    }
    insert(kept, row.symbol)
}

fn keep_all(
    rows: &[LexemeRow],
    recce: &Recce<'_>,
    matched: &[u32],
    highest: &LexemeRow,
    kept: &mut Vec<SymbolId>,
) -> Result<(), AllocFailed<SymbolId>>
    requires places { ArePlaced rows.now }
    requires none { kept.old.items ≡ [] }
    ensures sorted { OnOk result (IsStrictlySortedBy nat_cmp kept.new.items) }
    ensures exact { OnOk result (Gathers (IsBest recce.now matched.now highest.now)
        (λ (r : HeldRow). r.symbol) rows.now kept.new.items) }
{
    for start in matched {
        keep(rows, recce, *start, highest, kept)?;
    }
    Ok(())
}

// Keeps the lexeme of a start that alone has the longest match, if it fits: no other has a higher priority.
fn keep_one(
    rows: &[LexemeRow],
    recce: &Recce<'_>,
    start: u32,
    kept: &mut Vec<SymbolId>,
) -> Result<(), AllocFailed<SymbolId>>
    requires places { ArePlaced rows.now }
    requires none { kept.old.items ≡ [] }
    ensures sorted { OnOk result (IsStrictlySortedBy nat_cmp kept.new.items) }
    ensures exact { OnOk result (Gathers (IsFit recce.now (start ∷ []))
        (λ (r : HeldRow). r.symbol) rows.now kept.new.items) }
{
    match fitting(rows, recce, start) {
        Some(row) => kept.push(row.symbol),
        None => Ok(()),
    }
}

// Lists the lexemes that are kept of the longest match, by their numbers.
fn list_kept(
    p: &Prepared,
    recce: &Recce<'_>,
    matched: &[u32],
    kept: &mut Vec<SymbolId>,
) -> Result<(), AllocFailed<SymbolId>>
    ensures sorted { OnOk result (IsStrictlySortedBy nat_cmp kept.new.items) }
    ensures expected { OnOk result ((s : ℕ) → Contains kept.new.items s → IsExpected recce.now s) }
    ensures exact { OnOk result ((text : List ℕ) (pieces : List Piece) (at n : ℕ) →
        HoldsPieces p.now pieces recce.now → IsLongestBy p.now text pieces at n matched.now →
        (s : ℕ) → Contains kept.new.items s ↔ IsKept p.now text pieces at n s) }
{
    p.known();
    p.in_order();
    let _place = recce.place();
    let rows = p.lexemes();
    kept.clear();
    if matched.len() == 1 {
        return keep_one(rows, recce, matched[0], kept);
    }
    match highest(rows, recce, matched) {
        Some(row) => keep_all(rows, recce, matched, row, kept),
        None => Ok(()),
    }
}

// Whether a discard has the longest match.
fn is_skipped(p: &Prepared, matched: &[u32]) -> bool
    ensures { (text : List ℕ) (pieces : List Piece) (at n : ℕ) →
        IsLongestBy p.now text pieces at n matched.now → IsTrue result ↔
        IsSkipped p.now text pieces at n }
{
    has_one(p.discards(), matched)
}

fn is_among(start: u32, matched: &[u32]) -> bool
    ensures { IsTrue result ↔ Contains matched.now start }
{
    matched.contains(&start)
}

fn has_one(starts: &[u32], matched: &[u32]) -> bool
    ensures { IsTrue result ↔ ((k : ℕ) × Contains starts.now k × Contains matched.now k) }
{
    for start in starts {
        if is_among(*start, matched) {
            return true;
        }
    }
    false
}

/// Lists the lexemes that are kept of the longest match, by their numbers, and tells what can be taken.
pub fn choose(work: &mut Work<'_>, p: &Prepared, recce: &Recce<'_>) -> Result<Choice, AllocError>
    ensures notes { work.new.notes ≡ work.old.notes }
    ensures same { (work.new.lexer ≡ work.old.lexer) ×
        (work.new.matched.items ≡ work.old.matched.items) }
    ensures sorted { OnOk result (IsStrictlySortedBy nat_cmp work.new.kept.items) }
    ensures expected { OnOk result ((s : ℕ) → Contains work.new.kept.items s →
        IsExpected recce.now s) }
    ensures chosen { IfOk result (λ choice. (text : List ℕ) (pieces : List Piece) (at n : ℕ) →
        HoldsPieces p.now pieces recce.now → IsLongestBy p.now text pieces at n
        work.old.matched.items →
        IsChosen p.now text pieces at n work.new.kept.items choice) }
{
    list_kept(p, recce, work.matched.as_slice(), &mut work.kept)?;
    if !work.kept.is_empty() {
        return Ok(Choice::Token);
    }
    if is_skipped(p, work.matched.as_slice()) {
        return Ok(Choice::Skipped);
    }
    Ok(Choice::Nothing)
}
