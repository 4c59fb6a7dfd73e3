//! What can come next in a text: the starts that are looked for, and their longest match.
ghost use Rattle.std.specs.Prelude.{◌≡◌, ℕ, ◌+◌, ◌<◌, ◌≤◌, ◌↔◌, ◌⊎◌, [], List, length, IsFalse, IfOk, IfSome, IsNone, OnOk, Contains};
ghost use Rattle.grammar_model.specs.declared.limits.TheConstants.{LONGEST_INPUT};
ghost use Rattle.earley_sets.specs.Recognizer.{earleme_of, IsExpected, WaitsAt};
ghost use Rattle.language_model.specs.Building.{LexemeRow as TheRow};
ghost use Rattle.reading_model.specs.Matches.{Matches};
ghost use Rattle.reading_model.specs.Reading.{Piece, IsLongest};
ghost use Rattle.scanless.specs.Reading.{HoldsPieces};
ghost use Rattle.prepared_grammars.specs.Gathered.{Gathers};
ghost use Rattle.scanless.specs.Noted.{none_noted, AreSought, AreNoted};
ghost use Rattle.scanless.specs.Pieces.{IsLexerOf, AreMatched, IsLongestBy};

use crate::notes::Notes;
use earley_sets::{Alike, Recce};
use grammar_core::SymbolId;
use lexer::{Lexer, Lexical, matches_are_the_grammars};
use prepared_grammars::{Prepared, add_starts};
use slif_base::Chars;
use std::alloc::{AllocError, Global};

/// What is used from place to place: the lexer, if the lexical grammar has a start, and room for what is found.
#[derive(Drop)]
pub struct Work<'p> {
    pub lexer: Option<Lexer<'p>>,
    /// what is looked for at places so far
    pub notes: Notes,
    /// what is looked for, by its places among the starts
    pub candidates: Vec<u32>,
    /// which of them have the longest match
    pub matched: Vec<u32>,
    /// the lexemes that are kept
    pub kept: Vec<SymbolId>,
}

impl<'p> Work<'p> {
    /// A lexer of its own for the grammar, with nothing tried yet.
    pub fn new(alloc: Global, p: &'p Prepared) -> Result<Work<'p>, AllocError>
        ensures lexer { IfOk result (λ work. IsLexerOf p.now work.lexer) }
        ensures notes { IfOk result (λ work. work.notes ≡ none_noted) }
    {
        Ok(Work {
            lexer: lexer_of(alloc, p)?,
            notes: Notes::new(alloc),
            candidates: Vec::new(alloc),
            matched: Vec::new(alloc),
            kept: Vec::new(alloc),
        })
    }

    /// The same, out of the frames of those who hold it.
    #[inline(never)]
    pub fn boxed(alloc: Global, p: &'p Prepared) -> Result<Box<Work<'p>, Global>, AllocError>
        ensures lexer { IfOk result (λ work. IsLexerOf p.now work.value.lexer) }
        ensures notes { IfOk result (λ work. work.value.notes ≡ none_noted) }
    {
        let work = Work::new(alloc, p)?;
        Ok(Box::new(alloc, work)?)
    }
}

fn lexer_of<'p>(alloc: Global, p: &'p Prepared) -> Result<Option<Lexer<'p>>, AllocError>
    ensures { IfOk result (IsLexerOf p.now) }
{
    match p.lexical() {
        None => Ok(None),
        Some(flat) => {
            flat.known();
            let l0 = Lexical {
                flat,
                sets: p.sets(),
            };
            let lexer = Lexer::new(alloc, l0)?;
            Ok(Some(lexer))
        }
    }
}

// Lists what is looked for, by its places among the starts: each lexeme that is always looked for, each that is acceptable, and
// each discard.
fn list_candidates(
    p: &Prepared,
    recce: &Recce<'_>,
    candidates: &mut Vec<u32>,
) -> Result<(), AllocError>
    ensures { OnOk result (AreSought p.now (IsExpected recce.now) candidates.new.items) }
{
    list_lexemes(p, recce, candidates)?;
    candidates.extend_from_slice(p.discards())
}

// The starts of the lexemes that are looked for.
fn list_lexemes(p: &Prepared, recce: &Recce<'_>, starts: &mut Vec<u32>) -> Result<(), AllocError>
    ensures { OnOk result (Gathers (λ (l : TheRow). IsFalse l.latm ⊎ IsExpected recce.now l.symbol)
        (λ (l : TheRow). l.start) p.now.lexemes starts.new.items) }
{
    let lookups = p.lookups();
    starts.clear();
    starts.extend_from_slice(&lookups.always)?;
    add_starts(&lookups.starts, recce.expected_terminals(), starts)?;
    Ok(())
}

// The length of the longest match of the starts, where one matches a character; then just the starts that have it are listed.
fn longest(
    lexer: &mut Option<Lexer<'_>>,
    alloc: Global,
    p: &Prepared,
    chars: &Chars,
    at: usize,
    starts: &[u32],
    hint: &mut usize,
    matched: &mut Vec<u32>,
) -> Result<Option<u32>, AllocError>
    requires lexer { IsLexerOf p.now lexer.old }
    requires at { at ≤ length chars.now }
    requires few { length chars.now ≤ LONGEST_INPUT }
    requires starts { (k : ℕ) → Contains starts.now k → k < length p.now.l0.starts }
    ensures same { lexer.new ≡ lexer.old }
    ensures none { IfOk result (λ answer. IsNone answer → (k m : ℕ) → Contains starts.now k →
        0 < m → Matches p.now chars.now k at (at + m) → ⊥) }
    ensures some { IfOk result (λ answer. IfSome answer
        (λ n. AreMatched p.now chars.now at starts.now n matched.new.items)) }
{
    p.known();
    matches_are_the_grammars();
    match lexer {
        None => Ok(None),
        Some(lexer) => lexer.find_by_hint(alloc, chars, at, starts, hint, matched),
    }
}

// The same, of what is looked for after what the recognizer holds.
fn longest_sought(
    lexer: &mut Option<Lexer<'_>>,
    alloc: Global,
    p: &Prepared,
    recce: &Recce<'_>,
    chars: &Chars,
    at: usize,
    starts: &[u32],
    hint: &mut usize,
    matched: &mut Vec<u32>,
) -> Result<Option<u32>, AllocError>
    requires lexer { IsLexerOf p.now lexer.old }
    requires at { at ≤ length chars.now }
    requires few { length chars.now ≤ LONGEST_INPUT }
    requires starts { AreSought p.now (IsExpected recce.now) starts.now }
    ensures same { lexer.new ≡ lexer.old }
    ensures none { IfOk result (λ answer. IsNone answer → (pieces : List Piece) →
        HoldsPieces p.now pieces recce.now → (n : ℕ) → IsLongest p.now chars.now pieces at n → ⊥) }
    ensures some { IfOk result (λ answer. IfSome answer
        (λ n. (pieces : List Piece) → HoldsPieces p.now pieces recce.now →
        IsLongestBy p.now chars.now pieces at n matched.new.items)) }
    ensures within { IfOk result (λ answer. IfSome answer
        (λ n. (0 < n) × (at + n ≤ length chars.now))) }
{
    p.known();
    let _place = recce.place();
    longest(lexer, alloc, p, chars, at, starts, hint, matched)
}

// Lists what is looked for, and notes it.
fn list_anew(
    work: &mut Work<'_>,
    p: &Prepared,
    recce: &Recce<'_>,
    alike: Alike,
) -> Result<(), AllocError>
    requires place { alike.place ≤ earleme_of recce.now }
    requires alike { (t : ℕ) → WaitsAt recce.now alike.place t ↔ IsExpected recce.now t }
    requires notes { AreNoted p.now recce.now work.old.notes }
    ensures lexer { work.new.lexer ≡ work.old.lexer }
    ensures notes { AreNoted p.now recce.now work.new.notes }
    ensures sought { OnOk result (AreSought p.now (IsExpected recce.now) work.new.candidates.items) }
{
    let _place = recce.place();
    list_candidates(p, recce, &mut work.candidates)?;
    work.notes.put(alike, work.candidates.as_slice())
}

/// The length of the longest match of what is looked for at a place, where something matches a character; then just the starts
/// that have it are listed. What is looked for is listed once for places that are alike.
pub fn look(
    work: &mut Work<'_>,
    alloc: Global,
    p: &Prepared,
    recce: &Recce<'_>,
    chars: &Chars,
    at: usize,
) -> Result<Option<u32>, AllocError>
    requires lexer { IsLexerOf p.now work.old.lexer }
    requires notes { AreNoted p.now recce.now work.old.notes }
    requires at { at ≤ length chars.now }
    requires few { length chars.now ≤ LONGEST_INPUT }
    ensures lexer { IsLexerOf p.now work.new.lexer }
    ensures notes { AreNoted p.now recce.now work.new.notes }
    ensures none { IfOk result (λ answer. IsNone answer → (pieces : List Piece) →
        HoldsPieces p.now pieces recce.now → (n : ℕ) → IsLongest p.now chars.now pieces at n → ⊥) }
    ensures some { IfOk result (λ answer. IfSome answer
        (λ n. (pieces : List Piece) → HoldsPieces p.now pieces recce.now →
        IsLongestBy p.now chars.now pieces at n work.new.matched.items)) }
    ensures within { IfOk result (λ answer. IfSome answer
        (λ n. (0 < n) × (at + n ≤ length chars.now))) }
{
    let alike = recce.alike();
    let mut hint = work.notes.hint(alike.list);
    let lexer = &mut work.lexer;
    let matched = &mut work.matched;
    if let Some(starts) = work.notes.find(alike) {
        let answer = longest_sought(
            lexer, alloc, p, recce, chars, at, starts, &mut hint, matched,
        );
        work.notes.put_hint(alike.list, hint);
        return answer;
    }
    list_anew(work, p, recce, alike)?;
    let starts = work.candidates.as_slice();
    let matched = &mut work.matched;
    longest_sought(
        &mut work.lexer,
        alloc,
        p,
        recce,
        chars,
        at,
        starts,
        &mut hint,
        matched,
    )
}
