//! Reading: a text is cut into tokens and skipped pieces, from the left.
ghost use Rattle.std.specs.Prelude.{◌≡◌, ℕ, ◌+◌, ◌<◌, ◌≤◌, ◌↔◌, ◌++◌, ◌∷◌, [], List, length, IsTrue, IfOk, IfSome, IsNone, OnOk, Contains};
ghost use Rattle.grammar_model.specs.declared.limits.TheConstants.{LAST_PLACE, LONGEST_INPUT};
ghost use Rattle.reading_model.specs.First.{IsFirstWith};
ghost use Rattle.reading_model.specs.Reading.{Piece, supplied, IsNext, IsStuck, HasDerivation, MaySupply};
ghost use Rattle.earley_sets.specs.Recognizer.{earleme_of, IsExpected};
ghost use Rattle.earley_sets.specs.Counted.{CountsFrom, TakesAtMost};
ghost use Rattle.scanless.specs.Reading.{HoldsPieces, IsReadingOf, IsReadingOfWith, HasRead, IsReader, GoesOn, StopsWith, ComesToRest, IsResting, IsOver};

use crate::Prepared;
use crate::candidates::Work;
use crate::piece::{Cut, take_piece};
use crate::taking::take_token;
use crate::told::expected_lexemes;
use earley_sets::{Recce, trees_are_derivations};
use grammar_core::{Span, SymbolId};
use slif_base::{Chars, Steps};
use std::alloc::{AllocError, Global};
use std::marker::Model;
use std::sync::ledger::Ledger;

/// How reading ends.
#[derive(Debug, Drop)]
pub enum Ending {
    /// The whole text is read.
    End,
    /// Neither a token nor a discard can be taken at a place, which counts characters.
    Stopped {
        at: usize,
        /// the lexemes that were looked for and have the longest match, by the bytes of their names
        found: Vec<SymbolId>,
        /// the lexemes that are acceptable, by the bytes of their names
        expected: Vec<SymbolId>,
    },
}

/// What is read of a text.
#[derive(Drop)]
pub struct Reading<'p> {
    /// holds the edges of the tokens, and stands after the last
    pub recce: Recce<'p>,
    /// where each token lies
    pub spans: Vec<Span>,
    pub ending: Ending,
}

/// A text that is being read, from the left, by the tables of one lexer. It is seen as what is read so far. After an `Err` let it go.
#[derive(Drop)]
pub struct Reader<'p> {
    prepared: &'p Prepared,
    recce: Recce<'p>,
    spans: Vec<Span>,
    at: usize,
    work: Box<Work<'p>, Global>,
}

impl<'p> Model for Reader<'p> {
    ghost use Rattle.scanless.specs.Noted.{AreNoted};
    ghost use Rattle.scanless.specs.Pieces.{IsLexerOf};
    ghost use Rattle.scanless.specs.Reading.{ReadSoFar};

    ghost Value = { ReadSoFar };

    ghost view = { λ r. record {
      grammar = r.prepared.now;
      recce = r.recce;
      spans = r.spans.items;
      at = r.at;
    } };

    ghost invariant = { λ r. IsLexerOf r.prepared.now r.work.value.lexer ×
        AreNoted r.prepared.now r.recce r.work.value.notes };
}

impl<'p> Reader<'p> {
    /// A reader before the first character.
    pub fn new(alloc: Global, p: &'p Prepared) -> Result<Reader<'p>, AllocError>
        ensures grammar { IfOk result (λ r. r.grammar ≡ p.now) }
        ensures begun { IfOk result (λ r. (given text : List ℕ) →
            HasRead p.now given text [] r.at r.recce r.spans) }
        ensures noted { IfOk result (λ r. r.recce.noted ≡ []) }
    {
        p.known();
        let recce = Recce::new(alloc, p.flat(), 0)?;
        match Work::boxed(alloc, p) {
            Ok(work) => Ok(Reader {
                prepared: p,
                recce,
                spans: Vec::new(alloc),
                at: 0,
                work,
            }),
            Err(error) => {
                drop(recce);
                Err(error)
            }
        }
    }

    /// The character that comes next, counted from 0.
    pub fn at(&self) -> usize
        ensures { result ≡ self.now.at }
    {
        self.at
    }

    /// The terminals that are expected next, each once.
    pub fn expected(&self) -> &[SymbolId]
        ensures exact { (t : ℕ) → Contains result.now t ↔ IsExpected self.now.recce t }
        ensures acceptable { (pieces : List Piece) →
            HoldsPieces self.now.grammar pieces self.now.recce → (t : ℕ) →
            IsExpected self.now.recce t ↔ IsNext self.now.grammar pieces t }
    {
        self.prepared.known();
        let _place = self.recce.place();
        self.recce.expected_terminals()
    }

    /// Whether the tokens so far have a derivation from the start symbol.
    pub fn has_derivation(&self) -> bool
        ensures { (pieces : List Piece) → HoldsPieces self.now.grammar pieces self.now.recce →
            IsTrue result ↔ HasDerivation self.now.grammar pieces }
    {
        self.prepared.known();
        trees_are_derivations();
        let _place = self.recce.place();
        self.recce.at_end()
    }

    // Takes one piece. Where none can be taken, it tells which lexemes are found.
    fn step<L: Ledger>(
        &mut self,
        alloc: Global,
        chars: &Chars,
        steps: &mut Steps<L>,
    ) -> Result<Option<Vec<SymbolId>>, AllocError>
        requires reader { (given : List ℕ) × IsReader given chars.now self.old }
        requires few { length chars.now ≤ LONGEST_INPUT }
        requires more { self.old.at < length chars.now }
        requires place { earleme_of self.old.recce < LAST_PLACE }
        ensures grammar { self.new.grammar ≡ self.old.grammar }
        ensures moves { IfOk result (λ found. IsNone found →
            (given : List ℕ) (pieces : List Piece) →
            HasRead self.old.grammar given chars.now pieces self.old.at self.old.recce
            self.old.spans → GoesOn given chars.now pieces self.old self.new) }
        ensures room { IfOk result (λ found. IsNone found → (self.old.at < self.new.at) ×
            (earleme_of self.new.recce + self.old.at ≤ earleme_of self.old.recce + self.new.at)) }
        ensures stops { IfOk result (λ found. IfSome found
            (λ f. (self.new ≡ self.old) × ((pieces : List Piece) →
            HoldsPieces self.old.grammar pieces self.old.recce →
            StopsWith self.old.grammar chars.now pieces self.old.at f.items))) }
        ensures counted { OnOk result ((before : ℕ) → CountsFrom self.old.recce before steps.old →
            CountsFrom self.new.recce before steps.new) }
    {
        let start = self.at as u32;
        match take_piece(
            &mut self.work,
            alloc,
            self.prepared,
            &mut self.recce,
            chars,
            self.at,
            steps,
        )? {
            Cut::Token { length } => {
                self.spans.push(Span { start, length })?;
                self.at += length as usize;
                Ok(None)
            }
            Cut::Skipped { length } => {
                self.at += length as usize;
                Ok(None)
            }
            Cut::Stuck { found } => Ok(Some(found)),
        }
    }

    /// Reads on to the end of the text, or to where nothing can be taken: then it tells which lexemes are found there.
    pub fn read_on<L: Ledger>(
        &mut self,
        alloc: Global,
        chars: &Chars,
        steps: &mut Steps<L>,
    ) -> Result<Option<Vec<SymbolId>>, AllocError>
        requires reader { (given : List ℕ) × IsReader given chars.now self.old }
        requires few { length chars.now ≤ LONGEST_INPUT }
        requires room { earleme_of self.old.recce + length chars.now ≤ LAST_PLACE + self.old.at }
        ensures grammar { self.new.grammar ≡ self.old.grammar }
        ensures rests { IfOk result (λ found. (given : List ℕ) (pieces : List Piece) →
            HasRead self.old.grammar given chars.now pieces self.old.at self.old.recce
            self.old.spans → ComesToRest given chars.now pieces self.old self.new found) }
        ensures room { OnOk result (earleme_of self.new.recce + self.old.at ≤ earleme_of
            self.old.recce + self.new.at) }
        ensures counted { OnOk result ((before : ℕ) → CountsFrom self.old.recce before steps.old →
            CountsFrom self.new.recce before steps.new) }
    {
        while self.at < chars.len() {
            if let Some(found) = self.step(alloc, chars, steps)? {
                return Ok(Some(found));
            }
        }
        Ok(None)
    }

    /// Takes a lexeme that is not in the text, as a token of no characters.
    pub fn supply<L: Ledger>(
        &mut self,
        symbol: SymbolId,
        steps: &mut Steps<L>,
    ) -> Result<(), AllocError>
        requires reader { (given text : List ℕ) × (length text ≤ LONGEST_INPUT) ×
            IsReader given text self.old }
        requires place { earleme_of self.old.recce < LAST_PLACE }
        requires expected { IsExpected self.old.recce symbol }
        ensures grammar { self.new.grammar ≡ self.old.grammar }
        ensures supplied { OnOk result ((given text : List ℕ) (pieces : List Piece) →
            HasRead self.old.grammar given text pieces self.old.at self.old.recce self.old.spans →
            IsStuck self.old.grammar text pieces self.old.at →
            IsFirstWith (MaySupply self.old.grammar pieces) given symbol →
            HasRead self.old.grammar given text (pieces ++ supplied symbol ∷ []) self.new.at
            self.new.recce self.new.spans) }
        ensures at { self.new.at ≡ self.old.at }
        ensures counted { OnOk result ((before : ℕ) → CountsFrom self.old.recce before steps.old →
            CountsFrom self.new.recce before steps.new) }
    {
        let start = self.at as u32;
        let symbols = [symbol];
        self.spans.push(Span { start, length: 0 })?;
        take_token(&mut self.recce, &symbols, steps)
    }

    // What was read, where nothing more is read.
    fn ended(self, ending: Ending) -> Reading<'p>
        ensures same { (result.recce ≡ self.entry.recce) × (result.spans.items ≡ self.entry.spans) ×
            (result.ending ≡ ending) }
        ensures counted { (before after : ℕ) → CountsFrom self.entry.recce before after →
            TakesAtMost result.recce before after }
    {
        let _place = self.recce.place();
        let Reader {
            prepared: _,
            recce,
            spans,
            at: _,
            work,
        } = self;
        drop(work);
        Reading {
            recce,
            spans,
            ending,
        }
    }

    /// The reading, where reading rests and nothing is supplied. `found` is what `read_on` told.
    pub fn finish(
        self,
        alloc: Global,
        found: Option<Vec<SymbolId>>,
    ) -> Result<Reading<'p>, AllocError>
        ensures reading { IfOk result (λ r. (given text : List ℕ)
            (rests : IsResting given text self.entry found) →
            IsOver self.entry.grammar given rests.pieces found →
            IsReadingOfWith self.entry.grammar given text r.recce r.spans.items r.ending) }
        ensures counted { IfOk result (λ r. (before after : ℕ) →
            CountsFrom self.entry.recce before after → TakesAtMost r.recce before after) }
    {
        let Some(found) = found else {
            return Ok(self.ended(Ending::End));
        };
        match expected_lexemes(alloc, self.prepared, &self.recce) {
            Ok(expected) => {
                let at = self.at;
                Ok(self.ended(Ending::Stopped {
                    at,
                    found,
                    expected,
                }))
            }
            Err(error) => {
                drop(self);
                Err(error)
            }
        }
    }
}

/// Reads a text, to its end or to the first place where neither a token nor a discard can be taken.
pub fn read_input<'p, L: Ledger>(
    alloc: Global,
    p: &'p Prepared,
    chars: &Chars,
    steps: &mut Steps<L>,
) -> Result<Reading<'p>, AllocError>
    requires { length chars.now ≤ LONGEST_INPUT }
    ensures reading { IfOk result (λ r. IsReadingOf p.now chars.now r.recce r.spans.items
        r.ending) }
    ensures counted { IfOk result (λ r. TakesAtMost r.recce steps.old steps.new) }
{
    let mut reader = Reader::new(alloc, p)?;
    match reader.read_on(alloc, chars, steps) {
        Ok(found) => reader.finish(alloc, found),
        Err(error) => {
            drop(reader);
            Err(error)
        }
    }
}
