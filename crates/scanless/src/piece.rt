//! One piece of a text: a token that the recognizer takes, or a piece that a discard has; or nothing can be taken.
ghost use Rattle.std.specs.Prelude.{ℕ, ◌<◌, ◌≤◌, length, IfOk, OnOk, OnErr, List, Contains};
ghost use Rattle.grammar_model.specs.declared.Edge.{Edge as HeldEdge};
ghost use Rattle.grammar_model.specs.declared.limits.TheConstants.{LAST_PLACE, LONGEST_INPUT};
ghost use Rattle.reading_model.specs.Reading.{Piece as ThePiece};
ghost use Rattle.earley_sets.specs.Recognizer.{earleme_of};
ghost use Rattle.earley_sets.specs.Counted.{CountsFrom};
ghost use Rattle.scanless.specs.Taking.{TakesSome};
ghost use Rattle.scanless.specs.Reading.{HoldsPieces};
ghost use Rattle.scanless.specs.Noted.{AreNoted};
ghost use Rattle.scanless.specs.Pieces.{IsLexerOf};
ghost use Rattle.scanless.specs.Cutting.{IsCut, IsPiece, CutMoves, Moves};

use crate::Prepared;
use crate::candidates::{Work, look};
use crate::kept::{Choice, choose};
use crate::taking::take_token;
use crate::told::{expected_lexemes, found_lexemes};
use earley_sets::Recce;
use grammar_core::SymbolId;
use slif_base::{Chars, Steps};
use std::alloc::{AllocError, Global};
use std::sync::ledger::Ledger;

/// What is taken at a place. Lengths are in characters.
#[derive(Debug, Drop)]
pub enum Piece {
    /// A token: the recognizer has taken it as each of the lexemes that are kept.
    Token {
        length: u32,
    },
    /// A discard has the longest match.
    Skipped {
        length: u32,
    },
    /// Nothing can be taken.
    Stuck {
        /// the lexemes that were looked for and have the longest match, by the bytes of their names
        found: Vec<SymbolId>,
        /// the lexemes that are acceptable, by the bytes of their names
        expected: Vec<SymbolId>,
    },
}

/// The same, but what is expected is not listed.
#[derive(Debug, Drop)]
pub enum Cut {
    Token { length: u32 },
    Skipped { length: u32 },
    Stuck { found: Vec<SymbolId> },
}

/// Takes the piece at a character.
pub fn take_piece<L: Ledger>(
    work: &mut Work<'_>,
    alloc: Global,
    p: &Prepared,
    recce: &mut Recce<'_>,
    chars: &Chars,
    at: usize,
    steps: &mut Steps<L>,
) -> Result<Cut, AllocError>
    requires lexer { IsLexerOf p.now work.old.lexer }
    requires notes { AreNoted p.now recce.old work.old.notes }
    requires more { at < length chars.now }
    requires few { length chars.now ≤ LONGEST_INPUT }
    requires place { earleme_of recce.old < LAST_PLACE }
    requires begun { (e : HeldEdge) → Contains recce.old.edges e → e.from < earleme_of recce.old }
    ensures lexer { IsLexerOf p.now work.new.lexer }
    ensures notes { AreNoted p.now recce.new work.new.notes }
    ensures cut { IfOk result (λ cut. (pieces : List ThePiece) →
        HoldsPieces p.now pieces recce.old → IsCut p.now chars.now pieces at recce.old recce.new
        cut) }
    ensures moves { IfOk result (CutMoves recce.old recce.new) }
    ensures err { OnErr result (TakesSome recce.old recce.new) }
    ensures counted { OnOk result ((before : ℕ) → CountsFrom recce.old before steps.old →
        CountsFrom recce.new before steps.new) }
{
    let Some(length) = look(work, alloc, p, recce, chars, at)? else {
        return Ok(Cut::Stuck {
            found: Vec::new(alloc),
        });
    };
    match choose(work, p, recce)? {
        Choice::Token => {
            take_token(recce, work.kept.as_slice(), steps)?;
            Ok(Cut::Token { length })
        }
        Choice::Skipped => Ok(Cut::Skipped { length }),
        Choice::Nothing => {
            let found = found_lexemes(alloc, p, work.matched.as_slice())?;
            Ok(Cut::Stuck { found })
        }
    }
}

/// Takes the piece of a text at a character, and lists what is found and expected where nothing can be taken. It makes the tables of
/// a lexer anew: to read on, take a `Reader`. After an `Err` the recognizer may hold some edges of the piece at its place.
pub fn next_piece<L: Ledger>(
    alloc: Global,
    p: &Prepared,
    recce: &mut Recce<'_>,
    chars: &Chars,
    at: usize,
    steps: &mut Steps<L>,
) -> Result<Piece, AllocError>
    requires more { at < length chars.now }
    requires few { length chars.now ≤ LONGEST_INPUT }
    requires place { earleme_of recce.old < LAST_PLACE }
    requires begun { (e : HeldEdge) → Contains recce.old.edges e → e.from < earleme_of recce.old }
    ensures piece { IfOk result (λ piece. (pieces : List ThePiece) →
        HoldsPieces p.now pieces recce.old → IsPiece p.now chars.now pieces at recce.old recce.new
        piece) }
    ensures moves { IfOk result (Moves recce.old recce.new) }
    ensures err { OnErr result (TakesSome recce.old recce.new) }
    ensures counted { OnOk result ((before : ℕ) → CountsFrom recce.old before steps.old →
        CountsFrom recce.new before steps.new) }
{
    let mut work = Work::new(alloc, p)?;
    match take_piece(&mut work, alloc, p, recce, chars, at, steps)? {
        Cut::Token { length } => Ok(Piece::Token { length }),
        Cut::Skipped { length } => Ok(Piece::Skipped { length }),
        Cut::Stuck { found } => Ok(Piece::Stuck {
            found,
            expected: expected_lexemes(alloc, p, recce)?,
        }),
    }
}
