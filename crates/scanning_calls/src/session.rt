//! A recognizer that owns the flat grammar which it reads by.
ghost use Rattle.std.specs.Prelude.{◌≡◌, ◌<◌, [], length, IfOk};
ghost use Rattle.marpa_script.specs.Machines.{reading};
ghost use Rattle.scanning_calls.specs.Calls.{DerivationsAnswer, ExpectedAnswers, PlaceAnswers, TokenAnswers};
ghost use Rattle.scanning_calls.specs.Machines.{begun_again, ReadsOver};

use crate::kept::derive;
use crate::reading::{begin_again, go_on, list_expected, take_token};
use crate::{Kept, ScanRefusal};
use earley_sets::{Recce, UnboundRecce};
use grammar_core::{Flat, SymbolId, Written};
use std::alloc::{AllocError, Global};
use std::marker::{Brand, Model};
use std::sync::ledger::Blank;

/// A recognizer with its flat grammar, between calls.
pub struct Session {
    flat: Flat,
    recce: UnboundRecce,
}

// Written out, so that whoever lets it go does so by one call.
impl Drop for Session {
    fn drop(self) {
        let Session { flat: _, recce: _ } = self;
    }
}

impl Model for Session {
    ghost use Rattle.earley_sets.specs.Recognizer.{Recognizer};
    ghost use Rattle.earley_sets.specs.Unbound.{IsUnboundOf, recognizer_with};

    ghost Value = { Recognizer };

    ghost view = { λ s. recognizer_with s.flat s.recce };

    ghost invariant = { λ s. IsUnboundOf s.flat s.recce };
}

impl Session {
    /// A recognizer at place 0, for the first start.
    pub fn begin(alloc: Global, flat: Flat) -> Result<Session, AllocError>
        requires { 0 < length flat.tops }
        ensures { IfOk result (λ s. (s.flat ≡ flat) × (s.start ≡ 0) × (s.edges ≡ []) × (length s.sets ≡ 1)) }
    {
        let recce = Recce::new(alloc, &flat, 0)?.unbind();
        Ok(Session { flat, recce })
    }
    /// Takes a token that begins at the place.
    pub fn alternative(
        self,
        w: &Written,
        symbol: u32,
        length: u32,
    ) -> (Session, Result<(), ScanRefusal>)
        requires { ReadsOver w.now self }
        ensures answers { TokenAnswers (reading w.now self) symbol length result.1 (reading w.now result.0) }
        ensures reads { ReadsOver w.now result.0 }
    {
        let Session { flat, recce } = self;
        let mut recce = recce.bind(&flat);
        let answer = take_token(w, &mut recce, symbol, length);
        let recce = recce.unbind();
        (Session { flat, recce }, answer)
    }

    /// Goes to the next place, and tells it.
    pub fn complete(self, w: &Written) -> (Session, Result<u32, ScanRefusal>)
        requires { ReadsOver w.now self }
        ensures answers { PlaceAnswers (reading w.now self) result.1 (reading w.now result.0) }
        ensures reads { ReadsOver w.now result.0 }
    {
        let Session { flat, recce } = self;
        let mut recce = recce.bind(&flat);
        let answer = go_on::<Brand>(Blank::new(1), w, &mut recce);
        let recce = recce.unbind();
        (Session { flat, recce }, answer)
    }

    /// The terminals that are acceptable at the place.
    pub fn expected(
        self,
        alloc: Global,
        w: &Written,
    ) -> (Session, Result<Vec<SymbolId>, ScanRefusal>)
        requires { ReadsOver w.now self }
        ensures answers { ExpectedAnswers (reading w.now self) result.1 (reading w.now result.0) }
        ensures reads { ReadsOver w.now result.0 }
    {
        let Session { flat, recce } = self;
        let recce = recce.bind(&flat);
        let answer = list_expected(alloc, w, &recce);
        let recce = recce.unbind();
        (Session { flat, recce }, answer)
    }

    /// At most so many derivations of what was read, after so many.
    pub fn derivations(
        self,
        alloc: Global,
        w: &Written,
        skip: u64,
        most: u64,
    ) -> (Session, Result<Kept, ScanRefusal>)
        requires { ReadsOver w.now self }
        ensures answers { DerivationsAnswer (reading w.now self) skip most result.1 (reading w.now result.0) }
        ensures reads { ReadsOver w.now result.0 }
    {
        let Session { flat, recce } = self;
        let recce = recce.bind(&flat);
        let answer = derive::<Brand>(Blank::new(1), alloc, w, &recce, skip, most);
        let recce = recce.unbind();
        (Session { flat, recce }, answer)
    }

    /// Goes back to place 0, without tokens.
    pub fn restart(self, w: &Written) -> Session
        requires { ReadsOver w.now self }
        ensures again { reading w.now result ≡ begun_again (reading w.now self) }
        ensures reads { ReadsOver w.now result }
    {
        let Session { flat, recce } = self;
        let mut recce = recce.bind(&flat);
        begin_again(w, &mut recce);
        let recce = recce.unbind();
        Session { flat, recce }
    }
}
