//! A grammar that is made call by call, and what is read by it.
ghost use Rattle.std.specs.Prelude.{◌≡◌};
ghost use Rattle.recognizer_model.specs.View.{plain_rule};
ghost use Rattle.script_model.specs.Machine.{blank};
ghost use Rattle.scanning_calls.specs.Calls.{sequence_by, DerivationsAnswer, ExpectedAnswers, PlaceAnswers, PrecomputeAnswers, RestartAnswers, RuleAnswers, StartAnswers, SymbolAnswers, TokenAnswers};

use crate::building::{add_rule, add_sequence, add_start, add_symbol};
use crate::session::Session;
use crate::{Kept, ScanRefusal};
use grammar_core::{SymbolId, Written};
use marpa_script::answer_precompute;
use std::alloc::Global;
use std::marker::Model;

/// A grammar that is made call by call, and then read by from its start. It is seen as the machine of scripts. A call that is refused leaves it as
/// it was.
pub struct Scanning {
    written: Written,
    // there once the grammar is read by
    session: Option<Session>,
}

// Written out, so that whoever lets it go does so by one call.
impl Drop for Scanning {
    fn drop(self) {
        let Scanning {
            written: _,
            session: _,
        } = self;
    }
}

impl Model for Scanning {
    ghost use Rattle.script_model.specs.Machine.{Machine};
    ghost use Rattle.scanning_calls.specs.Machines.{machine_of, IsSound};

    ghost Value = { Machine };

    ghost view = { λ s. machine_of s.written s.session };

    ghost invariant = { λ s. IsSound s.written s.session };
}

impl Scanning {
    /// A grammar of nothing. It takes no memory.
    pub fn new(alloc: Global) -> Scanning
        ensures { result ≡ blank }
    {
        Scanning {
            written: Written::new(alloc),
            session: None,
        }
    }

    /// The number of the symbol with this name, which becomes a new symbol if none has it.
    pub fn symbol(&mut self, name: &str) -> Result<u32, ScanRefusal>
        ensures { SymbolAnswers self.old name.now result self.new }
    {
        match self.session {
            None => add_symbol(&mut self.written, name),
            Some(_) => Err(ScanRefusal::NotNow),
        }
    }

    /// One more rule, and its number.
    pub fn rule(&mut self, alloc: Global, left: u32, parts: &[u32]) -> Result<u32, ScanRefusal>
        ensures { RuleAnswers self.old (plain_rule left parts.now) result self.new }
    {
        match self.session {
            None => add_rule(alloc, &mut self.written, left, parts),
            Some(_) => Err(ScanRefusal::NotNow),
        }
    }

    /// One more rule for a sequence of items, and its number.
    pub fn sequence(
        &mut self,
        left: u32,
        item: u32,
        plus: bool,
        separator: Option<u32>,
        proper: bool,
    ) -> Result<u32, ScanRefusal>
        ensures { RuleAnswers self.old (sequence_by left item plus separator proper) result self.new }
    {
        match self.session {
            None => add_sequence(&mut self.written, left, item, plus, separator, proper),
            Some(_) => Err(ScanRefusal::NotNow),
        }
    }

    /// The start, of which there is one.
    pub fn start(&mut self, symbol: u32) -> Result<(), ScanRefusal>
        ensures { StartAnswers self.old symbol result self.new }
    {
        match self.session {
            None => add_start(&mut self.written, symbol),
            Some(_) => Err(ScanRefusal::NotNow),
        }
    }

    /// Makes the grammar ready to be read by, at place 0. Where the answer is `BadGrammar`, why stands in place of what `text` held.
    #[tactic(auto, using(crate::proofs::Hearing::reads_first))]
    pub fn precompute(&mut self, alloc: Global, text: &mut Vec<u8>) -> Result<(), ScanRefusal>
        ensures { PrecomputeAnswers self.old.phase self.old self.new result text.new.items }
    {
        if self.session.is_some() {
            return Err(ScanRefusal::NotNow);
        }
        match answer_precompute(alloc, &self.written, text) {
            Ok(Some(flat)) => match Session::begin(alloc, flat) {
                Ok(session) => {
                    self.session = Some(session);
                    Ok(())
                }
                Err(_) => Err(ScanRefusal::NoMemory),
            },
            Ok(None) => Err(ScanRefusal::BadGrammar),
            Err(_) => Err(ScanRefusal::NoMemory),
        }
    }

    /// Takes a token that begins at the place, and is so many places long.
    #[tactic(auto, using(crate::proofs::Hearing::not_now))]
    pub fn alternative(&mut self, symbol: u32, length: u32) -> Result<(), ScanRefusal>
        ensures { TokenAnswers self.old symbol length result self.new }
    {
        match self.session.take() {
            None => Err(ScanRefusal::NotNow),
            Some(session) => {
                let (session, answer) = session.alternative(&self.written, symbol, length);
                self.session = Some(session);
                answer
            }
        }
    }

    /// Goes to the next place, and tells it.
    pub fn complete(&mut self) -> Result<u32, ScanRefusal>
        ensures { PlaceAnswers self.old result self.new }
    {
        match self.session.take() {
            None => Err(ScanRefusal::NotNow),
            Some(session) => {
                let (session, answer) = session.complete(&self.written);
                self.session = Some(session);
                answer
            }
        }
    }

    /// The terminals that are acceptable at the place, in the order of their numbers.
    pub fn expected(&mut self, alloc: Global) -> Result<Vec<SymbolId>, ScanRefusal>
        ensures { ExpectedAnswers self.old result self.new }
    {
        match self.session.take() {
            None => Err(ScanRefusal::NotNow),
            Some(session) => {
                let (session, answer) = session.expected(alloc, &self.written);
                self.session = Some(session);
                answer
            }
        }
    }

    /// Of the derivations of the start from 0 to the place, at most so many after the first so many.
    pub fn derivations(&mut self, alloc: Global, skip: u64, most: u64) -> Result<Kept, ScanRefusal>
        ensures { DerivationsAnswer self.old skip most result self.new }
    {
        match self.session.take() {
            None => Err(ScanRefusal::NotNow),
            Some(session) => {
                let (session, answer) = session.derivations(alloc, &self.written, skip, most);
                self.session = Some(session);
                answer
            }
        }
    }

    /// Goes back to place 0, without tokens.
    pub fn restart(&mut self) -> Result<(), ScanRefusal>
        ensures { RestartAnswers self.old result self.new }
    {
        match self.session.take() {
            None => Err(ScanRefusal::NotNow),
            Some(session) => {
                self.session = Some(session.restart(&self.written));
                Ok(())
            }
        }
    }
}
