//! Grammars that are checked.
ghost use Rattle.std.specs.Prelude.{◌≡◌, ℕ, ◌<◌, ◌↔◌, length, IsTrue, IfOk, IfErr, OnOk};
ghost use Rattle.grammar_model.specs.Grammar.{Slot, slot_of};
ghost use Rattle.grammar_model.specs.Analysis.{IsNullable, IsProductive, IsAccessible};
ghost use Rattle.grammar_model.specs.Checked.{IsChecked};
ghost use Rattle.grammar_check.specs.Message.{IsOf};
ghost use Rattle.slot_analysis.specs.Few.{FewAreAccessible};
ghost use Rattle.slot_analysis.specs.Tested.{HasTests};
ghost use Rattle.grammar_check.specs.Refused.{IsTold};

use crate::GrammarRefusal;
use crate::cyclic::least_cycle_of;
use crate::refusals::{counted_nullable, start_without_rule, unproductive_start};
use crate::shared::{duplicate_rule, shared_sequence};
use grammar_core::{SymbolId, Written};
use slot_analysis::Analysis;
use std::alloc::Global;
use std::marker::Model;

/// A grammar that a check has passed, and which of its slots are nullable, productive and accessible.
#[derive(Drop)]
pub struct Checked<'a> {
    analysis: Analysis<'a>,
}

impl<'a> Model for Checked<'a> {
    ghost use Rattle.grammar_model.specs.Grammar.{Grammar};
    ghost use Rattle.grammar_model.specs.Checked.{IsChecked};

    ghost Value = { Grammar };

    ghost view = { λ c. c.analysis };

    ghost invariant = { λ c. IsChecked c.analysis };
}

// Nothing, where the grammar passes, or the first fault.
fn first_fault(alloc: Global, analysis: &Analysis<'_>) -> Result<(), GrammarRefusal>
    ensures ok { OnOk result (IsChecked analysis.now) }
    ensures err { IfErr result (IsTold analysis.now) }
    ensures of { IfErr result (IsOf analysis.now) }
{
    let w = analysis.written();
    if w.rule_count() == 0 {
        return Err(GrammarRefusal::NoRules);
    }
    if w.start_count() == 0 {
        return Err(GrammarRefusal::NoStart);
    }
    if let Some(symbol) = start_without_rule(analysis) {
        return Err(GrammarRefusal::StartNotLhs { symbol });
    }
    if let Some(symbol) = shared_sequence(alloc, w)? {
        return Err(GrammarRefusal::SequenceLhs { symbol });
    }
    if let Some(rule) = duplicate_rule(alloc, w)? {
        return Err(GrammarRefusal::Duplicate { rule });
    }
    if let Some(rule) = counted_nullable(analysis) {
        return Err(GrammarRefusal::CountedNullable { rule });
    }
    if let Some(symbol) = unproductive_start(analysis) {
        return Err(GrammarRefusal::UnproductiveStart { symbol });
    }
    if let Some(cycle) = least_cycle_of(alloc, analysis)? {
        return Err(GrammarRefusal::Cyclic { cycle });
    }
    Ok(())
}

/// The grammar, where it passes the check, or the first refusal in order.
pub fn check(alloc: Global, w: &Written) -> Result<Checked<'_>, GrammarRefusal>
    ensures ok { IfOk result (λ c. c ≡ w.now) }
    ensures checked { OnOk result (IsChecked w.now) }
    ensures err { IfErr result (IsTold w.now) }
    ensures of { IfErr result (IsOf w.now) }
{
    let analysis = Analysis::analyse(alloc, w)?;
    match first_fault(alloc, &analysis) {
        Ok(()) => Ok(Checked { analysis }),
        Err(refusal) => {
            drop(analysis);
            Err(refusal)
        }
    }
}

impl<'a> Checked<'a> {
    /// What is known of a checked grammar.
    pub fn known(&self)
        ensures checked { IsChecked self.now }
    {
        let _ = &self.analysis;
    }

    /// States that what slots can do is told by tests.
    pub fn tested(&self)
        ensures { HasTests self.now }
    {
        self.analysis.tested();
    }

    /// States that few slots are accessible.
    pub fn few_accessible(&self)
        ensures { FewAreAccessible self.now }
    {
        self.analysis.few_accessible();
    }

    /// The grammar that was checked.
    pub fn written(&self) -> &Written
        ensures { result.now ≡ self.now }
    {
        self.analysis.written()
    }

    /// Whether some tree of the slot spans nothing.
    pub fn slot_nullable(&self, s: SymbolId, level: u32) -> bool
        requires { s < length self.now.names }
        ensures { IsTrue result ↔ IsNullable self.now (record { symbol = s; level = level }) }
    {
        self.analysis.slot_nullable(s, level)
    }

    /// Whether the slot has a tree. A terminal has one at each level.
    pub fn slot_productive(&self, s: SymbolId, level: u32) -> bool
        requires { s < length self.now.names }
        ensures { IsTrue result ↔ IsProductive self.now (record { symbol = s; level = level }) }
    {
        self.analysis.slot_productive(s, level)
    }

    /// Whether the slot stands in a tree of a start.
    pub fn slot_accessible(&self, s: SymbolId, level: u32) -> bool
        requires { s < length self.now.names }
        ensures { IsTrue result ↔ IsAccessible self.now (record { symbol = s; level = level }) }
    {
        self.analysis.slot_accessible(s, level)
    }

    /// Whether some tree of the symbol spans nothing.
    pub fn nullable(&self, s: SymbolId) -> bool
        requires { s < length self.now.names }
        ensures { IsTrue result ↔ IsNullable self.now (slot_of s) }
    {
        self.analysis.nullable(s)
    }

    /// Whether the symbol has a tree.
    pub fn productive(&self, s: SymbolId) -> bool
        requires { s < length self.now.names }
        ensures { IsTrue result ↔ IsProductive self.now (slot_of s) }
    {
        self.analysis.productive(s)
    }

    /// Whether some slot of the symbol stands in a tree of a start.
    pub fn accessible(&self, s: SymbolId) -> bool
        requires { s < length self.now.names }
        ensures { IsTrue result ↔
            ((l : ℕ) × IsAccessible self.now (record { symbol = s; level = l })) }
    {
        self.analysis.accessible(s)
    }
}
