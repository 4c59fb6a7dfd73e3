//! A grammar, ready to read with.
ghost use Rattle.std.specs.Prelude.{◌≡◌, ◌<◌, ◌≤◌, ◌↔◌, ◌++◌, [], length, OnOk, IfOk, IfErr, IfSome, IsNone};
ghost use Rattle.grammar_model.specs.Grammar.{lhs_of, rule_at};
ghost use Rattle.grammar_model.specs.Values.{name_of};
ghost use Rattle.run_model.specs.Refused.{Accepted};
ghost use Rattle.run_model.specs.Given.{IsLexeme, NamesNoLexeme};
ghost use Rattle.text_reading.specs.Refusals.{IsRefusedAt, IsInputRefusedAt};
ghost use Rattle.slif_parser.specs.Errors.{TellsGrammar, TellsInput};
ghost use Rattle.slif_parser.specs.Readings.{IsReadAs};
ghost use Rattle.slif_parser.specs.Rules.{rule_text};

use crate::error::error_of;
use crate::reading::read_bytes;
use crate::rules::append_rule;
use crate::supplying::read_bytes_with;
use crate::{NoMemory, ParseError, Reading, RuleId, Supplier, SymbolId};
use scanless::Prepared;
use std::alloc::Global;
use std::marker::{Brand, Model};
use std::sync::ledger::Blank;
use text_reading::{grammar_of, lexeme_named};

/// A grammar that is accepted. It is seen as what its text is built to: both grammars, with the tables of lexemes and meanings.
#[derive(Drop)]
pub struct Grammar {
    prepared: Prepared,
}

impl Model for Grammar {
    ghost use Rattle.language_model.specs.Building.{Built};

    ghost Value = { Built };

    ghost view = { λ g. g.prepared };
}

impl Grammar {
    /// The grammar of a text, in UTF-8.
    pub fn from_text(alloc: Global, text: &[u8]) -> Result<Grammar, ParseError>
        ensures accepted { IfOk result (Accepted text.now) }
        ensures refused { IfErr result (TellsGrammar (IsRefusedAt text.now)) }
    {
        match grammar_of(alloc, text) {
            Ok(prepared) => Ok(Grammar { prepared }),
            Err(refusal) => Err(error_of(alloc, refusal)),
        }
    }

    /// A symbol's name, where there is such a symbol.
    pub fn name(&self, symbol: SymbolId) -> Option<&str>
        ensures name { IfSome result (λ name. name.now ≡ name_of self.now.g1 symbol) }
        ensures none { IsNone result ↔ (length self.now.g1.names ≤ symbol) }
    {
        let written = self.prepared.written();
        if symbol.0 as usize >= written.symbol_count() {
            return None;
        }
        Some(written.name(symbol))
    }

    /// The lexeme of a name, as `name` tells it, where there is one.
    pub fn lexeme(&self, name: &str) -> Option<SymbolId>
        ensures some { IfSome result (λ symbol. IsLexeme self.now symbol ×
            (name_of self.now.g1 symbol ≡ name.now)) }
        ensures none { IsNone result → NamesNoLexeme self.now name.now }
    {
        lexeme_named(&self.prepared, name)
    }

    /// How many symbols there are.
    pub fn symbol_count(&self) -> usize
        ensures { result ≡ length self.now.g1.names }
    {
        self.prepared.written().symbol_count()
    }

    /// How many rules there are.
    pub fn rule_count(&self) -> usize
        ensures { result ≡ length self.now.g1.rules }
    {
        self.prepared.written().rule_count()
    }

    /// A rule's left side, where there is such a rule.
    pub fn left(&self, rule: RuleId) -> Option<SymbolId>
        ensures left { IfSome result (λ symbol. symbol ≡ lhs_of (rule_at self.now.g1 rule)) }
        ensures none { IsNone result ↔ (length self.now.g1.rules ≤ rule) }
    {
        let written = self.prepared.written();
        if rule.0 as usize >= written.rule_count() {
            return None;
        }
        Some(written.lhs(rule.0 as usize))
    }

    /// Appends a rule as it is written: its left side and the names of its parts; a sequence with its sign, and its separator where it has
    /// one. Nothing, where there is no such rule.
    pub fn append_rule(&self, rule: RuleId, line: &mut Vec<u8>) -> Result<(), NoMemory>
        ensures rule { rule < length self.now.g1.rules →
            OnOk result (line.new.items ≡ line.old.items ++ rule_text self.now.g1
            (rule_at self.now.g1 rule)) }
        ensures none { length self.now.g1.rules ≤ rule → line.new.items ≡ line.old.items }
    {
        let written = self.prepared.written();
        if rule.0 as usize >= written.rule_count() {
            return Ok(());
        }
        append_rule(written, rule, line)
    }

    /// Reads an input, in UTF-8, to its end.
    pub fn read(&self, alloc: Global, input: &[u8]) -> Result<Reading<'_>, ParseError>
        ensures read { IfOk result (IsReadAs self.now [] input.now) }
        ensures refused { IfErr result (TellsInput (IsInputRefusedAt self.now [] input.now)) }
    {
        match read_bytes::<Brand>(Blank::new(1), alloc, &self.prepared, input) {
            Ok(reading) => Ok(reading),
            Err(refusal) => Err(error_of(alloc, refusal)),
        }
    }

    /// Reads an input, in UTF-8, to its end. Where reading is stuck, or has ended without a derivation, the supplier is asked for a lexeme of
    /// these: the first that could come next and was not supplied there. It is a token without characters. The supplier is told the
    /// lexemes before, and let go at the end.
    pub fn read_with(
        &self,
        alloc: Global,
        input: &[u8],
        lexemes: &[SymbolId],
        supplier: Box<dyn Supplier>,
    ) -> Result<Reading<'_>, ParseError>
        requires some { 0 < length lexemes.now }
        requires few { length lexemes.now ≤ 8 }
        ensures read { IfOk result (IsReadAs self.now lexemes.now input.now) }
        ensures refused { IfErr result (TellsInput
            (IsInputRefusedAt self.now lexemes.now input.now)) }
    {
        match read_bytes_with::<Brand>(
            Blank::new(1),
            alloc,
            &self.prepared,
            input,
            lexemes,
            supplier,
        ) {
            Ok(reading) => Ok(reading),
            Err(refusal) => Err(error_of(alloc, refusal)),
        }
    }
}
