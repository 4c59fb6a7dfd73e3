//! The grammars of a text, ready to read with.
ghost use Rattle.std.specs.Prelude.{◌≡◌, ℕ, ◌<◌, ◌↔◌, length, map, option_copied, IsTrue, IfOk, IfErr, OnOk};
ghost use Rattle.grammar_model.specs.Grammar.{slot_of};
ghost use Rattle.grammar_model.specs.Analysis.{IsNullable, IsProductive, IsAccessible};
ghost use Rattle.grammar_model.specs.Checked.{IsChecked};
ghost use Rattle.recognizer_model.specs.FlatForm.{IsFlatOf};
ghost use Rattle.recognizer_model.specs.Invariant.{IsFlat};
ghost use Rattle.flat_model.specs.Flattened.{IsFlattened};
ghost use Rattle.language_model.specs.Texts.{IsBuilt};
ghost use Rattle.value_text.specs.Meaning.{meaning_of};
ghost use Rattle.dsl_build.specs.Ranges.{IsInRange};
ghost use Rattle.dsl_build.specs.Tables.{row_of};
ghost use Rattle.reading_model.specs.Accepted.{IsAccepted};
ghost use Rattle.prepared_grammars.specs.Abilities.{IsAbility};
ghost use Rattle.prepared_grammars.specs.Faults.{IsFault, IsRefusal};
ghost use Rattle.prepared_grammars.specs.Prepared.{AreInOrder, AreParts, IsLexicalForm};
ghost use Rattle.prepared_grammars.specs.Lookups.{AreLookups};

use crate::PrepareRefusal;
use crate::abilities::Ability;
use crate::lookups::{Lookups, lookups_of};
use crate::parts::{Fault, Parts, parts_of};
use char_class::CharSet;
use dsl_build::{Built, LexemeRow};
use grammar_core::{Flat, SymbolId, Written};
use std::alloc::Global;
use std::marker::Model;
use value_text::Meaning;

/// Grammars and tables of a text that are accepted, and the flat forms of the grammars. It is seen as what was built.
pub struct Prepared {
    built: Built,
    flat: Flat,
    lexical: Option<Flat>,
    abilities: Vec<Ability>,
    lookups: Lookups,
}

// Written out, so that whoever lets it go does so by one call.
impl Drop for Prepared {
    fn drop(self) {
        let Prepared {
            built: _,
            flat: _,
            lexical: _,
            abilities: _,
            lookups: _,
        } = self;
    }
}

impl Model for Prepared {
    ghost use Rattle.language_model.specs.Building.{Built as BuiltOf};
    ghost use Rattle.prepared_grammars.specs.Prepared.{IsPrepared};

    ghost Value = { BuiltOf };

    ghost view = { λ p. p.built };

    ghost invariant = { λ p. IsPrepared p.built p.flat p.lexical p.abilities.items p.lookups };
}

fn structural_grammar(built: Built) -> Written
    ensures { result ≡ built.g1 }
{
    built.g1
}

fn lexical_grammar(built: Built) -> Written
    ensures { result ≡ built.l0 }
{
    built.l0
}

/// The refusal of a fault, with the grammar that was checked.
fn refusal_of(built: Built, fault: Fault) -> PrepareRefusal
    requires { IsFault built fault }
    ensures { IsRefusal built result }
{
    match fault {
        Fault::Refused {
            lexical: false,
            refusal,
        } => PrepareRefusal::Grammar {
            w: structural_grammar(built),
            refusal,
        },
        Fault::Refused {
            lexical: true,
            refusal,
        } => PrepareRefusal::Lexical {
            w: lexical_grammar(built),
            refusal,
        },
        Fault::TooManyRules { lexical } => {
            drop(built);
            PrepareRefusal::TooManyRules { lexical }
        }
        Fault::NoMemory => {
            drop(built);
            PrepareRefusal::NoMemory
        }
    }
}

// What is made of the grammars once, where they are accepted.
fn tables_of(alloc: Global, built: &Built) -> Result<(Parts, Lookups), Fault>
    requires { IsBuilt built.now }
    ensures parts { IfOk result (λ made. AreParts built.now made.0.flat made.0.lexical
        made.0.abilities.items) }
    ensures lookups { IfOk result (λ made. AreLookups built.now made.1.always.items
        made.1.starts.items) }
    ensures err { IfErr result (IsFault built.now) }
{
    let parts = parts_of(alloc, built)?;
    let lookups = lookups_of(alloc, built)?;
    Ok((parts, lookups))
}

/// The grammars, ready to read with, where they are accepted; else their first fault, in the order of `PrepareRefusal`.
/// Both grammars are checked before either is flattened.
pub fn prepare(alloc: Global, built: Built) -> Result<Prepared, PrepareRefusal>
    requires read { IsBuilt built }
    ensures ok { IfOk result (λ p. p ≡ built) }
    ensures accepted { OnOk result (IsAccepted built) }
    ensures err { IfErr result (IsRefusal built) }
{
    match tables_of(alloc, &built) {
        Ok((parts, lookups)) => Ok(Prepared {
            built,
            flat: parts.flat,
            lexical: parts.lexical,
            abilities: parts.abilities,
            lookups,
        }),
        Err(fault) => Err(refusal_of(built, fault)),
    }
}

impl Prepared {
    /// States what is always so of grammars that are ready.
    pub fn known(&self)
        ensures built { IsBuilt self.now }
        ensures accepted { IsAccepted self.now }
        ensures ranges { IsInRange self.now }
    {
        let _ = &self.built;
    }

    /// States that the lexemes are in order, and the first starts.
    pub fn in_order(&self)
        ensures { AreInOrder self.now }
    {
        let _ = &self.built;
    }

    /// The flat form of the structural grammar.
    pub fn flat(&self) -> &Flat
        ensures flattened { IsFlattened self.now.g1 result.now }
        ensures form { IsFlatOf result.now self.now.g1 }
        ensures flat { IsFlat result.now }
        ensures checked { IsChecked self.now.g1 }
    {
        self.flat.known();
        &self.flat
    }

    /// The structural grammar.
    pub fn written(&self) -> &Written
        ensures { result.now ≡ self.now.g1 }
    {
        &self.built.g1
    }

    // What a symbol of the structural grammar can do.
    fn ability(&self, s: SymbolId) -> Ability
        requires { s < length self.now.g1.names }
        ensures { IsAbility self.now.g1 s result }
    {
        self.abilities[s.0 as usize]
    }

    /// Whether some tree of the symbol spans nothing.
    pub fn nullable(&self, s: SymbolId) -> bool
        requires { s < length self.now.g1.names }
        ensures { IsTrue result ↔ IsNullable self.now.g1 (slot_of s) }
    {
        self.ability(s).nullable
    }

    /// Whether the symbol has a tree.
    pub fn productive(&self, s: SymbolId) -> bool
        requires { s < length self.now.g1.names }
        ensures { IsTrue result ↔ IsProductive self.now.g1 (slot_of s) }
    {
        self.ability(s).productive
    }

    /// Whether some slot of the symbol stands in a tree of a start.
    pub fn accessible(&self, s: SymbolId) -> bool
        requires { s < length self.now.g1.names }
        ensures { IsTrue result ↔
            ((l : ℕ) × IsAccessible self.now.g1 (record { symbol = s; level = l })) }
    {
        self.ability(s).accessible
    }

    /// The lexemes, in order of their symbols.
    pub fn lexemes(&self) -> &[LexemeRow]
        ensures { map row_of result.now ≡ self.now.lexemes }
    {
        self.built.lexemes.as_slice()
    }

    /// What is looked for, by tables.
    pub fn lookups(&self) -> &Lookups
        ensures { AreLookups self.now result.now.always.items result.now.starts.items }
    {
        &self.lookups
    }

    /// How many discards there are.
    pub fn discard_count(&self) -> usize
        ensures { result ≡ length self.now.discards }
    {
        self.built.discards.len()
    }

    /// The places of the discards among the starts of the lexical grammar.
    pub fn discards(&self) -> &[u32]
        ensures { result.now ≡ self.now.discards }
    {
        self.built.discards.as_slice()
    }

    /// What the rules of the structural grammar and its lexemes mean.
    pub fn meaning(&self) -> &Meaning
        ensures { meaning_of result.now ≡ self.now.meaning }
    {
        &self.built.meaning
    }

    /// The flat form of the lexical grammar, where there is a lexeme or a discard.
    pub fn lexical(&self) -> Option<&Flat>
        ensures { IsLexicalForm self.now (option_copied result) }
    {
        self.lexical.as_ref()
    }

    /// The character sets, each with its symbol in the lexical grammar.
    pub fn sets(&self) -> &[(SymbolId, CharSet)]
        ensures { result.now ≡ self.now.sets }
    {
        self.built.sets.as_slice()
    }
}
