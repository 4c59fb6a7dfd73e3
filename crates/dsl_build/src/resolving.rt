//! From names to numbers: after this step no text is looked up.
ghost use Rattle.std.specs.Prelude.{◌≡◌, [], IfOk, map};
ghost use Rattle.language_model.specs.Building.{faults_of};
ghost use Rattle.language_model.specs.Texts.{IsDescription};
ghost use Rattle.dsl_statement.specs.Statements.{statement_of};
ghost use Rattle.dsl_build.specs.Built.{AreTexts};
ghost use Rattle.dsl_build.specs.Resolving.{IsResolved};

use crate::built::LexemeRow;
use crate::lexemes::lexeme_rows;
use crate::rules::{Rules, rules_of};
use crate::symbols::{places_of, start_of, starts_of, symbols_of};
use crate::texts::Texts;
use dsl_faults::Named;
use dsl_statement::Statement;
use grammar_core::SymbolId;
use std::alloc::{AllocError, Global};

/// What a description names, as numbers.
#[derive(Drop)]
pub struct Resolved {
    /// the rules of statements, over the symbols of their level
    pub rules: Rules,
    /// the start of the structural grammar, if it has one
    pub start: Vec<SymbolId>,
    /// the starts of the lexical grammar
    pub starts: Vec<SymbolId>,
    /// the lexemes, in order of their symbols
    pub lexemes: Vec<LexemeRow>,
    /// the places of the discards among the starts
    pub discards: Vec<u32>,
}

/// The numbers of what a description without faults names, by the tables of its names.
pub fn resolve(
    alloc: Global,
    statements: &[Statement],
    named: &Named<'_>,
    texts: &Texts<'_>,
) -> Result<Resolved, AllocError>
    requires described { IsDescription (map statement_of statements.now) }
    requires faultless { faults_of (map statement_of statements.now) ≡ [] }
    requires texts { AreTexts (map statement_of statements.now) named.now texts.now }
    ensures { IfOk result (IsResolved (map statement_of statements.now)) }
{
    let starts = &texts.starts;
    let lexical = &texts.placed.names;
    Ok(Resolved {
        rules: rules_of(alloc, statements, &named.symbols, lexical)?,
        start: starts_of(alloc, &named.symbols, start_of(&named.uses))?,
        starts: symbols_of(alloc, lexical, &starts.texts)?,
        lexemes: lexeme_rows(
            alloc,
            statements,
            &named.symbols,
            &starts.texts,
            &starts.lexemes,
        )?,
        discards: places_of(alloc, &starts.texts, &starts.discards)?,
    })
}
