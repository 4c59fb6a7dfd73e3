//! The grammars and tables of a description.
ghost use Rattle.std.specs.Prelude.{◌≡◌, ◌≤◌, ◌+◌, [], All, IfOk, flat_map, length, map};
ghost use Rattle.grammar_model.specs.declared.limits.TheConstants.{MOST_ENTRIES};
ghost use Rattle.language_model.specs.Building.{faults_of, built_of, sets_of, numbered_from};
ghost use Rattle.language_model.specs.Texts.{IsDescription};
ghost use Rattle.grammar_core.specs.Written.{rule_of};
ghost use Rattle.dsl_statement.specs.Statements.{statement_of};
ghost use Rattle.dsl_faults.specs.Found.{Tells};
ghost use Rattle.dsl_faults.specs.Named.{AreTables};
ghost use Rattle.dsl_faults.specs.Uses.{used_of, uses_of};
ghost use Rattle.dsl_build.specs.Built.{AreTexts};
ghost use Rattle.dsl_build.specs.Lexical.{lexical_with};
ghost use Rattle.dsl_build.specs.Ready.{IsReadable, IsWritable};
ghost use Rattle.dsl_build.specs.Resolving.{IsResolved};
ghost use Rattle.dsl_build.specs.Rules.{grammar_with};

use crate::built::Built;
use crate::lexical::{Lexical, lexical_grammar};
use crate::resolving::{Resolved, resolve};
use crate::rules::Rules;
use crate::texts::{Texts, texts_of};
use crate::writing::written;
use dsl_faults::{BuildRefusal, Named, Names, check_named, named_of};
use dsl_meanings::meaning;
use dsl_statement::{Description, Spelled, Statement};
use grammar_core::{SymbolId, Written};
use std::alloc::{AllocError, Global};

#[derive(Drop)]
struct Grammars {
    g1: Written,
    lexical: Lexical,
}

// Both grammars: of these structural symbols, and of these lexical names and tokens.
fn grammars_of(
    alloc: Global,
    symbols: &Names,
    names: &Names,
    tokens: &[&Spelled],
    rules: Rules,
    start: &[SymbolId],
    starts: &[SymbolId],
) -> Result<Grammars, AllocError>
    requires readable { All (λ t. IsReadable t.now) tokens.now }
    requires placed { length tokens.now ≤ length names.now }
    requires room { length names.now + length (flat_map sets_of (map (λ t. t.now) tokens.now)) ≤ MOST_ENTRIES }
    requires structural { IsWritable (grammar_with symbols.now 0 (map rule_of rules.structural.items) start.now) }
    requires lexical { IsWritable (lexical_with names.now (map rule_of rules.lexical.items) (map (λ t. t.now) tokens.now) starts.now) }
    ensures structural { IfOk result (λ g. g.g1 ≡ grammar_with symbols.now 0 (map rule_of rules.structural.items) start.now) }
    ensures lexical { IfOk result (λ g. g.lexical.grammar ≡
        lexical_with names.now (map rule_of rules.lexical.items) (map (λ t. t.now) tokens.now)
        starts.now) }
    ensures sets { IfOk result (λ g. g.lexical.sets.items ≡ numbered_from (length names.now) (flat_map sets_of (map (λ t. t.now) tokens.now))) }
{
    let lexical = lexical_grammar(alloc, names, tokens, rules.lexical, starts)?;
    match written(alloc, symbols, 0, rules.structural, start) {
        Ok(g1) => Ok(Grammars { g1, lexical }),
        Err(error) => {
            drop(lexical);
            Err(error)
        }
    }
}

// The grammars and tables over these numbers.
fn lowered(
    alloc: Global,
    statements: &[Statement],
    named: &Named<'_>,
    texts: &Texts<'_>,
    resolved: Resolved,
) -> Result<Built, AllocError>
    requires described { IsDescription (map statement_of statements.now) }
    requires faultless { faults_of (map statement_of statements.now) ≡ [] }
    requires texts { AreTexts (map statement_of statements.now) named.now texts.now }
    requires resolved { IsResolved (map statement_of statements.now) resolved }
    ensures { IfOk result (λ b. b ≡ built_of (map statement_of statements.now)) }
{
    let Resolved {
        rules,
        start,
        starts,
        lexemes,
        discards,
    } = resolved;
    let placed = &texts.placed;
    let grammars = grammars_of(
        alloc,
        &named.symbols,
        &placed.names,
        &placed.tokens,
        rules,
        &start,
        &starts,
    )?;
    match meaning(alloc, statements) {
        Ok(meaning) => {
            let Grammars { g1, lexical } = grammars;
            let Lexical { grammar: l0, sets } = lexical;
            Ok(Built {
                g1,
                l0,
                sets,
                lexemes,
                discards,
                meaning,
            })
        }
        Err(error) => {
            drop(grammars);
            Err(error)
        }
    }
}

// The grammars and tables of statements with these names and texts.
fn built_by(
    alloc: Global,
    statements: &[Statement],
    named: &Named<'_>,
    texts: &Texts<'_>,
) -> Result<Built, AllocError>
    requires described { IsDescription (map statement_of statements.now) }
    requires faultless { faults_of (map statement_of statements.now) ≡ [] }
    requires texts { AreTexts (map statement_of statements.now) named.now texts.now }
    ensures { IfOk result (λ b. b ≡ built_of (map statement_of statements.now)) }
{
    let resolved = resolve(alloc, statements, named, texts)?;
    lowered(alloc, statements, named, texts, resolved)
}

// The grammars and tables of statements with these names.
fn built(alloc: Global, statements: &[Statement], named: &Named<'_>) -> Result<Built, AllocError>
    requires described { IsDescription (map statement_of statements.now) }
    requires faultless { faults_of (map statement_of statements.now) ≡ [] }
    requires uses { map used_of named.now.uses.items ≡ flat_map uses_of (map statement_of statements.now) }
    requires tables { AreTables named.now }
    ensures { IfOk result (λ b. b ≡ built_of (map statement_of statements.now)) }
{
    let texts = texts_of(alloc, named)?;
    let built = built_by(alloc, statements, named, &texts);
    drop(texts);
    built
}

// The grammars and tables of statements that have no fault, else their first fault.
fn checked(
    alloc: Global,
    statements: &[Statement],
    named: &Named<'_>,
) -> Result<Built, BuildRefusal>
    requires described { IsDescription (map statement_of statements.now) }
    requires uses { map used_of named.now.uses.items ≡ flat_map uses_of (map statement_of statements.now) }
    requires tables { AreTables named.now }
    ensures built { IfOk result (λ b. b ≡ built_of (map statement_of statements.now)) }
    ensures faults { Tells (faults_of (map statement_of statements.now)) result }
{
    check_named(alloc, statements, named)?;
    Ok(built(alloc, statements, named)?)
}

/// The grammars and tables of a description that has no fault, else its first fault.
pub fn build(alloc: Global, d: &Description) -> Result<Built, BuildRefusal>
    requires read { IsDescription d.now }
    ensures built { IfOk result (λ b. b ≡ built_of d.now) }
    ensures faults { Tells (faults_of d.now) result }
{
    let statements = &d.statements;
    let named = named_of(alloc, statements)?;
    let built = checked(alloc, statements, &named);
    drop(named);
    built
}
