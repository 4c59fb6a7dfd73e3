//! What `lexeme default` says, and what rules and lexemes mean.
ghost use Rattle.std.specs.Prelude.{◌≡◌, map, flat_map, option_copied, option_map, IfOk};
ghost use Rattle.language_model.specs.Building as building;
ghost use Rattle.language_model.specs.Building.{lexeme_default_adverbs};
ghost use Rattle.grammar_model.specs.Values.{MakeUndefined};
ghost use Rattle.value_text.specs.Meaning.{action_of, meaning_of};
ghost use Rattle.dsl_statement.specs.Statements.{adverbs_of, statement_of};

use crate::meanings::meanings;
use dsl_faults::{read_action, value_of};
use dsl_statement::{Adverb, Spelled, Statement};
use std::alloc::{AllocError, Global};
use value_text::{Action, Items, Meaning};

fn default_adverbs(s: &Statement) -> &[Adverb]
    ensures { adverbs_of result.now ≡ lexeme_default_adverbs (statement_of s.now) }
{
    match s {
        Statement::LexemeDefault { adverbs, .. } => adverbs,
        _ => &[],
    }
}

fn value_in<'a>(name: &str, s: &'a Statement) -> Option<&'a Spelled>
    ensures { option_copied result ≡
        building.value_of name.now (lexeme_default_adverbs (statement_of s.now)) }
{
    value_of(name, default_adverbs(s))
}

/// The value that `lexeme default` has for the adverb of this name.
pub fn default_value<'a>(name: &str, statements: &'a [Statement]) -> Option<&'a Spelled>
    ensures { option_copied result ≡
        building.value_of name.now (flat_map lexeme_default_adverbs (map statement_of
        statements.now)) }
{
    statements.iter().find_map(|s| value_in(name, s))
}

// The action of all lexemes, if there is one.
fn lexeme_action(alloc: Global, statements: &[Statement]) -> Result<Option<Action>, AllocError>
    ensures { IfOk result (λ action. option_map action_of action ≡
        building.action_in (flat_map lexeme_default_adverbs (map statement_of statements.now))) }
{
    match default_value("action", statements) {
        Some(value) => read_action(alloc, value.content.as_str()),
        None => Ok(None),
    }
}

/// The meanings of the structural rules, and of the lexemes.
pub fn meaning(alloc: Global, statements: &[Statement]) -> Result<Meaning, AllocError>
    ensures { IfOk result (λ m. meaning_of m ≡ record {
      rules = building.meanings MakeUndefined (map statement_of statements.now);
      lexeme = building.action_in (flat_map lexeme_default_adverbs (map statement_of statements.now));
    }) }
{
    let rules = meanings(alloc, statements)?;
    Ok(Meaning {
        rules: Items::new(rules),
        lexeme: lexeme_action(alloc, statements)?,
    })
}
