//! What reading knows of lexemes.
ghost use Rattle.std.specs.Prelude.{◌≡◌, ◌≤◌, ◌++◌, [], map, flat_map, option_copied, option_map, unwrap_or, bytes_eq, codes, length, false, true, All, IfOk, OnOk};
ghost use Rattle.grammar_model.specs.declared.limits.TheConstants.{MOST_ENTRIES};
ghost use Rattle.language_model.specs.Building as building;
ghost use Rattle.language_model.specs.Building.{is_one_of, lexeme_default_adverbs};
ghost use Rattle.dsl_statement.specs.Statements.{adverbs_of, statement_of};
ghost use Rattle.dsl_build.specs.Tables.{row_of, row_from, priority_of, lexeme_parts, adverbs_at, or_else};
ghost use Rattle.dsl_faults.specs.Texts.{AllNew};
ghost use Rattle.dsl_build.specs.Ready.{IsSmall};

use crate::built::LexemeRow;
use crate::numbers::read_number;
use crate::symbols::symbol_of;
use dsl_faults::{Names, value_of};
use dsl_meanings::default_value;
use dsl_statement::{Adverb, Spelled, Statement};
use std::alloc::{AllocError, Global};

/// The adverbs of `:lexeme` statements, by the names of their lexemes.
#[derive(Drop)]
struct OwnAdverbs<'a> {
    names: Names,
    adverbs: Vec<&'a [Adverb]>,
}

fn push_own<'a>(own: &mut OwnAdverbs<'a>, s: &'a Statement) -> Result<(), AllocError>
    requires { All (λ p. is_one_of own.old.names p.0 ≡ false) (lexeme_parts (statement_of s.now)) }
    ensures names { OnOk result (own.new.names ≡ own.old.names ++ map (λ p. p.0) (lexeme_parts (statement_of s.now))) }
    ensures adverbs { OnOk result (map (λ a. adverbs_of a.now) own.new.adverbs.items ≡
        map (λ a. adverbs_of a.now) own.old.adverbs.items ++
        map (λ p. p.1) (lexeme_parts (statement_of s.now))) }
{
    match s {
        Statement::Lexeme { name, adverbs, .. } => {
            own.names.add_new(name.content.as_str())?;
            own.adverbs.push(adverbs)?;
            Ok(())
        }
        _ => Ok(()),
    }
}

// The adverbs of all `:lexeme` statements.
fn own_adverbs(alloc: Global, statements: &[Statement]) -> Result<OwnAdverbs<'_>, AllocError>
    requires { AllNew [] (map (λ p. p.0) (flat_map lexeme_parts (map statement_of statements.now))) }
    ensures names { IfOk result (λ own. own.names ≡ map (λ p. p.0) (flat_map lexeme_parts (map statement_of statements.now))) }
    ensures adverbs { IfOk result (λ own. map (λ a. adverbs_of a.now) own.adverbs.items ≡
        map (λ p. p.1) (flat_map lexeme_parts (map statement_of statements.now))) }
{
    let mut own = OwnAdverbs {
        names: Names::new(alloc),
        adverbs: Vec::new(alloc),
    };
    for s in statements {
        push_own(&mut own, s)?;
    }
    Ok(own)
}

fn adverbs_named<'a>(names: &Names, adverbs: &[&'a [Adverb]], name: &str) -> &'a [Adverb]
    requires { length adverbs.now ≡ length names.now }
    ensures { adverbs_of result.now ≡ adverbs_at names.now (map (λ a. adverbs_of a.now) adverbs.now) name.now }
{
    match names.position(name) {
        Some(place) => adverbs[place],
        None => &[],
    }
}

fn priority_of(adverbs: &[Adverb]) -> i32
    requires { IsSmall (priority_of (adverbs_of adverbs.now)) }
    ensures { result ≡ priority_of (adverbs_of adverbs.now) }
{
    match value_of("priority", adverbs) {
        Some(value) => read_number(value.content.as_str()),
        None => 0,
    }
}

// Whether the lexeme's own adverbs say `latm`, or, where they do not speak of it, the default does.
fn latm_of(adverbs: &[Adverb], default: Option<&Spelled>) -> bool
    ensures { result ≡ unwrap_or
        (option_map (λ t. bytes_eq t.content (codes "1"))
        (or_else (building.value_of (codes "latm") (adverbs_of adverbs.now)) (option_copied default.entry))) false }
{
    let value = match value_of("latm", adverbs) {
        Some(value) => Some(value),
        None => default,
    };
    match value {
        Some(value) => value.content.as_str() == "1",
        None => false,
    }
}

fn lexeme_row(
    symbols: &Names,
    starts: &Names,
    adverbs: &[Adverb],
    default: Option<&Spelled>,
    name: &str,
) -> LexemeRow
    requires symbol { is_one_of symbols.now name.now ≡ true }
    requires start { is_one_of starts.now name.now ≡ true }
    requires few { length symbols.now ≤ MOST_ENTRIES }
    requires few_starts { length starts.now ≤ MOST_ENTRIES }
    requires small { IsSmall (priority_of (adverbs_of adverbs.now)) }
    ensures { row_of result ≡ row_from symbols.now starts.now (adverbs_of adverbs.now) (option_copied default.entry) name.now }
{
    LexemeRow {
        symbol: symbol_of(symbols, name),
        start: symbol_of(starts, name).0,
        priority: priority_of(adverbs),
        latm: latm_of(adverbs, default),
    }
}

/// The rows of the lexemes, in order.
pub fn lexeme_rows(
    alloc: Global,
    statements: &[Statement],
    symbols: &Names,
    starts: &Names,
    lexemes: &Names,
) -> Result<Vec<LexemeRow>, AllocError>
    requires once { AllNew [] (map (λ p. p.0) (flat_map lexeme_parts (map statement_of statements.now))) }
    requires small { All (λ p. IsSmall (priority_of p.1)) (flat_map lexeme_parts (map statement_of statements.now)) }
    requires symbols { All (λ t. is_one_of symbols.now t ≡ true) lexemes.now }
    requires starts { All (λ t. is_one_of starts.now t ≡ true) lexemes.now }
    requires few { length symbols.now ≤ MOST_ENTRIES }
    requires few_starts { length starts.now ≤ MOST_ENTRIES }
    ensures { IfOk result (λ rows. map row_of rows.items ≡ map (λ name. row_from symbols.now starts.now
        (adverbs_at (map (λ p. p.0) (flat_map lexeme_parts (map statement_of statements.now)))
        (map (λ p. p.1) (flat_map lexeme_parts (map statement_of statements.now))) name)
        (building.value_of (codes "latm") (flat_map lexeme_default_adverbs (map statement_of statements.now))) name) lexemes.now) }
{
    let own = own_adverbs(alloc, statements)?;
    let default = default_value("latm", statements);
    let mut rows = Vec::new(alloc);
    for place in 0..lexemes.len() {
        let name = lexemes.text(place);
        let adverbs = adverbs_named(&own.names, &own.adverbs, name);
        rows.push(lexeme_row(symbols, starts, adverbs, default, name))?;
    }
    Ok(rows)
}
