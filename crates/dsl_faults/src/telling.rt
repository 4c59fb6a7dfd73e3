//! The faults of a description, one kind after the other.
ghost use Rattle.std.specs.Prelude.{◌≡◌, ◌++◌, [], map, flat_map};
ghost use Rattle.language_model.specs.Building as building;
ghost use Rattle.language_model.specs.Building.{bad_adverbs, second_starts, big_numbers, too_long};
ghost use Rattle.dsl_statement.specs.Statements.{statement_of};
ghost use Rattle.dsl_faults.specs.Found.{Tells};
ghost use Rattle.dsl_faults.specs.Uses.{used_of};
ghost use Rattle.dsl_faults.specs.Faults.{undefined_fault, class_fault, left_part, lexeme_fault, all_faults};

use crate::BuildRefusal;
use crate::checks::{Check, fault_in_all};
use crate::names::Names;
use crate::seconds::{not_a_lexeme, repeated, second_start, too_long};
use crate::symbols::{bad_class, in_both, undefined};
use crate::uses::Use;
use dsl_statement::Statement;
use std::alloc::Global;

fn tell_adverbs(alloc: Global, statements: &[Statement]) -> Result<(), BuildRefusal>
    ensures { Tells (map building.BadAdverb (bad_adverbs (map statement_of statements.now))) result }
{
    match fault_in_all(alloc, Check::Known, statements)? {
        Some(found) => Err(BuildRefusal::BadAdverb {
            at: found.at,
            name: String::from_str(alloc, found.name)?,
        }),
        None => Ok(()),
    }
}

fn tell_repeated(alloc: Global, statements: &[Statement]) -> Result<(), BuildRefusal>
    ensures { Tells (map building.RepeatedAdverb (building.repeated [] (map statement_of statements.now))) result }
{
    match repeated(alloc, statements)? {
        Some(found) => Err(BuildRefusal::RepeatedAdverb {
            at: found.at,
            name: String::from_str(alloc, found.name)?,
        }),
        None => Ok(()),
    }
}

fn tell_undefined(
    alloc: Global,
    uses: &[Use<'_>],
    structural: &Names,
    lexical: &Names,
) -> Result<(), BuildRefusal>
    ensures { Tells (map building.LexemeNotDefined (flat_map (undefined_fault structural.now lexical.now) (map used_of uses.now))) result }
{
    match undefined(uses, structural, lexical) {
        Some(found) => Err(BuildRefusal::LexemeNotDefined {
            at: found.at,
            name: String::from_str(alloc, found.name)?,
        }),
        None => Ok(()),
    }
}

fn tell_both(alloc: Global, uses: &[Use<'_>]) -> Result<(), BuildRefusal>
    ensures { Tells (map building.InBoth (building.in_both [] (flat_map left_part (map used_of uses.now)))) result }
{
    match in_both(alloc, uses)? {
        Some(found) => Err(BuildRefusal::InBoth {
            at: found.at,
            name: String::from_str(alloc, found.name)?,
        }),
        None => Ok(()),
    }
}

fn tell_lexemes(
    alloc: Global,
    statements: &[Statement],
    symbols: &Names,
    left: &Names,
) -> Result<(), BuildRefusal>
    ensures { Tells (map building.NotALexeme (flat_map (lexeme_fault symbols.now left.now) (map statement_of statements.now))) result }
{
    match not_a_lexeme(statements, symbols, left) {
        Some(found) => Err(BuildRefusal::NotALexeme {
            at: found.at,
            name: String::from_str(alloc, found.name)?,
        }),
        None => Ok(()),
    }
}

fn tell_classes(alloc: Global, uses: &[Use<'_>]) -> Result<(), BuildRefusal>
    ensures { Tells (map building.BadClass (flat_map class_fault (map used_of uses.now))) result }
{
    match bad_class(alloc, uses)? {
        Some(found) => Err(BuildRefusal::BadClass {
            at: found.at,
            name: String::from_str(alloc, found.name)?,
        }),
        None => Ok(()),
    }
}

fn tell_starts(alloc: Global, statements: &[Statement]) -> Result<(), BuildRefusal>
    ensures { Tells (map building.TwoStarts (second_starts (map statement_of statements.now))) result }
{
    match second_start(statements) {
        Some(found) => Err(BuildRefusal::TwoStarts {
            at: found.at,
            name: String::from_str(alloc, found.name)?,
        }),
        None => Ok(()),
    }
}

fn tell_numbers(alloc: Global, statements: &[Statement]) -> Result<(), BuildRefusal>
    ensures { Tells (map building.NumberRange (big_numbers (map statement_of statements.now))) result }
{
    match fault_in_all(alloc, Check::Small, statements)? {
        Some(found) => Err(BuildRefusal::NumberRange {
            at: found.at,
            name: String::from_str(alloc, found.name)?,
        }),
        None => Ok(()),
    }
}

fn tell_long(alloc: Global, statements: &[Statement]) -> Result<(), BuildRefusal>
    ensures { Tells (map building.TooLong (too_long (map statement_of statements.now))) result }
{
    match too_long(alloc, statements)? {
        Some(found) => Err(BuildRefusal::TooLong {
            at: found.at,
            name: String::from_str(alloc, found.name)?,
        }),
        None => Ok(()),
    }
}

/// Whether the description has no fault, or its first. The tables have the structural symbols, and the left sides.
pub fn tell_all(
    alloc: Global,
    statements: &[Statement],
    uses: &[Use<'_>],
    symbols: &Names,
    structural: &Names,
    lexical: &Names,
) -> Result<(), BuildRefusal>
    ensures { Tells (all_faults symbols.now structural.now lexical.now (map used_of uses.now) (map statement_of statements.now)) result }
{
    tell_adverbs(alloc, statements)?;
    tell_repeated(alloc, statements)?;
    tell_undefined(alloc, uses, structural, lexical)?;
    tell_both(alloc, uses)?;
    tell_lexemes(alloc, statements, symbols, structural)?;
    tell_classes(alloc, uses)?;
    tell_starts(alloc, statements)?;
    tell_numbers(alloc, statements)?;
    tell_long(alloc, statements)
}
