//! The faults of adverbs.
ghost use Rattle.std.specs.Prelude.{◌≡◌, ◌<◌, IfOk, flat_map, map, [], ◌∷◌, if◌then◌else◌, length, take, slice_get};
ghost use Rattle.language_model.specs.Building.{pairs_of, repeated_in, InAlternative, InEmpty, InQuantified, InLexicalQuantified, InOther};
ghost use Rattle.dsl_faults.specs.declared.checks.Check.TheVariants.{Known};
ghost use Rattle.dsl_statement.specs.Statements.{adverb_of, adverbs_of, is_lexical, statement_of};
ghost use Rattle.dsl_faults.specs.Found.{IsFirst};
ghost use Rattle.dsl_faults.specs.Adverbs.{place_of, names_of, repeat_of, list_faults, big_faults, statement_faults};

use crate::adverbs::{Place, is_allowed, value_of};
use crate::found::{Found, fault_at, first_found};
use crate::values::{fits, is_big};
use dsl_statement::{Adverb, Alternative, Level, Statement};
use std::alloc::{AllocError, Global};

/// What is asked of a list of adverbs.
#[derive(Clone, Copy, Debug)]
pub enum Check {
    /// that each may stand there, and has a value of its kind
    Known,
    /// that none stands twice
    Once,
    /// that no number is beyond a million
    Small,
}

fn unknown_adverb(
    alloc: Global,
    place: Place,
    adverb: &Adverb,
) -> Result<Option<Found<'_>>, AllocError>
    ensures { IfOk result (IsFirst (list_faults Known (place_of place, adverb_of adverb.now ∷ []))) }
{
    match adverb {
        Adverb::Comma { .. } => Ok(None),
        Adverb::Pair { name, value } => {
            let text = name.content.as_str();
            let known = is_allowed(place, text) && fits(alloc, text, value)?;
            Ok((!known).then_some(fault_at(name)))
        }
    }
}

fn unknown(alloc: Global, place: Place, adverbs: &[Adverb]) -> Result<Option<Found<'_>>, AllocError>
    ensures { IfOk result (IsFirst (list_faults Known (place_of place, adverbs_of adverbs.now))) }
{
    first_found(adverbs, |adverb| unknown_adverb(alloc, place, adverb))
}

// Whether the adverb stands among those before it.
fn repeated_adverb<'a>(before: &[Adverb], adverb: &'a Adverb) -> Option<Found<'a>>
    ensures { IsFirst (repeated_in (names_of before.now) (pairs_of (adverb_of adverb.now ∷ []))) result }
{
    match adverb {
        Adverb::Comma { .. } => None,
        Adverb::Pair { name, .. } => {
            let again = value_of(name.content.as_str(), before).is_some();
            again.then_some(fault_at(name))
        }
    }
}

fn repeated_at(adverbs: &[Adverb], place: usize) -> Option<Found<'_>>
    requires { place < length adverbs.now }
    ensures { IsFirst (repeat_of (take place adverbs.now) (slice_get adverbs.now place)) result }
{
    repeated_adverb(&adverbs[..place], &adverbs[place])
}

fn repeated(adverbs: &[Adverb]) -> Option<Found<'_>>
    ensures { IsFirst (repeated_in [] (pairs_of (adverbs_of adverbs.now))) result }
{
    (0..adverbs.len()).find_map(|place| repeated_at(adverbs, place))
}

fn big_adverb(adverb: &Adverb) -> Option<Found<'_>>
    ensures { IsFirst (big_faults (adverb_of adverb.now ∷ [])) result }
{
    match adverb {
        Adverb::Comma { .. } => None,
        Adverb::Pair { name, value } => {
            is_big(name.content.as_str(), value).then_some(fault_at(value))
        }
    }
}

fn too_big(adverbs: &[Adverb]) -> Option<Found<'_>>
    ensures { IsFirst (big_faults (adverbs_of adverbs.now)) result }
{
    adverbs.iter().find_map(big_adverb)
}

fn fault_in_list(
    alloc: Global,
    check: Check,
    place: Place,
    adverbs: &[Adverb],
) -> Result<Option<Found<'_>>, AllocError>
    ensures { IfOk result (IsFirst (list_faults check (place_of place, adverbs_of adverbs.now))) }
{
    match check {
        Check::Known => unknown(alloc, place, adverbs),
        Check::Once => Ok(repeated(adverbs)),
        Check::Small => Ok(too_big(adverbs)),
    }
}

fn fault_in_group(
    alloc: Global,
    check: Check,
    place: Place,
    group: &[Alternative],
) -> Result<Option<Found<'_>>, AllocError>
    ensures { IfOk result (IsFirst (flat_map (λ a. list_faults check (place_of place, a.adverbs)) group.now)) }
{
    first_found(group, |alternative| {
        fault_in_list(alloc, check, place, &alternative.adverbs)
    })
}

fn fault_in_groups(
    alloc: Global,
    check: Check,
    place: Place,
    groups: &[Vec<Alternative>],
) -> Result<Option<Found<'_>>, AllocError>
    ensures { IfOk result (IsFirst (flat_map (λ g. flat_map (λ a. list_faults check (place_of place, a.adverbs)) g.items) groups.now)) }
{
    first_found(groups, |group| fault_in_group(alloc, check, place, group))
}

fn place_of_alternatives(level: Level) -> Place
    ensures { place_of result ≡ (if is_lexical level then InOther else InAlternative) }
{
    match level {
        Level::Structural => Place::Alternative,
        Level::Lexical => Place::Other,
    }
}

fn place_of_empty(level: Level) -> Place
    ensures { place_of result ≡ (if is_lexical level then InOther else InEmpty) }
{
    match level {
        Level::Structural => Place::Empty,
        Level::Lexical => Place::Other,
    }
}

fn place_of_quantified(level: Level) -> Place
    ensures { place_of result ≡ (if is_lexical level then InLexicalQuantified else InQuantified) }
{
    match level {
        Level::Structural => Place::Quantified,
        Level::Lexical => Place::LexicalQuantified,
    }
}

/// The first fault of the adverbs of a statement.
pub fn fault_in_statement(
    alloc: Global,
    check: Check,
    s: &Statement,
) -> Result<Option<Found<'_>>, AllocError>
    ensures { IfOk result (IsFirst (statement_faults check (statement_of s.now))) }
{
    match s {
        Statement::Start { .. } => Ok(None),
        Statement::Default { adverbs, .. } => fault_in_list(alloc, check, Place::Default, adverbs),
        Statement::LexemeDefault { adverbs, .. } => fault_in_list(
            alloc,
            check,
            Place::LexemeDefault,
            adverbs,
        ),
        Statement::Lexeme { adverbs, .. } => fault_in_list(alloc, check, Place::Lexeme, adverbs),
        Statement::Discard { adverbs, .. } => fault_in_list(alloc, check, Place::Other, adverbs),
        Statement::Empty { level, adverbs, .. } => fault_in_list(
            alloc,
            check,
            place_of_empty(*level),
            adverbs,
        ),
        Statement::Quantified { level, adverbs, .. } => fault_in_list(
            alloc,
            check,
            place_of_quantified(*level),
            adverbs,
        ),
        Statement::Rules { level, groups, .. } => fault_in_groups(
            alloc,
            check,
            place_of_alternatives(*level),
            groups,
        ),
    }
}

/// The first fault of the adverbs of all statements.
pub fn fault_in_all(
    alloc: Global,
    check: Check,
    statements: &[Statement],
) -> Result<Option<Found<'_>>, AllocError>
    ensures { IfOk result (IsFirst (flat_map (statement_faults check) (map statement_of statements.now))) }
{
    first_found(statements, |s| fault_in_statement(alloc, check, s))
}
