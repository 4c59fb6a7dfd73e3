//! Faults of whole statements and of right sides.
ghost use Rattle.std.specs.Prelude.{◌≡◌, ◌++◌, [], ◌||◌, ◌==◌, ◌&&◌, nat_lt, length, IfOk, OnOk, map, flat_map};
ghost use Rattle.language_model.specs.Building as building;
ghost use Rattle.language_model.specs.Building.{second_starts, long_parts, too_long};
ghost use Rattle.dsl_statement.specs.Statements.{statement_of};
ghost use Rattle.dsl_faults.specs.Found.{IsFirst};
ghost use Rattle.dsl_faults.specs.Adverbs.{statement_faults};
ghost use Rattle.dsl_faults.specs.declared.checks.Check.TheVariants.{Once};
ghost use Rattle.dsl_faults.specs.Faults.{lexeme_fault, second_fault, seen_after, start_fault, is_start, long_fault};

use crate::checks::{Check, fault_in_statement};
use crate::found::{Found, fault_at, first_after, first_found};
use crate::names::Names;
use crate::parts::parts_of;
use crate::quotes::{between_quotes, character_count, is_quote};
use dsl_statement::{Alternative, Spelled, Statement};
use std::alloc::{AllocError, Global};

const MOST: usize = 1_000;

fn lexeme_fault<'a>(s: &'a Statement, symbols: &Names, left: &Names) -> Option<Found<'a>>
    ensures { IsFirst (lexeme_fault symbols.now left.now (statement_of s.now)) result }
{
    match s {
        Statement::Lexeme { name, .. } => {
            let text = name.content.as_str();
            let known = symbols.has(text) && !left.has(text);
            (!known).then_some(fault_at(name))
        }
        _ => None,
    }
}

/// The first `:lexeme` whose name is no symbol, or one that a structural rule defines.
pub fn not_a_lexeme<'a>(
    statements: &'a [Statement],
    symbols: &Names,
    left: &Names,
) -> Option<Found<'a>>
    ensures { IsFirst (flat_map (lexeme_fault symbols.now left.now) (map statement_of statements.now)) result }
{
    statements
        .iter()
        .find_map(|s| lexeme_fault(s, symbols, left))
}

// What stood before a statement that no other like it may follow.
#[derive(Drop)]
struct Seen {
    alloc: Global,
    // whether there was a `lexeme default`
    default: bool,
    // the names of the `:lexeme` statements
    lexemes: Names,
}

fn second_fault<'a>(s: &'a Statement, seen: &Seen) -> Option<Found<'a>>
    ensures { IsFirst (second_fault seen.now.default seen.now.lexemes (statement_of s.now)) result }
{
    match s {
        Statement::LexemeDefault { at, .. } => seen.default.then_some(Found {
            at: *at,
            name: "lexeme default",
        }),
        Statement::Lexeme { at, name, .. } => {
            let again = seen.lexemes.has(name.content.as_str());
            again.then_some(Found {
                at: *at,
                name: ":lexeme",
            })
        }
        _ => None,
    }
}

fn see(seen: &mut Seen, s: &Statement) -> Result<(), AllocError>
    ensures { OnOk result (seen.new ≡ seen_after seen.old (statement_of s.now)) }
{
    match s {
        Statement::LexemeDefault { .. } => {
            seen.default = true;
            Ok(())
        }
        Statement::Lexeme { name, .. } => seen.lexemes.add(name.content.as_str()),
        _ => Ok(()),
    }
}

fn repeated_at<'a>(seen: &mut Seen, s: &'a Statement) -> Result<Option<Found<'a>>, AllocError>
    ensures found { IfOk result (IsFirst (second_fault seen.old.default seen.old.lexemes (statement_of s.now) ++
        statement_faults Once (statement_of s.now))) }
    ensures seen { OnOk result (seen.new ≡ seen_after seen.old (statement_of s.now)) }
{
    let second = second_fault(s, seen);
    see(seen, s)?;
    match second {
        Some(found) => Ok(Some(found)),
        None => fault_in_statement(seen.alloc, Check::Once, s),
    }
}

/// The first adverb that stands twice in a list, or second `lexeme default`, or second `:lexeme` of a lexeme.
pub fn repeated(alloc: Global, statements: &[Statement]) -> Result<Option<Found<'_>>, AllocError>
    ensures { IfOk result (IsFirst (building.repeated [] (map statement_of statements.now))) }
{
    let seen = Seen {
        alloc,
        default: false,
        lexemes: Names::new(alloc),
    };
    first_after(statements, seen, repeated_at)
}

fn is_start(s: &Statement) -> bool
    ensures { result ≡ is_start (statement_of s.now) }
{
    matches!(s, Statement::Start { .. })
}

fn start_fault(s: &Statement) -> Option<Found<'_>>
    ensures { IsFirst (start_fault (statement_of s.now)) result }
{
    match s {
        Statement::Start { at, .. } => Some(Found {
            at: *at,
            name: ":start",
        }),
        _ => None,
    }
}

/// The second `:start`.
pub fn second_start(statements: &[Statement]) -> Option<Found<'_>>
    ensures { IsFirst (second_starts (map statement_of statements.now)) result }
{
    let first = statements.iter().position(is_start)?;
    statements[first + 1..].iter().find_map(start_fault)
}

fn is_long_quote(token: &Spelled) -> bool
    ensures { result ≡ (building.is_quote token.now && nat_lt 1000 (length (building.quoted token.now.content))) }
{
    is_quote(token) && character_count(between_quotes(token.content.as_bytes())) > MOST
}

fn long_fault<'a>(before: usize, token: &'a Spelled) -> Option<Found<'a>>
    ensures { IsFirst (long_fault before token.now) result }
{
    let long = before == MOST || is_long_quote(token);
    long.then_some(fault_at(token))
}

fn long_part<'a>(parts: &[&'a Spelled]) -> Option<Found<'a>>
    ensures { IsFirst (long_parts 0 (map (λ t. t.now) parts.now)) result }
{
    parts
        .iter()
        .enumerate()
        .find_map(|(i, part)| long_fault(i, part))
}

fn long_alternative(
    alloc: Global,
    alternative: &Alternative,
) -> Result<Option<Found<'_>>, AllocError>
    ensures { IfOk result (IsFirst (long_parts 0 (building.parts_of alternative.now))) }
{
    let parts = parts_of(alloc, alternative)?;
    Ok(long_part(&parts))
}

fn long_group(alloc: Global, group: &[Alternative]) -> Result<Option<Found<'_>>, AllocError>
    ensures { IfOk result (IsFirst (flat_map (λ a. long_parts 0 (building.parts_of a)) group.now)) }
{
    first_found(group, |alternative| long_alternative(alloc, alternative))
}

fn long_groups(alloc: Global, groups: &[Vec<Alternative>]) -> Result<Option<Found<'_>>, AllocError>
    ensures { IfOk result (IsFirst (flat_map (λ g. flat_map (λ a. long_parts 0 (building.parts_of a)) g.items) groups.now)) }
{
    first_found(groups, |group| long_group(alloc, group))
}

fn long_statement(alloc: Global, s: &Statement) -> Result<Option<Found<'_>>, AllocError>
    ensures { IfOk result (IsFirst (flat_map (long_parts 0) (building.right_sides (statement_of s.now)))) }
{
    match s {
        Statement::Rules { groups, .. } => long_groups(alloc, groups),
        _ => Ok(None),
    }
}

/// The first part after 1,000 others, or quoted text of more than 1,000 characters, on a right side.
pub fn too_long(alloc: Global, statements: &[Statement]) -> Result<Option<Found<'_>>, AllocError>
    ensures { IfOk result (IsFirst (too_long (map statement_of statements.now))) }
{
    first_found(statements, |s| long_statement(alloc, s))
}
