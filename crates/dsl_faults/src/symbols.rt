//! The faults of the uses of symbols.
ghost use Rattle.std.specs.Prelude.{◌≡◌, [], ◌∷◌, IfOk, OnOk, map, flat_map, if◌then◌else◌, not, is_ok, chars};
ghost use Rattle.language_model.specs.Description as description;
ghost use Rattle.language_model.specs.Building as building;
ghost use Rattle.language_model.specs.Building.{is_one_of};
ghost use Rattle.language_model.specs.Classes.{class_of};
ghost use Rattle.dsl_faults.specs.Found.{IsFirst};
ghost use Rattle.dsl_faults.specs.Uses.{used_of, is_right, is_left};
ghost use Rattle.dsl_faults.specs.Faults.{is_undefined, is_bad_class, undefined_fault, class_fault, both_fault, left_part, lefts_after};

use crate::found::{Found, fault_at, first_after, first_found};
use crate::names::Names;
use crate::uses::{Role, Use, text_of};
use char_class::{ClassRefusal, read_class};
use dsl_statement::{Level, Spelled, TokenKind};
use std::alloc::{AllocError, Global};

/// Whether the token is a name.
pub fn is_name(token: &Spelled) -> bool
    ensures { result ≡ description.is_name token.now }
{
    matches!(token.kind, TokenKind::Word | TokenKind::Angle)
}

/// Whether the token is a class.
pub fn is_bracket(token: &Spelled) -> bool
    ensures { result ≡ building.is_bracket token.now }
{
    matches!(token.kind, TokenKind::Bracket)
}

/// Whether the use stands on a right side, or in a `:discard`.
pub fn is_right(used: &Use<'_>) -> bool
    ensures { result ≡ is_right (used_of used.now) }
{
    matches!(used.role, Role::Right | Role::Discard)
}

/// Whether the use is a left side.
pub fn is_left(used: &Use<'_>) -> bool
    ensures { result ≡ is_left (used_of used.now) }
{
    matches!(used.role, Role::Left)
}

fn is_undefined(used: &Use<'_>, structural: &Names, lexical: &Names) -> bool
    ensures { result ≡ is_undefined structural.now lexical.now (used_of used.now) }
{
    let text = text_of(used);
    is_right(used)
        && (is_name(used.token)
            && !(lexical.has(text) || (!used.level.is_lexical() && structural.has(text))))
}

fn undefined_use<'a>(used: &Use<'a>, structural: &Names, lexical: &Names) -> Option<Found<'a>>
    ensures { IsFirst (undefined_fault structural.now lexical.now (used_of used.now)) result }
{
    is_undefined(used, structural, lexical).then_some(fault_at(used.token))
}

/// The first name that no rule defines, or in a lexical place no lexical rule. The tables have the left sides.
pub fn undefined<'a>(uses: &'a [Use<'a>], structural: &Names, lexical: &Names) -> Option<Found<'a>>
    ensures { IsFirst (flat_map (undefined_fault structural.now lexical.now) (map used_of uses.now)) result }
{
    uses.iter()
        .find_map(|used| undefined_use(used, structural, lexical))
}

fn is_bad_text(alloc: Global, text: &str) -> Result<bool, AllocError>
    ensures { IfOk result (λ b. b ≡ not (is_ok (class_of (chars text.now)))) }
{
    match read_class(alloc, text) {
        Ok(_) => Ok(false),
        Err(ClassRefusal::NoMemory) => Err(AllocError),
        Err(_) => Ok(true),
    }
}

fn bad_class_use<'a>(alloc: Global, used: &Use<'a>) -> Result<Option<Found<'a>>, AllocError>
    ensures { IfOk result (IsFirst (class_fault (used_of used.now))) }
{
    let bad = is_right(used) && is_bracket(used.token) && is_bad_text(alloc, text_of(used))?;
    Ok(bad.then_some(fault_at(used.token)))
}

/// The first class that cannot be read.
pub fn bad_class<'a>(alloc: Global, uses: &'a [Use<'a>]) -> Result<Option<Found<'a>>, AllocError>
    ensures { IfOk result (IsFirst (flat_map class_fault (map used_of uses.now))) }
{
    first_found(uses, |used| bad_class_use(alloc, used))
}

// The left sides of either level that stood before a use.
#[derive(Drop)]
struct Lefts {
    structural: Names,
    lexical: Names,
}

fn is_of_other_level(used: &Use<'_>, lefts: &Lefts) -> bool
    ensures { result ≡ is_one_of (if (used_of used.now).lexical then lefts.now.structural else lefts.now.lexical) (used_of used.now).token.content }
{
    let text = text_of(used);
    match used.level {
        Level::Structural => lefts.lexical.has(text),
        Level::Lexical => lefts.structural.has(text),
    }
}

fn both_fault<'a>(used: &Use<'a>, lefts: &Lefts) -> Option<Found<'a>>
    ensures { IsFirst (both_fault lefts.now.structural lefts.now.lexical (used_of used.now)) result }
{
    let both = is_left(used) && is_of_other_level(used, lefts);
    both.then_some(fault_at(used.token))
}

fn keep_left(lefts: &mut Lefts, used: &Use<'_>) -> Result<(), AllocError>
    ensures { OnOk result (lefts.new ≡ lefts_after lefts.old (used_of used.now)) }
{
    if !is_left(used) {
        return Ok(());
    }
    match used.level {
        Level::Structural => lefts.structural.add(text_of(used)),
        Level::Lexical => lefts.lexical.add(text_of(used)),
    }
}

fn both_at<'a>(lefts: &mut Lefts, used: &Use<'a>) -> Result<Option<Found<'a>>, AllocError>
    ensures found { IfOk result (IsFirst (both_fault lefts.old.structural lefts.old.lexical (used_of used.now))) }
    ensures left { OnOk result (lefts.new ≡ lefts_after lefts.old (used_of used.now)) }
{
    let found = both_fault(used, lefts);
    keep_left(lefts, used)?;
    Ok(found)
}

/// The first left side whose name is one of the other level before.
pub fn in_both<'a>(alloc: Global, uses: &'a [Use<'a>]) -> Result<Option<Found<'a>>, AllocError>
    ensures { IfOk result (IsFirst (building.in_both [] (flat_map left_part (map used_of uses.now)))) }
{
    let lefts = Lefts {
        structural: Names::new(alloc),
        lexical: Names::new(alloc),
    };
    first_after(uses, lefts, both_at)
}
