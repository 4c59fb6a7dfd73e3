// Operators without groups, and brackets without `assoc => group`.
ghost use Rattle.std.specs.Prelude.{◌≡◌, ◌++◌, OnOk, map, flat_map, option_map};
ghost use Rattle.std.specs.List.{list_any};
ghost use Rattle.language_model.specs.Building.{parts_of_element};
ghost use Rattle.dsl_statement.specs.Statements.{element_of, adverb_of, adverbs_of, statement_of, is_lexical};
ghost use Rattle.lint_hints.specs.Hints as found;
ghost use Rattle.lint_hints.specs.Hints.{hint_of, groups_hints, level_hints};

use crate::hint::{Fault, Hint};
use crate::spellings::push_if;
use dsl_statement::{Adverb, Alternative, Element, Level, Spelled, Statement, TokenKind};
use std::alloc::AllocError;

/// Whether a part is this name.
fn is_named(part: &Spelled, name: &str) -> bool
    ensures { result ≡ found.is_named name.now part.now }
{
    let is_name = match part.kind {
        TokenKind::Word | TokenKind::Angle => true,
        _ => false,
    };
    is_name && part.content.as_str() == name
}

/// The first part of an element.
fn first_part(element: &Element) -> Option<&Spelled>
    ensures { option_map (λ t. t.now) result ≡ found.first_part (element_of element.now) }
{
    match element {
        Element::Bare(part) => Some(part),
        Element::Hidden(parts) => parts.first(),
    }
}

/// The last part of an element.
fn last_part(element: &Element) -> Option<&Spelled>
    ensures { option_map (λ t. t.now) result ≡ found.last_part (element_of element.now) }
{
    match element {
        Element::Bare(part) => Some(part),
        Element::Hidden(parts) => parts.last(),
    }
}

fn first_of(alternative: &Alternative) -> Option<&Spelled>
    ensures { option_map (λ t. t.now) result ≡ found.first_of alternative.now }
{
    first_part(alternative.elements.first()?)
}

pub(crate) fn last_of(alternative: &Alternative) -> Option<&Spelled>
    ensures { option_map (λ t. t.now) result ≡ found.last_of alternative.now }
{
    last_part(alternative.elements.last()?)
}

fn is_left(part: Option<&Spelled>, left: &str) -> bool
    ensures { result ≡ found.is_left left.now (option_map (λ t. t.now) part.entry) }
{
    match part {
        Some(part) => is_named(part, left),
        None => false,
    }
}

fn place_of(part: Option<&Spelled>) -> usize
    ensures { result ≡ found.place_of (option_map (λ t. t.now) part.entry) }
{
    match part {
        Some(part) => part.at,
        None => 0,
    }
}

/// Whether an alternative begins and ends with this name, and has more than it.
fn is_operator(alternative: &Alternative, left: &str) -> bool
    ensures { result ≡ found.is_operator left.now alternative.now }
{
    alternative.elements.len() > 1
        && is_left(first_of(alternative), left)
        && is_left(last_of(alternative), left)
}

fn look_at_operator<'d>(
    left: &'d str,
    alternative: &Alternative,
    hints: &mut Vec<Hint<'d>>,
) -> Result<(), AllocError>
    ensures { OnOk result (map hint_of hints.new.items ≡ map hint_of hints.old.items ++ found.operator
        left.now alternative.now) }
{
    let at = place_of(first_of(alternative));
    push_if(
        is_operator(alternative, left),
        at,
        Fault::Operator(left),
        hints,
    )
}

fn look_at_operators<'d>(
    left: &'d str,
    group: &[Alternative],
    hints: &mut Vec<Hint<'d>>,
) -> Result<(), AllocError>
    ensures { OnOk result (map hint_of hints.new.items ≡ map hint_of hints.old.items ++ flat_map
        (found.operator left.now) group.now) }
{
    for alternative in group {
        look_at_operator(left, alternative, hints)?;
    }
    Ok(())
}

fn any_is_named(parts: &[Spelled], left: &str) -> bool
    ensures { result ≡ list_any (found.is_named left.now) parts.now }
{
    for part in parts {
        if is_named(part, left) {
            return true;
        }
    }
    false
}

/// Whether an element has this name.
fn has_name(element: &Element, left: &str) -> bool
    ensures { result ≡ found.has_name left.now (element_of element.now) }
{
    match element {
        Element::Bare(part) => is_named(part, left),
        Element::Hidden(parts) => any_is_named(parts, left),
    }
}

fn any_has_name(elements: &[Element], left: &str) -> bool
    ensures { result ≡ list_any (found.has_name left.now) (map element_of elements.now) }
{
    for element in elements {
        if has_name(element, left) {
            return true;
        }
    }
    false
}

fn is_of_any_group(adverb: &Adverb) -> bool
    ensures { result ≡ found.is_of_any_group (adverb_of adverb.now) }
{
    match adverb {
        Adverb::Pair { name, value } => {
            name.content.as_str() == "assoc" && value.content.as_str() == "group"
        }
        Adverb::Comma { .. } => false,
    }
}

/// Whether adverbs say `assoc => group`.
fn say_group(adverbs: &[Adverb]) -> bool
    ensures { result ≡ list_any found.is_of_any_group (adverbs_of adverbs.now) }
{
    for adverb in adverbs {
        if is_of_any_group(adverb) {
            return true;
        }
    }
    false
}

/// Whether the left side stands in an alternative, and not at its ends.
fn is_enclosed(alternative: &Alternative, left: &str) -> bool
    ensures { result ≡ found.is_enclosed left.now alternative.now }
{
    !is_left(first_of(alternative), left)
        && !is_left(last_of(alternative), left)
        && any_has_name(&alternative.elements, left)
}

fn look_at_bracket<'d>(
    left: &'d str,
    alternative: &Alternative,
    hints: &mut Vec<Hint<'d>>,
) -> Result<(), AllocError>
    ensures { OnOk result (map hint_of hints.new.items ≡ map hint_of hints.old.items ++ found.bracket
        left.now alternative.now) }
{
    let at = place_of(first_of(alternative));
    let holds = is_enclosed(alternative, left) && !say_group(&alternative.adverbs);
    push_if(holds, at, Fault::Bracket(left), hints)
}

fn look_at_group<'d>(
    left: &'d str,
    group: &[Alternative],
    hints: &mut Vec<Hint<'d>>,
) -> Result<(), AllocError>
    ensures { OnOk result (map hint_of hints.new.items ≡ map hint_of hints.old.items ++
        found.group_brackets left.now group.now) }
{
    for alternative in group {
        look_at_bracket(left, alternative, hints)?;
    }
    Ok(())
}

fn look_at_brackets<'d>(
    left: &'d str,
    groups: &[Vec<Alternative>],
    hints: &mut Vec<Hint<'d>>,
) -> Result<(), AllocError>
    ensures { OnOk result (map hint_of hints.new.items ≡ map hint_of hints.old.items ++ flat_map
        (found.group_brackets left.now) (map (λ g. g.items) groups.now)) }
{
    for group in groups {
        look_at_group(left, group, hints)?;
    }
    Ok(())
}

/// Appends a hint for each alternative that begins and ends with its left side, where there are no groups, and else for each with its left side in brackets
/// that does not say `assoc => group`.
fn look_at_all<'d>(
    left: &'d str,
    groups: &[Vec<Alternative>],
    hints: &mut Vec<Hint<'d>>,
) -> Result<(), AllocError>
    ensures { OnOk result (map hint_of hints.new.items ≡ map hint_of hints.old.items ++ groups_hints
        left.now (map (λ g. g.items) groups.now)) }
{
    match groups {
        [] => Ok(()),
        [group] => look_at_operators(left, group, hints),
        _ => look_at_brackets(left, groups, hints),
    }
}

fn look_at_level<'d>(
    left: &'d str,
    level: Level,
    groups: &[Vec<Alternative>],
    hints: &mut Vec<Hint<'d>>,
) -> Result<(), AllocError>
    ensures { OnOk result (map hint_of hints.new.items ≡ map hint_of hints.old.items ++ level_hints
        (is_lexical level) left.now (map (λ g. g.items) groups.now)) }
{
    if level.is_lexical() {
        return Ok(());
    }
    look_at_all(left, groups, hints)
}

/// Appends the hints about the operators and brackets of a statement.
pub(crate) fn look_at_groups<'d>(
    statement: &'d Statement,
    hints: &mut Vec<Hint<'d>>,
) -> Result<(), AllocError>
    ensures { OnOk result (map hint_of hints.new.items ≡ map hint_of hints.old.items ++
        found.group_hints (statement_of statement.now)) }
{
    match statement {
        Statement::Rules {
            left,
            level,
            groups,
        } => look_at_level(left.content.as_str(), *level, groups, hints),
        _ => Ok(()),
    }
}
