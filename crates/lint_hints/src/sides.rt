// The two sides of a statement.
ghost use Rattle.std.specs.Prelude.{◌≡◌, ◌++◌, OnOk, map, codes, option_map, flat_map};
ghost use Rattle.language_model.specs.Building.{value_of, parts_of_element, parts_of};
ghost use Rattle.language_model.specs.Building as built;
ghost use Rattle.dsl_statement.specs.Statements.{element_of, adverb_of, adverbs_of, statement_of};
ghost use Rattle.lint_hints.specs.Uses as uses;

use dsl_statement::{Adverb, Alternative, Element, Spelled, Statement};
use std::alloc::AllocError;

/// The left side of a rule, and whether it is lexical.
pub(crate) fn left_of(statement: &Statement) -> Option<(bool, &Spelled)>
    ensures { option_map (λ l. (l.0, l.1.now)) result ≡ built.left_of (statement_of statement.now) }
{
    match statement {
        Statement::Empty { left, level, .. } => Some((level.is_lexical(), left)),
        Statement::Quantified { left, level, .. } => Some((level.is_lexical(), left)),
        Statement::Rules { left, level, .. } => Some((level.is_lexical(), left)),
        _ => None,
    }
}

/// The name of the left side, or none.
pub(crate) fn left_name(statement: &Statement) -> &str
    ensures { result.now ≡ uses.left_name (statement_of statement.now) }
{
    match left_of(statement) {
        Some((_, left)) => left.content.as_str(),
        None => "",
    }
}

/// The separator that adverbs name.
pub(crate) fn separator_of(adverbs: &[Adverb]) -> Option<&Spelled>
    ensures { option_map (λ t. t.now) result ≡ value_of (codes "separator") (adverbs_of adverbs.now) }
{
    for adverb in adverbs {
        if let Adverb::Pair { name, value } = adverb {
            if name.content.as_str() == "separator" {
                return Some(value);
            }
        }
    }
    None
}

fn push_parts<'d>(some: &'d [Spelled], parts: &mut Vec<&'d Spelled>) -> Result<(), AllocError>
    ensures { OnOk result (map (λ t. t.now) parts.new.items ≡ map (λ t. t.now) parts.old.items ++
        some.now) }
{
    for part in some {
        parts.push(part)?;
    }
    Ok(())
}

fn push_element<'d>(element: &'d Element, parts: &mut Vec<&'d Spelled>) -> Result<(), AllocError>
    ensures { OnOk result (map (λ t. t.now) parts.new.items ≡ map (λ t. t.now) parts.old.items ++
        parts_of_element (element_of element.now)) }
{
    match element {
        Element::Bare(part) => {
            parts.push(part)?;
            Ok(())
        }
        Element::Hidden(some) => push_parts(some, parts),
    }
}

fn push_elements<'d>(
    elements: &'d [Element],
    parts: &mut Vec<&'d Spelled>,
) -> Result<(), AllocError>
    ensures { OnOk result (map (λ t. t.now) parts.new.items ≡ map (λ t. t.now) parts.old.items ++
        flat_map parts_of_element (map element_of elements.now)) }
{
    for element in elements {
        push_element(element, parts)?;
    }
    Ok(())
}

fn push_alternative<'d>(
    alternative: &'d Alternative,
    parts: &mut Vec<&'d Spelled>,
) -> Result<(), AllocError>
    ensures { OnOk result (map (λ t. t.now) parts.new.items ≡ map (λ t. t.now) parts.old.items ++
        parts_of alternative.now) }
{
    push_elements(&alternative.elements, parts)
}

fn push_group<'d>(group: &'d [Alternative], parts: &mut Vec<&'d Spelled>) -> Result<(), AllocError>
    ensures { OnOk result (map (λ t. t.now) parts.new.items ≡ map (λ t. t.now) parts.old.items ++
        flat_map parts_of group.now) }
{
    for alternative in group {
        push_alternative(alternative, parts)?;
    }
    Ok(())
}

fn push_groups<'d>(
    groups: &'d [Vec<Alternative>],
    parts: &mut Vec<&'d Spelled>,
) -> Result<(), AllocError>
    ensures { OnOk result (map (λ t. t.now) parts.new.items ≡ map (λ t. t.now) parts.old.items ++
        flat_map (flat_map parts_of) (map (λ g. g.items) groups.now)) }
{
    for group in groups {
        push_group(group, parts)?;
    }
    Ok(())
}

fn push_separator<'d>(adverbs: &'d [Adverb], parts: &mut Vec<&'d Spelled>) -> Result<(), AllocError>
    ensures { OnOk result (map (λ t. t.now) parts.new.items ≡ map (λ t. t.now) parts.old.items ++
        built.separator_of (adverbs_of adverbs.now)) }
{
    if let Some(part) = separator_of(adverbs) {
        parts.push(part)?;
    }
    Ok(())
}

/// Appends the parts of the right side of a statement, separators included.
pub(crate) fn push_right<'d>(
    statement: &'d Statement,
    parts: &mut Vec<&'d Spelled>,
) -> Result<(), AllocError>
    ensures { OnOk result (map (λ t. t.now) parts.new.items ≡ map (λ t. t.now) parts.old.items ++
        uses.parts_of_right (statement_of statement.now)) }
{
    match statement {
        Statement::Discard { item, .. } => {
            parts.push(item)?;
            Ok(())
        }
        Statement::Quantified { item, adverbs, .. } => {
            parts.push(item)?;
            push_separator(adverbs, parts)
        }
        Statement::Rules { groups, .. } => push_groups(groups, parts),
        _ => Ok(()),
    }
}
