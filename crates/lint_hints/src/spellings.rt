// Hints about how a part is spelled.
ghost use Rattle.std.specs.Prelude.{◌≡◌, ◌++◌, OnOk, map, flat_map, nat_eq};
ghost use Rattle.std.specs.List.{starts_with, ends_with};
ghost use Rattle.dsl_statement.specs.Statements.{element_of, statement_of};
ghost use Rattle.lint_hints.specs.Hints as found;
ghost use Rattle.lint_hints.specs.Hints.{hint_of, fault_of, hint_if, spelling, element_spellings, alternative_spellings, group_spellings, spellings};

use crate::hint::{Fault, Hint};
use dsl_statement::{Alternative, Element, Spelled, Statement, TokenKind};
use std::alloc::AllocError;

/// Whether a text has a piece.
pub fn has_piece(text: &str, piece: &str) -> bool
    ensures { result ≡ found.has_piece piece.now text.now }
{
    text.contains(piece)
}

/// Whether a backslash stands in front of a letter by which a class would tell a line end, a return or a tab.
fn has_escape(text: &str) -> bool
    ensures { result ≡ found.has_escape text.now }
{
    has_piece(text, "\\n") || has_piece(text, "\\r") || has_piece(text, "\\t")
}

fn begins(text: &str, piece: &str) -> bool
    ensures { result ≡ starts_with nat_eq text.now piece.now }
{
    text.starts_with(piece)
}

fn ends(text: &str, piece: &str) -> bool
    ensures { result ≡ ends_with nat_eq text.now piece.now }
{
    text.ends_with(piece)
}

/// Whether a class is a POSIX piece and nothing else.
fn is_posix(text: &str) -> bool
    ensures { result ≡ found.is_posix text.now }
{
    text.len() > 4 && begins(text, "[:") && ends(text, ":]")
}

/// Appends a hint where something holds.
pub(crate) fn push_if<'d>(
    holds: bool,
    at: usize,
    fault: Fault<'d>,
    hints: &mut Vec<Hint<'d>>,
) -> Result<(), AllocError>
    ensures { OnOk result (map hint_of hints.new.items ≡ map hint_of hints.old.items ++ hint_if holds at
        (fault_of fault.entry)) }
{
    if holds {
        hints.push(Hint { at, fault })?;
    }
    Ok(())
}

fn look_at_part<'d>(part: &'d Spelled, hints: &mut Vec<Hint<'d>>) -> Result<(), AllocError>
    ensures { OnOk result (map hint_of hints.new.items ≡ map hint_of hints.old.items ++ spelling
        part.now) }
{
    let text = part.content.as_str();
    match part.kind {
        TokenKind::Quote => push_if(has_escape(text), part.at, Fault::Escape(text), hints),
        TokenKind::Bracket => push_if(is_posix(text), part.at, Fault::Posix(text), hints),
        _ => Ok(()),
    }
}

fn look_at_parts<'d>(parts: &'d [Spelled], hints: &mut Vec<Hint<'d>>) -> Result<(), AllocError>
    ensures { OnOk result (map hint_of hints.new.items ≡ map hint_of hints.old.items ++ flat_map
        spelling parts.now) }
{
    for part in parts {
        look_at_part(part, hints)?;
    }
    Ok(())
}

fn look_at_element<'d>(element: &'d Element, hints: &mut Vec<Hint<'d>>) -> Result<(), AllocError>
    ensures { OnOk result (map hint_of hints.new.items ≡ map hint_of hints.old.items ++
        element_spellings (element_of element.now)) }
{
    match element {
        Element::Bare(part) => look_at_part(part, hints),
        Element::Hidden(parts) => look_at_parts(parts, hints),
    }
}

fn look_at_elements<'d>(
    elements: &'d [Element],
    hints: &mut Vec<Hint<'d>>,
) -> Result<(), AllocError>
    ensures { OnOk result (map hint_of hints.new.items ≡ map hint_of hints.old.items ++ flat_map
        element_spellings (map element_of elements.now)) }
{
    for element in elements {
        look_at_element(element, hints)?;
    }
    Ok(())
}

fn look_at_alternative<'d>(
    alternative: &'d Alternative,
    hints: &mut Vec<Hint<'d>>,
) -> Result<(), AllocError>
    ensures { OnOk result (map hint_of hints.new.items ≡ map hint_of hints.old.items ++
        alternative_spellings alternative.now) }
{
    look_at_elements(&alternative.elements, hints)
}

fn look_at_group<'d>(group: &'d [Alternative], hints: &mut Vec<Hint<'d>>) -> Result<(), AllocError>
    ensures { OnOk result (map hint_of hints.new.items ≡ map hint_of hints.old.items ++
        group_spellings group.now) }
{
    for alternative in group {
        look_at_alternative(alternative, hints)?;
    }
    Ok(())
}

fn look_at_groups<'d>(
    groups: &'d [Vec<Alternative>],
    hints: &mut Vec<Hint<'d>>,
) -> Result<(), AllocError>
    ensures { OnOk result (map hint_of hints.new.items ≡ map hint_of hints.old.items ++ flat_map
        group_spellings (map (λ g. g.items) groups.now)) }
{
    for group in groups {
        look_at_group(group, hints)?;
    }
    Ok(())
}

/// Appends the hints about the spellings of a statement.
pub(crate) fn look_at_spellings<'d>(
    statement: &'d Statement,
    hints: &mut Vec<Hint<'d>>,
) -> Result<(), AllocError>
    ensures { OnOk result (map hint_of hints.new.items ≡ map hint_of hints.old.items ++ spellings
        (statement_of statement.now)) }
{
    match statement {
        Statement::Discard { item, .. } => look_at_part(item, hints),
        Statement::Quantified { item, .. } => look_at_part(item, hints),
        Statement::Rules { groups, .. } => look_at_groups(groups, hints),
        _ => Ok(()),
    }
}
