//! The parts of right sides.
ghost use Rattle.std.specs.Prelude.{◌≡◌, ◌++◌, map, OnOk, IfOk};
ghost use Rattle.language_model.specs.Building as building;

use dsl_statement::{Alternative, Element, Spelled};
use std::alloc::{AllocError, Global};

fn push_hidden<'a>(parts: &mut Vec<&'a Spelled>, hidden: &'a [Spelled]) -> Result<(), AllocError>
    ensures { OnOk result (map (λ t. t.now) parts.new.items ≡ map (λ t. t.now) parts.old.items ++ hidden.now) }
{
    for part in hidden {
        parts.push(part)?;
    }
    Ok(())
}

/// The parts of an alternative, in order.
pub fn parts_of(alloc: Global, alternative: &Alternative) -> Result<Vec<&Spelled>, AllocError>
    ensures { IfOk result (λ parts. map (λ t. t.now) parts.items ≡ building.parts_of alternative.now) }
{
    let mut parts = Vec::new(alloc);
    for element in &alternative.elements {
        match element {
            Element::Bare(part) => parts.push(part)?,
            Element::Hidden(hidden) => push_hidden(&mut parts, hidden)?,
        }
    }
    Ok(parts)
}
