//! Lists of trees and of first children, made of cells.
ghost use Rattle.std.specs.Prelude.{◌≡◌, ◌<◌, ℕ, [], ◌∷◌, length, map, OnOk};
ghost use Rattle.std.specs.List.{flat_map};
ghost use Rattle.grammar_model.specs.Trees.{Node, NoChild, Child};
ghost use Rattle.plain_lister.specs.Arena.{meant, meanings};
ghost use Rattle.plain_lister.specs.Adding.{at, as_tree, as_prefix, Within, Adds};

use crate::Cell;
use std::alloc::AllocError;

const MOST_CELLS: usize = 4_000_000_000;

/// One more cell, and its place at the end of `out`.
pub fn add_cell(cells: &mut Vec<Cell>, out: &mut Vec<u32>, cell: Cell) -> Result<(), AllocError>
    requires { Within cells.old.items out.old.items }
    ensures { OnOk result (Adds cells.old.items cells.new.items out.old.items out.new.items
        (meant (meanings cells.old.items) cell ∷ [])) }
{
    let place = cells.len();
    if place > MOST_CELLS {
        return Err(AllocError);
    }
    cells.push(cell)?;
    out.push(place as u32)?;
    Ok(())
}

/// The nodes of a rule over each of these lists of children.
pub fn add_nodes(
    cells: &mut Vec<Cell>,
    out: &mut Vec<u32>,
    prefixes: &[u32],
    rule: u32,
    from: u32,
    to: u32,
) -> Result<(), AllocError>
    requires out { Within cells.old.items out.old.items }
    requires prefixes { Within cells.old.items prefixes.now }
    ensures { OnOk result (Adds cells.old.items cells.new.items out.old.items out.new.items (map
        (λ k. as_tree (Node rule ((at cells.old.items k).prefix) from to)) prefixes.now)) }
{
    for prefix in prefixes {
        add_cell(cells, out, Cell::Node(rule, *prefix, from, to))?;
    }
    Ok(())
}

/// Each of these trees as the one child.
pub fn add_firsts(
    cells: &mut Vec<Cell>,
    out: &mut Vec<u32>,
    lasts: &[u32],
) -> Result<(), AllocError>
    requires out { Within cells.old.items out.old.items }
    requires lasts { Within cells.old.items lasts.now }
    ensures { OnOk result (Adds cells.old.items cells.new.items out.old.items out.new.items (map
        (λ k. as_prefix (Child NoChild ((at cells.old.items k).tree))) lasts.now)) }
{
    for last in lasts {
        add_cell(cells, out, Cell::First(*last))?;
    }
    Ok(())
}

/// These children with each of these trees after them.
pub fn add_lasts(
    cells: &mut Vec<Cell>,
    out: &mut Vec<u32>,
    prefix: u32,
    lasts: &[u32],
) -> Result<(), AllocError>
    requires out { Within cells.old.items out.old.items }
    requires prefix { prefix < length cells.old.items }
    requires lasts { Within cells.old.items lasts.now }
    ensures { OnOk result (Adds cells.old.items cells.new.items out.old.items out.new.items (map
        (λ k. as_prefix (Child ((at cells.old.items prefix).prefix) ((at cells.old.items k).tree)))
        lasts.now)) }
{
    for last in lasts {
        add_cell(cells, out, Cell::Next(prefix, *last))?;
    }
    Ok(())
}

/// Each of these lists of children with each of these trees after it.
pub fn add_pairs(
    cells: &mut Vec<Cell>,
    out: &mut Vec<u32>,
    prefixes: &[u32],
    lasts: &[u32],
) -> Result<(), AllocError>
    requires out { Within cells.old.items out.old.items }
    requires prefixes { Within cells.old.items prefixes.now }
    requires lasts { Within cells.old.items lasts.now }
    ensures { OnOk result (Adds cells.old.items cells.new.items out.old.items out.new.items (flat_map
        (λ j. map
        (λ k. as_prefix (Child ((at cells.old.items j).prefix) ((at cells.old.items k).tree)))
        lasts.now)
        prefixes.now)) }
{
    for prefix in prefixes {
        add_lasts(cells, out, *prefix, lasts)?;
    }
    Ok(())
}
