//! The list of all derivations of a simple grammar, each built whole: a yardstick.
#![tactic(auto)]

ghost use Rattle.std.specs.Prelude.{◌≡◌, ◌<◌, ◌≤◌, ℕ, length, All, IfOk, slice_get, Some, map, string_bytes};
ghost use Rattle.grammar_model.specs.Grammar.{lhs_of, slot_of};
ghost use Rattle.plain_lister.specs.Arena.{tree_at};
ghost use Rattle.plain_lister.specs.Table.{listed, IsSound};
ghost use Rattle.grammar_model.specs.Trees.{Tree};
ghost use Rattle.grammar_model.specs.Simple.{IsSimple};
ghost use Rattle.grammar_model.specs.Characters.{IsAllOfCharacters, tree_line};
ghost use Rattle.plain_lister.specs.Listing.{trees_of, line_of};

mod cells;
mod lines;
mod list;
mod lister;
mod rules;
mod store;

use crate::lister::list_at;
use crate::store::Store;
use grammar_core::{SymbolId, Written};
use indexmap::IndexMap;
pub use list::{SlowList, list_simple};
use std::alloc::{AllocError, Global};

/// A tree, or the first children of one. A cell names others by their places in the list of cells, and they are earlier ones.
#[derive(Clone, Copy)]
pub enum Cell {
    /// A symbol and the place where it begins; it is one long.
    Leaf(u32, u32),
    /// A rule, its children, and the places where it begins and ends.
    Node(u32, u32, u32, u32),
    /// One child.
    First(u32),
    /// Children, and one more after them.
    Next(u32, u32),
}

/// All derivations of an input, in the declared order, and what their lines are made of.
#[derive(Drop)]
pub struct Derivations {
    names: Vec<String>,
    lefts: Vec<u32>,
    input: Vec<u8>,
    cells: Vec<Cell>,
    trees: Vec<u32>,
}

// The names of the symbols, in order.
fn names_of(alloc: Global, w: &Written) -> Result<Vec<String>, AllocError>
    ensures { IfOk result (λ names. map string_bytes names.items ≡ w.now.names) }
{
    let mut names = Vec::new(alloc);
    for i in 0..w.symbol_count() {
        names.push(String::from_str(alloc, w.name(SymbolId(i as u32)))?)?;
    }
    Ok(names)
}

// The left sides of the rules, in order.
fn lefts_of(alloc: Global, w: &Written) -> Result<Vec<u32>, AllocError>
    ensures { IfOk result (λ lefts. lefts.items ≡ map lhs_of w.now.rules) }
{
    let mut lefts = Vec::new(alloc);
    for i in 0..w.rule_count() {
        lefts.push(w.lhs(i).0)?;
    }
    Ok(lefts)
}

fn copied(alloc: Global, places: &[u32]) -> Result<Vec<u32>, AllocError>
    ensures { IfOk result (λ copy. copy.items ≡ places.now) }
{
    places.iter().copied().collect(alloc)
}

fn copied_bytes(alloc: Global, bytes: &[u8]) -> Result<Vec<u8>, AllocError>
    ensures { IfOk result (λ copy. copy.items ≡ bytes.now) }
{
    bytes.iter().copied().collect(alloc)
}

// The trees of the first start over the input, as places in the store's cells.
fn trees_of_start(
    alloc: Global,
    w: &Written,
    input: &[u8],
    store: &mut Store,
) -> Result<Vec<u32>, AllocError>
    requires simple { IsSimple w.now }
    requires started { 0 < length w.now.starts }
    requires short { length input.now ≤ 1000 }
    requires sound { IsSound w.now input.now store.old }
    ensures { IfOk result (λ trees. (start : ℕ) × (slice_get w.now.starts 0 ≡ Some start) ×
        (map (tree_at store.new.cells.items) trees.items ≡
        listed w.now input.now (slot_of start) 0 (length input.now))) }
{
    w.known();
    let start = w.start(0);
    if input.is_empty() {
        return Ok(Vec::new(alloc));
    }
    let k = list_at(alloc, w, input, store, start.0 as usize, 0, 0, input.len())?;
    copied(alloc, store.lists[k].as_slice())
}

// The trees of the first start over the input, in cells.
fn trees_in_cells(
    alloc: Global,
    w: &Written,
    input: &[u8],
) -> Result<(Vec<Cell>, Vec<u32>), AllocError>
    requires simple { IsSimple w.now }
    requires started { 0 < length w.now.starts }
    requires short { length input.now ≤ 1000 }
    ensures { IfOk result (λ r. (start : ℕ) × (slice_get w.now.starts 0 ≡ Some start) ×
        (map (tree_at r.0.items) r.1.items ≡
        listed w.now input.now (slot_of start) 0 (length input.now))) }
{
    let mut store = Store {
        cells: Vec::new(alloc),
        lists: Vec::new(alloc),
        memo: IndexMap::new(alloc),
    };
    let trees = trees_of_start(alloc, w, input, &mut store)?;
    Ok((store.cells, trees))
}

// The derivations of the input from the grammar's first start.
fn derive(alloc: Global, w: &Written, input: &[u8]) -> Result<Derivations, AllocError>
    requires simple { IsSimple w.now }
    requires started { 0 < length w.now.starts }
    requires short { length input.now ≤ 1000 }
    requires ascii { All (λ b. b < 128) input.now }
    ensures trees { IfOk result (λ list. IsAllOfCharacters w.now input.now (trees_of list)) }
    ensures lines { IfOk result (λ list. (t : Tree) →
        line_of list t ≡ tree_line w.now input.now t) }
{
    let names = names_of(alloc, w)?;
    let lefts = lefts_of(alloc, w)?;
    let (cells, trees) = trees_in_cells(alloc, w, input)?;
    Ok(Derivations {
        names,
        lefts,
        input: copied_bytes(alloc, input)?,
        cells,
        trees,
    })
}
