//! The lists found so far.
ghost use Rattle.std.specs.Prelude.{◌≡◌, ◌<◌, ℕ, List, length, map, IfOk};
ghost use Rattle.std.specs.Map.{lookup};
ghost use Rattle.grammar_model.specs.Grammar.{Grammar};
ghost use Rattle.plain_lister.specs.Adding.{at, Within};
ghost use Rattle.plain_lister.specs.Table.{same_key, value_at, IsSound, IsListed};

use crate::Cell;
use grammar_core::Written;
use indexmap::IndexMap;
use std::alloc::AllocError;
use std::marker::Model;

/// Places in the list of cells.
#[derive(Drop)]
pub struct Places {
    items: Vec<u32>,
}

impl Model for Places {
    ghost use Rattle.std.specs.Prelude.{ℕ, List};

    ghost Value = { List ℕ };

    ghost view = { λ s. s.items.items };
}

impl Places {
    /// The places, in order.
    pub fn as_slice(&self) -> &[u32]
        ensures { result.now ≡ self.now }
    {
        self.items.as_slice()
    }
}

/// Cells, lists of them, and the number of the list that each key has.
#[derive(Drop)]
pub struct Store {
    pub cells: Vec<Cell>,
    pub lists: Vec<Places>,
    pub memo: IndexMap<(usize, usize, usize, usize), usize>,
}

/// The number of a key's list, if it was found before.
pub fn find_list(store: &Store, x: usize, n: usize, p: usize, q: usize) -> Option<usize>
    ensures { result ≡ lookup (same_key (x, n, p, q)) store.now.memo.entries }
{
    store.memo.get(&(x, n, p, q)).copied()
}

/// Keeps a key's list, and gives its number.
pub fn keep_list(
    store: &mut Store,
    w: &Written,
    input: &[u8],
    x: usize,
    n: usize,
    p: usize,
    q: usize,
    places: Vec<u32>,
) -> Result<usize, AllocError>
    requires sound { IsSound w.now input.now store.old }
    requires within { Within store.old.cells.items places.items }
    requires told { map (at store.old.cells.items) places.items ≡ value_at w.now input.now x n p q }
    ensures { IfOk result (λ k. IsListed w.now input.now store.old store.new k x n p q) }
{
    let number = store.lists.len();
    store.lists.push(Places { items: places })?;
    store.memo.insert((x, n, p, q), number)?;
    Ok(number)
}
