//! Rows of items, and the lists that they share.
ghost use Rattle.std.specs.Prelude.{◌≡◌, ◌≢◌, ℕ, List, ◌<◌, ◌≤◌, ◌↔◌, ◌⊎◌, ◌++◌, ◌∷◌, [], length, map, sum, ◌+◌, ◌^◌, Some, Contains, IsTrue, IfSome, IfOk, OnOk, OnErr};
ghost use Rattle.std.specs.List.{AllPairs};
ghost use Rattle.recognizer_model.specs.declared.Item.{Item as TheItem};
ghost use Rattle.recognizer_model.specs.Counts.{IsListOf};
ghost use Rattle.recognizer_model.specs.Items.{after, IsWhole};
ghost use Rattle.item_rows.specs.Rows.{row_at, shared_at, kind_at, with_row, IsBegunAt, AreAlike, AreOfKinds};
ghost use Rattle.item_rows.specs.Kept.{AreItems, IsAwaited, WaitsForTerminal};
ghost use Rattle.item_rows.specs.Unbound.{AreRowsOf, rows_with};

use crate::dotted::{DottedRules, UnboundDots};
use crate::packed::{
    Row, at_places, contains, has_scanned, list_dotted, pack_row, row_of, scanned, waiting, whole,
};
use crate::places::note_asked;
use grammar_core::Flat;
use kernels::Kernels;
use recognizer_model::Item;
use shared_lists::{Noted, SharedLists};
use std::alloc::{AllocError, Global};
use std::marker::Model;

/// Rows of items of a flat grammar. A row is a list of its own and one that rows share.
#[derive(Drop)]
pub struct Rows<'g> {
    dotted: DottedRules<'g>,
    // the items that are a row's own, and the number of the list that it shares, row by row
    kernels: Kernels,
    // the lists that rows share
    lists: SharedLists,
    // how many items the rows have together
    count: usize,
    // where the items stand that wait for symbols
    noted: Noted,
    // what is put last
    next: Vec<u64>,
    numbers: Vec<u32>,
}

impl<'g> Model for Rows<'g> {
    ghost use Rattle.item_rows.specs.Rows.{ItemRows};
    ghost use Rattle.item_rows.specs.Held.{rows_from, lists_from, kinds_of, AreHeld};
    ghost use Rattle.item_rows.specs.Noted.{ArePlacesNoted};

    ghost Value = { ItemRows };

    ghost view = { λ r. record {
      flat = r.dotted.flat;
      sets = rows_from r.dotted.rules r.lists 0 r.kernels;
      shared = lists_from r.dotted.rules r.lists;
      kinds = kinds_of r.kernels;
    } };

    ghost invariant = { λ r. AreHeld r.dotted.rules r.lists r.kernels r.count ×
        ArePlacesNoted r.dotted.flat r.dotted.rules r.lists r.kernels r.noted.blocks.items };
}

impl<'g> Rows<'g> {
    /// No rows, and one shared list: the empty one.
    pub fn new(alloc: Global, flat: &'g Flat) -> Result<Rows<'g>, AllocError>
        ensures { IfOk result (λ r. (r.flat ≡ flat.now) × (r.sets ≡ []) × (r.shared ≡ [] ∷ [])) }
    {
        let dotted = DottedRules::new(alloc, flat)?;
        let mut lists = SharedLists::new(alloc);
        lists.push(&[], 0)?;
        Ok(Rows {
            dotted,
            kernels: Kernels::new(alloc),
            lists,
            count: 0,
            noted: Noted::new(alloc),
            next: Vec::new(alloc),
            numbers: Vec::new(alloc),
        })
    }

    /// How many rows there are.
    pub fn len(&self) -> usize
        ensures { result ≡ length self.now.sets }
    {
        self.kernels.len()
    }

    /// How many items the rows have together.
    pub fn item_count(&self) -> usize
        ensures { result ≡ sum (map length self.now.sets) }
    {
        self.count
    }

    /// A row, by its number.
    pub fn row(&self, j: usize) -> Row<'_>
        requires { j < length self.now.sets }
        ensures { result ≡ row_at self.now.sets j }
    {
        let kernel = self.kernels.kernel(j);
        let begun = self.lists.list(kernel.begun as usize);
        row_of(self.dotted.rules(), kernel, begun, j as u32)
    }

    /// The items of a row that wait for a symbol.
    pub fn waiting(&self, j: usize, symbol: u32) -> Row<'_>
        requires { j < length self.now.sets }
        ensures { IsListOf
            (λ item. Contains (row_at self.now.sets j) item ×
            (after self.now.flat item ≡ Some symbol))
            result }
    {
        self.kernels.known();
        let kernel = self.kernels.kernel(j);
        let earleme = j as u32;
        match self.noted.places(self.kernels.kind(j), symbol) {
            Some(places) => at_places(&self.dotted, kernel, &self.lists, earleme, places),
            None => waiting(&self.dotted, kernel, &self.lists, earleme, symbol),
        }
    }

    /// The items of a row with the dot at the end.
    pub fn whole(&self, j: usize) -> Row<'_>
        requires { j < length self.now.sets }
        ensures { IsListOf
            (λ item. Contains (row_at self.now.sets j) item × IsWhole self.now.flat item) result }
    {
        let kernel = self.kernels.kernel(j);
        whole(&self.dotted, kernel, &self.lists, j as u32)
    }

    /// The items of a row that wait for terminals.
    pub fn scanned(&self, j: usize) -> Row<'_>
        requires { j < length self.now.sets }
        ensures { IsListOf
            (λ item. Contains (row_at self.now.sets j) item × WaitsForTerminal self.now.flat item)
            result }
    {
        let kernel = self.kernels.kernel(j);
        scanned(&self.dotted, kernel, &self.lists, j as u32)
    }

    /// The number of the list that a row shares, if no item of the row's own waits for a terminal: then the row waits for the terminals that
    /// the list waits for.
    pub fn list_alone(&self, j: usize) -> Option<u32>
        requires { j < length self.now.sets }
        ensures there { IfSome result (λ k. k < length self.now.shared) }
        ensures alone { IfSome result (λ k. (item : TheItem) → WaitsForTerminal self.now.flat item →
            Contains (row_at self.now.sets j) item ↔
            IsBegunAt (shared_at self.now.shared k) j item) }
    {
        self.dotted.known();
        let kernel = self.kernels.kernel(j);
        if has_scanned(&self.dotted, kernel) {
            None
        } else {
            Some(kernel.begun)
        }
    }

    /// Whether an item is in a row.
    pub fn contains(&self, j: usize, item: Item) -> bool
        requires { j < length self.now.sets }
        ensures { IsTrue result ↔ Contains (row_at self.now.sets j) item }
    {
        let kernel = self.kernels.kernel(j);
        let begun = self.lists.list(kernel.begun as usize);
        contains(&self.dotted, kernel, begun, j as u32, item)
    }

    /// States what is always so of rows.
    pub fn known(&self)
        ensures { AreOfKinds self.now }
    {
        self.kernels.known();
    }

    /// The number of a row's shape.
    pub fn kind(&self, j: usize) -> u32
        requires { j < length self.now.sets }
        ensures { result ≡ kind_at self.now.kinds j }
    {
        self.kernels.kind(j)
    }

    /// Whether two rows have one shape. Then they have the same dotted rules.
    pub fn is_alike(&self, i: usize, j: usize) -> bool
        requires first { i < length self.now.sets }
        requires second { j < length self.now.sets }
        ensures alike { IsTrue result → AreAlike (row_at self.now.sets i) (row_at self.now.sets j) }
        ensures exact { IsTrue result ↔ kind_at self.now.kinds i ≡ kind_at self.now.kinds j }
    {
        self.kernels.is_alike(i, j)
    }

    /// Keeps the first row alone, and the lists that rows share.
    pub fn keep_first(&mut self)
        requires { 0 < length self.old.sets }
        ensures { self.new ≡ record self.old {
          sets = row_at self.old.sets 0 ∷ [];
          kinds = kind_at self.old.kinds 0 ∷ [];
        } }
    {
        let count = self.row(0).len();
        self.kernels.keep_first();
        self.noted.clear();
        self.count = count;
    }

    /// Makes a list that rows can share, and tells its number. Its items begin at the place of each row that shares it.
    pub fn share(&mut self, items: &[Item]) -> Result<u32, AllocError>
        requires items { AreItems self.old.flat items.now }
        requires once { AllPairs (λ x y. x ≢ y) items.now }
        requires zero { (item : TheItem) → Contains items.now item → item.origin ≡ 0 }
        ensures number { IfOk result (λ k. k ≡ length self.old.shared) }
        ensures ok { OnOk result ((list : List TheItem) ×
            (self.new ≡ record self.old { shared = self.old.shared ++ list ∷ [] }) ×
            IsListOf (Contains items.now) list) }
        ensures err { OnErr result (self.new ≡ self.old) }
    {
        self.dotted.known();
        let number = self.lists.len();
        if number >= 4_294_967_296 {
            return Err(AllocError);
        }
        pack_row(&self.dotted, items, &mut self.next)?;
        list_dotted(&self.next, &mut self.numbers)?;
        self.lists.push(&self.numbers, self.dotted.bounds())?;
        Ok(number as u32)
    }

    /// One more row, of different items, and of those of a list that is shared. The list 0 is empty.
    pub fn push(&mut self, items: &[Item], begun: u32) -> Result<(), AllocError>
        requires items { AreItems self.old.flat items.now }
        requires once { AllPairs (λ x y. x ≢ y) items.now }
        requires begun { begun < length self.old.shared }
        requires apart { (item : TheItem) → Contains items.now item →
            ¬ IsBegunAt (shared_at self.old.shared begun) (length self.old.sets) item }
        ensures ok { OnOk result ((row : List TheItem) × (kind : ℕ) ×
            (self.new ≡ with_row self.old row kind) ×
            IsListOf (λ item. Contains items.now item ⊎
            IsBegunAt (shared_at self.old.shared begun) (length self.old.sets) item) row) }
        ensures err { OnErr result (self.new ≡ self.old) }
    {
        self.dotted.known();
        let earleme = self.kernels.len();
        if earleme >= 4_294_967_296 {
            return Err(AllocError);
        }
        pack_row(&self.dotted, items, &mut self.next)?;
        let size = self.next.len() + self.lists.list(begun as usize).len();
        let count = add(self.count, size)?;
        self.kernels.push(&self.next, begun)?;
        self.count = count;
        note_asked(
            *self.numbers.allocator(),
            &mut self.noted,
            &self.dotted,
            &self.kernels,
            &self.lists,
            earleme,
        );
        Ok(())
    }

    /// The same without the grammar.
    pub fn unbind(self) -> UnboundRows
        ensures rows { AreRowsOf self.entry.flat result }
        ensures is { rows_with self.entry.flat result ≡ self.entry }
    {
        let Rows {
            dotted,
            kernels,
            lists,
            count,
            noted,
            next,
            numbers,
        } = self;
        UnboundRows {
            dots: dotted.unbind(),
            kernels,
            lists,
            count,
            noted,
            next,
            numbers,
        }
    }
}

/// Rows of items of a flat grammar, without the grammar.
#[derive(Drop)]
pub struct UnboundRows {
    dots: UnboundDots,
    kernels: Kernels,
    lists: SharedLists,
    count: usize,
    noted: Noted,
    next: Vec<u64>,
    numbers: Vec<u32>,
}

impl UnboundRows {
    /// The same with their grammar.
    pub fn bind<'g>(self, flat: &'g Flat) -> Rows<'g>
        requires { AreRowsOf flat.now self }
        ensures { result ≡ rows_with flat.now self }
    {
        let UnboundRows {
            dots,
            kernels,
            lists,
            count,
            noted,
            next,
            numbers,
        } = self;
        Rows {
            dotted: dots.bind(flat),
            kernels,
            lists,
            count,
            noted,
            next,
            numbers,
        }
    }
}

fn add(count: usize, more: usize) -> Result<usize, AllocError>
    ensures ok { IfOk result (λ sum. sum ≡ count + more) }
    ensures err { OnErr result (2 ^ 64 ≤ count + more) }
{
    match count.checked_add(more) {
        Some(sum) => Ok(sum),
        None => Err(AllocError),
    }
}
