//! Hidden items that were brought back, place by place, from later places to earlier ones.
ghost use Rattle.std.specs.Prelude.{◌≡◌, ◌≢◌, ℕ, Some, slice_get, ◌<◌, ◌≤◌, ◌↔◌, ◌++◌, ◌∷◌, [], length, map, AllPairs, Contains, IfSome, IsNone, OnOk, OnErr};
ghost use Rattle.forest_parts.specs.Given.{GivenAt, AreFalling, AreRows, given_at};
ghost use Rattle.forest_parts.specs.Lists.{between};
ghost use Rattle.forest_parts.specs.declared.given.GivenRow.{GivenRow as TheRow};

use recognizer_model::Item;
use std::alloc::{AllocError, Global};
use std::marker::Model;

/// Where the items of a place stand.
#[derive(Clone, Copy, Drop)]
pub struct GivenRow {
    pub place: u32,
    pub first_top: usize,
    pub past_top: usize,
    pub first_item: usize,
    pub past_item: usize,
}

/// What was brought back for one place: the topmost items that were asked for, and the hidden ones below them.
#[derive(Clone, Copy, Drop)]
pub struct GivenHere<'g> {
    pub tops: &'g [Item],
    pub items: &'g [Item],
}

/// Hidden items that were brought back. Places for which there was nothing to bring back take no room.
#[derive(Drop)]
pub struct Given {
    tops: Vec<Item>,
    items: Vec<Item>,
    rows: Vec<GivenRow>,
}

impl Model for Given {
    ghost use Rattle.std.specs.Prelude.{List, map};
    ghost use Rattle.forest_parts.specs.Given.{GivenAt, AreRows, given_at};

    ghost Value = { List GivenAt };

    ghost view = { λ g. map (given_at g.tops.items g.items.items) g.rows.items };

    ghost invariant = { λ g. AreRows g.tops.items g.items.items g.rows.items };
}

// Puts what was brought back for a place after the rest, which is of later places.
fn put_row(
    place: u32,
    tops: &[Item],
    items: &[Item],
    held_tops: &mut Vec<Item>,
    held_items: &mut Vec<Item>,
    rows: &mut Vec<GivenRow>,
) -> Result<(), AllocError>
    requires rows { AreRows held_tops.old.items held_items.old.items rows.old.items }
    requires falls { (row : TheRow) → Contains rows.old.items row → place < row.place }
    ensures rows { AreRows held_tops.new.items held_items.new.items rows.new.items }
    ensures ok { OnOk result (map (given_at held_tops.new.items held_items.new.items) rows.new.items ≡
        map (given_at held_tops.old.items held_items.old.items) rows.old.items ++
        record { place = place; tops = tops.now; items = items.now } ∷ []) }
    ensures err { OnErr result (map (given_at held_tops.new.items held_items.new.items) rows.new.items ≡
        map (given_at held_tops.old.items held_items.old.items) rows.old.items) }
{
    let first_top = held_tops.len();
    let first_item = held_items.len();
    held_tops.extend_from_slice(tops)?;
    held_items.extend_from_slice(items)?;
    rows.push(GivenRow {
        place,
        first_top,
        past_top: held_tops.len(),
        first_item,
        past_item: held_items.len(),
    })?;
    Ok(())
}

// How many rows are of later places.
fn count_later(rows: &[GivenRow], place: u32) -> usize
    requires { AllPairs (λ (row later : TheRow). later.place < row.place) rows.now }
    ensures bound { result ≤ length rows.now }
    ensures later { (k : ℕ) (row : TheRow) → k < result → slice_get rows.now k ≡ Some row → place < row.place }
    ensures other { (k : ℕ) (row : TheRow) → result ≤ k → slice_get rows.now k ≡ Some row → row.place ≤ place }
{
    rows.partition_point(|row| place < row.place)
}

// The row of a place, if there is one.
fn row_of(rows: &[GivenRow], place: u32) -> Option<GivenRow>
    requires { AllPairs (λ (row later : TheRow). later.place < row.place) rows.now }
    ensures some { IfSome result (λ row. Contains rows.now row × (row.place ≡ place)) }
    ensures none { IsNone result → (row : TheRow) → Contains rows.now row → row.place ≢ place }
{
    let row = *rows.get(count_later(rows, place))?;
    if row.place == place { Some(row) } else { None }
}

fn items_between(items: &[Item], first: usize, past: usize) -> &[Item]
    requires order { first ≤ past }
    requires bound { past ≤ length items.now }
    ensures { result.now ≡ between first past items.now }
{
    &items[first..past]
}

impl Given {
    /// Nothing brought back yet.
    pub fn new(alloc: Global) -> Given
        ensures { result ≡ [] }
    {
        Given {
            tops: Vec::new(alloc),
            items: Vec::new(alloc),
            rows: Vec::new(alloc),
        }
    }

    /// Puts what was brought back for a place, which is before all that were put. Where there is no memory for it, all is as it was.
    pub fn push(&mut self, place: u32, tops: &[Item], items: &[Item]) -> Result<(), AllocError>
        requires { (e : GivenAt) → Contains self.old e → place < e.place }
        ensures ok { OnOk result (self.new ≡ self.old ++
            record { place = place; tops = tops.now; items = items.now } ∷ []) }
        ensures err { OnErr result (self.new ≡ self.old) }
    {
        put_row(
            place,
            tops,
            items,
            &mut self.tops,
            &mut self.items,
            &mut self.rows,
        )
    }

    /// What was brought back for a place, if something was.
    pub fn at(&self, place: u32) -> Option<GivenHere<'_>>
        ensures some { IfSome result (λ here. (e : GivenAt) →
            (Contains self.now e × (e.place ≡ place)) ↔
            (e ≡ record { place = place; tops = here.tops.now; items = here.items.now })) }
        ensures none { IsNone result → (e : GivenAt) → Contains self.now e → e.place ≢ place }
    {
        let row = row_of(&self.rows, place)?;
        Some(GivenHere {
            tops: items_between(&self.tops, row.first_top, row.past_top),
            items: items_between(&self.items, row.first_item, row.past_item),
        })
    }

    /// States that each place has its items once, later places first.
    pub fn known(&self)
        ensures { AreFalling self.now }
    {
        let _rows = self.rows.as_slice();
    }
}
