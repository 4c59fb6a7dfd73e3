//! Sets that are closed: what an item leads to is there too.
ghost use Rattle.std.specs.Prelude.{◌≡◌, ◌<◌, ◌≤◌, ◌+◌, ◌↔◌, ◌⊎◌, length, Some, OnOk, IfOk, IsTrue, Contains};
ghost use Rattle.recognizer_model.specs.declared.Item.{Item};
ghost use Rattle.grammar_model.specs.declared.Edge.{Edge as HeldEdge};
ghost use Rattle.recognizer_model.specs.Contexts.{IsTop};
ghost use Rattle.recognizer_model.specs.Items.{first_item};
ghost use Rattle.leo_items.specs.ByRows.{IsMemo, NotesMore, AreNulled};
ghost use Rattle.earley_sets.specs.Kept.{AreItems, HasRows};
ghost use Rattle.item_rows.specs.Heads.{AreHeads};
ghost use Rattle.begun_lists.specs.Closing.{GoesOn, IsReached};
ghost use Rattle.earley_sets.specs.Scanning.{IsScanned, IsScannedBy, IsSeed, IsKernel, GoForward, AreReduced};
ghost use Rattle.begun_lists.specs.Tried.{RisesWithin};
ghost use Rattle.earley_sets.specs.Tried.{AwaitsEdge, MakesScan, MakesOne, MakesKernel};
ghost use Rattle.earley_sets.specs.Hiding.{OneStepsTwice};

use crate::follow::{list_completed, list_next};
use begun_lists::{add_items, refill};
use grammar_core::{Flat, SymbolId, TokenEdges};
use grammar_model::Edge as HeldEdge;
use item_rows::{Heads, Rows, symbol_of};
use item_sets::ItemSet;
use leo_items::Memo;
use recognizer_model::Item;
use slif_base::Steps;
use std::alloc::{AllocError, AllocFailed, Global};
use std::sync::ledger::Ledger;

fn either(a: bool, b: bool) -> bool
    ensures { IsTrue result ↔ (IsTrue a ⊎ IsTrue b) }
{
    a || b
}

// Adds whatever goes on from the items of the set. Whether two single steps lead on from one of them.
fn close<L: Ledger>(
    flat: &Flat,
    rows: &Rows<'_>,
    memo: &mut Memo,
    earleme: u32,
    set: &mut ItemSet,
    next: &mut Vec<Item>,
    steps: &mut Steps<L>,
) -> Result<bool, AllocError>
    requires items { AreItems flat.now set.old }
    requires rows { HasRows flat.now rows.now }
    requires nulled { AreNulled flat.now rows.now.sets }
    requires memo { IsMemo flat.now rows.now.sets memo.old }
    requires earleme { earleme ≤ length rows.now.sets }
    ensures items { OnOk result (AreItems flat.now set.new) }
    ensures memo { NotesMore flat.now rows.now.sets memo.old memo.new }
    ensures closed { OnOk result ((item : Item) → Contains set.new item ↔
        IsReached (GoesOn flat.now rows.now.sets earleme) set.old item) }
    ensures counted { OnOk result (RisesWithin (MakesOne flat.now rows.now.sets earleme set.new)
        (steps.old + length memo.new) (steps.new + length memo.old)) }
    ensures twice { IfOk result (λ twice.
        IsTrue twice ↔ OneStepsTwice flat.now rows.now.sets earleme set.new) }
{
    let mut twice = false;
    for k in 0..usize::MAX {
        let Some(item) = set.get(k) else {
            return Ok(twice);
        };
        next.clear();
        let goes = list_next(flat, rows, memo, earleme, item, next, steps)?;
        add_items(set, next, steps)?;
        twice = either(twice, goes);
    }
    let _len = set.len();
    unreachable!()
}

// Lists the items that an edge of a terminal advances.
fn list_by_edge(
    flat: &Flat,
    heads: &Heads,
    rows: &Rows<'_>,
    edge: HeldEdge,
    next: &mut Vec<Item>,
) -> Result<(), AllocFailed<Item>>
    requires heads { AreHeads flat.now heads.now }
    requires rows { HasRows flat.now rows.now }
    requires from { edge.from < length rows.now.sets }
    ensures listed { OnOk result ((other : Item) → Contains next.new.items other ↔
        (Contains next.old.items other ⊎ IsScannedBy flat.now rows.now.sets edge other)) }
    ensures links { OnOk result (RisesWithin (AwaitsEdge flat.now rows.now.sets edge)
        (length next.old.items) (length next.new.items)) }
{
    flat.known();
    match symbol_of(flat, heads, SymbolId(edge.symbol)) {
        Some(symbol) => list_completed(flat, rows, edge.from, symbol, next),
        None => Ok(()),
    }
}

// Lists the items that the edges to a place advance.
fn list_scanned(
    flat: &Flat,
    heads: &Heads,
    rows: &Rows<'_>,
    edges: &TokenEdges,
    earleme: u32,
    ending: &mut Vec<HeldEdge>,
    next: &mut Vec<Item>,
) -> Result<(), AllocError>
    requires heads { AreHeads flat.now heads.now }
    requires rows { HasRows flat.now rows.now }
    requires begun { (e : HeldEdge) → Contains edges.now e → e.from < length rows.now.sets }
    ensures listed { OnOk result ((other : Item) → Contains next.new.items other ↔
        (Contains next.old.items other ⊎ IsScanned flat.now rows.now.sets earleme edges.now
        other)) }
    ensures links { OnOk result (RisesWithin (MakesScan flat.now rows.now.sets earleme edges.now)
        (length next.old.items) (length next.new.items)) }
{
    edges.list_to(earleme, ending)?;
    for edge in &*ending {
        list_by_edge(flat, heads, rows, *edge, next)?;
    }
    Ok(())
}

// Lists the item that the first place begins with.
fn list_first(top: u32, earleme: u32, next: &mut Vec<Item>) -> Result<(), AllocFailed<Item>>
    ensures listed { OnOk result ((item : Item) →
        Contains next.new.items item ↔ ((earleme ≡ 0) × (item ≡ first_item top 0))) }
    ensures none { OnOk result (0 < earleme → length next.new.items ≡ 0) }
{
    next.clear();
    if earleme == 0 {
        next.push(Item {
            rule: top,
            dot: 0,
            origin: 0,
        })?;
    }
    Ok(())
}

// Lists what the set of a place begins with.
fn list_seeds(
    flat: &Flat,
    heads: &Heads,
    top: u32,
    rows: &Rows<'_>,
    edges: &TokenEdges,
    earleme: u32,
    ending: &mut Vec<HeldEdge>,
    next: &mut Vec<Item>,
) -> Result<(), AllocError>
    requires heads { AreHeads flat.now heads.now }
    requires rows { HasRows flat.now rows.now }
    requires begun { (e : HeldEdge) → Contains edges.now e → e.from < length rows.now.sets }
    ensures listed { OnOk result ((item : Item) →
        Contains next.new.items item ↔ IsSeed flat.now rows.now.sets top earleme edges.now item) }
    ensures links { OnOk result (0 < earleme →
        RisesWithin (MakesScan flat.now rows.now.sets earleme edges.now) 0 (length next.new.items)) }
{
    list_first(top, earleme, next)?;
    list_scanned(flat, heads, rows, edges, earleme, ending, next)
}

/// What is used while a set is made.
pub struct Work {
    pub set: ItemSet,
    pub next: Vec<Item>,
    pub ending: Vec<HeldEdge>,
}

impl Drop for Work {
    fn drop(self) {
        let Work {
            set: _,
            next: _,
            ending: _,
        } = self;
    }
}

impl Work {
    /// Nothing done yet.
    pub(crate) fn new(alloc: Global) -> Work {
        Work {
            set: ItemSet::new(alloc),
            next: Vec::new(alloc),
            ending: Vec::new(alloc),
        }
    }
}

/// Makes the kernel of the set of a place, and tells whether two single steps lead on from an item of it. Nothing is known of the set after an error.
pub fn make_kernel<L: Ledger>(
    flat: &Flat,
    heads: &Heads,
    top: u32,
    rows: &Rows<'_>,
    memo: &mut Memo,
    edges: &TokenEdges,
    earleme: u32,
    work: &mut Work,
    steps: &mut Steps<L>,
) -> Result<bool, AllocError>
    requires heads { AreHeads flat.now heads.now }
    requires top { IsTop flat.now top }
    requires sets { AreReduced flat.now edges.now top rows.now.sets earleme }
    requires rows { HasRows flat.now rows.now }
    requires memo { IsMemo flat.now rows.now.sets memo.old }
    requires earleme { earleme ≡ length rows.now.sets }
    requires begun { (e : HeldEdge) → Contains edges.now e → e.from < length rows.now.sets }
    requires forward { GoForward edges.now }
    ensures items { OnOk result (AreItems flat.now work.new.set) }
    ensures memo { NotesMore flat.now rows.now.sets memo.old memo.new }
    ensures kernel { OnOk result (IsKernel flat.now rows.now.sets top earleme edges.now
        work.new.set) }
    ensures counted { OnOk result (0 < earleme →
        RisesWithin (MakesKernel flat.now rows.now.sets earleme edges.now work.new.set)
        (steps.old + length memo.new) (steps.new + length memo.old)) }
    ensures twice { IfOk result (λ twice.
        IsTrue twice ↔ OneStepsTwice flat.now rows.now.sets earleme work.new.set) }
{
    list_seeds(
        flat,
        heads,
        top,
        rows,
        edges,
        earleme,
        &mut work.ending,
        &mut work.next,
    )?;
    refill(&mut work.set, &work.next, steps)?;
    close(
        flat,
        rows,
        memo,
        earleme,
        &mut work.set,
        &mut work.next,
        steps,
    )
}
