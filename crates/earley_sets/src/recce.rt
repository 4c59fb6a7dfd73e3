//! The recognizer: its edges, and the sets of the places so far.
ghost use Rattle.std.specs.Prelude.{◌≡◌, ◌≢◌, ℕ, List, ◌+◌, ◌-◌, ◌<◌, ◌≤◌, ◌↔◌, ◌⊎◌, ◌++◌, ◌∷◌, [], length, map, sum, slice_get, slice_index, Some, Err, IsTrue, IfOk, IfSome, IsNone, OnOk, OnErr, Contains};
ghost use Rattle.std.specs.List.{AllPairs};
ghost use Rattle.recognizer_model.specs.declared.Item.{Item};
ghost use Rattle.recognizer_model.specs.declared.flat.FlatSymbol.TheVariants.{Terminal};
ghost use Rattle.grammar_model.specs.declared.Edge.{Edge as HeldEdge};
ghost use Rattle.grammar_model.specs.declared.limits.TheConstants.{LAST_PLACE, LONGEST_EDGE};
ghost use Rattle.recognizer_model.specs.Flat.{IsRule};
ghost use Rattle.recognizer_model.specs.Contexts.{IsTop};
ghost use Rattle.recognizer_model.specs.Counts.{IsListOf};
ghost use Rattle.recognizer_model.specs.Items.{InSet, IsWhole, after};
ghost use Rattle.recognizer_model.specs.Leo.{InReduced, IsHidden};
ghost use Rattle.recognizer_model.specs.Links.{Link, IsLink};
ghost use Rattle.leo_items.specs.ByRows.{IsMemo, NotesMore};
ghost use Rattle.leo_items.specs.Hidden.{SomeStepsTwiceIn};
ghost use Rattle.earley_sets.specs.Kept.{HasRows};
ghost use Rattle.item_rows.specs.Heads.{AreHeads};
ghost use Rattle.begun_lists.specs.Met.{AreFound};
ghost use Rattle.earley_sets.specs.Scanning.{GoForward, AreReduced, AddsRow};
ghost use Rattle.earley_sets.specs.Tried.{RisesWithinLinks};
ghost use Rattle.earley_sets.specs.Below.{StepsTo, SomeStepsTwice, LeadsUp, IsBottom, IsBottomOf, StandsBelowOf};
ghost use Rattle.earley_sets.specs.Recognizer.{Recognizer, earleme_of, set_at, edges_of, top_of, made, new_edge, IsExpected, WaitsAt, HasTree, IsRecognizer};
ghost use Rattle.earley_sets.specs.Unbound.{IsUnboundOf, recognizer_with};
ghost use Rattle.earley_sets.specs.declared.recce.AlternativeRefusal.TheVariants.{Unexpected, Duplicate, BadLength};

use crate::close::{Work, make_kernel};
use crate::noted::{leads_twice, make_room, note_at, note_place};
use begun_lists::{Lists, find_list, new_lists};
use expected_terminals::{
    Expected, copy_of, expect_row, forget, has_terminal, list_number, new_expected, place_alike,
    terminals,
};
use grammar_core::{EdgeRefusal, Flat, SymbolId, TokenEdges};
use item_rows::{Heads, Row, Rows, UnboundRows, list_heads, symbol_of};
use leo_items::{Memo, list_below, list_hidden, top_above};
use recognizer_model::Item;
use slif_base::Steps;
use std::alloc::{AllocError, Global};
use std::marker::{Brand, Model};
use std::sync::ledger::{Blank, Ledger};
use thiserror::Error;

// Makes the set of the place after the last row, as a row. Whether two single steps lead on from a whole item of it.
fn make_row<L: Ledger>(
    flat: &Flat,
    heads: &Heads,
    top: u32,
    rows: &mut Rows<'_>,
    lists: &mut Lists,
    memo: &mut Memo,
    edges: &TokenEdges,
    work: &mut Work,
    steps: &mut Steps<L>,
) -> Result<bool, AllocError>
    requires heads { AreHeads flat.now heads.now }
    requires top { IsTop flat.now top }
    requires sets { AreReduced flat.now edges.now top rows.old.sets (length rows.old.sets) }
    requires rows { HasRows flat.now rows.old }
    requires lists { AreFound flat.now rows.old.shared lists.old }
    requires memo { IsMemo flat.now rows.old.sets memo.old }
    requires earleme { length rows.old.sets ≤ LAST_PLACE }
    requires begun { (e : HeldEdge) → Contains edges.now e → e.from < length rows.old.sets }
    requires forward { GoForward edges.now }
    ensures lists { AreFound flat.now rows.new.shared lists.new }
    ensures flat { rows.new.flat ≡ flat.now }
    ensures ok { OnOk result (AddsRow flat.now edges.now top rows.old.sets rows.new.sets) }
    ensures memo { NotesMore flat.now rows.old.sets memo.old memo.new }
    ensures err { OnErr result (rows.new.sets ≡ rows.old.sets) }
    ensures counted { OnOk result (0 < length rows.old.sets →
        RisesWithinLinks flat.now edges.now top (length rows.old.sets)
        (steps.old + length memo.new) (steps.new + length memo.old)) }
    ensures twice { IfOk result (λ twice.
        IsTrue twice ↔ SomeStepsTwiceIn flat.now rows.new.sets (length rows.old.sets) 0) }
{
    let earleme = rows.len() as u32;
    let twice = make_kernel(flat, heads, top, rows, memo, edges, earleme, work, steps)?;
    let kernel = work.set.as_slice();
    let begun = find_list(flat, heads, rows, lists, kernel, steps)?;
    rows.push(kernel, begun)?;
    Ok(twice)
}

// The same. After an error the notes are as before.
fn add_row<L: Ledger>(
    flat: &Flat,
    heads: &Heads,
    top: u32,
    rows: &mut Rows<'_>,
    lists: &mut Lists,
    memo: &mut Memo,
    edges: &TokenEdges,
    work: &mut Work,
    steps: &mut Steps<L>,
) -> Result<bool, AllocError>
    requires heads { AreHeads flat.now heads.now }
    requires top { IsTop flat.now top }
    requires sets { AreReduced flat.now edges.now top rows.old.sets (length rows.old.sets) }
    requires rows { HasRows flat.now rows.old }
    requires lists { AreFound flat.now rows.old.shared lists.old }
    requires memo { IsMemo flat.now rows.old.sets memo.old }
    requires earleme { length rows.old.sets ≤ LAST_PLACE }
    requires begun { (e : HeldEdge) → Contains edges.now e → e.from < length rows.old.sets }
    requires forward { GoForward edges.now }
    ensures lists { AreFound flat.now rows.new.shared lists.new }
    ensures flat { rows.new.flat ≡ flat.now }
    ensures ok { OnOk result (AddsRow flat.now edges.now top rows.old.sets rows.new.sets) }
    ensures memo { IsMemo flat.now rows.old.sets memo.new }
    ensures err { OnErr result ((rows.new.sets ≡ rows.old.sets) × (memo.new ≡ memo.old)) }
    ensures counted { OnOk result (0 < length rows.old.sets →
        RisesWithinLinks flat.now edges.now top (length rows.old.sets)
        (steps.old + length memo.new) (steps.new + length memo.old)) }
    ensures twice { IfOk result (λ twice.
        IsTrue twice ↔ SomeStepsTwiceIn flat.now rows.new.sets (length rows.old.sets) 0) }
{
    let noted = memo.len();
    match make_row(flat, heads, top, rows, lists, memo, edges, work, steps) {
        Ok(twice) => Ok(twice),
        Err(error) => {
            memo.keep_first(noted);
            Err(error)
        }
    }
}

// Makes the set of the first place, on a counter of its own.
fn add_first<L: Ledger>(
    blank: Blank,
    flat: &Flat,
    heads: &Heads,
    top: u32,
    rows: &mut Rows<'_>,
    lists: &mut Lists,
    memo: &mut Memo,
    edges: &TokenEdges,
    work: &mut Work,
) -> Result<(), AllocError>
    requires name { blank.name ≡ L.name }
    requires parts { blank.parts ≡ L.parts }
    requires some { 0 < blank.parts }
    requires heads { AreHeads flat.now heads.now }
    requires top { IsTop flat.now top }
    requires rows { rows.old.sets ≡ [] }
    requires flat { rows.old.flat ≡ flat.now }
    requires lists { AreFound flat.now rows.old.shared lists.old }
    requires memo { memo.old ≡ [] }
    requires edges { edges.now ≡ [] }
    ensures lists { AreFound flat.now rows.new.shared lists.new }
    ensures flat { rows.new.flat ≡ flat.now }
    ensures ok { OnOk result (AddsRow flat.now edges.now top [] rows.new.sets) }
    ensures memo { memo.new ≡ [] }
{
    let mut steps = Steps::<L>::of_blank(blank);
    add_row(flat, heads, top, rows, lists, memo, edges, work, &mut steps)?;
    Ok(())
}

// The row of the first place.
fn first_rows<'g>(
    alloc: Global,
    flat: &'g Flat,
    heads: &Heads,
    top: u32,
    lists: &mut Lists,
) -> Result<Rows<'g>, AllocError>
    requires heads { AreHeads flat.now heads.now }
    requires top { IsTop flat.now top }
    requires lists { (lists.old.numbers.entries ≡ []) × (lists.old.met.lists ≡ []) × (lists.old.met.numbers.items ≡ []) }
    ensures lists { IfOk result (λ rows. AreFound flat.now rows.shared lists.new) }
    ensures flat { IfOk result (λ rows. rows.flat ≡ flat.now) }
    ensures ok { IfOk result (λ rows. AddsRow flat.now [] top [] rows.sets) }
{
    let mut rows = Rows::new(alloc, flat)?;
    let mut memo = Memo::new(alloc);
    let edges = TokenEdges::new(alloc);
    let mut work = Work::new(alloc);
    let added = add_first::<Brand>(
        Blank::new(1),
        flat,
        heads,
        top,
        &mut rows,
        lists,
        &mut memo,
        &edges,
        &mut work,
    );
    drop(memo);
    drop(edges);
    drop(work);
    added?;
    Ok(rows)
}

/// Why an alternative is not taken. Of several reasons the first in this order is told, but want of memory may come at any point.
#[derive(Clone, Copy, Debug, PartialEq, Eq, Error)]
pub enum AlternativeRefusal {
    /// The terminal is not acceptable here.
    #[error("the terminal is not expected")]
    Unexpected,
    /// The edge is held.
    #[error("the edge is held")]
    Duplicate,
    /// The length is 0, or greater than an edge may have.
    #[error("the length is 0 or too great")]
    BadLength,
    /// Memory ran out.
    #[error("out of memory")]
    NoMemory,
}

/// A recognizer for one start of a flat grammar.
pub struct Recce<'g> {
    flat: &'g Flat,
    heads: Heads,
    start: usize,
    top: u32,
    edges: TokenEdges,
    rows: Rows<'g>,
    lists: Lists,
    memo: Memo,
    expected: Expected,
    hiding: Vec<bool>,
    work: Work,
}

// Written out once, so that whoever lets a recognizer go does so by one call.
impl<'g> Drop for Recce<'g> {
    fn drop(self) {
        let Recce {
            flat: _,
            heads: _,
            start: _,
            top: _,
            edges: _,
            rows: _,
            lists: _,
            memo: _,
            expected: _,
            hiding: _,
            work: _,
        } = self;
    }
}

impl<'g> Model for Recce<'g> {
    ghost use Rattle.std.specs.Prelude.{◌≡◌};
    ghost use Rattle.leo_items.specs.Memo.{pairs_of};
    ghost use Rattle.earley_sets.specs.Recognizer.{Recognizer, IsKept};
    ghost use Rattle.item_rows.specs.Heads.{AreHeads};
    ghost use Rattle.begun_lists.specs.Met.{AreFound};
    ghost use Rattle.expected_terminals.specs.Expected.{KnowsLast};
    ghost use Rattle.earley_sets.specs.Hiding.{NotesTwice};

    ghost Value = { Recognizer };

    ghost view = { λ r. record {
      flat = r.flat.now;
      start = r.start;
      edges = r.edges;
      sets = r.rows.sets;
      noted = pairs_of r.memo;
    } };

    ghost invariant = { λ r. IsKept (record {
      flat = r.flat.now;
      start = r.start;
      edges = r.edges;
      sets = r.rows.sets;
      noted = pairs_of r.memo;
    }) r.top r.memo × AreHeads r.flat.now r.heads ×
        (r.rows.flat ≡ r.flat.now) × AreFound r.flat.now r.rows.shared r.lists ×
        KnowsLast r.flat.now r.rows.sets r.expected × NotesTwice r.flat.now r.rows.sets r.hiding.items };
}

/// A number for what the last set waits for, and a place whose set waits for the same terminals. The number is a hint: it is that of the
/// list of terminals, small and one for each list that is noted, or 4,294,967,295 where none is; a caller may index a table by it. No clause
/// speaks of it.
#[derive(Clone, Copy)]
pub struct Alike {
    pub list: u32,
    pub place: u32,
}

/// Items of a set: those that begin at an earlier place, and then the others; each part by the symbol after the dot, whole items last, then by rule, dot and origin.
#[derive(Drop)]
pub struct SetView<'r> {
    row: Row<'r>,
}

impl<'r> Model for SetView<'r> {
    ghost use Rattle.std.specs.Prelude.{List};
    ghost use Rattle.recognizer_model.specs.declared.Item.{Item};

    ghost Value = { List Item };

    ghost view = { λ s. s.row };
}

impl<'r> SetView<'r> {
    /// How many items there are.
    pub fn len(&self) -> usize
        ensures { result ≡ length self.now }
    {
        self.row.len()
    }

    /// An item, by its number.
    pub fn at(&self, k: usize) -> Item
        requires { k < length self.now }
        ensures { slice_get self.now k ≡ Some result }
    {
        self.row.at(k)
    }
}

// Counts items.
fn count<L: Ledger>(items: &[Item], steps: &mut Steps<L>)
    ensures { steps.new ≡ steps.old + length items.now }
{
    for _ in items {
        steps.tick();
    }
}

impl<'g> Recce<'g> {
    /// A recognizer at place 0, for a start by its place among the starts.
    pub fn new(alloc: Global, flat: &'g Flat, start: usize) -> Result<Recce<'g>, AllocError>
        requires { start < length flat.now.tops }
        ensures { IfOk result (λ r. (r.flat ≡ flat.now) × (r.start ≡ start) × (r.edges ≡ []) ×
            (length r.sets ≡ 1) × (r.noted ≡ [])) }
    {
        let top = flat.top(start);
        let mut expected = new_expected(alloc, flat)?;
        let heads = list_heads(alloc, flat)?;
        let mut lists = new_lists(alloc);
        let rows = first_rows(alloc, flat, &heads, top, &mut lists)?;
        expect_row(flat, &rows, 0, &mut expected);
        let edges = TokenEdges::new(alloc);
        let memo = Memo::new(alloc);
        let mut hiding = Vec::new(alloc);
        hiding.push(false)?;
        Ok(Recce {
            flat,
            heads,
            start,
            top,
            edges,
            rows,
            lists,
            memo,
            expected,
            hiding,
            work: Work::new(alloc),
        })
    }

    /// The last place of which the set is made.
    pub fn place(&self) -> u32
        ensures place { result ≡ earleme_of self.now }
        ensures is { IsRecognizer self.now }
    {
        (self.rows.len() - 1) as u32
    }

    /// The flat grammar that is read by.
    pub fn flat(&self) -> &'g Flat
        ensures { result.now ≡ self.now.flat }
    {
        self.flat
    }

    /// The start's place among the starts.
    pub fn start(&self) -> usize
        ensures { result ≡ self.now.start }
    {
        self.start
    }

    /// The edges that were taken.
    pub fn edges(&self) -> &TokenEdges
        ensures { result.now ≡ self.now.edges }
    {
        &self.edges
    }

    /// Makes the set of the next place. After an error the recognizer is as before. Each step is a try of another link, or notes a Leo pair.
    pub fn complete_earleme<L: Ledger>(&mut self, steps: &mut Steps<L>) -> Result<(), AllocError>
        requires { earleme_of self.old < LAST_PLACE }
        ensures same { (self.new.flat ≡ self.old.flat) × (self.new.start ≡ self.old.start) ×
            (self.new.edges ≡ self.old.edges) }
        ensures ok { OnOk result ((set : List Item) × (self.new.sets ≡ self.old.sets ++ set ∷ []) ×
            IsListOf (InReduced self.old.flat (edges_of self.old) (top_of self.old)
            (length self.old.sets)) set) }
        ensures err { OnErr result (self.new ≡ self.old) }
        ensures counted { OnOk result ((tried : List Link) × AllPairs (λ a b. a ≢ b) tried ×
            ((l : Link) → Contains tried l → IsLink self.old.flat (edges_of self.old)
            (top_of self.old) (length self.old.sets) l) ×
            (steps.new + made self.old ≡ steps.old + length tried + made self.new)) }
    {
        let place = self.rows.len();
        make_room(&mut self.hiding, place)?;
        let twice = add_row(
            self.flat,
            &self.heads,
            self.top,
            &mut self.rows,
            &mut self.lists,
            &mut self.memo,
            &self.edges,
            &mut self.work,
            steps,
        )?;
        note_place(&mut self.hiding, place, twice);
        let last = self.rows.len() - 1;
        expect_row(self.flat, &self.rows, last, &mut self.expected);
        Ok(())
    }

    /// The symbol that stands for a terminal, if there is one.
    pub fn symbol_of(&self, t: SymbolId) -> Option<u32>
        ensures some { IfSome result (λ x. slice_get self.now.flat.symbols x ≡ Some (Terminal t)) }
        ensures none { IsNone result → (x : ℕ) →
            slice_get self.now.flat.symbols x ≢ Some (Terminal t) }
    {
        symbol_of(self.flat, &self.heads, t)
    }

    /// Whether a terminal is acceptable at the place.
    pub fn is_expected(&self, t: SymbolId) -> bool
        ensures { IsTrue result ↔ IsExpected self.now t }
    {
        has_terminal(terminals(&self.expected), t)
    }

    /// The terminals that are acceptable at the place, each once.
    pub fn expected_terminals(&self) -> &[SymbolId]
        ensures once { AllPairs (λ s t. s ≢ t) result.now }
        ensures exact { (t : ℕ) → Contains result.now t ↔ IsExpected self.now t }
    {
        terminals(&self.expected)
    }

    /// The terminals that are acceptable at the place, in the order of their numbers.
    pub fn expected(&self, alloc: Global) -> Result<Vec<SymbolId>, AllocError>
        ensures order { IfOk result (λ ts. AllPairs (λ s t. s < t) ts.items) }
        ensures exact { IfOk result (λ ts. (t : ℕ) → Contains ts.items t ↔ IsExpected self.now t) }
    {
        copy_of(alloc, terminals(&self.expected))
    }

    /// The first place so far, as far as it is noted, whose set waits for the same terminals as the last one.
    pub fn alike(&self) -> Alike
        ensures place { result.place ≤ earleme_of self.now }
        ensures alike { (t : ℕ) → WaitsAt self.now result.place t ↔ IsExpected self.now t }
    {
        let last = self.rows.len() - 1;
        let place = place_alike(&self.expected, last as u32);
        let list = list_number(&self.expected);
        Alike { list, place }
    }

    /// Whether a tree of the start spans the edges up to the place.
    pub fn at_end(&self) -> bool
        ensures { IsTrue result ↔ HasTree self.now }
    {
        let last = self.rows.len() - 1;
        let whole = Item {
            rule: self.top,
            dot: 1,
            origin: 0,
        };
        self.rows.contains(last, whole)
    }

    /// The set of a place, as far as it is kept.
    pub fn kept(&self, j: u32) -> SetView<'_>
        requires { j ≤ earleme_of self.now }
        ensures { result ≡ set_at self.now j }
    {
        SetView {
            row: self.rows.row(j as usize),
        }
    }

    /// Whether an item is kept in the set of a place.
    pub fn has(&self, j: u32, item: Item) -> bool
        requires { j ≤ earleme_of self.now }
        ensures { IsTrue result ↔ Contains (set_at self.now j) item }
    {
        self.rows.contains(j as usize, item)
    }

    /// The items of a set that wait for a symbol.
    pub fn waiting(&self, j: u32, symbol: u32) -> SetView<'_>
        requires { j ≤ earleme_of self.now }
        ensures { IsListOf (λ item. Contains (set_at self.now j) item ×
            (after self.now.flat item ≡ Some symbol)) result }
    {
        SetView {
            row: self.rows.waiting(j as usize, symbol),
        }
    }

    /// The whole items of a set, as far as they are kept.
    pub fn whole(&self, j: u32) -> SetView<'_>
        requires { j ≤ earleme_of self.now }
        ensures { IsListOf (λ item. Contains (set_at self.now j) item × IsWhole self.now.flat item)
            result }
    {
        SetView {
            row: self.rows.whole(j as usize),
        }
    }

    /// How many items are kept.
    pub fn item_count(&self) -> u64
        ensures { result ≡ sum (map length self.now.sets) }
    {
        self.rows.item_count() as u64
    }

    /// The hidden items of a set that begin at a place or after it.
    pub fn expand<L: Ledger>(
        &self,
        alloc: Global,
        j: u32,
        from: u32,
        steps: &mut Steps<L>,
    ) -> Result<Vec<Item>, AllocError>
        requires { j ≤ earleme_of self.now }
        ensures hidden { IfOk result (λ items. IsListOf
            (λ item. IsHidden self.now.flat (edges_of self.now) (top_of self.now) j item ×
            (from ≤ item.origin))
            items.items) }
        ensures full { IfOk result (λ items. (item : Item) → IsWhole self.now.flat item →
            from ≤ item.origin →
            (Contains (set_at self.now j) item ⊎ Contains items.items item) ↔
            InSet self.now.flat (edges_of self.now) (top_of self.now) j item) }
        ensures counted { IfOk result (λ items. steps.new ≡ steps.old + length items.items) }
        ensures err { OnErr result (steps.new ≡ steps.old) }
    {
        if !leads_twice(self.flat, &self.rows, &self.hiding, j, from) {
            return Ok(Vec::new(alloc));
        }
        let hidden = list_hidden(alloc, self.flat, &self.rows, j, from)?;
        count(&hidden, steps);
        Ok(hidden)
    }

    /// Whether two single steps lead on from a whole item that is kept in a set: where none do, it hides nothing. It is noted while the set is made.
    pub fn hides(&self, j: u32) -> bool
        requires { j ≤ earleme_of self.now }
        ensures { IsTrue result ↔ SomeStepsTwice self.now j 0 }
    {
        note_at(&self.hiding, j)
    }

    /// Whether a set may have hidden items that begin at a place or after it: whether two single steps lead on from a whole item that is
    /// kept, the first to such an item.
    pub fn may_hide(&self, j: u32, from: u32) -> bool
        requires { j ≤ earleme_of self.now }
        ensures exact { IsTrue result ↔ SomeStepsTwice self.now j from }
        ensures none { (¬ IsTrue result) → (item : Item) → from ≤ item.origin →
            ¬ IsHidden self.now.flat (edges_of self.now) (top_of self.now) j item }
    {
        leads_twice(self.flat, &self.rows, &self.hiding, j, from)
    }

    /// The item of a set to which completions of a whole one lead in the end, if one step alone leads on from it.
    pub fn topmost(&self, j: u32, item: Item) -> Option<Item>
        requires place { j ≤ earleme_of self.now }
        requires rule { IsRule self.now.flat item.rule }
        ensures some { IfSome result (λ top. LeadsUp self.now j item top) }
        ensures none { IsNone result → (other : Item) → ¬ StepsTo self.now j item other }
    {
        top_above(self.flat, &self.rows, &self.memo, j, item)
    }

    /// The hidden items of a set from which completions lead to one of some items in the end. `bottoms` are the kept ones from which they do.
    /// Each item that is given counts as a step.
    pub fn below<L: Ledger>(
        &self,
        alloc: Global,
        j: u32,
        tops: &[Item],
        bottoms: &[Item],
        steps: &mut Steps<L>,
    ) -> Result<Vec<Item>, AllocError>
        requires place { j ≤ earleme_of self.now }
        requires bottoms { (item : Item) →
            Contains bottoms.now item ↔ IsBottomOf self.now j tops.now item }
        requires tops { (top : Item) → Contains tops.now top →
            (item : Item) × IsBottom self.now j top item }
        ensures below { IfOk result (λ items. IsListOf (StandsBelowOf self.now j tops.now)
            items.items) }
        ensures counted { IfOk result (λ items. steps.new ≡ steps.old + length items.items) }
        ensures err { OnErr result (steps.new ≡ steps.old) }
    {
        let below = list_below(alloc, self.flat, &self.rows, j, tops, bottoms)?;
        count(&below, steps);
        Ok(below)
    }

    /// Goes back to place 0, with no edges.
    pub fn restart(&mut self)
        ensures same { (self.new.flat ≡ self.old.flat) × (self.new.start ≡ self.old.start) }
        ensures edges { self.new.edges ≡ [] }
        ensures sets { self.new.sets ≡ set_at self.old 0 ∷ [] }
        ensures noted { self.new.noted ≡ [] }
    {
        self.rows.keep_first();
        self.memo.clear();
        self.edges.clear();
        self.hiding.truncate(1);
        forget(&mut self.expected);
        expect_row(self.flat, &self.rows, 0, &mut self.expected);
    }

    /// Takes a terminal that begins at the place and is so many places long.
    pub fn alternative(&mut self, t: SymbolId, length: u32) -> Result<(), AlternativeRefusal>
        requires { earleme_of self.old < LAST_PLACE }
        ensures same { (self.new.flat ≡ self.old.flat) × (self.new.start ≡ self.old.start) ×
            (self.new.sets ≡ self.old.sets) × (self.new.noted ≡ self.old.noted) }
        ensures ok { OnOk result (self.new.edges ≡
            self.old.edges ++ new_edge self.old t length ∷ []) }
        ensures err { OnErr result (self.new ≡ self.old) }
        ensures unexpected { (result ≡ Err Unexpected) ↔ (¬ IsExpected self.old t) }
        ensures duplicate { (result ≡ Err Duplicate) ↔
            (IsExpected self.old t × Contains self.old.edges (new_edge self.old t length)) }
        ensures bad_length { (result ≡ Err BadLength) ↔
            (IsExpected self.old t × (¬ Contains self.old.edges (new_edge self.old t length)) ×
            ((length ≡ 0) ⊎ (LONGEST_EDGE < length))) }
    {
        let earleme = self.place();
        if !self.is_expected(t) {
            return Err(AlternativeRefusal::Unexpected);
        }
        match self.edges.push(earleme, t, length) {
            Ok(()) => Ok(()),
            Err(EdgeRefusal::Duplicate) => Err(AlternativeRefusal::Duplicate),
            Err(EdgeRefusal::BadLength) => Err(AlternativeRefusal::BadLength),
            Err(EdgeRefusal::NoMemory) => Err(AlternativeRefusal::NoMemory),
        }
    }

    /// The same without the flat grammar, so that it lends nothing from it.
    pub fn unbind(self) -> UnboundRecce
        ensures of { IsUnboundOf self.entry.flat result }
        ensures is { recognizer_with self.entry.flat result ≡ self.entry }
    {
        let Recce {
            flat: _,
            heads,
            start,
            top,
            edges,
            rows,
            lists,
            memo,
            expected,
            hiding,
            work,
        } = self;
        UnboundRecce {
            heads,
            start,
            top,
            edges,
            rows: rows.unbind(),
            lists,
            memo,
            expected,
            hiding,
            work,
        }
    }
}

/// A recognizer without the flat grammar that it reads by.
pub struct UnboundRecce {
    heads: Heads,
    start: usize,
    top: u32,
    edges: TokenEdges,
    rows: UnboundRows,
    lists: Lists,
    memo: Memo,
    expected: Expected,
    hiding: Vec<bool>,
    work: Work,
}

// Written out, so that whoever lets it go does so by one call.
impl Drop for UnboundRecce {
    fn drop(self) {
        let UnboundRecce {
            heads: _,
            start: _,
            top: _,
            edges: _,
            rows: _,
            lists: _,
            memo: _,
            expected: _,
            hiding: _,
            work: _,
        } = self;
    }
}

impl UnboundRecce {
    /// The same with its flat grammar.
    pub fn bind<'g>(self, flat: &'g Flat) -> Recce<'g>
        requires { IsUnboundOf flat.now self }
        ensures { result ≡ recognizer_with flat.now self }
    {
        let UnboundRecce {
            heads,
            start,
            top,
            edges,
            rows,
            lists,
            memo,
            expected,
            hiding,
            work,
        } = self;
        Recce {
            flat,
            heads,
            start,
            top,
            edges,
            rows: rows.bind(flat),
            lists,
            memo,
            expected,
            hiding,
            work,
        }
    }
}
