//! Where completions lead in the end, over the rows of the places so far.
ghost use Rattle.std.specs.Prelude.{◌≡◌, ℕ, ◌<◌, ◌+◌, ◌++◌, ◌∷◌, ◌⊎◌, [], length, Some, None, IfOk, OnOk, OnErr};
ghost use Rattle.recognizer_model.specs.declared.Item.{Item as TheItem};
ghost use Rattle.recognizer_model.specs.Flat.{IsRule};
ghost use Rattle.item_rows.specs.Kept.{HasRows};
ghost use Rattle.leo_items.specs.Memo.{noted};
ghost use Rattle.leo_items.specs.ByRows.{IsStepIn, LeadsIn, IsMemo, NotesMore, AreNulled, pair_of};
ghost use Rattle.leo_items.specs.Ways.{IsWay};

use crate::leo_of;
use crate::memo::Memo;
use grammar_core::Flat;
use item_rows::Rows;
use recognizer_model::{Item, Pair};
use slif_base::Steps;
use std::alloc::AllocError;
use std::sync::ledger::Ledger;

/// The step of a set and a symbol.
pub fn step_in(flat: &Flat, rows: &Rows<'_>, pair: Pair) -> Option<Item>
    requires rows { HasRows flat.now rows.now }
    requires set { pair.set < length rows.now.sets }
    ensures { IsStepIn flat.now rows.now.sets pair.set pair.symbol result }
{
    let waiting = rows.waiting(pair.set as usize, pair.symbol);
    leo_of(flat, &waiting)
}

/// The set and the symbol that a completed item leads over.
pub fn pair_above(flat: &Flat, item: Item) -> Pair
    requires { IsRule flat.now item.rule }
    ensures { result ≡ pair_of flat.now item }
{
    Pair {
        set: item.origin,
        symbol: flat.lhs(item.rule),
    }
}

// A way is noted from so many steps on: one step is found as fast as a note.
const LONG: usize = 2;

/// Where a way ends, and how many steps were walked of it after the first.
#[derive(Clone, Copy)]
pub struct Way {
    pub top: Item,
    pub walked: usize,
}

/// Goes on from a step to the topmost item, or to one that is noted.
pub fn find(flat: &Flat, rows: &Rows<'_>, memo: &Memo, pair: Pair, step: Item) -> Way
    requires rows { HasRows flat.now rows.now }
    requires nulled { AreNulled flat.now rows.now.sets }
    requires memo { IsMemo flat.now rows.now.sets memo.now }
    requires set { pair.set < length rows.now.sets }
    requires step { IsStepIn flat.now rows.now.sets pair.set pair.symbol (Some step) }
    ensures leads { LeadsIn flat.now rows.now.sets pair.set pair.symbol result.top }
    ensures way { IsWay flat.now rows.now.sets memo.now result.walked step result.top }
{
    flat.known();
    let mut top = step;
    for walked in 0..usize::MAX {
        let above = pair_above(flat, top);
        if let Some(found) = memo.get(above) {
            return Way { top: found, walked };
        }
        match step_in(flat, rows, above) {
            Some(next) => top = next,
            None => return Way { top, walked },
        }
    }
    unreachable!()
}

// Makes a Leo item, and counts it.
fn make_leo<L: Ledger>(
    memo: &mut Memo,
    pair: Pair,
    top: Item,
    steps: &mut Steps<L>,
) -> Result<(), AllocError>
    requires { noted memo.old pair ≡ None }
    ensures ok { OnOk result ((memo.new ≡ memo.old ++ (pair, top) ∷ []) ×
        (steps.new ≡ steps.old + 1)) }
    ensures err { OnErr result ((memo.new ≡ memo.old) × (steps.new ≡ steps.old)) }
{
    memo.put(pair, top)?;
    steps.tick();
    Ok(())
}

// Notes the topmost item for a pair, and for those that it leads over.
fn note<L: Ledger>(
    flat: &Flat,
    rows: &Rows<'_>,
    memo: &mut Memo,
    pair: Pair,
    top: Item,
    steps: &mut Steps<L>,
) -> Result<(), AllocError>
    requires rows { HasRows flat.now rows.now }
    requires nulled { AreNulled flat.now rows.now.sets }
    requires memo { IsMemo flat.now rows.now.sets memo.old }
    requires set { pair.set < length rows.now.sets }
    requires leads { LeadsIn flat.now rows.now.sets pair.set pair.symbol top }
    ensures memo { NotesMore flat.now rows.now.sets memo.old memo.new }
    ensures noted { OnOk result (noted memo.new pair ≡ Some top) }
    ensures counted { steps.new + length memo.old ≡ steps.old + length memo.new }
{
    flat.known();
    let mut pair = pair;
    for _ in 0..usize::MAX {
        if memo.get(pair).is_some() {
            return Ok(());
        }
        let Some(step) = step_in(flat, rows, pair) else {
            return Ok(());
        };
        make_leo(memo, pair, top, steps)?;
        pair = pair_above(flat, step);
    }
    unreachable!()
}

// Notes where a way ends, if it is long.
fn note_long<L: Ledger>(
    flat: &Flat,
    rows: &Rows<'_>,
    memo: &mut Memo,
    pair: Pair,
    way: Way,
    steps: &mut Steps<L>,
) -> Result<(), AllocError>
    requires rows { HasRows flat.now rows.now }
    requires nulled { AreNulled flat.now rows.now.sets }
    requires memo { IsMemo flat.now rows.now.sets memo.old }
    requires set { pair.set < length rows.now.sets }
    requires leads { LeadsIn flat.now rows.now.sets pair.set pair.symbol way.top }
    ensures memo { NotesMore flat.now rows.now.sets memo.old memo.new }
    ensures noted { OnOk result ((noted memo.new pair ≡ Some way.top) ⊎ (way.walked < LONG)) }
    ensures counted { steps.new + length memo.old ≡ steps.old + length memo.new }
{
    if way.walked < LONG {
        return Ok(());
    }
    note(flat, rows, memo, pair, way.top, steps)
}

/// The topmost item of a pair with this step.
pub fn topmost<L: Ledger>(
    flat: &Flat,
    rows: &Rows<'_>,
    memo: &mut Memo,
    pair: Pair,
    step: Item,
    steps: &mut Steps<L>,
) -> Result<Item, AllocError>
    requires rows { HasRows flat.now rows.now }
    requires nulled { AreNulled flat.now rows.now.sets }
    requires memo { IsMemo flat.now rows.now.sets memo.old }
    requires set { pair.set < length rows.now.sets }
    requires step { IsStepIn flat.now rows.now.sets pair.set pair.symbol (Some step) }
    ensures leads { IfOk result (λ top. LeadsIn flat.now rows.now.sets pair.set pair.symbol top) }
    ensures memo { NotesMore flat.now rows.now.sets memo.old memo.new }
    ensures noted { IfOk result (λ top. (noted memo.new pair ≡ Some top) ⊎
        ((walked : ℕ) × (walked < LONG) ×
        IsWay flat.now rows.now.sets memo.old walked step top)) }
    ensures counted { steps.new + length memo.old ≡ steps.old + length memo.new }
{
    if let Some(top) = memo.get(pair) {
        return Ok(top);
    }
    let way = find(flat, rows, memo, pair, step);
    note_long(flat, rows, memo, pair, way, steps)?;
    Ok(way.top)
}
