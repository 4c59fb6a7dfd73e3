// A page: the lines of the derivations after a place, and a last line that tells where to go on.
ghost use Rattle.std.specs.Prelude.{◌≡◌, ◌≤◌, ◌+◌, ◌*◌, ◌++◌, ◌↔◌, ◌∷◌, [], List, Some, MatchOption, IfErr, IfOk, IfSome, IsTrue, OnOk, codes, length, take};
ghost use Rattle.std.specs.List.{concat, sum_by};
ghost use Rattle.std.specs.Io.KnownBytes.{Appends};
ghost use Rattle.grammar_model.specs.Trees.{Tree};
ghost use Rattle.grammar_model.specs.declared.Show.{Show};
ghost use Rattle.cursor_model.specs.Rest.{place_after, IsPlaceOf};
ghost use Rattle.recognizer_model.specs.Links.{choices};
ghost use Rattle.reading_model.specs.Reading.{Piece};
ghost use Rattle.forest_model.specs.Listing.{IsListing};
ghost use Rattle.run_model.specs.Listing.{first_of, beyond};
ghost use Rattle.run_model.specs.More.{last_line, last_steps, page_lines};
ghost use Rattle.run_model.specs.Outside.{stream};
ghost use Rattle.valuator.specs.Told.{states};
ghost use Rattle.tree_iter.specs.Iteration.{AreGiven};
ghost use Rattle.value_lines.specs.Lines.{score_of, IsForestOf};
ghost use Rattle.value_lines.specs.Paging.{at_place, count_at, steps_at, IsPlaceTold, LacksPlace, PageHas, PageStops};
ghost use Rattle.value_lines.specs.Writing.{AreBothTellers, AreEnough, IsWholeLine, RestHas, StandsAt, TextStops};

use crate::WriteRefusal;
use crate::writing::{keep_teller, player_of, write_line, write_lines};
use bocage::Forest;
use grammar_core::{Span, TreeStep};
use scanless::Prepared;
use slif_base::{Chars, Sink, Steps};
use std::alloc::{AllocError as NoMemory, Global};
use std::sync::ledger::Ledger;
use thiserror::Error;
use tree_cursor::write_cursor;
use tree_iter::TreeIter;
use valuator::{Player, Show, Teller};

/// Why a page was not all written.
#[derive(Clone, Copy, Debug, PartialEq, Eq, Error)]
pub enum PageRefusal {
    /// The text names no derivation of the forest. Nothing was written.
    #[error("no such place")]
    NoSuchPlace,
    #[error("a write failed")]
    WriteFault,
    #[error("no memory")]
    NoMemory,
}

impl From<NoMemory> for PageRefusal {
    ghost use Rattle.value_lines.specs.declared.page.PageRefusal.TheVariants.{NoMemory};

    ghost from_gives = { λ _ refusal. refusal ≡ NoMemory };

    fn from(_error: NoMemory) -> Self {
        PageRefusal::NoMemory
    }
}

impl From<WriteRefusal> for PageRefusal {
    ghost use Rattle.value_lines.specs.Paging.{page_refusal};

    ghost from_gives = { λ refusal page. page ≡ page_refusal refusal };

    fn from(refusal: WriteRefusal) -> Self {
        match refusal {
            WriteRefusal::WriteFault => PageRefusal::WriteFault,
            WriteRefusal::NoMemory => PageRefusal::NoMemory,
        }
    }
}

/// What a page shows, and where it begins.
#[derive(Clone, Copy)]
pub struct Page<'p> {
    pub show: Show,
    /// At most so many lines; None is all that are left.
    pub first: Option<u32>,
    /// The text of the place that the page comes after.
    pub after: &'p str,
    /// The steps of the derivation that the text spells; None for the place before the first.
    pub to: Option<&'p [TreeStep]>,
}

/// Writes the lines of the derivations after a place, or of so many of them, in the declared order and each as one piece, and then a last
/// line: `end`, or `cursor: ` and the text of the place after those written. `spans` are those of the reading's tokens in `chars`. What
/// lies before the place is not listed. More than 2^64 - 1 derivations count as too many for memory.
pub fn write_page<O: Sink, L: Ledger>(
    alloc: Global,
    prepared: &Prepared,
    chars: &Chars,
    spans: &[Span],
    forest: &Forest<'_>,
    page: Page<'_>,
    mut tellers: Vec<Box<dyn Teller>>,
    out: &mut O,
    steps: &mut Steps<L>,
) -> Result<(), PageRefusal>
    requires forest { (pieces : List Piece) × IsForestOf prepared.now chars.now spans.now forest.now pieces }
    requires place { IsPlaceTold page.after.now (steps_at page.to) }
    requires tellers { AreBothTellers (states tellers.items shows held) }
    ensures written { OnOk result (PageHas prepared.now page.entry.show page.entry.first page.entry.after.now chars.now spans.now forest.now
        (λ text. Appends (O.contents out.old) (O.contents out.new) text)) }
    ensures stops { IfErr result (PageStops prepared.now page.entry.show page.entry.first page.entry.after.now chars.now spans.now forest.now
        (stream O.contents O.fault_count out.old) (stream O.contents O.fault_count out.new)) }
    ensures counted { OnOk result ((trees given rest : List Tree) → IsListing forest.now trees → IsPlaceOf page.entry.after.now trees given rest →
        steps.new ≤ steps.old + 7 * last_steps given + sum_by choices (first_of page.entry.first rest ++ take 1 (beyond page.entry.first rest))) }
    ensures later { O.fault_count out.old ≤ O.fault_count out.new }
{
    forest.known();
    prepared.known();
    keep_teller(page.show, &mut tellers);
    let Some(mut iter) = iter_at(alloc, forest, page.to, steps)? else {
        return Err(PageRefusal::NoSuchPlace);
    };
    let mut player = player_of(alloc, prepared, chars, spans)?;
    let mut line = Vec::new(alloc);
    write_from(
        prepared,
        page.first,
        page.after,
        &mut player,
        &mut iter,
        &mut tellers,
        &mut line,
        out,
        steps,
    )?;
    Ok(())
}

// An iterator at the derivation that has these steps, or before the first; None where no derivation has them.
fn iter_at<'f, L: Ledger>(
    alloc: Global,
    forest: &'f Forest<'f>,
    to: Option<&[TreeStep]>,
    steps: &mut Steps<L>,
) -> Result<Option<TreeIter<'f>>, NoMemory>
    ensures at { IfOk result (λ found. MatchOption found (LacksPlace forest.now (steps_at to.entry))
        (λ iter. iter ≡ at_place forest.now (steps_at to.entry))) }
    ensures given { IfOk result (λ found. IfSome found (λ iter. (before : List Tree) × AreGiven iter before)) }
    ensures few { steps.new ≤ steps.old + 7 * count_at (steps_at to.entry) }
{
    let mut iter = TreeIter::new(alloc, forest)?;
    let Some(list) = to else {
        return Ok(Some(iter));
    };
    if !iter.jump(list, steps)? {
        return Ok(None);
    }
    Ok(Some(iter))
}

// Writes a page from where the iterator stands.
fn write_from<O: Sink, L: Ledger>(
    prepared: &Prepared,
    first: Option<u32>,
    after: &str,
    player: &mut Player<'_>,
    iter: &mut TreeIter<'_>,
    tellers: &mut Vec<Box<dyn Teller>>,
    line: &mut Vec<u8>,
    out: &mut O,
    steps: &mut Steps<L>,
) -> Result<(), WriteRefusal>
    requires player { player.old ≡ score_of prepared.now player.old.chars player.old.spans }
    requires forest { (pieces : List Piece) × IsForestOf prepared.now player.old.chars player.old.spans iter.old.forest pieces }
    requires begun { (before : List Tree) × AreGiven iter.old before }
    requires tellers { (show : Show) × (states tellers.old.items shows held ≡ (show, []) ∷ []) }
    ensures written { OnOk result ((show : Show) (pieces : List Piece) (before : List Tree) → states tellers.old.items shows held ≡ (show, []) ∷ [] →
        IsForestOf prepared.now player.old.chars player.old.spans iter.old.forest pieces → AreGiven iter.old before → RestHas iter.old.forest before
        (λ rest. Appends (O.contents out.old) (O.contents out.new) (concat (page_lines prepared.now show first after.now player.old.chars pieces rest)) ×
        (steps.new ≤ steps.old + sum_by choices (first_of first rest ++ take 1 (beyond first rest))))) }
    ensures stops { IfErr result (λ refusal. (show : Show) (pieces : List Piece) (before : List Tree) → states tellers.old.items shows held ≡ (show, []) ∷ [] →
        IsForestOf prepared.now player.old.chars player.old.spans iter.old.forest pieces → AreGiven iter.old before → RestHas iter.old.forest before
        (λ rest. TextStops (stream O.contents O.fault_count out.old) (stream O.contents O.fault_count out.new) refusal
        (concat (page_lines prepared.now show first after.now player.old.chars pieces rest)))) }
    ensures later { O.fault_count out.old ≤ O.fault_count out.new }
{
    if write_lines(prepared, first, player, iter, tellers, line, out, steps)? {
        write_last(first, after, iter, line, out, steps)
    } else {
        put_line(out, b"end\n")
    }
}

// Writes where to go on, or that nothing is left.
fn write_last<O: Sink, L: Ledger>(
    first: Option<u32>,
    after: &str,
    iter: &mut TreeIter<'_>,
    line: &mut Vec<u8>,
    out: &mut O,
    steps: &mut Steps<L>,
) -> Result<(), WriteRefusal>
    requires { (before : List Tree) × (given : List Tree) × AreEnough before first iter.old given }
    ensures written { OnOk result ((before given : List Tree) → AreEnough before first iter.old given → RestHas iter.old.forest (before ++ given)
        (λ left. Appends (O.contents out.old) (O.contents out.new) (last_line after.now given left) × (steps.new ≤ steps.old + sum_by choices (take 1 left)))) }
    ensures stops { IfErr result (λ refusal. (before given : List Tree) → AreEnough before first iter.old given → RestHas iter.old.forest (before ++ given)
        (λ left. TextStops (stream O.contents O.fault_count out.old) (stream O.contents O.fault_count out.new) refusal (last_line after.now given left))) }
    ensures later { O.fault_count out.old ≤ O.fault_count out.new }
{
    let Ok(()) = put_cursor(first, after, iter, line) else {
        return Err(WriteRefusal::NoMemory);
    };
    let Ok(more) = iter.next(steps) else {
        return Err(WriteRefusal::NoMemory);
    };
    if more {
        put_line(out, line)
    } else {
        put_line(out, b"end\n")
    }
}

// Puts the line that tells where to go on in place of what `line` held: after the last derivation given, or, where none was, after the
// place that the page comes after. The next derivation is not looked for before, since it would take the place of the last one.
fn put_cursor(
    first: Option<u32>,
    after: &str,
    iter: &TreeIter<'_>,
    line: &mut Vec<u8>,
) -> Result<(), NoMemory>
    requires { (given : List Tree) × (first ≡ Some (length given)) × StandsAt iter.now given }
    ensures { OnOk result ((given : List Tree) → first ≡ Some (length given) → StandsAt iter.now given →
        line.new.items ≡ codes "cursor: " ++ (place_after after.now given ++ 10 ∷ [])) }
{
    line.clear();
    line.extend_from_slice(b"cursor: ")?;
    append_place(first, after, iter, line)?;
    line.push(b'\n')?;
    Ok(())
}

// Appends the text of the place after those given, of which there were as many as were asked for.
fn append_place(
    first: Option<u32>,
    after: &str,
    iter: &TreeIter<'_>,
    line: &mut Vec<u8>,
) -> Result<(), NoMemory>
    requires { (given : List Tree) × (first ≡ Some (length given)) × StandsAt iter.now given }
    ensures { OnOk result ((given : List Tree) → first ≡ Some (length given) → StandsAt iter.now given →
        line.new.items ≡ line.old.items ++ place_after after.now given) }
{
    if is_none_asked(first) {
        line.extend_from_slice(after.as_bytes())?;
        return Ok(());
    }
    write_cursor(iter.current_steps(), line)
}

// Whether no derivation is asked for.
fn is_none_asked(first: Option<u32>) -> bool
    ensures { IsTrue result ↔ (first ≡ Some 0) }
{
    first == Some(0)
}

// Hands a line to the sink as one piece.
fn put_line<O: Sink>(out: &mut O, line: &[u8]) -> Result<(), WriteRefusal>
    requires { IsWholeLine line.now }
    ensures written { OnOk result (Appends (O.contents out.old) (O.contents out.new) line.now) }
    ensures stops { IfErr result (λ refusal. TextStops (stream O.contents O.fault_count out.old) (stream O.contents O.fault_count out.new) refusal line.now) }
    ensures later { O.fault_count out.old ≤ O.fault_count out.new }
{
    let Ok(()) = write_line(out, line) else {
        return Err(WriteRefusal::WriteFault);
    };
    Ok(())
}
