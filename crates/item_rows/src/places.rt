//! Where the items that wait for each symbol stand in rows of one kind, noted once for all of them.
ghost use Rattle.std.specs.Prelude.{◌≡◌, ℕ, ◌<◌, ◌≤◌, ◌^◌, length, IfOk};
ghost use Rattle.item_rows.specs.Held.{shared_by, AreHeld};
ghost use Rattle.item_rows.specs.Noted.{StandsAt, AreBlocks, ArePlacesNoted};
ghost use Rattle.kernels.specs.Shapes.{kernel_at};
ghost use Rattle.kernels.specs.Slots.{Rises, dotted_of};

use crate::dotted::{DottedRules, Span};
use crate::packed::{count_below, first_of};
use kernels::Kernels;
use shared_lists::{Noted, Places, SharedLists, count};
use std::alloc::{AllocError, Global};

// Where those of a span stand, of slotted items and of numbers of dotted rules.
fn places_of(slotted: &[u64], list: &[u32], span: Span) -> Places
    requires slotted { Rises slotted.now }
    requires list { Rises list.now }
    requires order { span.start ≤ span.end }
    requires few_slotted { length slotted.now < 2 ^ 32 }
    requires few_listed { length list.now < 2 ^ 32 }
    ensures own { StandsAt (dotted_of slotted.now) span result.own_start result.own_end }
    ensures others { StandsAt list.now span result.begun_start result.begun_end }
{
    Places {
        own_start: count_below(slotted, first_of(span.start)) as u32,
        own_end: count_below(slotted, first_of(span.end)) as u32,
        begun_start: count(list, span.start) as u32,
        begun_end: count(list, span.end) as u32,
    }
}

// Lists the places for all symbols.
fn list_places(
    alloc: Global,
    dotted: &DottedRules<'_>,
    slotted: &[u64],
    list: &[u32],
) -> Result<Vec<Places>, AllocError>
    requires slotted { Rises slotted.now }
    requires list { Rises list.now }
    ensures { IfOk result (λ block. AreBlocks dotted.now.flat dotted.now.rules
        (dotted_of slotted.now) list.now block.items) }
{
    if slotted.len() >= 4_294_967_296 || list.len() >= 4_294_967_296 {
        return Err(AllocError);
    }
    let mut block = Vec::new(alloc);
    for symbol in 0..dotted.symbol_count() {
        block.push(places_of(slotted, list, dotted.span(symbol as u32)))?;
    }
    Ok(block)
}

// Counts a row of its kind, and notes the kind if it is time and there is memory.
fn note(
    alloc: Global,
    noted: &mut Noted,
    dotted: &DottedRules<'_>,
    kernels: &Kernels,
    lists: &SharedLists,
    j: usize,
)
    requires there { j < length kernels.now }
    requires list { (kernel_at kernels.now j).begun < length lists.now }
    requires rises { Rises (shared_by lists.now (kernel_at kernels.now j)) }
    requires noted { ArePlacesNoted dotted.now.flat dotted.now.rules lists.now kernels.now
        noted.old.blocks.items }
    ensures { ArePlacesNoted dotted.now.flat dotted.now.rules lists.now kernels.now
        noted.new.blocks.items }
{
    let kind = kernels.kind(j);
    if !noted.is_due(kind, dotted.symbol_count()) {
        return;
    }
    let kernel = kernels.kernel(j);
    let list = lists.list(kernel.begun as usize);
    if let Ok(block) = list_places(alloc, dotted, kernel.slotted, list) {
        let _put = noted.put(kind, block);
    }
}

/// Counts each row where an item of the last row's own begins: that row was asked for what waits in it. Notes their kinds likewise.
pub fn note_asked(
    alloc: Global,
    noted: &mut Noted,
    dotted: &DottedRules<'_>,
    kernels: &Kernels,
    lists: &SharedLists,
    last: usize,
)
    requires last { last < length kernels.now }
    requires held { (count : ℕ) × AreHeld dotted.now.rules lists.now kernels.now count }
    requires noted { ArePlacesNoted dotted.now.flat dotted.now.rules lists.now kernels.now
        noted.old.blocks.items }
    ensures { ArePlacesNoted dotted.now.flat dotted.now.rules lists.now kernels.now
        noted.new.blocks.items }
{
    for origin in kernels.kernel(last).origins {
        let origin = *origin as usize;
        if origin < kernels.len() {
            note(alloc, noted, dotted, kernels, lists, origin);
        }
    }
}
