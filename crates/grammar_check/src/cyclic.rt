//! The least cycle of a grammar, as its slots.
ghost use Rattle.std.specs.Prelude.{true, false, ◌≡◌, ◌+◌, ◌<◌, ◌^◌, length, map, slice_index, All, IfOk, IfSome, IsNone};
ghost use Rattle.grammar_model.specs.Cycles.{IsLeastCycle, HasHeights};
ghost use Rattle.jagged.specs.Rows.{row_at};
ghost use Rattle.slot_analysis.specs.Slots.{IsNumbering};
ghost use Rattle.slot_analysis.specs.Clauses.{IsAnalysis};
ghost use Rattle.slot_analysis.specs.Steps.{IsReach};
ghost use Rattle.grammar_check.specs.Message.{AreOf};
ghost use Rattle.grammar_check.specs.Told.{slots_with, IsPlaced, unpacked_pair};

use crate::cycles::least_cycle;
use crate::links::{floors_of, links_of};
use crate::table::slots_at;
use grammar_core::SymbolId;
use jagged::Jagged;
use slot_analysis::{Analysis, Packed, Slots};
use std::alloc::{AllocError, Global};

// The least cycle of a packed grammar, if there is one.
fn cycle_of(
    alloc: Global,
    w: &Packed<'_>,
    slots: &Slots<'_>,
) -> Result<Option<Vec<(SymbolId, u32)>>, AllocError>
    requires numbering { IsNumbering w.now slots.now.bases.now }
    requires nullable { IsAnalysis true w.now slots.now.bases.now slots.now.nullable.now }
    requires productive { IsAnalysis false w.now slots.now.bases.now slots.now.productive.now }
    requires reach { IsReach w.now slots.now.bases.now slots.now.reach.now }
    requires small { slice_index slots.now.bases.now (length w.now.names) +
        slice_index slots.now.bases.now (length w.now.names) <
        2 ^ 32 }
    ensures some { IfOk result (λ r. IfSome r (λ cycle. IsLeastCycle w.now (slots_with
        cycle.items))) }
    ensures known { IfOk result (λ r. IfSome r (λ cycle. AreOf w.now cycle.items)) }
    ensures none { IfOk result (λ r. IsNone r → HasHeights w.now) }
{
    w.known();
    let rows = links_of(alloc, w, slots)?;
    let floors = floors_of(alloc, w, slots.bases)?;
    let Some(path) = least_cycle(alloc, &rows, &floors)? else {
        return Ok(None);
    };
    let cycle = slots_at(alloc, w, slots.bases, &path)?;
    Ok(Some(cycle))
}

// The level of a place.
fn level_at(rows: &Jagged<u32>, symbol: SymbolId, place: u32) -> u32
    requires { place < length (row_at rows.now symbol) }
    ensures { result ≡ slice_index (row_at rows.now symbol) place }
{
    rows.row(symbol.0 as usize)[place as usize]
}

// The slots whose levels have these places.
fn unpacked(
    alloc: Global,
    rows: &Jagged<u32>,
    cycle: &[(SymbolId, u32)],
) -> Result<Vec<(SymbolId, u32)>, AllocError>
    requires { All (IsPlaced rows.now) cycle.now }
    ensures { IfOk result (λ slots. slots.items ≡ map (unpacked_pair rows.now) cycle.now) }
{
    let mut slots = Vec::new(alloc);
    for slot in cycle {
        let (symbol, place) = *slot;
        slots.push((symbol, level_at(rows, symbol, place)))?;
    }
    Ok(slots)
}

/// The least cycle, if there is one.
pub fn least_cycle_of(
    alloc: Global,
    analysis: &Analysis<'_>,
) -> Result<Option<Vec<(SymbolId, u32)>>, AllocError>
    ensures some { IfOk result (λ r. IfSome r (λ cycle. IsLeastCycle analysis.now (slots_with
        cycle.items))) }
    ensures known { IfOk result (λ r. IfSome r (λ cycle. AreOf analysis.now cycle.items)) }
    ensures none { IfOk result (λ r. IsNone r → HasHeights analysis.now) }
{
    let slots = analysis.slots();
    let written = analysis.written();
    written.known();
    let packed = Packed {
        written,
        levels: slots.levels,
    };
    let Some(cycle) = cycle_of(alloc, &packed, &slots)? else {
        return Ok(None);
    };
    let cycle = unpacked(alloc, slots.levels, &cycle)?;
    Ok(Some(cycle))
}
