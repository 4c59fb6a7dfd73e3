//! What may be the cause in a node that ends at a place: the edges and the whole rules that end there.
ghost use Rattle.std.specs.Prelude.{◌≡◌, ◌<◌, ◌≤◌, ◌+◌, ◌^◌, ◌↔◌, ◌⊎◌, IfOk, OnOk, OnErr, Contains};
ghost use Rattle.std.specs.List.Sorted.{IsStrictlySortedBy};
ghost use Rattle.grammar_model.specs.declared.Edge.{Edge as TheEdge};
ghost use Rattle.recognizer_model.specs.declared.Item.{Item as TheItem};
ghost use Rattle.recognizer_model.specs.Leo.{IsHidden};
ghost use Rattle.recognizer_model.specs.FlatForm.{IsFlatOf};
ghost use Rattle.earley_sets.specs.Kept.{IsItem, AreItems};
ghost use Rattle.earley_sets.specs.Recognizer.{IsRecognizer, earleme_of, set_at, edges_of, top_of};
ghost use Rattle.forest_parts.specs.Hidden.{IsHiddenFrom, AreHidden, RisesBy, RisesWithin};
ghost use Rattle.forest_parts.specs.declared.parts.Part.{Part as ThePart};
ghost use Rattle.forest_parts.specs.Parts.{part_cmp, IsEdgeOf, IsWholeOf, IsPartBy};

use crate::parts::{Part, rule_key};
use earley_sets::Recce;
use grammar_core::{SymbolId, Written};
use grammar_model::{Edge, Ranking};
use recognizer_model::Item;
use slif_base::Steps;
use std::alloc::{AllocError, Global};
use std::sync::ledger::Ledger;

// A count raised. One that 64 bits do not hold counts as too many for memory.
fn raised(count: u64, more: u64) -> Result<u64, AllocError>
    ensures ok { IfOk result (λ sum. sum ≡ count + more) }
    ensures err { OnErr result (2 ^ 64 ≤ count + more) }
{
    match count.checked_add(more) {
        Some(sum) => Ok(sum),
        None => Err(AllocError),
    }
}

/// Lists the hidden items of a place that begin at another or after it, and adds how many they are.
pub fn list_hidden<L: Ledger>(
    alloc: Global,
    recce: &Recce<'_>,
    end: u32,
    least: u32,
    expanded: &mut u64,
    steps: &mut Steps<L>,
) -> Result<Vec<Item>, AllocError>
    requires { end ≤ earleme_of recce.now }
    ensures hidden { IfOk result (λ items. AreHidden recce.now end least items.items) }
    ensures expanded { OnOk result (RisesBy (IsHiddenFrom recce.now end least) expanded.old expanded.new) }
    ensures counted { RisesWithin (IsHiddenFrom recce.now end least) steps.old steps.new }
{
    let hidden = recce.expand(alloc, end, least, steps)?;
    *expanded = raised(*expanded, hidden.as_slice().len() as u64)?;
    Ok(hidden)
}

// Puts an edge of a terminal, if it does not begin too early.
fn put_edge(
    recce: &Recce<'_>,
    least: u32,
    edge: Edge,
    parts: &mut Vec<Part>,
) -> Result<(), AllocError>
    requires { edge.from < edge.to }
    ensures { OnOk result ((p : ThePart) → Contains parts.new.items p ↔
        (Contains parts.old.items p ⊎ ((least ≤ edge.from) × IsEdgeOf recce.now.flat edge p))) }
{
    recce.flat().known();
    if least <= edge.from {
        if let Some(symbol) = recce.symbol_of(SymbolId(edge.symbol)) {
            parts.push(Part {
                end: edge.to,
                symbol,
                length: edge.to - edge.from,
                whole: None,
            })?;
        }
    }
    Ok(())
}

fn put_edges(
    recce: &Recce<'_>,
    least: u32,
    edges: &[Edge],
    parts: &mut Vec<Part>,
) -> Result<(), AllocError>
    requires { (e : TheEdge) → Contains edges.now e → e.from < e.to }
    ensures { OnOk result ((p : ThePart) → Contains parts.new.items p ↔
        (Contains parts.old.items p ⊎ ((e : TheEdge) × Contains edges.now e × ((least ≤ e.from) × IsEdgeOf recce.now.flat e p)))) }
{
    for edge in edges {
        put_edge(recce, least, *edge, parts)?;
    }
    Ok(())
}

// Puts the rule of an item, if it is whole, spans something and does not begin too early.
fn put_whole(
    recce: &Recce<'_>,
    w: &Written,
    ranking: Ranking,
    end: u32,
    least: u32,
    item: Item,
    parts: &mut Vec<Part>,
) -> Result<(), AllocError>
    requires flat { IsFlatOf recce.now.flat w.now }
    requires item { IsItem recce.now.flat item }
    ensures { OnOk result ((p : ThePart) → Contains parts.new.items p ↔
        (Contains parts.old.items p ⊎ ((least ≤ item.origin) × IsWholeOf w.now ranking recce.now.flat end item p))) }
{
    let flat = recce.flat();
    let whole = item.dot as usize == flat.rhs(item.rule).len();
    if whole && least <= item.origin && item.origin < end {
        parts.push(Part {
            end,
            symbol: flat.lhs(item.rule),
            length: end - item.origin,
            whole: Some(rule_key(flat, w, ranking, item.rule)),
        })?;
    }
    Ok(())
}

// Puts the whole rules of a set.
fn put_kept(
    recce: &Recce<'_>,
    w: &Written,
    ranking: Ranking,
    end: u32,
    least: u32,
    parts: &mut Vec<Part>,
) -> Result<(), AllocError>
    requires is { IsRecognizer recce.now }
    requires flat { IsFlatOf recce.now.flat w.now }
    requires end { end ≤ earleme_of recce.now }
    ensures { OnOk result ((p : ThePart) → Contains parts.new.items p ↔
        (Contains parts.old.items p ⊎ ((item : TheItem) × Contains (set_at recce.now end) item ×
        ((least ≤ item.origin) × IsWholeOf w.now ranking recce.now.flat end item p)))) }
{
    let set = recce.whole(end);
    for k in 0..set.len() {
        put_whole(recce, w, ranking, end, least, set.at(k), parts)?;
    }
    Ok(())
}

// Puts the whole rules of items.
fn put_given(
    recce: &Recce<'_>,
    w: &Written,
    ranking: Ranking,
    end: u32,
    least: u32,
    given: &[Item],
    parts: &mut Vec<Part>,
) -> Result<(), AllocError>
    requires flat { IsFlatOf recce.now.flat w.now }
    requires items { AreItems recce.now.flat given.now }
    ensures { OnOk result ((p : ThePart) → Contains parts.new.items p ↔
        (Contains parts.old.items p ⊎ ((item : TheItem) × Contains given.now item ×
        ((least ≤ item.origin) × IsWholeOf w.now ranking recce.now.flat end item p)))) }
{
    for item in given {
        put_whole(recce, w, ranking, end, least, *item, parts)?;
    }
    Ok(())
}

// Puts the whole rules that end at a place, those of some hidden items too.
fn put_wholes(
    recce: &Recce<'_>,
    w: &Written,
    ranking: Ranking,
    end: u32,
    least: u32,
    hidden: &[Item],
    parts: &mut Vec<Part>,
) -> Result<(), AllocError>
    requires is { IsRecognizer recce.now }
    requires flat { IsFlatOf recce.now.flat w.now }
    requires end { end ≤ earleme_of recce.now }
    requires hidden { (item : TheItem) → Contains hidden.now item → IsHidden recce.now.flat (edges_of recce.now) (top_of recce.now) end item }
    ensures { OnOk result ((p : ThePart) → Contains parts.new.items p ↔
        (Contains parts.old.items p ⊎ ((item : TheItem) ×
        (Contains (set_at recce.now end) item ⊎ Contains hidden.now item) ×
        ((least ≤ item.origin) × IsWholeOf w.now ranking recce.now.flat end item p)))) }
{
    put_kept(recce, w, ranking, end, least, parts)?;
    put_given(recce, w, ranking, end, least, hidden, parts)
}

fn sort(parts: &mut Vec<Part>)
    ensures sorted { IsStrictlySortedBy part_cmp parts.new.items }
    ensures same { (p : ThePart) → Contains parts.new.items p ↔ Contains parts.old.items p }
{
    parts.sort_unstable();
    parts.dedup();
}

/// Lists the edges and whole rules that end at a place and begin at another or after it, in order: those of the items that are kept, and of
/// the hidden ones that are given.
pub fn list_parts(
    recce: &Recce<'_>,
    w: &Written,
    ranking: Ranking,
    end: u32,
    least: u32,
    hidden: &[Item],
    edges: &mut Vec<Edge>,
    parts: &mut Vec<Part>,
) -> Result<(), AllocError>
    requires is { IsRecognizer recce.now }
    requires flat { IsFlatOf recce.now.flat w.now }
    requires end { end ≤ earleme_of recce.now }
    requires hidden { (item : TheItem) → Contains hidden.now item → IsHidden recce.now.flat (edges_of recce.now) (top_of recce.now) end item }
    ensures sorted { OnOk result (IsStrictlySortedBy part_cmp parts.new.items) }
    ensures exact { OnOk result ((p : ThePart) → Contains parts.new.items p ↔ IsPartBy w.now ranking recce.now end least hidden.now p) }
{
    parts.clear();
    recce.edges().list_to(end, edges)?;
    put_edges(recce, least, edges, parts)?;
    put_wholes(recce, w, ranking, end, least, hidden, parts)?;
    sort(parts);
    Ok(())
}
