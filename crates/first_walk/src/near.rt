//! The topmost items of a place that its first node asks for, where a look at what waits for them tells that all are asked for.
ghost use Rattle.std.specs.Prelude.{◌≡◌, ℕ, [], ◌∷◌, ◌<◌, ◌≤◌, ◌↔◌, ◌⊎◌, OnOk, IsTrue, Contains};
ghost use Rattle.grammar_model.specs.Grammar.{Grammar as TheGrammar};
ghost use Rattle.recognizer_model.specs.declared.Item.{Item as TheItem};
ghost use Rattle.recognizer_model.specs.Below.{node_of};
ghost use Rattle.recognizer_model.specs.Flat.{IsRule};
ghost use Rattle.recognizer_model.specs.Items.{advanced, IsWhole};
ghost use Rattle.earley_sets.specs.Below.{LeadsUp, StepsTo};
ghost use Rattle.earley_sets.specs.Recognizer.{Recognizer as TheRecognizer, IsRecognizer, earleme_of};
ghost use Rattle.forest_parts.specs.Needed.{AreTops, LeadsOver};
ghost use Rattle.forest_parts.specs.Unasked.{IsAskedFor, IsAwaiting, IsOutranked};

use earley_sets::Recce;
use grammar_model::Ranking;
use recognizer_model::{Item, NodeKey};
use std::alloc::AllocError;

// Puts a whole item, and the topmost one that it leads up to, if that begins at `least` or after it.
fn put_top(
    recce: &Recce<'_>,
    end: u32,
    least: u32,
    item: Item,
    tops: &mut Vec<Item>,
    bottoms: &mut Vec<Item>,
) -> Result<(), AllocError>
    requires is { IsRecognizer recce.now }
    requires end { end ≤ earleme_of recce.now }
    requires rule { IsRule recce.now.flat item.rule }
    ensures tops { OnOk result ((x : TheItem) → Contains tops.new.items x ↔
        (Contains tops.old.items x ⊎ LeadsOver recce.now [] end least item x)) }
    ensures bottoms { OnOk result ((x : TheItem) → Contains bottoms.new.items x ↔
        (Contains bottoms.old.items x ⊎ ((x ≡ item) ×
        ((top : TheItem) × LeadsOver recce.now [] end least item top)))) }
{
    if let Some(top) = recce.topmost(end, item) {
        if least <= top.origin {
            tops.push(top)?;
            bottoms.push(item)?;
        }
    }
    Ok(())
}

/// Lists the kept items that lead up to topmost ones which begin at `least` or after it, and these.
pub fn list_tops(
    recce: &Recce<'_>,
    end: u32,
    least: u32,
    tops: &mut Vec<Item>,
    bottoms: &mut Vec<Item>,
) -> Result<(), AllocError>
    requires is { IsRecognizer recce.now }
    requires end { end ≤ earleme_of recce.now }
    ensures { OnOk result (AreTops recce.now [] end least tops.new.items bottoms.new.items) }
{
    tops.clear();
    bottoms.clear();
    let set = recce.whole(end);
    for k in 0..set.len() {
        put_top(recce, end, least, set.at(k), tops, bottoms)?;
    }
    Ok(())
}

// Whether a node is that of an item.
fn is_node_of(first: NodeKey, item: Item) -> bool
    ensures { IsTrue result → (first ≡ node_of item first.end) }
{
    first.origin == item.origin && first.rule == item.rule && first.dot == item.dot
}

// Whether a node is that of an item with one part more.
fn is_next_of(first: NodeKey, item: Item) -> bool
    ensures { IsTrue result → (first ≡ node_of (advanced item) first.end) }
{
    first.origin == item.origin
        && first.rule == item.rule
        && first.dot > 0
        && first.dot - 1 == item.dot
}

// Whether a node is that of an item that waits for a whole one where it begins, with that part.
fn is_waited_for(recce: &Recce<'_>, first: NodeKey, item: Item) -> bool
    requires rule { IsRule recce.now.flat item.rule }
    requires origin { item.origin ≤ earleme_of recce.now }
    ensures { IsTrue result →
        (other : TheItem) × IsAwaiting recce.now item other × (first ≡ node_of other first.end) }
{
    let waiting = recce.waiting(item.origin, recce.flat().lhs(item.rule));
    for k in 0..waiting.len() {
        if is_next_of(first, waiting.at(k)) {
            return true;
        }
    }
    false
}

fn is_whole(recce: &Recce<'_>, item: Item) -> bool
    requires { IsRule recce.now.flat item.rule }
    ensures { IsTrue result ↔ IsWhole recce.now.flat item }
{
    item.dot as usize == recce.flat().rhs(item.rule).len()
}

// Whether the ranking leaves no item out.
fn never_outranks(ranking: Ranking) -> bool
    ensures { IsTrue result → (w : TheGrammar) (r : TheRecognizer) (end : ℕ) (item : TheItem) →
        ¬ IsOutranked w ranking r end item }
{
    match ranking {
        Ranking::None => true,
        Ranking::Rule => true,
        Ranking::High => false,
    }
}

// Whether a topmost item is that of the first node, or of a part of it.
fn is_near(recce: &Recce<'_>, ranking: Ranking, first: NodeKey, top: Item) -> bool
    requires rule { IsRule recce.now.flat top.rule }
    requires origin { top.origin ≤ earleme_of recce.now }
    requires last { (step : TheItem) → ¬ StepsTo recce.now first.end top step }
    ensures { IsTrue result → (w : TheGrammar) → IsAskedFor w ranking recce.now (first ∷ []) first.end top }
{
    if is_node_of(first, top) {
        return true;
    }
    if !never_outranks(ranking) {
        return false;
    }
    if !is_whole(recce, top) {
        return false;
    }
    is_waited_for(recce, first, top)
}

/// Whether all topmost items are so.
pub fn are_near(recce: &Recce<'_>, ranking: Ranking, first: NodeKey, tops: &[Item]) -> bool
    requires is { IsRecognizer recce.now }
    requires end { first.end ≤ earleme_of recce.now }
    requires tops { (top : TheItem) → Contains tops.now top →
        (item : TheItem) × LeadsUp recce.now first.end item top }
    ensures { IsTrue result → (w : TheGrammar) (top : TheItem) → Contains tops.now top →
        IsAskedFor w ranking recce.now (first ∷ []) first.end top }
{
    for k in 0..tops.len() {
        if !is_near(recce, ranking, first, tops[k]) {
            return false;
        }
    }
    true
}
