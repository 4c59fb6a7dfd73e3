//! The items that the ranking leaves out, as far as the kept ones of the place tell.
ghost use Rattle.std.specs.Prelude.{◌≡◌, ℕ, ◌<◌, ◌≤◌, ◌↔◌, IsTrue};
ghost use Rattle.grammar_model.specs.declared.Ranking.TheVariants.{High as HighRanks};
ghost use Rattle.recognizer_model.specs.Flat.{IsRule};
ghost use Rattle.recognizer_model.specs.FlatForm.{IsFlatOf};
ghost use Rattle.recognizer_model.specs.Chosen.{flat_rank};
ghost use Rattle.earley_sets.specs.Recognizer.{IsRecognizer, earleme_of};
ghost use Rattle.forest_parts.specs.Unasked.{IsHigher, HasHigher, IsOutranked};

use crate::parts::{RuleKey, rule_key};
use earley_sets::Recce;
use grammar_core::{Flat, Written};
use grammar_model::Ranking;
use recognizer_model::Item;

// The rank that a key has.
fn rank_in_key(key: RuleKey) -> i32
    ensures { result ≡ (key.rank).0 }
{
    key.rank.0
}

// The rank of what a rule comes from.
fn rank_of(flat: &Flat, w: &Written, rule: u32) -> i32
    requires flat { IsFlatOf flat.now w.now }
    requires rule { IsRule flat.now rule }
    ensures { result ≡ flat_rank w.now HighRanks flat.now rule }
{
    rank_in_key(rule_key(flat, w, Ranking::High, rule))
}

// Whether a rule of a higher rank is whole over the span of an item.
fn is_higher(recce: &Recce<'_>, w: &Written, end: u32, item: Item, rule: u32) -> bool
    requires flat { IsFlatOf recce.now.flat w.now }
    requires end { end ≤ earleme_of recce.now }
    requires item { IsRule recce.now.flat item.rule }
    requires rule { IsRule recce.now.flat rule }
    ensures { IsTrue result ↔ IsHigher w.now recce.now end item rule }
{
    let flat = recce.flat();
    flat.known();
    let whole = Item {
        rule,
        dot: flat.rhs(rule).len() as u32,
        origin: item.origin,
    };
    rank_of(flat, w, item.rule) < rank_of(flat, w, rule) && recce.has(end, whole)
}

// Whether one of the rules from one number up to another is.
fn is_one_higher(
    recce: &Recce<'_>,
    w: &Written,
    end: u32,
    item: Item,
    first: u32,
    past: u32,
) -> bool
    requires flat { IsFlatOf recce.now.flat w.now }
    requires end { end ≤ earleme_of recce.now }
    requires item { IsRule recce.now.flat item.rule }
    requires rules { (r : ℕ) → first ≤ r → r < past → IsRule recce.now.flat r }
    ensures { IsTrue result ↔ ((r : ℕ) × ((first ≤ r) × (r < past)) × IsHigher w.now recce.now end item r) }
{
    for rule in first..past {
        if is_higher(recce, w, end, item, rule) {
            return true;
        }
    }
    false
}

// Whether one of the rules of an item's left side is.
fn has_higher(recce: &Recce<'_>, w: &Written, end: u32, item: Item) -> bool
    requires flat { IsFlatOf recce.now.flat w.now }
    requires end { end ≤ earleme_of recce.now }
    requires item { IsRule recce.now.flat item.rule }
    ensures { IsTrue result ↔ HasHigher w.now recce.now end item }
{
    let flat = recce.flat();
    let rules = flat.rules_of(flat.lhs(item.rule));
    is_one_higher(recce, w, end, item, rules.start, rules.end)
}

/// Whether the ranking leaves an item out where it is whole: a kept one of a higher rank derives the same symbol over the same span.
pub fn is_outranked(recce: &Recce<'_>, w: &Written, ranking: Ranking, end: u32, item: Item) -> bool
    requires flat { IsFlatOf recce.now.flat w.now }
    requires end { end ≤ earleme_of recce.now }
    requires item { IsRule recce.now.flat item.rule }
    ensures { IsTrue result ↔ IsOutranked w.now ranking recce.now end item }
{
    match ranking {
        Ranking::None | Ranking::Rule => false,
        Ranking::High => has_higher(recce, w, end, item),
    }
}
