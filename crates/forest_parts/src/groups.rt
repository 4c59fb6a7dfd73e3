//! Parts of one symbol over one span, together.
ghost use Rattle.std.specs.Prelude.{◌≡◌, ◌≢◌, ℕ, ◌<◌, ◌≤◌, ◌-◌, ◌↔◌, ◌⊎◌, length, OnOk, Contains, IsTrue};
ghost use Rattle.std.specs.List.Sorted.{IsStrictlySortedBy};
ghost use Rattle.forest_parts.specs.declared.parts.Part.{Part as ThePart};
ghost use Rattle.forest_parts.specs.Parts.{part_cmp, part_at};
ghost use Rattle.forest_parts.specs.Groups.{IsSameSpan, IsKept, RanksFall, AreGroups, rank_in};

use crate::parts::Part;
use grammar_model::Ranking;
use std::alloc::AllocError;

/// Parts of one symbol over one span, those that the ranking keeps: they stand from `first` up to `past`.
#[derive(Clone, Copy)]
pub struct Group {
    pub symbol: u32,
    /// where the span begins
    pub start: u32,
    pub first: usize,
    pub past: usize,
}

fn is_same_span(part: Part, other: Part) -> bool
    ensures { IsTrue result ↔ IsSameSpan part other }
{
    part.symbol == other.symbol && part.length == other.length
}

// Where those end that derive the same symbol over the same span as the part at a place.
fn end_of_span(parts: &[Part], k: usize) -> usize
    requires place { k < length parts.now }
    ensures order { k < result }
    ensures bound { result ≤ length parts.now }
    ensures same { (i : ℕ) → k ≤ i → i < result → IsSameSpan (part_at parts.now i) (part_at parts.now k) }
    ensures other { result < length parts.now → ¬ IsSameSpan (part_at parts.now result) (part_at parts.now k) }
{
    for past in k + 1..parts.len() {
        if !is_same_span(parts[past], parts[k]) {
            return past;
        }
    }
    parts.len()
}

// The rank of a whole rule; an edge has none.
fn rank(part: Part) -> i32
    ensures { result ≡ rank_in part.whole }
{
    match part.whole {
        Some(key) => key.rank.0,
        None => 0,
    }
}

// Whether the ranking keeps a part, where another is the first of those over the same span.
fn is_kept(ranking: Ranking, part: Part, first: Part) -> bool
    ensures { IsTrue result ↔ IsKept ranking part first }
{
    match ranking {
        Ranking::None | Ranking::Rule => true,
        Ranking::High => rank(part) == rank(first),
    }
}

// Where those end that the ranking keeps, of the parts from one place up to another.
fn end_of_kept(ranking: Ranking, parts: &[Part], k: usize, past: usize) -> usize
    requires some { k < past }
    requires bound { past ≤ length parts.now }
    ensures order { k < result }
    ensures bound { result ≤ past }
    ensures kept { (i : ℕ) → k ≤ i → i < result → IsKept ranking (part_at parts.now i) (part_at parts.now k) }
    ensures other { result < past → ¬ IsKept ranking (part_at parts.now result) (part_at parts.now k) }
{
    for end in k + 1..past {
        if !is_kept(ranking, parts[end], parts[k]) {
            return end;
        }
    }
    past
}

/// Lists the groups of parts that end at a place and are in order.
pub fn list_groups(
    ranking: Ranking,
    parts: &[Part],
    end: u32,
    groups: &mut Vec<Group>,
) -> Result<(), AllocError>
    requires sorted { IsStrictlySortedBy part_cmp parts.now }
    requires ranks { RanksFall parts.now }
    requires ends { (p : ThePart) → Contains parts.now p → (p.end ≡ end) × (p.length ≤ end) }
    ensures { OnOk result (AreGroups ranking end parts.now groups.new.items) }
{
    groups.clear();
    let mut k = 0;
    while k < parts.len() {
        let past = end_of_span(parts, k);
        groups.push(Group {
            symbol: parts[k].symbol,
            start: end - parts[k].length,
            first: k,
            past: end_of_kept(ranking, parts, k, past),
        })?;
        k = past;
    }
    Ok(())
}
