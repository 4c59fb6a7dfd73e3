//! What may be the cause in nodes that end at one place, and the first cause of a node, as the declared order has it.
ghost use Rattle.std.specs.Prelude.{◌≡◌, ◌≢◌, ℕ, suc, false, ◌+◌, ◌-◌, ◌<◌, ◌≤◌, ◌↔◌, ◌∷◌, [], Some, None, length, IfOk, OnOk, IfSome, IsNone, IsTrue, Contains};
ghost use Rattle.std.specs.List.Sorted.{IsStrictlySortedBy};
ghost use Rattle.recognizer_model.specs.declared.NodeKey.{NodeKey as TheKey};
ghost use Rattle.recognizer_model.specs.Counts.{IsListOf};
ghost use Rattle.recognizer_model.specs.Flat.{IsNullable, IsRule, part_of, rhs_of};
ghost use Rattle.recognizer_model.specs.Items.{after};
ghost use Rattle.recognizer_model.specs.FlatForm.{IsFlatOf};
ghost use Rattle.earley_sets.specs.Below.{StandsBelowOf};
ghost use Rattle.earley_sets.specs.Recognizer.{earleme_of, set_at};
ghost use Rattle.forest_parts.specs.declared.parts.Part.{Part as ThePart};
ghost use Rattle.forest_parts.specs.Given.{GivenAt, items_in};
ghost use Rattle.forest_parts.specs.Groups.{IsKept, IsSameSpan, rank_in};
ghost use Rattle.forest_parts.specs.Hidden.{RisesWithin};
ghost use Rattle.forest_parts.specs.Needed.{IsBelowAsked};
ghost use Rattle.forest_parts.specs.Parts.{part_cmp, part_at};
ghost use Rattle.bocage.specs.Expanded.{IsGivenAt};
ghost use Rattle.bocage.specs.Given.{AreGivenFor};
ghost use Rattle.bocage.specs.Walk.{IsRead, IsUsedIn};
ghost use Rattle.first_walk.specs.Joined.{AreJoinedIf, IsFound};
ghost use Rattle.first_walk.specs.Place.{IsListed, HaveLast, IsNoted, AreFrom, EndTogether, HavePlaces, IsFrom, IsFirstMatch, HasNoMatch, HasOtherStart, HasOtherWhole, IsOnly, IsAlone, IsFirstOf, IsChosen, Fits, null_high};

use crate::joined::{Found, Joined, find_joined, list_joined};
use crate::near::{are_near, list_tops};
use earley_sets::Recce;
use forest_parts::{Given, NodeKeys, Part, is_null_high, list_needed, list_parts};
use grammar_core::Written;
use grammar_model::{Edge, Ranking};
use indexmap::IndexSet;
use recognizer_model::{Item, NodeKey};
use slif_base::Steps;
use std::alloc::{AllocError, AllocFailed, Global};
use std::hash::BuildHasherDefault;
use std::sync::ledger::Ledger;

/// Where parts and joined items were found last. Those of the next node mostly stand there, or right behind; that is compared first.
#[derive(Clone, Copy)]
pub struct Hints {
    // where the parts of the last symbol begin
    from: usize,
    // where the joined items of the last node end
    past: usize,
}

/// The edges and whole rules that end where a first node does, as far as it needs them, in the declared order; and what is used again for
/// each place.
#[derive(Drop)]
pub struct Place {
    /// the node that they were listed for, if they were for any
    pub first: Option<NodeKey>,
    pub parts: Vec<Part>,
    keys: NodeKeys,
    edges: Vec<Edge>,
    tops: Vec<Item>,
    bottoms: Vec<Item>,
    /// the items that wait for the parts, if they were listed
    pub joined: Vec<Joined>,
    pub is_joined: bool,
    // how many parts were tried
    tried: usize,
    pub hints: Hints,
}

/// The cause of a node's first alternative, and whether there is no other.
#[derive(Clone, Copy)]
pub struct Chosen {
    /// an edge or a whole rule; none where the last part spans nothing
    pub part: Option<Part>,
    pub alone: bool,
}

/// Nothing is listed yet.
pub fn new_place(alloc: Global) -> Place
    ensures first { result.first ≡ None }
    ensures joined { result.is_joined ≡ false }
{
    Place {
        first: None,
        parts: Vec::new(alloc),
        keys: IndexSet::with_hasher(alloc, BuildHasherDefault::new()),
        edges: Vec::new(alloc),
        tops: Vec::new(alloc),
        bottoms: Vec::new(alloc),
        joined: Vec::new(alloc),
        is_joined: false,
        tried: 0,
        hints: Hints { from: 0, past: 0 },
    }
}

/// Whether what ends there was listed last.
#[inline(always)]
pub fn is_listed(place: &Place, end: u32) -> bool
    ensures { IsTrue result ↔ ((first : TheKey) × (place.now.first ≡ Some first) × (end ≡ first.end)) }
{
    match place.first {
        Some(first) => end == first.end,
        None => false,
    }
}

// The one key alone.
fn keep_one(keys: &mut NodeKeys, key: NodeKey) -> Result<(), AllocFailed<NodeKey>>
    ensures { OnOk result (keys.new.keys ≡ key ∷ []) }
{
    keys.truncate(0);
    keys.insert(key)?;
    Ok(())
}

// Brings back the hidden items that a node asks for where it ends, and that begin no earlier: all below the topmost ones, where these are
// near the node, and else those that a walk up from each tells.
fn ask<L: Ledger>(
    alloc: Global,
    recce: &Recce<'_>,
    w: &Written,
    ranking: Ranking,
    first: NodeKey,
    place: &mut Place,
    steps: &mut Steps<L>,
) -> Result<Vec<Item>, AllocError>
    requires read { IsRead w.now recce.now }
    requires end { first.end ≤ earleme_of recce.now }
    ensures exact { IfOk result (λ items.
        IsListOf (IsBelowAsked w.now ranking recce.now (first ∷ []) first.end first.origin) items.items) }
    ensures tops { IfOk result (λ items. IsListOf (StandsBelowOf recce.now first.end place.new.tops.items) items.items) }
    ensures all { IfOk result (λ items. steps.new ≡ steps.old + length items.items) }
    ensures counted { RisesWithin (IsBelowAsked w.now ranking recce.now (first ∷ []) first.end first.origin)
        steps.old steps.new }
{
    place.tops.clear();
    if !recce.may_hide(first.end, first.origin) {
        return Ok(Vec::new(alloc));
    }
    list_tops(
        recce,
        first.end,
        first.origin,
        &mut place.tops,
        &mut place.bottoms,
    )?;
    if are_near(recce, ranking, first, &place.tops) {
        return recce.below(alloc, first.end, &place.tops, &place.bottoms, steps);
    }
    keep_one(&mut place.keys, first)?;
    list_needed(
        alloc,
        recce,
        w,
        ranking,
        &place.keys,
        first.end,
        first.origin,
        &mut place.tops,
        &mut place.bottoms,
        steps,
    )
}

// Notes what was brought back for a place, if anything was.
fn note(end: u32, tops: &[Item], items: &[Item], given: &mut Given) -> Result<(), AllocError>
    requires { (e : GivenAt) → Contains given.old e → end < e.place }
    ensures { OnOk result (IsNoted end tops.now items.now given.old given.new) }
{
    if !items.is_empty() {
        given.push(end, tops, items)?;
    }
    Ok(())
}

/// Lists what may be the cause in nodes that end where one does and that it asks for. What is brought back for it is noted.
pub fn list_place<L: Ledger>(
    alloc: Global,
    recce: &Recce<'_>,
    w: &Written,
    ranking: Ranking,
    first: NodeKey,
    place: &mut Place,
    given: &mut Given,
    steps: &mut Steps<L>,
) -> Result<(), AllocError>
    requires read { IsRead w.now recce.now }
    requires used { IsUsedIn w.now ranking recce.now first }
    requires later { (e : GivenAt) → Contains given.old e → first.end < e.place }
    requires given { AreGivenFor w.now ranking recce.now given.old }
    ensures first { OnOk result (place.new.first ≡ Some first) }
    ensures listed { OnOk result (IsListed w.now ranking recce.now first place.new.parts.items) }
    ensures joined { OnOk result (place.new.is_joined ≡ false) }
    ensures given { OnOk result (AreGivenFor w.now ranking recce.now given.new) }
    ensures from { OnOk result (AreFrom first.end given.new) }
    ensures all { OnOk result (steps.new + items_in given.old ≡ steps.old + items_in given.new) }
    ensures counted { RisesWithin (IsGivenAt w.now ranking recce.now first.end) steps.old steps.new }
{
    let items = ask(alloc, recce, w, ranking, first, place, steps)?;
    note(first.end, &place.tops, &items, given)?;
    list_parts(
        recce,
        w,
        ranking,
        first.end,
        first.origin,
        &items,
        &mut place.edges,
        &mut place.parts,
    )?;
    place.first = Some(first);
    place.is_joined = false;
    place.tried = 0;
    place.hints.from = 0;
    Ok(())
}

// Of so few parts each is tried.
const FEW: usize = 8;

// Whether as many parts were tried, with those of a symbol, as there are three times over: to join them costs some such rounds. Those of
// the symbol stand from one place on.
#[inline(always)]
fn is_often_tried(parts: &[Part], symbol: u32, from: usize, tried: &mut usize) -> bool {
    if is_of(parts, symbol, from.saturating_add(FEW)) {
        let past = parts.partition_point(|part| part.symbol <= symbol);
        *tried = tried.saturating_add(past.saturating_sub(from));
    }
    *tried / 2 > parts.len()
}

/// Lists the items that wait for the parts of a place, where these are many and are tried again and again, last for a symbol.
#[inline(always)]
pub fn join_often_tried(recce: &Recce<'_>, symbol: u32, place: &mut Place) -> Result<(), AllocError>
    requires places { HavePlaces recce.now place.old.parts.items }
    requires joined { AreJoinedIf place.old.is_joined recce.now place.old.parts.items
        place.old.joined.items }
    ensures first { place.new.first ≡ place.old.first }
    ensures parts { place.new.parts ≡ place.old.parts }
    ensures joined { OnOk result (AreJoinedIf place.new.is_joined recce.now place.new.parts.items
        place.new.joined.items) }
{
    if place.is_joined
        || !is_often_tried(&place.parts, symbol, place.hints.from, &mut place.tried)
    {
        return Ok(());
    }
    list_joined(recce, &place.parts, &mut place.joined)?;
    place.is_joined = true;
    Ok(())
}

// Whether those of smaller symbols end at a place, which is not the end.
#[inline(always)]
fn is_from(parts: &[Part], symbol: u32, from: usize) -> bool
    requires sorted { IsStrictlySortedBy part_cmp parts.now }
    requires ends { EndTogether parts.now }
    ensures { IsTrue result → IsFrom parts.now symbol from }
{
    if from >= parts.len() || parts[from].symbol < symbol {
        return false;
    }
    from == 0 || parts[from - 1].symbol < symbol
}

// How many parts stand before those of a symbol. A guess is compared first.
#[inline(always)]
fn count_before(parts: &[Part], symbol: u32, guess: usize) -> usize
    requires sorted { IsStrictlySortedBy part_cmp parts.now }
    requires ends { EndTogether parts.now }
    ensures { IsFrom parts.now symbol result }
{
    if is_from(parts, symbol, guess) {
        return guess;
    }
    parts.partition_point(|part| part.symbol < symbol)
}

// Whether the item is kept where a part begins.
#[inline(always)]
fn begins(recce: &Recce<'_>, part: Part, item: Item) -> bool
    requires part { part.length ≤ part.end }
    requires end { part.end ≤ earleme_of recce.now }
    ensures { IsTrue result ↔ Contains (set_at recce.now (part.end - part.length)) item }
{
    recce.has(part.end - part.length, item)
}

// The first of the parts that is of a symbol and begins where an item is kept. Those of the symbol stand from one place on.
fn first_match(
    recce: &Recce<'_>,
    parts: &[Part],
    symbol: u32,
    item: Item,
    from: usize,
) -> Option<usize>
    requires sorted { IsStrictlySortedBy part_cmp parts.now }
    requires ends { EndTogether parts.now }
    requires places { HavePlaces recce.now parts.now }
    requires from { IsFrom parts.now symbol from }
    ensures some { IfSome result (λ k. IsFirstMatch recce.now parts.now symbol item k) }
    ensures none { IsNone result → HasNoMatch recce.now parts.now symbol item }
{
    for k in from..parts.len() {
        if parts[k].symbol != symbol {
            return None;
        }
        if begins(recce, parts[k], item) {
            return Some(k);
        }
    }
    None
}

// Whether a part behind one is of its symbol, begins elsewhere, and an item is kept there.
fn has_other_start(recce: &Recce<'_>, parts: &[Part], item: Item, k: usize) -> bool
    requires sorted { IsStrictlySortedBy part_cmp parts.now }
    requires ends { EndTogether parts.now }
    requires places { HavePlaces recce.now parts.now }
    requires k { k < length parts.now }
    ensures { IsTrue result ↔ HasOtherStart recce.now parts.now item k }
{
    for j in k + 1..parts.len() {
        if parts[j].symbol != parts[k].symbol {
            return false;
        }
        if parts[j].length != parts[k].length && begins(recce, parts[j], item) {
            return true;
        }
    }
    false
}

// The same, and whether another may be it that begins elsewhere.
fn find_tried(
    recce: &Recce<'_>,
    parts: &[Part],
    symbol: u32,
    item: Item,
    from: usize,
) -> Option<Found>
    requires sorted { IsStrictlySortedBy part_cmp parts.now }
    requires ends { EndTogether parts.now }
    requires places { HavePlaces recce.now parts.now }
    requires from { IsFrom parts.now symbol from }
    ensures some { IfSome result (λ found. IsFound recce.now parts.now symbol item found) }
    ensures none { IsNone result → HasNoMatch recce.now parts.now symbol item }
{
    match first_match(recce, parts, symbol, item, from) {
        None => None,
        Some(first) => Some(Found {
            first,
            other: has_other_start(recce, parts, item, first),
        }),
    }
}

// The same, by the items that wait for the parts, if these are listed.
fn find(
    recce: &Recce<'_>,
    parts: &[Part],
    is_joined: bool,
    joined: &[Joined],
    past: &mut usize,
    symbol: u32,
    item: Item,
    from: usize,
) -> Option<Found>
    requires sorted { IsStrictlySortedBy part_cmp parts.now }
    requires ends { EndTogether parts.now }
    requires places { HavePlaces recce.now parts.now }
    requires joined { AreJoinedIf is_joined recce.now parts.now joined.now }
    requires from { IsFrom parts.now symbol from }
    requires part { after recce.now.flat item ≡ Some symbol }
    ensures some { IfSome result (λ found. IsFound recce.now parts.now symbol item found) }
    ensures none { IsNone result → HasNoMatch recce.now parts.now symbol item }
{
    if is_joined {
        find_joined(recce, parts, joined, past, symbol, item)
    } else {
        find_tried(recce, parts, symbol, item, from)
    }
}

// Whether there is a part at a place, and it is of a symbol.
#[inline(always)]
fn is_of(parts: &[Part], symbol: u32, k: usize) -> bool
    ensures { IsTrue result ↔ ((k < length parts.now) × ((part_at parts.now k).symbol ≡ symbol)) }
{
    match parts.get(k) {
        Some(part) => part.symbol == symbol,
        None => false,
    }
}

// Whether a part is the only one of a symbol, which may not span nothing: then it is the cause, and nothing is to be looked up.
#[inline(always)]
fn is_only(recce: &Recce<'_>, parts: &[Part], symbol: u32, k: usize) -> bool
    requires { symbol < length recce.now.flat.symbols }
    ensures { IsTrue result → IsOnly recce.now.flat parts.now symbol k }
{
    if recce.flat().nullable(symbol) || !is_of(parts, symbol, k) {
        return false;
    }
    !is_of(parts, symbol, k + 1)
}

// The rank of a whole rule; an edge has none.
fn rank(part: Part) -> i32
    ensures { result ≡ rank_in part.whole }
{
    match part.whole {
        Some(key) => key.rank.0,
        None => 0,
    }
}

// Whether the ranking keeps a part, where another is the first of those over the same span.
fn is_kept(ranking: Ranking, part: Part, first: Part) -> bool
    ensures { IsTrue result ↔ IsKept ranking part first }
{
    match ranking {
        Ranking::None | Ranking::Rule => true,
        Ranking::High => rank(part) == rank(first),
    }
}

fn is_same_span(part: Part, other: Part) -> bool
    ensures { IsTrue result ↔ IsSameSpan part other }
{
    part.symbol == other.symbol && part.length == other.length
}

// Whether the ranking keeps a second rule over the span of the first.
fn has_other_whole(ranking: Ranking, parts: &[Part], k: usize) -> bool
    requires { k < length parts.now }
    ensures { IsTrue result ↔ HasOtherWhole ranking parts.now k }
{
    match parts.get(k + 1) {
        Some(next) => is_same_span(*next, parts[k]) && is_kept(ranking, *next, parts[k]),
        None => false,
    }
}

// Whether the last part of a node may span nothing.
fn may_be_nothing(recce: &Recce<'_>, end: u32, predecessor: Item, symbol: u32) -> bool
    requires end { end ≤ earleme_of recce.now }
    requires symbol { symbol < length recce.now.flat.symbols }
    ensures { IsTrue result ↔ (IsNullable recce.now.flat symbol × Contains (set_at recce.now end) predecessor) }
{
    recce.flat().nullable(symbol) && recce.has(end, predecessor)
}

// Whether a part is the only one that may be the cause, the first of those that may be known, and whether one may that begins elsewhere.
fn is_alone(
    recce: &Recce<'_>,
    ranking: Ranking,
    parts: &[Part],
    item: Item,
    found: Found,
    nothing: bool,
) -> bool
    requires k { found.first < length parts.now }
    requires other { IsTrue found.other ↔ HasOtherStart recce.now parts.now item found.first }
    ensures { IsTrue result ↔ IsAlone recce.now ranking parts.now item found.first nothing }
{
    if nothing {
        return false;
    }
    if has_other_whole(ranking, parts, found.first) {
        return false;
    }
    if found.other {
        return false;
    }
    true
}

// The cause of the first alternative, where the first part that may be it is known, and whether it may be nothing.
fn choose_at(
    recce: &Recce<'_>,
    w: &Written,
    ranking: Ranking,
    parts: &[Part],
    item: Item,
    found: Found,
    nothing: bool,
) -> Chosen
    requires flat { IsFlatOf recce.now.flat w.now }
    requires rule { IsRule recce.now.flat item.rule }
    requires k { found.first < length parts.now }
    requires other { IsTrue found.other ↔ HasOtherStart recce.now parts.now item found.first }
    ensures { IsFirstOf recce.now (null_high w.now ranking recce.now item.rule) ranking parts.now item found.first
        nothing result }
{
    if nothing && is_null_high(recce.flat(), w, item.rule) {
        return Chosen {
            part: None,
            alone: false,
        };
    }
    let alone = is_alone(recce, ranking, parts, item, found, nothing);
    Chosen {
        part: Some(parts[found.first]),
        alone,
    }
}

/// The symbol of a node's last part.
#[inline(always)]
pub fn last_symbol(recce: &Recce<'_>, key: NodeKey) -> u32
    requires rule { IsRule recce.now.flat key.rule }
    requires some { 0 < key.dot }
    requires dot { key.dot ≤ length (rhs_of recce.now.flat key.rule) }
    ensures { part_of recce.now.flat key.rule (key.dot - 1) ≡ Some result }
{
    recce.flat().rhs(key.rule)[key.dot as usize - 1]
}

/// The cause of the first alternative of a node that spans something. The items that wait for the parts may be listed.
#[inline(always)]
pub fn choose(
    recce: &Recce<'_>,
    w: &Written,
    ranking: Ranking,
    parts: &[Part],
    is_joined: bool,
    joined: &[Joined],
    hints: &mut Hints,
    symbol: u32,
    key: NodeKey,
) -> Chosen
    requires read { IsRead w.now recce.now }
    requires used { IsUsedIn w.now ranking recce.now key }
    requires spans { key.origin < key.end }
    requires listed { HaveLast w.now ranking recce.now key parts.now }
    requires joined { AreJoinedIf is_joined recce.now parts.now joined.now }
    requires symbol { part_of recce.now.flat key.rule (key.dot - 1) ≡ Some symbol }
    ensures chosen { IsChosen w.now ranking recce.now key result }
    ensures fits { IfSome result.part (λ p. Fits recce.now.flat key p) }
{
    let from = count_before(parts, symbol, hints.from);
    hints.from = from;
    if is_only(recce, parts, symbol, from) {
        return Chosen {
            part: Some(parts[from]),
            alone: true,
        };
    }
    let item = Item {
        rule: key.rule,
        dot: key.dot - 1,
        origin: key.origin,
    };
    let nothing = may_be_nothing(recce, key.end, item, symbol);
    match find(
        recce,
        parts,
        is_joined,
        joined,
        &mut hints.past,
        symbol,
        item,
        from,
    ) {
        None => Chosen {
            part: None,
            alone: true,
        },
        Some(found) => choose_at(recce, w, ranking, parts, item, found, nothing),
    }
}
