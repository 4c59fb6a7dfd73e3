//! Token edges: which terminals span which places.
ghost use Rattle.std.specs.Prelude.{◌≡◌, ◌≢◌, ℕ, ◌+◌, ◌<◌, ◌≤◌, ◌↔◌, ◌⊎◌, ◌++◌, ◌∷◌, [], length, AllPairs, Contains, IsTrue, Err, OnOk, OnErr, slice_index, take, drop, ◌-◌, nat_lt, if◌then◌else◌};
ghost use Rattle.grammar_model.specs.declared.Edge.{Edge as HeldEdge};
ghost use Rattle.grammar_model.specs.declared.limits.TheConstants.{LAST_PLACE, LONGEST_EDGE};
ghost use Rattle.grammar_core.specs.Edges.{placed, GoFrom, AreOrdered, IsShortTo};
ghost use Rattle.grammar_core.specs.declared.edges.EdgeRefusal.TheVariants.{Duplicate, BadLength, NoMemory};

use crate::SymbolId;
use crate::latest::LatestPlaces;
use crate::long::LongEdges;
use grammar_model::{Edge as HeldEdge, LONGEST_EDGE};
use std::alloc::{AllocError, AllocFailed, Global};
use std::marker::Model;
use thiserror::Error;

/// A terminal and how many places it spans.
#[derive(Clone, Copy, Debug, PartialEq, Eq)]
pub struct Edge {
    pub symbol: SymbolId,
    pub length: u32,
}

/// Why an edge is not taken. Of several reasons the first in this order is told, but want of memory may come at any point.
#[derive(Clone, Copy, Debug, PartialEq, Eq, Error)]
pub enum EdgeRefusal {
    /// The edge is held.
    #[error("the edge is held")]
    Duplicate,
    /// The length is 0, or greater than an edge may have.
    #[error("the length is 0 or too great")]
    BadLength,
    /// Memory ran out.
    #[error("out of memory")]
    NoMemory,
}

impl<T: Drop> From<AllocFailed<T>> for EdgeRefusal {
    ghost use Rattle.grammar_core.specs.declared.edges.EdgeRefusal.TheVariants.{NoMemory};

    ghost from_gives = { λ _ refusal. refusal ≡ NoMemory };

    fn from(_error: AllocFailed<T>) -> Self {
        EdgeRefusal::NoMemory
    }
}

impl From<AllocError> for EdgeRefusal {
    ghost use Rattle.grammar_core.specs.declared.edges.EdgeRefusal.TheVariants.{NoMemory};

    ghost from_gives = { λ _ refusal. refusal ≡ NoMemory };

    fn from(_error: AllocError) -> Self {
        EdgeRefusal::NoMemory
    }
}

/// Edges in the order of the places where they begin, each once.
#[derive(Debug, Drop)]
pub struct TokenEdges {
    places: Vec<u32>,
    edges: Vec<Edge>,
    // those of them that span more than one place
    long: LongEdges,
    // the last place where an edge with a symbol and a length begins
    latest: LatestPlaces,
}

impl Model for TokenEdges {
    ghost use Rattle.std.specs.Prelude.{List};
    ghost use Rattle.grammar_model.specs.declared.Edge.{Edge as HeldEdge};
    ghost use Rattle.grammar_core.specs.Edges.{all_placed, ArePlaced, AreLatest};
    ghost use Rattle.grammar_core.specs.Latest.{latest_at};

    ghost Value = { List HeldEdge };

    ghost view = { λ e. all_placed e.places.items e.edges.items };

    ghost invariant = { λ e. ArePlaced e.places.items e.edges.items e.long × AreLatest (all_placed e.places.items e.edges.items) (latest_at e.latest) };
}

impl TokenEdges {
    /// No edges.
    pub fn new(alloc: Global) -> TokenEdges
        ensures { result ≡ [] }
    {
        TokenEdges {
            places: Vec::new(alloc),
            edges: Vec::new(alloc),
            long: LongEdges::new(alloc),
            latest: LatestPlaces::new(alloc),
        }
    }

    /// States what is always so of the edges.
    pub fn known(&self)
        ensures once { AllPairs (λ a b. a ≢ b) self.now }
        ensures order { AllPairs (λ a b. a.from ≤ b.from) self.now }
        ensures lengths { (e : HeldEdge) → Contains self.now e →
            (e.from < e.to) × (e.to ≤ e.from + LONGEST_EDGE) }
    {
        let _count = self.edges.len();
    }

    /// How many edges are held.
    pub fn count(&self) -> usize
        ensures { result ≡ length self.now }
    {
        self.edges.as_slice().len()
    }

    /// The edges that begin at a place, in the order of pushing.
    pub fn edges_at(&self, at: u32) -> &[Edge]
        ensures exact { (e : Edge) → Contains result.now e ↔ Contains self.now (placed at e) }
        ensures once { AllPairs (λ a b. a ≢ b) result.now }
    {
        let start = below(&self.places, at as u64);
        let end = below(&self.places, at as u64 + 1);
        part(&self.edges, start, end)
    }

    /// Lets all edges go, and keeps their room.
    pub fn clear(&mut self)
        ensures { self.new ≡ [] }
    {
        self.places.clear();
        self.edges.clear();
        self.long.clear();
        self.latest.clear();
    }

    // Whether that edge is held, which begins no earlier than another.
    fn holds(&self, at: u32, t: SymbolId, length: u32) -> bool
        requires { GoFrom self.now at }
        ensures { IsTrue result ↔
            Contains self.now (record { symbol = t; from = at; to = at + length }) }
    {
        match self.latest.get(t, length) {
            Some(place) => place == at,
            None => false,
        }
    }

    // One more edge, after the others.
    fn add(&mut self, at: u32, t: SymbolId, length: u32) -> Result<(), EdgeRefusal>
        requires order { GoFrom self.old at }
        requires place { at ≤ LAST_PLACE }
        requires some { 0 < length }
        requires short { length ≤ LONGEST_EDGE }
        requires new { ¬ Contains self.old (record { symbol = t; from = at; to = at + length }) }
        ensures ok { OnOk result (self.new ≡
            self.old ++ record { symbol = t; from = at; to = at + length } ∷ []) }
        ensures err { OnErr result (self.new ≡ self.old) }
        ensures memory { OnErr result (result ≡ Err NoMemory) }
    {
        self.latest.reserve(t, length)?;
        push_all(
            &mut self.places,
            &mut self.edges,
            &mut self.long,
            at,
            t,
            length,
        )?;
        self.latest.put(t, length, at);
        Ok(())
    }

    /// Takes an edge. No edge may begin before an earlier one, or after place 16,777,216.
    pub fn push(&mut self, at: u32, t: SymbolId, length: u32) -> Result<(), EdgeRefusal>
        requires order { GoFrom self.old at }
        requires place { at ≤ LAST_PLACE }
        ensures ok { OnOk result (self.new ≡
            self.old ++ record { symbol = t; from = at; to = at + length } ∷ []) }
        ensures err { OnErr result (self.new ≡ self.old) }
        ensures duplicate { (result ≡ Err Duplicate) ↔
            Contains self.old (record { symbol = t; from = at; to = at + length }) }
        ensures bad_length { (result ≡ Err BadLength) ↔
            ((¬ Contains self.old (record { symbol = t; from = at; to = at + length })) × ((length ≡ 0) ⊎ (LONGEST_EDGE < length))) }
    {
        if self.holds(at, t, length) {
            return Err(EdgeRefusal::Duplicate);
        }
        if length == 0 || length > LONGEST_EDGE {
            return Err(EdgeRefusal::BadLength);
        }
        self.add(at, t, length)
    }

    /// Lists the edges that end at a place, each once, in place of what the list held.
    pub fn list_to(&self, place: u32, edges: &mut Vec<HeldEdge>) -> Result<(), AllocError>
        ensures exact { OnOk result ((e : HeldEdge) →
            Contains edges.new.items e ↔ (Contains self.now e × (e.to ≡ place))) }
        ensures once { OnOk result (AllPairs (λ d e. d ≢ e) edges.new.items) }
    {
        edges.clear();
        if place > 0 {
            list_short(self.edges_at(place - 1), place, edges)?;
        }
        self.long.list_to(place, edges)?;
        Ok(())
    }
}

// One more edge with its place, or neither.
fn push_both(
    places: &mut Vec<u32>,
    edges: &mut Vec<Edge>,
    at: u32,
    edge: Edge,
) -> Result<(), EdgeRefusal>
    ensures places { OnOk result (places.new.items ≡ places.old.items ++ at ∷ []) }
    ensures edges { OnOk result (edges.new.items ≡ edges.old.items ++ edge ∷ []) }
    ensures err { OnErr result ((places.new.items ≡ places.old.items) ×
        (edges.new.items ≡ edges.old.items)) }
    ensures memory { OnErr result (result ≡ Err NoMemory) }
{
    edges.push(edge)?;
    if let Err(failed) = places.push(at) {
        edges.pop();
        return Err(EdgeRefusal::from(failed));
    }
    Ok(())
}

// One more edge with its place, also among the long ones where it is one of them; or neither.
fn push_all(
    places: &mut Vec<u32>,
    edges: &mut Vec<Edge>,
    long: &mut LongEdges,
    at: u32,
    t: SymbolId,
    length: u32,
) -> Result<(), EdgeRefusal>
    requires room { at + length < 4294967296 }
    requires new { 1 < length →
        ¬ Contains long.old (record { symbol = t; from = at; to = at + length }) }
    ensures places { OnOk result (places.new.items ≡ places.old.items ++ at ∷ []) }
    ensures edges { OnOk result (edges.new.items ≡
        edges.old.items ++ record { symbol = t; length = length } ∷ []) }
    ensures long { OnOk result (long.new ≡
        (if nat_lt 1 length then long.old ++
        record { symbol = t; from = at; to = at + length } ∷ [] else long.old)) }
    ensures err { OnErr result ((places.new.items ≡ places.old.items) ×
        (edges.new.items ≡ edges.old.items) × (long.new ≡ long.old)) }
    ensures memory { OnErr result (result ≡ Err NoMemory) }
{
    push_both(places, edges, at, Edge { symbol: t, length })?;
    if length > 1 {
        let edge = HeldEdge {
            symbol: t.0,
            from: at,
            to: at + length,
        };
        if long.push(edge).is_err() {
            places.pop();
            edges.pop();
            return Err(EdgeRefusal::NoMemory);
        }
    }
    Ok(())
}

// Lists the edges of length one to a place, of those that begin just before it, after what the list holds.
fn list_short(
    begun: &[Edge],
    place: u32,
    edges: &mut Vec<HeldEdge>,
) -> Result<(), AllocFailed<HeldEdge>>
    requires place { 0 < place }
    requires begun { AllPairs (λ a b. a ≢ b) begun.now }
    requires once { AllPairs (λ d e. d ≢ e) edges.old.items }
    requires apart { (e : HeldEdge) → Contains edges.old.items e → ¬ IsShortTo begun.now place e }
    ensures listed { OnOk result ((e : HeldEdge) →
        Contains edges.new.items e ↔ (Contains edges.old.items e ⊎ IsShortTo begun.now place e)) }
    ensures once { OnOk result (AllPairs (λ d e. d ≢ e) edges.new.items) }
{
    for edge in begun {
        if edge.length == 1 {
            edges.push(HeldEdge {
                symbol: edge.symbol.0,
                from: place - 1,
                to: place,
            })?;
        }
    }
    Ok(())
}

// Whether the places before that one are below a bound, and those from there on are not.
fn parts_at(places: &[u32], k: usize, bound: u64) -> bool
    requires { k ≤ length places.now }
    ensures before { IsTrue result → 0 < k → slice_index places.now (k - 1) < bound }
    ensures behind { IsTrue result → k < length places.now → bound ≤ slice_index places.now k }
{
    (k == 0 || (places[k - 1] as u64) < bound) && (k == places.len() || bound <= places[k] as u64)
}

// How many of the places, which are in order, are below a bound: as many as it says, where each place has one edge.
fn below(places: &[u32], bound: u64) -> usize
    requires { AreOrdered places.now }
    ensures bound { result ≤ length places.now }
    ensures below { (k : ℕ) → k < result → slice_index places.now k < bound }
    ensures above { (k : ℕ) → result ≤ k → k < length places.now →
        bound ≤ slice_index places.now k }
{
    let guess = places.len().min(bound as usize);
    if parts_at(places, guess, bound) {
        guess
    } else {
        places.partition_point(|place| (*place as u64) < bound)
    }
}

fn part(edges: &[Edge], start: usize, end: usize) -> &[Edge]
    requires order { start ≤ end }
    requires bound { end ≤ length edges.now }
    ensures { result.now ≡ take (end - start) (drop start edges.now) }
{
    &edges[start..end]
}
