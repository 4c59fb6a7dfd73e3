//! Edges that span more than one place, found by where they end.
ghost use Rattle.std.specs.Prelude.{◌≡◌, ◌≢◌, ◌↔◌, ◌⊎◌, ◌<◌, ◌++◌, ◌∷◌, [], length, AllPairs, Contains, OnOk, OnErr, Some, slice_get, nat_eq};
ghost use Rattle.indexmap.specs.IndexMap.{get};
ghost use Rattle.grammar_model.specs.declared.Edge.{Edge as HeldEdge};
ghost use Rattle.grammar_core.specs.Long.{all_held, AreChained};

use grammar_model::Edge as HeldEdge;
use indexmap::IndexMap;
use std::alloc::{AllocError, AllocFailed, Global};
use std::marker::Model;

// An edge, and the number of the newest one before it that ends where it does.
#[derive(Clone, Copy, Debug)]
struct LongEdge {
    edge: HeldEdge,
    below: Option<usize>,
}

/// Edges in the order of pushing, each once.
#[derive(Debug, Drop)]
pub struct LongEdges {
    edges: Vec<LongEdge>,
    // the number of the newest edge that ends at a place
    newest: IndexMap<u32, usize>,
}

impl Model for LongEdges {
    ghost use Rattle.std.specs.Prelude.{List, nat_eq};
    ghost use Rattle.indexmap.specs.IndexMap.{get};
    ghost use Rattle.grammar_model.specs.declared.Edge.{Edge as HeldEdge};
    ghost use Rattle.grammar_core.specs.Long.{all_held, AreChained};

    ghost Value = { List HeldEdge };

    ghost view = { λ l. all_held l.edges.items };

    ghost invariant = { λ l. AreChained l.edges.items (get nat_eq l.newest) };
}

impl LongEdges {
    /// No edges.
    pub fn new(alloc: Global) -> LongEdges
        ensures { result ≡ [] }
    {
        LongEdges {
            edges: Vec::new(alloc),
            newest: IndexMap::new(alloc),
        }
    }

    /// Lets all edges go, and keeps their room.
    pub fn clear(&mut self)
        ensures { self.new ≡ [] }
    {
        self.edges.clear();
        self.newest.clear();
    }

    /// One more edge, after the others.
    pub fn push(&mut self, edge: HeldEdge) -> Result<(), AllocError>
        requires { ¬ Contains self.old edge }
        ensures ok { OnOk result (self.new ≡ self.old ++ edge ∷ []) }
        ensures err { OnErr result (self.new ≡ self.old) }
    {
        let number = self.edges.len();
        let below = self.newest.get(&edge.to).copied();
        self.edges.push(LongEdge { edge, below })?;
        if let Err(failed) = self.newest.insert(edge.to, number) {
            self.edges.pop();
            return Err(AllocError::from(failed));
        }
        Ok(())
    }

    /// Lists the edges that end at a place, after what the list holds.
    pub fn list_to(
        &self,
        place: u32,
        edges: &mut Vec<HeldEdge>,
    ) -> Result<(), AllocFailed<HeldEdge>>
        requires once { AllPairs (λ d e. d ≢ e) edges.old.items }
        requires apart { (e : HeldEdge) → Contains edges.old.items e → ¬ Contains self.now e }
        ensures listed { OnOk result ((e : HeldEdge) →
            Contains edges.new.items e ↔
            (Contains edges.old.items e ⊎ (Contains self.now e × (e.to ≡ place)))) }
        ensures once { OnOk result (AllPairs (λ d e. d ≢ e) edges.new.items) }
    {
        list_chain(&self.edges, &self.newest, place, edges)
    }
}

// Lists the edges that end at a place, from the newest down, after what the list holds.
fn list_chain(
    links: &[LongEdge],
    newest: &IndexMap<u32, usize>,
    place: u32,
    edges: &mut Vec<HeldEdge>,
) -> Result<(), AllocFailed<HeldEdge>>
    requires chained { AreChained links.now (get nat_eq newest.now) }
    requires once { AllPairs (λ d e. d ≢ e) edges.old.items }
    requires apart { (e : HeldEdge) → Contains edges.old.items e →
        ¬ Contains (all_held links.now) e }
    ensures listed { OnOk result ((e : HeldEdge) →
        Contains edges.new.items e ↔
        (Contains edges.old.items e ⊎ (Contains (all_held links.now) e × (e.to ≡ place)))) }
    ensures once { OnOk result (AllPairs (λ d e. d ≢ e) edges.new.items) }
{
    if links.is_empty() {
        return Ok(());
    }
    let mut next = newest.get(&place).copied();
    while let Some(number) = next {
        let link = link_at(links, number);
        edges.push(link.edge)?;
        next = link.below;
    }
    Ok(())
}

fn link_at(links: &[LongEdge], number: usize) -> LongEdge
    requires { number < length links.now }
    ensures { slice_get links.now number ≡ Some result }
{
    links[number]
}
