//! Which nodes end at each place.
ghost use Rattle.std.specs.Prelude.{◌≡◌, ◌≢◌, ℕ, List, ◌<◌, ◌≤◌, ◌↔◌, ◌∷◌, ◌++◌, [], length, OnOk, Contains, slice_index_or, slice_set};
ghost use Rattle.forest_parts.specs.Chains.{AreChained, EndsAt, IsChain};

use crate::keys::{NodeKeys, key_at};
use recognizer_model::NodeKey;
use slif_base::number;
use std::alloc::{AllocError, AllocFailed, Global};

/// Nodes by the places where they end: the newest of each place, and for each node the one before it that ends at the same place. Each
/// is told by the place after its number, and 0 is none.
#[derive(Drop)]
pub struct Chains {
    pub heads: Vec<u32>,
    pub below: Vec<u32>,
}

/// No node is noted.
pub fn new_chains(alloc: Global) -> Chains
    ensures heads { result.heads.items ≡ [] }
    ensures below { result.below.items ≡ [] }
{
    Chains {
        heads: Vec::new(alloc),
        below: Vec::new(alloc),
    }
}

// Makes room for the heads of so many places.
fn widen(heads: &mut Vec<u32>, count: usize) -> Result<(), AllocFailed<u32>>
    ensures same { OnOk result ((e : ℕ) → slice_index_or heads.new.items e 0 ≡ slice_index_or heads.old.items e 0) }
    ensures wide { OnOk result (count ≤ length heads.new.items) }
{
    for k in heads.as_slice().len()..count {
        heads.push(0)?;
    }
    Ok(())
}

// Puts a head, and gives the one that it takes the place of.
fn replace(heads: &mut Vec<u32>, end: usize, head: u32) -> u32
    requires { end < length heads.old.items }
    ensures was { result ≡ slice_index_or heads.old.items end 0 }
    ensures is { heads.new.items ≡ slice_set heads.old.items end head }
{
    let old = heads[end];
    heads[end] = head;
    old
}

// Notes the next node, which ends at a place.
fn link(chains: &mut Chains, end: u32) -> Result<(), AllocError>
    ensures below { OnOk result (chains.new.below.items ≡ chains.old.below.items ++ slice_index_or chains.old.heads.items end 0 ∷ []) }
    ensures sets { OnOk result (slice_index_or chains.new.heads.items end 0 ≡ length chains.new.below.items) }
    ensures same { OnOk result ((e : ℕ) → e ≢ end → slice_index_or chains.new.heads.items e 0 ≡ slice_index_or chains.old.heads.items e 0) }
{
    let end = end as usize;
    widen(&mut chains.heads, end + 1)?;
    let head = number(chains.below.as_slice().len() + 1)?;
    let below = replace(&mut chains.heads, end, head);
    chains.below.push(below)?;
    Ok(())
}

fn head_at(heads: &[u32], end: usize) -> u32
    ensures { result ≡ slice_index_or heads.now end 0 }
{
    match heads.get(end) {
        Some(head) => *head,
        None => 0,
    }
}

fn link_at(below: &[u32], node: usize) -> u32
    requires { node < length below.now }
    ensures { slice_index_or below.now node 0 ≡ result }
{
    below[node]
}

// Lists the nodes of a chain, in place of what the list held.
fn list_chain(chains: &Chains, end: u32, nodes: &mut Vec<usize>) -> Result<(), AllocError>
    requires { (ns : List ℕ) × IsChain chains.now.below.items (slice_index_or chains.now.heads.items end 0) ns }
    ensures { OnOk result ((ns : List ℕ) → IsChain chains.now.below.items (slice_index_or chains.now.heads.items end 0) ns → nodes.new.items ≡ ns) }
{
    nodes.clear();
    let mut head = head_at(&chains.heads, end as usize);
    'chain: while head > 0 {
        let node = head as usize - 1;
        nodes.push(node)?;
        head = link_at(&chains.below, node);
    }
    Ok(())
}

/// Lists those of the first nodes that end at a place. All of the first are noted then.
pub fn list_nodes(
    keys: &NodeKeys,
    first: usize,
    end: u32,
    chains: &mut Chains,
    nodes: &mut Vec<usize>,
) -> Result<(), AllocError>
    requires first { first ≤ length keys.now.keys }
    requires few { length chains.old.below.items ≤ first }
    requires chained { AreChained keys.now.keys chains.old.heads.items chains.old.below.items }
    ensures listed { OnOk result ((n : ℕ) → Contains nodes.new.items n ↔ ((n < first) × EndsAt keys.now.keys end n)) }
    ensures chained { OnOk result (AreChained keys.now.keys chains.new.heads.items chains.new.below.items) }
{
    for node in chains.below.as_slice().len()..first {
        link(chains, key_at(keys.as_slice(), node).end)?;
    }
    list_chain(chains, end, nodes)
}
