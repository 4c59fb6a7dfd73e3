//! The heads of a report: the groups of slots that have two shapes, in the order of glades.
ghost use Rattle.std.specs.Prelude.{◌≡◌, ◌≢◌, ◌+◌, ◌<◌, ◌↔◌, true, false, None, length, Contains, IfOk, IfSome, IsNone, OnOk, ℕ, Some, slice_get};
ghost use Rattle.std.specs.List.Sorted.{IsStrictlySortedBy};
ghost use Rattle.glade_laws.specs.Walks.{HasSecond};
ghost use Rattle.glades.specs.declared.heads.Head.{Head};
ghost use Rattle.glades.specs.Links.{AreKnown, AreLinks, AreNotes, IsNote};
ghost use Rattle.glades.specs.Heads.{AreHeads, IsNoteOf, IsSlotAt, IsTold, PutsHead, head_cmp, last_place};

use crate::links::Link;
use crate::seconds::has_second;
use bocage::Forest;
use grammar_core::FlatSymbol;
use grammar_model::SymbolId;
use slif_base::number;
use std::alloc::{AllocError, Global};

/// A group of a slot over a span, by its first node. The derived order is that of glades: `back` is how far the end lies before the
/// greatest place.
#[derive(Clone, Copy, PartialEq, Eq, PartialOrd, Ord)]
pub struct Head {
    pub from: u32,
    pub back: u32,
    pub symbol: u32,
    pub level: u32,
    pub node: u32,
}

// Whether a group has two shapes, by its first node and the next one.
fn has_two(
    forest: &Forest<'_>,
    links: &[Link],
    seconds: &mut [Option<bool>],
    node: u32,
    next: Option<u32>,
) -> bool
    requires links { AreLinks forest.now links.now }
    requires known { AreKnown forest.now seconds.old }
    requires node { node < length forest.now.nodes }
    ensures two { result ≡ true → next ≡ None → HasSecond forest.now node true }
    ensures one { result ≡ false → (next ≡ None) × HasSecond forest.now node false }
    ensures known { AreKnown forest.now seconds.new }
{
    match next {
        Some(_) => true,
        None => has_second(forest, links, seconds, node),
    }
}

fn plain(symbol: SymbolId) -> u32
    ensures { result ≡ symbol }
{
    symbol.0
}

// How far an end lies before the greatest place.
fn back_of(end: u32) -> u32
    ensures { result + end ≡ last_place }
{
    u32::MAX - end
}

// The slot of a node's left side, if that is no list and no top.
fn slot_at(forest: &Forest<'_>, node: u32) -> Option<(u32, u32)>
    requires { node < length forest.now.nodes }
    ensures { IsSlotAt forest.now node result }
{
    forest.known();
    let flat = forest.flat();
    match flat.symbol(flat.lhs(forest.key(node).rule)) {
        FlatSymbol::Slot { symbol, level } => Some((plain(symbol), level)),
        _ => None,
    }
}

// The head of the group that a node begins. The group of a list has none, and neither has one with one shape.
fn head_of(
    forest: &Forest<'_>,
    links: &[Link],
    seconds: &mut [Option<bool>],
    node: u32,
    next: Option<u32>,
) -> Option<Head>
    requires links { AreLinks forest.now links.now }
    requires known { AreKnown forest.now seconds.old }
    requires node { node < length forest.now.nodes }
    requires note { IsNote forest.now node next }
    ensures head { IsTold forest.now node result }
    ensures known { AreKnown forest.now seconds.new }
{
    forest.known();
    let Some((symbol, level)) = slot_at(forest, node) else {
        return None;
    };
    if !has_two(forest, links, seconds, node, next) {
        return None;
    }
    let key = forest.key(node);
    Some(Head {
        from: key.origin,
        back: back_of(key.end),
        symbol,
        level,
        node,
    })
}

// Puts the head of the group that a node begins, if there is one.
fn put_head(
    forest: &Forest<'_>,
    links: &[Link],
    seconds: &mut [Option<bool>],
    node: u32,
    note: Option<Option<u32>>,
    heads: &mut Vec<Head>,
) -> Result<(), AllocError>
    requires links { AreLinks forest.now links.now }
    requires known { AreKnown forest.now seconds.old }
    requires node { node < length forest.now.nodes }
    requires note { IsNoteOf forest.now node note }
    ensures puts { OnOk result (PutsHead forest.now node heads.old.items heads.new.items) }
    ensures known { AreKnown forest.now seconds.new }
{
    let Some(next) = note else {
        return Ok(());
    };
    if let Some(head) = head_of(forest, links, seconds, node, next) {
        heads.push(head)?;
    }
    Ok(())
}

/// What is noted of a node.
pub fn note_at(notes: &[Option<Option<u32>>], node: usize) -> Option<Option<u32>>
    requires { node < length notes.now }
    ensures { slice_get notes.now node ≡ Some result }
{
    notes[node]
}

/// The heads of all groups that have two shapes.
pub fn find_heads(
    alloc: Global,
    forest: &Forest<'_>,
    links: &[Link],
    notes: &[Option<Option<u32>>],
    seconds: &mut [Option<bool>],
) -> Result<Vec<Head>, AllocError>
    requires links { AreLinks forest.now links.now }
    requires notes { AreNotes forest.now notes.now }
    requires known { AreKnown forest.now seconds.old }
    ensures heads { IfOk result (λ heads. AreHeads forest.now heads.items) }
    ensures known { AreKnown forest.now seconds.new }
{
    forest.known();
    let mut heads = Vec::new(alloc);
    for node in 0..notes.len() {
        let note = note_at(notes, node);
        put_head(forest, links, seconds, number(node)?, note, &mut heads)?;
    }
    Ok(heads)
}

/// Sorts heads, in the order of their glades.
pub fn sort(heads: &mut Vec<Head>) -> Result<(), AllocError>
    ensures sorted { OnOk result (IsStrictlySortedBy head_cmp heads.new.items) }
    ensures same { OnOk result ((head : Head) →
        Contains heads.new.items head ↔ Contains heads.old.items head) }
{
    heads.sort()?;
    heads.dedup();
    Ok(())
}
