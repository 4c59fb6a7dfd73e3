//! The report: each head made a glade.
ghost use Rattle.std.specs.Prelude.{◌≡◌, ◌+◌, ◌<◌, ◌≤◌, ℕ, List, [], Some, None, true, length, slice_get, Contains, IfOk, OnOk};
ghost use Rattle.std.specs.List.Sorted.{IsStrictlySortedBy};
ghost use Rattle.grammar_model.specs.declared.Ranking.TheVariants.{Rule};
ghost use Rattle.glade_model.specs.Glades.{AreGlades};
ghost use Rattle.glade_laws.specs.Walks.{HasSecond, IsFirst, IsSecond};
ghost use Rattle.glade_laws.specs.Groups.{start_of, ComesFrom};
ghost use Rattle.glades.specs.declared.heads.Head.{Head as TheHead};
ghost use Rattle.glades.specs.Links.{AreKnown, AreLinks, AreNotes, IsNote};
ghost use Rattle.glades.specs.Heads.{AreGladesOf, AreHeads, HasRule, IsGladeOf, IsHead, IsOther, head_cmp};

use crate::heads::{Head, find_heads, note_at, sort};
use crate::links::{Link, find_links};
use crate::seconds::has_second;
use crate::shapes::{push_first, push_second, turn};
use crate::types::{Glade, Shape};
use bocage::Forest;
use grammar_core::{FlatSource, Written};
use grammar_model::{RuleId, SymbolId};
use slif_base::Steps;
use std::alloc::{AllocError, Global};
use std::sync::ledger::Ledger;

// The written rule of a node.
fn rule_of(forest: &Forest<'_>, node: u32) -> RuleId
    requires node { node < length forest.now.nodes }
    requires rule { HasRule forest.now node }
    ensures { ComesFrom forest.now node result }
{
    forest.known();
    match forest.flat().origin_of(forest.key(node).rule) {
        FlatSource::Written(rule) => rule,
        FlatSource::Top(_) => unreachable!(),
    }
}

// The first shape of a node.
fn first_shape(
    alloc: Global,
    forest: &Forest<'_>,
    links: &[Link],
    node: u32,
    back: &mut Vec<u32>,
) -> Result<Shape, AllocError>
    requires links { AreLinks forest.now links.now }
    requires node { node < length forest.now.nodes }
    requires rule { HasRule forest.now node }
    requires empty { back.old.items ≡ [] }
    ensures shape { IfOk result (λ shape. ComesFrom forest.now node shape.rule ×
        IsFirst forest.now node shape.starts) }
    ensures empty { OnOk result (back.new.items ≡ []) }
{
    push_first(forest, links, node, back)?;
    let starts = turn(alloc, back)?;
    let rule = rule_of(forest, node);
    Ok(Shape { rule, starts })
}

// The second shape of a node.
fn second_shape(
    alloc: Global,
    forest: &Forest<'_>,
    links: &[Link],
    seconds: &mut [Option<bool>],
    node: u32,
    back: &mut Vec<u32>,
) -> Result<Shape, AllocError>
    requires links { AreLinks forest.now links.now }
    requires known { AreKnown forest.now seconds.old }
    requires node { node < length forest.now.nodes }
    requires rule { HasRule forest.now node }
    requires second { HasSecond forest.now node true }
    requires empty { back.old.items ≡ [] }
    ensures shape { IfOk result (λ shape. ComesFrom forest.now node shape.rule ×
        ((starts : List ℕ) × IsSecond forest.now node starts shape.starts)) }
    ensures empty { OnOk result (back.new.items ≡ []) }
    ensures known { AreKnown forest.now seconds.new }
{
    push_second(forest, links, seconds, node, back)?;
    let starts = turn(alloc, back)?;
    let rule = rule_of(forest, node);
    Ok(Shape { rule, starts })
}

// The second shape of a group: of its first node where that has one, else the first of the next node.
fn other_shape(
    alloc: Global,
    forest: &Forest<'_>,
    links: &[Link],
    seconds: &mut [Option<bool>],
    node: u32,
    next: Option<u32>,
    back: &mut Vec<u32>,
) -> Result<Shape, AllocError>
    requires links { AreLinks forest.now links.now }
    requires known { AreKnown forest.now seconds.old }
    requires node { node < length forest.now.nodes }
    requires rule { HasRule forest.now node }
    requires next { (m : ℕ) → next ≡ Some m → (m < length forest.now.nodes) × HasRule forest.now m }
    requires two { next ≡ None → HasSecond forest.now node true }
    requires empty { back.old.items ≡ [] }
    ensures shape { IfOk result (λ shape. IsOther forest.now node next shape) }
    ensures empty { OnOk result (back.new.items ≡ []) }
    ensures known { AreKnown forest.now seconds.new }
{
    if has_second(forest, links, seconds, node) {
        return second_shape(alloc, forest, links, seconds, node, back);
    }
    match next {
        Some(next) => first_shape(alloc, forest, links, next, back),
        None => unreachable!(),
    }
}

// The next node of a head's group, if there is one.
fn next_of(forest: &Forest<'_>, notes: &[Option<Option<u32>>], head: Head) -> Option<u32>
    requires by_rules { forest.now.ranking ≡ Rule }
    requires notes { AreNotes forest.now notes.now }
    requires head { IsHead forest.now head }
    ensures { IsNote forest.now head.node result }
{
    forest.known();
    match note_at(notes, head.node as usize) {
        Some(next) => next,
        None => unreachable!(),
    }
}

// The glade of a head.
fn glade_of(
    alloc: Global,
    forest: &Forest<'_>,
    links: &[Link],
    seconds: &mut [Option<bool>],
    head: Head,
    next: Option<u32>,
    back: &mut Vec<u32>,
) -> Result<Glade, AllocError>
    requires links { AreLinks forest.now links.now }
    requires known { AreKnown forest.now seconds.old }
    requires head { IsHead forest.now head }
    requires next { IsNote forest.now head.node next }
    requires empty { back.old.items ≡ [] }
    ensures glade { IfOk result (λ glade. IsGladeOf forest.now head glade) }
    ensures empty { OnOk result (back.new.items ≡ []) }
    ensures known { AreKnown forest.now seconds.new }
{
    forest.known();
    let first = first_shape(alloc, forest, links, head.node, back)?;
    let second = other_shape(alloc, forest, links, seconds, head.node, next, back)?;
    Ok(Glade {
        symbol: SymbolId(head.symbol),
        level: head.level,
        from: head.from,
        to: u32::MAX - head.back,
        first,
        second,
    })
}

fn head_at(heads: &[Head], k: usize) -> Head
    requires { k < length heads.now }
    ensures { slice_get heads.now k ≡ Some result }
{
    heads[k]
}

// The glades of heads.
fn glades_of(
    alloc: Global,
    forest: &Forest<'_>,
    links: &[Link],
    notes: &[Option<Option<u32>>],
    seconds: &mut [Option<bool>],
    heads: &[Head],
) -> Result<Vec<Glade>, AllocError>
    requires links { AreLinks forest.now links.now }
    requires notes { AreNotes forest.now notes.now }
    requires known { AreKnown forest.now seconds.old }
    requires heads { (head : TheHead) → Contains heads.now head → IsHead forest.now head }
    ensures { IfOk result (λ glades. AreGladesOf forest.now heads.now glades.items) }
{
    let mut back = Vec::new(alloc);
    let mut glades = Vec::with_capacity(alloc, heads.len())?;
    for k in 0..heads.len() {
        let head = head_at(heads, k);
        let next = next_of(forest, notes, head);
        let glade = glade_of(alloc, forest, links, seconds, head, next, &mut back)?;
        glades.push(glade)?;
    }
    Ok(glades)
}

// Nothing is known of second choices.
fn unknown(alloc: Global, forest: &Forest<'_>) -> Result<Vec<Option<bool>>, AllocError>
    ensures { IfOk result (λ seconds. AreKnown forest.now seconds.items) }
{
    let mut seconds = Vec::new(alloc);
    seconds.resize(forest.node_count(), None)?;
    Ok(seconds)
}

/// The report of a reading's glades: each slot over a span that a derivation uses and whose trees have more than one shape, with the
/// first two in the declared order. `w` is the grammar that the forest was built with, and the forest's ranking goes by rules. Each
/// node's alternatives are looked at once, which is one step.
pub fn report_glades<L: Ledger>(
    alloc: Global,
    forest: &Forest<'_>,
    w: &Written,
    steps: &mut Steps<L>,
) -> Result<Vec<Glade>, AllocError>
    requires ranking { forest.now.ranking ≡ Rule }
    requires built { forest.now.written ≡ w.now }
    ensures report { IfOk result (λ glades. AreGlades forest.now.written forest.now.edges
        (start_of forest.now) forest.now.place glades.items) }
    ensures counted { steps.new ≤ steps.old + length forest.now.nodes }
{
    forest.known();
    let found = find_links(alloc, forest, steps)?;
    let mut seconds = unknown(alloc, forest)?;
    let mut heads = find_heads(alloc, forest, &found.links, &found.notes, &mut seconds)?;
    sort(&mut heads)?;
    let glades = glades_of(
        alloc,
        forest,
        &found.links,
        &found.notes,
        &mut seconds,
        &heads,
    )?;
    Ok(glades)
}
