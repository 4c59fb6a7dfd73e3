//! The walk over the places where nodes end, from the last to the first.
ghost use Rattle.std.specs.Prelude.{◌≡◌, ◌≢◌, AllPairs, ℕ, ◌<◌, ◌≤◌, ◌+◌, ◌-◌, ◌↔◌, ◌⊎◌, [], length, map, IfOk, OnOk, IfSome, IsNone, Contains, slice_get, Some};
ghost use Rattle.recognizer_model.specs.declared.NodeKey.{NodeKey as TheKey};
ghost use Rattle.earley_sets.specs.Recognizer.{IsRecognizer, earleme_of, set_at};
ghost use Rattle.forest_parts.specs.Hidden.{RisesWithin};
ghost use Rattle.bocage.specs.Given.{AreGivenFor, IsGivenAfter, IsAfterAt};
ghost use Rattle.bocage.specs.Needed.{AreNeeded};
ghost use Rattle.bocage.specs.Walk.{Knows, IsUsedIn, IsRead, GrowsBy, top_key};
ghost use Rattle.forest_parts.specs.Chains.{AreChained, EndsAt};
ghost use Rattle.bocage.specs.Ends.{SetsRow, Visits, Goes, HasRow, IsReady, IsGoing, AreVisited};
ghost use Rattle.bocage.specs.Walk.{AreGathered, AreNoted};
ghost use Rattle.bocage.specs.declared.rows.CauseRow.{CauseRow as TheCauseRow};

use crate::joins::{Join, list_joins};
use crate::rows::{AlternativeRow, CauseRow};
use crate::walk::{Found, Known, put_key};
use bumpalo::Bump;
use earley_sets::Recce;
use forest_parts::{
    Chains, Given, Group, NodeKeys, Part, key_at, list_groups, list_needed_after, list_nodes,
    list_parts, new_chains,
};
use grammar_core::Written;
use grammar_model::{Edge, Ranking};
use recognizer_model::{Item, NodeKey};
use slif_base::Steps;
use std::alloc::{AllocError, Global};
use std::sync::ledger::Ledger;

/// What is used again for each place.
#[derive(Drop)]
pub struct Work {
    pub chains: Chains,
    pub edges: Vec<Edge>,
    pub parts: Vec<Part>,
    pub groups: Vec<Group>,
    pub joins: Vec<Join>,
    pub nodes: Vec<usize>,
    pub tops: Vec<Item>,
    pub bottoms: Vec<Item>,
}

impl Work {
    /// Nothing done yet.
    pub fn new(alloc: Global) -> Work
        ensures heads { result.chains.heads.items ≡ [] }
        ensures below { result.chains.below.items ≡ [] }
    {
        Work {
            chains: new_chains(alloc),
            edges: Vec::new(alloc),
            parts: Vec::new(alloc),
            groups: Vec::new(alloc),
            joins: Vec::new(alloc),
            nodes: Vec::new(alloc),
            tops: Vec::new(alloc),
            bottoms: Vec::new(alloc),
        }
    }
}

// Sets the alternatives of a node. Those before it that have none yet get none.
fn set_row<'a>(
    table: &mut Vec<&'a [AlternativeRow]>,
    node: usize,
    rows: &'a [AlternativeRow],
) -> Result<(), AllocError>
    ensures { OnOk result (SetsRow (map (λ r. r.now) table.old.items) (map (λ r. r.now) table.new.items) node rows.now) }
{
    for k in table.as_slice().len()..node {
        table.push(&[])?;
    }
    if node < table.as_slice().len() {
        table[node] = rows;
    } else {
        table.push(rows)?;
    }
    Ok(())
}

// The least origin of nodes, where it is lower than the one that is given.
fn least_origin(keys: &NodeKeys, nodes: &[usize], least: u32) -> u32
    requires { (n : ℕ) → Contains nodes.now n → n < length keys.now.keys }
    ensures nodes { (n : ℕ) (key : TheKey) → Contains nodes.now n → slice_get keys.now.keys n ≡ Some key → result ≤ key.origin }
    ensures bound { result ≤ least }
    ensures met { (result ≡ least) ⊎ ((n : ℕ) × (key : TheKey) × Contains nodes.now n × (slice_get keys.now.keys n ≡ Some key) × (key.origin ≡ result)) }
{
    let mut lowest = least;
    for node in nodes {
        lowest = lowest.min(key_at(keys.as_slice(), *node).origin);
    }
    lowest
}

// Finds the alternatives of a node.
fn visit<'a>(
    known: &Known<'_>,
    arena: &'a Bump,
    node: usize,
    found: &mut Found,
    table: &mut Vec<&'a [AlternativeRow]>,
) -> Result<(), AllocError>
    requires knows { Knows known.now }
    requires node { IsReady known.now found.old.keys.keys node }
    requires noted { AreNoted known.now found.old }
    ensures { OnOk result (Visits known.now node found.old found.new (map (λ r. r.now) table.old.items) (map (λ r. r.now) table.new.items)) }
{
    let key = key_at(found.keys.as_slice(), node);
    found.alternatives.truncate(0);
    put_key(known, key, found)?;
    let rows = arena.try_alloc_slice_copy(found.alternatives.as_slice())?;
    set_row(table, node, rows)
}

// Finds the alternatives of nodes.
fn visit_listed<'a>(
    known: &Known<'_>,
    arena: &'a Bump,
    nodes: &[usize],
    found: &mut Found,
    table: &mut Vec<&'a [AlternativeRow]>,
) -> Result<(), AllocError>
    requires knows { Knows known.now }
    requires nodes { (n : ℕ) → Contains nodes.now n → IsReady known.now found.old.keys.keys n }
    requires noted { AreNoted known.now found.old }
    ensures goes { OnOk result (Goes known.now found.old found.new (map (λ r. r.now) table.old.items) (map (λ r. r.now) table.new.items)) }
    ensures have { OnOk result ((n : ℕ) (key : TheKey) → Contains nodes.now n → slice_get found.old.keys.keys n ≡ Some key →
        HasRow known.now.written.now known.now.ranking known.now.recce.now found.new.keys.keys
        found.new.wholes.items (map (λ r. r.now) table.new.items) n key) }
{
    for node in nodes {
        visit(known, arena, *node, found, table)?;
    }
    Ok(())
}

// Finds the alternatives of a node, if it ends here.
fn visit_here<'a>(
    known: &Known<'_>,
    arena: &'a Bump,
    node: usize,
    key: NodeKey,
    found: &mut Found,
    table: &mut Vec<&'a [AlternativeRow]>,
) -> Result<(), AllocError>
    requires knows { Knows known.now }
    requires node { slice_get found.old.keys.keys node ≡ Some key }
    requires ready { key.end ≡ known.now.end → IsReady known.now found.old.keys.keys node }
    requires noted { AreNoted known.now found.old }
    ensures goes { OnOk result (Goes known.now found.old found.new (map (λ r. r.now) table.old.items) (map (λ r. r.now) table.new.items)) }
    ensures has { OnOk result (key.end ≡ known.now.end →
        HasRow known.now.written.now known.now.ranking known.now.recce.now found.new.keys.keys
        found.new.wholes.items (map (λ r. r.now) table.new.items) node key) }
{
    if key.end == known.end {
        visit(known, arena, node, found, table)?;
    }
    Ok(())
}

// Finds the alternatives of the nodes that end here, from one number on, until no new one is met.
fn visit_new<'a>(
    known: &Known<'_>,
    arena: &'a Bump,
    first: usize,
    found: &mut Found,
    table: &mut Vec<&'a [AlternativeRow]>,
) -> Result<(), AllocError>
    requires knows { Knows known.now }
    requires first { first ≤ length found.old.keys.keys }
    requires noted { AreNoted known.now found.old }
    requires nodes { (n : ℕ) (key : TheKey) → first ≤ n →
        slice_get found.old.keys.keys n ≡ Some key → key.end ≡ known.now.end →
        IsReady known.now found.old.keys.keys n }
    ensures goes { OnOk result (Goes known.now found.old found.new (map (λ r. r.now) table.old.items) (map (λ r. r.now) table.new.items)) }
    ensures have { OnOk result ((n : ℕ) (key : TheKey) → first ≤ n → slice_get found.new.keys.keys n ≡ Some key → key.end ≡ known.now.end →
        HasRow known.now.written.now known.now.ranking known.now.recce.now found.new.keys.keys
        found.new.wholes.items (map (λ r. r.now) table.new.items) n key) }
{
    for node in first..usize::MAX {
        let Some(key) = found.keys.get_index(node).copied() else {
            return Ok(());
        };
        visit_here(known, arena, node, key, found, table)?;
    }
    let _count = found.keys.len();
    unreachable!()
}

// Notes nothing of so many groups.
fn forget(groups: usize, causes: &mut Vec<Option<CauseRow>>) -> Result<(), AllocError>
    ensures long { OnOk result (length causes.new.items ≡ groups) }
    ensures none { OnOk result ((n : ℕ) (cause : TheCauseRow) → slice_get causes.new.items n ≢ Some (Some cause)) }
{
    causes.clear();
    for k in 0..groups {
        causes.push(None)?;
    }
    Ok(())
}

// Lists what may be the cause in a node that ends at a place and does not begin too early, and what may stand before it.
fn gather(
    recce: &Recce<'_>,
    w: &Written,
    ranking: Ranking,
    end: u32,
    least: u32,
    hidden: &[Item],
    work: &mut Work,
) -> Result<(), AllocError>
    requires read { IsRead w.now recce.now }
    requires end { end ≤ earleme_of recce.now }
    requires hidden { AreNeeded w.now ranking recce.now end least hidden.now }
    ensures gathered { OnOk result (AreGathered w.now ranking recce.now end least work.new.parts.items work.new.groups.items work.new.joins.items) }
    ensures chains { work.new.chains ≡ work.old.chains }
    ensures nodes { work.new.nodes ≡ work.old.nodes }
{
    list_parts(
        recce,
        w,
        ranking,
        end,
        least,
        hidden,
        &mut work.edges,
        &mut work.parts,
    )?;
    list_groups(ranking, &work.parts, end, &mut work.groups)?;
    list_joins(recce, least, &work.groups, &mut work.joins)
}

// Finds the alternatives of the nodes that are given, which are the first that end here, and of all that are met here.
fn visit_gathered<'a>(
    known: &Known<'_>,
    arena: &'a Bump,
    nodes: &[usize],
    first: usize,
    found: &mut Found,
    table: &mut Vec<&'a [AlternativeRow]>,
) -> Result<(), AllocError>
    requires knows { Knows known.now }
    requires going { IsGoing known.now.written.now known.now.ranking known.now.recce.now known.now.end first found.old (map (λ r. r.now) table.old.items) }
    requires nodes { (n : ℕ) → Contains nodes.now n ↔ ((n < first) × EndsAt found.old.keys.keys known.now.end n) }
    requires least { (n : ℕ) (key : TheKey) → Contains nodes.now n → slice_get found.old.keys.keys n ≡ Some key → known.now.least ≤ key.origin }
    requires whole { known.now.end ≡ earleme_of known.now.recce.now → known.now.least ≡ 0 }
    ensures visited { OnOk result (AreVisited known.now.written.now known.now.ranking
        known.now.recce.now known.now.end found.new (map (λ r. r.now) table.new.items)) }
    ensures grows { OnOk result (GrowsBy (IsUsedIn known.now.written.now known.now.ranking known.now.recce.now) found.old.keys.keys found.new.keys.keys) }
{
    forget(known.groups.len(), &mut found.causes)?;
    visit_listed(known, arena, nodes, found, table)?;
    visit_new(known, arena, first, found, table)?;
    Ok(())
}

// Finds the alternatives of all nodes that end at a place: those of the first ones that do, and all that are met here. They begin at
// `least` or after it, if it is no greater than the origin of one of the first.
fn visit_from<'a>(
    recce: &Recce<'_>,
    w: &Written,
    ranking: Ranking,
    arena: &'a Bump,
    end: u32,
    least: u32,
    first: usize,
    hidden: &[Item],
    found: &mut Found,
    table: &mut Vec<&'a [AlternativeRow]>,
    work: &mut Work,
) -> Result<(), AllocError>
    requires read { IsRead w.now recce.now }
    requires end { end ≤ earleme_of recce.now }
    requires hidden { AreNeeded w.now ranking recce.now end least hidden.now }
    requires going { IsGoing w.now ranking recce.now end first found.old (map (λ r. r.now) table.old.items) }
    requires nodes { (n : ℕ) → Contains work.old.nodes.items n ↔ ((n < first) × EndsAt found.old.keys.keys end n) }
    requires least { (n : ℕ) (key : TheKey) → Contains work.old.nodes.items n → slice_get found.old.keys.keys n ≡ Some key → least ≤ key.origin }
    requires whole { end ≡ earleme_of recce.now → least ≡ 0 }
    ensures visited { OnOk result (AreVisited w.now ranking recce.now end found.new (map (λ r. r.now) table.new.items)) }
    ensures grows { OnOk result (GrowsBy (IsUsedIn w.now ranking recce.now) found.old.keys.keys found.new.keys.keys) }
    ensures chains { work.new.chains ≡ work.old.chains }
{
    gather(recce, w, ranking, end, least, hidden, work)?;
    let known = Known {
        recce: &*recce,
        written: &*w,
        ranking,
        end,
        least,
        parts: &work.parts,
        groups: &work.groups,
        joins: &work.joins,
    };
    visit_gathered(&known, arena, &work.nodes, first, found, table)
}

// Finds the alternatives of all nodes that end at a place. Hidden items that were brought back before are not asked for again.
fn visit_end<'a, L: Ledger>(
    alloc: Global,
    recce: &Recce<'_>,
    w: &Written,
    ranking: Ranking,
    arena: &'a Bump,
    end: u32,
    first: usize,
    given: &Given,
    found: &mut Found,
    table: &mut Vec<&'a [AlternativeRow]>,
    work: &mut Work,
    steps: &mut Steps<L>,
) -> Result<(), AllocError>
    requires read { IsRead w.now recce.now }
    requires end { end ≤ earleme_of recce.now }
    requires going { IsGoing w.now ranking recce.now end first found.old (map (λ r. r.now) table.old.items) }
    requires given { AreGivenFor w.now ranking recce.now given.now }
    requires few { length work.old.chains.below.items ≤ first }
    requires chained { AreChained found.old.keys.keys work.old.chains.heads.items work.old.chains.below.items }
    ensures chained { OnOk result (AreChained found.new.keys.keys work.new.chains.heads.items work.new.chains.below.items) }
    ensures visited { OnOk result (AreVisited w.now ranking recce.now end found.new (map (λ r. r.now) table.new.items)) }
    ensures grows { OnOk result (GrowsBy (IsUsedIn w.now ranking recce.now) found.old.keys.keys found.new.keys.keys) }
    ensures counted { RisesWithin (IsAfterAt w.now ranking recce.now given.now end) steps.old steps.new }
{
    list_nodes(&found.keys, first, end, &mut work.chains, &mut work.nodes)?;
    let whole = end == recce.place();
    if work.nodes.as_slice().is_empty() && !whole {
        return Ok(());
    }
    let lowest = if whole { 0 } else { end };
    let least = least_origin(&found.keys, &work.nodes, lowest);
    let hidden = list_needed_after(
        alloc,
        recce,
        w,
        ranking,
        &found.keys,
        end,
        least,
        given,
        &mut work.tops,
        &mut work.bottoms,
        steps,
    )?;
    visit_from(
        recce, w, ranking, arena, end, least, first, &hidden, found, table, work,
    )
}

/// Finds the alternatives of all nodes that are met from the first ones.
pub fn walk<'a, L: Ledger>(
    alloc: Global,
    recce: &Recce<'_>,
    w: &Written,
    ranking: Ranking,
    arena: &'a Bump,
    given: &Given,
    found: &mut Found,
    work: &mut Work,
    steps: &mut Steps<L>,
) -> Result<Vec<&'a [AlternativeRow]>, AllocError>
    requires read { IsRead w.now recce.now }
    requires given { AreGivenFor w.now ranking recce.now given.now }
    requires used { (key : TheKey) → Contains found.old.keys.keys key → IsUsedIn w.now ranking recce.now key × (key.end ≡ earleme_of recce.now) }
    requires top { 0 < earleme_of recce.now → Contains found.old.keys.keys (top_key recce.now) }
    requires heads { work.old.chains.heads.items ≡ [] }
    requires below { work.old.chains.below.items ≡ [] }
    ensures visited { IfOk result (λ table. AreVisited w.now ranking recce.now 0 found.new (map (λ r. r.now) table.items)) }
    ensures grows { OnOk result (GrowsBy (IsUsedIn w.now ranking recce.now) found.old.keys.keys found.new.keys.keys) }
    ensures counted { RisesWithin (IsGivenAfter w.now ranking recce.now given.now) steps.old steps.new }
{
    let mut table = Vec::new(alloc);
    let earleme = recce.place();
    visit_end(
        alloc, recce, w, ranking, arena, earleme, 0, given, found, &mut table, work, steps,
    )?;
    for back in 0..earleme {
        let first = found.keys.as_slice().len();
        let end = earleme - 1 - back;
        visit_end(
            alloc, recce, w, ranking, arena, end, first, given, found, &mut table, work, steps,
        )?;
    }
    Ok(table)
}
