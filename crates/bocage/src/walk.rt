//! The alternatives of a node: each node that is met gets a number, and its predecessors are joined with their causes.
ghost use Rattle.std.specs.Prelude.{◌≡◌, ◌≢◌, AllPairs, ℕ, ◌<◌, ◌≤◌, ◌+◌, ◌-◌, ◌↔◌, ◌⊎◌, [], ◌∷◌, length, map, IfOk, OnOk, IfSome, IsTrue, IsFalse, Contains, slice_get, Some};
ghost use Rattle.recognizer_model.specs.Flat.{IsNullable, IsRule, rhs_of};
ghost use Rattle.earley_sets.specs.Recognizer.{IsRecognizer, earleme_of, set_at};
ghost use Rattle.forest_parts.specs.declared.parts.Part.{Part as ThePart};
ghost use Rattle.bocage.specs.declared.rows.CauseRow.{CauseRow as TheCauseRow};
ghost use Rattle.bocage.specs.Joins.{predecessor_of_join};
ghost use Rattle.bocage.specs.Walk.{FitsPart, GrowsBy, whole_keys, AddsWholes, IsPredecessorFound, IsCauseFound, node_of_item, Knows, Lists, AreNoted, IsCauseNoted, AreJoinsOf, IsNext, IsNew, BeginsIn, MayBegin, ListsKey, IsBegun, is_high, IsUsedIn};

use crate::joins::{Join, joins_of};
use crate::rows::{AlternativeRow, CauseRow};
use earley_sets::Recce;
use forest_parts::{Group, NodeKeys, Part, is_null_high, parts_between};
use grammar_core::{Flat, Written};
use grammar_model::Ranking;
use indexmap::IndexSet;
use recognizer_model::{Item, NodeKey};
use slif_base::number;
use smallvec::SmallVec;
use std::alloc::{AllocError, Global};
use std::hash::BuildHasherDefault;

/// What is looked up where nodes end at one place: the parts that end there and begin at `least` or after it.
#[derive(Clone, Copy, Drop)]
pub struct Known<'k> {
    pub recce: &'k Recce<'k>,
    pub written: &'k Written,
    pub ranking: Ranking,
    pub end: u32,
    pub least: u32,
    pub parts: &'k [Part],
    pub groups: &'k [Group],
    pub joins: &'k [Join],
}

/// Nodes by their numbers, the alternatives of the one that is looked at, and the nodes of whole rules.
#[derive(Drop)]
pub struct Found {
    pub keys: NodeKeys,
    pub alternatives: SmallVec<AlternativeRow, 4>,
    pub wholes: Vec<u32>,
    /// the cause of each group of the place, once it was asked for
    pub causes: Vec<Option<CauseRow>>,
}

impl Found {
    /// Nothing found yet.
    pub fn new(alloc: Global) -> Found
        ensures { result.keys.keys ≡ [] }
    {
        Found {
            keys: IndexSet::with_hasher(alloc, BuildHasherDefault::new()),
            alternatives: SmallVec::new(alloc),
            wholes: Vec::new(alloc),
            causes: Vec::new(alloc),
        }
    }
}

// The number of a node, which becomes a new one if there is none of the key.
fn number_of(keys: &mut NodeKeys, key: NodeKey) -> Result<u32, AllocError>
    ensures number { IfOk result (λ n. slice_get keys.new.keys n ≡ Some key) }
    ensures grows { OnOk result (GrowsBy (λ k. k ≡ key) keys.old.keys keys.new.keys) }
{
    let (at, _) = keys.insert_full(key)?;
    number(at)
}

// The number of the predecessor, if there are parts before the last one.
fn predecessor_of(
    keys: &mut NodeKeys,
    predecessor: Item,
    end: u32,
) -> Result<Option<u32>, AllocError>
    ensures predecessor { IfOk result (λ n. IsPredecessorFound keys.new.keys predecessor end n) }
    ensures grows { OnOk result (GrowsBy (λ k. (0 < predecessor.dot) × (k ≡ node_of_item predecessor end)) keys.old.keys keys.new.keys) }
{
    if predecessor.dot == 0 {
        return Ok(None);
    }
    Ok(Some(number_of(
        keys,
        NodeKey {
            rule: predecessor.rule,
            dot: predecessor.dot,
            origin: predecessor.origin,
            end,
        },
    )?))
}

// Puts the node of a whole rule.
fn put_whole(
    flat: &Flat,
    part: Part,
    keys: &mut NodeKeys,
    wholes: &mut Vec<u32>,
) -> Result<(), AllocError>
    requires { FitsPart flat.now part }
    ensures numbers { OnOk result (AddsWholes keys.new.keys (whole_keys flat.now (part ∷ [])) wholes.old.items wholes.new.items) }
    ensures grows { OnOk result (GrowsBy (λ k. Contains (whole_keys flat.now (part ∷ [])) k) keys.old.keys keys.new.keys) }
{
    flat.known();
    if let Some(whole) = part.whole {
        let node = number_of(
            keys,
            NodeKey {
                rule: whole.rule,
                dot: flat.rhs(whole.rule).len() as u32,
                origin: part.end - part.length,
                end: part.end,
            },
        )?;
        wholes.push(node)?;
    }
    Ok(())
}

// Puts the nodes of whole rules.
fn put_wholes(
    flat: &Flat,
    parts: &[Part],
    keys: &mut NodeKeys,
    wholes: &mut Vec<u32>,
) -> Result<(), AllocError>
    requires { (p : ThePart) → Contains parts.now p → FitsPart flat.now p }
    ensures numbers { OnOk result (AddsWholes keys.new.keys (whole_keys flat.now parts.now) wholes.old.items wholes.new.items) }
    ensures grows { OnOk result (GrowsBy (λ k. Contains (whole_keys flat.now parts.now) k) keys.old.keys keys.new.keys) }
{
    for part in parts {
        put_whole(flat, *part, keys, wholes)?;
    }
    Ok(())
}

// The cause of parts over one span.
fn cause_of(
    flat: &Flat,
    parts: &[Part],
    keys: &mut NodeKeys,
    wholes: &mut Vec<u32>,
) -> Result<CauseRow, AllocError>
    requires some { 0 < length parts.now }
    requires fits { (p : ThePart) → Contains parts.now p → FitsPart flat.now p }
    ensures cause { IfOk result (λ cause. IsCauseFound flat.now parts.now keys.new.keys wholes.old.items wholes.new.items cause) }
    ensures grows { OnOk result (GrowsBy (λ k. Contains (whole_keys flat.now parts.now) k) keys.old.keys keys.new.keys) }
{
    if parts[0].whole.is_none() {
        return Ok(CauseRow::Edge);
    }
    let first = number(wholes.len())?;
    put_wholes(flat, parts, keys, wholes)?;
    Ok(CauseRow::Wholes {
        first,
        end: number(wholes.len())?,
    })
}

// What is noted of a group.
fn noted_cause(causes: &[Option<CauseRow>], at: usize) -> Option<CauseRow>
    requires { at < length causes.now }
    ensures { IfSome result (λ cause. slice_get causes.now at ≡ Some (Some cause)) }
{
    causes[at]
}

// Notes the cause of a group.
fn note_cause(causes: &mut Vec<Option<CauseRow>>, at: usize, cause: CauseRow)
    requires { at < length causes.old.items }
    ensures long { length causes.new.items ≡ length causes.old.items }
    ensures each { (n : ℕ) (held : TheCauseRow) → slice_get causes.new.items n ≡ Some (Some held) →
        (slice_get causes.old.items n ≡ Some (Some held)) ⊎ ((n ≡ at) × (held ≡ cause)) }
{
    causes[at] = Some(cause);
}

// The cause of a group. Its nodes are numbered once, for all alternatives.
fn cause_of_group(
    known: &Known<'_>,
    group: Group,
    at: usize,
    found: &mut Found,
) -> Result<CauseRow, AllocError>
    requires knows { Knows known.now }
    requires group { slice_get known.now.groups.now at ≡ Some group }
    requires noted { AreNoted known.now found.old }
    ensures { IfOk result (λ cause. IsCauseNoted known.now group found.old found.new cause) }
{
    if let Some(cause) = noted_cause(&found.causes, at) {
        return Ok(cause);
    }
    let parts = parts_between(known.parts, group.first, group.past);
    let cause = cause_of(
        known.recce.flat(),
        parts,
        &mut found.keys,
        &mut found.wholes,
    )?;
    note_cause(&mut found.causes, at, cause);
    Ok(cause)
}

// Puts the alternative of a group.
fn put_alternative(
    known: &Known<'_>,
    predecessor: Item,
    group: Group,
    at: usize,
    found: &mut Found,
) -> Result<(), AllocError>
    requires knows { Knows known.now }
    requires group { slice_get known.now.groups.now at ≡ Some group }
    requires noted { AreNoted known.now found.old }
    requires next { IsNext known.now predecessor group.symbol }
    requires there { Contains (set_at known.now.recce.now group.start) predecessor }
    ensures { OnOk result (Lists known.now predecessor group.symbol (λ m. m ≡ group.start) found.old found.new) }
{
    let start = group.start;
    let predecessor = predecessor_of(&mut found.keys, predecessor, start)?;
    let cause = cause_of_group(known, group, at, found)?;
    found.alternatives.push(AlternativeRow {
        start,
        predecessor,
        cause,
    })?;
    Ok(())
}

// Puts the alternatives of joins, which all have the item.
fn put_alternatives(
    known: &Known<'_>,
    predecessor: Item,
    symbol: u32,
    joins: &[Join],
    found: &mut Found,
) -> Result<(), AllocError>
    requires knows { Knows known.now }
    requires joins { AreJoinsOf known.now predecessor joins.now }
    requires noted { AreNoted known.now found.old }
    requires next { IsNext known.now predecessor symbol }
    ensures { OnOk result (Lists known.now predecessor symbol (BeginsIn known.now joins.now) found.old found.new) }
{
    for join in joins {
        let at = join.group as usize;
        put_alternative(known, predecessor, known.groups[at], at, found)?;
    }
    Ok(())
}

// Puts the alternative whose cause spans nothing, if there is one.
fn put_nothing(
    known: &Known<'_>,
    predecessor: Item,
    symbol: u32,
    found: &mut Found,
) -> Result<(), AllocError>
    requires knows { Knows known.now }
    requires next { IsNext known.now predecessor symbol }
    requires noted { AreNoted known.now found.old }
    ensures { OnOk result (Lists known.now predecessor symbol (λ m. (m ≡ known.now.end) × IsNullable known.now.recce.now.flat symbol) found.old found.new) }
{
    if known.recce.flat().nullable(symbol) && known.recce.has(known.end, predecessor) {
        let predecessor = predecessor_of(&mut found.keys, predecessor, known.end)?;
        found.alternatives.push(AlternativeRow {
            start: known.end,
            predecessor,
            cause: CauseRow::Nothing,
        })?;
    }
    Ok(())
}

// Puts the alternatives of a node whose rule puts nulled causes first.
fn put_nothing_first(
    known: &Known<'_>,
    predecessor: Item,
    symbol: u32,
    joins: &[Join],
    found: &mut Found,
) -> Result<(), AllocError>
    requires knows { Knows known.now }
    requires high { IsTrue (is_high known.now predecessor) }
    requires joins { AreJoinsOf known.now predecessor joins.now }
    requires noted { AreNoted known.now found.old }
    requires next { IsNext known.now predecessor symbol }
    ensures { OnOk result (Lists known.now predecessor symbol (MayBegin known.now symbol) found.old found.new) }
{
    put_nothing(known, predecessor, symbol, found)?;
    put_alternatives(known, predecessor, symbol, joins, found)
}

// Puts the alternatives of a node whose rule puts nulled causes last.
fn put_nothing_last(
    known: &Known<'_>,
    predecessor: Item,
    symbol: u32,
    joins: &[Join],
    found: &mut Found,
) -> Result<(), AllocError>
    requires knows { Knows known.now }
    requires low { IsFalse (is_high known.now predecessor) }
    requires joins { AreJoinsOf known.now predecessor joins.now }
    requires noted { AreNoted known.now found.old }
    requires next { IsNext known.now predecessor symbol }
    ensures { OnOk result (Lists known.now predecessor symbol (MayBegin known.now symbol) found.old found.new) }
{
    put_alternatives(known, predecessor, symbol, joins, found)?;
    put_nothing(known, predecessor, symbol, found)
}

// Puts the alternatives of a node.
fn put_node(
    known: &Known<'_>,
    predecessor: Item,
    symbol: u32,
    found: &mut Found,
) -> Result<(), AllocError>
    requires knows { Knows known.now }
    requires rule { IsRule known.now.recce.now.flat predecessor.rule }
    requires next { IsNext known.now predecessor symbol }
    requires noted { AreNoted known.now found.old }
    ensures { OnOk result (Lists known.now predecessor symbol (MayBegin known.now symbol) found.old found.new) }
{
    let joins = joins_of(known.joins, predecessor);
    if is_null_high(known.recce.flat(), known.written, predecessor.rule) {
        put_nothing_first(known, predecessor, symbol, joins, found)
    } else {
        put_nothing_last(known, predecessor, symbol, joins, found)
    }
}

/// Puts the alternatives of a node by its key.
pub fn put_key(known: &Known<'_>, key: NodeKey, found: &mut Found) -> Result<(), AllocError>
    requires knows { Knows known.now }
    requires used { IsUsedIn known.now.written.now known.now.ranking known.now.recce.now key }
    requires end { key.end ≡ known.now.end }
    requires least { known.now.least ≤ key.origin }
    requires noted { AreNoted known.now found.old }
    ensures { OnOk result (ListsKey known.now key found.old found.new) }
{
    let predecessor = Item {
        rule: key.rule,
        dot: key.dot - 1,
        origin: key.origin,
    };
    let symbol = known.recce.flat().rhs(key.rule)[predecessor.dot as usize];
    put_node(known, predecessor, symbol, found)
}

/// Begins with the node of the whole, if it spans something.
pub fn begin(recce: &Recce<'_>, keys: &mut NodeKeys) -> Result<Option<u32>, AllocError>
    requires { keys.old.keys ≡ [] }
    ensures root { IfOk result (λ root. IsBegun recce.now keys.new.keys root) }
    ensures is { OnOk result (IsRecognizer recce.now) }
{
    if recce.place() == 0 {
        return Ok(None);
    }
    let flat = recce.flat();
    let top = flat.top(recce.start());
    Ok(Some(number_of(
        keys,
        NodeKey {
            rule: top,
            dot: flat.rhs(top).len() as u32,
            origin: 0,
            end: recce.place(),
        },
    )?))
}

/// States that no node has two numbers.
pub fn differ(keys: &NodeKeys)
    ensures { AllPairs (λ x y. x ≢ y) keys.now.keys }
{
    let _keys = keys.as_slice();
}
