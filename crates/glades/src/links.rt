//! Where the choices of a forest's nodes lead, and which nodes are the first of a group.
ghost use Rattle.std.specs.Prelude.{◌≡◌, ℕ, ◌+◌, ◌<◌, ◌≤◌, ◌++◌, ◌∷◌, [], List, true, false, length, Some, IfOk, OnOk, slice_get, slice_set};
ghost use Rattle.grammar_model.specs.declared.Ranking.TheVariants.{Rule};
ghost use Rattle.forest_model.specs.Forest.{Wholes};
ghost use Rattle.bocage.specs.Rows.{cause_told};
ghost use Rattle.bocage.specs.Readers.{alternative_at, node_at};
ghost use Rattle.glade_laws.specs.Walks.{before_at, is_list_part, whole_nodes};
ghost use Rattle.glades.specs.Links.{AreLinks, AreNotes, all_noted, link_by, link_of, link_to, noted};

use bocage::{Alternatives, Cause, Forest};
use grammar_core::FlatSymbol;
use slif_base::{Steps, number};
use std::alloc::{AllocError, Global};
use std::sync::ledger::Ledger;

/// Where the choices of a node lead: nowhere, to one node, or to several, of which the first two count.
#[derive(Clone, Copy)]
pub enum Link {
    End,
    Next(u32),
    Fork { next: u32, fork: u32 },
}

/// The links of all nodes, and of each node that is the first of a group the next one of it, if there is one.
#[derive(Drop)]
pub struct Links {
    pub links: Vec<Link>,
    pub notes: Vec<Option<Option<u32>>>,
}

/// Whether the last part of a node is a list.
pub fn ends_with_list(forest: &Forest<'_>, node: u32) -> bool
    requires { node < length forest.now.nodes }
    ensures { result ≡ is_list_part forest.now (node_at forest.now node).key }
{
    forest.known();
    let key = forest.key(node);
    let flat = forest.flat();
    let symbol = flat.symbol(flat.rhs(key.rule)[key.dot as usize - 1]);
    matches!(symbol, FlatSymbol::Sequence(_))
}

fn by_choices(next: Option<u32>, fork: Option<u32>) -> Link
    ensures { result ≡ link_by next fork }
{
    match (next, fork) {
        (None, _) => Link::End,
        (Some(next), None) => Link::Next(next),
        (Some(next), Some(fork)) => Link::Fork { next, fork },
    }
}

// The link to the nodes of a cause.
fn list_link(cause: Cause<'_>) -> Link
    ensures { (nodes : List ℕ) → cause_told cause.entry ≡ Wholes nodes → result ≡ link_to nodes }
{
    match cause {
        Cause::Wholes(nodes) => by_choices(nodes.first().copied(), nodes.get(1).copied()),
        _ => Link::End,
    }
}

// The predecessor of an alternative, if there are so many.
fn predecessor_at(alternatives: &Alternatives<'_>, at: usize) -> Option<u32>
    ensures { result ≡ before_at (slice_get alternatives.now at) }
{
    if at < alternatives.len() {
        alternatives.predecessor(at)
    } else {
        None
    }
}

fn first_two(list: bool, alternatives: &Alternatives<'_>) -> Link
    requires { 0 < length alternatives.now }
    ensures list { list ≡ true → (nodes : List ℕ) →
        (alternative_at alternatives.now 0).cause ≡ Wholes nodes → result ≡ link_to nodes }
    ensures child { list ≡ false →
        result ≡
        link_by (before_at (slice_get alternatives.now 0))
        (before_at (slice_get alternatives.now 1)) }
{
    if list {
        list_link(alternatives.cause(0))
    } else {
        by_choices(
            predecessor_at(alternatives, 0),
            predecessor_at(alternatives, 1),
        )
    }
}

fn set_note(notes: &mut Vec<Option<Option<u32>>>, node: u32, next: Option<u32>)
    requires { node < length notes.old.items }
    ensures { notes.new.items ≡ slice_set notes.old.items node (Some next) }
{
    notes[node as usize] = Some(next);
}

// Notes the first node of a cause, with the next one.
fn note(cause: Cause<'_>, notes: &mut Vec<Option<Option<u32>>>)
    requires { (n : ℕ) → slice_get (whole_nodes (cause_told cause)) 0 ≡ Some n →
        n < length notes.old.items }
    ensures { notes.new.items ≡ noted (cause_told cause.entry) notes.old.items }
{
    if let Cause::Wholes(nodes) = cause {
        if let Some(first) = nodes.first().copied() {
            set_note(notes, first, nodes.get(1).copied());
        }
    }
}

// Notes the first nodes of all causes.
fn note_all(alternatives: &Alternatives<'_>, notes: &mut Vec<Option<Option<u32>>>)
    requires { (at n : ℕ) → at < length alternatives.now →
        slice_get (whole_nodes (alternative_at alternatives.now at).cause) 0 ≡ Some n →
        n < length notes.old.items }
    ensures { notes.new.items ≡ all_noted alternatives.now notes.old.items }
{
    for at in 0..alternatives.len() {
        note(alternatives.cause(at), notes);
    }
}

// Looks at a node.
fn visit<L: Ledger>(
    forest: &Forest<'_>,
    node: u32,
    found: &mut Links,
    steps: &mut Steps<L>,
) -> Result<(), AllocError>
    requires by_rules { forest.now.ranking ≡ Rule }
    requires node { node < length forest.now.nodes }
    requires long { length found.old.notes.items ≡ length forest.now.nodes }
    ensures links { OnOk result (found.new.links.items ≡
        found.old.links.items ++ link_of forest.now (node_at forest.now node) ∷ []) }
    ensures notes { OnOk result (found.new.notes.items ≡
        all_noted (node_at forest.now node).alternatives found.old.notes.items) }
    ensures counted { steps.new ≡ steps.old + 1 }
{
    forest.known();
    let alternatives = forest.alternatives(node, steps);
    note_all(&alternatives, &mut found.notes);
    found
        .links
        .push(first_two(ends_with_list(forest, node), &alternatives))?;
    Ok(())
}

/// Looks at each node once.
pub fn find_links<L: Ledger>(
    alloc: Global,
    forest: &Forest<'_>,
    steps: &mut Steps<L>,
) -> Result<Links, AllocError>
    requires { forest.now.ranking ≡ Rule }
    ensures links { IfOk result (λ found. AreLinks forest.now found.links.items) }
    ensures notes { IfOk result (λ found. AreNotes forest.now found.notes.items) }
    ensures counted { steps.new ≤ steps.old + length forest.now.nodes }
{
    forest.known();
    let count = forest.node_count();
    let mut notes = Vec::new(alloc);
    notes.resize(count, None)?;
    let mut found = Links {
        links: Vec::with_capacity(alloc, count)?,
        notes,
    };
    for node in 0..count {
        visit(forest, number(node)?, &mut found, steps)?;
    }
    Ok(found)
}
