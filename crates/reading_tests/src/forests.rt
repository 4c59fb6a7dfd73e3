//! Forests of small grammars: how many nodes, alternatives and derivations they have, and the order of their first choices, all
//! counted by hand.
ghost use Rattle.std.specs.Prelude.{◌≡◌, ◌+◌, ◌<◌, length};

use crate::readings::{Row, Wanted};
use bocage::{Alternatives, Cause, Forest};
use grammar_core::{FlatSource, RuleId};
use grammar_model::Ranking;
use row_readings::{COMMAS, HIGH, Input, LOW, Language, PIECES, SUM, are_rows};
use slif_base::Steps;
use std::alloc::{AllocError, Global};
use std::sync::ledger::Ledger;
use std::test::Fail;

/// A number of a written rule, and where its last part may begin.
pub(crate) type Starts = (u32, &'static [u32]);

/// S -> P | Q with a higher rank, P -> x, Q -> x
pub(crate) const RANKED: Language = Language {
    names: &["S", "P", "Q", "x"],
    lines: &[
        (0, &[1], 0, false),
        (0, &[2], 5, false),
        (1, &[3], 0, false),
        (2, &[3], 0, false),
    ],
    lists: &[],
};

static ROWS: &[Row<'static>] = &[
    // Three operands. The whole: top, three sums, three predecessors of two parts, three of one, three numbers.
    (
        SUM,
        Input::Row(&[1, 2, 1, 2, 1]),
        Ranking::Rule,
        Wanted::Forest(13, 14, 2, &[(0, &[4, 2])]),
    ),
    // Four operands: top, six sums, six predecessors of two parts, six of one, four numbers; sums have 10 alternatives.
    (
        SUM,
        Input::Row(&[1, 2, 1, 2, 1, 2, 1]),
        Ranking::None,
        Wanted::Forest(23, 27, 5, &[(0, &[6, 4, 2])]),
    ),
    (
        SUM,
        Input::Row(&[1]),
        Ranking::Rule,
        Wanted::Forest(2, 2, 1, &[(1, &[0])]),
    ),
    (SUM, Input::Row(&[1, 2]), Ranking::Rule, Wanted::NoParse),
    (SUM, Input::Row(&[]), Ranking::Rule, Wanted::NoParse),
    // Nothing is read, and the start is nullable.
    (
        LOW,
        Input::Row(&[]),
        Ranking::Rule,
        Wanted::Forest(0, 0, 1, &[]),
    ),
    (
        LOW,
        Input::Row(&[2]),
        Ranking::Rule,
        Wanted::Forest(5, 6, 2, &[(0, &[0, 1])]),
    ),
    (
        HIGH,
        Input::Row(&[2]),
        Ranking::None,
        Wanted::Forest(5, 6, 2, &[(0, &[1, 0])]),
    ),
    (
        HIGH,
        Input::Row(&[2, 2]),
        Ranking::Rule,
        Wanted::Forest(5, 5, 1, &[(0, &[1])]),
    ),
    (
        RANKED,
        Input::Row(&[3]),
        Ranking::Rule,
        Wanted::Forest(5, 5, 2, &[(1, &[0]), (0, &[0])]),
    ),
    (
        RANKED,
        Input::Row(&[3]),
        Ranking::None,
        Wanted::Forest(5, 5, 2, &[(0, &[0]), (1, &[0])]),
    ),
    (
        COMMAS,
        Input::Row(&[1, 2, 1]),
        Ranking::Rule,
        Wanted::Forest(6, 6, 1, &[(0, &[0])]),
    ),
    // A separator stands last.
    (
        COMMAS,
        Input::Row(&[1, 2, 1, 2]),
        Ranking::Rule,
        Wanted::Forest(7, 7, 1, &[(0, &[3])]),
    ),
    // Three pieces of one, or two, of which one is of two.
    (
        PIECES,
        Input::Row(&[2, 2, 2]),
        Ranking::Rule,
        Wanted::Forest(15, 16, 3, &[(0, &[0])]),
    ),
];

// Each look at a node is one step.
fn look_twice<L: Ledger>(forest: &Forest<'_>, steps: &mut Steps<L>) -> bool
    requires { 0 < length forest.now.nodes }
    ensures { steps.new ≡ steps.old + 2 }
{
    let first = forest.alternatives(0, steps).len();
    let second = forest.alternatives(0, steps).len();
    first == second && first > 0
}

// How many alternatives all nodes have.
fn alternative_count<L: Ledger>(forest: &Forest<'_>, steps: &mut Steps<L>) -> usize {
    let mut count: usize = 0;
    for n in 0..forest.node_count() {
        if let Ok(n) = u32::try_from(n) {
            count = count.saturating_add(forest.alternatives(n, steps).len());
        }
    }
    count
}

fn count_at(counts: &[u64], node: u32) -> u64 {
    counts.get(node as usize).copied().unwrap_or(0)
}

// How many ways the last part of an alternative has, by those of the nodes.
fn last_count(counts: &[u64], last: Cause<'_>) -> u64 {
    match last {
        Cause::Edge | Cause::Nothing => 1,
        Cause::Wholes(nodes) => {
            let mut sum: u64 = 0;
            for node in nodes {
                sum = sum.saturating_add(count_at(counts, *node));
            }
            sum
        }
    }
}

fn node_count(counts: &[u64], alternatives: &Alternatives<'_>) -> u64 {
    let mut sum: u64 = 0;
    for k in 0..alternatives.len() {
        let predecessor = match alternatives.predecessor(k) {
            Some(node) => count_at(counts, node),
            None => 1,
        };
        let last = last_count(counts, alternatives.cause(k));
        sum = sum.saturating_add(predecessor.saturating_mul(last));
    }
    sum
}

// How many derivations the nodes have, once each is counted after those that it stands on.
fn counts_of<L: Ledger>(
    alloc: Global,
    forest: &Forest<'_>,
    steps: &mut Steps<L>,
) -> Result<Vec<u64>, AllocError> {
    let mut counts = vec![in alloc; 0; forest.node_count()]?;
    for _ in 0..forest.node_count() {
        for n in 0..forest.node_count().min(counts.len()) {
            if let Ok(node) = u32::try_from(n) {
                counts[n] = node_count(&counts, &forest.alternatives(node, steps));
            }
        }
    }
    Ok(counts)
}

fn derivation_count<L: Ledger>(
    alloc: Global,
    forest: &Forest<'_>,
    steps: &mut Steps<L>,
) -> Result<u64, AllocError> {
    let counts = counts_of(alloc, forest, steps)?;
    Ok(match forest.root() {
        Some(root) => count_at(&counts, root),
        None => 1,
    })
}

// Whether a node is of this written rule, and its last part may begin at these places, in this order.
fn has_starts<L: Ledger>(
    forest: &Forest<'_>,
    node: u32,
    wanted: &Starts,
    steps: &mut Steps<L>,
) -> bool {
    if node as usize >= forest.node_count() {
        return false;
    }
    let rule = forest.key(node).rule;
    let flat = forest.flat();
    if rule as usize >= flat.rule_count()
        || flat.origin_of(rule) != FlatSource::Written(RuleId(wanted.0))
    {
        return false;
    }
    let alternatives = forest.alternatives(node, steps);
    let mut same = alternatives.len() == wanted.1.len();
    for k in 0..alternatives.len().min(wanted.1.len()) {
        same = same && alternatives.start(k) == wanted.1[k];
    }
    same
}

// Whether the rules of the start over the whole are these.
fn has_rules<L: Ledger>(forest: &Forest<'_>, wanted: &[Starts], steps: &mut Steps<L>) -> bool {
    let Some(root) = forest.root() else {
        return wanted.is_empty();
    };
    if root as usize >= forest.node_count() {
        return false;
    }
    let top = forest.alternatives(root, steps);
    if top.len() != 1 || top.start(0) != 0 {
        return false;
    }
    let Cause::Wholes(nodes) = top.cause(0) else {
        return false;
    };
    let mut same = nodes.len() == wanted.len();
    for k in 0..nodes.len().min(wanted.len()) {
        same = has_starts(forest, nodes[k], &wanted[k], steps) && same;
    }
    same
}

/// Whether a forest has so many nodes, alternatives and derivations, and these rules.
pub(crate) fn has_size<L: Ledger>(
    alloc: Global,
    forest: &Forest<'_>,
    counts: (usize, usize, u64),
    rules: &[Starts],
    steps: &mut Steps<L>,
) -> Result<bool, AllocError> {
    let same = forest.node_count() == counts.0
        && alternative_count(forest, steps) == counts.1
        && derivation_count(alloc, forest, steps)? == counts.2
        && (forest.node_count() == 0 || look_twice(forest, steps));
    Ok(has_rules(forest, rules, steps) && same)
}

#[test]
fn forests_have_the_sizes_of_the_rows(rt: HostRuntime) -> Result<(), Fail> {
    assert!(rt; are_rows(rt.alloc(), ROWS)?);
    Ok(())
}
