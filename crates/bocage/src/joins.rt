//! Items that wait, joined with the groups of parts that may stand after them: what may be predecessors, with what may be causes.
ghost use Rattle.std.specs.Prelude.{◌≡◌, ℕ, true, false, ◌<◌, ◌≤◌, ◌↔◌, ◌⊎◌, length, OnOk, IfOk, IsTrue, Contains, Some, slice_get};
ghost use Rattle.std.specs.List.Sorted.{IsStrictlySortedBy};
ghost use Rattle.earley_sets.specs.Recognizer.{earleme_of, set_at};
ghost use Rattle.forest_parts.specs.Lists.{between};
ghost use Rattle.forest_parts.specs.declared.groups.Group.{Group as TheGroup};
ghost use Rattle.bocage.specs.declared.joins.Join.{Join as TheJoin};
ghost use Rattle.bocage.specs.Joins.{join_cmp, predecessor_of_join, before_item, IsJoinOf, AreJoins};

use earley_sets::Recce;
use forest_parts::Group;
use recognizer_model::Item;
use slif_base::number;
use std::alloc::AllocError;

/// An item that waits where a group begins, for its symbol.
#[derive(Clone, Copy, PartialEq, Eq, PartialOrd, Ord)]
pub struct Join {
    pub rule: u32,
    pub dot: u32,
    pub origin: u32,
    pub group: u32,
}

// Puts the join of an item with a group, if the item does not begin too early.
fn put_join(least: u32, item: Item, number: u32, joins: &mut Vec<Join>) -> Result<(), AllocError>
    ensures { OnOk result ((j : TheJoin) → Contains joins.new.items j ↔
        (Contains joins.old.items j ⊎ ((j.group ≡ number) × (predecessor_of_join j ≡ item) × (least ≤ item.origin)))) }
{
    if least <= item.origin {
        joins.push(Join {
            rule: item.rule,
            dot: item.dot,
            origin: item.origin,
            group: number,
        })?;
    }
    Ok(())
}

// Puts the joins of a group.
fn put_joins(
    recce: &Recce<'_>,
    least: u32,
    group: Group,
    number: u32,
    joins: &mut Vec<Join>,
) -> Result<(), AllocError>
    requires { group.start ≤ earleme_of recce.now }
    ensures { OnOk result ((j : TheJoin) → Contains joins.new.items j ↔
        (Contains joins.old.items j ⊎ ((j.group ≡ number) × IsJoinOf recce.now least group j))) }
{
    let waiting = recce.waiting(group.start, group.symbol);
    for k in 0..waiting.len() {
        put_join(least, waiting.at(k), number, joins)?;
    }
    Ok(())
}

fn sort(joins: &mut Vec<Join>)
    ensures sorted { IsStrictlySortedBy join_cmp joins.new.items }
    ensures same { (j : TheJoin) → Contains joins.new.items j ↔ Contains joins.old.items j }
{
    joins.sort_unstable();
    joins.dedup();
}

/// Lists the joins of groups, in order.
pub fn list_joins(
    recce: &Recce<'_>,
    least: u32,
    groups: &[Group],
    joins: &mut Vec<Join>,
) -> Result<(), AllocError>
    requires { (g : TheGroup) → Contains groups.now g → g.start ≤ earleme_of recce.now }
    ensures { OnOk result (AreJoins recce.now least groups.now joins.new.items) }
{
    joins.clear();
    for k in 0..groups.len() {
        let at = number(k)?;
        put_joins(recce, least, groups[k], at, joins)?;
    }
    sort(joins);
    Ok(())
}

fn joins_between(joins: &[Join], first: usize, past: usize) -> &[Join]
    requires order { first ≤ past }
    requires bound { past ≤ length joins.now }
    ensures { result.now ≡ between first past joins.now }
{
    &joins[first..past]
}

// Whether the item of a join stands before another.
fn is_before(join: Join, predecessor: Item) -> bool
    ensures { result ≡ before_item predecessor join }
{
    if join.rule != predecessor.rule {
        join.rule < predecessor.rule
    } else if join.dot != predecessor.dot {
        join.dot < predecessor.dot
    } else {
        join.origin < predecessor.origin
    }
}

fn has_item(join: Join, predecessor: Item) -> bool
    ensures { IsTrue result ↔ (predecessor_of_join join ≡ predecessor) }
{
    join.origin == predecessor.origin
        && join.dot == predecessor.dot
        && join.rule == predecessor.rule
}

// How many of the joins have items that stand before another.
fn count_before(joins: &[Join], predecessor: Item) -> usize
    requires { IsStrictlySortedBy join_cmp joins.now }
    ensures bound { result ≤ length joins.now }
    ensures before { (k : ℕ) (j : TheJoin) → k < result → slice_get joins.now k ≡ Some j → before_item predecessor j ≡ true }
    ensures behind { (k : ℕ) (j : TheJoin) → result ≤ k → slice_get joins.now k ≡ Some j → before_item predecessor j ≡ false }
{
    joins.partition_point(|join| is_before(*join, predecessor))
}

// Where those end that have an item, from one place on.
fn end_of_item(joins: &[Join], first: usize, predecessor: Item) -> usize
    requires { first ≤ length joins.now }
    ensures order { first ≤ result }
    ensures bound { result ≤ length joins.now }
    ensures same { (k : ℕ) (j : TheJoin) → first ≤ k → k < result → slice_get joins.now k ≡ Some j → predecessor_of_join j ≡ predecessor }
    ensures other { (j : TheJoin) → slice_get joins.now result ≡ Some j → ¬ (predecessor_of_join j ≡ predecessor) }
{
    for past in first..joins.len() {
        if !has_item(joins[past], predecessor) {
            return past;
        }
    }
    joins.len()
}

/// Those of the joins that have an item.
pub fn joins_of(joins: &[Join], predecessor: Item) -> &[Join]
    requires { IsStrictlySortedBy join_cmp joins.now }
    ensures sorted { IsStrictlySortedBy join_cmp result.now }
    ensures exact { (j : TheJoin) → Contains result.now j ↔ (Contains joins.now j × (predecessor_of_join j ≡ predecessor)) }
{
    let first = count_before(joins, predecessor);
    let past = end_of_item(joins, first, predecessor);
    joins_between(joins, first, past)
}
