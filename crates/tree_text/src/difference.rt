// Where two trees differ.
ghost use Rattle.std.specs.Prelude.{◌≡◌, ◌≤◌, ◌<◌, length, MatchBool, MatchOption};
ghost use Rattle.tree_text.specs.Differences.{depth_at, AreSame, DifferFirst, IsAroundIn, IsInBoth, IsSmallest, AreApart, IsDifference};

use crate::Node;
use crate::looks::{has_same_face, looks_same};

/// Where two trees first differ.
#[derive(Clone, Copy, Debug, PartialEq, Eq)]
pub enum Difference {
    /// They are the same.
    Same,
    /// In the node of this place, the smallest that both have around the first node that is not the same.
    Within(usize),
    /// No node that both have is around that one.
    Apart,
}

/// The first place where two trees differ.
fn first_place(one: &[Node<'_>], other: &[Node<'_>]) -> Option<usize>
    ensures { MatchOption result (AreSame one.now other.now) (λ first. DifferFirst one.now other.now
        first ×
        (first ≤ length one.now) × (first ≤ length other.now)) }
{
    let mut count = 0;
    while count < one.len() && count < other.len() {
        if !looks_same(&one[count], &other[count]) {
            return Some(count);
        }
        count += 1;
    }
    if count < one.len() || count < other.len() {
        Some(count)
    } else {
        None
    }
}

fn is_in_both(one: &[Node<'_>], other: &[Node<'_>], i: usize) -> bool
    ensures { MatchBool result (IsInBoth one.now other.now i) (¬ (IsInBoth one.now other.now i)) }
{
    if i >= one.len() || i >= other.len() {
        return false;
    }
    has_same_face(&one[i], &other[i])
}

/// The depth of a node, and 0 where there is none.
fn depth_of(nodes: &[Node<'_>], i: usize) -> usize
    ensures { result ≡ depth_at nodes.now i }
{
    if i < nodes.len() { nodes[i].depth } else { 0 }
}

/// The smallest node of both trees around the first place where they differ.
fn smallest_around(one: &[Node<'_>], other: &[Node<'_>], first: usize) -> Option<usize>
    requires differ { DifferFirst one.now other.now first }
    requires there { first ≤ length one.now }
    ensures { MatchOption result (AreApart one.now other.now)
        (λ at. IsSmallest one.now other.now at) }
{
    if is_in_both(one, other, first) {
        return Some(first);
    }
    // Nodes above the first place are less deep than all after them.
    let mut limit = depth_of(one, first).max(depth_of(other, first));
    let mut left = first;
    while left > 0 {
        left -= 1;
        let depth = depth_of(one, left);
        if depth < limit {
            if is_in_both(one, other, left) {
                return Some(left);
            }
            limit = depth;
        }
    }
    None
}

/// Where two trees first differ.
pub fn first_difference(one: &[Node<'_>], other: &[Node<'_>]) -> Difference
    ensures { IsDifference one.now other.now result }
{
    match first_place(one, other) {
        Some(first) => match smallest_around(one, other, first) {
            Some(at) => Difference::Within(at),
            None => Difference::Apart,
        },
        None => Difference::Same,
    }
}
