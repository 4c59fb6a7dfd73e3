//! The first two shapes that the walks from a node pass. Starts are met from the right.
ghost use Rattle.std.specs.Prelude.{◌≡◌, ℕ, true, ◌<◌, ◌++◌, [], List, length, reverse, Some, slice_get, IfOk, OnOk};
ghost use Rattle.bocage.specs.Readers.{node_at};
ghost use Rattle.glade_laws.specs.Walks.{options, HasSecond, IsFirst, IsSecond};
ghost use Rattle.glades.specs.Links.{AreKnown, AreLinks};
ghost use Rattle.glades.specs.Shapes.{passed_here, IsCourse, next_of};

use crate::links::{Link, ends_with_list};
use crate::seconds::{has_second, link_at};
use crate::types::Starts;
use bocage::Forest;
use std::alloc::{AllocError, Global};

// Passes from a node to one where a choice leads: the start of the last part, if that is a child.
fn pass(forest: &Forest<'_>, node: u32, next: u32, back: &mut Vec<u32>) -> Result<(), AllocError>
    requires node { node < length forest.now.nodes }
    requires next { next < length forest.now.nodes }
    ensures { OnOk result (back.new.items ≡
        back.old.items ++ passed_here forest.now (node_at forest.now node) next) }
{
    if ends_with_list(forest, node) {
        return Ok(());
    }
    back.push(forest.key(next).end)?;
    Ok(())
}

// The first choice of a node.
fn next_at(links: &[Link], node: u32) -> Option<u32>
    requires { node < length links.now }
    ensures { next_of (slice_get links.now node) ≡ result }
{
    match link_at(links, node) {
        Link::End => None,
        Link::Next(next) => Some(next),
        Link::Fork { next, fork: _ } => Some(next),
    }
}

/// Appends the starts that the walk by first choices passes, from the right.
pub fn push_first(
    forest: &Forest<'_>,
    links: &[Link],
    node: u32,
    back: &mut Vec<u32>,
) -> Result<(), AllocError>
    requires links { AreLinks forest.now links.now }
    requires node { node < length forest.now.nodes }
    ensures { OnOk result ((starts : List ℕ) × IsFirst forest.now node starts ×
        (back.new.items ≡ back.old.items ++ reverse starts)) }
{
    forest.known();
    let mut at = node;
    'walk: while let Some(next) = next_at(links, at) {
        pass(forest, at, next, back)?;
        at = next;
    }
    back.push(forest.key(at).origin)?;
    Ok(())
}

// Goes over to a second choice, and on by first ones.
fn go_over(
    forest: &Forest<'_>,
    links: &[Link],
    node: u32,
    fork: u32,
    back: &mut Vec<u32>,
) -> Result<(), AllocError>
    requires links { AreLinks forest.now links.now }
    requires node { node < length forest.now.nodes }
    requires fork { fork < length forest.now.nodes }
    ensures { OnOk result ((starts : List ℕ) × IsFirst forest.now fork starts ×
        (back.new.items ≡ (back.old.items ++ passed_here forest.now (node_at forest.now node)
        fork) ++ reverse starts)) }
{
    pass(forest, node, fork, back)?;
    push_first(forest, links, fork, back)
}

// Where the walk to the second shape goes from a node: on by the first choice, or over by the second.
enum Course {
    On(u32),
    Over(u32),
}

fn course_at(forest: &Forest<'_>, links: &[Link], seconds: &mut [Option<bool>], node: u32) -> Course
    requires links { AreLinks forest.now links.now }
    requires known { AreKnown forest.now seconds.old }
    requires node { node < length forest.now.nodes }
    requires second { HasSecond forest.now node true }
    ensures course { IsCourse forest.now node result }
    ensures known { AreKnown forest.now seconds.new }
{
    forest.known();
    match link_at(links, node) {
        Link::End => unreachable!(),
        Link::Next(next) => Course::On(next),
        Link::Fork { next, fork } => {
            if has_second(forest, links, seconds, next) {
                Course::On(next)
            } else {
                Course::Over(fork)
            }
        }
    }
}

/// Appends the starts of the second shape, from the right.
pub fn push_second(
    forest: &Forest<'_>,
    links: &[Link],
    seconds: &mut [Option<bool>],
    node: u32,
    back: &mut Vec<u32>,
) -> Result<(), AllocError>
    requires links { AreLinks forest.now links.now }
    requires known { AreKnown forest.now seconds.old }
    requires node { node < length forest.now.nodes }
    requires second { HasSecond forest.now node true }
    ensures second { OnOk result ((starts : List ℕ) × (others : List ℕ) ×
        IsSecond forest.now node starts others ×
        (back.new.items ≡ back.old.items ++ reverse others)) }
    ensures known { AreKnown forest.now seconds.new }
{
    forest.known();
    let mut at = node;
    'walk: loop {
        match course_at(forest, links, seconds, at) {
            Course::On(next) => {
                pass(forest, at, next, back)?;
                at = next;
            }
            Course::Over(fork) => {
                return go_over(forest, links, at, fork, back);
            }
        }
    }
}

/// Starts that were met from the right.
pub fn turn(alloc: Global, back: &mut Vec<u32>) -> Result<Starts, AllocError>
    ensures starts { IfOk result (λ starts. starts ≡ reverse back.old.items) }
    ensures empty { OnOk result (back.new.items ≡ []) }
{
    back.reverse();
    let places = Vec::from_slice(alloc, back.as_slice())?;
    back.clear();
    Ok(Starts::new(places))
}
