//! Whether there is a second choice on the walk by first choices from a node, found out once for each node.
ghost use Rattle.std.specs.Prelude.{◌≡◌, ◌<◌, length, Some, slice_get, slice_set};
ghost use Rattle.bocage.specs.Readers.{node_at};
ghost use Rattle.glade_laws.specs.Walks.{HasSecond};
ghost use Rattle.glades.specs.Links.{AreKnown, AreLinks};

use crate::links::Link;
use bocage::Forest;

/// Where the choices of a node lead.
pub fn link_at(links: &[Link], node: u32) -> Link
    requires { node < length links.now }
    ensures { slice_get links.now node ≡ Some result }
{
    links[node as usize]
}

fn second_at(seconds: &[Option<bool>], node: u32) -> Option<bool>
    requires { node < length seconds.now }
    ensures { slice_get seconds.now node ≡ Some result }
{
    seconds[node as usize]
}

fn set_second(seconds: &mut [Option<bool>], node: u32, second: bool)
    requires { node < length seconds.old }
    ensures { seconds.new ≡ slice_set seconds.old node (Some second) }
{
    seconds[node as usize] = Some(second);
}

// Goes along first choices until it is known.
fn look(forest: &Forest<'_>, links: &[Link], seconds: &[Option<bool>], node: u32) -> bool
    requires links { AreLinks forest.now links.now }
    requires known { AreKnown forest.now seconds.now }
    requires node { node < length forest.now.nodes }
    ensures { HasSecond forest.now node result }
{
    forest.known();
    let mut at = node;
    'walk: loop {
        if let Some(second) = second_at(seconds, at) {
            return second;
        }
        match link_at(links, at) {
            Link::End => return false,
            Link::Fork { next: _, fork: _ } => return true,
            Link::Next(next) => at = next,
        }
    }
}

// Notes it for the nodes that the walk comes by.
fn note(forest: &Forest<'_>, links: &[Link], node: u32, second: bool, seconds: &mut [Option<bool>])
    requires links { AreLinks forest.now links.now }
    requires known { AreKnown forest.now seconds.old }
    requires node { node < length forest.now.nodes }
    requires second { HasSecond forest.now node second }
    ensures { AreKnown forest.now seconds.new }
{
    forest.known();
    let mut at = node;
    'walk: while second_at(seconds, at).is_none() {
        set_second(seconds, at, second);
        let Link::Next(next) = link_at(links, at) else {
            return;
        };
        at = next;
    }
}

/// Whether there is a second choice on the walk from a node.
pub fn has_second(
    forest: &Forest<'_>,
    links: &[Link],
    seconds: &mut [Option<bool>],
    node: u32,
) -> bool
    requires links { AreLinks forest.now links.now }
    requires known { AreKnown forest.now seconds.old }
    requires node { node < length forest.now.nodes }
    ensures second { HasSecond forest.now node result }
    ensures known { AreKnown forest.now seconds.new }
{
    let second = look(forest, links, seconds, node);
    note(forest, links, node, second, seconds);
    second
}
