// The nodes of a value that is shown as a tree.
ghost use Rattle.std.specs.Prelude.{◌≡◌, map, IfOk, OnOk};
ghost use Rattle.std.specs.Option.{option_map};
ghost use Rattle.tree_text.specs.Nested.{level_of, node_of, last_of, IsGrowing, AreNested};

use crate::Part;
use std::alloc::{AllocError, Global};

/// What a node is called.
#[derive(Clone, Copy, Debug, PartialEq, Eq)]
pub enum Label<'p> {
    Rule { name: &'p str, rule: u64 },
    Token { name: &'p str, text: &'p str },
    Nulled { name: &'p str },
    List,
    Undefined,
    Number(u64),
    Text(&'p str),
}

/// A node, by its place among all nodes, each of which stands before those below it.
#[derive(Clone, Copy, Debug)]
pub struct Node<'p> {
    pub label: Label<'p>,
    /// How many nodes are above it.
    pub depth: usize,
    /// The node right above it.
    pub above: Option<usize>,
    /// Whether none that comes later is right below the same node.
    pub last: bool,
    /// How many tokens are before it.
    pub before: usize,
    /// How many tokens are in it.
    pub tokens: usize,
}

/// A node that is still open, and the node right below it that came last.
#[derive(Clone, Copy)]
struct Open {
    node: usize,
    below: Option<usize>,
}

/// The label of a node of this name, by the parts after the name, and what is after it.
fn label_named<'p>(name: &'p str, parts: &'p [Part]) -> Option<(Label<'p>, &'p [Part])> {
    let (first, behind) = parts.split_first()?;
    match first {
        Part::Number(rule) => Some((Label::Rule { name, rule: *rule }, behind)),
        Part::Close => Some((Label::Nulled { name }, behind)),
        Part::Text(text) => match behind.split_first()? {
            (Part::Close, rest) => {
                let text = text.as_str();
                Some((Label::Token { name, text }, rest))
            }
            _ => None,
        },
        _ => None,
    }
}

/// The label of what is open in front of some parts, and what is after it.
fn label_within(parts: &[Part]) -> (Label<'_>, &[Part]) {
    let named = match parts.split_first() {
        Some((Part::Text(name), behind)) => label_named(name.as_str(), behind),
        _ => None,
    };
    named.unwrap_or((Label::List, parts))
}

/// The label at the front of some parts, and what is after it.
fn label_at(parts: &[Part]) -> (Label<'_>, &[Part]) {
    let Some((first, rest)) = parts.split_first() else {
        return (Label::List, parts);
    };
    match first {
        Part::Open => label_within(rest),
        Part::Number(n) => (Label::Number(*n), rest),
        Part::Text(text) => (Label::Text(text.as_str()), rest),
        Part::Undefined => (Label::Undefined, rest),
        _ => (Label::List, rest),
    }
}

/// Tells a node, if there is one, that another one comes after it.
fn follow(nodes: &mut Vec<Node<'_>>, earlier: Option<usize>)
    ensures { map level_of nodes.new.items ≡ map level_of nodes.old.items }
{
    let Some(earlier) = earlier else {
        return;
    };
    if let Some(node) = nodes.get_mut(earlier) {
        node.last = false;
    }
}

/// Tells a node how many tokens are in it, where so many were counted up to its end.
fn count_tokens(nodes: &mut Vec<Node<'_>>, place: usize, counted: usize)
    ensures { map level_of nodes.new.items ≡ map level_of nodes.old.items }
{
    if let Some(node) = nodes.get_mut(place) {
        node.tokens = counted.saturating_sub(node.before);
    }
}

/// Puts a node below the one that was opened last, if there is one, and gives that one as it was.
fn put_below(opened: &mut Vec<Open>, node: usize) -> Option<Open>
    ensures nodes { map node_of opened.new.items ≡ map node_of opened.old.items }
    ensures was { option_map node_of result ≡ last_of (map node_of opened.old.items) }
{
    let last = opened.last_mut()?;
    let was = *last;
    last.below = Some(node);
    Some(was)
}

/// The nodes so far.
#[derive(Drop)]
struct Growing<'p> {
    nodes: Vec<Node<'p>>,
    open: Vec<Open>,
    tokens: usize,
}

impl<'p> Growing<'p> {
    /// Appends a node of this label under the one that is open.
    fn add(&mut self, label: Label<'p>) -> Result<(), AllocError>
        requires { IsGrowing self.old }
        ensures { OnOk result (IsGrowing self.new) }
    {
        let node = self.nodes.len();
        let above = self.under_open(node);
        let tokens = match label {
            Label::Token { .. } | Label::Text(_) => 1,
            _ => 0,
        };
        self.nodes.push(Node {
            label,
            depth: self.open.len(),
            above,
            last: true,
            before: self.tokens,
            tokens,
        })?;
        self.tokens = self.tokens.saturating_add(tokens);
        match label {
            Label::Rule { .. } | Label::List => {
                self.open.push(Open { node, below: None })?;
                Ok(())
            }
            _ => Ok(()),
        }
    }

    /// The node that a new one stands under. The one that came last there is no longer the last.
    fn under_open(&mut self, node: usize) -> Option<usize>
        ensures nodes { map level_of self.new.nodes.items ≡ map level_of self.old.nodes.items }
        ensures opened { map node_of self.new.open.items ≡ map node_of self.old.open.items }
        ensures above { result ≡ last_of (map node_of self.old.open.items) }
    {
        let open = put_below(&mut self.open, node)?;
        follow(&mut self.nodes, open.below);
        Some(open.node)
    }

    fn close(&mut self)
        requires { IsGrowing self.old }
        ensures { IsGrowing self.new }
    {
        let Some(open) = self.open.pop() else {
            return;
        };
        count_tokens(&mut self.nodes, open.node, self.tokens);
    }

    /// Reads the node, or the end of a list, at the front of some parts, and gives what is after it.
    fn read(&mut self, parts: &'p [Part]) -> Result<&'p [Part], AllocError>
        requires { IsGrowing self.old }
        ensures { OnOk result (IsGrowing self.new) }
    {
        match parts.split_first() {
            Some((Part::Close, behind)) => {
                self.close();
                Ok(behind)
            }
            Some(_) => {
                let (label, behind) = label_at(parts);
                self.add(label)?;
                Ok(behind)
            }
            None => Ok(parts),
        }
    }
}

/// The nodes of the values of these parts, one after another. A list of a name, a number and more is a rule's node, one of a name and a text is a token's, and
/// one of a name alone is a nulled symbol's; any other value is shown as it is.
pub fn nodes_of(alloc: Global, parts: &[Part]) -> Result<Vec<Node<'_>>, AllocError>
    ensures { IfOk result (λ nodes. AreNested nodes.items) }
{
    let mut growing = Growing {
        nodes: Vec::new(alloc),
        open: Vec::new(alloc),
        tokens: 0,
    };
    let mut rest = parts;
    for _k in 0..parts.len() {
        rest = growing.read(rest)?;
    }
    Ok(growing.nodes)
}
