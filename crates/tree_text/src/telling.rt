// What two trees make of the node in which they differ.
ghost use Rattle.std.specs.Prelude.{◌≡◌, ◌+◌, ◌<◌, ◌≤◌, ◌++◌, length, OnOk, IfOk, string_bytes, decimal, false};
ghost use Rattle.std.specs.List.{prefix_len};
ghost use Rattle.std.specs.Option.{option_map};
ghost use Rattle.tree_text.specs.Looks as looks;
ghost use Rattle.tree_text.specs.Telling as told;
ghost use Rattle.tree_text.specs.Telling.{text_if, counts, rule_text, node_cut, cut_text, token_text, part_begin, part_at, part_text, is_deeper, nodes_below, texts_below, rule_reading, label_reading, reading_text, called, span_text, cuts, readings, difference_text};

use crate::labels::push_name;
use crate::looks::{name_in, text_in};
use crate::puts::{put, put_number};
use crate::{Label, Node};
use std::alloc::{AllocError, Global};
use std::fmt::Write;

// So many tokens at the front and at the end of a part are told.
const MANY: usize = 10;

fn is_right_below(node: &Node<'_>, at: usize) -> bool
    ensures { result ≡ told.is_right_below at node.now }
{
    match node.above {
        Some(above) => above == at,
        None => false,
    }
}

fn put_if(asked: bool, text: &str, out: &mut String) -> Result<(), AllocError>
    ensures { OnOk result (string_bytes out.new ≡ string_bytes out.old ++ text_if asked text.now) }
{
    if asked { put(text, out) } else { Ok(()) }
}

/// Appends how many tokens are in each node right below this one.
fn push_counts(nodes: &[Node<'_>], at: usize, out: &mut String) -> Result<(), AllocError>
    ensures { OnOk result (string_bytes out.new ≡ string_bytes out.old ++ counts false at nodes.now) }
{
    let mut follows = false;
    for node in nodes {
        if !is_right_below(node, at) {
            continue;
        }
        put_if(follows, "+", out)?;
        put_number(node.tokens as u64, out)?;
        follows = true;
    }
    Ok(())
}

/// Appends the rule of a node, if it has one.
fn push_rule(label: Label<'_>, out: &mut String) -> Result<(), AllocError>
    ensures { OnOk result (string_bytes out.new ≡ string_bytes out.old ++ rule_text label.entry) }
{
    match label {
        Label::Rule { rule, .. } => {
            put("rule ", out)?;
            put_number(rule, out)
        }
        _ => put("no rule", out),
    }
}

fn push_node_cut(
    node: &Node<'_>,
    nodes: &[Node<'_>],
    at: usize,
    out: &mut String,
) -> Result<(), AllocError>
    ensures { OnOk result (string_bytes out.new ≡ string_bytes out.old ++ node_cut node.now nodes.now
        at) }
{
    push_rule(node.label, out)?;
    put(" (", out)?;
    push_counts(nodes, at, out)?;
    put(")", out)
}

/// Appends the rule of a node, if it has one, and how it cuts its tokens.
fn push_cut(nodes: &[Node<'_>], at: usize, out: &mut String) -> Result<(), AllocError>
    ensures { OnOk result (string_bytes out.new ≡ string_bytes out.old ++ cut_text nodes.now at) }
{
    let Some(node) = nodes.get(at) else {
        return Ok(());
    };
    push_node_cut(node, nodes, at, out)
}

/// Appends a token of a part, by how many of its tokens are before it: each where there are few, and else the first and the last.
fn push_token(
    text: Option<&str>,
    place: usize,
    tokens: usize,
    out: &mut String,
) -> Result<(), AllocError>
    ensures { OnOk result (string_bytes out.new ≡ string_bytes out.old ++ token_text
        (option_map (λ t. t.now) text.entry) place tokens) }
{
    let Some(text) = text else {
        return Ok(());
    };
    if place < MANY || tokens.saturating_sub(place) <= MANY {
        put(if place == 0 { "" } else { " " }, out)?;
        push_name(text, out)
    } else {
        put_if(place == MANY, " ..", out)
    }
}

/// A part of a node: whether it is the first one, how many tokens are before it, and how many are in it.
#[derive(Clone, Copy)]
struct Part {
    first: bool,
    before: usize,
    tokens: usize,
}

/// Appends what stands in front of a part: a bar, where it is not the first, and `()` for a part without tokens.
fn push_begin(first: bool, tokens: usize, out: &mut String) -> Result<(), AllocError>
    ensures { OnOk result (string_bytes out.new ≡ string_bytes out.old ++ part_begin first tokens) }
{
    put_if(!first, " | ", out)?;
    put_if(tokens == 0, "()", out)
}

/// Appends what stands in front of a part, where a node is one, and gives the part that it stands in.
fn push_part(node: &Node<'_>, at: usize, part: Part, out: &mut String) -> Result<Part, AllocError>
    ensures written { OnOk result (string_bytes out.new ≡ string_bytes out.old ++ part_text at node.now part) }
    ensures part { IfOk result (λ p. p ≡ part_at at node.now part) }
{
    if !is_right_below(node, at) {
        return Ok(part);
    }
    push_begin(part.first, node.tokens, out)?;
    Ok(Part {
        first: false,
        before: node.before,
        tokens: node.tokens,
    })
}

/// How many nodes at the front are deeper than this.
fn count_deeper(nodes: &[Node<'_>], depth: usize) -> usize
    ensures within { result ≤ length nodes.now }
    ensures count { result ≡ prefix_len (is_deeper depth) nodes.now }
{
    let mut count = 0;
    while count < nodes.len() && depth < nodes[count].depth {
        count += 1;
    }
    count
}

/// The nodes below the one at a place.
fn below<'n, 'p: 'n>(nodes: &'n [Node<'p>], at: usize, depth: usize) -> &'n [Node<'p>]
    requires { at < length nodes.now }
    ensures { result.now ≡ nodes_below depth nodes.now at }
{
    let behind = &nodes[at + 1..];
    let count = count_deeper(behind, depth);
    &behind[..count]
}

/// Appends the texts of the tokens below a node, with bars between its parts.
fn push_texts(
    nodes: &[Node<'_>],
    at: usize,
    depth: usize,
    out: &mut String,
) -> Result<(), AllocError>
    requires { at < length nodes.now }
    ensures { OnOk result (string_bytes out.new ≡ string_bytes out.old ++ texts_below depth nodes.now
        at) }
{
    let mut part = Part {
        first: true,
        before: 0,
        tokens: 0,
    };
    let below = below(nodes, at, depth);
    for node in below {
        part = push_part(node, at, part, out)?;
        let place = node.before.saturating_sub(part.before);
        push_token(text_in(node.label), place, part.tokens, out)?;
    }
    Ok(())
}

/// Appends the rule of a node, and the texts of its parts.
fn push_rule_reading(
    rule: u64,
    nodes: &[Node<'_>],
    at: usize,
    depth: usize,
    out: &mut String,
) -> Result<(), AllocError>
    requires { at < length nodes.now }
    ensures { OnOk result (string_bytes out.new ≡ string_bytes out.old ++ rule_reading rule
        (texts_below depth nodes.now at)) }
{
    put("  rule ", out)?;
    put_number(rule, out)?;
    put(": ", out)?;
    push_texts(nodes, at, depth, out)?;
    put("\n", out)
}

fn push_node_reading(
    node: &Node<'_>,
    nodes: &[Node<'_>],
    at: usize,
    out: &mut String,
) -> Result<(), AllocError>
    requires { at < length nodes.now }
    ensures { OnOk result (string_bytes out.new ≡ string_bytes out.old ++ label_reading node.now.label
        (texts_below node.now.depth nodes.now at)) }
{
    match node.label {
        Label::Rule { rule, .. } => push_rule_reading(rule, nodes, at, node.depth, out),
        _ => Ok(()),
    }
}

/// Appends a line with the rule of a node and the texts of its parts, where it has a rule.
fn push_reading(nodes: &[Node<'_>], at: usize, out: &mut String) -> Result<(), AllocError>
    ensures { OnOk result (string_bytes out.new ≡ string_bytes out.old ++ reading_text nodes.now at) }
{
    let Some(node) = nodes.get(at) else {
        return Ok(());
    };
    push_node_reading(node, nodes, at, out)
}

fn push_called(label: Label<'_>, out: &mut String) -> Result<(), AllocError>
    ensures { OnOk result (string_bytes out.new ≡ string_bytes out.old ++ called (looks.name_in label.entry)) }
{
    match name_in(label) {
        Some(name) => push_name(name, out),
        None => put("a list", out),
    }
}

/// Appends a place behind so many tokens and more.
fn push_end(before: usize, tokens: usize, out: &mut String) -> Result<(), AllocError>
    ensures { OnOk result (string_bytes out.new ≡ string_bytes out.old ++ decimal (before + tokens)) }
{
    let end = before as u128 + tokens as u128;
    write!(out, "{end}")?;
    Ok(())
}

/// Appends the name of a node, and from which token to which it goes.
fn push_span(node: &Node<'_>, out: &mut String) -> Result<(), AllocError>
    ensures { OnOk result (string_bytes out.new ≡ string_bytes out.old ++ span_text node.now) }
{
    push_called(node.label, out)?;
    put(" from ", out)?;
    put_number(node.before as u64, out)?;
    put(" to ", out)?;
    push_end(node.before, node.tokens, out)?;
    put(": ", out)
}

fn push_cuts(
    one: &[Node<'_>],
    other: &[Node<'_>],
    at: usize,
    out: &mut String,
) -> Result<(), AllocError>
    ensures { OnOk result (string_bytes out.new ≡ string_bytes out.old ++ cuts one.now other.now at) }
{
    push_cut(one, at, out)?;
    put(", ", out)?;
    push_cut(other, at, out)?;
    put("\n", out)
}

/// What two trees make of the node at a place, the first of which is given.
fn difference_of(
    alloc: Global,
    node: &Node<'_>,
    one: &[Node<'_>],
    other: &[Node<'_>],
    at: usize,
) -> Result<String, AllocError>
    ensures { IfOk result (λ text. string_bytes text ≡ span_text node.now ++
        (cuts one.now other.now at ++ readings one.now other.now at)) }
{
    let mut text = String::new(alloc);
    push_span(node, &mut text)?;
    push_cuts(one, other, at, &mut text)?;
    push_reading(one, at, &mut text)?;
    push_reading(other, at, &mut text)?;
    Ok(text)
}

/// Appends what two trees make of the node at this place, as `E from 0 to 5: rule 0 (3+1+1), rule 0 (1+1+3)`, and a line for each tree with the texts of its
/// parts, as `  rule 0: 1 + 1 | + | 1`.
pub fn push_difference(
    alloc: Global,
    one: &[Node<'_>],
    other: &[Node<'_>],
    at: usize,
    out: &mut String,
) -> Result<(), AllocError>
    ensures { OnOk result (string_bytes out.new ≡ string_bytes out.old ++ difference_text one.now
        other.now at) }
{
    let Some(node) = one.get(at) else {
        return Ok(());
    };
    let text = difference_of(alloc, node, one, other, at)?;
    put(text.as_str(), out)
}
