// The boxes of a picture: of each node one, but a chain of nodes, each the only one right below the one before, has one box.
ghost use Rattle.std.specs.Prelude.{◌≡◌, ◌++◌, ◌+◌, ◌<◌, IfOk, OnOk, string_bytes, slice_index, EachIndex, length, replicate, map, drop};
ghost use Rattle.tree_pictures.specs.Boxes as boxes;
ghost use Rattle.tree_pictures.specs.Boxes.{is_that, one_if, counts_of, is_quoted, short_label, is_behind, dot, label_behind, box_label, labels_from, places_from, place_of, aboves_from, AreBoxes};

use crate::puts::put;
use std::alloc::{AllocError, Global};
use tree_text::{Label, Node, push_label, push_name};

/// The boxes of a picture.
#[derive(Drop)]
pub(crate) struct Boxes {
    /// The text of each.
    pub(crate) labels: Vec<String>,
    /// The box right above each.
    pub(crate) aboves: Vec<Option<usize>>,
}

/// Whether a name is this text in quotes.
fn is_quoted(alloc: Global, name: &str, text: &str) -> Result<bool, AllocError>
    ensures { IfOk result (λ quoted. quoted ≡ is_quoted name.now text.now) }
{
    let mut quoted = String::new(alloc);
    put("'", &mut quoted)?;
    put(text, &mut quoted)?;
    put("'", &mut quoted)?;
    Ok(name == quoted.as_str())
}

/// Appends a label as it stands in a picture, where a token with its text as name has that alone.
fn push_short_label(alloc: Global, label: Label<'_>, out: &mut String) -> Result<(), AllocError>
    ensures { OnOk result (string_bytes out.new ≡ string_bytes out.old ++ short_label label.entry) }
{
    match label {
        Label::Token { name, text } => {
            if is_quoted(alloc, name, text)? {
                push_name(name, out)
            } else {
                push_label(label, out)
            }
        }
        _ => push_label(label, out),
    }
}

/// Counts one more at a place, if it is there.
fn count_one(at: Option<usize>, counts: &mut [usize])
    requires { EachIndex counts.old (λ k. slice_index counts.old k < usize.MAX) }
    ensures { EachIndex counts.new (λ k. slice_index counts.new k ≡ slice_index counts.old k +
        one_if (is_that k at)) }
{
    if let Some(at) = at {
        if at < counts.len() {
            counts[at] += 1;
        }
    }
}

/// Counts each node at the place of the one right above it.
fn count_all(nodes: &[Node<'_>], counts: &mut [usize])
    requires { counts.old ≡ replicate (length nodes.now) 0 }
    ensures { counts.new ≡ counts_of nodes.now }
{
    for node in nodes {
        count_one(node.above, counts);
    }
}

/// How many nodes are right below each node.
fn counts_below(alloc: Global, nodes: &[Node<'_>]) -> Result<Vec<usize>, AllocError>
    ensures { IfOk result (λ counts. counts.items ≡ counts_of nodes.now) }
{
    let mut counts = vec![in alloc; 0usize; nodes.len()]?;
    count_all(nodes, &mut counts);
    Ok(counts)
}

fn count_at(counts: &[usize], i: usize) -> usize
    ensures { result ≡ slice_index counts.now i }
{
    counts.get(i).copied().unwrap_or(0)
}

fn is_behind(above: Option<usize>, i: usize) -> bool
    ensures { result ≡ boxes.is_behind above i }
{
    match above {
        Some(above) => i > 0 && above == i - 1,
        None => false,
    }
}

/// Whether the node at a place stands in the box of the one before it: it is the only one right below that one, and there are others below it.
fn shares(counts: &[usize], i: usize, node: &Node<'_>) -> bool
    ensures { result ≡ boxes.shares counts.now i node.now }
{
    is_behind(node.above, i)
        && count_at(counts, i.saturating_sub(1)) == 1
        && count_at(counts, i) > 0
}

/// Appends what is in a box after its first node, which is the one before this place.
fn push_behind(
    alloc: Global,
    counts: &[usize],
    nodes: &[Node<'_>],
    from: usize,
    out: &mut String,
) -> Result<(), AllocError>
    ensures { OnOk result (string_bytes out.new ≡ string_bytes out.old ++ label_behind counts.now from
        (drop from nodes.now)) }
{
    for i in from..nodes.len() {
        let node = &nodes[i];
        if !shares(counts, i, node) {
            return Ok(());
        }
        put(" · ", out)?;
        push_short_label(alloc, node.label, out)?;
    }
    Ok(())
}

/// The text of the box whose first node is at this place.
fn label_of(
    alloc: Global,
    counts: &[usize],
    nodes: &[Node<'_>],
    i: usize,
    node: &Node<'_>,
) -> Result<String, AllocError>
    requires { i < length nodes.now }
    ensures { IfOk result (λ text. string_bytes text ≡ box_label counts.now i node.now
        (drop (i + 1) nodes.now)) }
{
    let mut label = String::new(alloc);
    push_short_label(alloc, node.label, &mut label)?;
    push_behind(alloc, counts, nodes, i + 1, &mut label)?;
    Ok(label)
}

/// The text of each box.
fn labels_of(alloc: Global, counts: &[usize], nodes: &[Node<'_>]) -> Result<Vec<String>, AllocError>
    ensures { IfOk result (λ labels. map string_bytes labels.items ≡ labels_from counts.now 0 nodes.now) }
{
    let mut labels = Vec::new(alloc);
    for (i, node) in nodes.iter().enumerate() {
        if shares(counts, i, node) {
            continue;
        }
        labels.push(label_of(alloc, counts, nodes, i, node)?)?;
    }
    Ok(labels)
}

/// The box that each node stands in.
fn places_of(alloc: Global, counts: &[usize], nodes: &[Node<'_>]) -> Result<Vec<usize>, AllocError>
    ensures { IfOk result (λ places. places.items ≡ places_from counts.now 0 0 nodes.now) }
{
    let mut places = Vec::new(alloc);
    let mut boxes = 0usize;
    for (i, node) in nodes.iter().enumerate() {
        if !shares(counts, i, node) {
            boxes += 1;
        }
        places.push(boxes.saturating_sub(1))?;
    }
    Ok(places)
}

fn place_of(places: &[usize], node: Option<usize>) -> Option<usize>
    ensures { result ≡ place_of places.now node }
{
    match node {
        Some(node) => places.get(node).copied(),
        None => None,
    }
}

/// The box right above each box.
fn aboves_of(
    alloc: Global,
    counts: &[usize],
    nodes: &[Node<'_>],
    places: &[usize],
) -> Result<Vec<Option<usize>>, AllocError>
    ensures { IfOk result (λ aboves. aboves.items ≡ aboves_from counts.now places.now 0 nodes.now) }
{
    let mut aboves = Vec::new(alloc);
    for (i, node) in nodes.iter().enumerate() {
        if !shares(counts, i, node) {
            aboves.push(place_of(places, node.above))?;
        }
    }
    Ok(aboves)
}

/// The boxes of some nodes, in their order, by how many nodes are right below each node.
fn boxes_by(alloc: Global, counts: &[usize], nodes: &[Node<'_>]) -> Result<Boxes, AllocError>
    requires { counts.now ≡ counts_of nodes.now }
    ensures boxes { IfOk result (λ all. AreBoxes nodes.now (map string_bytes all.labels.items)
        all.aboves.items) }
    ensures each { IfOk result (λ all. length all.labels.items ≡ length all.aboves.items) }
{
    let labels = labels_of(alloc, counts, nodes)?;
    let places = places_of(alloc, counts, nodes)?;
    let aboves = aboves_of(alloc, counts, nodes, &places)?;
    Ok(Boxes { labels, aboves })
}

/// The boxes of some nodes, in their order.
pub(crate) fn boxes_of(alloc: Global, nodes: &[Node<'_>]) -> Result<Boxes, AllocError>
    ensures boxes { IfOk result (λ all. AreBoxes nodes.now (map string_bytes all.labels.items)
        all.aboves.items) }
    ensures each { IfOk result (λ all. length all.labels.items ≡ length all.aboves.items) }
{
    let counts = counts_below(alloc, nodes)?;
    boxes_by(alloc, &counts, nodes)
}
