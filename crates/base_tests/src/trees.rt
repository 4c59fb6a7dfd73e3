//! Values as JSON, and where two trees differ.
use std::alloc::{AllocError, Global};
use std::test::Fail;
use tree_text::{
    Difference, Node, Part, ReadRefusal, first_difference, nodes_of, push_difference, push_json,
    read_value,
};

fn json_is(alloc: Global, parts: &[Part], wanted: &str) -> Result<bool, AllocError> {
    let mut out = String::new(alloc);
    push_json(parts, &mut out)?;
    Ok(out.as_str() == wanted)
}

// Whether a value is this JSON.
fn is_json(alloc: Global, text: &str, wanted: &str) -> Result<bool, ReadRefusal> {
    let parts = read_value(alloc, text)?;
    let same = json_is(alloc, &parts, wanted);
    drop(parts);
    Ok(same?)
}

#[test]
fn a_value_is_json(rt: HostRuntime) -> Result<(), Fail> {
    let value = "[[\"n\"],undef,[],7,\"a\\n\\\"\\$\\@\\x{00}\u{e4}\"]";
    let json = "[[\"n\"],null,[],7,\"a\\n\\\"$@\\u0000\u{e4}\"]\n";
    assert!(rt; is_json(rt.alloc(), value, json)?);
    Ok(())
}

fn put_difference(
    alloc: Global,
    one: &[Node<'_>],
    other: &[Node<'_>],
    out: &mut String,
) -> Result<(), AllocError> {
    match first_difference(one, other) {
        Difference::Same => out.push_str("the same"),
        Difference::Within(at) => push_difference(alloc, one, other, at, out),
        Difference::Apart => out.push_str("nothing in common"),
    }
}

fn nodes_differ(
    alloc: Global,
    one: &[Node<'_>],
    other: &[Node<'_>],
    wanted: &str,
) -> Result<bool, AllocError> {
    let mut out = String::new(alloc);
    put_difference(alloc, one, other, &mut out)?;
    Ok(out.as_str() == wanted)
}

fn parts_differ(
    alloc: Global,
    one: &[Part],
    other: &[Part],
    wanted: &str,
) -> Result<bool, AllocError> {
    let one = nodes_of(alloc, one)?;
    let other = nodes_of(alloc, other)?;
    nodes_differ(alloc, &one, &other, wanted)
}

fn differs(alloc: Global, one: &[Part], other: &str, wanted: &str) -> Result<bool, ReadRefusal> {
    let other = read_value(alloc, other)?;
    let told = parts_differ(alloc, one, &other, wanted);
    drop(other);
    Ok(told?)
}

// Two values, and what is told of how they differ.
type Row = (&'static str, &'static str, &'static str);

fn is_told(alloc: Global, row: &Row) -> Result<bool, ReadRefusal> {
    let one = read_value(alloc, row.0)?;
    let told = differs(alloc, &one, row.1, row.2);
    drop(one);
    told
}

// Both derivations of 1+1+1 by E ::= E '+' E | '1'.
const LEFT: &str =
    "[\"E\",0,[\"E\",0,[\"E\",1,[\"'1'\",\"1\"]],[\"'+'\",\"+\"],[\"E\",1,[\"'1'\",\"1\"]]],[\"'+'\",\"+\"],[\"E\",1,[\"'1'\",\"1\"]]]";

const RIGHT: &str =
    "[\"E\",0,[\"E\",1,[\"'1'\",\"1\"]],[\"'+'\",\"+\"],[\"E\",0,[\"E\",1,[\"'1'\",\"1\"]],[\"'+'\",\"+\"],[\"E\",1,[\"'1'\",\"1\"]]]]";

static ROWS: &[Row] = &[
    (
        LEFT,
        RIGHT,
        "E from 0 to 5: rule 0 (3+1+1), rule 0 (1+1+3)\n  rule 0: 1 + 1 | + | 1\n  rule 0: 1 | + | 1 + 1\n",
    ),
    (LEFT, LEFT, "the same"),
    ("[\"A\",0]", "[\"B\",0]", "nothing in common"),
];

#[test]
fn differences_are_told(rt: HostRuntime) -> Result<(), Fail> {
    for row in ROWS {
        assert!(rt; is_told(rt.alloc(), row)?);
    }
    Ok(())
}

// The second B, over the third token, is by another rule; the first, and what is above both, look the same.
const SMALLEST: &Row = &(
    "[\"S\",0,[\"A\",1,[\"B\",2,[\"x\",\"x\"]],[\"y\",\"y\"]],[\"B\",2,[\"x\",\"x\"]]]",
    "[\"S\",0,[\"A\",1,[\"B\",2,[\"x\",\"x\"]],[\"y\",\"y\"]],[\"B\",3,[\"C\",4,[\"x\",\"x\"]]]]",
    "B from 2 to 3: rule 2 (1), rule 3 (1)\n  rule 2: x\n  rule 3: x\n",
);

#[test]
fn the_smallest_node_is_told(rt: HostRuntime) -> Result<(), Fail> {
    assert!(rt; is_told(rt.alloc(), SMALLEST)?);
    Ok(())
}

// One more nulled part at the end: the list is the same to its last token.
const ONE_MORE: &Row = &(
    "[\"S\",0,[\"L\",1,[\"x\",\"x\"]],[\"y\",\"y\"]]",
    "[\"S\",0,[\"L\",1,[\"x\",\"x\"],[\"n\"]],[\"y\",\"y\"]]",
    "L from 0 to 1: rule 1 (1), rule 1 (1+0)\n  rule 1: x\n  rule 1: x | ()\n",
);

#[test]
fn a_part_more_is_told(rt: HostRuntime) -> Result<(), Fail> {
    assert!(rt; is_told(rt.alloc(), ONE_MORE)?);
    Ok(())
}
