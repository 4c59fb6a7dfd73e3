//! Trees as lines, graphs and pictures.
use std::alloc::{AllocError, Global};
use std::test::Fail;
use tree_pictures::push_svg;
use tree_text::{Label, Node, Part, ReadRefusal, nodes_of, push_dot, push_indented, read_value};

// How trees are drawn.
#[derive(Clone, Copy)]
enum Drawing {
    Lines,
    Graph,
    Picture,
}

fn draw(
    alloc: Global,
    nodes: &[Node<'_>],
    drawing: Drawing,
    out: &mut String,
) -> Result<(), AllocError> {
    match drawing {
        Drawing::Lines => push_indented(alloc, nodes, out),
        Drawing::Graph => push_dot(alloc, nodes, out),
        Drawing::Picture => push_svg(alloc, nodes, out),
    }
}

fn nodes_are(
    alloc: Global,
    nodes: &[Node<'_>],
    drawing: Drawing,
    wanted: &str,
) -> Result<bool, AllocError> {
    let mut out = String::new(alloc);
    draw(alloc, nodes, drawing, &mut out)?;
    Ok(out.as_str() == wanted)
}

fn parts_are(
    alloc: Global,
    parts: &[Part],
    drawing: Drawing,
    wanted: &str,
) -> Result<bool, AllocError> {
    let nodes = nodes_of(alloc, parts)?;
    nodes_are(alloc, &nodes, drawing, wanted)
}

fn put_value(alloc: Global, text: &str, parts: &mut Vec<Part>) -> Result<(), ReadRefusal> {
    for part in read_value(alloc, text)? {
        parts.push(part)?;
    }
    Ok(())
}

// The parts of values, one after another.
fn parts_of(alloc: Global, texts: &[&str]) -> Result<Vec<Part>, ReadRefusal> {
    let mut parts = Vec::new(alloc);
    for text in texts {
        put_value(alloc, text, &mut parts)?;
    }
    Ok(parts)
}

// Whether values are drawn so.
fn are_drawn(
    alloc: Global,
    texts: &[&str],
    drawing: Drawing,
    wanted: &str,
) -> Result<bool, ReadRefusal> {
    let parts = parts_of(alloc, texts)?;
    let drawn = parts_are(alloc, &parts, drawing, wanted);
    drop(parts);
    Ok(drawn?)
}

// A derivation of 1+1+1 by E ::= E '+' E | '1'.
const SUM: &str =
    "[\"E\",0,[\"E\",0,[\"E\",1,[\"'1'\",\"1\"]],[\"'+'\",\"+\"],[\"E\",1,[\"'1'\",\"1\"]]],[\"'+'\",\"+\"],[\"E\",1,[\"'1'\",\"1\"]]]";

const SUM_LINES: &str =
    "E 0\n├ E 0\n│ ├ E 1\n│ │ └ '1' \"1\"\n│ ├ '+' \"+\"\n│ └ E 1\n│   └ '1' \"1\"\n├ '+' \"+\"\n└ E 1\n  └ '1' \"1\"\n";

#[test]
fn a_tree_is_indented(rt: HostRuntime) -> Result<(), Fail> {
    assert!(rt; are_drawn(rt.alloc(), &[SUM], Drawing::Lines, SUM_LINES)?);
    Ok(())
}

#[test]
fn other_values_are_indented(rt: HostRuntime) -> Result<(), Fail> {
    let values = "[[\"n\"],undef,[],7,\"a\\n\\\"\"]";
    let lines = "[]\n├ n\n├ undef\n├ []\n├ 7\n└ \"a\\n\\\"\"\n";
    assert!(rt; are_drawn(rt.alloc(), &[values], Drawing::Lines, lines)?);
    Ok(())
}

const TREE: &str = "[\"S\",0,[\"a\",\"<\"],[\"n\"]]";

const GRAPH: &str =
    "digraph tree {\n  ordering=out;\n  node [shape=box, fontname=\"monospace\"];\n  edge [arrowhead=none];\n  n0 [label=\"S 0\"];\n  n1 [label=\"a \\\"<\\\"\"];\n  n0 -> n1;\n  n2 [label=\"n\"];\n  n0 -> n2;\n}\n";

#[test]
fn a_tree_is_a_graph(rt: HostRuntime) -> Result<(), Fail> {
    assert!(rt; are_drawn(rt.alloc(), &[TREE], Drawing::Graph, GRAPH)?);
    Ok(())
}

// Boxes are 9 wide for each character and 14 more: 41, 59 and 23, the two below 12 apart, their middles as far from that of the box above.
const PICTURE: &str =
    "<svg xmlns=\"http://www.w3.org/2000/svg\" width=\"113\" height=\"98\" font-family=\"monospace\" font-size=\"14\">\n\
     <rect width=\"100%\" height=\"100%\" fill=\"#fff\"/>\n\
     <line x1=\"65\" y1=\"36\" x2=\"39\" y2=\"62\" stroke=\"#888\"/>\n\
     <line x1=\"65\" y1=\"36\" x2=\"91\" y2=\"62\" stroke=\"#888\"/>\n\
     <rect x=\"45\" y=\"10\" width=\"41\" height=\"26\" rx=\"4\" fill=\"#fff\" stroke=\"#888\"/>\n\
     <text x=\"65\" y=\"28\" text-anchor=\"middle\">S 0</text>\n\
     <rect x=\"10\" y=\"62\" width=\"59\" height=\"26\" rx=\"4\" fill=\"#fff\" stroke=\"#888\"/>\n\
     <text x=\"39\" y=\"80\" text-anchor=\"middle\">a \"&lt;\"</text>\n\
     <rect x=\"80\" y=\"62\" width=\"23\" height=\"26\" rx=\"4\" fill=\"#fff\" stroke=\"#888\"/>\n\
     <text x=\"91\" y=\"80\" text-anchor=\"middle\">n</text>\n\
     </svg>\n";

#[test]
fn a_tree_is_a_picture(rt: HostRuntime) -> Result<(), Fail> {
    assert!(rt; are_drawn(rt.alloc(), &[TREE], Drawing::Picture, PICTURE)?);
    Ok(())
}

// Two trees of one box each, 23 wide and 60 apart.
const PICTURES: &str =
    "<svg xmlns=\"http://www.w3.org/2000/svg\" width=\"125\" height=\"46\" font-family=\"monospace\" font-size=\"14\">\n\
     <rect width=\"100%\" height=\"100%\" fill=\"#fff\"/>\n\
     <rect x=\"10\" y=\"10\" width=\"23\" height=\"26\" rx=\"4\" fill=\"#fff\" stroke=\"#888\"/>\n\
     <text x=\"21\" y=\"28\" text-anchor=\"middle\">n</text>\n\
     <rect x=\"92\" y=\"10\" width=\"23\" height=\"26\" rx=\"4\" fill=\"#fff\" stroke=\"#888\"/>\n\
     <text x=\"103\" y=\"28\" text-anchor=\"middle\">m</text>\n\
     </svg>\n";

#[test]
fn trees_stand_beside_each_other(rt: HostRuntime) -> Result<(), Fail> {
    let texts = ["[\"n\"]", "[\"m\"]"];
    assert!(rt; are_drawn(rt.alloc(), &texts, Drawing::Picture, PICTURES)?);
    Ok(())
}

fn node(name: &str, above: Option<usize>) -> Node<'_> {
    Node {
        label: Label::Nulled { name },
        depth: 0,
        above,
        last: true,
        before: 0,
        tokens: 0,
    }
}

// A node that is not there is above nothing: the two are trees of one box each.
#[test]
fn an_above_may_be_no_node(rt: HostRuntime) -> Result<(), Fail> {
    let nodes = [node("n", Some(9)), node("m", None)];
    assert!(rt; nodes_are(rt.alloc(), &nodes, Drawing::Picture, PICTURES)?);
    Ok(())
}

// A has B alone below it, so both stand in one box; the token 'x' has its text as name, and that alone.
const CHAIN: &str = "[\"A\",0,[\"B\",1,[\"'x'\",\"x\"],[\"n\"]]]";

const CHAIN_PICTURE: &str =
    "<svg xmlns=\"http://www.w3.org/2000/svg\" width=\"115\" height=\"98\" font-family=\"monospace\" font-size=\"14\">\n\
     <rect width=\"100%\" height=\"100%\" fill=\"#fff\"/>\n\
     <line x1=\"57\" y1=\"36\" x2=\"36\" y2=\"62\" stroke=\"#888\"/>\n\
     <line x1=\"57\" y1=\"36\" x2=\"79\" y2=\"62\" stroke=\"#888\"/>\n\
     <rect x=\"10\" y=\"10\" width=\"95\" height=\"26\" rx=\"4\" fill=\"#fff\" stroke=\"#888\"/>\n\
     <text x=\"57\" y=\"28\" text-anchor=\"middle\">A 0 · B 1</text>\n\
     <rect x=\"16\" y=\"62\" width=\"41\" height=\"26\" rx=\"4\" fill=\"#fff\" stroke=\"#888\"/>\n\
     <text x=\"36\" y=\"80\" text-anchor=\"middle\">'x'</text>\n\
     <rect x=\"68\" y=\"62\" width=\"23\" height=\"26\" rx=\"4\" fill=\"#fff\" stroke=\"#888\"/>\n\
     <text x=\"79\" y=\"80\" text-anchor=\"middle\">n</text>\n\
     </svg>\n";

#[test]
fn a_chain_is_a_box(rt: HostRuntime) -> Result<(), Fail> {
    assert!(rt; are_drawn(rt.alloc(), &[CHAIN], Drawing::Picture, CHAIN_PICTURE)?);
    Ok(())
}
