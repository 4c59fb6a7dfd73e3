// A tree as a graph for Graphviz.
ghost use Rattle.std.specs.Prelude.{◌≡◌, ◌++◌, OnOk, string_bytes};
ghost use Rattle.tree_text.specs.Written as written;
ghost use Rattle.tree_text.specs.Written.{box, graph_of};

use crate::labels::push_quoted;
use crate::puts::{put, put_number};
use crate::{Node, push_label};
use std::alloc::{AllocError, Global};

/// Appends the box of the node at this place.
fn push_box(i: usize, label: &str, out: &mut String) -> Result<(), AllocError>
    ensures { OnOk result (string_bytes out.new ≡ string_bytes out.old ++ box i label.now) }
{
    put("  n", out)?;
    put_number(i as u64, out)?;
    put(" [label=", out)?;
    push_quoted(label, out)?;
    put("];\n", out)
}

/// Appends the line from the node right above, if there is one.
fn push_edge(above: Option<usize>, i: usize, out: &mut String) -> Result<(), AllocError>
    ensures { OnOk result (string_bytes out.new ≡ string_bytes out.old ++ written.edge above i) }
{
    match above {
        Some(above) => {
            put("  n", out)?;
            put_number(above as u64, out)?;
            put(" -> n", out)?;
            put_number(i as u64, out)?;
            put(";\n", out)
        }
        None => Ok(()),
    }
}

fn push_boxes(alloc: Global, nodes: &[Node<'_>], out: &mut String) -> Result<(), AllocError>
    ensures { OnOk result (string_bytes out.new ≡ string_bytes out.old ++ written.boxes_from 0
        nodes.now) }
{
    let mut label = String::new(alloc);
    for (i, node) in nodes.iter().enumerate() {
        label.clear();
        push_label(node.label, &mut label)?;
        push_box(i, label.as_str(), out)?;
        push_edge(node.above, i, out)?;
    }
    Ok(())
}

/// Appends a graph with a box for each node of the trees.
pub fn push_dot(alloc: Global, nodes: &[Node<'_>], out: &mut String) -> Result<(), AllocError>
    ensures { OnOk result (string_bytes out.new ≡ string_bytes out.old ++ graph_of nodes.now) }
{
    put(
        "digraph tree {\n  ordering=out;\n  node [shape=box, fontname=\"monospace\"];\n  edge [arrowhead=none];\n",
        out,
    )?;
    push_boxes(alloc, nodes, out)?;
    put("}\n", out)
}
