// A tree as indented lines.
ghost use Rattle.std.specs.Prelude.{◌≡◌, ◌++◌, OnOk, string_bytes, flat_map};
ghost use Rattle.tree_text.specs.Written.{rail, branch, depth_text, rails, branches, ended_with, lines_of};

use crate::puts::{put, put_number};
use crate::{Node, push_label};
use std::alloc::{AllocError, Global};

// From this depth on a node's depth is told, and not the lines from the nodes above it.
const DEEP: usize = 60;

fn push_rail(last: bool, out: &mut String) -> Result<(), AllocError>
    ensures { OnOk result (string_bytes out.new ≡ string_bytes out.old ++ rail last) }
{
    if last { put("  ", out) } else { put("│ ", out) }
}

fn push_each_rail(ended: &[bool], out: &mut String) -> Result<(), AllocError>
    ensures { OnOk result (string_bytes out.new ≡ string_bytes out.old ++ flat_map rail ended.now) }
{
    for last in ended {
        push_rail(*last, out)?;
    }
    Ok(())
}

fn push_depth(depth: u64, out: &mut String) -> Result<(), AllocError>
    ensures { OnOk result (string_bytes out.new ≡ string_bytes out.old ++ depth_text depth) }
{
    put("… ", out)?;
    put_number(depth, out)?;
    put(" ", out)
}

/// Appends the lines from the nodes above a node to what comes after it. `ended` tells of each of them but the first whether it is the last one.
fn push_rails(depth: usize, ended: &[bool], out: &mut String) -> Result<(), AllocError>
    ensures { OnOk result (string_bytes out.new ≡ string_bytes out.old ++ rails depth ended.now) }
{
    if depth < DEEP {
        push_each_rail(ended, out)
    } else {
        push_depth(depth as u64, out)
    }
}

fn push_branch(last: bool, out: &mut String) -> Result<(), AllocError>
    ensures { OnOk result (string_bytes out.new ≡ string_bytes out.old ++ branch last) }
{
    if last { put("└ ", out) } else { put("├ ", out) }
}

/// Appends what stands in front of a node's label. `ended` tells of the nodes above it, but the first, whether each is the last one, and then of the node, too.
fn push_branches(node: &Node<'_>, ended: &mut Vec<bool>, out: &mut String) -> Result<(), AllocError>
    ensures written { OnOk result (string_bytes out.new ≡ string_bytes out.old ++ branches node.now
        ended.old.items) }
    ensures ended { OnOk result (ended.new.items ≡ ended_with node.now ended.old.items) }
{
    if node.depth == 0 {
        return Ok(());
    }
    ended.truncate(node.depth - 1);
    push_rails(node.depth, ended, out)?;
    ended.push(node.last)?;
    push_branch(node.last, out)
}

/// Appends a line for each node, each level two places to the right of the one above it.
pub fn push_indented(alloc: Global, nodes: &[Node<'_>], out: &mut String) -> Result<(), AllocError>
    ensures { OnOk result (string_bytes out.new ≡ string_bytes out.old ++ lines_of nodes.now) }
{
    let mut ended: Vec<bool> = Vec::new(alloc);
    for node in nodes {
        push_branches(node, &mut ended, out)?;
        push_label(node.label, out)?;
        put("\n", out)?;
    }
    Ok(())
}
