// What is shown of the lines of the input.
use crate::lines::{Entry, Lines};
use crate::stop::Stop;
use crate::words::Form;
use slif_base::{Sink, Source, write_all};
use std::alloc::{AllocError, Global};
use tree_pictures::{push_rules, push_svg};
use tree_text::{
    Difference, Part, first_difference, nodes_of, push_difference, push_dot, push_indented,
    push_json,
};

/// Appends a tree in this form, after an empty line where it is not the first.
fn push_tree(
    alloc: Global,
    form: Form,
    first: bool,
    parts: &[Part],
    out: &mut String,
) -> Result<(), AllocError> {
    if let Form::Json = form {
        return push_json(parts, out);
    }
    if !first {
        out.push('\n')?;
    }
    let nodes = nodes_of(alloc, parts)?;
    push_indented(alloc, &nodes, out)
}

/// Appends a line that tells of the others, as it stands. JSON has no place for it.
fn push_note(form: Form, first: bool, note: &str, out: &mut String) -> Result<(), AllocError> {
    if let Form::Json = form {
        return Ok(());
    }
    out.push_str(if first { "" } else { "\n" })?;
    out.push_str(note)?;
    out.push('\n')
}

/// Appends what is shown of a line.
fn push_entry(
    alloc: Global,
    form: Form,
    first: bool,
    entry: &Entry,
    out: &mut String,
) -> Result<(), AllocError> {
    match entry {
        Entry::Value(parts) => push_tree(alloc, form, first, parts, out),
        Entry::Note(note) => push_note(form, first, note.as_str(), out),
    }
}

/// Writes each line as soon as it is read.
fn show_each<S: Source, K: Sink>(
    alloc: Global,
    form: Form,
    lines: &mut Lines<S>,
    sink: &mut K,
) -> Result<(), Stop> {
    let mut out = String::new(alloc);
    let mut first = true;
    for _ in 0..u64::MAX {
        let Some(entry) = lines.next_entry(alloc)? else {
            return Ok(());
        };
        out.clear();
        let pushed = push_entry(alloc, form, first, &entry, &mut out);
        drop(entry);
        pushed?;
        first = false;
        write_all(sink, out.as_bytes())?;
    }
    Err(Stop::NoMemory)
}

/// The parts of the values on all lines.
fn all_parts<S: Source>(alloc: Global, lines: &mut Lines<S>) -> Result<Vec<Part>, Stop> {
    let mut all = Vec::new(alloc);
    for _ in 0..u64::MAX {
        let Some(mut parts) = lines.next_value(alloc)? else {
            return Ok(all);
        };
        all.append(&mut parts)?;
    }
    Err(Stop::NoMemory)
}

/// Appends one picture of all trees.
fn push_picture<S: Source>(
    alloc: Global,
    form: Form,
    lines: &mut Lines<S>,
    out: &mut String,
) -> Result<usize, Stop> {
    let parts = all_parts(alloc, lines)?;
    let nodes = nodes_of(alloc, &parts)?;
    if let Form::Dot = form {
        push_dot(alloc, &nodes, out)?;
        return Ok(0);
    }
    push_svg(alloc, &nodes, out)?;
    Ok(nodes.len())
}

/// Appends the rules of the grammar whose tree the first line is.
fn push_first_rules<S: Source>(
    alloc: Global,
    lines: &mut Lines<S>,
    out: &mut String,
) -> Result<(), Stop> {
    let parts = lines.next_value(alloc)?.ok_or(Stop::NoGrammar)?;
    let nodes = nodes_of(alloc, &parts)?;
    if !push_rules(alloc, &nodes, out)? {
        return Err(Stop::NoGrammar);
    }
    Ok(())
}

/// Appends where two trees first differ.
fn push_first_difference(
    alloc: Global,
    one: &[Part],
    other: &[Part],
    out: &mut String,
) -> Result<(), AllocError> {
    let one = nodes_of(alloc, one)?;
    let other = nodes_of(alloc, other)?;
    match first_difference(&one, &other) {
        Difference::Same => out.push_str("the same\n"),
        Difference::Within(at) => push_difference(alloc, &one, &other, at, out),
        Difference::Apart => out.push_str("nothing in common\n"),
    }
}

/// Appends where the trees on the first two lines first differ.
fn push_comparison<S: Source>(
    alloc: Global,
    lines: &mut Lines<S>,
    out: &mut String,
) -> Result<(), Stop> {
    let one = lines.next_value(alloc)?.ok_or(Stop::NoTwoTrees)?;
    let other = lines.next_value(alloc)?.ok_or(Stop::NoTwoTrees)?;
    push_first_difference(alloc, &one, &other, out)?;
    Ok(())
}

/// Writes what this form tells of all trees together, and gives how many nodes the picture has, if it is one.
fn show_all<S: Source, K: Sink>(
    alloc: Global,
    form: Form,
    lines: &mut Lines<S>,
    sink: &mut K,
) -> Result<usize, Stop> {
    let mut out = String::new(alloc);
    let mut drawn = 0;
    match form {
        Form::Difference => push_comparison(alloc, lines, &mut out)?,
        Form::Rules => push_first_rules(alloc, lines, &mut out)?,
        _ => drawn = push_picture(alloc, form, lines, &mut out)?,
    }
    write_all(sink, out.as_bytes())?;
    Ok(drawn)
}

/// Writes the lines of the input in this form, and gives how many nodes the picture has, if it is one.
pub(crate) fn show<S: Source + Drop, K: Sink>(
    alloc: Global,
    form: Form,
    source: S,
    sink: &mut K,
) -> Result<usize, Stop> {
    let mut lines = Lines::new(alloc, source);
    match form {
        Form::Indent | Form::Json => {
            show_each(alloc, form, &mut lines, sink)?;
            Ok(0)
        }
        Form::Dot | Form::Svg | Form::Difference | Form::Rules => {
            show_all(alloc, form, &mut lines, sink)
        }
    }
}
