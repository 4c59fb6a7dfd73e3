// The rules of a grammar, by the tree of its text in the language of grammars.
ghost use Rattle.std.specs.Prelude.{◌≡◌, ◌++◌, ◌||◌, ◌≤◌, ◌<◌, length, drop, if◌then◌else◌, [], false, IfOk, OnOk, string_bytes, option_map, codes};
ghost use Rattle.std.specs.List.{prefix_len};
ghost use Rattle.tree_pictures.specs.Rules as rules;
ghost use Rattle.tree_pictures.specs.Rules.{part_piece, alternative_text, piece_of, sequence_from, right_text, rule_line, line_of, number_from, lines_from, rules_text};
ghost use Rattle.tree_text.specs.Telling.{text_if, is_deeper};

use crate::puts::{put, put_number};
use std::alloc::{AllocError, Global};
use tree_text::{Label, Node, push_name};

/// How a rule is written.
#[derive(Clone, Copy, PartialEq, Eq)]
enum Form {
    /// An alternative, of a statement that others may stand in.
    Alternative,
    Sequence,
    Empty,
}

/// Whether a node is that of a rule whose symbol has this name.
fn is_rule(node: &Node<'_>, wanted: &str) -> bool
    ensures { result ≡ rules.is_rule wanted.now node.now }
{
    match node.label {
        Label::Rule { name, .. } => name == wanted,
        _ => false,
    }
}

/// Whether a node is a token with this text.
fn has_text(node: &Node<'_>, wanted: &str) -> bool
    ensures { result ≡ rules.has_text wanted.now node.now.label }
{
    match node.label {
        Label::Token { text, .. } => text == wanted,
        _ => false,
    }
}

fn is_part_name(name: &str) -> bool
    ensures { result ≡ rules.is_part_name name.now }
{
    name == "word" || name == "angle" || name == "quote" || name == "class"
}

fn is_sign_name(name: &str) -> bool
    ensures { result ≡ rules.is_sign_name name.now }
{
    name == "'*'" || name == "'+'"
}

/// The text of a name, a quoted text or a class of the grammar.
fn part_text<'p>(node: &Node<'p>) -> Option<&'p str>
    ensures { option_map (λ t. t.now) result ≡ rules.part_text node.now }
{
    match node.label {
        Label::Token { name, text } if is_part_name(name) => Some(text),
        _ => None,
    }
}

/// The text of the sign of a sequence.
fn sign_text<'p>(node: &Node<'p>) -> Option<&'p str>
    ensures { option_map (λ t. t.now) result ≡ rules.text_in rules.is_sign_name node.now.label }
{
    match node.label {
        Label::Token { name, text } if is_sign_name(name) => Some(text),
        _ => None,
    }
}

/// The left side of a statement, by the nodes from its first one on.
fn left_of<'p>(nodes: &[Node<'p>]) -> &'p str
    ensures { result.now ≡ rules.left_of nodes.now }
{
    for node in nodes {
        if let Some(text) = part_text(node) {
            return text;
        }
    }
    ""
}

/// Whether a statement is of a rule with `::=`: its sign stands before its first adverb, and before the next statement.
fn is_structural(nodes: &[Node<'_>]) -> bool
    ensures { result ≡ rules.is_structural nodes.now }
{
    for node in nodes {
        if has_text(node, "::=") {
            return true;
        }
        if has_text(node, "~") {
            return false;
        }
    }
    false
}

/// How the rule of a node is written, which is the first one of the nodes.
fn form_of(node: &Node<'_>, nodes: &[Node<'_>]) -> Option<Form>
    ensures { result ≡ rules.form_of node.now nodes.now }
{
    if is_rule(node, "alternative") {
        Some(Form::Alternative)
    } else if is_rule(node, "sequence") {
        Some(Form::Sequence)
    } else if is_rule(node, "empty") && is_structural(nodes) {
        Some(Form::Empty)
    } else {
        None
    }
}

fn is_statement(form: Option<Form>) -> bool
    ensures { result ≡ rules.is_statement form }
{
    match form {
        Some(Form::Sequence) | Some(Form::Empty) => true,
        _ => false,
    }
}

fn push_part(node: &Node<'_>, out: &mut String) -> Result<(), AllocError>
    ensures { OnOk result (string_bytes out.new ≡ string_bytes out.old ++ part_piece node.now) }
{
    match part_text(node) {
        Some(text) => {
            put(" ", out)?;
            push_name(text, out)
        }
        None => Ok(()),
    }
}

fn is_in_parts(node: &Node<'_>, depth: usize) -> bool
    ensures { result ≡ rules.is_in_parts depth node.now }
{
    depth < node.depth && !is_rule(node, "rule_adverbs")
}

fn count_parts(nodes: &[Node<'_>], depth: usize) -> usize
    ensures within { result ≤ length nodes.now }
    ensures count { result ≡ prefix_len (rules.is_in_parts depth) nodes.now }
{
    let mut count = 0;
    while count < nodes.len() && is_in_parts(&nodes[count], depth) {
        count += 1;
    }
    count
}

fn count_below(nodes: &[Node<'_>], depth: usize) -> usize
    ensures within { result ≤ length nodes.now }
    ensures count { result ≡ prefix_len (is_deeper depth) nodes.now }
{
    let mut count = 0;
    while count < nodes.len() && depth < nodes[count].depth {
        count += 1;
    }
    count
}

/// The nodes below a rule's in front of its adverbs, of those after it.
fn parts_of<'n, 'p: 'n>(nodes: &'n [Node<'p>], depth: usize) -> &'n [Node<'p>]
    ensures { result.now ≡ rules.parts_of depth nodes.now }
{
    let count = count_parts(nodes, depth);
    &nodes[..count]
}

/// The nodes below one of this depth, of those after it.
fn below_of<'n, 'p: 'n>(nodes: &'n [Node<'p>], depth: usize) -> &'n [Node<'p>]
    ensures { result.now ≡ rules.below_of depth nodes.now }
{
    let count = count_below(nodes, depth);
    &nodes[..count]
}

/// Appends the parts of an alternative, each after a space.
fn push_alternative(nodes: &[Node<'_>], depth: usize, out: &mut String) -> Result<(), AllocError>
    ensures { OnOk result (string_bytes out.new ≡ string_bytes out.old ++ alternative_text depth
        nodes.now) }
{
    let parts = parts_of(nodes, depth);
    for node in parts {
        push_part(node, out)?;
    }
    Ok(())
}

fn push_sign(node: &Node<'_>, out: &mut String) -> Result<(), AllocError>
    ensures { OnOk result (string_bytes out.new ≡ string_bytes out.old ++ rules.sign_text
        (rules.text_in rules.is_sign_name node.now.label)) }
{
    match sign_text(node) {
        Some(text) => push_name(text, out),
        None => Ok(()),
    }
}

/// Appends a piece of a sequence: its item, its sign, or its separator.
fn push_piece(node: &Node<'_>, separates: bool, out: &mut String) -> Result<(), AllocError>
    ensures { OnOk result (string_bytes out.new ≡ string_bytes out.old ++ piece_of
        (rules.part_text node.now) separates node.now) }
{
    match part_text(node) {
        Some(text) => {
            put(if separates { " separator => " } else { " " }, out)?;
            push_name(text, out)
        }
        None => push_sign(node, out),
    }
}

fn push_piece_if(
    named: bool,
    node: &Node<'_>,
    separates: bool,
    out: &mut String,
) -> Result<(), AllocError>
    ensures { OnOk result (string_bytes out.new ≡ string_bytes out.old ++ text_if named
        (piece_of (rules.part_text node.now) separates node.now)) }
{
    if named {
        push_piece(node, separates, out)
    } else {
        Ok(())
    }
}

fn is_part(node: &Node<'_>) -> bool
    ensures { result ≡ rules.is_some (rules.part_text node.now) }
{
    part_text(node).is_some()
}

/// Appends the item of a sequence, its sign, and its separator where it has one. They come after its left side.
fn push_sequence(nodes: &[Node<'_>], depth: usize, out: &mut String) -> Result<(), AllocError>
    ensures { OnOk result (string_bytes out.new ≡ string_bytes out.old ++ sequence_from false false
        (rules.below_of depth nodes.now)) }
{
    let mut separates = false;
    let mut named = false;
    let below = below_of(nodes, depth);
    for node in below {
        separates = separates || is_rule(node, "separator");
        push_piece_if(named, node, separates, out)?;
        named = named || is_part(node);
    }
    Ok(())
}

/// Appends the right side of a rule, by its depth and the nodes after its own.
fn push_right(
    form: Form,
    depth: usize,
    nodes: &[Node<'_>],
    out: &mut String,
) -> Result<(), AllocError>
    ensures { OnOk result (string_bytes out.new ≡ string_bytes out.old ++ right_text form depth
        nodes.now) }
{
    match form {
        Form::Alternative => push_alternative(nodes, depth, out),
        Form::Sequence => push_sequence(nodes, depth, out),
        Form::Empty => Ok(()),
    }
}

/// Appends the line of a rule.
fn push_rule(
    number: usize,
    left: &str,
    form: Form,
    node: &Node<'_>,
    nodes: &[Node<'_>],
    out: &mut String,
) -> Result<(), AllocError>
    ensures { OnOk result (string_bytes out.new ≡ string_bytes out.old ++ rule_line number left.now
        form node.now nodes.now) }
{
    put_number(number as u64, out)?;
    put(" ", out)?;
    push_name(left, out)?;
    put(" ::=", out)?;
    push_right(form, node.depth, nodes, out)?;
    put("\n", out)
}

/// Appends the line of a node, if it is a rule's.
fn push_line(
    number: usize,
    left: &str,
    form: Option<Form>,
    node: &Node<'_>,
    nodes: &[Node<'_>],
    out: &mut String,
) -> Result<(), AllocError>
    ensures { OnOk result (string_bytes out.new ≡ string_bytes out.old ++ line_of number left.now
        form node.now nodes.now) }
{
    match form {
        Some(form) => push_rule(number, left, form, node, nodes, out),
        None => Ok(()),
    }
}

/// The left side of the statement that the first node stands in, by that of the nodes before it and by how its rule is written.
fn left_from<'p>(left: &'p str, node: &Node<'p>, nodes: &[Node<'p>], form: Option<Form>) -> &'p str
    ensures { result.now ≡ (if rules.is_rule (codes "rules") node.now || rules.is_statement form
        then rules.left_of nodes.now else left.now) }
{
    if is_rule(node, "rules") || is_statement(form) {
        left_of(nodes)
    } else {
        left
    }
}

/// Whether the first node is of a rule of `grammar`, as in trees of `slif.slif`.
fn is_grammar(nodes: &[Node<'_>]) -> bool
    ensures { result ≡ rules.is_grammar nodes.now }
{
    match nodes.split_first() {
        Some((node, _)) => is_rule(node, "grammar"),
        None => false,
    }
}

/// The nodes from this place on.
fn from<'n, 'p: 'n>(nodes: &'n [Node<'p>], i: usize) -> &'n [Node<'p>]
    requires { i ≤ length nodes.now }
    ensures { result.now ≡ drop i nodes.now }
{
    &nodes[i..]
}

/// The number of the next rule, by whether there is one.
fn number_behind(number: usize, form: Option<Form>) -> usize
    requires { number < 18446744073709551615 }
    ensures { result ≡ number_from number form }
{
    match form {
        Some(_) => number + 1,
        None => number,
    }
}

/// The lines of the rules.
fn rules_of(alloc: Global, nodes: &[Node<'_>]) -> Result<String, AllocError>
    ensures { IfOk result (λ text. string_bytes text ≡ lines_from 0 [] nodes.now) }
{
    let mut text = String::new(alloc);
    let mut left = "";
    let mut number = 0usize;
    for (i, node) in nodes.iter().enumerate() {
        let rest = from(nodes, i);
        let form = form_of(node, rest);
        left = left_from(left, node, rest, form);
        push_line(number, left, form, node, from(nodes, i + 1), &mut text)?;
        number = number_behind(number, form);
    }
    Ok(text)
}

/// Appends a line for each structural rule of the grammar that this is the tree of: its number, and the rule as `41 event ::= note marks`.
/// Answers whether the first node is of a rule of `grammar`, as in trees of `slif.slif`; where it is not, nothing is appended.
pub fn push_rules(alloc: Global, nodes: &[Node<'_>], out: &mut String) -> Result<bool, AllocError>
    ensures written { OnOk result (string_bytes out.new ≡ string_bytes out.old ++ rules_text
        nodes.now) }
    ensures told { IfOk result (λ told. told ≡ rules.is_grammar nodes.now) }
{
    if !is_grammar(nodes) {
        return Ok(false);
    }
    let rules = rules_of(alloc, nodes)?;
    put(rules.as_str(), out)?;
    Ok(true)
}
