// What is seen of a label and of a node.
ghost use Rattle.std.specs.Prelude.{◌≡◌, ◌≢◌, MatchBool};
ghost use Rattle.std.specs.Option.{option_map};
ghost use Rattle.tree_text.specs.Looks as looks;
ghost use Rattle.tree_text.specs.Looks.{look_of, face_of};

use crate::{Label, Node};

/// The name of a symbol, where there is one.
pub(crate) fn name_in<'p>(label: Label<'p>) -> Option<&'p str>
    ensures { option_map (λ t. t.now) result ≡ looks.name_in label.entry }
{
    match label {
        Label::Rule { name, .. } | Label::Token { name, .. } | Label::Nulled { name } => Some(name),
        _ => None,
    }
}

/// The number of a rule, or a number.
fn number_in(label: Label<'_>) -> Option<u64>
    ensures { result ≡ looks.number_in label.entry }
{
    match label {
        Label::Rule { rule, .. } => Some(rule),
        Label::Number(n) => Some(n),
        _ => None,
    }
}

pub(crate) fn text_in<'p>(label: Label<'p>) -> Option<&'p str>
    ensures { option_map (λ t. t.now) result ≡ looks.text_in label.entry }
{
    match label {
        Label::Token { text, .. } => Some(text),
        Label::Text(text) => Some(text),
        _ => None,
    }
}

/// Whether nodes may stand below one of this label.
pub(crate) fn is_open(label: Label<'_>) -> bool
    ensures { result ≡ looks.is_open label.entry }
{
    match label {
        Label::Rule { .. } => true,
        Label::List => true,
        _ => false,
    }
}

fn is_same_text(one: Option<&str>, other: Option<&str>) -> bool
    ensures { MatchBool result
        (option_map (λ t. t.now) one.entry ≡ option_map (λ t. t.now) other.entry)
        (option_map (λ t. t.now) one.entry ≢ option_map (λ t. t.now) other.entry) }
{
    match one {
        Some(a) => match other {
            Some(b) => a == b,
            None => false,
        },
        None => other.is_none(),
    }
}

fn is_same_number(one: Option<u64>, other: Option<u64>) -> bool
    ensures { MatchBool result (one ≡ other) (one ≢ other) }
{
    match one {
        Some(a) => match other {
            Some(b) => a == b,
            None => false,
        },
        None => other.is_none(),
    }
}

pub(crate) fn looks_same(one: &Node<'_>, other: &Node<'_>) -> bool
    ensures { MatchBool result (look_of one.now ≡ look_of other.now)
        (look_of one.now ≢ look_of other.now) }
{
    if one.depth != other.depth {
        return false;
    }
    if is_open(one.label) != is_open(other.label) {
        return false;
    }
    if !is_same_text(name_in(one.label), name_in(other.label)) {
        return false;
    }
    if !is_same_number(number_in(one.label), number_in(other.label)) {
        return false;
    }
    is_same_text(text_in(one.label), text_in(other.label))
}

pub(crate) fn has_same_face(one: &Node<'_>, other: &Node<'_>) -> bool
    ensures { MatchBool result (face_of one.now ≡ face_of other.now)
        (face_of one.now ≢ face_of other.now) }
{
    if one.depth != other.depth {
        return false;
    }
    if one.tokens != other.tokens {
        return false;
    }
    is_same_text(name_in(one.label), name_in(other.label))
}
