//! Actions as they are told by a text, such as the value of the adverb `action`.
ghost use Rattle.std.specs.Prelude.{◌≡◌, ◌≤◌, length, chars, IfOk, IfErr, Some, None, not, ◌==◌, option_map, false};
ghost use Rattle.std.specs.List.{prefix_len, list_all};
ghost use Rattle.unicode.specs.Binary.{is_white_space};
ghost use Rattle.language_model.specs.Tokens.{spaced};
ghost use Rattle.language_model.specs.Actions as actions;
ghost use Rattle.language_model.specs.Actions.{item_named, items_named, between_commas, descriptor_of};
ghost use Rattle.value_text.specs.Meaning.{action_of};
ghost use Rattle.value_text.specs.declared.descriptor.DescriptorRefusal.TheVariants.{BadItem, NoMemory};

use crate::meaning::{Action, Items};
use grammar_model::DescItem;
use std::alloc::{AllocError, Global};
use thiserror::Error;
use unicode::properties::is_white_space;

const ARRAY: &[char] = &[':', ':', 'a', 'r', 'r', 'a', 'y'];

const FIRST: &[char] = &[':', ':', 'f', 'i', 'r', 's', 't'];

const UNDEF: &[char] = &[':', ':', 'u', 'n', 'd', 'e', 'f'];

const NAME: &[char] = &['n', 'a', 'm', 'e'];

const SYMBOL: &[char] = &['s', 'y', 'm', 'b', 'o', 'l'];

const START: &[char] = &['s', 't', 'a', 'r', 't'];

const LENGTH: &[char] = &['l', 'e', 'n', 'g', 't', 'h'];

const G1_START: &[char] = &['g', '1', 's', 't', 'a', 'r', 't'];

const G1_LENGTH: &[char] = &['g', '1', 'l', 'e', 'n', 'g', 't', 'h'];

const VALUE: &[char] = &['v', 'a', 'l', 'u', 'e'];

const VALUES: &[char] = &['v', 'a', 'l', 'u', 'e', 's'];

fn item_named(name: &[char]) -> Option<DescItem>
    ensures { result ≡ item_named name.now }
{
    if name == NAME {
        Some(DescItem::Name)
    } else if name == SYMBOL {
        Some(DescItem::Symbol)
    } else if name == START {
        Some(DescItem::Start)
    } else if name == LENGTH {
        Some(DescItem::Length)
    } else if name == G1_START {
        Some(DescItem::G1Start)
    } else if name == G1_LENGTH {
        Some(DescItem::G1Length)
    } else if name == VALUE {
        Some(DescItem::Values)
    } else if name == VALUES {
        Some(DescItem::Values)
    } else {
        None
    }
}

// The text without the white space at its ends, each other run of it as one space.
fn spaced(alloc: Global, text: &[char]) -> Result<Vec<char>, AllocError>
    ensures { IfOk result (λ v. v.items ≡ spaced text.now false false) }
{
    let mut out = Vec::new(alloc);
    let mut started = false;
    let mut pending = false;
    for c in text {
        if is_white_space(*c) {
            pending = true;
        } else {
            if started && pending {
                out.push(' ')?;
            }
            out.push(*c)?;
            started = true;
            pending = false;
        }
    }
    Ok(out)
}

fn comma_place(text: &[char]) -> usize
    ensures value { result ≡ prefix_len (λ c. not (c == 44)) text.now }
    ensures within { result ≤ length text.now }
{
    let mut len = 0;
    while len < text.len() && text[len] != ',' {
        len += 1;
    }
    len
}

fn item_of(alloc: Global, part: &[char]) -> Result<Option<DescItem>, AllocError>
    ensures { IfOk result (λ item. item ≡ item_named (spaced part.now false false)) }
{
    let name = spaced(alloc, part)?;
    Ok(item_named(&name))
}

// The items with commas between them, if each part is one.
fn items_of(alloc: Global, text: &[char]) -> Result<Option<Vec<DescItem>>, AllocError>
    ensures { IfOk result (λ items. option_map (λ v. v.items) items ≡
        items_named (between_commas text.now)) }
{
    let mut items = Vec::new(alloc);
    let mut from = 0;
    while from <= text.len() {
        let len = comma_place(&text[from..]);
        match item_of(alloc, &text[from..from + len])? {
            Some(item) => items.push(item)?,
            None => return Ok(None),
        }
        from += len + 1;
    }
    Ok(Some(items))
}

fn is_blank(text: &[char]) -> bool
    ensures { result ≡ list_all is_white_space text.now }
{
    text.iter().all(|c| is_white_space(*c))
}

#[tactic(auto, using(crate::proofs::Descriptors::blank_all))]
fn descriptor_of(alloc: Global, text: &[char]) -> Result<Option<Action>, AllocError>
    ensures { IfOk result (λ action. option_map action_of action ≡ descriptor_of text.now) }
{
    if text.len() < 2 || text[0] != '[' || text[text.len() - 1] != ']' {
        return Ok(None);
    }
    let inner = &text[1..text.len() - 1];
    if is_blank(inner) {
        return Ok(Some(Action::Items(Items::new(Vec::new(alloc)))));
    }
    match items_of(alloc, inner)? {
        Some(items) => Ok(Some(Action::Items(Items::new(items)))),
        None => Ok(None),
    }
}

fn action_of(alloc: Global, text: &[char]) -> Result<Option<Action>, AllocError>
    ensures { IfOk result (λ action. option_map action_of action ≡ actions.action_of text.now) }
{
    if text == ARRAY {
        Ok(Some(Action::Array))
    } else if text == FIRST {
        Ok(Some(Action::First))
    } else if text == UNDEF {
        Ok(Some(Action::Undef))
    } else {
        descriptor_of(alloc, text)
    }
}

/// Why a text is no descriptor. Want of memory may come at any point.
#[derive(Clone, Copy, Debug, PartialEq, Eq, Error)]
pub enum DescriptorRefusal {
    /// The text is no action's name, and no list of items in brackets.
    #[error("no action")]
    BadItem,
    /// Memory ran out.
    #[error("out of memory")]
    NoMemory,
}

impl From<AllocError> for DescriptorRefusal {
    ghost use Rattle.value_text.specs.declared.descriptor.DescriptorRefusal.TheVariants.{NoMemory};

    ghost from_gives = { λ _ refusal. refusal ≡ NoMemory };

    fn from(_error: AllocError) -> DescriptorRefusal {
        DescriptorRefusal::NoMemory
    }
}

// The characters of the text.
fn chars_of(alloc: Global, text: &str) -> Result<Vec<char>, AllocError>
    ensures { IfOk result (λ v. v.items ≡ chars text.now) }
{
    text.chars().collect(alloc)
}

/// The action that the text tells: `::array`, `::first`, `::undef`, or items in brackets, parted by commas.
pub fn read_descriptor(alloc: Global, text: &str) -> Result<Action, DescriptorRefusal>
    ensures ok { IfOk result (λ action. actions.action_of (chars text.now) ≡
        Some (action_of action)) }
    ensures bad_item { IfErr result (λ refusal. refusal ≡ BadItem →
        actions.action_of (chars text.now) ≡ None) }
{
    let text = chars_of(alloc, text)?;
    match action_of(alloc, &text)? {
        Some(action) => Ok(action),
        None => Err(DescriptorRefusal::BadItem),
    }
}
