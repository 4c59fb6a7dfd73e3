//! How many hidden items end with a node and begin no earlier than one.
ghost use Rattle.std.specs.Prelude.{◌≡◌, ◌≢◌, ℕ, ◌≤◌, ◌<◌, ◌++◌, ◌∷◌, [], List, Option, Some, length, slice_get, IfOk, OnOk, Contains};
ghost use Rattle.recognizer_model.specs.declared.NodeKey.{NodeKey as TheKey};
ghost use Rattle.recognizer_model.specs.Counts.{IsCountOf};
ghost use Rattle.earley_sets.specs.Recognizer.{earleme_of};
ghost use Rattle.forest_parts.specs.Hidden.{RisesBy};
ghost use Rattle.forest_parts.specs.Counts.{IsLowest, AreLeast, IsLeast, IsHiddenBy, IsHiddenAt};

use crate::{key_at, list_hidden};
use earley_sets::Recce;
use recognizer_model::NodeKey;
use slif_base::Steps;
use std::alloc::{AllocError, Global};
use std::marker::Brand;
use std::sync::ledger::{Blank, Ledger};

// The lower one of two origins, of which there may be but one.
fn lowest(least: Option<u32>, origin: u32) -> u32
    ensures { IsLowest least origin result }
{
    match least {
        Some(low) => low.min(origin),
        None => origin,
    }
}

fn origin_at(least: &[Option<u32>], at: usize) -> Option<u32>
    requires { at < length least.now }
    ensures { slice_get least.now at ≡ Some result }
{
    least[at]
}

fn set_origin(least: &mut Vec<Option<u32>>, at: usize, origin: u32)
    requires { at < length least.old.items }
    ensures long { length least.new.items ≡ length least.old.items }
    ensures other { (n : ℕ) (held : Option ℕ) → n ≢ at → slice_get least.new.items n ≡ Some held → slice_get least.old.items n ≡ Some held }
    ensures set { slice_get least.new.items at ≡ Some (Some origin) }
{
    least[at] = Some(origin);
}

// Lowers the least origin of the nodes that end where one does to that of the one.
fn lower(least: &mut Vec<Option<u32>>, key: NodeKey)
    requires { key.end < length least.old.items }
    ensures long { length least.new.items ≡ length least.old.items }
    ensures least { (keys : List TheKey) → AreLeast keys least.old.items → AreLeast (keys ++ key ∷ []) least.new.items }
{
    let end = key.end as usize;
    let low = lowest(origin_at(least, end), key.origin);
    set_origin(least, end, low);
}

// No origins of so many places.
fn no_origins(alloc: Global, places: usize) -> Result<Vec<Option<u32>>, AllocError>
    ensures long { IfOk result (λ least. length least.items ≡ places) }
    ensures least { IfOk result (λ least. AreLeast [] least.items) }
{
    let mut least = Vec::new(alloc);
    for k in 0..places {
        least.push(None)?;
    }
    Ok(least)
}

// The least origins of the nodes that end at each of so many places.
fn least_origins(
    alloc: Global,
    places: usize,
    keys: &[NodeKey],
) -> Result<Vec<Option<u32>>, AllocError>
    requires { (key : TheKey) → Contains keys.now key → key.end < places }
    ensures long { IfOk result (λ least. length least.items ≡ places) }
    ensures least { IfOk result (λ least. AreLeast keys.now least.items) }
{
    let mut least = no_origins(alloc, places)?;
    for k in 0..keys.len() {
        lower(&mut least, key_at(keys, k));
    }
    Ok(least)
}

// Adds how many hidden items of a place begin no earlier than the least of its nodes.
fn count_at<L: Ledger>(
    alloc: Global,
    recce: &Recce<'_>,
    end: u32,
    least: Option<u32>,
    expanded: &mut u64,
    steps: &mut Steps<L>,
) -> Result<(), AllocError>
    requires { end ≤ earleme_of recce.now }
    ensures { OnOk result ((keys : List TheKey) → IsLeast keys end least → RisesBy (IsHiddenAt recce.now keys end) expanded.old expanded.new) }
{
    if let Some(from) = least {
        let hidden = list_hidden(alloc, recce, end, from, expanded, steps)?;
        drop(hidden);
    }
    Ok(())
}

// Counts them at all places.
fn count_all<L: Ledger>(
    blank: Blank,
    alloc: Global,
    recce: &Recce<'_>,
    keys: &[NodeKey],
) -> Result<u64, AllocError>
    requires name { blank.name ≡ L.name }
    requires parts { blank.parts ≡ L.parts }
    requires some { 0 < blank.parts }
    requires keys { (key : TheKey) → Contains keys.now key → key.end ≤ earleme_of recce.now }
    ensures { IfOk result (λ n. IsCountOf (IsHiddenBy recce.now keys.now) n) }
{
    let places = recce.place() as usize + 1;
    let least = least_origins(alloc, places, keys)?;
    let mut steps = Steps::<L>::of_blank(blank);
    let mut expanded = 0;
    for end in 0..places {
        let from = origin_at(&least, end);
        count_at(alloc, recce, end as u32, from, &mut expanded, &mut steps)?;
    }
    Ok(expanded)
}

/// How many hidden items end with one of the nodes and begin no earlier than one that ends there.
pub fn count_expanded(alloc: Global, recce: &Recce<'_>, keys: &[NodeKey]) -> Result<u64, AllocError>
    requires { (key : TheKey) → Contains keys.now key → key.end ≤ earleme_of recce.now }
    ensures { IfOk result (λ n. IsCountOf (IsHiddenBy recce.now keys.now) n) }
{
    count_all::<Brand>(Blank::new(1), alloc, recce, keys)
}
