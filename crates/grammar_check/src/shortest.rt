//! Shortest cycles through a slot.
ghost use Rattle.std.specs.Prelude.{◌≡◌, ℕ, suc, ◌+◌, ◌-◌, ◌^◌, ◌<◌, ◌≤◌, length, slice_index, All, Contains, IsTrue, ◌↔◌, IfOk, IfSome, IsNone, MatchOption};
ghost use Rattle.grammar_check.specs.Links.{Tied, Step, Walks, AreFloors, AreRows, StepsInto, AreLayers, IsLeastNext, IsLeastPath};

use crate::layers::layers_of;
use horn_clauses::NumberSet;
use jagged::Jagged;
use std::alloc::{AllocError, Global};

// Whether one of the numbers is tied to one of a row.
fn has_tied(row: &[u32], floors: &[u32], x: u32) -> bool
    requires { All (λ h. h < length floors.now) row.now }
    ensures { IsTrue result ↔ ((h : ℕ) × Contains row.now h × Tied floors.now x h) }
{
    for h in row {
        let floor = floors[*h as usize];
        if floor <= x && x <= *h {
            return true;
        }
    }
    false
}

fn has_step(rows: &Jagged<u32>, floors: &[u32], x: u32, t: u32) -> bool
    requires known { t < length rows.now }
    requires rows { AreRows (length floors.now) rows.now }
    ensures { IsTrue result ↔ Step rows.now floors.now x t }
{
    has_tied(rows.row(t as usize), floors, x)
}

// The least number at some places to which there is a step.
fn least_next(
    rows: &Jagged<u32>,
    floors: &[u32],
    found: &NumberSet,
    x: u32,
    from: usize,
    to: usize,
) -> u32
    requires within { to ≤ length found.now }
    requires few { length rows.now < 2 ^ 32 }
    requires known { All (λ t. t < length rows.now) found.now }
    requires rows { AreRows (length floors.now) rows.now }
    requires some { StepsInto rows.now floors.now found.now from to x }
    ensures { IsLeastNext rows.now floors.now found.now from to x result }
{
    let mut best = u32::MAX;
    for j in from..to {
        let t = found.as_slice()[j];
        if t <= best && has_step(rows, floors, x, t) {
            best = t;
        }
    }
    best
}

// A shortest walk from the number that the layers are of back to it.
fn path_of(
    alloc: Global,
    rows: &Jagged<u32>,
    floors: &[u32],
    found: &NumberSet,
    starts: &[usize],
    to: u32,
    layer: usize,
) -> Result<Vec<u32>, AllocError>
    requires few { length rows.now < 2 ^ 32 }
    requires known { All (λ t. t < length rows.now) found.now }
    requires rows { AreRows (length floors.now) rows.now }
    requires layers { AreLayers rows.now floors.now to found.now starts.now }
    requires layer { suc layer < length starts.now }
    requires here { (j : ℕ) × (slice_index starts.now layer ≤ j) ×
        (j < slice_index starts.now (suc layer)) × (slice_index found.now j ≡ to) }
    ensures { IfOk result (λ path. IsLeastPath rows.now floors.now to (suc layer) path.items) }
{
    let mut path = vec![in alloc; to]?;
    let mut x = to;
    for k in 0..layer {
        let n = layer - k;
        let from = starts[n - 1];
        let end = starts[n];
        x = least_next(rows, floors, found, x, from, end);
        path.push(x)?;
    }
    path.push(to)?;
    Ok(path)
}

fn place_of(found: &NumberSet, x: u32) -> Option<usize>
    ensures some { IfSome result (λ j. (j < length found.now) × (slice_index found.now j ≡ x)) }
    ensures none { IsNone result → Contains found.now x → ⊥ }
{
    for j in 0..found.len() {
        if found.as_slice()[j] == x {
            return Some(j);
        }
    }
    None
}

// The layer that has the place.
fn layer_of(starts: &[usize], j: usize) -> usize
    requires begin { slice_index starts.now 0 ≡ 0 }
    requires some { length starts.now ≡ suc (length starts.now - 1) }
    requires place { j < slice_index starts.now (length starts.now - 1) }
    ensures from { slice_index starts.now result ≤ j }
    ensures to { j < slice_index starts.now (suc result) }
    ensures within { suc result < length starts.now }
{
    for n in 1..starts.len() {
        if j < starts[n] {
            return n - 1;
        }
    }
    0
}

// The least of the shortest cycles from a number, by the layers of what has steps to it.
fn cycle_within(
    alloc: Global,
    rows: &Jagged<u32>,
    floors: &[u32],
    found: &NumberSet,
    starts: &[usize],
    to: u32,
) -> Result<Option<Vec<u32>>, AllocError>
    requires few { length rows.now < 2 ^ 32 }
    requires rows { AreRows (length floors.now) rows.now }
    requires layers { AreLayers rows.now floors.now to found.now starts.now }
    requires known { All (λ x. x < length rows.now) found.now }
    requires some { length starts.now ≡ suc (length starts.now - 1) }
    requires ended { slice_index starts.now (length starts.now - 1) ≡ length found.now }
    ensures some { IfOk result (λ r. IfSome r (λ path. (n : ℕ) ×
        IsLeastPath rows.now floors.now to n path.items)) }
    ensures none { IfOk result (λ r. IsNone r → Contains found.now to → ⊥) }
{
    let Some(place) = place_of(found, to) else {
        return Ok(None);
    };
    let layer = layer_of(starts, place);
    let path = path_of(alloc, rows, floors, found, starts, to, layer)?;
    Ok(Some(path))
}

/// The least of the shortest cycles from a number, if it is on one.
pub fn cycle_through(
    alloc: Global,
    rows: &Jagged<u32>,
    floors: &[u32],
    to: u32,
) -> Result<Option<Vec<u32>>, AllocError>
    requires known { to < length rows.now }
    requires sized { length rows.now ≡ length floors.now }
    requires few { length rows.now < 2 ^ 32 }
    requires rows { AreRows (length floors.now) rows.now }
    requires floors { AreFloors floors.now }
    ensures some { IfOk result (λ r. IfSome r (λ path. (n : ℕ) ×
        IsLeastPath rows.now floors.now to n path.items)) }
    ensures none { IfOk result (λ r. IsNone r → (m : ℕ) → Walks rows.now floors.now to (suc m) to →
        ⊥) }
{
    let (found, starts) = layers_of(alloc, rows, floors, to)?;
    cycle_within(alloc, rows, floors, &found, &starts, to)
}
