//! The least steps from each slot to one of them, found layer by layer.
ghost use Rattle.std.specs.Prelude.{◌≡◌, ℕ, suc, ◌+◌, ◌-◌, ◌<◌, ◌≤◌, [], ◌∷◌, length, slice_index, All, Contains, IfOk, OnOk};
ghost use Rattle.grammar_check.specs.Links.{Tied, Step, Walks, AreFloors, AreRows, IsDown, Gains, StepsInto, AreLayers};

use horn_clauses::NumberSet;
use jagged::Jagged;
use std::alloc::{AllocError, Global};

// The numbers from the floor of a number up to it, as far as they are not found yet.
fn descend(floors: &[u32], h: u32, found: &mut NumberSet) -> Result<(), AllocError>
    requires known { h < length floors.now }
    requires floors { AreFloors floors.now }
    requires down { IsDown floors.now found.old }
    ensures gains { OnOk result (Gains found.old found.new (λ x. Tied floors.now x h)) }
    ensures down { OnOk result (IsDown floors.now found.new) }
{
    let top = h as usize;
    let floor = floors[top] as usize;
    for k in 0..top - floor + 1 {
        let x = (top - k) as u32;
        if found.has(x) {
            return Ok(());
        }
        found.add(x)?;
    }
    Ok(())
}

// The numbers tied to one of a row.
fn gather(floors: &[u32], row: &[u32], found: &mut NumberSet) -> Result<(), AllocError>
    requires known { All (λ h. h < length floors.now) row.now }
    requires floors { AreFloors floors.now }
    requires down { IsDown floors.now found.old }
    ensures gains { OnOk result (Gains found.old found.new (λ x. (h : ℕ) × Contains row.now h ×
        Tied floors.now x h)) }
    ensures down { OnOk result (IsDown floors.now found.new) }
{
    for h in row {
        descend(floors, *h, found)?;
    }
    Ok(())
}

// What has a step to the number.
fn spread(
    rows: &Jagged<u32>,
    floors: &[u32],
    t: u32,
    found: &mut NumberSet,
) -> Result<(), AllocError>
    requires known { t < length rows.now }
    requires rows { AreRows (length floors.now) rows.now }
    requires floors { AreFloors floors.now }
    requires down { IsDown floors.now found.old }
    ensures gains { OnOk result (Gains found.old found.new (λ x. Step rows.now floors.now x t)) }
    ensures down { OnOk result (IsDown floors.now found.new) }
{
    gather(floors, rows.row(t as usize), found)
}

// What has a step to one of the numbers found at some places.
fn grow(
    rows: &Jagged<u32>,
    floors: &[u32],
    from: usize,
    to: usize,
    found: &mut NumberSet,
) -> Result<(), AllocError>
    requires order { from ≤ to }
    requires within { to ≤ length found.old }
    requires known { All (λ x. x < length rows.now) found.old }
    requires sized { length rows.now ≡ length floors.now }
    requires rows { AreRows (length floors.now) rows.now }
    requires floors { AreFloors floors.now }
    requires down { IsDown floors.now found.old }
    ensures gains { OnOk result (Gains found.old found.new (StepsInto rows.now floors.now found.old
        from to)) }
    ensures down { OnOk result (IsDown floors.now found.new) }
{
    for j in from..to {
        let t = found.as_slice()[j];
        spread(rows, floors, t, found)?;
    }
    Ok(())
}

// Adds layer by layer, to the last, and where each starts.
fn add_layers(
    rows: &Jagged<u32>,
    floors: &[u32],
    to: u32,
    found: &mut NumberSet,
    starts: &mut Vec<usize>,
) -> Result<(), AllocError>
    requires known { to < length rows.now }
    requires sized { length rows.now ≡ length floors.now }
    requires rows { AreRows (length floors.now) rows.now }
    requires floors { AreFloors floors.now }
    requires none { found.old ≡ [] }
    requires first { starts.old.items ≡ 0 ∷ [] }
    ensures layers { OnOk result (AreLayers rows.now floors.now to found.new starts.new.items) }
    ensures known { OnOk result (All (λ x. x < length rows.now) found.new) }
    ensures ended { OnOk result ((length starts.new.items ≡ suc (length starts.new.items - 1)) ×
        (slice_index starts.new.items (length starts.new.items - 1) ≡ length found.new)) }
    ensures all { OnOk result ((n x : ℕ) → Walks rows.now floors.now to (suc n) x →
        Contains found.new x) }
{
    spread(rows, floors, to, found)?;
    for n in 0..usize::MAX {
        let from = starts[n];
        let end = found.len();
        starts.push(end)?;
        if from == end {
            return Ok(());
        }
        grow(rows, floors, from, end, found)?;
    }
    let _length = starts.len();
    unreachable!()
}

/// All numbers that have steps to a number, in layers, and where each layer starts.
pub fn layers_of(
    alloc: Global,
    rows: &Jagged<u32>,
    floors: &[u32],
    to: u32,
) -> Result<(NumberSet, Vec<usize>), AllocError>
    requires known { to < length rows.now }
    requires sized { length rows.now ≡ length floors.now }
    requires rows { AreRows (length floors.now) rows.now }
    requires floors { AreFloors floors.now }
    ensures layers { IfOk result (λ r. AreLayers rows.now floors.now to r.0 r.1.items) }
    ensures known { IfOk result (λ r. All (λ x. x < length rows.now) r.0) }
    ensures ended { IfOk result (λ r. (length r.1.items ≡ suc (length r.1.items - 1)) ×
        (slice_index r.1.items (length r.1.items - 1) ≡ length r.0)) }
    ensures all { IfOk result (λ r. (n x : ℕ) → Walks rows.now floors.now to (suc n) x →
        Contains r.0 x) }
{
    let mut found = NumberSet::new(alloc);
    let mut starts = vec![in alloc; 0usize]?;
    add_layers(rows, floors, to, &mut found, &mut starts)?;
    Ok((found, starts))
}
