//! Least sets by rules, found in one walk through the rules' bodies.
ghost use Rattle.std.specs.Prelude.{◌≡◌, ℕ, ◌<◌, ◌≤◌, ◌^◌, length, slice_index, All, Contains, IfOk, OnOk, OnErr};
ghost use Rattle.horn_clauses.specs.Least.{IsLeastSet, AreBelow, IsSearch, Waits, Advances, HasVisited};
ghost use Rattle.horn_clauses.specs.Rows.{HasPlaces, HasAddedAll};

use crate::clause_list::Clauses;
use crate::gathered::{Gathered, Linked};
use crate::number_set::NumberSet;
use std::alloc::{AllocError, Global};

// The first place, not before the given one, whose number is not found yet.
fn open_place(body: &[u32], found: &NumberSet, from: usize) -> usize
    requires { from ≤ length body.now }
    ensures after { from ≤ result }
    ensures within { result ≤ length body.now }
    ensures passed { (m : ℕ) → from ≤ m → m < result → Contains found.now (slice_index body.now m) }
    ensures fresh { result < length body.now → Contains found.now (slice_index body.now result) →
        ⊥ }
{
    for place in from..body.len() {
        if !found.has(body[place]) {
            return place;
        }
    }
    body.len()
}

// The clause in the row of each number of its body.
fn add_clause(rows: &mut Gathered, body: &[u32], clause: u32) -> Result<(), AllocError>
    requires { All (λ x. x < length rows.old) body.now }
    ensures { OnOk result (HasAddedAll rows.old rows.new body.now clause) }
{
    for x in body {
        rows.add(*x, clause)?;
    }
    Ok(())
}

// Where each number stands: the clauses that have it in their bodies.
fn occurrences(alloc: Global, clauses: &Clauses, bound: usize) -> Result<Linked, AllocError>
    requires few { length clauses.now < 2 ^ 32 }
    requires below { AreBelow bound clauses.now }
    ensures length { IfOk result (λ rows. length rows ≡ bound) }
    ensures places { IfOk result (λ rows. HasPlaces clauses.now rows) }
{
    let mut gathered = Gathered::new(alloc, bound);
    for i in 0..clauses.len() {
        add_clause(&mut gathered, clauses.body(i), i as u32)?;
    }
    gathered.linked(alloc)
}

// Goes on with a clause: past what is found, and to its head at the end.
fn advance(
    clauses: &Clauses,
    found: &mut NumberSet,
    places: &mut [usize],
    i: usize,
) -> Result<(), AllocError>
    requires number { i < length clauses.now }
    requires search { IsSearch clauses.now found.old places.old }
    ensures { OnOk result (Advances clauses.now found.old places.old found.new places.new i) }
{
    let body = clauses.body(i);
    let place = open_place(body, found, places[i]);
    places[i] = place;
    if place < body.len() {
        return Ok(());
    }
    found.add(clauses.head(i))
}

// Begins with each clause.
fn begin(clauses: &Clauses, found: &mut NumberSet, places: &mut [usize]) -> Result<(), AllocError>
    requires search { IsSearch clauses.now found.old places.old }
    ensures search { OnOk result (IsSearch clauses.now found.new places.new) }
    ensures waits { OnOk result ((i : ℕ) → i < length clauses.now →
        Waits clauses.now found.new places.new 0 i) }
{
    for i in 0..clauses.len() {
        advance(clauses, found, places, i)?;
    }
    Ok(())
}

// Goes on with the clauses that may wait for the number found at place k.
fn visit(
    clauses: &Clauses,
    row: &[u32],
    found: &mut NumberSet,
    places: &mut [usize],
    k: usize,
) -> Result<(), AllocError>
    requires row { (i : ℕ) → Contains row.now i → i < length clauses.now }
    requires place { k < length found.old }
    requires search { IsSearch clauses.now found.old places.old }
    requires waits { (i : ℕ) → i < length clauses.now → Waits clauses.now found.old places.old k i }
    ensures { OnOk result (HasVisited clauses.now found.old row.now k found.new places.new) }
{
    for i in row {
        advance(clauses, found, places, *i as usize)?;
    }
    Ok(())
}

// Begins with each clause, and goes on from each number found, in the order of finding. The row is room.
fn close(
    clauses: &Clauses,
    rows: &Linked,
    row: &mut Vec<u32>,
    found: &mut NumberSet,
    places: &mut [usize],
) -> Result<(), AllocError>
    requires below { AreBelow (length rows.now) clauses.now }
    requires rows { HasPlaces clauses.now rows.now }
    requires search { IsSearch clauses.now found.old places.old }
    ensures { OnOk result (IsLeastSet clauses.now found.new) }
{
    begin(clauses, found, places)?;
    for k in 0..usize::MAX {
        let Some(x) = found.get(k) else {
            return Ok(());
        };
        rows.list(x as usize, row)?;
        visit(clauses, row, found, places, k)?;
    }
    let _len = found.len();
    Ok(())
}

// The search, from rows of where each number stands.
fn search_rows(alloc: Global, clauses: &Clauses, rows: &Linked) -> Result<NumberSet, AllocError>
    requires below { AreBelow (length rows.now) clauses.now }
    requires rows { HasPlaces clauses.now rows.now }
    ensures { IfOk result (λ found. IsLeastSet clauses.now found) }
{
    let mut places = vec![in alloc; 0usize; clauses.len()]?;
    let mut row = Vec::new(alloc);
    let mut found = NumberSet::below(alloc, rows.len())?;
    close(clauses, rows, &mut row, &mut found, &mut places)?;
    Ok(found)
}

// Nothing, for clauses that 32 bits number. More count as too many for memory.
fn are_numbered(clauses: &Clauses) -> Result<(), AllocError>
    ensures ok { OnOk result (length clauses.now < 2 ^ 32) }
    ensures err { OnErr result (2 ^ 32 ≤ length clauses.now) }
{
    if clauses.len() > u32::MAX as usize {
        return Err(AllocError);
    }
    Ok(())
}

/// The least set that the clauses make.
pub fn least_set(alloc: Global, clauses: &Clauses, bound: usize) -> Result<NumberSet, AllocError>
    requires { AreBelow bound clauses.now }
    ensures { IfOk result (λ found. IsLeastSet clauses.now found) }
{
    are_numbered(clauses)?;
    let rows = occurrences(alloc, clauses, bound)?;
    search_rows(alloc, clauses, &rows)
}
