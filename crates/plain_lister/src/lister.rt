//! The lists of all trees and of all first children over a span, each found once.
ghost use Rattle.std.specs.Prelude.{◌≡◌, ◌<◌, ◌≤◌, ◌==◌, ℕ, suc, true, false, length, IfOk};
ghost use Rattle.std.specs.List.{list_any};
ghost use Rattle.grammar_model.specs.Grammar.{lhs_of, rule_at};
ghost use Rattle.grammar_model.specs.Simple.{IsSimple, is_terminal, part_count};
ghost use Rattle.plain_lister.specs.Table.{IsKey, IsSound, IsListed, IsTold};

use crate::Cell;
use crate::cells::{add_cell, add_firsts, add_nodes, add_pairs};
use crate::rules::{is_inner, is_quoted_at, part_of, parts_of};
use crate::store::{Store, find_list, keep_list};
use grammar_core::{SymbolId, Written};
use std::alloc::{AllocError, Global};

/// The number of a key's list.
#[cycle(lister)]
pub fn list_at(
    alloc: Global,
    w: &Written,
    input: &[u8],
    store: &mut Store,
    x: usize,
    n: usize,
    p: usize,
    q: usize,
) -> Result<usize, AllocError>
    requires simple { IsSimple w.now }
    requires sound { IsSound w.now input.now store.old }
    requires key { IsKey w.now x n }
    requires spans { p < q }
    requires within { q ≤ length input.now }
    requires short { length input.now ≤ 1000 }
    ensures { IfOk result (λ k. IsListed w.now input.now store.old store.new k x n p q) }
{
    if let Some(k) = find_list(store, x, n, p, q) {
        return Ok(k);
    }
    let places = match n {
        0 => {
            if is_inner(w, x) {
                nodes_at(alloc, w, input, store, x, p, q)?
            } else {
                leaves_at(alloc, w, input, store, x, p, q)?
            }
        }
        1 => firsts_at(alloc, w, input, store, x, p, q)?,
        _ => pairs_at(alloc, w, input, store, x, n, p, q)?,
    };
    keep_list(store, w, input, x, n, p, q, places)
}

// The leaf of a terminal, if its character stands there.
fn leaves_at(
    alloc: Global,
    w: &Written,
    input: &[u8],
    store: &mut Store,
    x: usize,
    p: usize,
    q: usize,
) -> Result<Vec<u32>, AllocError>
    requires sound { IsSound w.now input.now store.old }
    requires symbol { x < length w.now.names }
    requires terminal { is_terminal w.now x ≡ true }
    requires spans { p < q }
    requires within { q ≤ length input.now }
    requires short { length input.now ≤ 1000 }
    ensures { IfOk result (λ places. IsTold w.now input.now store.old store.new places.items x 0 p
        q) }
{
    let mut out = Vec::new(alloc);
    w.known();
    let symbol = x as u32;
    if q != p + 1 {
        return Ok(out);
    }
    if !is_quoted_at(w, input, SymbolId(symbol), p) {
        return Ok(out);
    }
    add_cell(&mut store.cells, &mut out, Cell::Leaf(symbol, p as u32))?;
    Ok(out)
}

// The nodes of a left side, by its rules.
#[cycle(lister)]
fn nodes_at(
    alloc: Global,
    w: &Written,
    input: &[u8],
    store: &mut Store,
    x: usize,
    p: usize,
    q: usize,
) -> Result<Vec<u32>, AllocError>
    requires simple { IsSimple w.now }
    requires sound { IsSound w.now input.now store.old }
    requires inner { is_terminal w.now x ≡ false }
    requires spans { p < q }
    requires within { q ≤ length input.now }
    requires short { length input.now ≤ 1000 }
    ensures { IfOk result (λ places. IsTold w.now input.now store.old store.new places.items x 0 p
        q) }
{
    let mut out = Vec::new(alloc);
    for i in 0..w.rule_count() {
        if w.lhs(i).0 as usize != x {
            continue;
        }
        let k = list_at(alloc, w, input, store, i, parts_of(w, i), p, q)?;
        add_nodes(
            &mut store.cells,
            &mut out,
            store.lists[k].as_slice(),
            i as u32,
            p as u32,
            q as u32,
        )?;
    }
    Ok(out)
}

// Each tree of a rule's first part.
#[cycle(lister)]
fn firsts_at(
    alloc: Global,
    w: &Written,
    input: &[u8],
    store: &mut Store,
    i: usize,
    p: usize,
    q: usize,
) -> Result<Vec<u32>, AllocError>
    requires simple { IsSimple w.now }
    requires sound { IsSound w.now input.now store.old }
    requires key { IsKey w.now i 1 }
    requires spans { p < q }
    requires within { q ≤ length input.now }
    requires short { length input.now ≤ 1000 }
    ensures { IfOk result (λ places. IsTold w.now input.now store.old store.new places.items i 1 p
        q) }
{
    let mut out = Vec::new(alloc);
    let k = list_at(alloc, w, input, store, part_of(w, i, 0) as usize, 0, p, q)?;
    add_firsts(&mut store.cells, &mut out, store.lists[k].as_slice())?;
    Ok(out)
}

// A rule's first n children, by the start of the last one.
#[cycle(lister)]
fn pairs_at(
    alloc: Global,
    w: &Written,
    input: &[u8],
    store: &mut Store,
    i: usize,
    n: usize,
    p: usize,
    q: usize,
) -> Result<Vec<u32>, AllocError>
    requires simple { IsSimple w.now }
    requires sound { IsSound w.now input.now store.old }
    requires key { IsKey w.now i n }
    requires more { 2 ≤ n }
    requires spans { p < q }
    requires within { q ≤ length input.now }
    requires short { length input.now ≤ 1000 }
    ensures { IfOk result (λ places. IsTold w.now input.now store.old store.new places.items i n p
        q) }
{
    let mut out = Vec::new(alloc);
    let last = part_of(w, i, n - 1) as usize;
    let inner = is_inner(w, last);
    let mut r = q;
    while r - p > n - 1 {
        r -= 1;
        if inner || r + 1 == q {
            let a = list_at(alloc, w, input, store, i, n - 1, p, r)?;
            if !store.lists[a].as_slice().is_empty() {
                let b = list_at(alloc, w, input, store, last, 0, r, q)?;
                add_pairs(
                    &mut store.cells,
                    &mut out,
                    store.lists[a].as_slice(),
                    store.lists[b].as_slice(),
                )?;
            }
        }
    }
    Ok(out)
}
