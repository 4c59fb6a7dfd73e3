//! Numbers that are put into rows, in any order of the rows.
ghost use Rattle.std.specs.Prelude.{◌≡◌, ℕ, ◌<◌, ◌↔◌, [], length, Contains, IfOk, OnOk, OnErr};
ghost use Rattle.horn_clauses.specs.Rows.{HasAdded, HasSameRows};
ghost use Rattle.jagged.specs.Rows.{row_at};
ghost use Rattle.horn_clauses.specs.Gathered.{gathered, AreWithin, AreLinks, HasFrom};

use jagged::Jagged;
use std::alloc::{AllocError, Global};
use std::marker::Model;

/// Numbers, each with the row that it goes into.
#[derive(Drop)]
pub struct Gathered {
    count: usize,
    pairs: Vec<(u32, u32)>,
}

impl Model for Gathered {
    ghost use Rattle.std.specs.Prelude.{List, ℕ};
    ghost use Rattle.horn_clauses.specs.Gathered.{gathered, AreWithin};

    ghost Value = { List (List ℕ) };

    ghost view = { λ g. gathered g.count g.pairs.items };

    ghost invariant = { λ g. AreWithin g.count g.pairs.items };
}

impl Gathered {
    /// So many rows of nothing.
    pub fn new(alloc: Global, count: usize) -> Gathered
        ensures length { length result ≡ count }
        ensures empty { (x : ℕ) → row_at result x ≡ [] }
    {
        Gathered {
            count,
            pairs: Vec::new(alloc),
        }
    }

    /// How many rows there are.
    pub fn len(&self) -> usize
        ensures { result ≡ length self.now }
    {
        self.count
    }

    /// One more number in a row.
    pub fn add(&mut self, x: u32, number: u32) -> Result<(), AllocError>
        requires { x < length self.old }
        ensures ok { OnOk result (HasAdded self.old self.new x number) }
        ensures err { OnErr result (self.new ≡ self.old) }
    {
        self.pairs.push((x, number))?;
        Ok(())
    }

    /// The rows, each to be listed where it is asked for.
    pub fn linked(self, alloc: Global) -> Result<Linked, AllocError>
        ensures { IfOk result (λ linked. linked ≡ self) }
    {
        let links = links_of(alloc, self.count, &self.pairs)?;
        Ok(Linked {
            count: self.count,
            pairs: self.pairs,
            links,
        })
    }

    /// The rows, one after the other.
    pub fn rows(&self, alloc: Global) -> Result<Jagged<u32>, AllocError>
        ensures { IfOk result (λ rows. HasSameRows self.now rows) }
    {
        rows_of(alloc, self.count, &self.pairs)
    }
}

// The last pairs of the rows, and for each pair the one of its row before it. A pair is told by its place plus one.
#[derive(Drop)]
struct Links {
    last: Vec<usize>,
    before: Vec<usize>,
}

fn links_of(alloc: Global, count: usize, pairs: &[(u32, u32)]) -> Result<Links, AllocError>
    requires { AreWithin count pairs.now }
    ensures { IfOk result (λ links. (length links.last.items ≡ count) ×
        AreLinks pairs.now (length pairs.now) links.last.items links.before.items) }
{
    let mut last = vec![in alloc; 0usize; count]?;
    let mut before = Vec::with_capacity(alloc, pairs.len())?;
    for (place, pair) in pairs.iter().enumerate() {
        let x = pair.0 as usize;
        before.push(last[x])?;
        last[x] = place + 1;
    }
    Ok(Links { last, before })
}

// Puts the numbers of a row into a list, the last one first.
fn collect(
    pairs: &[(u32, u32)],
    links: &Links,
    x: usize,
    row: &mut Vec<u32>,
) -> Result<(), AllocError>
    requires known { x < length links.now.last.items }
    requires links { AreLinks pairs.now (length pairs.now) links.now.last.items
        links.now.before.items }
    ensures { OnOk result ((n : ℕ) → Contains row.new.items n ↔ HasFrom pairs.now x 0 n) }
{
    row.clear();
    let mut next = links.last[x];
    while next > 0 {
        row.push(pairs[next - 1].1)?;
        next = links.before[next - 1];
    }
    Ok(())
}

/// Rows that are listed one at a time. It is seen as the rows.
#[derive(Drop)]
pub struct Linked {
    count: usize,
    pairs: Vec<(u32, u32)>,
    links: Links,
}

impl Model for Linked {
    ghost use Rattle.std.specs.Prelude.{List, ℕ, ◌≡◌, length};
    ghost use Rattle.horn_clauses.specs.Gathered.{gathered, AreLinks};

    ghost Value = { List (List ℕ) };

    ghost view = { λ l. gathered l.count l.pairs.items };

    ghost invariant = { λ l. (length l.links.last.items ≡ l.count) ×
        AreLinks l.pairs.items (length l.pairs.items) l.links.last.items l.links.before.items };
}

impl Linked {
    /// How many rows there are.
    pub fn len(&self) -> usize
        ensures { result ≡ length self.now }
    {
        self.count
    }

    /// Lists the numbers of a row, in any order, in the place of what the list had.
    pub fn list(&self, x: usize, row: &mut Vec<u32>) -> Result<(), AllocError>
        requires { x < length self.now }
        ensures { OnOk result ((n : ℕ) → Contains row.new.items n ↔
            Contains (row_at self.now x) n) }
    {
        collect(&self.pairs, &self.links, x, row)
    }
}

fn rows_of(alloc: Global, count: usize, pairs: &[(u32, u32)]) -> Result<Jagged<u32>, AllocError>
    requires { AreWithin count pairs.now }
    ensures { IfOk result (λ rows. HasSameRows (gathered count pairs.now) rows) }
{
    let links = links_of(alloc, count, pairs)?;
    let mut rows = Jagged::new(alloc);
    let mut row = Vec::new(alloc);
    for x in 0..count {
        collect(pairs, &links, x, &mut row)?;
        rows.push(&row)?;
    }
    Ok(rows)
}
