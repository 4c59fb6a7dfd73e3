//! Which slots of a grammar are nullable, productive and accessible.
ghost use Rattle.std.specs.Prelude.{◌≡◌, ℕ, ◌+◌, ◌-◌, ◌^◌, ◌<◌, ◌≤◌, ◌↔◌, length, slice_index, slice_index_or, false, true, IsTrue, IfOk, IfSome, IsNone};
ghost use Rattle.grammar_model.specs.Grammar.{Slot, slot_of};
ghost use Rattle.grammar_model.specs.Analysis.{IsNullable, IsProductive, IsAccessible};
ghost use Rattle.grammar_model.specs.Checked.{IsLeft};
ghost use Rattle.slot_analysis.specs.Packed.{packed, IsLevelTable};
ghost use Rattle.slot_analysis.specs.Slots.{end_of, IsNumbering};
ghost use Rattle.slot_analysis.specs.Clauses.{IsAnalysis};
ghost use Rattle.slot_analysis.specs.Steps.{IsReach};
ghost use Rattle.slot_analysis.specs.Tables.{AreTables};
ghost use Rattle.slot_analysis.specs.Few.{FewAreAccessible};
ghost use Rattle.slot_analysis.specs.Tested.{HasTests};

use crate::clauses::{analysis_of, lefts_of};
use crate::levels::levels_of;
use crate::packed::{Packed, is_level_at, place_at};
use crate::slots::bases_of;
use crate::steps::reach_of;
use grammar_core::{SymbolId, Written};
use horn_clauses::NumberSet;
use jagged::Jagged;
use std::alloc::{AllocError, Global};
use std::marker::Model;

// The numbers of a packed grammar's slots, and of those that are nullable, productive and accessible.
#[derive(Drop)]
pub struct Tables {
    bases: Vec<u32>,
    lefts: Vec<bool>,
    nullable: NumberSet,
    productive: NumberSet,
    reach: NumberSet,
}

/// The levels of a grammar, and the tables of its packed slots.
#[derive(Clone, Copy)]
pub struct Slots<'a> {
    pub levels: &'a Jagged<u32>,
    pub bases: &'a [u32],
    pub nullable: &'a NumberSet,
    pub productive: &'a NumberSet,
    pub reach: &'a NumberSet,
}

/// A grammar, and which of its slots are nullable, productive and accessible.
pub struct Analysis<'a> {
    written: &'a Written,
    levels: Jagged<u32>,
    tables: Tables,
}

impl<'a> Drop for Analysis<'a> {
    fn drop(self) {
        let Analysis {
            written: _,
            levels: _,
            tables: _,
        } = self;
    }
}

impl<'a> Model for Analysis<'a> {
    ghost use Rattle.grammar_model.specs.Grammar.{Grammar};
    ghost use Rattle.slot_analysis.specs.Tables.{IsAnalysed};

    ghost Value = { Grammar };

    ghost view = { λ c. c.written.now };

    ghost invariant = { λ c. IsAnalysed c.written.now c.levels c.tables.bases.items
        c.tables.lefts.items c.tables.nullable c.tables.productive c.tables.reach };
}

// The slot's number, if it has one.
fn number_of(bases: &[u32], s: u32, level: u32) -> Option<u32>
    requires known { s + 1 < length bases.now }
    requires rising { slice_index bases.now s < end_of bases.now s }
    ensures some { IfSome result (λ x. (x ≡ slice_index bases.now s + level) ×
        (x < end_of bases.now s)) }
    ensures none { IsNone result → end_of bases.now s ≤ slice_index bases.now s + level }
{
    let from = bases[s as usize];
    let end = bases[s as usize + 1];
    if level < end - from {
        Some(from + level)
    } else {
        None
    }
}

// The number that stands for the tightest slot of a symbol being in use.
fn last_use(bases: &[u32], s: u32) -> u32
    requires known { s + 1 < length bases.now }
    requires some { 0 < end_of bases.now s }
    requires order { end_of bases.now s ≤ slice_index bases.now (length bases.now - 1) }
    requires small { slice_index bases.now (length bases.now - 1) +
        slice_index bases.now (length bases.now - 1) <
        2 ^ 32 }
    ensures { result ≡ slice_index bases.now (length bases.now - 1) + (end_of bases.now s - 1) }
{
    let total = bases[bases.len() - 1];
    total + (bases[s as usize + 1] - 1)
}

fn is_no_left(lefts: &[bool], s: u32) -> bool
    requires { s < length lefts.now }
    ensures { IsTrue result ↔ (slice_index_or lefts.now s false ≡ false) }
{
    !lefts[s as usize]
}

// The tables of a packed grammar.
fn tables_of(alloc: Global, w: &Packed<'_>) -> Result<Tables, AllocError>
    ensures { IfOk result (λ t. AreTables w.now t.bases.items t.lefts.items t.nullable t.productive
        t.reach) }
{
    w.known();
    let bases = bases_of(alloc, w)?;
    let lefts = lefts_of(alloc, w)?;
    let nullable = analysis_of(alloc, w, &bases, &lefts, true)?;
    let productive = analysis_of(alloc, w, &bases, &lefts, false)?;
    let reach = reach_of(alloc, w, &bases, &productive)?;
    Ok(Tables {
        bases,
        lefts,
        nullable,
        productive,
        reach,
    })
}

fn packed_tables(alloc: Global, w: &Written, levels: &Jagged<u32>) -> Result<Tables, AllocError>
    requires { IsLevelTable w.now levels.now }
    ensures tables { IfOk result (λ t. AreTables (packed levels.now w.now) t.bases.items
        t.lefts.items t.nullable t.productive t.reach) }
{
    let packed = Packed { written: w, levels };
    tables_of(alloc, &packed)
}

impl<'a> Analysis<'a> {
    /// The grammar with its analyses.
    pub fn analyse(alloc: Global, w: &'a Written) -> Result<Analysis<'a>, AllocError>
        ensures { IfOk result (λ c. c ≡ w.now) }
    {
        w.known();
        let levels = levels_of(alloc, w)?;
        let tables = packed_tables(alloc, w, &levels)?;
        Ok(Analysis {
            written: w,
            levels,
            tables,
        })
    }

    /// The grammar whose slots these are.
    pub fn written(&self) -> &Written
        ensures { result.now ≡ self.now }
    {
        self.written
    }

    /// States that what slots can do is told by tests.
    pub fn tested(&self)
        ensures { HasTests self.now }
    {
        let _count = self.levels.len();
    }

    /// States that few slots are accessible.
    pub fn few_accessible(&self)
        ensures { FewAreAccessible self.now }
    {
        let _count = self.levels.len();
    }

    /// Whether the symbol is the left side of a rule.
    pub fn is_left(&self, s: SymbolId) -> bool
        requires { s < length self.now.names }
        ensures { IsTrue result ↔ IsLeft self.now s }
    {
        !is_no_left(&self.tables.lefts, s.0)
    }

    /// Whether some tree of the slot spans nothing.
    pub fn slot_nullable(&self, s: SymbolId, level: u32) -> bool
        requires { s < length self.now.names }
        ensures { IsTrue result ↔ IsNullable self.now (record { symbol = s; level = level }) }
    {
        let place = place_at(&self.levels, s.0, level);
        match number_of(&self.tables.bases, s.0, place) {
            Some(x) => self.tables.nullable.has(x),
            None => false,
        }
    }

    /// Whether the slot has a tree. A terminal has one at each level.
    pub fn slot_productive(&self, s: SymbolId, level: u32) -> bool
        requires { s < length self.now.names }
        ensures { IsTrue result ↔ IsProductive self.now (record { symbol = s; level = level }) }
    {
        let place = place_at(&self.levels, s.0, level);
        match number_of(&self.tables.bases, s.0, place) {
            Some(x) => self.tables.productive.has(x),
            None => is_no_left(&self.tables.lefts, s.0),
        }
    }

    /// Whether some tree of the symbol spans nothing.
    pub fn nullable(&self, s: SymbolId) -> bool
        requires { s < length self.now.names }
        ensures { IsTrue result ↔ IsNullable self.now (slot_of s) }
    {
        self.slot_nullable(s, 0)
    }

    /// Whether the symbol has a tree.
    pub fn productive(&self, s: SymbolId) -> bool
        requires { s < length self.now.names }
        ensures { IsTrue result ↔ IsProductive self.now (slot_of s) }
    {
        self.slot_productive(s, 0)
    }

    /// Whether the slot stands in a tree of a start.
    pub fn slot_accessible(&self, s: SymbolId, level: u32) -> bool
        requires { s < length self.now.names }
        ensures { IsTrue result ↔ IsAccessible self.now (record { symbol = s; level = level }) }
    {
        if !is_level_at(&self.levels, s.0, level) {
            return false;
        }
        let place = place_at(&self.levels, s.0, level);
        match number_of(&self.tables.bases, s.0, place) {
            Some(x) => self.tables.reach.has(x),
            None => false,
        }
    }

    /// Whether some slot of the symbol stands in a tree of a start.
    pub fn accessible(&self, s: SymbolId) -> bool
        requires { s < length self.now.names }
        ensures { IsTrue result ↔
            ((l : ℕ) × IsAccessible self.now (record { symbol = s; level = l })) }
    {
        let x = last_use(&self.tables.bases, s.0);
        self.tables.reach.has(x)
    }

    /// The tables, for a search through the slots.
    pub fn slots(&self) -> Slots<'_>
        ensures levels { IsLevelTable self.now result.levels.now }
        ensures numbering { IsNumbering (packed result.levels.now self.now) result.bases.now }
        ensures nullable { IsAnalysis true (packed result.levels.now self.now) result.bases.now
            result.nullable.now }
        ensures productive { IsAnalysis false (packed result.levels.now self.now) result.bases.now
            result.productive.now }
        ensures reach { IsReach (packed result.levels.now self.now) result.bases.now
            result.reach.now }
        ensures small { slice_index result.bases.now (length self.now.names) +
            slice_index result.bases.now (length self.now.names) <
            2 ^ 32 }
    {
        Slots {
            levels: &self.levels,
            bases: &self.tables.bases,
            nullable: &self.tables.nullable,
            productive: &self.tables.productive,
            reach: &self.tables.reach,
        }
    }
}
