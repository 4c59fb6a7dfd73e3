//! A grammar without gaps between its levels, so that few numbers are enough for its slots.
ghost use Rattle.std.specs.Prelude.{◌≡◌, Some, ◌<◌, ◌↔◌, IsTrue, Contains, length, slice_get};
ghost use Rattle.grammar_model.specs.Grammar.{rule_at, lhs_of, level_of, child_slot, slot_count};
ghost use Rattle.grammar_core.specs.Written.{IsWritten};
ghost use Rattle.std.specs.List.Sorted.{IsStrictlyIncreasing};
ghost use Rattle.jagged.specs.Rows.{row_at};
ghost use Rattle.slot_analysis.specs.Packed.{packed, packed_slot, place};
ghost use Rattle.grammar_core.specs.Rules.{groups_of};
ghost use Rattle.slot_analysis.specs.Slots.{body_count, needed_of};

use crate::rules::{body_len, needed_count, part_count};
use crate::{children, levels};
use grammar_core::{SymbolId, Written};
use jagged::Jagged;
use std::marker::Model;

/// A grammar whose levels are replaced by their places among those that occur.
#[derive(Drop)]
pub struct Packed<'a> {
    pub written: &'a Written,
    pub levels: &'a Jagged<u32>,
}

impl<'a> Model for Packed<'a> {
    ghost use Rattle.grammar_model.specs.Grammar.{Grammar};
    ghost use Rattle.slot_analysis.specs.Packed.{packed, IsLevelTable};

    ghost Value = { Grammar };

    ghost view = { λ p. packed p.levels.now p.written.now };

    ghost invariant = { λ p. IsLevelTable p.written.now p.levels.now };
}

impl<'a> Packed<'a> {
    /// States what is always so of a written grammar.
    pub fn known(&self)
        ensures { IsWritten self.now }
    {
        self.written.known();
    }

    /// How many symbols there are.
    pub fn symbol_count(&self) -> usize
        ensures count { result ≡ length self.now.names }
        ensures sound { IsWritten self.now }
    {
        self.written.symbol_count()
    }

    /// How many rules there are.
    pub fn rule_count(&self) -> usize
        ensures count { result ≡ length self.now.rules }
        ensures sound { IsWritten self.now }
    {
        self.written.rule_count()
    }

    /// How many starts there are.
    pub fn start_count(&self) -> usize
        ensures count { result ≡ length self.now.starts }
        ensures sound { IsWritten self.now }
    {
        self.written.start_count()
    }

    /// The start at this place.
    pub fn start(&self, k: usize) -> SymbolId
        requires { k < length self.now.starts }
        ensures { slice_get self.now.starts k ≡ Some result }
    {
        self.written.start(k)
    }

    /// The rule's left side.
    pub fn left_of(&self, i: usize) -> u32
        requires { i < length self.now.rules }
        ensures value { result ≡ lhs_of (rule_at self.now i) }
        ensures known { result < length self.now.names }
    {
        self.written.lhs(i).0
    }

    /// The place of the rule's level.
    pub fn level_at(&self, i: usize) -> u32
        requires { i < length self.now.rules }
        ensures { result ≡ level_of (rule_at self.now i) }
    {
        let symbol = self.written.lhs(i);
        let level = self.written.rule(i).level();
        place_at(self.levels, symbol.0, level)
    }

    /// How many places the groups of the rule's statement have.
    pub fn groups_at(&self, i: usize) -> u32
        requires { i < length self.now.rules }
        ensures { result ≡ groups_of (rule_at self.now i) }
    {
        let symbol = self.written.lhs(i);
        let groups = self.written.rule(i).groups();
        place_at(self.levels, symbol.0, groups)
    }

    /// The symbol of a rule's child slot, and the place of its level.
    pub fn child_at(&self, i: usize, k: usize) -> (u32, u32)
        requires rule { i < length self.now.rules }
        requires part { k < slot_count (rule_at self.now i) }
        ensures symbol { result.0 ≡ (child_slot (rule_at self.now i) k).symbol }
        ensures level { result.1 ≡ (child_slot (rule_at self.now i) k).level }
    {
        self.written.known();
        let (symbol, level) = children::child_at(self.written, i, k);
        (symbol, place_at(self.levels, symbol, level))
    }

    /// How many child slots count for nullable slots, where separators count, and else for productive ones.
    pub fn count_at(&self, i: usize, separators: bool) -> usize
        requires { i < length self.now.rules }
        ensures { result ≡ body_count separators (rule_at self.now i) }
    {
        body_len(self.written.rule(i), separators)
    }

    /// How many child slots the rule has.
    pub fn part_count(&self, i: usize) -> usize
        requires { i < length self.now.rules }
        ensures { result ≡ slot_count (rule_at self.now i) }
    {
        part_count(self.written.rule(i))
    }

    /// How many of them, from the first, a live rule needs to be productive.
    pub fn needed_count(&self, i: usize) -> usize
        requires { i < length self.now.rules }
        ensures { result ≡ needed_of (rule_at self.now i) }
    {
        needed_count(self.written.rule(i))
    }
}

/// The place of a level among those of a symbol.
pub fn place_at(rows: &Jagged<u32>, symbol: u32, level: u32) -> u32
    requires known { symbol < length rows.now }
    requires rising { IsStrictlyIncreasing (row_at rows.now symbol) }
    ensures { result ≡ place rows.now symbol level }
{
    levels::place(rows.row(symbol as usize), level)
}

/// Whether the level is among those of a symbol.
pub fn is_level_at(rows: &Jagged<u32>, symbol: u32, level: u32) -> bool
    requires known { symbol < length rows.now }
    requires rising { IsStrictlyIncreasing (row_at rows.now symbol) }
    ensures { IsTrue result ↔ Contains (row_at rows.now symbol) level }
{
    levels::is_level(rows.row(symbol as usize), level)
}
