//! Flat grammars, which recognizers work on.
ghost use Rattle.std.specs.Prelude.{◌≡◌, ◌≢◌, ℕ, ◌<◌, ◌≤◌, ◌^◌, ◌↔◌, true, false, length, IsTrue, IfSome, IsNone, slice_get, Some};
ghost use Rattle.recognizer_model.specs.declared.flat.FlatSymbol.{FlatSymbol};
ghost use Rattle.recognizer_model.specs.declared.flat.FlatSymbol.TheVariants.{Terminal};
ghost use Rattle.recognizer_model.specs.Flat.{IsRule, IsNullable, lhs_of, rhs_of, part_of, source_of};
ghost use Rattle.grammar_core.specs.Flat.{terminal_below};
ghost use Rattle.recognizer_model.specs.Invariant.{IsFlat, IsArranged};

use crate::SymbolId;
use recognizer_model::{FlatRule, FlatSource, FlatSymbol};
use std::marker::Model;
use std::ops::Range;

/// The parts of a flat grammar. Symbols, rules and tops are numbered by their places.
#[derive(Debug, Drop)]
pub struct FlatParts {
    pub symbols: Vec<FlatSymbol>,
    /// Whether each symbol is nullable.
    pub nullable: Vec<bool>,
    pub rules: Vec<FlatRule>,
    /// The top rule of each start.
    pub tops: Vec<u32>,
}

impl Model for FlatParts {
    ghost use Rattle.recognizer_model.specs.Flat.{FlatGrammar};

    ghost Value = { FlatGrammar };

    ghost view = { λ p. record { symbols = p.symbols.items; nullable = p.nullable.items; rules = p.rules.items; tops = p.tops.items } };
}

/// A flat grammar: plain rules without levels and without empty ones, over symbols that may be nullable.
#[derive(Debug)]
pub struct Flat {
    symbols: Vec<FlatSymbol>,
    nullable: Vec<bool>,
    rules: Vec<FlatRule>,
    tops: Vec<u32>,
}

// Written out, so that whoever lets it go does so by one call.
impl Drop for Flat {
    fn drop(self) {
        let Flat {
            symbols: _,
            nullable: _,
            rules: _,
            tops: _,
        } = self;
    }
}

impl Model for Flat {
    ghost use Rattle.recognizer_model.specs.Flat.{FlatGrammar};
    ghost use Rattle.recognizer_model.specs.Invariant.{IsFlat, IsArranged};

    ghost Value = { FlatGrammar };

    ghost view = { λ f.
        record { symbols = f.symbols.items; nullable = f.nullable.items; rules = f.rules.items; tops = f.tops.items } };

    ghost invariant = { λ f.
        IsFlat (record {
          symbols = f.symbols.items;
          nullable = f.nullable.items;
          rules = f.rules.items;
          tops = f.tops.items;
        }) ×
        IsArranged (record {
          symbols = f.symbols.items;
          nullable = f.nullable.items;
          rules = f.rules.items;
          tops = f.tops.items;
        }) };
}

impl Flat {
    /// A flat grammar of these parts.
    pub fn from_parts(parts: FlatParts) -> Flat
        requires flat { IsFlat parts }
        requires arranged { IsArranged parts }
        ensures { result ≡ parts }
    {
        Flat {
            symbols: parts.symbols,
            nullable: parts.nullable,
            rules: parts.rules,
            tops: parts.tops,
        }
    }

    /// How many symbols there are.
    pub fn symbol_count(&self) -> usize
        ensures { result ≡ length self.now.symbols }
    {
        self.symbols.len()
    }

    /// States what is always so of a flat grammar.
    pub fn known(&self)
        ensures flat { IsFlat self.now }
        ensures arranged { IsArranged self.now }
    {
        let _count = self.symbols.len();
    }

    /// What a symbol stands for.
    pub fn symbol(&self, x: u32) -> FlatSymbol
        requires { x < length self.now.symbols }
        ensures { slice_get self.now.symbols x ≡ Some result }
    {
        self.symbols[x as usize]
    }

    /// How many rules there are.
    pub fn rule_count(&self) -> usize
        ensures { result ≡ length self.now.rules }
    {
        self.rules.len()
    }

    /// The left side of a rule.
    pub fn lhs(&self, r: u32) -> u32
        requires { IsRule self.now r }
        ensures { result ≡ lhs_of self.now r }
    {
        self.rules[r as usize].lhs
    }

    /// The right side of a rule.
    pub fn rhs(&self, r: u32) -> &[u32]
        requires { IsRule self.now r }
        ensures { result.now ≡ rhs_of self.now r }
    {
        &self.rules[r as usize].rhs
    }

    /// The symbol at a position of a rule's right side, if the grammar has both.
    pub fn part(&self, r: u32, position: u32) -> Option<u32>
        ensures { result ≡ part_of self.now r position }
    {
        let rule = self.rules.get(r as usize)?;
        rule.rhs.get(position as usize).copied()
    }

    /// Whether a symbol is nullable.
    pub fn nullable(&self, x: u32) -> bool
        requires { x < length self.now.symbols }
        ensures { IsTrue result ↔ IsNullable self.now x }
    {
        self.nullable[x as usize]
    }

    /// What a rule comes from.
    pub fn origin_of(&self, r: u32) -> FlatSource
        requires { IsRule self.now r }
        ensures { result ≡ source_of self.now r }
    {
        self.rules[r as usize].source
    }

    /// How many starts there are.
    pub fn start_count(&self) -> usize
        ensures { result ≡ length self.now.tops }
    {
        self.tops.len()
    }

    /// The top rule of a start, by its place.
    pub fn top(&self, start: usize) -> u32
        requires { start < length self.now.tops }
        ensures value { slice_get self.now.tops start ≡ Some result }
        ensures flat { IsFlat self.now }
    {
        self.tops[start]
    }

    // How many rules have a left side of a lower number.
    fn rules_below(&self, x: u32) -> usize
        ensures bound { result ≤ length self.now.rules }
        ensures fits { result < 2 ^ 32 }
        ensures below { (r : ℕ) → r < result → lhs_of self.now r < x }
        ensures above { (r : ℕ) → result ≤ r → IsRule self.now r → x ≤ lhs_of self.now r }
    {
        self.rules.partition_point(|rule| rule.lhs < x)
    }

    // How many rules have that left side or one of a lower number.
    fn rules_up_to(&self, x: u32) -> usize
        ensures bound { result ≤ length self.now.rules }
        ensures fits { result < 2 ^ 32 }
        ensures below { (r : ℕ) → r < result → lhs_of self.now r ≤ x }
        ensures above { (r : ℕ) → result ≤ r → IsRule self.now r → x < lhs_of self.now r }
    {
        self.rules.partition_point(|rule| rule.lhs <= x)
    }

    /// The rules of a symbol, which stand together.
    pub fn rules_of(&self, x: u32) -> Range<u32>
        ensures { (r : ℕ) →
            ((result.start ≤ r) × (r < result.end)) ↔
            (IsRule self.now r × (lhs_of self.now r ≡ x)) }
    {
        let start = self.rules_below(x);
        let end = self.rules_up_to(x);
        start as u32..end as u32
    }

    // How many symbols stand for terminals of lower numbers.
    fn terminals_below(&self, t: SymbolId) -> usize
        ensures bound { result ≤ length self.now.symbols }
        ensures fits { result < 2 ^ 32 }
        ensures arranged { IsArranged self.now }
        ensures below { (x : ℕ) (s : FlatSymbol) → x < result →
            slice_get self.now.symbols x ≡ Some s → terminal_below t s ≡ true }
        ensures above { (x : ℕ) (s : FlatSymbol) → result ≤ x →
            slice_get self.now.symbols x ≡ Some s → terminal_below t s ≡ false }
    {
        self.symbols.partition_point(|s| is_terminal_below(*s, t))
    }

    fn symbol_at(&self, place: usize) -> Option<FlatSymbol>
        ensures { result ≡ slice_get self.now.symbols place }
    {
        self.symbols.get(place).copied()
    }

    /// The symbol that stands for a terminal, if there is one.
    pub fn terminal(&self, t: SymbolId) -> Option<u32>
        ensures some { IfSome result (λ x. slice_get self.now.symbols x ≡ Some (Terminal t)) }
        ensures none { IsNone result → (x : ℕ) → slice_get self.now.symbols x ≢ Some (Terminal t) }
    {
        let place = self.terminals_below(t);
        match self.symbol_at(place) {
            Some(symbol) if is_terminal(symbol, t) => Some(place as u32),
            _ => None,
        }
    }
}

// Whether the symbol stands for that terminal.
fn is_terminal(symbol: FlatSymbol, t: SymbolId) -> bool
    ensures { IsTrue result ↔ (symbol ≡ Terminal t) }
{
    match symbol {
        FlatSymbol::Terminal(s) => s.0 == t.0,
        _ => false,
    }
}

// Whether the symbol stands for a terminal of a lower number.
fn is_terminal_below(symbol: FlatSymbol, t: SymbolId) -> bool
    ensures { result ≡ terminal_below t symbol }
{
    match symbol {
        FlatSymbol::Terminal(s) => s.0 < t.0,
        _ => false,
    }
}
