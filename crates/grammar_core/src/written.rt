//! The grammar itself, which grows by symbols, rules and starts.
ghost use Rattle.std.specs.Prelude.{◌≡◌, ℕ, ◌<◌, ◌≤◌, [], ◌∷◌, ◌++◌, All, Some, None, length, nat_lt, false, IsTrue, IsOk, IfOk, IfSome, OnErr, is_some, option_to_list, slice_get};
ghost use Rattle.std.specs.List.{list_all};
ghost use Rattle.grammar_model.specs.Grammar.{Plain, Sequence, rule_at, lhs_of};
ghost use Rattle.grammar_model.specs.declared.limits.TheConstants.{MOST_ENTRIES};
ghost use Rattle.grammar_core.specs.Written.{IsWritten, IsLevelled, symbols_of, rule_of, has_name, number_of, with_name, with_rule, with_start};
ghost use Rattle.grammar_core.specs.Refusals.{Answers, name_refusal, rule_refusal, start_refusal};

use crate::{CoreRefusal, Rule, RuleId, SeqRule, SymbolId, WrittenRule};
use grammar_model::MOST_ENTRIES;
use indexmap::IndexSet;
use std::alloc::{AllocError, Global};
use std::marker::Model;

const MOST_PARTS: usize = 1_000;

/// A grammar. Its symbols have different names, and its rules and starts name its own symbols.
pub struct Written {
    names: IndexSet<String>,
    rules: Vec<WrittenRule>,
    starts: Vec<SymbolId>,
}

// Written out, so that whoever lets it go does so by one call.
impl Drop for Written {
    fn drop(self) {
        let Written {
            names: _,
            rules: _,
            starts: _,
        } = self;
    }
}

impl Model for Written {
    ghost use Rattle.std.specs.Prelude.{map, string_bytes};
    ghost use Rattle.grammar_model.specs.Grammar.{Grammar};
    ghost use Rattle.grammar_core.specs.Written.{IsWritten, rule_of};

    ghost Value = { Grammar };

    ghost view = { λ w. record { names = map string_bytes w.names.keys; rules = map rule_of w.rules.items; starts = w.starts.items } };

    ghost invariant = { λ w. IsWritten (record { names = map string_bytes w.names.keys; rules = map rule_of w.rules.items; starts = w.starts.items }) };
}

// Whether the symbol is one of the first so many.
fn knows(symbol: SymbolId, count: usize) -> bool
    ensures { result ≡ nat_lt symbol count }
{
    (symbol.0 as usize) < count
}

fn know_all(symbols: &[SymbolId], count: usize) -> bool
    ensures { result ≡ list_all (λ s. nat_lt s count) symbols.now }
{
    symbols.iter().all(|s| (s.0 as usize) < count)
}

fn knows_any(symbol: Option<SymbolId>, count: usize) -> bool
    ensures { result ≡ list_all (λ s. nat_lt s count) (option_to_list symbol) }
{
    match symbol {
        Some(s) => (s.0 as usize) < count,
        None => true,
    }
}

impl Written {
    /// A grammar of nothing.
    pub fn new(alloc: Global) -> Written
        ensures names { result.names ≡ [] }
        ensures rules { result.rules ≡ [] }
        ensures starts { result.starts ≡ [] }
    {
        Written {
            names: IndexSet::new(alloc),
            rules: Vec::new(alloc),
            starts: Vec::new(alloc),
        }
    }

    /// The symbol with this name, if there is one.
    pub fn symbol_named(&self, name: &str) -> Option<SymbolId>
        ensures held { is_some result ≡ has_name self.now name.now }
        ensures number { IfSome result (λ s. s ≡ number_of self.now name.now) }
        ensures named { IfSome result (λ s. slice_get self.now.names s ≡ Some name.now) }
    {
        let place = self.names.get_index_of(name)?;
        Some(SymbolId(place as u32))
    }

    // A new symbol, whose name has to be another than those held.
    fn add_name(&mut self, name: &str) -> Result<SymbolId, AllocError>
        requires new { has_name self.old name.now ≡ false }
        requires room { length self.old.names < MOST_ENTRIES }
        ensures number { IfOk result (λ s. s ≡ number_of self.old name.now) }
        ensures named { IfOk result (λ s. slice_get self.new.names s ≡ Some name.now) }
        ensures ok { IfOk result (λ _. self.new ≡ with_name self.old name.now) }
        ensures err { OnErr result (self.new ≡ self.old) }
    {
        let number = self.names.len() as u32;
        let alloc = *self.names.allocator();
        let owned = String::from_str(alloc, name)?;
        self.names.insert(owned)?;
        Ok(SymbolId(number))
    }

    /// The number of the symbol with this name, which becomes a new symbol if none has it.
    pub fn symbol_new(&mut self, name: &str) -> Result<SymbolId, CoreRefusal>
        ensures refusal { Answers (name_refusal self.old name.now) result }
        ensures held { IsTrue (has_name self.old name.now) → IsOk result }
        ensures number { IfOk result (λ s. s ≡ number_of self.old name.now) }
        ensures named { IfOk result (λ s. slice_get self.new.names s ≡ Some name.now) }
        ensures ok { IfOk result (λ _. self.new ≡ with_name self.old name.now) }
        ensures err { OnErr result (self.new ≡ self.old) }
    {
        if let Some(symbol) = self.symbol_named(name) {
            return Ok(symbol);
        }
        if self.names.len() >= MOST_ENTRIES {
            return Err(CoreRefusal::TooMany);
        }
        match self.add_name(name) {
            Ok(symbol) => Ok(symbol),
            Err(_) => Err(CoreRefusal::NoMemory),
        }
    }

    // One more rule, which has to be one that the grammar grants.
    fn add_rule(&mut self, rule: WrittenRule) -> Result<RuleId, AllocError>
        requires known { All (λ s. s < length self.old.names) (symbols_of (rule_of rule)) }
        requires levelled { IsLevelled (rule_of rule) }
        requires room { length self.old.rules < MOST_ENTRIES }
        ensures number { IfOk result (λ r. r ≡ length self.old.rules) }
        ensures ok { IfOk result (λ _. self.new ≡ with_rule self.old (rule_of rule)) }
        ensures err { OnErr result (self.new ≡ self.old) }
    {
        let number = self.rules.len() as u32;
        self.rules.push(rule)?;
        Ok(RuleId(number))
    }

    /// One more plain rule.
    pub fn rule_new(&mut self, rule: Rule) -> Result<RuleId, CoreRefusal>
        ensures refusal { Answers (rule_refusal self.old (Plain rule)) result }
        ensures number { IfOk result (λ r. r ≡ length self.old.rules) }
        ensures ok { IfOk result (λ _. self.new ≡ with_rule self.old (Plain rule)) }
        ensures err { OnErr result (self.new ≡ self.old) }
    {
        let symbols = self.names.len();
        if !knows(rule.lhs, symbols) || !know_all(&rule.rhs, symbols) {
            return Err(CoreRefusal::BadSymbol);
        }
        if rule.level >= rule.groups {
            return Err(CoreRefusal::BadLevel);
        }
        if rule.rhs.len() > MOST_PARTS || self.rules.len() >= MOST_ENTRIES {
            return Err(CoreRefusal::TooMany);
        }
        Ok(self.add_rule(WrittenRule::Plain(rule))?)
    }

    /// One more rule for a sequence of items.
    pub fn sequence_new(&mut self, rule: SeqRule) -> Result<RuleId, CoreRefusal>
        ensures refusal { Answers (rule_refusal self.old (Sequence rule)) result }
        ensures number { IfOk result (λ r. r ≡ length self.old.rules) }
        ensures ok { IfOk result (λ _. self.new ≡ with_rule self.old (Sequence rule)) }
        ensures err { OnErr result (self.new ≡ self.old) }
    {
        let symbols = self.names.len();
        let lhs = rule.lhs;
        let item = rule.item;
        let separator = rule.separator;
        if !knows(lhs, symbols) || !knows(item, symbols) || !knows_any(separator, symbols) {
            return Err(CoreRefusal::BadSymbol);
        }
        if self.rules.len() >= MOST_ENTRIES {
            return Err(CoreRefusal::TooMany);
        }
        Ok(self.add_rule(WrittenRule::Sequence(rule))?)
    }

    /// One more start.
    pub fn start_add(&mut self, s: SymbolId) -> Result<(), CoreRefusal>
        ensures refusal { Answers (start_refusal self.old s) result }
        ensures ok { IfOk result (λ _. self.new ≡ with_start self.old s) }
        ensures err { OnErr result (self.new ≡ self.old) }
    {
        if !knows(s, self.names.len()) {
            return Err(CoreRefusal::BadSymbol);
        }
        if self.starts.len() >= MOST_ENTRIES {
            return Err(CoreRefusal::TooMany);
        }
        match self.starts.push(s) {
            Ok(()) => Ok(()),
            Err(_) => Err(CoreRefusal::NoMemory),
        }
    }

    /// States what is always so of a grammar.
    pub fn known(&self)
        ensures { IsWritten self.now }
    {
        let _count = self.names.len();
    }

    /// How many symbols there are.
    pub fn symbol_count(&self) -> usize
        ensures count { result ≡ length self.now.names }
        ensures sound { IsWritten self.now }
    {
        self.names.len()
    }

    /// How many rules there are.
    pub fn rule_count(&self) -> usize
        ensures count { result ≡ length self.now.rules }
        ensures sound { IsWritten self.now }
    {
        self.rules.len()
    }

    /// How many starts there are.
    pub fn start_count(&self) -> usize
        ensures count { result ≡ length self.now.starts }
        ensures sound { IsWritten self.now }
    {
        self.starts.len()
    }

    /// The symbol's name.
    pub fn name(&self, s: SymbolId) -> &str
        requires { s < length self.now.names }
        ensures { slice_get self.now.names s ≡ Some result.now }
    {
        self.names.as_slice()[s.0 as usize].as_str()
    }

    /// The rule with this number.
    pub fn written_rule(&self, r: RuleId) -> &WrittenRule
        requires { r < length self.now.rules }
        ensures { slice_get self.now.rules r ≡ Some (rule_of result.now) }
    {
        &self.rules[r.0 as usize]
    }

    /// The rule at this place, counted from 0.
    pub fn rule(&self, k: usize) -> &WrittenRule
        requires { k < length self.now.rules }
        ensures is { rule_of result.now ≡ rule_at self.now k }
        ensures sound { IsWritten self.now }
    {
        &self.rules[k]
    }

    /// The left side of the rule at this place.
    pub fn lhs(&self, k: usize) -> SymbolId
        requires { k < length self.now.rules }
        ensures is { result ≡ lhs_of (rule_at self.now k) }
        ensures known { result < length self.now.names }
    {
        self.rule(k).lhs()
    }

    /// The start at this place, counted from 0.
    pub fn start(&self, k: usize) -> SymbolId
        requires { k < length self.now.starts }
        ensures { slice_get self.now.starts k ≡ Some result }
    {
        self.starts[k]
    }
}
