//! The rules of each symbol, and the symbol of each terminal, looked up.
ghost use Rattle.std.specs.Prelude.{◌≡◌, ◌≢◌, ℕ, slice_get, Some, IfOk, IfSome, IsNone};
ghost use Rattle.recognizer_model.specs.declared.flat.FlatSymbol.TheVariants.{Terminal};
ghost use Rattle.item_rows.specs.Heads.{AreHeads, HasRules, IsSymbolOf};

use grammar_core::{Flat, SymbolId};
use std::alloc::{AllocError, Global};

/// The rules of a symbol: the first, and where they end.
#[derive(Clone, Copy)]
pub struct Rules {
    pub start: u32,
    pub end: u32,
}

/// The rules of the symbols, by the symbols' numbers, and the symbols of as many terminals, by the terminals' numbers.
#[derive(Drop)]
pub struct Heads {
    pub rules: Vec<Rules>,
    pub symbols: Vec<Option<u32>>,
}

// Looks for the rules of a symbol.
fn find_rules(flat: &Flat, symbol: u32) -> Rules
    ensures { HasRules flat.now symbol result }
{
    let rules = flat.rules_of(symbol);
    Rules {
        start: rules.start,
        end: rules.end,
    }
}

// Looks for the symbol of a terminal.
fn find_symbol(flat: &Flat, t: SymbolId) -> Option<u32>
    ensures { IsSymbolOf flat.now t result }
{
    flat.terminal(t)
}

/// Lists the rules of all symbols, and the symbols of as many terminals, by their numbers.
pub fn list_heads(alloc: Global, flat: &Flat) -> Result<Heads, AllocError>
    ensures { IfOk result (AreHeads flat.now) }
{
    flat.known();
    let mut rules = Vec::new(alloc);
    let mut symbols = Vec::new(alloc);
    for number in 0..flat.symbol_count() {
        rules.push(find_rules(flat, number as u32))?;
        symbols.push(find_symbol(flat, SymbolId(number as u32)))?;
    }
    Ok(Heads { rules, symbols })
}

fn entry_at<T: Copy>(entries: &[T], place: usize) -> Option<T>
    ensures { result ≡ slice_get entries.now place }
{
    entries.get(place).copied()
}

/// The rules of a symbol, which stand together.
pub fn rules_of(flat: &Flat, heads: &Heads, symbol: u32) -> Rules
    requires { AreHeads flat.now heads.now }
    ensures { HasRules flat.now symbol result }
{
    match entry_at(&heads.rules, symbol as usize) {
        Some(rules) => rules,
        None => find_rules(flat, symbol),
    }
}

/// The symbol that stands for a terminal, if there is one.
pub fn symbol_of(flat: &Flat, heads: &Heads, t: SymbolId) -> Option<u32>
    requires { AreHeads flat.now heads.now }
    ensures some { IfSome result (λ x. slice_get flat.now.symbols x ≡ Some (Terminal t)) }
    ensures none { IsNone result → (x : ℕ) → slice_get flat.now.symbols x ≢ Some (Terminal t) }
{
    match entry_at(&heads.symbols, t.0 as usize) {
        Some(symbol) => symbol,
        None => flat.terminal(t),
    }
}
