//! The dotted rules of a flat grammar, numbered in the order of rows, so that an item is a number and an origin.
ghost use Rattle.std.specs.Prelude.{◌≡◌, ◌≢◌, ◌≤◌, ◌<◌, ◌/◌, ◌%◌, ◌+◌, ◌^◌, ℕ, suc, [], length, Some, slice_get, Contains, IfOk, IfSome, IsNone, IsTrue, ◌↔◌, OnOk, OnErr};
ghost use Rattle.std.specs.List.{AllPairs};
ghost use Rattle.recognizer_model.specs.declared.Item.{Item as TheItem};
ghost use Rattle.recognizer_model.specs.Flat.{IsRule, rhs_of};
ghost use Rattle.item_rows.specs.Order.{IsInOrder};
ghost use Rattle.item_rows.specs.Unbound.{AreDotsOf};
ghost use Rattle.item_rows.specs.Kept.{IsItem, StandsForTerminal};
ghost use Rattle.kernels.specs.Slots.{placed};
ghost use Rattle.item_rows.specs.Dotted.{AddsDots, AreListed, AreNumbers, IsSpan, IsWholeSpan, IsTerminalSpan, AreSpans, IsTable, IsPacked, DifferInDots, dotted_at, begun_at, unpacked};

use crate::order::{PAST_SYMBOLS, below, list_sorted, number_of};
use grammar_core::{Flat, FlatSymbol};
use kernels::ORIGINS;
use recognizer_model::Item;
use std::alloc::{AllocError, AllocFailed, Global};
use std::marker::Model;

/// The dotted rules that wait for a symbol: the number of the first, and where they end.
#[derive(Clone, Copy)]
pub struct Span {
    pub start: u32,
    pub end: u32,
}

/// The dotted rules of a flat grammar. Each is an item with the origin 0.
pub struct DottedRules<'g> {
    flat: &'g Flat,
    dots: UnboundDots,
}

impl<'g> Drop for DottedRules<'g> {
    fn drop(self) {
        let DottedRules { flat: _, dots: _ } = self;
    }
}

impl<'g> Model for DottedRules<'g> {
    ghost use Rattle.item_rows.specs.Dotted.{Dotted, IsTable};

    ghost Value = { Dotted };

    ghost view = { λ d. record { flat = d.flat.now; rules = d.dots.rules.items } };

    ghost invariant = { λ d. IsTable d.flat.now d.dots.rules.items d.dots.firsts.items
        d.dots.numbers.items d.dots.spans.items d.dots.whole d.dots.scanned };
}

// How many items there are, if 32 bits can tell it.
fn count(items: &[Item]) -> Result<u32, AllocError>
    ensures ok { IfOk result (λ n. n ≡ length items.now) }
    ensures err { OnErr result (2 ^ 32 ≤ length items.now) }
{
    let count = items.len();
    if count < 4_294_967_296 {
        Ok(count as u32)
    } else {
        Err(AllocError)
    }
}

// Lists the dotted rules of a rule.
fn list_dots(flat: &Flat, rule: u32, listed: &mut Vec<Item>) -> Result<(), AllocFailed<Item>>
    requires { IsRule flat.now rule }
    ensures { OnOk result (AddsDots rule (suc (length (rhs_of flat.now rule))) listed.old.items
        listed.new.items) }
{
    flat.known();
    let length = flat.rhs(rule).len() as u32;
    for dot in 0..length {
        listed.push(Item {
            rule,
            dot,
            origin: 0,
        })?;
    }
    listed.push(Item {
        rule,
        dot: length,
        origin: 0,
    })?;
    Ok(())
}

// Lists the dotted rules rule by rule, and where those of each rule begin.
fn list_all(flat: &Flat, listed: &mut Vec<Item>, firsts: &mut Vec<u32>) -> Result<(), AllocError>
    requires listed { listed.old.items ≡ [] }
    requires firsts { firsts.old.items ≡ [] }
    ensures { OnOk result (AreListed flat.now listed.new.items firsts.new.items
        (length flat.now.rules)) }
{
    flat.known();
    for rule in 0..flat.rule_count() {
        let first = count(listed.as_slice())?;
        firsts.push(first)?;
        list_dots(flat, rule as u32, listed)?;
    }
    Ok(())
}

// The numbers that dotted rules have in the order of rows.
fn list_numbers(
    alloc: Global,
    flat: &Flat,
    listed: &[Item],
    rules: &[Item],
) -> Result<Vec<u32>, AllocError>
    requires order { IsInOrder flat.now rules.now }
    requires few { length rules.now < 2 ^ 32 }
    requires all { (item : TheItem) → Contains listed.now item → Contains rules.now item }
    ensures { IfOk result (λ numbers. AreNumbers listed.now rules.now numbers.items) }
{
    let mut numbers = Vec::new(alloc);
    for item in listed {
        match number_of(flat, rules, *item) {
            Some(number) => numbers.push(number as u32)?,
            None => unreachable!(),
        }
    }
    Ok(numbers)
}

// Looks for the dotted rules that wait for a symbol.
fn find_span(flat: &Flat, rules: &[Item], symbol: u32) -> Span
    requires order { IsInOrder flat.now rules.now }
    requires few { length rules.now < 2 ^ 32 }
    ensures { IsSpan flat.now rules.now symbol result }
{
    let symbol = symbol as u64;
    let start = below(flat, rules, symbol);
    let end = below(flat, rules, symbol + 1);
    Span {
        start: start as u32,
        end: end as u32,
    }
}

// Lists the spans of all symbols.
fn list_spans(alloc: Global, flat: &Flat, rules: &[Item]) -> Result<Vec<Span>, AllocError>
    requires order { IsInOrder flat.now rules.now }
    requires few { length rules.now < 2 ^ 32 }
    ensures { IfOk result (λ spans. AreSpans flat.now rules.now spans.items
        (length flat.now.symbols)) }
{
    flat.known();
    let mut spans = Vec::new(alloc);
    for symbol in 0..flat.symbol_count() {
        spans.push(find_span(flat, rules, symbol as u32))?;
    }
    Ok(spans)
}

// Looks for the dotted rules with the dot at the end, which stand last.
fn find_whole(flat: &Flat, rules: &[Item]) -> Span
    requires order { IsInOrder flat.now rules.now }
    requires few { length rules.now < 2 ^ 32 }
    requires dots { (k : ℕ) → k < length rules.now →
        (dotted_at rules.now k).dot ≤ length (rhs_of flat.now (dotted_at rules.now k).rule) }
    ensures { IsWholeSpan flat.now rules.now result }
{
    flat.known();
    let start = below(flat, rules, PAST_SYMBOLS);
    Span {
        start: start as u32,
        end: rules.len() as u32,
    }
}

fn is_terminal(flat: &Flat, symbol: u32) -> bool
    requires { symbol < length flat.now.symbols }
    ensures { IsTrue result ↔ StandsForTerminal flat.now symbol }
{
    match flat.symbol(symbol) {
        FlatSymbol::Terminal(_) => true,
        _ => false,
    }
}

// How many symbols stand for terminals. They stand first.
fn terminal_count(flat: &Flat) -> usize
    ensures exact { (x : ℕ) → x < result ↔ StandsForTerminal flat.now x }
    ensures few { result < 2 ^ 32 }
{
    flat.known();
    for symbol in 0..flat.symbol_count() {
        if !is_terminal(flat, symbol as u32) {
            return symbol;
        }
    }
    flat.symbol_count()
}

// Looks for the dotted rules that wait for terminals, which stand first.
fn find_scanned(flat: &Flat, rules: &[Item]) -> Span
    requires order { IsInOrder flat.now rules.now }
    requires few { length rules.now < 2 ^ 32 }
    ensures { IsTerminalSpan flat.now rules.now result }
{
    let count = terminal_count(flat);
    let end = below(flat, rules, count as u64);
    Span {
        start: 0,
        end: end as u32,
    }
}

fn number_at(numbers: &[u32], place: usize) -> Option<u32>
    ensures { result ≡ slice_get numbers.now place }
{
    numbers.get(place).copied()
}

fn item_at(items: &[Item], place: usize) -> Option<Item>
    ensures { result ≡ slice_get items.now place }
{
    items.get(place).copied()
}

fn span_at(spans: &[Span], place: usize) -> Option<Span>
    ensures { result ≡ slice_get spans.now place }
{
    spans.get(place).copied()
}

/// The item of a slotted number: its dotted rule, with the origin of its slot.
pub fn unpack(rules: &[Item], origins: &[u32], slotted: u64) -> Item
    requires number { slotted / 4294967296 < length rules.now }
    requires slot { slotted % 4294967296 < length origins.now }
    ensures { result ≡ unpacked rules.now (placed origins.now slotted) }
{
    let dotted = rules[(slotted / ORIGINS) as usize];
    Item {
        rule: dotted.rule,
        dot: dotted.dot,
        origin: origins[(slotted % ORIGINS) as usize],
    }
}

/// The item with the dotted rule of that number that begins at a place.
pub fn begin(rules: &[Item], number: u32, earleme: u32) -> Item
    requires { number < length rules.now }
    ensures { result ≡ begun_at rules.now earleme number }
{
    let dotted = rules[number as usize];
    Item {
        rule: dotted.rule,
        dot: dotted.dot,
        origin: earleme,
    }
}

// The number that stands for a rule and a dot, if there is one.
fn find_number(firsts: &[u32], numbers: &[u32], item: Item) -> Option<u32>
    ensures { (first : ℕ) → slice_get firsts.now item.rule ≡ Some first →
        result ≡ slice_get numbers.now (first + item.dot) }
{
    let first = number_at(firsts, item.rule as usize)?;
    number_at(numbers, first as usize + item.dot as usize)
}

// A dotted rule and the origin of an item in one number, if the dotted rule is that of the item.
fn pack_with(rules: &[Item], number: u32, item: Item) -> Option<u64>
    ensures some { IfSome result (λ n. IsPacked rules.now n item) }
    ensures none { IsNone result →
        slice_get rules.now number ≢
        Some (record { rule = item.rule; dot = item.dot; origin = 0 }) }
{
    let dotted = item_at(rules, number as usize)?;
    if dotted.rule == item.rule && dotted.dot == item.dot {
        Some(number as u64 * ORIGINS + item.origin as u64)
    } else {
        None
    }
}

impl<'g> DottedRules<'g> {
    /// All dotted rules of the grammar, in the order of rows.
    pub fn new(alloc: Global, flat: &'g Flat) -> Result<DottedRules<'g>, AllocError>
        ensures { IfOk result (λ d. d.flat ≡ flat.now) }
    {
        let mut listed = Vec::new(alloc);
        let mut firsts = Vec::new(alloc);
        list_all(flat, &mut listed, &mut firsts)?;
        let _count = count(&listed)?;
        let mut rules = Vec::new(alloc);
        list_sorted(alloc, flat, &listed, &mut rules)?;
        let numbers = list_numbers(alloc, flat, &listed, &rules)?;
        let spans = list_spans(alloc, flat, &rules)?;
        let whole = find_whole(flat, &rules);
        let scanned = find_scanned(flat, &rules);
        let dots = UnboundDots {
            rules,
            firsts,
            numbers,
            spans,
            whole,
            scanned,
        };
        Ok(DottedRules { flat, dots })
    }

    /// States what is always so of dotted rules.
    pub fn known(&self)
        ensures differ { DifferInDots self.now.rules }
        ensures few { length self.now.rules < 2 ^ 32 }
        ensures zero { (k : ℕ) → k < length self.now.rules →
            (dotted_at self.now.rules k).origin ≡ 0 }
    {
        let _count = self.dots.rules.len();
    }

    /// The dotted rules in the order of rows.
    pub fn rules(&self) -> &[Item]
        ensures { result.now ≡ self.now.rules }
    {
        &self.dots.rules
    }

    /// How many bounds there are for the numbers of dotted rules, those of spans among them.
    pub(crate) fn bounds(&self) -> u32
        ensures few { length self.now.rules < 4294967295 → result ≡ length self.now.rules + 1 }
        ensures many { 4294967295 ≤ length self.now.rules → result ≡ 0 }
    {
        let count = self.dots.rules.len();
        if count < 4_294_967_295 {
            count as u32 + 1
        } else {
            0
        }
    }

    /// The number that an item is packed into, if it is one of the grammar.
    pub fn pack(&self, item: Item) -> Option<u64>
        ensures some { IfSome result (λ n. IsPacked self.now.rules n item) }
        ensures none { IsNone result →
            (¬ IsItem self.now.flat item) × ((n : ℕ) → ¬ IsPacked self.now.rules n item) }
    {
        let number = find_number(&self.dots.firsts, &self.dots.numbers, item)?;
        pack_with(&self.dots.rules, number, item)
    }

    /// How many symbols the grammar has.
    pub(crate) fn symbol_count(&self) -> usize
        ensures { result < 2 ^ 32 }
    {
        self.flat.known();
        self.flat.symbol_count()
    }

    /// The dotted rules that wait for a symbol.
    pub fn span(&self, symbol: u32) -> Span
        ensures { IsSpan self.now.flat self.now.rules symbol result }
    {
        self.flat.known();
        match span_at(&self.dots.spans, symbol as usize) {
            Some(span) => span,
            None => Span { start: 0, end: 0 },
        }
    }

    /// The dotted rules with the dot at the end.
    pub fn whole(&self) -> Span
        ensures { IsWholeSpan self.now.flat self.now.rules result }
    {
        self.dots.whole
    }

    /// The dotted rules that wait for terminals.
    pub fn scanned(&self) -> Span
        ensures { IsTerminalSpan self.now.flat self.now.rules result }
    {
        self.dots.scanned
    }

    /// The same without the grammar.
    pub fn unbind(self) -> UnboundDots
        ensures table { AreDotsOf self.entry.flat result }
        ensures rules { result.rules.items ≡ self.entry.rules }
    {
        let DottedRules { flat: _, dots } = self;
        dots
    }
}

/// The dotted rules of a flat grammar, without the grammar.
#[derive(Drop)]
pub struct UnboundDots {
    // in the order of rows
    rules: Vec<Item>,
    // where those of each rule begin, rule by rule
    firsts: Vec<u32>,
    // the numbers of the dotted rules, rule by rule
    numbers: Vec<u32>,
    // by the symbols' numbers
    spans: Vec<Span>,
    // those with the dot at the end
    whole: Span,
    // those that wait for terminals
    scanned: Span,
}

impl UnboundDots {
    /// The same with their grammar.
    pub fn bind<'g>(self, flat: &'g Flat) -> DottedRules<'g>
        requires { AreDotsOf flat.now self }
        ensures { result ≡ record { flat = flat.now; rules = self.rules.items } }
    {
        DottedRules { flat, dots: self }
    }
}
