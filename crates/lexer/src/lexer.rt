//! A lexer: states that are used again from token to token.
ghost use Rattle.std.specs.Prelude.{◌≡◌, ◌<◌, ◌≤◌, ◌↔◌, ℕ, List, length, Some, Contains, IfOk, IfSome, IsNone, IsTrue, OnOk, ◌⊎◌, [], slice_get};
ghost use Rattle.std.specs.List.Sorted.{IsStrictlySortedBy};
ghost use Rattle.std.specs.Ordering.{nat_cmp};
ghost use Rattle.grammar_model.specs.declared.limits.TheConstants.{LONGEST_INPUT};
ghost use Rattle.recognizer_model.specs.declared.thread.Thread.{Thread as AThread};
ghost use Rattle.recognizer_model.specs.Flat.{IsRule};
ghost use Rattle.recognizer_model.specs.Threads.{IsTopRule};
ghost use Rattle.threads.specs.Lists.{list_at};
ghost use Rattle.threads.specs.Steps.{IsBegin};
ghost use Rattle.lexer.specs.Lexical.{IsLongestMatch, IsUnmatched};
ghost use Rattle.lexer.specs.Machines.{form_of, IsMatch, IsKindOf, IsMachine, Goes};
ghost use Rattle.lexer.specs.Reading.{IsDoneIn, IsBestRow};
ghost use Rattle.lexer.specs.Unbound.{IsLexerOver};

use crate::kinds::{Kind, is_match};
use crate::machine::{
    Machine, UnboundMachine, begin, bind, forget_if_full, new_machine, step, unbind,
};
use crate::next::STATES;
use crate::table::Lexical;
use grammar_core::Flat;
use recognizer_model::FlatSource;
use slif_base::Chars;
use std::alloc::{AllocError, Global};
use std::marker::Model;
use threads::Thread;

/// The longest match, in characters, and every candidate that has it, in the order of the candidates.
#[derive(Debug, Drop)]
pub struct LexAnswer {
    pub length: u32,
    pub matched: Vec<u32>,
}

/// The states of a lexical grammar that were met. It is seen as the grammar.
pub struct Lexer<'g> {
    machine: Machine<'g>,
    // room that is used again
    done: Vec<u32>,
}

impl<'g> Drop for Lexer<'g> {
    fn drop(self) {
        let Lexer {
            machine: _,
            done: _,
        } = self;
    }
}

impl<'g> Model for Lexer<'g> {
    ghost use Rattle.lexer.specs.Lexical.{LexicalForm};

    ghost Value = { LexicalForm };

    ghost use Rattle.lexer.specs.Machines.{form_of, IsMachine};

    ghost view = { λ l. form_of l.machine };

    ghost invariant = { λ l. IsMachine l.machine };
}

// A length, and the state there.
#[derive(Clone, Copy)]
struct Best {
    length: usize,
    state: usize,
}

fn kind_at(machine: &Machine<'_>, state: usize) -> Kind
    requires is { IsMachine machine.now }
    requires state { state < length machine.now.rows }
    ensures { IsKindOf machine.now.flat.now (list_at machine.now.rows state) result }
{
    machine.kinds[state]
}

// Reads from a place on, from the state of no text.
fn read(
    machine: &mut Machine<'_>,
    alloc: Global,
    chars: &Chars,
    at: usize,
    candidates: &[u32],
    first: usize,
) -> Result<Best, AllocError>
    requires is { IsMachine machine.old }
    requires at { at ≤ length chars.now }
    requires starts { (k : ℕ) → Contains candidates.now k → k < length machine.old.flat.now.tops }
    requires state { first < length machine.old.rows }
    requires begins { (set : List AThread) ×
        IsBegin machine.old.flat.now machine.old.parts candidates.now set
        (list_at machine.old.rows first) }
    ensures goes { Goes machine.old machine.new }
    ensures there { IfOk result (λ best. best.state < length machine.new.rows) }
    ensures within { IfOk result (λ best. best.length ≤ length chars.now) }
    ensures best { IfOk result (λ best. IsBestRow (form_of machine.new) chars.now at candidates.now
        (list_at machine.new.rows best.state) best.length) }
{
    machine.flat.known();
    let mut state = first;
    let mut best = Best { length: 0, state };
    for place in 0..chars.len() - at {
        if !kind_at(machine, state).goes {
            return Ok(best);
        }
        state = step(machine, alloc, state, chars.at(at + place))?;
        if kind_at(machine, state).matches {
            best = Best {
                length: place + 1,
                state,
            };
        }
    }
    Ok(best)
}

// Lists the rules of starts that are done in a row.
fn list_done(flat: &Flat, row: &[Thread], done: &mut Vec<u32>) -> Result<(), AllocError>
    requires { (th : AThread) → Contains row.now th → IsRule flat.now th.rule }
    ensures { OnOk result ((r : ℕ) →
        Contains done.new.items r ↔
        (Contains done.old.items r ⊎
        ((th : AThread) × Contains row.now th × IsMatch flat.now th × (th.rule ≡ r)))) }
{
    for thread in row {
        if is_match(flat, *thread) {
            done.push(thread.rule)?;
        }
    }
    Ok(())
}

// Whether the start's rule is one of these.
fn is_done(flat: &Flat, done: &[u32], candidate: u32) -> bool
    requires { candidate < length flat.now.tops }
    ensures { IsTrue result ↔
        ((r : ℕ) × (slice_get flat.now.tops candidate ≡ Some r) × Contains done.now r) }
{
    done.contains(&flat.top(candidate as usize))
}

// The start of a top rule.
fn start_of(flat: &Flat, rule: u32) -> Option<u32>
    requires rule { IsRule flat.now rule }
    requires top { IsTopRule flat.now rule }
    ensures { (k : ℕ) → (slice_get flat.now.tops k ≡ Some rule) ↔ (result ≡ Some k) }
{
    flat.known();
    match flat.origin_of(rule) {
        FlatSource::Top(start) => Some(start),
        FlatSource::Written(_) => None,
    }
}

// Whether a binary search comes to the start, as it does where the candidates are in order and have it.
fn is_found(candidates: &[u32], start: u32) -> bool
    ensures { IsTrue result → Contains candidates.now start }
{
    candidates.binary_search(&start).is_ok()
}

fn is_there(candidates: &[u32], start: u32) -> bool
    ensures { IsTrue result ↔ Contains candidates.now start }
{
    candidates.contains(&start)
}

// Whether the start is a candidate. They are in order where none of them is always looked for.
fn is_one_of(candidates: &[u32], start: u32) -> bool
    ensures { IsTrue result ↔ Contains candidates.now start }
{
    if is_found(candidates, start) {
        true
    } else {
        is_there(candidates, start)
    }
}

// Lists the start of the only rule that is done, if it is one of the candidates.
fn list_start(
    flat: &Flat,
    done: &[u32],
    candidates: &[u32],
    matched: &mut Vec<u32>,
) -> Result<(), AllocError>
    requires one { length done.now ≡ 1 }
    requires rules { (r : ℕ) → Contains done.now r → IsRule flat.now r × IsTopRule flat.now r }
    requires empty { matched.old.items ≡ [] }
    ensures exact { OnOk result ((k : ℕ) →
        Contains matched.new.items k ↔
        (Contains candidates.now k ×
        ((r : ℕ) × (slice_get flat.now.tops k ≡ Some r) × Contains done.now r))) }
    ensures sorted { OnOk result (IsStrictlySortedBy nat_cmp matched.new.items) }
{
    let Some(start) = start_of(flat, done[0]) else {
        return Ok(());
    };
    if !is_one_of(candidates, start) {
        return Ok(());
    }
    matched.push(start)?;
    Ok(())
}

// Lists the candidates whose rules are done, each looked for among several rules.
fn list_of_several(
    flat: &Flat,
    done: &[u32],
    candidates: &[u32],
    matched: &mut Vec<u32>,
) -> Result<(), AllocError>
    requires candidates { (k : ℕ) → Contains candidates.now k → k < length flat.now.tops }
    requires empty { matched.old.items ≡ [] }
    ensures exact { OnOk result ((k : ℕ) →
        Contains matched.new.items k ↔
        (Contains candidates.now k ×
        ((r : ℕ) × (slice_get flat.now.tops k ≡ Some r) × Contains done.now r))) }
    ensures sorted { OnOk result (IsStrictlySortedBy nat_cmp candidates.now →
        IsStrictlySortedBy nat_cmp matched.new.items) }
{
    for candidate in candidates {
        if is_done(flat, done, *candidate) {
            matched.push(*candidate)?;
        }
    }
    Ok(())
}

// Lists the candidates whose rules are done. One rule leads to its start.
fn list_matched(
    flat: &Flat,
    done: &[u32],
    candidates: &[u32],
    matched: &mut Vec<u32>,
) -> Result<(), AllocError>
    requires rules { (r : ℕ) → Contains done.now r → IsRule flat.now r × IsTopRule flat.now r }
    requires candidates { (k : ℕ) → Contains candidates.now k → k < length flat.now.tops }
    requires empty { matched.old.items ≡ [] }
    ensures exact { OnOk result ((k : ℕ) →
        Contains matched.new.items k ↔
        (Contains candidates.now k ×
        ((r : ℕ) × (slice_get flat.now.tops k ≡ Some r) × Contains done.now r))) }
    ensures sorted { OnOk result (IsStrictlySortedBy nat_cmp candidates.now →
        IsStrictlySortedBy nat_cmp matched.new.items) }
{
    if done.len() == 1 {
        return list_start(flat, done, candidates, matched);
    }
    list_of_several(flat, done, candidates, matched)
}

// Lists the candidates that are done in a row, in their order, in place of what the lists held.
fn match_row(
    flat: &Flat,
    row: &[Thread],
    candidates: &[u32],
    done: &mut Vec<u32>,
    matched: &mut Vec<u32>,
) -> Result<(), AllocError>
    requires row { (th : AThread) → Contains row.now th → IsRule flat.now th.rule }
    requires candidates { (k : ℕ) → Contains candidates.now k → k < length flat.now.tops }
    ensures exact { OnOk result ((k : ℕ) →
        Contains matched.new.items k ↔ (Contains candidates.now k × IsDoneIn flat.now row.now k)) }
    ensures sorted { OnOk result (IsStrictlySortedBy nat_cmp candidates.now →
        IsStrictlySortedBy nat_cmp matched.new.items) }
{
    done.clear();
    list_done(flat, row, done)?;
    matched.clear();
    list_matched(flat, done, candidates, matched)?;
    Ok(())
}

// The length of the longest match, by the states of a machine, and the candidates that have it.
fn longest_by(
    machine: &mut Machine<'_>,
    alloc: Global,
    chars: &Chars,
    at: usize,
    candidates: &[u32],
    hint: &mut usize,
    done: &mut Vec<u32>,
    matched: &mut Vec<u32>,
) -> Result<Option<u32>, AllocError>
    requires is { IsMachine machine.old }
    requires at { at ≤ length chars.now }
    requires few { length chars.now ≤ LONGEST_INPUT }
    requires starts { (k : ℕ) → Contains candidates.now k → k < length machine.old.flat.now.tops }
    ensures is { IsMachine machine.new }
    ensures form { form_of machine.new ≡ form_of machine.old }
    ensures none { IfOk result (λ longest. IsNone longest →
        IsUnmatched (form_of machine.old) chars.now at candidates.now) }
    ensures some { IfOk result (λ longest. IfSome longest (λ n. IsLongestMatch (form_of machine.old)
        chars.now at candidates.now n matched.new.items)) }
{
    forget_if_full(machine);
    let first = begin(machine, alloc, candidates, hint)?;
    let best = read(machine, alloc, chars, at, candidates, first)?;
    if best.length == 0 {
        return Ok(None);
    }
    let row = machine.rows.list(best.state);
    match_row(machine.flat, row, candidates, done, matched)?;
    Ok(Some(best.length as u32))
}

impl<'g> Lexer<'g> {
    /// A lexer with no states yet.
    pub fn new(alloc: Global, l0: Lexical<'g>) -> Result<Lexer<'g>, AllocError>
        ensures { IfOk result (λ l. l ≡ l0.entry) }
    {
        Lexer::with_limit(alloc, l0, STATES)
    }

    /// A lexer with no states yet, which keeps at most so many from one call to the next. What it answers does not depend on the limit.
    pub fn with_limit(alloc: Global, l0: Lexical<'g>, limit: usize) -> Result<Lexer<'g>, AllocError>
        ensures { IfOk result (λ l. l ≡ l0.entry) }
    {
        let machine = new_machine(alloc, l0, limit)?;
        Ok(Lexer {
            machine,
            done: Vec::new(alloc),
        })
    }

    /// The longest match of the candidates, which are starts by their places, at a place of the text; none where no candidate
    /// matches a character.
    pub fn longest(
        &mut self,
        alloc: Global,
        chars: &Chars,
        at: usize,
        candidates: &[u32],
    ) -> Result<Option<LexAnswer>, AllocError>
        requires at { at ≤ length chars.now }
        requires few { length chars.now ≤ LONGEST_INPUT }
        requires starts { (k : ℕ) → Contains candidates.now k → k < length self.old.flat.tops }
        ensures same { self.new ≡ self.old }
        ensures none { IfOk result (λ answer. IsNone answer →
            IsUnmatched self.old chars.now at candidates.now) }
        ensures some { IfOk result (λ answer. IfSome answer (λ a. IsLongestMatch self.old chars.now
            at candidates.now a.length a.matched.items)) }
    {
        let mut matched = Vec::new(alloc);
        match self.find_longest(alloc, chars, at, candidates, &mut matched)? {
            Some(length) => Ok(Some(LexAnswer { length, matched })),
            None => Ok(None),
        }
    }

    /// The length of the longest match, and every candidate that has it, in the order of the candidates, in place of what
    /// `matched` held; none where no candidate matches a character.
    pub fn find_longest(
        &mut self,
        alloc: Global,
        chars: &Chars,
        at: usize,
        candidates: &[u32],
        matched: &mut Vec<u32>,
    ) -> Result<Option<u32>, AllocError>
        requires at { at ≤ length chars.now }
        requires few { length chars.now ≤ LONGEST_INPUT }
        requires starts { (k : ℕ) → Contains candidates.now k → k < length self.old.flat.tops }
        ensures same { self.new ≡ self.old }
        ensures none { IfOk result (λ longest. IsNone longest →
            IsUnmatched self.old chars.now at candidates.now) }
        ensures some { IfOk result (λ longest. IfSome longest (λ n. IsLongestMatch self.old
            chars.now at candidates.now n matched.new.items)) }
    {
        let mut hint = 0;
        self.find_by_hint(alloc, chars, at, candidates, &mut hint, matched)
    }

    /// The same. The hint tells where the candidates may be noted, and is told where they are: what it is changes no answer.
    pub fn find_by_hint(
        &mut self,
        alloc: Global,
        chars: &Chars,
        at: usize,
        candidates: &[u32],
        hint: &mut usize,
        matched: &mut Vec<u32>,
    ) -> Result<Option<u32>, AllocError>
        requires at { at ≤ length chars.now }
        requires few { length chars.now ≤ LONGEST_INPUT }
        requires starts { (k : ℕ) → Contains candidates.now k → k < length self.old.flat.tops }
        ensures same { self.new ≡ self.old }
        ensures none { IfOk result (λ longest. IsNone longest →
            IsUnmatched self.old chars.now at candidates.now) }
        ensures some { IfOk result (λ longest. IfSome longest (λ n. IsLongestMatch self.old
            chars.now at candidates.now n matched.new.items)) }
    {
        longest_by(
            &mut self.machine,
            alloc,
            chars,
            at,
            candidates,
            hint,
            &mut self.done,
            matched,
        )
    }

    /// The same without the lexical grammar, so that it lends nothing from it.
    pub fn unbind(self) -> UnboundLexer
        ensures { IsLexerOver self.entry result }
    {
        let Lexer { machine, done } = self;
        UnboundLexer {
            machine: unbind(machine),
            done,
        }
    }
}

/// The states of a lexical grammar that were met, without the grammar.
pub struct UnboundLexer {
    machine: UnboundMachine,
    done: Vec<u32>,
}

// Written out, so that whoever lets it go does so by one call.
impl Drop for UnboundLexer {
    fn drop(self) {
        let UnboundLexer {
            machine: _,
            done: _,
        } = self;
    }
}

impl UnboundLexer {
    /// The same with the lexical grammar.
    pub fn bind<'g>(self, l0: Lexical<'g>) -> Lexer<'g>
        requires { IsLexerOver l0 self }
        ensures { result ≡ l0.entry }
    {
        let UnboundLexer { machine, done } = self;
        Lexer {
            machine: bind(machine, l0),
            done,
        }
    }
}

/// The longest match at one place, by a lexer of its own.
pub fn longest(
    alloc: Global,
    l0: Lexical<'_>,
    chars: &Chars,
    at: usize,
    candidates: &[u32],
) -> Result<Option<LexAnswer>, AllocError>
    requires at { at ≤ length chars.now }
    requires few { length chars.now ≤ LONGEST_INPUT }
    requires starts { (k : ℕ) → Contains candidates.now k → k < length l0.flat.tops }
    ensures none { IfOk result (λ answer. IsNone answer →
        IsUnmatched l0.entry chars.now at candidates.now) }
    ensures some { IfOk result (λ answer. IfSome answer (λ a. IsLongestMatch l0.entry chars.now at
        candidates.now a.length a.matched.items)) }
{
    let mut lexer = Lexer::new(alloc, l0)?;
    lexer.longest(alloc, chars, at, candidates)
}
