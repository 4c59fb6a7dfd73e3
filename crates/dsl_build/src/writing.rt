//! A grammar from its names, rules and starts.
ghost use Rattle.std.specs.Prelude.{◌≡◌, ◌≤◌, ◌<◌, ◌+◌, ◌++◌, ◌∷◌, [], map, length, All, Err, Ok, IfOk, OnOk, MatchResult, None, false, string_bytes};
ghost use Rattle.language_model.specs.Building.{is_one_of, count_from, set_names};
ghost use Rattle.grammar_model.specs.Grammar.{Plain, Sequence};
ghost use Rattle.grammar_model.specs.declared.limits.TheConstants.{MOST_ENTRIES};
ghost use Rattle.grammar_core.specs.Written.{rule_of};
ghost use Rattle.grammar_core.specs.Refusals.{Answers};
ghost use Rattle.grammar_core.specs.declared.refusal.CoreRefusal.TheVariants.{NoMemory};
ghost use Rattle.dsl_faults.specs.Texts.{AllNew};
ghost use Rattle.dsl_build.specs.Lexical.{set_name};
ghost use Rattle.dsl_build.specs.Ready.{IsGood, IsWritable};
ghost use Rattle.dsl_build.specs.Rules.{grammar_with, with_rules, with_names, with_starts};

use dsl_faults::Names;
use grammar_core::{CoreRefusal, Rule, SeqRule, SymbolId, Written, WrittenRule};
use itoa::Buffer;
use std::alloc::{AllocError, Global};

// What a grammar answers to what it grants.
fn granted<T: Copy>(answer: Result<T, CoreRefusal>) -> Result<T, AllocError>
    requires { Answers None answer }
    ensures { MatchResult result (λ x. answer ≡ Ok x) (λ _. answer ≡ Err NoMemory) }
{
    match answer {
        Ok(x) => Ok(x),
        Err(CoreRefusal::NoMemory) => Err(AllocError),
        Err(CoreRefusal::BadSymbol) => unreachable!(),
        Err(CoreRefusal::BadLevel) => unreachable!(),
        Err(CoreRefusal::TooMany) => unreachable!(),
    }
}

// One more symbol, whose name no other has.
fn add_symbol(w: &mut Written, name: &str) -> Result<(), AllocError>
    requires new { is_one_of w.old.names name.now ≡ false }
    requires room { length w.old.names < MOST_ENTRIES }
    ensures { OnOk result (w.new ≡ with_names w.old (name.now ∷ [])) }
{
    granted(w.symbol_new(name))?;
    Ok(())
}

// A grammar of these symbols, with no rules.
fn named(alloc: Global, names: &Names) -> Result<Written, AllocError>
    requires differ { AllNew [] names.now }
    requires room { length names.now ≤ MOST_ENTRIES }
    ensures { IfOk result (λ w. w ≡ record { names = names.now; rules = []; starts = [] }) }
{
    let mut w = Written::new(alloc);
    for place in 0..names.len() {
        add_symbol(&mut w, names.text(place))?;
    }
    Ok(w)
}

// Puts the name of a set into a text, in the place of what it had.
fn write_set_name(name: &mut String, number: usize) -> Result<(), AllocError>
    ensures { OnOk result (string_bytes name.new ≡ set_name number) }
{
    name.clear();
    name.push_str(":")?;
    name.push_str(Buffer::new().format(number))
}

// Symbols of so many sets, named by their numbers.
fn add_sets(alloc: Global, w: &mut Written, count: usize) -> Result<(), AllocError>
    requires differ { AllNew [] (w.old.names ++ set_names count) }
    requires room { length w.old.names + count ≤ MOST_ENTRIES }
    ensures { OnOk result (w.new ≡ with_names w.old (set_names count)) }
{
    let mut name = String::new(alloc);
    for number in 0..count {
        write_set_name(&mut name, number)?;
        add_symbol(w, name.as_str())?;
    }
    Ok(())
}

fn add_plain(w: &mut Written, rule: Rule) -> Result<(), AllocError>
    requires good { IsGood (length w.old.names) (Plain rule) }
    requires room { length w.old.rules < MOST_ENTRIES }
    ensures { OnOk result (w.new ≡ with_rules w.old (Plain rule ∷ [])) }
{
    granted(w.rule_new(rule))?;
    Ok(())
}

fn add_sequence(w: &mut Written, rule: SeqRule) -> Result<(), AllocError>
    requires good { IsGood (length w.old.names) (Sequence rule) }
    requires room { length w.old.rules < MOST_ENTRIES }
    ensures { OnOk result (w.new ≡ with_rules w.old (Sequence rule ∷ [])) }
{
    granted(w.sequence_new(rule))?;
    Ok(())
}

fn add_rule(w: &mut Written, rule: WrittenRule) -> Result<(), AllocError>
    requires good { IsGood (length w.old.names) (rule_of rule) }
    requires room { length w.old.rules < MOST_ENTRIES }
    ensures { OnOk result (w.new ≡ with_rules w.old (rule_of rule ∷ [])) }
{
    match rule {
        WrittenRule::Plain(rule) => add_plain(w, rule),
        WrittenRule::Sequence(rule) => add_sequence(w, rule),
    }
}

fn add_rules(w: &mut Written, rules: Vec<WrittenRule>) -> Result<(), AllocError>
    requires good { All (IsGood (length w.old.names)) (map rule_of rules.items) }
    requires room { length w.old.rules + length rules.items ≤ MOST_ENTRIES }
    ensures { OnOk result (w.new ≡ with_rules w.old (map rule_of rules.items)) }
{
    for rule in rules {
        add_rule(w, rule)?;
    }
    Ok(())
}

fn add_start(w: &mut Written, symbol: SymbolId) -> Result<(), AllocError>
    requires known { symbol < length w.old.names }
    requires room { length w.old.starts < MOST_ENTRIES }
    ensures { OnOk result (w.new ≡ with_starts w.old (symbol ∷ [])) }
{
    granted(w.start_add(symbol))
}

fn add_starts(w: &mut Written, starts: &[SymbolId]) -> Result<(), AllocError>
    requires known { All (λ s. s < length w.old.names) starts.now }
    requires room { length w.old.starts + length starts.now ≤ MOST_ENTRIES }
    ensures { OnOk result (w.new ≡ with_starts w.old starts.now) }
{
    for symbol in starts {
        add_start(w, *symbol)?;
    }
    Ok(())
}

// Puts symbols of so many sets, rules and starts after the names of a grammar that has no more.
fn fill(
    alloc: Global,
    w: &mut Written,
    sets: usize,
    rules: Vec<WrittenRule>,
    starts: &[SymbolId],
) -> Result<(), AllocError>
    requires no_rules { w.old.rules ≡ [] }
    requires no_starts { w.old.starts ≡ [] }
    requires writable { IsWritable (grammar_with w.old.names sets (map rule_of rules.items) starts.now) }
    ensures { OnOk result (w.new ≡ grammar_with w.old.names sets (map rule_of rules.items) starts.now) }
{
    add_sets(alloc, w, sets)?;
    add_rules(w, rules)?;
    add_starts(w, starts)
}

/// The grammar with these names, symbols of so many sets after them, and these rules and starts.
pub fn written(
    alloc: Global,
    names: &Names,
    sets: usize,
    rules: Vec<WrittenRule>,
    starts: &[SymbolId],
) -> Result<Written, AllocError>
    requires { IsWritable (grammar_with names.now sets (map rule_of rules.items) starts.now) }
    ensures { IfOk result (λ w. w ≡ grammar_with names.now sets (map rule_of rules.items) starts.now) }
{
    let mut w = named(alloc, names)?;
    match fill(alloc, &mut w, sets, rules, starts) {
        Ok(()) => Ok(w),
        Err(error) => {
            drop(w);
            Err(error)
        }
    }
}
