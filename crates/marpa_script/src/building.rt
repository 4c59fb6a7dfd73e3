//! The lines by which a grammar is built. Each call puts the text of the answer in place of what the line held; nothing is written here.
ghost use Rattle.std.specs.Prelude.{◌≡◌, ◌≢◌, ◌<◌, ◌≤◌, ◌∷◌, All, Err, Ok, None, MatchResult, length, map, is_some, option_map, option_to_list, IfOk, IfSome, OnOk};
ghost use Rattle.std.specs.Option.{option_copied};
ghost use Rattle.std.specs.List.{list_all};
ghost use Rattle.grammar_model.specs.Grammar.{Plain, Sequence};
ghost use Rattle.grammar_model.specs.Growth.{has_name, number_of, with_rule};
ghost use Rattle.grammar_model.specs.declared.limits.TheConstants.{MOST_ENTRIES};
ghost use Rattle.grammar_core.specs.Refusals.{Answers};
ghost use Rattle.grammar_core.specs.declared.refusal.CoreRefusal.TheVariants.{NoMemory};
ghost use Rattle.recognizer_model.specs.View.{plain_rule};
ghost use Rattle.script_model.specs.Replies.{says, symbol_reply, rule_reply, sequence_reply, start_reply};
ghost use Rattle.script_model.specs.Commands.{Precompute};
ghost use Rattle.marpa_script.specs.Told.{texts, told};
ghost use Rattle.marpa_script.specs.Machines.{building, LineReplies};

use crate::answers::{put, put_number};
use crate::commands::Command;
use grammar_core::{Assoc, CoreRefusal, Rule, RuleId, SeqRule, SymbolId, Written};
use std::alloc::{AllocError, Global};

const MOST_PARTS: usize = 1_000;

// What a grammar answers to what it grants.
fn granted<T: Copy>(answer: Result<T, CoreRefusal>) -> Result<T, AllocError>
    requires { Answers None answer }
    ensures { MatchResult result (λ x. answer ≡ Ok x) (λ _. answer ≡ Err NoMemory) }
{
    match answer {
        Ok(x) => Ok(x),
        Err(CoreRefusal::NoMemory) => Err(AllocError),
        Err(CoreRefusal::BadSymbol) => unreachable!(),
        Err(CoreRefusal::BadLevel) => unreachable!(),
        Err(CoreRefusal::TooMany) => unreachable!(),
    }
}

// `symbol NAME`.
fn answer_symbol(w: &mut Written, name: &str, line: &mut Vec<u8>) -> Result<(), AllocError>
    requires room { length w.old.names < MOST_ENTRIES }
    ensures { OnOk result (says (building w.new) line.new.items ≡ symbol_reply (building w.old) name.now) }
{
    let symbol = granted(w.symbol_new(name))?;
    put_number("symbol ", symbol.0, line)
}

// The numbers of known names; None where one is not known.
fn numbers_of(
    alloc: Global,
    w: &Written,
    names: &[&str],
) -> Result<Option<Vec<SymbolId>>, AllocError>
    ensures known { IfOk result (λ o. is_some o ≡ list_all (has_name w.now) (texts names.now)) }
    ensures numbers { IfOk result (λ o. IfSome o (λ ns. ns.items ≡ map (number_of w.now) (texts names.now))) }
    ensures held { IfOk result (λ o. IfSome o (λ ns. All (λ s. s < length w.now.names) ns.items)) }
{
    let mut numbers = Vec::new(alloc);
    for name in names {
        match w.symbol_named(*name) {
            Some(symbol) => numbers.push(symbol)?,
            None => return Ok(None),
        }
    }
    Ok(Some(numbers))
}

// The rule of a line: of rank 0, and of the one group of its statement.
fn plain(lhs: SymbolId, rhs: Vec<SymbolId>) -> Rule
    ensures { Plain result ≡ plain_rule lhs rhs.items }
{
    Rule {
        lhs,
        rhs,
        level: 0,
        groups: 1,
        assoc: Assoc::Left,
        rank: 0,
        null_high: false,
    }
}

// One more rule.
fn add_rule(w: &mut Written, lhs: SymbolId, rhs: Vec<SymbolId>) -> Result<RuleId, AllocError>
    requires lhs { lhs < length w.old.names }
    requires rhs { All (λ s. s < length w.old.names) rhs.items }
    requires short { length rhs.items ≤ 1000 }
    requires room { length w.old.rules < MOST_ENTRIES }
    ensures number { IfOk result (λ r. r ≡ length w.old.rules) }
    ensures ok { OnOk result (w.new ≡ with_rule w.old (plain_rule lhs rhs.items)) }
{
    granted(w.rule_new(plain(lhs, rhs)))
}

// `rule LHS`, with the names of its parts.
fn answer_rule(
    alloc: Global,
    w: &mut Written,
    lhs: &str,
    rhs: &[&str],
    line: &mut Vec<u8>,
) -> Result<(), AllocError>
    requires room { length w.old.rules < MOST_ENTRIES }
    ensures { OnOk result (says (building w.new) line.new.items ≡ rule_reply (building w.old) lhs.now (texts rhs.now)) }
{
    let Some(left) = w.symbol_named(lhs) else {
        return put("bad name", line);
    };
    let Some(parts) = numbers_of(alloc, w, rhs)? else {
        return put("bad name", line);
    };
    if rhs.len() > MOST_PARTS {
        return put("too long", line);
    }
    let rule = add_rule(w, left, parts)?;
    put_number("rule ", rule.0, line)
}

// The number of the separator, where there is one; None where its name is not known.
fn separator_of(w: &Written, separator: Option<&str>) -> Option<Option<SymbolId>>
    ensures known { is_some result ≡ list_all (has_name w.now) (option_to_list (option_copied separator.entry)) }
    ensures number { IfSome result (λ s. s ≡ option_map (number_of w.now) (option_copied separator.entry)) }
    ensures held { IfSome result (λ s. All (λ x. x < length w.now.names) (option_to_list s)) }
{
    match separator {
        None => Some(None),
        Some(name) => {
            let symbol = w.symbol_named(name)?;
            Some(Some(symbol))
        }
    }
}

// `sequence LHS ITEM`, with what else the line says.
fn answer_sequence(
    w: &mut Written,
    lhs: &str,
    item: &str,
    plus: bool,
    separator: Option<&str>,
    proper: bool,
    line: &mut Vec<u8>,
) -> Result<(), AllocError>
    requires room { length w.old.rules < MOST_ENTRIES }
    ensures { OnOk result (says (building w.new) line.new.items ≡
        sequence_reply (building w.old) lhs.now item.now plus (option_copied separator.entry)
        proper) }
{
    let Some(left) = w.symbol_named(lhs) else {
        return put("bad name", line);
    };
    let Some(part) = w.symbol_named(item) else {
        return put("bad name", line);
    };
    let Some(between) = separator_of(w, separator) else {
        return put("bad name", line);
    };
    let rule = granted(w.sequence_new(SeqRule {
        lhs: left,
        item: part,
        plus,
        separator: between,
        proper,
        rank: 0,
        null_high: false,
    }))?;
    put_number("rule ", rule.0, line)
}

// `start NAME`.
fn answer_start(w: &mut Written, name: &str, line: &mut Vec<u8>) -> Result<(), AllocError>
    ensures { OnOk result (says (building w.new) line.new.items ≡ start_reply (building w.old) name.now) }
{
    let Some(symbol) = w.symbol_named(name) else {
        return put("bad name", line);
    };
    if w.start_count() > 0 {
        return put("second start", line);
    }
    granted(w.start_add(symbol))?;
    put("start", line)
}

/// Answers a command of any phase but `precompute`: one that reads is not played now. Only memory may be wanting; then the grammar may have grown.
pub fn answer_building(
    alloc: Global,
    w: &mut Written,
    command: Command<'_>,
    line: &mut Vec<u8>,
) -> Result<(), AllocError>
    requires names { length w.old.names < MOST_ENTRIES }
    requires rules { length w.old.rules < MOST_ENTRIES }
    requires other { told command ≢ Precompute }
    ensures { OnOk result (LineReplies (building w.old) (told command.entry) (says (building w.new) line.new.items)) }
{
    match command {
        Command::Symbol(name) => answer_symbol(w, name, line),
        Command::Rule { lhs, rhs } => answer_rule(alloc, w, lhs, rhs, line),
        Command::Sequence {
            lhs,
            item,
            plus,
            separator,
            proper,
        } => answer_sequence(w, lhs, item, plus, separator, proper, line),
        Command::Start(name) => answer_start(w, name, line),
        Command::Precompute => unreachable!(),
        Command::Alternative { .. } => put("not now", line),
        Command::Complete => put("not now", line),
        Command::Expected => put("not now", line),
        Command::Report(_) => put("not now", line),
        Command::Trees(_) => put("not now", line),
    }
}
