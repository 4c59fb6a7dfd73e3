//! The lines of sums, from the steps of the iterator and from the plain lister: they are the same.
ghost use Rattle.std.specs.Prelude.{◌≡◌, ◌<◌, ◌≤◌, [], All, IfOk, OnOk, false, length, pos};
ghost use Rattle.grammar_model.specs.Simple.{IsSimple};
ghost use Rattle.grammar_model.specs.declared.Assoc.TheVariants.{Left as AtLeft};

use crate::derivations::{OPERANDS, Style, name_of, texts_of};
use crate::readings::Wanted;
use anyhow::bail;
use bocage::Forest;
use grammar_core::{Assoc, Rule, RuleId, SymbolId, TreeStep, Written, WrittenRule};
use grammar_model::Ranking;
use plain_lister::{SlowList, list_simple};
use row_readings::{Input, is_so};
use slif_base::Steps;
use std::alloc::{AllocError, Global};
use std::sync::ledger::Ledger;
use std::test::Fail;

const SUM: &[u8] = b"1+1+1+1+1+1+1+1+1";

// E -> parts
fn rule(lhs: SymbolId, rhs: Vec<SymbolId>) -> Rule
    ensures { result ≡ record { lhs = lhs; rhs = rhs.items; level = 0; groups = 1; assoc = AtLeft; rank = pos 0; null_high = false } }
{
    Rule {
        lhs,
        rhs,
        level: 0,
        groups: 1,
        assoc: Assoc::Left,
        rank: 0,
        null_high: false,
    }
}

fn put_sum(alloc: Global, w: &mut Written) -> Result<(), anyhow::Error>
    requires none { w.old.rules ≡ [] }
    ensures simple { OnOk result (IsSimple w.new) }
    ensures started { OnOk result (0 < length w.new.starts) }
{
    let e = w.symbol_new("E")?;
    let one = w.symbol_new("'1'")?;
    let plus = w.symbol_new("'+'")?;
    if one == e {
        bail!("two symbols are one");
    }
    w.rule_new(rule(e, vec![in alloc; e, plus, e]?))?;
    w.rule_new(rule(e, vec![in alloc; one]?))?;
    w.start_add(e)?;
    Ok(())
}

// E -> E '+' E | '1', with the symbols in the order of those of the sums that are read
fn sum_grammar(alloc: Global) -> Result<Written, anyhow::Error>
    ensures simple { IfOk result (λ w. IsSimple w) }
    ensures started { IfOk result (λ w. 0 < length w.starts) }
{
    let mut w = Written::new(alloc);
    put_sum(alloc, &mut w)?;
    Ok(w)
}

fn left_name(w: &Written, rule: RuleId) -> &str {
    if (rule.0 as usize) >= w.rule_count() {
        return "?";
    }
    match w.written_rule(rule) {
        WrittenRule::Plain(rule) => name_of(w, rule.lhs),
        WrittenRule::Sequence(rule) => name_of(w, rule.lhs),
    }
}

/// The text of a leaf, or how that of a rule begins.
pub(crate) fn line_text(alloc: Global, w: &Written, step: &TreeStep) -> Result<String, AllocError> {
    match step {
        TreeStep::Token { symbol, .. } => {
            let name = name_of(w, *symbol);
            let text = if name == "'+'" { "+" } else { "1" };
            format!(in alloc; "[\"{name}\",\"{text}\"]")
        }
        TreeStep::Nulled { .. } => String::from_str(alloc, "undef"),
        TreeStep::Rule { rule, .. } => {
            let name = left_name(w, *rule);
            format!(in alloc; "[\"{name}\",{},", rule.0)
        }
    }
}

fn lines_of(alloc: Global, texts: &[String]) -> Result<Vec<u8>, AllocError> {
    let mut lines = Vec::new(alloc);
    for text in texts {
        lines.extend_from_slice(text.as_bytes())?;
        lines.push(b'\n')?;
    }
    Ok(lines)
}

/// Whether the derivations have these lines, in this order.
pub(crate) fn have_lines<L: Ledger>(
    alloc: Global,
    w: &Written,
    forest: &Forest<'_>,
    wanted: &[u8],
    steps: &mut Steps<L>,
) -> Result<bool, AllocError> {
    let texts = texts_of(alloc, w, forest, Style::Line, steps)?;
    Ok(lines_of(alloc, &texts)?.as_slice() == wanted)
}

fn put_lines(list: &SlowList, lines: &mut Vec<u8>) -> Result<(), AllocError> {
    for k in 0..list.len() {
        list.append_line(k, lines)?;
    }
    Ok(())
}

// All lines of the plain lister.
fn plain_lines(alloc: Global, w: &Written, input: &[u8]) -> Result<Vec<u8>, anyhow::Error>
    requires simple { IsSimple w.now }
    requires started { 0 < length w.now.starts }
    requires bytes { All (λ b. b < 128) input.now }
    requires short { length input.now ≤ 1000 }
{
    let list = list_simple(alloc, w, input)?;
    let mut lines = Vec::new(alloc);
    put_lines(&list, &mut lines)?;
    Ok(lines)
}

fn has_plain_lines(
    alloc: Global,
    w: &Written,
    input: &[u8],
    tokens: &[u32],
) -> Result<bool, anyhow::Error>
    requires simple { IsSimple w.now }
    requires started { 0 < length w.now.starts }
    requires bytes { All (λ b. b < 128) input.now }
    requires short { length input.now ≤ 1000 }
{
    let lines = plain_lines(alloc, w, input)?;
    let wanted = Wanted::Lines(&lines);
    is_so(alloc, w, &Input::Row(tokens), Ranking::Rule, &wanted)
}

fn has_same_lines(alloc: Global, input: &[u8], tokens: &[u32]) -> Result<bool, anyhow::Error>
    requires short { length input.now ≤ 1000 }
{
    if !input.iter().all(|b| *b < 128) {
        bail!("no characters of one byte");
    }
    let w = sum_grammar(alloc)?;
    let so = has_plain_lines(alloc, &w, input, tokens);
    drop(w);
    so
}

#[test]
fn sums_have_the_lines_of_the_plain_lister(rt: HostRuntime) -> Result<(), Fail> {
    for operands in 0..9 {
        let end = 2 * operands + 1;
        assert!(rt; has_same_lines(rt.alloc(), &SUM[..end], &OPERANDS[..end])?);
    }
    Ok(())
}
