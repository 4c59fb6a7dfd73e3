//! Grammars by tables of their rules, and their flat grammars.
ghost use Rattle.std.specs.Prelude.{◌<◌, length, IfOk};

use anyhow::bail;
use flat_rules::flatten;
use grammar_check::check;
use grammar_core::{Assoc, CoreRefusal, Flat, Rule, RuleId, SeqRule, SymbolId, Written};
use std::alloc::Global;

/// A left side and its parts, by the numbers of symbols.
pub(crate) type Line = (u32, &'static [u32]);

/// The names of the symbols, of which the first is the start, and the rules.
#[derive(Clone, Copy)]
pub(crate) struct Language {
    pub names: &'static [&'static str],
    pub lines: &'static [Line],
}

/// Adds symbols of these names.
pub(crate) fn add_names(w: &mut Written, names: &[&str]) -> Result<(), CoreRefusal> {
    for name in names {
        w.symbol_new(name)?;
    }
    Ok(())
}

/// Adds a rule that stands at a level of so many.
pub(crate) fn add_rule(
    alloc: Global,
    w: &mut Written,
    line: Line,
    level: u32,
    groups: u32,
    assoc: Assoc,
) -> Result<RuleId, CoreRefusal> {
    let rhs = line.1.iter().map(|part| SymbolId(*part)).collect(alloc)?;
    w.rule_new(Rule {
        lhs: SymbolId(line.0),
        rhs,
        level,
        groups,
        assoc,
        rank: 0,
        null_high: false,
    })
}

/// Symbol 0 becomes a list.
pub(crate) fn add_list(
    w: &mut Written,
    item: u32,
    plus: bool,
    separator: Option<SymbolId>,
    proper: bool,
) -> Result<RuleId, CoreRefusal> {
    w.sequence_new(SeqRule {
        lhs: SymbolId(0),
        item: SymbolId(item),
        plus,
        separator,
        proper,
        rank: 0,
        null_high: false,
    })
}

// Adds the symbols, the rules and the start.
fn add_all(alloc: Global, w: &mut Written, language: &Language) -> Result<(), CoreRefusal> {
    add_names(w, language.names)?;
    for line in language.lines {
        add_rule(alloc, w, *line, 0, 1, Assoc::Left)?;
    }
    w.start_add(SymbolId(0))
}

/// The grammar of the rules.
pub(crate) fn written_of(alloc: Global, language: &Language) -> Result<Written, CoreRefusal> {
    let mut w = Written::new(alloc);
    add_all(alloc, &mut w, language)?;
    Ok(w)
}

/// The flat grammar of a grammar that passes the check.
pub(crate) fn flat_of(alloc: Global, w: &Written) -> Result<Flat, anyhow::Error>
    ensures { IfOk result (λ f. 0 < length f.tops) }
{
    match check(alloc, w) {
        Ok(checked) => {
            let flat = flatten(alloc, &checked);
            drop(checked);
            Ok(flat?)
        }
        Err(_) => bail!("the check refuses the grammar"),
    }
}
