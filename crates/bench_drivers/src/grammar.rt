//! Grammars by tables of their rules.
ghost use Rattle.std.specs.Prelude.{◌<◌, length, IfOk, OnOk};
ghost use Rattle.grammar_model.specs.Checked.{IsChecked};
ghost use Rattle.recognizer_model.specs.FlatForm.{IsFlatOf};

use anyhow::bail;
use flat_rules::flatten;
use grammar_check::check;
use grammar_core::{Assoc, CoreRefusal, Flat, Rule, RuleId, SymbolId, Written};
use std::alloc::Global;

/// A left side and its parts, by the numbers of symbols.
pub(crate) type Line = (u32, &'static [u32]);

/// The group of an operator, the loosest being 0, of so many, and how it associates.
#[derive(Clone, Copy)]
pub(crate) struct Group {
    pub(crate) level: u32,
    pub(crate) groups: u32,
    pub(crate) assoc: Assoc,
}

/// The one group of rules that are no operators.
const ALONE: Group = Group {
    level: 0,
    groups: 1,
    assoc: Assoc::Left,
};

/// The names of the symbols, of which the first is the start, the rules, and the groups of the rules where they are operators.
#[derive(Clone, Copy)]
pub(crate) struct Language {
    pub(crate) names: &'static [&'static str],
    pub(crate) lines: &'static [Line],
    pub(crate) groups: &'static [Group],
}

impl Language {
    // The group of a rule.
    fn group(&self, k: usize) -> Group {
        self.groups.get(k).copied().unwrap_or(ALONE)
    }
}

fn add_line(
    alloc: Global,
    w: &mut Written,
    line: &Line,
    group: Group,
) -> Result<RuleId, CoreRefusal> {
    let rhs = line.1.iter().map(|part| SymbolId(*part)).collect(alloc)?;
    w.rule_new(Rule {
        lhs: SymbolId(line.0),
        rhs,
        level: group.level,
        groups: group.groups,
        assoc: group.assoc,
        rank: 0,
        null_high: false,
    })
}

/// The grammar of the rules.
pub(crate) fn written_of(alloc: Global, language: &Language) -> Result<Written, CoreRefusal> {
    let mut w = Written::new(alloc);
    for name in language.names {
        w.symbol_new(name)?;
    }
    for k in 0..language.lines.len() {
        add_line(alloc, &mut w, &language.lines[k], language.group(k))?;
    }
    w.start_add(SymbolId(0))?;
    Ok(w)
}

/// The flat grammar of a grammar that passes the check.
pub(crate) fn flat_of(alloc: Global, w: &Written) -> Result<Flat, anyhow::Error>
    ensures checked { OnOk result (IsChecked w.now) }
    ensures flat { IfOk result (λ f. IsFlatOf f w.now) }
    ensures start { IfOk result (λ f. 0 < length f.tops) }
{
    match check(alloc, w) {
        Ok(checked) => {
            let flat = flatten(alloc, &checked);
            drop(checked);
            Ok(flat?)
        }
        Err(_) => bail!("the check refuses the grammar"),
    }
}
