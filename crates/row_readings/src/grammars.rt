//! Grammars by tables of their rules, and reading by them.
ghost use Rattle.std.specs.Prelude.{◌≡◌, ◌<◌, length, IfOk, OnOk};
ghost use Rattle.grammar_model.specs.Checked.{IsChecked};
ghost use Rattle.recognizer_model.specs.FlatForm.{IsFlatOf};

use anyhow::bail;
use earley_sets::Recce;
use flat_rules::flatten;
use grammar_check::check;
use grammar_core::{Assoc, CoreRefusal, Flat, Rule, RuleId, SeqRule, SymbolId, Written};
use grammar_model::LAST_PLACE;
use slif_base::Steps;
use std::alloc::Global;
use std::sync::ledger::Ledger;

/// A left side, its parts, a rank, and whether a nulled last part comes first.
pub type Line = (u32, &'static [u32], i32, bool);

/// A left side, its item, and its separator.
pub type List = (u32, u32, Option<u32>);

/// The names of the symbols, of which the first is the start, the rules and the lists.
#[derive(Clone, Copy)]
pub struct Language {
    pub names: &'static [&'static str],
    pub lines: &'static [Line],
    pub lists: &'static [List],
}

/// E -> E '+' E | N
pub const SUM: Language = Language {
    names: &["E", "N", "+"],
    lines: &[(0, &[0, 2, 0], 0, false), (0, &[1], 0, false)],
    lists: &[],
};

/// S -> B B, B -> a, B ->
pub const LOW: Language = Language {
    names: &["S", "B", "a"],
    lines: &[
        (0, &[1, 1], 0, false),
        (1, &[2], 0, false),
        (1, &[], 0, false),
    ],
    lists: &[],
};

/// The same, with nulled last parts first.
pub const HIGH: Language = Language {
    names: &["S", "B", "a"],
    lines: &[
        (0, &[1, 1], 0, true),
        (1, &[2], 0, false),
        (1, &[], 0, false),
    ],
    lists: &[],
};

/// L is a list of x, with a comma between each two
pub const COMMAS: Language = Language {
    names: &["L", "x", ","],
    lines: &[],
    lists: &[(0, 1, Some(2))],
};

/// L is a list of I; I -> a | a a
pub const PIECES: Language = Language {
    names: &["L", "I", "a"],
    lines: &[(1, &[2], 0, false), (1, &[2, 2], 0, false)],
    lists: &[(0, 1, None)],
};

fn add_line(alloc: Global, w: &mut Written, line: &Line) -> Result<RuleId, CoreRefusal> {
    let rhs = line.1.iter().map(|part| SymbolId(*part)).collect(alloc)?;
    w.rule_new(Rule {
        lhs: SymbolId(line.0),
        rhs,
        level: 0,
        groups: 1,
        assoc: Assoc::Left,
        rank: line.2,
        null_high: line.3,
    })
}

fn add_list(w: &mut Written, list: &List) -> Result<RuleId, CoreRefusal> {
    w.sequence_new(SeqRule {
        lhs: SymbolId(list.0),
        item: SymbolId(list.1),
        plus: true,
        separator: list.2.map(|separator| SymbolId(separator)),
        proper: false,
        rank: 0,
        null_high: false,
    })
}

/// The grammar of the rules.
pub(crate) fn written_of(alloc: Global, language: &Language) -> Result<Written, CoreRefusal> {
    let mut w = Written::new(alloc);
    for name in language.names {
        w.symbol_new(name)?;
    }
    for list in language.lists {
        add_list(&mut w, list)?;
    }
    for line in language.lines {
        add_line(alloc, &mut w, line)?;
    }
    w.start_add(SymbolId(0))?;
    Ok(w)
}

/// The flat grammar of a grammar that passes the check.
pub(crate) fn flat_of(alloc: Global, w: &Written) -> Result<Flat, anyhow::Error>
    ensures checked { OnOk result (IsChecked w.now) }
    ensures flat { IfOk result (λ f. IsFlatOf f w.now) }
    ensures start { IfOk result (λ f. 0 < length f.tops) }
{
    match check(alloc, w) {
        Ok(checked) => {
            let flat = flatten(alloc, &checked);
            drop(checked);
            Ok(flat?)
        }
        Err(_) => bail!("the check refuses the grammar"),
    }
}

/// Takes a token that begins at the place.
pub(crate) fn take(recce: &mut Recce<'_>, token: u32, length: u32) -> Result<(), anyhow::Error>
    ensures { recce.new.flat ≡ recce.old.flat }
{
    if recce.place() >= LAST_PLACE {
        bail!("too many tokens");
    }
    recce.alternative(SymbolId(token), length)?;
    Ok(())
}

/// Goes on to the next place.
pub(crate) fn go_on<L: Ledger>(
    recce: &mut Recce<'_>,
    steps: &mut Steps<L>,
) -> Result<(), anyhow::Error>
    ensures { recce.new.flat ≡ recce.old.flat }
{
    if recce.place() >= LAST_PLACE {
        bail!("too many tokens");
    }
    recce.complete_earleme(steps)?;
    Ok(())
}

/// Reads tokens that are one place long.
pub(crate) fn read_all<L: Ledger>(
    recce: &mut Recce<'_>,
    tokens: &[u32],
    steps: &mut Steps<L>,
) -> Result<(), anyhow::Error>
    ensures { recce.new.flat ≡ recce.old.flat }
{
    for token in tokens {
        take(recce, *token, 1)?;
        go_on(recce, steps)?;
    }
    Ok(())
}
