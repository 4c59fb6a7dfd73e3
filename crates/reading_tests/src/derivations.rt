//! Derivations that are given one after another: as texts of trees, in order, told by hand, and as many as is known.
ghost use Rattle.std.specs.Prelude.{◌≡◌, IsSome};
ghost use Rattle.recognizer_model.specs.Links.{choices};
ghost use Rattle.reading_tests.specs.Sums.{left_first, right_first};

use crate::lines::line_text;
use crate::readings::{Row, Wanted};
use bocage::Forest;
use grammar_core::{SymbolId, TreeStep, Written};
use grammar_model::Ranking;
use row_readings::{COMMAS, HIGH, Input, LOW, PIECES, SUM, are_rows};
use slif_base::Steps;
use std::alloc::{AllocError, Global};
use std::sync::ledger::Ledger;
use std::test::Fail;
use tree_iter::TreeIter;

// The texts of derivations: a token with its place, or with both its ends where it is longer, a nulled symbol as `B@0`, a rule as
// `0(..)`.
static ROWS: &[Row<'static>] = &[
    (
        SUM,
        Input::Row(&[1]),
        Ranking::Rule,
        Wanted::Trees(&["1(N0)"]),
    ),
    (
        SUM,
        Input::Row(&[1, 2, 1, 2, 1]),
        Ranking::Rule,
        Wanted::Trees(&[
            "0(0(1(N0) +1 1(N2)) +3 1(N4))",
            "0(1(N0) +1 0(1(N2) +3 1(N4)))",
        ]),
    ),
    (LOW, Input::Row(&[]), Ranking::Rule, Wanted::Trees(&["S@0"])),
    (
        LOW,
        Input::Row(&[2]),
        Ranking::Rule,
        Wanted::Trees(&["0(B@0 1(a0))", "0(1(a0) B@1)"]),
    ),
    (
        HIGH,
        Input::Row(&[2]),
        Ranking::Rule,
        Wanted::Trees(&["0(1(a0) B@1)", "0(B@0 1(a0))"]),
    ),
    (
        COMMAS,
        Input::Row(&[1, 2, 1]),
        Ranking::Rule,
        Wanted::Trees(&["0(x0 ,1 x2)"]),
    ),
    (
        COMMAS,
        Input::Row(&[1, 2, 1, 2]),
        Ranking::Rule,
        Wanted::Trees(&["0(x0 ,1 x2 ,3)"]),
    ),
    (
        PIECES,
        Input::Row(&[2, 2, 2]),
        Ranking::Rule,
        Wanted::Trees(&[
            "0(1(a0) 1(a1) 1(a2))",
            "0(2(a0 a1) 1(a2))",
            "0(1(a0) 2(a1 a2))",
        ]),
    ),
];

// How many derivations a sum of 1, 2, 3 and more operands has: the numbers of Catalan.
const SUMS: [usize; 9] = [1, 1, 2, 5, 14, 42, 132, 429, 1430];

/// A sum of nine operands, of which a beginning is a sum too.
pub(crate) const OPERANDS: [u32; 17] = [1, 2, 1, 2, 1, 2, 1, 2, 1, 2, 1, 2, 1, 2, 1, 2, 1];

const MOST_TREES: usize = 10_000;

/// How derivations are told: by short texts, or by lines of values.
#[derive(Clone, Copy)]
pub(crate) enum Style {
    Short,
    Line,
}

/// The name of a symbol, or `?` where the grammar has none of that number.
pub(crate) fn name_of(w: &Written, symbol: SymbolId) -> &str {
    if (symbol.0 as usize) < w.symbol_count() {
        w.name(symbol)
    } else {
        "?"
    }
}

fn token_text(alloc: Global, name: &str, from: u32, to: u32) -> Result<String, AllocError> {
    match to.saturating_sub(from) {
        1 => format!(in alloc; "{}{}", name, from),
        _ => format!(in alloc; "{}{}-{}", name, from, to),
    }
}

// The text of a leaf, or how that of a rule begins.
fn short_text(alloc: Global, w: &Written, step: &TreeStep) -> Result<String, AllocError> {
    match step {
        TreeStep::Token { symbol, from, to } => token_text(alloc, name_of(w, *symbol), *from, *to),
        TreeStep::Nulled { symbol, at } => format!(in alloc; "{}@{}", name_of(w, *symbol), at),
        TreeStep::Rule { rule, .. } => format!(in alloc; "{}(", rule.0),
    }
}

fn put_children(
    text: &mut String,
    children: &[String],
    between: &str,
    end: &str,
) -> Result<(), AllocError> {
    for k in 0..children.len() {
        if k > 0 {
            text.push_str(between)?;
        }
        text.push_str(children[k].as_str())?;
    }
    text.push_str(end)
}

// The text of a rule, which begins so, over those of its children.
fn rule_text(
    alloc: Global,
    beginning: &str,
    children: &[String],
    style: Style,
) -> Result<String, AllocError> {
    let (between, end) = match style {
        Style::Short => (" ", ")"),
        Style::Line => (",", "]"),
    };
    let mut text = String::from_str(alloc, beginning)?;
    put_children(&mut text, children, between, end)?;
    Ok(text)
}

// Puts the text of a step in place of those of its children.
fn put_step(
    alloc: Global,
    w: &Written,
    step: &TreeStep,
    style: Style,
    texts: &mut Vec<String>,
) -> Result<(), AllocError> {
    let text = match style {
        Style::Short => short_text(alloc, w, step)?,
        Style::Line => line_text(alloc, w, step)?,
    };
    if let TreeStep::Rule { children, .. } = step {
        let first = texts.len().saturating_sub(*children as usize);
        let whole = rule_text(alloc, text.as_str(), &texts[first..], style)?;
        texts.truncate(first);
        texts.push(whole)?;
    } else {
        texts.push(text)?;
    }
    Ok(())
}

fn joined(alloc: Global, texts: &[String]) -> Result<String, AllocError> {
    let mut whole = String::new(alloc);
    for text in texts {
        whole.push_str(text.as_str())?;
    }
    Ok(whole)
}

// The text of a tree, by its steps.
fn text_of(
    alloc: Global,
    w: &Written,
    steps: &[TreeStep],
    style: Style,
) -> Result<String, AllocError> {
    let mut texts = Vec::new(alloc);
    for step in steps {
        put_step(alloc, w, step, style, &mut texts)?;
    }
    joined(alloc, &texts)
}

// The text of the derivation that stands.
fn text_now(
    alloc: Global,
    w: &Written,
    iter: &TreeIter<'_>,
    style: Style,
) -> Result<String, AllocError>
    requires { IsSome iter.now.current }
{
    let mut tree = Vec::with_capacity(alloc, iter.steps_needed())?;
    iter.steps_of(&mut tree)?;
    Ok(text_of(alloc, w, &tree, style)?)
}

// Puts the texts of all derivations. At the end the iterator says again that there is none left.
fn put_texts<L: Ledger>(
    alloc: Global,
    w: &Written,
    iter: &mut TreeIter<'_>,
    style: Style,
    texts: &mut Vec<String>,
    steps: &mut Steps<L>,
) -> Result<(), AllocError> {
    for _ in 0..MOST_TREES {
        if !iter.next(steps)? {
            break;
        }
        texts.push(text_now(alloc, w, iter, style)?)?;
    }
    if iter.next(steps)? {
        texts.push(String::from_str(alloc, "one more")?)?;
    }
    Ok(())
}

/// The texts of all derivations.
pub(crate) fn texts_of<L: Ledger>(
    alloc: Global,
    w: &Written,
    forest: &Forest<'_>,
    style: Style,
    steps: &mut Steps<L>,
) -> Result<Vec<String>, AllocError> {
    let mut iter = TreeIter::new(alloc, forest)?;
    let mut texts = Vec::new(alloc);
    put_texts(alloc, w, &mut iter, style, &mut texts, steps)?;
    Ok(texts)
}

// Whether no two that follow each other are the same.
fn do_differ(texts: &[String]) -> bool {
    let mut differ = true;
    for k in 1..texts.len() {
        differ = differ && texts[k].as_str() != texts[k - 1].as_str();
    }
    differ
}

fn are_texts(texts: &[String], wanted: &[&str]) -> bool {
    let mut same = texts.len() == wanted.len();
    for k in 0..texts.len().min(wanted.len()) {
        same = same && texts[k].as_str() == wanted[k];
    }
    same
}

/// Whether the derivations have these texts, in this order.
pub(crate) fn have_texts<L: Ledger>(
    alloc: Global,
    w: &Written,
    forest: &Forest<'_>,
    wanted: &[&str],
    steps: &mut Steps<L>,
) -> Result<bool, AllocError> {
    let texts = texts_of(alloc, w, forest, Style::Short, steps)?;
    Ok(are_texts(&texts, wanted))
}

/// Whether there are so many derivations, and no two that follow each other have the same text.
pub(crate) fn have_count<L: Ledger>(
    alloc: Global,
    w: &Written,
    forest: &Forest<'_>,
    count: usize,
    steps: &mut Steps<L>,
) -> Result<bool, AllocError> {
    let texts = texts_of(alloc, w, forest, Style::Short, steps)?;
    Ok(texts.len() == count && do_differ(&texts))
}

#[test]
fn derivations_come_in_order(rt: HostRuntime) -> Result<(), Fail> {
    assert!(rt; are_rows(rt.alloc(), ROWS)?);
    Ok(())
}

#[test]
fn sums_have_as_many_as_is_known(rt: HostRuntime) -> Result<(), Fail> {
    for k in 0..9 {
        let row = (
            SUM,
            Input::Row(&OPERANDS[..2 * k + 1]),
            Ranking::Rule,
            Wanted::Count(SUMS[k]),
        );
        assert!(rt; are_rows(rt.alloc(), &[row])?);
    }
    Ok(())
}

/// Each of the two derivations of a sum of three operands has 52 choices, so the calls that give them take at most 52 steps each. It
/// does nothing.
pub(crate) fn sums_have_few_choices()
    ensures { (choices left_first ≡ 52) × (choices right_first ≡ 52) }
{}
