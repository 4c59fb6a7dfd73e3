//! Steps of a recognizer, and what is seen of its sets on the way, by tables.
ghost use Rattle.std.specs.Prelude.{◌≡◌, ◌<◌, length};
ghost use Rattle.earley_sets.specs.Recognizer.{earleme_of};

use crate::grammars::{Language, flat_of, written_of};
use crate::leo::has_step;
use anyhow::bail;
use earley_sets::{AlternativeRefusal, Recce};
use grammar_core::{Flat, SymbolId, Written};
use slif_base::Steps;
use std::alloc::{AllocError, Global};
use std::marker::Brand;
use std::sync::ledger::{Blank, Ledger};

/// The length of the longest token.
pub(crate) const LONGEST: u32 = 1_048_576;

/// A step of a table.
#[derive(Clone, Copy)]
pub(crate) enum Step {
    /// a terminal, its length, and the answer
    Push(u32, u32, Result<(), AlternativeRefusal>),
    /// so many places on
    Pass(u32),
    /// tokens that are one place long
    Read(&'static [u32]),
    /// how many items the newest set keeps
    Keeps(usize),
    /// the terminals that are expected
    Expects(&'static [u32]),
    /// how many items each of the sets keeps
    AllKeep(&'static [usize]),
    /// how many items each of the sets hides
    AllHide(&'static [usize]),
    /// the step of the items that wait for a flat symbol in a set, by its rule, dot and origin
    Leads(u32, u32, Option<(u32, u32, u32)>),
    /// whether a tree spans all places
    Ends(bool),
}

// Goes on so many places.
fn pass<L: Ledger>(
    recce: &mut Recce<'_>,
    places: u32,
    steps: &mut Steps<L>,
) -> Result<(), anyhow::Error> {
    for _ in 0..places {
        if recce.place() >= LONGEST {
            bail!("too many places");
        }
        recce.complete_earleme(steps)?;
    }
    Ok(())
}

// Takes a terminal.
fn push(recce: &mut Recce<'_>, t: u32, length: u32) -> Result<(), AlternativeRefusal>
    requires { earleme_of recce.old < 16777216 }
{
    recce.alternative(SymbolId(t), length)
}

// Whether a terminal is answered so.
fn answers(
    recce: &mut Recce<'_>,
    t: u32,
    length: u32,
    wanted: Result<(), AlternativeRefusal>,
) -> bool {
    recce.place() < LONGEST && push(recce, t, length) == wanted
}

// Reads tokens, and tells whether each is taken.
fn read<L: Ledger>(
    recce: &mut Recce<'_>,
    tokens: &[u32],
    steps: &mut Steps<L>,
) -> Result<bool, anyhow::Error> {
    for token in tokens {
        if !answers(recce, *token, 1, Ok(())) {
            return Ok(false);
        }
        pass(recce, 1, steps)?;
    }
    Ok(true)
}

fn are_all_expected(recce: &Recce<'_>, terminals: &[u32]) -> bool {
    for t in terminals {
        if !recce.is_expected(SymbolId(*t)) {
            return false;
        }
    }
    true
}

fn are_terminals(found: &[SymbolId], wanted: &[u32]) -> bool {
    let mut same = found.len() == wanted.len();
    for k in 0..found.len().min(wanted.len()) {
        let t = found[k];
        same = same && t.0 == wanted[k];
    }
    same
}

// Whether these terminals, and no other, are expected.
fn expects(alloc: Global, recce: &Recce<'_>, terminals: &[u32]) -> Result<bool, AllocError> {
    let expected = recce.expected(alloc)?;
    Ok(are_terminals(&expected, terminals) && are_all_expected(recce, terminals))
}

fn is_size(sizes: &[usize], place: u32, size: usize) -> bool {
    sizes.get(place as usize).copied() == Some(size)
}

// Whether there are so many sets, and each keeps so many items.
fn all_keep(recce: &Recce<'_>, sizes: &[usize]) -> bool {
    let mut same = sizes.len() == recce.place() as usize + 1;
    for j in 0..=recce.place() {
        same = same && is_size(sizes, j, recce.kept(j).len());
    }
    same
}

// Whether there are so many sets, and each hides so many items.
fn all_hide<L: Ledger>(
    alloc: Global,
    recce: &Recce<'_>,
    sizes: &[usize],
    steps: &mut Steps<L>,
) -> Result<bool, AllocError> {
    let mut same = sizes.len() == recce.place() as usize + 1;
    for j in 0..=recce.place() {
        let hidden = recce.expand(alloc, j, 0, steps)?.len();
        same = same && is_size(sizes, j, hidden);
    }
    Ok(same)
}

// Whether the sets are as a step sees them.
fn sees<L: Ledger>(
    alloc: Global,
    recce: &Recce<'_>,
    step: Step,
    steps: &mut Steps<L>,
) -> Result<bool, AllocError> {
    match step {
        Step::Keeps(size) => Ok(recce.kept(recce.place()).len() == size),
        Step::Expects(terminals) => expects(alloc, recce, terminals),
        Step::AllKeep(sizes) => Ok(all_keep(recce, sizes)),
        Step::AllHide(sizes) => all_hide(alloc, recce, sizes, steps),
        Step::Leads(j, symbol, wanted) => has_step(alloc, recce, j, symbol, wanted),
        Step::Ends(wanted) => Ok(recce.at_end() == wanted),
        _ => Ok(false),
    }
}

// Does a step, and tells whether it went as wanted.
fn does<L: Ledger>(
    alloc: Global,
    recce: &mut Recce<'_>,
    step: Step,
    steps: &mut Steps<L>,
) -> Result<bool, anyhow::Error> {
    match step {
        Step::Push(t, length, wanted) => Ok(answers(recce, t, length, wanted)),
        Step::Pass(places) => {
            pass(recce, places, steps)?;
            Ok(true)
        }
        Step::Read(tokens) => read(recce, tokens, steps),
        _ => Ok(sees(alloc, recce, step, steps)?),
    }
}

// Whether all steps go as wanted.
fn does_all<L: Ledger>(
    alloc: Global,
    recce: &mut Recce<'_>,
    table: &[Step],
    steps: &mut Steps<L>,
) -> Result<bool, anyhow::Error> {
    for step in table {
        if !does(alloc, recce, *step, steps)? {
            return Ok(false);
        }
    }
    Ok(true)
}

/// Whether all steps go as wanted with a new recognizer.
pub(crate) fn is_so<L: Ledger>(
    blank: Blank,
    alloc: Global,
    flat: &Flat,
    table: &[Step],
) -> Result<bool, anyhow::Error>
    requires name { blank.name ≡ L.name }
    requires parts { blank.parts ≡ L.parts }
    requires some { 0 < blank.parts }
    requires start { 0 < length flat.now.tops }
{
    let mut steps = Steps::<L>::of_blank(blank);
    let mut recce = Recce::new(alloc, flat, 0)?;
    let done = does_all(alloc, &mut recce, table, &mut steps);
    drop(recce);
    done
}

fn goes_by(alloc: Global, w: &Written, table: &[Step]) -> Result<bool, anyhow::Error> {
    let flat = flat_of(alloc, w)?;
    let so = is_so::<Brand>(Blank::new(1), alloc, &flat, table);
    drop(flat);
    so
}

/// Whether all steps go as wanted with a grammar.
pub(crate) fn goes(
    alloc: Global,
    language: &Language,
    table: &[Step],
) -> Result<bool, anyhow::Error> {
    let w = written_of(alloc, language)?;
    let so = goes_by(alloc, &w, table);
    drop(w);
    so
}
