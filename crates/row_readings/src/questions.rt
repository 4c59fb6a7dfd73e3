//! What is asked of a reading, and rows of readings. What owns a recognizer, an arena and a forest is dear to prove, so there is one
//! function of each kind.
ghost use Rattle.std.specs.Prelude.{◌≡◌, ◌<◌, length, IfOk, OnOk, IsTrue};
ghost use Rattle.grammar_model.specs.Checked.{IsChecked};
ghost use Rattle.recognizer_model.specs.FlatForm.{IsFlatOf};

use crate::grammars::{Language, flat_of, written_of};
use crate::tokens::{Input, read};
use bocage::{Forest, ForestRefusal};
use bumpalo::Bump;
use earley_sets::Recce;
use grammar_core::{Flat, Written};
use grammar_model::Ranking;
use slif_base::Steps;
use std::alloc::{AllocError, Global};
use std::marker::Brand;
use std::sync::ledger::{Blank, Ledger};

/// What is asked of a reading.
pub trait Question {
    /// Whether there is to be no derivation.
    fn wants_none(&self) -> bool;

    /// Whether what was read is as it is told; nothing, where the forest is asked.
    fn of_recce(
        &self,
        alloc: Global,
        w: &Written,
        recce: &Recce<'_>,
    ) -> Result<Option<bool>, anyhow::Error>
        requires checked { IsChecked w.now }
        requires flat { IsFlatOf recce.now.flat w.now };

    /// Whether the forest is as it is told.
    fn of_forest(
        &self,
        alloc: Global,
        w: &Written,
        ranking: Ranking,
        forest: &Forest<'_>,
    ) -> Result<bool, AllocError>
        requires written { forest.now.written ≡ w.now }
        requires ranking { forest.now.ranking ≡ ranking };
}

/// A grammar, what is read by it, the ranking, and what is asked.
pub type Row<'a, Q> = (Language, Input<'a>, Ranking, Q);

// Whether what was read is as it is told.
fn reading_is_so<L: Ledger, Q: Question>(
    alloc: Global,
    w: &Written,
    recce: &Recce<'_>,
    ranking: Ranking,
    question: &Q,
    steps: &mut Steps<L>,
) -> Result<bool, anyhow::Error>
    requires checked { IsChecked w.now }
    requires flat { IsFlatOf recce.now.flat w.now }
{
    if let Some(so) = question.of_recce(alloc, w, recce)? {
        return Ok(so);
    }
    let arena = Bump::new(alloc);
    match Forest::build(alloc, &arena, recce, w, ranking, steps) {
        Ok(forest) => {
            let so = question.of_forest(alloc, w, ranking, &forest);
            drop(forest);
            Ok(so?)
        }
        Err(refusal) => Ok(refusal == ForestRefusal::NoParse && question.wants_none()),
    }
}

// Reads, and tells whether the reading is as it is told.
fn goes_on<L: Ledger, Q: Question>(
    alloc: Global,
    w: &Written,
    recce: &mut Recce<'_>,
    input: &Input<'_>,
    ranking: Ranking,
    question: &Q,
    steps: &mut Steps<L>,
) -> Result<bool, anyhow::Error>
    requires checked { IsChecked w.now }
    requires flat { IsFlatOf recce.old.flat w.now }
{
    read(recce, input, steps)?;
    reading_is_so(alloc, w, recce, ranking, question, steps)
}

// Whether what a new recognizer reads is as it is told.
fn reads<L: Ledger, Q: Question>(
    alloc: Global,
    w: &Written,
    flat: &Flat,
    input: &Input<'_>,
    ranking: Ranking,
    question: &Q,
    steps: &mut Steps<L>,
) -> Result<bool, anyhow::Error>
    requires checked { IsChecked w.now }
    requires flat { IsFlatOf flat.now w.now }
    requires start { 0 < length flat.now.tops }
{
    let mut recce = Recce::new(alloc, flat, 0)?;
    let so = goes_on(alloc, w, &mut recce, input, ranking, question, steps);
    drop(recce);
    so
}

fn reads_with<L: Ledger, Q: Question>(
    blank: Blank,
    alloc: Global,
    w: &Written,
    flat: &Flat,
    input: &Input<'_>,
    ranking: Ranking,
    question: &Q,
) -> Result<bool, anyhow::Error>
    requires name { blank.name ≡ L.name }
    requires parts { blank.parts ≡ L.parts }
    requires some { 0 < blank.parts }
    requires checked { IsChecked w.now }
    requires flat { IsFlatOf flat.now w.now }
    requires start { 0 < length flat.now.tops }
{
    let mut steps = Steps::<L>::of_blank(blank);
    reads(alloc, w, flat, input, ranking, question, &mut steps)
}

/// Whether what is read by a grammar is as it is told.
pub fn is_so<Q: Question>(
    alloc: Global,
    w: &Written,
    input: &Input<'_>,
    ranking: Ranking,
    question: &Q,
) -> Result<bool, anyhow::Error>
    ensures checked { OnOk result (IsChecked w.now) }
{
    let flat = flat_of(alloc, w)?;
    let so = reads_with::<Brand, Q>(Blank::new(1), alloc, w, &flat, input, ranking, question);
    drop(flat);
    so
}

// Whether a row is as it is told.
fn is_row<Q: Question>(alloc: Global, row: &Row<'_, Q>) -> Result<bool, anyhow::Error> {
    let (language, input, ranking, question) = row;
    let w = written_of(alloc, language)?;
    let so = is_so(alloc, &w, input, *ranking, question);
    drop(w);
    so
}

/// Whether all rows are as they are told.
pub fn are_rows<Q: Question>(alloc: Global, rows: &[Row<'_, Q>]) -> Result<bool, anyhow::Error>
    ensures none { IfOk result (λ so. length rows.now ≡ 0 → IsTrue so) }
{
    for row in rows {
        if !is_row(alloc, row)? {
            return Ok(false);
        }
    }
    Ok(true)
}
