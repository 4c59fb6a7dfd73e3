//! What is asked of readings: their forests, derivations, numbers and reports.
ghost use Rattle.std.specs.Prelude.{◌≡◌, ◌<◌};

use crate::derivations::{have_count, have_texts};
use crate::forests::{Starts, has_size};
use crate::lines::have_lines;
use crate::reports::{Line, has_reports};
use bocage::{Forest, Stats};
use earley_sets::Recce;
use grammar_core::Written;
use grammar_model::Ranking;
use row_readings::Question;
use slif_base::Steps;
use std::alloc::{AllocError, Global};
use std::marker::Brand;
use std::sync::ledger::{Blank, Ledger};

/// What a reading has.
#[derive(Clone, Copy)]
pub(crate) enum Wanted<'a> {
    NoParse,
    /// how many nodes, alternatives and derivations a forest has, and the rules of the start over the whole, in order
    Forest(usize, usize, u64, &'a [Starts]),
    /// the places, the kept items, the nodes and the hidden items
    Numbers([u128; 4]),
    Trees(&'a [&'a str]),
    Count(usize),
    Lines(&'a [u8]),
    Reports(&'a [&'a [Line]]),
}

/// A grammar, what is read by it, the ranking, and what the reading has.
pub(crate) type Row<'a> = row_readings::Row<'a, Wanted<'a>>;

fn numbers_of(stats: &Stats) -> [u128; 4] {
    [stats.tokens, stats.kept, stats.nodes, stats.expanded]
}

impl<'a> Question for Wanted<'a> {
    fn wants_none(&self) -> bool {
        matches!(self, Wanted::NoParse)
    }

    fn of_recce(
        &self,
        alloc: Global,
        w: &Written,
        recce: &Recce<'_>,
    ) -> Result<Option<bool>, anyhow::Error> {
        match self {
            Wanted::Reports(reports) => Ok(Some(has_reports(alloc, w, recce, reports)?)),
            _ => Ok(None),
        }
    }

    fn of_forest(
        &self,
        alloc: Global,
        w: &Written,
        _ranking: Ranking,
        forest: &Forest<'_>,
    ) -> Result<bool, AllocError> {
        forest_as_told(alloc, w, forest, self)
    }
}

// Whether a forest is as it is told, on a counter of its own.
fn forest_as_told(
    alloc: Global,
    w: &Written,
    forest: &Forest<'_>,
    wanted: &Wanted<'_>,
) -> Result<bool, AllocError> {
    told_with::<Brand>(Blank::new(1), alloc, w, forest, wanted)
}

fn told_with<L: Ledger>(
    blank: Blank,
    alloc: Global,
    w: &Written,
    forest: &Forest<'_>,
    wanted: &Wanted<'_>,
) -> Result<bool, AllocError>
    requires name { blank.name ≡ L.name }
    requires parts { blank.parts ≡ L.parts }
    requires some { 0 < blank.parts }
{
    let mut steps = Steps::<L>::of_blank(blank);
    is_told(alloc, w, forest, wanted, &mut steps)
}

fn is_told<L: Ledger>(
    alloc: Global,
    w: &Written,
    forest: &Forest<'_>,
    wanted: &Wanted<'_>,
    steps: &mut Steps<L>,
) -> Result<bool, AllocError> {
    match wanted {
        Wanted::Forest(nodes, alternatives, derivations, rules) => {
            let counts = (*nodes, *alternatives, *derivations);
            Ok(has_size(alloc, forest, counts, rules, steps)?)
        }
        Wanted::Numbers(numbers) => Ok(numbers_of(&forest.stats(alloc)?) == *numbers),
        Wanted::Trees(trees) => have_texts(alloc, w, forest, trees, steps),
        Wanted::Count(count) => have_count(alloc, w, forest, *count, steps),
        Wanted::Lines(lines) => have_lines(alloc, w, forest, lines, steps),
        _ => Ok(false),
    }
}
