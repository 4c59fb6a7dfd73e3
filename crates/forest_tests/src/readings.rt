//! What is asked of forests: the cursors of their derivations, their glades, and jumps to their derivations.
ghost use Rattle.std.specs.Prelude.{◌≡◌, ◌<◌};

use crate::ambiguities::{Told, has_glades};
use crate::cursors::have_cursors;
use crate::jumps::have_jumps;
use bocage::Forest;
use earley_sets::Recce;
use grammar_core::Written;
use grammar_model::Ranking;
use row_readings::Question;
use slif_base::Steps;
use std::alloc::{AllocError, Global};
use std::marker::Brand;
use std::sync::ledger::{Blank, Ledger};

/// What a forest has.
#[derive(Clone, Copy)]
pub(crate) enum Wanted<'a> {
    Cursors(&'a [&'a str]),
    Glades(&'a [Told]),
    /// so many derivations, with jumps from each to each
    Jumps(usize),
}

/// A grammar, what is read by it, the ranking, and what the forest has.
pub(crate) type Row<'a> = row_readings::Row<'a, Wanted<'a>>;

impl<'a> Question for Wanted<'a> {
    fn wants_none(&self) -> bool {
        false
    }

    fn of_recce(
        &self,
        _alloc: Global,
        _w: &Written,
        _recce: &Recce<'_>,
    ) -> Result<Option<bool>, anyhow::Error> {
        Ok(None)
    }

    fn of_forest(
        &self,
        alloc: Global,
        w: &Written,
        ranking: Ranking,
        forest: &Forest<'_>,
    ) -> Result<bool, AllocError> {
        forest_as_told(alloc, w, ranking, forest, self)
    }
}

// Whether a forest is as it is told, on a counter of its own.
fn forest_as_told(
    alloc: Global,
    w: &Written,
    ranking: Ranking,
    forest: &Forest<'_>,
    wanted: &Wanted<'_>,
) -> Result<bool, AllocError>
    requires written { forest.now.written ≡ w.now }
    requires ranking { forest.now.ranking ≡ ranking }
{
    told_with::<Brand>(Blank::new(1), alloc, w, ranking, forest, wanted)
}

fn told_with<L: Ledger>(
    blank: Blank,
    alloc: Global,
    w: &Written,
    ranking: Ranking,
    forest: &Forest<'_>,
    wanted: &Wanted<'_>,
) -> Result<bool, AllocError>
    requires name { blank.name ≡ L.name }
    requires parts { blank.parts ≡ L.parts }
    requires some { 0 < blank.parts }
    requires written { forest.now.written ≡ w.now }
    requires ranking { forest.now.ranking ≡ ranking }
{
    let mut steps = Steps::<L>::of_blank(blank);
    is_told(alloc, w, ranking, forest, wanted, &mut steps)
}

fn is_told<L: Ledger>(
    alloc: Global,
    w: &Written,
    ranking: Ranking,
    forest: &Forest<'_>,
    wanted: &Wanted<'_>,
    steps: &mut Steps<L>,
) -> Result<bool, AllocError>
    requires written { forest.now.written ≡ w.now }
    requires ranking { forest.now.ranking ≡ ranking }
{
    match wanted {
        Wanted::Cursors(cursors) => have_cursors(alloc, forest, cursors, steps),
        Wanted::Glades(glades) => match ranking {
            Ranking::Rule => has_glades(alloc, forest, w, glades, steps),
            _ => Ok(false),
        },
        Wanted::Jumps(count) => have_jumps(alloc, forest, *count, steps),
    }
}
