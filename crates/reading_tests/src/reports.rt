//! Reports of small grammars at each place, which are worked by hand from Earley's sets.
ghost use Rattle.recognizer_model.specs.FlatForm.{IsFlatOf};

use crate::readings::{Row, Wanted};
use earley_sets::Recce;
use grammar_core::Written;
use grammar_model::Ranking;
use progress::{ProgressRefusal, ReportLine, report};
use row_readings::{COMMAS, Input, LOW, Language, SUM, are_rows};
use std::alloc::Global;
use std::test::Fail;

/// A rule, a dot and an origin.
pub(crate) type Line = (u32, u32, u32);

const OF_SUM: Row<'static> = (
    SUM,
    Input::Row(&[1, 2, 1]),
    Ranking::Rule,
    Wanted::Reports(&[
        &[(0, 0, 0), (1, 0, 0)],
        &[(0, 1, 0), (1, 1, 0)],
        &[(0, 0, 2), (0, 2, 0), (1, 0, 2)],
        &[(0, 1, 0), (0, 1, 2), (0, 3, 0), (1, 1, 2)],
    ]),
);

const OF_LOW: Row<'static> = (
    LOW,
    Input::Row(&[2]),
    Ranking::Rule,
    Wanted::Reports(&[
        &[(0, 0, 0), (0, 1, 0), (0, 2, 0), (1, 0, 0)],
        &[(0, 1, 0), (0, 2, 0), (1, 0, 1), (1, 1, 0)],
    ]),
);

const OF_COMMAS: Row<'static> = (
    COMMAS,
    Input::Row(&[1, 2, 1]),
    Ranking::Rule,
    Wanted::Reports(&[&[(0, 0, 0)], &[(0, 1, 0)], &[(0, 2, 0)], &[(0, 1, 0)]]),
);

// L is a list of x
const BARE: Language = Language {
    names: &["L", "x"],
    lines: &[],
    lists: &[(0, 1, None)],
};

const OF_BARE: Row<'static> = (
    BARE,
    Input::Row(&[1, 1]),
    Ranking::Rule,
    Wanted::Reports(&[&[(0, 0, 0)], &[(0, 1, 0)], &[(0, 1, 0)]]),
);

fn has_lines(lines: &[ReportLine], wanted: &[Line]) -> bool {
    let mut same = lines.len() == wanted.len();
    for k in 0..lines.len().min(wanted.len()) {
        same = same && (lines[k].rule, lines[k].dot, lines[k].origin) == wanted[k];
    }
    same
}

/// Whether the reports of all places are these, and the place after them has none.
pub(crate) fn has_reports(
    alloc: Global,
    w: &Written,
    recce: &Recce<'_>,
    wanted: &[&[Line]],
) -> Result<bool, ProgressRefusal>
    requires { IsFlatOf recce.now.flat w.now }
{
    let end = recce.place() + 1;
    for place in 0..end {
        let lines = report(alloc, w, recce, place)?;
        let wanted = wanted.get(place as usize).copied().unwrap_or(&[]);
        if !has_lines(&lines, wanted) {
            return Ok(false);
        }
    }
    let behind = report(alloc, w, recce, end);
    Ok(end as usize == wanted.len() && matches!(behind, Err(ProgressRefusal::NoSuchSet)))
}

#[test]
fn reports_of_a_sum(rt: HostRuntime) -> Result<(), Fail> {
    assert!(rt; are_rows(rt.alloc(), &[OF_SUM])?);
    Ok(())
}

#[test]
fn reports_with_nulled_parts(rt: HostRuntime) -> Result<(), Fail> {
    assert!(rt; are_rows(rt.alloc(), &[OF_LOW])?);
    Ok(())
}

#[test]
fn reports_of_a_separated_list(rt: HostRuntime) -> Result<(), Fail> {
    assert!(rt; are_rows(rt.alloc(), &[OF_COMMAS])?);
    Ok(())
}

#[test]
fn reports_of_a_bare_list(rt: HostRuntime) -> Result<(), Fail> {
    assert!(rt; are_rows(rt.alloc(), &[OF_BARE])?);
    Ok(())
}
