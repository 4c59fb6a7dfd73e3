//! Jumps: from each derivation of a forest to each, and to steps that no derivation has.
ghost use Rattle.std.specs.Prelude.{◌≡◌};

use crate::readings::{Row, Wanted};
use bocage::Forest;
use grammar_core::TreeStep;
use grammar_model::Ranking;
use row_readings::{COMMAS, HIGH, Input, LOW, PIECES, SUM, are_rows};
use slif_base::Steps;
use std::alloc::{AllocError as NoMemory, Global};
use std::sync::ledger::Ledger;
use std::test::Fail;
use tree_iter::TreeIter;

// How many derivations each forest has.
static ROWS: &[Row<'static>] = &[
    (
        SUM,
        Input::Row(&[1, 2, 1, 2, 1, 2, 1, 2, 1, 2, 1]),
        Ranking::Rule,
        Wanted::Jumps(42),
    ),
    (
        SUM,
        Input::Row(&[1, 2, 1, 2, 1, 2, 1, 2, 1]),
        Ranking::None,
        Wanted::Jumps(14),
    ),
    (
        SUM,
        Input::Row(&[1, 2, 1, 2, 1, 2, 1, 2, 1]),
        Ranking::High,
        Wanted::Jumps(14),
    ),
    (LOW, Input::Row(&[]), Ranking::Rule, Wanted::Jumps(1)),
    (LOW, Input::Row(&[2]), Ranking::Rule, Wanted::Jumps(2)),
    (HIGH, Input::Row(&[2]), Ranking::Rule, Wanted::Jumps(2)),
    (
        COMMAS,
        Input::Row(&[1, 2, 1, 2]),
        Ranking::Rule,
        Wanted::Jumps(1),
    ),
    (
        PIECES,
        Input::Row(&[2, 2, 2]),
        Ranking::Rule,
        Wanted::Jumps(3),
    ),
];

fn all_of<L: Ledger>(
    alloc: Global,
    forest: &Forest<'_>,
    steps: &mut Steps<L>,
) -> Result<Vec<Vec<TreeStep>>, NoMemory> {
    let mut iter = TreeIter::new(alloc, forest)?;
    let mut all = Vec::new(alloc);
    for _ in 0..10_000 {
        if !iter.next(steps)? {
            break;
        }
        let mut list = Vec::new(alloc);
        list.extend_from_slice(iter.current_steps())?;
        all.push(list)?;
    }
    Ok(all)
}

// Whether `next` gives this one.
fn gives<L: Ledger>(
    iter: &mut TreeIter<'_>,
    wanted: Option<&Vec<TreeStep>>,
    steps: &mut Steps<L>,
) -> Result<bool, NoMemory> {
    let more = iter.next(steps)?;
    match wanted {
        Some(list) => {
            if !more {
                return Ok(false);
            }
            Ok(iter.current_steps() == list.as_slice())
        }
        None => Ok(!more),
    }
}

// The steps with one field of one of them changed.
fn changed(alloc: Global, list: &[TreeStep], at: usize) -> Result<Vec<TreeStep>, NoMemory> {
    let mut other = Vec::new(alloc);
    for (k, step) in list.iter().enumerate() {
        let step = if k != at {
            *step
        } else {
            match *step {
                TreeStep::Token { symbol, from, to } => TreeStep::Token {
                    symbol,
                    from,
                    to: to.wrapping_add(1),
                },
                TreeStep::Nulled { symbol, at } => TreeStep::Nulled {
                    symbol,
                    at: at.wrapping_add(1),
                },
                TreeStep::Rule {
                    rule,
                    children,
                    from,
                    to,
                } => TreeStep::Rule {
                    rule,
                    children: children.wrapping_add(1),
                    from,
                    to,
                },
            }
        };
        other.push(step)?;
    }
    Ok(other)
}

// Whether an iterator goes to the derivation with these steps and to none with the changed ones, and on from there.
fn leads<L: Ledger>(
    iter: &mut TreeIter<'_>,
    list: &[TreeStep],
    bad: &[TreeStep],
    following: Option<&Vec<TreeStep>>,
    steps: &mut Steps<L>,
) -> Result<bool, NoMemory> {
    if !iter.jump(list, steps)? {
        return Ok(false);
    }
    if iter.jump(bad, steps)? || iter.jump(&[], steps)? {
        return Ok(false);
    }
    gives(iter, following, steps)
}

/// Whether there are so many derivations, a jump leads from each to each, and none to steps that are changed.
pub(crate) fn have_jumps<L: Ledger>(
    alloc: Global,
    forest: &Forest<'_>,
    count: usize,
    steps: &mut Steps<L>,
) -> Result<bool, NoMemory> {
    let all = all_of(alloc, forest, steps)?;
    if all.len() != count {
        return Ok(false);
    }
    for i in 0..count {
        let from = all[i].as_slice();
        if from.is_empty() {
            return Ok(false);
        }
        let mut iter = TreeIter::new(alloc, forest)?;
        for j in 0..count {
            let bad = changed(alloc, from, j % from.len())?;
            let following = all.as_slice().get(j + 1);
            let led = leads(&mut iter, all[j].as_slice(), &bad, following, steps)?;
            if !led || !iter.jump(from, steps)? {
                return Ok(false);
            }
        }
        if !gives(&mut iter, all.as_slice().get(i + 1), steps)? {
            return Ok(false);
        }
    }
    Ok(true)
}

#[test]
fn jumps_lead_from_each_to_each(rt: HostRuntime) -> Result<(), Fail> {
    assert!(rt; are_rows(rt.alloc(), ROWS)?);
    Ok(())
}
