//! Cursors of derivations, told by hand: written, and read again; and texts that are none.
ghost use Rattle.std.specs.Prelude.{◌≡◌};

use crate::readings::{Row, Wanted};
use bocage::Forest;
use grammar_core::TreeStep;
use grammar_model::Ranking;
use row_readings::{COMMAS, HIGH, Input, LOW, SUM, are_rows};
use slif_base::Steps;
use std::alloc::{AllocError as NoMemory, Global};
use std::sync::ledger::Ledger;
use std::test::Fail;
use tree_cursor::{CursorRefusal, read_cursor, write_cursor};
use tree_iter::TreeIter;

static ROWS: &[Row<'static>] = &[
    (
        SUM,
        Input::Row(&[1, 2, 1, 2, 1]),
        Ranking::Rule,
        Wanted::Cursors(&[
            "t1.r1,1.t2.t1.r1,1.r0,3.t2.t1.r1,1.r0,3",
            "t1.r1,1.t2.t1.r1,1.t2.t1.r1,1.r0,3.r0,3",
        ]),
    ),
    (
        LOW,
        Input::Row(&[]),
        Ranking::Rule,
        Wanted::Cursors(&["n0"]),
    ),
    (
        LOW,
        Input::Row(&[2]),
        Ranking::Rule,
        Wanted::Cursors(&["n1.t2.r1,1.r0,2", "t2.r1,1.n1.r0,2"]),
    ),
    (
        HIGH,
        Input::Row(&[2]),
        Ranking::Rule,
        Wanted::Cursors(&["t2.r1,1.n1.r0,2", "n1.t2.r1,1.r0,2"]),
    ),
    (
        COMMAS,
        Input::Row(&[1, 2, 1, 2]),
        Ranking::Rule,
        Wanted::Cursors(&["t1.t2.t1.t2.r0,4"]),
    ),
];

// Texts that spell no tree: a number that is not written so or is too big, a step of another form, a rule that takes no tree or
// more than there are, and more or fewer than one tree at the end.
static OTHERS: [&str; 20] = [
    "",
    ".",
    "0",
    "t",
    "t01",
    "t+1",
    "t-1",
    "t4294967296",
    "t1 ",
    "T1",
    "x1",
    "t1.",
    ".t1",
    "r0",
    "r0,1",
    "t1.r0,2",
    "t1.r0,0",
    "t1.r0,01",
    "t1.r0,1,1",
    "t1.t1",
];

// Whether the steps have the cursor, and are read from it.
fn is_cursor(alloc: Global, steps: &[TreeStep], cursor: &str) -> Result<bool, NoMemory> {
    let mut text = Vec::new(alloc);
    write_cursor(steps, &mut text)?;
    if text.as_slice() != cursor.as_bytes() {
        return Ok(false);
    }
    match read_cursor(alloc, cursor) {
        Ok(read) => Ok(read.as_slice() == steps),
        Err(CursorRefusal::BadCursor) => Ok(false),
        Err(CursorRefusal::NoMemory) => Err(NoMemory),
    }
}

/// Whether the derivations have these cursors, in this order.
pub(crate) fn have_cursors<L: Ledger>(
    alloc: Global,
    forest: &Forest<'_>,
    cursors: &[&str],
    steps: &mut Steps<L>,
) -> Result<bool, NoMemory> {
    let mut iter = TreeIter::new(alloc, forest)?;
    for cursor in cursors {
        if !iter.next(steps)? {
            return Ok(false);
        }
        if !is_cursor(alloc, iter.current_steps(), cursor)? {
            return Ok(false);
        }
    }
    Ok(!iter.next(steps)?)
}

#[test]
fn derivations_have_cursors(rt: HostRuntime) -> Result<(), Fail> {
    assert!(rt; are_rows(rt.alloc(), ROWS)?);
    Ok(())
}

#[test]
fn other_texts_are_none(rt: HostRuntime) -> Result<(), Fail> {
    for text in OTHERS {
        assert!(rt; matches!(read_cursor(rt.alloc(), text), Err(CursorRefusal::BadCursor)));
    }
    Ok(())
}
