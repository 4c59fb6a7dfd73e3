//! The first derivation without a forest, and whether it is the only one.
use slif_parser::{Derived, First, Forest, Grammar, Ranking, Reading, Show};
use std::alloc::Global;
use std::test::Fail;

// Of two sums, the one with the later right operand comes first.
const SUMS: &[u8] = b":default ::= action => [name,values]\nE ::= E '+' E | '1'\n";

/// An input, the line and the cursor of its first derivation, and whether that is the only one.
#[derive(Clone, Copy)]
struct Row {
    input: &'static [u8],
    line: &'static str,
    cursor: &'static str,
    only: bool,
}

static ROWS: [Row; 3] = [
    Row {
        input: b"1",
        line: "[\"E\",\"1\"]\n",
        cursor: "t2.r1,1",
        only: true,
    },
    Row {
        input: b"1+1",
        line: "[\"E\",[\"E\",\"1\"],\"+\",[\"E\",\"1\"]]\n",
        cursor: "t2.r1,1.t1.t2.r1,1.r0,3",
        only: true,
    },
    Row {
        input: b"1+1+1",
        line: "[\"E\",[\"E\",[\"E\",\"1\"],\"+\",[\"E\",\"1\"]],\"+\",[\"E\",\"1\"]]\n",
        cursor: "t2.r1,1.t1.t2.r1,1.r0,3.t1.t2.r1,1.r0,3",
        only: false,
    },
];

fn is_told(alloc: Global, first: &First<'_>, row: &Row) -> Result<bool, Fail> {
    let mut line = Vec::new(alloc);
    first.append_line(alloc, Show::Array, &mut line)?;
    let mut cursor = Vec::new(alloc);
    first.append_cursor(&mut cursor)?;
    Ok(
        line.as_slice() == row.line.as_bytes()
            && cursor.as_slice() == row.cursor.as_bytes()
            && first.is_only() == row.only,
    )
}

// Whether a forest begins with the derivation, and has another.
fn is_forest_told(alloc: Global, forest: &Forest<'_>, row: &Row) -> Result<bool, Fail> {
    let mut derivations = forest.derivations(alloc)?;
    if !derivations.next()? {
        return Ok(false);
    }
    let mut line = Vec::new(alloc);
    derivations.append_line(alloc, Show::Array, &mut line)?;
    Ok(line.as_slice() == row.line.as_bytes() && derivations.next()?)
}

fn is_first(alloc: Global, reading: &Reading<'_>, row: &Row) -> Result<bool, Fail> {
    match reading.first(alloc, Ranking::Rule) {
        Ok(first) => is_told(alloc, &first, row),
        Err(_) => Ok(false),
    }
}

fn is_derived(alloc: Global, reading: &Reading<'_>, row: &Row) -> Result<bool, Fail> {
    match reading.derived(alloc, Ranking::Rule) {
        Ok(Derived::Only(first)) => Ok(row.only && is_told(alloc, &first, row)?),
        Ok(Derived::Forest(forest)) => Ok(!row.only && is_forest_told(alloc, &forest, row)?),
        Err(_) => Ok(false),
    }
}

fn is_so(alloc: Global, row: &Row) -> Result<bool, Fail> {
    let Ok(grammar) = Grammar::from_text(alloc, SUMS) else {
        return Ok(false);
    };
    let Ok(reading) = grammar.read(alloc, row.input) else {
        return Ok(false);
    };
    Ok(is_first(alloc, &reading, row)? && is_derived(alloc, &reading, row)?)
}

#[test]
fn first_derivations_are_told_without_a_forest(rt: HostRuntime) -> Result<(), Fail> {
    for row in &ROWS {
        assert!(rt; is_so(rt.alloc(), row)?);
    }
    Ok(())
}

// Whether an input without a derivation is refused by both calls.
fn has_none(alloc: Global, input: &[u8]) -> Result<bool, Fail> {
    let Ok(grammar) = Grammar::from_text(alloc, SUMS) else {
        return Ok(false);
    };
    let Ok(reading) = grammar.read(alloc, input) else {
        return Ok(false);
    };
    let first = reading.first(alloc, Ranking::Rule).is_err();
    let derived = reading.derived(alloc, Ranking::Rule).is_err();
    Ok(first && derived)
}

#[test]
fn no_first_derivation_is_refused(rt: HostRuntime) -> Result<(), Fail> {
    assert!(rt; has_none(rt.alloc(), b"1+")?);
    Ok(())
}
