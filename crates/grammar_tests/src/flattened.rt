//! Flat rules of small grammars against lists written by hand.
use crate::grammars::{Line, add_list, add_names, add_rule, flat_of};
use grammar_core::{Assoc, CoreRefusal, Flat, SymbolId, Written};
use std::alloc::Global;
use std::test::Fail;

// Parts, level, and which occurrence of the left side keeps the level.
type Alternative = (&'static [u32], u32, Assoc);

// E ::= N | ( E ) || E ** E || E * E || E + E, with the numbers 0 E, 1 N, 2 (, 3 ), 4 **, 5 *, 6 +
const SUMS: &[Alternative] = &[
    (&[1], 3, Assoc::Left),
    (&[2, 0, 3], 3, Assoc::Group),
    (&[0, 4, 0], 2, Assoc::Right),
    (&[0, 5, 0], 1, Assoc::Left),
    (&[0, 6, 0], 0, Assoc::Left),
];

// Flat symbols: terminals from 0 to 5, E at its levels from 6 to 9, the top 10.
const SUM_LINES: &[Line] = &[
    (6, &[0]),
    (6, &[1, 6, 2]),
    (6, &[9, 3, 8]),
    (6, &[7, 4, 8]),
    (6, &[6, 5, 7]),
    (7, &[0]),
    (7, &[1, 6, 2]),
    (7, &[9, 3, 8]),
    (7, &[7, 4, 8]),
    (8, &[0]),
    (8, &[1, 6, 2]),
    (8, &[9, 3, 8]),
    (9, &[0]),
    (9, &[1, 6, 2]),
    (10, &[6]),
];

// Flat symbols of a star without separator: the item 0, the left side 1, the list 2, the top 3.
const STAR_LINES: &[Line] = &[(1, &[2]), (2, &[2, 0]), (2, &[0]), (3, &[1])];

// Flat symbols of a list with a separator: the item 0, the separator 1, the left side 2, the list 3, the top 4.
const LIST_LINES: &[Line] = &[
    (2, &[3]),
    (2, &[3, 1]),
    (3, &[3, 1, 0]),
    (3, &[0]),
    (4, &[2]),
];

// The same without a separator after the list.
const PROPER_LINES: &[Line] = &[(2, &[3]), (3, &[3, 1, 0]), (3, &[0]), (4, &[2])];

// The same with a separator that has no tree, and so is no flat symbol.
const DEAD_LINES: &[Line] = &[(1, &[2]), (2, &[0]), (3, &[1])];

// , ::= , N
const ENDLESS: Line = (2, &[2, 1]);

// E ::= N | E . E || - E || E ** E || E * E || E + E
const OPERATORS: &[Alternative] = &[
    (&[1], 4, Assoc::Left),
    (&[0, 2, 0], 4, Assoc::Left),
    (&[3, 0], 3, Assoc::Left),
    (&[0, 4, 0], 2, Assoc::Right),
    (&[0, 5, 0], 1, Assoc::Left),
    (&[0, 6, 0], 0, Assoc::Left),
];

// Flat symbols: terminals from 0 to 5, E at its levels from 6 to 10, the top 11. In the tightest group the second operand has
// level 0 again.
const OPERATOR_LINES: &[Line] = &[
    (6, &[0]),
    (6, &[10, 1, 6]),
    (6, &[2, 9]),
    (6, &[9, 3, 8]),
    (6, &[7, 4, 8]),
    (6, &[6, 5, 7]),
    (7, &[0]),
    (7, &[10, 1, 6]),
    (7, &[2, 9]),
    (7, &[9, 3, 8]),
    (7, &[7, 4, 8]),
    (8, &[0]),
    (8, &[10, 1, 6]),
    (8, &[2, 9]),
    (8, &[9, 3, 8]),
    (9, &[0]),
    (9, &[10, 1, 6]),
    (9, &[2, 9]),
    (10, &[0]),
    (10, &[10, 1, 6]),
    (11, &[6]),
];

// A list of symbols 1: whether it has one at least, the separator, and whether that only stands between.
type List = (bool, Option<SymbolId>, bool);

// Symbol 0 has these alternatives.
fn add_levels(
    alloc: Global,
    w: &mut Written,
    names: &[&str],
    alternatives: &[Alternative],
    groups: u32,
) -> Result<(), CoreRefusal> {
    add_names(w, names)?;
    for (parts, level, assoc) in alternatives {
        add_rule(alloc, w, (0, parts), *level, groups, *assoc)?;
    }
    w.start_add(SymbolId(0))
}

// Symbol 0 is a list.
fn add_listed(
    alloc: Global,
    w: &mut Written,
    list: List,
    rules: &[Line],
) -> Result<(), CoreRefusal> {
    add_names(w, &["L", "N", ","])?;
    w.start_add(SymbolId(0))?;
    add_list(w, 1, list.0, list.1, list.2)?;
    for line in rules {
        add_rule(alloc, w, *line, 0, 1, Assoc::Left)?;
    }
    Ok(())
}

fn has_lines(flat: &Flat, lines: &[Line]) -> bool {
    if flat.rule_count() != lines.len() {
        return false;
    }
    for r in 0..lines.len().min(flat.rule_count()).min(1000) {
        let line = &lines[r];
        if flat.lhs(r as u32) != line.0 || flat.rhs(r as u32) != line.1 {
            return false;
        }
    }
    true
}

// Whether the flat rules are these.
fn makes(alloc: Global, w: &Written, lines: &[Line]) -> Result<bool, anyhow::Error> {
    let flat = flat_of(alloc, w)?;
    let same = has_lines(&flat, lines);
    drop(flat);
    Ok(same)
}

// Whether the flat rules of the alternatives are these.
fn levels_make(
    alloc: Global,
    names: &[&str],
    alternatives: &[Alternative],
    groups: u32,
    lines: &[Line],
) -> Result<bool, anyhow::Error> {
    let mut w = Written::new(alloc);
    add_levels(alloc, &mut w, names, alternatives, groups)?;
    let made = makes(alloc, &w, lines);
    drop(w);
    made
}

// Whether the flat rules of a list and of further rules are these.
fn list_makes(
    alloc: Global,
    list: List,
    rules: &[Line],
    lines: &[Line],
) -> Result<bool, anyhow::Error> {
    let mut w = Written::new(alloc);
    add_listed(alloc, &mut w, list, rules)?;
    let made = makes(alloc, &w, lines);
    drop(w);
    made
}

const STAR: List = (false, None, false);

const SEPARATED: List = (true, Some(SymbolId(2)), false);

const PROPER: List = (true, Some(SymbolId(2)), true);

#[test]
fn levels(rt: HostRuntime) -> Result<(), Fail> {
    let names = &["E", "N", "(", ")", "**", "*", "+"];
    assert!(rt; levels_make(rt.alloc(), names, SUMS, 4, SUM_LINES)?);
    Ok(())
}

#[test]
fn star(rt: HostRuntime) -> Result<(), Fail> {
    assert!(rt; list_makes(rt.alloc(), STAR, &[], STAR_LINES)?);
    Ok(())
}

#[test]
fn separated(rt: HostRuntime) -> Result<(), Fail> {
    assert!(rt; list_makes(rt.alloc(), SEPARATED, &[], LIST_LINES)?);
    Ok(())
}

#[test]
fn proper(rt: HostRuntime) -> Result<(), Fail> {
    assert!(rt; list_makes(rt.alloc(), PROPER, &[], PROPER_LINES)?);
    Ok(())
}

#[test]
fn dead_separator(rt: HostRuntime) -> Result<(), Fail> {
    assert!(rt; list_makes(rt.alloc(), SEPARATED, &[ENDLESS], DEAD_LINES)?);
    Ok(())
}

#[test]
fn five_groups(rt: HostRuntime) -> Result<(), Fail> {
    let names = &["E", "N", ".", "-", "**", "*", "+"];
    assert!(rt; levels_make(rt.alloc(), names, OPERATORS, 5, OPERATOR_LINES)?);
    Ok(())
}
