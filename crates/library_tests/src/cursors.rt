//! Cursors of derivations, and going to derivations by them.
use slif_parser::{Derivations, Forest, Grammar, Ranking, Reading};
use std::alloc::Global;
use std::test::Fail;

// Its symbols are 0 (the sum), 1 (the sign) and 2 (the number), and its rules 0 (two sums) and 1 (a number).
const SUMS: &[u8] = b"E ::= E '+' E | '1'\n";

// Inputs, and the cursors of all their derivations: of two sums, the one with the later right operand comes first.
static ROWS: [(&[u8], &[&str]); 3] = [
    (b"1", &["t2.r1,1"]),
    (
        b"1+1+1",
        &[
            "t2.r1,1.t1.t2.r1,1.r0,3.t1.t2.r1,1.r0,3",
            "t2.r1,1.t1.t2.r1,1.t1.t2.r1,1.r0,3.r0,3",
        ],
    ),
    (
        b"1+1+1+1",
        &[
            "t2.r1,1.t1.t2.r1,1.r0,3.t1.t2.r1,1.r0,3.t1.t2.r1,1.r0,3",
            "t2.r1,1.t1.t2.r1,1.t1.t2.r1,1.r0,3.r0,3.t1.t2.r1,1.r0,3",
            "t2.r1,1.t1.t2.r1,1.r0,3.t1.t2.r1,1.t1.t2.r1,1.r0,3.r0,3",
            "t2.r1,1.t1.t2.r1,1.t1.t2.r1,1.r0,3.t1.t2.r1,1.r0,3.r0,3",
            "t2.r1,1.t1.t2.r1,1.t1.t2.r1,1.t1.t2.r1,1.r0,3.r0,3.r0,3",
        ],
    ),
];

// Texts that are the cursor of no derivation of these inputs: three spell no tree; then a token alone, the sum of two, another rule, and a
// zero too many.
static NONE: [&str; 7] = [
    "",
    "0",
    "t2.r1,1.t1",
    "t0",
    "t2.r1,1.t1.t2.r1,1.r0,3",
    "t2.r0,1",
    "t2.r01,1",
];

// Whether there is a next derivation, which has this cursor.
fn is_next(alloc: Global, derivations: &mut Derivations<'_>, cursor: &str) -> Result<bool, Fail> {
    if !derivations.next()? {
        return Ok(false);
    }
    let mut text = Vec::new(alloc);
    derivations.append_cursor(&mut text)?;
    Ok(text.as_slice() == cursor.as_bytes())
}

// Whether it goes to the derivation that has this cursor.
fn is_found(alloc: Global, derivations: &mut Derivations<'_>, cursor: &str) -> Result<bool, Fail> {
    if !derivations.go_to(alloc, cursor)? {
        return Ok(false);
    }
    let mut text = Vec::new(alloc);
    derivations.append_cursor(&mut text)?;
    Ok(text.as_slice() == cursor.as_bytes())
}

// Whether it goes to none by the texts that are no cursors.
fn is_none_found(alloc: Global, derivations: &mut Derivations<'_>) -> Result<bool, Fail> {
    for text in &NONE {
        if derivations.go_to(alloc, text)? {
            return Ok(false);
        }
    }
    Ok(true)
}

// Whether these are the cursors of all derivations, one after another.
fn are_all(
    alloc: Global,
    derivations: &mut Derivations<'_>,
    cursors: &[&str],
) -> Result<bool, Fail> {
    for cursor in cursors {
        if !is_next(alloc, derivations, cursor)? {
            return Ok(false);
        }
    }
    Ok(!derivations.next()?)
}

// Whether each is found, also where it lies before or where none is left, and `next` goes on after it, although other texts were tried.
fn goes_on_from_each(
    alloc: Global,
    derivations: &mut Derivations<'_>,
    cursors: &[&str],
) -> Result<bool, Fail> {
    for (k, cursor) in cursors.iter().enumerate() {
        let so = is_found(alloc, derivations, cursor)?
            && is_none_found(alloc, derivations)?
            && are_all(alloc, derivations, &cursors[k + 1..])?;
        if !so {
            return Ok(false);
        }
    }
    Ok(true)
}

fn has_cursors(alloc: Global, forest: &Forest<'_>, cursors: &[&str]) -> Result<bool, Fail> {
    let mut derivations = forest.derivations(alloc)?;
    Ok(
        is_none_found(alloc, &mut derivations)?
            && are_all(alloc, &mut derivations, cursors)?
            && goes_on_from_each(alloc, &mut derivations, cursors)?,
    )
}

fn is_derived(alloc: Global, reading: &Reading<'_>, cursors: &[&str]) -> Result<bool, Fail> {
    let Ok(forest) = reading.forest(alloc, Ranking::Rule) else {
        return Ok(false);
    };
    let told = has_cursors(alloc, &forest, cursors);
    drop(forest);
    told
}

fn is_read(alloc: Global, grammar: &Grammar, input: &[u8], cursors: &[&str]) -> Result<bool, Fail> {
    let Ok(reading) = grammar.read(alloc, input) else {
        return Ok(false);
    };
    let told = is_derived(alloc, &reading, cursors);
    drop(reading);
    told
}

fn is_so(alloc: Global, input: &[u8], cursors: &[&str]) -> Result<bool, Fail> {
    let Ok(grammar) = Grammar::from_text(alloc, SUMS) else {
        return Ok(false);
    };
    let told = is_read(alloc, &grammar, input, cursors);
    drop(grammar);
    told
}

#[test]
fn derivations_are_found_by_their_cursors(rt: HostRuntime) -> Result<(), Fail> {
    for (input, cursors) in &ROWS {
        assert!(rt; is_so(rt.alloc(), input, cursors)?);
    }
    Ok(())
}
