//! The lines of derivations, by their actions and as trees, by hand from what the guide tells of values.
use slif_parser::{Derivations, Grammar, Ranking, Reading, Show};
use std::alloc::Global;
use std::test::Fail;

const SUMS: &[u8] = b":default ::= action => [name,values]\nE ::= E '+' E | '1'\n";

// How derivations are shown, and the lines of both of `1+1+1`, after what stands there.
static ROWS: [(Show, [&str; 2]); 2] = [
    (
        Show::Array,
        [
            "so: [\"E\",[\"E\",[\"E\",\"1\"],\"+\",[\"E\",\"1\"]],\"+\",[\"E\",\"1\"]]\n",
            "so: [\"E\",[\"E\",\"1\"],\"+\",[\"E\",[\"E\",\"1\"],\"+\",[\"E\",\"1\"]]]\n",
        ],
    ),
    (
        Show::Tree,
        [
            "so: [\"E\",0,[\"E\",0,[\"E\",1,[\"'1'\",\"1\"]],[\"'+'\",\"+\"],[\"E\",1,[\"'1'\",\"1\"]]],[\"'+'\",\"+\"],[\"E\",1,[\"'1'\",\"1\"]]]\n",
            "so: [\"E\",0,[\"E\",1,[\"'1'\",\"1\"]],[\"'+'\",\"+\"],[\"E\",0,[\"E\",1,[\"'1'\",\"1\"]],[\"'+'\",\"+\"],[\"E\",1,[\"'1'\",\"1\"]]]]\n",
        ],
    ),
];

// Whether there is a next derivation, which has this line.
fn is_next(
    alloc: Global,
    derivations: &mut Derivations<'_>,
    show: Show,
    line: &str,
) -> Result<bool, Fail> {
    if !derivations.next()? {
        return Ok(false);
    }
    let mut text = b"so: ".to_vec(alloc)?;
    derivations.append_line(alloc, show, &mut text)?;
    Ok(text.as_slice() == line.as_bytes())
}

fn are_lines(
    alloc: Global,
    reading: &Reading<'_>,
    show: Show,
    lines: &[&str],
) -> Result<bool, Fail> {
    let Ok(forest) = reading.forest(alloc, Ranking::Rule) else {
        return Ok(false);
    };
    let mut derivations = forest.derivations(alloc)?;
    for line in lines {
        if !is_next(alloc, &mut derivations, show, line)? {
            return Ok(false);
        }
    }
    Ok(!derivations.next()?)
}

fn is_so(alloc: Global, show: Show, lines: &[&str]) -> Result<bool, Fail> {
    let Ok(grammar) = Grammar::from_text(alloc, SUMS) else {
        return Ok(false);
    };
    let Ok(reading) = grammar.read(alloc, b"1+1+1") else {
        return Ok(false);
    };
    are_lines(alloc, &reading, show, lines)
}

#[test]
fn derivations_have_their_lines(rt: HostRuntime) -> Result<(), Fail> {
    for (show, lines) in &ROWS {
        assert!(rt; is_so(rt.alloc(), *show, lines)?);
    }
    Ok(())
}
