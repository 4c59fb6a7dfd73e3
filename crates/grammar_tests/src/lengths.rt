//! Tokens of several lengths: the sets that they lead to, what is expected at their ends and between, and the greatest length.
use crate::grammars::Language;
use crate::readings::{LONGEST, Step, goes};
use earley_sets::AlternativeRefusal;
use std::test::Fail;

const LONG: u32 = 20_000;

// S -> a b | c
const SHORT_CUT: Language = Language {
    names: &["S", "a", "b", "c"],
    lines: &[(0, &[1, 2]), (0, &[3])],
};

// No token ends at the second place.
static PLACES: &[Step] = &[
    Step::Keeps(3),
    Step::Expects(&[1, 3]),
    Step::Push(1, 2, Ok(())),
    Step::Push(3, 3, Ok(())),
    Step::Pass(1),
    Step::Keeps(0),
    Step::Expects(&[]),
    Step::Push(2, 1, Err(AlternativeRefusal::Unexpected)),
    Step::Pass(1),
    Step::Keeps(1),
    Step::Expects(&[2]),
    Step::Push(2, 1, Ok(())),
    Step::Ends(false),
    Step::Pass(1),
    Step::Keeps(3),
    Step::Expects(&[]),
    Step::Ends(true),
];

// Nothing ends before the end of a long token.
static FAR: &[Step] = &[
    Step::Push(3, LONG, Ok(())),
    Step::Pass(LONG - 1),
    Step::Keeps(0),
    Step::Expects(&[]),
    Step::Pass(1),
    Step::Keeps(2),
    Step::Expects(&[]),
    Step::Ends(true),
];

static ANSWERS: &[Step] = &[
    Step::Push(2, LONGEST + 1, Err(AlternativeRefusal::Unexpected)),
    Step::Push(1, LONGEST + 1, Err(AlternativeRefusal::BadLength)),
    Step::Push(1, u32::MAX, Err(AlternativeRefusal::BadLength)),
    Step::Push(1, 0, Err(AlternativeRefusal::BadLength)),
    Step::Push(1, LONGEST, Ok(())),
    Step::Push(1, LONGEST, Err(AlternativeRefusal::Duplicate)),
    Step::Push(1, 1, Ok(())),
    Step::Push(1, 2, Ok(())),
    Step::Push(1, 2, Err(AlternativeRefusal::Duplicate)),
    Step::Push(3, 2, Ok(())),
];

#[test]
fn sets_stand_where_tokens_end(rt: HostRuntime) -> Result<(), Fail> {
    assert!(rt; goes(rt.alloc(), &SHORT_CUT, PLACES)?);
    Ok(())
}

#[test]
fn long_token_is_read(rt: HostRuntime) -> Result<(), Fail> {
    assert!(rt; goes(rt.alloc(), &SHORT_CUT, FAR)?);
    Ok(())
}

#[test]
fn lengths_are_refused(rt: HostRuntime) -> Result<(), Fail> {
    assert!(rt; goes(rt.alloc(), &SHORT_CUT, ANSWERS)?);
    Ok(())
}
