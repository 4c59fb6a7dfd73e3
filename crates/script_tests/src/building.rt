//! Scripts by which grammars are built, and their answers, by hand from the definition or from the oracle.
use grammar_core::Written;
use marpa_script::{Ready, ScriptRefusal, build_grammar};
use slif_base::MemSink;
use std::alloc::{AllocError, Global};
use std::test::Fail;

// A script, the answers to its lines up to the one that is answered `ready`, and what follows that line.
type Case = (&'static str, &'static str, Option<&'static str>);

const CASES: &[Case] = &[
    // no line, and lines of no words
    ("", "", None),
    ("\n", "bad line\n", None),
    ("\n\n", "bad line\nbad line\n", None),
    // a last line without its end
    ("symbol a", "symbol 0\n", None),
    // fewer or more words than a command has
    (
        "symbol\nrule\nsequence\nstart\nprecompute x\nalternative\ncomplete x\nexpected x\nreport\ntrees\n",
        "bad line\nbad line\nbad line\nbad line\nbad line\nbad line\nbad line\nbad line\nbad line\nbad line\n",
        None,
    ),
    (
        " symbol a\nsymbol  a\nsymbol a \nsymbol a b\n symbol\n \n  \n",
        "bad line\nbad line\nbad line\nbad line\nbad line\nbad line\nbad line\n",
        None,
    ),
    // a symbol again
    (
        "symbol a\nsymbol b\nsymbol a\nsymbol symbol\nsymbol symbol\n",
        "symbol 0\nsymbol 1\nsymbol 0\nsymbol 2\nsymbol 2\n",
        None,
    ),
    // lines of the other phase, and what follows the line that is answered ready
    (
        "alternative a 1\ncomplete\nexpected\nreport 0\ntrees 1\nsymbol S\nrule S\nstart S\nstart S\nstart Z\nprecompute\nprecompute\nsymbol x\nrule S S\nstart S\nsequence S S star\nfrob\nsymbol\ncomplete\ntrees 3\nexpected\nreport 0\nreport 1\nreport 2\n",
        "not now\nnot now\nnot now\nnot now\nnot now\nsymbol 0\nrule 0\nstart\nsecond start\nbad name\nready\n",
        Some(
            "precompute\nsymbol x\nrule S S\nstart S\nsequence S S star\nfrob\nsymbol\ncomplete\ntrees 3\nexpected\nreport 0\nreport 1\nreport 2\n",
        ),
    ),
    // what a sequence may say
    (
        "symbol S\nsymbol a\nsymbol c\nsymbol by\nsymbol proper\nsequence S a\nsequence S a maybe\nsequence S a star by\nsequence S a star c\nsequence S a star proper\nsequence S a star by proper\nsequence S a plus by c proper x\nsequence S a plus by c x\nsequence S a plus by by proper\nsequence Z a plus\nsequence S Z plus\nsequence S a plus by Z\nsequence S a plus by Z proper\nstart S\nprecompute\n",
        "symbol 0\nsymbol 1\nsymbol 2\nsymbol 3\nsymbol 4\nbad line\nbad line\nbad line\nbad line\nbad line\nrule 0\nbad line\nbad line\nrule 1\nbad name\nbad name\nbad name\nbad name\nstart\nS is a sequence and has another rule\n",
        None,
    ),
    (
        "symbol S\nsymbol a\nsymbol c\nsequence S a plus by c\nstart S\nprecompute\nexpected\nalternative a 1\nexpected\ncomplete\nexpected\nalternative c 1\ncomplete\nalternative a 1\ntrees 2\ncomplete\ntrees 9\nreport 0\nreport 1\nreport 2\nreport 3\n",
        "symbol 0\nsymbol 1\nsymbol 2\nrule 0\nstart\nready\n",
        Some(
            "expected\nalternative a 1\nexpected\ncomplete\nexpected\nalternative c 1\ncomplete\nalternative a 1\ntrees 2\ncomplete\ntrees 9\nreport 0\nreport 1\nreport 2\nreport 3\n",
        ),
    ),
    // what is refused, in order, and mended
    (
        "precompute\nsymbol a\nprecompute\nsymbol S\nrule S a\nprecompute\nstart a\nprecompute\n",
        "no rules\nsymbol 0\nno rules\nsymbol 1\nrule 0\nno start symbol\nstart\nstart symbol a has no rule\n",
        None,
    ),
    (
        "symbol S\nsymbol a\nrule S a\nrule S a\nstart S\nprecompute\n",
        "symbol 0\nsymbol 1\nrule 0\nrule 1\nstart\nrule 1 of S is a duplicate\n",
        None,
    ),
    (
        "symbol S\nsymbol a\nrule S a\nsequence S a plus\nstart S\nprecompute\nrule S S\nprecompute\n",
        "symbol 0\nsymbol 1\nrule 0\nrule 1\nstart\nS is a sequence and has another rule\nrule 2\nS is a sequence and has another rule\n",
        None,
    ),
    (
        "symbol S\nsymbol T\nsymbol a\nrule S T\nrule T S\nrule T a\nstart S\nprecompute\n",
        "symbol 0\nsymbol 1\nsymbol 2\nrule 0\nrule 1\nrule 2\nstart\ncyclic: S, T, S\n",
        None,
    ),
    (
        "symbol S\nsymbol a\nrule S a S\nstart S\nprecompute\nrule S a\nprecompute\nalternative a 1\ncomplete\ntrees 1\n",
        "symbol 0\nsymbol 1\nrule 0\nstart\nstart symbol S is unproductive\nrule 1\nready\n",
        Some("alternative a 1\ncomplete\ntrees 1\n"),
    ),
    (
        "symbol S\nsymbol T\nrule T\nsequence S T star\nstart S\nprecompute\n",
        "symbol 0\nsymbol 1\nrule 0\nrule 1\nstart\nsequence S has a nullable item or separator\n",
        None,
    ),
    // a carriage return and a tab are parts of words
    (
        "symbol a\r\nsymbol a\nsymbol\ta b\n",
        "symbol 0\nsymbol 1\nbad line\n",
        None,
    ),
    // names that are not known
    (
        "symbol S\nrule S T\nrule T S\nstart T\n",
        "symbol 0\nbad name\nbad name\nbad name\n",
        None,
    ),
];

// Whether the lines ended so.
fn is_end(
    built: &Result<Option<Ready<'_>>, ScriptRefusal>,
    wanted: Result<Option<&str>, ScriptRefusal>,
) -> bool {
    match (built, wanted) {
        (Ok(None), Ok(None)) => true,
        (Ok(Some(ready)), Ok(Some(rest))) => ready.rest == rest,
        (Err(refusal), Err(other)) => *refusal == other,
        _ => false,
    }
}

// Whether a script ends so over a sink of which some writes fail, and these are the answers that were written.
fn is_answered(
    alloc: Global,
    script: &str,
    fails: &[u64],
    answers: &str,
    wanted: Result<Option<&str>, ScriptRefusal>,
) -> Result<bool, AllocError> {
    if script.len() > 100_000 {
        return Ok(false);
    }
    let mut w = Written::new(alloc);
    let mut out = MemSink::new(alloc, 100, fails.to_vec(alloc)?);
    let built = build_grammar(alloc, &mut w, script, &mut out);
    Ok(is_end(&built, wanted) && out.written() == answers.as_bytes())
}

fn are_answered(alloc: Global, cases: &[Case]) -> Result<bool, AllocError> {
    for (script, answers, rest) in cases {
        if !is_answered(alloc, *script, &[], *answers, Ok(*rest))? {
            return Ok(false);
        }
    }
    Ok(true)
}

#[test]
fn grammars_are_built(rt: HostRuntime) -> Result<(), Fail> {
    assert!(rt; are_answered(rt.alloc(), CASES)?);
    Ok(())
}

// A script whose only rule has so many parts, which are one name.
fn long_rule(alloc: Global, parts: usize, last: &str) -> Result<Vec<u8>, AllocError> {
    let mut script = b"symbol S\nrule S".to_vec(alloc)?;
    for _ in 0..parts {
        script.extend_from_slice(b" S")?;
    }
    script.extend_from_slice(last.as_bytes())?;
    script.push(b'\n')?;
    Ok(script)
}

// Whether the rule is answered so.
fn is_long_rule(
    alloc: Global,
    parts: usize,
    last: &str,
    answers: &str,
) -> Result<bool, AllocError> {
    let script = long_rule(alloc, parts, last)?;
    match std::str::from_utf8(&script) {
        Ok(text) => is_answered(alloc, text, &[], answers, Ok(None)),
        Err(_) => Ok(false),
    }
}

#[test]
fn rules_are_short(rt: HostRuntime) -> Result<(), Fail> {
    assert!(rt; is_long_rule(rt.alloc(), 1000, "", "symbol 0\nrule 0\n")?);
    assert!(rt; is_long_rule(rt.alloc(), 1001, "", "symbol 0\ntoo long\n")?);
    assert!(rt; is_long_rule(rt.alloc(), 1001, " T", "symbol 0\nbad name\n")?);
    Ok(())
}

#[test]
fn writes_fail(rt: HostRuntime) -> Result<(), Fail> {
    let script = "symbol S\nsymbol T\nsymbol U\n";
    assert!(rt;
        is_answered(
            rt.alloc(),
            script,
            &[2],
            "symbol 0\n",
            Err(ScriptRefusal::WriteFault)
        )?
    );
    assert!(rt; is_answered(rt.alloc(), script, &[1], "", Err(ScriptRefusal::WriteFault))?);
    Ok(())
}
