//! Grammars that are accepted, what is kept of them, and those that are refused.
use crate::texts::built;
use grammar_check::GrammarRefusal;
use grammar_core::SymbolId;
use scanless::{PrepareRefusal, Prepared, prepare};
use std::alloc::Global;
use std::test::Fail;

// What is seen of a text's grammars.
#[derive(Clone, Copy)]
enum Seen {
    // a list, a rule and a discard are kept
    Kept,
    // what a star and the symbol of a plain rule can do
    Symbols,
    // one flat rule, and no lexical grammar
    NoLexemes,
    // the structural grammar is cyclic, and has so many rules
    Cyclic(usize),
    // the lexical grammar has a start that is unproductive, and so many rules
    Unproductive(usize),
}

fn are_kept(p: &Prepared) -> bool {
    let counts = p.written().rule_count() == 2 && p.lexemes().len() == 1 && p.discard_count() == 1;
    let tables = p.discards() == [1].as_slice() && p.sets().len() == 2;
    counts && tables && p.meaning().rules.as_slice().len() == 2 && p.lexical().is_some()
}

fn are_told(p: &Prepared) -> bool {
    if p.written().symbol_count() < 3 {
        return false;
    }
    let (s, t) = (SymbolId(0), SymbolId(2));
    let star = p.nullable(s) && p.productive(s) && p.accessible(s);
    star && !p.nullable(t) && p.productive(t) && !p.accessible(t)
}

fn is_accepted(p: &Prepared, seen: Seen) -> bool {
    match seen {
        Seen::Kept => are_kept(p),
        Seen::Symbols => are_told(p),
        Seen::NoLexemes => p.lexical().is_none() && p.flat().rule_count() == 1,
        _ => false,
    }
}

fn is_refused(refusal: &PrepareRefusal, seen: Seen) -> bool {
    match (refusal, seen) {
        (PrepareRefusal::Grammar { w, refusal }, Seen::Cyclic(rules)) => {
            w.rule_count() == rules && matches!(refusal, GrammarRefusal::Cyclic { .. })
        }
        (PrepareRefusal::Lexical { w, refusal }, Seen::Unproductive(rules)) => {
            w.rule_count() == rules && matches!(refusal, GrammarRefusal::UnproductiveStart { .. })
        }
        _ => false,
    }
}

// Whether this is seen of a text's grammars.
fn is_so(alloc: Global, text: &str, seen: Seen) -> Result<bool, Fail> {
    match prepare(alloc, built(alloc, text.as_bytes())?) {
        Ok(p) => Ok(is_accepted(&p, seen)),
        Err(refusal) => Ok(is_refused(&refusal, seen)),
    }
}

#[test]
fn accepted_grammars_are_kept(rt: HostRuntime) -> Result<(), Fail> {
    let text = "S ::= X* T ::= X X ~ 'a' :discard ~ B B ~ 'b'";
    assert!(rt; is_so(rt.alloc(), text, Seen::Kept)?);
    Ok(())
}

#[test]
fn symbols_are_told(rt: HostRuntime) -> Result<(), Fail> {
    assert!(rt; is_so(rt.alloc(), "S ::= X* T ::= X X ~ 'a'", Seen::Symbols)?);
    Ok(())
}

#[test]
fn a_grammar_without_lexemes_is_kept(rt: HostRuntime) -> Result<(), Fail> {
    assert!(rt; is_so(rt.alloc(), "S ::=", Seen::NoLexemes)?);
    Ok(())
}

// The lexical grammar of the second text is refused, too.
#[test]
fn structural_grammars_are_refused_first(rt: HostRuntime) -> Result<(), Fail> {
    for text in ["P ::= Q Q ::= P | 'b'", "P ::= Q Q ::= P | X X ~ X"] {
        assert!(rt; is_so(rt.alloc(), text, Seen::Cyclic(3))?);
    }
    Ok(())
}

#[test]
fn lexical_grammars_are_refused(rt: HostRuntime) -> Result<(), Fail> {
    assert!(rt; is_so(rt.alloc(), "S ::= X X ~ X", Seen::Unproductive(1))?);
    Ok(())
}
