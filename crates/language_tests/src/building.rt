//! Refusals of small descriptions, and what is built of small texts.
use crate::texts::built;
use dsl_build::{BuildRefusal, Built, check};
use dsl_statement::{Alternative, Description, Element, Level, Spelled, Statement, TokenKind};
use grammar_core::{RuleId, SymbolId, Written, WrittenRule};
use itoa::Buffer;
use std::alloc::{AllocError, Global};
use std::test::Fail;
use value_text::Action;

fn word(alloc: Global, text: &str, at: usize) -> Result<Spelled, AllocError> {
    Ok(Spelled {
        kind: TokenKind::Word,
        content: String::from_str(alloc, text)?,
        at,
    })
}

fn one<T>(alloc: Global, item: T) -> Result<Vec<T>, AllocError>
where
    T: Drop,
{
    let mut items = Vec::new(alloc);
    items.push(item)?;
    Ok(items)
}

fn elements(alloc: Global, part: &str, at: usize) -> Result<Vec<Element>, AllocError> {
    one(alloc, Element::Bare(word(alloc, part, at)?))
}

fn alternative(alloc: Global, part: &str, at: usize) -> Result<Alternative, AllocError> {
    Ok(Alternative {
        elements: elements(alloc, part, at)?,
        adverbs: Vec::new(alloc),
    })
}

// One group of one alternative.
fn groups(alloc: Global, part: &str, at: usize) -> Result<Vec<Vec<Alternative>>, AllocError> {
    one(alloc, one(alloc, alternative(alloc, part, at)?)?)
}

// What one of two statements says, and where.
#[derive(Clone, Copy)]
enum Line {
    // a left side and a part, which stands six places after it, and the level of the rule
    Rule(&'static str, &'static str, Level, usize),
    // a start, whose name stands eleven places after it
    Start(&'static str, usize),
}

fn statement(alloc: Global, line: Line) -> Result<Statement, AllocError> {
    match line {
        Line::Rule(left, part, level, at) => {
            let groups = groups(alloc, part, at.saturating_add(6))?;
            Ok(Statement::Rules {
                left: word(alloc, left, at)?,
                level,
                groups,
            })
        }
        Line::Start(name, at) => Ok(Statement::Start {
            at,
            name: word(alloc, name, at.saturating_add(11))?,
        }),
    }
}

fn described(alloc: Global, lines: &[Line]) -> Result<Description, AllocError> {
    let mut statements = Vec::new(alloc);
    for line in lines {
        statements.push(statement(alloc, *line)?)?;
    }
    Ok(Description { statements })
}

// Which fault is told.
#[derive(Clone, Copy, PartialEq, Eq)]
enum Fault {
    NotDefined,
    InBoth,
    TwoStarts,
}

fn fault_of(refusal: &BuildRefusal) -> Option<(Fault, usize, &str)> {
    match refusal {
        BuildRefusal::LexemeNotDefined { at, name } => Some((Fault::NotDefined, *at, name)),
        BuildRefusal::InBoth { at, name } => Some((Fault::InBoth, *at, name)),
        BuildRefusal::TwoStarts { at, name } => Some((Fault::TwoStarts, *at, name)),
        _ => None,
    }
}

// Whether this is told of the statements.
fn tells(alloc: Global, lines: &[Line], wanted: (Fault, usize, &str)) -> Result<bool, AllocError> {
    let d = described(alloc, lines)?;
    match check(alloc, &d) {
        Ok(()) => Ok(false),
        Err(refusal) => {
            let told = fault_of(&refusal) == Some(wanted);
            drop(refusal);
            Ok(told)
        }
    }
}

#[test]
fn a_name_that_no_rule_defines(rt: HostRuntime) -> Result<(), AllocError> {
    let lines = &[
        Line::Rule("S", "A", Level::Structural, 0),
        Line::Rule("A", "x", Level::Lexical, 10),
    ];
    assert!(rt; tells(rt.alloc(), lines, (Fault::NotDefined, 16, "x"))?);
    Ok(())
}

#[test]
fn a_left_side_of_both_levels(rt: HostRuntime) -> Result<(), AllocError> {
    let lines = &[
        Line::Rule("A", "A", Level::Structural, 0),
        Line::Rule("A", "A", Level::Lexical, 10),
    ];
    assert!(rt; tells(rt.alloc(), lines, (Fault::InBoth, 10, "A"))?);
    Ok(())
}

#[test]
fn two_starts(rt: HostRuntime) -> Result<(), AllocError> {
    let lines = &[Line::Start("S", 0), Line::Start("S", 20)];
    assert!(rt; tells(rt.alloc(), lines, (Fault::TwoStarts, 20, ":start"))?);
    Ok(())
}

// The names, each with a blank after it.
fn write_names(out: &mut String, w: &Written) -> Result<(), AllocError> {
    for k in 0..w.symbol_count() {
        out.push_str(w.name(SymbolId(k as u32)))?;
        out.push_str(" ")?;
    }
    Ok(())
}

fn write_number(out: &mut String, number: u32) -> Result<(), AllocError> {
    out.push_str(Buffer::new().format(number))?;
    out.push_str(" ")
}

fn write_rule(out: &mut String, rule: &WrittenRule) -> Result<(), AllocError> {
    match rule {
        WrittenRule::Plain(rule) => {
            write_number(out, rule.lhs.0)?;
            for part in &rule.rhs {
                write_number(out, part.0)?;
            }
        }
        WrittenRule::Sequence(rule) => {
            write_number(out, rule.lhs.0)?;
            out.push_str(if rule.plus { "+ " } else { "* " })?;
            write_number(out, rule.item.0)?;
        }
    }
    out.push_str("/ ")
}

// The rules, each a left side and its parts, and the starts.
fn write_rules(out: &mut String, w: &Written) -> Result<(), AllocError> {
    for k in 0..w.rule_count() {
        write_rule(out, w.written_rule(RuleId(k as u32)))?;
    }
    out.push_str("| ")?;
    for k in 0..w.start_count() {
        write_number(out, w.start(k).0)?;
    }
    Ok(())
}

// Each lexeme's symbol, start, priority and `latm`, and the discards.
fn write_rows(out: &mut String, built: &Built) -> Result<(), AllocError> {
    for row in &built.lexemes {
        write_number(out, row.symbol.0)?;
        write_number(out, row.start)?;
        out.push_str(Buffer::new().format(row.priority))?;
        out.push_str(if row.latm { " latm / " } else { " / " })?;
    }
    out.push_str("| ")?;
    for discard in &built.discards {
        write_number(out, *discard)?;
    }
    Ok(())
}

// Each shown part of each rule is an `x`, and each hidden one a `-`; then the letter of the rule's action.
fn write_meaning(out: &mut String, built: &Built) -> Result<(), AllocError> {
    for rule in built.meaning.rules.as_slice() {
        for shown in rule.shown.as_slice() {
            out.push_str(if *shown { "x" } else { "-" })?;
        }
        out.push_str(match rule.action {
            Action::Array => "A ",
            Action::First => "F ",
            Action::Undef => "U ",
            Action::Items(_) => "I ",
        })?;
    }
    Ok(())
}

// What is written of what is built.
#[derive(Clone, Copy)]
enum Part {
    Names,
    Rules,
    LexicalNames,
    LexicalRules,
    Rows,
    Meaning,
}

fn write_part(out: &mut String, built: &Built, part: Part) -> Result<(), AllocError> {
    match part {
        Part::Names => write_names(out, &built.g1),
        Part::Rules => write_rules(out, &built.g1),
        Part::LexicalNames => write_names(out, &built.l0),
        Part::LexicalRules => write_rules(out, &built.l0),
        Part::Rows => write_rows(out, built),
        Part::Meaning => write_meaning(out, built),
    }
}

struct Expected {
    text: &'static str,
    g1: [&'static str; 2],
    l0: [&'static str; 2],
    rows: &'static str,
    meaning: &'static str,
}

fn has(alloc: Global, built: &Built, part: Part, expected: &str) -> Result<bool, AllocError> {
    let mut out = String::new(alloc);
    write_part(&mut out, built, part)?;
    Ok(out.as_str() == expected)
}

fn is_as(alloc: Global, built: &Built, expected: &Expected) -> Result<bool, AllocError> {
    Ok(
        has(alloc, built, Part::Names, expected.g1[0])?
            && has(alloc, built, Part::Rules, expected.g1[1])?
            && has(alloc, built, Part::LexicalNames, expected.l0[0])?
            && has(alloc, built, Part::LexicalRules, expected.l0[1])?
            && has(alloc, built, Part::Rows, expected.rows)?
            && has(alloc, built, Part::Meaning, expected.meaning)?,
    )
}

fn is_built(alloc: Global, expected: &Expected) -> Result<bool, Fail> {
    let built = built(alloc, expected.text.as_bytes())?;
    let told = is_as(alloc, &built, expected);
    drop(built);
    Ok(told?)
}

static BUILT: &[Expected] = &[
    // Quoted texts and classes of structural rules are lexemes with rules of their own.
    Expected {
        text: "S ::= 'ab' [c] 'ab' ('d')",
        g1: ["S 'ab' [c] 'd' ", "0 1 2 1 3 / | 0 "],
        l0: ["'ab' [c] 'd' :0 :1 :2 :3 ", "0 3 4 / 1 5 / 2 6 / | 0 1 2 "],
        rows: "1 0 0 / 2 1 0 / 3 2 0 / | ",
        meaning: "xxx-U ",
    },
    // A start that no rule has is a lexeme without a place.
    Expected {
        text: ":start ::= T S ::= a a ~ 'x' b b ~ [y]",
        g1: ["T S a ", "1 2 / | 0 "],
        l0: ["a 'x' b [y] T :0 :1 ", "0 1 2 / 2 3 / 1 5 / 3 6 / | 4 0 "],
        rows: "0 0 0 / 2 1 0 / | ",
        meaning: "xU ",
    },
    // Discards: one is a lexeme, one is told twice, one is a class.
    Expected {
        text: "S ::= a b a ~ 'x' :discard ~ [\\s] :discard ~ b b ~ 'y' :discard ~ [\\s] :discard ~ c c ~ [z]+",
        g1: ["S a b ", "0 1 2 / | 0 "],
        l0: [
            "a 'x' [\\s] b 'y' c [z] :0 :1 :2 :3 ",
            "0 1 / 3 4 / 5 + 6 / 1 7 / 2 8 / 4 9 / 6 10 / | 0 3 2 5 ",
        ],
        rows: "1 0 0 / 2 1 0 / | 2 1 3 ",
        meaning: "xxU ",
    },
    // A default holds for the rules after it.
    Expected {
        text: "S ::= a :default ::= action => ::first T ::= a | a a action => ::array :default ::= action => [name] U ::= :default ::= V ::= a+ a ~ 'x'",
        g1: ["S a T U V ", "0 1 / 2 1 / 2 1 1 / 3 / 4 + 1 / | 0 "],
        l0: ["a 'x' :0 ", "0 1 / 1 2 / | 0 "],
        rows: "1 0 0 / | ",
        meaning: "xU xF xxA I I ",
    },
    // What `:lexeme` says of `latm` stands, and `lexeme default` tells the others, wherever it stands.
    Expected {
        text: ":lexeme ~ a latm => 0 S ::= a b c d lexeme default = latm => 1 :lexeme ~ b priority => -5 :lexeme ~ d latm => 1 priority => +7 a ~ 'x' b ~ 'x' c ~ 'x' d ~ 'x'",
        g1: ["S a b c d ", "0 1 2 3 4 / | 0 "],
        l0: [
            "a 'x' b c d :0 ",
            "0 1 / 2 1 / 3 1 / 4 1 / 1 5 / | 0 2 3 4 ",
        ],
        rows: "1 0 0 / 2 1 -5 latm / 3 2 0 latm / 4 3 7 latm / | ",
        meaning: "xxxxU ",
    },
];

#[test]
fn built_as_written_by_hand(rt: HostRuntime) -> Result<(), Fail> {
    for expected in BUILT {
        assert!(rt; is_built(rt.alloc(), expected)?);
    }
    Ok(())
}
