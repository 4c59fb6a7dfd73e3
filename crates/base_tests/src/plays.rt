//! Whole derivations, played step by step.
ghost use Rattle.std.specs.Prelude.{◌≡◌, ◌≤◌, ◌++◌, ◌∷◌, [], true, false, length, map, Some, IfOk, OnOk};
ghost use Rattle.grammar_model.specs.Grammar.{Grammar};
ghost use Rattle.grammar_core.specs.Steps.{step_of};
ghost use Rattle.grammar_core.specs.Written.{IsWritten};
ghost use Rattle.value_text.specs.Meaning.{meaning_of};
ghost use Rattle.base_tests.specs.Rows.{plain_rule, list_rule, begins_nulled, ends_nulled, list_in_brackets, one_part, IsPlainMeaning};
ghost use Rattle.valuator.specs.Told.{HoldsOne};
ghost use Rattle.valuator.specs.Play.{AreSteps, IsMeaningOf, AreSpans};

use grammar_core::{Assoc, CoreRefusal, Rule, RuleId, SeqRule, Span, SymbolId, TreeStep, Written};
use slif_base::{Chars, chars_of};
use std::alloc::Global;
use std::test::Fail;
use valuator::{ArrayTeller, Teller, TreeTeller, play};
use value_text::{Action, DescItem, Items, Meaning, NoMemory, RuleMeaning};

// Adds symbols of these names.
fn add_names(w: &mut Written, names: &[&str]) -> Result<(), CoreRefusal>
    ensures { OnOk result (w.new.rules ≡ w.old.rules) }
{
    for name in names {
        w.symbol_new(name)?;
    }
    Ok(())
}

fn symbols(alloc: Global, parts: &[u32]) -> Result<Vec<SymbolId>, CoreRefusal>
    ensures { IfOk result (λ symbols. symbols.items ≡ parts.now) }
{
    let mut symbols = Vec::new(alloc);
    for part in parts {
        let Ok(()) = symbols.push(SymbolId(*part)) else {
            return Err(CoreRefusal::NoMemory);
        };
    }
    Ok(symbols)
}

// Adds a plain rule.
fn add_rule(alloc: Global, w: &mut Written, lhs: u32, parts: &[u32]) -> Result<(), CoreRefusal>
    ensures added { IfOk result (λ _. w.new.rules ≡ w.old.rules ++ plain_rule lhs parts.now ∷ []) }
    ensures sound { IfOk result (λ _. IsWritten w.new) }
{
    let rhs = symbols(alloc, parts)?;
    w.rule_new(Rule {
        lhs: SymbolId(lhs),
        rhs,
        level: 0,
        groups: 1,
        assoc: Assoc::Left,
        rank: 0,
        null_high: false,
    })?;
    let _ = w.rule_count();
    Ok(())
}

// Adds a rule for one or more items with separators.
fn add_list(w: &mut Written, lhs: u32, item: u32, separator: u32) -> Result<(), CoreRefusal>
    ensures added { IfOk result (λ _. w.new.rules ≡
        w.old.rules ++ list_rule lhs item separator ∷ []) }
    ensures sound { IfOk result (λ _. IsWritten w.new) }
{
    w.sequence_new(SeqRule {
        lhs: SymbolId(lhs),
        item: SymbolId(item),
        plus: true,
        separator: Some(SymbolId(separator)),
        proper: false,
        rank: 0,
        null_high: false,
    })?;
    let _ = w.rule_count();
    Ok(())
}

// The meaning of a separated list.
fn separated(alloc: Global, action: Action) -> RuleMeaning
    ensures { (result.sequence ≡ true) × (result.separated ≡ true) }
{
    RuleMeaning {
        action,
        shown: Items::new(Vec::new(alloc)),
        sequence: true,
        separated: true,
    }
}

// The meaning of a plain rule.
fn plain(alloc: Global, action: Action, shown: &[bool]) -> Result<RuleMeaning, NoMemory>
    ensures { IfOk result (λ m. IsPlainMeaning m shown.now) }
{
    Ok(RuleMeaning {
        action,
        shown: Items::new(shown.to_vec(alloc)?),
        sequence: false,
        separated: false,
    })
}

fn finish(teller: &mut Box<dyn Teller>, line: &mut Vec<u8>) -> Result<(), NoMemory>
    requires { HoldsOne (held teller.old) }
{
    teller.finish(line)
}

// Plays the steps to a teller that holds nothing, and answers its line.
fn line_of(
    alloc: Global,
    list: &[TreeStep],
    meaning: &Meaning,
    w: &Written,
    spans: &[Span],
    chars: &Chars,
    teller: Box<dyn Teller>,
) -> Result<Vec<u8>, NoMemory>
    requires list { AreSteps w.now (length spans.now) (map step_of list.now) }
    requires meaning { IsMeaningOf w.now (meaning_of meaning.now) }
    requires spans { AreSpans (length chars.now) spans.now }
    requires none { held teller ≡ [] }
{
    let mut tellers = Vec::new(alloc);
    tellers.push(teller)?;
    play(alloc, list, meaning, w, spans, chars, &mut tellers)?;
    let mut line = Vec::new(alloc);
    if tellers.len() == 1 {
        finish(&mut tellers[0], &mut line)?;
    }
    Ok(line)
}

fn chars_told(alloc: Global, text: &[u8]) -> Result<Chars, Fail>
    ensures { IfOk result (λ chars. length chars ≡ length text.now) }
{
    let chars = chars_of(alloc, text)?;
    if chars.len() != text.len() {
        return Err(Fail::new("the text is short"));
    }
    Ok(chars)
}

fn list_of_two(teller: &mut Box<dyn Teller>) -> Result<(), NoMemory>
    requires { length (held teller.old) ≡ 2 }
    ensures { OnOk result (length (held teller.new) ≡ 1) }
{
    teller.rule(RuleId(0), "S", 2, &[true, true], 0, 1, 0, 1, &Action::Array)
}

// Plays the steps to a teller that holds a value, makes a list of both values, and answers its line.
fn line_of_two(
    alloc: Global,
    list: &[TreeStep],
    meaning: &Meaning,
    w: &Written,
    spans: &[Span],
    chars: &Chars,
    teller: Box<dyn Teller>,
) -> Result<Vec<u8>, NoMemory>
    requires list { AreSteps w.now (length spans.now) (map step_of list.now) }
    requires meaning { IsMeaningOf w.now (meaning_of meaning.now) }
    requires spans { AreSpans (length chars.now) spans.now }
    requires one { length (held teller) ≡ 1 }
{
    let mut tellers = Vec::new(alloc);
    tellers.push(teller)?;
    play(alloc, list, meaning, w, spans, chars, &mut tellers)?;
    let mut line = Vec::new(alloc);
    if tellers.len() == 1 {
        let teller = &mut tellers[0];
        list_of_two(teller)?;
        finish(teller, &mut line)?;
    }
    Ok(line)
}

const ONE_EACH: [Span; 5] = [
    Span {
        start: 0,
        length: 1,
    },
    Span {
        start: 1,
        length: 1,
    },
    Span {
        start: 2,
        length: 1,
    },
    Span {
        start: 3,
        length: 1,
    },
    Span {
        start: 4,
        length: 1,
    },
];

// S ::= B B; B ::= 'a'; B is empty: the numbers 0 S, 1 B, 2 'a'.
fn add_nulled_at_the_beginning(alloc: Global, w: &mut Written) -> Result<(), CoreRefusal>
    requires { w.old.rules ≡ [] }
    ensures rules { OnOk result (w.new.rules ≡ begins_nulled) }
    ensures sound { OnOk result (IsWritten w.new) }
{
    add_names(w, &["S", "B", "'a'"])?;
    add_rule(alloc, w, 0, &[1, 1])?;
    add_rule(alloc, w, 1, &[2])?;
    add_rule(alloc, w, 1, &[])?;
    Ok(())
}

fn nulled_at_the_beginning(alloc: Global) -> Result<Written, CoreRefusal>
    ensures rules { IfOk result (λ w. w.rules ≡ begins_nulled) }
    ensures sound { IfOk result (λ w. IsWritten w) }
{
    let mut w = Written::new(alloc);
    add_nulled_at_the_beginning(alloc, &mut w)?;
    Ok(w)
}

fn none_made(alloc: Global) -> Result<Meaning, NoMemory>
    ensures { IfOk result (λ m. (g : Grammar) → g.rules ≡ begins_nulled →
        IsMeaningOf g (meaning_of m)) }
{
    let both = plain(alloc, Action::Undef, &[true, true])?;
    let one = plain(alloc, Action::Undef, &[true])?;
    let none = plain(alloc, Action::Undef, &[])?;
    let rules = vec![in alloc; both, one, none]?;
    Ok(Meaning {
        rules: Items::new(rules),
        lexeme: None,
    })
}

// The first B is nulled.
const NULLED_AT_THE_BEGINNING: [TreeStep; 4] = [
    TreeStep::Nulled {
        symbol: SymbolId(1),
        at: 0,
    },
    TreeStep::Token {
        symbol: SymbolId(2),
        from: 0,
        to: 1,
    },
    TreeStep::Rule {
        rule: RuleId(1),
        children: 1,
        from: 0,
        to: 1,
    },
    TreeStep::Rule {
        rule: RuleId(0),
        children: 2,
        from: 0,
        to: 1,
    },
];

fn tree_line(alloc: Global, meaning: &Meaning, w: &Written, wanted: &[u8]) -> Result<bool, Fail>
    requires rules { w.now.rules ≡ begins_nulled }
    requires sound { IsWritten w.now }
    requires meaning { IsMeaningOf w.now (meaning_of meaning.now) }
{
    let chars = chars_told(alloc, b"a")?;
    let teller = Box::new(alloc, TreeTeller::new(alloc))?;
    let line = line_of(
        alloc,
        &NULLED_AT_THE_BEGINNING,
        meaning,
        w,
        &ONE_EACH[..1],
        &chars,
        teller,
    );
    drop(chars);
    Ok(line?.as_slice() == wanted)
}

fn tells_tree_of(alloc: Global, w: &Written, line: &[u8]) -> Result<bool, Fail>
    requires rules { w.now.rules ≡ begins_nulled }
    requires sound { IsWritten w.now }
{
    let meaning = none_made(alloc)?;
    let told = tree_line(alloc, &meaning, w, line);
    drop(meaning);
    told
}

fn tells_a_tree(alloc: Global, line: &[u8]) -> Result<bool, Fail> {
    let w = nulled_at_the_beginning(alloc)?;
    let told = tells_tree_of(alloc, &w, line);
    drop(w);
    told
}

#[test]
fn trees_name_nulled_symbols(rt: HostRuntime) -> Result<(), Fail> {
    assert!(rt;
        tells_a_tree(
            rt.alloc(),
            b"[\"S\",0,[\"B\"],[\"B\",1,[\"'a'\",\"a\"]]]\n".as_slice()
        )?
    );
    Ok(())
}

fn add_nulled_at_the_end(alloc: Global, w: &mut Written) -> Result<(), CoreRefusal>
    requires { w.old.rules ≡ [] }
    ensures rules { OnOk result (w.new.rules ≡ ends_nulled) }
    ensures sound { OnOk result (IsWritten w.new) }
{
    add_names(w, &["S", "B", "C", "x"])?;
    add_rule(alloc, w, 0, &[1, 2])?;
    add_rule(alloc, w, 1, &[3])?;
    add_rule(alloc, w, 2, &[])?;
    Ok(())
}

/// S ::= B C; B ::= x; C is empty: the numbers 0 S, 1 B, 2 C, 3 x.
pub(crate) fn nulled_at_the_end(alloc: Global) -> Result<Written, CoreRefusal>
    ensures rules { IfOk result (λ w. w.rules ≡ ends_nulled) }
    ensures sound { IfOk result (λ w. IsWritten w) }
{
    let mut w = Written::new(alloc);
    add_nulled_at_the_end(alloc, &mut w)?;
    Ok(w)
}

/// The items of a rule.
pub(crate) const MADE: [DescItem; 6] = [
    DescItem::Name,
    DescItem::Start,
    DescItem::Length,
    DescItem::G1Start,
    DescItem::G1Length,
    DescItem::Values,
];

/// The items of a lexeme.
pub(crate) const SEEN: [DescItem; 4] = [
    DescItem::Symbol,
    DescItem::Start,
    DescItem::Length,
    DescItem::Values,
];

/// An action that shows these items.
pub(crate) fn described_by(alloc: Global, items: &[DescItem]) -> Result<Action, NoMemory> {
    Ok(Action::Items(Items::new(items.to_vec(alloc)?)))
}

// A plain rule that tells all items, and all its parts.
fn described(alloc: Global, shown: &[bool]) -> Result<RuleMeaning, NoMemory>
    ensures { IfOk result (λ m. IsPlainMeaning m shown.now) }
{
    plain(alloc, described_by(alloc, &MADE)?, shown)
}

/// All items of the rules, and of lexemes those that they have.
pub(crate) fn all_described(alloc: Global) -> Result<Meaning, NoMemory>
    ensures { IfOk result (λ m. (g : Grammar) → g.rules ≡ ends_nulled →
        IsMeaningOf g (meaning_of m)) }
{
    let both = described(alloc, &[true, true])?;
    let one = described(alloc, &[true])?;
    let none = described(alloc, &[])?;
    let lexeme = described_by(alloc, &SEEN)?;
    let rules = vec![in alloc; both, one, none]?;
    Ok(Meaning {
        rules: Items::new(rules),
        lexeme: Some(lexeme),
    })
}

// C is nulled after the second character.
const NULLED_AT_THE_END: [TreeStep; 4] = [
    TreeStep::Token {
        symbol: SymbolId(3),
        from: 0,
        to: 1,
    },
    TreeStep::Rule {
        rule: RuleId(1),
        children: 1,
        from: 0,
        to: 1,
    },
    TreeStep::Nulled {
        symbol: SymbolId(2),
        at: 1,
    },
    TreeStep::Rule {
        rule: RuleId(0),
        children: 2,
        from: 0,
        to: 1,
    },
];

fn line_of_nulled(
    alloc: Global,
    meaning: &Meaning,
    w: &Written,
    wanted: &[u8],
) -> Result<bool, Fail>
    requires rules { w.now.rules ≡ ends_nulled }
    requires sound { IsWritten w.now }
    requires meaning { IsMeaningOf w.now (meaning_of meaning.now) }
{
    let chars = chars_told(alloc, b" x")?;
    let teller = Box::new(alloc, ArrayTeller::new(alloc))?;
    let line = line_of(
        alloc,
        &NULLED_AT_THE_END,
        meaning,
        w,
        &ONE_EACH[1..2],
        &chars,
        teller,
    );
    drop(chars);
    Ok(line?.as_slice() == wanted)
}

/// Plays the derivation of `nulled_at_the_end`, in which the last symbol is nulled.
pub(crate) fn play_nulled(
    alloc: Global,
    meaning: &Meaning,
    w: &Written,
    chars: &Chars,
    tellers: &mut Vec<Box<dyn Teller>>,
) -> Result<(), NoMemory>
    requires rules { w.now.rules ≡ ends_nulled }
    requires sound { IsWritten w.now }
    requires meaning { IsMeaningOf w.now (meaning_of meaning.now) }
    requires chars { 2 ≤ length chars.now }
{
    play(
        alloc,
        &NULLED_AT_THE_END,
        meaning,
        w,
        &ONE_EACH[1..2],
        chars,
        tellers,
    )
}

fn tells_items_of(alloc: Global, w: &Written, line: &[u8]) -> Result<bool, Fail>
    requires rules { w.now.rules ≡ ends_nulled }
    requires sound { IsWritten w.now }
{
    let meaning = all_described(alloc)?;
    let told = line_of_nulled(alloc, &meaning, w, line);
    drop(meaning);
    told
}

fn tells_all_items(alloc: Global, line: &[u8]) -> Result<bool, Fail> {
    let w = nulled_at_the_end(alloc)?;
    let told = tells_items_of(alloc, &w, line);
    drop(w);
    told
}

#[test]
fn descriptors_tell_all_items(rt: HostRuntime) -> Result<(), Fail> {
    assert!(rt;
        tells_all_items(
            rt.alloc(),
            b"[\"S\",1,1,0,1,[\"B\",1,1,0,1,[\"x\",1,1,\"x\"]],[\"C\",2,0,1,0]]\n".as_slice()
        )?
    );
    Ok(())
}

// E ::= ('(') L (')'); L ::= N+ separator => comma: the numbers 0 E, 1 '(', 2 L, 3 ')', 4 N, 5 comma.
fn add_in_brackets(alloc: Global, w: &mut Written) -> Result<(), CoreRefusal>
    requires { w.old.rules ≡ [] }
    ensures rules { OnOk result (w.new.rules ≡ list_in_brackets) }
    ensures sound { OnOk result (IsWritten w.new) }
{
    add_names(w, &["E", "'('", "L", "')'", "N", "comma"])?;
    add_rule(alloc, w, 0, &[1, 2, 3])?;
    add_list(w, 2, 4, 5)?;
    Ok(())
}

fn in_brackets(alloc: Global) -> Result<Written, CoreRefusal>
    ensures rules { IfOk result (λ w. w.rules ≡ list_in_brackets) }
    ensures sound { IfOk result (λ w. IsWritten w) }
{
    let mut w = Written::new(alloc);
    add_in_brackets(alloc, &mut w)?;
    Ok(w)
}

fn brackets_hidden(alloc: Global) -> Result<Meaning, NoMemory>
    ensures { IfOk result (λ m. (g : Grammar) → g.rules ≡ list_in_brackets →
        IsMeaningOf g (meaning_of m)) }
{
    let inner = plain(alloc, Action::Array, &[false, true, false])?;
    let rules = vec![in alloc; inner, separated(alloc, Action::Array)]?;
    Ok(Meaning {
        rules: Items::new(rules),
        lexeme: None,
    })
}

const IN_BRACKETS: [TreeStep; 7] = [
    TreeStep::Token {
        symbol: SymbolId(1),
        from: 0,
        to: 1,
    },
    TreeStep::Token {
        symbol: SymbolId(4),
        from: 1,
        to: 2,
    },
    TreeStep::Token {
        symbol: SymbolId(5),
        from: 2,
        to: 3,
    },
    TreeStep::Token {
        symbol: SymbolId(4),
        from: 3,
        to: 4,
    },
    TreeStep::Rule {
        rule: RuleId(1),
        children: 3,
        from: 1,
        to: 4,
    },
    TreeStep::Token {
        symbol: SymbolId(3),
        from: 4,
        to: 5,
    },
    TreeStep::Rule {
        rule: RuleId(0),
        children: 3,
        from: 0,
        to: 5,
    },
];

fn brackets_line(alloc: Global, meaning: &Meaning, w: &Written, wanted: &[u8]) -> Result<bool, Fail>
    requires rules { w.now.rules ≡ list_in_brackets }
    requires sound { IsWritten w.now }
    requires meaning { IsMeaningOf w.now (meaning_of meaning.now) }
{
    let chars = chars_told(alloc, b"(1,2)")?;
    let teller = Box::new(alloc, ArrayTeller::new(alloc))?;
    let line = line_of(alloc, &IN_BRACKETS, meaning, w, &ONE_EACH, &chars, teller);
    drop(chars);
    Ok(line?.as_slice() == wanted)
}

fn tells_shown_of(alloc: Global, w: &Written, line: &[u8]) -> Result<bool, Fail>
    requires rules { w.now.rules ≡ list_in_brackets }
    requires sound { IsWritten w.now }
{
    let meaning = brackets_hidden(alloc)?;
    let told = brackets_line(alloc, &meaning, w, line);
    drop(meaning);
    told
}

fn tells_what_is_shown(alloc: Global, line: &[u8]) -> Result<bool, Fail> {
    let w = in_brackets(alloc)?;
    let told = tells_shown_of(alloc, &w, line);
    drop(w);
    told
}

#[test]
fn hidden_parts_and_separators_are_not_shown(rt: HostRuntime) -> Result<(), Fail> {
    assert!(rt; tells_what_is_shown(rt.alloc(), b"[[\"1\",\"2\"]]\n".as_slice())?);
    Ok(())
}

// S ::= 'a': the numbers 0 S, 1 'a'.
fn add_one_part(alloc: Global, w: &mut Written) -> Result<(), CoreRefusal>
    requires { w.old.rules ≡ [] }
    ensures rules { OnOk result (w.new.rules ≡ one_part) }
    ensures sound { OnOk result (IsWritten w.new) }
{
    add_names(w, &["S", "'a'"])?;
    add_rule(alloc, w, 0, &[1])?;
    Ok(())
}

fn of_one_part(alloc: Global) -> Result<Written, CoreRefusal>
    ensures rules { IfOk result (λ w. w.rules ≡ one_part) }
    ensures sound { IfOk result (λ w. IsWritten w) }
{
    let mut w = Written::new(alloc);
    add_one_part(alloc, &mut w)?;
    Ok(w)
}

fn one_shown(alloc: Global) -> Result<Meaning, NoMemory>
    ensures { IfOk result (λ m. (g : Grammar) → g.rules ≡ one_part → IsMeaningOf g (meaning_of m)) }
{
    let one = plain(alloc, Action::Array, &[true])?;
    let rules = vec![in alloc; one]?;
    Ok(Meaning {
        rules: Items::new(rules),
        lexeme: None,
    })
}

const OF_ONE_PART: [TreeStep; 2] = [
    TreeStep::Token {
        symbol: SymbolId(1),
        from: 0,
        to: 1,
    },
    TreeStep::Rule {
        rule: RuleId(0),
        children: 1,
        from: 0,
        to: 1,
    },
];

// A teller that holds the text 7.
fn holding(alloc: Global) -> Result<ArrayTeller, NoMemory>
    ensures { IfOk result (λ teller. length teller ≡ 1) }
{
    let mut teller = ArrayTeller::new(alloc);
    teller.token("x", "7", 0, 1, 0, None)?;
    Ok(teller)
}

fn line_behind(alloc: Global, meaning: &Meaning, w: &Written, wanted: &[u8]) -> Result<bool, Fail>
    requires rules { w.now.rules ≡ one_part }
    requires sound { IsWritten w.now }
    requires meaning { IsMeaningOf w.now (meaning_of meaning.now) }
{
    let chars = chars_told(alloc, b"a")?;
    let teller = Box::new(alloc, holding(alloc)?)?;
    let line = line_of_two(
        alloc,
        &OF_ONE_PART,
        meaning,
        w,
        &ONE_EACH[..1],
        &chars,
        teller,
    );
    drop(chars);
    Ok(line?.as_slice() == wanted)
}

fn tells_both_of(alloc: Global, w: &Written, line: &[u8]) -> Result<bool, Fail>
    requires rules { w.now.rules ≡ one_part }
    requires sound { IsWritten w.now }
{
    let meaning = one_shown(alloc)?;
    let told = line_behind(alloc, &meaning, w, line);
    drop(meaning);
    told
}

fn tells_both(alloc: Global, line: &[u8]) -> Result<bool, Fail> {
    let w = of_one_part(alloc)?;
    let told = tells_both_of(alloc, &w, line);
    drop(w);
    told
}

#[test]
fn values_held_before_stay_below(rt: HostRuntime) -> Result<(), Fail> {
    assert!(rt; tells_both(rt.alloc(), b"[\"7\",[\"a\"]]\n".as_slice())?);
    Ok(())
}
