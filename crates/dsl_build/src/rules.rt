//! The pass over statements that makes their rules of numbers: each token is looked up once, in the table of its level.
ghost use Rattle.std.specs.Prelude.{◌≡◌, ◌≤◌, ◌∷◌, [], map, flat_map, filter, length, IfOk, OnOk, All, option_map, codes, false, true};
ghost use Rattle.language_model.specs.Description.{Empty, Quantified};
ghost use Rattle.language_model.specs.Building as building;
ghost use Rattle.language_model.specs.Building.{is_one_of, place_in, numbers_in, rules_of_groups, rules_of, is_of_level, parts_of};
ghost use Rattle.grammar_model.specs.Grammar.{Plain, Sequence};
ghost use Rattle.grammar_model.specs.declared.limits.TheConstants.{MOST_ENTRIES};
ghost use Rattle.grammar_core.specs.Written.{rule_of};
ghost use Rattle.dsl_statement.specs.Statements.{adverbs_of, statement_of};
ghost use Rattle.dsl_build.specs.Ready.{IsNamed, IsSmall, IsReady, IsReadyAlternative};
ghost use Rattle.dsl_build.specs.Resolving.{is_at, rules_at, plain_with};
ghost use Rattle.dsl_build.specs.Rules.{AddsRules};

use crate::numbers::{assoc_of, rank_of, says};
use crate::symbols::symbol_of;
use dsl_faults::{Names, value_of};
use dsl_statement::{Adverb, Alternative, Level, Spelled, Statement};
use grammar_core::{Assoc, Rule, SeqRule, SymbolId, WrittenRule};
use std::alloc::{AllocError, Global};

fn number_of(names: &Names, token: &Spelled) -> SymbolId
    requires named { IsNamed names.now token.now }
    requires few { length names.now ≤ MOST_ENTRIES }
    ensures { result ≡ place_in names.now token.now.content }
{
    symbol_of(names, token.content.as_str())
}

fn numbers_of(alloc: Global, names: &Names, parts: &[&Spelled]) -> Result<Vec<SymbolId>, AllocError>
    requires named { All (λ t. IsNamed names.now t.now) parts.now }
    requires few { length names.now ≤ MOST_ENTRIES }
    ensures { IfOk result (λ numbers. numbers.items ≡ map (λ t. place_in names.now t.now.content) parts.now) }
{
    let mut numbers = Vec::with_capacity(alloc, parts.len())?;
    for part in parts {
        numbers.push(number_of(names, part))?;
    }
    Ok(numbers)
}

fn right_side(
    alloc: Global,
    names: &Names,
    alternative: &Alternative,
) -> Result<Vec<SymbolId>, AllocError>
    requires named { All (IsNamed names.now) (parts_of alternative.now) }
    requires few { length names.now ≤ MOST_ENTRIES }
    ensures { IfOk result (λ numbers. numbers.items ≡ numbers_in names.now (parts_of alternative.now)) }
{
    let parts = dsl_faults::parts_of(alloc, alternative)?;
    numbers_of(alloc, names, &parts)
}

fn plain_rule(
    alloc: Global,
    names: &Names,
    lhs: SymbolId,
    level: u32,
    groups: u32,
    alternative: &Alternative,
) -> Result<WrittenRule, AllocError>
    requires ready { IsReadyAlternative names.now alternative.now }
    requires few { length names.now ≤ MOST_ENTRIES }
    ensures { IfOk result (λ r. rule_of r ≡ plain_with names.now lhs level groups alternative.now) }
{
    let adverbs = &alternative.adverbs;
    Ok(WrittenRule::Plain(Rule {
        lhs,
        rhs: right_side(alloc, names, alternative)?,
        level,
        groups,
        assoc: assoc_of(adverbs),
        rank: rank_of(adverbs),
        null_high: says("null-ranking", "high", adverbs),
    }))
}

fn push_group(
    alloc: Global,
    out: &mut Vec<WrittenRule>,
    names: &Names,
    lhs: SymbolId,
    level: u32,
    groups: u32,
    group: &[Alternative],
) -> Result<(), AllocError>
    requires ready { All (IsReadyAlternative names.now) group.now }
    requires few { length names.now ≤ MOST_ENTRIES }
    ensures { OnOk result (AddsRules out.old.items out.new.items (map (plain_with names.now lhs level groups) group.now)) }
{
    for alternative in group {
        out.push(plain_rule(alloc, names, lhs, level, groups, alternative)?)?;
    }
    Ok(())
}

fn push_groups(
    alloc: Global,
    out: &mut Vec<WrittenRule>,
    names: &Names,
    left: &Spelled,
    groups: &[Vec<Alternative>],
) -> Result<(), AllocError>
    requires left { IsNamed names.now left.now }
    requires ready { All (λ g. All (IsReadyAlternative names.now) g.items) groups.now }
    requires counted { length groups.now ≤ 4294967295 }
    requires few { length names.now ≤ MOST_ENTRIES }
    ensures { OnOk result (AddsRules out.old.items out.new.items (rules_of_groups names.now left.now (length groups.now) (map (λ g. g.items) groups.now))) }
{
    let lhs = number_of(names, left);
    let count = groups.len() as u32;
    let mut level = count;
    for group in groups {
        level -= 1;
        push_group(alloc, out, names, lhs, level, count, group)?;
    }
    Ok(())
}

fn empty_rule(alloc: Global, names: &Names, left: &Spelled, adverbs: &[Adverb]) -> WrittenRule
    requires left { IsNamed names.now left.now }
    requires small { IsSmall (building.rank_of (adverbs_of adverbs.now)) }
    requires few { length names.now ≤ MOST_ENTRIES }
    ensures { rule_of result ∷ [] ≡ rules_of names.now (Empty left.now false (adverbs_of adverbs.now)) }
{
    WrittenRule::Plain(Rule {
        lhs: number_of(names, left),
        rhs: Vec::new(alloc),
        level: 0,
        groups: 1,
        assoc: Assoc::Left,
        rank: rank_of(adverbs),
        null_high: says("null-ranking", "high", adverbs),
    })
}

fn separator_of(names: &Names, adverbs: &[Adverb]) -> Option<SymbolId>
    requires named { All (IsNamed names.now) (building.separator_of (adverbs_of adverbs.now)) }
    requires few { length names.now ≤ MOST_ENTRIES }
    ensures { result ≡ option_map (λ t. place_in names.now t.content) (building.value_of (codes "separator") (adverbs_of adverbs.now)) }
{
    match value_of("separator", adverbs) {
        Some(token) => Some(number_of(names, token)),
        None => None,
    }
}

fn sequence_rule(
    names: &Names,
    left: &Spelled,
    item: &Spelled,
    plus: bool,
    adverbs: &[Adverb],
) -> WrittenRule
    requires ready { IsReady names.now (Quantified left.now false item.now plus (adverbs_of adverbs.now)) }
    requires few { length names.now ≤ MOST_ENTRIES }
    ensures { rule_of result ∷ [] ≡ rules_of names.now (Quantified left.now false item.now plus (adverbs_of adverbs.now)) }
{
    WrittenRule::Sequence(SeqRule {
        lhs: number_of(names, left),
        item: number_of(names, item),
        plus,
        separator: separator_of(names, adverbs),
        proper: says("proper", "1", adverbs),
        rank: rank_of(adverbs),
        null_high: says("null-ranking", "high", adverbs),
    })
}

fn push_statement(
    alloc: Global,
    out: &mut Vec<WrittenRule>,
    names: &Names,
    s: &Statement,
) -> Result<(), AllocError>
    requires ready { IsReady names.now (statement_of s.now) }
    requires few { length names.now ≤ MOST_ENTRIES }
    ensures { OnOk result (AddsRules out.old.items out.new.items (rules_of names.now (statement_of s.now))) }
{
    match s {
        Statement::Empty { left, adverbs, .. } => {
            out.push(empty_rule(alloc, names, left, adverbs))?;
            Ok(())
        }
        Statement::Quantified {
            left,
            item,
            plus,
            adverbs,
            ..
        } => {
            out.push(sequence_rule(names, left, item, *plus, adverbs))?;
            Ok(())
        }
        Statement::Rules { left, groups, .. } => push_groups(alloc, out, names, left, groups),
        _ => Ok(()),
    }
}

// The level of the rules that the statement has.
fn level_of(s: &Statement) -> Option<Level>
    ensures structural { is_at false result ≡ is_of_level false (statement_of s.now) }
    ensures lexical { is_at true result ≡ is_of_level true (statement_of s.now) }
{
    match s {
        Statement::Empty { level, .. } => Some(*level),
        Statement::Quantified { level, .. } => Some(*level),
        Statement::Rules { level, .. } => Some(*level),
        _ => None,
    }
}

/// The rules of both levels, each in order.
#[derive(Drop)]
pub struct Rules {
    pub structural: Vec<WrittenRule>,
    pub lexical: Vec<WrittenRule>,
}

fn push_of_level(
    alloc: Global,
    out: &mut Rules,
    structural: &Names,
    lexical: &Names,
    s: &Statement,
) -> Result<(), AllocError>
    requires structural { is_of_level false (statement_of s.now) ≡ true → IsReady structural.now (statement_of s.now) }
    requires lexical { is_of_level true (statement_of s.now) ≡ true → IsReady lexical.now (statement_of s.now) }
    requires few { length structural.now ≤ MOST_ENTRIES }
    requires few_lexical { length lexical.now ≤ MOST_ENTRIES }
    ensures structural { OnOk result (AddsRules out.old.structural.items out.new.structural.items (rules_at false structural.now (statement_of s.now))) }
    ensures lexical { OnOk result (AddsRules out.old.lexical.items out.new.lexical.items (rules_at true lexical.now (statement_of s.now))) }
{
    match level_of(s) {
        Some(Level::Structural) => push_statement(alloc, &mut out.structural, structural, s),
        Some(Level::Lexical) => push_statement(alloc, &mut out.lexical, lexical, s),
        None => Ok(()),
    }
}

/// The rules of statements, over the numbers that names have in the table of their level.
pub fn rules_of(
    alloc: Global,
    statements: &[Statement],
    structural: &Names,
    lexical: &Names,
) -> Result<Rules, AllocError>
    requires structural { All (λ s. is_of_level false (statement_of s) ≡ true → IsReady structural.now (statement_of s)) statements.now }
    requires lexical { All (λ s. is_of_level true (statement_of s) ≡ true → IsReady lexical.now (statement_of s)) statements.now }
    requires few { length structural.now ≤ MOST_ENTRIES }
    requires few_lexical { length lexical.now ≤ MOST_ENTRIES }
    ensures structural { IfOk result (λ r. map rule_of r.structural.items ≡
        flat_map (rules_of structural.now) (filter (is_of_level false) (map statement_of statements.now))) }
    ensures lexical { IfOk result (λ r. map rule_of r.lexical.items ≡
        flat_map (rules_of lexical.now) (filter (is_of_level true) (map statement_of statements.now))) }
{
    let mut rules = Rules {
        structural: Vec::new(alloc),
        lexical: Vec::new(alloc),
    };
    for s in statements {
        push_of_level(alloc, &mut rules, structural, lexical, s)?;
    }
    Ok(rules)
}
