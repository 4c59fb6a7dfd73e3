//! The meanings of structural rules.
ghost use Rattle.std.specs.Prelude.{◌≡◌, ◌++◌, [], map, flat_map, option_map, IfOk, OnOk, unwrap_or, false, if◌then◌else◌};
ghost use Rattle.language_model.specs.Building as building;
ghost use Rattle.language_model.specs.Building.{meaning_of_plain, meaning_of_quantified, shown_of_element, meanings};
ghost use Rattle.grammar_model.specs.Values.{MakeUndefined};
ghost use Rattle.value_text.specs.Meaning.{action_of, rule_meaning_of};
ghost use Rattle.dsl_statement.specs.Statements.{adverbs_of, element_of, is_lexical, statement_of};
ghost use Rattle.dsl_meanings.specs.Meanings.{meaning_of_alternative, meanings_of, next_default};

use dsl_faults::{read_action, value_of};
use dsl_statement::{Adverb, Alternative, Element, Level, Spelled, Statement};
use std::alloc::{AllocError, Global};
use value_text::{Action, Items, RuleMeaning};

/// The action that adverbs tell, if they tell one.
pub fn action_in(alloc: Global, adverbs: &[Adverb]) -> Result<Option<Action>, AllocError>
    ensures { IfOk result (λ action. option_map action_of action ≡
        building.action_in (adverbs_of adverbs.now)) }
{
    match value_of("action", adverbs) {
        Some(value) => read_action(alloc, value.content.as_str()),
        None => Ok(None),
    }
}

fn copy_of(alloc: Global, action: &Action) -> Result<Action, AllocError>
    ensures { IfOk result (λ copy. action_of copy ≡ action_of action.now) }
{
    match action {
        Action::Array => Ok(Action::Array),
        Action::First => Ok(Action::First),
        Action::Undef => Ok(Action::Undef),
        Action::Items(items) => {
            let copy = Vec::from_slice(alloc, items.as_slice())?;
            Ok(Action::Items(Items::new(copy)))
        }
    }
}

fn action_or(alloc: Global, default: &Action, adverbs: &[Adverb]) -> Result<Action, AllocError>
    ensures { IfOk result (λ action. action_of action ≡
        unwrap_or (building.action_in (adverbs_of adverbs.now)) (action_of default.now)) }
{
    match action_in(alloc, adverbs)? {
        Some(action) => Ok(action),
        None => copy_of(alloc, default),
    }
}

fn push_hidden(shown: &mut Vec<bool>, parts: &[Spelled]) -> Result<(), AllocError>
    ensures { OnOk result (shown.new.items ≡ shown.old.items ++ map (λ t. false) parts.now) }
{
    for _ in parts {
        shown.push(false)?;
    }
    Ok(())
}

fn push_element(shown: &mut Vec<bool>, element: &Element) -> Result<(), AllocError>
    ensures { OnOk result (shown.new.items ≡
        shown.old.items ++ shown_of_element (element_of element.now)) }
{
    match element {
        Element::Bare(_) => {
            shown.push(true)?;
            Ok(())
        }
        Element::Hidden(parts) => push_hidden(shown, parts),
    }
}

fn shown_of(alloc: Global, elements: &[Element]) -> Result<Vec<bool>, AllocError>
    ensures { IfOk result (λ shown. shown.items ≡
        flat_map shown_of_element (map element_of elements.now)) }
{
    let mut shown = Vec::new(alloc);
    for element in elements {
        push_element(&mut shown, element)?;
    }
    Ok(shown)
}

fn meaning_of_alternative(
    alloc: Global,
    default: &Action,
    alternative: &Alternative,
) -> Result<RuleMeaning, AllocError>
    ensures { IfOk result (λ m. rule_meaning_of m ≡
        meaning_of_alternative (action_of default.now) alternative.now) }
{
    let shown = shown_of(alloc, &alternative.elements)?;
    Ok(RuleMeaning {
        action: action_or(alloc, default, &alternative.adverbs)?,
        shown: Items::new(shown),
        sequence: false,
        separated: false,
    })
}

fn meaning_of_empty(
    alloc: Global,
    default: &Action,
    adverbs: &[Adverb],
) -> Result<RuleMeaning, AllocError>
    ensures { IfOk result (λ m. rule_meaning_of m ≡
        meaning_of_plain (action_of default.now) [] (adverbs_of adverbs.now)) }
{
    Ok(RuleMeaning {
        action: action_or(alloc, default, adverbs)?,
        shown: Items::new(Vec::new(alloc)),
        sequence: false,
        separated: false,
    })
}

fn meaning_of_quantified(
    alloc: Global,
    default: &Action,
    adverbs: &[Adverb],
) -> Result<RuleMeaning, AllocError>
    ensures { IfOk result (λ m. rule_meaning_of m ≡
        meaning_of_quantified (action_of default.now) (adverbs_of adverbs.now)) }
{
    Ok(RuleMeaning {
        action: action_or(alloc, default, adverbs)?,
        shown: Items::new(Vec::new(alloc)),
        sequence: true,
        separated: value_of("separator", adverbs).is_some(),
    })
}

fn push_group(
    alloc: Global,
    out: &mut Vec<RuleMeaning>,
    default: &Action,
    group: &[Alternative],
) -> Result<(), AllocError>
    ensures { OnOk result (map rule_meaning_of out.new.items ≡
        map rule_meaning_of out.old.items ++
        map (meaning_of_alternative (action_of default.now)) group.now) }
{
    for alternative in group {
        out.push(meaning_of_alternative(alloc, default, alternative)?)?;
    }
    Ok(())
}

fn push_groups(
    alloc: Global,
    out: &mut Vec<RuleMeaning>,
    default: &Action,
    groups: &[Vec<Alternative>],
) -> Result<(), AllocError>
    ensures { OnOk result (map rule_meaning_of out.new.items ≡
        map rule_meaning_of out.old.items ++
        flat_map (λ g. map (meaning_of_alternative (action_of default.now)) g.items)
        groups.now) }
{
    for group in groups {
        push_group(alloc, out, default, group)?;
    }
    Ok(())
}

fn push_rules(
    alloc: Global,
    out: &mut Vec<RuleMeaning>,
    default: &Action,
    level: Level,
    groups: &[Vec<Alternative>],
) -> Result<(), AllocError>
    ensures { OnOk result (map rule_meaning_of out.new.items ≡
        map rule_meaning_of out.old.items ++
        (if is_lexical level then [] else flat_map
        (λ g. map (meaning_of_alternative (action_of default.now)) g.items) groups.now)) }
{
    match level {
        Level::Structural => push_groups(alloc, out, default, groups),
        Level::Lexical => Ok(()),
    }
}

fn push_statement(
    alloc: Global,
    out: &mut Vec<RuleMeaning>,
    default: &Action,
    s: &Statement,
) -> Result<(), AllocError>
    ensures { OnOk result (map rule_meaning_of out.new.items ≡
        map rule_meaning_of out.old.items ++
        meanings_of (action_of default.now) (statement_of s.now)) }
{
    match s {
        Statement::Empty {
            level: Level::Structural,
            adverbs,
            ..
        } => {
            out.push(meaning_of_empty(alloc, default, adverbs)?)?;
            Ok(())
        }
        Statement::Quantified {
            level: Level::Structural,
            adverbs,
            ..
        } => {
            out.push(meaning_of_quantified(alloc, default, adverbs)?)?;
            Ok(())
        }
        Statement::Rules { level, groups, .. } => push_rules(alloc, out, default, *level, groups),
        _ => Ok(()),
    }
}

fn next_default(alloc: Global, default: Action, s: &Statement) -> Result<Action, AllocError>
    ensures { IfOk result (λ action. action_of action ≡
        next_default (action_of default) (statement_of s.now)) }
{
    match s {
        Statement::Default { adverbs, .. } => action_or(alloc, &default, adverbs),
        _ => Ok(default),
    }
}

/// The meanings of the structural rules, in order.
pub fn meanings(alloc: Global, statements: &[Statement]) -> Result<Vec<RuleMeaning>, AllocError>
    ensures { IfOk result (λ out. map rule_meaning_of out.items ≡
        meanings MakeUndefined (map statement_of statements.now)) }
{
    let mut out = Vec::new(alloc);
    let mut default = Action::Undef;
    for s in statements {
        push_statement(alloc, &mut out, &default, s)?;
        default = next_default(alloc, default, s)?;
    }
    Ok(out)
}
