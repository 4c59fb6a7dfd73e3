//! The lexical grammar.
ghost use Rattle.std.specs.Prelude.{◌≡◌, ◌≤◌, ◌<◌, ◌+◌, ◌++◌, map, flat_map, length, All, IfOk, OnOk};
ghost use Rattle.grammar_model.specs.declared.limits.TheConstants.{MOST_ENTRIES};
ghost use Rattle.language_model.specs.Building.{sets_of, added_rules, numbered_from};
ghost use Rattle.grammar_core.specs.Written.{rule_of};
ghost use Rattle.dsl_build.specs.Lexical.{added_rule, added_of, lexical_with};
ghost use Rattle.dsl_build.specs.Ready.{IsReadable, IsWritable};
ghost use Rattle.dsl_build.specs.Rules.{AddsRules};

use crate::placed::is_quote_or_bracket;
use crate::sets::{numbered, numbers_from, push_sets};
use crate::writing::written;
use char_class::CharSet;
use dsl_faults::Names;
use dsl_statement::Spelled;
use grammar_core::{Assoc, Rule, SymbolId, Written, WrittenRule};
use std::alloc::{AllocError, Global};

/// The lexical grammar, and the sets of its last symbols, each with its symbol.
#[derive(Drop)]
pub(crate) struct Lexical {
    pub grammar: Written,
    pub sets: Vec<(SymbolId, CharSet)>,
}

fn push_token_rule(
    alloc: Global,
    out: &mut Vec<WrittenRule>,
    number: usize,
    next: usize,
    count: usize,
    token: &Spelled,
) -> Result<(), AllocError>
    requires number { number ≤ MOST_ENTRIES }
    requires sets { next + count ≤ MOST_ENTRIES }
    ensures { OnOk result (AddsRules out.old.items out.new.items (added_of number next count token.now)) }
{
    if !is_quote_or_bracket(token) {
        return Ok(());
    }
    let rhs = numbers_from(alloc, next, count)?;
    out.push(WrittenRule::Plain(Rule {
        lhs: SymbolId(number as u32),
        rhs,
        level: 0,
        groups: 1,
        assoc: Assoc::Left,
        rank: 0,
        null_high: false,
    }))?;
    Ok(())
}

fn push_token(
    alloc: Global,
    out: &mut Vec<WrittenRule>,
    sets: &mut Vec<CharSet>,
    number: usize,
    first: usize,
    token: &Spelled,
) -> Result<(), AllocError>
    requires readable { IsReadable token.now }
    requires number { number ≤ MOST_ENTRIES }
    requires room { first + (length sets.old.items + length (sets_of token.now)) ≤ MOST_ENTRIES }
    ensures sets { OnOk result (sets.new.items ≡ sets.old.items ++ sets_of token.now) }
    ensures rules { OnOk result (AddsRules out.old.items out.new.items (added_rule number (first + length sets.old.items) token.now)) }
{
    let before = sets.len();
    push_sets(alloc, sets, token)?;
    let count = sets.len() - before;
    push_token_rule(alloc, out, number, first + before, count, token)
}

// The sets of the tokens, and their rules. The first set's symbol has the number `first`.
fn push_tokens(
    alloc: Global,
    out: &mut Vec<WrittenRule>,
    first: usize,
    tokens: &[&Spelled],
) -> Result<Vec<CharSet>, AllocError>
    requires readable { All (λ t. IsReadable t.now) tokens.now }
    requires numbers { length tokens.now ≤ first }
    requires room { first + length (flat_map sets_of (map (λ t. t.now) tokens.now)) ≤ MOST_ENTRIES }
    ensures sets { IfOk result (λ sets. sets.items ≡ flat_map sets_of (map (λ t. t.now) tokens.now)) }
    ensures rules { OnOk result (AddsRules out.old.items out.new.items (added_rules 0 first (map (λ t. t.now) tokens.now))) }
{
    let mut sets = Vec::new(alloc);
    for (i, token) in tokens.iter().enumerate() {
        push_token(alloc, out, &mut sets, i, first, token)?;
    }
    Ok(sets)
}

/// The grammar of these rules, of the tokens with a place and of these starts.
pub(crate) fn lexical_grammar(
    alloc: Global,
    names: &Names,
    tokens: &[&Spelled],
    mut rules: Vec<WrittenRule>,
    starts: &[SymbolId],
) -> Result<Lexical, AllocError>
    requires readable { All (λ t. IsReadable t.now) tokens.now }
    requires placed { length tokens.now ≤ length names.now }
    requires room { length names.now + length (flat_map sets_of (map (λ t. t.now) tokens.now)) ≤ MOST_ENTRIES }
    requires writable { IsWritable (lexical_with names.now (map rule_of rules.items) (map (λ t. t.now) tokens.now) starts.now) }
    ensures sets { IfOk result (λ l. l.sets.items ≡ numbered_from (length names.now) (flat_map sets_of (map (λ t. t.now) tokens.now))) }
    ensures grammar { IfOk result (λ l. l.grammar ≡ lexical_with names.now (map rule_of rules.items) (map (λ t. t.now) tokens.now) starts.now) }
{
    let first = names.len();
    let classes = push_tokens(alloc, &mut rules, first, tokens)?;
    let count = classes.len();
    let sets = numbered(alloc, first, classes)?;
    let grammar = written(alloc, names, count, rules, starts)?;
    Ok(Lexical { grammar, sets })
}
