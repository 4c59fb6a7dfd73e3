//! What may be the cause in a node: edges and whole rules, in the order in which a forest has them.
ghost use Rattle.std.specs.Prelude.{◌≡◌, ◌≤◌, length};
ghost use Rattle.grammar_model.specs.Grammar.{is_even as is_even_number, has_trailing, null_high_of, rule_at};
ghost use Rattle.grammar_model.specs.Order.{rank_by};
ghost use Rattle.recognizer_model.specs.Flat.{IsRule, source_of};
ghost use Rattle.recognizer_model.specs.FlatForm.{IsFlatOf, list_length as length_of_list, source_number};
ghost use Rattle.grammar_core.specs.Written.{rule_of};
ghost use Rattle.forest_parts.specs.Lists.{between};
ghost use Rattle.forest_parts.specs.Parts.{rule_key_of};

use grammar_core::{Flat, FlatSource, FlatSymbol, Written, WrittenRule};
use grammar_model::Ranking;
use std::cmp::Reverse;

/// What the place of a flat rule among those of its left side goes by, in this order.
#[derive(Clone, Copy, PartialEq, Eq, PartialOrd, Ord)]
pub struct RuleKey {
    /// the length of a list's rule, and 0 of others
    pub length: Reverse<u32>,
    pub rank: Reverse<i32>,
    /// the number of the written rule; tops come after them
    pub source: usize,
    /// whether a separator stands last
    pub trailing: bool,
    pub rule: u32,
}

/// What derives a symbol over a span: an edge, or a whole rule. Spans are told by their ends and their lengths.
#[derive(Clone, Copy, PartialEq, Eq, PartialOrd, Ord)]
pub struct Part {
    pub end: u32,
    pub symbol: u32,
    pub length: u32,
    pub whole: Option<RuleKey>,
}

// The length of a list's rule.
fn list_length(flat: &Flat, rule: u32) -> u32
    requires { IsRule flat.now rule }
    ensures { result ≡ length_of_list flat.now rule }
{
    flat.known();
    match flat.symbol(flat.lhs(rule)) {
        FlatSymbol::Sequence(_) => flat.rhs(rule).len() as u32,
        _ => 0,
    }
}

// The rank that counts.
fn rank(ranking: Ranking, rule: &WrittenRule) -> i32
    ensures { result ≡ rank_by ranking (rule_of rule.now) }
{
    match ranking {
        Ranking::None => 0,
        Ranking::Rule | Ranking::High => rule.rank(),
    }
}

fn is_even(count: usize) -> bool
    ensures { result ≡ is_even_number count }
{
    count % 2 == 0
}

// Whether so many parts end with a separator.
fn ends_with_separator(rule: &WrittenRule, parts: usize) -> bool
    ensures { result ≡ has_trailing (rule_of rule.now) parts }
{
    match rule {
        WrittenRule::Plain(_) => false,
        WrittenRule::Sequence(r) => match r.separator {
            Some(_) => is_even(parts),
            None => false,
        },
    }
}

/// What the place of a flat rule goes by.
pub fn rule_key(flat: &Flat, w: &Written, ranking: Ranking, rule: u32) -> RuleKey
    requires flat { IsFlatOf flat.now w.now }
    requires rule { IsRule flat.now rule }
    ensures { result ≡ rule_key_of w.now ranking flat.now rule }
{
    let length = Reverse(list_length(flat, rule));
    match flat.origin_of(rule) {
        FlatSource::Written(source) => {
            let written = w.written_rule(source);
            RuleKey {
                length,
                rank: Reverse(rank(ranking, written)),
                source: source.0 as usize,
                trailing: ends_with_separator(written, flat.rhs(rule).len()),
                rule,
            }
        }
        FlatSource::Top(start) => RuleKey {
            length,
            rank: Reverse(0),
            source: w.rule_count() + start as usize,
            trailing: false,
            rule,
        },
    }
}

/// Whether nulled last parts of a flat rule come first.
pub fn is_null_high(flat: &Flat, w: &Written, rule: u32) -> bool
    requires flat { IsFlatOf flat.now w.now }
    requires rule { IsRule flat.now rule }
    ensures { result ≡ null_high_of (rule_at w.now (source_number w.now (source_of flat.now rule))) }
{
    match flat.origin_of(rule) {
        FlatSource::Written(source) => w.written_rule(source).null_high(),
        FlatSource::Top(_) => false,
    }
}

/// Some of the parts.
pub fn parts_between(parts: &[Part], first: usize, end: usize) -> &[Part]
    requires order { first ≤ end }
    requires bound { end ≤ length parts.now }
    ensures { result.now ≡ between first end parts.now }
{
    &parts[first..end]
}
