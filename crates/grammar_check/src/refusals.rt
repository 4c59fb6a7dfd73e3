//! Parts of the check of a grammar, each the first fault of its kind.
ghost use Rattle.std.specs.Prelude.{◌≡◌, ℕ, ◌<◌, ◌↔◌, length, slice_get, slice_index_or, Some, false, IsTrue, IfSome, IsNone};
ghost use Rattle.grammar_model.specs.Grammar.{Sequence, rule_at, slot_of};
ghost use Rattle.grammar_model.specs.Analysis.{IsProductive};
ghost use Rattle.grammar_model.specs.Checked.{IsLeft, IsFault, StartNotLhs, CountedNullable, UnproductiveStart, StartsAreLeft, StartsAreProductive, IsCountedNullable, ItemsSpan};
ghost use Rattle.grammar_check.specs.Counted.{HasNullable};

use grammar_core::{RuleId, SeqRule, SymbolId, Written, WrittenRule};
use slot_analysis::Analysis;

/// The first start that is no left side.
pub fn start_without_rule(analysis: &Analysis<'_>) -> Option<SymbolId>
    ensures some { IfSome result (λ s. IsFault analysis.now (StartNotLhs s)) }
    ensures none { IsNone result → StartsAreLeft analysis.now }
{
    let w = analysis.written();
    for k in 0..w.start_count() {
        let s = start_at(w, k);
        if !analysis.is_left(s) {
            return Some(s);
        }
    }
    None
}

/// The first start that has no tree.
pub fn unproductive_start(analysis: &Analysis<'_>) -> Option<SymbolId>
    ensures some { IfSome result (λ s. IsFault analysis.now (UnproductiveStart s)) }
    ensures none { IsNone result → StartsAreProductive analysis.now }
{
    let w = analysis.written();
    for k in 0..w.start_count() {
        let s = start_at(w, k);
        if !analysis.productive(s) {
            return Some(s);
        }
    }
    None
}

// Whether the item or the separator is nullable.
fn has_nullable(analysis: &Analysis<'_>, rule: &SeqRule) -> bool
    requires item { rule.now.item < length analysis.now.names }
    requires separator { IfSome rule.now.separator (λ s. s < length analysis.now.names) }
    ensures { IsTrue result ↔ HasNullable analysis.now rule.now }
{
    match rule.separator {
        Some(s) => analysis.nullable(rule.item) || analysis.nullable(s),
        None => analysis.nullable(rule.item),
    }
}

fn counts_nullable(analysis: &Analysis<'_>, i: usize) -> bool
    requires { i < length analysis.now.rules }
    ensures { IsTrue result ↔ IsCountedNullable analysis.now i }
{
    let w = analysis.written();
    match w.rule(i) {
        WrittenRule::Plain(_) => false,
        WrittenRule::Sequence(rule) => has_nullable(analysis, rule),
    }
}

/// The first sequence rule whose item or separator is nullable.
pub fn counted_nullable(analysis: &Analysis<'_>) -> Option<RuleId>
    ensures some { IfSome result (λ i. IsFault analysis.now (CountedNullable i)) }
    ensures none { IsNone result → ItemsSpan analysis.now }
{
    let count = analysis.written().rule_count();
    for i in 0..count {
        if counts_nullable(analysis, i) {
            return Some(RuleId(i as u32));
        }
    }
    None
}

fn start_at(w: &Written, k: usize) -> SymbolId
    requires { k < length w.now.starts }
    ensures value { slice_get w.now.starts k ≡ Some result }
    ensures known { result < length w.now.names }
{
    w.known();
    w.start(k)
}
