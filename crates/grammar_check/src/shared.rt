//! Sequences that share their left side, and rules that say again what an earlier one says.
ghost use Rattle.std.specs.Prelude.{true, false, ◌≡◌, ℕ, suc, ◌<◌, List, ◌∷◌, ◌||◌, length, slice_index_or, slice_set, Contains, IfOk, OnOk, IfSome, IsNone, IsTrue, ◌↔◌, ◌⊎◌};
ghost use Rattle.grammar_model.specs.Grammar.{PlainRule, rule_at};
ghost use Rattle.grammar_model.specs.Checked.{IsFault, SequenceLhs, Duplicate, SequencesAreAlone, RulesDiffer, IsDuplicate};
ghost use Rattle.grammar_check.specs.Shared.{rows_of, IsSequenceAt, HasTwo, HasSequence, Marks, HasTexts};

use grammar_core::{Rule, RuleId, SymbolId, Written, WrittenRule};
use indexmap::IndexSet;
use std::alloc::{AllocError, AllocFailed, Global};

fn mark(marks: &mut Vec<bool>, x: usize, more: bool)
    requires { x < length marks.old.items }
    ensures { marks.new.items ≡
        slice_set marks.old.items x (slice_index_or marks.old.items x false || more) }
{
    marks[x] = marks[x] || more;
}

// Whether each symbol is the left side of two rules.
fn twice_left(alloc: Global, w: &Written) -> Result<Vec<bool>, AllocError>
    ensures length { IfOk result (λ twice. length twice.items ≡ length w.now.names) }
    ensures marks { IfOk result (λ twice. Marks twice.items (HasTwo w.now (length w.now.rules))) }
{
    let mut seen = vec![in alloc; false; w.symbol_count()]?;
    let mut twice = vec![in alloc; false; w.symbol_count()]?;
    for i in 0..w.rule_count() {
        let symbol = w.lhs(i).0 as usize;
        mark(&mut twice, symbol, seen[symbol]);
        mark(&mut seen, symbol, true);
    }
    Ok(twice)
}

// Whether each symbol is the left side of a sequence.
fn sequence_left(alloc: Global, w: &Written) -> Result<Vec<bool>, AllocError>
    ensures length { IfOk result (λ marks. length marks.items ≡ length w.now.names) }
    ensures marks { IfOk result (λ marks. Marks marks.items (HasSequence w.now (length
        w.now.rules))) }
{
    let mut marks = vec![in alloc; false; w.symbol_count()]?;
    for i in 0..w.rule_count() {
        let symbol = w.lhs(i).0 as usize;
        mark(&mut marks, symbol, w.rule(i).is_sequence());
    }
    Ok(marks)
}

/// The least left side of a sequence that has another rule.
pub fn shared_sequence(alloc: Global, w: &Written) -> Result<Option<SymbolId>, AllocError>
    ensures some { IfOk result (λ r. IfSome r (λ s. IsFault w.now (SequenceLhs s))) }
    ensures none { IfOk result (λ r. IsNone r → SequencesAreAlone w.now) }
{
    let twice = twice_left(alloc, w)?;
    let sequences = sequence_left(alloc, w)?;
    for s in 0..w.symbol_count() {
        if twice[s] && sequences[s] {
            return Ok(Some(SymbolId(s as u32)));
        }
    }
    Ok(None)
}

// The left side of a plain rule, and then its parts.
fn text_of(alloc: Global, rule: &Rule) -> Result<Vec<u32>, AllocError>
    ensures { IfOk result (λ text. text.items ≡ rule.now.lhs ∷ rule.now.rhs) }
{
    let mut text = vec![in alloc; rule.lhs.0]?;
    for part in &rule.rhs {
        text.push(part.0)?;
    }
    Ok(text)
}

// Whether the text was there. It is there afterwards.
fn add_text(texts: &mut IndexSet<Vec<u32>>, text: Vec<u32>) -> Result<bool, AllocFailed<Vec<u32>>>
    ensures was { IfOk result (λ r. IsTrue r ↔ Contains (rows_of texts.old.keys) text.items) }
    ensures added { OnOk result ((t : List ℕ) →
        Contains (rows_of texts.new.keys) t ↔
        (Contains (rows_of texts.old.keys) t ⊎ (t ≡ text.items))) }
{
    let new = texts.insert(text)?;
    Ok(!new)
}

// Whether the rule says again what an earlier one says.
fn is_repeated(
    alloc: Global,
    w: &Written,
    i: usize,
    texts: &mut IndexSet<Vec<u32>>,
) -> Result<bool, AllocError>
    requires rule { i < length w.now.rules }
    requires texts { HasTexts w.now i (rows_of texts.old.keys) }
    ensures repeated { IfOk result (λ r. IsTrue r ↔ IsDuplicate w.now i) }
    ensures texts { OnOk result (HasTexts w.now (suc i) (rows_of texts.new.keys)) }
{
    match w.rule(i) {
        WrittenRule::Sequence(_) => Ok(false),
        WrittenRule::Plain(rule) => {
            let text = text_of(alloc, rule)?;
            let was = add_text(texts, text)?;
            Ok(was)
        }
    }
}

/// The first plain rule that has the left side and the right side of an earlier one.
pub fn duplicate_rule(alloc: Global, w: &Written) -> Result<Option<RuleId>, AllocError>
    ensures some { IfOk result (λ r. IfSome r (λ i. IsFault w.now (Duplicate i))) }
    ensures none { IfOk result (λ r. IsNone r → RulesDiffer w.now) }
{
    let mut texts = IndexSet::new(alloc);
    for i in 0..w.rule_count() {
        let repeated = is_repeated(alloc, w, i, &mut texts)?;
        if repeated {
            return Ok(Some(RuleId(i as u32)));
        }
    }
    Ok(None)
}
