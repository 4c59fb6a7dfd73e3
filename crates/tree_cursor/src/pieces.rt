//! A step by its text, without places.
ghost use Rattle.std.specs.Prelude.{◌≡◌, ◌↔◌, ◌≤◌, ℕ, List, ◌∷◌, ◌++◌, IfSome, IsNone, IsTrue};
ghost use Rattle.grammar_core.specs.Steps.{step_of};
ghost use Rattle.grammar_model.specs.Steps.{Step};
ghost use Rattle.cursor_model.specs.Cursor.{numeral, step_text};
ghost use Rattle.cursor_model.specs.Laid.{IsSmall};
ghost use Rattle.tree_cursor.specs.Told.{IsCut};

use grammar_core::{RuleId, SymbolId, TreeStep};
use itoa::Buffer;

// Whether the text is the number as it is written.
fn is_written(number: u32, text: &str) -> bool
    ensures { IsTrue result ↔ (text.now ≡ numeral number) }
{
    Buffer::new().format(number) == text
}

// A number of 32 bits as it is written: with no sign, and no zero that leads.
fn number(text: &str) -> Option<u32>
    ensures is { IfSome result (λ n. text.now ≡ numeral n) }
    ensures small { IfSome result (λ n. n ≤ 4294967295) }
    ensures none { IsNone result → (n : ℕ) → n ≤ 4294967295 → text.now ≡ numeral n → ⊥ }
{
    match text.parse::<u32>() {
        Ok(number) if is_written(number, text) => Some(number),
        _ => None,
    }
}

// What stands before the first comma, and what after it.
fn parts(text: &str) -> Option<(&str, &str)>
    ensures some { IfSome result (λ r. IsCut text.now r.0.now r.1.now) }
    ensures none { IsNone result → (before after : List ℕ) → text.now ≡ before ++ 44 ∷ after → ⊥ }
{
    text.split_once(',')
}

// Two numbers and a comma.
fn numbers(text: &str) -> Option<(u32, u32)>
    ensures is { IfSome result (λ ns. text.now ≡ numeral ns.0 ++ 44 ∷ numeral ns.1) }
    ensures small { IfSome result (λ ns. (ns.0 ≤ 4294967295) × (ns.1 ≤ 4294967295)) }
    ensures none { IsNone result → (m n : ℕ) → m ≤ 4294967295 → n ≤ 4294967295 →
        text.now ≡ numeral m ++ 44 ∷ numeral n → ⊥ }
{
    let (first, second) = parts(text)?;
    Some((number(first)?, number(second)?))
}

/// The step that has this text, with its places 0.
pub fn step_told(piece: &str) -> Option<TreeStep>
    ensures is { IfSome result (λ step. piece.now ≡ step_text (step_of step)) }
    ensures small { IfSome result (λ step. IsSmall (step_of step)) }
    ensures none { IsNone result → (step : Step) → IsSmall step → piece.now ≡ step_text step → ⊥ }
{
    if let Some(symbol) = piece.strip_prefix('t') {
        return Some(TreeStep::Token {
            symbol: SymbolId(number(symbol)?),
            from: 0,
            to: 0,
        });
    }
    if let Some(symbol) = piece.strip_prefix('n') {
        return Some(TreeStep::Nulled {
            symbol: SymbolId(number(symbol)?),
            at: 0,
        });
    }
    let (rule, children) = numbers(piece.strip_prefix('r')?)?;
    Some(TreeStep::Rule {
        rule: RuleId(rule),
        children,
        from: 0,
        to: 0,
    })
}
