//! The fold of a derivation's steps.
ghost use Rattle.std.specs.Prelude.{◌≡◌, ◌<◌, Ok, Err, length, map, IfOk, IfErr, OnOk};
ghost use Rattle.grammar_model.specs.Grammar.{lhs_of};
ghost use Rattle.grammar_model.specs.Trees.{Tree};
ghost use Rattle.grammar_model.specs.Steps.{steps_of};
ghost use Rattle.grammar_model.specs.Values.{name_of, token_at};
ghost use Rattle.grammar_core.specs.Steps.{step_of};
ghost use Rattle.grammar_core.specs.Written.{rule_of};
ghost use Rattle.valuator.specs.Play.{AreSpans, AreSteps, CanTell, tokens_of};
ghost use Rattle.tree_fold.specs.Values.{token_told, HasValue, Gives, Fails, IsAsked, left_of};
ghost use Rattle.tree_fold.specs.Failing.{IsFailure};

use crate::{FoldError, Semantics, Token};
use grammar_core::{Span, SymbolId, TreeStep, Written};
use slif_base::Chars;
use std::alloc::Global;

// What the steps of a derivation speak of.
#[derive(Clone, Copy)]
struct Text<'p> {
    w: &'p Written,
    chars: &'p Chars,
    spans: &'p [Span],
}

fn token_of<'p>(text: &Text<'p>, symbol: SymbolId, from: u32) -> Token<'p>
    requires spans { AreSpans (length text.now.chars.now) text.now.spans.now }
    requires symbol { symbol < length text.now.w.now.names }
    requires from { from < length text.now.spans.now }
    ensures symbol { result.symbol ≡ symbol }
    ensures name { result.name.now ≡ name_of text.now.w.now symbol }
    ensures token { token_told result ≡ token_at (tokens_of text.now.chars.now text.now.spans.now)
        from }
{
    let Span { start, length } = text.spans[from as usize];
    Token {
        symbol,
        name: text.w.name(symbol),
        text: text.chars.text(start as usize, (start + length) as usize),
        start,
        length,
    }
}

// What the semantics makes of a step. The values that are its children's are no longer held.
fn make<S: Semantics>(
    text: &Text<'_>,
    step: TreeStep,
    held: &mut Vec<S::Value>,
    semantics: &mut S,
) -> Result<S::Value, FoldError<S::Error>>
    requires spans { AreSpans (length text.now.chars.now) text.now.spans.now }
    requires step { CanTell text.now.w.now (length text.now.spans.now) (length held.old.items)
        (step_of step) }
    ensures value { IfOk result (λ v. Gives S.token_gives S.nulled_gives S.rule_gives text.now.w.now
        (tokens_of text.now.chars.now text.now.spans.now)
        semantics.old held.old.items (step_of step) (Ok v) semantics.new) }
    ensures left { OnOk result (held.new.items ≡ left_of held.old.items (step_of step)) }
    ensures failure { IfErr result (IsFailure
        (λ e. Gives S.token_gives S.nulled_gives S.rule_gives text.now.w.now
        (tokens_of text.now.chars.now text.now.spans.now)
        semantics.old held.old.items (step_of step) (Err e) semantics.new)
        (semantics.new ≡ semantics.old)) }
{
    let made = match step {
        TreeStep::Token { symbol, from, .. } => semantics.token(token_of(text, symbol, from)),
        TreeStep::Nulled { symbol, .. } => semantics.nulled(symbol, text.w.name(symbol)),
        TreeStep::Rule { rule, children, .. } => {
            let left = text.w.written_rule(rule).lhs();
            let values = held.split_off(held.len() - children as usize)?;
            semantics.rule(rule, text.w.name(left), values)
        }
    };
    made.map_err(FoldError::Semantics)
}

/// The value of the derivation that has these steps, over a grammar and the tokens of a text. The semantics is asked once for each step,
/// in order, up to the first error. It holds one stack of values.
pub fn fold_steps<S: Semantics>(
    alloc: Global,
    w: &Written,
    chars: &Chars,
    spans: &[Span],
    steps: &[TreeStep],
    semantics: &mut S,
) -> Result<S::Value, FoldError<S::Error>>
    requires spans { AreSpans (length chars.now) spans.now }
    requires steps { AreSteps w.now (length spans.now) (map step_of steps.now) }
    ensures value { IfOk result (λ v. (t : Tree) → map step_of steps.now ≡ steps_of t →
        HasValue S.token_gives S.nulled_gives S.rule_gives w.now (tokens_of chars.now spans.now) t
        semantics.old v semantics.new) }
    ensures failure { IfErr result (IsFailure
        (λ e. Fails S.token_gives S.nulled_gives S.rule_gives w.now (tokens_of chars.now spans.now)
        (map step_of steps.now) semantics.old e semantics.new)
        (IsAsked S.token_gives S.nulled_gives S.rule_gives w.now (tokens_of chars.now spans.now)
        (map step_of steps.now) semantics.old semantics.new)) }
{
    w.known();
    let text = Text { w, chars, spans };
    let mut held = Vec::new(alloc);
    for step in steps {
        let value = match make(&text, *step, &mut held, semantics) {
            Ok(value) => value,
            Err(error) => return Err(error),
        };
        held.push(value)?;
    }
    match held.pop() {
        Some(value) => Ok(value),
        None => unreachable!(),
    }
}
