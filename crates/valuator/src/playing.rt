//! Playing a derivation's steps to tellers.
ghost use Rattle.std.specs.Prelude.{◌≡◌, ◌+◌, ◌-◌, ◌^◌, ◌==◌, ◌&&◌, ◌<◌, ◌≤◌, Bool, Some, None, is_some, map, option_map, option_copied, length, if◌then◌else◌, [], ◌∷◌, ◌++◌, slice_index_or, slice_range, encode_utf8_all, IfOk, OnOk, OnErr};
ghost use Rattle.grammar_model.specs.Grammar.{lhs_of, rule_at};
ghost use Rattle.grammar_model.specs.Steps.{TokenStep, NulledStep, RuleStep, steps_of};
ghost use Rattle.grammar_model.specs.Trees.{Tree};
ghost use Rattle.grammar_model.specs.Values.{end_before, is_nulling, items_shown, name_of, nulled_action, nulling_value, rule_value, told, told_all, token_at, token_value, value_of, value_of_nulled, value_of_rule, value_of_token};
ghost use Rattle.grammar_core.specs.Steps.{step_of};
ghost use Rattle.grammar_core.specs.Written.{rule_of};
ghost use Rattle.value_text.specs.Meaning.{action_of, meaning_of};
ghost use Rattle.valuator.specs.Told.{action_in, advanced, held_count, HoldsAtLeast, states, replace_newest};
ghost use Rattle.valuator.specs.Nulling.{AreFirst};
ghost use Rattle.valuator.specs.Play.{AreSpans, AreSteps, CanTell, EachCanTell, EachCanTellAll, IsMeaningOf, tokens_of};

use crate::Teller;
use crate::nulling::{nulling_action, nulling_rules};
use grammar_core::{RuleId, Span, SymbolId, TreeStep, Written};
use slif_base::Chars;
use std::alloc::Global;
use std::marker::Model;
use value_text::{Action, Meaning, NoMemory};

/// Lists of a sequence's first children which are items, in place of what was listed.
fn list_items(shown: &mut Vec<bool>, separated: bool, count: u32) -> Result<(), NoMemory>
    ensures { OnOk result (shown.new.items ≡ items_shown (if separated then Some 0 else None)
        count) }
{
    shown.clear();
    let mut is_item = true;
    for _k in 0..count {
        shown.push(is_item)?;
        if separated {
            is_item = !is_item;
        }
    }
    Ok(())
}

/// The text of a token.
fn token_text<'p>(spans: &[Span], chars: &'p Chars, place: u32) -> &'p str
    requires spans { AreSpans (length chars.now) spans.now }
    requires place { place < length spans.now }
    ensures { result.now ≡ (token_at (tokens_of chars.now spans.now) place).text }
{
    let span = spans[place as usize];
    chars.text(span.start as usize, (span.start + span.length) as usize)
}

/// Where the token before a place ends, in characters.
fn end_of(spans: &[Span], chars: &Chars, place: u32) -> u32
    requires spans { AreSpans (length chars.now) spans.now }
    requires place { place ≤ length spans.now }
    ensures { result ≡ end_before (tokens_of chars.now spans.now) place }
{
    if place == 0 {
        return 0;
    }
    let span = spans[place as usize - 1];
    span.start + span.length
}

/// A symbol's name.
fn name_in<'p>(w: &'p Written, symbol: SymbolId) -> &'p str
    requires { symbol < length w.now.names }
    ensures { result.now ≡ name_of w.now symbol }
{
    w.name(symbol)
}

/// What a step is told by.
#[derive(Drop)]
struct Sheet<'p> {
    meaning: &'p Meaning,
    w: &'p Written,
    spans: &'p [Span],
    chars: &'p Chars,
    // of each symbol, the rule that nulls it
    nulling: Vec<Option<RuleId>>,
}

/// Tells the values of a token.
fn pass_token(
    teller: &mut Box<dyn Teller>,
    name: &str,
    text: &str,
    span: Span,
    from: u32,
    action: Option<&Action>,
) -> Result<(), NoMemory>
    ensures ok { OnOk result (held teller.new ≡ held teller.old ++ token_value
        (shows teller.old) name.now text.now span.start span.length from
        (action_in action.entry) ∷ []) }
    ensures kind { shows teller.new ≡ shows teller.old }
{
    teller.token(name, text, span.start, span.length, from, action)
}

/// Tells the values of a nulled symbol.
fn pass_nulling(
    teller: &mut Box<dyn Teller>,
    name: &str,
    start: u32,
    at: u32,
    action: Option<&Action>,
) -> Result<(), NoMemory>
    ensures ok { OnOk result (held teller.new ≡ held teller.old ++ nulling_value
        (shows teller.old) name.now start at (action_in action.entry) ∷ []) }
    ensures kind { shows teller.new ≡ shows teller.old }
{
    teller.nulling(name, start, at, action)
}

/// Tells the values of a rule, whose span ends at `end`.
fn pass_rule(
    teller: &mut Box<dyn Teller>,
    rule: RuleId,
    name: &str,
    shown: &[bool],
    start: u32,
    end: u32,
    from: u32,
    to: u32,
    action: &Action,
) -> Result<(), NoMemory>
    requires count { length shown.now < 2 ^ 32 }
    requires places { from ≤ to }
    requires held { HoldsAtLeast (length shown.now) (held teller.old) }
    ensures ok { OnOk result (held teller.new ≡ replace_newest (length shown.now)
        (rule_value (shows teller.old) rule name.now shown.now start (end - start) from (to - from)
        (action_of action.now)) (held teller.old)) }
    ensures kind { shows teller.new ≡ shows teller.old }
{
    let count = shown.len() as u32;
    let length = end.saturating_sub(start);
    teller.rule(
        rule,
        name,
        count,
        shown,
        start,
        length,
        from,
        to - from,
        action,
    )
}

/// Tells a token.
fn tell_token(
    p: &Sheet<'_>,
    symbol: SymbolId,
    from: u32,
    teller: &mut Box<dyn Teller>,
) -> Result<(), NoMemory>
    requires spans { AreSpans (length p.now.chars.now) p.now.spans.now }
    requires symbol { symbol < length p.now.w.now.names }
    requires from { from < length p.now.spans.now }
    ensures ok { OnOk result (held teller.new ≡ held teller.old ++ value_of_token
        (shows teller.old) p.now.w.now (meaning_of p.now.meaning.now)
        (tokens_of p.now.chars.now p.now.spans.now) symbol from ∷ []) }
    ensures kind { shows teller.new ≡ shows teller.old }
{
    let name = name_in(p.w, symbol);
    let text = token_text(p.spans, p.chars, from);
    let span = p.spans[from as usize];
    let action = p.meaning.lexeme.as_ref();
    pass_token(teller, name, text, span, from, action)
}

/// Tells a nulled symbol.
fn tell_nulled(
    p: &Sheet<'_>,
    symbol: SymbolId,
    at: u32,
    teller: &mut Box<dyn Teller>,
) -> Result<(), NoMemory>
    requires meaning { IsMeaningOf p.now.w.now (meaning_of p.now.meaning.now) }
    requires spans { AreSpans (length p.now.chars.now) p.now.spans.now }
    requires nulling { AreFirst p.now.w.now (length p.now.w.now.rules) p.now.nulling.items }
    requires symbol { symbol < length p.now.w.now.names }
    requires at { at ≤ length p.now.spans.now }
    ensures ok { OnOk result (held teller.new ≡ held teller.old ++ value_of_nulled
        (shows teller.old) p.now.w.now (meaning_of p.now.meaning.now)
        (tokens_of p.now.chars.now p.now.spans.now) symbol at ∷ []) }
    ensures kind { shows teller.new ≡ shows teller.old }
{
    let name = name_in(p.w, symbol);
    let start = end_of(p.spans, p.chars, at);
    let action = nulling_action(p.w, p.meaning, &p.nulling, symbol);
    pass_nulling(teller, name, start, at, action)
}

/// Tells a rule.
fn tell_rule(
    p: &Sheet<'_>,
    shown: &mut Vec<bool>,
    rule: RuleId,
    children: u32,
    from: u32,
    to: u32,
    teller: &mut Box<dyn Teller>,
) -> Result<(), NoMemory>
    requires meaning { IsMeaningOf p.now.w.now (meaning_of p.now.meaning.now) }
    requires spans { AreSpans (length p.now.chars.now) p.now.spans.now }
    requires step { CanTell p.now.w.now (length p.now.spans.now) (held_count (held teller.old))
        (RuleStep rule children from to) }
    ensures ok { OnOk result (held teller.new ≡
        replace_newest children (value_of_rule (shows teller.old) p.now.w.now
        (meaning_of p.now.meaning.now) (tokens_of p.now.chars.now p.now.spans.now) rule children
        from to) (held teller.old)) }
    ensures kind { shows teller.new ≡ shows teller.old }
{
    let name = name_in(p.w, p.w.written_rule(rule).lhs());
    let start = p.spans[from as usize].start;
    let end = end_of(p.spans, p.chars, to);
    let meaning = &p.meaning.rules.as_slice()[rule.0 as usize];
    if meaning.sequence {
        list_items(shown, meaning.separated, children)?;
        pass_rule(
            teller,
            rule,
            name,
            shown.as_slice(),
            start,
            end,
            from,
            to,
            &meaning.action,
        )
    } else {
        pass_rule(
            teller,
            rule,
            name,
            meaning.shown.as_slice(),
            start,
            end,
            from,
            to,
            &meaning.action,
        )
    }
}

/// Tells one step.
fn tell(
    p: &Sheet<'_>,
    shown: &mut Vec<bool>,
    step: &TreeStep,
    teller: &mut Box<dyn Teller>,
) -> Result<(), NoMemory>
    requires meaning { IsMeaningOf p.now.w.now (meaning_of p.now.meaning.now) }
    requires spans { AreSpans (length p.now.chars.now) p.now.spans.now }
    requires nulling { AreFirst p.now.w.now (length p.now.w.now.rules) p.now.nulling.items }
    requires step { CanTell p.now.w.now (length p.now.spans.now) (held_count (held teller.old))
        (step_of step.now) }
    ensures ok { OnOk result (held teller.new ≡ told (shows teller.old) p.now.w.now
        (meaning_of p.now.meaning.now) (tokens_of p.now.chars.now p.now.spans.now) (held teller.old)
        (step_of step.now)) }
    ensures kind { shows teller.new ≡ shows teller.old }
{
    match step {
        TreeStep::Token { symbol, from, .. } => tell_token(p, *symbol, *from, teller),
        TreeStep::Nulled { symbol, at } => tell_nulled(p, *symbol, *at, teller),
        TreeStep::Rule {
            rule,
            children,
            from,
            to,
        } => tell_rule(p, shown, *rule, *children, *from, *to, teller),
    }
}

/// Tells all tellers one step.
fn tell_all(
    p: &Sheet<'_>,
    shown: &mut Vec<bool>,
    step: &TreeStep,
    tellers: &mut Vec<Box<dyn Teller>>,
) -> Result<(), NoMemory>
    requires meaning { IsMeaningOf p.now.w.now (meaning_of p.now.meaning.now) }
    requires spans { AreSpans (length p.now.chars.now) p.now.spans.now }
    requires nulling { AreFirst p.now.w.now (length p.now.w.now.rules) p.now.nulling.items }
    requires step { EachCanTell p.now.w.now (length p.now.spans.now)
        (states tellers.old.items shows held) (step_of step.now) }
    ensures ok { OnOk result (states tellers.new.items shows held ≡ advanced
        (λ show values. told show p.now.w.now (meaning_of p.now.meaning.now)
        (tokens_of p.now.chars.now p.now.spans.now) values (step_of step.now))
        (states tellers.old.items shows held)) }
{
    for teller in tellers.iter_mut() {
        tell(p, shown, step, teller)?;
    }
    Ok(())
}

/// Tells all tellers one step after another.
fn tell_steps(
    p: &Sheet<'_>,
    shown: &mut Vec<bool>,
    list: &[TreeStep],
    tellers: &mut Vec<Box<dyn Teller>>,
) -> Result<(), NoMemory>
    requires meaning { IsMeaningOf p.now.w.now (meaning_of p.now.meaning.now) }
    requires spans { AreSpans (length p.now.chars.now) p.now.spans.now }
    requires nulling { AreFirst p.now.w.now (length p.now.w.now.rules) p.now.nulling.items }
    requires steps { EachCanTellAll p.now.w.now (length p.now.spans.now)
        (states tellers.old.items shows held) (map step_of list.now) }
    ensures ok { OnOk result (states tellers.new.items shows held ≡ advanced
        (λ show values. told_all show p.now.w.now (meaning_of p.now.meaning.now)
        (tokens_of p.now.chars.now p.now.spans.now) values (map step_of list.now))
        (states tellers.old.items shows held)) }
{
    for step in list {
        tell_all(p, shown, step, tellers)?;
    }
    Ok(())
}

/// Plays the steps of derivations of one grammar over the tokens of one text. It is seen as its score: the grammar, what
/// its rules mean, the characters and the tokens' spans.
#[derive(Drop)]
pub struct Player<'p> {
    sheet: Sheet<'p>,
    // of the children of the sequence told last, which are items
    shown: Vec<bool>,
}

impl<'p> Model for Player<'p> {
    ghost use Rattle.value_text.specs.Meaning.{meaning_of};
    ghost use Rattle.valuator.specs.Player.{Score, IsReady};

    ghost Value = { Score };

    ghost view = { λ p. record {
      grammar = p.sheet.w.now;
      meaning = meaning_of p.sheet.meaning.now;
      chars = p.sheet.chars.now;
      spans = p.sheet.spans.now;
    } };

    ghost invariant = { λ p. IsReady p.sheet.w.now (meaning_of p.sheet.meaning.now)
        p.sheet.chars.now p.sheet.spans.now p.sheet.nulling.items };
}

impl<'p> Player<'p> {
    /// A player of derivations by a meaning of a grammar. `spans` are those of the tokens in `chars`.
    pub fn new(
        alloc: Global,
        meaning: &'p Meaning,
        w: &'p Written,
        spans: &'p [Span],
        chars: &'p Chars,
    ) -> Result<Player<'p>, NoMemory>
        requires meaning { IsMeaningOf w.now (meaning_of meaning.now) }
        requires spans { AreSpans (length chars.now) spans.now }
        ensures { IfOk result (λ player. player ≡
            record {
              grammar = w.now;
              meaning = meaning_of meaning.now;
              chars = chars.now;
              spans = spans.now;
            }) }
    {
        let nulling = nulling_rules(alloc, w)?;
        let sheet = Sheet {
            meaning,
            w,
            spans,
            chars,
            nulling,
        };
        Ok(Player {
            sheet,
            shown: Vec::new(alloc),
        })
    }

    /// Tells each teller the steps of a derivation, so that it holds the derivation's value on top of what it held. After
    /// an `Err` there are no tellers.
    pub fn play(
        &mut self,
        list: &[TreeStep],
        tellers: &mut Vec<Box<dyn Teller>>,
    ) -> Result<(), NoMemory>
        requires { AreSteps self.old.grammar (length self.old.spans) (map step_of list.now) }
        ensures ok { (t : Tree) → map step_of list.now ≡ steps_of t →
            OnOk result (states tellers.new.items shows held ≡ advanced
            (λ show values. values ++ value_of show self.old.grammar self.old.meaning
            (tokens_of self.old.chars self.old.spans) t ∷ [])
            (states tellers.old.items shows held)) }
        ensures err { OnErr result (tellers.new.items ≡ []) }
        ensures score { self.new ≡ self.old }
    {
        let told = self.tell_list(list, tellers);
        if told.is_err() {
            tellers.clear();
        }
        told
    }

    /// Tells the steps; after an `Err` tellers may hold anything.
    fn tell_list(
        &mut self,
        list: &[TreeStep],
        tellers: &mut Vec<Box<dyn Teller>>,
    ) -> Result<(), NoMemory>
        requires { AreSteps self.old.grammar (length self.old.spans) (map step_of list.now) }
        ensures ok { OnOk result (states tellers.new.items shows held ≡ advanced
            (λ show values. told_all show self.old.grammar self.old.meaning
            (tokens_of self.old.chars self.old.spans) values (map step_of list.now))
            (states tellers.old.items shows held)) }
        ensures score { self.new ≡ self.old }
    {
        tell_steps(&self.sheet, &mut self.shown, list, tellers)
    }
}

/// Tells each teller the steps of a derivation, so that it holds the derivation's value on top of what it held. After
/// an `Err` there are no tellers. For many derivations of one grammar make a `Player`.
pub fn play(
    alloc: Global,
    list: &[TreeStep],
    meaning: &Meaning,
    w: &Written,
    spans: &[Span],
    chars: &Chars,
    tellers: &mut Vec<Box<dyn Teller>>,
) -> Result<(), NoMemory>
    requires list { AreSteps w.now (length spans.now) (map step_of list.now) }
    requires meaning { IsMeaningOf w.now (meaning_of meaning.now) }
    requires spans { AreSpans (length chars.now) spans.now }
    ensures ok { (t : Tree) → map step_of list.now ≡ steps_of t →
        OnOk result (states tellers.new.items shows held ≡ advanced
        (λ show values. values ++ value_of show w.now (meaning_of meaning.now)
        (tokens_of chars.now spans.now) t ∷ []) (states tellers.old.items shows held)) }
    ensures err { OnErr result (tellers.new.items ≡ []) }
{
    let Ok(mut player) = Player::new(alloc, meaning, w, spans, chars) else {
        tellers.clear();
        return Err(NoMemory);
    };
    player.play(list, tellers)
}
