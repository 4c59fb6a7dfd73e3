//! The line of a derivation, by its steps.
ghost use Rattle.std.specs.Prelude.{◌≡◌, ◌++◌, ◌∷◌, [], length, map, OnErr, OnOk};
ghost use Rattle.grammar_core.specs.Steps.{step_of};
ghost use Rattle.grammar_model.specs.Steps.{steps_of};
ghost use Rattle.grammar_model.specs.Text.{text_of};
ghost use Rattle.grammar_model.specs.Trees.{Tree};
ghost use Rattle.grammar_model.specs.Values.{Value, value_of};
ghost use Rattle.grammar_model.specs.declared.Show.{Show as Shown};
ghost use Rattle.grammar_model.specs.declared.Show.TheVariants.{Array as ShownArray, Tree as ShownTree};
ghost use Rattle.valuator.specs.Play.{AreSpans, AreSteps, tokens_of};
ghost use Rattle.valuator.specs.Told.{HoldsOne, line_of, states};

use crate::{NoMemory, Show, Span, TreeStep};
use scanless::Prepared;
use slif_base::Chars;
use std::alloc::Global;
use valuator::{ArrayTeller, Teller, TreeTeller, play};

fn finish(teller: &mut Box<dyn Teller>, line: &mut Vec<u8>) -> Result<(), NoMemory>
    requires { HoldsOne (held teller.old) }
    ensures ok { OnOk result (line.new.items ≡ line.old.items ++ line_of (held teller.old)) }
    ensures err { OnErr result (line.new.items ≡ line.old.items) }
{
    teller.finish(line)
}

// Appends the line of the one value that the one teller holds.
fn finish_first(tellers: &mut Vec<Box<dyn Teller>>, line: &mut Vec<u8>) -> Result<(), NoMemory>
    requires { (show : Shown) × (v : Value) × (states tellers.old.items shows held ≡ (show, v ∷ []) ∷ []) }
    ensures ok { (show : Shown) (v : Value) → states tellers.old.items shows held ≡ (show, v ∷ []) ∷ [] →
        OnOk result (line.new.items ≡ line.old.items ++ (text_of v ++ 10 ∷ [])) }
    ensures err { OnErr result (line.new.items ≡ line.old.items) }
{
    finish(&mut tellers[0], line)
}

// Appends the line that the one teller tells.
fn append_told(
    alloc: Global,
    prepared: &Prepared,
    chars: &Chars,
    spans: &[Span],
    list: &[TreeStep],
    tellers: &mut Vec<Box<dyn Teller>>,
    line: &mut Vec<u8>,
) -> Result<(), NoMemory>
    requires spans { AreSpans (length chars.now) spans.now }
    requires list { AreSteps prepared.now.g1 (length spans.now) (map step_of list.now) }
    requires tellers { (show : Shown) × (states tellers.old.items shows held ≡ (show, []) ∷ []) }
    ensures ok { (show : Shown) (t : Tree) → states tellers.old.items shows held ≡ (show, []) ∷ [] →
        map step_of list.now ≡ steps_of t → OnOk result (line.new.items ≡ line.old.items ++
        (text_of (value_of show prepared.now.g1 prepared.now.meaning (tokens_of chars.now spans.now) t) ++ 10 ∷ [])) }
    ensures err { OnErr result (line.new.items ≡ line.old.items) }
{
    prepared.known();
    play(
        alloc,
        list,
        prepared.meaning(),
        prepared.written(),
        spans,
        chars,
        tellers,
    )?;
    finish_first(tellers, line)
}

// Appends the line that a teller of this kind tells.
fn append_by(
    alloc: Global,
    prepared: &Prepared,
    chars: &Chars,
    spans: &[Span],
    list: &[TreeStep],
    show: Show,
    teller: Box<dyn Teller>,
    line: &mut Vec<u8>,
) -> Result<(), NoMemory>
    requires spans { AreSpans (length chars.now) spans.now }
    requires list { AreSteps prepared.now.g1 (length spans.now) (map step_of list.now) }
    requires kind { shows teller ≡ show }
    requires empty { held teller ≡ [] }
    ensures ok { (t : Tree) → map step_of list.now ≡ steps_of t → OnOk result (line.new.items ≡ line.old.items ++
        (text_of (value_of show prepared.now.g1 prepared.now.meaning (tokens_of chars.now spans.now) t) ++ 10 ∷ [])) }
    ensures err { OnErr result (line.new.items ≡ line.old.items) }
{
    let mut tellers = Vec::new(alloc);
    tellers.push(teller)?;
    append_told(alloc, prepared, chars, spans, list, &mut tellers, line)
}

// Appends the line of a derivation whose value is that of its actions.
fn append_array(
    alloc: Global,
    prepared: &Prepared,
    chars: &Chars,
    spans: &[Span],
    list: &[TreeStep],
    line: &mut Vec<u8>,
) -> Result<(), NoMemory>
    requires spans { AreSpans (length chars.now) spans.now }
    requires list { AreSteps prepared.now.g1 (length spans.now) (map step_of list.now) }
    ensures ok { (t : Tree) → map step_of list.now ≡ steps_of t → OnOk result (line.new.items ≡ line.old.items ++
        (text_of (value_of ShownArray prepared.now.g1 prepared.now.meaning
        (tokens_of chars.now spans.now) t) ++ 10 ∷ [])) }
    ensures err { OnErr result (line.new.items ≡ line.old.items) }
{
    let teller: Box<dyn Teller> = Box::new(alloc, ArrayTeller::new(alloc))?;
    append_by(
        alloc,
        prepared,
        chars,
        spans,
        list,
        Show::Array,
        teller,
        line,
    )
}

// Appends the line of a derivation whose value is its tree.
fn append_tree(
    alloc: Global,
    prepared: &Prepared,
    chars: &Chars,
    spans: &[Span],
    list: &[TreeStep],
    line: &mut Vec<u8>,
) -> Result<(), NoMemory>
    requires spans { AreSpans (length chars.now) spans.now }
    requires list { AreSteps prepared.now.g1 (length spans.now) (map step_of list.now) }
    ensures ok { (t : Tree) → map step_of list.now ≡ steps_of t → OnOk result (line.new.items ≡ line.old.items ++
        (text_of (value_of ShownTree prepared.now.g1 prepared.now.meaning
        (tokens_of chars.now spans.now) t) ++ 10 ∷ [])) }
    ensures err { OnErr result (line.new.items ≡ line.old.items) }
{
    let teller: Box<dyn Teller> = Box::new(alloc, TreeTeller::new(alloc))?;
    append_by(
        alloc,
        prepared,
        chars,
        spans,
        list,
        Show::Tree,
        teller,
        line,
    )
}

/// Appends the line of a derivation, as it is to be shown.
pub fn append_shown(
    alloc: Global,
    prepared: &Prepared,
    chars: &Chars,
    spans: &[Span],
    list: &[TreeStep],
    show: Show,
    line: &mut Vec<u8>,
) -> Result<(), NoMemory>
    requires spans { AreSpans (length chars.now) spans.now }
    requires list { AreSteps prepared.now.g1 (length spans.now) (map step_of list.now) }
    ensures ok { (t : Tree) → map step_of list.now ≡ steps_of t → OnOk result (line.new.items ≡ line.old.items ++
        (text_of (value_of show prepared.now.g1 prepared.now.meaning (tokens_of chars.now spans.now) t) ++ 10 ∷ [])) }
    ensures err { OnErr result (line.new.items ≡ line.old.items) }
{
    match show {
        Show::Array => append_array(alloc, prepared, chars, spans, list, line),
        Show::Tree => append_tree(alloc, prepared, chars, spans, list, line),
    }
}
