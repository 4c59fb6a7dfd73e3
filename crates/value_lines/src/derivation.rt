// Writing the line of one derivation, by its steps.
ghost use Rattle.std.specs.Prelude.{◌≡◌, ℕ, ◌≤◌, ◌∷◌, [], List, Option, map, IfErr, IfOk, OnOk};
ghost use Rattle.std.specs.Io.KnownBytes.{Appends};
ghost use Rattle.grammar_core.specs.Steps.{step_of};
ghost use Rattle.grammar_model.specs.declared.Show.{Show};
ghost use Rattle.reading_model.specs.Reading.{Piece};
ghost use Rattle.forest_model.specs.Forest.{Forest as Shared};
ghost use Rattle.run_model.specs.Listing.{line_of};
ghost use Rattle.run_model.specs.Outside.{stream};
ghost use Rattle.valuator.specs.Told.{states};
ghost use Rattle.value_lines.specs.Lines.{IsForestOf};
ghost use Rattle.value_lines.specs.Writing.{AreBothTellers, IsAllAsked, IsWholeLine, TextHas, TextStops};

use crate::WriteRefusal;
use crate::lines::append_line;
use crate::writing::{keep_teller, player_of, write_line};
use grammar_core::{Span, TreeStep};
use scanless::Prepared;
use slif_base::{Chars, Sink};
use std::alloc::{AllocError as NoMemory, Global};
use valuator::{Show, Teller};

// The line of the derivation that has these steps, as the one teller tells it.
fn line_of_steps(
    alloc: Global,
    prepared: &Prepared,
    chars: &Chars,
    spans: &[Span],
    list: &[TreeStep],
    tellers: &mut Vec<Box<dyn Teller>>,
) -> Result<Vec<u8>, NoMemory>
    requires asked { (f : Shared) × (pieces : List Piece) × (first : Option ℕ) ×
        IsForestOf prepared.now chars.now spans.now f pieces × IsAllAsked f first (map step_of list.now) }
    requires tellers { (show : Show) × (states tellers.old.items shows held ≡ (show, []) ∷ []) }
    ensures line { IfOk result (λ line. (show : Show) (f : Shared) (pieces : List Piece) (first : Option ℕ) →
        states tellers.old.items shows held ≡ (show, []) ∷ [] → IsForestOf prepared.now chars.now spans.now f pieces →
        (asked : IsAllAsked f first (map step_of list.now)) → line.items ≡ line_of prepared.now show chars.now pieces asked.tree) }
    ensures whole { IfOk result (λ line. IsWholeLine line.items) }
{
    prepared.known();
    let mut player = player_of(alloc, prepared, chars, spans)?;
    let mut line = Vec::new(alloc);
    append_line(&mut player, list, tellers, &mut line)?;
    Ok(line)
}

/// Writes the line of the one derivation that is asked for, by its steps. `spans` are those of the reading's tokens in `chars`.
pub fn write_derivation<O: Sink>(
    alloc: Global,
    prepared: &Prepared,
    chars: &Chars,
    spans: &[Span],
    list: &[TreeStep],
    show: Show,
    mut tellers: Vec<Box<dyn Teller>>,
    out: &mut O,
) -> Result<(), WriteRefusal>
    requires asked { (f : Shared) × (pieces : List Piece) × (first : Option ℕ) ×
        IsForestOf prepared.now chars.now spans.now f pieces × IsAllAsked f first (map step_of list.now) }
    requires tellers { AreBothTellers (states tellers.items shows held) }
    ensures written { OnOk result ((f : Shared) (first : Option ℕ) → IsAllAsked f first (map step_of list.now) →
        TextHas prepared.now show chars.now spans.now f first
        (λ text. Appends (O.contents out.old) (O.contents out.new) text)) }
    ensures stops { IfErr result (λ refusal. (f : Shared) (first : Option ℕ) → IsAllAsked f first (map step_of list.now) →
        TextHas prepared.now show chars.now spans.now f first
        (λ text. TextStops (stream O.contents O.fault_count out.old) (stream O.contents O.fault_count out.new) refusal text)) }
    ensures later { O.fault_count out.old ≤ O.fault_count out.new }
{
    keep_teller(show, &mut tellers);
    let Ok(line) = line_of_steps(alloc, prepared, chars, spans, list, &mut tellers) else {
        return Err(WriteRefusal::NoMemory);
    };
    let Ok(()) = write_line(out, &line) else {
        return Err(WriteRefusal::WriteFault);
    };
    Ok(())
}
