// Writing the lines of the derivations of a reading.
ghost use Rattle.std.specs.Prelude.{◌≡◌, ◌≤◌, ◌+◌, ◌^◌, suc, ◌↔◌, ◌∷◌, [], List, map, IfErr, IfOk, IfSome, IsNone, IsTrue, OnErr, OnOk};
ghost use Rattle.std.specs.List.{concat, sum_by};
ghost use Rattle.std.specs.Io.KnownBytes.{Appends};
ghost use Rattle.grammar_model.specs.Trees.{Tree};
ghost use Rattle.recognizer_model.specs.Links.{choices};
ghost use Rattle.reading_model.specs.Reading.{Piece};
ghost use Rattle.forest_model.specs.Forest.{Forest as Shared};
ghost use Rattle.forest_model.specs.Listing.{IsListing};
ghost use Rattle.run_model.specs.Listing.{line_of, first_of};
ghost use Rattle.outside_model.specs.Causes.{HasCause};
ghost use Rattle.outside_model.specs.Told.{AppendsPrefix};
ghost use Rattle.run_model.specs.Outside.{stream};
ghost use Rattle.valuator.specs.Told.{states};
ghost use Rattle.tree_iter.specs.Iteration.{AreGiven};
ghost use Rattle.grammar_model.specs.declared.Show.{Show};
ghost use Rattle.value_lines.specs.Lines.{score_of, IsForestOf};
ghost use Rattle.value_lines.specs.Writing.{AreBothTellers, HaveCome, IsWholeLine, RestHas, TextHas, TextStops, WroteLines};

use crate::next_line;
use bocage::Forest;
use grammar_core::Span;
use scanless::Prepared;
use slif_base::{Chars, Sink, Steps, WriteFault, write_all};
use std::alloc::{AllocError as NoMemory, Global};
use std::sync::ledger::Ledger;
use thiserror::Error;
use tree_iter::TreeIter;
use valuator::{Player, Show, Teller};

/// Why the lines were not all written.
#[derive(Clone, Copy, Debug, PartialEq, Eq, Error)]
pub enum WriteRefusal {
    #[error("a write failed")]
    WriteFault,
    #[error("no memory")]
    NoMemory,
}

/// Writes the lines of so many of the first derivations of a reading's forest, or of all, in the declared order and each as one piece,
/// as the teller of the kind asked for tells them. `spans` are those of the reading's tokens in `chars`. It looks at alternatives at most
/// as often as the derivations have choices. More than 2^64 - 1 derivations count as too many for memory.
pub fn write_derivations<O: Sink, L: Ledger>(
    alloc: Global,
    prepared: &Prepared,
    chars: &Chars,
    spans: &[Span],
    forest: &Forest<'_>,
    show: Show,
    first: Option<u32>,
    mut tellers: Vec<Box<dyn Teller>>,
    out: &mut O,
    steps: &mut Steps<L>,
) -> Result<(), WriteRefusal>
    requires forest { (pieces : List Piece) × IsForestOf prepared.now chars.now spans.now forest.now pieces }
    requires tellers { AreBothTellers (states tellers.items shows held) }
    ensures written { OnOk result
        (TextHas prepared.now show chars.now spans.now forest.now first
        (λ text. Appends (O.contents out.old) (O.contents out.new) text)) }
    ensures stops { IfErr result (λ refusal. TextHas prepared.now show chars.now spans.now forest.now first
        (λ text. TextStops (stream O.contents O.fault_count out.old) (stream O.contents O.fault_count out.new) refusal text)) }
    ensures counted { OnOk result ((trees : List Tree) → IsListing forest.now trees → steps.new ≤ steps.old + sum_by choices (first_of first trees)) }
    ensures later { O.fault_count out.old ≤ O.fault_count out.new }
{
    forest.known();
    keep_teller(show, &mut tellers);
    let Ok(mut iter) = TreeIter::new(alloc, forest) else {
        return Err(WriteRefusal::NoMemory);
    };
    let Ok(mut player) = player_of(alloc, prepared, chars, spans) else {
        return Err(WriteRefusal::NoMemory);
    };
    let mut line = Vec::new(alloc);
    write_lines(
        prepared,
        first,
        &mut player,
        &mut iter,
        &mut tellers,
        &mut line,
        out,
        steps,
    )?;
    Ok(())
}

/// The player of the derivations of a reading.
pub fn player_of<'p>(
    alloc: Global,
    prepared: &'p Prepared,
    chars: &'p Chars,
    spans: &'p [Span],
) -> Result<Player<'p>, NoMemory>
    requires { (forest : Shared) × (pieces : List Piece) × IsForestOf prepared.now chars.now spans.now forest pieces }
    ensures { IfOk result (λ player. player ≡ score_of prepared.now chars.now spans.now) }
{
    prepared.known();
    Player::new(alloc, prepared.meaning(), prepared.written(), spans, chars)
}

/// Hands a line to the sink as one piece.
pub fn write_line<O: Sink>(out: &mut O, line: &[u8]) -> Result<(), WriteFault>
    requires { IsWholeLine line.now }
    ensures written { OnOk result (Appends (O.contents out.old) (O.contents out.new) line.now) }
    ensures prefix { OnErr result (AppendsPrefix (O.contents out.old) (O.contents out.new) line.now) }
    ensures cause { HasCause (O.fault_count out.old) (O.fault_count out.new) result }
{
    write_all(out, line)
}

/// Writes the lines of so many derivations after those given, or of all that are left. Answers whether so many as were asked for were
/// written, so that more may be left.
pub fn write_lines<O: Sink, L: Ledger>(
    prepared: &Prepared,
    first: Option<u32>,
    player: &mut Player<'_>,
    iter: &mut TreeIter<'_>,
    tellers: &mut Vec<Box<dyn Teller>>,
    line: &mut Vec<u8>,
    out: &mut O,
    steps: &mut Steps<L>,
) -> Result<bool, WriteRefusal>
    requires player { player.old ≡ score_of prepared.now player.old.chars player.old.spans }
    requires forest { (pieces : List Piece) × IsForestOf prepared.now player.old.chars player.old.spans iter.old.forest pieces }
    requires begun { (before : List Tree) × AreGiven iter.old before }
    requires tellers { (show : Show) × (states tellers.old.items shows held ≡ (show, []) ∷ []) }
    ensures written { IfOk result (λ enough. (show : Show) (pieces : List Piece) (before : List Tree) → states tellers.old.items shows held ≡ (show, []) ∷ [] →
        IsForestOf prepared.now player.old.chars player.old.spans iter.old.forest pieces → AreGiven iter.old before →
        (given : List Tree) × HaveCome before first iter.new given enough ×
        WroteLines prepared.now show player.old.chars pieces given (O.contents out.old) (O.contents out.new) steps.old steps.new) }
    ensures stops { IfErr result (λ refusal. (show : Show) (pieces : List Piece) (before : List Tree) → states tellers.old.items shows held ≡ (show, []) ∷ [] →
        IsForestOf prepared.now player.old.chars player.old.spans iter.old.forest pieces → AreGiven iter.old before → RestHas iter.old.forest before
        (λ rest. TextStops (stream O.contents O.fault_count out.old) (stream O.contents O.fault_count out.new) refusal
        (concat (map (line_of prepared.now show player.old.chars pieces) (first_of first rest))))) }
    ensures forest { iter.new.forest ≡ iter.old.forest }
    ensures later { O.fault_count out.old ≤ O.fault_count out.new }
{
    let limit = limit_of(first);
    for _k in 0..limit {
        let Ok(more) = next_line(prepared, player, iter, tellers, line, steps) else {
            return Err(WriteRefusal::NoMemory);
        };
        if !more {
            return Ok(false);
        }
        let Ok(()) = write_line(out, line) else {
            return Err(WriteRefusal::WriteFault);
        };
    }
    match first {
        Some(_) => Ok(true),
        None => Err(WriteRefusal::NoMemory),
    }
}

// Whether a teller is of a kind.
fn is_of(show: Show, teller: &Box<dyn Teller>) -> bool
    ensures { IsTrue result ↔ (shows teller.now ≡ show) }
{
    teller.kind() == show
}

/// Keeps the teller of the kind.
pub fn keep_teller(show: Show, tellers: &mut Vec<Box<dyn Teller>>)
    requires { AreBothTellers (states tellers.old.items shows held) }
    ensures { states tellers.new.items shows held ≡ (show, []) ∷ [] }
{
    if is_of(show, &tellers[0]) {
        tellers.truncate(1);
    } else {
        tellers.swap_remove(0);
    }
}

// How many lines are written at most.
fn limit_of(first: Option<u32>) -> u64
    ensures some { IfSome first (λ n. result ≡ n) }
    ensures none { IsNone first → suc result ≡ 2 ^ 64 }
{
    match first {
        Some(count) => u64::from(count),
        None => u64::MAX,
    }
}
