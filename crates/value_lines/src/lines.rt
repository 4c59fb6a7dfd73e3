// The line of the next derivation.
ghost use Rattle.std.specs.Prelude.{◌≡◌, ◌<◌, ◌≤◌, ◌++◌, ◌∷◌, [], List, length, map, IfOk, OnOk};
ghost use Rattle.grammar_model.specs.Trees.{Tree};
ghost use Rattle.grammar_model.specs.Steps.{steps_of};
ghost use Rattle.grammar_model.specs.Text.{text_of};
ghost use Rattle.grammar_model.specs.Values.{Value, value_of};
ghost use Rattle.grammar_model.specs.declared.Show.{Show};
ghost use Rattle.grammar_core.specs.Steps.{step_of};
ghost use Rattle.valuator.specs.Play.{AreSteps, tokens_of};
ghost use Rattle.valuator.specs.Told.{HoldsOne, states, line_of as line_held};
ghost use Rattle.reading_model.specs.Reading.{Piece};
ghost use Rattle.tree_iter.specs.Iteration.{AreGiven, IsAnswer, AreFew};
ghost use Rattle.value_lines.specs.Lines.{score_of, IsForestOf, IsLineOf};

use grammar_core::TreeStep;
use scanless::Prepared;
use slif_base::Steps;
use std::alloc::AllocError as NoMemory;
use std::sync::ledger::Ledger;
use tree_iter::TreeIter;
use valuator::{Player, Teller};

fn finish(teller: &mut Box<dyn Teller>, line: &mut Vec<u8>) -> Result<(), NoMemory>
    requires { HoldsOne (held teller.old) }
    ensures line { OnOk result (line.new.items ≡ line.old.items ++ line_held (held teller.old)) }
    ensures held { OnOk result (held teller.new ≡ []) }
    ensures kind { shows teller.new ≡ shows teller.old }
{
    teller.finish(line)
}

// Appends the line of the one value that the one teller holds, which then holds nothing.
fn finish_first(tellers: &mut Vec<Box<dyn Teller>>, line: &mut Vec<u8>) -> Result<(), NoMemory>
    requires { (show : Show) × (v : Value) × (states tellers.old.items shows held ≡ (show, v ∷ []) ∷ []) }
    ensures line { (show : Show) (v : Value) →
        states tellers.old.items shows held ≡ (show, v ∷ []) ∷ [] →
        OnOk result (line.new.items ≡ line.old.items ++ (text_of v ++ 10 ∷ [])) }
    ensures tellers { (show : Show) (v : Value) →
        states tellers.old.items shows held ≡ (show, v ∷ []) ∷ [] →
        OnOk result (states tellers.new.items shows held ≡ (show, []) ∷ []) }
{
    finish(&mut tellers[0], line)
}

/// Appends the line of the derivation that has these steps.
pub fn append_line(
    player: &mut Player<'_>,
    list: &[TreeStep],
    tellers: &mut Vec<Box<dyn Teller>>,
    line: &mut Vec<u8>,
) -> Result<(), NoMemory>
    requires list { AreSteps player.old.grammar (length player.old.spans) (map step_of list.now) }
    requires tellers { (show : Show) × (states tellers.old.items shows held ≡ (show, []) ∷ []) }
    ensures tellers { OnOk result (states tellers.new.items shows held ≡ states tellers.old.items shows held) }
    ensures line { (show : Show) (t : Tree) →
        states tellers.old.items shows held ≡ (show, []) ∷ [] →
        map step_of list.now ≡ steps_of t → OnOk result (line.new.items ≡
        line.old.items ++ (text_of (value_of show player.old.grammar player.old.meaning (tokens_of player.old.chars player.old.spans) t) ++ 10 ∷ [])) }
    ensures player { player.new ≡ player.old }
{
    player.play(list, tellers)?;
    finish_first(tellers, line)
}

/// Goes to the next derivation of a reading's forest and puts its line in place of what `line` held; answers whether there is one.
/// The player is that of the reading; `tellers` is one teller that holds nothing, and does so again after an `Ok`.
pub fn next_line<L: Ledger>(
    prepared: &Prepared,
    player: &mut Player<'_>,
    iter: &mut TreeIter<'_>,
    tellers: &mut Vec<Box<dyn Teller>>,
    line: &mut Vec<u8>,
    steps: &mut Steps<L>,
) -> Result<bool, NoMemory>
    requires player { player.old ≡ score_of prepared.now player.old.chars player.old.spans }
    requires forest { (pieces : List Piece) × IsForestOf prepared.now player.old.chars player.old.spans iter.old.forest pieces }
    requires given { (given : List Tree) × AreGiven iter.old given }
    requires tellers { (show : Show) × (states tellers.old.items shows held ≡ (show, []) ∷ []) }
    ensures line { IfOk result (λ more. (show : Show) (pieces : List Piece) (given : List Tree) → states tellers.old.items shows held ≡ (show, []) ∷ [] →
        IsForestOf prepared.now player.old.chars player.old.spans iter.old.forest pieces →
        AreGiven iter.old given →
        IsLineOf prepared.now show player.old.chars pieces iter.new given line.new.items more) }
    ensures answer { IfOk result (λ more. (given : List Tree) → AreGiven iter.old given → IsAnswer iter.new given more) }
    ensures counted { IfOk result (λ more. (given : List Tree) → AreGiven iter.old given → AreFew iter.new given more steps.old steps.new) }
    ensures forest { iter.new.forest ≡ iter.old.forest }
    ensures player { player.new ≡ player.old }
    ensures tellers { OnOk result (states tellers.new.items shows held ≡ states tellers.old.items shows held) }
{
    prepared.known();
    if !iter.next(steps)? {
        return Ok(false);
    }
    line.clear();
    append_line(player, iter.current_steps(), tellers, line)?;
    Ok(true)
}
