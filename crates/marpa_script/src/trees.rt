//! The lines of derivations, each written as one piece.
ghost use Rattle.std.specs.Prelude.{◌≡◌, ◌<◌, ◌≤◌, ◌++◌, ◌∷◌, [], List, Err, codes, decimal, length, map, take, IfOk, OnOk, OnErr};
ghost use Rattle.std.specs.List.{concat};
ghost use Rattle.std.specs.Io.KnownBytes.{Appends};
ghost use Rattle.outside_model.specs.Causes.{Rose};
ghost use Rattle.outside_model.specs.Told.{AppendsPrefix};
ghost use Rattle.grammar_model.specs.Trees.{Tree};
ghost use Rattle.tree_iter.specs.Iteration.{AreGiven};
ghost use Rattle.script_model.specs.Replies.{TreesReply};
ghost use Rattle.marpa_script.specs.Machines.{reading, ReadsBy};
ghost use Rattle.marpa_script.specs.Written.{Replied, BreaksOff};
ghost use Rattle.marpa_script.specs.Listed.{IsTreeLine, TellsTrees, TellsAll, IsOver};
ghost use Rattle.marpa_script.specs.declared.refusal.ScriptRefusal.TheVariants.{WriteFault};

use crate::ScriptRefusal;
use crate::answers::{write_count, write_piece};
use bocage::{Forest, ForestRefusal};
use bumpalo::Bump;
use earley_sets::{Recce, trees_are_derivations};
use grammar_core::Written;
use grammar_model::Ranking;
use script_trees::TreeLines;
use slif_base::{Sink, Steps};
use std::alloc::{AllocError, Global};
use std::sync::ledger::Ledger;
use tree_iter::TreeIter;

// Goes to the next derivation and puts its line in place of what the line held; answers whether there is one.
fn next_tree<L: Ledger>(
    w: &Written,
    iter: &mut TreeIter<'_>,
    lines: &mut TreeLines,
    line: &mut Vec<u8>,
    steps: &mut Steps<L>,
) -> Result<bool, AllocError>
    requires over { IsOver w.now iter.old.forest }
    requires given { (given : List Tree) × AreGiven iter.old given }
    ensures line { IfOk result (λ more. (given : List Tree) → AreGiven iter.old given → IsTreeLine w.now iter.new given line.new.items more) }
    ensures forest { iter.new.forest ≡ iter.old.forest }
{
    w.known();
    if !iter.next(steps)? {
        return Ok(false);
    }
    lines.put_line(w, iter.current_steps(), line)?;
    Ok(true)
}

// Writes the lines of so many of the first derivations, or of all, and answers how many there were.
fn write_trees<K: Sink, L: Ledger>(
    w: &Written,
    count: u32,
    iter: &mut TreeIter<'_>,
    lines: &mut TreeLines,
    line: &mut Vec<u8>,
    out: &mut K,
    steps: &mut Steps<L>,
) -> Result<u32, ScriptRefusal>
    requires over { IsOver w.now iter.old.forest }
    requires begun { AreGiven iter.old [] }
    ensures told { IfOk result (λ n. TellsTrees w.now iter.old.forest count
        (λ told text. (n ≡ told) × Appends (K.contents out.old) (K.contents out.new) text)) }
    ensures breaks { OnErr result (TellsTrees w.now iter.old.forest count (λ _ text. AppendsPrefix (K.contents out.old) (K.contents out.new) text)) }
    ensures fault { result ≡ Err WriteFault → Rose (K.fault_count out.old) (K.fault_count out.new) }
    ensures later { K.fault_count out.old ≤ K.fault_count out.new }
{
    for told in 0..count {
        let Ok(more) = next_tree(w, iter, lines, line, steps) else {
            return Err(ScriptRefusal::NoMemory);
        };
        if !more {
            return Ok(told);
        }
        match write_piece(line, out) {
            Ok(()) => {}
            Err(refusal) => return Err(refusal),
        }
    }
    Ok(count)
}

// Writes the lines of so many of the first derivations of a forest, or of all, and how many there were.
fn tell_trees<K: Sink, L: Ledger>(
    alloc: Global,
    w: &Written,
    forest: &Forest<'_>,
    count: u32,
    line: &mut Vec<u8>,
    out: &mut K,
    steps: &mut Steps<L>,
) -> Result<(), ScriptRefusal>
    requires { IsOver w.now forest.now }
    ensures told { OnOk result (TellsAll w.now forest.now count (Appends (K.contents out.old) (K.contents out.new))) }
    ensures breaks { OnErr result (TellsAll w.now forest.now count (AppendsPrefix (K.contents out.old) (K.contents out.new))) }
    ensures fault { result ≡ Err WriteFault → Rose (K.fault_count out.old) (K.fault_count out.new) }
    ensures later { K.fault_count out.old ≤ K.fault_count out.new }
{
    forest.known();
    let Ok(mut iter) = TreeIter::new(alloc, forest) else {
        return Err(ScriptRefusal::NoMemory);
    };
    let mut lines = TreeLines::new(alloc);
    match write_trees(w, count, &mut iter, &mut lines, line, out, steps) {
        Ok(told) => write_count("trees ", told as usize, line, out),
        Err(refusal) => Err(refusal),
    }
}

/// Plays `trees COUNT`.
pub fn play_trees<K: Sink, L: Ledger>(
    alloc: Global,
    w: &Written,
    recce: &Recce<'_>,
    count: u32,
    line: &mut Vec<u8>,
    out: &mut K,
    steps: &mut Steps<L>,
) -> Result<(), ScriptRefusal>
    requires { ReadsBy w.now recce.now }
    ensures played { OnOk result (Replied (TreesReply (reading w.now recce.now) count) (reading w.now recce.now) (K.contents out.old) (K.contents out.new)) }
    ensures breaks { OnErr result (BreaksOff (TreesReply (reading w.now recce.now) count) (K.contents out.old) (K.contents out.new)) }
    ensures fault { result ≡ Err WriteFault → Rose (K.fault_count out.old) (K.fault_count out.new) }
    ensures later { K.fault_count out.old ≤ K.fault_count out.new }
{
    w.known();
    trees_are_derivations();
    let _place = recce.place();
    let arena = Bump::new(alloc);
    match Forest::build(alloc, &arena, recce, w, Ranking::Rule, steps) {
        Ok(forest) => {
            let told = tell_trees(alloc, w, &forest, count, line, out, steps);
            drop(forest);
            told
        }
        Err(ForestRefusal::NoParse) => write_count("trees ", 0, line, out),
        Err(ForestRefusal::NoMemory) => Err(ScriptRefusal::NoMemory),
    }
}
