// What is told of an input by a grammar.
ghost use Rattle.std.specs.Prelude.{◌≡◌, ◌≤◌, length, OnOk, IfOk, IfErr};
ghost use Rattle.std.specs.Io.KnownBytes.{Appends};
ghost use Rattle.grammar_model.specs.declared.Ranking.TheVariants.{Rule};
ghost use Rattle.grammar_model.specs.declared.limits.TheConstants.{LONGEST_INPUT};
ghost use Rattle.run_model.specs.Outside.{stream};
ghost use Rattle.slif_glades.specs.Lines.{AreLinesOf};
ghost use Rattle.slif_glades.specs.Told.{marked_text, told_text};
ghost use Rattle.slif_glades.specs.Telling.{AreMarked, IsTold, IsToldOf, IsToldOfInput, IsToldOfReading, IsInputRefused, IsOnly, IsReadingRefused, IsRefused, Stops, TextStops, Writes};

use crate::glade_text::glade_text;
use crate::lines::Lines;
use crate::stop::Stop;
use glade_groups::{marks_of, single_marks};
use slif_base::{Sink, write_all};
use slif_parser::{Forest, Glade, Grammar, Ranking, Reading};
use std::alloc::{AllocError, Global};

/// Tells the glades of an input by a grammar.
pub(crate) fn tell<K: Sink>(
    alloc: Global,
    grammar: &[u8],
    input: &[u8],
    all: bool,
    out: &mut K,
) -> Result<(), Stop>
    ensures told { OnOk result (Writes (IsToldOf all grammar.now input.now)
        (K.contents out.old) (K.contents out.new)) }
    ensures stops { IfErr result (Stops (IsToldOf all grammar.now input.now)
        (IsRefused grammar.now input.now) (stream K.contents K.fault_count out.old)
        (stream K.contents K.fault_count out.new)) }
{
    match Grammar::from_text(alloc, grammar) {
        Ok(grammar) => {
            let told = tell_input(alloc, &grammar, input, all, out);
            drop(grammar);
            told
        }
        Err(error) => Err(Stop::Parse(error)),
    }
}

fn tell_input<K: Sink>(
    alloc: Global,
    grammar: &Grammar,
    input: &[u8],
    all: bool,
    out: &mut K,
) -> Result<(), Stop>
    ensures told { OnOk result (Writes (IsOnly (IsToldOfInput all grammar.now input.now))
        (K.contents out.old) (K.contents out.new)) }
    ensures stops { IfErr result (Stops (IsOnly (IsToldOfInput all grammar.now input.now))
        (IsInputRefused grammar.now input.now) (stream K.contents K.fault_count out.old)
        (stream K.contents K.fault_count out.new)) }
{
    match grammar.read(alloc, input) {
        Ok(reading) => {
            let told = tell_reading(alloc, grammar, &reading, all, out);
            drop(reading);
            told
        }
        Err(error) => Err(Stop::Parse(error)),
    }
}

fn tell_reading<K: Sink>(
    alloc: Global,
    grammar: &Grammar,
    reading: &Reading<'_>,
    all: bool,
    out: &mut K,
) -> Result<(), Stop>
    requires { length reading.now.characters ≤ LONGEST_INPUT }
    ensures told { OnOk result (Writes (IsToldOfReading all grammar.now.g1 reading.now)
        (K.contents out.old) (K.contents out.new)) }
    ensures stops { IfErr result (Stops (IsToldOfReading all grammar.now.g1 reading.now)
        (IsReadingRefused reading.now) (stream K.contents K.fault_count out.old)
        (stream K.contents K.fault_count out.new)) }
{
    match reading.forest(alloc, Ranking::Rule) {
        Ok(forest) => {
            let told = tell_forest(alloc, grammar, &forest, all, out);
            drop(forest);
            told
        }
        Err(error) => Err(Stop::Parse(error)),
    }
}

fn tell_forest<K: Sink>(
    alloc: Global,
    grammar: &Grammar,
    forest: &Forest<'_>,
    all: bool,
    out: &mut K,
) -> Result<(), Stop>
    requires ranking { forest.now.forest.ranking ≡ Rule }
    requires few { length forest.now.read.characters ≤ LONGEST_INPUT }
    ensures told { OnOk result (Writes (IsTold all grammar.now.g1 forest.now.read)
        (K.contents out.old) (K.contents out.new)) }
    ensures stops { IfErr result (Stops (IsTold all grammar.now.g1 forest.now.read) (λ error. ⊥)
        (stream K.contents K.fault_count out.old) (stream K.contents K.fault_count out.new)) }
{
    let glades = forest.glades(alloc)?;
    let marks = marked(alloc, &glades, all)?;
    let lines = Lines::of(alloc, forest.text(0, u32::MAX))?;
    tell_glades(alloc, grammar, forest, &lines, &glades, &marks, out)
}

// The marks of the glades that are told: all, or one of each kind.
fn marked(alloc: Global, glades: &[Glade], all: bool) -> Result<Vec<Option<usize>>, AllocError>
    ensures { IfOk result (λ marks. AreMarked all glades.now marks.items) }
{
    if all {
        single_marks(alloc, glades)
    } else {
        marks_of(alloc, glades)
    }
}

// Tells the glades that have a mark, in order.
fn tell_glades<K: Sink>(
    alloc: Global,
    grammar: &Grammar,
    forest: &Forest<'_>,
    lines: &Lines,
    glades: &[Glade],
    marks: &[Option<usize>],
    out: &mut K,
) -> Result<(), Stop>
    requires lines { AreLinesOf forest.now.read.characters lines.now }
    requires long { length marks.now ≡ length glades.now }
    ensures told { OnOk result (Appends (K.contents out.old) (K.contents out.new)
        (told_text grammar.now.g1 forest.now.read glades.now marks.now)) }
    ensures stops { IfErr result (TextStops
        (told_text grammar.now.g1 forest.now.read glades.now marks.now)
        (stream K.contents K.fault_count out.old) (stream K.contents K.fault_count out.new)) }
{
    for (at, glade) in glades.iter().enumerate() {
        tell_glade(alloc, grammar, forest, lines, glade, marks[at], out)?;
    }
    Ok(())
}

// Tells one glade where it has a mark, and how many more there are of its kind.
fn tell_glade<K: Sink>(
    alloc: Global,
    grammar: &Grammar,
    forest: &Forest<'_>,
    lines: &Lines,
    glade: &Glade,
    mark: Option<usize>,
    out: &mut K,
) -> Result<(), Stop>
    requires { AreLinesOf forest.now.read.characters lines.now }
    ensures told { OnOk result (Appends (K.contents out.old) (K.contents out.new)
        (marked_text grammar.now.g1 forest.now.read glade.now mark)) }
    ensures stops { IfErr result (TextStops
        (marked_text grammar.now.g1 forest.now.read glade.now mark)
        (stream K.contents K.fault_count out.old) (stream K.contents K.fault_count out.new)) }
    ensures later { K.fault_count out.old ≤ K.fault_count out.new }
{
    let Some(more) = mark else {
        return Ok(());
    };
    let text = glade_text(alloc, grammar, forest, lines, glade, more)?;
    write_all(out, &text)?;
    Ok(())
}
