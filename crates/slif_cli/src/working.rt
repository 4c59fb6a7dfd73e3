// Job `work`, which has a grammar and an input of its own. None of them is refused.
ghost use Rattle.std.specs.Prelude.{◌≡◌, ◌≤◌, ◌∷◌, [], ℕ, length, chars as chars_in, IfOk, IfErr, OnOk};
ghost use Rattle.earley_sets.specs.Counted.{TakesAtMost};
ghost use Rattle.run_model.specs.Jobs.{work_grammar, work_input};
ghost use Rattle.run_model.specs.Refused.{Accepted};
ghost use Rattle.run_model.specs.Outcome.{IsWorkOutcome, done};
ghost use Rattle.run_model.specs.Within.{WorkWithin};
ghost use Rattle.run_model.specs.Outside.{stream};
ghost use Rattle.scanless.specs.Reading.{IsReadingOf};
ghost use Rattle.scanless.specs.declared.reading.Ending.TheVariants.{End};
ghost use Rattle.tellings.specs.Stops.{Does, WriteStops};
ghost use Rattle.slif_cli.specs.Tasks.{WorksWithin};

use bumpalo::Bump;
use grammar_model::Ranking;
use scanless::{Prepared, Reading};
use slif_base::{Chars, Sink, Steps};
use std::alloc::{AllocError, Global};
use std::sync::ledger::Ledger;
use tellings::{Stop, write_lines};
use text_reading::{Refusal, forest_of, input_chars, read_grammar, read_text};
use value_lines::{count_derivations, work_line};

const GRAMMAR: &[u8] = b"L ::= I L | I\nI ::= 'a' | '(' L ')'\n";

/// Reads an input of that size, and writes the line of its numbers and of how many derivations it has.
#[inline(never)]
pub fn work_of_size<'a, O: Sink, L: Ledger>(
    alloc: Global,
    size: u32,
    out: &mut O,
    steps: &mut Steps<L>,
) -> Result<(), Stop<'a>>
    requires { size ≤ 100000 }
    ensures done { OnOk result (Does (IsWorkOutcome size) (O.contents out.old) (O.contents out.new)) }
    ensures stops { IfErr result (WriteStops (IsWorkOutcome size)
        (stream O.contents O.fault_count out.old) (stream O.contents O.fault_count out.new)) }
    ensures counted { OnOk result (WorksWithin size steps.old steps.new) }
    ensures out_later { O.fault_count out.old ≤ O.fault_count out.new }
{
    let line = line_of_size(alloc, size, steps)?;
    write_lines(&[line], out)
}

fn line_of_size<L: Ledger>(
    alloc: Global,
    size: u32,
    steps: &mut Steps<L>,
) -> Result<Vec<u8>, AllocError>
    requires { size ≤ 100000 }
    ensures line { IfOk result (λ line. IsWorkOutcome size (done (line.items ∷ []))) }
    ensures counted { OnOk result (WorksWithin size steps.old steps.new) }
{
    let prepared = own_grammar(alloc)?;
    let line = line_by(alloc, size, &prepared, steps);
    drop(prepared);
    line
}

fn line_by<L: Ledger>(
    alloc: Global,
    size: u32,
    prepared: &Prepared,
    steps: &mut Steps<L>,
) -> Result<Vec<u8>, AllocError>
    requires size { size ≤ 100000 }
    requires grammar { Accepted work_grammar prepared.now }
    ensures line { IfOk result (λ line. IsWorkOutcome size (done (line.items ∷ []))) }
    ensures counted { OnOk result (WorksWithin size steps.old steps.new) }
{
    let chars = own_chars(alloc, size)?;
    line_of_chars(alloc, size, prepared, &chars, steps)
}

fn line_of_chars<L: Ledger>(
    alloc: Global,
    size: u32,
    prepared: &Prepared,
    chars: &Chars,
    steps: &mut Steps<L>,
) -> Result<Vec<u8>, AllocError>
    requires size { size ≤ 100000 }
    requires grammar { Accepted work_grammar prepared.now }
    requires chars { chars.now ≡ chars_in (work_input size) }
    ensures line { IfOk result (λ line. IsWorkOutcome size (done (line.items ∷ []))) }
    ensures counted { OnOk result (WorksWithin size steps.old steps.new) }
{
    let reading = own_reading(alloc, size, prepared, chars, steps)?;
    let line = line_of_reading(alloc, size, prepared, chars, &reading, steps);
    drop(reading);
    line
}

// What stops job `work`.
fn no_memory(refusal: Refusal) -> AllocError
    requires { refusal ≡ Refusal.NoMemory }
{
    match refusal {
        Refusal::NoMemory => AllocError,
        _ => unreachable!(),
    }
}

fn own_grammar(alloc: Global) -> Result<Prepared, AllocError>
    ensures { IfOk result (Accepted work_grammar) }
{
    match read_grammar(alloc, GRAMMAR) {
        Ok(prepared) => Ok(prepared),
        Err(refusal) => Err(no_memory(refusal)),
    }
}

fn own_chars(alloc: Global, size: u32) -> Result<Chars, AllocError>
    requires { size ≤ 100000 }
    ensures { IfOk result (λ chars. chars ≡ chars_in (work_input size)) }
{
    let bytes = work_bytes(alloc, size as usize)?;
    match input_chars(alloc, bytes) {
        Ok(chars) => Ok(chars),
        Err(refusal) => Err(no_memory(refusal)),
    }
}

fn work_bytes(alloc: Global, size: usize) -> Result<Vec<u8>, AllocError>
    requires { size ≤ 100000 }
    ensures { IfOk result (λ bytes. bytes.items ≡ work_input size) }
{
    let mut bytes = vec![in alloc; b'a'; size]?;
    bytes.resize(2 * size, b'(')?;
    bytes.push(b'a')?;
    bytes.resize(3 * size + 1, b')')?;
    Ok(bytes)
}

fn own_reading<'p, L: Ledger>(
    alloc: Global,
    size: u32,
    prepared: &'p Prepared,
    chars: &Chars,
    steps: &mut Steps<L>,
) -> Result<Reading<'p>, AllocError>
    requires size { size ≤ 100000 }
    requires grammar { Accepted work_grammar prepared.now }
    requires chars { chars.now ≡ chars_in (work_input size) }
    ensures read { IfOk result (λ r. IsReadingOf prepared.now chars.now r.recce r.spans.items End) }
    ensures counted { IfOk result (λ r. TakesAtMost r.recce steps.old steps.new) }
{
    // The size stands in the contract alone.
    let _ = size;
    match read_text(alloc, prepared, chars, steps) {
        Ok(reading) => Ok(reading),
        Err(refusal) => Err(no_memory(refusal)),
    }
}

fn line_of_reading<L: Ledger>(
    alloc: Global,
    size: u32,
    prepared: &Prepared,
    chars: &Chars,
    reading: &Reading<'_>,
    steps: &mut Steps<L>,
) -> Result<Vec<u8>, AllocError>
    requires size { size ≤ 100000 }
    requires grammar { Accepted work_grammar prepared.now }
    requires chars { chars.now ≡ chars_in (work_input size) }
    requires read { IsReadingOf prepared.now chars.now reading.now.recce reading.now.spans.items End }
    ensures line { IfOk result (λ line. IsWorkOutcome size (done (line.items ∷ []))) }
    ensures counted { OnOk result ((before : ℕ) → TakesAtMost reading.now.recce before steps.old → WorkWithin prepared.now size before steps.new) }
{
    let _place = reading.recce.place();
    let arena = Bump::new(alloc);
    let forest = match forest_of(
        alloc,
        &arena,
        prepared,
        Ranking::Rule,
        chars,
        reading,
        steps,
    ) {
        Ok(forest) => forest,
        Err(refusal) => return Err(no_memory(refusal)),
    };
    forest.known();
    let stats = forest.stats(alloc)?;
    let Ok(values) = count_derivations(alloc, &forest, steps) else {
        return Err(AllocError);
    };
    work_line(alloc, size, &stats, values)
}
