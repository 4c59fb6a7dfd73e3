// The lexemes that job `slip` gives.
ghost use Rattle.std.specs.Prelude.{◌≡◌, ◌≤◌, ◌<◌, ◌++◌, ◌∷◌, [], ◌↔◌, ⊤, length, is_some, IsTrue, IfOk, IfErr, OnOk};
ghost use Rattle.words_model.specs.Words.{names_between};
ghost use Rattle.run_model.specs.Given.{AreGiven, unnamed_text};
ghost use Rattle.run_model.specs.Inputs.{input_limit};
ghost use Rattle.command_line.specs.Jobs.{names_told};
ghost use Rattle.earley_sets.specs.Counted.{TakesAtMost};
ghost use Rattle.scanless.specs.Reading.{IsReadingOfWith};
ghost use Rattle.scanless.specs.declared.reading.Ending.TheVariants.{End};
ghost use Rattle.text_reading.specs.Parts.{IsStopText};
ghost use Rattle.text_reading.specs.Refusals.{TellsInput};
ghost use Rattle.slif_cli.specs.Giving.{NamesStop};
ghost use Rattle.tellings.specs.Stops.{StopsBy, OfGrammar};

use grammar_core::SymbolId;
use grammar_model::{LONGEST_GIVEN, LONGEST_INPUT};
use scanless::{Prepared, Reading};
use slif_base::{Chars, Steps};
use slippers::Supplier;
use std::alloc::{AllocError, Global};
use std::sync::ledger::Ledger;
use tellings::{Refusal, Stop};
use text_reading::{lexeme_named, read_supplied, read_text};

/// The lexemes with the names that are given.
pub fn lexemes_given<'a>(
    alloc: Global,
    prepared: &Prepared,
    names: Option<&str>,
) -> Result<Vec<SymbolId>, Stop<'a>>
    ensures given { IfOk result (λ lexemes. AreGiven prepared.now (names_told names.entry)
        lexemes.items) }
    ensures stops { IfErr result (NamesStop prepared.now (names_told names.entry)) }
{
    match names {
        Some(names) => lexemes_named(alloc, prepared, names),
        None => Ok(Vec::new(alloc)),
    }
}

// The lexemes with the names between the commas.
fn lexemes_named<'a>(
    alloc: Global,
    prepared: &Prepared,
    names: &str,
) -> Result<Vec<SymbolId>, Stop<'a>>
    ensures given { IfOk result (λ lexemes. AreGiven prepared.now (names_between names.now)
        lexemes.items) }
    ensures stops { IfErr result (NamesStop prepared.now (names_between names.now)) }
{
    let mut lexemes = Vec::new(alloc);
    for name in names.split(',') {
        let Some(symbol) = lexeme_named(prepared, name) else {
            return Err(unnamed(alloc, name));
        };
        add(symbol, &mut lexemes)?;
    }
    Ok(lexemes)
}

fn add(symbol: SymbolId, lexemes: &mut Vec<SymbolId>) -> Result<(), AllocError>
    ensures { OnOk result (lexemes.new.items ≡ lexemes.old.items ++ symbol ∷ []) }
{
    lexemes.push(symbol)?;
    Ok(())
}

// How the work stops where no lexeme has the name.
fn unnamed<'a>(alloc: Global, name: &str) -> Stop<'a>
    ensures { StopsBy (OfGrammar (λ text. text ≡ unnamed_text name.now)) (λ asked. ⊥) ⊥ ⊥ ⊤ result }
{
    match no_lexeme_text(alloc, name) {
        Ok(text) => Stop::Refused(Refusal::Grammar { text }),
        Err(_) => Stop::NoMemory,
    }
}

fn no_lexeme_text(alloc: Global, name: &str) -> Result<Vec<u8>, AllocError>
    ensures { IfOk result (λ text. text.items ≡ unnamed_text name.now) }
{
    let text = format!(in alloc; "grammar: {name} is not a lexeme")?;
    Ok(text.into_bytes())
}

/// The greatest length of the input, in bytes.
pub fn limit_with(lexemes: &[SymbolId]) -> usize
    ensures { result ≡ input_limit lexemes.now }
{
    if lexemes.is_empty() {
        LONGEST_INPUT
    } else {
        LONGEST_GIVEN
    }
}

/// Reads a text to its end, where there is a supplier with what it supplies of these lexemes.
pub fn read_with<'p, L: Ledger>(
    alloc: Global,
    prepared: &'p Prepared,
    chars: &Chars,
    lexemes: &[SymbolId],
    supplier: Option<Box<dyn Supplier>>,
    steps: &mut Steps<L>,
) -> Result<Reading<'p>, text_reading::Refusal>
    requires few { length chars.now ≤ input_limit lexemes.now }
    requires names { length lexemes.now ≤ 8 }
    requires both { IsTrue (is_some supplier) ↔ (0 < length lexemes.now) }
    ensures read { IfOk result (λ r. IsReadingOfWith prepared.now lexemes.now chars.now r.recce
        r.spans.items End) }
    ensures counted { IfOk result (λ r. TakesAtMost r.recce steps.old steps.new) }
    ensures refused { IfErr result (TellsInput
        (IsStopText prepared.now lexemes.now chars.now)) }
{
    match supplier {
        None => read_text(alloc, prepared, chars, steps),
        Some(supplier) => read_supplied(alloc, prepared, chars, lexemes, supplier, steps),
    }
}
