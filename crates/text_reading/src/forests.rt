// The forest of a reading.
ghost use Rattle.std.specs.Prelude.{◌≡◌, ℕ, ◌+◌, ◌≤◌, ◌∷◌, [], List, None, length, map, IfOk, IfErr, IfSome, IsNone, IsTrue, OnOk};
ghost use Rattle.grammar_core.specs.Steps.{step_of};
ghost use Rattle.grammar_model.specs.declared.limits.TheConstants.{LONGEST_INPUT};
ghost use Rattle.scanless.specs.declared.reading.Ending.TheVariants.{End};
ghost use Rattle.run_model.specs.Telling.{no_derivation_text};
ghost use Rattle.text_reading.specs.Refusals.{TellsInput, IsNoDerivation};
ghost use Rattle.grammar_model.specs.Trees.{Tree};
ghost use Rattle.run_model.specs.Listing.{first_of};
ghost use Rattle.forest_parts.specs.Given.{items_in};
ghost use Rattle.bocage.specs.Given.{AreGivenFor};
ghost use Rattle.text_reading.specs.Parts.{HasFirst, HasForest, HasOnly, BuildsWithin, HoldsSome, AreExpectedOf, IsSomeReading, ForGiven};

use crate::Refusal;
use crate::inputs::append_names;
use bocage::{Forest, ForestRefusal};
use bumpalo::Bump;
use earley_sets::trees_are_derivations;
use first_walk::{Walked, first_derivation};
use forest_parts::Given;
use grammar_core::TreeStep;
use grammar_model::Ranking;
use scanless::{Prepared, Reading, expected_lexemes};
use slif_base::{Chars, Steps};
use std::alloc::{AllocError, Global};
use std::sync::ledger::Ledger;

/// The forest of the derivations, in the arena, whatever lexemes were given for the reading; or the input ended without one.
pub fn forest_of<'r, L: Ledger>(
    alloc: Global,
    arena: &'r Bump,
    prepared: &'r Prepared,
    ranking: Ranking,
    chars: &Chars,
    reading: &'r Reading<'r>,
    steps: &mut Steps<L>,
) -> Result<Forest<'r>, Refusal>
    requires few { length chars.now ≤ LONGEST_INPUT }
    requires read { IsSomeReading prepared.now chars.now reading.now.recce
        reading.now.spans.items End }
    ensures forest { IfOk result (λ f.
        ForGiven prepared.now chars.now reading.now.recce reading.now.spans.items End
        (λ given. HasForest prepared.now given ranking chars.now reading.now.spans.items f)) }
    ensures refused { IfErr result (λ refusal.
        ForGiven prepared.now chars.now reading.now.recce reading.now.spans.items End
        (λ given. TellsInput (IsNoDerivation prepared.now given ranking chars.now) refusal)) }
    ensures counted { BuildsWithin prepared.now.g1 ranking reading.now.recce
        steps.old steps.new }
{
    let before = Given::new(alloc);
    forest_after(
        alloc, arena, prepared, ranking, chars, reading, &before, steps,
    )
}

/// The same, where some hidden items were brought back before: they count as steps that were taken.
pub fn forest_after<'r, L: Ledger>(
    alloc: Global,
    arena: &'r Bump,
    prepared: &'r Prepared,
    ranking: Ranking,
    chars: &Chars,
    reading: &'r Reading<'r>,
    before: &Given,
    steps: &mut Steps<L>,
) -> Result<Forest<'r>, Refusal>
    requires few { length chars.now ≤ LONGEST_INPUT }
    requires read { IsSomeReading prepared.now chars.now reading.now.recce
        reading.now.spans.items End }
    requires before { AreGivenFor prepared.now.g1 ranking reading.now.recce before.now }
    ensures forest { IfOk result (λ f.
        ForGiven prepared.now chars.now reading.now.recce reading.now.spans.items End
        (λ given. HasForest prepared.now given ranking chars.now reading.now.spans.items f)) }
    ensures refused { IfErr result (λ refusal.
        ForGiven prepared.now chars.now reading.now.recce reading.now.spans.items End
        (λ given. TellsInput (IsNoDerivation prepared.now given ranking chars.now) refusal)) }
    ensures counted { (start : ℕ) → steps.old ≡ start + items_in before.now →
        BuildsWithin prepared.now.g1 ranking reading.now.recce start steps.new }
{
    trees_are_derivations();
    prepared.known();
    let _flat = prepared.flat();
    let _place = reading.recce.place();
    // The characters stand in the contract alone.
    let _ = chars;
    match Forest::build_after(
        alloc,
        arena,
        &reading.recce,
        prepared.written(),
        ranking,
        before,
        steps,
    ) {
        Ok(forest) => Ok(forest),
        Err(ForestRefusal::NoParse) => Err(no_derivation(alloc, prepared, reading)?),
        Err(ForestRefusal::NoMemory) => Err(Refusal::NoMemory),
    }
}

// Whether a first derivation is all that is told of so many of the first.
fn is_all_asked(first: Option<u32>, alone: bool) -> bool
    ensures { IsTrue result → (tree : Tree) (others : List Tree) → (IsTrue alone → others ≡ []) →
        first_of first (tree ∷ others) ≡ tree ∷ [] }
{
    match first {
        Some(0) => false,
        Some(1) => true,
        _ => alone,
    }
}

/// The first derivation, found without a forest, and whether it is the only one; or the input ended without one. With `only` the answer
/// may be `None` where there are others. Hidden items that were brought back stand in `before`.
pub fn first_of<L: Ledger>(
    alloc: Global,
    prepared: &Prepared,
    ranking: Ranking,
    only: bool,
    chars: &Chars,
    reading: &Reading<'_>,
    before: &mut Given,
    steps: &mut Steps<L>,
) -> Result<Option<Walked>, Refusal>
    requires few { length chars.now ≤ LONGEST_INPUT }
    requires read { IsSomeReading prepared.now chars.now reading.now.recce
        reading.now.spans.items End }
    requires before { before.old ≡ [] }
    ensures first { IfOk result (λ found. IfSome found (λ walked.
        ForGiven prepared.now chars.now reading.now.recce reading.now.spans.items End
        (λ given. HasFirst prepared.now given ranking chars.now reading.now.spans.items
        reading.now.recce (map step_of walked.steps.items) walked.alone))) }
    ensures none { IfOk result (λ found. IsNone found → IsTrue only) }
    ensures refused { IfErr result (λ refusal.
        ForGiven prepared.now chars.now reading.now.recce reading.now.spans.items End
        (λ given. TellsInput (IsNoDerivation prepared.now given ranking chars.now) refusal)) }
    ensures before { OnOk result (AreGivenFor prepared.now.g1 ranking reading.now.recce before.new) }
    ensures told { OnOk result (steps.new ≡ steps.old + items_in before.new) }
    ensures counted { BuildsWithin prepared.now.g1 ranking reading.now.recce steps.old steps.new }
{
    trees_are_derivations();
    prepared.known();
    let _flat = prepared.flat();
    let _place = reading.recce.place();
    // The characters stand in the contract alone.
    let _ = chars;
    if !reading.recce.at_end() {
        return Err(no_derivation(alloc, prepared, reading)?);
    }
    let found = first_derivation(
        alloc,
        &reading.recce,
        prepared.written(),
        ranking,
        only,
        before,
        steps,
    )?;
    Ok(found)
}

/// The steps of the first derivation, where it is all that is told of so many of the first, or of all; or the input ended without one.
/// Hidden items that were brought back stand in `before`.
pub fn only_of<L: Ledger>(
    alloc: Global,
    prepared: &Prepared,
    ranking: Ranking,
    first: Option<u32>,
    chars: &Chars,
    reading: &Reading<'_>,
    before: &mut Given,
    steps: &mut Steps<L>,
) -> Result<Option<Vec<TreeStep>>, Refusal>
    requires few { length chars.now ≤ LONGEST_INPUT }
    requires read { IsSomeReading prepared.now chars.now reading.now.recce
        reading.now.spans.items End }
    requires before { before.old ≡ [] }
    ensures only { IfOk result (λ found. IfSome found (λ list.
        ForGiven prepared.now chars.now reading.now.recce reading.now.spans.items End
        (λ given. HasOnly prepared.now given ranking first chars.now reading.now.spans.items
        reading.now.recce (map step_of list.items)))) }
    ensures refused { IfErr result (λ refusal.
        ForGiven prepared.now chars.now reading.now.recce reading.now.spans.items End
        (λ given. TellsInput (IsNoDerivation prepared.now given ranking chars.now) refusal)) }
    ensures before { OnOk result (AreGivenFor prepared.now.g1 ranking reading.now.recce before.new) }
    ensures told { OnOk result (steps.new ≡ steps.old + items_in before.new) }
    ensures counted { BuildsWithin prepared.now.g1 ranking reading.now.recce steps.old steps.new }
{
    match first_of(
        alloc,
        prepared,
        ranking,
        first != Some(1),
        chars,
        reading,
        before,
        steps,
    ) {
        Ok(Some(walked)) if is_all_asked(first, walked.alone) => Ok(Some(walked.steps)),
        Ok(_) => Ok(None),
        Err(refusal) => Err(refusal),
    }
}

// The refusal where there is no derivation.
fn no_derivation(
    alloc: Global,
    prepared: &Prepared,
    reading: &Reading<'_>,
) -> Result<Refusal, AllocError>
    requires { HoldsSome prepared.now reading.now.recce }
    ensures { IfOk result (TellsInput (λ text place expected. AreExpectedOf prepared.now
        reading.now.recce expected ×
        (text ≡ no_derivation_text prepared.now.g1 expected) × (place ≡ None))) }
{
    prepared.known();
    let expected = expected_lexemes(alloc, prepared, &reading.recce)?;
    let mut text = Vec::from_slice(alloc, b"input ended without a derivation; expected: ")?;
    append_names(prepared.written(), &expected, &mut text)?;
    Ok(Refusal::Input {
        text,
        place: None,
        expected,
    })
}
