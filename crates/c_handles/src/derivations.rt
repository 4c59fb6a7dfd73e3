//! Some of the derivations of an input that is read.
ghost use Rattle.std.specs.Prelude.{◌≡◌, ◌<◌, ◌∷◌, ◌++◌, [], List, Some, IfOk, IfErr, IsFalse, IsSome, IsTrue, OnOk, length, map};
ghost use Rattle.grammar_model.specs.Steps.{steps_of};
ghost use Rattle.grammar_model.specs.Trees.{Tree};
ghost use Rattle.tree_iter.specs.Iteration.{AreGiven};
ghost use Rattle.text_reading.specs.Refusals.{IsNoDerivation};
ghost use Rattle.slif_parser.specs.Errors.{TellsInput};
ghost use Rattle.slif_parser.specs.Readings.{AreAll, IsDerivedAs, IsFirst};
ghost use Rattle.slif_parser.specs.Shown.{shown_line};
ghost use Rattle.c_handles.specs.Kept.{AreSome, IsOne, laid_tree, lines_of};

use crate::Parse;
use crate::steps::laid_steps;
use slif_parser::{
    Derivations, Derived, First, Forest, NoMemory, ParseError, Ranking, Reading, Show,
};
use std::alloc::Global;

// Passes over so many derivations, and answers whether there are as many.
fn pass(derivations: &mut Derivations<'_>, count: u64) -> Result<bool, NoMemory>
    requires { AreGiven derivations.old.iteration [] }
    ensures passed { IfOk result (λ all. IsTrue all →
        (given : List Tree) × AreGiven derivations.new.iteration given × (length given ≡ count)) }
    ensures short { IfOk result (λ all. IsFalse all →
        (trees : List Tree) × AreAll derivations.new trees × (length trees < count)) }
    ensures read { derivations.new.read ≡ derivations.old.read }
    ensures forest { derivations.new.iteration.forest ≡ derivations.old.iteration.forest }
{
    'passed: for _ in 0..count {
        if !derivations.next()? {
            return Ok(false);
        }
    }
    Ok(true)
}

// The line of the current derivation.
fn line_of(alloc: Global, derivations: &Derivations<'_>, show: Show) -> Result<Vec<u8>, NoMemory>
    requires { IsSome derivations.now.iteration.current }
    ensures { IfOk result (λ line. (t : Tree) → derivations.now.iteration.current ≡ Some (steps_of t) →
        line.items ≡ shown_line derivations.now.read show t) }
{
    let mut line = Vec::new(alloc);
    derivations.append_line(alloc, show, &mut line)?;
    Ok(line)
}

// Keeps the line of the current derivation, where lines are shown.
fn keep_line(
    alloc: Global,
    derivations: &Derivations<'_>,
    shown: Option<Show>,
    lines: &mut Vec<Vec<u8>>,
) -> Result<(), NoMemory>
    requires { IsSome derivations.now.iteration.current }
    ensures { (t : Tree) → derivations.now.iteration.current ≡ Some (steps_of t) → OnOk result
        (map (λ line. line.items) lines.new.items ≡ map (λ line. line.items) lines.old.items ++
        lines_of derivations.now.read shown (t ∷ [])) }
{
    match shown {
        Some(show) => {
            lines.push(line_of(alloc, derivations, show)?)?;
            Ok(())
        }
        None => Ok(()),
    }
}

// Keeps the current derivation.
fn keep(
    alloc: Global,
    reading: &Reading<'_>,
    derivations: &Derivations<'_>,
    shown: Option<Show>,
    parse: &mut Parse,
) -> Result<(), NoMemory>
    requires { IsSome derivations.now.iteration.current }
    ensures steps { (t : Tree) → derivations.now.iteration.current ≡ Some (steps_of t) → OnOk result
        (map (λ steps. steps.items) parse.new.derivations.items ≡
        map (λ steps. steps.items) parse.old.derivations.items ++ laid_tree reading.now t ∷ []) }
    ensures lines { (t : Tree) → derivations.now.iteration.current ≡ Some (steps_of t) → OnOk result
        (map (λ line. line.items) parse.new.lines.items ≡ map (λ line. line.items) parse.old.lines.items ++
        lines_of derivations.now.read shown (t ∷ [])) }
    ensures more { parse.new.more ≡ parse.old.more }
{
    let steps = laid_steps(alloc, reading, derivations.steps())?;
    parse.derivations.push(steps)?;
    keep_line(alloc, derivations, shown, &mut parse.lines)
}

// The next so many derivations, or those that are left.
fn gather(
    alloc: Global,
    reading: &Reading<'_>,
    derivations: &mut Derivations<'_>,
    shown: Option<Show>,
    most: u64,
) -> Result<Parse, NoMemory>
    requires { derivations.old.read ≡ reading.now }
    ensures { IfOk result (λ parse. (given : List Tree) →
        AreGiven derivations.old.iteration given → AreSome reading.now
        derivations.old.iteration.forest.ranking shown (length given) most parse) }
{
    let mut parse = Parse::none(alloc);
    'kept: for _ in 0..most {
        if !derivations.next()? {
            return Ok(parse);
        }
        keep(alloc, reading, derivations, shown, &mut parse)?;
    }
    let more = derivations.next()?;
    derivations.known();
    parse.more = more;
    Ok(parse)
}

// At most so many derivations of a forest, behind so many.
fn some_of(
    alloc: Global,
    reading: &Reading<'_>,
    forest: &Forest<'_>,
    shown: Option<Show>,
    skip: u64,
    most: u64,
) -> Result<Parse, NoMemory>
    requires { forest.now.read ≡ reading.now }
    ensures { IfOk result (AreSome reading.now forest.now.forest.ranking shown skip most) }
{
    let mut derivations = forest.derivations(alloc)?;
    if pass(&mut derivations, skip)? {
        gather(alloc, reading, &mut derivations, shown, most)
    } else {
        Ok(Parse::none(alloc))
    }
}

// The line of the first derivation.
fn first_line(alloc: Global, first: &First<'_>, show: Show) -> Result<Vec<u8>, NoMemory>
    ensures { IfOk result (λ line. (t : Tree) → first.now.steps ≡ steps_of t →
        line.items ≡ shown_line first.now.read show t) }
{
    let mut line = Vec::new(alloc);
    first.append_line(alloc, show, &mut line)?;
    Ok(line)
}

// The lines of the first derivation, where lines are shown.
fn first_lines(
    alloc: Global,
    first: &First<'_>,
    shown: Option<Show>,
) -> Result<Vec<Vec<u8>>, NoMemory>
    ensures { (t : Tree) → first.now.steps ≡ steps_of t → IfOk result (λ lines.
        map (λ line. line.items) lines.items ≡ lines_of first.now.read shown (t ∷ [])) }
{
    let mut lines = Vec::new(alloc);
    match shown {
        Some(show) => {
            lines.push(first_line(alloc, first, show)?)?;
            Ok(lines)
        }
        None => Ok(lines),
    }
}

// The first derivation alone.
fn one_of(
    alloc: Global,
    reading: &Reading<'_>,
    first: &First<'_>,
    shown: Option<Show>,
) -> Result<Parse, NoMemory>
    requires { first.now.read ≡ reading.now }
    ensures { IfOk result (IsOne reading.now shown first.now) }
{
    let steps = laid_steps(alloc, reading, first.steps())?;
    let mut derivations = Vec::new(alloc);
    derivations.push(steps)?;
    let lines = first_lines(alloc, first, shown)?;
    Ok(Parse {
        derivations,
        lines,
        more: !first.is_only(),
    })
}

// At most so many, behind so many, of one derivation.
fn some_of_only(
    alloc: Global,
    reading: &Reading<'_>,
    only: &First<'_>,
    shown: Option<Show>,
    skip: u64,
    most: u64,
) -> Result<Parse, NoMemory>
    requires read { only.now.read ≡ reading.now }
    requires only { IsTrue only.now.only }
    ensures { IfOk result (λ parse. (ranking : Ranking) → IsFirst reading.now ranking only.now →
        AreSome reading.now ranking shown skip most parse) }
{
    if skip > 0 {
        return Ok(Parse::none(alloc));
    }
    if most == 0 {
        let mut parse = Parse::none(alloc);
        parse.more = true;
        return Ok(parse);
    }
    one_of(alloc, reading, only, shown)
}

// At most so many of the derivations, behind so many.
fn some_derived(
    alloc: Global,
    reading: &Reading<'_>,
    derived: &Derived<'_>,
    shown: Option<Show>,
    skip: u64,
    most: u64,
) -> Result<Parse, NoMemory>
    requires { (ranking : Ranking) × IsDerivedAs reading.now ranking derived.now }
    ensures { IfOk result (λ parse. (ranking : Ranking) →
        IsDerivedAs reading.now ranking derived.now →
        AreSome reading.now ranking shown skip most parse) }
{
    match derived {
        Derived::Only(only) => some_of_only(alloc, reading, only, shown, skip, most),
        Derived::Forest(forest) => some_of(alloc, reading, forest, shown, skip, most),
    }
}

// The first derivation, for which no forest is built.
fn derive_first(
    alloc: Global,
    reading: &Reading<'_>,
    ranking: Ranking,
    shown: Option<Show>,
) -> Result<Parse, ParseError>
    ensures some { IfOk result (AreSome reading.now ranking shown 0 1) }
    ensures refused { IfErr result (TellsInput
        (IsNoDerivation reading.now.grammar reading.now.lexemes ranking reading.now.characters)) }
{
    let first = match reading.first(alloc, ranking) {
        Ok(first) => first,
        Err(error) => return Err(error),
    };
    match one_of(alloc, reading, &first, shown) {
        Ok(parse) => Ok(parse),
        Err(_) => Err(ParseError::NoMemory),
    }
}

/// At most so many derivations of an input that is read, behind so many, with their lines where they are to be shown. No forest is built
/// where there is only one, or the first alone is asked for.
pub fn derive(
    alloc: Global,
    reading: &Reading<'_>,
    ranking: Ranking,
    shown: Option<Show>,
    skip: u64,
    most: u64,
) -> Result<Parse, ParseError>
    ensures some { IfOk result (AreSome reading.now ranking shown skip most) }
    ensures refused { IfErr result (TellsInput
        (IsNoDerivation reading.now.grammar reading.now.lexemes ranking reading.now.characters)) }
{
    if skip == 0 && most == 1 {
        return derive_first(alloc, reading, ranking, shown);
    }
    let derived = match reading.derived(alloc, ranking) {
        Ok(derived) => derived,
        Err(error) => return Err(error),
    };
    match some_derived(alloc, reading, &derived, shown, skip, most) {
        Ok(parse) => Ok(parse),
        Err(_) => Err(ParseError::NoMemory),
    }
}
