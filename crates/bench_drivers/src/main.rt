//! Drivers of single parts, for the clock. Reads so many tokens by one of eight grammars, and prints the number of items of all sets;
//! or puts a list of so many numbers into a pool, and prints the length of its text. Several can be done in one run. With the
//! word `time` after them each prints how long it took; with the word `forest` the forest is built, too, and the number of its
//! nodes and the time that this took are printed.
//!
//!     bench_drivers left TOKENS     S -> S a | a
//!     bench_drivers right TOKENS    S -> a S | a
//!     bench_drivers sum TOKENS      E -> E '+' N | N
//!     bench_drivers twice OPERANDS  E -> E '+' E | N
//!     bench_drivers json OBJECTS    an array of objects
//!     bench_drivers deep ARRAYS     arrays in arrays, by the same grammar
//!     bench_drivers brackets DEPTH  B -> ( B ) | x
//!     bench_drivers operators ROUNDS  the operator table, fifteen tokens a round
//!     bench_drivers long PLACES     S -> a, with one token of so many places
//!     bench_drivers values NUMBERS  a list in a pool
#![tactic(auto)]

mod grammar;
mod reading;
mod values;

ghost use Rattle.std.specs.Prelude.{◌≡◌, ◌<◌, length};
ghost use Rattle.grammar_model.specs.Checked.{IsChecked};
ghost use Rattle.recognizer_model.specs.FlatForm.{IsFlatOf};

use crate::grammar::{flat_of, written_of};
use crate::reading::{Word, item_count, read_all};
use crate::values::write_values;
use anyhow::bail;
use bocage::Forest;
use bumpalo::Bump;
use earley_sets::Recce;
use grammar_core::{Flat, Written};
use grammar_model::Ranking;
use slif_base::Steps;
use std::env;
use std::marker::Brand;
use std::sync::ledger::{Blank, Ledger};
use std::time::Instant;

// The words of the command line without the program's own name.
fn words_of(rt: &HostRuntime) -> Result<Vec<String>, anyhow::Error> {
    let mut words = Vec::new(rt.alloc());
    for word in env::args(rt)?.skip(1) {
        words.push(word)?;
    }
    Ok(words)
}

// What came of a run. Times are in microseconds.
#[derive(Clone, Copy)]
struct Outcome {
    place: u32,
    items: usize,
    at_end: bool,
    time: u128,
    /// nodes, and the time of building
    forest: Option<(usize, u128)>,
}

// The number of nodes of the forest, and how long it took.
fn build<'r, L: Ledger>(
    rt: &HostRuntime,
    recce: &'r Recce<'r>,
    w: &'r Written,
    steps: &mut Steps<L>,
) -> Result<(usize, u128), anyhow::Error>
    requires checked { IsChecked w.now }
    requires flat { IsFlatOf recce.now.flat w.now }
{
    let begun = Instant::now(rt)?;
    let arena = Bump::new(rt.alloc());
    let forest = Forest::build(rt.alloc(), &arena, recce, w, Ranking::Rule, steps)?;
    let took = begun.elapsed(rt);
    let nodes = forest.node_count();
    drop(forest);
    Ok((nodes, took?.as_micros()))
}

// What came of reading in so much time, and of building the forest, if it is to be built.
fn outcome_of<L: Ledger>(
    rt: &HostRuntime,
    recce: &Recce<'_>,
    w: &Written,
    time: u128,
    builds: bool,
    steps: &mut Steps<L>,
) -> Result<Outcome, anyhow::Error>
    requires checked { IsChecked w.now }
    requires flat { IsFlatOf recce.now.flat w.now }
{
    let forest = if builds {
        Some(build(rt, recce, w, steps)?)
    } else {
        None
    };
    Ok(Outcome {
        place: recce.place(),
        items: item_count(recce),
        at_end: recce.at_end(),
        time,
        forest,
    })
}

// Reads the tokens, and tells how long it took.
fn read_timed<L: Ledger>(
    rt: &HostRuntime,
    begun: Instant,
    recce: &mut Recce<'_>,
    word: Word,
    count: u32,
    steps: &mut Steps<L>,
) -> Result<u128, anyhow::Error>
    ensures { recce.new.flat ≡ recce.old.flat }
{
    read_all(recce, word, count, steps)?;
    Ok(begun.elapsed(rt)?.as_micros())
}

// What came of reading the tokens, and of building the forest, if it is to be built.
fn outcome_in<L: Ledger>(
    rt: &HostRuntime,
    begun: Instant,
    recce: &mut Recce<'_>,
    w: &Written,
    word: Word,
    count: u32,
    builds: bool,
    steps: &mut Steps<L>,
) -> Result<Outcome, anyhow::Error>
    requires checked { IsChecked w.now }
    requires flat { IsFlatOf recce.old.flat w.now }
{
    let time = read_timed(rt, begun, recce, word, count, steps)?;
    outcome_of(rt, recce, w, time, builds, steps)
}

// Reads the tokens, and may build the forest.
fn run<L: Ledger>(
    rt: &HostRuntime,
    w: &Written,
    flat: &Flat,
    word: Word,
    count: u32,
    builds: bool,
    steps: &mut Steps<L>,
) -> Result<Outcome, anyhow::Error>
    requires checked { IsChecked w.now }
    requires flat { IsFlatOf flat.now w.now }
    requires start { 0 < length flat.now.tops }
{
    let begun = Instant::now(rt)?;
    let mut recce = Recce::new(rt.alloc(), flat, 0)?;
    let outcome = outcome_in(rt, begun, &mut recce, w, word, count, builds, steps);
    drop(recce);
    outcome
}

fn run_with<L: Ledger>(
    rt: &HostRuntime,
    blank: Blank,
    w: &Written,
    flat: &Flat,
    word: Word,
    count: u32,
    builds: bool,
) -> Result<Outcome, anyhow::Error>
    requires name { blank.name ≡ L.name }
    requires parts { blank.parts ≡ L.parts }
    requires some { 0 < blank.parts }
    requires checked { IsChecked w.now }
    requires flat { IsFlatOf flat.now w.now }
    requires start { 0 < length flat.now.tops }
{
    let mut steps = Steps::<L>::of_blank(blank);
    run(rt, w, flat, word, count, builds, &mut steps)
}

fn print(rt: &HostRuntime, outcome: Outcome, timed: bool) -> Result<(), anyhow::Error> {
    println!(rt; "place {}", outcome.place)?;
    println!(rt; "items {}", outcome.items)?;
    println!(rt; "at end {}", outcome.at_end)?;
    if timed {
        println!(rt; "us {}", outcome.time)?;
    }
    if let Some((nodes, time)) = outcome.forest {
        println!(rt; "nodes {nodes}")?;
        println!(rt; "forest us {time}")?;
    }
    Ok(())
}

// Reads the tokens that the name and the count tell.
fn read_tokens(
    rt: &HostRuntime,
    name: &str,
    count: u32,
    timed: bool,
    builds: bool,
) -> Result<(), anyhow::Error> {
    let word = Word::named(name)?;
    let written = written_of(rt.alloc(), &word.language())?;
    let flat = flat_of(rt.alloc(), &written)?;
    let count = word.places(count);
    let outcome = run_with::<Brand>(rt, Blank::new(1), &written, &flat, word, count, builds)?;
    print(rt, outcome, timed)
}

fn main(rt: HostRuntime) -> Result<(), anyhow::Error> {
    let words = words_of(&rt)?;
    if words.len() < 2 {
        bail!("a word and a count are wanted");
    }
    let timed = words.len() % 2 == 1;
    let builds = timed && words[words.len() - 1].as_str() == "forest";
    for k in 0..words.len() / 2 {
        let count = words[2 * k + 1].parse::<u32>()?;
        match words[2 * k].as_str() {
            "values" => write_values(&rt, count, timed)?,
            name => read_tokens(&rt, name, count, timed, builds)?,
        }
    }
    Ok(())
}
