// How many derivations there are, and the lines of numbers.
ghost use Rattle.std.specs.Prelude.{◌≡◌, ◌≤◌, ◌+◌, List, length, take, string_bytes, IfOk, OnOk};
ghost use Rattle.std.specs.List.{sum_by};
ghost use Rattle.grammar_model.specs.Trees.{Tree};
ghost use Rattle.recognizer_model.specs.Links.{choices};
ghost use Rattle.forest_model.specs.Listing.{IsListing};
ghost use Rattle.run_model.specs.Telling as told;
ghost use Rattle.value_lines.specs.Counts.{numbers_of};

use bocage::{Forest, Stats};
use slif_base::Steps;
use std::alloc::{AllocError, Global};
use std::sync::ledger::Ledger;
use tree_iter::TreeIter;

/// How many derivations there are, or as many as 32 bits tell.
pub fn count_derivations<L: Ledger>(
    alloc: Global,
    forest: &Forest<'_>,
    steps: &mut Steps<L>,
) -> Result<u32, AllocError>
    ensures count { IfOk result (λ n. (trees : List Tree) → IsListing forest.now trees → n ≡ length (take 4294967295 trees)) }
    ensures counted { OnOk result ((trees : List Tree) → IsListing forest.now trees → steps.new ≤ steps.old + sum_by choices (take 4294967295 trees)) }
{
    forest.known();
    let mut iter = TreeIter::new(alloc, forest)?;
    for count in 0..u32::MAX {
        if !iter.next(steps)? {
            return Ok(count);
        }
    }
    Ok(u32::MAX)
}

fn numbers_text(alloc: Global, stats: &Stats) -> Result<String, AllocError>
    ensures { IfOk result (λ text. string_bytes text ≡ told.numbers_text (numbers_of stats.now)) }
{
    let Stats {
        tokens,
        kept,
        nodes,
        expanded,
    } = *stats;
    format!(in alloc; "tokens {tokens} kept {kept} nodes {nodes} expanded {expanded}")
}

/// The line of the numbers of a reading.
pub fn stats_line(alloc: Global, stats: &Stats) -> Result<Vec<u8>, AllocError>
    ensures { IfOk result (λ line. line.items ≡ told.stats_line (numbers_of stats.now)) }
{
    let numbers = numbers_text(alloc, stats)?;
    let line = format!(in alloc; "stats: {numbers}\n")?;
    Ok(line.into_bytes())
}

/// The line of job `work`: its size, the numbers of its reading, and how many derivations there are.
pub fn work_line(
    alloc: Global,
    size: u32,
    stats: &Stats,
    values: u32,
) -> Result<Vec<u8>, AllocError>
    ensures { IfOk result (λ line. line.items ≡ told.work_line size (numbers_of stats.now) values) }
{
    let numbers = numbers_text(alloc, stats)?;
    let line = format!(in alloc; "work {size}: {numbers} values {values}\n")?;
    Ok(line.into_bytes())
}
