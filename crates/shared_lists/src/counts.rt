//! How many numbers of a list that rises are below a bound.
ghost use Rattle.std.specs.Prelude.{◌≡◌, ℕ, ◌<◌, ◌≤◌, Bool, true, false, length, slice_index, slice_get, OnOk};
ghost use Rattle.std.specs.Fn.{ComputesKey};
ghost use Rattle.std.specs.List.{AllWithin, HoldsAt};
ghost use Rattle.std.specs.List.Sorted.{IsPartitionedBy, IsPartitionPoint};
ghost use Rattle.kernels.specs.Slots.{Rises};
ghost use Rattle.shared_lists.specs.Counted.{IsCount, AreCounts};

use std::alloc::AllocFailed;

// Of so many elements the first that a test fails at is found by going through them, and of more by binary search.
const FEW: usize = 8;

// The first place of some where a test fails, or their end.
#[inline(always)]
fn first_failing<T, P: Fn(&T) -> bool>(list: &[T], start: usize, end: usize, test: &P) -> usize
    requires test { P.IsAlwaysCallable test.now }
    requires order { start ≤ end }
    requires bound { end ≤ length list.now }
    ensures after { start ≤ result }
    ensures within { result ≤ end }
    ensures passed { (p : T → Bool) → ComputesKey P.FnMut p test.now →
        AllWithin (λ x. p x ≡ true) list.now start result }
    ensures failed { (p : T → Bool) → ComputesKey P.FnMut p test.now → result < end →
        HoldsAt (λ x. p x ≡ false) list.now result }
{
    for place in start..end {
        if !test(&list[place]) {
            return place;
        }
    }
    end
}

/// How many elements pass a test, where those that pass it come first.
#[inline(always)]
pub fn count_while<T, P: Fn(&T) -> bool>(list: &[T], test: P) -> usize
    requires { P.IsAlwaysCallable test }
    ensures bound { result ≤ length list.now }
    ensures partitioned { (p : T → Bool) → ComputesKey P.FnMut p test →
        IsPartitionedBy p list.now →
        IsPartitionPoint (λ x. p x ≡ true) (λ x. p x ≡ false) list.now result }
{
    if list.len() <= FEW {
        first_failing(list, 0, list.len(), &test)
    } else {
        list.partition_point(test)
    }
}

/// How many elements pass a test, where so many do. Of those after them a few are gone through, and then all are searched.
#[inline(always)]
pub fn count_while_from<T, P: Fn(&T) -> bool>(list: &[T], start: usize, test: P) -> usize
    requires test { P.IsAlwaysCallable test }
    requires start { start ≤ length list.now }
    ensures bound { result ≤ length list.now }
    ensures partitioned { (p : T → Bool) → ComputesKey P.FnMut p test →
        IsPartitionedBy p list.now → AllWithin (λ x. p x ≡ true) list.now 0 start →
        IsPartitionPoint (λ x. p x ≡ true) (λ x. p x ≡ false) list.now result }
{
    let near = start.saturating_add(FEW).min(list.len());
    let place = first_failing(list, start, near, &test);
    if place < near || near == list.len() {
        place
    } else {
        list.partition_point(test)
    }
}

/// How many numbers are below a bound.
pub fn count(list: &[u32], bound: u32) -> usize
    requires { Rises list.now }
    ensures bound { result ≤ length list.now }
    ensures below { (k : ℕ) → k < result → slice_index list.now k < bound }
    ensures above { (k : ℕ) → result ≤ k → k < length list.now → bound ≤ slice_index list.now k }
{
    count_while(list, |n| *n < bound)
}

// How many numbers are below a bound, where so many are.
fn count_from(list: &[u32], start: usize, bound: u32) -> usize
    requires row { Rises list.now }
    requires start { start ≤ length list.now }
    requires below { (k : ℕ) → k < start → slice_index list.now k < bound }
    ensures { IsCount list.now bound result }
{
    count_while_from(list, start, |n| *n < bound)
}

fn count_at(counts: &[u32], bound: u32) -> Option<u32>
    ensures { result ≡ slice_get counts.now bound }
{
    counts.get(bound as usize).copied()
}

/// How many numbers are below a bound, by the counts where they reach so far.
pub fn count_by(list: &[u32], counts: &[u32], bound: u32) -> usize
    requires row { Rises list.now }
    requires counts { AreCounts list.now counts.now }
    ensures bound { result ≤ length list.now }
    ensures below { (k : ℕ) → k < result → slice_index list.now k < bound }
    ensures above { (k : ℕ) → result ≤ k → k < length list.now → bound ≤ slice_index list.now k }
{
    match count_at(counts, bound) {
        Some(number) => number as usize,
        None => count(list, bound),
    }
}

/// Counts what is below each of so many bounds, from 0 on, in place of what it held.
pub fn list_counts(list: &[u32], bounds: u32, counts: &mut Vec<u32>) -> Result<(), AllocFailed<u32>>
    requires { Rises list.now }
    ensures { OnOk result (AreCounts list.now counts.new.items) }
{
    counts.clear();
    let mut start = 0;
    for bound in 0..bounds {
        start = count_from(list, start, bound);
        counts.push(start as u32)?;
    }
    Ok(())
}
