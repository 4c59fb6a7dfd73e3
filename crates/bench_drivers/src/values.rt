//! A long list in a pool, and its text.
ghost use Rattle.std.specs.Prelude.{◌<◌, length, IfOk};

use std::alloc::Global;
use std::time::Instant;
use value_text::{NoMemory, Pool, ValueId, append_text};

// A list of the numbers below the count.
fn put_numbers(alloc: Global, pool: &mut Pool, count: u32) -> Result<ValueId, NoMemory>
    ensures { IfOk result (λ id. id < length pool.new) }
{
    let mut ids = Vec::new(alloc);
    for n in 0..count {
        let id = pool.num(u64::from(n))?;
        ids.push(id)?;
    }
    pool.list(ids.as_slice())
}

/// Puts the list, appends its text, and prints its length, and in which time.
pub(crate) fn write_values(rt: &HostRuntime, count: u32, timed: bool) -> Result<(), anyhow::Error> {
    let begun = Instant::now(rt)?;
    let mut pool = Pool::new(rt.alloc());
    let list = put_numbers(rt.alloc(), &mut pool, count)?;
    let mut out = Vec::new(rt.alloc());
    append_text(&pool, list, &mut out)?;
    let took = begun.elapsed(rt)?;
    println!(rt; "bytes {}", out.len())?;
    if timed {
        println!(rt; "us {}", took.as_micros())?;
    }
    Ok(())
}
