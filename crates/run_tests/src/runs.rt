//! Runs with a teller of each kind. A library may not hand out tellers of its own making, so each crate of tests has them here.
ghost use Rattle.std.specs.Prelude.{IfOk};
ghost use Rattle.valuator.specs.Told.{states};
ghost use Rattle.value_lines.specs.Writing.{AreBothTellers};

use run_scenes::{Ended, Given, run_with};
use slippers::{ListSupplier, Supplier};
use std::alloc::{AllocError, Global};
use valuator::{ArrayTeller, Teller, TreeTeller};

// A teller of each kind.
fn both_tellers(alloc: Global) -> Result<Vec<Box<dyn Teller>>, AllocError>
    ensures { IfOk result (λ tellers. AreBothTellers (states tellers.items shows held)) }
{
    let array: Box<dyn Teller> = Box::new(alloc, ArrayTeller::new(alloc))?;
    let tree: Box<dyn Teller> = Box::new(alloc, TreeTeller::new(alloc))?;
    let mut tellers = Vec::new(alloc);
    tellers.push(array)?;
    tellers.push(tree)?;
    Ok(tellers)
}

// A supplier without lexemes, which keeps them in a list.
fn list_supplier(alloc: Global) -> Result<Box<dyn Supplier>, AllocError> {
    let supplier: Box<dyn Supplier> = Box::new(alloc, ListSupplier::new(alloc))?;
    Ok(supplier)
}

/// Runs what is given, with a teller of each kind and a supplier.
pub(crate) fn run_of(alloc: Global, given: &Given<'_>) -> Result<Ended, AllocError> {
    run_with(alloc, given, both_tellers(alloc)?, list_supplier(alloc)?)
}

/// A run that ends well, and what it tells.
pub(crate) type Told<'a> = (Given<'a>, &'a [u8]);

/// Whether a run ends well and tells these lines.
pub(crate) fn tells(alloc: Global, given: &Given<'_>, lines: &[u8]) -> Result<bool, AllocError> {
    Ok(run_of(alloc, given)?.is(0, lines, b""))
}

/// Whether each run ends well and tells its lines.
pub(crate) fn all_tell(alloc: Global, rows: &[Told<'_>]) -> Result<bool, AllocError> {
    for (given, lines) in rows {
        if !tells(alloc, given, lines)? {
            return Ok(false);
        }
    }
    Ok(true)
}

/// Whether a job tells the lines of each grammar and input.
pub(crate) fn all_told(
    alloc: Global,
    job: &Given<'_>,
    rows: &[(&[u8], &[u8], &[u8])],
) -> Result<bool, AllocError> {
    for (grammar, input, lines) in rows {
        let given = Given {
            grammar,
            input,
            ..*job
        };
        if !tells(alloc, &given, lines)? {
            return Ok(false);
        }
    }
    Ok(true)
}
