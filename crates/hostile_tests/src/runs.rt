//! Runs with a teller of each kind. A library may not hand out tellers of its own making, so each crate of tests has them here.
ghost use Rattle.std.specs.Prelude.{IfOk};
ghost use Rattle.valuator.specs.Told.{states};
ghost use Rattle.value_lines.specs.Writing.{AreBothTellers};

use run_scenes::{Ended, Given, run_with};
use slippers::{ListSupplier, Supplier};
use std::alloc::{AllocError, Global};
use valuator::{ArrayTeller, Teller, TreeTeller};

/// A teller of each kind.
pub(crate) fn both_tellers(alloc: Global) -> Result<Vec<Box<dyn Teller>>, AllocError>
    ensures { IfOk result (λ tellers. AreBothTellers (states tellers.items shows held)) }
{
    let array: Box<dyn Teller> = Box::new(alloc, ArrayTeller::new(alloc))?;
    let tree: Box<dyn Teller> = Box::new(alloc, TreeTeller::new(alloc))?;
    let mut tellers = Vec::new(alloc);
    tellers.push(array)?;
    tellers.push(tree)?;
    Ok(tellers)
}

/// A supplier without lexemes, which keeps them in a list.
pub(crate) fn list_supplier(alloc: Global) -> Result<Box<dyn Supplier>, AllocError> {
    let supplier: Box<dyn Supplier> = Box::new(alloc, ListSupplier::new(alloc))?;
    Ok(supplier)
}

pub(crate) fn run_of(alloc: Global, given: &Given<'_>) -> Result<Ended, AllocError> {
    run_with(alloc, given, both_tellers(alloc)?, list_supplier(alloc)?)
}

/// How many names of files a run asks for.
pub(crate) fn asked(alloc: Global, given: &Given<'_>) -> Result<usize, AllocError> {
    Ok(run_of(alloc, given)?.asked())
}

/// Whether a run ends so.
pub(crate) fn ends(
    alloc: Global,
    given: &Given<'_>,
    status: u8,
    out: &[u8],
    err: &[u8],
) -> Result<bool, AllocError> {
    Ok(run_of(alloc, given)?.is(status, out, err))
}
