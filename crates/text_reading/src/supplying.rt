//! Reading with lexemes that are supplied where it is stuck.
ghost use Rattle.std.specs.Prelude.{◌≡◌, ◌≤◌, length, IfOk, IfErr};
ghost use Rattle.grammar_model.specs.declared.limits.TheConstants.{LONGEST_GIVEN};
ghost use Rattle.earley_sets.specs.Counted.{TakesAtMost};
ghost use Rattle.scanless.specs.Reading.{IsReadingOfWith};
ghost use Rattle.scanless.specs.declared.reading.Ending.TheVariants.{End};
ghost use Rattle.slippers.specs.Stock.{told};
ghost use Rattle.text_reading.specs.Refusals.{TellsInput};
ghost use Rattle.text_reading.specs.Parts.{IsStopText};

use crate::Refusal;
use crate::inputs::whole;
use grammar_core::SymbolId;
use scanless::{Prepared, Reading};
use slif_base::{Chars, Steps};
use slippers::{Supplier, read_slipping};
use std::alloc::{AllocError, Global};
use std::sync::ledger::Ledger;

// The supplier, which is told these lexemes.
fn told_supplier(
    mut supplier: Box<dyn Supplier>,
    lexemes: &[SymbolId],
) -> Result<Box<dyn Supplier>, AllocError>
    ensures { IfOk result (λ s. stock s ≡ told lexemes.now) }
{
    match supplier.tell(lexemes) {
        Ok(()) => Ok(supplier),
        Err(error) => {
            drop(supplier);
            Err(error)
        }
    }
}

/// Reads a text to its end, where the supplier is asked for these lexemes as reading is stuck. It is told them before, and let go at the
/// end.
#[inline(never)]
pub fn read_supplied<'p, L: Ledger>(
    alloc: Global,
    prepared: &'p Prepared,
    chars: &Chars,
    lexemes: &[SymbolId],
    supplier: Box<dyn Supplier>,
    steps: &mut Steps<L>,
) -> Result<Reading<'p>, Refusal>
    requires few { length chars.now ≤ LONGEST_GIVEN }
    requires names { length lexemes.now ≤ 8 }
    ensures read { IfOk result (λ r. IsReadingOfWith prepared.now lexemes.now chars.now r.recce
        r.spans.items End) }
    ensures counted { IfOk result (λ r. TakesAtMost r.recce steps.old steps.new) }
    ensures refused { IfErr result (TellsInput
        (IsStopText prepared.now lexemes.now chars.now)) }
{
    let supplier = told_supplier(supplier, lexemes)?;
    let reading = read_slipping(alloc, prepared, chars, supplier, steps)?;
    whole(alloc, prepared, chars, reading)
}
