//! Reading a text with a supplier.
ghost use Rattle.std.specs.Prelude.{◌≡◌, ℕ, ◌+◌, ◌≤◌, List, length, IfOk, OnOk, IsTrue};
ghost use Rattle.grammar_model.specs.declared.limits.TheConstants.{LONGEST_GIVEN};
ghost use Rattle.reading_model.specs.Reading.{Piece};
ghost use Rattle.earley_sets.specs.Recognizer.{earleme_of};
ghost use Rattle.earley_sets.specs.Counted.{CountsFrom, TakesAtMost};
ghost use Rattle.scanless.specs.Reading.{HasRead, IsReadingOfWith};
ghost use Rattle.slippers.specs.Stock.{told, Offers};
ghost use Rattle.slippers.specs.Supplied.{IsSupplied, IsReadOver};

use crate::Supplier;
use grammar_core::SymbolId;
use grammar_model::LAST_PLACE;
use scanless::{Prepared, Reader, Reading};
use slif_base::{Chars, Steps};
use std::alloc::{AllocError, Global};
use std::sync::ledger::Ledger;

// Asks for a lexeme at a place.
fn ask(
    supplier: &mut Box<dyn Supplier>,
    at: u32,
    expected: &[SymbolId],
) -> Result<Option<SymbolId>, AllocError>
    ensures { IfOk result (λ offered. Offers (stock supplier.old) at expected.now offered
        (stock supplier.new)) }
{
    supplier.offer(at, expected)
}

// Reads on, and takes what is supplied where reading is stuck, until reading is over. It tells the lexemes that are found where reading
// stops.
fn read_over<L: Ledger>(
    alloc: Global,
    reader: &mut Reader<'_>,
    chars: &Chars,
    supplier: &mut Box<dyn Supplier>,
    steps: &mut Steps<L>,
) -> Result<Option<Vec<SymbolId>>, AllocError>
    requires few { length chars.now ≤ LONGEST_GIVEN }
    requires names { length (stock supplier.old).names ≤ 8 }
    requires begun { IsSupplied chars.now reader.old (stock supplier.old) }
    ensures grammar { reader.new.grammar ≡ reader.old.grammar }
    ensures over { IfOk result (λ found. IsReadOver (stock supplier.old).names chars.now reader.new
        found) }
    ensures counted { OnOk result ((before : ℕ) → CountsFrom reader.old.recce before steps.old →
        CountsFrom reader.new.recce before steps.new) }
{
    for _ in 0..LAST_PLACE {
        let found = reader.read_on(alloc, chars, steps)?;
        if found.is_none() && reader.has_derivation() {
            return Ok(None);
        }
        let Some(symbol) = ask(supplier, reader.at() as u32, reader.expected())? else {
            return Ok(found);
        };
        reader.supply(symbol, steps)?;
    }
    unreachable!()
}

/// Reads a text. Where reading is stuck, the supplier is asked for a lexeme, at the character where it stands; what it gives is a token of
/// no characters. Where the text is read and its tokens have a derivation, nothing more is supplied. The supplier is let go at the end.
pub fn read_slipping<'p, L: Ledger>(
    alloc: Global,
    p: &'p Prepared,
    chars: &Chars,
    mut supplier: Box<dyn Supplier>,
    steps: &mut Steps<L>,
) -> Result<Reading<'p>, AllocError>
    requires few { length chars.now ≤ LONGEST_GIVEN }
    requires names { length (stock supplier).names ≤ 8 }
    requires begun { stock supplier ≡ told (stock supplier).names }
    ensures reading { IfOk result (λ r. IsReadingOfWith p.now (stock supplier).names chars.now
        r.recce r.spans.items r.ending) }
    ensures counted { IfOk result (λ r. TakesAtMost r.recce steps.old steps.new) }
{
    let mut reader = match Reader::new(alloc, p) {
        Ok(reader) => reader,
        Err(error) => {
            drop(supplier);
            return Err(error);
        }
    };
    let read = read_over(alloc, &mut reader, chars, &mut supplier, steps);
    drop(supplier);
    match read {
        Ok(found) => reader.finish(alloc, found),
        Err(error) => {
            drop(reader);
            Err(error)
        }
    }
}
