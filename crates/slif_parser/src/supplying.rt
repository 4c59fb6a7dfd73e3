//! An input that is read with a supplier of the caller's own.
ghost use Rattle.std.specs.Prelude.{◌≡◌, ◌<◌, ◌≤◌, length, IfOk, IfErr};
ghost use Rattle.text_reading.specs.Refusals.{IsInputRefusedAt, TellsInput};
ghost use Rattle.slif_parser.specs.Readings.{IsReadAs};

use crate::reading::{copied_chars, reading_of};
use crate::{Reading, Supplier, SymbolId};
use grammar_model::LONGEST_GIVEN;
use scanless::Prepared;
use slif_base::Steps;
use std::alloc::Global;
use std::sync::ledger::{Blank, Ledger};
use text_reading::{Refusal, input_too_long, read_supplied};

/// Reads the bytes of an input with these lexemes given, on a counter of its own.
pub fn read_bytes_with<'g, L: Ledger>(
    blank: Blank,
    alloc: Global,
    prepared: &'g Prepared,
    input: &[u8],
    lexemes: &[SymbolId],
    supplier: Box<dyn Supplier>,
) -> Result<Reading<'g>, Refusal>
    requires name { blank.name ≡ L.name }
    requires parts { blank.parts ≡ L.parts }
    requires counts { 0 < blank.parts }
    requires some { 0 < length lexemes.now }
    requires few { length lexemes.now ≤ 8 }
    ensures read { IfOk result (IsReadAs prepared.now lexemes.now input.now) }
    ensures refused { IfErr result (TellsInput
        (IsInputRefusedAt prepared.now lexemes.now input.now)) }
{
    if input.len() > LONGEST_GIVEN {
        drop(supplier);
        return Err(input_too_long(alloc, LONGEST_GIVEN));
    }
    let chars = match copied_chars(alloc, input) {
        Ok(chars) => chars,
        Err(refusal) => {
            drop(supplier);
            return Err(refusal);
        }
    };
    let mut steps = Steps::<L>::of_blank(blank);
    match read_supplied(alloc, prepared, &chars, lexemes, supplier, &mut steps) {
        Ok(tokens) => Ok(reading_of(alloc, prepared, lexemes, chars, tokens)?),
        Err(refusal) => Err(refusal),
    }
}
