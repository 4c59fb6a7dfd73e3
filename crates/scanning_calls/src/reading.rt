//! What a recognizer takes and tells.
ghost use Rattle.std.specs.Prelude.{◌≡◌, ◌<◌, OnOk, IfOk};
ghost use Rattle.earley_sets.specs.Recognizer.{earleme_of};
ghost use Rattle.marpa_script.specs.Machines.{reading};
ghost use Rattle.scanning_calls.specs.Calls.{ExpectedAnswers, PlaceAnswers, TokenAnswers};
ghost use Rattle.scanning_calls.specs.Machines.{begun_again, ReadsOver};

use crate::ScanRefusal;
use earley_sets::{AlternativeRefusal, Recce, expected_are_acceptable};
use grammar_core::{SymbolId, Written};
use grammar_model::LAST_PLACE;
use slif_base::Steps;
use std::alloc::Global;
use std::sync::ledger::{Blank, Ledger};

/// Takes a token that begins at the place.
pub fn take_token(
    w: &Written,
    recce: &mut Recce<'_>,
    symbol: u32,
    length: u32,
) -> Result<(), ScanRefusal>
    requires { ReadsOver w.now recce.old }
    ensures answers { TokenAnswers (reading w.now recce.old) symbol length result (reading w.now recce.new) }
    ensures reads { ReadsOver w.now recce.new }
    ensures flat { recce.new.flat ≡ recce.old.flat }
{
    expected_are_acceptable();
    if recce.place() >= LAST_PLACE {
        return Err(ScanRefusal::TooMany);
    }
    match recce.alternative(SymbolId(symbol), length) {
        Ok(()) => Ok(()),
        Err(AlternativeRefusal::Unexpected) => Err(ScanRefusal::Unexpected),
        Err(AlternativeRefusal::Duplicate) => Err(ScanRefusal::Duplicate),
        Err(AlternativeRefusal::BadLength) => Err(ScanRefusal::BadLength),
        Err(AlternativeRefusal::NoMemory) => Err(ScanRefusal::NoMemory),
    }
}

/// Goes to the next place, on a counter of its own, and tells it.
pub fn go_on<L: Ledger>(
    blank: Blank,
    w: &Written,
    recce: &mut Recce<'_>,
) -> Result<u32, ScanRefusal>
    requires name { blank.name ≡ L.name }
    requires parts { blank.parts ≡ L.parts }
    requires some { 0 < blank.parts }
    requires reads { ReadsOver w.now recce.old }
    ensures answers { PlaceAnswers (reading w.now recce.old) result (reading w.now recce.new) }
    ensures reads { ReadsOver w.now recce.new }
    ensures flat { recce.new.flat ≡ recce.old.flat }
{
    if recce.place() >= LAST_PLACE {
        return Err(ScanRefusal::TooMany);
    }
    let mut steps = Steps::<L>::of_blank(blank);
    match recce.complete_earleme(&mut steps) {
        Ok(()) => Ok(recce.place()),
        Err(_) => Err(ScanRefusal::NoMemory),
    }
}

/// The terminals that are acceptable at the place.
pub fn list_expected(
    alloc: Global,
    w: &Written,
    recce: &Recce<'_>,
) -> Result<Vec<SymbolId>, ScanRefusal>
    requires { ReadsOver w.now recce.now }
    ensures { ExpectedAnswers (reading w.now recce.now) result (reading w.now recce.now) }
{
    w.known();
    expected_are_acceptable();
    let _place = recce.place();
    match recce.expected(alloc) {
        Ok(symbols) => Ok(symbols),
        Err(_) => Err(ScanRefusal::NoMemory),
    }
}

/// Goes back to place 0, without tokens.
pub fn begin_again(w: &Written, recce: &mut Recce<'_>)
    requires { ReadsOver w.now recce.old }
    ensures again { reading w.now recce.new ≡ begun_again (reading w.now recce.old) }
    ensures reads { ReadsOver w.now recce.new }
    ensures flat { recce.new.flat ≡ recce.old.flat }
{
    let _grammar = w;
    recce.restart();
}
