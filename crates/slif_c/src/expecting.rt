//! What could come next, as C calls it.
ghost use Rattle.std.specs.Prelude.{◌≡◌, ◌<◌, None, IfOk, IfErr, IfSome, List, ℕ, [], length};
ghost use Rattle.text_reading.specs.Refusals.{IsInputRefusedAt};
ghost use Rattle.slif_parser.specs.declared.error.ParseError.{ParseError as Error};
ghost use Rattle.slif_parser.specs.Errors.{TellsInput};
ghost use Rattle.c_handles.specs.Copying.{overlaid};
ghost use Rattle.slif_c.specs.Exports.{IsTold};
ghost use Rattle.slif_c.specs.Parsed.{AreExpectedAfter};

use c_handles::codes::{EMPTY, OK};
use c_handles::{Fault, GrammarHandle, copy_numbers, tell};
use slif_parser::{Grammar, ParseError, SymbolId};
use std::alloc::Global;
use std::mem;

// The lexemes that could come after an input.
fn expected_after(
    alloc: Global,
    grammar: &Grammar,
    input: &[u8],
) -> Result<Vec<SymbolId>, ParseError>
    ensures expected { IfOk result (λ symbols. AreExpectedAfter grammar.now input.now symbols.items) }
    ensures refused { IfErr result (TellsInput (IsInputRefusedAt grammar.now [] input.now)) }
{
    match grammar.read(alloc, input) {
        Ok(reading) => {
            let symbols = reading.expected(alloc);
            drop(reading);
            match symbols {
                Ok(symbols) => Ok(symbols),
                Err(_) => Err(ParseError::NoMemory),
            }
        }
        Err(error) => Err(error),
    }
}

// Tells what could come after an input.
fn expect_into(
    alloc: Global,
    grammar: &Grammar,
    input: &[u8],
    symbols: &mut [u32],
    count: &mut usize,
    fault: &mut Fault,
    message: &mut [u8],
) -> u32
    ensures expected { result ≡ 0 → (all : List ℕ) × AreExpectedAfter grammar.now input.now all ×
        (symbols.new ≡ overlaid all symbols.old) × (count.new ≡ length all) }
    ensures untold { result ≡ 0 → (fault.new ≡ fault.old) × (message.new ≡ message.old) }
    ensures refused { 0 < result → (error : Error) ×
        TellsInput (IsInputRefusedAt grammar.now [] input.now) error ×
        IsTold error result fault.old fault.new message.old message.new symbols.old symbols.new }
    ensures kept { 0 < result → count.new ≡ count.old }
{
    match expected_after(alloc, grammar, input) {
        Ok(all) => {
            copy_numbers(&all, symbols);
            *count = all.len();
            OK
        }
        Err(error) => tell(&error, fault, message, symbols),
    }
}

/// Reads an input, and tells which lexemes could come after it, as many as there is room for, and how many they are. Where
/// the input is refused, those that could come at that place are told as the fault says.
#[unsafe(no_mangle)]
pub extern "C" fn slif_expected(
    alloc: Global,
    grammar: &mut GrammarHandle,
    input: &[u8],
    symbols: &mut [u32],
    count: &mut usize,
    fault: &mut Fault,
    message: &mut [u8],
) -> u32
    ensures same { grammar.new.held ≡ grammar.old.held }
    ensures empty { grammar.old.held ≡ None → (result ≡ 6) × (fault.new ≡ fault.old) ×
        (message.new ≡ message.old) × (symbols.new ≡ symbols.old) }
    ensures expected { IfSome grammar.old.held (λ b. result ≡ 0 → (all : List ℕ) ×
        AreExpectedAfter b input.now all × (symbols.new ≡ overlaid all symbols.old) ×
        (count.new ≡ length all)) }
    ensures untold { IfSome grammar.old.held (λ b. result ≡ 0 → (fault.new ≡ fault.old) ×
        (message.new ≡ message.old)) }
    ensures refused { IfSome grammar.old.held (λ b. 0 < result → (error : Error) ×
        TellsInput (IsInputRefusedAt b [] input.now) error × IsTold error result
        fault.old fault.new message.old message.new symbols.old symbols.new) }
    ensures kept { 0 < result → count.new ≡ count.old }
{
    match mem::replace(grammar, GrammarHandle::empty(alloc)).into_box() {
        None => EMPTY,
        Some(held) => {
            let code = expect_into(alloc, held.grammar(), input, symbols, count, fault, message);
            *grammar = GrammarHandle::of(held);
            code
        }
    }
}
