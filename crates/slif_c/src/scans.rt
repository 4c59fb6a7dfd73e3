//! Scanners of a program's own, as C calls them.
ghost use Rattle.std.specs.Prelude.{◌≡◌, ◌<◌, None, Some, IfSome, IsUtf8, List, ℕ};
ghost use Rattle.recognizer_model.specs.View.{plain_rule};
ghost use Rattle.script_model.specs.Machine.{blank};
ghost use Rattle.scanning_calls.specs.Calls.{sequence_by, DerivationsAnswer, ExpectedAnswers, PlaceAnswers, RestartAnswers, RuleAnswers, StartAnswers, SymbolAnswers, TokenAnswers};
ghost use Rattle.slif_c.specs.Scans.{answer_code, items_in, length_or, number_or, scan_code, separator_of, text_or, Answered, AreKeptIn, Obeyed, Precomputed};

use c_handles::codes::{
    BAD_LENGTH, BAD_NAME, DUPLICATE, EMPTY, GRAMMAR, NO_MEMORY, NOT_NOW, OK, RANGE, SECOND_START,
    TOO_MANY, UNEXPECTED,
};
use c_handles::{ParseHandle, ScanHandle, boxed_derivations, copy_front, copy_numbers};
use scanning_calls::{ScanRefusal, Scanning};
use std::alloc::Global;
use std::mem;

fn code_of(refusal: ScanRefusal) -> u32
    ensures { result ≡ scan_code refusal }
{
    match refusal {
        ScanRefusal::NotNow => NOT_NOW,
        ScanRefusal::BadSymbol => RANGE,
        ScanRefusal::TooMany => TOO_MANY,
        ScanRefusal::SecondStart => SECOND_START,
        ScanRefusal::BadGrammar => GRAMMAR,
        ScanRefusal::Unexpected => UNEXPECTED,
        ScanRefusal::Duplicate => DUPLICATE,
        ScanRefusal::BadLength => BAD_LENGTH,
        ScanRefusal::NoMemory => NO_MEMORY,
    }
}

// Tells a number that is granted, or why not.
fn tell_number(answer: Result<u32, ScanRefusal>, number: &mut u32) -> u32
    ensures code { result ≡ answer_code answer }
    ensures told { number.new ≡ number_or number.old answer }
{
    match answer {
        Ok(granted) => {
            *number = granted;
            OK
        }
        Err(refusal) => code_of(refusal),
    }
}

fn told(answer: Result<(), ScanRefusal>) -> u32
    ensures { result ≡ answer_code answer }
{
    match answer {
        Ok(()) => OK,
        Err(refusal) => code_of(refusal),
    }
}

/// A scanner whose grammar has nothing; what the handle had before is let go.
#[unsafe(no_mangle)]
pub extern "C" fn slif_scan_new(alloc: Global, scan: &mut ScanHandle) -> u32
    ensures made { result ≡ 0 → scan.new.held ≡ Some blank }
    ensures kept { 0 < result → (result ≡ 5) × (scan.new.held ≡ scan.old.held) }
{
    match Box::new(alloc, Scanning::new(alloc)) {
        Ok(held) => {
            *scan = ScanHandle::of(held);
            OK
        }
        Err(_) => NO_MEMORY,
    }
}

/// Lets a scanner go. The handle is empty then.
#[unsafe(no_mangle)]
pub extern "C" fn slif_scan_free(alloc: Global, scan: &mut ScanHandle)
    ensures { scan.new.held ≡ None }
{
    *scan = ScanHandle::empty(alloc);
}

fn symbol_into(scan: &mut Scanning, name: &str, symbol: &mut u32) -> u32
    ensures { Answered (Some scan.new) result (SymbolAnswers scan.old name.now)
        (λ answer. symbol.new ≡ number_or symbol.old answer) }
{
    let answer = scan.symbol(name);
    tell_number(answer, symbol)
}

/// The number of the symbol with this name, which becomes a new symbol if none has it.
#[unsafe(no_mangle)]
pub extern "C" fn slif_scan_symbol(
    alloc: Global,
    scan: &mut ScanHandle,
    name: &[u8],
    symbol: &mut u32,
) -> u32
    ensures bad { (¬ IsUtf8 name.now) → (result ≡ 9) × (scan.new.held ≡ scan.old.held) ×
        (symbol.new ≡ symbol.old) }
    ensures empty { IsUtf8 name.now → scan.old.held ≡ None → (result ≡ 6) ×
        (scan.new.held ≡ None) × (symbol.new ≡ symbol.old) }
    ensures answers { IsUtf8 name.now → IfSome scan.old.held (λ m. Answered scan.new.held result
        (SymbolAnswers m name.now) (λ answer. symbol.new ≡ number_or symbol.old answer)) }
{
    let Ok(text) = str::from_utf8(name) else {
        return BAD_NAME;
    };
    match mem::replace(scan, ScanHandle::empty(alloc)).into_box() {
        None => EMPTY,
        Some(mut held) => {
            let code = symbol_into(&mut held, text, symbol);
            *scan = ScanHandle::of(held);
            code
        }
    }
}

fn rule_into(alloc: Global, scan: &mut Scanning, left: u32, parts: &[u32], rule: &mut u32) -> u32
    ensures { Answered (Some scan.new) result (RuleAnswers scan.old (plain_rule left parts.now))
        (λ answer. rule.new ≡ number_or rule.old answer) }
{
    let answer = scan.rule(alloc, left, parts);
    tell_number(answer, rule)
}

/// One more rule.
#[unsafe(no_mangle)]
pub extern "C" fn slif_scan_rule(
    alloc: Global,
    scan: &mut ScanHandle,
    left: u32,
    parts: &[u32],
    rule: &mut u32,
) -> u32
    ensures empty { scan.old.held ≡ None → (result ≡ 6) × (scan.new.held ≡ None) × (rule.new ≡ rule.old) }
    ensures answers { IfSome scan.old.held (λ m. Answered scan.new.held result
        (RuleAnswers m (plain_rule left parts.now)) (λ answer. rule.new ≡ number_or rule.old answer)) }
{
    match mem::replace(scan, ScanHandle::empty(alloc)).into_box() {
        None => EMPTY,
        Some(mut held) => {
            let code = rule_into(alloc, &mut held, left, parts, rule);
            *scan = ScanHandle::of(held);
            code
        }
    }
}

// The greatest number is none.
fn separator_by(number: u32) -> Option<u32>
    ensures { result ≡ separator_of number }
{
    if number == u32::MAX {
        None
    } else {
        Some(number)
    }
}

fn sequence_into(
    scan: &mut Scanning,
    left: u32,
    item: u32,
    plus: bool,
    separator: u32,
    proper: bool,
    rule: &mut u32,
) -> u32
    ensures { Answered (Some scan.new) result
        (RuleAnswers scan.old (sequence_by left item plus (separator_of separator) proper))
        (λ answer. rule.new ≡ number_or rule.old answer) }
{
    let answer = scan.sequence(left, item, plus, separator_by(separator), proper);
    tell_number(answer, rule)
}

/// One more rule for a sequence of items.
#[unsafe(no_mangle)]
pub extern "C" fn slif_scan_sequence(
    alloc: Global,
    scan: &mut ScanHandle,
    left: u32,
    item: u32,
    plus: bool,
    separator: u32,
    proper: bool,
    rule: &mut u32,
) -> u32
    ensures empty { scan.old.held ≡ None → (result ≡ 6) × (scan.new.held ≡ None) × (rule.new ≡ rule.old) }
    ensures answers { IfSome scan.old.held (λ m. Answered scan.new.held result
        (RuleAnswers m (sequence_by left item plus (separator_of separator) proper)) (λ answer. rule.new ≡ number_or rule.old answer)) }
{
    match mem::replace(scan, ScanHandle::empty(alloc)).into_box() {
        None => EMPTY,
        Some(mut held) => {
            let code = sequence_into(&mut held, left, item, plus, separator, proper, rule);
            *scan = ScanHandle::of(held);
            code
        }
    }
}

fn start_into(scan: &mut Scanning, symbol: u32) -> u32
    ensures { Obeyed (Some scan.new) result (StartAnswers scan.old symbol) }
{
    told(scan.start(symbol))
}

/// The start.
#[unsafe(no_mangle)]
pub extern "C" fn slif_scan_start(alloc: Global, scan: &mut ScanHandle, symbol: u32) -> u32
    ensures empty { scan.old.held ≡ None → (result ≡ 6) × (scan.new.held ≡ None) }
    ensures answers { IfSome scan.old.held (λ m. Obeyed scan.new.held result (StartAnswers m symbol)) }
{
    match mem::replace(scan, ScanHandle::empty(alloc)).into_box() {
        None => EMPTY,
        Some(mut held) => {
            let code = start_into(&mut held, symbol);
            *scan = ScanHandle::of(held);
            code
        }
    }
}

fn precompute_into(alloc: Global, scan: &mut Scanning, message: &mut [u8], size: &mut usize) -> u32
    ensures { (text : List ℕ) × Precomputed scan.old (Some scan.new) result text
        message.old message.new size.old size.new }
{
    let mut text = Vec::new(alloc);
    match scan.precompute(alloc, &mut text) {
        Ok(()) => OK,
        Err(ScanRefusal::BadGrammar) => {
            copy_front(&text, message);
            *size = text.len();
            GRAMMAR
        }
        Err(refusal) => code_of(refusal),
    }
}

/// Makes the grammar ready to be read by, or tells why it is not.
#[unsafe(no_mangle)]
pub extern "C" fn slif_scan_precompute(
    alloc: Global,
    scan: &mut ScanHandle,
    message: &mut [u8],
    size: &mut usize,
) -> u32
    ensures empty { scan.old.held ≡ None → (result ≡ 6) × (scan.new.held ≡ None) ×
        (message.new ≡ message.old) × (size.new ≡ size.old) }
    ensures answers { IfSome scan.old.held (λ m. (text : List ℕ) ×
        Precomputed m scan.new.held result text message.old message.new size.old size.new) }
{
    match mem::replace(scan, ScanHandle::empty(alloc)).into_box() {
        None => EMPTY,
        Some(mut held) => {
            let code = precompute_into(alloc, &mut held, message, size);
            *scan = ScanHandle::of(held);
            code
        }
    }
}

fn alternative_into(scan: &mut Scanning, symbol: u32, length: u32) -> u32
    ensures { Obeyed (Some scan.new) result (TokenAnswers scan.old symbol length) }
{
    told(scan.alternative(symbol, length))
}

/// Takes a token that begins at the place.
#[unsafe(no_mangle)]
pub extern "C" fn slif_scan_alternative(
    alloc: Global,
    scan: &mut ScanHandle,
    symbol: u32,
    length: u32,
) -> u32
    ensures empty { scan.old.held ≡ None → (result ≡ 6) × (scan.new.held ≡ None) }
    ensures answers { IfSome scan.old.held (λ m. Obeyed scan.new.held result (TokenAnswers m symbol length)) }
{
    match mem::replace(scan, ScanHandle::empty(alloc)).into_box() {
        None => EMPTY,
        Some(mut held) => {
            let code = alternative_into(&mut held, symbol, length);
            *scan = ScanHandle::of(held);
            code
        }
    }
}

fn complete_into(scan: &mut Scanning, place: &mut u32) -> u32
    ensures { Answered (Some scan.new) result (PlaceAnswers scan.old)
        (λ answer. place.new ≡ number_or place.old answer) }
{
    let answer = scan.complete();
    tell_number(answer, place)
}

/// Goes to the next place, and tells it.
#[unsafe(no_mangle)]
pub extern "C" fn slif_scan_complete(alloc: Global, scan: &mut ScanHandle, place: &mut u32) -> u32
    ensures empty { scan.old.held ≡ None → (result ≡ 6) × (scan.new.held ≡ None) × (place.new ≡ place.old) }
    ensures answers { IfSome scan.old.held (λ m. Answered scan.new.held result
        (PlaceAnswers m) (λ answer. place.new ≡ number_or place.old answer)) }
{
    match mem::replace(scan, ScanHandle::empty(alloc)).into_box() {
        None => EMPTY,
        Some(mut held) => {
            let code = complete_into(&mut held, place);
            *scan = ScanHandle::of(held);
            code
        }
    }
}

fn restart_into(scan: &mut Scanning) -> u32
    ensures { Obeyed (Some scan.new) result (RestartAnswers scan.old) }
{
    told(scan.restart())
}

/// Goes back to place 0, without tokens.
#[unsafe(no_mangle)]
pub extern "C" fn slif_scan_restart(alloc: Global, scan: &mut ScanHandle) -> u32
    ensures empty { scan.old.held ≡ None → (result ≡ 6) × (scan.new.held ≡ None) }
    ensures answers { IfSome scan.old.held (λ m. Obeyed scan.new.held result (RestartAnswers m)) }
{
    match mem::replace(scan, ScanHandle::empty(alloc)).into_box() {
        None => EMPTY,
        Some(mut held) => {
            let code = restart_into(&mut held);
            *scan = ScanHandle::of(held);
            code
        }
    }
}

fn acceptable_into(
    alloc: Global,
    scan: &mut Scanning,
    symbols: &mut [u32],
    count: &mut usize,
) -> u32
    ensures { Answered (Some scan.new) result (ExpectedAnswers scan.old)
        (λ answer. (symbols.new ≡ text_or symbols.old (items_in answer)) ×
        (count.new ≡ length_or count.old (items_in answer))) }
{
    match scan.expected(alloc) {
        Ok(all) => {
            copy_numbers(&all, symbols);
            *count = all.len();
            OK
        }
        Err(refusal) => code_of(refusal),
    }
}

/// Tells the terminals that are acceptable at the place, as many as there is room for, and how many they are.
#[unsafe(no_mangle)]
pub extern "C" fn slif_scan_expected(
    alloc: Global,
    scan: &mut ScanHandle,
    symbols: &mut [u32],
    count: &mut usize,
) -> u32
    ensures empty { scan.old.held ≡ None → (result ≡ 6) × (scan.new.held ≡ None) ×
        (symbols.new ≡ symbols.old) × (count.new ≡ count.old) }
    ensures answers { IfSome scan.old.held (λ m. Answered scan.new.held result
        (ExpectedAnswers m) (λ answer. (symbols.new ≡ text_or symbols.old (items_in answer)) ×
        (count.new ≡ length_or count.old (items_in answer)))) }
{
    match mem::replace(scan, ScanHandle::empty(alloc)).into_box() {
        None => EMPTY,
        Some(mut held) => {
            let code = acceptable_into(alloc, &mut held, symbols, count);
            *scan = ScanHandle::of(held);
            code
        }
    }
}

// Keeps derivations for C.
fn derivations_into(
    alloc: Global,
    scan: &mut Scanning,
    skip: u64,
    most: u64,
    parse: &mut ParseHandle,
) -> u32
    ensures { Answered (Some scan.new) result (DerivationsAnswer scan.old skip most)
        (λ answer. AreKeptIn answer parse.old.held parse.new.held) }
{
    match scan.derivations(alloc, skip, most) {
        Ok(kept) => match boxed_derivations(alloc, &kept) {
            Ok(held) => {
                *parse = ParseHandle::of(held);
                OK
            }
            Err(_) => NO_MEMORY,
        },
        Err(refusal) => code_of(refusal),
    }
}

/// Keeps at most so many of the derivations of what was read, after so many; what the handle had before is let go.
#[unsafe(no_mangle)]
pub extern "C" fn slif_scan_parse(
    alloc: Global,
    scan: &mut ScanHandle,
    skip: u64,
    most: u64,
    parse: &mut ParseHandle,
) -> u32
    ensures empty { scan.old.held ≡ None → (result ≡ 6) × (scan.new.held ≡ None) ×
        (parse.new.held ≡ parse.old.held) }
    ensures answers { IfSome scan.old.held (λ m. Answered scan.new.held result
        (DerivationsAnswer m skip most) (λ answer. AreKeptIn answer parse.old.held parse.new.held)) }
{
    match mem::replace(scan, ScanHandle::empty(alloc)).into_box() {
        None => EMPTY,
        Some(mut held) => {
            let code = derivations_into(alloc, &mut held, skip, most, parse);
            *scan = ScanHandle::of(held);
            code
        }
    }
}
