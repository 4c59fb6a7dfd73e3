//! Inputs that are read, as C calls them.
ghost use Rattle.std.specs.Prelude.{◌≡◌, ◌-◌, ◌<◌, ◌≤◌, None, Some, IfErr, IfOk, IfSome, IsNone, drop, length, slice_get};
ghost use Rattle.slif_parser.specs.declared.error.ParseError.{ParseError as Error};
ghost use Rattle.slif_parser.specs.Errors.{TellsInput};
ghost use Rattle.c_handles.specs.Copying.{overlaid};
ghost use Rattle.slif_c.specs.Exports.{Holds, IsTold, IsUnparsed, ranking_of, show_of};
ghost use Rattle.slif_c.specs.Parsed.{IsParsed};

use c_handles::codes::{EMPTY, OK, RANGE};
use c_handles::{Fault, GrammarHandle, Parse, ParseHandle, Step, copy_front, derive, tell};
use slif_parser::{Grammar, ParseError, Ranking, Show};
use std::alloc::Global;
use std::mem;

fn ranking_by(number: u32) -> Ranking
    ensures { result ≡ ranking_of number }
{
    match number {
        0 => Ranking::None,
        1 => Ranking::Rule,
        _ => Ranking::High,
    }
}

// 0 is the value of actions, all else the tree.
fn show_by(number: u32) -> Show
    ensures { result ≡ show_of number }
{
    match number {
        0 => Show::Array,
        _ => Show::Tree,
    }
}

// Some derivations of an input, with their lines where they are to be shown.
fn parse_by(
    alloc: Global,
    grammar: &Grammar,
    input: &[u8],
    ranking: Ranking,
    shown: Option<Show>,
    skip: u64,
    most: u64,
) -> Result<Parse, ParseError>
    ensures parsed { IfOk result (IsParsed grammar.now input.now ranking shown skip most) }
    ensures refused { IfErr result (TellsInput (IsUnparsed grammar.now ranking input.now)) }
{
    match grammar.read(alloc, input) {
        Ok(reading) => {
            let told = derive(alloc, &reading, ranking, shown, skip, most);
            drop(reading);
            told
        }
        Err(error) => Err(error),
    }
}

// The same, in a box.
fn boxed(
    alloc: Global,
    grammar: &Grammar,
    input: &[u8],
    ranking: Ranking,
    shown: Option<Show>,
    skip: u64,
    most: u64,
) -> Result<Box<Parse, Global>, ParseError>
    ensures parsed { IfOk result (λ held. IsParsed grammar.now input.now ranking shown skip most
        held.value) }
    ensures refused { IfErr result (TellsInput (IsUnparsed grammar.now ranking input.now)) }
{
    match parse_by(alloc, grammar, input, ranking, shown, skip, most) {
        Ok(parse) => match Box::new(alloc, parse) {
            Ok(held) => Ok(held),
            Err(_) => Err(ParseError::NoMemory),
        },
        Err(error) => Err(error),
    }
}

// Reads an input, and tells what came of it.
fn parse_into(
    alloc: Global,
    grammar: &Grammar,
    input: &[u8],
    ranking: Ranking,
    shown: Option<Show>,
    skip: u64,
    most: u64,
    parse: &mut ParseHandle,
    fault: &mut Fault,
    message: &mut [u8],
    expected: &mut [u32],
) -> u32
    ensures parsed { result ≡ 0 →
        Holds parse.new.held (IsParsed grammar.now input.now ranking shown skip most) }
    ensures untold { result ≡ 0 → (fault.new ≡ fault.old) × (message.new ≡ message.old) ×
        (expected.new ≡ expected.old) }
    ensures refused { 0 < result → (error : Error) ×
        TellsInput (IsUnparsed grammar.now ranking input.now) error ×
        IsTold error result fault.old fault.new message.old message.new expected.old expected.new }
    ensures kept { 0 < result → parse.new.held ≡ parse.old.held }
{
    match boxed(alloc, grammar, input, ranking, shown, skip, most) {
        Ok(held) => {
            *parse = ParseHandle::of(held);
            OK
        }
        Err(error) => tell(&error, fault, message, expected),
    }
}

/// Reads an input, and keeps at most so many of its derivations, behind so many; what the handle had before is let go.
#[unsafe(no_mangle)]
pub extern "C" fn slif_parse_new(
    alloc: Global,
    grammar: &mut GrammarHandle,
    input: &[u8],
    ranking: u32,
    skip: u64,
    most: u64,
    parse: &mut ParseHandle,
    fault: &mut Fault,
    message: &mut [u8],
    expected: &mut [u32],
) -> u32
    ensures same { grammar.new.held ≡ grammar.old.held }
    ensures empty { grammar.old.held ≡ None → (result ≡ 6) × (fault.new ≡ fault.old) ×
        (message.new ≡ message.old) × (expected.new ≡ expected.old) }
    ensures parsed { IfSome grammar.old.held (λ b. result ≡ 0 →
        Holds parse.new.held (IsParsed b input.now (ranking_of ranking) None skip most)) }
    ensures untold { IfSome grammar.old.held (λ b. result ≡ 0 → (fault.new ≡ fault.old) ×
        (message.new ≡ message.old) × (expected.new ≡ expected.old)) }
    ensures refused { IfSome grammar.old.held (λ b. 0 < result → (error : Error) ×
        TellsInput (IsUnparsed b (ranking_of ranking) input.now) error × IsTold error result
        fault.old fault.new message.old message.new expected.old expected.new) }
    ensures kept { 0 < result → parse.new.held ≡ parse.old.held }
{
    match mem::replace(grammar, GrammarHandle::empty(alloc)).into_box() {
        None => EMPTY,
        Some(held) => {
            let code = parse_into(
                alloc,
                held.grammar(),
                input,
                ranking_by(ranking),
                None,
                skip,
                most,
                parse,
                fault,
                message,
                expected,
            );
            *grammar = GrammarHandle::of(held);
            code
        }
    }
}

/// The same as `slif_parse_new`, and of each derivation that is kept its line is kept too.
#[unsafe(no_mangle)]
pub extern "C" fn slif_parse_shown(
    alloc: Global,
    grammar: &mut GrammarHandle,
    input: &[u8],
    ranking: u32,
    show: u32,
    skip: u64,
    most: u64,
    parse: &mut ParseHandle,
    fault: &mut Fault,
    message: &mut [u8],
    expected: &mut [u32],
) -> u32
    ensures same { grammar.new.held ≡ grammar.old.held }
    ensures empty { grammar.old.held ≡ None → (result ≡ 6) × (fault.new ≡ fault.old) ×
        (message.new ≡ message.old) × (expected.new ≡ expected.old) }
    ensures parsed { IfSome grammar.old.held (λ b. result ≡ 0 → Holds parse.new.held
        (IsParsed b input.now (ranking_of ranking) (Some (show_of show)) skip most)) }
    ensures untold { IfSome grammar.old.held (λ b. result ≡ 0 → (fault.new ≡ fault.old) ×
        (message.new ≡ message.old) × (expected.new ≡ expected.old)) }
    ensures refused { IfSome grammar.old.held (λ b. 0 < result → (error : Error) ×
        TellsInput (IsUnparsed b (ranking_of ranking) input.now) error × IsTold error result
        fault.old fault.new message.old message.new expected.old expected.new) }
    ensures kept { 0 < result → parse.new.held ≡ parse.old.held }
{
    match mem::replace(grammar, GrammarHandle::empty(alloc)).into_box() {
        None => EMPTY,
        Some(held) => {
            let code = parse_into(
                alloc,
                held.grammar(),
                input,
                ranking_by(ranking),
                Some(show_by(show)),
                skip,
                most,
                parse,
                fault,
                message,
                expected,
            );
            *grammar = GrammarHandle::of(held);
            code
        }
    }
}

/// Lets a parse go. The handle is empty then.
#[unsafe(no_mangle)]
pub extern "C" fn slif_parse_free(alloc: Global, parse: &mut ParseHandle)
    ensures { parse.new.held ≡ None }
{
    *parse = ParseHandle::empty(alloc);
}

/// How many derivations are kept, and whether there are more behind them.
#[unsafe(no_mangle)]
pub extern "C" fn slif_parse_counts(
    alloc: Global,
    parse: &mut ParseHandle,
    derivations: &mut u64,
    more: &mut bool,
) -> u32
    ensures same { parse.new.held ≡ parse.old.held }
    ensures empty { parse.old.held ≡ None → result ≡ 6 }
    ensures counts { IfSome parse.old.held (λ p. (result ≡ 0) ×
        (derivations.new ≡ length p.derivations.items) × (more.new ≡ p.more)) }
    ensures untold { 0 < result →
        (derivations.new ≡ derivations.old) × (more.new ≡ more.old) }
{
    match mem::replace(parse, ParseHandle::empty(alloc)).into_box() {
        None => EMPTY,
        Some(held) => {
            *derivations = held.derivations.len() as u64;
            *more = held.more;
            *parse = ParseHandle::of(held);
            OK
        }
    }
}

// The steps of a derivation from one on.
fn steps_from(parse: &Parse, derivation: u64, from: usize) -> Option<&[Step]>
    ensures some { IfSome result (λ steps. IfSome (slice_get parse.now.derivations.items derivation)
        (λ all. (from ≤ length all.items) × (steps.now ≡ drop from all.items))) }
    ensures none { IsNone result → IfSome (slice_get parse.now.derivations.items derivation)
        (λ all. length all.items < from) }
    ensures range { IsNone (slice_get parse.now.derivations.items derivation) → IsNone result }
{
    let all = parse.derivations.get(derivation as usize)?;
    all.get(from..)
}

fn steps_into(
    parse: &Parse,
    derivation: u64,
    from: usize,
    steps: &mut [Step],
    count: &mut usize,
) -> u32
    ensures steps { IfSome (slice_get parse.now.derivations.items derivation) (λ all.
        from ≤ length all.items → (result ≡ 0) × (count.new ≡ length all.items - from) ×
        (steps.new ≡ overlaid (drop from all.items) steps.old)) }
    ensures behind { IfSome (slice_get parse.now.derivations.items derivation) (λ all.
        length all.items < from → result ≡ 7) }
    ensures range { IsNone (slice_get parse.now.derivations.items derivation) → result ≡ 7 }
    ensures untold { 0 < result → (steps.new ≡ steps.old) × (count.new ≡ count.old) }
{
    match steps_from(parse, derivation, from) {
        Some(left) => {
            copy_front(left, steps);
            *count = left.len();
            OK
        }
        None => RANGE,
    }
}

/// Copies the steps of a derivation from one on, as many as there is room for, and tells how many there are from there on.
#[unsafe(no_mangle)]
pub extern "C" fn slif_parse_steps(
    alloc: Global,
    parse: &mut ParseHandle,
    derivation: u64,
    from: usize,
    steps: &mut [Step],
    count: &mut usize,
) -> u32
    ensures same { parse.new.held ≡ parse.old.held }
    ensures empty { parse.old.held ≡ None → result ≡ 6 }
    ensures steps { IfSome parse.old.held (λ p. IfSome (slice_get p.derivations.items derivation)
        (λ all. from ≤ length all.items → (result ≡ 0) × (count.new ≡ length all.items - from) ×
        (steps.new ≡ overlaid (drop from all.items) steps.old))) }
    ensures behind { IfSome parse.old.held (λ p. IfSome (slice_get p.derivations.items derivation)
        (λ all. length all.items < from → result ≡ 7)) }
    ensures range { IfSome parse.old.held (λ p.
        IsNone (slice_get p.derivations.items derivation) → result ≡ 7) }
    ensures untold { 0 < result → (steps.new ≡ steps.old) × (count.new ≡ count.old) }
{
    match mem::replace(parse, ParseHandle::empty(alloc)).into_box() {
        None => EMPTY,
        Some(held) => {
            let code = steps_into(&held, derivation, from, steps, count);
            *parse = ParseHandle::of(held);
            code
        }
    }
}

fn line_into(parse: &Parse, derivation: u64, line: &mut [u8], size: &mut usize) -> u32
    ensures line { IfSome (slice_get parse.now.lines.items derivation) (λ text. (result ≡ 0) ×
        (line.new ≡ overlaid text.items line.old) × (size.new ≡ length text.items)) }
    ensures range { IsNone (slice_get parse.now.lines.items derivation) → result ≡ 7 }
    ensures untold { 0 < result → (line.new ≡ line.old) × (size.new ≡ size.old) }
{
    match parse.lines.get(derivation as usize) {
        Some(text) => {
            copy_front(text, line);
            *size = text.len();
            OK
        }
        None => RANGE,
    }
}

/// Copies the line of a derivation, as much of it as there is room for, and tells its length.
#[unsafe(no_mangle)]
pub extern "C" fn slif_parse_line(
    alloc: Global,
    parse: &mut ParseHandle,
    derivation: u64,
    line: &mut [u8],
    size: &mut usize,
) -> u32
    ensures same { parse.new.held ≡ parse.old.held }
    ensures empty { parse.old.held ≡ None → result ≡ 6 }
    ensures line { IfSome parse.old.held (λ p. IfSome (slice_get p.lines.items derivation)
        (λ text. (result ≡ 0) × (line.new ≡ overlaid text.items line.old) ×
        (size.new ≡ length text.items))) }
    ensures range { IfSome parse.old.held (λ p.
        IsNone (slice_get p.lines.items derivation) → result ≡ 7) }
    ensures untold { 0 < result → (line.new ≡ line.old) × (size.new ≡ size.old) }
{
    match mem::replace(parse, ParseHandle::empty(alloc)).into_box() {
        None => EMPTY,
        Some(held) => {
            let code = line_into(&held, derivation, line, size);
            *parse = ParseHandle::of(held);
            code
        }
    }
}
