//! Grammars, as C calls them.
ghost use Rattle.std.specs.Prelude.{◌≡◌, ◌<◌, ◌≤◌, [], None, Some, IfErr, IfOk, IfSome, length};
ghost use Rattle.grammar_model.specs.Grammar.{lhs_of, rule_at};
ghost use Rattle.grammar_model.specs.Values.{name_of};
ghost use Rattle.run_model.specs.Refused.{Accepted};
ghost use Rattle.text_reading.specs.Refusals.{IsRefusedAt};
ghost use Rattle.slif_parser.specs.declared.error.ParseError.{ParseError as Error};
ghost use Rattle.slif_parser.specs.Errors.{TellsGrammar};
ghost use Rattle.c_handles.specs.Copying.{overlaid};
ghost use Rattle.slif_c.specs.Exports.{Holds, IsTold};

use c_handles::codes::{EMPTY, NO_MEMORY, OK, RANGE};
use c_handles::{Fault, GrammarHandle, SharedGrammar, copy_front, tell};
use slif_parser::{Grammar, NoMemory, ParseError, RuleId, SymbolId};
use std::alloc::Global;
use std::mem;

// A grammar for one handle, in a box.
fn in_box(alloc: Global, grammar: SharedGrammar) -> Result<Box<SharedGrammar, Global>, NoMemory>
    ensures { IfOk result (λ held. held.value ≡ grammar) }
{
    match Box::new(alloc, grammar) {
        Ok(held) => Ok(held),
        Err(_) => Err(NoMemory),
    }
}

fn first_handle(alloc: Global, grammar: Grammar) -> Result<Box<SharedGrammar, Global>, NoMemory>
    ensures { IfOk result (λ held. held.value ≡ grammar) }
{
    in_box(alloc, SharedGrammar::new(alloc, grammar)?)
}

// The grammar of a text, in a box.
fn boxed(alloc: Global, text: &[u8]) -> Result<Box<SharedGrammar, Global>, ParseError>
    ensures accepted { IfOk result (λ held. Accepted text.now held.value) }
    ensures refused { IfErr result (TellsGrammar (IsRefusedAt text.now)) }
{
    match Grammar::from_text(alloc, text) {
        Ok(grammar) => match first_handle(alloc, grammar) {
            Ok(held) => Ok(held),
            Err(_) => Err(ParseError::NoMemory),
        },
        Err(error) => Err(error),
    }
}

/// Makes a grammar of its text; what the handle had before is let go.
#[unsafe(no_mangle)]
pub extern "C" fn slif_grammar_new(
    alloc: Global,
    text: &[u8],
    grammar: &mut GrammarHandle,
    fault: &mut Fault,
    message: &mut [u8],
) -> u32
    ensures made { result ≡ 0 → Holds grammar.new.held (Accepted text.now) }
    ensures untold { result ≡ 0 → (fault.new ≡ fault.old) × (message.new ≡ message.old) }
    ensures refused { 0 < result → (error : Error) × TellsGrammar (IsRefusedAt text.now) error ×
        IsTold error result fault.old fault.new message.old message.new [] [] }
    ensures kept { 0 < result → grammar.new.held ≡ grammar.old.held }
{
    match boxed(alloc, text) {
        Ok(held) => {
            *grammar = GrammarHandle::of(held);
            OK
        }
        Err(error) => tell(&error, fault, message, &mut []),
    }
}

/// Lets a grammar go. The handle is empty then.
#[unsafe(no_mangle)]
pub extern "C" fn slif_grammar_free(alloc: Global, grammar: &mut GrammarHandle)
    ensures { grammar.new.held ≡ None }
{
    *grammar = GrammarHandle::empty(alloc);
}

// The same grammar for one more handle, in a box.
fn shared(alloc: Global, grammar: &SharedGrammar) -> Result<Box<SharedGrammar, Global>, NoMemory>
    ensures { IfOk result (λ held. held.value ≡ grammar.now) }
{
    in_box(alloc, grammar.share()?)
}

fn share_into(alloc: Global, grammar: &SharedGrammar, other: &mut GrammarHandle) -> u32
    ensures shared { result ≡ 0 → other.new.held ≡ Some grammar.now }
    ensures kept { 0 < result → (result ≡ 5) × (other.new.held ≡ other.old.held) }
{
    match shared(alloc, grammar) {
        Ok(held) => {
            *other = GrammarHandle::of(held);
            OK
        }
        Err(_) => NO_MEMORY,
    }
}

/// Makes a second handle of a grammar, which another thread may have; what that handle had before is let go. The last handle lets the
/// grammar go.
#[unsafe(no_mangle)]
pub extern "C" fn slif_grammar_share(
    alloc: Global,
    grammar: &mut GrammarHandle,
    other: &mut GrammarHandle,
) -> u32
    ensures same { grammar.new.held ≡ grammar.old.held }
    ensures empty { grammar.old.held ≡ None → result ≡ 6 }
    ensures shared { result ≡ 0 → other.new.held ≡ grammar.old.held }
    ensures refused { IfSome grammar.old.held (λ b. 0 < result → result ≡ 5) }
    ensures kept { 0 < result → other.new.held ≡ other.old.held }
{
    match mem::replace(grammar, GrammarHandle::empty(alloc)).into_box() {
        None => EMPTY,
        Some(held) => {
            let code = share_into(alloc, &held, other);
            *grammar = GrammarHandle::of(held);
            code
        }
    }
}

/// How many symbols and rules there are.
#[unsafe(no_mangle)]
pub extern "C" fn slif_grammar_counts(
    alloc: Global,
    grammar: &mut GrammarHandle,
    symbols: &mut usize,
    rules: &mut usize,
) -> u32
    ensures kept { grammar.new.held ≡ grammar.old.held }
    ensures empty { grammar.old.held ≡ None → result ≡ 6 }
    ensures counts { IfSome grammar.old.held (λ b. (result ≡ 0) ×
        (symbols.new ≡ length b.g1.names) × (rules.new ≡ length b.g1.rules)) }
    ensures untold { 0 < result → (symbols.new ≡ symbols.old) × (rules.new ≡ rules.old) }
{
    match mem::replace(grammar, GrammarHandle::empty(alloc)).into_box() {
        None => EMPTY,
        Some(held) => {
            *symbols = held.grammar().symbol_count();
            *rules = held.grammar().rule_count();
            *grammar = GrammarHandle::of(held);
            OK
        }
    }
}

fn name_into(grammar: &Grammar, symbol: u32, name: &mut [u8], size: &mut usize) -> u32
    ensures name { symbol < length grammar.now.g1.names → (result ≡ 0) ×
        (name.new ≡ overlaid (name_of grammar.now.g1 symbol) name.old) ×
        (size.new ≡ length (name_of grammar.now.g1 symbol)) }
    ensures range { length grammar.now.g1.names ≤ symbol → result ≡ 7 }
    ensures untold { 0 < result → (name.new ≡ name.old) × (size.new ≡ size.old) }
{
    match grammar.name(SymbolId(symbol)) {
        Some(text) => {
            copy_front(text.as_bytes(), name);
            *size = text.len();
            OK
        }
        None => RANGE,
    }
}

/// Copies a symbol's name, as much of it as there is room for, and tells its length.
#[unsafe(no_mangle)]
pub extern "C" fn slif_symbol_name(
    alloc: Global,
    grammar: &mut GrammarHandle,
    symbol: u32,
    name: &mut [u8],
    size: &mut usize,
) -> u32
    ensures kept { grammar.new.held ≡ grammar.old.held }
    ensures empty { grammar.old.held ≡ None → result ≡ 6 }
    ensures name { IfSome grammar.old.held (λ b. symbol < length b.g1.names → (result ≡ 0) ×
        (name.new ≡ overlaid (name_of b.g1 symbol) name.old) ×
        (size.new ≡ length (name_of b.g1 symbol))) }
    ensures range { IfSome grammar.old.held (λ b. length b.g1.names ≤ symbol → result ≡ 7) }
    ensures untold { 0 < result → (name.new ≡ name.old) × (size.new ≡ size.old) }
{
    match mem::replace(grammar, GrammarHandle::empty(alloc)).into_box() {
        None => EMPTY,
        Some(held) => {
            let code = name_into(held.grammar(), symbol, name, size);
            *grammar = GrammarHandle::of(held);
            code
        }
    }
}

fn left_into(grammar: &Grammar, rule: u32, left: &mut u32) -> u32
    ensures left { rule < length grammar.now.g1.rules → (result ≡ 0) ×
        (left.new ≡ lhs_of (rule_at grammar.now.g1 rule)) }
    ensures range { length grammar.now.g1.rules ≤ rule → result ≡ 7 }
    ensures untold { 0 < result → left.new ≡ left.old }
{
    match grammar.left(RuleId(rule)) {
        Some(symbol) => {
            *left = symbol.0;
            OK
        }
        None => RANGE,
    }
}

/// Tells a rule's left side.
#[unsafe(no_mangle)]
pub extern "C" fn slif_rule_left(
    alloc: Global,
    grammar: &mut GrammarHandle,
    rule: u32,
    left: &mut u32,
) -> u32
    ensures kept { grammar.new.held ≡ grammar.old.held }
    ensures empty { grammar.old.held ≡ None → result ≡ 6 }
    ensures left { IfSome grammar.old.held (λ b. rule < length b.g1.rules → (result ≡ 0) ×
        (left.new ≡ lhs_of (rule_at b.g1 rule))) }
    ensures range { IfSome grammar.old.held (λ b. length b.g1.rules ≤ rule → result ≡ 7) }
    ensures untold { 0 < result → left.new ≡ left.old }
{
    match mem::replace(grammar, GrammarHandle::empty(alloc)).into_box() {
        None => EMPTY,
        Some(held) => {
            let code = left_into(held.grammar(), rule, left);
            *grammar = GrammarHandle::of(held);
            code
        }
    }
}
