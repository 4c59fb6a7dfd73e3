//! Texts that are read with lexemes that are supplied where reading is stuck, and pieces that are taken one by one.
ghost use Rattle.std.specs.Prelude.{◌≡◌, ◌<◌, ◌≤◌, length, IfOk};
ghost use Rattle.slippers.specs.Stock.{told};

use earley_sets::Recce;
use grammar_core::SymbolId;
use scanless::{Ending, Piece, Prepared, Reading, next_piece};
use slif_base::{Chars, Steps, chars_of};
use slippers::{ListSupplier, Supplier, read_slipping};
use std::alloc::{AllocError, Global};
use std::marker::Brand;
use std::sync::ledger::{Blank, Ledger};
use std::test::Fail;
use text_reading::read_grammar;

// A text that is read with what is given, where its tokens begin and how many characters they have, and where it stops, with what is
// found and expected there.
struct Case {
    grammar: &'static str,
    given: &'static [&'static str],
    text: &'static str,
    spans: &'static [(u32, u32)],
    stop: Option<Stop>,
}

struct Stop {
    at: usize,
    found: &'static [&'static str],
    expected: &'static [&'static str],
}

const ENDED: &str = "S ::= X+ X ::= N semi N ~ [\\d] semi ~ ';'";

static CASES: [Case; 13] = [
    Case {
        grammar: ENDED,
        given: &["semi"],
        text: "12;3",
        spans: &[(0, 1), (1, 0), (1, 1), (2, 1), (3, 1), (4, 0)],
        stop: None,
    },
    Case {
        grammar: ENDED,
        given: &["N"],
        text: "12;3",
        spans: &[(0, 1)],
        stop: Some(Stop {
            at: 1,
            found: &["N"],
            expected: &["semi"],
        }),
    },
    // behind layout
    Case {
        grammar: "S ::= X+ X ::= N semi N ~ [\\d] semi ~ ';' :discard ~ space space ~ [\\s]+",
        given: &["semi"],
        text: "1  2 ",
        spans: &[(0, 1), (3, 0), (3, 1), (5, 0)],
        stop: None,
    },
    // nothing is supplied where the tokens have a derivation
    Case {
        grammar: "S ::= 'a' x | 'a' x ~ 'x'",
        given: &["x"],
        text: "a",
        spans: &[(0, 1)],
        stop: None,
    },
    Case {
        grammar: "S ::= x* x ~ 'x'",
        given: &["x"],
        text: "",
        spans: &[],
        stop: None,
    },
    // at the end there is no stop
    Case {
        grammar: "S ::= 'a' x y x ~ 'x' y ~ 'y'",
        given: &["x"],
        text: "a",
        spans: &[(0, 1), (1, 0)],
        stop: None,
    },
    Case {
        grammar: "S ::= x y x ~ 'x' y ~ 'y'",
        given: &["y", "x"],
        text: "",
        spans: &[(0, 0), (0, 0)],
        stop: None,
    },
    // the first that is expected, and once at a place
    Case {
        grammar: "S ::= 'a' P 'b' P ::= x | y | x y x ~ 'x' y ~ 'y'",
        given: &["y", "x"],
        text: "ab",
        spans: &[(0, 1), (1, 0), (1, 1)],
        stop: None,
    },
    Case {
        grammar: "S ::= Y+ Y ::= 'a' x x ~ 'x'",
        given: &["x"],
        text: "aaa",
        spans: &[(0, 1), (1, 0), (1, 1), (2, 0), (2, 1), (3, 0)],
        stop: None,
    },
    Case {
        grammar: "S ::= 'a' x x 'b' x ~ 'x'",
        given: &["x"],
        text: "ab",
        spans: &[(0, 1), (1, 0)],
        stop: Some(Stop {
            at: 1,
            found: &["'b'"],
            expected: &["x"],
        }),
    },
    Case {
        grammar: "S ::= 'a' x 'c' x ~ 'x' B ~ 'b' T ::= B",
        given: &["x"],
        text: "ab",
        spans: &[(0, 1), (1, 0)],
        stop: Some(Stop {
            at: 1,
            found: &["B"],
            expected: &["'c'"],
        }),
    },
    // a token is taken where one can be
    Case {
        grammar: "S ::= 'a' P P ::= x 'b' | 'b' x ~ 'x'",
        given: &["x"],
        text: "ab",
        spans: &[(0, 1), (1, 1)],
        stop: None,
    },
    Case {
        grammar: "lexeme default = latm => 1 S ::= 'a' x 'aa' x ~ 'x'",
        given: &["x"],
        text: "aaa",
        spans: &[(0, 1), (1, 0), (1, 2)],
        stop: None,
    },
];

// The symbol of a lexeme.
fn lexeme_named(p: &Prepared, name: &str) -> Option<SymbolId> {
    for row in p.lexemes() {
        if (row.symbol.0 as usize) < p.written().symbol_count()
            && p.written().name(row.symbol) == name
        {
            return Some(row.symbol);
        }
    }
    None
}

// The symbols of lexemes, as far as there are any.
fn lexemes_named(alloc: Global, p: &Prepared, names: &[&str]) -> Result<Vec<SymbolId>, AllocError> {
    let mut symbols = Vec::new(alloc);
    for name in names {
        if let Some(symbol) = lexeme_named(p, name) {
            symbols.push(symbol)?;
        }
    }
    Ok(symbols)
}

fn are_lexemes(
    alloc: Global,
    p: &Prepared,
    symbols: &[SymbolId],
    names: &[&str],
) -> Result<bool, AllocError> {
    let wanted = lexemes_named(alloc, p, names)?;
    Ok(wanted.len() == names.len() && wanted.as_slice() == symbols)
}

fn are_spans(reading: &Reading<'_>, wanted: &[(u32, u32)]) -> bool {
    let spans = reading.spans.as_slice();
    spans.len() == wanted.len()
        && spans.iter().zip(wanted).all(|(span, (start, length))| span.start == *start
            && span.length == *length)
}

fn ends_so(
    alloc: Global,
    p: &Prepared,
    ending: &Ending,
    stop: &Option<Stop>,
) -> Result<bool, AllocError> {
    match (ending, stop) {
        (Ending::End, None) => Ok(true),
        (
            Ending::Stopped {
                at,
                found,
                expected,
            },
            Some(stop),
        ) => Ok(
            *at == stop.at
                && are_lexemes(alloc, p, found.as_slice(), stop.found)?
                && are_lexemes(alloc, p, expected.as_slice(), stop.expected)?,
        ),
        _ => Ok(false),
    }
}

// A supplier that has these lexemes, of which there are eight at most.
fn supplier_of(alloc: Global, p: &Prepared, names: &[&str]) -> Result<Box<dyn Supplier>, Fail>
    ensures begun { IfOk result (λ s. stock s ≡ told (stock s).names) }
    ensures few { IfOk result (λ s. length (stock s).names ≤ 8) }
{
    let symbols = lexemes_named(alloc, p, names)?;
    if symbols.len() > 8 {
        return Err(Fail::new("more than eight"));
    }
    let mut list = ListSupplier::new(alloc);
    list.tell(&symbols)?;
    Ok(Box::new(alloc, list)?)
}

// The characters of a text of this module.
fn own_chars(alloc: Global, text: &str) -> Result<Chars, Fail>
    ensures { IfOk result (λ chars. length chars ≤ 1048576) }
{
    let chars = chars_of(alloc, text.as_bytes())?;
    if chars.len() > 1_048_576 {
        return Err(Fail::new("too long"));
    }
    Ok(chars)
}

fn is_read<L: Ledger>(
    alloc: Global,
    p: &Prepared,
    chars: &Chars,
    case: &Case,
    steps: &mut Steps<L>,
) -> Result<bool, Fail>
    requires { length chars.now ≤ 1048576 }
{
    let supplier = supplier_of(alloc, p, case.given)?;
    let reading = read_slipping(alloc, p, chars, supplier, steps)?;
    let is = are_spans(&reading, case.spans) && ends_so(alloc, p, &reading.ending, &case.stop)?;
    drop(reading);
    Ok(is)
}

fn is_so_with<L: Ledger>(
    blank: Blank,
    alloc: Global,
    p: &Prepared,
    case: &Case,
) -> Result<bool, Fail>
    requires name { blank.name ≡ L.name }
    requires parts { blank.parts ≡ L.parts }
    requires some { 0 < blank.parts }
{
    let chars = own_chars(alloc, case.text)?;
    let is = is_read(alloc, p, &chars, case, &mut Steps::<L>::of_blank(blank));
    drop(chars);
    is
}

// What is prepared of a grammar of this module.
fn own_grammar(alloc: Global, text: &str) -> Result<Prepared, Fail> {
    if text.len() > 1_048_576 {
        return Err(Fail::new("too long"));
    }
    match read_grammar(alloc, text.as_bytes()) {
        Ok(p) => Ok(p),
        Err(_) => Err(Fail::new("a grammar is refused")),
    }
}

// Whether a text is read so.
fn is_so(alloc: Global, case: &Case) -> Result<bool, Fail> {
    let p = own_grammar(alloc, case.grammar)?;
    let is = is_so_with::<Brand>(Blank::new(1), alloc, &p, case);
    drop(p);
    is
}

#[test]
fn lexemes_are_supplied_where_reading_is_stuck(rt: HostRuntime) -> Result<(), Fail> {
    for case in &CASES {
        assert!(rt; is_so(rt.alloc(), case)?, "{}: {}", case.grammar, case.text);
    }
    Ok(())
}

// A supplier that answers so many calls, and refuses each one after them.
#[derive(Drop)]
struct Breaking {
    list: ListSupplier,
    left: u32,
}

impl Supplier for Breaking {
    ghost stock = { λ s. s.list };

    fn tell(&mut self, names: &[SymbolId]) -> Result<(), AllocError> {
        self.list.tell(names)
    }

    fn offer(&mut self, at: u32, expected: &[SymbolId]) -> Result<Option<SymbolId>, AllocError> {
        if self.left == 0 {
            return Err(AllocError);
        }
        self.left -= 1;
        self.list.offer(at, expected)
    }
}

// A supplier of one lexeme that answers so many calls.
fn supplier_that_breaks(
    alloc: Global,
    p: &Prepared,
    name: &str,
    left: u32,
) -> Result<Box<dyn Supplier>, Fail>
    ensures begun { IfOk result (λ s. stock s ≡ told (stock s).names) }
    ensures few { IfOk result (λ s. length (stock s).names ≤ 8) }
{
    let symbols = lexemes_named(alloc, p, &[name])?;
    if symbols.len() > 8 {
        return Err(Fail::new("more than eight"));
    }
    let mut list = ListSupplier::new(alloc);
    list.tell(&symbols)?;
    Ok(Box::new(alloc, Breaking { list, left })?)
}

fn breaks_with<L: Ledger>(
    blank: Blank,
    alloc: Global,
    p: &Prepared,
    left: u32,
) -> Result<bool, Fail>
    requires name { blank.name ≡ L.name }
    requires parts { blank.parts ≡ L.parts }
    requires some { 0 < blank.parts }
{
    let chars = own_chars(alloc, "12;3")?;
    let supplier = supplier_that_breaks(alloc, p, "semi", left)?;
    let breaks = read_slipping(
        alloc,
        p,
        &chars,
        supplier,
        &mut Steps::<L>::of_blank(blank),
    ).is_err();
    drop(chars);
    Ok(breaks)
}

fn breaks_after(alloc: Global, p: &Prepared, left: u32) -> Result<bool, Fail> {
    breaks_with::<Brand>(Blank::new(1), alloc, p, left)
}

// Two lexemes are supplied, one where the second number stands and one at the end.
#[test]
fn reading_ends_where_a_supplier_refuses(rt: HostRuntime) -> Result<(), Fail> {
    let p = own_grammar(rt.alloc(), ENDED)?;
    for left in 0..4 {
        let breaks = breaks_after(rt.alloc(), &p, left)?;
        assert!(rt; breaks == (left < 2), "{left}");
    }
    Ok(())
}

// What the first piece of a text is.
#[derive(Clone, Copy)]
enum First {
    Token(u32),
    Skipped(u32),
    Stuck,
}

const WORDS: &str = "S ::= W+ W ::= kw | id kw ~ 'if' id ~ [a-z]+ :discard ~ space space ~ [\\s]+";

static FIRSTS: [(&str, First); 4] = [
    ("if iffy!", First::Token(2)),
    (" iffy!", First::Skipped(1)),
    ("iffy!", First::Token(4)),
    ("!", First::Stuck),
];

fn is_first(alloc: Global, p: &Prepared, piece: &Piece, first: First) -> Result<bool, AllocError> {
    match (piece, first) {
        (Piece::Token { length }, First::Token(wanted)) => Ok(*length == wanted),
        (Piece::Skipped { length }, First::Skipped(wanted)) => Ok(*length == wanted),
        (Piece::Stuck { found, expected }, First::Stuck) => Ok(
            found.is_empty() && are_lexemes(alloc, p, expected.as_slice(), &["id", "kw"])?,
        ),
        _ => Ok(false),
    }
}

// Whether the first piece is so, and the recognizer stands after it.
fn is_taken<L: Ledger>(
    alloc: Global,
    p: &Prepared,
    chars: &Chars,
    first: First,
    steps: &mut Steps<L>,
) -> Result<bool, Fail>
    requires { length chars.now ≤ 1048576 }
{
    if chars.len() == 0 || p.flat().start_count() == 0 {
        return Ok(false);
    }
    let mut recce = Recce::new(alloc, p.flat(), 0)?;
    let piece = next_piece(alloc, p, &mut recce, chars, 0, steps)?;
    let moved = matches!(first, First::Token(_));
    let is = is_first(alloc, p, &piece, first)? && recce.place() == u32::from(moved);
    drop(recce);
    Ok(is)
}

fn begins_with<L: Ledger>(
    blank: Blank,
    alloc: Global,
    p: &Prepared,
    row: &(&str, First),
) -> Result<bool, Fail>
    requires name { blank.name ≡ L.name }
    requires parts { blank.parts ≡ L.parts }
    requires some { 0 < blank.parts }
{
    let chars = own_chars(alloc, row.0)?;
    let is = is_taken(alloc, p, &chars, row.1, &mut Steps::<L>::of_blank(blank));
    drop(chars);
    is
}

fn begins_so(alloc: Global, p: &Prepared, row: &(&str, First)) -> Result<bool, Fail> {
    begins_with::<Brand>(Blank::new(1), alloc, p, row)
}

#[test]
fn pieces_are_taken_one_by_one(rt: HostRuntime) -> Result<(), Fail> {
    let p = own_grammar(rt.alloc(), WORDS)?;
    for row in &FIRSTS {
        assert!(rt; begins_so(rt.alloc(), &p, row)?, "{}", row.0);
    }
    Ok(())
}
