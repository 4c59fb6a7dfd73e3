//! A supplier refuses a lexeme, and is let go.
use crate::runs::both_tellers;
use grammar_core::SymbolId;
use run_scenes::{CHECKED, EXPECTED, Given, REPORTED, SCRIPTED, SUM, WORKED, run_with};
use slippers::{ListSupplier, Supplier};
use std::alloc::{AllocError, Global};
use std::cell::Cell;
use std::rc::Rc;
use std::test::Fail;

// Counts its calls of `offer`, and refuses one of them.
#[derive(Drop)]
struct Refusing {
    inner: ListSupplier,
    refused: u32,
    calls: Rc<Cell<u32>>,
}

impl Supplier for Refusing {
    ghost stock = { λ s. s.inner };

    fn tell(&mut self, names: &[SymbolId]) -> Result<(), AllocError> {
        self.inner.tell(names)
    }

    fn offer(&mut self, at: u32, expected: &[SymbolId]) -> Result<Option<SymbolId>, AllocError> {
        self.calls.set(self.calls.get().wrapping_add(1));
        if self.calls.get() == self.refused {
            return Err(AllocError);
        }
        self.inner.offer(at, expected)
    }
}

const OUT_OF_MEMORY: &[u8] = b"slif: out of memory\n";

/// Two of three semicolons are supplied.
pub(crate) const SEMICOLONS: Given<'static> = Given {
    words: &["slip", "--grammar", "g.slif", "--give", "semi"],
    grammar: b":default ::= action => ::array\nS ::= X+\nX ::= N semi\nN ~ [\\d]\nsemi ~ ';'\n",
    input: b"12;3",
    ..SUM
};

pub(crate) const SEMICOLON_LINES: &[u8] = b"[[\"1\",\"\"],[\"2\",\";\"],[\"3\",\"\"]]\n";

fn supplier_refusing(
    alloc: Global,
    refused: u32,
    calls: &Rc<Cell<u32>>,
) -> Result<Box<dyn Supplier>, AllocError> {
    let supplier = Refusing {
        inner: ListSupplier::new(alloc),
        refused,
        calls: Rc::clone(calls)?,
    };
    let supplier: Box<dyn Supplier> = Box::new(alloc, supplier)?;
    Ok(supplier)
}

// Whether a run ends so after so many calls, and the supplier is let go in the end.
fn refuses(
    alloc: Global,
    given: &Given<'_>,
    refused: u32,
    met: u32,
    status: u8,
    out: &[u8],
    err: &[u8],
) -> Result<bool, AllocError> {
    let calls = Rc::new(alloc, Cell::new(0))?;
    let supplier = supplier_refusing(alloc, refused, &calls)?;
    let end = run_with(alloc, given, both_tellers(alloc)?, supplier)?;
    Ok(end.is(status, out, err) && calls.get() == met && Rc::strong_count(&calls) == 1)
}

// Two lexemes are supplied, so it is asked twice.
#[test]
fn a_supplier_refuses_each_lexeme_in_turn(rt: HostRuntime) -> Result<(), Fail> {
    let alloc = rt.alloc();
    for call in 1..3 {
        assert!(rt; refuses(alloc, &SEMICOLONS, call, call, 5, b"", OUT_OF_MEMORY)?);
    }
    assert!(rt; refuses(alloc, &SEMICOLONS, 3, 2, 0, SEMICOLON_LINES, b"")?);
    Ok(())
}

// Whether the supplier of a job that asks for nothing of it is let go.
fn is_let_go(alloc: Global, given: &Given<'_>) -> Result<bool, AllocError> {
    let calls = Rc::new(alloc, Cell::new(0))?;
    let supplier = supplier_refusing(alloc, 1, &calls)?;
    let _ = run_with(alloc, given, both_tellers(alloc)?, supplier)?;
    Ok(calls.get() == 0 && Rc::strong_count(&calls) == 1)
}

#[test]
fn other_jobs_let_their_supplier_go(rt: HostRuntime) -> Result<(), Fail> {
    let alloc = rt.alloc();
    let no_words = Given { words: &[], ..SUM };
    assert!(rt; is_let_go(alloc, &no_words)?);
    for given in [SUM, CHECKED, EXPECTED, REPORTED, SCRIPTED, WORKED] {
        assert!(rt; is_let_go(alloc, &given)?);
    }
    Ok(())
}
