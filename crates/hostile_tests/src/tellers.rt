//! A teller refuses a rule.
ghost use Rattle.std.specs.Prelude.{IfOk};
ghost use Rattle.valuator.specs.Told.{states};
ghost use Rattle.value_lines.specs.Writing.{AreBothTellers};

use crate::runs::list_supplier;
use grammar_core::RuleId;
use run_scenes::{Given, SUM, SUM_LINES, TREE_LINES, TREES, run_with};
use std::alloc::{AllocError, Global};
use std::cell::Cell;
use std::rc::Rc;
use std::test::Fail;
use valuator::{ArrayTeller, Show, Teller, TreeTeller};
use value_text::{Action, NoMemory};

// Counts its calls of `rule`, and refuses one of them.
#[derive(Drop)]
struct Refusing {
    inner: ArrayTeller,
    refused: u32,
    calls: Rc<Cell<u32>>,
}

impl Teller for Refusing {
    ghost use Rattle.grammar_model.specs.declared.Show.TheVariants.{Array as ShowArray};

    ghost held = { λ t. t.inner };

    ghost shows = { λ _. ShowArray };

    fn kind(&self) -> Show {
        Show::Array
    }

    fn token(
        &mut self,
        name: &str,
        text: &str,
        start: u32,
        length: u32,
        g1start: u32,
        action: Option<&Action>,
    ) -> Result<(), NoMemory> {
        self.inner.token(name, text, start, length, g1start, action)
    }

    fn nulling(
        &mut self,
        name: &str,
        start: u32,
        g1start: u32,
        action: Option<&Action>,
    ) -> Result<(), NoMemory> {
        self.inner.nulling(name, start, g1start, action)
    }

    fn rule(
        &mut self,
        rule: RuleId,
        name: &str,
        children: u32,
        shown: &[bool],
        start: u32,
        length: u32,
        g1start: u32,
        g1length: u32,
        action: &Action,
    ) -> Result<(), NoMemory> {
        self.calls.set(self.calls.get().wrapping_add(1));
        if self.calls.get() == self.refused {
            return Err(NoMemory);
        }
        self.inner.rule(
            rule, name, children, shown, start, length, g1start, g1length, action,
        )
    }

    fn finish(&mut self, out: &mut Vec<u8>) -> Result<(), NoMemory> {
        self.inner.finish(out)
    }
}

const FIRST_LINE: &[u8] = b"[[[\"1\"],\"+\",[\"2\"]],\"+\",[\"3\"]]\n";

const OUT_OF_MEMORY: &[u8] = b"slif: out of memory\n";

// A teller of each kind, of which that of arrays refuses the call.
fn tellers_refusing(
    alloc: Global,
    refused: u32,
    calls: &Rc<Cell<u32>>,
) -> Result<Vec<Box<dyn Teller>>, AllocError>
    ensures { IfOk result (λ tellers. AreBothTellers (states tellers.items shows held)) }
{
    let teller = Refusing {
        inner: ArrayTeller::new(alloc),
        refused,
        calls: Rc::clone(calls)?,
    };
    let array: Box<dyn Teller> = Box::new(alloc, teller)?;
    let tree: Box<dyn Teller> = Box::new(alloc, TreeTeller::new(alloc))?;
    let mut tellers = Vec::new(alloc);
    tellers.push(tree)?;
    tellers.push(array)?;
    Ok(tellers)
}

// Whether a run ends so.
fn ends_refusing(
    alloc: Global,
    given: &Given<'_>,
    refused: u32,
    calls: &Rc<Cell<u32>>,
    status: u8,
    out: &[u8],
    err: &[u8],
) -> Result<bool, AllocError> {
    let tellers = tellers_refusing(alloc, refused, calls)?;
    let end = run_with(alloc, given, tellers, list_supplier(alloc)?)?;
    Ok(end.is(status, out, err))
}

// Whether a run ends so after so many calls, and the teller is let go in the end.
fn refuses(
    alloc: Global,
    given: &Given<'_>,
    refused: u32,
    met: u32,
    status: u8,
    out: &[u8],
    err: &[u8],
) -> Result<bool, AllocError> {
    let calls = Rc::new(alloc, Cell::new(0))?;
    let ends = ends_refusing(alloc, given, refused, &calls, status, out, err)?;
    Ok(ends && calls.get() == met && Rc::strong_count(&calls) == 1)
}

// Each of the two derivations has five rules.
#[test]
fn a_teller_refuses_each_rule_in_turn(rt: HostRuntime) -> Result<(), Fail> {
    let alloc = rt.alloc();
    for call in 1..11 {
        let told = if call <= 5 { b"" } else { FIRST_LINE };
        assert!(rt; refuses(alloc, &SUM, call, call, 5, told, OUT_OF_MEMORY)?);
    }
    assert!(rt; refuses(alloc, &SUM, 11, 10, 0, SUM_LINES, b"")?);
    assert!(rt; refuses(alloc, &TREES, 1, 0, 0, TREE_LINES, b"")?);
    Ok(())
}
