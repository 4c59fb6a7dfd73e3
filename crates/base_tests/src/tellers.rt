//! Tellers: what they make of each call, and that one that refuses is let go.
ghost use Rattle.std.specs.Prelude.{◌≡◌, ◌<◌, [], length};
ghost use Rattle.grammar_core.specs.Written.{IsWritten};
ghost use Rattle.value_text.specs.Meaning.{meaning_of};
ghost use Rattle.valuator.specs.Play.{IsMeaningOf};
ghost use Rattle.base_tests.specs.Rows.{ends_nulled};

use crate::plays::{MADE, SEEN, all_described, described_by, nulled_at_the_end, play_nulled};
use grammar_core::{RuleId, Span, SymbolId, TreeStep, Written};
use slif_base::chars_of;
use std::alloc::Global;
use std::cell::Cell;
use std::rc::Rc;
use std::test::Fail;
use valuator::{ArrayTeller, Show, Teller, TreeTeller, play};
use value_text::{Action, Items, Meaning, NoMemory};

fn tell_described(
    teller: &mut ArrayTeller,
    made: &Action,
    seen: &Action,
    out: &mut Vec<u8>,
) -> Result<(), NoMemory>
    requires { teller.old ≡ [] }
{
    teller.token("x", "x", 1, 1, 0, Some(seen))?;
    teller.rule(RuleId(1), "B", 1, &[true], 1, 1, 0, 1, made)?;
    teller.nulling("C", 2, 1, Some(made))?;
    teller.rule(RuleId(0), "S", 2, &[true, true], 1, 1, 0, 1, made)?;
    teller.finish(out)
}

// Puts the line of a derivation of which all items are told.
fn put_described(alloc: Global, out: &mut Vec<u8>) -> Result<(), NoMemory> {
    let made = described_by(alloc, &MADE)?;
    let seen = described_by(alloc, &SEEN)?;
    let mut teller = ArrayTeller::new(alloc);
    let told = tell_described(&mut teller, &made, &seen, out);
    drop(teller);
    told
}

#[test]
fn descriptors_tell_all(rt: HostRuntime) -> Result<(), Fail> {
    let line = b"[\"S\",1,1,0,1,[\"B\",1,1,0,1,[\"x\",1,1,\"x\"]],[\"C\",2,0,1,0]]\n";
    let mut out = Vec::new(rt.alloc());
    put_described(rt.alloc(), &mut out)?;
    assert!(rt; out.as_slice() == line.as_slice());
    Ok(())
}

fn tell_in_brackets(teller: &mut ArrayTeller, out: &mut Vec<u8>) -> Result<(), NoMemory>
    requires { teller.old ≡ [] }
{
    let parts = [true, false, true];
    let inner = [false, true, false];
    teller.token("'('", "(", 0, 1, 0, None)?;
    teller.token("N", "1", 1, 1, 1, None)?;
    teller.token("comma", ",", 2, 1, 2, None)?;
    teller.token("N", "2", 3, 1, 3, None)?;
    teller.rule(RuleId(1), "L", 3, &parts, 1, 3, 1, 3, &Action::Array)?;
    teller.token("')'", ")", 4, 1, 4, None)?;
    teller.rule(RuleId(0), "E", 3, &inner, 0, 5, 0, 5, &Action::Array)?;
    teller.finish(out)
}

fn put_in_brackets(alloc: Global, out: &mut Vec<u8>) -> Result<(), NoMemory> {
    let mut teller = ArrayTeller::new(alloc);
    let told = tell_in_brackets(&mut teller, out);
    drop(teller);
    told
}

#[test]
fn separators_and_hidden_parts_are_left_out(rt: HostRuntime) -> Result<(), Fail> {
    let mut out = Vec::new(rt.alloc());
    put_in_brackets(rt.alloc(), &mut out)?;
    assert!(rt; out.as_slice() == b"[[\"1\",\"2\"]]\n".as_slice());
    Ok(())
}

fn tell_tree(teller: &mut TreeTeller, out: &mut Vec<u8>) -> Result<(), NoMemory>
    requires { teller.old ≡ [] }
{
    teller.nulling("B", 0, 0, None)?;
    teller.token("'a'", "a", 0, 1, 0, None)?;
    teller.rule(RuleId(1), "B", 1, &[true], 0, 1, 0, 1, &Action::Undef)?;
    teller.rule(RuleId(0), "S", 2, &[true, true], 0, 1, 0, 1, &Action::Undef)?;
    teller.finish(out)
}

fn put_tree(alloc: Global, out: &mut Vec<u8>) -> Result<(), NoMemory> {
    let mut teller = TreeTeller::new(alloc);
    let told = tell_tree(&mut teller, out);
    drop(teller);
    told
}

#[test]
fn trees_name_their_rules(rt: HostRuntime) -> Result<(), Fail> {
    let mut out = Vec::new(rt.alloc());
    put_tree(rt.alloc(), &mut out)?;
    assert!(rt; out.as_slice() == b"[\"S\",0,[\"B\"],[\"B\",1,[\"'a'\",\"a\"]]]\n".as_slice());
    Ok(())
}

// Counts its calls, and refuses once so many were made.
#[derive(Drop)]
struct Counting {
    inner: TreeTeller,
    most: u32,
    calls: Rc<Cell<u32>>,
}

impl Counting {
    fn call(&self) -> Result<(), NoMemory> {
        let calls = self.calls.get();
        self.calls.set(calls.wrapping_add(1));
        if calls < self.most {
            Ok(())
        } else {
            Err(NoMemory)
        }
    }
}

impl Teller for Counting {
    ghost use Rattle.grammar_model.specs.declared.Show.TheVariants.{Tree as ShowTree};

    ghost held = { λ t. t.inner };

    ghost shows = { λ _. ShowTree };

    fn kind(&self) -> Show {
        Show::Tree
    }

    fn token(
        &mut self,
        name: &str,
        text: &str,
        start: u32,
        length: u32,
        g1start: u32,
        action: Option<&Action>,
    ) -> Result<(), NoMemory> {
        self.call()?;
        self.inner.token(name, text, start, length, g1start, action)
    }

    fn nulling(
        &mut self,
        name: &str,
        start: u32,
        g1start: u32,
        action: Option<&Action>,
    ) -> Result<(), NoMemory> {
        self.call()?;
        self.inner.nulling(name, start, g1start, action)
    }

    fn rule(
        &mut self,
        rule: RuleId,
        name: &str,
        children: u32,
        shown: &[bool],
        start: u32,
        length: u32,
        g1start: u32,
        g1length: u32,
        action: &Action,
    ) -> Result<(), NoMemory> {
        self.call()?;
        self.inner.rule(
            rule, name, children, shown, start, length, g1start, g1length, action,
        )
    }

    fn finish(&mut self, out: &mut Vec<u8>) -> Result<(), NoMemory> {
        self.call()?;
        self.inner.finish(out)
    }
}

const ONE: [Span; 1] = [Span {
    start: 0,
    length: 1,
}];

// Plays a token of a grammar without rules to tellers, and answers whether they were told.
fn play_symbol(
    alloc: Global,
    w: &Written,
    symbol: SymbolId,
    tellers: &mut Vec<Box<dyn Teller>>,
) -> Result<bool, Fail>
    requires bare { w.now.rules ≡ [] }
    requires known { symbol < length w.now.names }
{
    let chars = chars_of(alloc, b"x")?;
    if chars.len() < 1 {
        return Err(Fail::new("the text is short"));
    }
    let meaning = Meaning {
        rules: Items::new(Vec::new(alloc)),
        lexeme: None,
    };
    let step = TreeStep::Token {
        symbol,
        from: 0,
        to: 1,
    };
    Ok(play(alloc, &[step], &meaning, w, &ONE, &chars, tellers).is_ok())
}

// Plays one token to tellers, and answers whether they were told.
fn play_token(alloc: Global, tellers: &mut Vec<Box<dyn Teller>>) -> Result<bool, Fail> {
    let mut w = Written::new(alloc);
    let symbol = w.symbol_new("x")?;
    play_symbol(alloc, &w, symbol, tellers)
}

// What is left after a play: whether all were told, how many tellers, their calls, and who holds the count.
type Left = (bool, usize, u32, usize);

// Whether this is left after a play of one token.
fn leaves(
    alloc: Global,
    calls: &Rc<Cell<u32>>,
    tellers: &mut Vec<Box<dyn Teller>>,
    wanted: Left,
) -> Result<bool, Fail> {
    let told = play_token(alloc, tellers)?;
    Ok((told, tellers.len(), calls.get(), Rc::strong_count(calls)) == wanted)
}

// Whether a teller is told once, and let go at the second call.
fn is_told_once(
    alloc: Global,
    calls: &Rc<Cell<u32>>,
    tellers: &mut Vec<Box<dyn Teller>>,
) -> Result<bool, Fail> {
    Ok(
        leaves(alloc, calls, tellers, (true, 1, 1, 2))?
            && leaves(alloc, calls, tellers, (false, 0, 2, 1))?,
    )
}

fn refuses_second(alloc: Global, calls: &Rc<Cell<u32>>) -> Result<bool, Fail> {
    let mut tellers = counted(alloc, 1, calls)?;
    let once = is_told_once(alloc, calls, &mut tellers);
    drop(tellers);
    once
}

#[test]
fn no_teller_is_left_where_one_refuses(rt: HostRuntime) -> Result<(), Fail> {
    let calls = Rc::new(rt.alloc(), Cell::new(0))?;
    assert!(rt; refuses_second(rt.alloc(), &calls)?);
    Ok(())
}

// A teller that counts its calls, and refuses once `most` were made.
fn counted(alloc: Global, most: u32, calls: &Rc<Cell<u32>>) -> Result<Vec<Box<dyn Teller>>, Fail> {
    let counting = Counting {
        inner: TreeTeller::new(alloc),
        most,
        calls: Rc::clone(calls)?,
    };
    let mut tellers: Vec<Box<dyn Teller>> = Vec::new(alloc);
    tellers.push(Box::new(alloc, counting)?)?;
    Ok(tellers)
}

// Plays four steps to tellers, and answers whether they were told.
fn play_four(
    alloc: Global,
    w: &Written,
    meaning: &Meaning,
    tellers: &mut Vec<Box<dyn Teller>>,
) -> Result<bool, Fail>
    requires rules { w.now.rules ≡ ends_nulled }
    requires sound { IsWritten w.now }
    requires meaning { IsMeaningOf w.now (meaning_of meaning.now) }
{
    let chars = chars_of(alloc, b" x")?;
    let told = chars.len() >= 2 && play_nulled(alloc, meaning, w, &chars, tellers).is_ok();
    drop(chars);
    Ok(told)
}

// Whether this is left after a play of four steps to a teller that counts.
fn leaves_counted(
    alloc: Global,
    w: &Written,
    meaning: &Meaning,
    most: u32,
    calls: &Rc<Cell<u32>>,
    wanted: Left,
) -> Result<bool, Fail>
    requires rules { w.now.rules ≡ ends_nulled }
    requires sound { IsWritten w.now }
    requires meaning { IsMeaningOf w.now (meaning_of meaning.now) }
{
    let mut tellers = counted(alloc, most, calls)?;
    let told = play_four(alloc, w, meaning, &mut tellers);
    let (left, made, holders) = (tellers.len(), calls.get(), Rc::strong_count(calls));
    drop(tellers);
    Ok((told?, left, made, holders) == wanted)
}

fn is_left(
    alloc: Global,
    w: &Written,
    meaning: &Meaning,
    most: u32,
    wanted: Left,
) -> Result<bool, Fail>
    requires rules { w.now.rules ≡ ends_nulled }
    requires sound { IsWritten w.now }
    requires meaning { IsMeaningOf w.now (meaning_of meaning.now) }
{
    let calls = Rc::new(alloc, Cell::new(0))?;
    let left = leaves_counted(alloc, w, meaning, most, &calls, wanted);
    drop(calls);
    left
}

// Whether a play ends with the first call that is refused, whichever it is.
fn ends_refused(alloc: Global, w: &Written, meaning: &Meaning) -> Result<bool, Fail>
    requires rules { w.now.rules ≡ ends_nulled }
    requires sound { IsWritten w.now }
    requires meaning { IsMeaningOf w.now (meaning_of meaning.now) }
{
    for most in 0..4 {
        if !is_left(alloc, w, meaning, most, (false, 0, most + 1, 1))? {
            return Ok(false);
        }
    }
    is_left(alloc, w, meaning, 4, (true, 1, 4, 2))
}

fn each_refused(alloc: Global, w: &Written) -> Result<bool, Fail>
    requires rules { w.now.rules ≡ ends_nulled }
    requires sound { IsWritten w.now }
{
    let meaning = all_described(alloc)?;
    let ends = ends_refused(alloc, w, &meaning);
    drop(meaning);
    ends
}

#[test]
fn each_refused_call_ends_the_play(rt: HostRuntime) -> Result<(), Fail> {
    let w = nulled_at_the_end(rt.alloc())?;
    assert!(rt; each_refused(rt.alloc(), &w)?);
    Ok(())
}
