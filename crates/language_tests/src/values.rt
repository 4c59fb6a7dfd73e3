//! Values and their texts, and the texts of actions.
ghost use Rattle.std.specs.Prelude.{◌<◌, length, IfOk};

use std::alloc::Global;
use std::test::Fail;
use value_text::{
    Action, DescItem, DescriptorRefusal, NoMemory, Pool, ValueId, append_text, read_descriptor,
};

// The text of a pool's value.
fn text_of(alloc: Global, pool: &Pool, id: ValueId) -> Result<Vec<u8>, NoMemory>
    requires { id < length pool.now }
{
    let mut out = Vec::new(alloc);
    append_text(pool, id, &mut out)?;
    Ok(out)
}

fn is_text(alloc: Global, pool: &Pool, id: ValueId, wanted: &[u8]) -> Result<bool, NoMemory>
    requires { id < length pool.now }
{
    Ok(text_of(alloc, pool, id)?.as_slice() == wanted)
}

#[test]
fn texts_are_escaped(rt: HostRuntime) -> Result<(), Fail> {
    let mut pool = Pool::new(rt.alloc());
    let id = pool.text("a\"b\u{e4} c$@\\\n\r\t\u{0}\u{9f}\u{e4}\u{1d11e}")?;
    let wanted = "\"a\\\"b\u{e4} c\\$\\@\\\\\\n\\r\\t\\x{00}\\x{9f}\u{e4}\u{1d11e}\"";
    assert!(rt; is_text(rt.alloc(), &pool, id, wanted.as_bytes())?);
    Ok(())
}

// A list of numbers and other values, in a pool that was used before.
fn list(pool: &mut Pool) -> Result<ValueId, NoMemory>
    ensures { IfOk result (λ id. id < length pool.new) }
{
    pool.num(7)?;
    pool.clear();
    let number = pool.num(18_446_744_073_709_551_615)?;
    let none = pool.undef()?;
    let empty = pool.list(&[])?;
    pool.list(&[number, none, empty, number])
}

#[test]
fn lists_have_commas(rt: HostRuntime) -> Result<(), Fail> {
    let mut pool = Pool::new(rt.alloc());
    let id = list(&mut pool)?;
    let wanted = b"[18446744073709551615,undef,[],18446744073709551615]";
    assert!(rt; is_text(rt.alloc(), &pool, id, wanted)?);
    Ok(())
}

// A list of a list, and so on down.
fn deep(pool: &mut Pool) -> Result<ValueId, NoMemory>
    ensures { IfOk result (λ id. id < length pool.new) }
{
    let mut id = pool.undef()?;
    for _ in 0..1_000_000 {
        id = pool.list(&[id])?;
    }
    Ok(id)
}

// How long the text of a deep value is.
fn deep_len(alloc: Global, pool: &mut Pool) -> Result<usize, NoMemory> {
    let id = deep(pool)?;
    Ok(text_of(alloc, pool, id)?.len())
}

#[test]
fn a_deep_value_has_a_text(rt: HostRuntime) -> Result<(), Fail> {
    let mut pool = Pool::new(rt.alloc());
    assert!(rt; deep_len(rt.alloc(), &mut pool)? == 2_000_005);
    Ok(())
}

// Whether the text tells no action.
fn is_bad(alloc: Global, text: &str) -> bool {
    matches!(
        read_descriptor(alloc, text),
        Err(DescriptorRefusal::BadItem)
    )
}

// Whether the text tells these items.
fn has_items(alloc: Global, text: &str, wanted: &[DescItem]) -> bool {
    match read_descriptor(alloc, text) {
        Ok(Action::Items(items)) => items.as_slice() == wanted,
        _ => false,
    }
}

#[test]
fn descriptors_tell_actions(rt: HostRuntime) {
    let wanted = [DescItem::G1Start, DescItem::Values, DescItem::Symbol];
    assert!(rt; has_items(rt.alloc(), "[ g1start ,value, symbol]", &wanted));
    assert!(rt; has_items(rt.alloc(), "[ ]", &[]));
    assert!(rt; matches!(read_descriptor(rt.alloc(), "::first"), Ok(Action::First)));
}

static OTHERS: &[&str] = &["[name,]", "[Name]", "name", "::last", "[", ""];

#[test]
fn other_texts_tell_no_action(rt: HostRuntime) {
    for text in OTHERS {
        assert!(rt; is_bad(rt.alloc(), text), "{text}");
    }
}
