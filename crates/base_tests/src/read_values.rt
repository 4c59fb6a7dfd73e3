//! Texts of values that are read back.
use std::alloc::{AllocError, Global};
use std::test::Fail;
use tree_text::{Part, ReadRefusal, read_value};

fn is_text(parts: &[Part], wanted: &str) -> bool {
    match parts {
        [Part::Text(text)] => text.as_str() == wanted,
        _ => false,
    }
}

#[test]
fn escapes_are_read(rt: HostRuntime) -> Result<(), Fail> {
    let value = "\"a\\\"\\$\\@\\\\\\n\\r\\t\\x{00}\\x{9f}\u{e4}\u{1d11e}\"";
    let parts = read_value(rt.alloc(), value)?;
    assert!(rt; is_text(&parts, "a\"$@\\\n\r\t\u{0}\u{9f}\u{e4}\u{1d11e}"));
    Ok(())
}

fn is_list(parts: &[Part]) -> bool {
    matches!(
        parts,
        [
            Part::Open,
            Part::Number(18_446_744_073_709_551_615),
            Part::Undefined,
            Part::Open,
            Part::Close,
            Part::Close,
        ]
    )
}

#[test]
fn lists_are_read(rt: HostRuntime) -> Result<(), Fail> {
    let parts = read_value(rt.alloc(), "[18446744073709551615,undef,[]]")?;
    assert!(rt; is_list(&parts));
    Ok(())
}

fn put_many(text: &mut String, c: char) -> Result<(), AllocError> {
    for _ in 0..100_000 {
        text.push(c)?;
    }
    Ok(())
}

// How many parts a deep list has, which is written first.
fn deep_count(alloc: Global, text: &mut String) -> Result<usize, ReadRefusal> {
    put_many(text, '[')?;
    put_many(text, ']')?;
    Ok(read_value(alloc, text.as_str())?.len())
}

#[test]
fn a_deep_list_is_read(rt: HostRuntime) -> Result<(), Fail> {
    let mut text = String::new(rt.alloc());
    assert!(rt; deep_count(rt.alloc(), &mut text)? == 200_000);
    Ok(())
}

// Texts, and how much is left where each is refused.
static REFUSED: &[(&str, usize)] = &[
    ("", 0),
    ("01", 2),
    ("18446744073709551616", 20),
    ("[1,]", 1),
    ("[1 ]", 2),
    ("[1][]", 2),
    ("[1", 0),
    ("\"$\"", 2),
    ("\"\\x{0a}\"", 7),
];

fn left_of(alloc: Global, text: &str) -> Option<usize> {
    match read_value(alloc, text) {
        Err(ReadRefusal::NotValue { left }) => Some(left),
        _ => None,
    }
}

#[test]
fn other_texts_are_refused(rt: HostRuntime) {
    for (text, left) in REFUSED {
        assert!(rt; left_of(rt.alloc(), text) == Some(*left));
    }
}
