//! Character classes: rows of the manual, and each public function.
use char_class::{ClassRefusal, is_word, read_class, set_of_char};
use std::alloc::Global;

fn has(alloc: Global, class: &str, c: char) -> Option<bool> {
    match read_class(alloc, class) {
        Ok(set) => Some(set.contains(c)),
        Err(_) => None,
    }
}

fn refusal(alloc: Global, class: &str) -> Option<ClassRefusal> {
    match read_class(alloc, class) {
        Ok(_) => None,
        Err(refusal) => Some(refusal),
    }
}

static MEMBERS: &[(&str, char, bool)] = &[
    ("[a-c]", 'b', true),
    ("[a-c]", '-', false),
    ("[+-]", '-', true),
    ("[\\w-.]", '-', true),
    ("[\\w-.]", '.', true),
    ("[\\w-.]", 'x', true),
    ("[^a]:i", 'a', false),
    ("[^a]:i", 'A', false),
    ("[\\]]", ']', true),
    ("[k]:i", '\u{212A}', true),
    ("[\\x{3B1}-\\x{3C9}]", 'λ', true),
    ("[]", 'a', false),
    ("[^]", 'λ', true),
];

static REFUSALS: &[(&str, ClassRefusal)] = &[
    ("[z-a]", ClassRefusal::BadRange),
    ("[\\q]", ClassRefusal::BadEscape),
    ("[[:cntrl:]]", ClassRefusal::BadPosix),
    ("[a-\\d]", ClassRefusal::BadRange),
    ("[[:alpha:]a\\x{110000}[:cntrl:]]", ClassRefusal::BadEscape),
];

#[test]
fn members(rt: HostRuntime) {
    for (class, c, member) in MEMBERS {
        assert!(rt; has(rt.alloc(), class, *c) == Some(*member), "{class}");
    }
}

#[test]
fn refusals(rt: HostRuntime) {
    for (class, wanted) in REFUSALS {
        assert!(rt; refusal(rt.alloc(), class) == Some(*wanted), "{class}");
    }
}

#[test]
fn single(rt: HostRuntime) {
    assert!(rt; is_word('é'));
    assert!(rt; !is_word('-'));
    match set_of_char(rt.alloc(), 'ſ', true) {
        Ok(set) => assert!(rt; set.contains('S') && !set.contains('t')),
        Err(_) => panic!(rt; "memory"),
    }
}
