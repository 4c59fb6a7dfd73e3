//! The character sets of quoted texts and classes, and their numbers.
ghost use Rattle.std.specs.Prelude.{◌≡◌, ◌≤◌, ◌+◌, ◌++◌, length, map, nat_lt, chars, IfOk, OnOk};
ghost use Rattle.grammar_model.specs.declared.limits.TheConstants.{MOST_ENTRIES};
ghost use Rattle.language_model.specs.Classes.{class_of, class_of_char};
ghost use Rattle.language_model.specs.Classes as classes;
ghost use Rattle.language_model.specs.Building.{sets_of, count_from, numbered_from};
ghost use Rattle.dsl_build.specs.Lexical.{class_sets};
ghost use Rattle.dsl_build.specs.Ready.{IsReadable};

use crate::quoted::quoted;
use char_class::{CharSet, ClassRefusal, read_class, set_of_char};
use dsl_faults::{is_bracket, is_quote, modifier_len};
use dsl_statement::Spelled;
use grammar_core::SymbolId;
use std::alloc::{AllocError, Global};

fn push_characters(
    alloc: Global,
    sets: &mut Vec<CharSet>,
    characters: &[char],
    caseless: bool,
) -> Result<(), AllocError>
    ensures { OnOk result (sets.new.items ≡ sets.old.items ++ map (λ c. class_of_char c caseless) characters.now) }
{
    for c in characters {
        sets.push(set_of_char(alloc, *c, caseless)?)?;
    }
    Ok(())
}

fn is_caseless(text: &str) -> bool
    ensures { result ≡ nat_lt 0 (classes.modifier_len text.now) }
{
    modifier_len(text.as_bytes()) > 0
}

// A class that cannot be read gives no set.
fn push_class(alloc: Global, sets: &mut Vec<CharSet>, text: &str) -> Result<(), AllocError>
    ensures { OnOk result (sets.new.items ≡ sets.old.items ++ class_sets (class_of (chars text.now))) }
{
    match read_class(alloc, text) {
        Ok(set) => {
            sets.push(set)?;
            Ok(())
        }
        Err(ClassRefusal::NoMemory) => Err(AllocError),
        Err(_) => Ok(()),
    }
}

/// Puts the sets of the token after the others.
pub fn push_sets(alloc: Global, sets: &mut Vec<CharSet>, token: &Spelled) -> Result<(), AllocError>
    requires { IsReadable token.now }
    ensures { OnOk result (sets.new.items ≡ sets.old.items ++ sets_of token.now) }
{
    let text = token.content.as_str();
    if is_quote(token) {
        let characters = quoted(alloc, text)?;
        push_characters(alloc, sets, &characters, is_caseless(text))
    } else if is_bracket(token) {
        push_class(alloc, sets, text)
    } else {
        Ok(())
    }
}

/// Numbers one after another.
pub fn numbers_from(alloc: Global, from: usize, count: usize) -> Result<Vec<SymbolId>, AllocError>
    requires { from + count ≤ MOST_ENTRIES }
    ensures { IfOk result (λ numbers. numbers.items ≡ count_from from count) }
{
    let mut numbers = Vec::with_capacity(alloc, count)?;
    for k in 0..count {
        numbers.push(SymbolId((from + k) as u32))?;
    }
    Ok(numbers)
}

/// The sets, each with its symbol. The first one's has this number.
pub fn numbered(
    alloc: Global,
    first: usize,
    mut sets: Vec<CharSet>,
) -> Result<Vec<(SymbolId, CharSet)>, AllocError>
    requires { first + length sets.items ≤ MOST_ENTRIES }
    ensures { IfOk result (λ numbered. numbered.items ≡ numbered_from first sets.items) }
{
    let mut numbered = Vec::new(alloc);
    while let Some(set) = sets.pop() {
        let number = first + sets.len();
        numbered.push((SymbolId(number as u32), set))?;
    }
    numbered.reverse();
    Ok(numbered)
}
