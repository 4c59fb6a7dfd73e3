//! A class that is ready to be asked.
ghost use Rattle.std.specs.Prelude.{◌≡◌, ◌≤◌, ◌<◌, ◌↔◌, ◌==◌, ℕ, length, chars, IsTrue, IfOk, not, ◌||◌, if◌then◌else◌};
ghost use Rattle.std.specs.Prelude.{map, nat_lt, true, false, [], ◌∷◌, ◌-◌, take, drop};
ghost use Rattle.std.specs.List.Sorted.{IsPartitionedBy, IsPartitionPoint};
ghost use Rattle.std.specs.Char.{IsScalar};
ghost use Rattle.std.specs.Int.{bit_at};
ghost use Rattle.language_model.specs.declared.class.ClassItem.TheVariants.{Span};
ghost use Rattle.language_model.specs.Classes.{Class, class_of, class_of_char, HasMember, some_item_has, modifier_len, between_brackets, without_caret};
ghost use Rattle.char_class.specs.Reading.{Refuses, RefusedAs};
ghost use Rattle.char_class.specs.Members.{bit_of, has_code, folded_has, HasBits, HasCodes, Rises};
ghost use Rattle.char_class.specs.declared.set.ClassRefusal.TheVariants.{NoMemory};

use crate::escape::char_at;
use crate::items::{ItemsError, items_of};
use crate::members::some_item_has;
use crate::pieces::pieces_of;
use language_model::{ClassFault, ClassItem};
use std::alloc::{AllocError, Global};
use std::marker::Model;
use unicode::case::fold_pairs;

/// Why a text is no class.
#[derive(Clone, Copy, Debug, PartialEq, Eq)]
pub enum ClassRefusal {
    BadEscape,
    BadRange,
    BadPosix,
    NoMemory,
}

impl From<AllocError> for ClassRefusal {
    ghost from_gives = { λ _ e. e ≡ NoMemory };

    fn from(_error: AllocError) -> ClassRefusal {
        ClassRefusal::NoMemory
    }
}

/// A set of characters, as a class or a quoted character has it.
#[derive(Debug, Drop)]
pub struct CharSet {
    negated: bool,
    caseless: bool,
    items: Vec<ClassItem>,
    // The codes that share their simple folding with another that an item has, where case is ignored. Sorted.
    folded: Vec<u32>,
    // A bit for each member below 128.
    ascii: u128,
}

impl Model for CharSet {
    ghost Value = { Class };

    ghost view = { λ s. record { negated = s.negated; caseless = s.caseless; items = s.items.items } };

    ghost invariant = { λ s.
        HasBits (record { negated = s.negated; caseless = s.caseless; items = s.items.items }) s.ascii ×
        HasCodes s.caseless s.items.items s.folded.items × Rises s.folded.items };
}

fn some_item_has_code(items: &[ClassItem], code: u32) -> bool
    requires { IsScalar code }
    ensures { result ≡ some_item_has items.now code }
{
    match char::from_u32(code) {
        Some(c) => some_item_has(items, c),
        None => false,
    }
}

// The codes that share their simple folding with another that an item has, as the table of pairs has them.
fn paired_codes(alloc: Global, items: &[ClassItem]) -> Result<Vec<u32>, AllocError>
    ensures { IfOk result (λ folded. (c : ℕ) → has_code folded.items c ≡ folded_has items.now c) }
{
    let mut folded = Vec::new(alloc);
    for pair in fold_pairs() {
        if some_item_has_code(items, pair.1) {
            folded.push(pair.0)?;
        }
    }
    Ok(folded)
}

// The same codes, sorted.
fn folded_codes(alloc: Global, items: &[ClassItem]) -> Result<Vec<u32>, AllocError>
    ensures codes { IfOk result (λ folded. (c : ℕ) →
        has_code folded.items c ≡ folded_has items.now c) }
    ensures sorted { IfOk result (λ folded. Rises folded.items) }
{
    let mut folded = paired_codes(alloc, items)?;
    folded.sort()?;
    Ok(folded)
}

fn codes_where(alloc: Global, caseless: bool, items: &[ClassItem]) -> Result<Vec<u32>, AllocError>
    ensures codes { IfOk result (λ folded. HasCodes caseless items.now folded.items) }
    ensures sorted { IfOk result (λ folded. Rises folded.items) }
{
    if caseless {
        folded_codes(alloc, items)
    } else {
        Ok(Vec::new(alloc))
    }
}

// How many pairs from the front on have a first code below this one.
fn count_below(pairs: &[(u32, u32)], code: u32) -> usize
    requires { IsPartitionedBy (λ pair. nat_lt pair.0 code) pairs.now }
    ensures bound { result ≤ length pairs.now }
    ensures split { IsPartitionPoint (λ pair. nat_lt pair.0 code ≡ true)
        (λ pair. nat_lt pair.0 code ≡ false) pairs.now result }
{
    pairs.partition_point(|pair| pair.0 < code)
}

// The second codes of the pairs from one place to another.
fn seconds(
    alloc: Global,
    pairs: &[(u32, u32)],
    from: usize,
    to: usize,
) -> Result<Vec<u32>, AllocError>
    requires order { from ≤ to }
    requires fits { to ≤ length pairs.now }
    ensures { IfOk result (λ v. v.items ≡
        map (λ pair. pair.1) (take (to - from) (drop from pairs.now))) }
{
    pairs[from..to].iter().map(|pair| pair.1).collect(alloc)
}

// The codes that share their simple folding with another character's, sorted.
fn codes_of_char(alloc: Global, c: char) -> Result<Vec<u32>, AllocError>
    ensures codes { IfOk result (λ others. (x : ℕ) →
        has_code others.items x ≡ folded_has (Span c c ∷ []) x) }
    ensures sorted { IfOk result (λ others. Rises others.items) }
{
    let pairs = fold_pairs();
    let code = c as u32;
    let from = count_below(pairs, code);
    let to = count_below(pairs, code + 1);
    let mut others = seconds(alloc, pairs, from, to)?;
    others.sort()?;
    Ok(others)
}

fn is_among(codes: &[u32], code: u32) -> bool
    requires { Rises codes.now }
    ensures { result ≡ has_code codes.now code }
{
    codes.binary_search(&code).is_ok()
}

fn class_has(negated: bool, items: &[ClassItem], folded: &[u32], c: char) -> bool
    requires { Rises folded.now }
    ensures { result ≡
        (if negated then not (some_item_has items.now c || has_code folded.now c) else
        (some_item_has items.now c || has_code folded.now c)) }
{
    let matches = some_item_has(items, c) || is_among(folded, c as u32);
    if negated { !matches } else { matches }
}

fn ascii_bits(negated: bool, items: &[ClassItem], folded: &[u32]) -> u128
    requires { Rises folded.now }
    ensures { (c : ℕ) → c < 128 →
        bit_at result c ≡
        bit_of (if negated then not (some_item_has items.now c || has_code folded.now c) else
        (some_item_has items.now c || has_code folded.now c)) }
{
    let mut bits = 0u128;
    for code in 0..128u8 {
        if class_has(negated, items, folded, code as char) {
            bits |= 1 << code;
        }
    }
    bits
}

// The bits with that of a code, if it is below 128.
fn with_bit(bits: u128, code: u32) -> u128
    ensures { (c : ℕ) → c < 128 → bit_at result c ≡ (if code == c then 1 else bit_at bits c) }
{
    if code < 128 { bits | 1 << code } else { bits }
}

// The bits of one character and of codes.
fn char_bits(c: char, codes: &[u32]) -> u128
    ensures { (x : ℕ) → x < 128 →
        bit_at result x ≡ bit_of (some_item_has (Span c c ∷ []) x || has_code codes.now x) }
{
    let mut bits = with_bit(0, c as u32);
    for code in codes {
        bits = with_bit(bits, *code);
    }
    bits
}

impl CharSet {
    fn of_items(
        negated: bool,
        caseless: bool,
        items: Vec<ClassItem>,
        folded: Vec<u32>,
        ascii: u128,
    ) -> CharSet
        requires codes { HasCodes caseless items.items folded.items }
        requires sorted { Rises folded.items }
        requires bits { (c : ℕ) → c < 128 →
            bit_at ascii c ≡
            bit_of (if negated then not (some_item_has items.items c || has_code folded.items c)
            else (some_item_has items.items c || has_code folded.items c)) }
        ensures { result ≡ record { negated = negated; caseless = caseless; items = items.items } }
    {
        CharSet {
            negated,
            caseless,
            items,
            folded,
            ascii,
        }
    }

    /// Whether the character is a member.
    pub fn contains(&self, c: char) -> bool
        ensures { IsTrue result ↔ HasMember self.now c }
    {
        let code = c as u32;
        if code < 128 {
            self.ascii >> code & 1 == 1
        } else {
            class_has(self.negated, &self.items, &self.folded, c)
        }
    }
}

fn modifier_len(text: &[char]) -> usize
    ensures value { result ≡ modifier_len text.now }
    ensures within { result ≤ length text.now }
{
    if text.ends_with(&[':', 'i', 'c']) {
        3
    } else if text.ends_with(&[':', 'i']) {
        2
    } else {
        0
    }
}

fn between_brackets(text: &[char]) -> &[char]
    ensures { result.now ≡ between_brackets text.now }
{
    let rest = text.len() - modifier_len(text);
    if rest < 2 { &[] } else { &text[1..rest - 1] }
}

fn without_caret(inner: &[char]) -> &[char]
    ensures { result.now ≡ without_caret inner.now }
{
    if char_at(inner, 0) == '^' {
        &inner[1..]
    } else {
        inner
    }
}

fn refusal_of(error: ItemsError) -> ClassRefusal
    ensures { RefusedAs error result }
{
    match error {
        ItemsError::Fault(ClassFault::BadEscape) => ClassRefusal::BadEscape,
        ItemsError::Fault(ClassFault::BadRange) => ClassRefusal::BadRange,
        ItemsError::Fault(ClassFault::BadPosix) => ClassRefusal::BadPosix,
        ItemsError::Memory => ClassRefusal::NoMemory,
    }
}

fn class_of(alloc: Global, text: &[char]) -> Result<CharSet, ClassRefusal>
    ensures { Refuses result (class_of text.now) }
{
    let inner = between_brackets(text);
    let negated = char_at(inner, 0) == '^';
    let caseless = modifier_len(text) > 0;
    let pieces = pieces_of(alloc, without_caret(inner))?;
    match items_of(alloc, &pieces) {
        Ok(items) => {
            let folded = codes_where(alloc, caseless, &items)?;
            let ascii = ascii_bits(negated, &items, &folded);
            Ok(CharSet::of_items(negated, caseless, items, folded, ascii))
        }
        Err(error) => Err(refusal_of(error)),
    }
}

fn chars_of(alloc: Global, text: &str) -> Result<Vec<char>, AllocError>
    ensures { IfOk result (λ v. v.items ≡ chars text.now) }
{
    text.chars().collect(alloc)
}

/// The class that a bracket with its modifier spells.
pub fn read_class(alloc: Global, text: &str) -> Result<CharSet, ClassRefusal>
    ensures { Refuses result (class_of (chars text.now)) }
{
    let text = chars_of(alloc, text)?;
    class_of(alloc, &text)
}

/// The set of one character, or of those with its simple folding.
pub fn set_of_char(alloc: Global, c: char, caseless: bool) -> Result<CharSet, AllocError>
    ensures { IfOk result (λ s. s ≡ class_of_char c caseless) }
{
    let mut items = Vec::new(alloc);
    items.push(ClassItem::Span(c, c))?;
    let folded = if caseless {
        codes_of_char(alloc, c)?
    } else {
        Vec::new(alloc)
    };
    let ascii = char_bits(c, &folded);
    Ok(CharSet::of_items(false, caseless, items, folded, ascii))
}
