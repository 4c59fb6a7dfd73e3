//! Characters by the terminals that have them.
ghost use Rattle.std.specs.Prelude.{◌≡◌, ◌≢◌, ℕ, ◌<◌, ◌⊎◌, ◌++◌, ◌∷◌, [], List, length, slice_get, Some, IfOk, IfSome, IsTrue, ◌↔◌};
ghost use Rattle.lexer.specs.Terminals.{AreTerminalsOf, IsClassOf};
ghost use Rattle.lexer.specs.Unbound.{AreClassesOf};
ghost use Rattle.jagged.specs.Rows.{row_at};

use crate::terminals::list_terminals;
use char_class::CharSet;
use grammar_core::SymbolId;
use jagged::Jagged;
use std::alloc::{AllocError, Global};
use std::marker::Model;

// So many characters has ASCII.
const ASCII: usize = 128;

/// Classes of characters that have the same terminals. It is seen as the terminals of each class.
#[derive(Drop)]
pub struct Classes<'g> {
    sets: &'g [(SymbolId, CharSet)],
    rows: Jagged<SymbolId>,
    // the class of each ASCII character that was met
    ascii: Vec<Option<usize>>,
    // room that is used again
    terminals: Vec<SymbolId>,
}

impl<'g> Model for Classes<'g> {
    ghost use Rattle.std.specs.Prelude.{◌≡◌, ℕ, Some, slice_get};
    ghost use Rattle.lexer.specs.Terminals.{ClassRows, IsClassOf};

    ghost Value = { ClassRows };

    ghost view = { λ t. record { sets = t.sets.now; rows = t.rows } };

    ghost invariant = { λ t. (c k : ℕ) → slice_get t.ascii.items c ≡ Some (Some k) →
        IsClassOf t.sets.now t.rows c k };
}

fn is_same(row: &[SymbolId], terminals: &[SymbolId]) -> bool
    ensures { IsTrue result ↔ (row.now ≡ terminals.now) }
{
    row == terminals
}

// The place of a row with just these terminals.
fn find(rows: &Jagged<SymbolId>, terminals: &[SymbolId]) -> Option<usize>
    ensures there { IfSome result (λ k. k < length rows.now) }
    ensures row { IfSome result (λ k. row_at rows.now k ≡ terminals.now) }
{
    for k in 0..rows.len() {
        if is_same(rows.row(k), terminals) {
            return Some(k);
        }
    }
    None
}

// The place of the row of these terminals, which goes last where it is new.
fn place_of(rows: &mut Jagged<SymbolId>, terminals: &[SymbolId]) -> Result<usize, AllocError>
    ensures added { (rows.new ≡ rows.old) ⊎ (rows.new ≡ rows.old ++ terminals.now ∷ []) }
    ensures there { IfOk result (λ k. k < length rows.new) }
    ensures row { IfOk result (λ k. row_at rows.new k ≡ terminals.now) }
{
    if let Some(k) = find(rows, terminals) {
        return Ok(k);
    }
    let last = rows.len();
    rows.push(terminals)?;
    Ok(last)
}

// The class of a character.
fn class_of(
    sets: &[(SymbolId, CharSet)],
    c: char,
    terminals: &mut Vec<SymbolId>,
    rows: &mut Jagged<SymbolId>,
) -> Result<usize, AllocError>
    ensures grown { (more : List (List ℕ)) × (rows.new ≡ rows.old ++ more) }
    ensures class { IfOk result (IsClassOf sets.now rows.new c) }
{
    list_terminals(sets, c, terminals)?;
    let class = place_of(rows, terminals)?;
    Ok(class)
}

fn slot_at(ascii: &[Option<usize>], code: usize) -> Option<Option<usize>>
    ensures { result ≡ slice_get ascii.now code }
{
    ascii.get(code).copied()
}

// The class that is noted of an ASCII character.
fn class_at(ascii: &[Option<usize>], c: char) -> Option<usize>
    ensures { (k : ℕ) → result ≡ Some k → slice_get ascii.now c ≡ Some (Some k) }
{
    match slot_at(ascii, c as u32 as usize) {
        Some(class) => class,
        None => None,
    }
}

// Notes the class of a character, if it is one of ASCII.
fn note_class(ascii: &mut Vec<Option<usize>>, c: char, class: usize)
    ensures { (i k : ℕ) → slice_get ascii.new.items i ≡ Some (Some k) →
        (slice_get ascii.old.items i ≡ Some (Some k)) ⊎ ((i ≡ c) × (k ≡ class)) }
{
    let code = c as u32 as usize;
    if code >= ascii.len() {
        return;
    }
    ascii[code] = Some(class);
}

// Room for the class of each ASCII character.
fn no_classes(alloc: Global) -> Result<Vec<Option<usize>>, AllocError>
    ensures { IfOk result (λ ascii. (i k : ℕ) → slice_get ascii.items i ≢ Some (Some k)) }
{
    let mut ascii = Vec::new(alloc);
    for _ in 0..ASCII {
        ascii.push(None)?;
    }
    Ok(ascii)
}

impl<'g> Classes<'g> {
    /// No character is met yet.
    pub fn new(alloc: Global, sets: &'g [(SymbolId, CharSet)]) -> Result<Classes<'g>, AllocError>
        ensures { IfOk result (λ classes. classes.sets ≡ sets.now) }
    {
        let ascii = no_classes(alloc)?;
        Ok(Classes {
            sets,
            rows: Jagged::new(alloc),
            ascii,
            terminals: Vec::new(alloc),
        })
    }

    /// The class of a character, which goes last where it is new.
    pub fn class(&mut self, c: char) -> Result<usize, AllocError>
        ensures sets { self.new.sets ≡ self.old.sets }
        ensures grown { (more : List (List ℕ)) × (self.new.rows ≡ self.old.rows ++ more) }
        ensures class { IfOk result (IsClassOf self.new.sets self.new.rows c) }
    {
        if let Some(class) = class_at(&self.ascii, c) {
            return Ok(class);
        }
        let class = class_of(self.sets, c, &mut self.terminals, &mut self.rows)?;
        note_class(&mut self.ascii, c, class);
        Ok(class)
    }

    /// The terminals of a class.
    pub fn terminals(&self, class: usize) -> &[SymbolId]
        requires { class < length self.now.rows }
        ensures { result.now ≡ row_at self.now.rows class }
    {
        self.rows.row(class)
    }
    /// The same without the sets.
    pub fn unbind(self) -> UnboundClasses
        ensures of { AreClassesOf self.entry.sets result }
        ensures rows { result.rows ≡ self.entry.rows }
    {
        let Classes {
            sets: _,
            rows,
            ascii,
            terminals,
        } = self;
        UnboundClasses {
            rows,
            ascii,
            terminals,
        }
    }
}

/// Classes of characters, without the sets of the terminals.
#[derive(Drop)]
pub struct UnboundClasses {
    rows: Jagged<SymbolId>,
    ascii: Vec<Option<usize>>,
    terminals: Vec<SymbolId>,
}

impl UnboundClasses {
    /// The same with the sets.
    pub fn bind<'g>(self, sets: &'g [(SymbolId, CharSet)]) -> Classes<'g>
        requires { AreClassesOf sets.now self }
        ensures sets { result.sets ≡ sets.now }
        ensures rows { result.rows ≡ self.rows }
    {
        let UnboundClasses {
            rows,
            ascii,
            terminals,
        } = self;
        Classes {
            sets,
            rows,
            ascii,
            terminals,
        }
    }
}
