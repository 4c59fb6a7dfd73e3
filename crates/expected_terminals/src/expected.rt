//! The terminals that the last set waits for. They are listed once for sets of one shape.
ghost use Rattle.std.specs.Prelude.{◌≡◌, ◌⊎◌, ℕ, ◌+◌, ◌<◌, ◌≤◌, ◌↔◌, ◌++◌, ◌∷◌, [], length, Some, IsTrue, IfOk, IfSome, IsNone, OnOk, Contains};
ghost use Rattle.std.specs.List.{AllPairs};
ghost use Rattle.jagged.specs.Rows.{row_at as list_at};
ghost use Rattle.item_rows.specs.Rows.{row_at, shared_at, AreAlike};
ghost use Rattle.expected_terminals.specs.Marks.{HasRoom, AreAtMost};
ghost use Rattle.expected_terminals.specs.Expected.{place_told, number_told, list_told, KeepsLists, AreNotes, WaitsByList, WaitAlike, IsOfListed, KnowsLast};
ghost use Rattle.expected_terminals.specs.declared.expected.Note.{Note as TheNote};

use crate::marks::{Marks, mark_row, new_marks, take_marks};
use grammar_core::{Flat, SymbolId};
use item_rows::Rows;
use jagged::Jagged;
use std::alloc::{AllocError, Global};

// Of so many shapes the lists are kept.
const KINDS: u32 = 4096;

// So many terminals at most have the lists together, were all as long as the last one.
const TERMINALS: usize = 1 << 20;

/// The place that is told, the place of a set of the noted shape, and the number of a list: the terminals that both sets wait for.
#[derive(Clone, Copy)]
pub struct Note {
    pub place: u32,
    pub like: u32,
    pub list: u32,
}

/// Lists of terminals in order, and the notes that were made, each at the number of its set's shape. The last set waits for the
/// terminals of one noted, if there is one, and else for those that the marks list.
pub struct Expected {
    pub marks: Marks,
    pub lists: Jagged<SymbolId>,
    pub notes: Vec<Option<Note>>,
    // by the number of a list that rows share: the shape whose note may be that of rows that wait for nothing else
    pub shapes: Vec<u32>,
    pub last: Option<Note>,
}

impl Drop for Expected {
    fn drop(self) {
        let Expected {
            marks: _,
            lists: _,
            notes: _,
            shapes: _,
            last: _,
        } = self;
    }
}

/// Nothing is noted.
pub fn new_expected(alloc: Global, flat: &Flat) -> Result<Expected, AllocError>
    ensures room { IfOk result (λ expected. HasRoom flat.now expected.marks) }
    ensures most { IfOk result (λ expected. AreAtMost 0 expected.marks.rows.items) }
    ensures notes { IfOk result (λ expected. expected.notes.items ≡ []) }
{
    let marks = new_marks(alloc, flat)?;
    Ok(Expected {
        marks,
        lists: Jagged::new(alloc),
        notes: Vec::new(alloc),
        shapes: Vec::new(alloc),
        last: None,
    })
}

/// Lets all notes go.
pub fn forget(expected: &mut Expected)
    ensures room { (length expected.new.marks.rows.items ≡ length expected.old.marks.rows.items) ×
        (expected.new.marks.listed ≡ expected.old.marks.listed) }
    ensures most { AreAtMost 0 expected.new.marks.rows.items }
    ensures notes { expected.new.notes.items ≡ [] }
{
    take_marks(&mut expected.marks);
    expected.notes.clear();
    expected.lists.keep_first();
}

// The note at the number of a shape.
fn note_at(notes: &[Option<Note>], kind: u32) -> Option<Note>
    ensures { IfSome result (λ note. Contains notes.now (Some note)) }
{
    match notes.get(kind as usize) {
        Some(note) => *note,
        None => None,
    }
}

// A note of a row that is like this one.
fn find_alike(rows: &Rows<'_>, notes: &[Option<Note>], j: usize) -> Option<Note>
    requires place { j < length rows.now.sets }
    requires places { (note : TheNote) → Contains notes.now (Some note) →
        note.like < length rows.now.sets }
    ensures there { IfSome result (λ note. Contains notes.now (Some note)) }
    ensures alike { IfSome result (λ note. AreAlike (row_at rows.now.sets note.like)
        (row_at rows.now.sets j)) }
{
    let note = note_at(notes, rows.kind(j))?;
    if rows.is_alike(note.like as usize, j) {
        Some(note)
    } else {
        None
    }
}

// Whether a row waits for just what a shared list waits for, as far as the row tells it.
fn waits_by(rows: &Rows<'_>, j: usize, list: u32) -> bool
    requires { j < length rows.now.sets }
    ensures { IsTrue result →
        WaitsByList rows.now.flat (row_at rows.now.sets j) (shared_at rows.now.shared list) j }
{
    match rows.list_alone(j) {
        Some(k) => k == list,
        None => false,
    }
}

// A note of a row that waits for just what a shared list waits for, as this row does.
fn find_shared(rows: &Rows<'_>, notes: &[Option<Note>], shapes: &[u32], j: usize) -> Option<Note>
    requires place { j < length rows.now.sets }
    requires places { (note : TheNote) → Contains notes.now (Some note) →
        note.like < length rows.now.sets }
    ensures there { IfSome result (λ note. Contains notes.now (Some note)) }
    ensures alike { IfSome result (λ note. WaitAlike rows.now.flat (row_at rows.now.sets note.like)
        (row_at rows.now.sets j)) }
{
    let list = rows.list_alone(j)?;
    let shape = shapes.get(list as usize)?;
    let note = note_at(notes, *shape)?;
    if waits_by(rows, note.like as usize, list) {
        Some(note)
    } else {
        None
    }
}

// A note of a row that waits for the same terminals as this one.
fn find_note(rows: &Rows<'_>, notes: &[Option<Note>], shapes: &[u32], j: usize) -> Option<Note>
    requires place { j < length rows.now.sets }
    requires places { (note : TheNote) → Contains notes.now (Some note) →
        note.like < length rows.now.sets }
    ensures there { IfSome result (λ note. Contains notes.now (Some note)) }
    ensures alike { IfSome result (λ note. WaitAlike rows.now.flat (row_at rows.now.sets note.like)
        (row_at rows.now.sets j)) }
{
    match find_alike(rows, notes, j) {
        Some(note) => Some(note),
        None => find_shared(rows, notes, shapes, j),
    }
}

// The note of the shape of a place that was told before, if both are still there.
fn told_before(rows: &Rows<'_>, notes: &[Option<Note>], told: Option<Note>) -> Option<Note>
    ensures { IfSome result (λ note. Contains notes.now (Some note)) }
{
    let Some(told) = told else {
        return None;
    };
    let like = told.like as usize;
    if like < rows.len() {
        note_at(notes, rows.kind(like))
    } else {
        None
    }
}

// Makes room for a note at the number of a shape.
fn make_room(notes: &mut Vec<Option<Note>>, kind: u32) -> Result<(), AllocError>
    ensures room { OnOk result (kind < length notes.new.items) }
    ensures same { (note : TheNote) → Contains notes.new.items (Some note) →
        Contains notes.old.items (Some note) }
{
    let count = kind as usize + 1;
    if notes.len() < count {
        notes.resize(count, None)?;
    }
    Ok(())
}

// Keeps a list, and tells its number, if there are few lists, or short ones, and memory is there.
fn keep_list(lists: &mut Jagged<SymbolId>, terminals: &[SymbolId]) -> Option<u32>
    ensures some { IfSome result (λ k. (k ≡ length lists.old) ×
        (lists.new ≡ lists.old ++ terminals.now ∷ [])) }
    ensures none { IsNone result → lists.new ≡ lists.old }
{
    let count = lists.len();
    if count >= KINDS as usize || count.saturating_mul(terminals.len()) > TERMINALS {
        return None;
    }
    match lists.push(terminals) {
        Ok(()) => Some(count as u32),
        Err(_) => None,
    }
}

// Puts a note in its place.
fn put_note(notes: &mut Vec<Option<Note>>, kind: u32, note: Note)
    requires { kind < length notes.old.items }
    ensures { (other : TheNote) → Contains notes.new.items (Some other) →
        Contains notes.old.items (Some other) ⊎ (note ≡ other) }
{
    notes[kind as usize] = Some(note);
}

fn is_same(list: &[SymbolId], terminals: &[SymbolId]) -> bool
    ensures { IsTrue result ↔ (list.now ≡ terminals.now) }
{
    list == terminals
}

// A note, if its list is of just these terminals.
fn told_again(lists: &Jagged<SymbolId>, terminals: &[SymbolId], told: Option<Note>) -> Option<Note>
    requires { IfSome told (λ note. note.list < length lists.now) }
    ensures { IfSome result (λ note. (told ≡ Some note) ×
        (list_at lists.now note.list ≡ terminals.now)) }
{
    let Some(note) = told else {
        return None;
    };
    if is_same(lists.row(note.list as usize), terminals) {
        Some(note)
    } else {
        None
    }
}

// A note of a place for these terminals. Where another one has them, its list and the place that it tells are taken over.
fn note_of(
    lists: &mut Jagged<SymbolId>,
    terminals: &[SymbolId],
    told: Option<Note>,
    place: u32,
) -> Option<Note>
    requires { IfSome told (λ note. note.list < length lists.old) }
    ensures lists { KeepsLists lists.old lists.new }
    ensures note { IfSome result (IsOfListed lists.old lists.new terminals.now told place) }
{
    match told_again(lists, terminals, told) {
        Some(note) => Some(Note {
            place: note.place,
            like: place,
            list: note.list,
        }),
        None => {
            let list = keep_list(lists, terminals)?;
            Some(Note {
                place,
                like: place,
                list,
            })
        }
    }
}

// Notes what is listed for the set of a place, if there are few shapes and memory is there.
fn note_listed(expected: &mut Expected, told: Option<Note>, kind: u32, place: u32) -> Option<Note>
    requires { IfSome told (λ note. note.list < length expected.old.lists) }
    ensures marks { expected.new.marks ≡ expected.old.marks }
    ensures lists { KeepsLists expected.old.lists expected.new.lists }
    ensures notes { (note : TheNote) → Contains expected.new.notes.items (Some note) →
        Contains expected.old.notes.items (Some note) ⊎ (result ≡ Some note) }
    ensures note { IfSome result (IsOfListed expected.old.lists expected.new.lists
        expected.old.marks.listed.items told place) }
{
    if kind >= KINDS || make_room(&mut expected.notes, kind).is_err() {
        return None;
    }
    let note = note_of(&mut expected.lists, &expected.marks.listed, told, place)?;
    put_note(&mut expected.notes, kind, note);
    Some(note)
}

// Sets the shape of a list that rows share, if there is memory for it.
fn put_shape(shapes: &mut Vec<u32>, list: u32, kind: u32) {
    let list = list as usize;
    if list >= KINDS as usize || list >= shapes.len() && shapes.resize(list + 1, KINDS).is_err() {
        return;
    }
    shapes[list] = kind;
}

// Tells the shape of a row by the list that it shares, where it waits for nothing else.
fn tell_shape(rows: &Rows<'_>, j: usize, kind: u32, shapes: &mut Vec<u32>)
    requires { j < length rows.now.sets }
{
    if let Some(list) = rows.list_alone(j) {
        put_shape(shapes, list, kind);
    }
}

// Lists the terminals that the last set waits for, and notes them.
fn list_row(flat: &Flat, rows: &Rows<'_>, j: usize, expected: &mut Expected)
    requires flat { rows.now.flat ≡ flat.now }
    requires last { length rows.now.sets ≡ j + 1 }
    requires few { j < 4294967295 }
    requires room { HasRoom flat.now expected.old.marks }
    requires most { AreAtMost j expected.old.marks.rows.items }
    requires notes { AreNotes flat.now rows.now.sets expected.old.lists expected.old.notes.items }
    ensures { KnowsLast flat.now rows.now.sets expected.new }
{
    let told = told_before(rows, &expected.notes, expected.last);
    mark_row(flat, rows, j, &mut expected.marks);
    let kind = rows.kind(j);
    expected.last = note_listed(expected, told, kind, j as u32);
    tell_shape(rows, j, kind, &mut expected.shapes);
}

/// Finds what the last set waits for. Its terminals are listed only where neither its shape is noted nor the list that it shares.
pub fn expect_row(flat: &Flat, rows: &Rows<'_>, j: usize, expected: &mut Expected)
    requires flat { rows.now.flat ≡ flat.now }
    requires last { length rows.now.sets ≡ j + 1 }
    requires few { j < 4294967295 }
    requires room { HasRoom flat.now expected.old.marks }
    requires most { AreAtMost j expected.old.marks.rows.items }
    requires notes { AreNotes flat.now rows.now.sets expected.old.lists expected.old.notes.items }
    ensures { KnowsLast flat.now rows.now.sets expected.new }
{
    match find_note(rows, &expected.notes, &expected.shapes, j) {
        Some(note) => expected.last = Some(note),
        None => list_row(flat, rows, j, expected),
    }
}

/// The first place noted whose set waits for the same terminals as the last one.
pub fn place_alike(expected: &Expected, last: u32) -> u32
    ensures { result ≡ place_told last expected.now.last }
{
    match expected.last {
        Some(note) => note.place,
        None => last,
    }
}

/// The number of the list of the terminals that the last set waits for, and one past all numbers where none is noted.
pub fn list_number(expected: &Expected) -> u32
    ensures { result ≡ number_told expected.now.last }
{
    match expected.last {
        Some(note) => note.list,
        None => u32::MAX,
    }
}

/// The terminals that the last set waits for.
pub fn terminals(expected: &Expected) -> &[SymbolId]
    requires { (note : TheNote) → expected.now.last ≡ Some note →
        note.list < length expected.now.lists }
    ensures { result.now ≡ list_told expected.now.lists expected.now.marks.listed.items
        expected.now.last }
{
    match expected.last {
        Some(note) => expected.lists.row(note.list as usize),
        None => &expected.marks.listed,
    }
}

/// Whether a terminal is one of some in order.
pub fn has_terminal(terminals: &[SymbolId], t: SymbolId) -> bool
    requires { AllPairs (λ s t. s < t) terminals.now }
    ensures { IsTrue result ↔ Contains terminals.now t }
{
    terminals.binary_search(&t).is_ok()
}

/// The same terminals once more.
pub fn copy_of(alloc: Global, terminals: &[SymbolId]) -> Result<Vec<SymbolId>, AllocError>
    ensures { IfOk result (λ copy. copy.items ≡ terminals.now) }
{
    let mut copy = Vec::new(alloc);
    copy.extend_from_slice(terminals)?;
    Ok(copy)
}
