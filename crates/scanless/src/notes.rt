//! What is looked for at places so far, so that it is listed once for places that are alike.
ghost use Rattle.std.specs.Prelude.{◌≡◌, ℕ, ◌⊎◌, ◌<◌, List, length, slice_get, IfSome, OnOk, Contains};
ghost use Rattle.scanless.specs.Noted.{none_noted, hint_at, SetsHint};
ghost use Rattle.scanless.specs.declared.notes.Note.{Note as ANote};

use earley_sets::Alike;
use jagged::Jagged;
use std::alloc::{AllocError, Global};
use std::marker::Model;

// At how many numbers something is noted at most.
const KINDS: usize = 4096;

// How many starts are noted at most, in all.
const STARTS: usize = 1 << 20;

/// A place, and the number of the list of what is looked for there.
#[derive(Clone, Copy)]
pub struct Note {
    pub place: u32,
    pub list: usize,
}

/// Lists of starts that are looked for, each noted with its place at the number that the recognizer gives to places that are alike. It is
/// seen as the places, each with its list, and the hints.
#[derive(Drop)]
pub struct Notes {
    notes: Vec<Note>,
    lists: Jagged<u32>,
    // how many starts are noted
    count: usize,
    // where the lexer found the lists last, by the same numbers
    hints: Vec<usize>,
}

impl Model for Notes {
    ghost use Rattle.scanless.specs.Noted.{Noted, told, AreWithin};

    ghost Value = { Noted };

    ghost view = { λ n. record { lists = told n.lists n.notes.items; hints = n.hints.items } };

    ghost invariant = { λ n. AreWithin n.lists n.notes.items };
}

fn note_at(notes: &[Note], kind: u32) -> Option<Note>
    ensures { IfSome result (λ note. Contains notes.now note) }
{
    notes.get(kind as usize).copied()
}

// Puts a note in its place, and before it where nothing is yet.
fn put_note(notes: &mut Vec<Note>, kind: usize, note: Note) -> Result<(), AllocError>
    ensures { (other : ANote) → Contains notes.new.items other →
        Contains notes.old.items other ⊎ (other ≡ note) }
{
    if kind < notes.len() {
        notes[kind] = note;
        return Ok(());
    }
    for _ in notes.len()..kind {
        notes.push(note)?;
    }
    notes.push(note)?;
    Ok(())
}

fn slot_at(hints: &[usize], place: usize) -> Option<usize>
    ensures { result ≡ slice_get hints.now place }
{
    hints.get(place).copied()
}

fn hint_of(hints: &[usize], kind: u32) -> usize
    ensures { result ≡ hint_at hints.now kind }
{
    match slot_at(hints, kind as usize) {
        Some(hint) => hint,
        None => 0,
    }
}

// Makes room for a hint. No hint is changed.
fn make_room(hints: &mut Vec<usize>, kind: usize) -> Result<(), AllocError>
    requires { kind < 4096 }
    ensures same { (k : ℕ) → hint_at hints.new.items k ≡ hint_at hints.old.items k }
    ensures room { OnOk result (kind < length hints.new.items) }
{
    for _ in hints.len()..kind + 1 {
        hints.push(0)?;
    }
    Ok(())
}

// Sets a hint, if the number is small and there is memory for it.
fn put_hint(hints: &mut Vec<usize>, kind: u32, hint: usize)
    ensures { ((k : ℕ) → hint_at hints.new.items k ≡ hint_at hints.old.items k) ⊎
        SetsHint hints.old.items hints.new.items kind hint }
{
    let place = kind as usize;
    if place >= KINDS {
        return;
    }
    let Ok(()) = make_room(hints, place) else {
        return;
    };
    hints[place] = hint;
}

impl Notes {
    /// Nothing is noted.
    pub fn new(alloc: Global) -> Notes
        ensures { result ≡ none_noted }
    {
        Notes {
            notes: Vec::new(alloc),
            lists: Jagged::new(alloc),
            count: 0,
            hints: Vec::new(alloc),
        }
    }

    /// What is looked for at a place, if it is noted at the number.
    pub fn find(&self, alike: Alike) -> Option<&[u32]>
        ensures { IfSome result (λ starts. Contains self.now.lists (alike.place, starts.now)) }
    {
        let note = note_at(&self.notes, alike.list)?;
        if note.place == alike.place {
            Some(self.lists.row(note.list))
        } else {
            None
        }
    }

    /// Notes what is looked for at a place, at the number, unless much is noted.
    pub fn put(&mut self, alike: Alike, starts: &[u32]) -> Result<(), AllocError>
        ensures lists { (place : ℕ) (list : List ℕ) → Contains self.new.lists (place, list) →
            Contains self.old.lists (place, list) ⊎
            ((place ≡ alike.place) × (list ≡ starts.now)) }
        ensures hints { self.new.hints ≡ self.old.hints }
    {
        let number = alike.list as usize;
        if number >= KINDS || starts.len() > STARTS.saturating_sub(self.count) {
            return Ok(());
        }
        let list = self.lists.len();
        self.lists.push(starts)?;
        self.count += starts.len();
        put_note(
            &mut self.notes,
            number,
            Note {
                place: alike.place,
                list,
            },
        )
    }

    /// Where the lexer found the list at the number last; 0 where that is not noted.
    pub fn hint(&self, kind: u32) -> usize
        ensures { result ≡ hint_at self.now.hints kind }
    {
        hint_of(&self.hints, kind)
    }

    /// Notes where the lexer found the list at the number, if the number is small and there is memory for it.
    pub fn put_hint(&mut self, kind: u32, hint: usize)
        ensures lists { self.new.lists ≡ self.old.lists }
        ensures hints { ((k : ℕ) → hint_at self.new.hints k ≡ hint_at self.old.hints k) ⊎
            SetsHint self.old.hints self.new.hints kind hint }
    {
        put_hint(&mut self.hints, kind, hint);
    }
}
