//! Of each place it is noted whether two single steps lead on from a whole item of its set.
ghost use Rattle.std.specs.Prelude.{◌≡◌, ℕ, ◌<◌, ◌≤◌, ◌↔◌, length, slice_get, Some, OnOk, IsTrue};
ghost use Rattle.leo_items.specs.Hidden.{SomeStepsTwiceIn};
ghost use Rattle.earley_sets.specs.Hiding.{NotesTwice};
ghost use Rattle.earley_sets.specs.Kept.{HasRows};

use grammar_core::Flat;
use item_rows::Rows;
use leo_items::some_steps_twice;
use std::alloc::AllocError;

/// Makes room for the note of the next place.
pub fn make_room(notes: &mut Vec<bool>, place: usize) -> Result<(), AllocError>
    requires { place ≤ length notes.old.items }
    ensures same { (j : ℕ) → j < place → slice_get notes.new.items j ≡ slice_get notes.old.items j }
    ensures room { OnOk result (place < length notes.new.items) }
{
    if notes.len() == place {
        notes.push(false)?;
    }
    Ok(())
}

/// Notes it of a place.
pub fn note_place(notes: &mut Vec<bool>, place: usize, twice: bool)
    requires { place < length notes.old.items }
    ensures same { (j : ℕ) → j < place → slice_get notes.new.items j ≡ slice_get notes.old.items j }
    ensures here { slice_get notes.new.items place ≡ Some twice }
{
    notes[place] = twice;
}

/// What is noted of a place.
pub fn note_at(notes: &Vec<bool>, place: u32) -> bool
    requires { place < length notes.now.items }
    ensures { slice_get notes.now.items place ≡ Some result }
{
    notes[place as usize]
}

/// Whether two single steps lead on from a whole item of a set, the first to one that begins at a place or after it.
pub fn leads_twice(flat: &Flat, rows: &Rows<'_>, notes: &Vec<bool>, earleme: u32, from: u32) -> bool
    requires rows { HasRows flat.now rows.now }
    requires earleme { earleme < length rows.now.sets }
    requires notes { NotesTwice flat.now rows.now.sets notes.now.items }
    ensures { IsTrue result ↔ SomeStepsTwiceIn flat.now rows.now.sets earleme from }
{
    if !note_at(notes, earleme) {
        return false;
    }
    some_steps_twice(flat, rows, earleme, from)
}
