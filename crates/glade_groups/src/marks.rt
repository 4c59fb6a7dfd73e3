//! Which glades are told.
ghost use Rattle.std.specs.Prelude.{◌≡◌, Some, IfOk, OnOk, slice_get};
ghost use Rattle.glade_groups.specs.Groups.{AreMarks, AreSingle, IsMark};
ghost use Rattle.glade_groups.specs.Notes.{AreNotes};
ghost use Rattle.std.specs.Prelude.{List};
ghost use Rattle.glade_model.specs.Glades.{Glade as GladeOf};

use crate::kinds::{Kind, kind_of};
use crate::notes::{Note, note_of, notes_of};
use glades::Glade;
use indexmap::IndexMap;
use std::alloc::{AllocError, Global};

// How many more there are of the kind, where the glade is told for it.
fn mark_of(notes: &IndexMap<Kind, Note>, glade: &Glade, at: usize) -> Option<usize>
    ensures { (glades : List GladeOf) → AreNotes glades notes.now → slice_get glades at ≡ Some glade.now → IsMark glades at glade.now result }
{
    match note_of(notes, kind_of(glade)) {
        Some(note) if note.at == at => Some(note.count.saturating_sub(1)),
        _ => None,
    }
}

/// For each glade how many more there are of its kind, where it is told for them: the smallest is, by its tokens, and the first of these.
pub fn marks_of(alloc: Global, glades: &[Glade]) -> Result<Vec<Option<usize>>, AllocError>
    ensures { IfOk result (λ marks. AreMarks glades.now marks.items) }
{
    let notes = notes_of(alloc, glades)?;
    let mut marks = Vec::new(alloc);
    for (at, glade) in glades.iter().enumerate() {
        marks.push(mark_of(&notes, glade, at))?;
    }
    Ok(marks)
}

/// Each glade is told alone.
pub fn single_marks(alloc: Global, glades: &[Glade]) -> Result<Vec<Option<usize>>, AllocError>
    ensures { IfOk result (λ marks. AreSingle glades.now marks.items) }
{
    let mut marks = Vec::new(alloc);
    for _ in glades {
        marks.push(Some(0))?;
    }
    Ok(marks)
}
