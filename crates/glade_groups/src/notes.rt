// What is noted of each kind of glade.
ghost use Rattle.std.specs.Prelude.{◌≡◌, ◌<◌, ◌∷◌, ◌++◌, [], length, Some, IfOk, OnOk, List};
ghost use Rattle.indexmap.specs.IndexMap.{get};
ghost use Rattle.glade_model.specs.Glades.{Glade as GladeOf};
ghost use Rattle.glade_groups.specs.Groups.{kind_of, same_kind};
ghost use Rattle.glade_groups.specs.Notes.{IsNote, AreNotes};

use crate::kinds::{Kind, kind_of, token_count};
use glades::Glade;
use indexmap::IndexMap;
use std::alloc::{AllocError, Global};

/// The smallest glade of a kind, by its place, with its tokens, and how many there are.
#[derive(Clone, Copy)]
pub struct Note {
    pub at: usize,
    pub tokens: u32,
    pub count: usize,
}

/// What is noted of a kind.
pub fn note_of(notes: &IndexMap<Kind, Note>, kind: Kind) -> Option<Note>
    ensures { result ≡ get same_kind notes.now kind }
{
    notes.get(&kind).copied()
}

// What is noted of a kind once one more is met, which stands behind those before.
fn renewed(before: Option<Note>, glade: &Glade, at: usize) -> Note
    requires { at < 18446744073709551615 }
    ensures { (glades : List GladeOf) → at ≡ length glades → IsNote glades (kind_of glade.now) before →
        IsNote (glades ++ glade.now ∷ []) (kind_of glade.now) (Some result) }
{
    let tokens = token_count(glade);
    match before {
        None => Note {
            at,
            tokens,
            count: 1,
        },
        Some(note) if tokens < note.tokens => Note {
            at,
            tokens,
            count: note.count.saturating_add(1),
        },
        Some(note) => Note {
            count: note.count.saturating_add(1),
            ..note
        },
    }
}

/// What is to be noted of glades.
pub fn notes_of(alloc: Global, glades: &[Glade]) -> Result<IndexMap<Kind, Note>, AllocError>
    ensures { IfOk result (AreNotes glades.now) }
{
    let mut notes = IndexMap::new(alloc);
    for (at, glade) in glades.iter().enumerate() {
        let kind = kind_of(glade);
        let note = renewed(note_of(&notes, kind), glade, at);
        notes.insert(kind, note)?;
    }
    Ok(notes)
}
