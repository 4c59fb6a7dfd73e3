//! Texts in order of their first appearance, each once.
ghost use Rattle.std.specs.Prelude.{◌≡◌, ◌<◌, [], ◌∷◌, ◌++◌, length, is_some, slice_get, Some, false, IfOk, IfSome, OnErr};
ghost use Rattle.language_model.specs.Building.{is_one_of, place_in};
ghost use Rattle.dsl_faults.specs.Texts.{with_text};

use indexmap::IndexSet;
use std::alloc::{AllocError, Global};
use std::marker::Model;

/// A table of texts.
pub struct Names {
    names: IndexSet<String>,
}

// Written out, so that a table is let go by one call.
impl Drop for Names {
    fn drop(self) {
        let Names { names: _ } = self;
    }
}

impl Model for Names {
    ghost use Rattle.std.specs.Prelude.{ℕ, List, map, string_bytes};

    ghost Value = { List (List ℕ) };

    ghost view = { λ n. map string_bytes n.names.keys };
}

impl Names {
    /// A table of nothing.
    pub fn new(alloc: Global) -> Names
        ensures { result ≡ [] }
    {
        Names {
            names: IndexSet::new(alloc),
        }
    }

    /// How many texts there are.
    pub fn len(&self) -> usize
        ensures { result ≡ length self.now }
    {
        self.names.len()
    }

    /// The place of the text, if it is there.
    pub fn position(&self, name: &str) -> Option<usize>
        ensures held { is_some result ≡ is_one_of self.now name.now }
        ensures place { IfSome result (λ k. k ≡ place_in self.now name.now) }
        ensures within { IfSome result (λ k. k < length self.now) }
    {
        self.names.get_index_of(name)
    }

    /// Whether the text is there.
    pub fn has(&self, name: &str) -> bool
        ensures { result ≡ is_one_of self.now name.now }
    {
        self.position(name).is_some()
    }

    /// Puts the text after the others, unless it is there.
    pub fn add(&mut self, name: &str) -> Result<(), AllocError>
        ensures ok { IfOk result (λ _. self.new ≡ with_text self.old name.now) }
        ensures err { OnErr result (self.new ≡ self.old) }
    {
        if self.has(name) {
            return Ok(());
        }
        self.add_new(name)
    }

    /// The text at the place.
    pub fn text(&self, place: usize) -> &str
        requires { place < length self.now }
        ensures { slice_get self.now place ≡ Some result.now }
    {
        self.names.as_slice()[place].as_str()
    }

    /// Puts a text that is not there after the others.
    pub fn add_new(&mut self, name: &str) -> Result<(), AllocError>
        requires { is_one_of self.old name.now ≡ false }
        ensures ok { IfOk result (λ _. self.new ≡ self.old ++ name.now ∷ []) }
        ensures err { OnErr result (self.new ≡ self.old) }
    {
        let alloc = *self.names.allocator();
        let owned = String::from_str(alloc, name)?;
        self.names.insert(owned)?;
        Ok(())
    }
}
