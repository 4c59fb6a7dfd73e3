//! Lists of threads, each once.
ghost use Rattle.std.specs.Prelude.{◌≡◌, ◌<◌, ◌⊎◌, ◌++◌, ◌∷◌, [], length, IfOk};
ghost use Rattle.threads.specs.Lists.{list_at};

use indexmap::IndexSet;
use recognizer_model::Thread;
use std::alloc::{AllocError, Global};
use std::marker::Model;

/// Lists of threads, each once, by their numbers.
#[derive(Drop)]
pub struct Lists {
    lists: IndexSet<Vec<Thread>>,
}

impl Model for Lists {
    ghost use Rattle.std.specs.Prelude.{List};
    ghost use Rattle.recognizer_model.specs.declared.thread.Thread.{Thread};

    ghost Value = { List (List Thread) };

    ghost use Rattle.threads.specs.Lists.{lists_of};

    ghost view = { λ l. lists_of l.lists.keys };
}

impl Lists {
    /// No lists.
    pub fn new(alloc: Global) -> Lists
        ensures { result ≡ [] }
    {
        Lists {
            lists: IndexSet::new(alloc),
        }
    }

    /// How many lists there are.
    pub fn count(&self) -> usize
        ensures { result ≡ length self.now }
    {
        self.lists.len()
    }

    /// The list of a number.
    pub fn list(&self, k: usize) -> &[Thread]
        requires { k < length self.now }
        ensures { result.now ≡ list_at self.now k }
    {
        match self.lists.get_index(k) {
            Some(list) => list,
            None => unreachable!(),
        }
    }

    /// The number of a list, which goes last where it is new.
    pub fn number(&mut self, list: Vec<Thread>) -> Result<usize, AllocError>
        ensures added { (self.new ≡ self.old) ⊎ (self.new ≡ self.old ++ list.items ∷ []) }
        ensures found { IfOk result (λ k. k < length self.new) }
        ensures list { IfOk result (λ k. list_at self.new k ≡ list.items) }
    {
        let (k, _) = self.lists.insert_full(list)?;
        Ok(k)
    }

    /// No list; the room is kept.
    pub fn clear(&mut self)
        ensures { self.new ≡ [] }
    {
        self.lists.clear();
    }
}
