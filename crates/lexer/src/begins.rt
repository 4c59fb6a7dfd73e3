//! Which state a list of starts begins with.
ghost use Rattle.std.specs.Prelude.{◌≡◌, ℕ, ◌⊎◌, ◌↔◌, [], List, length, IfSome, IsTrue};
ghost use Rattle.lexer.specs.Machines.{HasBegin};

use indexmap::IndexMap;
use std::alloc::{AllocError, Global};
use std::marker::Model;

/// The states that lists of starts begin with. It is seen as the lists, each with its state.
#[derive(Drop)]
pub struct Begins {
    states: IndexMap<Vec<u32>, usize>,
}

impl Model for Begins {
    ghost use Rattle.std.specs.Prelude.{List, ℕ};
    ghost use Rattle.std.specs.declared.vec.Vec.{Vec};
    ghost use Rattle.std.specs.declared.alloc.Global.{Global};

    ghost Value = { List (Vec ℕ Global × ℕ) };

    ghost view = { λ b. b.states.entries };
}

// Whether lists of one length are the same. All places are compared, so that many can be at once.
fn agree(list: &[u32], starts: &[u32]) -> bool
    requires { length list.now ≡ length starts.now }
    ensures { IsTrue result ↔ (list.now ≡ starts.now) }
{
    let mut same = true;
    for k in 0..list.len() {
        same &= list[k] == starts[k];
    }
    same
}

fn is_same(list: &[u32], starts: &[u32]) -> bool
    ensures { IsTrue result ↔ (list.now ≡ starts.now) }
{
    list.len() == starts.len() && agree(list, starts)
}

// The state at a place of the table, if its list is this one.
fn state_at(states: &IndexMap<Vec<u32>, usize>, place: usize, starts: &[u32]) -> Option<usize>
    ensures { IfSome result (HasBegin states.now.entries starts.now) }
{
    let (list, state) = states.get_index(place)?;
    if is_same(list, starts) {
        Some(*state)
    } else {
        None
    }
}

impl Begins {
    /// No list is noted.
    pub fn new(alloc: Global) -> Begins
        ensures { result ≡ [] }
    {
        Begins {
            states: IndexMap::new(alloc),
        }
    }

    // The state of a list, by the table, and where it stands there.
    fn look_up(&self, starts: &[u32], hint: &mut usize) -> Option<usize>
        ensures { IfSome result (HasBegin self.now starts.now) }
    {
        let place = self.states.get_index_of(starts)?;
        *hint = place;
        state_at(&self.states, place, starts)
    }

    /// The state of a list of starts, if it is noted. The hint tells where the list may stand, and is told where it stands.
    pub fn find(&self, starts: &[u32], hint: &mut usize) -> Option<usize>
        ensures { IfSome result (HasBegin self.now starts.now) }
    {
        match state_at(&self.states, *hint, starts) {
            Some(state) => Some(state),
            None => self.look_up(starts, hint),
        }
    }

    /// Notes the state of a list of starts.
    pub fn note(&mut self, alloc: Global, starts: &[u32], state: usize) -> Result<(), AllocError>
        ensures { (list : List ℕ) (s : ℕ) → HasBegin self.new list s →
            HasBegin self.old list s ⊎ ((list ≡ starts.now) × (s ≡ state)) }
    {
        let mut copy = Vec::new(alloc);
        copy.extend_from_slice(starts)?;
        self.states.insert(copy, state)?;
        Ok(())
    }

    /// No list; the room is kept.
    pub fn clear(&mut self)
        ensures { self.new ≡ [] }
    {
        self.states.clear();
    }
}
