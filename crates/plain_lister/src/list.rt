//! The list of all derivations, as the values that their lines are the texts of.
ghost use Rattle.std.specs.Prelude.{◌≡◌, ◌<◌, ◌≤◌, ℕ, List, ◌++◌, length, map, All, IfOk, OnOk, OnErr, slice_get, Some};
ghost use Rattle.grammar_model.specs.Trees.{Tree};
ghost use Rattle.grammar_model.specs.Simple.{IsSimple};
ghost use Rattle.grammar_model.specs.Characters.{IsAllOfCharacters, tree_line};
ghost use Rattle.plain_lister.specs.Listing.{trees_of, line_of};
ghost use Rattle.plain_lister.specs.Told.{AreValuesTold};

use crate::lines::{Told, append_value_line, tell_cells, value_told};
use crate::{Derivations, derive};
use grammar_core::Written;
use std::alloc::{AllocError, Global};
use std::marker::Model;
use value_text::{NoMemory, Pool, ValueId};

/// All derivations of an input, in the declared order. It is seen as the list of their lines.
#[derive(Drop)]
pub struct SlowList {
    pool: Pool,
    values: Vec<ValueId>,
}

impl Model for SlowList {
    ghost use Rattle.std.specs.Prelude.{ℕ, List, map};
    ghost use Rattle.value_text.specs.Pool.{AreIds};
    ghost use Rattle.plain_lister.specs.Lines.{value_line};

    ghost Value = { List (List ℕ) };

    ghost view = { λ l. map (value_line l.pool) l.values.items };

    ghost invariant = { λ l. AreIds l.pool l.values.items };
}

// The values of the trees at these places.
fn values_of(alloc: Global, told: &[Told], trees: &[u32]) -> Result<Vec<ValueId>, AllocError>
    ensures { IfOk result (λ ids. AreValuesTold told.now trees.now ids.items) }
{
    let mut ids = Vec::new(alloc);
    for i in 0..trees.len() {
        let id = value_told(told, trees[i] as usize)?;
        ids.push(id)?;
    }
    Ok(ids)
}

// The lines of derivations.
fn list_lines(alloc: Global, derivations: &Derivations) -> Result<SlowList, AllocError>
    ensures { IfOk result (λ list. list ≡
        map (line_of derivations.now) (trees_of derivations.now)) }
{
    let mut pool = Pool::new(alloc);
    let told = tell_cells(alloc, derivations, &mut pool)?;
    let values = values_of(alloc, &told, &derivations.trees)?;
    Ok(SlowList { pool, values })
}

/// The derivations of the input, whose bytes are the tokens, from the grammar's first start.
pub fn list_simple(alloc: Global, w: &Written, input: &[u8]) -> Result<SlowList, NoMemory>
    requires simple { IsSimple w.now }
    requires started { 0 < length w.now.starts }
    requires short { length input.now ≤ 1000 }
    requires ascii { All (λ b. b < 128) input.now }
    ensures { IfOk result (λ list. (trees : List Tree) × IsAllOfCharacters w.now input.now trees ×
        (list ≡ map (tree_line w.now input.now) trees)) }
{
    let derivations = derive(alloc, w, input)?;
    let list = list_lines(alloc, &derivations)?;
    Ok(list)
}

impl SlowList {
    /// How many derivations there are.
    pub fn len(&self) -> usize
        ensures { result ≡ length self.now }
    {
        self.values.len()
    }

    /// Appends the line of a derivation, with its line feed.
    pub fn append_line(&self, k: usize, out: &mut Vec<u8>) -> Result<(), NoMemory>
        requires { k < length self.now }
        ensures ok { OnOk result ((line : List ℕ) × (slice_get self.now k ≡ Some line) ×
            (out.new.items ≡ out.old.items ++ line)) }
        ensures err { OnErr result (out.new.items ≡ out.old.items) }
    {
        let alloc = *self.values.allocator();
        append_value_line(alloc, &self.pool, self.values[k], out)?;
        Ok(())
    }
}
