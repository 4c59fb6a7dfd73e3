//! Rules that put a number into a set where others are there.
ghost use Rattle.std.specs.Prelude.{◌≡◌, ◌<◌, ◌++◌, ◌∷◌, [], length, OnOk, OnErr};
ghost use Rattle.horn_clauses.specs.Least.{clause_at};

use jagged::Jagged;
use std::alloc::{AllocError, Global};
use std::marker::Model;

/// Rules, each of which puts its head into a set where all of its body is there.
#[derive(Drop)]
pub struct Clauses {
    heads: Vec<u32>,
    bodies: Jagged<u32>,
}

impl Model for Clauses {
    ghost use Rattle.std.specs.Prelude.{List, ◌≡◌, length};
    ghost use Rattle.horn_clauses.specs.Least.{Clause, clauses_of};

    ghost Value = { List Clause };

    ghost view = { λ c. clauses_of c.heads.items c.bodies };

    ghost invariant = { λ c. length c.heads.items ≡ length c.bodies };
}

impl Clauses {
    /// No rules.
    pub fn new(alloc: Global) -> Clauses
        ensures { result ≡ [] }
    {
        Clauses {
            heads: Vec::new(alloc),
            bodies: Jagged::new(alloc),
        }
    }

    /// How many there are.
    pub fn len(&self) -> usize
        ensures { result ≡ length self.now }
    {
        self.heads.len()
    }

    /// What the rule at a place puts into the set.
    pub fn head(&self, i: usize) -> u32
        requires { i < length self.now }
        ensures { result ≡ (clause_at self.now i).head }
    {
        self.heads[i]
    }

    /// What the rule at a place asks for.
    pub fn body(&self, i: usize) -> &[u32]
        requires { i < length self.now }
        ensures { result.now ≡ (clause_at self.now i).body }
    {
        self.bodies.row(i)
    }

    /// One more rule.
    pub fn push(&mut self, head: u32, body: &[u32]) -> Result<(), AllocError>
        ensures ok { OnOk result (self.new ≡
            self.old ++ record { head = head; body = body.now } ∷ []) }
        ensures err { OnErr result (self.new ≡ self.old) }
    {
        self.heads.push(head)?;
        let pushed = self.bodies.push(body);
        if pushed.is_err() {
            self.heads.pop();
        }
        pushed
    }
}
