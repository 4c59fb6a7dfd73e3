// A pool of values: one vector of nodes, one of list items, and one text.
ghost use Rattle.std.specs.Prelude.{◌≡◌, ◌<◌, ◌≤◌, [], length, map, slice_range, IfOk, OnErr};
ghost use Rattle.std.specs.Str.{IsCharBoundary};
ghost use Rattle.grammar_model.specs.Values.{Undefined, Number, Text, list_of};
ghost use Rattle.value_text.specs.Nodes.{value_at};
ghost use Rattle.value_text.specs.Parts.{value_of_part, IsPart};
ghost use Rattle.value_text.specs.Pool.{IsPut, AreIds};

use crate::NoMemory;
use std::alloc::Global;
use std::marker::Model;

/// The number of a value in its pool.
#[derive(Clone, Copy, Debug, PartialEq, Eq)]
pub struct ValueId(usize);

impl Model for ValueId {
    ghost use Rattle.std.specs.Prelude.{ℕ};
    ghost use Rattle.std.specs.Coded.{coded_ℕ};

    ghost Value = { ℕ };

    ghost coded = { coded_ℕ };

    ghost view = { λ id. id.0 };

    ghost inverse = { λ n. record { 0 = n } };
}

impl ValueId {
    /// The place among the pool's values.
    pub fn index(self) -> usize
        ensures { result ≡ self }
    {
        self.0
    }
}

/// A value by its parts: a text is a part of the pool's text, and a list a part of its items.
#[derive(Clone, Copy, Debug)]
pub enum Node {
    Undefined,
    Number(u64),
    Text { from: usize, to: usize },
    List { from: usize, to: usize },
}

/// A value by its parts, lent by the pool.
#[derive(Clone, Copy)]
pub(crate) enum Part<'p> {
    Undefined,
    Number(u64),
    Text(&'p str),
    List(&'p [ValueId]),
}

/// Values, each with a number that stands for it until the pool is cleared.
#[derive(Debug, Drop)]
pub struct Pool {
    nodes: Vec<Node>,
    items: Vec<ValueId>,
    texts: String,
}

impl Model for Pool {
    ghost use Rattle.std.specs.Prelude.{List, []};
    ghost use Rattle.std.specs.String.{string_bytes};
    ghost use Rattle.std.specs.Coded.{coded_list};
    ghost use Rattle.grammar_model.specs.Values.{Value as Told};
    ghost use Rattle.value_text.specs.ValueCode.{value_code};

    ghost Value = { List Told };

    ghost coded = { coded_list value_code };

    ghost use Rattle.value_text.specs.Nodes.{values_from, IsPool};

    ghost view = { λ p. values_from p.items.items (string_bytes p.texts) [] p.nodes.items };

    ghost invariant = { λ p. IsPool p.nodes.items p.items.items (string_bytes p.texts) };
}

impl Pool {
    /// A pool without values. It takes no memory.
    pub fn new(alloc: Global) -> Pool
        ensures { result ≡ [] }
    {
        Pool {
            nodes: Vec::new(alloc),
            items: Vec::new(alloc),
            texts: String::new(alloc),
        }
    }

    /// Forgets all values, and keeps the memory.
    pub fn clear(&mut self)
        ensures { self.new ≡ [] }
    {
        self.nodes.clear();
        self.items.clear();
        self.texts.clear();
    }

    /// Puts in `undef`.
    pub fn undef(&mut self) -> Result<ValueId, NoMemory>
        ensures ok { IfOk result (λ id. IsPut self.old self.new id Undefined) }
        ensures err { OnErr result (self.new ≡ self.old) }
    {
        let id = ValueId(self.nodes.len());
        self.nodes.push(Node::Undefined)?;
        Ok(id)
    }

    /// Puts in a number.
    pub fn num(&mut self, n: u64) -> Result<ValueId, NoMemory>
        ensures ok { IfOk result (λ id. IsPut self.old self.new id (Number n)) }
        ensures err { OnErr result (self.new ≡ self.old) }
    {
        let id = ValueId(self.nodes.len());
        self.nodes.push(Node::Number(n))?;
        Ok(id)
    }

    /// Puts in a text.
    pub fn text(&mut self, text: &str) -> Result<ValueId, NoMemory>
        ensures ok { IfOk result (λ id. IsPut self.old self.new id (Text text.now)) }
        ensures err { OnErr result (self.new ≡ self.old) }
    {
        let id = ValueId(self.nodes.len());
        let from = self.texts.len();
        self.texts.push_str(text)?;
        let to = self.texts.len();
        self.nodes.push(Node::Text { from, to })?;
        Ok(id)
    }

    /// Puts in a list of values of this pool.
    pub fn list(&mut self, items: &[ValueId]) -> Result<ValueId, NoMemory>
        requires { AreIds self.old items.now }
        ensures ok { IfOk result (λ id. IsPut self.old self.new id (list_of (map (value_at self.old)
            items.now))) }
        ensures err { OnErr result (self.new ≡ self.old) }
    {
        let id = ValueId(self.nodes.len());
        let from = self.items.len();
        self.items.extend_from_slice(items)?;
        let to = self.items.len();
        self.nodes.push(Node::List { from, to })?;
        Ok(id)
    }

    /// The parts of a value.
    pub(crate) fn part(&self, id: ValueId) -> Part<'_>
        requires { id < length self.now }
        ensures value { value_of_part self.now result ≡ value_at self.now id }
        ensures ids { IsPart self.now result }
    {
        match self.nodes[id.0] {
            Node::Undefined => Part::Undefined,
            Node::Number(n) => Part::Number(n),
            Node::Text { from, to } => Part::Text(text_part(self.texts.as_str(), from, to)),
            Node::List { from, to } => Part::List(list_part(self.items.as_slice(), from, to)),
        }
    }
}

/// The text between two places.
fn text_part(text: &str, from: usize, to: usize) -> &str
    requires order { from ≤ to }
    requires from { IsCharBoundary text.now from }
    requires to { IsCharBoundary text.now to }
    ensures { result.now ≡ slice_range text.now from to }
{
    &text[from..to]
}

/// The values between two places.
fn list_part(items: &[ValueId], from: usize, to: usize) -> &[ValueId]
    requires order { from ≤ to }
    requires to { to ≤ length items.now }
    ensures { result.now ≡ slice_range items.now from to }
{
    &items[from..to]
}
