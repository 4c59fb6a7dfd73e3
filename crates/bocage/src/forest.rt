//! The forest, and what is read of it.
ghost use Rattle.std.specs.Prelude.{◌≡◌, ℕ, ◌+◌, ◌<◌, ◌≤◌, ◌↔◌, ◌==◌, [], Err, Some, None, IfOk, IfSome, IsNone, length, position};
ghost use Rattle.grammar_model.specs.Checked.{IsChecked};
ghost use Rattle.recognizer_model.specs.FlatForm.{IsFlatOf};
ghost use Rattle.recognizer_model.specs.Counts.{IsCountOf};
ghost use Rattle.recognizer_model.specs.Nodes.{IsStats};
ghost use Rattle.earley_sets.specs.Recognizer.{HasTree};
ghost use Rattle.forest_model.specs.Forest.{IsForest, IsNode, allowed_of, edges_of as forest_edges, top_of as forest_top};
ghost use Rattle.forest_parts.specs.Hidden.{RisesWithin};
ghost use Rattle.forest_parts.specs.Given.{items_in};
ghost use Rattle.bocage.specs.Expanded.{IsExpandedIn, IsHiddenNode, IsGivenIn, IsOver};
ghost use Rattle.bocage.specs.Given.{AreGivenFor, IsGivenAfter};
ghost use Rattle.bocage.specs.Rows.{cause_told};
ghost use Rattle.bocage.specs.Readers.{alternative_at, node_at};
ghost use Rattle.bocage.specs.declared.refusal.ForestRefusal.TheVariants.{NoParse};

use crate::ForestRefusal;
use crate::ends::{Work, walk};
use crate::rows::{AlternativeRow, Cause, alternative_row, cause_at, row_from, rows_at};
use crate::walk::{Found, begin, differ};
use bumpalo::Bump;
use earley_sets::Recce;
use forest_parts::{Given, count_expanded, key_at};
use grammar_core::{Flat, Written};
use grammar_model::Ranking;
use recognizer_model::NodeKey;
use slif_base::Steps;
use std::alloc::{AllocError, Global};
use std::marker::Model;
use std::mem::replace;
use std::sync::ledger::Ledger;

/// The alternatives of a node, in the declared order.
#[derive(Drop)]
pub struct Alternatives<'f> {
    rows: &'f [AlternativeRow],
    wholes: &'f [u32],
}

impl<'f> Model for Alternatives<'f> {
    ghost use Rattle.std.specs.Prelude.{List, map};
    ghost use Rattle.forest_model.specs.Forest.{Alternative};
    ghost use Rattle.bocage.specs.Rows.{alternative_of, AreWithin};

    ghost Value = { List Alternative };

    ghost view = { λ a. map (alternative_of a.wholes.now) a.rows.now };

    ghost invariant = { λ a. AreWithin a.rows.now a.wholes.now };
}

impl<'f> Alternatives<'f> {
    /// How many alternatives there are.
    pub fn len(&self) -> usize
        ensures { result ≡ length self.now }
    {
        self.rows.len()
    }

    /// Where the last part begins.
    pub fn start(&self, k: usize) -> u32
        requires { k < length self.now }
        ensures { result ≡ (alternative_at self.now k).start }
    {
        alternative_row(self.rows, k).start
    }

    /// Which of them has its last part begin there, if one does.
    pub fn position(&self, start: u32) -> Option<usize>
        ensures { result ≡ position (λ a. a.start == start) self.now }
    {
        row_from(self.rows, start)
    }

    /// The predecessor: the node of the parts before the last one, if there are any.
    pub fn predecessor(&self, k: usize) -> Option<u32>
        requires { k < length self.now }
        ensures { result ≡ (alternative_at self.now k).predecessor }
    {
        alternative_row(self.rows, k).predecessor
    }

    /// The cause: what the last part is.
    pub fn cause(&self, k: usize) -> Cause<'f>
        requires { k < length self.now }
        ensures { cause_told result ≡ (alternative_at self.now k).cause }
    {
        cause_at(alternative_row(self.rows, k), self.wholes)
    }
}

/// The numbers of a reading: the places that were read, the items that were kept, the nodes, and the hidden items that begin no earlier
/// than a used node with the same end.
#[derive(Clone, Copy, Debug, PartialEq, Eq)]
pub struct Stats {
    pub tokens: u128,
    pub kept: u128,
    pub nodes: u128,
    pub expanded: u128,
}

/// The shared packed forest of a reading.
pub struct Forest<'a> {
    recce: &'a Recce<'a>,
    written: &'a Written,
    ranking: Ranking,
    keys: Vec<NodeKey>,
    // the alternatives of each node
    table: Vec<&'a [AlternativeRow]>,
    wholes: Vec<u32>,
    root: Option<u32>,
}

impl<'a> Drop for Forest<'a> {
    fn drop(self) {
        let Forest {
            recce: _,
            written: _,
            ranking: _,
            keys: _,
            table: _,
            wholes: _,
            root: _,
        } = self;
    }
}

impl<'a> Model for Forest<'a> {
    ghost use Rattle.std.specs.Prelude.{map};
    ghost use Rattle.earley_sets.specs.Recognizer.{earleme_of};
    ghost use Rattle.forest_model.specs.Forest.{Forest, IsForest};
    ghost use Rattle.bocage.specs.Rows.{nodes_of, IsTable};

    ghost Value = { Forest };

    ghost view = { λ f. record {
      written = f.written.now;
      flat = f.recce.now.flat;
      start = f.recce.now.start;
      edges = f.recce.now.edges;
      place = earleme_of f.recce.now;
      ranking = f.ranking;
      nodes = nodes_of f.wholes.items f.keys.items (map (λ r. r.now) f.table.items);
      root = f.root;
    } };

    ghost invariant = { λ f. IsForest (record {
      written = f.written.now;
      flat = f.recce.now.flat;
      start = f.recce.now.start;
      edges = f.recce.now.edges;
      place = earleme_of f.recce.now;
      ranking = f.ranking;
      nodes = nodes_of f.wholes.items f.keys.items (map (λ r. r.now) f.table.items);
      root = f.root;
    }) ×
        IsTable f.keys.items (map (λ r. r.now) f.table.items) f.wholes.items };
}

impl<'a> Forest<'a> {
    /// The forest of the chosen derivations of the recognizer's start over the places so far. `w` is the grammar that the recognizer's
    /// flat grammar was made from, and `ranking` says whether ranks of rules count, and which derivations are chosen. The arena holds
    /// the alternatives.
    pub fn build<L: Ledger>(
        alloc: Global,
        arena: &'a Bump,
        recce: &'a Recce<'a>,
        w: &'a Written,
        ranking: Ranking,
        steps: &mut Steps<L>,
    ) -> Result<Forest<'a>, ForestRefusal>
        requires checked { IsChecked w.now }
        requires flat { IsFlatOf recce.now.flat w.now }
        ensures forest { IfOk result (λ f. IsForest f) }
        ensures reading { IfOk result (λ f. IsOver w.now ranking recce.now f) }
        ensures no_parse { (result ≡ Err NoParse) ↔ (¬ HasTree recce.now) }
        ensures counted { (n : ℕ) → IsCountOf (IsExpandedIn w.now ranking recce.now) n →
            steps.new ≤ steps.old + n }
        ensures needed { (n : ℕ) → IsCountOf (IsHiddenNode w.now recce.now) n →
            steps.new ≤ steps.old + n }
        ensures given { RisesWithin (IsGivenIn w.now ranking recce.now) steps.old steps.new }
    {
        let given = Given::new(alloc);
        Forest::build_after(alloc, arena, recce, w, ranking, &given, steps)
    }

    /// The same forest, where some hidden items that it needs were brought back before. These are not asked for again, so no step is
    /// counted for them: with those that were counted before, the steps are as many as the forest alone may take.
    pub fn build_after<L: Ledger>(
        alloc: Global,
        arena: &'a Bump,
        recce: &'a Recce<'a>,
        w: &'a Written,
        ranking: Ranking,
        given: &Given,
        steps: &mut Steps<L>,
    ) -> Result<Forest<'a>, ForestRefusal>
        requires checked { IsChecked w.now }
        requires flat { IsFlatOf recce.now.flat w.now }
        requires given { AreGivenFor w.now ranking recce.now given.now }
        ensures forest { IfOk result (λ f. IsForest f) }
        ensures reading { IfOk result (λ f. IsOver w.now ranking recce.now f) }
        ensures no_parse { (result ≡ Err NoParse) ↔ (¬ HasTree recce.now) }
        ensures given { RisesWithin (IsGivenAfter w.now ranking recce.now given.now) steps.old steps.new }
        ensures after { (start : ℕ) → steps.old ≡ start + items_in given.now →
            RisesWithin (IsGivenIn w.now ranking recce.now) start steps.new }
        ensures counted { (start n : ℕ) → steps.old ≡ start + items_in given.now →
            IsCountOf (IsExpandedIn w.now ranking recce.now) n → steps.new ≤ start + n }
        ensures needed { (start n : ℕ) → steps.old ≡ start + items_in given.now →
            IsCountOf (IsHiddenNode w.now recce.now) n → steps.new ≤ start + n }
    {
        given.known();
        if !recce.at_end() {
            return Err(ForestRefusal::NoParse);
        }
        Ok(Forest::grow(alloc, arena, recce, w, ranking, given, steps)?)
    }

    // The forest of a start that has a tree.
    fn grow<L: Ledger>(
        alloc: Global,
        arena: &'a Bump,
        recce: &'a Recce<'a>,
        w: &'a Written,
        ranking: Ranking,
        given: &Given,
        steps: &mut Steps<L>,
    ) -> Result<Forest<'a>, AllocError>
        requires checked { IsChecked w.now }
        requires flat { IsFlatOf recce.now.flat w.now }
        requires given { AreGivenFor w.now ranking recce.now given.now }
        requires tree { HasTree recce.now }
        ensures reading { IfOk result (λ f. IsOver w.now ranking recce.now f) }
        ensures forest { IfOk result (λ f. IsForest f) }
        ensures counted { RisesWithin (IsGivenAfter w.now ranking recce.now given.now) steps.old steps.new }
    {
        let mut found = Found::new(alloc);
        let mut work = Work::new(alloc);
        Forest::grow_in(
            alloc, arena, recce, w, ranking, given, &mut found, &mut work, steps,
        )
    }

    // The same, where there is room for what is found and for the work, with nothing in it yet.
    fn grow_in<L: Ledger>(
        alloc: Global,
        arena: &'a Bump,
        recce: &'a Recce<'a>,
        w: &'a Written,
        ranking: Ranking,
        given: &Given,
        found: &mut Found,
        work: &mut Work,
        steps: &mut Steps<L>,
    ) -> Result<Forest<'a>, AllocError>
        requires checked { IsChecked w.now }
        requires flat { IsFlatOf recce.now.flat w.now }
        requires given { AreGivenFor w.now ranking recce.now given.now }
        requires tree { HasTree recce.now }
        requires none { found.old.keys.keys ≡ [] }
        requires heads { work.old.chains.heads.items ≡ [] }
        requires below { work.old.chains.below.items ≡ [] }
        ensures reading { IfOk result (λ f. IsOver w.now ranking recce.now f) }
        ensures forest { IfOk result (λ f. IsForest f) }
        ensures counted { RisesWithin (IsGivenAfter w.now ranking recce.now given.now) steps.old steps.new }
    {
        let root = begin(recce, &mut found.keys)?;
        let table = walk(alloc, recce, w, ranking, arena, given, found, work, steps)?;
        differ(&found.keys);
        let keys = Vec::from_slice(alloc, found.keys.as_slice())?;
        Ok(Forest {
            recce,
            written: w,
            ranking,
            keys,
            table,
            wholes: replace(&mut found.wholes, Vec::new(alloc)),
            root,
        })
    }

    /// States what is always so of a forest.
    pub fn known(&self)
        ensures { IsForest self.now }
    {
        let _count = self.wholes.as_slice().len();
    }

    /// How many nodes there are. They are numbered from 0, in the order in which the walk back from the whole met them.
    pub fn node_count(&self) -> usize
        ensures { result ≡ length self.now.nodes }
    {
        self.keys.as_slice().len()
    }

    /// The numbers of the reading: its places, its items and nodes, and the hidden items that end with a node and begin no earlier than one.
    /// The last are counted here, since a forest asks for no more than it needs.
    pub fn stats(&self, alloc: Global) -> Result<Stats, AllocError>
        ensures { IfOk result (λ s. IsStats self.now.flat (forest_edges self.now)
            (allowed_of self.now) (forest_top self.now) self.now.place
            s.tokens s.kept s.nodes s.expanded) }
    {
        let tokens = u128::from(self.recce.place());
        let expanded = count_expanded(alloc, self.recce, &self.keys)?;
        Ok(Stats {
            tokens,
            kept: u128::from(self.recce.item_count()),
            nodes: self.keys.as_slice().len() as u128,
            expanded: u128::from(expanded),
        })
    }

    /// The start's place among the starts of the grammar.
    pub fn start(&self) -> usize
        ensures { result ≡ self.now.start }
    {
        self.recce.start()
    }

    /// The node of the whole. A start that spans nothing has none.
    pub fn root(&self) -> Option<u32>
        ensures { result ≡ self.now.root }
    {
        self.root
    }

    /// What a node stands for.
    pub fn key(&self, node: u32) -> NodeKey
        requires { node < length self.now.nodes }
        ensures value { result ≡ (node_at self.now node).key }
        ensures node { IsNode self.now node result }
    {
        key_at(self.keys.as_slice(), node as usize)
    }

    /// The alternatives of a node, in the declared order. Each call counts as one step.
    pub fn alternatives<L: Ledger>(&self, node: u32, steps: &mut Steps<L>) -> Alternatives<'_>
        requires { node < length self.now.nodes }
        ensures value { result ≡ (node_at self.now node).alternatives }
        ensures counted { steps.new ≡ steps.old + 1 }
    {
        steps.tick();
        Alternatives {
            rows: rows_at(&self.table, node as usize),
            wholes: &self.wholes,
        }
    }

    /// Where in a node's alternatives the last part begins there, if one does, with the alternatives. Each call counts as one step.
    pub fn position<L: Ledger>(
        &self,
        node: u32,
        start: u32,
        steps: &mut Steps<L>,
    ) -> Option<(usize, Alternatives<'_>)>
        requires { node < length self.now.nodes }
        ensures at { IfSome result (λ r.
            (position (λ a. a.start == start) (node_at self.now node).alternatives ≡ Some r.0) ×
            (r.1 ≡ (node_at self.now node).alternatives)) }
        ensures none { IsNone result → position (λ a. a.start == start) (node_at self.now node).alternatives ≡ None }
        ensures counted { steps.new ≡ steps.old + 1 }
    {
        let alternatives = self.alternatives(node, steps);
        let at = alternatives.position(start)?;
        Some((at, alternatives))
    }

    /// The grammar as it was written.
    pub fn written(&self) -> &'a Written
        ensures { result.now ≡ self.now.written }
    {
        self.written
    }

    /// The flat grammar that was read by.
    pub fn flat(&self) -> &'a Flat
        ensures { result.now ≡ self.now.flat }
    {
        self.recce.flat()
    }
}
