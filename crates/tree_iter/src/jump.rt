//! A walk that is led to a derivation by its steps. The steps come in the order in which a walk writes them, but a fork asks where the
//! last part begins, which is known at the end of its steps. So each goal has an aim: how many steps are written when it is done.
ghost use Rattle.std.specs.Prelude.{◌≡◌, ◌≢◌, ℕ, suc, cond, ◌+◌, ◌*◌, ◌<◌, ◌≤◌, ◌↔◌, Contains, List, Some, length, map, IfOk, OnOk, IfSome, IsSome, IsTrue, IsFalse, IsNone};
ghost use Rattle.grammar_core.specs.Steps.{step_of};
ghost use Rattle.grammar_model.specs.Grammar.{rule_at, has_trailing as ends_so, is_even as is_even_number};
ghost use Rattle.grammar_core.specs.Written.{rule_of as rule_of_held};
ghost use Rattle.grammar_model.specs.Steps.{Step};
ghost use Rattle.recognizer_model.specs.Flat.{source_of};
ghost use Rattle.recognizer_model.specs.declared.flat.FlatSource.TheVariants.{Written as Origin};
ghost use Rattle.forest_laws.specs.Goals.{IsGoal, OneOf, Parts};
ghost use Rattle.forest_laws.specs.Written.{is_list_rule as is_rule_of_list};
ghost use Rattle.bocage.specs.Readers.{node_at};
ghost use Rattle.tree_iter.specs.Goals.{fork_of, look};
ghost use Rattle.tree_iter.specs.Leads.{HasNoFlatBefore, IsOptionOf, AtAim, IsTold, IsToldAt, IsRuleTold, LeadsToPart, LeadsToNodeOf, LeadsOnFrom, Leads, over};
ghost use Rattle.tree_iter.specs.Walk.{StandsBefore, IsAbout, GoesPast, GoesFurther, ComesTo, IsBegun};

use crate::goals::{Fork, Goal, Opened, goal_row};
use crate::leads::{LeadRow, leads_of};
use crate::walk::Walk;
use bocage::Forest;
use flat_steps::is_list_rule;
use grammar_core::{FlatSource, RuleId, TreeStep, Written, WrittenRule};
use slif_base::Steps;
use std::alloc::{AllocError as NoMemory, Global};
use std::sync::ledger::Ledger;

// The steps to go to, with their rows, the aims of the goals that are left, that of the topmost last, and how many looks are left.
#[derive(Drop)]
pub struct Guide<'t> {
    to: &'t [TreeStep],
    rows: Vec<LeadRow>,
    aims: Vec<u32>,
    looks: usize,
}

// An option that is led to, and the aims of its goals: that of the lower one, and that of the upper one, if there are two.
#[derive(Drop)]
pub struct Led<'f> {
    opened: Opened<'f>,
    at: usize,
    aim: u32,
    upper: Option<u32>,
}

fn is_even(count: u32) -> bool
    ensures { result ≡ is_even_number count }
{
    count % 2 == 0
}

// Whether so many parts of a rule end with a separator.
fn has_trailing(rule: &WrittenRule, parts: u32) -> bool
    ensures { result ≡ ends_so (rule_of_held rule.now) parts }
{
    match rule {
        WrittenRule::Plain(_) => false,
        WrittenRule::Sequence(rule) => match rule.separator {
            Some(_) => is_even(parts),
            None => false,
        },
    }
}

// Whether the rule of a node is a list's.
fn is_list_node(forest: &Forest<'_>, node: u32) -> bool
    requires { node < length forest.now.nodes }
    ensures { result ≡ is_rule_of_list forest.now.flat (node_at forest.now node).key.rule }
{
    forest.known();
    let key = forest.key(node);
    let flat = forest.flat();
    is_list_rule(flat, key.rule)
}

// The written rule that a node's rule comes from, if it comes from one.
fn rule_of(forest: &Forest<'_>, node: u32) -> Option<RuleId>
    requires { node < length forest.now.nodes }
    ensures within { IfSome result (λ rule. rule < length forest.now.written.rules) }
    ensures some { IfSome result (λ rule. source_of forest.now.flat
        (node_at forest.now node).key.rule ≡ Origin rule) }
    ensures none { IsNone result → (i : ℕ) → source_of forest.now.flat
        (node_at forest.now node).key.rule ≢ Origin i }
{
    forest.known();
    let key = forest.key(node);
    let flat = forest.flat();
    match flat.origin_of(key.rule) {
        FlatSource::Written(rule) => Some(rule),
        FlatSource::Top(_) => None,
    }
}

// Whether a list's rule with so many parts is the one whose tree lies after so many steps, where so many are written: the one with
// one part, if that is all.
fn is_list_told(parts: u32, below: u32, done: usize) -> bool
    ensures { IsTrue result ↔ ((parts ≡ 1) ↔ (below ≡ done)) }
{
    (parts == 1) == (below as usize == done)
}

// Whether a step tells the rule of a node, which is no list's.
fn is_rule_told(forest: &Forest<'_>, node: u32, step: TreeStep) -> bool
    requires { node < length forest.now.nodes }
    ensures { IsTrue result ↔ IsRuleTold forest.now (node_at forest.now node).key (step_of step) }
{
    let Some(rule) = rule_of(forest, node) else {
        return false;
    };
    let parts = forest.key(node).dot;
    match step {
        TreeStep::Rule {
            rule: told,
            children,
            ..
        } => ends_alike(forest.written(), rule, parts, told, children),
        _ => false,
    }
}

// Whether two are one rule, and so many parts of it end like so many.
fn ends_alike(written: &Written, rule: RuleId, parts: u32, told: RuleId, children: u32) -> bool
    requires { rule < length written.now.rules }
    ensures { IsTrue result ↔ ((rule ≡ told) ×
        (ends_so (rule_at written.now rule) parts ≡ ends_so (rule_at written.now rule) children)) }
{
    let held = written.written_rule(rule);
    rule == told && has_trailing(held, parts) == has_trailing(held, children)
}

// The aim of the parts of a whole rule: a list's rule writes no step, another writes one.
fn upper_aim(is_list: bool, aim: u32) -> u32
    ensures { (place : ℕ) → aim ≡ suc place → result ≡ cond is_list aim place }
{
    if is_list { aim } else { aim.saturating_sub(1) }
}

// Whether the steps are the same.
fn are_same(steps: &[TreeStep], to: &[TreeStep]) -> bool
    ensures { IsTrue result ↔ (map step_of steps.now ≡ map step_of to.now) }
{
    steps == to
}

impl Guide<'_> {
    // The step that is the last of those up to an aim, and its row.
    fn last(&self, aim: u32) -> Option<(TreeStep, LeadRow)>
        ensures { AtAim self.now aim (λ step row. result ≡ Some (step, row)) }
    {
        let at = (aim as usize).checked_sub(1)?;
        Some((*self.to.get(at)?, *self.rows.as_slice().get(at)?))
    }

    // Whether the whole rule of a node leads to the steps up to the aim, where so many are written.
    fn fits(&self, forest: &Forest<'_>, node: u32, aim: u32, done: usize) -> bool
        requires { node < length forest.now.nodes }
        ensures { AtAim self.now aim (λ step row. IsTrue result ↔
            IsTold forest.now (node_at forest.now node).key (step_of step) row.below done) }
    {
        let Some((step, row)) = self.last(aim) else {
            return false;
        };
        if is_list_node(forest, node) {
            return is_list_told(forest.key(node).dot, row.below, done);
        }
        is_rule_told(forest, node, step)
    }

    // The place of the first node that leads to the steps up to the aim.
    fn node_for(&self, forest: &Forest<'_>, nodes: &[u32], aim: u32, done: usize) -> Option<usize>
        requires { (n : ℕ) → Contains nodes.now n → n < length forest.now.nodes }
        ensures within { IfSome result (λ at. at < length nodes.now) }
        ensures told { AtAim self.now aim (λ step row. (at n : ℕ) →
            IsToldAt forest.now nodes.now (step_of step) row.below done at n → result ≡ Some at) }
    {
        for (k, node) in nodes.iter().enumerate() {
            if self.fits(forest, *node, aim, done) {
                return Some(k);
            }
        }
        None
    }

    // The alternative of a node that leads on. It is looked for once.
    fn parts<'f, L: Ledger>(
        &mut self,
        forest: &'f Forest<'f>,
        node: u32,
        aim: u32,
        steps: &mut Steps<L>,
    ) -> Option<Led<'f>>
        requires { node < length forest.now.nodes }
        ensures led { IfSome result (λ led. IsOptionOf forest.now (Parts node) led) }
        ensures taken { IsSome result → self.old.looks ≡ self.new.looks + 1 }
        ensures rows { self.new.rows ≡ self.old.rows }
        ensures aims { self.new.aims ≡ self.old.aims }
        ensures leads { AtAim self.old aim (λ step row. 0 < self.old.looks →
            LeadsToPart forest.now node row aim result) }
        ensures looks { steps.new + self.new.looks ≡ steps.old + self.old.looks }
        ensures to { self.new.to ≡ self.old.to }
    {
        let key = forest.key(node);
        let (_, row) = self.last(aim)?;
        if self.looks == 0 {
            return None;
        }
        self.looks -= 1;
        let first = key.dot == 1;
        let start = if first { key.origin } else { row.from };
        let (at, alternatives) = forest.position(node, start, steps)?;
        Some(Led {
            opened: Opened::Parts(node, alternatives),
            at,
            aim,
            upper: if first { None } else { Some(row.below) },
        })
    }

    // The node of these that leads on.
    fn one_of<'f>(
        &self,
        walk: &Walk<'f>,
        start: u32,
        end: u32,
        nodes: &'f [u32],
        aim: u32,
    ) -> Option<Led<'f>>
        requires { IsGoal walk.now.forest.now (OneOf start end nodes.now) }
        ensures led { IfSome result (λ led. IsOptionOf walk.now.forest.now
            (OneOf start end nodes.now) led) }
        ensures leads { AtAim self.now aim (λ step row.
            LeadsToNodeOf walk.now nodes.now step row aim result) }
    {
        let at = self.node_for(walk.forest, nodes, aim, walk.steps.as_slice().len())?;
        let is_list = is_list_node(walk.forest, nodes[at]);
        Some(Led {
            opened: Opened::OneOf { start, end, nodes },
            at,
            aim,
            upper: Some(upper_aim(is_list, aim)),
        })
    }

    // The option of a fork that leads on, if one does.
    fn option_for<'f, L: Ledger>(
        &mut self,
        walk: &Walk<'f>,
        fork: Fork<'f>,
        aim: u32,
        steps: &mut Steps<L>,
    ) -> Option<Led<'f>>
        requires { IsGoal walk.now.forest.now (fork_of fork) }
        ensures led { IfSome result (λ led. IsOptionOf walk.now.forest.now
            (fork_of fork.entry) led) }
        ensures taken { IsSome result → self.old.looks ≡
            self.new.looks + look (fork_of fork.entry) }
        ensures rows { self.new.rows ≡ self.old.rows }
        ensures aims { self.new.aims ≡ self.old.aims }
        ensures leads { AtAim self.old aim (λ step row. 0 < self.old.looks →
            LeadsOnFrom walk.now (fork_of fork.entry) step row aim result) }
        ensures looks { steps.new + self.new.looks ≡ steps.old + self.old.looks }
        ensures to { self.new.to ≡ self.old.to }
    {
        match fork {
            Fork::Parts(node) => self.parts(walk.forest, node, aim, steps),
            Fork::OneOf { start, end, nodes } => self.one_of(walk, start, end, nodes, aim),
        }
    }

    // The aims of an option's goals.
    fn put_aims(&mut self, aim: u32, upper: Option<u32>) -> Result<(), NoMemory>
        ensures aims { OnOk result (self.new.aims.items ≡ over self.old.aims.items aim upper) }
        ensures rows { self.new.rows ≡ self.old.rows }
        ensures looks { self.new.looks ≡ self.old.looks }
        ensures to { self.new.to ≡ self.old.to }
    {
        self.aims.push(aim)?;
        if let Some(upper) = upper {
            self.aims.push(upper)?;
        }
        Ok(())
    }

    // Chooses the option of a fork that leads on. Answers whether one does.
    fn choose<'f, L: Ledger>(
        &mut self,
        walk: &mut Walk<'f>,
        fork: Fork<'f>,
        behind: usize,
        steps: &mut Steps<L>,
    ) -> Result<bool, NoMemory>
        requires { IsAbout walk.old (fork_of fork) behind }
        ensures goes { IfOk result (λ led. IsTrue led → GoesPast walk.old walk.new) }
        ensures further { IfOk result (λ led. IsTrue led → GoesFurther walk.old walk.new) }
        ensures kept { IfOk result (λ led. Leads self.old walk.old → IsTrue led ×
            Leads self.new walk.new) }
        ensures looks { steps.new + self.new.looks ≡ steps.old + self.old.looks }
        ensures to { self.new.to ≡ self.old.to }
        ensures forest { walk.new.forest ≡ walk.old.forest }
    {
        walk.reserve()?;
        let Some(aim) = self.aims.pop() else {
            return Ok(false);
        };
        let Some(led) = self.option_for(walk, fork, aim, steps) else {
            return Ok(false);
        };
        walk.choose_opened(fork, &led.opened, led.at, behind);
        self.put_aims(led.aim, led.upper)?;
        Ok(true)
    }

    // Does the topmost goal that is left, if it leads on. Answers whether it does.
    fn go_one<L: Ledger>(
        &mut self,
        walk: &mut Walk<'_>,
        steps: &mut Steps<L>,
    ) -> Result<bool, NoMemory>
        requires some { 0 < walk.old.left }
        requires stands { (rest : List (List Step)) × StandsBefore walk.old rest }
        ensures goes { IfOk result (λ led. IsTrue led → GoesPast walk.old walk.new) }
        ensures further { IfOk result (λ led. IsTrue led → GoesFurther walk.old walk.new) }
        ensures kept { IfOk result (λ led. Leads self.old walk.old → IsTrue led ×
            Leads self.new walk.new) }
        ensures looks { steps.new + self.new.looks ≡ steps.old + self.old.looks }
        ensures to { self.new.to ≡ self.old.to }
        ensures forest { walk.new.forest ≡ walk.old.forest }
    {
        let row = goal_row(&walk.goals, walk.left - 1);
        match row.goal {
            Goal::Choose(fork) => self.choose(walk, fork, row.below, steps),
            Goal::Write(step) => {
                walk.write(step, row.below)?;
                self.aims.pop();
                Ok(true)
            }
        }
    }

    // Goes on to the end of a derivation, as long as there are options that lead on. Answers whether there were.
    fn go_on<L: Ledger>(
        &mut self,
        walk: &mut Walk<'_>,
        steps: &mut Steps<L>,
    ) -> Result<bool, NoMemory>
        requires { (rest : List (List Step)) × StandsBefore walk.old rest }
        ensures comes { IfOk result (λ led. IsTrue led → (rest : List (List Step)) →
            StandsBefore walk.old rest → ComesTo walk.new rest) }
        ensures kept { IfOk result (λ led. Leads self.old walk.old → IsTrue led ×
            Leads self.new walk.new) }
        ensures none { IfOk result (λ led. IsTrue led → walk.new.left ≡ 0) }
        ensures looks { steps.new + self.new.looks ≡ steps.old + self.old.looks }
        ensures to { self.new.to ≡ self.old.to }
        ensures forest { walk.new.forest ≡ walk.old.forest }
    {
        'goals: while walk.left > 0 {
            let led = self.go_one(walk, steps)?;
            if !led {
                return Ok(false);
            }
        }
        Ok(true)
    }
}

/// Leads a walk to the derivation that has these steps. Answers whether there is one.
pub fn lead_to<L: Ledger>(
    alloc: Global,
    walk: &mut Walk<'_>,
    to: &[TreeStep],
    steps: &mut Steps<L>,
) -> Result<bool, NoMemory>
    requires stands { (rest : List (List Step)) × StandsBefore walk.old rest }
    requires begun { IsBegun walk.old }
    ensures comes { IfOk result (λ found. IsTrue found → (rest : List (List Step)) →
        StandsBefore walk.old rest → ComesTo walk.new rest) }
    ensures shows { IfOk result (λ found. IsTrue found → map step_of walk.new.steps.items ≡
        map step_of to.now) }
    ensures missed { IfOk result (λ found. IsFalse found →
        HasNoFlatBefore walk.old (map step_of to.now)) }
    ensures few { steps.new ≤ steps.old + 7 * length to.now }
    ensures forest { walk.new.forest ≡ walk.old.forest }
{
    let rows = leads_of(alloc, to)?;
    let mut guide = Guide {
        to,
        rows,
        aims: Vec::new(alloc),
        looks: 7 * to.len(),
    };
    // the aims of the goals of the whole, which are two at most
    let aim = to.len() as u32;
    guide.put_aims(aim, Some(aim))?;
    if !guide.go_on(walk, steps)? {
        return Ok(false);
    }
    Ok(are_same(&walk.steps, to))
}
