//! What a walk through a forest has left to do: goals, in stacks that share what lies below.
ghost use Rattle.std.specs.Prelude.{◌≡◌, ◌+◌, ◌<◌, ◌≤◌, ◌∷◌, [], length, slice_get, slice_index_or, vec_len, vec_capacity, Some, IfOk, OnErr};
ghost use Rattle.forest_laws.specs.Goals.{IsGoal, options, alternative_goals, cause_goals, whole_goals, root_goals};
ghost use Rattle.forest_laws.specs.Lists.{cause_symbol as symbol_of_cause};
ghost use Rattle.bocage.specs.Rows.{cause_told};
ghost use Rattle.bocage.specs.Readers.{alternative_at, node_at};
ghost use Rattle.flat_steps.specs.Linked.{Grows};
ghost use Rattle.tree_iter.specs.Goals.{fork_of, goal_of, goal_opened, look, IsOpened, Puts, PutsOption};

use bocage::{Alternatives, Cause, Forest};
use flat_steps::FlatStep;
use slif_base::Steps;
use std::alloc::AllocError as NoMemory;
use std::sync::ledger::Ledger;

/// A goal that is done by choosing one of its options.
#[derive(Clone, Copy)]
pub enum Fork<'f> {
    /// the parts that a node stands for
    Parts(u32),
    /// the node of one whole rule of these, over the span
    OneOf {
        start: u32,
        end: u32,
        nodes: &'f [u32],
    },
}

/// What is left to do, as a goal of Prolog's: it is done by choosing an option, which is goals again, or is a step to be written.
#[derive(Clone, Copy)]
pub enum Goal<'f> {
    Choose(Fork<'f>),
    Write(FlatStep),
}

/// A goal, and the place after the row of the one below it; 0 is none.
#[derive(Clone, Copy)]
pub struct GoalRow<'f> {
    pub goal: Goal<'f>,
    pub below: usize,
}

/// Goals that were put: the place of the topmost, and how many options there were to choose from.
#[derive(Clone, Copy)]
pub struct Put {
    pub top: usize,
    pub count: usize,
}

/// The most rows that an option is put in.
pub const MOST_ROWS: usize = 2;

/// A row, by its number.
pub fn goal_row<'f>(rows: &[GoalRow<'f>], k: usize) -> GoalRow<'f>
    requires { k < length rows.now }
    ensures { slice_get rows.now k ≡ Some result }
{
    rows[k]
}

// Puts a goal on top of those below.
#[inline(always)]
fn push_goal<'f>(
    rows: &mut Vec<GoalRow<'f>>,
    goal: Goal<'f>,
    below: usize,
) -> Result<usize, NoMemory>
    ensures ok { IfOk result (λ top. Puts rows.old.items rows.new.items below top
        (goal_of goal.entry ∷ [])) }
    ensures err { OnErr result (rows.new.items ≡ rows.old.items) }
    ensures full { OnErr result (vec_capacity rows.old ≤ vec_len rows.old) }
    ensures capacity { vec_capacity rows.old ≤ vec_capacity rows.new }
    ensures len { vec_len rows.new ≤ vec_len rows.old + 1 }
{
    rows.push(GoalRow { goal, below })?;
    Ok(rows.as_slice().len())
}

// The symbol that the causes of a node derive.
fn cause_symbol(forest: &Forest<'_>, node: u32) -> u32
    requires { node < length forest.now.nodes }
    ensures { result ≡ symbol_of_cause forest.now (node_at forest.now node).key }
{
    forest.known();
    let key = forest.key(node);
    forest.flat().rhs(key.rule)[key.dot as usize - 1]
}

// The goal of a cause.
fn cause_goal(symbol: u32, start: u32, end: u32, cause: Cause<'_>) -> Goal<'_>
    ensures { goal_of result ∷ [] ≡ cause_goals symbol start end (cause_told cause.entry) }
{
    match cause {
        Cause::Edge => Goal::Write(FlatStep::Token {
            symbol,
            from: start,
            to: end,
        }),
        Cause::Nothing => Goal::Write(FlatStep::Nulled { symbol, at: start }),
        Cause::Wholes(nodes) => Goal::Choose(Fork::OneOf { start, end, nodes }),
    }
}

// Puts the goals of an alternative, the predecessor on top.
#[inline(always)]
fn put_alternative<'f>(
    rows: &mut Vec<GoalRow<'f>>,
    forest: &'f Forest<'f>,
    node: u32,
    alternatives: &Alternatives<'f>,
    at: usize,
    behind: usize,
) -> Result<usize, NoMemory>
    requires node { node < length forest.now.nodes }
    requires alternatives { alternatives.now ≡ (node_at forest.now node).alternatives }
    requires at { at < length alternatives.now }
    ensures ok { IfOk result (λ top. Puts rows.old.items rows.new.items behind top
        (alternative_goals forest.now (node_at forest.now node)
        (alternative_at alternatives.now at))) }
    ensures err { OnErr result (Grows rows.old.items rows.new.items) }
    ensures full { OnErr result (vec_capacity rows.old < vec_len rows.old + 2) }
{
    let cause = cause_goal(
        cause_symbol(forest, node),
        alternatives.start(at),
        forest.key(node).end,
        alternatives.cause(at),
    );
    let top = push_goal(rows, cause, behind)?;
    match alternatives.predecessor(at) {
        Some(predecessor) => push_goal(rows, Goal::Choose(Fork::Parts(predecessor)), top),
        None => Ok(top),
    }
}

// Puts the goals of a whole rule, its parts on top.
#[inline(always)]
fn put_whole<'f>(
    rows: &mut Vec<GoalRow<'f>>,
    forest: &'f Forest<'f>,
    start: u32,
    end: u32,
    node: u32,
    behind: usize,
) -> Result<usize, NoMemory>
    requires { node < length forest.now.nodes }
    ensures ok { IfOk result (λ top. Puts rows.old.items rows.new.items behind top
        (whole_goals forest.now start end node)) }
    ensures err { OnErr result (Grows rows.old.items rows.new.items) }
    ensures full { OnErr result (vec_capacity rows.old < vec_len rows.old + 2) }
{
    let key = forest.key(node);
    let rule = Goal::Write(FlatStep::Rule {
        rule: key.rule,
        children: key.dot,
        from: start,
        to: end,
    });
    let top = push_goal(rows, rule, behind)?;
    push_goal(rows, Goal::Choose(Fork::Parts(node)), top)
}

/// A fork whose options were looked at.
#[derive(Drop)]
pub enum Opened<'f> {
    Parts(u32, Alternatives<'f>),
    OneOf {
        start: u32,
        end: u32,
        nodes: &'f [u32],
    },
}

/// Looks at the options of a fork.
pub fn look_at<'f, L: Ledger>(
    forest: &'f Forest<'f>,
    fork: Fork<'f>,
    steps: &mut Steps<L>,
) -> Opened<'f>
    requires { IsGoal forest.now (fork_of fork) }
    ensures goal { goal_opened result ≡ fork_of fork.entry }
    ensures options { IsOpened forest.now result }
    ensures looks { steps.new ≡ steps.old + look (fork_of fork.entry) }
{
    match fork {
        Fork::Parts(node) => Opened::Parts(node, forest.alternatives(node, steps)),
        Fork::OneOf { start, end, nodes } => Opened::OneOf { start, end, nodes },
    }
}

fn node_of(nodes: &[u32], at: usize) -> u32
    requires { at < length nodes.now }
    ensures { result ≡ slice_index_or nodes.now at 0 }
{
    nodes[at]
}

/// Puts an option of a fork on top of the goals after it.
#[inline(always)]
pub fn put_option<'f>(
    rows: &mut Vec<GoalRow<'f>>,
    forest: &'f Forest<'f>,
    opened: &Opened<'f>,
    at: usize,
    behind: usize,
) -> Result<Put, NoMemory>
    requires goal { IsGoal forest.now (goal_opened opened.now) }
    requires opened { IsOpened forest.now opened.now }
    requires at { at < length (options forest.now (goal_opened opened.now)) }
    ensures ok { IfOk result (λ put. PutsOption forest.now (goal_opened opened.now) rows.old.items
        rows.new.items at behind put) }
    ensures err { OnErr result (Grows rows.old.items rows.new.items) }
    ensures full { OnErr result (vec_capacity rows.old < vec_len rows.old + 2) }
{
    match opened {
        Opened::Parts(node, alternatives) => {
            let top = put_alternative(rows, forest, *node, alternatives, at, behind)?;
            Ok(Put {
                top,
                count: alternatives.len(),
            })
        }
        Opened::OneOf { start, end, nodes } => {
            let top = put_whole(rows, forest, *start, *end, node_of(nodes, at), behind)?;
            Ok(Put {
                top,
                count: nodes.len(),
            })
        }
    }
}

/// Puts the goals of the whole.
pub fn put_root<'f>(rows: &mut Vec<GoalRow<'f>>, forest: &'f Forest<'f>) -> Result<usize, NoMemory>
    ensures { IfOk result (λ top. Puts rows.old.items rows.new.items 0 top
        (root_goals forest.now forest.now.root)) }
{
    forest.known();
    match forest.root() {
        Some(node) => put_whole(rows, forest, 0, forest.key(node).end, node, 0),
        None => {
            let flat = forest.flat();
            let symbol = flat.lhs(flat.top(forest.start()));
            push_goal(rows, Goal::Write(FlatStep::Nulled { symbol, at: 0 }), 0)
        }
    }
}
