//! A walk through a forest from one derivation to the next. It goes back to the last choice that has a later option, and on by first
//! options from there, so that what the two derivations share at their beginning is not done again.
ghost use Rattle.std.specs.Prelude.{◌≡◌, ℕ, true, ◌+◌, ◌<◌, ◌≤◌, ◌∷◌, [], List, length, vec_len, vec_capacity, IfOk, OnOk, OnErr, IfSome, IsNone, IsTrue};
ghost use Rattle.grammar_model.specs.Steps.{Step};
ghost use Rattle.forest_laws.specs.Lists.{Lists};
ghost use Rattle.forest_laws.specs.Goals.{Goal as FlatGoal, Write, options};
ghost use Rattle.flat_steps.specs.Writing.{flat_step};
ghost use Rattle.tree_iter.specs.Goals.{fork_of, goal_opened, look, IsOpened};
ghost use Rattle.tree_iter.specs.Walk.{IsKept, KeepsLeft, HasSteps, Looks, GoesFurther, AreFewLooks, LeavesSome, Stays, Trail, Wrote, IsOn, Chooses, IsAbout, IsBack, Goes, StandsBefore, StandsBehind, Reaches, Turns, Remain, Advances, IsBegun, IsUnderWay, IsLast};
ghost use Rattle.tree_iter.specs.declared.walk.Place.TheVariants.{Walking};
ghost use Rattle.tree_iter.specs.declared.iter.Current.TheVariants.{Begun as NotBegun};

use crate::goals::{
    Fork, Goal, GoalRow, MOST_ROWS, Opened, goal_row, look_at, put_option, put_root,
};
use bocage::Forest;
use flat_steps::{CountRow, FlatStep, write_step};
use grammar_core::TreeStep;
use slif_base::Steps;
use std::alloc::{AllocError as NoMemory, Global};
use std::sync::ledger::Ledger;

/// A choice point, as Prolog calls it: an option that was chosen, of so many, with the place of the goals after it, and how many goals,
/// steps and counts there were, so that what was done since can be undone.
#[derive(Clone, Copy)]
pub struct Choice<'f> {
    pub fork: Fork<'f>,
    pub chosen: usize,
    pub count: usize,
    pub behind: usize,
    pub goals: usize,
    pub steps: usize,
    pub counts: usize,
}

/// Where a walk is: on the way to the next derivation, or after those that were given.
#[derive(Clone, Copy)]
pub enum Place {
    Walking,
    Between,
}

/// What a walk has done and has left. The goals that are left have the topmost in the row before `left`.
#[derive(Drop)]
pub struct Walk<'f> {
    pub forest: &'f Forest<'f>,
    pub goals: Vec<GoalRow<'f>>,
    pub left: usize,
    pub choices: Vec<Choice<'f>>,
    pub counts: Vec<CountRow>,
    pub steps: Vec<TreeStep>,
}

impl<'f> Walk<'f> {
    /// A walk to the first derivation.
    pub fn begin(alloc: Global, forest: &'f Forest<'f>) -> Result<Walk<'f>, NoMemory>
        ensures forest { IfOk result (λ walk. walk.forest.now ≡ forest.now) }
        ensures begun { IfOk result (λ walk. (copied : List TreeStep) →
            IsUnderWay walk Walking NotBegun copied) }
        ensures nothing { IfOk result (λ walk. IsBegun walk) }
    {
        forest.known();
        let mut goals = Vec::new(alloc);
        let left = put_root(&mut goals, forest)?;
        Ok(Walk {
            forest,
            goals,
            left,
            choices: Vec::new(alloc),
            counts: Vec::new(alloc),
            steps: Vec::new(alloc),
        })
    }

    // Chooses the first option of a fork, in place of the row of the fork unless a choice goes back to that, and keeps the choice where
    // there is another option.
    fn choose<L: Ledger>(
        &mut self,
        fork: Fork<'f>,
        behind: usize,
        steps: &mut Steps<L>,
    ) -> Result<(), NoMemory>
        requires { IsAbout self.old (fork_of fork) behind }
        ensures goes { Goes self.old self.new }
        ensures looks { OnOk result (Looks self.old self.new steps.old steps.new) }
        ensures further { OnOk result (GoesFurther self.old self.new) }
        ensures forest { self.new.forest ≡ self.old.forest }
    {
        self.reserve()?;
        let opened = look_at(self.forest, fork, steps);
        self.choose_opened(fork, &opened, 0, behind);
        Ok(())
    }

    /// Makes room for what an option adds.
    #[inline(always)]
    pub fn reserve(&mut self) -> Result<(), NoMemory>
        ensures room { OnOk result ((vec_len self.new.goals + 2 ≤ vec_capacity self.new.goals) ×
            (vec_len self.new.choices < vec_capacity self.new.choices)) }
        ensures stays { Stays self.old self.new }
    {
        self.goals.reserve(MOST_ROWS)?;
        self.choices.reserve(1)?;
        Ok(())
    }

    /// Chooses an option of a fork, in place of the row of the fork unless a choice goes back to that, and keeps the choice where there
    /// is another option.
    #[inline(always)]
    pub fn choose_opened(&mut self, fork: Fork<'f>, opened: &Opened<'f>, at: usize, behind: usize)
        requires about { IsAbout self.old (fork_of fork) behind }
        requires is { goal_opened opened.now ≡ fork_of fork }
        requires opened { IsOpened self.old.forest.now opened.now }
        requires at { at < length (options self.old.forest.now (fork_of fork)) }
        requires room { (vec_len self.old.goals + 2 ≤ vec_capacity self.old.goals) ×
            (vec_len self.old.choices < vec_capacity self.old.choices) }
        ensures chooses { (lists : Lists) (trail : Trail) (others : List FlatGoal) →
            IsOn self.old lists trail (fork_of fork.entry ∷ others) →
            Chooses self.old.forest.now self.new (fork_of fork.entry) at lists trail others }
        ensures steps_kept { (self.new.steps ≡ self.old.steps) ×
            (self.new.counts ≡ self.old.counts) }
        ensures steps { (m : ℕ) → HasSteps self.old m →
            HasSteps self.new (m + look (fork_of fork.entry)) }
        ensures further { GoesFurther self.old self.new }
        ensures forest { self.new.forest ≡ self.old.forest }
    {
        let kept = self.kept(behind);
        self.goals.truncate(kept);
        let goals = self.goals.as_slice().len();
        let Ok(put) = put_option(&mut self.goals, self.forest, opened, at, behind) else {
            unreachable!();
        };
        if put.count > 1 {
            let choice = Choice {
                fork,
                chosen: at,
                count: put.count,
                behind,
                goals,
                steps: self.steps.as_slice().len(),
                counts: self.counts.as_slice().len(),
            };
            let Ok(()) = self.choices.push(choice) else {
                unreachable!();
            };
        }
        self.left = put.top;
    }

    /// Writes a step.
    #[inline(always)]
    pub fn write(&mut self, step: FlatStep, behind: usize) -> Result<(), NoMemory>
        requires { IsAbout self.old (Write (flat_step step)) behind }
        ensures goes { Goes self.old self.new }
        ensures on { OnOk result ((lists : Lists) (trail : Trail) (others : List FlatGoal) →
            IsOn self.old lists trail (Write (flat_step step) ∷ others) →
            IsOn self.new lists (Wrote trail (flat_step step)) others) }
        ensures keeps { OnOk result ((n : ℕ) → HasSteps self.old n → HasSteps self.new n) }
        ensures further { OnOk result (GoesFurther self.old self.new) }
        ensures forest { self.new.forest ≡ self.old.forest }
    {
        write_step(
            &mut self.counts,
            &mut self.steps,
            self.forest.flat(),
            self.forest.written(),
            step,
        )?;
        self.left = behind;
        self.let_go();
        Ok(())
    }

    // How many rows of goals are needed where so many are left: for these, or because a choice goes back to them.
    fn kept(&self, left: usize) -> usize
        ensures { IsKept self.now left result }
    {
        match self.last_choice() {
            Some(choice) if choice.goals > left => choice.goals,
            _ => left,
        }
    }

    // Lets go of the goals that are done and that no choice goes back to.
    fn let_go(&mut self)
        ensures goes { Goes self.old self.new }
        ensures on { (lists : Lists) (trail : Trail) (left : List FlatGoal) →
            IsOn self.old lists trail left → IsOn self.new lists trail left }
        ensures keeps { KeepsLeft self.old self.new }
        ensures counts { self.new.counts ≡ self.old.counts }
        ensures forest { self.new.forest ≡ self.old.forest }
    {
        let kept = self.kept(self.left);
        self.goals.truncate(kept);
    }

    // Does the topmost goal that is left.
    fn go_one<L: Ledger>(&mut self, steps: &mut Steps<L>) -> Result<(), NoMemory>
        requires some { 0 < self.old.left }
        requires stands { (rest : List (List Step)) × StandsBefore self.old rest }
        ensures goes { Goes self.old self.new }
        ensures looks { OnOk result (Looks self.old self.new steps.old steps.new) }
        ensures further { OnOk result (GoesFurther self.old self.new) }
        ensures forest { self.new.forest ≡ self.old.forest }
    {
        let row = goal_row(&self.goals, self.left - 1);
        match row.goal {
            Goal::Choose(fork) => self.choose(fork, row.below, steps),
            Goal::Write(step) => self.write(step, row.below),
        }
    }

    // Goes on to the end of a derivation.
    fn go_on<L: Ledger>(&mut self, steps: &mut Steps<L>) -> Result<(), NoMemory>
        requires { (rest : List (List Step)) × StandsBefore self.old rest }
        ensures ok { OnOk result ((rest : List (List Step)) → StandsBefore self.old rest →
            Reaches self.new rest) }
        ensures looks { OnOk result (Looks self.old self.new steps.old steps.new) }
        ensures none { OnOk result (self.new.left ≡ 0) }
        ensures err { OnErr result (Goes self.old self.new) }
        ensures forest { self.new.forest ≡ self.old.forest }
    {
        'walk: while self.left > 0 {
            self.go_one(steps)?;
        }
        Ok(())
    }

    fn last_choice(&self) -> Option<Choice<'f>>
        ensures some { IfSome result (λ choice. IsLast self.now.choices.items choice) }
        ensures none { IsNone result → self.now.choices.items ≡ [] }
    {
        self.choices.as_slice().last().copied()
    }

    // Undoes what was done after a choice.
    fn cut(&mut self, choice: Choice<'f>)
        requires last { IsLast self.old.choices.items choice }
        requires behind { (rest : List (List Step)) × StandsBehind self.old rest }
        ensures back { (rest : List (List Step)) → StandsBehind self.old rest →
            IsBack self.new choice.entry rest }
        ensures choices { self.new.choices ≡ self.old.choices }
        ensures forest { self.new.forest ≡ self.old.forest }
    {
        self.goals.truncate(choice.goals);
        self.steps.truncate(choice.steps);
        self.counts.truncate(choice.counts);
    }

    // Takes the next option of the last choice.
    fn choose_next<L: Ledger>(
        &mut self,
        choice: Choice<'f>,
        steps: &mut Steps<L>,
    ) -> Result<(), NoMemory>
        requires back { (rest : List (List Step)) × IsBack self.old choice rest }
        requires later { choice.chosen + 1 < choice.count }
        ensures ok { OnOk result ((rest : List (List Step)) → IsBack self.old choice.entry rest →
            StandsBefore self.new rest) }
        ensures looks { OnOk result (LeavesSome self.new true steps.old steps.new) }
        ensures err { OnErr result ((rest : List (List Step)) → IsBack self.old choice.entry rest →
            StandsBehind self.new rest) }
        ensures forest { self.new.forest ≡ self.old.forest }
    {
        let chosen = choice.chosen + 1;
        let opened = look_at(self.forest, choice.fork, steps);
        let put = put_option(&mut self.goals, self.forest, &opened, chosen, choice.behind)?;
        let last = self.choices.as_slice().len() - 1;
        self.choices[last].chosen = chosen;
        self.left = put.top;
        Ok(())
    }

    /// Whether there is no choice to go back to.
    pub fn is_spent(&self) -> bool
        ensures { IsTrue result → (rest : List (List Step)) → StandsBehind self.now rest →
            rest ≡ [] }
    {
        self.choices.as_slice().is_empty()
    }

    // Goes back to the last choice that has a later option, and takes that. Answers whether there is one.
    fn go_back<L: Ledger>(&mut self, steps: &mut Steps<L>) -> Result<bool, NoMemory>
        requires { (rest : List (List Step)) × StandsBehind self.old rest }
        ensures ok { IfOk result (λ more. (rest : List (List Step)) → StandsBehind self.old rest →
            Turns self.new rest more) }
        ensures looks { IfOk result (λ more. LeavesSome self.new more steps.old steps.new) }
        ensures err { OnErr result ((rest : List (List Step)) → StandsBehind self.old rest →
            StandsBehind self.new rest) }
        ensures forest { self.new.forest ≡ self.old.forest }
    {
        'back: while let Some(choice) = self.last_choice() {
            self.cut(choice);
            if choice.count - choice.chosen > 1 {
                self.choose_next(choice, steps)?;
                return Ok(true);
            }
            self.choices.truncate(self.choices.as_slice().len() - 1);
        }
        Ok(false)
    }
}

/// Walks to the next derivation. Answers whether there is one.
pub fn advance<L: Ledger>(
    walk: &mut Walk<'_>,
    place: &mut Place,
    steps: &mut Steps<L>,
) -> Result<bool, NoMemory>
    requires { (rest : List (List Step)) × Remain place.old walk.old rest }
    ensures ok { IfOk result (λ more. (rest : List (List Step)) → Remain place.old walk.old rest →
        Advances place.new walk.new rest more) }
    ensures few { IfOk result (λ more. AreFewLooks walk.new more steps.old steps.new) }
    ensures err { OnErr result ((rest : List (List Step)) → Remain place.old walk.old rest →
        Remain place.new walk.new rest) }
    ensures forest { walk.new.forest ≡ walk.old.forest }
{
    match *place {
        Place::Walking => {}
        Place::Between => {
            if !walk.go_back(steps)? {
                return Ok(false);
            }
            *place = Place::Walking;
        }
    }
    walk.go_on(steps)?;
    Ok(true)
}
