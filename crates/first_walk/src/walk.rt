//! The walk from the last place to the first: of each node on its way it takes the first alternative.
ghost use Rattle.std.specs.Prelude.{◌≡◌, ℕ, ◌<◌, ◌≤◌, ◌+◌, ◌-◌, ◌++◌, ◌∷◌, [], Option, ◌&&◌, not, true, false, None, length, map, vec_len, IfOk, OnOk, IfSome, IsNone, IsTrue, IsFalse, Some, Contains};
ghost use Rattle.grammar_core.specs.Steps.{step_of};
ghost use Rattle.grammar_model.specs.Checked.{IsChecked};
ghost use Rattle.grammar_model.specs.Steps.{NulledStep, TokenStep};
ghost use Rattle.recognizer_model.specs.declared.NodeKey.{NodeKey as TheKey};
ghost use Rattle.recognizer_model.specs.Flat.{rhs_of};
ghost use Rattle.recognizer_model.specs.FlatForm.{IsFlatOf};
ghost use Rattle.earley_sets.specs.Recognizer.{IsRecognizer, HasTree, earleme_of};
ghost use Rattle.forest_parts.specs.Given.{GivenAt, items_in};
ghost use Rattle.forest_parts.specs.Hidden.{RisesWithin};
ghost use Rattle.bocage.specs.Expanded.{IsGivenIn};
ghost use Rattle.bocage.specs.Given.{AreGivenFor};
ghost use Rattle.bocage.specs.Walk.{IsRead, IsUsedIn};
ghost use Rattle.first_walk.specs.Walk.{IsFirstDerivation};
ghost use Rattle.first_walk.specs.Joined.{AreJoinedIf};
ghost use Rattle.first_walk.specs.Place.{IsListedIn, IsAt, IsChosen, Fits, HasOther, AreFrom, reading_of};
ghost use Rattle.first_walk.specs.Going.{backwards, parts_before, nothing_step, whole_key_of, whole_step, start_of, chosen_step, chosen_keys, IsWalking, IsUnderWay, IsAhead, AreAhead, IsGivenFrom, IsGivenTo, AreTo};

use crate::place::{
    Chosen, Place, choose, is_listed, join_often_tried, last_symbol, list_place, new_place,
};
use earley_sets::Recce;
use flat_steps::{FlatStep, write_steps};
use forest_parts::{Given, Part};
use grammar_core::{Flat, TreeStep, Written};
use grammar_model::Ranking;
use recognizer_model::NodeKey;
use slif_base::Steps;
use std::alloc::{AllocError, Global};
use std::sync::ledger::Ledger;

/// The first derivation of a reading: its steps, children before their rule, and whether it is the only one.
#[derive(Drop)]
pub struct Walked {
    pub steps: Vec<TreeStep>,
    pub alone: bool,
}

/// What a walk has left to do and has done: nodes, of which the last one is next; steps, of which the last one is the derivation's first
/// so far; and whether no node had another alternative.
#[derive(Drop)]
struct Walk {
    goals: Vec<NodeKey>,
    steps: Vec<FlatStep>,
    alone: bool,
}

// Puts the node of the parts before the last one, if there are any.
#[inline(always)]
fn put_before(key: NodeKey, start: u32, goals: &mut Vec<NodeKey>) -> Result<(), AllocError>
    requires { 0 < key.dot }
    ensures { OnOk result (goals.new.items ≡ goals.old.items ++ parts_before key start) }
{
    if key.dot != 1 {
        goals.push(NodeKey {
            rule: key.rule,
            dot: key.dot - 1,
            origin: key.origin,
            end: start,
        })?;
    }
    Ok(())
}

// Goes on where the last part of a node spans nothing.
#[tactic(auto, using(crate::proofs::Backwards::backwards_push))]
fn put_nothing(flat: &Flat, key: NodeKey, walk: &mut Walk) -> Result<(), AllocError>
    requires some { 0 < key.dot }
    requires rule { key.rule < length flat.now.rules }
    requires dot { key.dot ≤ length (rhs_of flat.now key.rule) }
    ensures goals { OnOk result (walk.new.goals.items ≡ walk.old.goals.items ++ parts_before key key.end) }
    ensures steps { OnOk result (backwards walk.new.steps.items ≡ nothing_step flat.now key ∷ backwards walk.old.steps.items) }
    ensures len { OnOk result (vec_len walk.new.steps ≡ vec_len walk.old.steps + 1) }
    ensures alone { walk.new.alone ≡ walk.old.alone }
{
    put_before(key, key.end, &mut walk.goals)?;
    walk.steps.push(FlatStep::Nulled {
        symbol: flat.rhs(key.rule)[key.dot as usize - 1],
        at: key.end,
    })?;
    Ok(())
}

// Writes the step of a whole rule, and puts its node.
#[tactic(auto, using(crate::proofs::Backwards::backwards_push))]
#[inline(always)]
fn put_whole(
    flat: &Flat,
    rule: u32,
    start: u32,
    end: u32,
    walk: &mut Walk,
) -> Result<(), AllocError>
    requires { rule < length flat.now.rules }
    ensures goals { OnOk result (walk.new.goals.items ≡ walk.old.goals.items ++ whole_key_of flat.now rule start end ∷ []) }
    ensures steps { OnOk result (backwards walk.new.steps.items ≡ whole_step flat.now rule start end ∷ backwards walk.old.steps.items) }
    ensures len { OnOk result (vec_len walk.new.steps ≡ vec_len walk.old.steps + 1) }
    ensures alone { walk.new.alone ≡ walk.old.alone }
{
    flat.known();
    let dot = flat.rhs(rule).len() as u32;
    walk.steps.push(FlatStep::Rule {
        rule,
        children: dot,
        from: start,
        to: end,
    })?;
    walk.goals.push(NodeKey {
        rule,
        dot,
        origin: start,
        end,
    })?;
    Ok(())
}

// Writes the step of a token.
#[tactic(auto, using(crate::proofs::Backwards::backwards_push))]
#[inline(always)]
fn put_token(symbol: u32, start: u32, end: u32, walk: &mut Walk) -> Result<(), AllocError>
    ensures goals { OnOk result (walk.new.goals ≡ walk.old.goals) }
    ensures steps { OnOk result (backwards walk.new.steps.items ≡ TokenStep symbol start end ∷ backwards walk.old.steps.items) }
    ensures len { OnOk result (vec_len walk.new.steps ≡ vec_len walk.old.steps + 1) }
    ensures alone { walk.new.alone ≡ walk.old.alone }
{
    walk.steps.push(FlatStep::Token {
        symbol,
        from: start,
        to: end,
    })?;
    Ok(())
}

// Writes the step of a start that spans nothing.
#[tactic(auto, using(crate::proofs::Backwards::backwards_push))]
fn put_empty(symbol: u32, walk: &mut Walk) -> Result<(), AllocError>
    ensures goals { OnOk result (walk.new.goals ≡ walk.old.goals) }
    ensures steps { OnOk result (backwards walk.new.steps.items ≡ NulledStep symbol 0 ∷ backwards walk.old.steps.items) }
    ensures len { OnOk result (vec_len walk.new.steps ≡ vec_len walk.old.steps + 1) }
    ensures alone { walk.new.alone ≡ walk.old.alone }
{
    walk.steps.push(FlatStep::Nulled { symbol, at: 0 })?;
    Ok(())
}

// Goes on where the last part of a node is a whole rule, or an edge.
#[inline(always)]
fn put_part(flat: &Flat, key: NodeKey, part: Part, walk: &mut Walk) -> Result<(), AllocError>
    requires some { 0 < key.dot }
    requires fits { Fits flat.now key part }
    ensures goals { OnOk result (walk.new.goals.items ≡ walk.old.goals.items ++
        (parts_before key (key.end - part.length) ++ chosen_keys flat.now key (Some part))) }
    ensures steps { OnOk result (backwards walk.new.steps.items ≡
        chosen_step flat.now key (Some part) ∷ backwards walk.old.steps.items) }
    ensures len { OnOk result (vec_len walk.new.steps ≡ vec_len walk.old.steps + 1) }
    ensures alone { walk.new.alone ≡ walk.old.alone }
{
    let start = key.end - part.length;
    put_before(key, start, &mut walk.goals)?;
    match part.whole {
        None => put_token(part.symbol, start, key.end, walk),
        Some(whole) => put_whole(flat, whole.rule, start, key.end, walk),
    }
}

// Goes on from a node by its first alternative.
#[inline(always)]
fn put_chosen(flat: &Flat, key: NodeKey, chosen: Chosen, walk: &mut Walk) -> Result<(), AllocError>
    requires some { 0 < key.dot }
    requires rule { key.rule < length flat.now.rules }
    requires dot { key.dot ≤ length (rhs_of flat.now key.rule) }
    requires fits { IfSome chosen.part (λ p. Fits flat.now key p) }
    ensures goals { OnOk result (walk.new.goals.items ≡ walk.old.goals.items ++
        (parts_before key (start_of key chosen.part) ++ chosen_keys flat.now key chosen.part)) }
    ensures steps { OnOk result (backwards walk.new.steps.items ≡
        chosen_step flat.now key chosen.part ∷ backwards walk.old.steps.items) }
    ensures len { OnOk result (vec_len walk.new.steps ≡ vec_len walk.old.steps + 1) }
    ensures alone { walk.new.alone ≡ (walk.old.alone && chosen.alone) }
{
    walk.alone = walk.alone && chosen.alone;
    match chosen.part {
        None => put_nothing(flat, key, walk),
        Some(part) => put_part(flat, key, part, walk),
    }
}

// Lists what ends where a node does, if that was not done.
#[inline(always)]
fn come_to<L: Ledger>(
    alloc: Global,
    recce: &Recce<'_>,
    w: &Written,
    ranking: Ranking,
    key: NodeKey,
    place: &mut Place,
    given: &mut Given,
    steps: &mut Steps<L>,
) -> Result<(), AllocError>
    requires read { IsRead w.now recce.now }
    requires used { IsUsedIn w.now ranking recce.now key }
    requires spans { key.origin < key.end }
    requires ahead { IsAhead w.now ranking recce.now place.old.first key }
    requires listed { IsListedIn w.now ranking recce.now place.old.first place.old.parts.items }
    requires joined { AreJoinedIf place.old.is_joined recce.now place.old.parts.items
        place.old.joined.items }
    requires given { AreGivenFor w.now ranking recce.now given.old }
    requires to { AreTo place.old.first given.old }
    ensures here { OnOk result (IsAt w.now ranking recce.now place.new.first key) }
    ensures listed { OnOk result (IsListedIn w.now ranking recce.now place.new.first place.new.parts.items) }
    ensures joined { OnOk result (AreJoinedIf place.new.is_joined recce.now place.new.parts.items
        place.new.joined.items) }
    ensures given { OnOk result (AreGivenFor w.now ranking recce.now given.new) }
    ensures from { OnOk result (AreFrom key.end given.new) }
    ensures all { OnOk result (steps.new + items_in given.old ≡ steps.old + items_in given.new) }
    ensures counted { (start : ℕ) →
        RisesWithin (IsGivenTo w.now ranking recce.now place.old.first) start steps.old →
        RisesWithin (IsGivenFrom w.now ranking recce.now key.end) start steps.new }
{
    if is_listed(place, key.end) {
        return Ok(());
    }
    list_place(alloc, recce, w, ranking, key, place, given, steps)?;
    Ok(())
}

// The cause of a node's first alternative. What ends where the node does is listed first, if that was not done.
#[inline(always)]
fn choose_in<L: Ledger>(
    alloc: Global,
    recce: &Recce<'_>,
    w: &Written,
    ranking: Ranking,
    key: NodeKey,
    place: &mut Place,
    given: &mut Given,
    steps: &mut Steps<L>,
) -> Result<Chosen, AllocError>
    requires read { IsRead w.now recce.now }
    requires used { IsUsedIn w.now ranking recce.now key }
    requires spans { key.origin < key.end }
    requires ahead { IsAhead w.now ranking recce.now place.old.first key }
    requires listed { IsListedIn w.now ranking recce.now place.old.first place.old.parts.items }
    requires joined { AreJoinedIf place.old.is_joined recce.now place.old.parts.items
        place.old.joined.items }
    requires given { AreGivenFor w.now ranking recce.now given.old }
    requires to { AreTo place.old.first given.old }
    ensures chosen { IfOk result (λ c. IsChosen w.now ranking recce.now key c) }
    ensures fits { IfOk result (λ c. IfSome c.part (λ p. Fits recce.now.flat key p)) }
    ensures here { OnOk result (IsAt w.now ranking recce.now place.new.first key) }
    ensures listed { OnOk result (IsListedIn w.now ranking recce.now place.new.first place.new.parts.items) }
    ensures joined { OnOk result (AreJoinedIf place.new.is_joined recce.now place.new.parts.items
        place.new.joined.items) }
    ensures given { OnOk result (AreGivenFor w.now ranking recce.now given.new) }
    ensures from { OnOk result (AreFrom key.end given.new) }
    ensures all { OnOk result (steps.new + items_in given.old ≡ steps.old + items_in given.new) }
    ensures counted { (start : ℕ) →
        RisesWithin (IsGivenTo w.now ranking recce.now place.old.first) start steps.old →
        RisesWithin (IsGivenFrom w.now ranking recce.now key.end) start steps.new }
{
    come_to(alloc, recce, w, ranking, key, place, given, steps)?;
    let symbol = last_symbol(recce, key);
    let chosen = choose(
        recce,
        w,
        ranking,
        &place.parts,
        place.is_joined,
        &place.joined,
        &mut place.hints,
        symbol,
        key,
    );
    join_often_tried(recce, symbol, place)?;
    Ok(chosen)
}

// Goes on from a node that spans something.
#[inline(always)]
fn go_spanning<L: Ledger>(
    alloc: Global,
    recce: &Recce<'_>,
    w: &Written,
    ranking: Ranking,
    key: NodeKey,
    place: &mut Place,
    walk: &mut Walk,
    given: &mut Given,
    steps: &mut Steps<L>,
) -> Result<(), AllocError>
    requires read { IsRead w.now recce.now }
    requires tree { HasTree recce.now }
    requires spans { key.origin < key.end }
    requires walking { IsWalking w.now ranking recce.now (walk.old.goals.items ++ key ∷ []) walk.old }
    requires ahead { AreAhead w.now ranking recce.now place.old.first (walk.old.goals.items ++ key ∷ []) }
    requires listed { IsListedIn w.now ranking recce.now place.old.first place.old.parts.items }
    requires joined { AreJoinedIf place.old.is_joined recce.now place.old.parts.items
        place.old.joined.items }
    requires given { AreGivenFor w.now ranking recce.now given.old }
    requires to { AreTo place.old.first given.old }
    ensures walking { OnOk result (IsWalking w.now ranking recce.now walk.new.goals.items walk.new) }
    ensures ahead { OnOk result (AreAhead w.now ranking recce.now place.new.first walk.new.goals.items) }
    ensures listed { OnOk result (IsListedIn w.now ranking recce.now place.new.first place.new.parts.items) }
    ensures joined { OnOk result (AreJoinedIf place.new.is_joined recce.now place.new.parts.items
        place.new.joined.items) }
    ensures given { OnOk result (AreGivenFor w.now ranking recce.now given.new) }
    ensures to { OnOk result (AreTo place.new.first given.new) }
    ensures all { OnOk result (steps.new + items_in given.old ≡ steps.old + items_in given.new) }
    ensures len { OnOk result (vec_len walk.new.steps ≡ vec_len walk.old.steps + 1) }
    ensures counted { OnOk result ((start : ℕ) →
        RisesWithin (IsGivenTo w.now ranking recce.now place.old.first) start steps.old →
        RisesWithin (IsGivenTo w.now ranking recce.now place.new.first) start steps.new) }
    ensures within { (start : ℕ) →
        RisesWithin (IsGivenTo w.now ranking recce.now place.old.first) start steps.old →
        RisesWithin (IsGivenIn w.now ranking recce.now) start steps.new }
{
    let chosen = choose_in(alloc, recce, w, ranking, key, place, given, steps)?;
    put_chosen(recce.flat(), key, chosen, walk)?;
    Ok(())
}

// Goes on from a node that spans nothing: all of its parts do.
fn go_empty(
    recce: &Recce<'_>,
    w: &Written,
    ranking: Ranking,
    key: NodeKey,
    walk: &mut Walk,
) -> Result<(), AllocError>
    requires read { IsRead w.now recce.now }
    requires tree { HasTree recce.now }
    requires empty { key.origin ≡ key.end }
    requires walking { IsWalking w.now ranking recce.now (walk.old.goals.items ++ key ∷ []) walk.old }
    ensures walking { OnOk result (IsWalking w.now ranking recce.now walk.new.goals.items walk.new) }
    ensures ahead { OnOk result ((first : Option TheKey) →
        AreAhead w.now ranking recce.now first (walk.old.goals.items ++ key ∷ []) →
        AreAhead w.now ranking recce.now first walk.new.goals.items) }
    ensures len { OnOk result (vec_len walk.new.steps ≡ vec_len walk.old.steps + 1) }
{
    let chosen = Chosen {
        part: None,
        alone: true,
    };
    put_chosen(recce.flat(), key, chosen, walk)?;
    Ok(())
}

// Goes on from a node.
fn go_from<L: Ledger>(
    alloc: Global,
    recce: &Recce<'_>,
    w: &Written,
    ranking: Ranking,
    key: NodeKey,
    place: &mut Place,
    walk: &mut Walk,
    given: &mut Given,
    steps: &mut Steps<L>,
) -> Result<(), AllocError>
    requires read { IsRead w.now recce.now }
    requires tree { HasTree recce.now }
    requires walking { IsWalking w.now ranking recce.now (walk.old.goals.items ++ key ∷ []) walk.old }
    requires ahead { AreAhead w.now ranking recce.now place.old.first (walk.old.goals.items ++ key ∷ []) }
    requires listed { IsListedIn w.now ranking recce.now place.old.first place.old.parts.items }
    requires joined { AreJoinedIf place.old.is_joined recce.now place.old.parts.items
        place.old.joined.items }
    requires given { AreGivenFor w.now ranking recce.now given.old }
    requires to { AreTo place.old.first given.old }
    ensures walking { OnOk result (IsWalking w.now ranking recce.now walk.new.goals.items walk.new) }
    ensures ahead { OnOk result (AreAhead w.now ranking recce.now place.new.first walk.new.goals.items) }
    ensures listed { OnOk result (IsListedIn w.now ranking recce.now place.new.first place.new.parts.items) }
    ensures joined { OnOk result (AreJoinedIf place.new.is_joined recce.now place.new.parts.items
        place.new.joined.items) }
    ensures given { OnOk result (AreGivenFor w.now ranking recce.now given.new) }
    ensures to { OnOk result (AreTo place.new.first given.new) }
    ensures all { OnOk result (steps.new + items_in given.old ≡ steps.old + items_in given.new) }
    ensures len { OnOk result (vec_len walk.new.steps ≡ vec_len walk.old.steps + 1) }
    ensures counted { OnOk result ((start : ℕ) →
        RisesWithin (IsGivenTo w.now ranking recce.now place.old.first) start steps.old →
        RisesWithin (IsGivenTo w.now ranking recce.now place.new.first) start steps.new) }
    ensures within { (start : ℕ) →
        RisesWithin (IsGivenTo w.now ranking recce.now place.old.first) start steps.old →
        RisesWithin (IsGivenIn w.now ranking recce.now) start steps.new }
{
    if key.origin == key.end {
        go_empty(recce, w, ranking, key, walk)?;
        return Ok(());
    }
    go_spanning(alloc, recce, w, ranking, key, place, walk, given, steps)
}

// Whether the walk may give up: it is to look for a derivation that is the only one, and there is another.
#[inline(always)]
fn is_over(only: bool, walk: &Walk) -> bool
    ensures { result ≡ (only && not walk.now.alone) }
{
    only && !walk.alone
}

// Goes on until no node is left, or the walk may give up. Answers whether none is left.
fn go_on<L: Ledger>(
    alloc: Global,
    recce: &Recce<'_>,
    w: &Written,
    ranking: Ranking,
    only: bool,
    place: &mut Place,
    walk: &mut Walk,
    given: &mut Given,
    steps: &mut Steps<L>,
) -> Result<bool, AllocError>
    requires read { IsRead w.now recce.now }
    requires tree { HasTree recce.now }
    requires walking { IsWalking w.now ranking recce.now walk.old.goals.items walk.old }
    requires ahead { AreAhead w.now ranking recce.now place.old.first walk.old.goals.items }
    requires listed { IsListedIn w.now ranking recce.now place.old.first place.old.parts.items }
    requires joined { AreJoinedIf place.old.is_joined recce.now place.old.parts.items
        place.old.joined.items }
    requires given { AreGivenFor w.now ranking recce.now given.old }
    requires to { AreTo place.old.first given.old }
    requires begun { 0 < vec_len walk.old.steps }
    ensures walking { IfOk result (λ whole. IsTrue whole → IsWalking w.now ranking recce.now [] walk.new) }
    ensures over { IfOk result (λ whole. IsFalse whole → IsTrue only × HasOther w.now ranking recce.now) }
    ensures given { OnOk result (AreGivenFor w.now ranking recce.now given.new) }
    ensures all { OnOk result (steps.new + items_in given.old ≡ steps.old + items_in given.new) }
    ensures within { (start : ℕ) →
        RisesWithin (IsGivenTo w.now ranking recce.now place.old.first) start steps.old →
        RisesWithin (IsGivenIn w.now ranking recce.now) start steps.new }
{
    for count in 0..usize::MAX {
        if is_over(only, walk) {
            return Ok(false);
        }
        let Some(key) = walk.goals.pop() else {
            return Ok(true);
        };
        go_from(alloc, recce, w, ranking, key, place, walk, given, steps)?;
    }
    let _count = walk.steps.len();
    unreachable!()
}

// Nothing is written, and no node is left.
fn new_walk(alloc: Global) -> Walk
    ensures goals { result.goals.items ≡ [] }
    ensures steps { result.steps.items ≡ [] }
    ensures alone { result.alone ≡ true }
{
    Walk {
        goals: Vec::new(alloc),
        steps: Vec::new(alloc),
        alone: true,
    }
}

// A walk before its first node: that of the whole, if it spans something.
fn begin(
    alloc: Global,
    recce: &Recce<'_>,
    w: &Written,
    ranking: Ranking,
) -> Result<Walk, AllocError>
    requires read { IsRead w.now recce.now }
    requires tree { HasTree recce.now }
    ensures walking { IfOk result (λ walk. IsWalking w.now ranking recce.now walk.goals.items walk) }
    ensures ahead { IfOk result (λ walk. AreAhead w.now ranking recce.now None walk.goals.items) }
    ensures begun { IfOk result (λ walk. 0 < vec_len walk.steps) }
{
    let mut walk = new_walk(alloc);
    let flat = recce.flat();
    let top = flat.top(recce.start());
    if recce.place() == 0 {
        put_empty(flat.lhs(top), &mut walk)?;
        return Ok(walk);
    }
    put_whole(flat, top, 0, recce.place(), &mut walk)?;
    Ok(walk)
}

// The steps of a walk as those of the written grammar, from the first on.
fn told(
    alloc: Global,
    recce: &Recce<'_>,
    w: &Written,
    ranking: Ranking,
    walk: Walk,
) -> Result<Walked, AllocError>
    requires read { IsRead w.now recce.now }
    requires tree { HasTree recce.now }
    requires walking { IsWalking w.now ranking recce.now [] walk }
    ensures { IfOk result (λ walked. IsFirstDerivation (reading_of w.now ranking recce.now)
        (map step_of walked.steps.items) walked.alone) }
{
    let mut walk = walk;
    walk.steps.reverse();
    let steps = write_steps(alloc, recce.flat(), w, &walk.steps)?;
    Ok(Walked {
        steps,
        alone: walk.alone,
    })
}

/// The first derivation of a start that has one, in the declared order. With `only` it is told only where it may be the only one: as soon
/// as a node has another alternative the answer is `None`. Hidden items that are brought back raise `steps`, and are noted in `given`.
pub fn first_derivation<L: Ledger>(
    alloc: Global,
    recce: &Recce<'_>,
    w: &Written,
    ranking: Ranking,
    only: bool,
    given: &mut Given,
    steps: &mut Steps<L>,
) -> Result<Option<Walked>, AllocError>
    requires checked { IsChecked w.now }
    requires flat { IsFlatOf recce.now.flat w.now }
    requires tree { HasTree recce.now }
    requires empty { given.old ≡ [] }
    ensures first { IfOk result (λ found. IfSome found (λ walked.
        IsFirstDerivation (reading_of w.now ranking recce.now) (map step_of walked.steps.items) walked.alone)) }
    ensures none { IfOk result (λ found. IsNone found → IsTrue only × HasOther w.now ranking recce.now) }
    ensures given { OnOk result (AreGivenFor w.now ranking recce.now given.new) }
    ensures all { OnOk result (steps.new ≡ steps.old + items_in given.new) }
    ensures counted { RisesWithin (IsGivenIn w.now ranking recce.now) steps.old steps.new }
{
    let _end = recce.place();
    let mut walk = begin(alloc, recce, w, ranking)?;
    let mut place = new_place(alloc);
    if !go_on(
        alloc, recce, w, ranking, only, &mut place, &mut walk, given, steps,
    )? {
        return Ok(None);
    }
    Ok(Some(told(alloc, recce, w, ranking, walk)?))
}
