//! Derivations that a scanner keeps, as C has them.
ghost use Rattle.std.specs.Prelude.{◌≡◌, IfOk, map};
ghost use Rattle.grammar_core.specs.Steps.{step_of};
ghost use Rattle.c_handles.specs.Placed.{placed, step_between as stands_between, IsPlaced};

use crate::steps::{NULLED, RULE, TOKEN};
use crate::{Parse, Step};
use scanning_calls::Kept;
use slif_parser::{NoMemory, TreeStep};
use std::alloc::Global;

fn step_between(kind: u32, number: u32, children: u32, from: u32, to: u32) -> Step
    ensures { result ≡ stands_between kind number children from to }
{
    let length = to.saturating_sub(from);
    Step {
        kind,
        number,
        children,
        from,
        to,
        start: from,
        length,
        byte: from as usize,
        bytes: length as usize,
    }
}

fn step_as_placed(step: TreeStep) -> Step
    ensures { result ≡ placed (step_of step) }
{
    match step {
        TreeStep::Token { symbol, from, to } => step_between(TOKEN, symbol.0, 0, from, to),
        TreeStep::Nulled { symbol, at } => step_between(NULLED, symbol.0, 0, at, at),
        TreeStep::Rule {
            rule,
            children,
            from,
            to,
        } => step_between(RULE, rule.0, children, from, to),
    }
}

fn placed_steps(alloc: Global, steps: &[TreeStep]) -> Result<Vec<Step>, NoMemory>
    ensures { IfOk result (λ all. all.items ≡ map placed (map step_of steps.now)) }
{
    let mut all = Vec::with_capacity(alloc, steps.len())?;
    for step in steps {
        all.push(step_as_placed(*step))?;
    }
    Ok(all)
}

fn placed_all(alloc: Global, derivations: &[Vec<TreeStep>]) -> Result<Vec<Vec<Step>>, NoMemory>
    ensures { IfOk result (λ all. map (λ steps. steps.items) all.items ≡
        map (λ steps. map placed (map step_of steps.items)) derivations.now) }
{
    let mut all = Vec::with_capacity(alloc, derivations.len())?;
    for steps in derivations {
        all.push(placed_steps(alloc, steps)?)?;
    }
    Ok(all)
}

/// The same derivations with their places, in a box.
pub fn boxed_derivations(alloc: Global, kept: &Kept) -> Result<Box<Parse, Global>, NoMemory>
    ensures { IfOk result (λ held. IsPlaced kept.now held.value) }
{
    let derivations = placed_all(alloc, &kept.derivations)?;
    let parse = Parse {
        derivations,
        lines: Vec::new(alloc),
        more: kept.more,
    };
    match Box::new(alloc, parse) {
        Ok(held) => Ok(held),
        Err(_) => Err(NoMemory),
    }
}
