//! Steps of derivations, as C has them.
ghost use Rattle.std.specs.Prelude.{◌≡◌, IfOk, length, map};
ghost use Rattle.grammar_core.specs.Steps.{step_of};
ghost use Rattle.c_handles.specs.Steps.{byte_at, laid, step_over};

use slif_parser::{NoMemory, Reading, TreeStep};
use std::alloc::Global;

pub const TOKEN: u32 = 0;

pub const NULLED: u32 = 1;

pub const RULE: u32 = 2;

/// A step of a derivation: a token, a symbol that spans nothing, or a rule with the count of its children, which are the newest so many.
/// `from` and `to` count tokens, `start` and `length` characters, `byte` and `bytes` bytes.
#[repr(C)]
#[derive(Clone, Copy)]
pub struct Step {
    pub kind: u32,
    pub number: u32,
    pub children: u32,
    pub from: u32,
    pub to: u32,
    pub start: u32,
    pub length: u32,
    pub byte: usize,
    pub bytes: usize,
}

// The byte at which a character begins, or the text ends.
fn byte_of(reading: &Reading<'_>, character: u32) -> usize
    ensures { result ≡ byte_at reading.now.characters character }
{
    reading.text(0, character).len()
}

fn step_with(
    reading: &Reading<'_>,
    kind: u32,
    number: u32,
    children: u32,
    from: u32,
    to: u32,
) -> Step
    ensures { result ≡ step_over reading.now kind number children from to }
{
    let start = reading.start(from);
    let end = reading.end(to);
    let byte = byte_of(reading, start);
    Step {
        kind,
        number,
        children,
        from,
        to,
        start,
        length: end.saturating_sub(start),
        byte,
        bytes: byte_of(reading, end).saturating_sub(byte),
    }
}

fn step_as_laid(reading: &Reading<'_>, step: TreeStep) -> Step
    ensures { result ≡ laid reading.now (step_of step) }
{
    match step {
        TreeStep::Token { symbol, from, to } => step_with(reading, TOKEN, symbol.0, 0, from, to),
        TreeStep::Nulled { symbol, at } => step_with(reading, NULLED, symbol.0, 0, at, at),
        TreeStep::Rule {
            rule,
            children,
            from,
            to,
        } => step_with(reading, RULE, rule.0, children, from, to),
    }
}

/// The steps of a derivation, with where they lie.
pub fn laid_steps(
    alloc: Global,
    reading: &Reading<'_>,
    steps: &[TreeStep],
) -> Result<Vec<Step>, NoMemory>
    ensures { IfOk result
        (λ all. all.items ≡ map (laid reading.now) (map step_of steps.now)) }
{
    let mut all = Vec::with_capacity(alloc, steps.len())?;
    for step in steps {
        all.push(step_as_laid(reading, *step))?;
    }
    Ok(all)
}
