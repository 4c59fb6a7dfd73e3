//! What is read.
ghost use Rattle.std.specs.Prelude.{◌≡◌};

use crate::grammars::{go_on, read_all, take};
use earley_sets::Recce;
use slif_base::Steps;
use std::sync::ledger::Ledger;

/// A terminal, where it begins, and how many places it spans.
pub type Token = (u32, u32, u32);

/// What is read: tokens that are one place long, or tokens with their places, up to a place.
#[derive(Clone, Copy)]
pub enum Input<'a> {
    Row(&'a [u32]),
    Spans(&'a [Token], u32),
}

// Takes the tokens that begin at the place.
fn take_here(recce: &mut Recce<'_>, tokens: &[Token]) -> Result<(), anyhow::Error>
    ensures { recce.new.flat ≡ recce.old.flat }
{
    for (token, place, length) in tokens {
        if *place == recce.place() {
            take(recce, *token, *length)?;
        }
    }
    Ok(())
}

// Reads the tokens up to a place.
fn read_to<L: Ledger>(
    recce: &mut Recce<'_>,
    tokens: &[Token],
    end: u32,
    steps: &mut Steps<L>,
) -> Result<(), anyhow::Error>
    ensures { recce.new.flat ≡ recce.old.flat }
{
    for _ in 0..end {
        take_here(recce, tokens)?;
        go_on(recce, steps)?;
    }
    Ok(())
}

/// Reads what is given.
pub(crate) fn read<L: Ledger>(
    recce: &mut Recce<'_>,
    input: &Input<'_>,
    steps: &mut Steps<L>,
) -> Result<(), anyhow::Error>
    ensures { recce.new.flat ≡ recce.old.flat }
{
    match input {
        Input::Row(tokens) => read_all(recce, tokens, steps),
        Input::Spans(tokens, end) => read_to(recce, tokens, *end, steps),
    }
}
