//! The flat forms of both grammars of a text, where they are accepted.
ghost use Rattle.std.specs.Prelude.{◌≡◌, ℕ, ◌<◌, true, false, length, IfOk, IfErr, OnOk};
ghost use Rattle.grammar_model.specs.Grammar.{Grammar};
ghost use Rattle.grammar_model.specs.Checked.{IsChecked};
ghost use Rattle.grammar_check.specs.Message.{IsOf};
ghost use Rattle.grammar_check.specs.Refused.{IsTold};
ghost use Rattle.flat_model.specs.Flattened.{IsFlattened};
ghost use Rattle.reading_model.specs.Accepted.{HasFewRules};
ghost use Rattle.prepared_grammars.specs.declared.parts.Fault.TheVariants.{NoMemory};
ghost use Rattle.prepared_grammars.specs.Faults.{IsRefusedBy, IsOverfull, IsCheckedLexical, IsFlatLexical, IsLexicalOverfull, IsFault};
ghost use Rattle.prepared_grammars.specs.Prepared.{AreParts};

use crate::abilities::{Ability, abilities_of};
use dsl_build::Built;
use flat_rules::{FlatRefusal, flatten};
use grammar_check::{Checked, GrammarRefusal, check};
use grammar_core::{Flat, Written};
use std::alloc::{AllocError, Global};

/// Why there are no flat forms.
#[derive(Drop)]
pub enum Fault {
    /// A check refuses a grammar, not for want of memory.
    Refused {
        lexical: bool,
        refusal: GrammarRefusal,
    },
    TooManyRules {
        lexical: bool,
    },
    NoMemory,
}

impl From<AllocError> for Fault {
    ghost from_gives = { λ _ fault. fault ≡ NoMemory };

    fn from(_error: AllocError) -> Fault {
        Fault::NoMemory
    }
}

/// What is made of both grammars.
#[derive(Drop)]
pub struct Parts {
    pub flat: Flat,
    /// of the lexical grammar, where it has a start
    pub lexical: Option<Flat>,
    /// of the structural grammar's symbols
    pub abilities: Vec<Ability>,
}

/// What a check refuses, as a fault.
fn fault_of(refusal: GrammarRefusal, lexical: bool) -> Fault
    ensures { (g : Grammar) → IsTold g refusal → IsOf g refusal → IsRefusedBy g lexical result }
{
    match refusal {
        GrammarRefusal::NoMemory => Fault::NoMemory,
        _ => Fault::Refused { lexical, refusal },
    }
}

/// The grammar, where it passes the check.
fn checked(alloc: Global, w: &Written, lexical: bool) -> Result<Checked<'_>, Fault>
    ensures ok { IfOk result (λ c. c ≡ w.now) }
    ensures checked { OnOk result (IsChecked w.now) }
    ensures err { IfErr result (IsRefusedBy w.now lexical) }
{
    match check(alloc, w) {
        Ok(c) => Ok(c),
        Err(refusal) => Err(fault_of(refusal, lexical)),
    }
}

/// The lexical grammar, where it has a start. Without a start it is not checked, and matches nothing.
fn checked_lexical(alloc: Global, l0: &Written) -> Result<Option<Checked<'_>>, Fault>
    ensures ok { IfOk result (IsCheckedLexical l0.now) }
    ensures err { IfErr result (λ fault. (0 < length l0.now.starts) ×
        IsRefusedBy l0.now true fault) }
{
    if l0.start_count() == 0 {
        return Ok(None);
    }
    let c = checked(alloc, l0, true)?;
    Ok(Some(c))
}

/// The flat form of a grammar, where it has not too many rules.
fn flattened(alloc: Global, c: &Checked<'_>, lexical: bool) -> Result<Flat, Fault>
    ensures ok { IfOk result (λ flat. IsFlattened c.now flat) }
    ensures few { OnOk result (HasFewRules c.now) }
    ensures err { IfErr result (IsOverfull c.now lexical) }
{
    c.known();
    match flatten(alloc, c) {
        Ok(flat) => Ok(flat),
        Err(FlatRefusal::TooManyRules) => Err(Fault::TooManyRules { lexical }),
        Err(FlatRefusal::NoMemory) => Err(Fault::NoMemory),
    }
}

/// The flat form of the lexical grammar, where that was checked.
fn flattened_lexical(alloc: Global, c: &Option<Checked<'_>>) -> Result<Option<Flat>, Fault>
    ensures ok { IfOk result (IsFlatLexical c.now) }
    ensures err { IfErr result (IsLexicalOverfull c.now) }
{
    match c {
        None => Ok(None),
        Some(c) => {
            let flat = flattened(alloc, c, true)?;
            Ok(Some(flat))
        }
    }
}

/// The flat forms of grammars that are checked, the structural one first.
fn flat_parts(
    alloc: Global,
    built: &Built,
    structural: &Checked<'_>,
    lexical: &Option<Checked<'_>>,
) -> Result<Parts, Fault>
    requires structural { structural.now ≡ built.now.g1 }
    requires lexical { IsCheckedLexical built.now.l0 lexical.now }
    ensures ok { IfOk result (λ parts. AreParts built.now parts.flat parts.lexical
        parts.abilities.items) }
    ensures err { IfErr result (IsFault built.now) }
{
    structural.known();
    let flat = flattened(alloc, structural, false)?;
    let lexical = flattened_lexical(alloc, lexical)?;
    let abilities = abilities_of(alloc, structural)?;
    Ok(Parts {
        flat,
        lexical,
        abilities,
    })
}

/// Checks the lexical grammar, too.
fn with_lexical(alloc: Global, built: &Built, structural: &Checked<'_>) -> Result<Parts, Fault>
    requires { structural.now ≡ built.now.g1 }
    ensures ok { IfOk result (λ parts. AreParts built.now parts.flat parts.lexical
        parts.abilities.items) }
    ensures err { IfErr result (IsFault built.now) }
{
    structural.known();
    let lexical = checked_lexical(alloc, &built.l0)?;
    flat_parts(alloc, built, structural, &lexical)
}

/// Checks the structural grammar, then the lexical one, and flattens them in the same order.
pub fn parts_of(alloc: Global, built: &Built) -> Result<Parts, Fault>
    ensures ok { IfOk result (λ parts. AreParts built.now parts.flat parts.lexical
        parts.abilities.items) }
    ensures err { IfErr result (IsFault built.now) }
{
    let structural = checked(alloc, &built.g1, false)?;
    with_lexical(alloc, built, &structural)
}
