// Whether a text is in order: each of its names is declared before it is used, and once.
ghost use Rattle.std.specs.Prelude.{◌≡◌, OnOk, IfErr};
ghost use Rattle.grammar_model.specs.declared.Ranking.TheVariants.{Rule};
ghost use Rattle.declared_names.specs.Order.{HasFirst, AreInOrder, IsFaultIn, IsInOrder, IsPlaced, IsStopOfReading, IsStopOf};

use crate::fault::Fault;
use crate::scope::Scope;
use crate::stop::Stop;
use slif_parser::{FoldError, Forest, Grammar, Ranking, Reading};
use std::alloc::Global;

/// Whether a text is in order, by the grammar of its statements.
pub(crate) fn look_at(alloc: Global, grammar: &Grammar, text: &[u8]) -> Result<(), Stop>
    ensures ok { OnOk result (IsInOrder grammar.now text.now) }
    ensures err { IfErr result (IsStopOf grammar.now text.now) }
{
    match grammar.read(alloc, text) {
        Ok(reading) => {
            let looked = look_at_reading(alloc, &reading);
            drop(reading);
            looked
        }
        Err(error) => Err(Stop::Parse(error)),
    }
}

fn look_at_reading(alloc: Global, reading: &Reading<'_>) -> Result<(), Stop>
    ensures ok { OnOk result (HasFirst reading.now AreInOrder) }
    ensures err { IfErr result (IsStopOfReading reading.now) }
{
    match reading.forest(alloc, Ranking::Rule) {
        Ok(forest) => {
            let looked = look_at_first(alloc, &forest);
            drop(forest);
            match looked {
                Ok(()) => Ok(()),
                Err(fault) => Err(placed(reading, fault)),
            }
        }
        Err(error) => Err(Stop::Parse(error)),
    }
}

/// Looks at the first derivation. There is one, and the grammar gives no more.
fn look_at_first(alloc: Global, forest: &Forest<'_>) -> Result<(), Fault>
    requires { forest.now.forest.ranking ≡ Rule }
    ensures ok { OnOk result (HasFirst forest.now.read AreInOrder) }
    ensures err { IfErr result (IsFaultIn forest.now.read) }
{
    let mut derivations = forest.derivations(alloc)?;
    if !derivations.next()? {
        unreachable!();
    }
    derivations.known();
    let mut scope = Scope::new(alloc);
    match derivations.fold(alloc, &mut scope) {
        Ok(_) => Ok(()),
        Err(FoldError::Semantics(fault)) => Err(fault),
        Err(FoldError::NoMemory) => Err(Fault::NoMemory),
    }
}

// The fault, with its place.
fn placed(reading: &Reading<'_>, fault: Fault) -> Stop
    ensures { IsPlaced reading.now.characters fault result }
{
    match fault {
        Fault::NotDeclared { name, start } => Stop::NotDeclared {
            name,
            place: reading.place(start),
        },
        Fault::DeclaredTwice { name, start, first } => Stop::DeclaredTwice {
            name,
            place: reading.place(start),
            first: reading.place(first),
        },
        Fault::NoMemory => Stop::NoMemory,
    }
}
