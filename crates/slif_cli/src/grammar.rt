// The grammar, read from its file.
ghost use Rattle.std.specs.Prelude.{◌≤◌, ◌∷◌, [], IfOk, IfErr, OnOk};
ghost use Rattle.outside_model.specs.Causes.{Rose};
ghost use Rattle.outside_model.specs.Told.{FileHolds, SameFiles, AsksAmong, AddsNames};
ghost use Rattle.run_model.specs.Refused.{Accepted};
ghost use Rattle.slif_cli.specs.Stops.{LoadStops};

use grammar_model::LONGEST_GRAMMAR;
use scanless::Prepared;
use slif_base::{FileRefusal, Files, read_named};
use std::alloc::Global;
use tellings::{Refusal, Stop};
use text_reading::{long_grammar_text, read_grammar};

/// Reads the grammar from the named file.
pub fn load_grammar<'a, F: Files>(
    alloc: Global,
    name: &'a str,
    files: &mut F,
) -> Result<Prepared, Stop<'a>>
    ensures read { IfOk result (λ p. FileHolds (F.told files.old name.now) (λ bytes. Accepted bytes p)) }
    ensures stops { IfErr result (LoadStops name.now (F.told files.old name.now) (Rose (F.fault_count files.old) (F.fault_count files.new))) }
    ensures later { F.fault_count files.old ≤ F.fault_count files.new }
    ensures held { SameFiles (F.told files.old) (F.told files.new) }
    ensures asks { AsksAmong (F.asked files.old) (F.asked files.new) (name.now ∷ []) }
    ensures asked { OnOk result (AddsNames (F.asked files.old) (F.asked files.new) (name.now ∷ [])) }
{
    match read_named(alloc, files, name, LONGEST_GRAMMAR) {
        Ok(bytes) => Ok(read_grammar(alloc, &bytes)?),
        Err(FileRefusal::OpenFault) => Err(Stop::OpenFault(name)),
        Err(FileRefusal::ReadFault) => Err(Stop::ReadFault),
        Err(FileRefusal::TooLarge) => {
            let text = long_grammar_text(alloc)?;
            Err(Stop::Refused(Refusal::Grammar { text }))
        }
        Err(FileRefusal::NoMemory) => Err(Stop::NoMemory),
    }
}
