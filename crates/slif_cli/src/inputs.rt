// The bytes of the input.
ghost use Rattle.std.specs.Prelude.{◌≡◌, ◌≢◌, ◌≤◌, ◌⊎◌, [], ◌∷◌, length, IfOk, IfErr};
ghost use Rattle.outside_model.specs.Causes.{Rose};
ghost use Rattle.outside_model.specs.Told.{MayBe, MayHold, SameFiles, AsksAmong};
ghost use Rattle.words_model.specs.Words.InputFrom.{Nowhere, StandardInput};
ghost use Rattle.run_model.specs.Runs.{InputMayBe};
ghost use Rattle.command_line.specs.Jobs.{input_of};
ghost use Rattle.slif_cli.specs.Stops.{ReadStops, FileStops, SourceStops, names_from};

use command_line::InputFrom;
use slif_base::{FileRefusal, Files, ReadRefusal, Source, read_all, read_named};
use std::alloc::Global;
use tellings::{Refusal, Stop};
use text_reading::long_input_text;

/// The bytes of the input, which is somewhere, where they are at most so many.
pub fn read_bytes<'a, F: Files, I: Source>(
    alloc: Global,
    from: InputFrom<'a>,
    limit: usize,
    files: &mut F,
    input: &mut I,
) -> Result<Vec<u8>, Stop<'a>>
    requires { input_of from ≢ Nowhere }
    ensures read { IfOk result (λ bytes. InputMayBe (input_of from.entry) (F.told files.old) (I.left input.old) bytes.items) }
    ensures within { IfOk result (λ bytes. length bytes.items ≤ limit) }
    ensures stops { IfErr result (ReadStops limit (input_of from.entry) (F.told files.old) (I.left input.old)
        (Rose (F.fault_count files.old) (F.fault_count files.new)) (Rose (I.fault_count input.old) (I.fault_count input.new))) }
    ensures later { F.fault_count files.old ≤ F.fault_count files.new }
    ensures input_later { I.fault_count input.old ≤ I.fault_count input.new }
    ensures held { SameFiles (F.told files.old) (F.told files.new) }
    ensures asks { AsksAmong (F.asked files.old) (F.asked files.new) (names_from (input_of from.entry)) }
    ensures input { (input.new ≡ input.old) ⊎ (input_of from.entry ≡ StandardInput) }
{
    match from {
        InputFrom::FileNamed(name) => file_bytes(alloc, name, limit, files),
        InputFrom::StandardInput => standard_bytes(alloc, limit, input),
        InputFrom::Nowhere => unreachable!(),
    }
}

fn file_bytes<'a, F: Files>(
    alloc: Global,
    name: &'a str,
    limit: usize,
    files: &mut F,
) -> Result<Vec<u8>, Stop<'a>>
    ensures read { IfOk result (λ bytes. MayHold (F.told files.old name.now) bytes.items) }
    ensures within { IfOk result (λ bytes. length bytes.items ≤ limit) }
    ensures stops { IfErr result (FileStops limit name.now (F.told files.old name.now) (Rose (F.fault_count files.old) (F.fault_count files.new))) }
    ensures later { F.fault_count files.old ≤ F.fault_count files.new }
    ensures held { SameFiles (F.told files.old) (F.told files.new) }
    ensures asks { AsksAmong (F.asked files.old) (F.asked files.new) (name.now ∷ []) }
{
    match read_named(alloc, files, name, limit) {
        Ok(bytes) => Ok(bytes),
        Err(FileRefusal::OpenFault) => Err(Stop::OpenFault(name)),
        Err(FileRefusal::ReadFault) => Err(Stop::ReadFault),
        Err(FileRefusal::TooLarge) => Err(Stop::Refused(Refusal::Input {
            text: long_input_text(alloc, limit)?,
        })),
        Err(FileRefusal::NoMemory) => Err(Stop::NoMemory),
    }
}

fn standard_bytes<'a, I: Source>(
    alloc: Global,
    limit: usize,
    input: &mut I,
) -> Result<Vec<u8>, Stop<'a>>
    ensures read { IfOk result (λ bytes. MayBe (I.left input.old) bytes.items) }
    ensures within { IfOk result (λ bytes. length bytes.items ≤ limit) }
    ensures stops { IfErr result (SourceStops limit (I.left input.old) (Rose (I.fault_count input.old) (I.fault_count input.new))) }
    ensures later { I.fault_count input.old ≤ I.fault_count input.new }
{
    match read_all(alloc, input, limit) {
        Ok(bytes) => Ok(bytes),
        Err(ReadRefusal::ReadFault) => Err(Stop::ReadFault),
        Err(ReadRefusal::TooLarge) => Err(Stop::Refused(Refusal::Input {
            text: long_input_text(alloc, limit)?,
        })),
        Err(ReadRefusal::NoMemory) => Err(Stop::NoMemory),
    }
}
