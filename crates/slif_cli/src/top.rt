// The top call.
ghost use Rattle.std.specs.Prelude.{◌≡◌, ◌≤◌, ◌≢◌, ◌⊎◌, ℕ, List, [], ◌∷◌, Option, Some, IsTrue, is_some, map, string_bytes, option_copied, length, OnOk, IfErr};
ghost use Rattle.outside_model.specs.Told.{SameFiles, AsksAmong};
ghost use Rattle.words_model.specs.Words as asked_words;
ghost use Rattle.words_model.specs.Words.{Asks, Nowhere};
ghost use Rattle.run_model.specs.Outside.{Outside, Stream, stream, disk};
ghost use Rattle.run_model.specs.Runs.{Runs, AsksNames, ReadsInput};
ghost use Rattle.run_model.specs.Within.{RunsWithin};
ghost use Rattle.command_line.specs.Jobs.{job_of, names_told, telling_of, input_of};
ghost use Rattle.valuator.specs.Told.{states};
ghost use Rattle.value_lines.specs.Writing.{AreBothTellers};
ghost use Rattle.tellings.specs.Stops.{Does};
ghost use Rattle.slif_cli.specs.Stops.{MayHave, WorkStops, DoesJob, JobStops};
ghost use Rattle.slif_cli.specs.Tasks.{IsCheckJob, IsTellJob};

use crate::checking::write_check;
use crate::giving::lexemes_given;
use crate::grammar::load_grammar;
use crate::hands::Hands;
use crate::messages::report;
use crate::scripting::play_input;
use crate::streams::{StandardError, StandardOutput};
use crate::telling::tell_input;
use crate::working::work_of_size;
use command_line::{InputFrom, Job, Task, Telling, read_words};
use slif_base::{Files, Sink, Source, Steps};
use slippers::Supplier;
use std::alloc::Global;
use std::sync::ledger::Ledger;
use tellings::{Refusal, Stop};
use valuator::Teller;

/// Does what the words ask for, and answers the status. The words are those after the program's own name. Of the tellers that of
/// the kind asked for is kept, and the other is dropped before any value is told. The supplier is told the lexemes that job `slip` gives;
/// each other job drops it at once.
pub fn run<F: Files, I: Source, O: StandardOutput, E: StandardError, L: Ledger>(
    alloc: Global,
    words: &[String],
    files: &mut F,
    input: &mut I,
    out: &mut O,
    err: &mut E,
    tellers: Vec<Box<dyn Teller>>,
    supplier: Box<dyn Supplier>,
    steps: &mut Steps<L>,
) -> u8
    requires tellers { AreBothTellers (states tellers.items shows held) }
    ensures runs { let before : Outside = record {
      files = disk F.told F.fault_count files.old;
      input = stream I.left I.fault_count input.old;
      out = stream O.contents O.fault_count out.old;
      err = stream E.contents E.fault_count err.old;
    } in
        let after : Outside = record {
          files = disk F.told F.fault_count files.new;
          input = stream I.left I.fault_count input.new;
          out = stream O.contents O.fault_count out.new;
          err = stream E.contents E.fault_count err.new;
        } in
        Runs (map string_bytes words.now) before after result }
    ensures counted { result ≡ 0 → RunsWithin (map string_bytes words.now) (F.told files.old) (I.left input.old)
        (O.contents out.old) (O.contents out.new) steps.old steps.new }
    ensures asks { AsksNames (map string_bytes words.now) (F.told files.old) (F.asked files.old) (F.asked files.new) }
    ensures input { (input.new ≡ input.old) ⊎ ReadsInput (map string_bytes words.now) (F.told files.old) }
    ensures held { SameFiles (F.told files.old) (F.told files.new) }
{
    let hands = Hands {
        tellers,
        supplier: Some(supplier),
    };
    match do_words(alloc, words, files, input, out, hands, steps) {
        Ok(()) => 0,
        Err(stop) => report(alloc, stop, err),
    }
}

// Does what the words ask for.
fn do_words<'a, F: Files, I: Source, O: Sink, L: Ledger>(
    alloc: Global,
    words: &'a [String],
    files: &mut F,
    input: &mut I,
    out: &mut O,
    hands: Hands,
    steps: &mut Steps<L>,
) -> Result<(), Stop<'a>>
    requires supplier { IsTrue (is_some hands.supplier) }
    requires tellers { AreBothTellers (states hands.tellers.items shows held) }
    ensures done { OnOk result (Does (MayHave (map string_bytes words.now) (F.told files.old) (I.left input.old)) (O.contents out.old) (O.contents out.new)) }
    ensures stops { IfErr result (WorkStops (map string_bytes words.now)
        (disk F.told F.fault_count files.old) (disk F.told F.fault_count files.new)
        (stream I.left I.fault_count input.old) (stream I.left I.fault_count input.new)
        (stream O.contents O.fault_count out.old) (stream O.contents O.fault_count out.new)) }
    ensures counted { OnOk result (RunsWithin (map string_bytes words.now) (F.told files.old) (I.left input.old)
        (O.contents out.old) (O.contents out.new) steps.old steps.new) }
    ensures asks { AsksNames (map string_bytes words.now) (F.told files.old) (F.asked files.old) (F.asked files.new) }
    ensures input { (input.new ≡ input.old) ⊎ ReadsInput (map string_bytes words.now) (F.told files.old) }
    ensures held { SameFiles (F.told files.old) (F.told files.new) }
{
    let job = match read_words(alloc, words) {
        Ok(Some(job)) => job,
        Ok(None) => return Err(Stop::Refused(Refusal::Usage)),
        Err(_) => return Err(Stop::NoMemory),
    };
    do_task(alloc, job, files, input, out, hands, steps)
}

fn do_task<'a, F: Files, I: Source, O: Sink, L: Ledger>(
    alloc: Global,
    job: Job<'a>,
    files: &mut F,
    input: &mut I,
    out: &mut O,
    hands: Hands,
    steps: &mut Steps<L>,
) -> Result<(), Stop<'a>>
    requires asked { (words : List (List ℕ)) × Asks words (job_of job) }
    requires supplier { IsTrue (is_some hands.supplier) }
    requires tellers { AreBothTellers (states hands.tellers.items shows held) }
    ensures done { OnOk result (DoesJob (job_of job.entry) (F.told files.old) (I.left input.old) (O.contents out.old) (O.contents out.new)) }
    ensures stops { IfErr result (JobStops (job_of job.entry)
        (disk F.told F.fault_count files.old) (disk F.told F.fault_count files.new)
        (stream I.left I.fault_count input.old) (stream I.left I.fault_count input.new)
        (stream O.contents O.fault_count out.old) (stream O.contents O.fault_count out.new)) }
    ensures counted { OnOk result ((words : List (List ℕ)) → Asks words (job_of job.entry) →
        RunsWithin words (F.told files.old) (I.left input.old)
        (O.contents out.old) (O.contents out.new) steps.old steps.new) }
    ensures asks { (words : List (List ℕ)) → Asks words (job_of job.entry) → AsksNames words (F.told files.old) (F.asked files.old) (F.asked files.new) }
    ensures input { (input.new ≡ input.old) ⊎ ((words : List (List ℕ)) → Asks words (job_of job.entry) → ReadsInput words (F.told files.old)) }
    ensures held { SameFiles (F.told files.old) (F.told files.new) }
{
    match job.task {
        Task::Check => {
            drop(hands);
            check_grammar(alloc, grammar_file(job.grammar), files, out)
        }
        Task::Tell { given, what } => {
            let grammar = grammar_file(job.grammar);
            let hands = Hands {
                supplier: given.and(hands.supplier),
                tellers: hands.tellers,
            };
            tell_by(
                alloc, grammar, given, what, job.input, files, input, out, hands, steps,
            )
        }
        Task::Work { size } => {
            drop(hands);
            work_of_size(alloc, size, out, steps)
        }
        Task::Script => {
            drop(hands);
            play_input(alloc, job.input, files, input, out, steps)
        }
    }
}

// The file of the grammar, which there is.
fn grammar_file<'a>(name: Option<&'a str>) -> &'a str
    requires { IsTrue (is_some name) }
    ensures { option_copied name.entry ≡ Some result.now }
{
    match name {
        Some(name) => name,
        None => unreachable!(),
    }
}

// Checks the grammar of that name. Each job has a frame of its own, so that none needs the room of another.
#[inline(never)]
fn check_grammar<'a, F: Files, O: Sink>(
    alloc: Global,
    name: &'a str,
    files: &mut F,
    out: &mut O,
) -> Result<(), Stop<'a>>
    ensures done { OnOk result ((job : asked_words.Job) → IsCheckJob job name.now → (left : Option (List ℕ)) →
        DoesJob job (F.told files.old) left (O.contents out.old) (O.contents out.new)) }
    ensures stops { IfErr result (λ stop. (job : asked_words.Job) → IsCheckJob job name.now → (input : Stream) → JobStops job
        (disk F.told F.fault_count files.old) (disk F.told F.fault_count files.new) input input
        (stream O.contents O.fault_count out.old) (stream O.contents O.fault_count out.new) stop) }
    ensures asks { AsksAmong (F.asked files.old) (F.asked files.new) (name.now ∷ []) }
    ensures held { SameFiles (F.told files.old) (F.told files.new) }
{
    let prepared = load_grammar(alloc, name, files)?;
    let written = write_check(alloc, &prepared, out);
    drop(prepared);
    written
}

// Reads the grammar of that name and the input, and writes what is told of the input.
#[inline(never)]
fn tell_by<'a, F: Files, I: Source, O: Sink, L: Ledger>(
    alloc: Global,
    grammar: &'a str,
    names: Option<&'a str>,
    what: Telling<'_>,
    from: InputFrom<'a>,
    files: &mut F,
    input: &mut I,
    out: &mut O,
    hands: Hands,
    steps: &mut Steps<L>,
) -> Result<(), Stop<'a>>
    requires both { is_some hands.supplier ≡ is_some names }
    requires few { length (names_told names) ≤ 8 }
    requires somewhere { input_of from ≢ Nowhere }
    requires tellers { AreBothTellers (states hands.tellers.items shows held) }
    ensures done { OnOk result ((job : asked_words.Job) → IsTellJob job grammar.now (input_of from.entry) (names_told names.entry) (telling_of what.entry) →
        DoesJob job (F.told files.old) (I.left input.old) (O.contents out.old) (O.contents out.new)) }
    ensures stops { IfErr result (λ stop. (job : asked_words.Job) →
        IsTellJob job grammar.now (input_of from.entry) (names_told names.entry)
        (telling_of what.entry) → JobStops job
        (disk F.told F.fault_count files.old) (disk F.told F.fault_count files.new)
        (stream I.left I.fault_count input.old) (stream I.left I.fault_count input.new)
        (stream O.contents O.fault_count out.old) (stream O.contents O.fault_count out.new) stop) }
    ensures counted { OnOk result ((job : asked_words.Job) → IsTellJob job grammar.now (input_of from.entry) (names_told names.entry) (telling_of what.entry) →
        (words : List (List ℕ)) → Asks words job → RunsWithin words (F.told files.old) (I.left input.old)
        (O.contents out.old) (O.contents out.new) steps.old steps.new) }
    ensures asks { (job : asked_words.Job) → IsTellJob job grammar.now (input_of from.entry) (names_told names.entry) (telling_of what.entry) →
        (words : List (List ℕ)) → Asks words job → AsksNames words (F.told files.old) (F.asked files.old) (F.asked files.new) }
    ensures input { (input.new ≡ input.old) ⊎ ((job : asked_words.Job) →
        IsTellJob job grammar.now (input_of from.entry) (names_told names.entry)
        (telling_of what.entry) →
        (words : List (List ℕ)) → Asks words job → ReadsInput words (F.told files.old)) }
    ensures held { SameFiles (F.told files.old) (F.told files.new) }
{
    let prepared = load_grammar(alloc, grammar, files)?;
    let lexemes = lexemes_given(alloc, &prepared, names)?;
    let told = tell_input(
        alloc, &prepared, &lexemes, what, from, files, input, out, hands, steps,
    );
    drop(prepared);
    told
}
