// The jobs: what each is, its name, and the options that it may have.
ghost use Rattle.std.specs.Prelude.{◌≡◌, [], Some, option_map};
ghost use Rattle.clap.specs.Words.{found_of};
ghost use Rattle.words_model.specs.Words as model;
ghost use Rattle.command_line.specs.Jobs.{telling_of, task_of, job_of, names_of};
ghost use Rattle.command_line.specs.Given.{given_in};

use crate::asked::{job_with, more_asked, report_asked, supply_asked, values_asked, work_asked};
use clap::ArgMatches;
use grammar_model::{Ranking, Show};

/// Which values are shown, and how.
#[derive(Clone, Copy, Debug)]
pub struct ValuesAsked {
    pub show: Show,
    pub ranking: Ranking,
    /// At most so many; None is all of them.
    pub first: Option<u32>,
    /// A line of counts follows the values.
    pub stats: bool,
}

/// Which values are shown, and how, of the derivations after a place.
#[derive(Clone, Copy, Debug)]
pub struct MoreAsked<'a> {
    pub show: Show,
    pub ranking: Ranking,
    /// The text of the place: a derivation's cursor, or `0` for the place before the first.
    pub after: &'a str,
    /// At most so many; None is all of them.
    pub first: Option<u32>,
}

/// What is told of an input that is read to its end.
#[derive(Clone, Copy, Debug)]
pub enum Telling<'a> {
    /// The values of its derivations.
    Values(ValuesAsked),
    /// The values of those after a place.
    More(MoreAsked<'a>),
    /// The lexemes that could come next.
    Expected,
    /// The progress report at a place, counted in tokens.
    Report { at: u32 },
    /// Where its derivations differ.
    Glades,
}

/// What a job does.
#[derive(Clone, Copy, Debug)]
pub enum Task<'a> {
    /// It tells what the symbols of its grammar can do.
    Check,
    /// It tells something of its input. Where names are given, with commas between them, lexemes of these names are supplied as reading is
    /// stuck.
    Tell {
        given: Option<&'a str>,
        what: Telling<'a>,
    },
    /// It reads an input of its own, of that size, by a grammar of its own.
    Work {
        size: u32,
    },
    /// It plays its input as a script.
    Script,
}

/// Where the input of a job is.
#[derive(Clone, Copy, Debug)]
pub enum InputFrom<'a> {
    Nowhere,
    StandardInput,
    FileNamed(&'a str),
}

/// What the words ask for.
#[derive(Clone, Copy, Debug)]
pub struct Job<'a> {
    /// The file of the grammar, if the task needs one.
    pub grammar: Option<&'a str>,
    pub input: InputFrom<'a>,
    pub task: Task<'a>,
}

/// What is told where the words ask for no job.
pub const USAGE: &[u8] =
    b"usage: slif JOB [options]; jobs: run, check, expect, progress, work, script, more, slip, glades";

fn told<'a>(what: Option<Telling<'a>>) -> Option<Task<'a>>
    ensures { option_map task_of result ≡ option_map (model.Tell []) (option_map telling_of what.entry) }
{
    Some(Task::Tell {
        given: None,
        what: what?,
    })
}

// The table of jobs: the options that each may have, and its task.
fn job_named<'a>(matches: &ArgMatches<'a>, name: &str) -> Option<Job<'a>>
    ensures { option_map job_of result ≡ model.job_named name.now (given_in (found_of matches.now)) }
{
    match name {
        "run" => job_with(
            matches,
            &["grammar", "input", "first", "rank", "show", "stats"],
            told(values_asked(matches)),
        ),
        "check" => job_with(matches, &["grammar"], Some(Task::Check)),
        "expect" => job_with(
            matches,
            &["grammar", "input"],
            told(Some(Telling::Expected)),
        ),
        "progress" => job_with(
            matches,
            &["grammar", "input", "at"],
            told(report_asked(matches)),
        ),
        "work" => job_with(matches, &["size"], work_asked(matches)),
        "script" => job_with(matches, &["input"], Some(Task::Script)),
        "more" => job_with(
            matches,
            &["grammar", "input", "after", "first", "rank", "show"],
            told(more_asked(matches)),
        ),
        "slip" => job_with(
            matches,
            &["grammar", "input", "give", "first", "rank", "show"],
            supply_asked(matches, values_asked(matches)),
        ),
        "glades" => job_with(matches, &["grammar", "input"], told(Some(Telling::Glades))),
        _ => None,
    }
}

/// The job that is asked for, where the values of its options have a meaning.
pub fn job_given<'a>(matches: &ArgMatches<'a>) -> Option<Job<'a>>
    ensures { option_map job_of result ≡ model.job_given (given_in (found_of matches.now)) }
{
    let name = matches.get_str("JOB")?;
    job_named(matches, name)
}
