// What the matches give to a job.
ghost use Rattle.std.specs.Prelude.{◌≡◌, not, ◌||◌, is_some, option_map, option_and_then, option_copied, None, codes};
ghost use Rattle.std.specs.List.{list_all};
ghost use Rattle.clap.specs.Words.{found_of, first_value};
ghost use Rattle.language_model.specs.Building.{is_one_of};
ghost use Rattle.words_model.specs.Words as model;
ghost use Rattle.words_model.specs.Words.{stats, read_or};
ghost use Rattle.command_line.specs.Jobs.{telling_of, task_of, input_of, job_of, names_of};
ghost use Rattle.command_line.specs.Given.{given_in};

use crate::command::WITH_VALUE;
use crate::job::{InputFrom, Job, MoreAsked, Task, Telling, ValuesAsked};
use crate::names::{is_among, names_given};
use crate::value::{name_or_text, number_from, ranking_of, show_of};
use clap::ArgMatches;
use grammar_model::{LAST_PLACE, Ranking, Show};

// the greatest size of job `work`
const LARGEST_WORK: u32 = 100_000;

fn has_stats(matches: &ArgMatches<'_>) -> bool
    ensures { result ≡ is_some (given_in (found_of matches.now) stats) }
{
    matches.get_str("stats") == Some("true")
}

fn lacks(matches: &ArgMatches<'_>, option: &str) -> bool
    ensures { result ≡ not (is_some (first_value (found_of matches.now) option.now)) }
{
    matches.get_str(option).is_none()
}

// Whether each of these options with values is among the options of a job, or not given.
fn allows(matches: &ArgMatches<'_>, options: &[&str], all: &[&str]) -> bool
    ensures { result ≡ list_all
        (λ option. is_one_of (names_of options.now) option.now
        || not (is_some (first_value (found_of matches.now) option.now)))
        all.now }
{
    all.iter().all(|option| is_among(options, *option) || lacks(matches, *option))
}

// Whether no option is given but these.
fn gives_only(matches: &ArgMatches<'_>, options: &[&str]) -> bool
    ensures { result ≡ model.gives_only (names_of options.now) (given_in (found_of matches.now)) }
{
    (is_among(options, "stats") || !has_stats(matches)) && allows(matches, options, WITH_VALUE)
}

// The grammar's file, of a job that has the option; None where its name has no meaning.
fn grammar_given<'a>(matches: &ArgMatches<'a>, options: &[&str]) -> Option<Option<&'a str>>
    ensures { option_map option_copied result ≡ model.grammar_given (names_of options.now) (given_in (found_of matches.now)) }
{
    if !is_among(options, "grammar") {
        return Some(None);
    }
    let name = name_or_text(matches.get_str("grammar")?)?;
    Some(Some(name))
}

// Where the input is; None where the name of its file has no meaning.
fn input_given<'a>(matches: &ArgMatches<'a>, options: &[&str]) -> Option<InputFrom<'a>>
    ensures { option_map input_of result ≡ model.input_given (names_of options.now) (given_in (found_of matches.now)) }
{
    if !is_among(options, "input") {
        return Some(InputFrom::Nowhere);
    }
    match matches.get_str("input") {
        None => Some(InputFrom::StandardInput),
        Some(value) => Some(InputFrom::FileNamed(name_or_text(value)?)),
    }
}

/// The job of a task that has these options; None where others are given, or one has no meaning.
pub fn job_with<'a>(
    matches: &ArgMatches<'a>,
    options: &[&str],
    task: Option<Task<'a>>,
) -> Option<Job<'a>>
    ensures { option_map job_of result ≡ model.job_with (names_of options.now)
        (option_map task_of task.entry) (given_in (found_of matches.now)) }
{
    if !gives_only(matches, options) {
        return None;
    }
    Some(Job {
        grammar: grammar_given(matches, options)?,
        input: input_given(matches, options)?,
        task: task?,
    })
}

fn show_given(matches: &ArgMatches<'_>) -> Option<Show>
    ensures { result ≡ read_or Show.Array model.show_of (given_in (found_of matches.now) (codes "show")) }
{
    match matches.get_str("show") {
        None => Some(Show::Array),
        Some(value) => show_of(value),
    }
}

fn ranking_given(matches: &ArgMatches<'_>) -> Option<Ranking>
    ensures { result ≡ read_or Ranking.Rule model.ranking_of (given_in (found_of matches.now) (codes "rank")) }
{
    match matches.get_str("rank") {
        None => Some(Ranking::Rule),
        Some(value) => ranking_of(value),
    }
}

fn first_given(matches: &ArgMatches<'_>) -> Option<Option<u32>>
    ensures { result ≡ read_or None model.value_count (given_in (found_of matches.now) (codes "first")) }
{
    match matches.get_str("first") {
        None => Some(None),
        Some(value) => Some(Some(number_from(1, 4_294_967_295, value)?)),
    }
}

/// The values that are asked for; None where an option has no meaning.
pub fn values_asked<'a>(matches: &ArgMatches<'a>) -> Option<Telling<'a>>
    ensures { option_map telling_of result ≡ model.values_asked (given_in (found_of matches.now)) }
{
    Some(Telling::Values(ValuesAsked {
        show: show_given(matches)?,
        ranking: ranking_given(matches)?,
        first: first_given(matches)?,
        stats: has_stats(matches),
    }))
}

// The text of the place; None where it is not given or has no meaning.
fn after_given<'a>(matches: &ArgMatches<'a>) -> Option<&'a str>
    ensures { option_copied result ≡
        option_and_then model.name_or_text (given_in (found_of matches.now) (codes "after")) }
{
    name_or_text(matches.get_str("after")?)
}

/// The values after a place that are asked for; None where the place is not given, or an option has no meaning.
pub fn more_asked<'a>(matches: &ArgMatches<'a>) -> Option<Telling<'a>>
    ensures { option_map telling_of result ≡ model.more_asked (given_in (found_of matches.now)) }
{
    Some(Telling::More(MoreAsked {
        show: show_given(matches)?,
        ranking: ranking_given(matches)?,
        after: after_given(matches)?,
        first: first_given(matches)?,
    }))
}

/// The task to tell of an input by which lexemes are supplied; None where their names are not given or have no meaning, or nothing is told.
pub fn supply_asked<'a>(matches: &ArgMatches<'a>, what: Option<Telling<'a>>) -> Option<Task<'a>>
    ensures { option_map task_of result ≡ option_and_then
        (λ names. option_map (model.Tell names) (option_map telling_of what.entry))
        (option_and_then model.names_given (given_in (found_of matches.now) (codes "give"))) }
{
    let names = names_given(matches.get_str("give")?)?;
    Some(Task::Tell {
        given: Some(names),
        what: what?,
    })
}

/// The report that is asked for; None where its place is not given or has no meaning.
pub fn report_asked<'a>(matches: &ArgMatches<'a>) -> Option<Telling<'a>>
    ensures { option_map telling_of result ≡ model.report_asked (given_in (found_of matches.now)) }
{
    let at = number_from(0, LAST_PLACE, matches.get_str("at")?)?;
    Some(Telling::Report { at })
}

/// The work that is asked for; None where its size is not given or has no meaning.
pub fn work_asked<'a>(matches: &ArgMatches<'a>) -> Option<Task<'a>>
    ensures { option_map task_of result ≡ model.work_asked (given_in (found_of matches.now)) }
{
    let size = number_from(1, LARGEST_WORK, matches.get_str("size")?)?;
    Some(Task::Work { size })
}
