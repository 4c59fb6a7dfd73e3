//! Words of the command line, and what they ask for.
use command_line::{InputFrom, Job, MoreAsked, Task, Telling, ValuesAsked, read_words};
use grammar_model::{Ranking, Show};
use run_scenes::words_of;
use std::alloc::{AllocError, Global};
use std::test::Fail;

fn is_all_given(asked: ValuesAsked) -> bool {
    asked.show == Show::Tree
        && asked.ranking == Ranking::None
        && asked.first == Some(7)
        && asked.stats
}

fn is_all_left_out(asked: ValuesAsked) -> bool {
    asked.show == Show::Array
        && asked.ranking == Ranking::Rule
        && asked.first.is_none()
        && !asked.stats
}

// What words ask for.
#[derive(Clone, Copy)]
enum Asked {
    AllGiven,
    AllLeftOut,
    Check,
    Expect,
    Progress,
    Glades,
    Work,
    Script,
    MoreGiven,
    MoreLeftOut,
    Nothing,
}

fn is_more_given(asked: MoreAsked<'_>) -> bool {
    asked.show == Show::Tree
        && asked.ranking == Ranking::High
        && asked.first == Some(7)
        && asked.after == "-x"
}

fn is_more_left_out(asked: MoreAsked<'_>) -> bool {
    asked.show == Show::Array
        && asked.ranking == Ranking::Rule
        && asked.first.is_none()
        && asked.after == "0"
}

// Whether what is told is what is wanted.
fn is_telling(what: Telling<'_>, wanted: Asked) -> bool {
    match (what, wanted) {
        (Telling::Values(asked), Asked::AllGiven) => is_all_given(asked),
        (Telling::Values(asked), Asked::AllLeftOut) => is_all_left_out(asked),
        (Telling::Expected, Asked::Expect) => true,
        (Telling::Report { at }, Asked::Progress) => at == 16_777_216,
        (Telling::Glades, Asked::Glades) => true,
        (Telling::More(asked), Asked::MoreGiven) => is_more_given(asked),
        (Telling::More(asked), Asked::MoreLeftOut) => is_more_left_out(asked),
        _ => false,
    }
}

// Whether the task is the one that is wanted, with nothing supplied.
fn is_task(task: Task<'_>, wanted: Asked) -> bool {
    match (task, wanted) {
        (Task::Tell { given: None, what }, _) => is_telling(what, wanted),
        (Task::Check, Asked::Check) => true,
        (Task::Work { size }, Asked::Work) => size == 100_000,
        (Task::Script, Asked::Script) => true,
        _ => false,
    }
}

fn grammar_wanted(wanted: Asked) -> Option<&'static str> {
    match wanted {
        Asked::AllGiven | Asked::AllLeftOut => Some("g.slif"),
        Asked::Check | Asked::Progress | Asked::Glades => Some("g"),
        Asked::MoreGiven | Asked::MoreLeftOut => Some("g"),
        Asked::Expect => Some("--"),
        Asked::Work | Asked::Script | Asked::Nothing => None,
    }
}

// Whether the input is where it is wanted.
fn is_input(input: InputFrom<'_>, wanted: Asked) -> bool {
    match (input, wanted) {
        (InputFrom::FileNamed(name), Asked::AllGiven) => name == "i.txt",
        (InputFrom::FileNamed(name), Asked::Expect) => name == "-x",
        (InputFrom::FileNamed(name), Asked::Script) => name == "s.txt",
        (InputFrom::FileNamed(name), Asked::MoreGiven) => name == "i.txt",
        (InputFrom::StandardInput, Asked::AllLeftOut | Asked::Progress | Asked::Glades) => true,
        (InputFrom::StandardInput, Asked::MoreLeftOut) => true,
        (InputFrom::Nowhere, Asked::Check | Asked::Work) => true,
        _ => false,
    }
}

fn is_asked(job: Option<Job<'_>>, wanted: Asked) -> bool {
    match job {
        Some(job) => {
            job.grammar == grammar_wanted(wanted)
                && is_input(job.input, wanted)
                && is_task(job.task, wanted)
        }
        None => matches!(wanted, Asked::Nothing),
    }
}

// Whether words ask for this.
fn asks(alloc: Global, texts: &[&str], wanted: Asked) -> Result<bool, AllocError> {
    let words = words_of(alloc, texts)?;
    Ok(is_asked(read_words(alloc, &words)?, wanted))
}

// Whether all words ask for this.
fn all_ask(alloc: Global, rows: &[(&[&str], Asked)]) -> Result<bool, AllocError> {
    for (texts, wanted) in rows {
        if !asks(alloc, texts, *wanted)? {
            return Ok(false);
        }
    }
    Ok(true)
}

static OPTIONS: [(&[&str], Asked); 2] = [
    (
        &[
            "--first=07",
            "--rank",
            "none",
            "run",
            "--grammar=g.slif",
            "--show=tree",
            "--stats",
            "--input",
            "i.txt",
        ],
        Asked::AllGiven,
    ),
    (&["--grammar", "g.slif", "--", "run"], Asked::AllLeftOut),
];

#[test]
fn options_stand_in_any_order_and_spelling(rt: HostRuntime) -> Result<(), Fail> {
    assert!(rt; all_ask(rt.alloc(), &OPTIONS)?);
    Ok(())
}

static JOBS: [(&[&str], Asked); 8] = [
    (&["check", "--grammar", "g"], Asked::Check),
    (&["expect", "--input=-x", "--grammar=--"], Asked::Expect),
    (
        &["progress", "--at", "16777216", "--grammar", "g"],
        Asked::Progress,
    ),
    (&["work", "--size=0000100000"], Asked::Work),
    (&["--grammar=g", "glades"], Asked::Glades),
    (&["--input", "s.txt", "script"], Asked::Script),
    (
        &[
            "more",
            "--after=-x",
            "--grammar=g",
            "--first=7",
            "--rank=high",
            "--show=tree",
            "--input=i.txt",
        ],
        Asked::MoreGiven,
    ),
    (
        &["--after", "0", "more", "--grammar", "g"],
        Asked::MoreLeftOut,
    ),
];

#[test]
fn each_job_is_read(rt: HostRuntime) -> Result<(), Fail> {
    assert!(rt; all_ask(rt.alloc(), &JOBS)?);
    Ok(())
}

static NOTHING: [&[&str]; 27] = [
    &[],
    &["run"],
    &["--grammar", "g"],
    &["jump", "--grammar", "g"],
    &["run", "run", "--grammar", "g"],
    &["run", "--grammar", "g", "--grammar", "g"],
    &["run", "--grammar", "-g"],
    &["run", "--grammar="],
    &["run", "--grammar=-"],
    &["run", "--grammar", "g", "--first", "0"],
    &["run", "--grammar", "g", "--first", "4294967296"],
    &["run", "--grammar", "g", "--rank", "best"],
    &["run", "--gram", "g"],
    &["check", "--grammar", "g", "--input", "i"],
    &["progress", "--grammar", "g", "--at", "16777217"],
    &["work", "--size", "00000000001"],
    &["glades"],
    &["glades", "--grammar", "g", "--first", "1"],
    &["script", "--grammar", "g"],
    &["script", "--input", ""],
    &["more", "--grammar", "g", "--first", "1"],
    &["more", "--grammar", "g", "--after", ""],
    &["more", "--grammar", "g", "--after=-"],
    &["more", "--grammar", "g", "--after", "-x"],
    &["more", "--grammar", "g", "--after", "0", "--stats"],
    &["more", "--grammar", "g", "--after", "0", "--first", "0"],
    &["run", "--grammar", "g", "--after", "0"],
];

#[test]
fn other_words_ask_for_nothing(rt: HostRuntime) -> Result<(), Fail> {
    for texts in &NOTHING {
        assert!(rt; asks(rt.alloc(), texts, Asked::Nothing)?);
    }
    Ok(())
}
