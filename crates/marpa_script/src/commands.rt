//! The command that words spell.
ghost use Rattle.std.specs.Prelude.{◌≡◌, ℕ, List, option_map, option_copied};
ghost use Rattle.script_model.specs.Commands as spelled;
ghost use Rattle.script_model.specs.Parsing as model;
ghost use Rattle.marpa_script.specs.Told.{told, texts};

use crate::number::number_in;

/// What a line asks for. Names are words of the line.
#[derive(Clone, Copy, Debug)]
pub enum Command<'c> {
    Symbol(&'c str),
    Rule {
        lhs: &'c str,
        rhs: &'c [&'c str],
    },
    Sequence {
        lhs: &'c str,
        item: &'c str,
        plus: bool,
        separator: Option<&'c str>,
        proper: bool,
    },
    Start(&'c str),
    Precompute,
    Alternative {
        name: &'c str,
        length: u32,
    },
    Complete,
    Expected,
    Report(u32),
    Trees(u32),
}

// The one word.
fn only<'c>(words: &[&'c str]) -> Option<&'c str>
    ensures { (make : List ℕ → spelled.Command) → option_map make (option_copied result) ≡ model.with_name make (texts words.now) }
{
    match words {
        [word] => Some(*word),
        _ => None,
    }
}

// The one word, as a number.
fn number_of(words: &[&str]) -> Option<u32>
    ensures { (make : ℕ → spelled.Command) → option_map make result ≡ model.with_number make (texts words.now) }
{
    match words {
        [digits] => number_in(*digits),
        _ => None,
    }
}

fn alone<'c>(command: Command<'c>, words: &[&str]) -> Option<Command<'c>>
    ensures { option_map told result ≡ model.alone (told command.entry) (texts words.now) }
{
    if words.is_empty() {
        Some(command)
    } else {
        None
    }
}

fn kind_in(word: &str) -> Option<bool>
    ensures { result ≡ model.kind_in word.now }
{
    match word {
        "plus" => Some(true),
        "star" => Some(false),
        _ => None,
    }
}

// The separator, and whether nothing may stand after the last item.
fn separator_in<'c>(words: &[&'c str]) -> Option<(Option<&'c str>, bool)>
    ensures { option_map (λ s. (option_copied s.0, s.1)) result ≡ model.separator_in (texts words.now) }
{
    match words {
        [] => Some((None, false)),
        [by, name] if *by == "by" => Some((Some(*name), false)),
        [by, name, proper] if *by == "by" && *proper == "proper" => Some((Some(*name), true)),
        _ => None,
    }
}

fn sequence_in<'c>(words: &'c [&'c str]) -> Option<Command<'c>>
    ensures { option_map told result ≡ model.sequence_in (texts words.now) }
{
    match words {
        [lhs, item, kind, more @ ..] => {
            let plus = kind_in(*kind)?;
            let (separator, proper) = separator_in(more)?;
            Some(Command::Sequence {
                lhs: *lhs,
                item: *item,
                plus,
                separator,
                proper,
            })
        }
        _ => None,
    }
}

fn alternative_in<'c>(words: &[&'c str]) -> Option<Command<'c>>
    ensures { option_map told result ≡ model.alternative_in (texts words.now) }
{
    match words {
        [name, digits] => Some(Command::Alternative {
            name: *name,
            length: number_in(*digits)?,
        }),
        _ => None,
    }
}

/// The command that these words spell.
pub fn command_by<'c>(words: &'c [&'c str]) -> Option<Command<'c>>
    ensures { option_map told result ≡ model.command_by (texts words.now) }
{
    let (word, rest) = words.split_first()?;
    match *word {
        "symbol" => Some(Command::Symbol(only(rest)?)),
        "rule" => {
            let (lhs, rhs) = rest.split_first()?;
            Some(Command::Rule { lhs: *lhs, rhs })
        }
        "sequence" => sequence_in(rest),
        "start" => Some(Command::Start(only(rest)?)),
        "precompute" => alone(Command::Precompute, rest),
        "alternative" => alternative_in(rest),
        "complete" => alone(Command::Complete, rest),
        "expected" => alone(Command::Expected, rest),
        "report" => Some(Command::Report(number_of(rest)?)),
        "trees" => Some(Command::Trees(number_of(rest)?)),
        _ => None,
    }
}
