// The words of the command line.
use crate::stop::Stop;
use std::{env, io};

/// What the words ask for.
#[derive(Clone, Copy, Debug)]
pub(crate) struct Asked<'w> {
    pub grammar: &'w str,
    pub input: Option<&'w str>,
    /// Whether each place is told, and not one of each two rules.
    pub all: bool,
}

// What is asked for as far as the words were read.
#[derive(Clone, Copy)]
struct Given<'w> {
    grammar: Option<&'w str>,
    input: Option<&'w str>,
    all: bool,
}

// Takes the next words; none, where they are not among those that are known, or come twice.
fn take<'w>(given: Given<'w>, words: &'w [String]) -> Option<(Given<'w>, &'w [String])> {
    match words {
        [name, value, rest @ ..] if name.as_str() == "--grammar" && given.grammar.is_none() => {
            let grammar = Some(value.as_str());
            Some((Given { grammar, ..given }, rest))
        }
        [name, value, rest @ ..] if name.as_str() == "--input" && given.input.is_none() => {
            let input = Some(value.as_str());
            Some((Given { input, ..given }, rest))
        }
        [name, rest @ ..] if name.as_str() == "--all" && !given.all => {
            Some((Given { all: true, ..given }, rest))
        }
        _ => None,
    }
}

/// What the words ask for, if they are as they should be.
pub(crate) fn asked_of(words: &[String]) -> Option<Asked<'_>> {
    let mut given = Given {
        grammar: None,
        input: None,
        all: false,
    };
    let mut rest = words;
    for _ in 0..words.len() {
        if rest.is_empty() {
            break;
        }
        let (more, left) = take(given, rest)?;
        given = more;
        rest = left;
    }
    Some(Asked {
        grammar: given.grammar?,
        input: given.input,
        all: given.all,
    })
}

/// The words without the program's own name.
pub(crate) fn words_of(rt: &HostRuntime) -> Result<Vec<String>, Stop> {
    match listed_words(rt) {
        Ok(words) => Ok(words),
        Err(error) if error.kind() == io::ErrorKind::OutOfMemory => Err(Stop::NoMemory),
        Err(_) => Err(Stop::ReadFault),
    }
}

fn listed_words(rt: &HostRuntime) -> io::Result<Vec<String>> {
    let mut words = Vec::new(rt.alloc());
    for word in env::args(rt)?.skip(1) {
        words.push(word)?;
    }
    Ok(words)
}
