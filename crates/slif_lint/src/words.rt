// The words of the command line.
use crate::stop::Stop;
use std::{env, io};

/// What the words ask for.
#[derive(Clone, Copy, Debug)]
pub(crate) struct Asked<'w> {
    /// The file of the grammar; none: standard input.
    pub(crate) grammar: Option<&'w str>,
}

/// What the words ask for, if they are as they should be.
pub(crate) fn asked_of(words: &[String]) -> Option<Asked<'_>> {
    match words {
        [] => Some(Asked { grammar: None }),
        [name, file] if name.as_str() == "--grammar" => Some(Asked {
            grammar: Some(file.as_str()),
        }),
        _ => None,
    }
}

fn listed_words(rt: &HostRuntime) -> io::Result<Vec<String>> {
    let mut words = Vec::new(rt.alloc());
    for word in env::args(rt)?.skip(1) {
        words.push(word)?;
    }
    Ok(words)
}

/// The words without the program's own name.
pub(crate) fn words_of(rt: &HostRuntime) -> Result<Vec<String>, Stop> {
    match listed_words(rt) {
        Ok(words) => Ok(words),
        Err(error) if error.kind() == io::ErrorKind::OutOfMemory => Err(Stop::NoMemory),
        Err(_) => Err(Stop::ReadFault),
    }
}
