// The words of the command line.
use crate::stop::Stop;
use std::{env, io};

/// How trees are shown.
#[derive(Clone, Copy, Debug, PartialEq, Eq)]
pub(crate) enum Form {
    Indent,
    Json,
    Dot,
    Svg,
    Difference,
    Rules,
}

fn form_named(word: &str) -> Option<Form> {
    match word {
        "--json" => Some(Form::Json),
        "--dot" => Some(Form::Dot),
        "--svg" => Some(Form::Svg),
        "--diff" => Some(Form::Difference),
        "--rules" => Some(Form::Rules),
        _ => None,
    }
}

/// The form that the words ask for.
fn form_of_words(words: &[String]) -> Option<Form> {
    match words {
        [] => Some(Form::Indent),
        [word] => form_named(word.as_str()),
        _ => None,
    }
}

// The words without the program's own name.
fn words_of(rt: &HostRuntime) -> io::Result<Vec<String>> {
    let mut words = Vec::new(rt.alloc());
    for word in env::args(rt)?.skip(1) {
        words.push(word)?;
    }
    Ok(words)
}

/// The form that the words of the command line ask for.
pub(crate) fn form_of(rt: &HostRuntime) -> Result<Form, Stop> {
    match words_of(rt) {
        Ok(words) => form_of_words(&words).ok_or(Stop::Usage),
        Err(error) if error.kind() == io::ErrorKind::OutOfMemory => Err(Stop::NoMemory),
        Err(_) => Err(Stop::ReadFault),
    }
}
