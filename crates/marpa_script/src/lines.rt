//! The lines of a text, and the words of a line.
ghost use Rattle.std.specs.Prelude.{◌≡◌, ◌≢◌, ◌<◌, ◌+◌, ◌≤◌, [], ◌∷◌, length, nat_lt, OnOk};
ghost use Rattle.std.specs.List.{list_all};
ghost use Rattle.script_model.specs.Commands.{lines_of, words_of};
ghost use Rattle.marpa_script.specs.Told.{texts};

use std::alloc::AllocError;

/// The first line and what follows its end.
pub fn first_line(text: &str) -> (&str, &str)
    requires { 0 < length text.now }
    ensures lines { lines_of text.now ≡ result.0.now ∷ lines_of result.1.now }
    ensures less { length result.1.now + length result.0.now ≤ length text.now }
    ensures after { length result.1.now < length text.now }
{
    match text.split_once('\n') {
        Some((line, rest)) => (line, rest),
        None => (text, ""),
    }
}

/// Whether none of the words is empty.
pub fn are_words(words: &[&str]) -> bool
    ensures { result ≡ list_all (λ w. nat_lt 0 (length w.now)) words.now }
{
    words.iter().all(|word| !word.is_empty())
}

/// Lists the words of a line in place of what was listed.
pub fn list_words<'t>(line: &'t str, words: &mut Vec<&'t str>) -> Result<(), AllocError>
    ensures { OnOk result (texts words.new.items ≡ words_of line.now) }
{
    words.clear();
    words.extend(line.split(' '))?;
    Ok(())
}
