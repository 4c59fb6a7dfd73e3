// The names that are given, and names in a list.
ghost use Rattle.std.specs.Prelude.{◌≡◌, ◌↔◌, bytes_eq, IsTrue, option_map};
ghost use Rattle.std.specs.List.{list_any};
ghost use Rattle.language_model.specs.Building.{is_one_of};
ghost use Rattle.words_model.specs.Words as model;
ghost use Rattle.command_line.specs.Jobs.{names_of, names_in};

use crate::value::name_or_text;

// The greatest number of names.
const MOST_NAMES: usize = 8;

// The contract of `any` speaks of the names as they are lent.
fn stands_in(names: &[&str], name: &str) -> bool
    ensures { result ≡ list_any (λ other. bytes_eq other.now name.now) names.now }
{
    names.iter().any(|other| *other == name)
}

/// Whether the name is one of these.
pub fn is_among(names: &[&str], name: &str) -> bool
    ensures { result ≡ is_one_of (names_of names.now) name.now }
{
    stands_in(names, name)
}

// Whether the text is one to eight different names between commas, none of them empty.
fn are_names(text: &str) -> bool
    ensures { result ≡ model.are_names (model.names_between text.now) }
{
    let mut names = [""; MOST_NAMES];
    let mut count = 0;
    for name in text.split(',') {
        if count == MOST_NAMES || name.is_empty() || is_among(&names[..count], name) {
            return false;
        }
        names[count] = name;
        count += 1;
    }
    true
}

/// The text of names with commas between them; None where it is no such text.
pub fn names_given(value: &str) -> Option<&str>
    ensures { option_map names_in result ≡ model.names_given value.now }
{
    let text = name_or_text(value)?;
    if are_names(text) { Some(text) } else { None }
}
