// The characters at the front of a text, and those of a quoted text with its escapes.
ghost use Rattle.std.specs.Prelude.{◌≡◌, ◌≢◌, ◌<◌, ℕ, [], ◌∷◌, ◌++◌, length, encode_utf8, MatchOption};
ghost use Rattle.grammar_model.specs.Text as text_model;
ghost use Rattle.grammar_model.specs.Text.{escaped, hex_digit};
ghost use Rattle.tree_text.specs.Prefixes as prefixes;
ghost use Rattle.tree_text.specs.Prefixes.{NeverBegins, HasNoCharacter};

/// The first character of a text, and what is after it.
pub(crate) fn split_first(text: &str) -> Option<(char, &str)>
    ensures { MatchOption result (text.now ≡ []) (λ x. text.now ≡ encode_utf8 x.0 ++ x.1.now) }
{
    let mut characters = text.chars();
    match characters.next() {
        Some(first) => Some((first, characters.as_str())),
        None => None,
    }
}

/// What is after a character, where a text begins with it.
pub(crate) fn behind(c: char, text: &str) -> Option<&str>
    ensures { MatchOption result (NeverBegins text.now (encode_utf8 c))
        (λ rest. text.now ≡ encode_utf8 c ++ rest.now) }
{
    let (first, rest) = split_first(text)?;
    if first == c { Some(rest) } else { None }
}

/// What a digit in base 16 stands for. Letters are small.
fn hex_value(c: char) -> Option<u8>
    ensures { MatchOption result ((n : ℕ) → n < 16 → hex_digit n ≢ c)
        (λ n. (n < 16) × (hex_digit n ≡ c)) }
{
    match c {
        '0'..='9' => Some(c as u8 - b'0'),
        'a'..='f' => Some(c as u8 - b'a' + 10),
        _ => None,
    }
}

fn is_control(c: char) -> bool
    ensures { result ≡ text_model.is_control c }
{
    matches!(c, '\0'..='\x1f' | '\x7f'..='\u{9f}')
}

/// Whether a character's escape has its code.
fn has_code(c: char) -> bool
    ensures { result ≡ prefixes.has_code c }
{
    is_control(c) && !matches!(c, '\n' | '\r' | '\t')
}

/// The control character whose code two digits tell.
fn control(high: char, low: char) -> Option<char>
    ensures { MatchOption result ((c : ℕ) → escaped c ≢ 92 ∷ 120 ∷ 123 ∷ high ∷ low ∷ 125 ∷ [])
        (λ c. escaped c ≡ 92 ∷ 120 ∷ 123 ∷ high ∷ low ∷ 125 ∷ []) }
{
    let first = hex_value(high)?;
    let second = hex_value(low)?;
    let c = char::from(16 * first + second);
    if has_code(c) { Some(c) } else { None }
}

/// The control character that `{..}` tells after `\x`, and what is after it.
fn read_control(text: &str) -> Option<(char, &str)>
    ensures { MatchOption result (HasNoCharacter (92 ∷ 120 ∷ text.now)) (λ x. 92 ∷ 120 ∷ text.now ≡
        escaped x.0 ++ x.1.now) }
{
    let inside = behind('{', text)?;
    let (high, more) = split_first(inside)?;
    let (low, end) = split_first(more)?;
    let rest = behind('}', end)?;
    let c = control(high, low)?;
    Some((c, rest))
}

/// The character that an escape tells after its backslash, and what is after it.
fn read_escape(text: &str) -> Option<(char, &str)>
    ensures { MatchOption result (HasNoCharacter (92 ∷ text.now)) (λ x. 92 ∷ text.now ≡
        escaped x.0 ++ x.1.now) }
{
    let (c, rest) = split_first(text)?;
    match c {
        '\\' | '"' | '$' | '@' => Some((c, rest)),
        'n' => Some(('\n', rest)),
        'r' => Some(('\r', rest)),
        't' => Some(('\t', rest)),
        'x' => read_control(rest),
        _ => None,
    }
}

/// The next character inside quotes, and what is after it.
pub(crate) fn read_character(text: &str) -> Option<(char, &str)>
    ensures { MatchOption result (HasNoCharacter text.now) (λ x. text.now ≡
        escaped x.0 ++ x.1.now) }
{
    let (c, rest) = split_first(text)?;
    match c {
        '\\' => read_escape(rest),
        '"' | '$' | '@' => None,
        _ if is_control(c) => None,
        _ => Some((c, rest)),
    }
}
