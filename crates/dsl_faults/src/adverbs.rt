//! Adverbs: which stand where, and their values.
ghost use Rattle.std.specs.Prelude.{◌≡◌, ℕ, ◌∷◌, [], ◌||◌, map, codes, bytes_eq, option_copied, is_some, IfOk, nat_lt, filter};
ghost use Rattle.std.specs.List.{list_all, list_any};
ghost use Rattle.std.specs.Char.{is_ascii_digit};
ghost use Rattle.language_model.specs.Building.{names_at, is_one_of, is_number, is_single, is_word_among, value_of, digits_number};
ghost use Rattle.dsl_statement.specs.Statements.{adverb_of, adverbs_of};
ghost use Rattle.dsl_faults.specs.Adverbs.{place_of};

use dsl_statement::{Adverb, Spelled, TokenKind};

/// Where a list of adverbs stands.
#[derive(Clone, Copy, Debug)]
pub enum Place {
    Alternative,
    Empty,
    Quantified,
    LexicalQuantified,
    Default,
    LexemeDefault,
    Lexeme,
    Other,
}

/// Whether the text is one of them.
pub fn is_among(texts: &[&str], text: &str) -> bool
    ensures { result ≡ list_any (λ t. bytes_eq t.now text.now) texts.now }
{
    texts.iter().any(|held| *held == text)
}

/// Whether an adverb of this name may stand there.
pub fn is_allowed(place: Place, name: &str) -> bool
    ensures { result ≡ is_one_of (names_at (place_of place)) name.now }
{
    match place {
        Place::Alternative => is_among(&["action", "assoc", "rank", "null-ranking"], name),
        Place::Empty => is_among(&["action", "rank", "null-ranking"], name),
        Place::Quantified => is_among(
            &["action", "rank", "null-ranking", "separator", "proper"],
            name,
        ),
        Place::LexicalQuantified => is_among(&["separator", "proper"], name),
        Place::Default => name == "action",
        Place::LexemeDefault => is_among(&["action", "latm"], name),
        Place::Lexeme => is_among(&["priority", "latm"], name),
        Place::Other => false,
    }
}

fn is_digits(text: &str) -> bool
    ensures { result ≡ list_all is_ascii_digit text.now }
{
    text.as_bytes().iter().all(|b| b.is_ascii_digit())
}

/// Whether the token is a number.
pub fn is_number(token: &Spelled) -> bool
    ensures { result ≡ is_number token.now }
{
    match token.kind {
        TokenKind::Signed => true,
        TokenKind::Word => is_digits(&token.content),
        _ => false,
    }
}

/// Whether the token is a name or a class.
pub fn is_single(token: &Spelled) -> bool
    ensures { result ≡ is_single token.now }
{
    matches!(
        token.kind,
        TokenKind::Word | TokenKind::Angle | TokenKind::Bracket
    )
}

/// Whether the token is a word, one of them.
pub fn is_word_among(token: &Spelled, texts: &[&str]) -> bool
    ensures { result ≡ is_word_among (map (λ t. t.now) texts.now) token.now }
{
    match token.kind {
        TokenKind::Word => is_among(texts, token.content.as_str()),
        _ => false,
    }
}

// The value of the adverb, if it has this name.
fn value_in<'a>(name: &str, adverb: &'a Adverb) -> Option<&'a Spelled>
    ensures { option_copied result ≡ value_of name.now (adverb_of adverb.now ∷ []) }
{
    match adverb {
        Adverb::Comma { .. } => None,
        Adverb::Pair { name: held, value } => (held.content.as_str() == name).then_some(value),
    }
}

/// The value of the first adverb with this name.
pub fn value_of<'a>(name: &str, adverbs: &'a [Adverb]) -> Option<&'a Spelled>
    ensures { option_copied result ≡ value_of name.now (adverbs_of adverbs.now) }
{
    adverbs.iter().find_map(|adverb| value_in(name, adverb))
}
