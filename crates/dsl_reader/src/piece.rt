//! The tokens of a piece, as they are read.
ghost use Rattle.std.specs.Prelude.{◌≡◌, ◌^◌, ◌+◌, ◌<◌, ◌≤◌, false, length, drop, take, IfOk};
ghost use Rattle.std.specs.List.{All, prefix_len};
ghost use Rattle.language_model.specs.Description.{is_mark, is_word_of, is_pseudo, is_name, is_adverb_name};
ghost use Rattle.dsl_reader.specs.Reading.{begins_adverb};
ghost use Rattle.dsl_reader.specs.Pieces.{IsPlaced, spelled_tokens, first_is, first_of, first_kind, first_such, first_place, is_pseudo_of, is_part, is_single, is_value, is_unlike};
ghost use Rattle.dsl_reader.specs.Forms.{ends_elements, rule_begins, default_begins, piece_begins};

use crate::spelling::{is_mark_token, is_pseudo_token, is_word_token, spelled};
use dsl_statement::{Spelled, TokenKind};
use language_model::Token;
use slif_base::Chars;
use std::alloc::{AllocError, Global};
use std::marker::Model;

/// Tokens that follow one another, seen with their texts and places.
#[derive(Drop)]
pub struct Piece<'t> {
    chars: &'t Chars,
    tokens: &'t [Token],
}

impl<'t> Model for Piece<'t> {
    ghost use Rattle.std.specs.Prelude.{List};
    ghost use Rattle.std.specs.List.{All};
    ghost use Rattle.language_model.specs.Tokens.{Spelled as SpelledToken};
    ghost use Rattle.dsl_reader.specs.Pieces.{IsPlaced, spelled_tokens};

    ghost Value = { List SpelledToken };

    ghost view = { λ p. spelled_tokens p.chars.now p.tokens.now };

    ghost invariant = { λ p. All (IsPlaced p.chars.now) p.tokens.now };
}

/// The tokens of a text as a piece.
pub fn piece_of<'t>(chars: &'t Chars, tokens: &'t [Token]) -> Piece<'t>
    requires { All (IsPlaced chars.now) tokens.now }
    ensures { result ≡ spelled_tokens chars.now tokens.now }
{
    Piece { chars, tokens }
}

impl<'t> Piece<'t> {
    /// How many tokens there are.
    pub fn len(&self) -> usize
        ensures { result ≡ length self.now }
    {
        self.tokens.len()
    }

    /// What is left after some tokens.
    pub fn behind(&self, count: usize) -> Piece<'t>
        ensures { result ≡ drop count self.now }
    {
        if count < self.tokens.len() {
            piece_of(self.chars, &self.tokens[count..])
        } else {
            piece_of(self.chars, &self.tokens[self.tokens.len()..])
        }
    }

    /// The first tokens.
    pub fn prefix(&self, count: usize) -> Piece<'t>
        requires { count ≤ length self.now }
        ensures { result ≡ take count self.now }
    {
        piece_of(self.chars, &self.tokens[..count])
    }

    /// The place of a token in the text, in characters.
    pub fn place(&self, i: usize) -> usize
        ensures { result ≡ first_place (drop i self.now) }
    {
        if i < self.tokens.len() {
            self.tokens[i].from
        } else {
            0
        }
    }

    /// A token with its text.
    pub fn spelled(&self, alloc: Global, i: usize) -> Result<Option<Spelled>, AllocError>
        ensures { IfOk result (λ r. r ≡ first_of (drop i self.now)) }
    {
        if i < self.tokens.len() {
            Ok(Some(spelled(alloc, self.chars, self.tokens[i])?))
        } else {
            Ok(None)
        }
    }

    fn kind(&self, i: usize) -> Option<TokenKind>
        ensures { result ≡ first_kind (drop i self.now) }
    {
        if i < self.tokens.len() {
            Some(self.tokens[i].kind)
        } else {
            None
        }
    }

    /// Whether the token at a place is this mark.
    pub fn is_mark(&self, i: usize, content: &str) -> bool
        ensures { result ≡ first_is (is_mark content.now) (drop i self.now) }
    {
        i < self.tokens.len() && is_mark_token(self.chars, self.tokens[i], content)
    }

    /// Whether the token at a place is this word.
    pub fn is_word(&self, i: usize, content: &str) -> bool
        ensures { result ≡ first_is (is_word_of content.now) (drop i self.now) }
    {
        i < self.tokens.len() && is_word_token(self.chars, self.tokens[i], content)
    }

    /// Whether the token at a place is this name after a colon.
    pub fn is_pseudo_of(&self, i: usize, content: &str) -> bool
        ensures { result ≡ first_is (is_pseudo_of content.now) (drop i self.now) }
    {
        i < self.tokens.len() && is_pseudo_token(self.chars, self.tokens[i], content)
    }

    /// Whether the token at a place is a name after a colon, as `:start`.
    pub fn is_pseudo(&self, i: usize) -> bool
        ensures { result ≡ first_is is_pseudo (drop i self.now) }
    {
        matches!(self.kind(i), Some(TokenKind::Pseudo))
    }

    /// Whether the token at a place names a symbol.
    pub fn is_name(&self, i: usize) -> bool
        ensures { result ≡ first_is is_name (drop i self.now) }
    {
        matches!(self.kind(i), Some(TokenKind::Word | TokenKind::Angle))
    }

    /// Whether the token at a place can be a part of a right side.
    pub fn is_part(&self, i: usize) -> bool
        ensures { result ≡ first_is is_part (drop i self.now) }
    {
        matches!(
            self.kind(i),
            Some(TokenKind::Word | TokenKind::Angle | TokenKind::Quote | TokenKind::Bracket)
        )
    }

    fn is_single(&self, i: usize) -> bool
        ensures { result ≡ first_is is_single (drop i self.now) }
    {
        matches!(
            self.kind(i),
            Some(TokenKind::Word | TokenKind::Angle | TokenKind::Bracket)
        )
    }

    /// Whether the token at a place can be the value of an adverb.
    pub fn is_value(&self, i: usize) -> bool
        ensures { result ≡ first_is is_value (drop i self.now) }
    {
        match self.kind(i) {
            None | Some(TokenKind::Pseudo | TokenKind::Mark) => false,
            _ => true,
        }
    }

    /// Whether the token at a place can be the name of an adverb.
    pub fn is_adverb_name(&self, i: usize) -> bool
        ensures { result ≡ first_is is_adverb_name (drop i self.now) }
    {
        matches!(self.kind(i), Some(TokenKind::Word)) || self.is_mark(i, "null-ranking")
    }

    /// Whether an adverb begins at a token.
    pub fn begins_adverb(&self, i: usize) -> bool
        ensures { result ≡ begins_adverb (drop i self.now) }
    {
        self.is_mark(i, ",") || i < self.len() && self.is_mark(i + 1, "=>")
    }

    /// Whether no more elements follow: an adverb, or nothing.
    pub fn ends_elements(&self, i: usize) -> bool
        ensures ends { result ≡ ends_elements (drop i self.now) }
        ensures more { result ≡ false → (i < length self.now) × (length self.now < 2 ^ 64) }
    {
        i >= self.len() || self.begins_adverb(i)
    }

    /// Whether a rule begins at the first token.
    fn begins_rule(&self) -> bool
        ensures { result ≡ rule_begins self.now }
    {
        self.is_name(0) && (self.is_mark(1, "::=") || self.is_mark(1, "~"))
    }

    /// Whether `lexeme default =` begins at the first token.
    pub fn begins_default(&self) -> bool
        ensures { result ≡ default_begins self.now }
    {
        self.is_word(0, "lexeme") && self.is_word(1, "default") && self.is_mark(2, "=")
    }

    /// Whether a piece begins at the first token.
    pub fn begins_piece(&self) -> bool
        ensures { result ≡ piece_begins self.now }
    {
        self.is_pseudo(0) || self.begins_rule() || self.begins_default()
    }

    /// The tokens from one to another.
    pub fn part(&self, from: usize, to: usize) -> Piece<'t>
        requires { to ≤ length self.now }
        ensures { result ≡ drop from (take to self.now) }
    {
        self.prefix(to).behind(from)
    }

    /// The name at a place, with where it stands.
    pub fn name(&self, alloc: Global, i: usize) -> Result<Option<Spelled>, AllocError>
        ensures { IfOk result (λ r. r ≡ first_such is_name (drop i self.now)) }
    {
        if self.is_name(i) {
            self.spelled(alloc, i)
        } else {
            Ok(None)
        }
    }

    /// The single character class or name at a place, with where it stands.
    pub fn single(&self, alloc: Global, i: usize) -> Result<Option<Spelled>, AllocError>
        ensures { IfOk result (λ r. r ≡ first_such is_single (drop i self.now)) }
    {
        if self.is_single(i) {
            self.spelled(alloc, i)
        } else {
            Ok(None)
        }
    }

    /// The place of the next such mark from a token on, or the end.
    pub fn mark_from(&self, from: usize, content: &str) -> usize
        requires { from ≤ length self.now }
        ensures place { result ≡ from + prefix_len (is_unlike content.now) (drop from self.now) }
        ensures within { result ≤ length self.now }
    {
        let mut at = from;
        while at < self.len() && !self.is_mark(at, content) {
            at += 1;
        }
        at
    }
}
