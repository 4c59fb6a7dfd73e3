//! All tokens of a text.
ghost use Rattle.std.specs.Prelude.{◌≡◌, IfOk, IfErr};
ghost use Rattle.language_model.specs.Tokens.{AreTokens, IsBadPlace};
ghost use Rattle.dsl_tokens.specs.Answer.{Refused};
ghost use Rattle.dsl_tokens.specs.declared.reading.TokenRefusal.TheVariants.{NoMemory};

use crate::list::Tokens;
use crate::rest::rest_of;
use crate::runs::layout_len;
use crate::scan::token_at;
use language_model::Token;
use slif_base::Chars;
use std::alloc::{AllocFailed, Global};

/// Why a text has no tokens.
#[derive(Clone, Copy, Debug, PartialEq, Eq)]
pub enum TokenRefusal {
    /// No token begins at this place, in characters.
    BadToken { at: usize },
    /// Memory ran out.
    NoMemory,
}

impl<T: Drop> From<AllocFailed<T>> for TokenRefusal {
    ghost from_gives = { λ _ e. e ≡ NoMemory };

    fn from(_error: AllocFailed<T>) -> TokenRefusal {
        TokenRefusal::NoMemory
    }
}

/// The tokens of a text.
pub fn tokens(alloc: Global, chars: &Chars) -> Result<Tokens, TokenRefusal>
    // The tokens lead from the beginning to the end, each the longest at its place.
    ensures found { IfOk result (λ tokens. AreTokens chars.now tokens) }
    // Tokens lead to a place where no token begins.
    ensures refused { IfErr result (λ e. Refused chars.now e) }
{
    let mut items = Vec::new(alloc);
    let mut at = layout_len(&rest_of(chars, 0));
    while at < chars.len() {
        match token_at(&rest_of(chars, at)) {
            Some((kind, len)) => {
                let to = at + len;
                items.push(Token { kind, from: at, to })?;
                at = to + layout_len(&rest_of(chars, to));
            }
            None => return Err(TokenRefusal::BadToken { at }),
        }
    }
    Ok(Tokens::of(items))
}
