//! Laws of the tokens of a text.
ghost use Rattle.std.specs.Prelude.{◌≡◌, ◌⊎◌, ℕ, List};
ghost use Rattle.language_model.specs.declared.token.Token.{Token};
ghost use Rattle.language_model.specs.Tokens.{AreTokens, IsBadPlace};

/// A text has at most one list of tokens.
pub fn tokens_are_one()
    ensures { (text : List ℕ) (ts us : List Token) → AreTokens text ts → AreTokens text us →
        ts ≡ us }
{}

/// A text with tokens has no bad place.
pub fn tokens_exclude_bad_places()
    ensures { (text : List ℕ) (ts : List Token) (at : ℕ) → AreTokens text ts → IsBadPlace text at →
        ⊥ }
{}

/// A text has tokens, or a bad place.
pub fn tokens_or_bad_place()
    ensures { (text : List ℕ) →
        ((ts : List Token) × AreTokens text ts) ⊎ ((at : ℕ) × IsBadPlace text at) }
{}

/// A text has at most one bad place.
pub fn bad_place_is_one()
    ensures { (text : List ℕ) (p q : ℕ) → IsBadPlace text p → IsBadPlace text q → p ≡ q }
{}
