//! The laws between statements and their printed tokens.
ghost use Rattle.std.specs.Prelude.{◌≡◌, ◌⊎◌, ◌↔◌, ℕ, List, None, Some, IsTrue, map};
ghost use Rattle.std.specs.List.{flat_map, list_all};
ghost use Rattle.language_model.specs.Tokens.{Spelled};
ghost use Rattle.language_model.specs.Description.{Adverb, Alternative, Statement, Spells, Describes, IsBadStatement, pieces_of, is_adverb, is_element, tokens_of_adverbs, tokens_of_alternative, PrintedAs, Together};
ghost use Rattle.dsl_reader.specs.Forms.{statement_in};
ghost use Rattle.language_model.specs.Places.{unplaced, unplaced_token};
ghost use Rattle.dsl_reader.specs.Reading.{adverbs_of, alternative_of};

/// Tokens are read as these adverbs exactly where the adverbs, printed, are the tokens.
pub fn adverbs_are_read()
    ensures { (adverbs : List Adverb) (tokens : List Spelled) →
        (adverbs_of tokens ≡ Some adverbs) ↔
        (IsTrue (list_all is_adverb adverbs) ×
        Together PrintedAs (tokens_of_adverbs adverbs) tokens) }
{}

/// Tokens are read as this alternative exactly where the alternative, printed, is the tokens.
pub fn alternatives_are_read()
    ensures { (a : Alternative) (tokens : List Spelled) →
        (alternative_of tokens None ≡ Some a) ↔
        (IsTrue (list_all is_element a.elements) × IsTrue (list_all is_adverb a.adverbs) ×
        Together PrintedAs (tokens_of_alternative a) tokens) }
{}

/// The tokens of printed statements, one after the other, are cut into the pieces of the statements.
pub fn statements_are_cut()
    ensures { (statements : List Statement) (pieces : List (List Spelled)) →
        Together Spells statements pieces → pieces_of (flat_map (λ p. p) pieces) ≡ pieces }
{}

/// Tokens are read as this statement exactly where the statement, printed, is the tokens.
pub fn statements_are_read()
    ensures { (s : Statement) (tokens : List Spelled) →
        (statement_in tokens ≡ Some s) ↔ Spells s tokens }
{}

/// Tokens have at most one description.
pub fn description_is_one()
    ensures { (ds es : List Statement) (tokens : List Spelled) → Describes ds tokens →
        Describes es tokens → ds ≡ es }
{}

/// Tokens with a description have no bad statement.
pub fn descriptions_exclude_bad_statements()
    ensures { (ds : List Statement) (tokens : List Spelled) (at : ℕ) → Describes ds tokens →
        IsBadStatement tokens at → ⊥ }
{}

/// Tokens have a description or a bad statement.
pub fn description_or_bad_statement()
    ensures { (tokens : List Spelled) →
        ((ds : List Statement) × Describes ds tokens) ⊎ ((at : ℕ) × IsBadStatement tokens at) }
{}

/// The bad statement of tokens is one.
pub fn bad_statement_is_one()
    ensures { (tokens : List Spelled) (at other : ℕ) → IsBadStatement tokens at →
        IsBadStatement tokens other → at ≡ other }
{}

/// Statements that differ in more than their places never have the same tokens.
pub fn statements_are_told_apart()
    ensures { (s r : Statement) (tokens others : List Spelled) → Spells s tokens → Spells r others →
        map unplaced_token tokens ≡ map unplaced_token others → unplaced s ≡ unplaced r }
{}
