//! Tokens with their texts, and the statements that they spell.

use language_model::TokenKind;
use std::marker::Model;

/// A token's text, and its place.
#[derive(Debug, Drop)]
pub struct Spelled {
    pub kind: TokenKind,
    pub content: String,
    /// The place of its first character in the grammar text, counted in characters from 0.
    pub at: usize,
}

impl Model for Spelled {
    ghost use Rattle.std.specs.Prelude.{string_bytes};
    ghost use Rattle.language_model.specs.Tokens.{Spelled as SpelledToken};

    ghost Value = { SpelledToken };

    ghost view = { λ s. record { kind = s.kind; content = string_bytes s.content; at = s.at } };
}

/// A part of a right side, or parts in round brackets, which are not shown.
#[derive(Debug, Drop)]
pub enum Element {
    Bare(Spelled),
    Hidden(Vec<Spelled>),
}

/// A comma between adverbs, or an adverb.
#[derive(Debug, Drop)]
pub enum Adverb {
    Comma { at: usize },
    Pair { name: Spelled, value: Spelled },
}

/// A right side with its adverbs.
#[derive(Debug, Drop)]
pub struct Alternative {
    pub elements: Vec<Element>,
    pub adverbs: Vec<Adverb>,
}

impl Model for Alternative {
    ghost use Rattle.std.specs.Prelude.{map};
    ghost use Rattle.language_model.specs.Description.{Alternative as RightSide};

    ghost Value = { RightSide };

    ghost use Rattle.dsl_statement.specs.Statements.{element_of, adverbs_of};

    ghost view = { λ a. record { elements = map element_of a.elements.items; adverbs = adverbs_of a.adverbs.items } };
}

/// The two levels of a grammar: the rules of phrases, and those of the lexemes that phrases are made of.
#[derive(Clone, Copy, Debug)]
pub enum Level {
    /// of a rule with `::=`
    Structural,
    /// of a rule with `~`
    Lexical,
}

impl Level {
    ghost use Rattle.std.specs.Prelude.{◌≡◌};
    ghost use Rattle.dsl_statement.specs.Statements.{is_lexical};

    /// Whether it is the lexical one.
    pub fn is_lexical(self) -> bool
        ensures { result ≡ is_lexical self }
    {
        matches!(self, Level::Lexical)
    }
}

/// A statement. `at` is the place of its first token, where that is no part of it.
#[derive(Debug, Drop)]
pub enum Statement {
    /// `:start ::= name`
    Start {
        at: usize,
        name: Spelled,
    },
    /// `:default ::= adverbs`
    Default {
        at: usize,
        adverbs: Vec<Adverb>,
    },
    /// `lexeme default = adverbs`
    LexemeDefault {
        at: usize,
        adverbs: Vec<Adverb>,
    },
    /// `:lexeme ~ name adverbs`
    Lexeme {
        at: usize,
        name: Spelled,
        adverbs: Vec<Adverb>,
    },
    /// `:discard ~ item adverbs`
    Discard {
        at: usize,
        item: Spelled,
        adverbs: Vec<Adverb>,
    },
    /// A rule with no parts on its right side.
    Empty {
        left: Spelled,
        level: Level,
        adverbs: Vec<Adverb>,
    },
    /// A rule for one or more items if `plus`, else for none or more.
    Quantified {
        left: Spelled,
        level: Level,
        item: Spelled,
        plus: bool,
        adverbs: Vec<Adverb>,
    },
    /// A rule for each alternative. The first group is the tightest.
    Rules {
        left: Spelled,
        level: Level,
        groups: Vec<Vec<Alternative>>,
    },
}

/// The statements of a grammar text, in order.
#[derive(Debug, Drop)]
pub struct Description {
    pub statements: Vec<Statement>,
}

impl Model for Description {
    ghost use Rattle.std.specs.Prelude.{List};
    ghost use Rattle.language_model.specs.Description.{Statement as StatementOf};

    ghost Value = { List StatementOf };

    ghost use Rattle.dsl_statement.specs.Statements.{statements_of};

    ghost view = { λ d. statements_of d.statements.items };
}
