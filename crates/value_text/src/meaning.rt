// What the rules of a grammar mean.
ghost use Rattle.std.specs.Prelude.{◌≡◌};

use grammar_model::DescItem;
use std::marker::Model;

/// A list in a field, seen as its elements.
#[derive(Debug, Drop)]
pub struct Items<T> {
    items: Vec<T>,
}

impl<T> Model for Items<T> {
    ghost use Rattle.std.specs.Prelude.{List};

    ghost Value = { List T };

    ghost view = { λ a. a.items.items };
}

impl<T> Items<T> {
    /// The list of these elements.
    pub fn new(items: Vec<T>) -> Items<T>
        ensures { result ≡ items.items }
    {
        Items { items }
    }

    /// The elements in order.
    pub fn as_slice(&self) -> &[T]
        ensures { result.now ≡ self.now }
    {
        self.items.as_slice()
    }
}

/// What a rule, or a lexeme, makes of the values of its children.
#[derive(Debug, Drop)]
pub enum Action {
    /// `::array`
    Array,
    /// `::first`
    First,
    /// `::undef`
    Undef,
    /// an array descriptor, as `[name,values]`
    Items(Items<DescItem>),
}

/// The meaning of one rule.
#[derive(Debug, Drop)]
pub struct RuleMeaning {
    pub action: Action,
    /// of a plain rule's parts, which are shown
    pub shown: Items<bool>,
    /// whether it is a sequence
    pub sequence: bool,
    /// whether it is a sequence with separators
    pub separated: bool,
}

/// The meaning of a grammar: of each rule, by its number, and of all lexemes.
#[derive(Debug, Drop)]
pub struct Meaning {
    pub rules: Items<RuleMeaning>,
    /// of a lexeme; where there is none its value is its text
    pub lexeme: Option<Action>,
}
