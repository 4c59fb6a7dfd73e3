//! Why a description is refused.
ghost use Rattle.std.specs.Prelude.{◌≡◌};

use std::alloc::AllocError;

/// Why a description is refused. Of several reasons the first in this order is told, at its first place in the
/// text, counted in characters from 0. Want of memory may come at any point.
#[derive(Debug, Drop)]
pub enum BuildRefusal {
    /// An adverb is not of those of its place, or its value is not of its kind. The name is the adverb's.
    BadAdverb { at: usize, name: String },
    /// An adverb stands twice in one list; or `lexeme default` or the `:lexeme` of a lexeme is a second one.
    RepeatedAdverb { at: usize, name: String },
    /// A name that no rule defines, or in a lexical place no lexical rule.
    LexemeNotDefined { at: usize, name: String },
    /// A left side of both levels.
    InBoth { at: usize, name: String },
    /// The name of a `:lexeme` that is no lexeme.
    NotALexeme { at: usize, name: String },
    /// A class that cannot be read.
    BadClass { at: usize, name: String },
    /// A second `:start`.
    TwoStarts { at: usize, name: String },
    /// A rank or a priority beyond a million.
    NumberRange { at: usize, name: String },
    /// The 1,001st part of a right side, or a quoted text of more than 1,000 characters.
    TooLong { at: usize, name: String },
    /// Memory ran out.
    NoMemory,
}

impl From<AllocError> for BuildRefusal {
    ghost use Rattle.dsl_faults.specs.declared.refusal.BuildRefusal.TheVariants.{NoMemory};

    ghost from_gives = { λ _ refusal. refusal ≡ NoMemory };

    fn from(_error: AllocError) -> BuildRefusal {
        BuildRefusal::NoMemory
    }
}
