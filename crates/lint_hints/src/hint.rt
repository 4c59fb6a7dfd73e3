// Hints.

/// What is likely to be a mistake.
#[derive(Clone, Copy, Debug, PartialEq, Eq)]
pub enum Fault<'d> {
    /// No other rule, no separator and no discard has this lexical name.
    Unused(&'d str),
    /// The quoted text has a backslash that was meant to escape.
    Escape(&'d str),
    /// A POSIX piece that is a class of its own.
    Posix(&'d str),
    /// No statement says whether lexemes are looked for where they cannot stand.
    NoLatm,
    /// The left side stands at both ends of an alternative without groups.
    Operator(&'d str),
    /// The left side stands in brackets of a statement with groups.
    Bracket(&'d str),
    /// The name can span nothing, and so can the item of a sequence of the other name.
    Nullable { cause: &'d str, sequence: &'d str },
}

/// What is likely to be a mistake, at the character with this number. Characters count from 0.
#[derive(Clone, Copy, Debug)]
pub struct Hint<'d> {
    pub at: usize,
    pub fault: Fault<'d>,
}
