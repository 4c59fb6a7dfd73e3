//! Items without places.

/// What a thread leads to: the part of an earlier row, by its number, and the symbol that is waited for there.
#[derive(Clone, Copy, Debug, PartialEq, Eq, Hash, PartialOrd, Ord)]
pub struct Label {
    pub part: usize,
    pub goal: u32,
}

/// A rule, how many of its parts were found, and what it leads to; nothing where the rule begins at the very place.
#[derive(Clone, Copy, Debug, PartialEq, Eq, Hash, PartialOrd, Ord)]
pub struct Thread {
    pub rule: u32,
    pub dot: u32,
    pub label: Option<Label>,
}
