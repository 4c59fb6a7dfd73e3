//! The limits of what is read and built: each stands here alone.

/// The greatest length of an input, in bytes.
pub const LONGEST_INPUT: usize = 16_777_216;

/// The last place of a reading: an input of the greatest length has that many tokens at most.
pub const LAST_PLACE: u32 = 16_777_216;

/// The greatest length of an input of job `slip`, in bytes.
pub const LONGEST_GIVEN: usize = 1_048_576;

/// The greatest length of a cursor, in bytes.
pub const LONGEST_CURSOR: usize = 16_777_216;

/// The greatest length of a grammar text, in bytes.
pub const LONGEST_GRAMMAR: usize = 1_048_576;

/// The greatest length of a token, in places.
pub const LONGEST_EDGE: u32 = 1_048_576;

/// The greatest number of symbols of a written grammar, of its rules, and of its starts.
pub const MOST_ENTRIES: usize = 16_777_215;

/// The greatest number of flat rules.
pub const MOST_FLAT_RULES: usize = 65_536;
