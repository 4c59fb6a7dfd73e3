//! What a call answers. The first four are the statuses of the program `slif`.

pub const OK: u32 = 0;

/// The input is refused, or has no derivation.
pub const INPUT: u32 = 1;

/// The grammar is refused.
pub const GRAMMAR: u32 = 3;

pub const NO_MEMORY: u32 = 5;

/// The handle is empty.
pub const EMPTY: u32 = 6;

/// A number asks for what there is not.
pub const RANGE: u32 = 7;

/// The grammar of a scanner is read by already, or not yet.
pub const NOT_NOW: u32 = 8;

/// The name is not UTF-8.
pub const BAD_NAME: u32 = 9;

pub const SECOND_START: u32 = 10;

/// The terminal is not acceptable at the place.
pub const UNEXPECTED: u32 = 11;

/// The token is there already.
pub const DUPLICATE: u32 = 12;

pub const BAD_LENGTH: u32 = 13;

/// There are as many as there may be.
pub const TOO_MANY: u32 = 14;
