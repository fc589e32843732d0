//! The limits of frame sets.

/// How many distinct numbers a set has at most.
pub const MOST_NUMBERS: usize = 10_000;

/// The greatest size of a number: a number is from -9,999,999 to 9,999,999.
pub const GREATEST: u32 = 9_999_999;

/// The least size of a number that is out of range.
pub const CAP: u32 = GREATEST + 1;
