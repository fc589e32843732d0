//! How much one line records.

/// How many entries a line records at most: its own, and the bookings of a round.
pub const ENTRIES_EACH: u32 = 13;
