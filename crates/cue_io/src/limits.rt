//! The limits of a reader of lines.

/// The most bytes that a reader takes, counted from when it was made.
pub const BYTE_LIMIT: u64 = 1_099_511_627_776;

/// The buffer's capacity beyond the longest line: what one read may bring at least.
pub(crate) const READ_CAPACITY: usize = 65_536;
