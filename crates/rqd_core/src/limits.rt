//! Numbers that the daemon uses.

/// The greatest sequence number. A life that has reached it sends boot lines alone.
pub const LAST_SEQ: u64 = 18_446_744_073_709_551_615;

/// The exit status of an attempt that didn't fit the free cores.
pub const UNFIT_STATUS: u32 = 286;
