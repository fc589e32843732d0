//! The limits of stated farms.

/// How many frames each layer of a load has at most.
pub const MOST_LOAD: u32 = 5_000;
