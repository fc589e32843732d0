//! How many jobs there may be.

use farm_types::{MOST_FINISHED, SLOT_LIMIT};

/// How many jobs a list has memory for: one for each slot, the finished ones that are kept, and two more.
pub const MOST_JOBS: u32 = SLOT_LIMIT + MOST_FINISHED + 2;
