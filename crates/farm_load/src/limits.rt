//! The limits of a load's run.

/// How many hosts a load has.
pub const HOSTS: u32 = 4;

/// How many rounds a load is run at most.
pub const MOST_ROUNDS: u32 = 20_000;

/// The number of a load's job: the first that a farm gives.
pub const LOAD_JOB: u32 = 1;
