//! What is counted of a load's run.

/// How many frames were booked, and how many completions with status 1 changed the farm.
#[derive(Clone, Copy, Debug, PartialEq, Eq)]
pub struct Counts {
    pub attempts: u64,
    pub failed: u64,
}
