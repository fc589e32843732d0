//! What a load tells at its end.

/// How many frames its job had, how many were booked, how many completions with status 1 changed the farm, and the round in which the job finished.
#[derive(Clone, Copy, Debug, PartialEq, Eq)]
pub struct Summary {
    pub frames: u32,
    pub attempts: u64,
    pub failed: u64,
    pub rounds: u32,
}
