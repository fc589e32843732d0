//! How many frames of a job are in which state.

/// How many frames of a job are in each state.
#[derive(Clone, Copy, Debug, PartialEq, Eq)]
pub struct Counts {
    pub waiting: u32,
    pub setup: u32,
    pub running: u32,
    pub succeeded: u32,
    pub depend: u32,
    pub dead: u32,
    pub eaten: u32,
}
