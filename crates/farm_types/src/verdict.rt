//! What becomes of a frame whose attempt completed.

/// The state of a frame after its attempt completed, and its retries where it waits again.
#[derive(Clone, Copy, Debug, PartialEq, Eq)]
pub enum Verdict {
    Succeeded,
    Waiting { retries: u32 },
    Eaten,
    Dead,
}
