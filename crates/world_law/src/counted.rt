//! Completions that were counted.

use farm_types::{Attempt, Exit};

/// A completion that changed the farm: the attempt and how it ended, the number of the host whose report listed it, and
/// the number of that line among the lines to the scheduler.
#[derive(Clone, Copy, Debug, PartialEq, Eq)]
pub struct Counted {
    pub attempt: Attempt,
    pub host: u32,
    pub exit: Exit,
    pub line: u32,
}
