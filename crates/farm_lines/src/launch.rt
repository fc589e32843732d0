//! An order to a host to start an attempt.

use farm_types::{Attempt, Cores, Kb, Text};

/// An attempt that a host is to start: the expanded command, the amounts that it may use, and the names of its
/// frame, job and layer.
#[derive(Debug, Drop)]
pub struct Launch {
    pub attempt: Attempt,
    pub command: Text,
    pub cores: Cores,
    pub frame: Text,
    pub job: Text,
    pub layer: Text,
    pub memory: Kb,
}
