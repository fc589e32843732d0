//! Why workers stop.

/// Why not all connections were accepted.
#[derive(Clone, Copy, Debug, PartialEq, Eq)]
pub enum WorkersFault {
    /// The listener failed.
    Accept,
    /// Memory ran out.
    NoMemory,
}
