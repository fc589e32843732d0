//! How a session of one connection ends.

/// Why a session of one connection ended.
#[derive(Clone, Copy, Debug, PartialEq, Eq)]
pub enum SessionEnd {
    /// The source is at its end, and each line was answered.
    End,
    /// A read failed.
    Read,
    /// A write failed.
    Write,
    /// Memory ran out before the first read.
    Memory,
    /// The bytes that one session takes are spent.
    Spent,
}
