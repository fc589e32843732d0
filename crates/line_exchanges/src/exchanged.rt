//! How one exchange of a session went.

/// A line was answered, or the session ended: at the end of the input, at a fault of reading or of writing, or where the bytes that one
/// session takes are spent.
#[derive(Clone, Copy, Debug, PartialEq, Eq)]
pub enum Exchanged {
    Went,
    End,
    Read,
    Write,
    Spent,
}
