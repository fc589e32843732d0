//! A section of a frame set: one of the five forms, with its numbers.

/// A section of a frame set. Between commas it is written `A`, `A-B`, `A-BxN`, `A-ByN` or `A-B:N`.
#[derive(Clone, Copy, Debug, PartialEq, Eq)]
pub enum Section {
    /// `A`: one number.
    Single { number: i32 },
    /// `A-B`: by ones from A up or down to B.
    Range { first: i32, last: i32 },
    /// `A-BxN`: A, A+N and so on, not past B.
    Stepped { first: i32, last: i32, step: i32 },
    /// `A-ByN`: by ones from A to B, without the numbers of `A-BxN`.
    Inverse { first: i32, last: i32, step: i32 },
    /// `A-B:N`: the steps N, N/2, N/4 and so on down to ones, without repeats.
    Interleaved { first: i32, last: i32, step: i32 },
}
