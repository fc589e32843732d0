//! The depends, and what is counted over them.

use depend_edges::Listed;

/// The depends, by slot in how many unmet groups the frame waits, and how many groups the depends have together that aren't satisfied.
#[derive(Drop)]
pub(crate) struct Tally {
    pub(crate) depends: Vec<Listed>,
    pub(crate) unmet: Vec<u32>,
    pub(crate) left: u32,
}
