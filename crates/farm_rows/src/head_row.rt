//! The farm's own row.

/// The format in which rows are written. Rows of format 1, which knows no limits, are read too.
pub const ROW_FORMAT: u64 = 2;

/// The format of the rows, the farm's moment (seconds), and the next number of a job, of a job that finishes and of a depend.
#[derive(Clone, Copy, Debug, PartialEq, Eq)]
pub struct HeadRow {
    pub format: u64,
    pub moment: u64,
    pub jobs: u64,
    pub finishes: u64,
    pub depends: u64,
}
