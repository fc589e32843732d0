//! How the run of a load ends.

use crate::summary::Summary;

/// The job is finished; or it isn't, after the most rounds; or memory ran out.
#[derive(Clone, Copy, Debug, PartialEq, Eq)]
pub enum LoadEnd {
    Finished { summary: Summary },
    Spent,
    NoMemory,
}
