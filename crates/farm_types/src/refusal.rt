//! Why the farm refuses an entry.

use crate::states::FrameState;
use crate::text::Text;
use std::fmt;

/// A refusal of the farm, with what its reply shows.
#[derive(Debug, Drop)]
pub enum Refusal {
    /// Nothing of that name is there.
    Unknown { name: Text },
    /// The job of that name is finished.
    Finished { name: Text },
    /// The name to be made is there.
    Exists { name: Text },
    /// The host's boot number is another.
    WrongBoot { boot: u32 },
    /// The report's sequence number isn't above the last one.
    Stale { last: u64 },
    /// The job has more frames than there are free slots, of which there are so many.
    FarmFull { free: u32 },
    /// The depend to be dropped is satisfied already.
    Satisfied,
    /// The frame's state, which is given, doesn't allow what is asked.
    WrongState { state: FrameState },
    /// The frame of that name can't be booked again, as its slot is at the last version.
    VersionSpent { frame: Text },
    /// The frame of that name would wait for itself.
    SelfDepend { frame: Text },
    /// The frame of that name, which is to wait, runs already.
    Started { frame: Text },
    /// The count of such things is at its limit.
    Full { limit: u64, what: Counted },
}

impl fmt::Display for Refusal {
    fn fmt<W: fmt::Write>(&self, f: &mut fmt::Formatter<W>) -> fmt::Result {
        match self {
            Refusal::Unknown { name } => write!(f, "`{}` is unknown", name.as_str()),
            Refusal::Finished { name } => write!(f, "`{}` is finished", name.as_str()),
            Refusal::Exists { name } => write!(f, "`{}` exists already", name.as_str()),
            Refusal::WrongBoot { boot } => write!(f, "the host is at boot {boot}"),
            Refusal::Stale { last } => write!(f, "the host's last report is {last}"),
            Refusal::FarmFull { free } => write!(f, "the farm has {free} free slots"),
            Refusal::Satisfied => write!(f, "the depend is satisfied already"),
            Refusal::WrongState { state } => write!(f, "the frame is {state}"),
            Refusal::VersionSpent { frame } => {
                write!(f, "frame `{}` can't be booked again", frame.as_str())
            }
            Refusal::SelfDepend { frame } => {
                write!(f, "frame `{}` would wait for itself", frame.as_str())
            }
            Refusal::Started { frame } => write!(f, "frame `{}` runs already", frame.as_str()),
            Refusal::Full { limit, what } => write!(f, "there are {limit} {what} already"),
        }
    }
}

/// What is counted up to a greatest number: shows, allocations, limits, hosts, a host's boot numbers, the numbers that were given to jobs,
/// depends, the groups of those that aren't satisfied, and the numbers that were given to depends.
#[derive(Clone, Copy, Debug, PartialEq, Eq)]
pub enum Counted {
    Shows,
    Allocs,
    Limits,
    Hosts,
    Boots,
    Jobs,
    Depends,
    Groups,
    DependNumbers,
}

impl fmt::Display for Counted {
    fn fmt<W: fmt::Write>(&self, f: &mut fmt::Formatter<W>) -> fmt::Result {
        match self {
            Counted::Shows => write!(f, "shows"),
            Counted::Allocs => write!(f, "allocations"),
            Counted::Limits => write!(f, "limits"),
            Counted::Hosts => write!(f, "hosts"),
            Counted::Boots => write!(f, "boots"),
            Counted::Jobs => write!(f, "jobs"),
            Counted::Depends => write!(f, "depends"),
            Counted::Groups => write!(f, "groups of depends"),
            Counted::DependNumbers => write!(f, "numbers of depends"),
        }
    }
}
