//! What is replied to a line.

use crate::launch::Launch;
use crate::list_row::ListRow;
use farm_types::{Attempt, Cores, Cut, DependNo, Items, Kb, Refusal, Text};
use frame_range::RangeFault;

/// A reply: one variant for each set of keys of an ok reply, one for all that the farm refuses, and one for each refusal that isn't the farm's.
#[derive(Debug, Drop)]
pub enum Reply {
    /// Done, with nothing to tell: for a show, an allocation, a host's lock, and a job that is paused or resumed.
    Done,
    Sub {
        booked: Cores,
        burst: Cores,
        size: Cores,
    },
    /// How many frames of the layers that have the limit run at most, and how many run.
    Limit {
        most: u32,
        running: u32,
    },
    Boot {
        boot: u32,
        nonce: u64,
    },
    Tick {
        down: u32,
        lost: u32,
    },
    Submitted {
        frames: u32,
        job: Text,
    },
    /// The depend's number, and how many frames wait in those of its groups that aren't met.
    Depend {
        depend: DependNo,
        unmet: u32,
    },
    /// How many frames wait for no other any more, and are ready to run.
    Dropped {
        opened: u32,
    },
    /// How many attempts ended.
    Ended {
        ended: u32,
    },
    Report(ReportReply),
    List(ListReply),
    BadLine {
        field: Text,
    },
    TooLong,
    BadRange {
        layer: Text,
        fault: RangeFault,
    },
    BadAmount {
        field: Text,
    },
    Refused(Refusal),
    /// A host's boot with other cores or memory, while so much of the old amounts is free and the rest is held.
    StillHeld {
        cores: Cores,
        memory: Kb,
    },
    /// As many entries were recorded as can be numbered.
    EntriesFull,
    Store,
    NoMemory,
}

/// The reply to a report: the completions that it listed; what ended the round early; the attempts that the host
/// is to stop, and those that it is to start. `boot` and `seq` are the report's.
#[derive(Debug, Drop)]
pub struct ReportReply {
    pub acks: Items<Attempt>,
    pub boot: u32,
    pub cut: Cut,
    pub kills: Items<Attempt>,
    pub launches: Items<Launch>,
    pub seq: u64,
}

/// The reply to a list: its rows from the place that was asked for on, at most 1,000 of them, and how many rows the whole list has.
#[derive(Debug, Drop)]
pub struct ListReply {
    pub rows: Items<ListRow>,
    pub total: u64,
}
