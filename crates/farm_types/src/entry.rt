//! Entries: what changes the farm.

use crate::attempt::DoneItem;
use crate::boot::BootLine;
use crate::depend::DependSpec;
use crate::items::Items;
use crate::job::JobSpec;
use crate::numbers::{DependNo, HostNo, Slot};
use crate::states::LockState;
use crate::sub_line::SubLine;
use crate::text::Text;

/// One change of the farm, at a moment in seconds.
#[derive(Debug, Drop)]
pub struct Entry {
    pub moment: u64,
    pub act: Act,
}

/// What an entry does: the scheduler was opened; a show or an allocation is added; a subscription or a limit is set; a host
/// booted; a host was heard; a job is submitted; a depend is added or dropped; a job is paused or resumed, or killed; a frame is killed, eaten or
/// retried; a host is locked or opened; time passed; or a waiting frame is booked on a host. Each amount is within its limits.
#[derive(Debug, Drop)]
pub enum Act {
    Opened,
    Show { name: Text },
    Alloc { facility: Text, tag: Text },
    Sub(SubLine),
    Limit { name: Text, most: u32 },
    Boot(BootLine),
    Heard(HeardAct),
    Submit(JobSpec),
    AddDepend(DependSpec),
    DropDepend { depend: DependNo },
    Pause { job: Text, paused: bool },
    KillJob { job: Text },
    KillFrame(FramePlace),
    EatFrame(FramePlace),
    RetryFrame(FramePlace),
    Lock { host: Text, lock: LockState },
    Tick,
    Book { slot: Slot, host: HostNo },
}

/// A frame, by its number in a layer of a job.
#[derive(Debug, Drop)]
pub struct FramePlace {
    pub job: Text,
    pub layer: Text,
    pub frame: i32,
}

/// What a host's report says, but for what it runs: its boot number, the report's sequence number, and the
/// attempts that are done, in order.
#[derive(Debug, Drop)]
pub struct HeardAct {
    pub host: Text,
    pub boot: u32,
    pub seq: u64,
    pub done: Items<DoneItem>,
}
