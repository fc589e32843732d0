//! Changes of the farm that were prepared.

ghost use Rattle.std.specs.Prelude.{◌≡◌};
ghost use Rattle.farm_changes.specs.Change.{adds_job};

use crate::act_answer::ActAnswer;
use alloc_tags::Spare;
use farm_draft::{Rows, SlotChange};
use farm_types::{BootLine, Cores, HostNo, JobNo, JobSpec, SubNo, Text};
use host_book::{BootPlan, HostSpare};
use job_book::{JobSpare, Placing};
use limit_book::{LimitPlan, Spare as LimitSpare};

/// A change that was prepared for an entry, at its moment (seconds): the rows that it leaves, what is known of the farm's answer, and the host that a
/// report is of. It is applied once its memory is reserved.
#[derive(Debug, Drop)]
pub struct Change {
    pub(crate) moment: u64,
    pub(crate) answer: ActAnswer,
    pub(crate) heard: Option<HostNo>,
    pub(crate) rows: Rows,
    pub(crate) more: More,
    pub(crate) reserved: bool,
    pub(crate) memory: Reserved,
}

/// A row that a change adds or sets, but for lives of hosts and rows of slots.
#[derive(Debug, Drop)]
pub(crate) enum More {
    /// None.
    Nothing,
    /// A show.
    Show {
        name: Text,
    },
    /// An allocation.
    Alloc {
        facility: Text,
        tag: Text,
    },
    /// A subscription, added or set.
    Sub {
        sub: SubNo,
        size: Cores,
        burst: Cores,
    },
    /// A limit, added or set.
    Limit {
        plan: LimitPlan,
        name: Text,
        most: u32,
    },
    /// A host, added or in a new boot.
    Boot {
        plan: BootPlan,
        line: BootLine,
    },
    /// A job that is paused, or resumed.
    Paused {
        job: JobNo,
        paused: bool,
    },
    /// A job with its layers and frames.
    Job {
        placing: Placing,
        spec: JobSpec,
    },
}

/// The memory that was taken for a change.
#[derive(Debug, Drop)]
pub(crate) enum Reserved {
    None,
    Alloc(Spare),
    Limit(LimitSpare),
    Host(HostSpare),
    Job(JobSpare),
}

impl Change {
    /// What is known of the farm's answer once the change is applied.
    pub fn answer(&self) -> ActAnswer
        ensures { result ≡ self.now.answer }
    {
        self.answer
    }

    /// The moment (seconds) that the farm comes to with the change.
    pub fn moment(&self) -> u64
        ensures { result ≡ self.now.moment }
    {
        self.moment
    }

    /// Whether a job is added.
    pub fn adds_job(&self) -> bool
        ensures { result ≡ adds_job self.now.more }
    {
        matches!(self.more, More::Job { .. })
    }

    /// The host that a report is of, and none for another act.
    pub fn heard(&self) -> Option<HostNo>
        ensures { result ≡ self.now.heard }
    {
        self.heard
    }

    /// The slots that the change sets, in the order in which they are set, each with the row that stands there and the one that it gets.
    pub fn slot_rows(&self) -> &[SlotChange]
        ensures { result.now ≡ self.now.rows.slots.items }
    {
        self.rows.slots.as_slice()
    }
}
