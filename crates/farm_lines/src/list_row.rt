//! What a list shows of each thing.

ghost use Rattle.std.specs.Prelude.{◌≡◌, map};
ghost use Rattle.farm_lines.specs.RowKinds.{row_keys};

use farm_types::{
    Cores, DependKind, DependNo, FrameState, HostState, JobState, Kb, LockState, Slot, Text,
    Version,
};

/// A subscription: the names of its allocation and its show, its size and burst, and the cores that are booked of it.
#[derive(Debug, Drop)]
pub struct ShownSub {
    pub alloc: Text,
    pub booked: Cores,
    pub burst: Cores,
    pub show: Text,
    pub size: Cores,
}

/// A limit: how many frames of the layers that have it run at most, and how many run.
#[derive(Debug, Drop)]
pub struct ShownLimit {
    pub most: u32,
    pub name: Text,
    pub running: u32,
}

/// A host: the name of its allocation, the moment (seconds) when it was last heard, its cores and memory, and what of them live
/// attempts use.
#[derive(Debug, Drop)]
pub struct ShownHost {
    pub alloc: Text,
    pub boot: u32,
    pub cores: Cores,
    pub heard: u64,
    pub lock: LockState,
    pub memory: Kb,
    pub name: Text,
    pub state: HostState,
    pub used_cores: Cores,
    pub used_memory: Kb,
}

/// A job: the name of its show, and how many of its frames are in each state.
#[derive(Debug, Drop)]
pub struct ShownJob {
    pub dead: u32,
    pub depend: u32,
    pub eaten: u32,
    pub name: Text,
    pub paused: bool,
    pub priority: u32,
    pub running: u32,
    pub show: Text,
    pub state: JobState,
    pub succeeded: u32,
    pub waiting: u32,
}

/// A layer: its frame range as it is printed, what each attempt at one of its frames books, the name of its limit (empty where it
/// has none), and how many of its frames are in each state.
#[derive(Debug, Drop)]
pub struct ShownLayer {
    pub cores: Cores,
    pub dead: u32,
    pub depend: u32,
    pub eaten: u32,
    pub limit: Text,
    pub memory: Kb,
    pub name: Text,
    pub range: Text,
    pub running: u32,
    pub succeeded: u32,
    pub waiting: u32,
}

/// A frame, by its name.
#[derive(Debug, Drop)]
pub struct ShownFrame {
    pub frame: Text,
    pub retries: u32,
    pub state: FrameState,
    pub version: Version,
}

/// A depend.
#[derive(Debug, Drop)]
pub struct ShownDepend {
    pub depend: DependNo,
    pub kind: DependKind,
    pub satisfied: bool,
}

/// A live attempt: what it books, and the names of its frame, its host and its job.
#[derive(Debug, Drop)]
pub struct ShownProc {
    pub cores: Cores,
    pub frame: Text,
    pub host: Text,
    pub job: Text,
    pub memory: Kb,
    pub slot: Slot,
    pub version: Version,
}

/// A row of a list. Of a show and of an allocation it is the name.
#[derive(Debug, Drop)]
pub enum ListRow {
    Name { name: Text },
    Sub(ShownSub),
    Limit(ShownLimit),
    Host(ShownHost),
    Job(ShownJob),
    Layer(ShownLayer),
    Frame(ShownFrame),
    Depend(ShownDepend),
    Proc(ShownProc),
}

/// What keys a row has. Shows and allocations share one set.
#[derive(Clone, Copy, Debug, PartialEq, Eq)]
pub enum RowKind {
    Name,
    Sub,
    Limit,
    Host,
    Job,
    Layer,
    Frame,
    Depend,
    Proc,
}

impl RowKind {
    /// The keys of such a row, in byte order.
    pub fn keys(self) -> &'static [&'static str]
        ensures { map (λ key. key.now) result.now ≡ row_keys self }
    {
        match self {
            RowKind::Name => &["name"],
            RowKind::Sub => &["alloc", "booked", "burst", "show", "size"],
            RowKind::Limit => &["most", "name", "running"],
            RowKind::Host => &[
                "alloc",
                "boot",
                "cores",
                "heard",
                "lock",
                "memory",
                "name",
                "state",
                "used_cores",
                "used_memory",
            ],
            RowKind::Job => &[
                "dead",
                "depend",
                "eaten",
                "name",
                "paused",
                "priority",
                "running",
                "show",
                "state",
                "succeeded",
                "waiting",
            ],
            RowKind::Layer => &[
                "cores",
                "dead",
                "depend",
                "eaten",
                "limit",
                "memory",
                "name",
                "range",
                "running",
                "succeeded",
                "waiting",
            ],
            RowKind::Frame => &["frame", "retries", "state", "version"],
            RowKind::Depend => &["depend", "kind", "satisfied"],
            RowKind::Proc => &["cores", "frame", "host", "job", "memory", "slot", "version"],
        }
    }
}
