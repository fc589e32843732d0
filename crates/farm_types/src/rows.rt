//! The records of shows, allocations, subscriptions, limits, hosts, jobs and layers.

ghost use Rattle.std.specs.Prelude.{◌≡◌, IfOk};

use crate::items::Items;
use crate::numbers::{AllocNo, Cores, JobNo, Kb, LimitNo, ShowNo, SubNo};
use crate::states::{HostState, JobState, LockState};
use crate::text::Text;
use std::alloc::{AllocError, Global};

/// A show. Its number is its place in the list of shows.
#[derive(Debug, Drop)]
pub struct ShowRow {
    pub name: Text,
}

/// An allocation, named `facility.tag`. Its number is its place in the list of allocations.
#[derive(Debug, Drop)]
pub struct AllocRow {
    pub facility: Text,
    pub tag: Text,
}

/// A subscription of a show to an allocation, with its size and burst in hundredths of a core.
#[derive(Clone, Copy, Debug, PartialEq, Eq)]
pub struct SubRow {
    pub sub: SubNo,
    pub size: Cores,
    pub burst: Cores,
}

/// A limit, as of a studio's licences: at most so many frames of the layers that have it run at once. Its number
/// is its place in the list of limits.
#[derive(Debug, Drop)]
pub struct LimitRow {
    pub name: Text,
    pub most: u32,
}

/// A host. Its number is its place in the list of hosts. `seq` is the sequence number of its last report, 0
/// where its boot has none, and `heard` the moment (seconds) when it was last heard.
#[derive(Debug, Drop)]
pub struct HostRow {
    pub name: Text,
    pub alloc: AllocNo,
    pub tags: Items<Text>,
    pub cores: Cores,
    pub memory: Kb,
    pub boot: u32,
    pub nonce: u64,
    pub seq: u64,
    pub heard: u64,
    pub lock: LockState,
    pub state: HostState,
}

/// A job. `frames` is how many frames it was submitted with. A pending job has `finish`, `eaten` and
/// `succeeded` 0; a finished one keeps its finishing number and the counts.
#[derive(Debug, Drop)]
pub struct JobRow {
    pub job: JobNo,
    pub name: Text,
    pub show: ShowNo,
    pub facility: Text,
    pub shot: Text,
    pub user: Text,
    pub priority: u32,
    pub max_retries: u32,
    pub auto_eat: bool,
    pub paused: bool,
    pub state: JobState,
    pub frames: u32,
    pub finish: u64,
    pub eaten: u32,
    pub succeeded: u32,
}

/// A layer of a job, at its place (from 0) in the job. `range` is its frame range as it is printed, and
/// `cores` and `memory` are what each attempt at one of its frames books. Where it has a limit, that counts its running frames.
#[derive(Debug, Drop)]
pub struct LayerRow {
    pub job: JobNo,
    pub place: u32,
    pub name: Text,
    pub range: Text,
    pub command: Text,
    pub cores: Cores,
    pub memory: Kb,
    pub tags: Items<Text>,
    pub limit: Option<LimitNo>,
}

impl ShowRow {
    /// An equal show.
    pub fn copy(&self, alloc: Global) -> Result<ShowRow, AllocError>
        ensures { IfOk result (λ copy. copy ≡ self.now) }
    {
        Ok(ShowRow {
            name: self.name.copy(alloc)?,
        })
    }
}

impl AllocRow {
    /// An equal allocation.
    pub fn copy(&self, alloc: Global) -> Result<AllocRow, AllocError>
        ensures { IfOk result (λ copy. copy ≡ self.now) }
    {
        Ok(AllocRow {
            facility: self.facility.copy(alloc)?,
            tag: self.tag.copy(alloc)?,
        })
    }
}

impl LimitRow {
    /// An equal limit.
    pub fn copy(&self, alloc: Global) -> Result<LimitRow, AllocError>
        ensures { IfOk result (λ copy. copy ≡ self.now) }
    {
        Ok(LimitRow {
            name: self.name.copy(alloc)?,
            most: self.most,
        })
    }
}

impl HostRow {
    /// An equal host.
    pub fn copy(&self, alloc: Global) -> Result<HostRow, AllocError>
        ensures { IfOk result (λ copy. copy ≡ self.now) }
    {
        Ok(HostRow {
            name: self.name.copy(alloc)?,
            alloc: self.alloc,
            tags: self.tags.copy(alloc)?,
            cores: self.cores,
            memory: self.memory,
            boot: self.boot,
            nonce: self.nonce,
            seq: self.seq,
            heard: self.heard,
            lock: self.lock,
            state: self.state,
        })
    }
}

impl JobRow {
    /// An equal job.
    pub fn copy(&self, alloc: Global) -> Result<JobRow, AllocError>
        ensures { IfOk result (λ copy. copy ≡ self.now) }
    {
        Ok(JobRow {
            job: self.job,
            name: self.name.copy(alloc)?,
            show: self.show,
            facility: self.facility.copy(alloc)?,
            shot: self.shot.copy(alloc)?,
            user: self.user.copy(alloc)?,
            priority: self.priority,
            max_retries: self.max_retries,
            auto_eat: self.auto_eat,
            paused: self.paused,
            state: self.state,
            frames: self.frames,
            finish: self.finish,
            eaten: self.eaten,
            succeeded: self.succeeded,
        })
    }
}

impl LayerRow {
    /// An equal layer.
    pub fn copy(&self, alloc: Global) -> Result<LayerRow, AllocError>
        ensures { IfOk result (λ copy. copy ≡ self.now) }
    {
        Ok(LayerRow {
            job: self.job,
            place: self.place,
            name: self.name.copy(alloc)?,
            range: self.range.copy(alloc)?,
            command: self.command.copy(alloc)?,
            cores: self.cores,
            memory: self.memory,
            tags: self.tags.copy(alloc)?,
            limit: self.limit,
        })
    }
}
