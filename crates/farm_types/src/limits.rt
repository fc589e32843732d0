//! The limits of the farm, which code and rules share.

/// How many bytes a name of a show, job, layer, host or limit has at most.
pub const MOST_NAME: u32 = 64;

/// How many bytes a tag or a facility has at most.
pub const MOST_TAG: u32 = 31;

/// How many shows there are at most.
pub const MOST_SHOWS: u32 = 64;

/// How many allocations there are at most.
pub const MOST_ALLOCS: u32 = 16;

/// How many limits there are at most.
pub const MOST_LIMITS: u32 = 255;

/// The greatest count of frames that a limit lets run.
pub const MOST_RUNNING: u32 = 65_536;

/// How many hosts there are at most.
pub const MOST_HOSTS: u32 = 4096;

/// How many numbers there are for subscriptions: one for each show and allocation.
pub const SUB_NUMBERS: u32 = 1024;

/// How many frame slots there are, those that were never used too.
pub const SLOT_LIMIT: u32 = 65536;

/// The number of the last frame slot, counted from 0.
pub const LAST_SLOT: u32 = SLOT_LIMIT - 1;

/// The last version of a slot, at which it stays.
pub const LAST_VERSION: u32 = 16_777_215;

/// The greatest boot number of a host.
pub const LAST_BOOT: u32 = 4_294_967_295;

/// The greatest number that is given to a job.
pub const LAST_JOB: u32 = 4_294_967_295;

/// How many finished jobs are kept at most.
pub const MOST_FINISHED: u32 = 1_000;

/// How many depends are kept at most.
pub const MOST_DEPENDS: u32 = 16_384;

/// How many groups the depends that aren't satisfied have together at most.
pub const MOST_GROUPS: u32 = 1_000_000;

/// The greatest number that is given to a depend.
pub const LAST_DEPEND: u32 = 4_294_967_295;

/// The least cores of a host or a layer (hundredths of a core).
pub const LEAST_CORES: u32 = 10;

/// The most cores of a host or a layer (hundredths of a core).
pub const MOST_CORES: u32 = 1_000_000;

/// The least memory of a host or a layer (KB).
pub const LEAST_MEMORY: u64 = 262_144;

/// The most memory of a host or a layer (KB).
pub const MOST_MEMORY: u64 = 1_000_000_000_000;

/// The greatest size and burst of a subscription (hundredths of a core).
pub const MOST_BURST: u32 = 2_000_000_000;

/// How many tags a host or a layer has at most.
pub const MOST_TAGS: u32 = 32;

/// The highest priority of a job. The lowest is 1.
pub const MOST_PRIORITY: u32 = 1_000_000;

/// How often a frame is retried at most.
pub const MOST_RETRIES: u32 = 16;

/// How many layers a job has at most.
pub const MOST_LAYERS: u32 = 64;

/// How many frames a job has at most.
pub const MOST_FRAMES: u32 = 10_000;

/// How many bytes a layer's range has at most, as it is written.
pub const MOST_RANGE: u32 = 1024;

/// How many bytes a layer's command has at most.
pub const MOST_COMMAND: u32 = 4096;

/// The greatest exit status and the greatest exit signal.
pub const MOST_EXIT: u32 = 65_535;

/// For so many seconds a host may be silent.
pub const SILENT_SECONDS: u64 = 300;

/// How many candidates a report is offered at most.
pub const CANDIDATES_EACH: u32 = 64;

/// How many bookings a report's round makes at most.
pub const BOOKINGS_EACH: u32 = 12;
