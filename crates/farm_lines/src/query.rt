//! The question for a list.

use farm_types::Text;

/// What a list shows: the shows, the allocations, the subscriptions, the limits, the hosts, the jobs or the live attempts of the farm, or the
/// layers, the frames or the depends of the pending job of that name.
#[derive(Debug, Drop)]
pub enum Listed {
    Shows,
    Allocs,
    Subs,
    Limits,
    Hosts,
    Jobs,
    Layers { job: Text },
    Frames { job: Text },
    Depends { job: Text },
    Procs,
}

/// A list, from that place (from 0) on.
#[derive(Debug, Drop)]
pub struct Query {
    pub what: Listed,
    pub from: u64,
}
