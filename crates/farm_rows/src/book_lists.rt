//! A farm's lists, but for those of depends.

use farm_types::{AllocRow, HostRow, JobRow, LayerRow, LimitRow, ShowRow, SlotRow, SubRow};

/// The lists and counters of a farm, each list in the order of its numbers, but for depends, their marks and their next number. Shows,
/// allocations, limits, hosts and slots are numbered by their places.
#[derive(Debug, Drop)]
pub struct BookLists {
    pub shows: Vec<ShowRow>,
    pub allocs: Vec<AllocRow>,
    pub subs: Vec<SubRow>,
    pub limits: Vec<LimitRow>,
    pub hosts: Vec<HostRow>,
    pub jobs: Vec<JobRow>,
    pub layers: Vec<LayerRow>,
    pub slots: Vec<SlotRow>,
    pub next_job: u64,
    pub next_finish: u64,
    pub moment: u64,
    pub recorded: bool,
}
