//! The farm before the first entry of a journal. No value of this type is made.

use farm_types::{
    AllocRow, DependRow, HostRow, JobRow, LayerRow, LimitRow, MetRow, ShowRow, SlotRow, SubRow,
};
use std::collections::LinkedList;

/// The farm before the first entry, by its lists.
pub struct Opening {
    pub shows: LinkedList<ShowRow>,
    pub allocs: LinkedList<AllocRow>,
    pub subs: LinkedList<SubRow>,
    pub limits: LinkedList<LimitRow>,
    pub hosts: LinkedList<HostRow>,
    pub jobs: LinkedList<JobRow>,
    pub layers: LinkedList<LayerRow>,
    pub slots: LinkedList<SlotRow>,
    pub depends: LinkedList<DependRow>,
    pub met: LinkedList<MetRow>,
    pub next_job: u64,
    pub next_depend: u64,
    pub next_finish: u64,
    pub moment: u64,
    pub recorded: bool,
}
