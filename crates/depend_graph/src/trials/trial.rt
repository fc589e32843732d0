//! What is known of a trial so far.

ghost use Rattle.std.specs.Prelude.{◌≡◌, ◌≤◌, IfOk, None, [], length, nat_eq, ℕ};
ghost use Rattle.indexmap.specs.IndexMap.{get};
ghost use Rattle.depend_graph.specs.Meeting.{met_lists};
ghost use Rattle.depend_graph.specs.Trial.{AreOpened, marks_told, nothing_met};
ghost use Rattle.farm_types.specs.declared.limits.TheConstants.{SLOT_LIMIT};

use crate::trials::completion::Completion;
use crate::trials::meeting::Meeting;
use crate::trials::opens::opened_by;
use farm_types::Slot;
use indexmap::IndexMap;
use std::alloc::{AllocError, Global};

/// How many targets groups would lack, where that isn't as in the graph, under a key for each group; those who would be freed, each as often as it
/// would be; and what would be met.
#[derive(Drop)]
pub(crate) struct Trial {
    pub(crate) lacking: IndexMap<u64, u32>,
    pub(crate) freed: Vec<Slot>,
    pub(crate) meeting: Meeting,
}

impl Trial {
    /// All is as in the graph.
    pub(crate) fn new(alloc: Global) -> Trial
        ensures lacking { (key : ℕ) → get nat_eq result.lacking key ≡ None }
        ensures freed { result.freed.items ≡ [] }
        ensures met { met_lists result.meeting ≡ nothing_met }
    {
        Trial {
            lacking: IndexMap::new(alloc),
            freed: Vec::new(alloc),
            meeting: Meeting::new(alloc),
        }
    }

    /// What would open, where the frames wait in so many unmet groups, and what would be met.
    pub(crate) fn completion(self, alloc: Global, unmet: &[u32]) -> Result<Completion, AllocError>
        requires { length unmet.now ≤ SLOT_LIMIT }
        ensures opened { IfOk result (λ c. AreOpened unmet.now self.freed.items c.opened) }
        ensures marks { IfOk result (λ c. c.marks ≡ marks_told (met_lists self.meeting)) }
    {
        let Trial {
            lacking: _,
            freed,
            meeting,
        } = self;
        Ok(Completion {
            opened: opened_by(alloc, unmet, freed.as_slice())?,
            marks: meeting.marks(),
        })
    }
}
